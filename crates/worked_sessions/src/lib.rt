//! Sessions to check by hand: each is lawful, and with one thing of it changed it isn't.
#![tactic(auto)]

mod laws;

pub use laws::{
    awaiting_session_is_lawful, changed_awaiting_sessions_are_unlawful,
    changed_mixed_sessions_are_unlawful, changed_sessions_are_unlawful,
    changed_stopped_sessions_are_unlawful, changed_troubled_sessions_are_unlawful,
    mixed_session_is_lawful, open_choices_are_lawful, stopped_session_is_lawful,
    troubled_session_is_lawful, worked_session_is_lawful,
};
