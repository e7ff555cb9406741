//! The law that a report fixes its session, the good form that it asks for, and the law that lawful sessions have it.
#![tactic(auto)]

mod apart;
mod bounds;
mod good_forms;
mod laws;

pub use bounds::numbers_are_words;
pub use good_forms::is_good_form;
pub use laws::{
    kept_sessions_are_of_good_form, lawful_sessions_are_of_good_form, one_of_its_report,
    reports_fix_sessions,
};
