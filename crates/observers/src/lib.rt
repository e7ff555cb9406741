//! The watches of a node: how far each is, what it was shown, and what answers it.
#![tactic(auto)]

mod answers;
mod laws;
mod plain_registries;
mod plain_watches;
mod watch_words;
mod watching_lists;
mod watchings;

pub use answers::{AnswerTry, WatchExpiry, WatchPoll};
pub use laws::{
    next_agrees, next_is_shown, registered_agrees, registered_is_shown, retired_was_shown,
};
pub use plain_registries::PlainRegistry;
pub use plain_watches::PlainWatches;
pub use watch_words::WatchWord;
pub use watching_lists::WatchingList;
pub use watchings::{FinalShown, WatchPart, WatchSpec, Watching};
