//! The master: its book of batches, each with the state that it left, and the serial core that performs a script on
//! one thread.
#![tactic(auto)]

mod acknowledgements;
mod applier_lists;
mod books;
mod conclusions;
mod endings;
mod first_worlds;
mod laws;
mod moments;
mod node_openings;
mod passing;
mod plans;
mod replays;
mod replies;
mod sendings;
mod serial_core;
mod servings;

pub use books::{Book, BookEnd};
pub use laws::{events_keep_lawful, rest_is_lawful};
pub use plans::{Plan, Planned, Proposal};
pub use sendings::Sent;
pub use serial_core::SerialCore;
