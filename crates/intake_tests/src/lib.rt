//! Tests of the public calls of the crates of waiting tasks, in a crate of their own as those of the lower crates are.
#![tactic(auto)]

mod small_lists;
mod small_tables;

pub use small_lists::{
    are_ids_of, is_next, is_waiting, list_for, next_of, order_of, put, put_alone, refusal_told,
    take_some, vacant_words,
};
pub use small_tables::table_with;

#[cfg(test)]
mod list_calls;
#[cfg(test)]
mod word_calls;
