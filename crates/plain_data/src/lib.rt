//! The plain types that every layer shares: text, lists, maps and sets that contracts see as lists,
//! the want of memory, and the law by which `==` decides equality.
#![tactic(auto)]

mod balancing;
mod boxes;
mod comparisons;
mod laws;
mod lists;
mod maps;
mod memory;
mod pairs;
mod paths;
mod sets;
mod shares;
mod texts;
mod trees;

pub use boxes::Boxed;
pub use comparisons::is_same_among;
pub use laws::{Exact, is_same};
pub use lists::Items;
pub use maps::Map;
pub use memory::OutOfMemory;
pub use pairs::Pairs;
pub use sets::{NameSet, Names};
pub use texts::Text;
