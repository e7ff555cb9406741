//! Diffs: what leads from one value to another, for texts, numbers, nodes, maps, indices and whole states. A diff is
//! as long as what differs, and to make one of what is known to have changed, or to patch with one, costs as much.
#![tactic(auto)]

mod changes;
mod diffables;
mod index_diffs;
mod map_diffs;
mod metadata_diffs;
mod noting;
mod patching;
mod set_diffs;
mod state_diffs;

pub use changes::Whole;
pub use diffables::{Copied, Diffable, Unpatched};
pub use index_diffs::IndexDiff;
pub use map_diffs::MapDiff;
pub use metadata_diffs::MetadataDiff;
pub use state_diffs::{ApplyFault, ApplyRefusal, DiffParts, StateDiff};
