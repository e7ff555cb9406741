ghost use Rattle.std.specs.Prelude.{◌≡◌};
ghost use Rattle.state_diff.specs.Changes.{change_of, changed};

use crate::diffables::{Copied, Diffable, Unpatched};
use meta_state::NodeInfo;
use plain_data::{Exact, OutOfMemory, Text};
use std::alloc::Global;

/// A value that is told whole: its diff is the new value, or none where the two are equal.
pub trait Whole: Exact + Copied {}

impl<T: Whole> Diffable for T {
    type Diff = Option<T>;

    ghost between = { change_of T.eq };

    ghost patched = { changed };

    fn between(alloc: Global, a: &T, b: &T) -> Result<Option<T>, OutOfMemory> {
        if a == b {
            return Ok(None);
        }
        Ok(Some(b.copied(alloc)?))
    }

    fn patch(alloc: Global, diff: &Option<T>, value: T) -> Result<T, Unpatched<T>> {
        match diff {
            None => Ok(value),
            Some(new) => match new.copied(alloc) {
                Err(_) => Err(Unpatched { value }),
                Ok(made) => Ok(made),
            },
        }
    }
}

impl Whole for u64 {}

impl Whole for bool {}

impl Whole for Text {}

impl Whole for NodeInfo {}

impl Copied for u64 {
    fn copied(&self, _alloc: Global) -> Result<u64, OutOfMemory> {
        Ok(*self)
    }
}

impl Copied for bool {
    fn copied(&self, _alloc: Global) -> Result<bool, OutOfMemory> {
        Ok(*self)
    }
}

impl Copied for Text {
    fn copied(&self, _alloc: Global) -> Result<Text, OutOfMemory> {
        self.copy()
    }
}

impl Copied for NodeInfo {
    fn copied(&self, alloc: Global) -> Result<NodeInfo, OutOfMemory> {
        self.copy(alloc)
    }
}
