ghost use Rattle.std.specs.Prelude.{◌≡◌, IfOk, IfErr};

use plain_data::{Exact, OutOfMemory};
use std::alloc::Global;

/// A value of which an equal one can be made.
pub trait Copied: Drop {
    /// An equal value. It shares the maps of this one, so that its cost doesn't grow with them.
    fn copied(&self, alloc: Global) -> Result<Self, OutOfMemory>
        ensures { IfOk result (λ made. made ≡ self.now) };
}

/// A value that a diff can lead to from another one (Elasticsearch's `Diffable`).
pub trait Diffable: Exact + Copied {
    /// What leads from one value to another.
    type Diff: Drop;

    ghost between: { Self → Self → Self.Diff };

    ghost patched: { Self.Diff → Self → Self };

    /// The diff that leads from `a` to `b`.
    fn between(alloc: Global, a: &Self, b: &Self) -> Result<Self::Diff, OutOfMemory>
        ensures made { IfOk result (λ made. made ≡ between a.now b.now) }

        // Patched onto `a` it is `b`.
        ensures leads { IfOk result (λ made. patched made a.now ≡ b.now) };

    /// The value with the diff patched onto it, at a cost that grows with the diff and not with the value. Want of
    /// memory hands the value back unchanged.
    fn patch(alloc: Global, diff: &Self::Diff, value: Self) -> Result<Self, Unpatched<Self>>
        ensures ok { IfOk result (λ made. made ≡ patched diff.now value) }
        ensures err { IfErr result (λ left. left.value ≡ value) };
}

/// A value that was to be patched, handed back unchanged for want of memory.
#[derive(Debug, Drop)]
pub struct Unpatched<T> {
    pub value: T,
}
