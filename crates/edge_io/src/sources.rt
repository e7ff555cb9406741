use crate::Failed;

/// Where bytes come from, in order, each once.
pub trait Source {
    ghost use Rattle.std.specs.Prelude.{◌<◌, ◌≤◌, ℕ, List, length, OnErr};
    ghost use Rattle.std.specs.declared.option.Option.{Option};
    ghost use Rattle.std.specs.Io.{ReadsAtMost};
    ghost use Rattle.std.specs.Io.KnownBytes.{ReadConsumes};
    ghost use Rattle.edge_io.specs.Causes.{Rose};

    /// The bytes that are left, where they are told.
    ghost left: { Self → Option (List ℕ) };

    /// How many reads have failed. It never falls, and ends at 2^64 - 1.
    ghost faults: { Self → ℕ };

    /// Takes bytes from the front of those that are left, and puts them at the front of `into`: as many as it
    /// answers. It answers 0 only at the end of input. `Failed` takes nothing.
    fn read_some(&mut self, into: &mut [u8]) -> Result<usize, Failed>
        requires { 0 < length into.old }
        ensures bound { ReadsAtMost result into.new }
        ensures bytes { ReadConsumes (left self.old) (left self.new) result into.new }
        ensures never_falls { faults self.old ≤ faults self.new }
        ensures cause { OnErr result (Rose (faults self.old) (faults self.new)) };
}
