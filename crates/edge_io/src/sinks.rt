use crate::Failed;

/// Where bytes go to, in order.
pub trait Sink {
    ghost use Rattle.std.specs.Prelude.{◌<◌, ◌≤◌, ℕ, List, length, OnErr};
    ghost use Rattle.std.specs.declared.option.Option.{Option};
    ghost use Rattle.std.specs.Io.KnownBytes.{WriteAppends};
    ghost use Rattle.edge_io.specs.Causes.{Rose};
    ghost use Rattle.edge_io.specs.Bytes.{WritesSome};

    /// The bytes that were written, where they are told.
    ghost held: { Self → Option (List ℕ) };

    /// How many writes have failed. It never falls, and ends at 2^64 - 1.
    ghost faults: { Self → ℕ };

    /// Appends bytes from the front of the piece: as many as it answers, which is at least one. `Failed` appends
    /// nothing.
    fn write_some(&mut self, piece: &[u8]) -> Result<usize, Failed>
        requires { 0 < length piece.now }
        ensures bound { WritesSome result piece.now }
        ensures bytes { WriteAppends (held self.old) (held self.new) result piece.now }
        ensures never_falls { faults self.old ≤ faults self.new }
        ensures cause { OnErr result (Rose (faults self.old) (faults self.new)) };
}
