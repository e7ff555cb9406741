use crate::{CollectFault, Source};
use std::alloc::Global;

// Bytes that one read asks for.
const PIECE: usize = 16384;

/// Reads an input whole.
pub struct Collector;

impl Collector {
    ghost use Rattle.std.specs.Prelude.{◌≤◌, ◌<◌, ◌+◌, ◌-◌, ◌^◌, IfOk, OnOk, IsErrOf, vec_len};
    ghost use Rattle.std.specs.Io.KnownBytes.{Consumes, IsAtEnd};
    ghost use Rattle.edge_io.specs.Causes.{Rose};
    ghost use Rattle.edge_io.specs.Bytes.{Takes, TakesAtMost};

    /// All bytes that are left in the source, at most `limit` of them. A fault drops the bytes that were read by
    /// then. Whether there is memory for the bytes is left open.
    #[tactic(auto, using(crate::proofs::Pieces::consumes_more))]
    pub fn all<S: Source>(
        alloc: Global,
        source: &mut S,
        limit: usize,
    ) -> Result<Vec<u8>, CollectFault>
        requires { limit < 2 ^ 64 - 1 }
        ensures bytes { IfOk result (λ taken. Consumes (S.left source.old) (S.left source.new) taken.items) }
        ensures end { OnOk result (IsAtEnd (S.left source.new)) }
        ensures within { IfOk result (λ taken. vec_len taken ≤ limit) }
        ensures read_fault { IsErrOf result CollectFault.ReadFault → Rose (S.faults source.old) (S.faults source.new) }

        // It is too long exactly where one more than `limit` was taken.
        ensures too_long { IsErrOf result CollectFault.TooLong → Takes (S.left source.old) (S.left source.new) (limit + 1) }
        ensures not_too_long { ¬ IsErrOf result CollectFault.TooLong → TakesAtMost (S.left source.old) (S.left source.new) limit }
        ensures never_falls { S.faults source.old ≤ S.faults source.new }
    {
        let mut taken = Vec::new(alloc);
        let mut buffer = [0u8; PIECE];
        for _turn in 0..limit + 1 {
            let room = (limit + 1 - taken.len()).min(PIECE);
            let piece = &mut buffer[..room];
            match source.read_some(piece) {
                Err(_) => return Err(CollectFault::ReadFault),
                Ok(0) => return Ok(taken),
                Ok(count) if count > limit - taken.len() => return Err(CollectFault::TooLong),
                Ok(count) => taken.extend_from_slice(&piece[..count])?,
            }
        }
        unreachable!()
    }
}
