use crate::{Sink, WriteFault};

/// Writes a text whole.
pub struct Emitter;

impl Emitter {
    ghost use Rattle.std.specs.Prelude.{◌≤◌, OnOk, OnErr};
    ghost use Rattle.std.specs.Io.KnownBytes.{Appends};
    ghost use Rattle.edge_io.specs.Causes.{Rose};
    ghost use Rattle.edge_io.specs.Bytes.{AppendsPart};

    /// Writes all the bytes, in order. A fault leaves a part of them written, from the front. It takes no memory.
    #[tactic(auto, using(crate::proofs::Pieces::appends_more))]
    pub fn all<K: Sink>(sink: &mut K, bytes: &[u8]) -> Result<(), WriteFault>
        ensures whole { OnOk result (Appends (K.held sink.old) (K.held sink.new) bytes.now) }
        ensures part { OnErr result (AppendsPart (K.held sink.old) (K.held sink.new) bytes.now) }
        ensures cause { OnErr result (Rose (K.faults sink.old) (K.faults sink.new)) }
        ensures never_falls { K.faults sink.old ≤ K.faults sink.new }
    {
        let mut done = 0;
        while done < bytes.len() {
            let (_, rest) = bytes.split_at(done);
            match sink.write_some(rest) {
                Err(_) => return Err(WriteFault),
                Ok(count) => done += count,
            }
        }
        Ok(())
    }
}
