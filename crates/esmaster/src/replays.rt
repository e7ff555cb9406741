ghost use Rattle.esmaster.specs.Answers.{Ends, Replays};

use crate::answers::answer_to;
use crate::exits::Exit;
use edge_io::{CollectFault, Collector, Emitter, Sink, Source};
use std::alloc::Global;

/// How many bytes a script may have.
pub const SCRIPT_LIMIT: usize = 16_777_216;

/// Reads a script, performs it by the serial rule, and writes its report; or the line that refuses it.
pub fn replay<S: Source, K: Sink>(alloc: Global, source: &mut S, sink: &mut K) -> Exit
    ensures { Replays (record { left = S.left source.old; read_faults = S.faults source.old; held = K.held sink.old; write_faults = K.faults sink.old }) (record { left = S.left source.new; read_faults = S.faults source.new; held = K.held sink.new; write_faults = K.faults sink.new }) result }
{
    perform(alloc, source, sink)
}

/// The work of `replay`, with what its end tells.
fn perform<S: Source, K: Sink>(alloc: Global, source: &mut S, sink: &mut K) -> Exit
    ensures { Ends (record { left = S.left source.old; read_faults = S.faults source.old; held = K.held sink.old; write_faults = K.faults sink.old }) (record { left = S.left source.new; read_faults = S.faults source.new; held = K.held sink.new; write_faults = K.faults sink.new }) result }
{
    let bytes = match Collector::all(alloc, source, SCRIPT_LIMIT) {
        Ok(bytes) => bytes,
        Err(CollectFault::ReadFault) => return Exit::ReadFault,
        Err(CollectFault::TooLong) => return Exit::TooLong,
        Err(CollectFault::OutOfMemory) => return Exit::OutOfMemory,
    };
    let Ok(answer) = answer_to(alloc, bytes.as_slice()) else {
        return Exit::OutOfMemory;
    };
    match Emitter::all(sink, answer.text.as_bytes()) {
        Err(_) => Exit::WriteFault,
        Ok(()) => {
            if answer.refused {
                Exit::ScriptRefused
            } else {
                Exit::Done
            }
        }
    }
}
