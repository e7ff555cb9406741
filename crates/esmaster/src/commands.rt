ghost use Rattle.std.specs.Prelude.{◌≡◌, ◌↔◌};
ghost use Rattle.esmaster.specs.Answers.{Replays};
ghost use Rattle.esmaster.specs.Commands.{IsReplay, is_replay_form};

use crate::exits::Exit;
use crate::replays::replay;
use edge_io::{Clock, Gate, Sink, Source};
use std::alloc::Global;
use std::sync::Wait;
use std::thread::Threads;

/// The program but for its edges: performs the command that the words say, on what is read, and writes what came of
/// it. The words are `replay`; any others are no command. The clock and the gate are for commands that run clients on
/// threads.
pub fn esmaster<R: Threads + Wait + Sync, S: Source, K: Sink, C: Clock + Sync, G: Gate + Sync>(
    _rt: &R,
    alloc: Global,
    words: &[String],
    source: &mut S,
    sink: &mut K,
    _clock: &C,
    _gate: &G,
) -> Exit
    // The words are no command, exactly; then nothing is read or written.
    ensures usage { result ≡ Exit.Usage ↔ ¬ IsReplay words.now }
    ensures unused { result ≡ Exit.Usage → (S.left source.new ≡ S.left source.old) × (K.held sink.new ≡ K.held sink.old) }

    // What `replay` answers.
    ensures replays { IsReplay words.now → Replays (record { left = S.left source.old; read_faults = S.faults source.old; held = K.held sink.old; write_faults = K.faults sink.old }) (record { left = S.left source.new; read_faults = S.faults source.new; held = K.held sink.new; write_faults = K.faults sink.new }) result }
{
    if is_replay(words) {
        replay(alloc, source, sink)
    } else {
        Exit::Usage
    }
}

fn is_replay(words: &[String]) -> bool
    ensures { result ≡ is_replay_form words.now }
{
    match words.split_first() {
        None => false,
        Some((word, more)) => word.as_str() == "replay" && more.is_empty(),
    }
}
