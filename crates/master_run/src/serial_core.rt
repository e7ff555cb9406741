ghost use Rattle.std.specs.Prelude.{◌≡◌, ◌+◌, IfOk, OnOk};
ghost use Rattle.scripts.specs.Built.{IsBuilt};
ghost use Rattle.scripts.specs.Scripts.{IsScript};
ghost use Rattle.master_run.specs.Replays.{AreEnds, HasCounted, IsSound, course_of, serial_of};
ghost use Rattle.master_run.specs.Rests.{IsAtRest};
ghost use Rattle.master_run.specs.SerialSessions.{IsSerialSession};
ghost use Rattle.master_run.specs.Serials.{load, performed_all, replayed, rest};

use crate::replays::Replay;
use node_apply::NodeLink;
use plain_data::OutOfMemory;
use scripts::Script;
use session_law::Session;
use std::alloc::Global;

/// The serial core: it performs a script on one thread, by a rule that leaves nothing open.
pub struct SerialCore;

impl SerialCore {
    /// The session that the serial rule makes of a script: the turns of its schedule, and then rounds of turns until none
    /// acts.
    pub fn run(alloc: Global, script: &Script) -> Result<Session, OutOfMemory>
        requires script { IsScript script.now }
        requires built { IsBuilt script.now }
        ensures replayed { IfOk result (λ made. made ≡ replayed script.now) }

        // Its batches are a serial history, each task ended once, each acknowledgement ended as its required nodes
        // applied the version or its time ran out, and the last state is the one after all batches.
        ensures lawful { IsSerialSession script.now (replayed script.now) }

        // Where the rounds end, nothing waits and no client has a step left.
        ensures rested { IsAtRest script.now (performed_all script.now).course }
    {
        let (mut replay, mut links) = Replay::first(alloc, script)?;
        replay.follow(alloc, script, &mut links)?;
        perform_rounds(alloc, script, &mut replay, &mut links)?;
        replay.finish(alloc, script)
    }
}

/// Rounds, until one in which no turn acts.
fn perform_rounds(
    alloc: Global,
    script: &Script,
    replay: &mut Replay,
    links: &mut [NodeLink],
) -> Result<(), OutOfMemory>
    requires script { IsScript script.now }
    requires sound { IsSound script.now replay.old }
    requires acks { HasCounted script.now replay.old }
    requires ends { AreEnds script.now replay.old links.old }
    ensures rest { OnOk result (serial_of replay.new ≡ rest script.now (load script.now (course_of replay.old) + 1) (serial_of replay.old)) }
    ensures sound { OnOk result (IsSound script.now replay.new) }
    ensures acks { OnOk result (HasCounted script.now replay.new) }
{
    loop {
        if !replay.round(alloc, script, links)? {
            return Ok(());
        }
    }
}
