ghost use Rattle.worked_sessions.specs.WorkedLaws.{AreAwaitingUnlawful, AreMixedUnlawful, AreOpen, AreStoppedUnlawful, AreTroubledUnlawful, AreUnlawful, IsWorked};
ghost use Rattle.worked_sessions.specs.Awaiting.{awaiting_script, awaiting_session};
ghost use Rattle.worked_sessions.specs.Mixed.{mixed_script, mixed_session};
ghost use Rattle.worked_sessions.specs.Stopped.{stopped_script, stopped_session};
ghost use Rattle.worked_sessions.specs.Troubled.{troubled_script, troubled_session};
ghost use Rattle.worked_sessions.specs.Worked.{worked_script, worked_session};

// Laws over the definitions: each function does nothing, and its contract is the law.

/// There is a lawful session of a valid script, of good form: the small one that `docs/MODEL.md` works through.
pub fn worked_session_is_lawful()
    ensures { IsWorked worked_script worked_session }
{}

/// With one thing of it changed it isn't lawful.
pub fn changed_sessions_are_unlawful()
    ensures { AreUnlawful }
{}

/// A session with faults, of a valid script, is lawful and of good form: a failed publication, a lost commit, a failed
/// apply, an acknowledgement that fails and one that times out.
pub fn troubled_session_is_lawful()
    ensures { IsWorked troubled_script troubled_session }
{}

/// With one thing of it changed it isn't lawful.
pub fn changed_troubled_sessions_are_unlawful()
    ensures { AreTroubledUnlawful }
{}

/// A session with timeouts and a close step, of a valid script, is lawful and of good form: a watch in two parts and what
/// continues it, and what times out and what is closed.
pub fn stopped_session_is_lawful()
    ensures { IsWorked stopped_script stopped_session }
{}

/// With one thing of it changed it isn't lawful.
pub fn changed_stopped_sessions_are_unlawful()
    ensures { AreStoppedUnlawful }
{}

/// A session with the other ends that tasks have, of a valid script, is lawful and of good form: a node that joins and
/// leaves, a refused task, a batch that fails, one that changes nothing, an acknowledgement that comes too late, and an
/// awaited watch.
pub fn mixed_session_is_lawful()
    ensures { IsWorked mixed_script mixed_session }
{}

/// With one thing of it changed it isn't lawful.
pub fn changed_mixed_sessions_are_unlawful()
    ensures { AreMixedUnlawful }
{}

/// A session whose client awaits a task and a watch before it closes, of a valid script, is lawful and of good form.
pub fn awaiting_session_is_lawful()
    ensures { IsWorked awaiting_script awaiting_session }
{}

/// It isn't lawful where the close step ends that task or that watch.
pub fn changed_awaiting_sessions_are_unlawful()
    ensures { AreAwaitingUnlawful }
{}

/// What the rules leave open is lawful either way: an acknowledgement that may time out comes in time, a task that may
/// time out is closed, and a watch times out as it is shown a state that hits it, and tells its client nothing.
pub fn open_choices_are_lawful()
    ensures { AreOpen }
{}
