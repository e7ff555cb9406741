ghost use Rattle.observers.specs.Laws.{NextAgrees, NextIsShown, RegisteredAgrees, RegisteredIsShown, RetiredWasShown};

// Laws over the definitions: each function does nothing, and its contract is the law.

/// A watch that is registered is shown the state that its node has then, and tested on it.
pub fn registered_is_shown()
    ensures { RegisteredIsShown }
{}

/// Each kept watch that waits is shown the next state of its node once, without a gap.
pub fn next_is_shown()
    ensures { NextIsShown }
{}

/// A watch that is retired keeps what it was shown.
pub fn retired_was_shown()
    ensures { RetiredWasShown }
{}

/// After a watch is registered, the watches that the words tell as answered by the node are those that its registry
/// holds as answered, each with that version.
pub fn registered_agrees()
    ensures { RegisteredAgrees }
{}

/// They are so after the next state is shown, too.
pub fn next_agrees()
    ensures { NextAgrees }
{}
