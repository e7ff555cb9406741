ghost use Rattle.session_law.specs.Laws.{AnswersAreFirstHits, AppliedWasHanded, OthersKeepTheState, TasksStandOnce, VersionsAreInOrder, ViewsAgreeWithLooks};

// Laws over the definitions: each function does nothing, and its contract is the law.

/// The committed versions of a book's batches are 2, 3, 4, .. in order.
pub fn versions_are_in_order()
    ensures { VersionsAreInOrder }
{}

/// No task is in two batches of a book.
pub fn tasks_stand_once()
    ensures { TasksStandOnce }
{}

/// A batch that is unchanged, failed or refused leaves the whole world as it was, and one whose publication fails leaves
/// the current state. Only a published one makes a new state, of the next version.
pub fn others_keep_the_state()
    ensures { OthersKeepTheState }
{}

/// A part of a watch that was answered was shown a state that hits it, and no earlier one that does.
pub fn answers_are_first_hits()
    ensures { AnswersAreFirstHits }
{}

/// What a node applied after its first state is a part, in order, of what it was handed.
pub fn applied_was_handed()
    ensures { AppliedWasHanded }
{}

/// Under each alias a view keeps the names that a look at it finds.
pub fn views_agree_with_looks()
    ensures { ViewsAgreeWithLooks }
{}
