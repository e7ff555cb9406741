ghost use Rattle.std.specs.Prelude.{◌≡◌, ◌≤◌, ◌-◌, ◌^◌};
ghost use Rattle.session_law.specs.DueTimes.{due};
ghost use Rattle.master_run.specs.Endings.{code_of, deadline_of, end_by, end_of_word, outcome_by};

use session_law::TaskEnd;
use task_words::{EndCode, Outcome, Word};

/// The last moment of a clock, in milliseconds.
pub(crate) const LAST_MOMENT: u64 = 8796093022206;

/// The deadline of what never times out: no clock answers this moment.
const NEVER: u64 = 8796093022207;

/// What a word tells of the end of a task in a batch.
pub(crate) fn code_of(batch: u32, end: TaskEnd) -> EndCode
    ensures { result ≡ code_of batch end }
{
    EndCode {
        batch,
        outcome: outcome_by(end),
    }
}

/// The outcome that a word tells of an end.
fn outcome_by(end: TaskEnd) -> Outcome
    ensures { result ≡ outcome_by end }
{
    match end {
        TaskEnd::Ok { version } => Outcome::Ok { version },
        TaskEnd::Unchanged { version } => Outcome::Unchanged { version },
        TaskEnd::Refused { refusal } => Outcome::Refused { refusal },
        TaskEnd::BatchFailed { position, refusal } => Outcome::BatchFailed { position, refusal },
        TaskEnd::NotMaster => Outcome::NotMaster,
        TaskEnd::PublishFailed => Outcome::PublishFailed,
        TaskEnd::Timeout { .. } | TaskEnd::Closed { .. } => Outcome::Closed,
    }
}

/// The end that an outcome tells of; none where the task was closed.
fn end_by(outcome: Outcome) -> Option<TaskEnd>
    ensures { result ≡ end_by outcome }
{
    match outcome {
        Outcome::Ok { version } => Some(TaskEnd::Ok { version }),
        Outcome::Unchanged { version } => Some(TaskEnd::Unchanged { version }),
        Outcome::Refused { refusal } => Some(TaskEnd::Refused { refusal }),
        Outcome::BatchFailed { position, refusal } => {
            Some(TaskEnd::BatchFailed { position, refusal })
        }
        Outcome::NotMaster => Some(TaskEnd::NotMaster),
        Outcome::PublishFailed => Some(TaskEnd::PublishFailed),
        Outcome::Closed => None,
    }
}

/// When a task that may wait so long times out.
pub(crate) fn deadline_of(at: u64, timeout: Option<u64>) -> u64
    ensures { result ≡ deadline_of at timeout }
{
    match timeout {
        None => NEVER,
        Some(timeout) => due(at, timeout),
    }
}

/// The moment so many milliseconds later, though never past the last one.
pub(crate) fn due(at: u64, timeout: u64) -> u64
    ensures { result ≡ due at timeout }
{
    at.saturating_add(timeout).min(LAST_MOMENT)
}

/// How a task ended, by its word; none where it hasn't.
pub(crate) fn end_of_word(at: u64, timeout: Option<u64>, word: Word) -> Option<TaskEnd>
    ensures { result ≡ end_of_word at timeout word }
{
    match word {
        Word::Vacant | Word::Queued { .. } | Word::Taken { .. } => None,
        Word::Ended { code } => end_by(code.outcome),
        Word::Timed { reading } => Some(TaskEnd::Timeout {
            deadline: deadline_of(at, timeout),
            reading,
        }),
    }
}
