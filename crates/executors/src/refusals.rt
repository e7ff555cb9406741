ghost use Rattle.std.specs.Prelude.{◌≡◌};
ghost use Rattle.executors.specs.Refusals.{refusal_number};

use std::fmt;
use thiserror::Error;

/// Why an executor refused a task. A refused task changes nothing. It prints as one word, and has a number from 1 to 9.
#[derive(Clone, Copy, Debug, PartialEq, Eq, Error)]
pub enum TaskRefusal {
    /// An index has the name already.
    Exists = 1,

    /// There is no such index, or it lacks the alias.
    NotFound = 2,

    /// A rule of index names fails.
    InvalidName = 3,

    /// The setting can't be changed once the index is there.
    FinalSetting = 4,

    /// A number, key or value is outside what is allowed.
    BadValue = 5,

    /// An index has the alias's name, or an alias the index's.
    AliasClash = 6,

    /// The node is in the state already.
    NodeKnown = 7,

    /// The node isn't in the state.
    NodeUnknown = 8,

    /// The node is the master.
    MasterMayNotLeave = 9,
}

impl TaskRefusal {
    /// Its number, from 1 to 9 in the order above.
    pub fn number(&self) -> u8
        ensures { result ≡ refusal_number self.now }
    {
        *self as u8
    }
}

impl fmt::Display for TaskRefusal {
    ghost use Rattle.std.specs.Prelude.{Some};
    ghost use Rattle.executors.specs.Refusals.{refusal_word};

    ghost output = { λ r. Some (refusal_word r) };

    fn fmt<W: fmt::Write>(&self, f: &mut fmt::Formatter<W>) -> fmt::Result {
        match self {
            TaskRefusal::Exists => write!(f, "exists"),
            TaskRefusal::NotFound => write!(f, "not_found"),
            TaskRefusal::InvalidName => write!(f, "invalid_name"),
            TaskRefusal::FinalSetting => write!(f, "final_setting"),
            TaskRefusal::BadValue => write!(f, "bad_value"),
            TaskRefusal::AliasClash => write!(f, "alias_clash"),
            TaskRefusal::NodeKnown => write!(f, "node_known"),
            TaskRefusal::NodeUnknown => write!(f, "node_unknown"),
            TaskRefusal::MasterMayNotLeave => write!(f, "master_may_not_leave"),
        }
    }
}
