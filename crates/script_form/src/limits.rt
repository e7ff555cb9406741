use std::fmt;

/// A limit of a script's size. It prints as one word.
#[derive(Clone, Copy, Debug, PartialEq, Eq)]
pub enum LimitName {
    /// How deep a predicate nests: at most 16 deep, the outermost being 1.
    Depth,

    /// The steps of one client: at most 4,096.
    Steps,

    /// The nodes of the script: at most 30.
    Nodes,

    /// The queues of the script: at most 64.
    Queues,

    /// The clients of the script: at most 32.
    Clients,

    /// The faults of the script: at most 1,024.
    Faults,

    /// The turns of the schedule: at most 65,536.
    Schedule,

    /// The predicates that one watch has after its first: at most 8.
    Then,

    /// What a replay would have to do in all: the square of the submits times the nodes is at most 8,000,000, and the
    /// submits times the looks at aliases at most 4,000,000.
    Work,
}

impl fmt::Display for LimitName {
    ghost use Rattle.std.specs.Prelude.{Some};
    ghost use Rattle.script_form.specs.Refusals.{limit_word};

    ghost output = { λ l. Some (limit_word l) };

    fn fmt<W: fmt::Write>(&self, f: &mut fmt::Formatter<W>) -> fmt::Result {
        match self {
            LimitName::Depth => write!(f, "depth"),
            LimitName::Steps => write!(f, "steps"),
            LimitName::Nodes => write!(f, "nodes"),
            LimitName::Queues => write!(f, "queues"),
            LimitName::Clients => write!(f, "clients"),
            LimitName::Faults => write!(f, "faults"),
            LimitName::Schedule => write!(f, "schedule"),
            LimitName::Then => write!(f, "then"),
            LimitName::Work => write!(f, "work"),
        }
    }
}
