use std::fmt;

/// The rule of a script's form that a value breaks. It prints as one word.
#[derive(Clone, Copy, Debug, PartialEq, Eq)]
pub enum Rule {
    /// The value is of another JSON type.
    WrongType,

    /// There is no member of this name.
    Unknown,

    /// A required member isn't there.
    Missing,

    /// A number is outside its range.
    Range,

    /// The script is of another version.
    Version,

    /// A name breaks the rule of names.
    Name,

    /// A word isn't one of those allowed.
    Value,

    /// It refers to what isn't there.
    Reference,

    /// The first node isn't fit to be the master, or a fault names the master.
    Master,

    /// It stands a second time where it may stand once.
    Twice,

    /// A script has a second step of closing.
    Close,

    /// The form isn't built yet.
    NotBuilt,
}

impl fmt::Display for Rule {
    ghost use Rattle.std.specs.Prelude.{Some};
    ghost use Rattle.script_form.specs.Refusals.{rule_word};

    ghost output = { λ r. Some (rule_word r) };

    fn fmt<W: fmt::Write>(&self, f: &mut fmt::Formatter<W>) -> fmt::Result {
        match self {
            Rule::WrongType => write!(f, "type"),
            Rule::Unknown => write!(f, "unknown"),
            Rule::Missing => write!(f, "missing"),
            Rule::Range => write!(f, "range"),
            Rule::Version => write!(f, "version"),
            Rule::Name => write!(f, "name"),
            Rule::Value => write!(f, "value"),
            Rule::Reference => write!(f, "reference"),
            Rule::Master => write!(f, "master"),
            Rule::Twice => write!(f, "twice"),
            Rule::Close => write!(f, "close"),
            Rule::NotBuilt => write!(f, "not_built"),
        }
    }
}
