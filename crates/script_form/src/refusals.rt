ghost use Rattle.std.specs.Prelude.{◌≡◌};
ghost use Rattle.script_form.specs.Refusals.{script_refusal_number};

use crate::limits::LimitName;
use crate::rules::Rule;
use plain_data::Text;
use std::fmt;
use thiserror::Error;

/// Why a script was not read. It prints as what the program says after the word `refused`, and has a number from 1 to
/// 4.
#[derive(Debug, Drop, Error)]
pub enum ScriptRefusal {
    /// The bytes aren't JSON in UTF-8, or nest deeper than 127.
    NotJson,

    /// The value at this path, of which `$` is the whole script, breaks this rule.
    BadShape { path: Text, rule: Rule },

    /// There is more of something than a script may have.
    Limit { name: LimitName },

    /// There was not enough memory. It says nothing of the script.
    OutOfMemory,
}

impl ScriptRefusal {
    /// Its number, from 1 to 4 in the order above.
    pub fn number(&self) -> u8
        ensures { result ≡ script_refusal_number self.now }
    {
        match self {
            ScriptRefusal::NotJson => 1,
            ScriptRefusal::BadShape { .. } => 2,
            ScriptRefusal::Limit { .. } => 3,
            ScriptRefusal::OutOfMemory => 4,
        }
    }
}

impl fmt::Display for ScriptRefusal {
    ghost use Rattle.std.specs.Prelude.{Some};
    ghost use Rattle.script_form.specs.Refusals.{refusal_text};

    ghost output = { λ r. Some (refusal_text r) };

    fn fmt<W: fmt::Write>(&self, f: &mut fmt::Formatter<W>) -> fmt::Result {
        match self {
            ScriptRefusal::NotJson => write!(f, "not_json"),
            ScriptRefusal::BadShape { path, rule } => write!(f, "bad_shape {path} {rule}"),
            ScriptRefusal::Limit { name } => write!(f, "limit {name}"),
            ScriptRefusal::OutOfMemory => write!(f, "out of memory"),
        }
    }
}
