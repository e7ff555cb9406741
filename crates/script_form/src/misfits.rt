ghost use Rattle.std.specs.Prelude.{◌≡◌, [], IfOk, Ok};
ghost use Rattle.script_form.specs.Misfits.{Reads, at_member, at_place, within};
ghost use Rattle.script_form.specs.Misfits as spec;
ghost use Rattle.script_form.specs.declared.misfits.Misfit.TheVariants.{Bad, Limit, OutOfMemory as WantsMemory};

use crate::limits::LimitName;
use crate::rules::Rule;
use plain_data::{OutOfMemory, Text};
use std::alloc::Global;

/// Why a part of a script was not read.
#[derive(Drop)]
pub(crate) enum Misfit {
    /// What stands at this place, seen from the value that was read, breaks this rule.
    Bad { path: Text, rule: Rule },

    /// There is more of something than a script may have.
    Limit { name: LimitName },
    OutOfMemory,
}

impl From<OutOfMemory> for Misfit {
    ghost from_gives = { λ _ e. e ≡ WantsMemory };

    fn from(_wanting: OutOfMemory) -> Misfit {
        Misfit::OutOfMemory
    }
}

/// The value that is read breaks a rule. It takes no memory.
pub(crate) fn against(alloc: Global, rule: Rule) -> Misfit
    ensures { result ≡ Bad [] rule }
{
    Misfit::Bad {
        path: Text::new(alloc),
        rule,
    }
}

/// There is more of something than a script may have.
pub(crate) fn too_many(name: LimitName) -> Misfit
    ensures { result ≡ Limit name }
{
    Misfit::Limit { name }
}

/// What was read of a member's value, seen from the object.
pub(crate) fn in_member<T: Drop>(
    alloc: Global,
    key: &str,
    read: Result<T, Misfit>,
) -> Result<T, Misfit>
    ensures exact { Reads (λ t. t) result (within (at_member key.now) read) }
    ensures passes { IfOk result (λ t. read ≡ Ok t) }
{
    match read {
        Err(Misfit::Bad { path, rule }) => Err(Misfit::Bad {
            path: join_member(alloc, key, &path)?,
            rule,
        }),
        other => other,
    }
}

/// What was read of the k-th value of a list, seen from the list.
pub(crate) fn in_place<T: Drop>(
    alloc: Global,
    k: usize,
    read: Result<T, Misfit>,
) -> Result<T, Misfit>
    ensures exact { Reads (λ t. t) result (within (at_place k) read) }
    ensures passes { IfOk result (λ t. read ≡ Ok t) }
{
    match read {
        Err(Misfit::Bad { path, rule }) => Err(Misfit::Bad {
            path: join_place(alloc, k, &path)?,
            rule,
        }),
        other => other,
    }
}

/// A place seen from the object in whose member it stands.
fn join_member(alloc: Global, key: &str, path: &Text) -> Result<Text, OutOfMemory>
    ensures { IfOk result (λ joined. joined ≡ at_member key.now path.now) }
{
    let text = if is_no_member(path.as_bytes()) {
        format!(in alloc; "{key}{path}")?
    } else {
        format!(in alloc; "{key}.{path}")?
    };
    Ok(Text::from_string(text))
}

/// A place seen from the list in whose k-th value it stands.
fn join_place(alloc: Global, k: usize, path: &Text) -> Result<Text, OutOfMemory>
    ensures { IfOk result (λ joined. joined ≡ at_place k path.now) }
{
    let text = if is_no_member(path.as_bytes()) {
        format!(in alloc; "[{k}]{path}")?
    } else {
        format!(in alloc; "[{k}].{path}")?
    };
    Ok(Text::from_string(text))
}

/// Whether a place doesn't begin with a member's name.
fn is_no_member(path: &[u8]) -> bool
    ensures { result ≡ spec.is_no_member path.now }
{
    match path.first() {
        None => true,
        Some(first) => *first == b'[',
    }
}
