ghost use Rattle.std.specs.Prelude.{◌≡◌, ◌≤◌, IfOk, IsTrue, bytes_eq, length, map, option_map};
ghost use Rattle.std.specs.List.{list_any};
ghost use Rattle.serde_json.specs.View.{view, members_view};
ghost use Rattle.scripts.specs.Names.{is_name};
ghost use Rattle.scripts.specs.ValidSteps.{is_time, is_positive_time};
ghost use Rattle.script_form.specs.Misfits.{Reads};
ghost use Rattle.script_form.specs.Parts.{are_known, data_of, flag_of, list_of, member_of, name_of, object_of, optional, required, short_list, text_of, time_of, positive_of, whole_of};
ghost use Rattle.script_form.specs.Parts as spec;

use crate::limits::LimitName;
use crate::misfits::{Misfit, against, in_member, too_many};
use crate::rules::Rule;
use plain_data::{OutOfMemory, Text};
use scripts::is_a_name;
use serde_json::{Map, Value};
use std::alloc::Global;
use std::str;

// The longest time, in milliseconds.
const LONGEST: u64 = 4_294_967_295;

/// What the bytes say as JSON; none where they aren't JSON.
#[tactic(auto, using(crate::proofs::Utf8::utf8))]
pub(crate) fn parse(alloc: Global, bytes: &[u8]) -> Result<Option<Value>, OutOfMemory>
    ensures { IfOk result (λ found. option_map view found ≡ data_of bytes.now) }
{
    let Ok(text) = str::from_utf8(bytes) else {
        return Ok(None);
    };
    match Value::from_str(alloc, text) {
        Ok(value) => Ok(Some(value)),
        Err(error) => {
            if error.is_memory() {
                Err(OutOfMemory)
            } else {
                Ok(None)
            }
        }
    }
}

/// Asks that a value be an object.
pub(crate) fn check_object(alloc: Global, value: &Value) -> Result<(), Misfit>
    ensures { Reads (λ u. u) result (object_of (view value.now)) }
{
    match value.as_object() {
        None => Err(against(alloc, Rule::WrongType)),
        Some(_) => Ok(()),
    }
}

/// Asks that a value be an object with no members but those known.
pub(crate) fn check_members(alloc: Global, value: &Value, known: &[&str]) -> Result<(), Misfit>
    ensures { Reads (λ u. u) result (spec.check_members (map (λ k. k.now) known.now) (view value.now)) }
{
    match value.as_object() {
        None => Err(against(alloc, Rule::WrongType)),
        Some(members) => {
            if are_all_known(members, known) {
                Ok(())
            } else {
                Err(against(alloc, Rule::Unknown))
            }
        }
    }
}

#[tactic(auto, using(crate::proofs::Views::known_keys))]
fn are_all_known(members: &Map<String, Value>, known: &[&str]) -> bool
    ensures { result ≡ are_known (map (λ k. k.now) known.now) (members_view members.now.entries) }
{
    for key in members.keys() {
        if !is_known_key(known, key.as_str()) {
            return false;
        }
    }
    true
}

fn is_known_key(known: &[&str], key: &str) -> bool
    ensures { result ≡ list_any (λ name. bytes_eq key.now name.now) known.now }
{
    known.iter().any(|name| key == *name)
}

/// A member that has to be there.
pub(crate) fn member<'a>(alloc: Global, value: &'a Value, key: &str) -> Result<&'a Value, Misfit>
    ensures { Reads (λ v. view v.now) result (member_of key.now (view value.now)) }
{
    match value.get(key) {
        None => in_member(alloc, key, Err(against(alloc, Rule::Missing))),
        Some(member) => Ok(member),
    }
}

/// The values of a list.
#[tactic(auto, using(crate::proofs::Views::items_list_view))]
pub(crate) fn values_of(alloc: Global, value: &Value) -> Result<&[Value], Misfit>
    ensures { Reads (λ vs. map view vs.now) result (list_of (view value.now)) }
{
    match value.as_array() {
        None => Err(against(alloc, Rule::WrongType)),
        Some(values) => Ok(values.as_slice()),
    }
}

/// The values of a list of limited length.
pub(crate) fn values_up_to(
    alloc: Global,
    value: &Value,
    most: usize,
    limit: LimitName,
) -> Result<&[Value], Misfit>
    ensures exact { Reads (λ vs. map view vs.now) result (short_list most limit (view value.now)) }
    ensures short { IfOk result (λ vs. length vs.now ≤ most) }
{
    let values = values_of(alloc, value)?;
    if values.len() > most {
        Err(too_many(limit))
    } else {
        Ok(values)
    }
}

pub(crate) fn text_in(alloc: Global, value: &Value) -> Result<&str, Misfit>
    ensures { Reads (λ s. s.now) result (text_of (view value.now)) }
{
    match value.as_str() {
        None => Err(against(alloc, Rule::WrongType)),
        Some(text) => Ok(text),
    }
}

/// Any text.
pub(crate) fn any_text_in(alloc: Global, value: &Value) -> Result<Text, Misfit>
    ensures { Reads (λ t. t) result (text_of (view value.now)) }
{
    Ok(Text::from_str(alloc, text_in(alloc, value)?)?)
}

pub(crate) fn flag_in(alloc: Global, value: &Value) -> Result<bool, Misfit>
    ensures { Reads (λ b. b) result (flag_of (view value.now)) }
{
    match value.as_bool() {
        None => Err(against(alloc, Rule::WrongType)),
        Some(flag) => Ok(flag),
    }
}

/// A whole number from 0 to 2^64 - 1.
pub(crate) fn whole_in(alloc: Global, value: &Value) -> Result<u64, Misfit>
    ensures { Reads (λ n. n) result (whole_of (view value.now)) }
{
    match value.as_u64() {
        None => Err(against(alloc, Rule::WrongType)),
        Some(number) => Ok(number),
    }
}

/// A time, in milliseconds.
pub(crate) fn time_in(alloc: Global, value: &Value) -> Result<u64, Misfit>
    ensures { Reads (λ n. n) result (time_of (view value.now)) }
{
    let ms = whole_in(alloc, value)?;
    if ms <= LONGEST {
        Ok(ms)
    } else {
        Err(against(alloc, Rule::Range))
    }
}

/// A whole number from 1 to 4,294,967,295.
pub(crate) fn positive_in(alloc: Global, value: &Value) -> Result<u64, Misfit>
    ensures { Reads (λ n. n) result (positive_of (view value.now)) }
{
    let ms = whole_in(alloc, value)?;
    if 1 <= ms && ms <= LONGEST {
        Ok(ms)
    } else {
        Err(against(alloc, Rule::Range))
    }
}

/// A truth value that may be left out.
pub(crate) fn flag_or(
    alloc: Global,
    value: &Value,
    key: &str,
    default: bool,
) -> Result<bool, Misfit>
    ensures { Reads (λ b. b) result (optional key.now default flag_of (view value.now)) }
{
    match value.get(key) {
        None => Ok(default),
        Some(member) => in_member(alloc, key, flag_in(alloc, member)),
    }
}

/// A whole number that may be left out.
pub(crate) fn whole_or(alloc: Global, value: &Value, key: &str, default: u64) -> Result<u64, Misfit>
    ensures { Reads (λ n. n) result (optional key.now default whole_of (view value.now)) }
{
    match value.get(key) {
        None => Ok(default),
        Some(member) => in_member(alloc, key, whole_in(alloc, member)),
    }
}

/// A time that may be left out, in milliseconds, and is 0 then.
pub(crate) fn time_or_zero(alloc: Global, value: &Value, key: &str) -> Result<u64, Misfit>
    ensures { Reads (λ n. n) result (optional key.now 0 time_of (view value.now)) }
{
    match value.get(key) {
        None => Ok(0),
        Some(member) => in_member(alloc, key, time_in(alloc, member)),
    }
}

/// A text that has to be there.
pub(crate) fn text_at(alloc: Global, value: &Value, key: &str) -> Result<Text, Misfit>
    ensures { Reads (λ t. t) result (required key.now text_of (view value.now)) }
{
    in_member(alloc, key, any_text_in(alloc, member(alloc, value, key)?))
}

/// A whole number that has to be there.
pub(crate) fn whole_at(alloc: Global, value: &Value, key: &str) -> Result<u64, Misfit>
    ensures { Reads (λ n. n) result (required key.now whole_of (view value.now)) }
{
    in_member(alloc, key, whole_in(alloc, member(alloc, value, key)?))
}

/// A name of a cluster, a node or a queue.
pub(crate) fn name_in(alloc: Global, value: &Value) -> Result<Text, Misfit>
    ensures { Reads (λ t. t) result (name_of (view value.now)) }
{
    let text = text_in(alloc, value)?;
    if !is_a_name(text) {
        return Err(against(alloc, Rule::Name));
    }
    Ok(Text::from_str(alloc, text)?)
}
