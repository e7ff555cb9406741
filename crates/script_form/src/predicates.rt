ghost use Rattle.std.specs.Prelude.{◌≡◌, ◌≤◌, ◌+◌, [], IfOk, IsTrue, length, map, option_map};
ghost use Rattle.serde_json.specs.View.{view, members_view};
ghost use Rattle.scripts.specs.ValidSteps.{deepest, depth_of, is_pred};
ghost use Rattle.std.specs.List.{list_all};
ghost use Rattle.script_form.specs.Misfits.{Reads, at_place, within};
ghost use Rattle.script_form.specs.Parts.{is_known};
ghost use Rattle.script_form.specs.Predicates.{choice_of, only_of, pred_by, pred_of, pred_words, preds_by, setting_pred_of, thens_of};

use crate::limits::LimitName;
use crate::misfits::{Misfit, against, in_member, in_place, too_many};
use crate::parts::{any_text_in, check_members, text_at, values_of, values_up_to, whole_in};
use crate::rules::Rule;
use meta_state::Pred;
use plain_data::{Boxed, Items};
use serde_json::{Map, Value};
use std::alloc::Global;

// How deep predicates nest.
const DEEPEST: u32 = 16;

/// A predicate.
pub(crate) fn outer_pred_in(alloc: Global, value: &Value) -> Result<Pred, Misfit>
    ensures { Reads (λ p. p) result (pred_of 16 (view value.now)) }
{
    pred_in(alloc, value, DEEPEST)
}

/// Predicates, each to be met after the one before it.
pub(crate) fn thens_in(alloc: Global, value: &Value) -> Result<Items<Pred>, Misfit>
    ensures { Reads (λ ps. ps) result (thens_of (view value.now)) }
{
    preds_in(
        alloc,
        values_up_to(alloc, value, 8, LimitName::Then)?,
        DEEPEST,
    )
}

/// A predicate that may nest `left` deep.
#[cycle(nesting)]
#[tactic(auto, using(crate::proofs::Depths::pred_of_none, crate::proofs::Depths::pred_of_more))]
fn pred_in(alloc: Global, value: &Value, left: u32) -> Result<Pred, Misfit>
    ensures { Reads (λ p. p) result (pred_of left (view value.now)) }
{
    let (word, inner) = choice_in(alloc, value)?;
    if left == 0 {
        return Err(too_many(LimitName::Depth));
    }
    in_member(alloc, word, pred_by_word(alloc, word, inner, left - 1))
}

/// What the member of this name says; the predicates inside may nest `left` deep.
#[cycle(nesting)]
#[tactic(auto, unfolding(crate::specs::Predicates::pred_by))]
fn pred_by_word(alloc: Global, word: &str, value: &Value, left: u32) -> Result<Pred, Misfit>
    ensures { Reads (λ p. p) result (pred_by (pred_of left) word.now (view value.now)) }
{
    match word {
        "index" => Ok(Pred::Index(any_text_in(alloc, value)?)),
        "alias" => Ok(Pred::Alias(any_text_in(alloc, value)?)),
        "node" => Ok(Pred::Node(any_text_in(alloc, value)?)),
        "version" => Ok(Pred::Version(whole_in(alloc, value)?)),
        "setting" => setting_pred_in(alloc, value),
        "not" => {
            let inner = pred_in(alloc, value, left)?;
            Ok(Pred::Not(Boxed::new(alloc, inner)?))
        }
        "all" => Ok(Pred::All(preds_in(alloc, values_of(alloc, value)?, left)?)),
        "any" => Ok(Pred::Any(preds_in(alloc, values_of(alloc, value)?, left)?)),
        _ => Err(against(alloc, Rule::Value)),
    }
}

/// Predicates in a list, each of which may nest `left` deep.
#[cycle(nesting)]
fn preds_in(alloc: Global, values: &[Value], left: u32) -> Result<Items<Pred>, Misfit>
    ensures { Reads (λ ps. ps) result (preds_by (pred_of left) [] (map view values.now)) }
{
    let mut preds = Items::new(alloc);
    for value in values {
        let pred = next_pred_in(alloc, preds.len(), value, left)?;
        preds.push(pred)?;
    }
    Ok(preds)
}

/// The predicate at a place, seen from its list.
#[cycle(nesting)]
fn next_pred_in(alloc: Global, place: usize, value: &Value, left: u32) -> Result<Pred, Misfit>
    ensures { Reads (λ p. p) result (within (at_place place) (pred_of left (view value.now))) }
{
    in_place(alloc, place, pred_in(alloc, value, left))
}

#[tactic(auto, unfolding(crate::specs::Predicates::setting_pred_of))]
fn setting_pred_in(alloc: Global, value: &Value) -> Result<Pred, Misfit>
    ensures { Reads (λ p. p) result (setting_pred_of (view value.now)) }
{
    check_members(alloc, value, &["key", "value"])?;
    let key = text_at(alloc, value, "key")?;
    let content = text_at(alloc, value, "value")?;
    Ok(Pred::Setting {
        key,
        value: content,
    })
}

/// The one member of an object, whose name is one of a predicate's.
#[tactic(auto, unfolding(crate::specs::Predicates::choice_of))]
fn choice_in<'a>(alloc: Global, value: &'a Value) -> Result<(&'a str, &'a Value), Misfit>
    ensures { Reads (λ c. (c.0.now, view c.1.now)) result (choice_of (view value.now)) }
{
    match value.as_object() {
        None => Err(against(alloc, Rule::WrongType)),
        Some(members) => match only_member(members) {
            None => Err(against(alloc, Rule::Value)),
            Some((word, inner)) => {
                if is_word_of_preds(word) {
                    Ok((word, inner))
                } else {
                    Err(against(alloc, Rule::Value))
                }
            }
        },
    }
}

fn is_word_of_preds(word: &str) -> bool
    ensures { result ≡ is_known pred_words word.now }
{
    matches!(
        word,
        "index" | "alias" | "node" | "version" | "setting" | "not" | "all" | "any"
    )
}

/// The member of an object that has no other.
#[tactic(auto, using(crate::proofs::Views::only_member, crate::proofs::Views::no_only_member))]
fn only_member(members: &Map<String, Value>) -> Option<(&str, &Value)>
    ensures { option_map (λ m. (m.0.now, view m.1.now)) result ≡ only_of (members_view members.now.entries) }
{
    if members.len() != 1 {
        return None;
    }
    match members.first_key_value() {
        None => None,
        Some((key, value)) => Some((key.as_str(), value)),
    }
}
