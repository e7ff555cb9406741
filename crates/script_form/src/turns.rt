ghost use Rattle.std.specs.Prelude.{◌≡◌, ◌≤◌, [], IfOk, IsTrue, length, refl};
ghost use Rattle.std.specs.List.{list_all};
ghost use Rattle.serde_json.specs.View.{view};
ghost use Rattle.scripts.specs.Scripts.{is_turn};
ghost use Rattle.script_form.specs.Misfits.{Reads};
ghost use Rattle.script_form.specs.Nodes.{find_node};
ghost use Rattle.script_form.specs.Turns.{turn_of_client, is_decimal, is_digit, turn_of_master, more, named_turn, next_turn, node_turn, number_of, schedule_of, turn_in, turn_of};

use crate::limits::LimitName;
use crate::list_readers::{ListReader, read_each};
use crate::misfits::{Misfit, against};
use crate::nodes::find;
use crate::parts::{text_in, values_up_to};
use crate::rules::Rule;
use plain_data::Items;
use scripts::{ScriptNode, ScriptTurn};
use serde_json::Value;
use std::alloc::Global;

/// The turns of a schedule.
pub(crate) fn schedule_in(
    alloc: Global,
    nodes: &[ScriptNode],
    clients: usize,
    value: &Value,
) -> Result<Items<ScriptTurn>, Misfit>
    ensures { Reads (λ t. t) result (schedule_of nodes.now clients (view value.now)) }
{
    let values = values_up_to(alloc, value, 65536, LimitName::Schedule)?;
    read_each(alloc, &TurnReader { nodes, clients }, values)
}

/// Reads turns, of these nodes and of so many clients.
#[derive(Drop)]
struct TurnReader<'a> {
    nodes: &'a [ScriptNode],
    clients: usize,
}

impl<'a> ListReader for TurnReader<'a> {
    type Item = ScriptTurn;

    ghost reads = { λ r. next_turn r.nodes.now r.clients };

    ghost most = { λ _. 65536 };

    fn read_next(
        &self,
        alloc: Global,
        _before: &[ScriptTurn],
        value: &Value,
    ) -> Result<ScriptTurn, Misfit> {
        turn_in_value(alloc, self.nodes, self.clients, value)
    }
}

#[tactic(auto, unfolding(crate::specs::Turns::turn_of))]
fn turn_in_value(
    alloc: Global,
    nodes: &[ScriptNode],
    clients: usize,
    value: &Value,
) -> Result<ScriptTurn, Misfit>
    ensures { Reads (λ t. t) result (turn_of nodes.now clients (view value.now)) }
{
    let text = text_in(alloc, value)?;
    turn_of_text(alloc, nodes, clients, text.as_bytes())
}

/// The turn that a text says.
fn turn_of_text(
    alloc: Global,
    nodes: &[ScriptNode],
    clients: usize,
    text: &[u8],
) -> Result<ScriptTurn, Misfit>
    ensures { Reads (λ t. t) result (turn_in nodes.now clients text.now) }
{
    match text.split_first() {
        None => Err(against(alloc, Rule::Value)),
        Some((first, rest)) => {
            if *first == b'm' {
                master_turn_of(alloc, rest)
            } else if *first == b'c' {
                client_turn_of(alloc, clients, rest)
            } else if *first == b'n' {
                node_turn_of(alloc, nodes, rest)
            } else {
                Err(against(alloc, Rule::Value))
            }
        }
    }
}

/// The master's turn, where nothing follows.
fn master_turn_of(alloc: Global, rest: &[u8]) -> Result<ScriptTurn, Misfit>
    ensures { Reads (λ t. t) result (turn_of_master rest.now) }
{
    if rest.is_empty() {
        Ok(ScriptTurn::Master)
    } else {
        Err(against(alloc, Rule::Value))
    }
}

/// The turn of the client of a number.
fn client_turn_of(alloc: Global, clients: usize, digits: &[u8]) -> Result<ScriptTurn, Misfit>
    ensures { Reads (λ t. t) result (turn_of_client clients digits.now) }
{
    if !is_number(digits) {
        return Err(against(alloc, Rule::Value));
    }
    let number = number_in(digits);
    if (number as usize) < clients {
        Ok(ScriptTurn::Client(number))
    } else {
        Err(against(alloc, Rule::Reference))
    }
}

/// Whether bytes are a number in decimal, without leading zeros.
fn is_number(digits: &[u8]) -> bool
    ensures { result ≡ is_decimal digits.now }
{
    match digits.split_first() {
        None => false,
        Some((first, rest)) => {
            is_decimal_digit(*first) && (rest.is_empty() || (*first != b'0' && are_digits(rest)))
        }
    }
}

fn are_digits(bytes: &[u8]) -> bool
    ensures { result ≡ list_all is_digit bytes.now }
{
    bytes.iter().all(|byte| is_decimal_digit(*byte))
}

fn is_decimal_digit(byte: u8) -> bool
    ensures { result ≡ is_digit byte }
{
    matches!(byte, b'0'..=b'9')
}

/// The number that digits spell, up to 100.
fn number_in(digits: &[u8]) -> u32
    ensures exact { result ≡ number_of digits.now }
    ensures small { result ≤ 100 }
{
    let mut number: u32 = 0;
    for digit in digits {
        number = one_more(number, *digit);
    }
    number
}

fn one_more(number: u32, digit: u8) -> u32
    requires { number ≤ 100 }
    ensures exact { result ≡ more number digit }
    ensures small { result ≤ 100 }
{
    (number * 10 + u32::from(digit.saturating_sub(b'0'))).min(100)
}

/// The turn of the node of a name, which follows a colon.
fn node_turn_of(alloc: Global, nodes: &[ScriptNode], rest: &[u8]) -> Result<ScriptTurn, Misfit>
    ensures { Reads (λ t. t) result (named_turn nodes.now rest.now) }
{
    match rest.split_first() {
        None => Err(against(alloc, Rule::Value)),
        Some((first, name)) => {
            if *first != b':' {
                return Err(against(alloc, Rule::Value));
            }
            node_turn_by_name(alloc, nodes, name)
        }
    }
}

fn node_turn_by_name(alloc: Global, nodes: &[ScriptNode], name: &[u8]) -> Result<ScriptTurn, Misfit>
    ensures { Reads (λ t. t) result (node_turn (find_node nodes.now name.now)) }
{
    match find(nodes, name) {
        None => Err(against(alloc, Rule::Reference)),
        Some(node) => Ok(ScriptTurn::Node(node.name.copy()?)),
    }
}
