ghost use Rattle.std.specs.Prelude.{◌≡◌, ◌≤◌, ◌&&◌, ◌||◌, IfOk, false, length, refl};
ghost use Rattle.std.specs.List.{list_any};
ghost use Rattle.serde_json.specs.View.{view};
ghost use Rattle.scripts.specs.Scripts.{is_close};
ghost use Rattle.script_form.specs.Clients.{AreClients, AreSteps, clients_of, do_close, fit_step, next_client, step_after, starts_once, steps_of};
ghost use Rattle.script_form.specs.Misfits.{Reads};

use crate::limits::LimitName;
use crate::list_readers::{ListReader, read_each};
use crate::misfits::{Misfit, against};
use crate::parts::values_up_to;
use crate::rules::Rule;
use crate::steps::step_in;
use plain_data::Items;
use scripts::{QueueSpec, ScriptNode, Step};
use serde_json::Value;
use std::alloc::Global;

/// The steps of the clients of a script.
pub(crate) fn clients_in(
    alloc: Global,
    nodes: &[ScriptNode],
    queues: &[QueueSpec],
    value: &Value,
) -> Result<Items<Items<Step>>, Misfit>
    requires { length queues.now ≤ 64 }
    ensures { Reads (λ c. c) result (clients_of nodes.now queues.now (view value.now)) }
{
    let values = values_up_to(alloc, value, 32, LimitName::Clients)?;
    read_each(alloc, &ClientReader { nodes, queues }, values)
}

/// Reads clients, of which one at most closes.
#[derive(Drop)]
struct ClientReader<'a> {
    nodes: &'a [ScriptNode],
    queues: &'a [QueueSpec],
    ghost few: { length queues.now ≤ 64 },
}

impl<'a> ListReader for ClientReader<'a> {
    type Item = Items<Step>;

    ghost reads = { λ r. next_client r.nodes.now r.queues.now };

    ghost most = { λ _. 32 };

    fn read_next(
        &self,
        alloc: Global,
        before: &[Items<Step>],
        value: &Value,
    ) -> Result<Items<Step>, Misfit> {
        steps_in(
            alloc,
            self.nodes,
            self.queues,
            does_any_close(before),
            value,
        )
    }
}

/// The steps of a client; `closed` says that an earlier client closes.
fn steps_in(
    alloc: Global,
    nodes: &[ScriptNode],
    queues: &[QueueSpec],
    closed: bool,
    value: &Value,
) -> Result<Items<Step>, Misfit>
    requires { length queues.now ≤ 64 }
    ensures { Reads (λ s. s) result (steps_of nodes.now queues.now closed (view value.now)) }
{
    let values = values_up_to(alloc, value, 4096, LimitName::Steps)?;
    let reader = StepReader {
        nodes,
        queues,
        closed,
    };
    read_each(alloc, &reader, values)
}

/// Reads the steps of a client, of which one at most closes, and none if an earlier client does.
#[derive(Drop)]
struct StepReader<'a> {
    nodes: &'a [ScriptNode],
    queues: &'a [QueueSpec],
    closed: bool,
    ghost few: { length queues.now ≤ 64 },
}

impl<'a> ListReader for StepReader<'a> {
    type Item = Step;

    ghost reads = { λ r. step_after r.nodes.now r.queues.now r.closed };

    ghost most = { λ _. 4096 };

    fn read_next(&self, alloc: Global, before: &[Step], value: &Value) -> Result<Step, Misfit> {
        let step = step_in(alloc, self.nodes, self.queues, before, value)?;
        check_step(alloc, self.closed, before, step)
    }
}

/// Asks that a step not close where an earlier one does, of this client or, as `closed` says, of another.
fn check_step(alloc: Global, closed: bool, before: &[Step], step: Step) -> Result<Step, Misfit>
    ensures { Reads (λ s. s) result (fit_step (closed || list_any is_close before.now) step) }
{
    if is_closing(&step) && (closed || does_close(before)) {
        Err(against(alloc, Rule::Close))
    } else {
        Ok(step)
    }
}

fn does_any_close(clients: &[Items<Step>]) -> bool
    ensures { result ≡ do_close clients.now }
{
    clients.iter().any(|steps| does_close(steps.as_slice()))
}

fn is_closing(step: &Step) -> bool
    ensures { result ≡ is_close step.now }
{
    matches!(step, Step::Close)
}

fn does_close(steps: &[Step]) -> bool
    ensures { result ≡ list_any is_close steps.now }
{
    steps.iter().any(|step| is_closing(step))
}
