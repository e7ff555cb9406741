ghost use Rattle.std.specs.Prelude.{◌≡◌, ◌≤◌, ◌*◌, ◌+◌, IsTrue, count_by, flat_map, length, nat_le};
ghost use Rattle.std.specs.List.{list_all};
ghost use Rattle.scripts.specs.Scripts.{is_alias_read, is_submit};
ghost use Rattle.script_form.specs.Reading.{AreParts};
ghost use Rattle.script_form.specs.Reading as spec;

use meta_state::Look;
use plain_data::Items;
use scripts::{Script, Step};

/// How many steps submit, and how many look at an alias.
#[derive(Clone, Copy)]
struct Tally {
    submits: usize,
    reads: usize,
}

/// Whether the states and reads of a script can be held.
#[tactic(auto, using(crate::proofs::Tallies::clients_are_short))]
pub(crate) fn is_workable(script: &Script) -> bool
    requires { AreParts script.now }
    ensures { result ≡ spec.is_workable script.now }
{
    let Tally { submits, reads } = tally_clients(script.clients.as_slice());
    submits * submits * script.nodes.len() <= 8_000_000 && submits * reads <= 4_000_000
}

/// The tally of all clients.
#[tactic(auto, using(crate::proofs::Tallies::count_client))]
fn tally_clients(clients: &[Items<Step>]) -> Tally
    requires few { length clients.now ≤ 32 }
    requires short { IsTrue (list_all (λ steps. nat_le (length steps) 4096) clients.now) }
    ensures submits { result.submits ≡ count_by is_submit (flat_map (λ steps. steps) clients.now) }
    ensures reads { result.reads ≡ count_by is_alias_read (flat_map (λ steps. steps) clients.now) }
    ensures few_submits { result.submits ≤ 131072 }
    ensures few_reads { result.reads ≤ 131072 }
{
    let mut submits = 0;
    let mut reads = 0;
    for steps in clients {
        let more = tally_steps(steps.as_slice());
        submits += more.submits;
        reads += more.reads;
    }
    Tally { submits, reads }
}

/// The tally of a client's steps.
fn tally_steps(steps: &[Step]) -> Tally
    ensures submits { result.submits ≡ count_by is_submit steps.now }
    ensures reads { result.reads ≡ count_by is_alias_read steps.now }
    ensures few_submits { result.submits ≤ length steps.now }
    ensures few_reads { result.reads ≤ length steps.now }
{
    let mut submits = 0;
    let mut reads = 0;
    for step in steps {
        if does_submit(step) {
            submits += 1;
        }
        if reads_alias(step) {
            reads += 1;
        }
    }
    Tally { submits, reads }
}

fn does_submit(step: &Step) -> bool
    ensures { result ≡ is_submit step.now }
{
    matches!(step, Step::Submit { .. })
}

fn reads_alias(step: &Step) -> bool
    ensures { result ≡ is_alias_read step.now }
{
    matches!(
        step,
        Step::Read {
            look: Look::Alias(_),
            ..
        }
    )
}
