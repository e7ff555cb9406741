ghost use Rattle.std.specs.Prelude.{◌≡◌};
ghost use Rattle.std.specs.List.{list_all};
ghost use Rattle.scripts.specs.Built.{is_built, is_built_goal, is_built_step};

use plain_data::Items;
use scripts::{Goal, Script, Step};

/// Whether a script holds nothing that isn't performed yet.
pub(crate) fn is_all_built(script: &Script) -> bool
    ensures { result ≡ is_built script.now }
{
    are_clients_built(script.clients.as_slice()) && script.faults.len() == 0
}

fn are_clients_built(clients: &[Items<Step>]) -> bool
    ensures { result ≡ list_all (list_all is_built_step) clients.now }
{
    clients
        .iter()
        .all(|steps| are_steps_built(steps.as_slice()))
}

fn are_steps_built(steps: &[Step]) -> bool
    ensures { result ≡ list_all is_built_step steps.now }
{
    steps.iter().all(|step| is_step_built(step))
}

fn is_step_built(step: &Step) -> bool
    ensures { result ≡ is_built_step step.now }
{
    match step {
        Step::Submit { .. } | Step::Sleep { .. } => true,
        Step::Await { step: _, goal } => is_goal_built(*goal),
        _ => false,
    }
}

fn is_goal_built(goal: Goal) -> bool
    ensures { result ≡ is_built_goal goal }
{
    match goal {
        Goal::Task | Goal::Ack => true,
        Goal::Watch => false,
    }
}
