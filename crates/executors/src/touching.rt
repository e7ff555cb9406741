ghost use Rattle.std.specs.Prelude.{◌≡◌, IfOk, OnOk};
ghost use Rattle.meta_state.specs.Touches.{touched_by_both};
ghost use Rattle.executors.specs.Touching.{touched_by, touched_by_one};

use crate::tasks::Task;
use meta_state::Touched;
use plain_data::OutOfMemory;
use std::alloc::Global;

/// The names at which alone tasks can change a state (this project's own): of the index, the setting or the node that
/// each is about. Its cost grows with the tasks, and not with the state.
#[tactic(auto, unfolding(crate::specs::Touching::touched_by))]
pub fn touched_by(alloc: Global, tasks: &[Task]) -> Result<Touched, OutOfMemory>
    ensures { IfOk result (λ made. made ≡ touched_by tasks.now) }
{
    let mut touched = Touched::none(alloc);
    for task in tasks {
        add_task(&mut touched, task)?;
    }
    Ok(touched)
}

fn add_task(touched: &mut Touched, task: &Task) -> Result<(), OutOfMemory>
    ensures { OnOk result (touched.new ≡ touched_by_both touched.old (touched_by_one task.now)) }
{
    match task {
        Task::CreateIndex { index, .. }
        | Task::DeleteIndex { index }
        | Task::IndexSetting { index, .. }
        | Task::OpenClose { index, .. }
        | Task::Alias { index, .. } => touched.indices.insert(index.copy()?),
        Task::ClusterSetting { key, .. } => touched.settings.insert(key.copy()?),
        Task::Join { node } => touched.nodes.insert(node.name.copy()?),
        Task::Leave { name } => touched.nodes.insert(name.copy()?),
        Task::Reelect => Ok(()),
    }
}
