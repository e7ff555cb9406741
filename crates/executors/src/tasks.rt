ghost use Rattle.std.specs.Prelude.{◌≡◌, IfOk};

use meta_state::NodeInfo;
use plain_data::{OutOfMemory, Text};
use std::alloc::Global;

/// A change of the cluster state that is asked for.
#[derive(Debug, Drop)]
pub enum Task {
    CreateIndex {
        index: Text,
        shards: u64,
        replicas: u64,
    },
    DeleteIndex {
        index: Text,
    },
    IndexSetting {
        index: Text,
        key: Text,
        value: u64,
    },
    OpenClose {
        index: Text,
        opened: bool,
    },

    /// Adds the alias to the index, or takes it away.
    Alias {
        index: Text,
        alias: Text,
        add: bool,
    },

    /// Sets the value, or removes the key where there is none.
    ClusterSetting {
        key: Text,
        value: Option<Text>,
    },
    Join {
        node: NodeInfo,
    },
    Leave {
        name: Text,
    },

    /// Elects the master anew, which puts it in office.
    Reelect,
}

impl Task {
    /// An equal task.
    pub fn copy(&self, alloc: Global) -> Result<Task, OutOfMemory>
        ensures { IfOk result (λ made. made ≡ self.now) }
    {
        match self {
            Task::CreateIndex {
                index,
                shards,
                replicas,
            } => Ok(Task::CreateIndex {
                index: index.copy()?,
                shards: *shards,
                replicas: *replicas,
            }),
            Task::DeleteIndex { index } => Ok(Task::DeleteIndex {
                index: index.copy()?,
            }),
            Task::IndexSetting { index, key, value } => Ok(Task::IndexSetting {
                index: index.copy()?,
                key: key.copy()?,
                value: *value,
            }),
            Task::OpenClose { index, opened } => Ok(Task::OpenClose {
                index: index.copy()?,
                opened: *opened,
            }),
            Task::Alias { index, alias, add } => Ok(Task::Alias {
                index: index.copy()?,
                alias: alias.copy()?,
                add: *add,
            }),
            Task::ClusterSetting { key, value } => {
                let value = copy_value(value)?;
                Ok(Task::ClusterSetting {
                    key: key.copy()?,
                    value,
                })
            }
            Task::Join { node } => Ok(Task::Join {
                node: node.copy(alloc)?,
            }),
            Task::Leave { name } => Ok(Task::Leave { name: name.copy()? }),
            Task::Reelect => Ok(Task::Reelect),
        }
    }
}

fn copy_value(value: &Option<Text>) -> Result<Option<Text>, OutOfMemory>
    ensures { IfOk result (λ made. made ≡ value.now) }
{
    match value {
        None => Ok(None),
        Some(text) => Ok(Some(text.copy()?)),
    }
}
