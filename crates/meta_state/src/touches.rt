ghost use Rattle.std.specs.Prelude.{◌≡◌, OnOk, OnErr};
ghost use Rattle.meta_state.specs.Touches.{touched_none, touched_by_both};

use plain_data::{NameSet, OutOfMemory};
use std::alloc::Global;

/// What may have changed between two states, so that they are told apart at the cost of what changed, and not of what
/// there is. All that it doesn't name is compared outright.
#[derive(Debug, Drop)]
pub struct Touched {
    /// The names of indices.
    pub indices: NameSet,

    /// The keys of cluster settings.
    pub settings: NameSet,

    /// The names of nodes.
    pub nodes: NameSet,
}

impl Touched {
    /// Nothing that is named. It takes no memory.
    pub fn none(alloc: Global) -> Touched
        ensures { result ≡ touched_none }
    {
        Touched {
            indices: NameSet::new(alloc),
            settings: NameSet::new(alloc),
            nodes: NameSet::new(alloc),
        }
    }

    /// Adds what may have changed by something else. Want of memory leaves it as it was.
    pub fn include(&mut self, other: &Touched) -> Result<(), OutOfMemory>
        ensures ok { OnOk result (self.new ≡ touched_by_both self.old other.now) }
        ensures err { OnErr result (self.new ≡ self.old) }
    {
        let mut indices = self.indices.copy()?;
        indices.include(&other.indices)?;
        let mut settings = self.settings.copy()?;
        settings.include(&other.settings)?;
        self.nodes.include(&other.nodes)?;
        self.indices = indices;
        self.settings = settings;
        Ok(())
    }
}
