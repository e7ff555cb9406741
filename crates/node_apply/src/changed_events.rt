ghost use Rattle.std.specs.Prelude.{◌≡◌};
ghost use Rattle.meta_state.specs.Touches.{AgreeOutside};

use meta_state::{ClusterState, Touched};
use std::marker::Model;

/// That a node goes from one state to another (Elasticsearch's `ClusterChangedEvent`), and what may have changed with
/// it: outside of that both states agree.
#[derive(Drop)]
pub struct ChangedEvent<'a> {
    old: &'a ClusterState,
    new: &'a ClusterState,
    touched: &'a Touched,
}

impl<'a> Model for ChangedEvent<'a> {
    ghost use Rattle.meta_state.specs.Touches.{AgreeOutside};
    ghost use Rattle.node_apply.specs.Events.{Event};

    ghost Value = { Event };

    ghost view = { λ e. record { old = e.old.now; new = e.new.now; touched = e.touched.now } };

    ghost invariant = { λ e. AgreeOutside e.touched.now e.old.now e.new.now };
}

impl<'a> ChangedEvent<'a> {
    /// The event of these two states, of which it is known what may have changed. It takes no memory.
    pub fn new(
        old: &'a ClusterState,
        new: &'a ClusterState,
        touched: &'a Touched,
    ) -> ChangedEvent<'a>
        requires { AgreeOutside touched.now old.now new.now }
        ensures { result ≡ record { old = old.now; new = new.now; touched = touched.now } }
    {
        ChangedEvent { old, new, touched }
    }

    /// The state before.
    pub fn old_state(&self) -> &ClusterState
        ensures { result.now ≡ self.now.old }
    {
        self.old
    }

    /// The new state.
    pub fn new_state(&self) -> &ClusterState
        ensures { result.now ≡ self.now.new }
    {
        self.new
    }

    /// What may have changed between them.
    pub fn touched(&self) -> &Touched
        ensures same { result.now ≡ self.now.touched }
        ensures agree { AgreeOutside self.now.touched self.now.old self.now.new }
    {
        self.touched
    }
}
