use crate::changed_events::ChangedEvent;
use plain_data::OutOfMemory;

/// What follows the states that its node applies (Elasticsearch's `ClusterStateApplier`). An apply has two steps: all
/// appliers prepare the new state before the first commits it, so that want of memory leaves each as it was.
pub trait Applier {
    ghost use Rattle.std.specs.Prelude.{◌≡◌, Bool, true, false, OnOk, OnErr};
    ghost use Rattle.meta_state.specs.declared.cluster_state.ClusterState.{ClusterState};
    ghost use Rattle.node_apply.specs.Kept.{Becomes, Stays};

    /// Whether its view is that of a state.
    ghost shows: { Self → ClusterState → Type 0 };

    /// Whether it has prepared a state.
    ghost awaits: { Self → ClusterState → Type 0 };

    /// Whether it has prepared any.
    ghost is_ready: { Self → Bool };

    /// Prepares the new state, at the cost of what may have changed, and drops what an earlier call prepared. The view
    /// stays as it was, also after want of memory; then nothing is prepared.
    fn prepare(&mut self, event: &ChangedEvent<'_>) -> Result<(), OutOfMemory>
        requires { shows self.old event.now.old }
        ensures kept { Stays shows self.old self.new }
        ensures ok { OnOk result (awaits self.new event.now.new) }
        ensures ready { OnOk result (is_ready self.new ≡ true) }
        ensures err { OnErr result (is_ready self.new ≡ false) };

    /// Takes over what was prepared. It is told the version of the applied state at this moment.
    fn commit(&mut self, applied: u64)
        requires { is_ready self.old ≡ true }
        ensures taken { Becomes awaits shows self.old self.new }
        ensures spent { is_ready self.new ≡ false };
}
