ghost use Rattle.std.specs.Prelude.{◌≡◌, Some, IfOk, OnOk};
ghost use Rattle.meta_state.specs.Touches.{AgreeOutside};
ghost use Rattle.session_law.specs.declared.node_records.View.{View};
ghost use Rattle.session_law.specs.Views.{views_of};
ghost use Rattle.node_apply.specs.Standing.{IsAt, IsReadyFor, phases_of};

use crate::alias_views::AliasView;
use crate::appliers::Applier;
use crate::changed_events::ChangedEvent;
use crate::index_views::IndexView;
use crate::putting::{all_three, both, put};
use crate::settings_views::SettingsView;
use meta_state::{ClusterState, Touched};
use plain_data::OutOfMemory;
use session_law::View;
use std::alloc::Global;
use std::mem;

/// The state that a node has applied, and what its appliers keep of it.
#[derive(Drop)]
pub(crate) struct Applied {
    pub(crate) state: ClusterState,
    pub(crate) settings: SettingsView,
    pub(crate) indices: IndexView,
    pub(crate) aliases: AliasView,
}

/// The versions of the applied state as each phase ran.
#[derive(Clone, Copy, Debug, PartialEq, Eq)]
pub(crate) struct Phases {
    pub(crate) high: u64,
    pub(crate) normal: u64,
    pub(crate) low: u64,
    pub(crate) listeners: u64,
}

/// A node's first state, with the views of it, which are made from scratch.
pub(crate) fn first_applied(alloc: Global, state: ClusterState) -> Result<Applied, OutOfMemory>
    ensures state { IfOk result (λ made. made.state ≡ state) }
    ensures at { IfOk result IsAt }
{
    let views = all_three(
        SettingsView::of(&state),
        IndexView::of(alloc, &state),
        AliasView::of(alloc, &state),
    );
    let (state, (settings, indices, aliases)) = both(Ok(state), views)?;
    Ok(Applied {
        state,
        settings,
        indices,
        aliases,
    })
}

/// All appliers prepare a new state, before the first commits it. The applied state and the views stay as they were.
pub(crate) fn prepare_all(
    applied: &mut Applied,
    new: &ClusterState,
    touched: &Touched,
) -> Result<(), OutOfMemory>
    requires at { IsAt applied.old }
    requires agree { AgreeOutside touched.now applied.old.state new.now }
    ensures state { applied.new.state ≡ applied.old.state }
    ensures at { IsAt applied.new }
    ensures ready { OnOk result (IsReadyFor applied.new new.now) }
{
    let event = ChangedEvent::new(&applied.state, new, touched);
    applied.settings.prepare(&event)?;
    applied.indices.prepare(&event)?;
    applied.aliases.prepare(&event)
}

/// The appliers of high, normal and low priority take over what they prepared, then the state is set, and then the
/// listeners are called.
pub(crate) fn commit_all(applied: &mut Applied, new: ClusterState) -> Phases
    requires at { IsAt applied.old }
    requires ready { IsReadyFor applied.old new }
    ensures state { applied.new.state ≡ new }
    ensures at { IsAt applied.new }
    ensures phases { result ≡ phases_of applied.old.state new }
{
    applied.settings.commit(applied.state.version);
    applied.indices.commit(applied.state.version);
    applied.aliases.commit(applied.state.version);
    put(&mut applied.state, new);
    Phases {
        high: applied.settings.seen(),
        normal: applied.indices.seen(),
        low: applied.aliases.seen(),
        listeners: applied.state.version,
    }
}

/// The views, which it gives up.
#[tactic(auto, unfolding(session_law::specs::Views::views_of))]
pub(crate) fn into_view(applied: Applied) -> View
    requires { IsAt applied }
    ensures { result ≡ views_of applied.state }
{
    let Applied {
        state,
        settings,
        indices,
        aliases,
    } = applied;
    mem::drop(state);
    View {
        aliases: aliases.into_names(),
        indices: indices.into_ids(),
        settings: settings.into_settings(),
    }
}
