ghost use Rattle.std.specs.Prelude.{◌≡◌, IfOk, OnOk};
ghost use Rattle.plain_data.specs.Agreements.{AgreeOutside};
ghost use Rattle.plain_data.specs.Pairs.{lookup};
ghost use Rattle.node_apply.specs.Updated.{updated, updated_at};

use crate::appliers::Applier;
use crate::changed_events::ChangedEvent;
use crate::putting::put;
use crate::updates::update;
use meta_state::ClusterState;
use plain_data::{Map, NameSet, OutOfMemory, Text};
use std::marker::Model;

/// The value of each setting, as the applier of high priority keeps it.
#[derive(Drop)]
pub struct SettingsView {
    shown: Map<Text>,
    next: Option<Map<Text>>,
    seen: u64,
}

impl Model for SettingsView {
    ghost use Rattle.std.specs.Prelude.{List, ℕ};
    ghost use Rattle.node_apply.specs.Kept.{Kept};

    ghost Value = { Kept (List (List ℕ × List ℕ)) };

    ghost view = { λ v. record { shown = v.shown; next = v.next; seen = v.seen } };
}

impl SettingsView {
    ghost use Rattle.std.specs.Prelude.{None};
    ghost use Rattle.meta_state.specs.declared.cluster_state.ClusterState.{ClusterState};
    ghost use Rattle.node_apply.specs.Kept.{just};
    ghost use Rattle.node_apply.specs.Parts.{settings_of};

    /// The view of a state.
    pub fn of(state: &ClusterState) -> Result<SettingsView, OutOfMemory>
        ensures { IfOk result (λ made. made ≡ just (settings_of state.now)) }
    {
        Ok(SettingsView {
            shown: state.metadata.settings.copy()?,
            next: None,
            seen: 0,
        })
    }

    /// The value of each setting.
    pub fn settings(&self) -> &Map<Text>
        ensures { result.now ≡ self.now.shown }
    {
        &self.shown
    }

    /// Gives them away. It takes no memory.
    pub fn into_settings(self) -> Map<Text>
        ensures { result ≡ self.shown }
    {
        let SettingsView { shown, .. } = self;
        shown
    }

    /// The version of the applied state as it last took over a state; 0 where it has not.
    pub fn seen(&self) -> u64
        ensures { result ≡ self.now.seen }
    {
        self.seen
    }
}

impl Applier for SettingsView {
    ghost use Rattle.std.specs.Prelude.{◌≡◌, true, Some, None, is_some, OnOk, OnErr};
    ghost use Rattle.node_apply.specs.Kept.{taken_over};
    ghost use Rattle.node_apply.specs.Parts.{settings_of};

    ghost shows = { λ v s. v.shown ≡ settings_of s };

    ghost awaits = { λ v s. v.next ≡ Some (settings_of s) };

    ghost is_ready = { λ v. is_some v.next };

    fn prepare(&mut self, event: &ChangedEvent<'_>) -> Result<(), OutOfMemory>
        requires { self.old.shown ≡ settings_of event.now.old }
        ensures kept { self.new.shown ≡ self.old.shown }
        ensures seen { self.new.seen ≡ self.old.seen }
        ensures ok { OnOk result (self.new.next ≡ Some (settings_of event.now.new)) }
        ensures err { OnErr result (self.new.next ≡ None) }
    {
        put(&mut self.next, None);
        let new = &event.new_state().metadata.settings;
        let keys = &event.touched().settings;
        let next = settings_after(&self.shown, new, keys)?;
        put(&mut self.next, Some(next));
        Ok(())
    }

    fn commit(&mut self, applied: u64)
        requires { is_some self.old.next ≡ true }
        ensures { self.new ≡ taken_over applied self.old }
    {
        if let Some(next) = self.next.take() {
            self.shown = next;
        }
        self.seen = applied;
    }
}

// The new settings, made of those before, which agree with them outside of some keys.
fn settings_after(
    before: &Map<Text>,
    new: &Map<Text>,
    keys: &NameSet,
) -> Result<Map<Text>, OutOfMemory>
    requires { AgreeOutside keys.now before.now new.now }
    ensures { IfOk result (λ made. made ≡ new.now) }
{
    // The keys of both stand in order.
    let _ = (before.len(), new.len());
    updated_settings(before, new, keys)
}

// Settings with what others say of some keys.
fn updated_settings(
    before: &Map<Text>,
    new: &Map<Text>,
    keys: &NameSet,
) -> Result<Map<Text>, OutOfMemory>
    ensures { IfOk result (λ made. made ≡ updated (λ key. lookup key new.now) keys.now before.now) }
{
    let mut made = before.copy()?;
    for key in keys.iter() {
        update_setting(&mut made, new, key)?;
    }
    Ok(made)
}

fn update_setting(made: &mut Map<Text>, new: &Map<Text>, key: &Text) -> Result<(), OutOfMemory>
    ensures { OnOk result (made.new ≡ updated_at key.now (lookup key.now new.now) made.old) }
{
    match new.get(key) {
        None => update(made, key, None),
        Some(value) => update(made, key, Some(value.copy()?)),
    }
}
