ghost use Rattle.std.specs.Prelude.{◌≡◌, IfOk, OnOk};
ghost use Rattle.std.specs.List.{list_all};
ghost use Rattle.executors.specs.TaskRuns.{outcome};
ghost use Rattle.executors.specs.SettingTasks.{is_key, is_key_byte, is_too_long, set_in, setting_refusal};

use crate::contexts::Verdict;
use crate::letters::{does_begin_well, is_alphanumeric};
use crate::refusals::TaskRefusal;
use meta_state::ClusterState;
use plain_data::{OutOfMemory, Text};

/// Sets a cluster setting, or removes it where there is no value, or refuses to.
pub(crate) fn run_setting(
    state: &mut ClusterState,
    key: &Text,
    value: &Option<Text>,
) -> Result<Verdict, OutOfMemory>
    ensures { IfOk result (λ verdict. (state.new, verdict) ≡ outcome (setting_refusal key.now value.now) state.old (set_in state.old key.now value.now)) }
{
    if let Some(refusal) = why_not_change(key, value) {
        return Ok(Verdict::Refused(refusal));
    }
    change(state, key, value)?;
    Ok(Verdict::Success)
}

fn why_not_change(key: &Text, value: &Option<Text>) -> Option<TaskRefusal>
    ensures { result ≡ setting_refusal key.now value.now }
{
    if !is_setting_key(key) || is_long(value) {
        Some(TaskRefusal::BadValue)
    } else {
        None
    }
}

/// Whether it is a key that a setting may have: 1 to 255 bytes of `a` to `z`, `0` to `9`, `.`, `_` and `-` that begin
/// with a letter or a digit.
pub fn is_setting_key(key: &Text) -> bool
    ensures { result ≡ is_key key.now }
{
    let bytes = key.as_bytes();
    does_begin_well(bytes) && bytes.len() <= 255 && are_allowed(bytes)
}

fn are_allowed(bytes: &[u8]) -> bool
    ensures { result ≡ list_all is_key_byte bytes.now }
{
    bytes.iter().all(|byte| is_allowed(*byte))
}

fn is_allowed(byte: u8) -> bool
    ensures { result ≡ is_key_byte byte }
{
    is_alphanumeric(byte) || byte == b'.' || byte == b'_' || byte == b'-'
}

fn is_long(value: &Option<Text>) -> bool
    ensures { result ≡ is_too_long value.now }
{
    match value {
        None => false,
        Some(text) => 1024 < text.as_bytes().len(),
    }
}

fn change(state: &mut ClusterState, key: &Text, value: &Option<Text>) -> Result<(), OutOfMemory>
    ensures { OnOk result (state.new ≡ set_in state.old key.now value.now) }
{
    match value {
        None => state.metadata.settings.remove(key),
        Some(text) => {
            let text = text.copy()?;
            state.metadata.settings.set(key.copy()?, text)
        }
    }
}
