ghost use Rattle.std.specs.Prelude.{◌≡◌, ◌≤◌, [], IfOk, IsTrue, codes, length};
ghost use Rattle.std.specs.List.{list_all};
ghost use Rattle.serde_json.specs.View.{view};
ghost use Rattle.scripts.specs.Scripts.{IsScript, is_turn};
ghost use Rattle.scripts.specs.Built.{IsBuilt};
ghost use Rattle.script_form.specs.Faults.{AreFaults, faults_of};
ghost use Rattle.script_form.specs.Misfits.{Reads};
ghost use Rattle.script_form.specs.Parts.{optional};
ghost use Rattle.script_form.specs.Reading.{AreParts, Gives, IsRefusal, parts_of, refusal_of, script_of, version_of, whole_script};
ghost use Rattle.script_form.specs.Turns.{schedule_of};
ghost use Rattle.script_form.specs.declared.refusals.ScriptRefusal.TheVariants.{BadShape};

use crate::built::is_all_built;
use crate::clients::clients_in;
use crate::faults::faults_in;
use crate::limits::LimitName;
use crate::misfits::{Misfit, against, in_member, too_many};
use crate::nodes::nodes_in;
use crate::parts::{check_members, member, name_in, parse, whole_in};
use crate::queues::queues_in;
use crate::refusals::ScriptRefusal;
use crate::rules::Rule;
use crate::turns::schedule_in;
use crate::works::is_workable;
use plain_data::{Items, Text};
use scripts::{Fault, Script, ScriptNode, ScriptTurn};
use serde_json::Value;
use std::alloc::Global;

/// Reads a script. Bytes that aren't JSON are refused as such. Of other bytes the first thing that is wrong is named,
/// in the order of the script's form: a value at its path that breaks a rule, or a limit that is passed. Last of all
/// a script is refused at `$` as not built that holds something that isn't performed yet. Want of memory says nothing
/// of the bytes.
#[tactic(auto, unfolding(crate::specs::Reading::script_of))]
pub fn read_script(alloc: Global, bytes: &[u8]) -> Result<Script, ScriptRefusal>
    ensures reads { Gives result (script_of bytes.now) }
    ensures valid { IfOk result IsScript }
    ensures built { IfOk result IsBuilt }
{
    let value = match parse(alloc, bytes) {
        Err(_) => return Err(ScriptRefusal::OutOfMemory),
        Ok(None) => return Err(ScriptRefusal::NotJson),
        Ok(Some(value)) => value,
    };
    match script_in(alloc, &value) {
        Ok(script) => Ok(script),
        Err(misfit) => Err(refuse(alloc, misfit)),
    }
}

/// The refusal of a script in which something doesn't fit.
fn refuse(alloc: Global, misfit: Misfit) -> ScriptRefusal
    ensures { IsRefusal result (refusal_of misfit) }
{
    match misfit {
        Misfit::OutOfMemory => ScriptRefusal::OutOfMemory,
        Misfit::Limit { name } => ScriptRefusal::Limit { name },
        Misfit::Bad { path, rule } => {
            if path.as_bytes().is_empty() {
                bad_whole(alloc, rule)
            } else {
                ScriptRefusal::BadShape { path, rule }
            }
        }
    }
}

/// The refusal of the whole script.
fn bad_whole(alloc: Global, rule: Rule) -> ScriptRefusal
    ensures { IsRefusal result (BadShape (codes "$") rule) }
{
    match Text::from_str(alloc, "$") {
        Ok(path) => ScriptRefusal::BadShape { path, rule },
        Err(_) => ScriptRefusal::OutOfMemory,
    }
}

/// The script that a value is.
#[tactic(auto, unfolding(crate::specs::Reading::whole_script))]
fn script_in(alloc: Global, value: &Value) -> Result<Script, Misfit>
    ensures { Reads (λ s. s) result (whole_script (view value.now)) }
{
    let script = parts_in(alloc, value)?;
    if !is_workable(&script) {
        return Err(too_many(LimitName::Work));
    }
    if !is_all_built(&script) {
        return Err(against(alloc, Rule::NotBuilt));
    }
    Ok(script)
}

/// A script, part by part.
#[tactic(auto, unfolding(crate::specs::Reading::parts_of))]
fn parts_in(alloc: Global, value: &Value) -> Result<Script, Misfit>
    ensures { Reads (λ s. s) result (parts_of (view value.now)) }
{
    check_members(
        alloc,
        value,
        &[
            "version", "cluster", "nodes", "queues", "clients", "faults", "schedule",
        ],
    )?;
    let version = member(alloc, value, "version")?;
    let version = in_member(alloc, "version", version_in(alloc, version))?;
    let cluster = member(alloc, value, "cluster")?;
    let cluster = in_member(alloc, "cluster", name_in(alloc, cluster))?;
    let nodes = member(alloc, value, "nodes")?;
    let nodes = in_member(alloc, "nodes", nodes_in(alloc, nodes))?;
    let queues = member(alloc, value, "queues")?;
    let queues = in_member(alloc, "queues", queues_in(alloc, queues))?;
    let clients = member(alloc, value, "clients")?;
    let clients = clients_in(alloc, nodes.as_slice(), queues.as_slice(), clients);
    let clients = in_member(alloc, "clients", clients)?;
    let faults = faults_or_none(alloc, nodes.as_slice(), value)?;
    let schedule = schedule_or_none(alloc, nodes.as_slice(), clients.len(), value)?;
    Ok(Script {
        version,
        cluster,
        nodes,
        queues,
        clients,
        faults,
        schedule,
    })
}

/// The version of a script's form.
fn version_in(alloc: Global, value: &Value) -> Result<u64, Misfit>
    ensures { Reads (λ n. n) result (version_of (view value.now)) }
{
    let version = whole_in(alloc, value)?;
    if version == 1 {
        Ok(version)
    } else {
        Err(against(alloc, Rule::Version))
    }
}

fn faults_or_none(
    alloc: Global,
    nodes: &[ScriptNode],
    value: &Value,
) -> Result<Items<Fault>, Misfit>
    ensures { Reads (λ f. f) result (optional (codes "faults") [] (faults_of nodes.now) (view value.now)) }
{
    match value.get("faults") {
        None => Ok(Items::new(alloc)),
        Some(member) => in_member(alloc, "faults", faults_in(alloc, nodes, member)),
    }
}

fn schedule_or_none(
    alloc: Global,
    nodes: &[ScriptNode],
    clients: usize,
    value: &Value,
) -> Result<Items<ScriptTurn>, Misfit>
    ensures { Reads (λ t. t) result (optional (codes "schedule") [] (schedule_of nodes.now clients) (view value.now)) }
{
    match value.get("schedule") {
        None => Ok(Items::new(alloc)),
        Some(member) => in_member(
            alloc,
            "schedule",
            schedule_in(alloc, nodes, clients, member),
        ),
    }
}
