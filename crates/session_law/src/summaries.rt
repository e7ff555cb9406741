ghost use Rattle.std.specs.Prelude.{◌≡◌, [], IfOk, OnOk, count_by};
ghost use Rattle.std.specs.List.{list_all};
ghost use Rattle.session_law.specs.NodeLines.{applied_to, applied_versions};
ghost use Rattle.session_law.specs.NodeRecords.{last_of};
ghost use Rattle.session_law.specs.Summaries.{equal_word, has_reached, is_ok, summary_of, with_aliases_of, with_keys};

use crate::TaskEnd;
use crate::node_records::NodeRec;
use crate::replies::Reply;
use crate::sessions::Session;
use meta_state::IndexTable;
use plain_data::{NameSet, OutOfMemory, Text};
use std::alloc::Global;

/// The summary of a session, in one line: how many tasks ended and how many of them well, how many indices and distinct
/// aliases the last state has, and whether each node applied the last version.
#[tactic(auto, unfolding(crate::specs::Summaries::summary_of))]
pub fn summary_text(alloc: Global, session: &Session) -> Result<Text, OutOfMemory>
    ensures { IfOk result (λ text. text ≡ summary_of session.now) }
{
    let aliases = aliases_in(alloc, &session.last.metadata.indices)?;
    let tasks = session.replies.len();
    let ended_well = count_ok(session.replies.as_slice());
    let indices = session.last.metadata.indices.len();
    let names = aliases.len();
    let word = word_of(are_all_at(session.last.version, session.nodes.as_slice()));
    let mut out = String::new(alloc);
    write!(
        &mut out,
        "tasks {tasks} ok {ended_well} indices {indices} aliases {names} nodes {word}\n"
    )?;
    Ok(Text::from_string(out))
}

fn is_success(end: &TaskEnd) -> bool
    ensures { result ≡ is_ok end.now }
{
    matches!(end, TaskEnd::Ok { .. })
}

fn count_ok(replies: &[Reply]) -> usize
    ensures { result ≡ count_by (λ r. is_ok r.end) replies.now }
{
    replies
        .iter()
        .filter(|reply| is_success(&reply.end))
        .count()
}

/// The aliases of some indices, each once.
fn aliases_in(alloc: Global, indices: &IndexTable) -> Result<NameSet, OutOfMemory>
    ensures { IfOk result (λ made. made ≡ with_aliases_of indices.now []) }
{
    let mut names = NameSet::new(alloc);
    for (_, index) in indices.iter() {
        add_names(&mut names, &index.aliases)?;
    }
    Ok(names)
}

fn add_names(names: &mut NameSet, more: &NameSet) -> Result<(), OutOfMemory>
    ensures { OnOk result (names.new ≡ with_keys more.now names.old) }
{
    for name in more.iter() {
        names.insert(name.copy()?)?;
    }
    Ok(())
}

fn last_version(node: &NodeRec) -> u64
    ensures { result ≡ last_of 0 (applied_versions node.now) }
{
    let mut version = node.first;
    for apply in node.applies.as_slice() {
        if apply.end.has_applied() {
            version = apply.to;
        }
    }
    version
}

fn are_all_at(version: u64, nodes: &[NodeRec]) -> bool
    ensures { result ≡ list_all (has_reached version) nodes.now }
{
    nodes.iter().all(|node| last_version(node) == version)
}

fn word_of(same: bool) -> &'static str
    ensures { result.now ≡ equal_word same }
{
    if same { "equal" } else { "differ" }
}
