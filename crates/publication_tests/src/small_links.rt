ghost use Rattle.std.specs.Prelude.{◌≡◌, ◌<◌, ◌^◌, IsTrue, map};
ghost use Rattle.std.specs.List.{AllByRecursion};
ghost use Rattle.publication.specs.Deliveries.{CanTake};

use meta_state::{ClusterState, to_json};
use plain_data::{OutOfMemory, Text, is_same};
use publication::{Link, MemLink, MessageKind, Publication, Replica};
use std::alloc::Global;

/// A link to a node that holds a state, with room for four commits. Its calls of these numbers fail.
pub fn link_to(
    alloc: Global,
    node: &str,
    held: &ClusterState,
    failing: &[u64],
) -> Result<MemLink, OutOfMemory> {
    let mut calls = Vec::new(alloc);
    for call in failing {
        calls.push(*call)?;
    }
    let replica = Replica::new(held.copy(alloc)?);
    MemLink::new(alloc, Text::from_str(alloc, node)?, replica, 4, calls)
}

/// Whether a new state may be published over links, after another: what `publish` asks of its caller.
pub fn can_publish(prev: &ClusterState, new: &ClusterState, links: &[MemLink]) -> bool
    ensures differ { IsTrue result → prev.now.id ≡ new.now.id → ⊥ }
    ensures links { IsTrue result → AllByRecursion (CanTake prev.now new.now) (map (λ l. l.meaning) links.now) }
    ensures bound { IsTrue result → new.now.version < 2 ^ 32 }
{
    prev.id != new.id && new.version < 1 << 32 && can_all_take(prev, new, links)
}

fn can_all_take(prev: &ClusterState, new: &ClusterState, links: &[MemLink]) -> bool
    ensures { IsTrue result → AllByRecursion (CanTake prev.now new.now) (map (λ l. l.meaning) links.now) }
{
    for link in links {
        if !can_take(prev, new, link) {
            return false;
        }
    }
    true
}

fn can_take(prev: &ClusterState, new: &ClusterState, link: &MemLink) -> bool
    ensures { IsTrue result → CanTake prev.now new.now link.now.meaning }
{
    let held = link.state();
    held.id != new.id
        && (held.id != prev.id || is_same(held, prev))
        && link.room() > 0
        && !link.was_sent(new.id)
}

/// A publication in one line: what came of it, its counts, and its places.
pub fn told(alloc: Global, publication: &Publication) -> Result<Text, OutOfMemory> {
    let mut line = String::new(alloc);
    match publication {
        Publication::Committed {
            diffs,
            fulls,
            accepted,
            handed,
        } => {
            write_counts(&mut line, "committed", *diffs, *fulls)?;
            write_places(&mut line, " accepted", accepted.as_slice())?;
            write_places(&mut line, " handed", handed.as_slice())?;
        }
        Publication::NotCommitted {
            diffs,
            fulls,
            accepted,
        } => {
            write_counts(&mut line, "failed", *diffs, *fulls)?;
            write_places(&mut line, " accepted", accepted.as_slice())?;
        }
    }
    Ok(Text::from_string(line))
}

/// The kinds of the messages that a link's node answered, a letter each: `f` for a whole state and `d` for a diff.
pub fn kinds_told(alloc: Global, link: &MemLink) -> Result<Text, OutOfMemory> {
    let mut letters = String::new(alloc);
    for kind in link.kinds() {
        match kind {
            MessageKind::Full => letters.push('f')?,
            MessageKind::Diff => letters.push('d')?,
        }
    }
    Ok(Text::from_string(letters))
}

/// What a link counted: how many publications were sent to its node, and the numbers of those with which this was handed
/// a state.
pub fn counts_told(alloc: Global, link: &MemLink) -> Result<Text, OutOfMemory> {
    let mut line = String::new(alloc);
    write_number(&mut line, "sent ", link.sent())?;
    write_places(&mut line, " handed at", link.numbers())?;
    Ok(Text::from_string(line))
}

/// A link in one line: its node, what this was handed, the room that is left, the faults, and what the node holds.
pub fn link_line(alloc: Global, link: &MemLink) -> Result<Text, OutOfMemory> {
    let mut line = String::from_str(alloc, link.node().as_str())?;
    line.push_str(" handed")?;
    for state in link.handed() {
        write_number(&mut line, " ", state.version)?;
    }
    write_number(&mut line, " room ", u64::from(link.room()))?;
    write_number(&mut line, " faults ", link.faults())?;
    line.push_str(" holds ")?;
    line.push_str(to_json(alloc, link.state())?.as_str())?;
    Ok(Text::from_string(line))
}

fn write_counts(line: &mut String, word: &str, diffs: u64, fulls: u64) -> Result<(), OutOfMemory> {
    line.push_str(word)?;
    write_number(line, " diffs ", diffs)?;
    write_number(line, " fulls ", fulls)
}

fn write_number(line: &mut String, before: &str, number: u64) -> Result<(), OutOfMemory> {
    write!(line, "{before}{number}")?;
    Ok(())
}

fn write_places(line: &mut String, word: &str, places: &[u64]) -> Result<(), OutOfMemory> {
    line.push_str(word)?;
    for place in places {
        write_number(line, " ", *place)?;
    }
    Ok(())
}
