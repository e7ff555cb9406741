use crate::entry;
use crate::whole_session::{
    applied, batch, failed, good, idle, names, no_change, put_alias, put_id, put_index, put_read,
    put_value,
};
use meta_state::{ClusterState, Found, NodeInfo};
use plain_data::{Items, OutOfMemory, Text};
use report_law::is_good_form;
use session_law::{
    AckEnd, AckReply, Apply, BatchResult, Change, NodeRec, Reply, Session, TaskEnd, Watch, WatchEnd,
};
use std::alloc::Global;
use std::process::Abort;
use std::test::Fail;

// Each row changes one thing of a session of good form, and says whether it stays one. That the keys of a map are out
// of order has no row, since no map can be made so.

// What a row changes, by a name, a list of words and a list of numbers.
#[derive(Clone, Copy)]
enum What {
    // A batch more, of a queue of this name.
    Queue,

    // A batch more, of tasks that are told as ten times the client and the step.
    Tasks,

    // A reply and the like more, of this client, step and part.
    Reply,
    Ack,
    Watch,

    // A read more, which found the words.
    Read,

    // A node more: of this name, handed these versions, with these versions in its apply lines, with the words in the
    // list of this place in a change, or with one entry in its views.
    Node,
    Handed,
    Applied,
    Listed,
    Alias,
    Id,
    Value,

    // Of the last state: its cluster, its master, a node at the name that tells of each word as its own, an index of
    // the name with the words as aliases, and a setting.
    Cluster,
    Master,
    Member,
    Index,
    Setting,
}

fn number(numbers: &[u32], at: usize) -> u32 {
    match numbers.get(at) {
        None => 0,
        Some(number) => *number,
    }
}

fn put_batch(
    alloc: Global,
    made: &mut Session,
    queue: &str,
    numbers: &[u32],
) -> Result<(), OutOfMemory> {
    let mut more = batch(alloc, queue, 20, &[], BatchResult::NotMaster)?;
    for (seen, number) in numbers.iter().enumerate() {
        let seen = if seen > 0 { 1 } else { 0 };
        more.entries.push(entry(number / 10, number % 10, seen))?;
    }
    made.batches.push(more)
}

fn put_reply(made: &mut Session, client: u32, step: u32) -> Result<(), OutOfMemory> {
    made.replies.push(Reply {
        client,
        step,
        at: 0,
        end: TaskEnd::NotMaster,
    })
}

fn put_ack(made: &mut Session, client: u32, step: u32) -> Result<(), OutOfMemory> {
    let end = AckEnd::All;
    made.acks.push(AckReply { client, step, end })
}

fn put_watch(made: &mut Session, client: u32, step: u32, part: u32) -> Result<(), OutOfMemory> {
    made.watches.push(Watch {
        client,
        step,
        part,
        at: 0,
        last: None,
        place: 0,
        shown: 0,
        end: WatchEnd::Answered { version: 1 },
    })
}

fn hand(node: &mut NodeRec, versions: &[u32]) -> Result<(), OutOfMemory> {
    for version in versions {
        node.handed.push(u64::from(*version))?;
    }
    Ok(())
}

// An apply line to a version, of which the one at place 1 tells of a failure.
fn apply_to(alloc: Global, place: usize, version: u32) -> Apply {
    if place == 1 {
        failed(1, u64::from(version))
    } else {
        applied(1, u64::from(version), [1, 1, 1, 1], no_change(alloc))
    }
}

fn apply(alloc: Global, node: &mut NodeRec, versions: &[u32]) -> Result<(), OutOfMemory> {
    for (place, version) in versions.iter().enumerate() {
        node.applies.push(apply_to(alloc, place, *version))?;
    }
    Ok(())
}

// A change with these words in its list at a place from 0, the others being empty.
fn change_at(alloc: Global, place: u32, list: Items<Text>) -> Change {
    let mut change = no_change(alloc);
    match place {
        0 => change.created = list,
        1 => change.deleted = list,
        2 => change.changed = list,
        3 => change.joined = list,
        4 => change.left = list,
        _ => change.settings = list,
    }
    change
}

fn put_change(
    alloc: Global,
    node: &mut NodeRec,
    place: u32,
    words: &[&str],
) -> Result<(), OutOfMemory> {
    let change = change_at(alloc, place, names(alloc, words)?);
    node.applies.push(applied(1, 3, [3, 3, 3, 3], change))
}

fn change_node(
    alloc: Global,
    node: &mut NodeRec,
    what: What,
    name: &str,
    words: &[&str],
    numbers: &[u32],
) -> Result<(), OutOfMemory> {
    match what {
        What::Handed => hand(node, numbers),
        What::Applied => apply(alloc, node, numbers),
        What::Listed => put_change(alloc, node, number(numbers, 0), words),
        What::Alias => put_alias(alloc, &mut node.view, name, words),
        What::Id => put_id(alloc, &mut node.view, name, 1),
        What::Value => put_value(alloc, &mut node.view.settings, name, "v"),
        _ => {
            node.node = Text::from_str(alloc, name)?;
            Ok(())
        }
    }
}

// A node more, which began with version 2.
fn put_node(
    alloc: Global,
    made: &mut Session,
    what: What,
    name: &str,
    words: &[&str],
    numbers: &[u32],
) -> Result<(), OutOfMemory> {
    let mut node = idle(alloc, "n1", 2)?;
    change_node(alloc, &mut node, what, name, words, numbers)?;
    made.nodes.push(node)
}

fn put_members(
    alloc: Global,
    state: &mut ClusterState,
    key: &str,
    words: &[&str],
) -> Result<(), OutOfMemory> {
    for word in words {
        let node = NodeInfo {
            name: Text::from_str(alloc, word)?,
            eligible: false,
        };
        state.nodes.set(Text::from_str(alloc, key)?, node)?;
    }
    Ok(())
}

fn change_last(
    alloc: Global,
    state: &mut ClusterState,
    what: What,
    name: &str,
    words: &[&str],
) -> Result<(), OutOfMemory> {
    match what {
        What::Cluster => state.cluster = Text::from_str(alloc, name)?,
        What::Master => state.master = Text::from_str(alloc, name)?,
        What::Member => put_members(alloc, state, name, words)?,
        What::Index => put_index(alloc, state, 3, name, words)?,
        _ => put_value(alloc, &mut state.metadata.settings, name, "V w")?,
    }
    Ok(())
}

fn change(
    alloc: Global,
    made: &mut Session,
    what: What,
    name: &str,
    words: &[&str],
    numbers: &[u32],
) -> Result<(), OutOfMemory> {
    let client = number(numbers, 0);
    let step = number(numbers, 1);
    match what {
        What::Queue | What::Tasks => put_batch(alloc, made, name, numbers),
        What::Reply => put_reply(made, client, step),
        What::Ack => put_ack(made, client, step),
        What::Watch => put_watch(made, client, step, number(numbers, 2)),
        What::Read => {
            let found = Found::Names(names(alloc, words)?);
            put_read(&mut made.reads, client, step, 1, found)
        }
        What::Cluster | What::Master | What::Member | What::Index | What::Setting => {
            change_last(alloc, &mut made.last, what, name, words)
        }
        _ => put_node(alloc, made, what, name, words, numbers),
    }
}

fn judged(
    alloc: Global,
    what: What,
    name: &str,
    words: &[&str],
    numbers: &[u32],
) -> Result<bool, OutOfMemory> {
    let mut made = good(alloc)?;
    change(alloc, &mut made, what, name, words, numbers)?;
    is_good_form(alloc, &made)
}

// What is changed, how, and whether the session is of good form then.
type Row = (
    What,
    &'static str,
    &'static [&'static str],
    &'static [u32],
    bool,
);

fn judge_all(rt: &impl Abort, alloc: Global, rows: &[Row]) -> Result<(), OutOfMemory> {
    for (place, (what, name, words, numbers, is_good)) in rows.iter().enumerate() {
        let found = judged(alloc, *what, name, words, numbers)?;
        assert!(rt; found == *is_good, "row {place} at {name}");
    }
    Ok(())
}

const BATCHES: [Row; 13] = [
    // the queue of a batch has a name
    (What::Queue, "create", &[], &[50], true),
    (What::Queue, "9-_", &[], &[50], true),
    (What::Queue, "", &[], &[50], false),
    (What::Queue, "_q", &[], &[50], false),
    (What::Queue, "Create", &[], &[50], false),
    (What::Queue, "q.1", &[], &[50], false),
    // no task stands twice in a batch
    (What::Tasks, "create", &[], &[], true),
    (What::Tasks, "create", &[], &[51, 50, 60], true),
    (What::Tasks, "create", &[], &[0], true),
    (What::Tasks, "create", &[], &[50, 50], false),
    (What::Tasks, "create", &[], &[50, 60, 50], false),
    (What::Tasks, "create", &[], &[50, 60, 60], false),
    // a task may stand in two batches
    (What::Tasks, "q_2", &[], &[1], true),
];

#[test]
fn a_batch_has_a_queue_and_each_task_once(rt: HostRuntime) -> Result<(), Fail> {
    Ok(judge_all(&rt, rt.alloc(), &BATCHES)?)
}

const REPLIES: [Row; 10] = [
    // replies and acknowledgements stand by client and step; the last is of step 10 of client 1
    (What::Reply, "", &[], &[1, 11], true),
    (What::Reply, "", &[], &[2, 0], true),
    (What::Reply, "", &[], &[1, 10], false),
    (What::Reply, "", &[], &[1, 9], false),
    (What::Reply, "", &[], &[0, 11], false),
    (What::Ack, "", &[], &[1, 11], true),
    (What::Ack, "", &[], &[2, 0], true),
    (What::Ack, "", &[], &[1, 10], false),
    (What::Ack, "", &[], &[1, 9], false),
    (What::Ack, "", &[], &[0, 11], false),
];

#[test]
fn replies_and_acks_stand_by_client_and_step(rt: HostRuntime) -> Result<(), Fail> {
    Ok(judge_all(&rt, rt.alloc(), &REPLIES)?)
}

const WATCHES: [Row; 6] = [
    // watches stand by client, step and part; the last is part 0 of step 6 of client 1
    (What::Watch, "", &[], &[1, 6, 1], true),
    (What::Watch, "", &[], &[1, 7, 0], true),
    (What::Watch, "", &[], &[2, 0, 0], true),
    (What::Watch, "", &[], &[1, 6, 0], false),
    (What::Watch, "", &[], &[1, 5, 1], false),
    (What::Watch, "", &[], &[0, 7, 1], false),
];

#[test]
fn watches_stand_by_client_step_and_part(rt: HostRuntime) -> Result<(), Fail> {
    Ok(judge_all(&rt, rt.alloc(), &WATCHES)?)
}

const READS: [Row; 11] = [
    // reads stand by client and step; the last is of step 3 of client 1
    (What::Read, "", &["a"], &[1, 4], true),
    (What::Read, "", &["a"], &[2, 0], true),
    (What::Read, "", &["a"], &[1, 3], false),
    (What::Read, "", &["a"], &[1, 2], false),
    (What::Read, "", &["a"], &[0, 4], false),
    // found names are names of indices in byte order
    (What::Read, "", &[], &[2, 0], true),
    (What::Read, "", &["a", "a+b", "b.c"], &[2, 0], true),
    (What::Read, "", &["b", "a"], &[2, 0], false),
    (What::Read, "", &["a", "a"], &[2, 0], false),
    (What::Read, "", &["A", "b"], &[2, 0], false),
    (What::Read, "", &["a", "b,c"], &[2, 0], false),
];

#[test]
fn reads_stand_in_order_and_find_names_in_order(rt: HostRuntime) -> Result<(), Fail> {
    Ok(judge_all(&rt, rt.alloc(), &READS)?)
}

const NODES: [Row; 15] = [
    // each record of a node has a name of its own
    (What::Node, "n1", &[], &[], true),
    (What::Node, "N1", &[], &[], false),
    (What::Node, "n.1", &[], &[], false),
    (What::Node, "n0", &[], &[], false),
    (What::Node, "n9", &[], &[], false),
    // the versions that a node was handed rise
    (What::Handed, "", &[], &[], true),
    (What::Handed, "", &[], &[2, 3, 7], true),
    (What::Handed, "", &[], &[2, 2], false),
    (What::Handed, "", &[], &[2, 4, 3], false),
    (What::Handed, "", &[], &[3, 2, 4], false),
    // the versions of its apply lines rise, of which the second failed
    (What::Applied, "", &[], &[3, 4, 5], true),
    (What::Applied, "", &[], &[3, 3, 4], false),
    (What::Applied, "", &[], &[3, 5, 4], false),
    // those that it applied rise from the first, 2
    (What::Applied, "", &[], &[2, 3, 4], false),
    (What::Applied, "", &[], &[1, 3, 4], false),
];

#[test]
fn each_node_has_a_name_of_its_own_and_versions_that_rise(rt: HostRuntime) -> Result<(), Fail> {
    Ok(judge_all(&rt, rt.alloc(), &NODES)?)
}

const VIEWS: [Row; 9] = [
    // views have names of their kinds
    (What::Alias, "a+b", &["a", "b"], &[], true),
    (What::Alias, "All", &["a"], &[], false),
    (What::Alias, "all", &["b", "a"], &[], false),
    (What::Alias, "all", &["a", "a"], &[], false),
    (What::Alias, "all", &["A"], &[], false),
    (What::Id, "a+b", &[], &[], true),
    (What::Id, "A", &[], &[], false),
    (What::Value, "a.b", &[], &[], true),
    (What::Value, "a+b", &[], &[], false),
];

#[test]
fn views_have_names_of_their_kinds(rt: HostRuntime) -> Result<(), Fail> {
    Ok(judge_all(&rt, rt.alloc(), &VIEWS)?)
}

const STATES: [Row; 10] = [
    // the cluster and the master have names
    (What::Cluster, "demo-2", &[], &[], true),
    (What::Cluster, "Demo", &[], &[], false),
    (What::Cluster, "", &[], &[], false),
    (What::Master, "n5", &[], &[], true),
    (What::Master, "n.0", &[], &[], false),
    (What::Master, "", &[], &[], false),
    // each node of the last state stands under its name
    (What::Member, "n1", &["n1"], &[], true),
    (What::Member, "N1", &["N1"], &[], false),
    (What::Member, "n1", &["n2"], &[], false),
    (What::Member, "n1", &["n"], &[], false),
];

#[test]
fn the_last_state_has_names_and_each_node_stands_under_its_own(
    rt: HostRuntime,
) -> Result<(), Fail> {
    Ok(judge_all(&rt, rt.alloc(), &STATES)?)
}

const INDICES: [Row; 9] = [
    // its indices and aliases have names
    (What::Index, "c", &["all"], &[], true),
    (What::Index, "c+d", &["e+f"], &[], true),
    (What::Index, "C", &["all"], &[], false),
    (What::Index, "c", &["All"], &[], false),
    (What::Index, "c", &[""], &[], false),
    // its settings have keys
    (What::Setting, "cluster.name", &[], &[], true),
    (What::Setting, "K", &[], &[], false),
    (What::Setting, "_k", &[], &[], false),
    (What::Setting, "a+b", &[], &[], false),
];

#[test]
fn indices_aliases_and_settings_have_names(rt: HostRuntime) -> Result<(), Fail> {
    Ok(judge_all(&rt, rt.alloc(), &INDICES)?)
}

// Words of a list of a change, and in how many of the six lists they may stand, from the first on: of indices created,
// deleted and changed, of nodes that joined and left, and of keys of settings.
const LISTS: [(&'static [&'static str], u32); 6] = [
    (&["a", "b", "ba"], 6),
    (&["b", "a"], 0),
    (&["a", "a"], 0),
    (&["A"], 0),
    (&["a_b"], 6),
    (&["a+b"], 3),
];

#[test]
fn each_list_of_a_change_has_names_of_its_kind_in_byte_order(rt: HostRuntime) -> Result<(), Fail> {
    let alloc = rt.alloc();
    for place in 0..6u32 {
        for (words, lists) in LISTS {
            let found = judged(alloc, What::Listed, "", words, &[place])?;
            assert!(rt; found == (place < lists), "list {place}");
        }
        // a key may have a dot, and so may an index
        let found = judged(alloc, What::Listed, "", &["a.b"], &[place])?;
        assert!(rt; found == (place < 3 || place == 5), "list {place}");
    }
    Ok(())
}
