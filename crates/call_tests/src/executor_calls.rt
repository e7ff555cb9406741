ghost use Rattle.std.specs.Prelude.{◌≡◌};
ghost use Rattle.std.specs.List.{list_all};
ghost use Rattle.executors.specs.Executions.{tasks_of};
ghost use Rattle.executors.specs.Kinds.{accepts};

use crate::state_calls::{first_of, index_with, put_index};
use executors::{Executed, Executor, Kind, Mark, Task, TaskContext, Verdict, number};
use meta_state::{ClusterState, NodeInfo, to_json};
use plain_data::{Items, OutOfMemory, Text};
use std::alloc::Global;
use std::process::Abort;
use std::test::Fail;

fn put_taken(alloc: Global, state: &mut ClusterState) -> Result<(), OutOfMemory> {
    state.metadata.created = 1;
    let index = index_with(alloc, 1, &["other"])?;
    put_index(alloc, state, "taken", index)
}

// The cluster "demo" of one node, in which the index "taken" was created with the alias "other".
fn demo(alloc: Global) -> Result<ClusterState, OutOfMemory> {
    let mut state = first_of(alloc, &[("n0", true)])?;
    put_taken(alloc, &mut state)?;
    Ok(state)
}

// What a row of a table asks for, by its two names and its number.
#[derive(Clone, Copy)]
enum Act {
    // With so many shards and one replica.
    Create,

    // With one shard and so many replicas.
    Replicate,
    Delete,
    Set,
    Open,
    Shut,
    Add,
    Remove,

    // A value of so many letters.
    Put,

    // A key of so many letters.
    PutLong,
    Clear,
    Join,
    Leave,
    Reelect,
}

fn letters(alloc: Global, count: u64) -> Result<Text, OutOfMemory> {
    let mut name = String::new(alloc);
    for _ in 0..count {
        name.push_str("v")?;
    }
    Ok(Text::from_string(name))
}

fn setting(alloc: Global, index: Text, key: &str, value: u64) -> Result<Task, OutOfMemory> {
    let key = Text::from_str(alloc, key)?;
    Ok(Task::IndexSetting { index, key, value })
}

fn alias(alloc: Global, index: Text, alias: &str, add: bool) -> Result<Task, OutOfMemory> {
    let alias = Text::from_str(alloc, alias)?;
    Ok(Task::Alias { index, alias, add })
}

fn put(key: Text, value: Text) -> Task {
    Task::ClusterSetting {
        key,
        value: Some(value),
    }
}

fn join(name: Text, eligible: bool) -> Task {
    Task::Join {
        node: NodeInfo { name, eligible },
    }
}

fn create(index: Text, shards: u64, replicas: u64) -> Task {
    Task::CreateIndex {
        index,
        shards,
        replicas,
    }
}

// The task of a row.
fn asked(
    alloc: Global,
    act: Act,
    name: &str,
    other: &str,
    number: u64,
) -> Result<Task, OutOfMemory> {
    let index = Text::from_str(alloc, name)?;
    match act {
        Act::Create => Ok(create(index, number, 1)),
        Act::Replicate => Ok(create(index, 1, number)),
        Act::Delete => Ok(Task::DeleteIndex { index }),
        Act::Set => setting(alloc, index, other, number),
        Act::Open => Ok(Task::OpenClose {
            index,
            opened: true,
        }),
        Act::Shut => Ok(Task::OpenClose {
            index,
            opened: false,
        }),
        Act::Add => alias(alloc, index, other, true),
        Act::Remove => alias(alloc, index, other, false),
        Act::Put => Ok(put(index, letters(alloc, number)?)),
        Act::PutLong => Ok(put(letters(alloc, number)?, index)),
        Act::Clear => Ok(Task::ClusterSetting {
            key: index,
            value: None,
        }),
        Act::Join => Ok(join(index, number == 1)),
        Act::Leave => Ok(Task::Leave { name: index }),
        Act::Reelect => Ok(Task::Reelect),
    }
}

fn are_taken(kind: Kind, contexts: &[TaskContext]) -> bool
    ensures { result ≡ list_all (accepts kind) (tasks_of contexts.now) }
{
    for context in contexts {
        if !kind.accepts(context.task()) {
            return false;
        }
    }
    true
}

// What an executor makes of tasks on a state.
fn execute(
    rt: &impl Abort,
    alloc: Global,
    kind: Kind,
    state: &ClusterState,
    tasks: Vec<Task>,
) -> Result<Executed, OutOfMemory> {
    assert!(rt; state.roomy() && tasks.len() < 100);
    let contexts = number(alloc, tasks)?;
    assert!(rt; are_taken(kind, &contexts));
    kind.execute(alloc, state, contexts)
}

fn tell_marks(alloc: Global, told: &mut String, marks: &Items<Mark>) -> Result<(), OutOfMemory> {
    for mark in marks.as_slice() {
        let position = mark.position();
        let line = match mark.verdict() {
            Verdict::Success => format!(in alloc; "{position} done ")?,
            Verdict::Refused(refusal) => format!(in alloc; "{position} {refusal} ")?,
        };
        told.push_str(line.as_str())?;
    }
    Ok(())
}

// Carries a batch out on a state, and tells how each task was completed, or for which the batch failed.
fn carry_out(
    rt: &impl Abort,
    alloc: Global,
    kind: Kind,
    state: &mut ClusterState,
    tasks: Vec<Task>,
) -> Result<String, OutOfMemory> {
    let mut told = String::new(alloc);
    match execute(rt, alloc, kind, state, tasks)? {
        Executed::Made { state: made, marks } => {
            tell_marks(alloc, &mut told, &marks)?;
            *state = made;
        }
        Executed::Failed { position, refusal } => {
            told.push_str(format!(in alloc; "failed {position} {refusal}")?.as_str())?
        }
    }
    Ok(told)
}

// A task, by what it asks for, its two names and its number.
type Row = (Act, &'static str, &'static str, u64);

// An executor, the tasks of a batch, and what is told of it.
type Told = (Kind, &'static [Row], &'static str);

fn tasks_of(alloc: Global, rows: &[Row]) -> Result<Vec<Task>, OutOfMemory> {
    let mut tasks = Vec::new(alloc);
    for (act, name, other, number) in rows {
        tasks.push(asked(alloc, *act, name, other, *number)?)?;
    }
    Ok(tasks)
}

// Carries batches out one after the other, and spells the state that they leave.
fn carry_out_all(rt: &impl Abort, alloc: Global, batches: &[Told]) -> Result<Text, OutOfMemory> {
    let mut state = demo(alloc)?;
    for (kind, rows, wanted) in batches {
        let tasks = tasks_of(alloc, rows)?;
        let told = carry_out(rt, alloc, *kind, &mut state, tasks)?;
        assert_eq!(rt; told.as_str(), *wanted);
    }
    to_json(alloc, &state)
}

const CREATIONS: [Told; 1] = [(
    Kind::CreateIndex,
    &[
        (Act::Replicate, "logs-1", "", 0),
        (Act::Replicate, "logs-1", "", 0),
        (Act::Create, "taken", "", 1),
        (Act::Create, "other", "", 1),
        (Act::Create, "", "", 1),
        (Act::Create, "Logs", "", 1),
        (Act::Create, "a", "", 0),
        (Act::Create, "a", "", 1025),
        (Act::Replicate, "a", "", 1001),
        (Act::Create, "a", "", 1024),
        (Act::Replicate, "b", "", 1000),
        (Act::Create, "_b", "", 0),
        (Act::Create, "b", "", 0),
        (Act::Create, "other", "", 0),
    ],
    "0 done 1 exists 2 exists 3 alias_clash 4 invalid_name 5 invalid_name 6 bad_value 7 bad_value 8 bad_value 9 done 10 done 11 invalid_name 12 exists 13 alias_clash ",
)];

const CREATED: &str =
    r#"{"cluster":"demo","id":1,"master":"n0","metadata":{"created":4,"indices":{"a":{"aliases":[],"aliases_version":1,"id":3,"open":true,"replicas":1,"settings_version":1,"shards":1024,"version":1},"b":{"aliases":[],"aliases_version":1,"id":4,"open":true,"replicas":1000,"settings_version":1,"shards":1,"version":1},"logs-1":{"aliases":[],"aliases_version":1,"id":2,"open":true,"replicas":0,"settings_version":1,"shards":1,"version":1},"taken":{"aliases":["other"],"aliases_version":1,"id":1,"open":true,"replicas":1,"settings_version":1,"shards":1,"version":1}},"settings":{},"version":1},"nodes":{"n0":{"eligible":true}},"term":1,"version":1}"#;

#[test]
fn indices_are_created_or_refused_one_after_the_other(rt: HostRuntime) -> Result<(), Fail> {
    let state = carry_out_all(&rt, rt.alloc(), &CREATIONS)?;
    assert_eq!(rt; state.as_str(), CREATED);
    Ok(())
}

const REPLICAS: &str = "index.number_of_replicas";

const SHARDS: &str = "index.number_of_shards";

// Each task is refused for the first check that fails.
const REFUSALS: [Told; 9] = [
    (Kind::CreateIndex, &[], ""),
    (
        Kind::DeleteIndex,
        &[(Act::Delete, "other", "", 0)],
        "0 not_found ",
    ),
    (
        Kind::IndexSettings,
        &[
            (Act::Set, "b", "codec", 1001),
            (Act::Set, "taken", "codec", 1),
            (Act::Set, "taken", SHARDS, 1001),
            (Act::Set, "taken", REPLICAS, 1001),
        ],
        "0 not_found 1 bad_value 2 final_setting 3 bad_value ",
    ),
    (Kind::OpenClose, &[(Act::Open, "b", "", 0)], "0 not_found "),
    (
        Kind::Aliases,
        &[
            (Act::Add, "b", "X", 0),
            (Act::Add, "taken", "X", 0),
            (Act::Add, "taken", "taken", 0),
            (Act::Remove, "b", "other", 0),
            (Act::Remove, "taken", "x", 0),
        ],
        "0 not_found 1 invalid_name 2 alias_clash 3 not_found 4 not_found ",
    ),
    (
        Kind::AliasesAtomic,
        &[(Act::Add, "taken", "x", 0), (Act::Add, "b", "y", 0)],
        "failed 1 not_found",
    ),
    (
        Kind::AliasesAtomic,
        &[(Act::Add, "b", "x", 0), (Act::Add, "taken", "y", 0)],
        "failed 0 not_found",
    ),
    (
        Kind::ClusterSettings,
        &[
            (Act::Put, "k", "", 1025),
            (Act::Put, ".k", "", 1),
            (Act::PutLong, "v", "", 256),
            (Act::Clear, "kK", "", 0),
        ],
        "0 bad_value 1 bad_value 2 bad_value 3 bad_value ",
    ),
    (
        Kind::Nodes,
        &[
            (Act::Join, "n0", "", 0),
            (Act::Leave, "n1", "", 0),
            (Act::Leave, "n0", "", 0),
        ],
        "0 node_known 1 node_unknown 2 master_may_not_leave ",
    ),
];

const BEFORE: &str =
    r#"{"cluster":"demo","id":1,"master":"n0","metadata":{"created":1,"indices":{"taken":{"aliases":["other"],"aliases_version":1,"id":1,"open":true,"replicas":1,"settings_version":1,"shards":1,"version":1}},"settings":{},"version":1},"nodes":{"n0":{"eligible":true}},"term":1,"version":1}"#;

#[test]
fn refused_tasks_change_nothing(rt: HostRuntime) -> Result<(), Fail> {
    let state = carry_out_all(&rt, rt.alloc(), &REFUSALS)?;
    assert_eq!(rt; state.as_str(), BEFORE);
    Ok(())
}

// Where replicas, flag or alias don't differ nothing changes, nor where an absent key is removed.
const CHANGES: [Told; 9] = [
    (
        Kind::CreateIndex,
        &[(Act::Create, "a", "", 2), (Act::Create, "gone", "", 1)],
        "0 done 1 done ",
    ),
    (
        Kind::Aliases,
        &[
            (Act::Add, "gone", "g", 0),
            (Act::Add, "a", "x", 0),
            (Act::Add, "a", "x", 0),
            (Act::Remove, "taken", "other", 0),
        ],
        "0 done 1 done 2 done 3 done ",
    ),
    (Kind::AliasesAtomic, &[(Act::Add, "a", "x", 0)], "0 done "),
    (
        Kind::DeleteIndex,
        &[(Act::Delete, "gone", "", 0)],
        "0 done ",
    ),
    (
        Kind::IndexSettings,
        &[(Act::Set, "a", REPLICAS, 3), (Act::Set, "a", REPLICAS, 3)],
        "0 done 1 done ",
    ),
    (
        Kind::OpenClose,
        &[(Act::Shut, "a", "", 0), (Act::Shut, "a", "", 0)],
        "0 done 1 done ",
    ),
    (
        Kind::ClusterSettings,
        &[
            (Act::Put, "k", "", 2),
            (Act::Put, "gone", "", 2),
            (Act::Clear, "gone", "", 0),
            (Act::Clear, "gone", "", 0),
        ],
        "0 done 1 done 2 done 3 done ",
    ),
    (
        Kind::Nodes,
        &[
            (Act::Join, "n1", "", 0),
            (Act::Join, "n2", "", 1),
            (Act::Join, "n3", "", 1),
            (Act::Leave, "n3", "", 0),
        ],
        "0 done 1 done 2 done 3 done ",
    ),
    (Kind::Reelect, &[(Act::Reelect, "", "", 0)], "0 done "),
];

const AFTER: &str =
    r#"{"cluster":"demo","id":1,"master":"n0","metadata":{"created":3,"indices":{"a":{"aliases":["x"],"aliases_version":2,"id":2,"open":false,"replicas":3,"settings_version":2,"shards":2,"version":4},"taken":{"aliases":[],"aliases_version":2,"id":1,"open":true,"replicas":1,"settings_version":1,"shards":1,"version":2}},"settings":{"k":"vv"},"version":1},"nodes":{"n0":{"eligible":true},"n1":{"eligible":false},"n2":{"eligible":true}},"term":2,"version":1}"#;

#[test]
fn tasks_change_what_they_name(rt: HostRuntime) -> Result<(), Fail> {
    let state = carry_out_all(&rt, rt.alloc(), &CHANGES)?;
    assert_eq!(rt; state.as_str(), AFTER);
    Ok(())
}
