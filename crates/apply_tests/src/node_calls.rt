use crate::small_nodes::SmallNode;
use crate::small_states::{first_state, renumbered, report_of, states_with, with_index};
use meta_state::ClusterState;
use node_apply::ApplyOutcome;
use plain_data::{OutOfMemory, Text};
use scripts::{Fault, FaultKind};
use session_law::NodeRec;
use std::alloc::Global;
use std::test::Fail;

// The fault of the node `n2` at its first publication, if any.
fn faults_of(alloc: Global, kind: Option<FaultKind>) -> Result<Vec<Fault>, OutOfMemory> {
    let mut faults = Vec::new(alloc);
    if let Some(kind) = kind {
        let node = Text::from_str(alloc, "n2")?;
        faults.push(Fault {
            node,
            publication: 1,
            kind,
        })?;
    }
    Ok(faults)
}

// The numbers of the publications whose apply fails: the first one, or none.
fn failing_of(alloc: Global, fails: bool) -> Result<Vec<u64>, OutOfMemory> {
    let mut failing = Vec::new(alloc);
    if fails {
        failing.push(1)?;
    }
    Ok(failing)
}

// Publishes a state to a node as what leads there from another one, and whole where the node can't take that; then the
// node applies what it was handed.
fn publish(
    alloc: Global,
    node: &mut SmallNode,
    old: &ClusterState,
    new: &ClusterState,
    member: bool,
) -> Result<(), OutOfMemory> {
    if !node.publish(alloc, old, new, !member)? {
        let _took = node.publish(alloc, old, new, true)?;
    }
    let _outcome = node.apply()?;
    Ok(())
}

// Publishes each of some states to a node that holds the first one.
fn publish_all(
    alloc: Global,
    node: &mut SmallNode,
    states: &[ClusterState],
) -> Result<(), OutOfMemory> {
    for (old, new) in states.iter().zip(states.iter().skip(1)) {
        publish(alloc, node, old, new, true)?;
    }
    Ok(())
}

// The report of a record, where what led to it wasn't refused memory.
fn report_if(
    alloc: Global,
    record: NodeRec,
    done: Result<(), OutOfMemory>,
) -> Result<Text, OutOfMemory> {
    match done {
        Ok(()) => report_of(alloc, record),
        Err(refused) => Err(refused),
    }
}

// What a node tells that these states are published to, of which it holds the first. It is given back whole by `finish`, so
// that no exit drops it.
fn told_by(
    alloc: Global,
    mut node: SmallNode,
    states: &[ClusterState],
) -> Result<Text, OutOfMemory> {
    let done = publish_all(alloc, &mut node, states);
    report_if(alloc, node.finish(), done)
}

// The node `n2` that holds the first of these states, whose link, or first apply, fails so.
fn faulty_node(
    alloc: Global,
    first: &ClusterState,
    kind: Option<FaultKind>,
    fails: bool,
) -> Result<SmallNode, OutOfMemory> {
    let faults = faults_of(alloc, kind)?;
    let failing = failing_of(alloc, fails)?;
    SmallNode::create(alloc, "n2", first, faults, failing)
}

fn told_over(
    alloc: Global,
    states: &[ClusterState],
    kind: Option<FaultKind>,
    fails: bool,
) -> Result<Text, OutOfMemory> {
    match states.first() {
        None => Err(OutOfMemory),
        Some(first) => told_by(alloc, faulty_node(alloc, first, kind, fails)?, states),
    }
}

// What the node `n2` tells in the end whose link, or first apply, fails so.
fn told_with(alloc: Global, kind: Option<FaultKind>, fails: bool) -> Result<Text, OutOfMemory> {
    let states = states_with(alloc, &["n0", "n1", "n2"], &["a", "b"])?;
    told_over(alloc, states.as_slice(), kind, fails)
}

// Publishes two states whole to a node that holds the zero state.
fn publish_joins(
    alloc: Global,
    node: &mut SmallNode,
    second: &ClusterState,
    fourth: &ClusterState,
) -> Result<(), OutOfMemory> {
    publish(alloc, node, second, second, false)?;
    publish(alloc, node, second, fourth, false)
}

// What a node tells then.
fn told_of_joins(
    alloc: Global,
    mut node: SmallNode,
    second: &ClusterState,
    fourth: &ClusterState,
) -> Result<Text, OutOfMemory> {
    let done = publish_joins(alloc, &mut node, second, fourth);
    report_if(alloc, node.finish(), done)
}

fn node_without_state(alloc: Global) -> Result<SmallNode, OutOfMemory> {
    let zero = ClusterState::zero(alloc, &Text::from_str(alloc, "demo")?)?;
    SmallNode::create(alloc, "n2", &zero, Vec::new(alloc), Vec::new(alloc))
}

fn told_from(alloc: Global, all: &ClusterState) -> Result<Text, OutOfMemory> {
    let second = renumbered(alloc, all, 2)?;
    let fourth = renumbered(alloc, all, 4)?;
    told_of_joins(alloc, node_without_state(alloc)?, &second, &fourth)
}

// What the node `n2` tells that holds the zero state, joins with identifier 2, and joins again with identifier 4, having
// left with 3.
fn told_of_a_joiner(alloc: Global) -> Result<Text, OutOfMemory> {
    let all = first_state(alloc, &["n0", "n1", "n2"])?;
    told_from(alloc, &all)
}

// A node of one that holds a first state.
fn only_node(alloc: Global, first: &ClusterState) -> Result<SmallNode, OutOfMemory> {
    SmallNode::create(alloc, "n0", first, Vec::new(alloc), Vec::new(alloc))
}

// Whether a node applies its commit by one call or, where that is refused memory and leaves the first state, by the next.
fn applies_in_the_end(node: &mut SmallNode) -> bool {
    match node.apply() {
        Ok(outcome) => outcome == ApplyOutcome::Applied { version: 2 },
        Err(_refused) => {
            node.applied() == 1 && matches!(node.apply(), Ok(ApplyOutcome::Applied { version: 2 }))
        }
    }
}

// Publishes the second state to a node that applies it; it is refused where memory is wanting before the apply.
fn publish_and_apply(
    alloc: Global,
    node: &mut SmallNode,
    first: &ClusterState,
    second: &ClusterState,
) -> Result<(), OutOfMemory> {
    let _took = node.publish(alloc, first, second, false)?;
    if applies_in_the_end(node) {
        Ok(())
    } else {
        Err(OutOfMemory)
    }
}

// What a node tells then.
fn told_after_refusal(
    alloc: Global,
    mut node: SmallNode,
    first: &ClusterState,
    second: &ClusterState,
) -> Result<Text, OutOfMemory> {
    let done = publish_and_apply(alloc, &mut node, first, second);
    report_if(alloc, node.finish(), done)
}

fn told_of_one_apply(alloc: Global, first: &ClusterState) -> Result<Text, OutOfMemory> {
    let second = with_index(alloc, first, 2, 1, "logs-1")?;
    told_after_refusal(alloc, only_node(alloc, first)?, first, &second)
}

// The last line of each of these reports.
const LAST: &str =
    "state {\"cluster\":\"demo\",\"id\":0,\"master\":\"\",\"metadata\":{\"created\":0,\"indices\":{},\"settings\":{},\"version\":0},\"nodes\":{},\"term\":0,\"version\":0}\n";

#[test]
fn a_node_applies_what_it_is_handed_unless_a_fault_is_listed(rt: HostRuntime) -> Result<(), Fail> {
    let alloc = rt.alloc();
    // the fault of the link at the first publication, whether the first apply fails, and what the node tells
    let table: [(Option<FaultKind>, bool, &str); 4] = [
        (
            None,
            false,
            "report 1
node n2 handed 2,3 applied 1,2,3
apply n2 1>2 high 1 normal 1 low 1 listeners 2 created a deleted - changed - joined - left - settings -
apply n2 2>3 high 2 normal 2 low 2 listeners 3 created b deleted - changed - joined - left - settings -
view n2 {\"aliases\":{},\"indices\":{\"a\":1,\"b\":2},\"settings\":{}}
",
        ),
        (
            None,
            true,
            "report 1
node n2 handed 2,3 applied 1,3
apply n2 1>2 failed
apply n2 1>3 high 1 normal 1 low 1 listeners 3 created a,b deleted - changed - joined - left - settings -
view n2 {\"aliases\":{},\"indices\":{\"a\":1,\"b\":2},\"settings\":{}}
",
        ),
        (
            Some(FaultKind::LostCommit),
            false,
            "report 1
node n2 handed 3 applied 1,3
apply n2 1>3 high 1 normal 1 low 1 listeners 3 created a,b deleted - changed - joined - left - settings -
view n2 {\"aliases\":{},\"indices\":{\"a\":1,\"b\":2},\"settings\":{}}
",
        ),
        (
            Some(FaultKind::Unreachable),
            false,
            "report 1
node n2 handed 3 applied 1,3
apply n2 1>3 high 1 normal 1 low 1 listeners 3 created a,b deleted - changed - joined - left - settings -
view n2 {\"aliases\":{},\"indices\":{\"a\":1,\"b\":2},\"settings\":{}}
",
        ),
    ];
    for (kind, fails, expected) in table {
        let told = told_with(alloc, kind, fails)?;
        let wanted = format!(in alloc; "{expected}{LAST}")?;
        assert_eq!(rt; told.as_str(), wanted.as_str());
    }
    Ok(())
}

#[test]
fn a_node_that_joins_applies_whole_states_from_the_zero_state_on(
    rt: HostRuntime,
) -> Result<(), Fail> {
    let alloc = rt.alloc();
    let told = told_of_a_joiner(alloc)?;
    let expected = "report 1
node n2 handed 2,4 applied 0,2,4
apply n2 0>2 high 0 normal 0 low 0 listeners 2 created - deleted - changed - joined n0,n1,n2 left - settings -
apply n2 2>4 high 2 normal 2 low 2 listeners 4 created - deleted - changed - joined - left - settings -
view n2 {\"aliases\":{},\"indices\":{},\"settings\":{}}
";
    let wanted = format!(in alloc; "{expected}{LAST}")?;
    assert_eq!(rt; told.as_str(), wanted.as_str());
    Ok(())
}

// Where the apply is refused memory, as a run of this test alone can ask for, the same commit is applied by the next call.
#[test]
fn an_apply_that_is_refused_memory_leaves_the_node_as_it_was(rt: HostRuntime) -> Result<(), Fail> {
    let alloc = rt.alloc();
    let told = told_of_one_apply(alloc, &first_state(alloc, &["n0"])?)?;
    let expected = "report 1
node n0 handed 2 applied 1,2
apply n0 1>2 high 1 normal 1 low 1 listeners 2 created logs-1 deleted - changed - joined - left - settings -
view n0 {\"aliases\":{},\"indices\":{\"logs-1\":1},\"settings\":{}}
";
    let wanted = format!(in alloc; "{expected}{LAST}")?;
    assert_eq!(rt; told.as_str(), wanted.as_str());
    Ok(())
}
