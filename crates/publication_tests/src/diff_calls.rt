use crate::small_states::state_with;
use meta_state::{ClusterState, to_json};
use plain_data::{OutOfMemory, Text};
use state_diff::StateDiff;
use std::alloc::Global;
use std::test::Fail;

// What leads from the state of identifier 1 to that of identifier 2.
fn first_to_second(alloc: Global) -> Result<StateDiff, OutOfMemory> {
    let first = state_with(alloc, 1, 1, "k")?;
    let second = state_with(alloc, 2, 2, "l")?;
    StateDiff::between(alloc, &first, &second)
}

// The number of the refusal, or 0, and the state that comes back.
fn told_of(
    alloc: Global,
    diff: &StateDiff,
    state: ClusterState,
) -> Result<(u8, Text), OutOfMemory> {
    match diff.apply(alloc, state) {
        Ok(made) => Ok((0, to_json(alloc, &made)?)),
        Err(fault) => Ok((fault.why.number(), to_json(alloc, &fault.state)?)),
    }
}

fn told(alloc: Global, id: u64, version: u64, key: &str) -> Result<(u8, Text), OutOfMemory> {
    let diff = first_to_second(alloc)?;
    told_of(alloc, &diff, state_with(alloc, id, version, key)?)
}

const SECOND: &str =
    "{\"cluster\":\"demo\",\"id\":2,\"master\":\"\",\"metadata\":{\"created\":0,\"indices\":{},\"settings\":{\"l\":\"v\"},\"version\":0},\"nodes\":{},\"term\":0,\"version\":2}";

const THIRD: &str =
    "{\"cluster\":\"demo\",\"id\":3,\"master\":\"\",\"metadata\":{\"created\":0,\"indices\":{},\"settings\":{\"k\":\"v\"},\"version\":0},\"nodes\":{},\"term\":0,\"version\":1}";

#[test]
fn a_diff_leads_by_identifier_and_hands_every_other_state_back(
    rt: HostRuntime,
) -> Result<(), Fail> {
    let alloc = rt.alloc();
    for (id, version, key, number, text) in [
        (1, 1, "k", 0, SECOND),
        (2, 2, "l", 0, SECOND),
        (3, 1, "k", 1, THIRD),
    ] {
        let (refusal, made) = told(alloc, id, version, key)?;
        assert_eq!(rt; refusal, number);
        assert_eq!(rt; made.as_str(), text);
    }
    Ok(())
}
