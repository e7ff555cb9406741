use crate::publishing_nodes::state_of;
use crate::small_links::{can_publish, counts_told, kinds_told, link_line, link_to, told};
use meta_state::ClusterState;
use plain_data::{Items, OutOfMemory, Text};
use publication::{MemLink, Publication, publish};
use std::alloc::Global;
use std::test::Fail;

// Links to three nodes, whose calls of these numbers fail. The first two hold the first state, and the third the zero
// state.
fn three_links(
    alloc: Global,
    first: &ClusterState,
    failing: [&[u64]; 3],
) -> Result<Vec<MemLink>, OutOfMemory> {
    let zero = ClusterState::zero(alloc, &Text::from_str(alloc, "demo")?)?;
    let mut links = Vec::new(alloc);
    links.push(link_to(alloc, "n0", first, failing[0])?)?;
    links.push(link_to(alloc, "n1", first, failing[1])?)?;
    links.push(link_to(alloc, "n2", &zero, failing[2])?)?;
    Ok(links)
}

// What came of one publication, in a line, and whether it committed.
fn publish_one(
    alloc: Global,
    current: &ClusterState,
    new: &ClusterState,
    links: &mut [MemLink],
) -> Result<(Text, bool), Fail> {
    if !can_publish(current, new, links) {
        return Err(Fail::from("a state can't be published"));
    }
    let publication = publish(alloc, current, new, links)?;
    let commits = matches!(&publication, Publication::Committed { .. });
    Ok((told(alloc, &publication)?, commits))
}

// Three publications over the links, each from the state that was committed last: a node joins, and then two settings
// are set. What came of each, a line each.
fn publish_three(alloc: Global, links: &mut [MemLink]) -> Result<Items<Text>, Fail> {
    let mut lines = Items::new(alloc);
    let mut current = state_of(alloc, 1, &["n0", "n1"], &[])?;
    let steps: [(u64, &[&str]); 3] = [(2, &[]), (3, &["a"]), (4, &["a", "b"])];
    for (id, keys) in steps {
        let new = state_of(alloc, id, &["n0", "n1", "n2"], keys)?;
        let (line, commits) = publish_one(alloc, &current, &new, links)?;
        lines.push(line)?;
        current = last_committed(commits, current, new);
    }
    Ok(lines)
}

// The new state where it was committed, and else the one before. Apart, so that a state is dropped in one place.
fn last_committed(commits: bool, current: ClusterState, new: ClusterState) -> ClusterState {
    if commits { new } else { current }
}

// The same over new links, and then the kinds of the messages that each node answered.
fn lines_and_kinds(alloc: Global, failing: [&[u64]; 3]) -> Result<Items<Text>, Fail> {
    let first = state_of(alloc, 1, &["n0", "n1"], &[])?;
    let mut links = three_links(alloc, &first, failing)?;
    let mut lines = publish_three(alloc, &mut links)?;
    for link in links.iter() {
        lines.push(kinds_told(alloc, link)?)?;
    }
    Ok(lines)
}

// What is left of each link after it, over links of which none fails.
fn links_after(alloc: Global) -> Result<Items<Text>, Fail> {
    let first = state_of(alloc, 1, &["n0", "n1"], &[])?;
    let mut links = three_links(alloc, &first, [&[], &[], &[]])?;
    let _lines = publish_three(alloc, &mut links)?;
    let mut left = Items::new(alloc);
    for link in links.iter() {
        left.push(link_line(alloc, link)?)?;
    }
    Ok(left)
}

// What each of new links counted in it, of which these calls fail.
fn counts_after(alloc: Global, failing: [&[u64]; 3]) -> Result<Items<Text>, Fail> {
    let first = state_of(alloc, 1, &["n0", "n1"], &[])?;
    let mut links = three_links(alloc, &first, failing)?;
    let _lines = publish_three(alloc, &mut links)?;
    let mut counts = Items::new(alloc);
    for link in links.iter() {
        counts.push(counts_told(alloc, link)?)?;
    }
    Ok(counts)
}

#[test]
fn a_state_goes_as_a_diff_or_whole_and_commits_by_the_master_and_a_majority(
    rt: HostRuntime,
) -> Result<(), Fail> {
    let alloc = rt.alloc();
    // which calls of each link fail, what comes of the publications, and the kinds of the messages that were answered
    let table: [([&[u64]; 3], [&str; 6]); 6] = [
        (
            [&[], &[], &[]],
            [
                "committed diffs 2 fulls 1 accepted 0 1 2 handed 0 1 2",
                "committed diffs 3 fulls 0 accepted 0 1 2 handed 0 1 2",
                "committed diffs 3 fulls 0 accepted 0 1 2 handed 0 1 2",
                "ddd",
                "ddd",
                "fdd",
            ],
        ),
        (
            [&[], &[0], &[]],
            [
                "committed diffs 1 fulls 1 accepted 0 2 handed 0 2",
                "committed diffs 2 fulls 1 accepted 0 1 2 handed 0 1 2",
                "committed diffs 3 fulls 0 accepted 0 1 2 handed 0 1 2",
                "ddd",
                "dfd",
                "fdd",
            ],
        ),
        (
            [&[], &[0], &[0]],
            [
                "failed diffs 1 fulls 0 accepted 0",
                "committed diffs 1 fulls 2 accepted 0 1 2 handed 0 1 2",
                "committed diffs 3 fulls 0 accepted 0 1 2 handed 0 1 2",
                "ddfd",
                "dd",
                "fd",
            ],
        ),
        (
            [&[0], &[], &[]],
            [
                "failed diffs 1 fulls 1 accepted 1 2",
                "committed diffs 1 fulls 2 accepted 0 1 2 handed 0 1 2",
                "committed diffs 3 fulls 0 accepted 0 1 2 handed 0 1 2",
                "dd",
                "ddfd",
                "ffd",
            ],
        ),
        (
            [&[], &[], &[1]],
            [
                "committed diffs 2 fulls 1 accepted 0 1 2 handed 0 1",
                "committed diffs 3 fulls 0 accepted 0 1 2 handed 0 1 2",
                "committed diffs 3 fulls 0 accepted 0 1 2 handed 0 1 2",
                "ddd",
                "ddd",
                "fdd",
            ],
        ),
        (
            [&[], &[0, 2], &[]],
            [
                "committed diffs 1 fulls 1 accepted 0 2 handed 0 2",
                "committed diffs 2 fulls 0 accepted 0 2 handed 0 2",
                "committed diffs 2 fulls 1 accepted 0 1 2 handed 0 1 2",
                "ddd",
                "ddf",
                "fdd",
            ],
        ),
    ];
    for (failing, expected) in table {
        let lines = lines_and_kinds(alloc, failing)?;
        assert_eq!(rt; lines.len(), 6);
        for (line, wanted) in lines.as_slice().iter().zip(expected) {
            assert_eq!(rt; line.as_str(), wanted);
        }
    }
    Ok(())
}

const LAST: &str =
    "{\"cluster\":\"demo\",\"id\":4,\"master\":\"n0\",\"metadata\":{\"created\":0,\"indices\":{},\"settings\":{\"a\":\"v\",\"b\":\"v\"},\"version\":0},\"nodes\":{\"n0\":{\"eligible\":true},\"n1\":{\"eligible\":true},\"n2\":{\"eligible\":true}},\"term\":0,\"version\":4}";

#[test]
fn each_node_holds_the_last_state_and_was_handed_each(rt: HostRuntime) -> Result<(), Fail> {
    let alloc = rt.alloc();
    let left = links_after(alloc)?;
    assert_eq!(rt; left.len(), 3);
    for (line, name) in left.as_slice().iter().zip(["n0", "n1", "n2"]) {
        let wanted = format!(in alloc; "{name} handed 2 3 4 room 1 faults 0 holds {LAST}")?;
        assert_eq!(rt; line.as_str(), wanted.as_str());
    }
    Ok(())
}

#[test]
fn each_publication_counts_once_whatever_comes_of_it(rt: HostRuntime) -> Result<(), Fail> {
    let alloc = rt.alloc();
    // which calls of each link fail, and what each link counted: a commit is lost, a first message isn't received, and
    // neither is the whole state that follows a refused diff
    let table: [([&[u64]; 3], [&str; 3]); 3] = [
        (
            [&[], &[], &[]],
            [
                "sent 3 handed at 1 2 3",
                "sent 3 handed at 1 2 3",
                "sent 3 handed at 1 2 3",
            ],
        ),
        (
            [&[], &[], &[1]],
            [
                "sent 3 handed at 1 2 3",
                "sent 3 handed at 1 2 3",
                "sent 3 handed at 2 3",
            ],
        ),
        (
            [&[], &[0, 2], &[]],
            [
                "sent 3 handed at 1 2 3",
                "sent 3 handed at 3",
                "sent 3 handed at 1 2 3",
            ],
        ),
    ];
    for (failing, expected) in table {
        let counts = counts_after(alloc, failing)?;
        assert_eq!(rt; counts.len(), 3);
        for (line, wanted) in counts.as_slice().iter().zip(expected) {
            assert_eq!(rt; line.as_str(), wanted);
        }
    }
    Ok(())
}
