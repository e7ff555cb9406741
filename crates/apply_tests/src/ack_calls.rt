use crate::small_acks::{first_nodes, pair_committed};
use ack_words::{AckExpiry, AckPoll, NodeMask, PlainAcks};
use std::test::Fail;

// The moment that stands for no deadline.
const NONE: u64 = (1 << 43) - 1;

#[test]
fn a_set_has_the_nodes_that_were_put_in_and_not_taken_out(rt: HostRuntime) -> Result<(), Fail> {
    let nodes = NodeMask::none()
        .with(29)
        .with(0)
        .with(7)
        .without(0)
        .without(8);
    assert!(rt; nodes.has(29) && nodes.has(7));
    assert!(rt; !nodes.has(0) && !nodes.has(8) && !nodes.has(30) && !nodes.has(32));
    assert!(rt; !nodes.is_empty() && nodes.without(7).without(29).is_empty());
    assert!(rt; NodeMask::none().is_empty());
    Ok(())
}

#[test]
fn after_both_answers_nothing_times_out(rt: HostRuntime) -> Result<(), Fail> {
    let alloc = rt.alloc();
    let mut table = pair_committed(alloc, 5, false)?;
    table.node_ok(0, 0, 2);
    assert_eq!(rt; table.poll(0, 0), AckPoll::NotYet);
    table.node_ok(1, 0, 2);
    assert_eq!(rt; table.poll(0, 0), AckPoll::All);
    assert_eq!(rt; table.expire(0, 0, 9), AckExpiry::Finished);
    assert_eq!(rt; table.poll(0, 0), AckPoll::All);
    Ok(())
}

#[test]
fn an_answer_after_the_timeout_changes_nothing_for_the_client(rt: HostRuntime) -> Result<(), Fail> {
    let alloc = rt.alloc();
    let mut table = pair_committed(alloc, 5, false)?;
    table.node_ok(0, 0, 2);
    assert_eq!(rt; table.expire(0, 0, 6), AckExpiry::Won);
    assert_eq!(rt; table.poll(0, 0), AckPoll::TimedOut);
    assert_eq!(rt; table.expire(0, 0, 7), AckExpiry::TimedBefore);
    table.node_ok(1, 0, 2);
    assert_eq!(rt; table.poll(0, 0), AckPoll::TimedOut);
    // no answer is missing now
    assert_eq!(rt; table.expire(0, 0, 8), AckExpiry::Finished);
    assert_eq!(rt; table.poll(0, 0), AckPoll::TimedOut);
    Ok(())
}

#[test]
fn a_timeout_wins_at_the_deadline_or_later(rt: HostRuntime) -> Result<(), Fail> {
    let alloc = rt.alloc();
    // the deadline, whether the commit was late, the reading, and what is answered then and to the client
    let rows: [(u64, bool, u64, AckExpiry, AckPoll); 5] = [
        (5, false, 5, AckExpiry::Won, AckPoll::TimedOut),
        (0, false, 0, AckExpiry::Won, AckPoll::TimedOut),
        (
            5,
            false,
            4,
            AckExpiry::NotDue { deadline: 5 },
            AckPoll::NotYet,
        ),
        (
            NONE,
            false,
            NONE - 1,
            AckExpiry::NotDue { deadline: NONE },
            AckPoll::NotYet,
        ),
        (5, true, 4, AckExpiry::TimedBefore, AckPoll::TimedOut),
    ];
    for (deadline, late, reading, expiry, poll) in rows {
        let mut table = pair_committed(alloc, deadline.min(NONE), late)?;
        assert!(rt; table.expire(0, 0, reading) == expiry);
        assert!(rt; table.poll(0, 0) == poll);
    }
    Ok(())
}

#[test]
fn failures_are_counted_once_for_each_node(rt: HostRuntime) -> Result<(), Fail> {
    let alloc = rt.alloc();
    let mut table = pair_committed(alloc, 5, false)?;
    assert!(rt; table.node_failed(0, 1));
    assert!(rt; !table.node_failed(0, 1));
    assert_eq!(rt; table.poll(0, 0), AckPoll::NotYet);
    assert!(rt; table.node_failed(0, 0));
    assert_eq!(rt; table.poll(0, 0), AckPoll::Failed { count: 2 });
    assert_eq!(rt; table.expire(0, 0, 9), AckExpiry::Finished);
    Ok(())
}

#[test]
fn a_failure_beside_an_answer_is_told(rt: HostRuntime) -> Result<(), Fail> {
    let alloc = rt.alloc();
    let mut table = pair_committed(alloc, NONE, false)?;
    table.node_ok(1, 0, 2);
    // what was answered isn't asked for, and can't fail
    assert!(rt; !table.node_failed(0, 1));
    assert_eq!(rt; table.asks(1, 0), None);
    assert_eq!(rt; table.asks(0, 0), Some(2));
    assert!(rt; table.node_failed(0, 0));
    assert_eq!(rt; table.asks(0, 0), None);
    assert_eq!(rt; table.poll(0, 0), AckPoll::Failed { count: 1 });
    Ok(())
}

#[test]
fn before_its_commit_nothing_is_told_of_an_acknowledgement(rt: HostRuntime) -> Result<(), Fail> {
    let alloc = rt.alloc();
    // the lanes have one, none and two acknowledgements
    let mut table = PlainAcks::create(alloc, [1, 0, 2].as_slice(), 2)?;
    table.start(1, 5);
    table.start(2, 5);
    table.committed(2, 3, first_nodes(), false);
    assert_eq!(rt; table.poll(0, 0), AckPoll::NotYet);
    assert_eq!(rt; table.expire(0, 0, 9), AckExpiry::NotCommitted);
    assert_eq!(rt; table.asks(0, 0), None);
    assert_eq!(rt; table.poll(2, 1), AckPoll::NotYet);
    assert_eq!(rt; table.expire(2, 1, 9), AckExpiry::NotCommitted);
    assert_eq!(rt; table.asks(0, 1), None);
    assert_eq!(rt; table.asks(0, 2), Some(3));
    assert_eq!(rt; table.expire(2, 2, 9), AckExpiry::Won);
    Ok(())
}

#[test]
fn the_applied_version_of_a_node_never_falls(rt: HostRuntime) -> Result<(), Fail> {
    let alloc = rt.alloc();
    let mut table = PlainAcks::create(alloc, [1].as_slice(), 2)?;
    assert_eq!(rt; table.floor(0, 1), 0);
    table.raise_applied(1, 4);
    table.raise_applied(1, 3);
    assert_eq!(rt; table.floor(0, 1), 4);
    assert_eq!(rt; table.floor(0, 0), 0);
    Ok(())
}
