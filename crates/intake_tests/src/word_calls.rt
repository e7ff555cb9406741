use crate::small_tables::table_with;
use executors::TaskRefusal;
use scripts::TaskId;
use std::test::Fail;
use task_words::{Acquired, EndCode, Expiry, LaneFull, Outcome, PlainTasks, TaskPoll};

// The moment that stands for no deadline.
const NONE: u64 = (1 << 43) - 1;

const FIRST: TaskId = TaskId { client: 0, step: 0 };

#[test]
fn a_lane_takes_as_many_tasks_as_it_has_words(rt: HostRuntime) -> Result<(), Fail> {
    let alloc = rt.alloc();
    let mut table = PlainTasks::create(alloc, [2, 1].as_slice(), 1)?;
    assert!(rt; table.queued(1, 1, 0, NONE) == Err(LaneFull));
    assert!(rt; table.queued(1, 0, 0, NONE) == Ok(TaskId { client: 1, step: 0 }));
    assert!(rt; table.queued(0, 1, 0, NONE) == Ok(TaskId { client: 0, step: 1 }));
    assert!(rt; table.queued(0, 2, 0, NONE) == Err(LaneFull));
    assert!(rt; table.queued(0, 0, 0, NONE) == Ok(FIRST));
    assert_eq!(rt; LaneFull.number(), 1);
    Ok(())
}

#[test]
fn a_timeout_wins_at_the_deadline_or_later(rt: HostRuntime) -> Result<(), Fail> {
    let alloc = rt.alloc();
    // the deadline, the reading, and what is answered then, once more, to a batch, and to the client
    let rows: [(u64, u64, Expiry, Expiry, Acquired, TaskPoll); 6] = [
        (
            5,
            5,
            Expiry::Won,
            Expiry::AlreadyTimed { reading: 5 },
            Acquired::Timed { reading: 5 },
            TaskPoll::Timed { reading: 5 },
        ),
        (
            5,
            6,
            Expiry::Won,
            Expiry::AlreadyTimed { reading: 6 },
            Acquired::Timed { reading: 6 },
            TaskPoll::Timed { reading: 6 },
        ),
        (
            0,
            0,
            Expiry::Won,
            Expiry::AlreadyTimed { reading: 0 },
            Acquired::Timed { reading: 0 },
            TaskPoll::Timed { reading: 0 },
        ),
        (
            5,
            4,
            Expiry::NotDue { deadline: 5 },
            Expiry::NotDue { deadline: 5 },
            Acquired::Mine { seen: 3 },
            TaskPoll::NotYet,
        ),
        (
            5,
            0,
            Expiry::NotDue { deadline: 5 },
            Expiry::NotDue { deadline: 5 },
            Acquired::Mine { seen: 3 },
            TaskPoll::NotYet,
        ),
        (
            NONE,
            NONE - 1,
            Expiry::NotDue { deadline: NONE },
            Expiry::NotDue { deadline: NONE },
            Acquired::Mine { seen: 3 },
            TaskPoll::NotYet,
        ),
    ];
    for (deadline, reading, first, second, acquired, poll) in rows {
        let mut table = table_with(alloc, 3, deadline)?;
        assert!(rt; table.expire(0, FIRST, reading) == first);
        assert!(rt; table.expire(0, FIRST, reading) == second);
        assert!(rt; table.acquire(FIRST, 1) == acquired);
        assert!(rt; table.poll(0, FIRST) == poll);
    }
    Ok(())
}

#[test]
fn a_task_that_a_batch_took_does_not_time_out(rt: HostRuntime) -> Result<(), Fail> {
    let alloc = rt.alloc();
    // what came of the task in its batch
    let outcomes: [Outcome; 4] = [
        Outcome::Ok { version: 7 },
        Outcome::Unchanged { version: 6 },
        Outcome::Refused {
            refusal: TaskRefusal::Exists,
        },
        Outcome::BatchFailed {
            position: 2,
            refusal: TaskRefusal::NotFound,
        },
    ];
    for outcome in outcomes {
        let mut table = table_with(alloc, 0, 5)?;
        let code = EndCode { batch: 1, outcome };
        assert_eq!(rt; table.acquire(FIRST, 1), Acquired::Mine { seen: 0 });
        assert_eq!(rt; table.expire(0, FIRST, 9), Expiry::Taken { batch: 1 });
        assert_eq!(rt; table.poll(0, FIRST), TaskPoll::NotYet);
        if !matches!(outcome, Outcome::Closed) {
            table.end(FIRST, code);
            assert!(rt; table.expire(0, FIRST, 9) == Expiry::Ended { code });
            assert!(rt; table.poll(0, FIRST) == TaskPoll::Ended { code });
        }
    }
    Ok(())
}

#[test]
fn each_task_has_its_own_word(rt: HostRuntime) -> Result<(), Fail> {
    let alloc = rt.alloc();
    let mut table = PlainTasks::create(alloc, [1, 2].as_slice(), 1)?;
    let second = TaskId { client: 1, step: 0 };
    let third = TaskId { client: 1, step: 1 };
    assert!(rt; table.queued(0, 0, 4, 5) == Ok(FIRST));
    assert!(rt; table.queued(1, 0, 0, 6) == Ok(second));
    // any lane may let any task time out
    assert_eq!(rt; table.expire(1, FIRST, 5), Expiry::Won);
    assert_eq!(rt; table.expire(0, second, 5), Expiry::NotDue { deadline: 6 });
    assert_eq!(rt; table.expire(0, third, 5), Expiry::Vacant);
    assert_eq!(rt; table.acquire(third, 1), Acquired::Vacant);
    assert_eq!(rt; table.acquire(second, 1), Acquired::Mine { seen: 0 });
    assert_eq!(rt; table.poll(0, FIRST), TaskPoll::Timed { reading: 5 });
    Ok(())
}

#[test]
fn a_queue_is_told_of_its_first_task_until_a_batch_covers_it(rt: HostRuntime) -> Result<(), Fail> {
    let alloc = rt.alloc();
    let mut table = PlainTasks::create(alloc, [3].as_slice(), 2)?;
    assert_eq!(rt; table.cover(0), 0);
    assert!(rt; table.announce(0, 0));
    assert!(rt; !table.announce(0, 0));
    // the other queue's size is its own
    assert!(rt; table.announce(0, 1));
    assert_eq!(rt; table.cover(0), 2);
    assert_eq!(rt; table.cover(0), 0);
    assert!(rt; table.announce(0, 0));
    assert_eq!(rt; table.cover(0), 1);
    assert_eq!(rt; table.cover(1), 1);
    Ok(())
}

#[test]
fn what_waits_at_the_stop_ends_as_closed(rt: HostRuntime) -> Result<(), Fail> {
    let alloc = rt.alloc();
    let mut table = table_with(alloc, 0, NONE)?;
    let code = EndCode {
        batch: 0,
        outcome: Outcome::Closed,
    };
    assert!(rt; !table.stopped());
    table.stop(0);
    assert!(rt; table.stopped());
    assert_eq!(rt; table.acquire(FIRST, 0), Acquired::Mine { seen: 0 });
    table.end(FIRST, code);
    assert_eq!(rt; table.poll(0, FIRST), TaskPoll::Ended { code });
    Ok(())
}
