use crate::small_watches::pair_armed;
use meta_state::WatchId;
use observers::{AnswerTry, PlainWatches, WatchExpiry, WatchPoll, WatchWord};
use std::test::Fail;

const FIRST: WatchId = WatchId { client: 0, step: 0 };

const SECOND: WatchId = WatchId { client: 0, step: 1 };

#[test]
fn a_watch_waits_until_a_timeout_that_it_keeps(rt: HostRuntime) -> Result<(), Fail> {
    let alloc = rt.alloc();
    // the reading of the first timeout, which is at the deadline or later, and that of a second one
    for (reading, later) in [(5, 5), (5, 6), (6, 9)] {
        let mut table = pair_armed(alloc)?;
        assert!(rt; table.poll(0, FIRST) == WatchPoll::NotYet);
        assert!(rt; table.expire(0, FIRST, reading) == WatchExpiry::Won);
        assert!(rt; table.expire(0, FIRST, later) == WatchExpiry::TimedBefore { reading });
        assert!(rt; table.answer(0, FIRST, 3) == AnswerTry::Timed { reading });
        assert!(rt; table.poll(0, FIRST) == WatchPoll::Timed { reading });
        assert!(rt; table.poll(0, SECOND) == WatchPoll::NotYet);
    }
    Ok(())
}

#[test]
fn an_answer_before_the_timeout_stays(rt: HostRuntime) -> Result<(), Fail> {
    let alloc = rt.alloc();
    let mut table = pair_armed(alloc)?;
    assert_eq!(rt; table.answer(1, SECOND, 3), AnswerTry::Won);
    assert_eq!(rt; table.poll(0, SECOND), WatchPoll::Answered { version: 3 });
    assert_eq!(rt;
        table.expire(0, SECOND, 7),
        WatchExpiry::Answered { version: 3 }
    );
    table.close(0, SECOND);
    assert_eq!(rt;
        table.word(SECOND),
        WatchWord::Answered {
            node: 1,
            version: 3
        }
    );
    assert_eq!(rt; table.poll(0, FIRST), WatchPoll::NotYet);
    Ok(())
}

#[test]
fn the_close_step_ends_and_counts_the_watches_that_wait(rt: HostRuntime) -> Result<(), Fail> {
    let alloc = rt.alloc();
    // the lanes have one, none and three watches
    let mut table = PlainWatches::create(alloc, [1, 0, 3].as_slice(), 2)?;
    let timed = WatchId { client: 2, step: 0 };
    let waits = WatchId { client: 2, step: 1 };
    let unborn = WatchId { client: 2, step: 2 };
    table.arm(0, FIRST, 0, 5);
    table.arm(2, timed, 1, 5);
    table.arm(2, waits, 1, 5);
    assert_eq!(rt; table.expire(2, timed, 8), WatchExpiry::Won);
    assert_eq!(rt; table.close_all(1), 2);
    assert_eq!(rt; table.poll(0, FIRST), WatchPoll::Closed);
    assert_eq!(rt; table.poll(2, timed), WatchPoll::Timed { reading: 8 });
    assert_eq!(rt; table.expire(2, waits, 9), WatchExpiry::Closed);
    assert_eq!(rt; table.answer(1, waits, 3), AnswerTry::Closed);
    assert_eq!(rt; table.poll(2, waits), WatchPoll::Closed);
    assert_eq!(rt; table.close_all(1), 0);
    assert_eq!(rt; table.word(unborn), WatchWord::Vacant);
    Ok(())
}

#[test]
fn a_watch_that_begins_after_the_close_step_ends_unless_it_was_answered(
    rt: HostRuntime,
) -> Result<(), Fail> {
    let alloc = rt.alloc();
    let mut table = PlainWatches::create(alloc, [2].as_slice(), 2)?;
    assert_eq!(rt; table.close_all(0), 0);
    table.arm(0, FIRST, 0, 5);
    table.arm(0, SECOND, 1, 5);
    assert_eq!(rt; table.answer(0, FIRST, 3), AnswerTry::Won);
    table.close(0, FIRST);
    table.close(0, SECOND);
    assert_eq!(rt; table.poll(0, FIRST), WatchPoll::Answered { version: 3 });
    assert_eq!(rt; table.poll(0, SECOND), WatchPoll::Closed);
    Ok(())
}

#[test]
fn a_watch_waits_on_its_own_node_alone(rt: HostRuntime) -> Result<(), Fail> {
    let alloc = rt.alloc();
    let mut table = pair_armed(alloc)?;
    assert!(rt; table.waiting(0, FIRST) && table.waiting(1, SECOND));
    assert!(rt; !table.waiting(1, FIRST) && !table.waiting(0, SECOND));
    assert_eq!(rt; table.answer(0, FIRST, 4), AnswerTry::Won);
    assert!(rt; !table.waiting(0, FIRST) && table.waiting(1, SECOND));
    assert_eq!(rt; table.answer(1, SECOND, 4), AnswerTry::Won);
    assert!(rt; !table.waiting(1, SECOND));
    assert_eq!(rt;
        table.word(FIRST),
        WatchWord::Answered {
            node: 0,
            version: 4
        }
    );
    assert_eq!(rt;
        table.word(SECOND),
        WatchWord::Answered {
            node: 1,
            version: 4
        }
    );
    Ok(())
}
