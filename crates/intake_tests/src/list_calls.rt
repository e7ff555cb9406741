use crate::small_lists::{
    are_ids_of, is_next, is_waiting, list_for, next_of, order_of, put, put_alone, refusal_told,
    take_some, vacant_words,
};
use scripts::{Priority, TaskId};
use std::test::Fail;
use task_words::{Acquired, Expiry};

const FIRST: TaskId = TaskId { client: 0, step: 0 };

const SECOND: TaskId = TaskId { client: 0, step: 1 };

#[test]
fn a_submitted_task_waits_at_the_end_of_the_list(rt: HostRuntime) -> Result<(), Fail> {
    let alloc = rt.alloc();
    let mut list = list_for(alloc, Priority::Low, Priority::High, Priority::Low)?;
    assert_eq!(rt; list.count(), 0);
    put_alone(alloc, &mut list, 3, 2)?;
    put_alone(alloc, &mut list, 0, 1)?;
    put_alone(alloc, &mut list, 4, 2)?;
    assert_eq!(rt; list.count(), 3);
    assert!(rt; is_waiting(list.waiting(), &[(3, 2), (0, 1), (4, 2)]));
    Ok(())
}

#[test]
fn its_word_has_its_deadline_and_what_its_client_awaited(rt: HostRuntime) -> Result<(), Fail> {
    let alloc = rt.alloc();
    let mut tasks = vacant_words(alloc)?;
    let mut list = list_for(alloc, Priority::Normal, Priority::Normal, Priority::Normal)?;
    assert!(rt; put(alloc, &mut list, &mut tasks, 1, 2)? == SECOND);
    assert_eq!(rt; tasks.expire(0, SECOND, 4), Expiry::NotDue { deadline: 5 });
    assert_eq!(rt; tasks.acquire(FIRST, 1), Acquired::Vacant);
    assert_eq!(rt; tasks.acquire(SECOND, 1), Acquired::Mine { seen: 3 });
    Ok(())
}

#[test]
fn after_the_stop_a_task_comes_back_and_nothing_changes(rt: HostRuntime) -> Result<(), Fail> {
    let alloc = rt.alloc();
    let mut tasks = vacant_words(alloc)?;
    let mut list = list_for(alloc, Priority::Normal, Priority::Normal, Priority::Normal)?;
    let _id = put(alloc, &mut list, &mut tasks, 0, 2)?;
    tasks.stop(0);
    assert_eq!(rt; refusal_told(alloc, &mut list, &mut tasks, 1, 2)?, 1);
    assert!(rt; is_waiting(list.waiting(), &[(0, 2)]));
    assert_eq!(rt; tasks.cover(2), 1);
    assert_eq!(rt; tasks.acquire(SECOND, 1), Acquired::Vacant);
    Ok(())
}

#[test]
fn past_the_lane_a_task_comes_back_and_nothing_changes(rt: HostRuntime) -> Result<(), Fail> {
    let alloc = rt.alloc();
    let mut tasks = vacant_words(alloc)?;
    let mut list = list_for(alloc, Priority::Normal, Priority::Normal, Priority::Normal)?;
    let _id = put(alloc, &mut list, &mut tasks, 4, 1)?;
    // the lane has five words
    assert_eq!(rt; refusal_told(alloc, &mut list, &mut tasks, 5, 1)?, 2);
    assert!(rt; is_waiting(list.waiting(), &[(4, 1)]));
    assert_eq!(rt; tasks.cover(1), 1);
    Ok(())
}

#[test]
fn queues_are_taken_by_priority_and_equal_ones_by_their_first_entries(
    rt: HostRuntime,
) -> Result<(), Fail> {
    let alloc = rt.alloc();
    // the priorities of three queues, and in which order they are taken
    let rows: [(Priority, Priority, Priority, u32, u32, u32); 6] = [
        (
            Priority::High,
            Priority::Urgent,
            Priority::Immediate,
            2,
            1,
            0,
        ),
        (Priority::Languid, Priority::Low, Priority::Normal, 2, 1, 0),
        (Priority::Normal, Priority::High, Priority::Languid, 1, 0, 2),
        (Priority::Low, Priority::Low, Priority::Low, 0, 1, 2),
        (
            Priority::Normal,
            Priority::Immediate,
            Priority::Normal,
            1,
            0,
            2,
        ),
        (
            Priority::Languid,
            Priority::Urgent,
            Priority::Urgent,
            1,
            2,
            0,
        ),
    ];
    for (first, second, third, sooner, later, last) in rows {
        let (one, two, three) = order_of(alloc, first, second, third)?;
        assert_eq!(rt; one, Some(sooner));
        assert_eq!(rt; two, Some(later));
        assert_eq!(rt; three, Some(last));
    }
    Ok(())
}

#[test]
fn all_that_waits_in_a_queue_is_taken_in_order_and_nothing_else(
    rt: HostRuntime,
) -> Result<(), Fail> {
    let alloc = rt.alloc();
    let mut list = list_for(alloc, Priority::Normal, Priority::Urgent, Priority::Languid)?;
    put_alone(alloc, &mut list, 3, 2)?;
    put_alone(alloc, &mut list, 0, 0)?;
    put_alone(alloc, &mut list, 4, 1)?;
    put_alone(alloc, &mut list, 2, 0)?;
    put_alone(alloc, &mut list, 1, 1)?;
    assert!(rt; is_next(alloc, &mut list, 1, &[4, 1])?);
    assert!(rt; is_waiting(list.waiting(), &[(3, 2), (0, 0), (2, 0)]));
    assert!(rt; is_next(alloc, &mut list, 0, &[0, 2])?);
    assert!(rt; is_next(alloc, &mut list, 2, &[3])?);
    assert_eq!(rt; list.count(), 0);
    Ok(())
}

#[test]
fn of_an_empty_list_nothing_is_taken(rt: HostRuntime) -> Result<(), Fail> {
    let alloc = rt.alloc();
    let mut list = list_for(alloc, Priority::Normal, Priority::Normal, Priority::Normal)?;
    assert_eq!(rt; next_of(alloc, &mut list)?, None);
    put_alone(alloc, &mut list, 0, 2)?;
    assert_eq!(rt; next_of(alloc, &mut list)?, Some(2));
    assert_eq!(rt; next_of(alloc, &mut list)?, None);
    Ok(())
}

#[test]
fn a_queue_that_was_taken_stands_behind_the_others(rt: HostRuntime) -> Result<(), Fail> {
    let alloc = rt.alloc();
    let mut list = list_for(alloc, Priority::Normal, Priority::Normal, Priority::Normal)?;
    put_alone(alloc, &mut list, 0, 0)?;
    put_alone(alloc, &mut list, 1, 1)?;
    assert!(rt; is_next(alloc, &mut list, 0, &[0])?);
    put_alone(alloc, &mut list, 2, 0)?;
    put_alone(alloc, &mut list, 3, 1)?;
    assert!(rt; is_next(alloc, &mut list, 1, &[1, 3])?);
    assert!(rt; is_next(alloc, &mut list, 0, &[2])?);
    Ok(())
}

#[test]
fn what_is_submitted_is_announced_and_what_is_taken_is_covered(
    rt: HostRuntime,
) -> Result<(), Fail> {
    let alloc = rt.alloc();
    let mut tasks = vacant_words(alloc)?;
    let mut list = list_for(alloc, Priority::Normal, Priority::High, Priority::Low)?;
    let _first = put(alloc, &mut list, &mut tasks, 0, 0)?;
    let _second = put(alloc, &mut list, &mut tasks, 1, 1)?;
    let _third = put(alloc, &mut list, &mut tasks, 2, 1)?;
    // a queue that has a size isn't told that it is its first
    assert!(rt; !tasks.announce(0, 0));
    assert!(rt; !tasks.announce(0, 1));
    assert!(rt; tasks.announce(0, 2));
    assert!(rt; take_some(&mut list, &mut tasks)?);
    assert_eq!(rt; tasks.cover(0), 2);
    assert_eq!(rt; tasks.cover(1), 0);
    assert_eq!(rt; tasks.cover(2), 1);
    Ok(())
}

#[test]
fn how_many_were_announced_is_what_is_covered(rt: HostRuntime) -> Result<(), Fail> {
    let alloc = rt.alloc();
    let mut tasks = vacant_words(alloc)?;
    let mut list = list_for(alloc, Priority::Normal, Priority::Normal, Priority::Normal)?;
    let _first = put(alloc, &mut list, &mut tasks, 0, 1)?;
    let _second = put(alloc, &mut list, &mut tasks, 1, 1)?;
    let _third = put(alloc, &mut list, &mut tasks, 2, 0)?;
    assert_eq!(rt; tasks.cover(0), 1);
    assert_eq!(rt; tasks.cover(1), 2);
    assert_eq!(rt; tasks.cover(2), 0);
    Ok(())
}

#[test]
fn a_drained_list_tells_what_waited_and_is_empty(rt: HostRuntime) -> Result<(), Fail> {
    let alloc = rt.alloc();
    let mut list = list_for(alloc, Priority::Low, Priority::Immediate, Priority::Normal)?;
    put_alone(alloc, &mut list, 2, 0)?;
    put_alone(alloc, &mut list, 4, 1)?;
    put_alone(alloc, &mut list, 0, 0)?;
    assert!(rt; are_ids_of(list.drain().as_slice(), &[2, 4, 0]));
    assert_eq!(rt; list.count(), 0);
    assert_eq!(rt; next_of(alloc, &mut list)?, None);
    Ok(())
}

#[test]
fn a_drained_list_is_used_again(rt: HostRuntime) -> Result<(), Fail> {
    let alloc = rt.alloc();
    let mut list = list_for(alloc, Priority::Low, Priority::Immediate, Priority::Normal)?;
    assert!(rt; are_ids_of(list.drain().as_slice(), &[]));
    put_alone(alloc, &mut list, 2, 0)?;
    put_alone(alloc, &mut list, 4, 1)?;
    assert!(rt; are_ids_of(list.drain().as_slice(), &[2, 4]));
    put_alone(alloc, &mut list, 1, 2)?;
    put_alone(alloc, &mut list, 3, 0)?;
    assert!(rt; is_next(alloc, &mut list, 2, &[1])?);
    assert!(rt; are_ids_of(list.drain().as_slice(), &[3]));
    Ok(())
}
