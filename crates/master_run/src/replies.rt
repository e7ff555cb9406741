ghost use Rattle.std.specs.Prelude.{◌≡◌, ◌++◌, IfOk, IsTrue, OnOk, Some, flat_map, option_copied};
ghost use Rattle.session_law.specs.Endings.{task_timeout_of};
ghost use Rattle.session_law.specs.Histories.{commit_of};
ghost use Rattle.session_law.specs.ScriptSteps.{numbered_from};
ghost use Rattle.master_run.specs.AckBooks.{is_in_lane};
ghost use Rattle.master_run.specs.AckTellings.{HasAckCell, HasAckLane, HaveAckLanes, ack_replies_by, batch_at, counted_end, timed_in, told_at, told_end};
ghost use Rattle.master_run.specs.Sessions.{HasCell, HasLane, HaveLanes, replies_of, reply_at};

use crate::acknowledgements::{Acknowledgements, ack_in};
use crate::endings::{due, end_of_word};
use crate::moments::Moments;
use ack_words::AckPoll;
use plain_data::{Items, OutOfMemory};
use scripts::{Script, Step, TaskId};
use session_law::{AckEnd, AckReply, Batch, BatchResult, Reply};
use std::alloc::Global;
use task_words::{Outcome, PlainTasks, Word};

/// What clients were told of their tasks, by client and step.
pub(crate) fn collect(
    alloc: Global,
    script: &Script,
    tasks: &PlainTasks,
    ats: &Moments,
) -> Result<Items<Reply>, OutOfMemory>
    requires { HaveLanes script.now tasks.now ats.now }
    ensures { IfOk result (λ made. made ≡ replies_of script.now tasks.now ats.now) }
{
    let mut replies = Items::new(alloc);
    let mut client: u32 = 0;
    for steps in script.clients.as_slice() {
        collect_lane(&mut replies, client, steps.as_slice(), tasks, ats)?;
        client += 1;
    }
    Ok(replies)
}

/// Those of one client.
fn collect_lane(
    replies: &mut Items<Reply>,
    client: u32,
    steps: &[Step],
    tasks: &PlainTasks,
    ats: &Moments,
) -> Result<(), OutOfMemory>
    requires { HasLane tasks.now ats.now client steps.now }
    ensures { OnOk result (replies.new ≡ replies.old ++ flat_map (reply_at tasks.now ats.now) (numbered_from client 0 steps.now)) }
{
    let mut number: u32 = 0;
    for step in steps {
        collect_step(replies, client, number, step, tasks, ats)?;
        number += 1;
    }
    Ok(())
}

/// That of one step, where its task has ended.
fn collect_step(
    replies: &mut Items<Reply>,
    client: u32,
    number: u32,
    step: &Step,
    tasks: &PlainTasks,
    ats: &Moments,
) -> Result<(), OutOfMemory>
    requires { HasCell tasks.now ats.now client number }
    ensures { OnOk result (replies.new ≡ replies.old ++ reply_at tasks.now ats.now (record { client = client; number = number; step = step.now })) }
{
    let at = ats.at(client, number);
    let word = tasks.word(TaskId {
        client,
        step: number,
    });
    if let Some(end) = end_of_word(at, timeout_of(step), word) {
        replies.push(Reply {
            client,
            step: number,
            at,
            end,
        })?;
    }
    Ok(())
}

/// How long the task of a step may wait.
fn timeout_of(step: &Step) -> Option<u64>
    ensures { result ≡ task_timeout_of (Some step.now) }
{
    match step {
        Step::Submit { timeout, .. } => *timeout,
        _ => None,
    }
}

/// What clients were told of their acknowledgements, by client and step.
pub(crate) fn collect_acks(
    alloc: Global,
    script: &Script,
    tasks: &PlainTasks,
    acks: &Acknowledgements,
    batches: &Items<Batch>,
) -> Result<Items<AckReply>, OutOfMemory>
    requires { HaveAckLanes script.now tasks.now acks.now }
    ensures { IfOk result (λ made. made ≡ ack_replies_by script.now tasks.now acks.now batches.now) }
{
    let mut replies = Items::new(alloc);
    let mut client: u32 = 0;
    for steps in script.clients.as_slice() {
        collect_ack_lane(&mut replies, client, steps.as_slice(), tasks, acks, batches)?;
        client += 1;
    }
    Ok(replies)
}

/// Those of one client.
fn collect_ack_lane(
    replies: &mut Items<AckReply>,
    client: u32,
    steps: &[Step],
    tasks: &PlainTasks,
    acks: &Acknowledgements,
    batches: &Items<Batch>,
) -> Result<(), OutOfMemory>
    requires { HasAckLane tasks.now acks.now client steps.now }
    ensures { OnOk result (replies.new ≡ replies.old ++ flat_map (told_at tasks.now acks.now batches.now) (numbered_from client 0 steps.now)) }
{
    let mut number: u32 = 0;
    for step in steps {
        collect_ack(replies, client, number, step, tasks, acks, batches)?;
        number += 1;
    }
    Ok(())
}

/// That of one step, where it asks for one that has ended.
fn collect_ack(
    replies: &mut Items<AckReply>,
    client: u32,
    number: u32,
    step: &Step,
    tasks: &PlainTasks,
    acks: &Acknowledgements,
    batches: &Items<Batch>,
) -> Result<(), OutOfMemory>
    requires { HasAckCell tasks.now acks.now client number }
    ensures { OnOk result (replies.new ≡ replies.old ++ told_at tasks.now acks.now batches.now (record { client = client; number = number; step = step.now })) }
{
    let Some(asked) = ack_in(step) else {
        return Ok(());
    };
    let word = tasks.word(TaskId {
        client,
        step: number,
    });
    if let Some(end) = end_told(acks, batches, client, number, asked.timeout, word) {
        replies.push(AckReply {
            client,
            step: number,
            end,
        })?;
    }
    Ok(())
}

/// How an acknowledgement ended, by the word of its task.
fn end_told(
    acks: &Acknowledgements,
    batches: &Items<Batch>,
    client: u32,
    step: u32,
    timeout: Option<u64>,
    word: Word,
) -> Option<AckEnd>
    requires { IsTrue (is_in_lane acks.now.lanes client step) }
    ensures { result ≡ told_end acks.now batches.now client step timeout word }
{
    let Word::Ended { code } = word else {
        return None;
    };
    match code.outcome {
        Outcome::Ok { .. } => end_counted(acks, batches, client, step, timeout, code.batch),
        Outcome::Unchanged { .. } => Some(AckEnd::All),
        _ => None,
    }
}

/// How one that counts from the commit of a batch ended.
fn end_counted(
    acks: &Acknowledgements,
    batches: &Items<Batch>,
    client: u32,
    step: u32,
    timeout: Option<u64>,
    number: u32,
) -> Option<AckEnd>
    requires { IsTrue (is_in_lane acks.now.lanes client step) }
    ensures { result ≡ counted_end acks.now batches.now client step timeout number }
{
    match acks.poll(client, step) {
        AckPoll::All => Some(AckEnd::All),
        AckPoll::Failed { count } => Some(AckEnd::Failed {
            count: u64::from(count),
        }),
        AckPoll::TimedOut => {
            end_timed(
                timeout,
                acks.reading(client, step),
                batch_at(batches, number)?,
            )
        }
        AckPoll::NotYet => None,
    }
}

/// The batch of a number: the first has 1.
fn batch_at(batches: &Items<Batch>, number: u32) -> Option<&Batch>
    ensures { option_copied result ≡ batch_at batches.now number }
{
    batches.get(number.saturating_sub(1) as usize)
}

/// The end of one that timed out: at a reading after its batch's commit, or else at that commit.
fn end_timed(timeout: Option<u64>, reading: Option<u64>, batch: &Batch) -> Option<AckEnd>
    ensures { result ≡ timed_in timeout reading (Some batch.now) }
{
    Some(AckEnd::Timeout {
        deadline: due(batch.at, timeout?),
        reading: reading.unwrap_or(commit_of(batch.result)),
    })
}

/// The reading at which a batch committed.
fn commit_of(came: BatchResult) -> u64
    ensures { result ≡ commit_of came }
{
    match came {
        BatchResult::Published { commit, .. } => commit,
        _ => 0,
    }
}
