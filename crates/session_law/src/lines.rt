ghost use Rattle.std.specs.Prelude.{◌≡◌, ◌++◌, ◌+◌, ◌<◌, ◌^◌, OnOk, length, string_bytes};
ghost use Rattle.session_law.specs.Lines.{batch_line, batch_lines, end_text, failure_text, reply_line, reply_lines, result_text, state_line};

use crate::TaskEnd;
use crate::batches::{Batch, BatchResult};
use crate::joining::write_entries;
use crate::replies::Reply;
use executors::TaskRefusal;
use meta_state::{ClusterState, to_json};
use plain_data::OutOfMemory;
use std::alloc::Global;

// Each function adds its piece of the report to `out`. After want of memory `out` is to be given up.

fn write_failure(out: &mut String, position: u32, refusal: TaskRefusal) -> Result<(), OutOfMemory>
    ensures { OnOk result (string_bytes out.new ≡ string_bytes out.old ++ failure_text position refusal) }
{
    write!(out, "batch_failed {position} {refusal}")?;
    Ok(())
}

#[tactic(auto, unfolding(crate::specs::Lines::result_text))]
fn write_result(out: &mut String, outcome: &BatchResult) -> Result<(), OutOfMemory>
    ensures { OnOk result (string_bytes out.new ≡ string_bytes out.old ++ result_text outcome.now) }
{
    match outcome {
        BatchResult::Published {
            version,
            id,
            commit,
            diffs,
            fulls,
            accepted,
        } => write!(
            out,
            "published {version} id {id} commit {commit} diffs {diffs} fulls {fulls} accepted {accepted}"
        )?,
        BatchResult::Unchanged { version } => write!(out, "unchanged {version}")?,
        BatchResult::Failed { position, refusal } => write_failure(out, *position, *refusal)?,
        BatchResult::NotMaster => write!(out, "not_master")?,
        BatchResult::PublishFailed {
            id,
            diffs,
            fulls,
            accepted,
        } => write!(
            out,
            "publish_failed id {id} diffs {diffs} fulls {fulls} accepted {accepted}"
        )?,
    }
    Ok(())
}

#[tactic(auto, unfolding(crate::specs::Lines::batch_line))]
fn write_batch(out: &mut String, number: u64, batch: &Batch) -> Result<(), OutOfMemory>
    ensures { OnOk result (string_bytes out.new ≡ string_bytes out.old ++ batch_line number batch.now) }
{
    let queue = batch.queue.as_str();
    let at = batch.at;
    write!(out, "batch {number} queue {queue} at {at} tasks ")?;
    write_entries(out, batch.entries.as_slice())?;
    write!(out, " ")?;
    write_result(out, &batch.result)?;
    write!(out, "\n")?;
    Ok(())
}

pub(crate) fn write_batches(out: &mut String, batches: &[Batch]) -> Result<(), OutOfMemory>
    ensures { OnOk result (string_bytes out.new ≡ string_bytes out.old ++ batch_lines 1 batches.now) }
{
    let mut number: u64 = 1;
    for batch in batches {
        write_batch(out, number, batch)?;
        number += 1;
    }
    Ok(())
}

#[tactic(auto, unfolding(crate::specs::Lines::end_text))]
fn write_end(out: &mut String, end: &TaskEnd) -> Result<(), OutOfMemory>
    ensures { OnOk result (string_bytes out.new ≡ string_bytes out.old ++ end_text end.now) }
{
    match end {
        TaskEnd::Ok { version } => write!(out, "ok {version}")?,
        TaskEnd::Unchanged { version } => write!(out, "unchanged {version}")?,
        TaskEnd::Refused { refusal } => write!(out, "refused {refusal}")?,
        TaskEnd::BatchFailed { position, refusal } => write_failure(out, *position, *refusal)?,
        TaskEnd::NotMaster => write!(out, "not_master")?,
        TaskEnd::PublishFailed => write!(out, "publish_failed")?,
        TaskEnd::Timeout { deadline, reading } => write!(out, "timeout {deadline} {reading}")?,
        TaskEnd::Closed { client, step } => write!(out, "closed {client}.{step}")?,
    }
    Ok(())
}

#[tactic(auto, unfolding(crate::specs::Lines::reply_line))]
fn write_reply(out: &mut String, reply: &Reply) -> Result<(), OutOfMemory>
    ensures { OnOk result (string_bytes out.new ≡ string_bytes out.old ++ reply_line reply.now) }
{
    let client = reply.client;
    let step = reply.step;
    let at = reply.at;
    write!(out, "task {client}.{step} at {at} ")?;
    write_end(out, &reply.end)?;
    write!(out, "\n")?;
    Ok(())
}

pub(crate) fn write_replies(out: &mut String, replies: &[Reply]) -> Result<(), OutOfMemory>
    ensures { OnOk result (string_bytes out.new ≡ string_bytes out.old ++ reply_lines replies.now) }
{
    for reply in replies {
        write_reply(out, reply)?;
    }
    Ok(())
}

#[tactic(auto, unfolding(crate::specs::Lines::state_line))]
pub(crate) fn write_state(
    alloc: Global,
    out: &mut String,
    state: &ClusterState,
) -> Result<(), OutOfMemory>
    ensures { OnOk result (string_bytes out.new ≡ string_bytes out.old ++ state_line state.now) }
{
    let json = to_json(alloc, state)?;
    let text = json.as_str();
    write!(out, "state {text}\n")?;
    Ok(())
}
