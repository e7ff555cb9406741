ghost use Rattle.std.specs.Prelude.{◌≡◌, ◌++◌, IfOk, OnOk, Some, string_bytes};
ghost use Rattle.session_law.specs.ReplyLines.{ack_end_text, ack_line, ack_lines, found_text, last_text, open_word, read_line, read_lines, text_json, timeout_text, watch_end_text, watch_line, watch_lines};

use crate::joining::write_names;
use crate::reads::Read;
use crate::replies::{AckEnd, AckReply};
use crate::watches::{Watch, WatchEnd};
use meta_state::Found;
use plain_data::{OutOfMemory, Text};
use serde_json::Value;
use std::alloc::Global;

// Each function adds its piece of the report to `out`. After want of memory `out` is to be given up.

fn write_timeout(out: &mut String, deadline: u64, reading: u64) -> Result<(), OutOfMemory>
    ensures { OnOk result (string_bytes out.new ≡ string_bytes out.old ++ timeout_text deadline reading) }
{
    write!(out, "timeout {deadline} {reading}")?;
    Ok(())
}

// ---- acknowledgements

#[tactic(auto, unfolding(crate::specs::ReplyLines::ack_end_text))]
fn write_ack_end(out: &mut String, end: &AckEnd) -> Result<(), OutOfMemory>
    ensures { OnOk result (string_bytes out.new ≡ string_bytes out.old ++ ack_end_text end.now) }
{
    match end {
        AckEnd::All => write!(out, "all")?,
        AckEnd::Failed { count } => write!(out, "failed {count}")?,
        AckEnd::Timeout { deadline, reading } => write_timeout(out, *deadline, *reading)?,
    }
    Ok(())
}

#[tactic(auto, unfolding(crate::specs::ReplyLines::ack_line))]
fn write_ack(out: &mut String, ack: &AckReply) -> Result<(), OutOfMemory>
    ensures { OnOk result (string_bytes out.new ≡ string_bytes out.old ++ ack_line ack.now) }
{
    let client = ack.client;
    let step = ack.step;
    write!(out, "ack {client}.{step} ")?;
    write_ack_end(out, &ack.end)?;
    write!(out, "\n")?;
    Ok(())
}

pub(crate) fn write_acks(out: &mut String, acks: &[AckReply]) -> Result<(), OutOfMemory>
    ensures { OnOk result (string_bytes out.new ≡ string_bytes out.old ++ ack_lines acks.now) }
{
    for ack in acks {
        write_ack(out, ack)?;
    }
    Ok(())
}

// ---- watches

fn write_last(out: &mut String, last: Option<u64>) -> Result<(), OutOfMemory>
    ensures { OnOk result (string_bytes out.new ≡ string_bytes out.old ++ last_text last) }
{
    match last {
        None => write!(out, "-")?,
        Some(version) => write!(out, "{version}")?,
    }
    Ok(())
}

#[tactic(auto, unfolding(crate::specs::ReplyLines::watch_end_text))]
fn write_watch_end(out: &mut String, end: &WatchEnd) -> Result<(), OutOfMemory>
    ensures { OnOk result (string_bytes out.new ≡ string_bytes out.old ++ watch_end_text end.now) }
{
    match end {
        WatchEnd::Answered { version } => write!(out, "answered {version}")?,
        WatchEnd::Timeout { deadline, reading } => write_timeout(out, *deadline, *reading)?,
        WatchEnd::Closed { client, step } => write!(out, "closed {client}.{step}")?,
    }
    Ok(())
}

#[tactic(auto, unfolding(crate::specs::ReplyLines::watch_line))]
fn write_watch(out: &mut String, watch: &Watch) -> Result<(), OutOfMemory>
    ensures { OnOk result (string_bytes out.new ≡ string_bytes out.old ++ watch_line watch.now) }
{
    let client = watch.client;
    let step = watch.step;
    let part = watch.part;
    let at = watch.at;
    let place = watch.place;
    let shown = watch.shown;
    write!(out, "watch {client}.{step}.{part} at {at} last ")?;
    write_last(out, watch.last)?;
    write!(out, " from {place} shown {shown} ")?;
    write_watch_end(out, &watch.end)?;
    write!(out, "\n")?;
    Ok(())
}

pub(crate) fn write_watches(out: &mut String, watches: &[Watch]) -> Result<(), OutOfMemory>
    ensures { OnOk result (string_bytes out.new ≡ string_bytes out.old ++ watch_lines watches.now) }
{
    for watch in watches {
        write_watch(out, watch)?;
    }
    Ok(())
}

// ---- reads

#[tactic(auto, unfolding(crate::specs::ReplyLines::text_json))]
fn json_of(alloc: Global, text: &Text) -> Result<String, OutOfMemory>
    ensures { IfOk result (λ made. string_bytes made ≡ text_json text.now) }
{
    let value = Value::try_from_str(alloc, text.as_str())?;
    Ok(value.to_string(alloc)?)
}

fn write_open(out: &mut String, opened: bool) -> Result<(), OutOfMemory>
    ensures { OnOk result (string_bytes out.new ≡ string_bytes out.old ++ open_word opened) }
{
    if opened {
        out.push_str("open")?;
    } else {
        out.push_str("closed")?;
    }
    Ok(())
}

#[tactic(auto, unfolding(crate::specs::ReplyLines::found_text))]
fn write_found(alloc: Global, out: &mut String, found: &Found) -> Result<(), OutOfMemory>
    ensures { OnOk result (string_bytes out.new ≡ string_bytes out.old ++ found_text found.now) }
{
    match found {
        Found::Missing => write!(out, "missing")?,
        Found::Index {
            id,
            opened,
            shards,
            replicas,
        } => {
            write!(out, "index id {id} ")?;
            write_open(out, *opened)?;
            write!(out, " shards {shards} replicas {replicas}")?;
        }
        Found::Names(names) => {
            write!(out, "names ")?;
            write_names(out, names.as_slice())?;
        }
        Found::Value(value) => {
            let json = json_of(alloc, value)?;
            write!(out, "value {json}")?;
        }
    }
    Ok(())
}

#[tactic(auto, unfolding(crate::specs::ReplyLines::read_line))]
fn write_read(alloc: Global, out: &mut String, read: &Read) -> Result<(), OutOfMemory>
    ensures { OnOk result (string_bytes out.new ≡ string_bytes out.old ++ read_line read.now) }
{
    let client = read.client;
    let step = read.step;
    let version = read.version;
    write!(out, "read {client}.{step} version {version} ")?;
    write_found(alloc, out, &read.found)?;
    write!(out, "\n")?;
    Ok(())
}

pub(crate) fn write_reads(
    alloc: Global,
    out: &mut String,
    reads: &[Read],
) -> Result<(), OutOfMemory>
    ensures { OnOk result (string_bytes out.new ≡ string_bytes out.old ++ read_lines reads.now) }
{
    for read in reads {
        write_read(alloc, out, read)?;
    }
    Ok(())
}
