ghost use Rattle.std.specs.Prelude.{◌≡◌, IfOk};
ghost use Rattle.session_law.specs.Reports.{report_of};

use crate::lines::{write_batches, write_replies, write_state};
use crate::node_lines::write_nodes;
use crate::reply_lines::{write_acks, write_reads, write_watches};
use crate::sessions::Session;
use plain_data::{OutOfMemory, Text};
use std::alloc::Global;

/// The report of a session: its first line, then a line for each batch, task, acknowledgement, part of a watch and
/// read, the lines of each node, and the last state. The time that it takes is linear in the report's length.
#[tactic(auto, unfolding(crate::specs::Reports::report_of))]
pub fn report_text(alloc: Global, session: &Session) -> Result<Text, OutOfMemory>
    ensures { IfOk result (λ text. text ≡ report_of session.now) }
{
    let mut out = String::from_str(alloc, "report 1\n")?;
    write_batches(&mut out, session.batches.as_slice())?;
    write_replies(&mut out, session.replies.as_slice())?;
    write_acks(&mut out, session.acks.as_slice())?;
    write_watches(&mut out, session.watches.as_slice())?;
    write_reads(alloc, &mut out, session.reads.as_slice())?;
    write_nodes(alloc, &mut out, session.nodes.as_slice())?;
    write_state(alloc, &mut out, &session.last)?;
    Ok(Text::from_string(out))
}
