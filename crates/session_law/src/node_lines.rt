ghost use Rattle.std.specs.Prelude.{◌≡◌, ◌++◌, IfOk, OnOk, string_bytes};
ghost use Rattle.session_law.specs.NodeLines.{applied_to, applied_versions, apply_end_text, apply_line, apply_lines, change_text, has_applied, named_text, node_head, node_lines, node_text, phases_text, view_line};

use crate::joining::{write_names, write_numbers};
use crate::node_records::{Apply, ApplyEnd, Change, NodeRec, View};
use crate::view_json::view_text;
use plain_data::{OutOfMemory, Text};
use std::alloc::Global;

// Each function adds its piece of the report to `out`. After want of memory `out` is to be given up.

/// The version that a node began with, and those that it applied.
fn applied_by(alloc: Global, node: &NodeRec) -> Result<Vec<u64>, OutOfMemory>
    ensures { IfOk result (λ made. made.items ≡ applied_versions node.now) }
{
    let mut made = Vec::new(alloc);
    made.push(node.first)?;
    for apply in node.applies.as_slice() {
        if apply.end.has_applied() {
            made.push(apply.to)?;
        }
    }
    Ok(made)
}

#[tactic(auto, unfolding(crate::specs::NodeLines::node_head))]
fn write_head(alloc: Global, out: &mut String, node: &NodeRec) -> Result<(), OutOfMemory>
    ensures { OnOk result (string_bytes out.new ≡ string_bytes out.old ++ node_head node.now) }
{
    let name = node.node.as_str();
    let applied = applied_by(alloc, node)?;
    write!(out, "node {name} handed ")?;
    write_numbers(out, node.handed.as_slice())?;
    write!(out, " applied ")?;
    write_numbers(out, applied.as_slice())?;
    write!(out, "\n")?;
    Ok(())
}

fn write_named(out: &mut String, word: &str, names: &[Text]) -> Result<(), OutOfMemory>
    ensures { OnOk result (string_bytes out.new ≡ string_bytes out.old ++ named_text word.now names.now) }
{
    write!(out, " {word} ")?;
    write_names(out, names)
}

#[tactic(auto, unfolding(crate::specs::NodeLines::change_text))]
fn write_change(out: &mut String, change: &Change) -> Result<(), OutOfMemory>
    ensures { OnOk result (string_bytes out.new ≡ string_bytes out.old ++ change_text change.now) }
{
    write_named(out, "created", change.created.as_slice())?;
    write_named(out, "deleted", change.deleted.as_slice())?;
    write_named(out, "changed", change.changed.as_slice())?;
    write_named(out, "joined", change.joined.as_slice())?;
    write_named(out, "left", change.left.as_slice())?;
    write_named(out, "settings", change.settings.as_slice())?;
    Ok(())
}

#[tactic(auto, unfolding(crate::specs::NodeLines::phases_text))]
fn write_phases(
    out: &mut String,
    high: u64,
    normal: u64,
    low: u64,
    listeners: u64,
) -> Result<(), OutOfMemory>
    ensures { OnOk result (string_bytes out.new ≡ string_bytes out.old ++ phases_text high normal low listeners) }
{
    write!(
        out,
        " high {high} normal {normal} low {low} listeners {listeners}"
    )?;
    Ok(())
}

#[tactic(auto, unfolding(crate::specs::NodeLines::apply_end_text))]
fn write_apply_end(out: &mut String, end: &ApplyEnd) -> Result<(), OutOfMemory>
    ensures { OnOk result (string_bytes out.new ≡ string_bytes out.old ++ apply_end_text end.now) }
{
    match end {
        ApplyEnd::Failed => write!(out, " failed")?,
        ApplyEnd::Applied {
            high,
            normal,
            low,
            listeners,
            change,
        } => {
            write_phases(out, *high, *normal, *low, *listeners)?;
            write_change(out, change)?;
        }
    }
    Ok(())
}

#[tactic(auto, unfolding(crate::specs::NodeLines::apply_line))]
fn write_apply(out: &mut String, name: &str, apply: &Apply) -> Result<(), OutOfMemory>
    ensures { OnOk result (string_bytes out.new ≡ string_bytes out.old ++ apply_line name.now apply.now) }
{
    let from = apply.from;
    let to = apply.to;
    write!(out, "apply {name} {from}>{to}")?;
    write_apply_end(out, &apply.end)?;
    write!(out, "\n")?;
    Ok(())
}

fn write_applies(out: &mut String, name: &str, applies: &[Apply]) -> Result<(), OutOfMemory>
    ensures { OnOk result (string_bytes out.new ≡ string_bytes out.old ++ apply_lines name.now applies.now) }
{
    for apply in applies {
        write_apply(out, name, apply)?;
    }
    Ok(())
}

#[tactic(auto, unfolding(crate::specs::NodeLines::view_line))]
fn write_view(alloc: Global, out: &mut String, name: &str, view: &View) -> Result<(), OutOfMemory>
    ensures { OnOk result (string_bytes out.new ≡ string_bytes out.old ++ view_line name.now view.now) }
{
    let json = view_text(alloc, view)?;
    write!(out, "view {name} {json}\n")?;
    Ok(())
}

fn write_node(alloc: Global, out: &mut String, node: &NodeRec) -> Result<(), OutOfMemory>
    ensures { OnOk result (string_bytes out.new ≡ string_bytes out.old ++ node_text node.now) }
{
    let name = node.node.as_str();
    write_head(alloc, out, node)?;
    write_applies(out, name, node.applies.as_slice())?;
    write_view(alloc, out, name, &node.view)
}

pub(crate) fn write_nodes(
    alloc: Global,
    out: &mut String,
    nodes: &[NodeRec],
) -> Result<(), OutOfMemory>
    ensures { OnOk result (string_bytes out.new ≡ string_bytes out.old ++ node_lines nodes.now) }
{
    for node in nodes {
        write_node(alloc, out, node)?;
    }
    Ok(())
}
