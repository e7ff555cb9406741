ghost use Rattle.std.specs.Prelude.{◌≡◌, ◌++◌, OnOk, codes, decimal, string_bytes};
ghost use Rattle.session_law.specs.Joining.{list_text, more_text, names_text, numbers_text};
ghost use Rattle.session_law.specs.Lines.{entry_text};

use crate::batches::Entry;
use plain_data::{OutOfMemory, Text};

// Each function adds a list to `out`: its items joined by commas, `-` where there is none. After want of memory `out`
// is to be given up.

fn write_none(out: &mut String) -> Result<(), OutOfMemory>
    ensures { OnOk result (string_bytes out.new ≡ string_bytes out.old ++ codes "-") }
{
    out.push_str("-")?;
    Ok(())
}

#[tactic(auto, unfolding(crate::specs::Lines::entry_text))]
fn write_entry(out: &mut String, entry: &Entry) -> Result<(), OutOfMemory>
    ensures { OnOk result (string_bytes out.new ≡ string_bytes out.old ++ entry_text entry.now) }
{
    let client = entry.client;
    let step = entry.step;
    let seen = entry.seen;
    write!(out, "{client}.{step}/{seen}")?;
    Ok(())
}

fn write_more_entries(out: &mut String, entries: &[Entry]) -> Result<(), OutOfMemory>
    ensures { OnOk result (string_bytes out.new ≡ string_bytes out.old ++ more_text entry_text entries.now) }
{
    for entry in entries {
        out.push_str(",")?;
        write_entry(out, entry)?;
    }
    Ok(())
}

pub(crate) fn write_entries(out: &mut String, entries: &[Entry]) -> Result<(), OutOfMemory>
    ensures { OnOk result (string_bytes out.new ≡ string_bytes out.old ++ list_text entry_text entries.now) }
{
    match entries.split_first() {
        None => write_none(out)?,
        Some((first, more)) => {
            write_entry(out, first)?;
            write_more_entries(out, more)?;
        }
    }
    Ok(())
}

fn write_more_numbers(out: &mut String, numbers: &[u64]) -> Result<(), OutOfMemory>
    ensures { OnOk result (string_bytes out.new ≡ string_bytes out.old ++ more_text decimal numbers.now) }
{
    for number in numbers {
        write!(out, ",{number}")?;
    }
    Ok(())
}

pub(crate) fn write_numbers(out: &mut String, numbers: &[u64]) -> Result<(), OutOfMemory>
    ensures { OnOk result (string_bytes out.new ≡ string_bytes out.old ++ numbers_text numbers.now) }
{
    match numbers.split_first() {
        None => write_none(out)?,
        Some((first, more)) => {
            write!(out, "{first}")?;
            write_more_numbers(out, more)?;
        }
    }
    Ok(())
}

fn write_more_names(out: &mut String, names: &[Text]) -> Result<(), OutOfMemory>
    ensures { OnOk result (string_bytes out.new ≡ string_bytes out.old ++ more_text (λ name. name) names.now) }
{
    for name in names {
        out.push_str(",")?;
        out.push_str(name.as_str())?;
    }
    Ok(())
}

pub(crate) fn write_names(out: &mut String, names: &[Text]) -> Result<(), OutOfMemory>
    ensures { OnOk result (string_bytes out.new ≡ string_bytes out.old ++ names_text names.now) }
{
    match names.split_first() {
        None => write_none(out)?,
        Some((first, more)) => {
            out.push_str(first.as_str())?;
            write_more_names(out, more)?;
        }
    }
    Ok(())
}
