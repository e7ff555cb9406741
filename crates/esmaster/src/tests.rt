use crate::ack_rows::ACKS;
use crate::command_rows::{BASE, ROWS, Row};
use crate::commands::esmaster;
use crate::exits::Exit;
use crate::long_rows::{LONG, WIDE};
use crate::turn_rows::TURNS;
use edge_io::{Frozen, MemSink, MemSource, OpenGate};
use plain_data::OutOfMemory;
use std::alloc::Global;
use std::sync::Wait;
use std::test::Fail;
use std::thread::Threads;

/// Appends a piece so many times.
fn push_pieces(text: &mut String, piece: &str, count: u32, comma: &str) -> Result<(), OutOfMemory> {
    for number in 0..count {
        if number > 0 {
            text.push_str(comma)?;
        }
        match piece.split_once('#') {
            None => text.push_str(piece)?,
            Some((before, after)) => write!(text, "{before}{number}{after}")?,
        }
    }
    Ok(())
}

/// The script of a row.
fn script_of(alloc: Global, row: &Row) -> Result<Vec<u8>, OutOfMemory> {
    let mut text = String::new(alloc);
    let [first, second, third] = row.script;
    match first.split_once('@') {
        None => text.push_str(first)?,
        Some((_, clients)) => {
            text.push_str(BASE)?;
            text.push_str(clients)?;
        }
    }
    let [(piece, count), (other, others)] = row.pieces;
    push_pieces(&mut text, piece, count, row.comma)?;
    text.push_str(second)?;
    push_pieces(&mut text, other, others, row.comma)?;
    text.push_str(third)?;
    let mut bytes = vec![in alloc; b' '; row.blanks]?;
    bytes.extend_from_slice(text.as_bytes())?;
    Ok(bytes)
}

/// Whether a text is the one of a pattern, or has all that stands between its stars.
fn fits(text: &str, pattern: &str) -> bool {
    if !pattern.contains('*') {
        return text == pattern;
    }
    for part in pattern.split('*') {
        if !text.contains(part) {
            return false;
        }
    }
    true
}

/// How the command of a row ends, and what it writes.
fn ended<R: Threads + Wait + Sync>(
    rt: &R,
    alloc: Global,
    row: &Row,
) -> Result<(Exit, String), Fail> {
    let mut words = Vec::new(alloc);
    for word in row.words.split_whitespace() {
        words.push(String::from_str(alloc, word)?)?;
    }
    let mut faults = Vec::new(alloc);
    if row.fails {
        faults.push(0)?;
    }
    let mut source = MemSource::new(script_of(alloc, row)?, faults);
    let mut sink = MemSink::with_room(alloc, row.room, Vec::new(alloc))?;
    let exit = esmaster(
        rt,
        alloc,
        words.as_slice(),
        &mut source,
        &mut sink,
        &Frozen::new(7),
        &OpenGate,
    );
    Ok((
        exit,
        String::from_utf8(Vec::from_slice(alloc, sink.written())?)?,
    ))
}

#[test]
fn each_command_ends_and_writes_as_its_row_says(rt: HostRuntime) -> Result<(), Fail> {
    for row in ROWS {
        let (exit, written) = ended(&rt, rt.alloc(), &row)?;
        assert_eq!(rt; exit.status(), row.status, "at {written}");
        assert!(rt; fits(written.as_str(), row.written), "{written}");
    }
    Ok(())
}

#[test]
fn each_script_of_turns_ends_and_writes_as_its_row_says(rt: HostRuntime) -> Result<(), Fail> {
    for row in TURNS {
        let (exit, written) = ended(&rt, rt.alloc(), &row)?;
        assert_eq!(rt; exit.status(), row.status, "at {written}");
        assert!(rt; fits(written.as_str(), row.written), "{written}");
    }
    Ok(())
}

#[test]
fn each_long_script_ends_and_writes_as_its_row_says(rt: HostRuntime) -> Result<(), Fail> {
    for row in LONG {
        let (exit, written) = ended(&rt, rt.alloc(), &row)?;
        assert_eq!(rt; exit.status(), row.status, "at {written}");
        assert!(rt; fits(written.as_str(), row.written), "{written}");
    }
    Ok(())
}

#[test]
fn each_wide_script_ends_and_writes_as_its_row_says(rt: HostRuntime) -> Result<(), Fail> {
    for row in WIDE {
        let (exit, written) = ended(&rt, rt.alloc(), &row)?;
        assert_eq!(rt; exit.status(), row.status, "at {written}");
        assert!(rt; fits(written.as_str(), row.written), "{written}");
    }
    Ok(())
}

#[test]
fn each_end_has_its_status(rt: HostRuntime) {
    let ends = [
        Exit::Done,
        Exit::Usage,
        Exit::ScriptRefused,
        Exit::ReadFault,
        Exit::WriteFault,
        Exit::OutOfMemory,
        Exit::TooLong,
    ];
    let mut status: u8 = 0;
    for end in ends {
        assert_eq!(rt; end.status(), status);
        status = status.wrapping_add(1);
    }
}

#[test]
fn each_script_of_acknowledgements_ends_and_writes_as_its_row_says(
    rt: HostRuntime,
) -> Result<(), Fail> {
    for row in ACKS {
        let (exit, written) = ended(&rt, rt.alloc(), &row)?;
        assert_eq!(rt; exit.status(), row.status, "at {written}");
        assert!(rt; fits(written.as_str(), row.written), "{written}");
    }
    Ok(())
}
