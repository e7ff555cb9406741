ghost use Rattle.std.specs.Prelude.{IfOk, take};
ghost use Rattle.std.specs.Io.{WritesAtMost};
ghost use Rattle.std.specs.Io.KnownBytes.{Appends};

use crate::{Failed, Sink};
use std::io;
use std::io::Write;

/// A sink over one of std's writers, as `StdSink::new(io::writer(&rt))` over standard output. It flushes each piece.
/// A piece that the writer took and couldn't flush is a fault too, so what it holds isn't told: only that each piece
/// told as written went to the writer.
#[derive(Drop)]
pub struct StdSink<W: Write + Drop> {
    writer: W,
    faults: u64,
}

// Writes some of the piece, and flushes it.
fn write_through<W: Write>(writer: &mut W, piece: &[u8]) -> io::Result<usize>
    ensures bound { WritesAtMost result piece.now }
    ensures bytes { IfOk result (λ n. Appends (W.contents writer.old) (W.contents writer.new) (take n piece.now)) }
{
    let count = writer.write(piece)?;
    writer.flush()?;
    Ok(count)
}

impl<W: Write + Drop> StdSink<W> {
    ghost use Rattle.std.specs.Prelude.{◌≡◌};
    ghost use Rattle.edge_io.specs.Adapters.{writer_of};

    /// A sink that writes to this writer, with no fault so far.
    pub fn new(writer: W) -> StdSink<W>
        ensures writer { writer_of result ≡ writer }
        ensures faults { ⟦<StdSink<W> as Sink>⟧.faults result ≡ 0 }
    {
        StdSink { writer, faults: 0 }
    }
}

impl<W: Write + Drop> Sink for StdSink<W> {
    ghost use Rattle.std.specs.Prelude.{◌≤◌, ◌<◌, None, length, OnErr};
    ghost use Rattle.std.specs.Io.KnownBytes.{WriteAppends};
    ghost use Rattle.edge_io.specs.Causes.{Rose, CountsErrors};
    ghost use Rattle.edge_io.specs.Bytes.{WritesSome};
    ghost use Rattle.edge_io.specs.Adapters.{writer_of};

    ghost held = { λ _. None };

    ghost faults = { λ s. s.faults };

    fn write_some(&mut self, piece: &[u8]) -> Result<usize, Failed>
        requires { 0 < length piece.now }
        ensures bound { WritesSome result piece.now }
        ensures bytes { WriteAppends (⟦<StdSink<W> as Sink>⟧.held self.old) (⟦<StdSink<W> as Sink>⟧.held self.new) result piece.now }
        ensures never_falls { ⟦<StdSink<W> as Sink>⟧.faults self.old ≤ ⟦<StdSink<W> as Sink>⟧.faults self.new }
        ensures cause { OnErr result (Rose (⟦<StdSink<W> as Sink>⟧.faults self.old) (⟦<StdSink<W> as Sink>⟧.faults self.new)) }

        // What is told as written went to the writer.
        ensures passed_on { IfOk result (λ n. Appends (W.contents (writer_of self.old)) (W.contents (writer_of self.new)) (take n piece.now)) }
        ensures counted { CountsErrors result (⟦<StdSink<W> as Sink>⟧.faults self.old) (⟦<StdSink<W> as Sink>⟧.faults self.new) }
    {
        match write_through(&mut self.writer, piece) {
            Ok(count) if count > 0 => Ok(count),
            _ => {
                self.faults = self.faults.saturating_add(1);
                Err(Failed)
            }
        }
    }
}
