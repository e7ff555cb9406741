use crate::{Failed, Sink};
use plain_data::OutOfMemory;
use std::alloc::Global;
use std::marker::Model;

/// A sink in memory with a fixed room, which tells its bytes. It fails the writes whose numbers, from 0, are listed.
/// A piece past its room is a counted fault where nothing of it fits, and otherwise a short write: what fits is taken
/// and told, and it is the write of the rest that fails.
#[derive(Debug, Drop)]
pub struct MemSink {
    bytes: Vec<u8>,
    room: usize,
    failing: Vec<u64>,
    calls: u64,
    faults: u64,
}

impl Model for MemSink {
    ghost use Rattle.std.specs.Prelude.{◌≤◌, ◌+◌, vec_len, vec_capacity};
    ghost use Rattle.edge_io.specs.InMemory.{SinkView};

    ghost Value = { SinkView };

    ghost view = { λ s. record { held = s.bytes.items; room = s.room; failing = s.failing.items; calls = s.calls; faults = s.faults } };

    ghost invariant = { λ s. vec_len s.bytes + s.room ≤ vec_capacity s.bytes };
}

impl MemSink {
    ghost use Rattle.std.specs.Prelude.{◌≡◌, [], IfOk};

    /// An empty sink with room for so many bytes. It takes all its memory here, so that a write takes none. Writes
    /// whose numbers are in `failing` will fail.
    pub fn with_room(alloc: Global, room: usize, failing: Vec<u64>) -> Result<MemSink, OutOfMemory>
        ensures { IfOk result (λ sink. sink ≡ record { held = []; room = room; failing = failing.items; calls = 0; faults = 0 }) }
    {
        Ok(MemSink {
            bytes: Vec::with_capacity(alloc, room)?,
            room,
            failing,
            calls: 0,
            faults: 0,
        })
    }

    /// The bytes that were written, in order.
    pub fn written(&self) -> &[u8]
        ensures { result.now ≡ self.now.held }
    {
        &self.bytes
    }

    /// How many writes have failed.
    pub fn faults(&self) -> u64
        ensures { result ≡ self.now.faults }
    {
        self.faults
    }
}

impl Sink for MemSink {
    ghost use Rattle.std.specs.Prelude.{◌≡◌, ◌≤◌, ◌<◌, ◌+◌, ◌↔◌, ◌⊎◌, Some, length, min, IsErr, IfOk, OnErr, Contains};
    ghost use Rattle.std.specs.Io.KnownBytes.{WriteAppends};
    ghost use Rattle.edge_io.specs.Causes.{Rose, CountsErrors, counted_up};
    ghost use Rattle.edge_io.specs.Bytes.{WritesSome};

    ghost held = { λ s. Some s.held };

    ghost faults = { λ s. s.faults };

    fn write_some(&mut self, piece: &[u8]) -> Result<usize, Failed>
        requires { 0 < length piece.now }
        ensures bound { WritesSome result piece.now }
        ensures bytes { WriteAppends (Some self.old.held) (Some self.new.held) result piece.now }
        ensures never_falls { self.old.faults ≤ self.new.faults }
        ensures cause { OnErr result (Rose self.old.faults self.new.faults) }

        // Exactly the listed calls and those that find no room fail, and the others take as much as fits.
        ensures failing { IsErr result ↔ (Contains self.old.failing self.old.calls ⊎ (self.old.room ≡ 0)) }
        ensures full { IfOk result (λ n. n ≡ min (length piece.now) self.old.room) }
        ensures room { self.new.room + length self.new.held ≡ self.old.room + length self.old.held }
        ensures faults { CountsErrors result self.old.faults self.new.faults }
        ensures calls { self.new.calls ≡ counted_up self.old.calls }
        ensures list { self.new.failing ≡ self.old.failing }
    {
        let call = self.calls;
        self.calls = call.saturating_add(1);
        if self.room == 0 || self.failing.contains(&call) {
            self.faults = self.faults.saturating_add(1);
            return Err(Failed);
        }
        let count = piece.len().min(self.room);
        let (taken, _) = piece.split_at(count);
        // The memory for it is there since the start.
        if self.bytes.extend_from_slice(taken).is_err() {
            unreachable!()
        }
        self.room -= count;
        Ok(count)
    }
}
