ghost use Rattle.std.specs.Prelude.{◌≡◌, ◌≤◌, ◌+◌, ◌++◌, [], Some, length, IsOk, IfOk, vec_len, vec_capacity};
ghost use Rattle.lv_edge.specs.Held.{WritesHeld};

use crate::calls::is_among;
use crate::{Failed, List, Memory, Sink};
use std::alloc::Global;
use std::marker::Model;

/// A sink in memory, for tests: it takes bytes in small pieces up to its room, and fails at chosen calls.
#[derive(Drop)]
pub struct MemorySink {
    bytes: Vec<u8>,
    piece: u32,
    room: u32,
    fails: List<u32>,
    calls: u64,
    faults: u64,
}

impl Model for MemorySink {
    ghost use Rattle.std.specs.Prelude.{◌≤◌, vec_len, vec_capacity};
    ghost use Rattle.lv_edge.specs.Held.{HeldSink};

    ghost Value = { HeldSink };

    ghost view = { λ s. record { written = s.bytes.items; piece = s.piece; room = s.room; fails = s.fails; calls = s.calls; faults = s.faults } };

    ghost invariant = { λ s. (vec_len s.bytes ≤ s.room) × (s.room ≤ vec_capacity s.bytes) × (1 ≤ s.piece) };
}

impl MemorySink {
    /// An empty sink, with the memory for `room` bytes. A write takes at most `piece` of them, and the
    /// writes whose numbers are in `fails`, counted from 1, fail.
    pub fn new(alloc: Global, piece: u32, room: u32, fails: List<u32>) -> Result<MemorySink, Memory>
        requires { 1 ≤ piece }
        ensures written { IfOk result (λ s. s.written ≡ []) }
        ensures piece { IfOk result (λ s. s.piece ≡ piece) }
        ensures room { IfOk result (λ s. s.room ≡ room) }
        ensures fails { IfOk result (λ s. s.fails ≡ fails) }
        ensures calls { IfOk result (λ s. s.calls ≡ 0) }
        ensures faults { IfOk result (λ s. s.faults ≡ 0) }
        ensures no_room { room ≡ 0 → IsOk result }
    {
        let bytes = Vec::with_capacity(alloc, room as usize)?;
        Ok(MemorySink {
            bytes,
            piece,
            room,
            fails,
            calls: 0,
            faults: 0,
        })
    }

    /// The bytes that were written.
    pub fn bytes(&self) -> &[u8]
        ensures { result.now ≡ self.now.written }
    {
        self.bytes.as_slice()
    }
}

impl Sink for MemorySink {
    ghost written = { λ s. Some s.written };

    ghost faults = { λ s. s.faults };

    ghost writes = { WritesHeld };

    fn write(&mut self, piece: &[u8]) -> Result<usize, Failed> {
        self.calls = self.calls.saturating_add(1);
        let room = self.room as usize - self.bytes.len();
        if room == 0 || is_among(self.calls, self.fails.as_slice()) {
            self.faults = self.faults.saturating_add(1);
            return Err(Failed);
        }
        let count = piece.len().min(room.min(self.piece as usize));
        append(&mut self.bytes, &piece[..count]);
        Ok(count)
    }
}

/// Adds bytes for which there is room already.
fn append(bytes: &mut Vec<u8>, more: &[u8])
    requires { vec_len bytes.old + length more.now ≤ vec_capacity bytes.old }
    ensures items { bytes.new.items ≡ bytes.old.items ++ more.now }
    ensures capacity { vec_capacity bytes.new ≡ vec_capacity bytes.old }
{
    for &byte in more {
        bytes.push_reserved(byte);
    }
}
