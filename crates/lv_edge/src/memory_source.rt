ghost use Rattle.std.specs.Prelude.{◌≡◌, ◌≤◌, Some};
ghost use Rattle.lv_edge.specs.Held.{ReadsHeld};

use crate::calls::is_among;
use crate::{Failed, List, Source};
use std::marker::Model;

/// A source over bytes in memory, for tests: it gives them in small pieces, and fails at chosen calls.
#[derive(Drop)]
pub struct MemorySource {
    bytes: List<u8>,
    // How many of them were read.
    at: usize,
    piece: u32,
    fails: List<u32>,
    calls: u64,
    faults: u64,
}

impl Model for MemorySource {
    ghost use Rattle.std.specs.Prelude.{◌≤◌, length, drop};
    ghost use Rattle.lv_edge.specs.Held.{HeldSource};

    ghost Value = { HeldSource };

    ghost view = { λ s. record { left = drop s.at s.bytes; piece = s.piece; fails = s.fails; calls = s.calls; faults = s.faults } };

    ghost invariant = { λ s. (s.at ≤ length s.bytes) × (1 ≤ s.piece) };
}

impl MemorySource {
    /// A source with these bytes left. A read gives at most `piece` of them, and the reads whose numbers
    /// are in `fails`, counted from 1, fail. It takes no memory.
    pub fn new(bytes: List<u8>, piece: u32, fails: List<u32>) -> MemorySource
        requires { 1 ≤ piece }
        ensures left { result.left ≡ bytes }
        ensures piece { result.piece ≡ piece }
        ensures fails { result.fails ≡ fails }
        ensures calls { result.calls ≡ 0 }
        ensures faults { result.faults ≡ 0 }
    {
        MemorySource {
            bytes,
            at: 0,
            piece,
            fails,
            calls: 0,
            faults: 0,
        }
    }

    /// The bytes that are left to read.
    pub fn rest(&self) -> &[u8]
        ensures { result.now ≡ self.now.left }
    {
        &self.bytes.as_slice()[self.at..]
    }
}

impl Source for MemorySource {
    ghost left = { λ s. Some s.left };

    ghost faults = { λ s. s.faults };

    ghost reads = { ReadsHeld };

    fn read(&mut self, buf: &mut [u8]) -> Result<usize, Failed> {
        self.calls = self.calls.saturating_add(1);
        if is_among(self.calls, self.fails.as_slice()) {
            self.faults = self.faults.saturating_add(1);
            return Err(Failed);
        }
        let rest = &self.bytes.as_slice()[self.at..];
        let count = rest.len().min(buf.len().min(self.piece as usize));
        buf[..count].copy_from_slice(&rest[..count]);
        self.at += count;
        Ok(count)
    }
}
