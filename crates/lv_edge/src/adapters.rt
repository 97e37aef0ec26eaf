ghost use Rattle.std.specs.Prelude.{◌≡◌, None};

use crate::{Failed, Sink, Source};
use std::io::{Read, Write};

/// A reader of std as a source. It doesn't tell its bytes. Each error of the reader raises its count of
/// faults by one, up to the greatest `u64`.
#[derive(Drop)]
pub struct StdSource<R: Read> {
    inner: R,
    faults: u64,
}

impl<R: Read> StdSource<R> {
    ghost use Rattle.lv_edge.specs.Adapters.{reader_of, read_faults};

    /// A source over this reader, without faults so far. It takes no memory.
    pub fn new(inner: R) -> StdSource<R>
        ensures inner { reader_of result ≡ inner }
        ensures faults { read_faults result ≡ 0 }
    {
        StdSource { inner, faults: 0 }
    }
}

impl<R: Read> Source for StdSource<R> {
    ghost use Rattle.lv_edge.specs.Adapters.{read_faults, ReadsThrough};

    ghost left = { λ _. None };

    ghost faults = { read_faults };

    ghost reads = { ReadsThrough R.remaining };

    fn read(&mut self, buf: &mut [u8]) -> Result<usize, Failed> {
        match self.inner.read(buf) {
            Ok(count) => Ok(count),
            Err(_) => {
                self.faults = self.faults.saturating_add(1);
                Err(Failed)
            }
        }
    }
}

/// A writer of std as a sink. It doesn't tell its bytes. Each error of the writer, and each write that
/// takes nothing, raises its count of faults by one, up to the greatest `u64`.
#[derive(Drop)]
pub struct StdSink<W: Write> {
    inner: W,
    faults: u64,
}

impl<W: Write> StdSink<W> {
    ghost use Rattle.lv_edge.specs.Adapters.{writer_of, write_faults};

    /// A sink over this writer, without faults so far. It takes no memory.
    pub fn new(inner: W) -> StdSink<W>
        ensures inner { writer_of result ≡ inner }
        ensures faults { write_faults result ≡ 0 }
    {
        StdSink { inner, faults: 0 }
    }
}

impl<W: Write> Sink for StdSink<W> {
    ghost use Rattle.lv_edge.specs.Adapters.{write_faults, WritesThrough};

    ghost written = { λ _. None };

    ghost faults = { write_faults };

    ghost writes = { WritesThrough W.contents };

    fn write(&mut self, piece: &[u8]) -> Result<usize, Failed> {
        match self.inner.write(piece) {
            // A write that takes nothing would be tried for ever.
            Ok(0) | Err(_) => {
                self.faults = self.faults.saturating_add(1);
                Err(Failed)
            }
            Ok(count) => Ok(count),
        }
    }
}
