//! How the streams of a call behave: settings as `piece=3 out-fails=2`, with a space between two.
use anyhow::{Context, Result, bail};
use lv_edge::{List, MemorySink, MemorySource};
use std::alloc::Global;

/// Streams that fail at chosen calls, counted from 1; 0 is none.
#[derive(Clone, Copy)]
pub struct Streams {
    /// The most bytes that a read gives or a write takes.
    piece: u32,
    /// The most bytes that a sink holds.
    room: u32,
    source_fails: u32,
    out_fails: u32,
    err_fails: u32,
}

impl Streams {
    /// Streams with these settings, and else without faults and with ample room.
    pub fn of(settings: &str) -> Result<Streams> {
        let mut streams = Streams {
            piece: 65536,
            room: 65536,
            source_fails: 0,
            out_fails: 0,
            err_fails: 0,
        };
        for setting in settings.split_whitespace() {
            let (name, value) = setting.split_once('=').context("a setting has a value")?;
            streams.set(name, value.parse::<u32>()?)?;
        }
        Ok(streams)
    }

    fn set(&mut self, name: &str, value: u32) -> Result<()> {
        match name {
            "piece" => self.piece = value.max(1),
            "room" => self.room = value,
            "source-fails" => self.source_fails = value,
            "out-fails" => self.out_fails = value,
            "err-fails" => self.err_fails = value,
            _ => bail!("no such setting: {name:?}"),
        }
        Ok(())
    }

    pub fn source(&self, alloc: Global, text: Vec<u8>) -> Result<MemorySource> {
        let fails = vec![in alloc; self.source_fails]?;
        Ok(MemorySource::new(
            List::from_vec(text),
            self.piece.max(1),
            List::from_vec(fails),
        ))
    }

    pub fn out(&self, alloc: Global) -> Result<MemorySink> {
        self.sink(alloc, self.out_fails)
    }

    pub fn err(&self, alloc: Global) -> Result<MemorySink> {
        self.sink(alloc, self.err_fails)
    }

    fn sink(&self, alloc: Global, fails: u32) -> Result<MemorySink> {
        let fails = vec![in alloc; fails]?;
        Ok(MemorySink::new(alloc, self.piece.max(1), self.room, List::from_vec(fails))?)
    }
}
