//! The edge of the program: sources that are read and sinks that are written, in memory and over
//! std's readers and writers.
#![tactic(auto)]

mod adapters;
mod calls;
mod failure;
mod list;
mod memory_sink;
mod memory_source;
mod reading;
mod streams;
mod writing;

pub use adapters::{StdSink, StdSource};
pub use failure::{Failed, Memory};
pub use list::List;
pub use memory_sink::MemorySink;
pub use memory_source::MemorySource;
pub use reading::{ReadAll, read_all};
pub use streams::{Sink, Source};
pub use writing::write_all;
