//! Ends of a process: sources that are read to their end, and sinks that whole texts are written to.
#![tactic(auto)]

mod memory;
mod sink;
mod source;
mod standard;
mod transfer;

pub use memory::{MemorySink, MemorySource};
pub use sink::{Sink, SinkFailed};
pub use source::{Source, SourceFailed};
pub use standard::{StdinSource, StdoutSink};
pub use transfer::{LIMIT, ReadEnd, read_all, write_all};
