//! Steps over frames: run one after another, and as the command `run` over the ends of a process.
#![tactic(auto)]

mod aggregation;
mod filter_step;
mod group_step;
mod planning;
mod reply;
pub mod run;
mod runner;
mod select_step;
mod status;

pub use px_document::{Document, DocumentFault, read_document};
pub use px_ends::{
    LIMIT, MemorySink, MemorySource, Sink, SinkFailed, Source, SourceFailed, StdinSource,
    StdoutSink,
};
pub use px_text::{error_line, frame_text};
pub use px_tree::{Step, are_unchunked};
pub use runner::run_steps;
pub use status::Status;
