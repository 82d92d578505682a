//! One run of the program: a request in, a text out, and a status that says which.
#![tactic(auto)]

mod answering;
mod ends;
mod grouping;
mod keeping;
pub mod laws;
mod memory;
mod never;
mod planning;
mod reading;
mod running;
mod status;
mod std_ends;
mod tracing;
mod words;
mod writing;

pub use ends::{Failed, Sink, Source};
pub use memory::{MemorySink, MemorySource};
pub use never::{NeverSink, NeverSource};
pub use running::{run, run_calm};
pub use status::Status;
pub use std_ends::{StdSink, StdSource};
