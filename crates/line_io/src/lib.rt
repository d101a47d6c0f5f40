//! Runs over the lines of a source of bytes, which a machine answers into a sink of bytes.
//!
//! - `source`: the trait of a device that gives bytes.
//! - `sink`: the trait of a device that takes bytes.
//! - `adapters`: sources and sinks made of any reader and writer.
//! - `memory`: sources and sinks over memory.
//! - `counts`: the counts of their calls.
//! - `fault`: why a run ended early.
//! - `machine`: what answers a line, and what keeps what it did before its replies are written.
//! - `outbox`: replies until they are written.
//! - `runs`: a run that reads, answers and writes until the end.
//!
//! It knows nothing of what a line says: nothing of JSON, of reports or of sessions. Nor does it know files or locks.
#![tactic(auto)]

mod adapters;
mod counts;
mod fault;
mod machine;
mod memory;
mod outbox;
mod runs;
mod sink;
mod source;

pub use adapters::{FromReader, ToWriter};
pub use fault::{Failed, ScriptFault};
pub use machine::{DurableMachine, Machine};
pub use memory::{MemoryIn, MemoryOut};
pub use runs::{is_blank, line_end, next_line, run, run_kept};
pub use sink::{Sink, write_all};
pub use source::Source;
