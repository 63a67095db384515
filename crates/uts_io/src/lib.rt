//! Sources that are read and sinks that are written, with a count of their faults, so that contracts can
//! name the bytes that were read and written and the cause of each failure.
#![tactic(auto)]

mod memory;
mod sink;
mod source;
mod standard;
#[cfg(test)]
mod tests;
mod whole;

pub use memory::{CalmSource, MemSink, MemSource};
pub use sink::{Sink, Wrote};
pub use source::{Read, Source};
pub use standard::{StdSink, StdSource};
pub use whole::{NoMemory, ReadAll, SinkFault, read_all, write_all};
