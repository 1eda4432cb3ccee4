//! Sources and sinks of bytes, which count their faults.
//!
//! `Source` and `Sink` are what the program reads from and writes to. Each may tell contents (what is left, what was
//! taken) and has a count of faults that never falls; a call fails only where that count rose, as `specs/Causes` says.
//! `MemorySource` and `MemorySink` tell all that they hold, `StdSource` and `StdSink` what their stream tells, which is
//! nothing for a stream of the system. The layers above use `read_all`, `write_all` and their contracts. Nothing here
//! knows of processes.
#![tactic(auto)]

mod counted;
mod faults;
mod sink;
mod source;

pub use counted::Counted;
pub use faults::{Failed, is_listed};
pub use sink::{MemorySink, Sink, StdSink, WriteFault, write_all};
pub use source::{MemorySource, ReadError, Source, StdSource, read_all};

#[cfg(test)]
mod tests;
