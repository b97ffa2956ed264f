//! Sources and sinks of bytes: over memory, which fail where they are told to, and over the readers
//! and writers of std. Every read or write that fails is counted, so that a contract can say that a
//! fault was there and not made up.
#![tactic(auto)]

mod failure;
mod in_memory;
mod reading;
mod standard;
mod writing;

pub use failure::Failed;
pub use in_memory::{MemSink, MemSource};
pub use irr_memory::Memory;
pub use reading::{InFault, Source, read_all};
pub use standard::{StdSink, StdSource};
pub use writing::{Sink, write_all};

#[cfg(test)]
mod tests;
