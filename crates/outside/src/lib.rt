//! Where bytes come from and where they go, with a count of the faults met on the way.
#![tactic(auto)]

mod memory;
mod standard;
mod traits;
mod transfer;

pub use memory::{MemorySink, MemorySource, RepeatSource};
pub use standard::{StdSink, StdSource};
pub use traits::{Failed, Sink, Source};
pub use transfer::{read_byte, write_all};
