//! Bytes in and out, places in a text, and how a text is refused.
#![tactic(auto)]

mod fault;
mod memory;
mod name;
mod refusal;
mod standard;
mod steady;
mod stream;
mod whole;

pub use fault::{ReadRefusal, WriteFault};
pub use memory::{MemorySink, MemorySource};
pub use name::Name;
pub use refusal::{Code, Place, Refusal, Stop};
pub use standard::{StdSink, StdSource};
pub use steady::{SteadySink, SteadySource};
pub use stream::{Got, Put, Sink, Source};
pub use whole::{read_all, write_all};

/// The machine had no memory to give.
pub type NoMemory = std::alloc::AllocError;
