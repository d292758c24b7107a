//! The outside of the program: where its bytes come from, where they go, and where files are kept.
//!
//! Each device is a trait with a count of its faults, so that a caller can say of a failed call that the device
//! was at fault. Devices in memory tell their bytes and fail where they are asked to; the real ones tell nothing.
#![tactic(auto)]

mod memory_shelf;
mod memory_sink;
mod memory_source;
mod real;
mod shelf;
mod sink;
mod source;
mod sure;

pub use memory_shelf::MemoryShelf;
pub use memory_sink::MemorySink;
pub use memory_source::MemorySource;
pub use real::{RealShelf, RealSink, RealSource};
pub use shelf::{READ_LIMIT, Shelf, ShelfFault};
pub use sink::Sink;
pub use source::{Failed, Source};
pub use sure::{SureSink, SureSource};

/// The most bytes that one read asks for.
pub const CHUNK: usize = 4096;
