//! The ends of a run: where its files stand, where its bytes come from and go, and what counts their faults.
#![tactic(auto)]

mod fault;
mod faults;
mod mem_shelf;
mod mem_sink;
mod mem_source;
mod plan;
mod real_shelf;
mod real_sink;
mod real_source;
mod shelf;
mod sink;
mod source;

pub use fault::{Failed, LoadFault, OutOfMemory};
pub use mem_shelf::MemShelf;
pub use mem_sink::MemSink;
pub use mem_source::MemSource;
pub use real_shelf::RealShelf;
pub use real_sink::RealSink;
pub use real_source::RealSource;
pub use shelf::Shelf;
pub use sink::Sink;
pub use source::Source;
