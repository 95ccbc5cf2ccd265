//! Objects of the outside that live in memory, for tests.
//!
//! Each meets its trait of `ports` and tells its bytes. Where a list of numbers says which calls fail, those calls
//! fail, counted from 1, and of the others only a write, cut or sync that finds no memory. A disk keeps a record of
//! its calls, and makes of it what a stop at any moment may have left. Nothing here touches a file, a stream or a
//! thread; all memory comes from the allocator that the constructors take.
#![tactic(auto)]

mod call;
mod disk;
mod history;
mod image;
mod meter;
mod plan;
mod sink;
mod source;
mod sure_disk;

pub use disk::MemDisk;
pub use meter::{MemMeter, SureMeter};
pub use sink::MemSink;
pub use source::{MemSource, SureSource};
pub use sure_disk::SureReadDisk;

#[cfg(test)]
mod tests;
