//! What the engine asks of the world outside it: where bytes come from, where they go, and the disks that keep them.
//!
//! The crates above are written against these traits alone. A contract here speaks of what an object tells, such as the
//! bytes left in a source, and asks nothing of one that does not tell. Every fault has its count: an object that
//! answers `Failed` has raised it. Of a disk it is said besides what a stop at each moment may leave, and the lemmas of
//! `proofs/Stops.antt` make of these clauses one claim on many calls, many beats and many disks. Nothing here touches a
//! file, a stream or a thread.
#![tactic(auto)]

mod beat;
mod cut;
mod disk;
mod faults;
mod gate;
mod sink;
mod source;
mod synced;

pub use beat::Beat;
pub use cut::cut_all;
pub use disk::{Disk, Meter};
pub use faults::{Failed, Memory};
pub use gate::Gate;
pub use sink::{Sink, write_all};
pub use source::Source;
pub use synced::{cut_synced, write_synced};
