//! A round of values, on all engines at once.
//!
//! To the room above this crate promises of each engine's values device what `checkpoint` promises of one: the other slot
//! as it was at every moment of a stop, and the round's values in its slot when all is done. And it promises it of all
//! vertices: where the values before of all of them stand on the engines, the new ones are one list, made of the merge of
//! all workers' accumulators. It touches nothing but threads and the devices and meters that it is handed, which are in
//! their places again when it returns. Its buffers are made once, so that a round takes no memory.
#![tactic(auto)]

mod apply;
mod crew;

pub use apply::{Applied, apply_all};
pub use crew::ApplyCrew;
