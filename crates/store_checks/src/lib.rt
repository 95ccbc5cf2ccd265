//! The checks of a store that is opened again: its heads, its chunks and its values devices, in this order; and the
//! round that is kept in it.
//!
//! To the room above it promises that each check answers exactly the first damage of its kind by the definitions of
//! `store_model`, that after the checks of heads the job is well formed and is what they say, that the index has
//! exactly the chunks of the graph devices, that the kept round is the greatest in an open slot of every engine,
//! and that a fault of a read raised the count of its meter. It touches nothing but the devices that it reads and
//! their meter.
#![tactic(auto)]

mod fault;
mod fields;
mod heads;
mod indexing;
mod kept;
mod rounds;

pub use fault::RecoverFault;
pub use heads::job_of_heads;
pub use indexing::index_graphs;
pub use kept::{Standing, kept_round};
pub use rounds::check_values;
