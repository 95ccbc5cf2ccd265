//! The edges of a store are the edges of its rounds: laws on what stands on graph devices, with no state and no code.
//!
//! A store of a job's edges says where it keeps them in its own words: the content of each graph device, and an index of
//! places that was made while chunks were written, or found again by a scan. The rounds ask for edges in theirs: the t-th
//! place of a cursor is where the t-th chunk of that cursor stands. This room says that the first gives the second, also
//! of chunks that were found on devices of which nothing else is known; which texts have a store; that an index of a store
//! has room on the cursors; and that it has as many places of an engine as that has chunks. It promises the laws to the
//! room above, and touches nothing.
#![tactic(auto)]

mod laws;

pub use laws::{
    accepted_text_is_storable, edges_stand, found_chunks_stand, index_is_few, places_are_counted,
};
