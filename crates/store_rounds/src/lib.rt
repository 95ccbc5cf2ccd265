//! The rounds that a store keeps are the rounds that a run makes: laws with no state and no code.
//!
//! A run says of its rounds what stands on each values device, and what a stop leaves there; a store that is opened again
//! says which round it keeps. This room joins the two: a round that a run keeps is one of the store, the round that is
//! found is one from which a run may go on, what a stop leaves of a run is a store of the same job that has not lost it,
//! and what is printed of the last round is the answer. It promises the laws to the room above, and touches nothing.
#![tactic(auto)]

mod answers;
mod images;
mod made;
mod rounds;
mod stops;

pub use answers::kept_is_the_answer;
pub use images::{images_are_of_each, stop_is_of_each};
pub use made::made_is_of_a_store;
pub use rounds::{found_is_a_good_start, kept_is_everywhere, rounds_are_the_same, stands_is_kept};
pub use stops::{found_is_not_lost, left_is_of_a_store, made_is_not_lost, stop_is_of_a_store};
