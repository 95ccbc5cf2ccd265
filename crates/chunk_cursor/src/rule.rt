//! The rule that all seats keep, and what each kind of step tells.

use crate::view::View;
use atomic_table::{Join, Play, Split, TableRule};

/// All calls stand in one legal history, which the words show.
pub struct OneHistory;

impl TableRule<(), View, ()> for OneHistory {
    ghost use Rattle.chunk_cursor.specs.View.{newcomer};
    ghost use Rattle.chunk_cursor.specs.Rule.{IsKept};

    ghost holds = { λ _. IsKept };

    ghost first = { λ _. newcomer };
}

pub struct Opens;

impl Play<(), View> for Opens {
    ghost use Rattle.chunk_cursor.specs.Steps.{Opened};

    ghost then = { Opened };
}

pub struct Greets;

impl Play<(), View> for Greets {
    ghost use Rattle.chunk_cursor.specs.Steps.{Greeted};

    ghost then = { Greeted };
}

pub struct Claims;

impl Play<(), View> for Claims {
    ghost use Rattle.chunk_cursor.specs.Steps.{Claimed};

    ghost then = { Claimed };
}

pub struct Looks;

impl Play<(), View> for Looks {
    ghost use Rattle.chunk_cursor.specs.Steps.{Looked};

    ghost then = { Looked };
}

pub struct Counts;

impl Play<(), View> for Counts {
    ghost use Rattle.chunk_cursor.specs.Steps.{Counted};

    ghost then = { Counted };
}

pub struct Tries;

impl Play<(), View> for Tries {
    ghost use Rattle.chunk_cursor.specs.Steps.{Tried};

    ghost then = { Tried };
}

pub struct Settles;

impl Play<(), View> for Settles {
    ghost use Rattle.chunk_cursor.specs.Steps.{Settled};

    ghost then = { Settled };
}

/// The first seat gives a seat to a worker. A split takes no argument that runs, so the worker is a parameter.
pub struct Worker<const NUMBER: u64>;

impl<const NUMBER: u64> Split<View> for Worker<NUMBER> {
    ghost use Rattle.chunk_cursor.specs.View.{after_split, split_off};

    ghost left = { after_split NUMBER };

    ghost right = { split_off NUMBER };
}

/// The first seat takes in the list of another.
pub struct Returns;

impl Join<View> for Returns {
    ghost use Rattle.chunk_cursor.specs.View.{after_join, nobody};

    ghost both = { after_join };

    ghost spent = { nobody };
}
