//! The bytes that were written to a summary. Only clauses read them: nothing is kept, and no call does anything.
ghost use Rattle.std.specs.Prelude.{◌≡◌, ◌++◌, List, ℕ, []};
ghost use Rattle.std.specs.Borrow.{ftrue};

use std::marker::{Model, PhantomData};

#[derive(Drop)]
pub(crate) struct Written {
    marker: PhantomData<u8>,
    pub(crate) ghost bytes: { List ℕ },
}

impl Model for Written {
    ghost also_owns = { λ _. ftrue };
}

impl Written {
    pub(crate) fn new() -> Written
        ensures { result.bytes ≡ [] }
    {
        Written {
            marker: PhantomData,
        }
    }

    pub(crate) fn add(&mut self, _piece: &[u8])
        ensures { self.new.bytes ≡ self.old.bytes ++ _piece.now }
    {}
}
