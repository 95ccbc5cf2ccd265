// The beat: what orders the calls of several disks.
ghost use Rattle.std.specs.Prelude.{◌≡◌, ℕ, ◌+◌, ◌-◌, ◌^◌, ◌<◌};

use std::marker::Model;

/// A number under which writes, cuts and syncs are made. `next` needs the beat alone, so by then every call under an
/// earlier number has returned, and a stop is in one beat. There is no copy of it.
#[derive(Drop)]
pub struct Beat {
    number: u64,
}

impl Model for Beat {
    ghost Value = { ℕ };

    ghost view = { λ beat. beat.number };
}

impl Beat {
    /// A beat with the number 0.
    pub fn new() -> Self
        ensures { result ≡ 0 }
    {
        Beat { number: 0 }
    }

    pub fn number(&self) -> u64
        ensures { result ≡ self.now }
    {
        self.number
    }

    /// Goes on to the next number.
    pub fn next(&mut self)
        requires { self.old < 2 ^ 64 - 1 }
        ensures { self.new ≡ self.old + 1 }
    {
        self.number += 1;
    }
}
