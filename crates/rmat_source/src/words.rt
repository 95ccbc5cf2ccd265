//! The words that a text is drawn with.
ghost use Rattle.std.specs.Prelude.{◌≡◌, ◌+◌, ◌^◌, ◌<◌};
ghost use Rattle.rmat_source.specs.Words.{text_key, word_of};

use rand_chacha::ChaCha8Rng;
use rand_core::SeedableRng;
use rand_core::utils::NextWord;
use std::marker::Model;

/// The words of a number, one after another.
#[derive(Drop)]
pub(crate) struct Words {
    rng: ChaCha8Rng,
}

impl Model for Words {
    ghost use Rattle.std.specs.Prelude.{◌≡◌};
    ghost use Rattle.rmat_source.specs.Words.{Drawn};

    ghost Value = { Drawn };

    ghost view = { λ words. record { key = words.rng.key; place = words.rng.word_pos } };

    ghost invariant = { λ words. words.rng.stream ≡ 0 };
}

impl Words {
    /// The words of a number, from the first.
    #[tactic(auto, unfolding(crate::specs::Words::text_key))]
    pub(crate) fn new(number: u64) -> Self
        ensures { result ≡ record { key = text_key number; place = 0 } }
    {
        let mut key = [0; 32];
        key[..8].copy_from_slice(&number.to_be_bytes());
        Words {
            rng: ChaCha8Rng::from_seed(key),
        }
    }

    /// The next word.
    #[tactic(auto, unfolding(crate::specs::Words::word_of))]
    pub(crate) fn next(&mut self) -> u32
        requires { self.old.place + 1 < 2 ^ 68 }
        ensures word { result ≡ word_of self.old.key self.old.place }
        ensures next { self.new ≡ record self.old { place = self.old.place + 1 } }
    {
        self.rng.next_word()
    }
}
