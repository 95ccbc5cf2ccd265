//! The engines of a stream of chunks, one after another.
ghost use Rattle.std.specs.Prelude.{◌≡◌, ℕ, ◌+◌, ◌^◌, ◌<◌, ◌≤◌};
ghost use Rattle.seeded_place.specs.Placing.{Placing, HasPlaced, engine_of};

use rand_chacha::ChaCha8Rng;
use rand_core::SeedableRng;
use rand_core::utils::NextWord;
use std::marker::Model;

/// Places the chunks of one stream on engines, in order.
#[derive(Drop)]
pub struct Placer {
    words: ChaCha8Rng,
    engines: u32,
    ghost some: { 1 ≤ engines },
}

impl Model for Placer {
    ghost Value = { Placing };

    ghost view = { λ placer. record {
      key = placer.words.key;
      stream = placer.words.stream;
      engines = placer.engines;
      place = placer.words.word_pos;
    } };
}

impl Placer {
    /// A placer at the first chunk of a stream, on 1 to 8 engines.
    #[tactic(auto, unfolding(crate::specs::Placing::placing_key))]
    pub fn new(seed: u64, stream: u64, engines: u32) -> Self
        requires { (1 ≤ engines) × (engines ≤ 8) }
        ensures { HasPlaced seed stream engines 0 result }
    {
        let mut key = [0; 32];
        key[..8].copy_from_slice(&seed.to_be_bytes());
        let mut words = ChaCha8Rng::from_seed(key);
        // `set_stream` keeps the place, so it comes before the first word.
        words.set_stream(stream);
        Placer { words, engines }
    }

    /// The engine of the next chunk, for the first 2^64 chunks of a stream.
    #[tactic(auto, unfolding(crate::specs::Placing::engine_of))]
    pub fn next(&mut self) -> u32
        ensures below { result < self.new.engines }
        ensures engines { self.new.engines ≡ self.old.engines }
        ensures placed { (seed stream engines k : ℕ) → HasPlaced seed stream engines k self.old → k < 2 ^ 64
            → (result ≡ engine_of seed stream engines k) × HasPlaced seed stream engines (k + 1) self.new }
    {
        self.words.next_word() % self.engines
    }
}
