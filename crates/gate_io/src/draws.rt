// Random words.
ghost use Rattle.std.specs.Prelude.{◌≡◌, ℕ, ◌+◌};
ghost use Rattle.rand_core.specs.Pcg32Seed.{pcg32_seed};
ghost use Rattle.rand_pcg.specs.Pcg.{pcg64_of_seed};
ghost use Rattle.gate_io.specs.Words.{word_at};

use rand_core::SeedableRng;
use rand_core::utils::NextWord;
use rand_pcg::Pcg64;
use std::marker::Model;

/// Where random words come from.
pub trait Draws: Send + Drop {
    /// The words that are still to come, counted from 0.
    ghost words: { Self → ℕ → ℕ };

    /// The next word.
    fn word(&mut self) -> u64
        ensures word { result ≡ words self.old 0 }
        ensures rest { (k : ℕ) → words self.new k ≡ words self.old (k + 1) };

    /// Draws of their own for another thread. They cost one word.
    fn fork(&mut self) -> Self
        ensures rest { (k : ℕ) → words self.new k ≡ words self.old (k + 1) };
}

/// The words of a PCG generator. They are good for spreading waits, and none is for secrets.
#[derive(Debug, Drop)]
pub struct PcgDraws {
    generator: Pcg64,
}

impl Model for PcgDraws {
    ghost use Rattle.rand_pcg.specs.Lcg.{Lcg};

    ghost Value = { Lcg };

    ghost view = { λ d. d.generator };
}

impl PcgDraws {
    /// The words of the generator that this seed makes.
    pub fn new(seed: u64) -> PcgDraws
        ensures { result ≡ pcg64_of_seed (pcg32_seed 32 seed) }
    {
        PcgDraws {
            generator: Pcg64::seed_from_u64(seed),
        }
    }
}

impl Draws for PcgDraws {
    ghost words = { λ d k. word_at d k };

    fn word(&mut self) -> u64 {
        self.generator.next_word()
    }

    fn fork(&mut self) -> PcgDraws
        ensures seeded { result ≡ pcg64_of_seed (pcg32_seed 32 (word_at self.old 0)) }
        ensures rest { (k : ℕ) → word_at self.new k ≡ word_at self.old (k + 1) }
    {
        PcgDraws::new(self.word())
    }
}
