//! The numbers that a workload draws.

ghost use Rattle.std.specs.Prelude.{◌<◌};

use rand_core::utils::NextWord;
use rand_pcg::Pcg32;

/// A generator of numbers. The same seed gives the same numbers.
#[derive(Drop)]
pub(crate) struct Random {
    words: Pcg32,
}

impl Random {
    /// The generator of a seed.
    pub(crate) fn new(seed: u64) -> Random {
        Random {
            words: Pcg32::new(seed, 54),
        }
    }

    /// The next word.
    #[inline(always)]
    pub(crate) fn word(&mut self) -> u32 {
        self.words.next_word()
    }

    /// A number below `n`, from the next word.
    #[inline(always)]
    pub(crate) fn below(&mut self, n: usize) -> usize
        requires some { 0 < n }
        requires few { n < 4294967296 }
        ensures { result < n }
    {
        let word = self.word() as usize;
        (word * n) >> 32
    }
}
