//! Random words.

ghost use Rattle.std.specs.Prelude.{◌≡◌, IfOk, IfErr};
ghost use Rattle.rand_core.specs.Steps.{first_words};
ghost use Rattle.rand_pcg.specs.Lcg.{increment_of, started};
ghost use Rattle.rand_pcg.specs.Pcg.{multiplier_64, pcg32};
ghost use Rattle.generational_errors.specs.declared.error.StoreError.TheVariants.{OutOfMemory};

use generational_box::StoreError;
use rand_core::utils::NextWord;
use rand_pcg::Pcg32;
use std::alloc::Global;

/// The first `n` words that `next_word` of the generator `Pcg32::new(seed, 54)` returns. The only error
/// is `OutOfMemory`.
pub fn fuzz_words(alloc: Global, seed: u64, n: usize) -> Result<Vec<u32>, StoreError>
    ensures words { IfOk result (λ words. words.items
        ≡ first_words pcg32 n (started 64 multiplier_64 seed (increment_of 64 54))) }
    ensures cause { IfErr result (λ error. error ≡ OutOfMemory) }
{
    let mut words = match Vec::with_capacity(alloc, n) {
        Ok(words) => words,
        Err(_) => return Err(StoreError::OutOfMemory),
    };
    let mut random = Pcg32::new(seed, 54);
    for _ in 0..n {
        words.push_reserved(random.next_word());
    }
    Ok(words)
}
