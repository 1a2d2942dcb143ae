//! The element types that are measured.

use itoa::Buffer;
use std::alloc::{AllocError, Global};

/// What a workload keeps in the store.
pub trait Element: Sized + Drop {
    /// The value that is made of a word.
    fn of_word(alloc: Global, word: u32) -> Result<Self, AllocError>;

    /// A number that depends on the whole value.
    fn digest(&self) -> u64;
}

/// The word itself.
impl Element for u64 {
    #[inline(always)]
    fn of_word(_alloc: Global, word: u32) -> Result<u64, AllocError> {
        Ok(u64::from(word))
    }

    #[inline(always)]
    fn digest(&self) -> u64 {
        *self
    }
}

/// `v` and the decimal digits of the word modulo a million.
impl Element for String {
    // Written out, since `format!` costs more than most of the calls that are measured.
    fn of_word(alloc: Global, word: u32) -> Result<String, AllocError> {
        let mut buffer = Buffer::new();
        let digits = buffer.format(word % 1_000_000);
        let mut text = String::with_capacity(alloc, 7)?;
        text.push('v')?;
        text.push_str(digits)?;
        Ok(text)
    }

    fn digest(&self) -> u64 {
        let mut digest: u64 = 0;
        for byte in self.as_bytes() {
            digest = digest.wrapping_mul(31).wrapping_add(u64::from(*byte));
        }
        digest
    }
}
