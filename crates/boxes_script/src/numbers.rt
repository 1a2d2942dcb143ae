//! The numbers by which the lines of a script refer to earlier ones.
#![tactic(auto)]

ghost use Rattle.std.specs.Prelude.{◌≡◌, ◌↔◌, ℕ, ◌<◌, ◌≤◌, Some, IsTrue, slice_index};
ghost use Rattle.std.specs.Fmt.{decimal};

/// The most lines of a script.
pub const MOST_LINES: u32 = 1_000_000;

/// The number of a line: decimal, from 1 to the limit, without sign or leading zeros. None for any other
/// word. Doesn't allocate.
pub fn line_number(word: &str) -> Option<u32>
    ensures { (number : ℕ) → (result ≡ Some number) ↔
        ((0 < number) × (number ≤ MOST_LINES) × (word.now ≡ decimal number)) }
{
    if !begins_above_zero(word) {
        return None;
    }
    match word.parse::<u32>() {
        Ok(number) => {
            if number <= MOST_LINES {
                Some(number)
            } else {
                None
            }
        }
        Err(_) => None,
    }
}

// Whether the first byte is greater than that of '0', which no sign is.
fn begins_above_zero(word: &str) -> bool
    ensures { IsTrue result ↔ (48 < slice_index word.now 0) }
{
    match word.as_bytes().first() {
        Some(first) => *first > b'0',
        None => false,
    }
}
