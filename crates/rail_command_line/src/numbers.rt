//! Words of a command line that are numbers.

ghost use Rattle.std.specs.Prelude.{◌≡◌, ℕ, MatchOption};
ghost use Rattle.rail_command_line.specs.Forms.{IsNumber};

use itoa::Buffer;
use std::str;

/// The number that a word spells: `None` exactly where the word is no number in decimal digits without
/// leading zeros, or one that does not fit 64 bits.
pub fn read_number(word: &[u8]) -> Option<u64>
    ensures { MatchOption result ((n : ℕ) → IsNumber word.now n → ⊥) (λ n. IsNumber word.now n) }
{
    let number = likely_number(word)?;
    let mut digits = Buffer::new();
    if digits.format(number).as_bytes() == word {
        Some(number)
    } else {
        None
    }
}

/// The number that the digits of a word spell. Any other word gives some number or none.
fn likely_number(word: &[u8]) -> Option<u64>
    ensures { (n : ℕ) → IsNumber word.now n → result ≡ Some n }
{
    str::from_utf8(word).ok()?.parse::<u64>().ok()
}
