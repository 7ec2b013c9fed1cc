//! Times in files that are read line by line.

ghost use Rattle.std.specs.Prelude.{◌≡◌, ℕ, List};
ghost use Rattle.rail_text.specs.Times.{IsInputTime, input_time};

use rail_base::limits::INPUT_TIME;
use rail_base::{Time, a_text_stands_for_one_time, read_time};

/// The time that the word spells, where it is none past the greatest of an input.
pub fn input_time(word: &[u8]) -> Option<Time>
    ensures { result ≡ input_time word.now }
{
    a_text_stands_for_one_time();
    let time = read_time(word)?;
    if time.0 <= INPUT_TIME {
        Some(time)
    } else {
        None
    }
}

/// The time of a word in a command file is the one that the word spells in any input, up to the limit of
/// ten days; a word has no time exactly where it spells none up to it.
pub fn a_word_spells_an_input_time()
    ensures { (word : List ℕ) → IsInputTime word (input_time word) }
{}
