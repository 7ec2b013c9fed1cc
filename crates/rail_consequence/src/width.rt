//! How many words of a set are looked at.

ghost use Rattle.std.specs.Prelude.{ℕ};
ghost use Rattle.rail_sets.specs.declared.sets.TheConstants.{WORDS};

use rail_sets::WORDS;

/// So many words of each set are looked at, which is known where the code is compiled: a loop over them costs less than one
/// over as many as a scene has.
pub trait Width {
    /// The words.
    const WORDS: usize;

    ghost WORDS: { ℕ };
}

/// A word: 64 sections.
pub struct One;

/// Two words: 128 sections.
pub struct Two;

/// Three words: 192 sections.
pub struct Three;

/// Four words: 256 sections.
pub struct Four;

/// All words that a set has.
pub struct All;

impl Width for One {
    const WORDS: usize = 1;

    ghost WORDS = { 1 };
}

impl Width for Two {
    const WORDS: usize = 2;

    ghost WORDS = { 2 };
}

impl Width for Three {
    const WORDS: usize = 3;

    ghost WORDS = { 3 };
}

impl Width for Four {
    const WORDS: usize = 4;

    ghost WORDS = { 4 };
}

impl Width for All {
    const WORDS: usize = WORDS;

    ghost WORDS = { WORDS };
}
