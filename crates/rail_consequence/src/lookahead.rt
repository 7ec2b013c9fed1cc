//! What is taken and needed once a train has gone on, with no move made.

use rail_sets::WORDS;

/// Sets of the places where a train has gone on to a place.
#[derive(Clone, Copy)]
pub struct Lookahead {
    /// The sections that are taken then.
    pub taken: [u64; WORDS],
    /// The sections that more than one train needs then.
    pub shared: [u64; WORDS],
    /// The sections that the train and one other need, and only the other then.
    pub fell: [u64; WORDS],
    /// Whether there is one.
    pub has_fallen: bool,
}

impl Lookahead {
    /// Room for a look ahead.
    pub fn new() -> Lookahead {
        Lookahead {
            taken: [0; WORDS],
            shared: [0; WORDS],
            fell: [0; WORDS],
            has_fallen: false,
        }
    }
}
