//! Sets of sections and of trains as words of 64 bits.
//!
//! This layer stands on the plain data of `rail_base`, and on `rail_rules` for what it means that a section is one of
//! some. A set is a slice of words, which contracts see as the sections that it has. Counts tell how often each section
//! is counted. A set of trains is a value of its own.
//!
//! How the bits are laid out may be changed as long as the contracts hold. What may not change is that a call on
//! sets costs their words, and not their sections.
#![tactic(auto)]

mod counts;
mod sets;
mod train_set;

pub use counts::Counts;
pub use sets::{
    WORDS, add_all, clear, fill_replaced, first_common, is_empty, join, meet, meet_beyond, replace,
    width_of,
};
pub use train_set::TrainSet;
