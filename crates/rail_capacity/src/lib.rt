//! How full a line is: the blocking times of a run over a line, pushed together as far as their order allows.
//!
//! This layer stands on the plain data of `rail_base` alone. It knows blocking intervals, and neither the plant nor
//! the history that they are from, so it serves any list of intervals without conflict. Each train moves as one, so
//! its place in the compression is one number: how much earlier it passes. The trains with a bound on that number are
//! a table; the bounds are tightened over the gaps between neighbouring blocking times, the least bound first, until
//! none can be tightened any more. `specs/Compression.antt` says what a compression is, and which part of it is after
//! UIC Code 406.
//!
//! How the least placing is found may be changed, and which of several true answers is given for what a train
//! touches. That it is the least may not, nor that what is said of each train is true and leads to the begin of
//! the window, nor how occupancy and rate are counted.
#![tactic(auto)]

mod blocking_times;
mod bounds;
mod compression;
mod first_bounds;
mod gaps;
mod laws;
mod occupancy;
mod shifts;

pub use blocking_times::BlockingTime;
pub use compression::{CapacityFault, Compressed, Window, compress};
pub use laws::{
    placed_blocking_times_never_overlap, the_least_placing_is_one, the_run_itself_is_admissible,
};
pub use shifts::{Shift, Tight};
