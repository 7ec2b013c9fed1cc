//! The times of a train's moves, carried from move to move, and blocking intervals.
//!
//! This layer stands on plants (`rail_plan`) and on the definitions of `rail_rules`, which compute every time
//! from the list of a train's admissions. How long a train takes over a section and to clear it are the two formulas of
//! `src/running_times.rt`; a change of `specs/RunningTimes.antt` changes every time of a run. Here
//! five numbers of a move stand for that list: with them each time of the move and of the one after it
//! is found without a look at earlier moves. The contracts say so for every list of admissions whose
//! times they are; `specs/` says which numbers those are. A move whose train and place the plant has is a
//! `KnownMove`, a step that it has is a `KnownStep`, and a section of its
//! overlap is a `KnownOver`, so that no other call asks for that again.
//!
//! Bodies may be changed as long as the contracts hold. What may not change is that nothing here takes
//! memory, and that the work of a call doesn't grow with the number of moves before.
#![tactic(auto)]

mod ends;
mod intervals;
mod laws;
mod moves;
mod overlaps;
mod running;
mod running_times;
mod signals;
mod steps;
mod times;

pub use ends::cleared_from;
pub use intervals::interval_of;
pub use laws::later_admissions_change_no_earlier_times;
pub use moves::{KnownMove, KnownOver, KnownStep};
pub use rail_base::{Interval, Parts};
pub use running::{after, start_loss};
pub use running_times::{clear_time, run_time};
pub use times::{MoveTimes, entry_times, times_of};
