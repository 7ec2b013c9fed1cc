//! Where further trains like a given one fit between the trains of a run.
//!
//! This layer stands on the plain data of `rail_base` and the window of `rail_capacity`, and for the text on the lines of
//! `rail_text`. Placing knows blocking intervals, and neither the plant nor the history that they are from. A copy of a train
//! is its whole stairway, moved as one, so its place is one number: the begin of its first interval. What keeps it from
//! a begin is a bar: an interval in the way, against one interval of the copy. All bars stand in a table by the begin
//! from which on they exclude, in which each excludes further than those before it; so the bar that excludes a begin
//! and reaches furthest is found by halves, and the bars that are passed on the way from the begin of the window are
//! the certificate that no earlier begin fits. `specs/Copies.antt`, `specs/Bars.antt` and `specs/Insertions.antt` say
//! what that means, from the intervals alone.
//!
//! How the bars are kept may be changed. That each copy stands at the least begin at which it fits may not, nor which
//! bar is listed where several exclude a begin, nor when each fault comes.
#![tactic(auto)]

mod bars;
mod insertion;
mod laws;
mod stairway;
mod table;
mod writing;

pub use bars::{Bar, Owner};
pub use insertion::{InsertFault, Inserted, Placed, insert};
pub use laws::{
    bars_are_a_certificate, bars_cover_all_earlier_begins, copies_run_into_no_copy,
    copies_run_into_no_train,
};
pub use writing::write_inserted;
