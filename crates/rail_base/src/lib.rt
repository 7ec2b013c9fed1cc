//! The ground layer: numbers, names, words, sequences, tables that never grow, times as text, the lines of a
//! history, refusals, limits, and the plain data of a plant and of commands.
//!
//! It stands on no other crate of this repository. What the definitions of a lawful run speak of
//! is declared here, so a change of a public type is a change of every layer above; a body may be
//! changed freely, since the layers above use the contracts alone.
#![tactic(auto)]

mod clock;
mod history;
mod intervals;
mod laws;
pub mod limits;
mod names;
mod numbers;
mod orders;
mod plant;
mod refusals;
mod runs;
mod sequence;
mod shared;
mod tables;
mod text;

pub use clock::{read_time, write_time};
pub use history::{Cause, Entry, Note, What};
pub use intervals::{Interval, Parts};
pub use laws::{
    a_text_stands_for_one_time, a_time_written_is_read_as_itself,
    the_limits_are_those_of_the_formats, two_times_are_written_apart,
};
pub use names::Names;
pub use numbers::{SectionNo, Time, TrainNo, ceil_div};
pub use orders::{Command, Order, PolicyKind};
pub use plant::{Call, MoveRow, SectionRow, Tables, TrainKind, TrainRow, TurnRow};
pub use refusals::{Fault, OutOfMemory, Part, Reason, Refusal};
pub use runs::repeats;
pub use sequence::Seq;
pub use shared::Shared;
pub use tables::{add_copies, add_rows, copies, replace_rows};
pub use text::{Name, Word};
