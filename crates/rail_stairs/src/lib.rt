//! Blocking time stairways: the blocking intervals of a run, those of overlaps among them, as a list and as a text.
//!
//! This layer stands on the blocking intervals of `rail_block`, on the laws of lawful histories, on the lines of
//! `rail_text`, and for two of its laws on what `rail_capacity` calls without conflict and `rail_insert` calls timely. Everything follows
//! from the admissions and the time of the end line, so `Stairs` keeps these alone, as the lines of a history
//! come; the intervals are computed when they are asked for, in one pass over each train. The intervals of the overlap
//! of a move stand behind those of the sections that it needs. They have no parts, each has an end, and a section of an
//! overlap that the train's next move takes over as it is admitted at the same time has none. All times and parts are in
//! tenths of a second.
//! `specs/Stairways.antt` and `specs/StairsTexts.antt` say what a stairway is and how it is written, from the
//! lines of a history and no code.
//!
//! Bodies may be changed as long as the contracts hold. What may not change is that only `Stairs::new` and
//! `Stairs::intervals` take memory, and that a pass over a train computes the times of each of its moves once.
#![tactic(auto)]

mod admissions;
mod intervals;
mod journey;
mod laws;
mod stairs;
mod steps;
mod tallies;
mod words;
mod writing;

pub use admissions::Admissions;
pub use intervals::ended_by;
pub use laws::{
    a_lawful_line_finds_room, an_over_line_is_of_an_overlap, ended_intervals_are_positive,
    ended_intervals_are_without_conflict, ended_intervals_never_overlap, intervals_are_timely,
};
pub use stairs::Stairs;
pub use writing::write_stairs;
