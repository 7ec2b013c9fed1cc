//! Timetable files: the calls that their records spell.
//!
//! This layer stands on `rail_plan`, which keeps the calls of a plant, and on `rail_text` for numbers
//! and times in files; records and fields are those of `csv`. `specs/Fields.antt` says what a field
//! spells, `specs/Timetables.antt` what a file means and where it is refused. How a file is read may be
//! changed freely; memory is taken for its records and for the calls.
#![tactic(auto)]

mod fields;
mod records;
mod rows;
mod timetable;

pub use timetable::read_timetable;
