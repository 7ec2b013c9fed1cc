//! What the files of a run spell: its plant with the calls of the timetable, its commands, and which policy
//! of the deck is in force first.
//!
//! This layer stands on `rail_scene` and `rail_compile` for the scene and its plant, on `rail_timetable` for
//! timetables and on `rail_command_file` for commands. It is handed bytes: where they come from, and what is done
//! with a run, is for the layers above. `specs/Inputs.antt` says what the files spell together, in which
//! order they are refused, and what the run of a scene by itself is. How they are read may be changed freely;
//! memory is taken for what is read.
#![tactic(auto)]

mod deck;
mod inputs;
mod scenes;

pub use inputs::{ReadInput, read_input, scene_input};
pub use scenes::{Planned, read_plant};
