//! The plant of a scene: its sections, and its trains with the moves of their itineraries.
//!
//! This layer stands on `rail_scene` for what a scene file spells, and on `rail_plan` for plants. It looks up
//! the kind and the routes of each train, and the turns between its routes; whether the plant may be run is
//! tested by `rail_plan`. In which order a scene is refused here is one list of tests in `specs/`. The layers
//! above use the contracts of the public calls, so the bodies may be changed freely.
#![tactic(auto)]

mod compiling;

pub use compiling::{Lookups, compile, compile_moves, fault_for};
