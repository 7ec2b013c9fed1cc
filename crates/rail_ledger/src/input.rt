//! The input of a run: a plant, its commands, and a deck with the policy that is in force first.

use rail_base::{Command, Name};
use rail_plan::Plant;

/// What a run is of: a plant with its calls, the commands in order of time, and the names of the deck with the
/// place of the policy that is in force first, counted from 0.
pub struct RunInput {
    pub plant: Plant,
    pub commands: Vec<Command>,
    pub deck: Vec<Name>,
    pub force: usize,
}

impl Drop for RunInput {
    fn drop(self) {
        let RunInput {
            plant: _plant,
            commands: _commands,
            deck: _deck,
            force: _,
        } = self;
    }
}
