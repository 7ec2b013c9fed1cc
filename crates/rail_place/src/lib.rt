//! Where the trains stand: the moves of each train, places, and the player of lists of moves.
//!
//! This layer stands on the plain data of `rail_base` and on the definitions of `rail_rules`: what is
//! taken, legal and complete is defined there, and nothing here adds to it. `Moves` keeps which sections
//! each move claims, which of them are its overlap, and where each train stands after it. `Places` keeps how many moves each train has
//! made, and a table from each section to the train that holds it, so that a move costs the sections
//! that it names and no scan of the trains. `specs/` says which moves a table of rows spells, that
//! places were made for moves, and what the player answers.
//!
//! The layers above use the contracts alone: the tables may be kept in another way as long as these
//! hold. What may not change is that places take memory only where they are made.
#![tactic(auto)]

mod barring;
mod claims;
mod holdings;
mod lasts;
mod moves;
mod owners;
mod places;
mod player;
mod section_lists;

pub use barring::{Barred, PlacesFault, Played};
pub use moves::Moves;
pub use places::Places;
pub use section_lists::SectionLists;
