//! The state of a run: what it keeps of its trains, its pending events and its sections, and which front
//! that represents.
//!
//! This layer stands on `rail_block` for the times carried from move to move, on `rail_queue` for what is
//! pending and on `rail_holders` for the holders of sections. Contracts see the trains as a list with an entry
//! for each; `specs/TrainStates.antt` says how a line of a history changes an entry, and the contracts of
//! `pushes` say for every test which events an admission adds. `specs/Representation.antt` says when a state
//! represents a front, which may be any lawful one of any plant, commands and deck. That each kind of line
//! keeps it so are the lemmas in `proofs/CallerLemmas.antt`, each with its sentence; all else in `proofs/` and
//! all bodies may be changed freely. What may not change is that only `TrainStates::new` takes memory, that nobody is
//! sought among all trains (`TrainSets` has exactly those that wait, that are untried, that lack a hold line, and whose
//! causes an admission may change), that a section that is free again costs the trains that were blocked at it, and
//! that an admission that obeys the policy in force is apart from the representation.
#![tactic(auto)]

mod admission;
mod blocked_at;
mod events;
mod pushes;
mod run_state;
mod train;
mod train_sets;
mod train_walks;
mod trains;

pub use events::{event_of_section, event_of_train};
pub use pushes::{
    MOVE_EVENTS, push_end, push_entry, push_overlap, push_passing, push_steps, push_stood,
};
pub use run_state::RunState;
pub use train::{Head, TrainState, claimed_sections, held_cause, overlap_behind};
pub use trains::TrainStates;
