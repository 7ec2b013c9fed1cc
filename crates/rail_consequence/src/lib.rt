//! The analysis of movement consequences: a list of moves that brings every train inside to its exit,
//! with few free legs, or that there is none.
//!
//! This layer stands on `rail_place` for places and legal moves, on `rail_sets` for sets of sections and
//! how often sections are counted, and on `rail_rules` for what a leg is, when it is safe, and what can be
//! found. The analyst makes legs on places of its own, filled from those handed in: it makes safe legs as
//! long as there is one, each to the last safe place on its way, which loses nothing, and only then tries
//! each free leg, going back on those that do not help.
//!
//! What a train needs and where it stands are sets of sections for each of its places, made with the
//! analyst. Of a set so many words are looked at as its sections take, of a few numbers for each of which the
//! search is compiled. For each section it is counted how many trains need it for moves that they have left, a set at
//! a time; the counts tell whether a leg is safe. What stops a train is noted. The search after a free leg
//! is handed the notes, with the set of sections that fell to one train since. Whether a note lasts shows
//! where it is used: a train is looked at again only where no other train holds the section any more, or a
//! section that it needs fell.
//!
//! Two looks spare it most free legs. Where nothing is found with a train out of the way, none of its legs
//! helps. And a last free leg helps only where it frees another train, which a look ahead tells before it is
//! made. So before the last free legs are tried, each stopped train is asked whether it would go on were the
//! train gone for which it waits, and those to which a section would fall: no leg is tried of the others. A leg
//! of the rest is looked at in the same way, with the sets of what would be taken and what would be shared.
//!
//! The trains that are inside after the first safe legs of a search that fails are its core: as long as each of them
//! stands where it stood, nothing is found, wherever the others are. So nobody needs to search again until one of
//! them has moved.
//!
//! Whether a list that somebody made completes is told by the same sets: it is looked at run by run, a run being entries of
//! one train side by side, and each has to be a leg.
//!
//! An analyst belongs to the moves for which it was made. The counts are kept from one search to the
//! next, and brought to the new places train by train where the place differs.
//!
//! The order in which legs are tried, and so which list is found, may be changed. That no list is
//! answered exactly where none can be found may not, nor that a list is told to complete exactly where it does.
#![tactic(auto)]

mod analyst;
mod laws;
mod lookahead;
mod needs;
mod notes;
mod rows;
mod tally;
mod train_list;
mod width;

pub use analyst::Analyst;
pub use laws::{
    a_core_lasts_behind_a_safe_leg, a_core_lasts_until_one_of_it_moves,
    a_safe_leg_keeps_what_can_be_found, the_trains_that_safe_legs_leave_inside_are_a_core,
    what_can_be_found_can_be_found_ahead, what_can_be_found_can_be_found_without_a_train,
};
pub use rows::Rows;
