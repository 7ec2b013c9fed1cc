//! The kept list: the list of moves that a run keeps, which brings every train inside to its exit.
//!
//! This layer stands on `rail_place` for places and legal moves, on `rail_cores` for a fresh list, on `rail_consequence` for
//! whether a given one completes, and on `rail_rules` for what a list that completes is. Where a train is admitted, the kept list is repaired for
//! the places after its move: the train's first entry is pulled out of it, or its remaining moves are appended.
//! Since the old list completes, no move is played to test the new one: an entering train must have ended its
//! first move safely, and before a pulled entry no entry may need what the train then stands on; both are laws.
//! The list lies in one room from a front on, so that a pull moves only the runs before it. Beside each entry stands of
//! how many entries of its train side by side it is known to be the first. So a repair looks at the list run by run;
//! each look is counted, and none behind the train's first entry is made. Only where the list
//! can't be repaired is the analysis asked for a fresh one, and a move is made only where a list is known. So
//! wherever the kept list completes before a call, it does so after it. Where the analysis fails, the core of its search
//! is kept for the train; until the train moves, or one of the core but by a safe leg, the answer is no without a search.
//! `specs/` says for which moves a list has room, what the repaired list is, when a list is known, and which list goes with each note.
//!
//! How the repaired list is tested and how a fresh one is found may be changed. That the answer is true exactly
//! where it completes may not, nor how much of the list a repair looks at, that repair goes before a fresh list, that a
//! move is made exactly where a list is known, and that nothing but `KeptList::new` and `Failures::new` takes memory.
#![tactic(auto)]

mod entries;
mod failures;
mod given_admission;
mod kept_list;
mod laws;
mod list_repairs;
mod needers;
mod notes;
mod repair;
mod runs;

pub use failures::Failures;
pub use given_admission::admit_given;
pub use kept_list::{KeptList, Reader};
pub use laws::{
    a_completing_list_fits,
    a_pulled_list_completes_exactly_where_no_earlier_entry_needs_what_the_train_stands_on,
    an_appended_list_completes_exactly_where_the_train_entered_safely,
    no_list_is_known_behind_a_safe_move_of_one_of_the_core,
    no_list_is_known_until_one_of_the_core_moves,
};
pub use notes::the_list_of_a_note_completes;
pub use repair::{admit_by_list, is_list_known};
