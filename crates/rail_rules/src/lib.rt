//! The definitions of a lawful run, and laws about them in the words of railway operation.
//!
//! This layer stands on `rail_base` alone. Its definitions are in `specs/`, lowest first: the moves of
//! a plant, places, the analysis, plants, fronts, orders, times, blocking intervals, event lines,
//! causes, lawful histories, runs, and the text of a history. They compute from lists and numbers, and
//! know no queue, no table of holders and no search of the program: every layer above is proved to meet
//! them. A change of a definition changes what the program promises; the functions here have no code,
//! and each states a law in its contract.
#![tactic(auto)]

mod laws;

pub use laws::{
    a_completing_list_counts_the_moves_left, a_legal_move_keeps_a_valid_state,
    only_admissions_change_event_lines, the_computed_search_is_exact,
    the_parts_of_an_interval_are_in_order, the_parts_of_an_interval_sum_to_its_length,
    without_overlaps_nothing_is_taken_over,
};
