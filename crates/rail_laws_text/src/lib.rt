//! Text: the text of a history determines the history, and each line of a lawful history can be written, with
//! numbers that are within the limits.
//!
//! This layer stands on `rail_laws_events`, and for fresh lists on `rail_list`. A line can be written where its
//! trains and sections are the plant's and its numbers fit a 64-bit counter. Each law is the contract of a
//! function without code. The lemmas that the crates above cite stand in `proofs/CallerLemmas.antt`; all else in
//! `proofs/` may be changed freely.
#![tactic(auto)]

mod lines;
mod texts;

pub use lines::{
    a_history_has_at_most_so_many_admissions, a_line_of_a_history_can_be_written,
    a_line_of_a_history_is_within_the_limits,
};
pub use texts::{
    names_tell_trains_and_sections, the_text_of_a_history_determines_it,
    the_text_of_a_line_determines_it,
};
