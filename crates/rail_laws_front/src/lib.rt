//! What every front of a lawful history keeps, whoever wrote it.
//!
//! This layer stands on the definitions in `rail_rules`. It says what it means that a line may follow a
//! front (`specs/Views.antt`), names the event lines by train, move and step (`specs/EventLines.antt`), and
//! states what the laws need of a plant (`specs/Premises.antt`). Each law is the contract of a function
//! without code. The lemmas that the crates above cite stand in `proofs/CallerLemmas.antt`; a change of a
//! view is a change of all of them, all else in `proofs/` may be changed freely.
#![tactic(auto)]

mod invariant;
mod lines;

pub use invariant::{
    a_section_is_freed_after_its_interval, an_admission_adds_only_its_next_ready_line_at_once,
    blocking_intervals_never_overlap, no_line_is_ever_late, open_intervals_are_the_standing_sets,
    ready_lines_stand_or_are_due, the_kept_list_completes, the_places_are_valid, times_do_not_fall,
};
pub use lines::{a_line_follows_in_one_of_four_ways, an_accepted_plant_is_well_formed};
