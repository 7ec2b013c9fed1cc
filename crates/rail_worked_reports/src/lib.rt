//! Worked reports: what is printed of worked histories, on which the definitions of these texts are evaluated.
//!
//! This layer stands on the histories of `rail_worked`, and on the definitions of the texts of stairways
//! (`rail_stairs`), of reports (`rail_delay`) and of insertions (`rail_insert`). Nothing stands on it. Each function has
//! one worked text as its contract, which was computed by hand from the rules; a text is changed only where the rules are.
#![tactic(auto)]

mod delays;
mod insertions;
mod stairways;

pub use delays::{
    a_report_of_a_cancelled_train, a_report_of_a_closed_section, a_report_of_a_deadlock_avoided,
};
pub use insertions::worked_insertions;
pub use stairways::{worked_overlaps, worked_stairways};
