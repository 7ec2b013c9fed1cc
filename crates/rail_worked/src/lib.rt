//! Worked rows: small inputs with the histories that were computed for them by hand, on which the
//! definitions of a lawful run are evaluated, and histories that break a rule. It stands on the definitions alone; the
//! instances of the laws in `rail_tests_runs`, the worked stairways and the worked reports stand on it. The lines are written
//! by `tools/pages/write_rows.py` from `examples/`; a history is changed there and never here.
#![tactic(auto)]

mod analysis_row;
mod cancelled_row;
mod cancelled_too_late_row;
mod closed_section_row;
mod deadlock_avoided_row;
mod following_row;
mod go_and_stop_row;
mod interval_rows;
mod loop_row;
mod one_train_row;
mod overlap_kept_row;
mod overlap_list_row;
mod overlap_row;
mod policies_row;
mod refuted_rows;
mod stop_and_go_row;
mod turn_row;

pub use analysis_row::a_free_leg_is_needed;
pub use cancelled_row::a_cancelled_train;
pub use cancelled_too_late_row::a_train_cancelled_too_late;
pub use closed_section_row::a_closed_section_ends_the_run;
pub use deadlock_avoided_row::a_deadlock_avoided;
pub use following_row::a_train_follows_another;
pub use go_and_stop_row::go_then_stop_at_one_instant;
pub use interval_rows::{a_stairway, intervals_of_overlaps, the_parts_of_a_standing_interval};
pub use loop_row::two_trains_pass_at_a_loop;
pub use one_train_row::one_train_over_three_sections;
pub use overlap_kept_row::an_overlap_until_its_timer_runs_out;
pub use overlap_list_row::a_list_over_claims;
pub use overlap_row::an_overlap_taken_over;
pub use policies_row::policies_exchanged_and_retired;
pub use refuted_rows::{
    a_cancelled_train_is_never_ready, a_new_cause_is_told_at_once, a_release_begins_a_new_round,
    a_section_is_not_free_as_the_head_leaves_it,
};
pub use stop_and_go_row::stop_then_go_at_one_instant;
pub use turn_row::a_turn_that_waits_for_its_own_tail;
