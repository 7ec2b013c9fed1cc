//! How histories end: nobody is stuck, what remains waits for an order, every front can be continued, and one
//! input has one run history but for the lists that the analysis finds.
//!
//! This layer stands on `rail_laws_events` and on `rail_laws_list`. Each law is the contract of a function without
//! code. The lemmas that the crates above cite stand in `proofs/CallerLemmas.antt`; all else in `proofs/` may be
//! changed freely.
#![tactic(auto)]

mod completion;
mod continuation;
mod uniqueness;

pub use completion::{
    a_cancelled_train_is_never_admitted, a_history_of_trains_that_all_leave_has_so_many_lines,
    at_the_end_every_train_is_out_or_cancelled, at_the_end_the_first_of_the_kept_list_is_barred,
    the_end_line_names_nobody, the_head_of_the_kept_list_waits_without_a_cause,
    what_remains_waits_for_an_order, with_nobody_inside_an_entering_train_completes_alone,
};
pub use continuation::{
    a_front_that_has_not_ended_has_a_next_line, every_lawful_front_can_be_continued,
};
pub use uniqueness::{a_run_that_goes_on_has_the_text_of_the_whole, one_history};
