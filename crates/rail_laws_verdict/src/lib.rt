//! Judging: which law a line breaks that may not follow a front, and the verdict on a history.
//!
//! This layer stands on the definitions of `rail_rules` and on the laws of how histories end. The seven laws stand
//! each by itself in `specs/Laws.antt`; `specs/Verdicts.antt` says which of them is named and what the verdict on a
//! history is. It has definitions and laws alone: a checker rests on them. Each law is the contract of a function
//! without code. The lemmas that the crates above cite stand in `proofs/CallerLemmas.antt`; all else in `proofs/` may
//! be changed freely.
#![tactic(auto)]

mod laws;

pub use laws::{
    a_history_is_judged, a_line_may_follow_where_no_law_applies, a_yes_is_a_lawful_history,
    one_line_beside_admissions_may_follow, the_law_that_is_named_is_the_least,
    where_a_train_could_go_only_admissions_follow,
    where_another_line_follows_nothing_is_left_to_decide,
};
