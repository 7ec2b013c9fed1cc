//! Delays by cause: how late the trains of a run are, how long each was held and for which kind of cause.
//!
//! This layer stands on plants (`rail_plan`), on sinks (`rail_io`), on the room for a line of `rail_text`, and for
//! its laws on the lemmas on lawful fronts (`rail_laws_front`, `rail_laws_events`, `rail_laws_step`). `specs/Waits.antt`
//! and `specs/Visits.antt` say what is counted, from the lines of a history alone, and `specs/Reports.antt` how it is
//! written. The lines are noted one by one, as they come; contracts see what is kept of them as a list of accounts and one of visits.
//!
//! What is kept may be changed as long as the contracts hold. What may not change is that only `Delays::new` takes
//! memory, and that a line costs no look at other trains than its own, but for the end line.
#![tactic(auto)]

mod account;
mod delays;
mod laws;
mod lines;
mod report;
mod totals;
mod visits;

pub use delays::Delays;
pub use laws::{
    a_lawful_front_is_in_order, held_for_a_kind_is_the_sum_of_the_spans_of_its_hold_lines,
    held_is_the_sum_of_the_four_kinds, held_is_the_sum_of_the_waits_for_moves,
};
pub use lines::put_count;
pub use report::write_report;
