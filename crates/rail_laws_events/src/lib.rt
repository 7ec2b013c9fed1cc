//! Event lines and lines of commands: how many there are, in which order they come, and how far their
//! times reach.
//!
//! This layer stands on `rail_laws_front`. Its account of event lines says that those written and those to
//! come are together all of the admissions; from it come the bound on the lines of a history, that due lines
//! are distinct, that times fit 64 bits, and that commands come in their order. Each law is the contract of a
//! function without code. The lemmas that the crates above cite stand in `proofs/CallerLemmas.antt`; all else
//! in `proofs/` may be changed freely.
#![tactic(auto)]

mod account;
mod bound;
mod command_order;
mod due_lines;
mod times;

pub use account::{
    an_admission_adds_the_lines_of_its_move, an_event_line_is_no_longer_to_come,
    no_event_line_occurs_twice, other_lines_leave_what_is_to_come, the_account_of_event_lines,
    what_stands_is_an_event_line,
};
pub use bound::{a_history_has_at_most_so_many_lines, a_train_has_at_most_so_many_hold_lines};
pub use command_order::commands_come_in_order;
pub use due_lines::due_lines_are_distinct;
pub use times::times_stay_below_a_limit;
