//! The top call: what a command line asks for, from the bytes of its files to the bytes of its answer.
//!
//! This layer stands on the forms (`rail_forms`) and on the table of words (`rail_command_line`): `rail` in `src/top.rt` hands
//! the words to their form, and its contract is the promise of the program. What each form answers, and what it
//! promises of the files and of the output, is defined beside the forms; `specs/Forms.antt` has the table of the forms,
//! and says when a command is done. The contract of `rail` is relied upon; how a request is handed on may be changed
//! freely.
#![tactic(auto)]

mod laws;
mod top;

pub use laws::{a_printed_run_is_checked_with_yes, a_saved_run_is_resumed};
pub use rail_forms::Status;
pub use top::rail;
