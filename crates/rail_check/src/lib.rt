//! The checker: whether a history is lawful to its end, or which line is the first that may not follow.
//!
//! This layer stands on the ledger of a run (`rail_ledger`), which judges a line by what it keeps, on the verdict as
//! the definitions have it (`rail_laws_verdict`), and on the lines of a file (`rail_history`). `check_file` makes a
//! ledger of its own and hands it the lines one by one; it reads a line only where the file does not have the text of the
//! line that is due. It runs no engine, has no desk and asks no policy: who goes first among the trains that could be admitted is free in a lawful history. The body may be changed
//! freely, and so may all proofs. What may not change is that the answer is the verdict, that a file is refused as
//! `read_history` refuses it, and that a line costs what it touches.
#![tactic(auto)]

mod checker;
mod file;
mod laws;
mod verdict;

pub use file::check_file;
pub use laws::a_printed_run_is_answered_yes;
pub use verdict::Verdict;
