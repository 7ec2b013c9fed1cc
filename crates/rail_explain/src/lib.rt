//! What the program tells in a planner's words: what a refusal means, in one line that says in which file it lies, at which
//! item and which key, and what was expected there; which law a history breaks; and how the forms are typed.
//!
//! This layer stands on `rail_command_line` for the table of the forms and the files of a request, on `rail_scene` for the keys of
//! a scene file and the names of its items, and on `rail_text` for the room of a line. The program prints such lines on
//! standard error before the status text, and the forms on standard output where it is asked for help; nothing of it is
//! read again, and no answer depends on it. What is said of a refusal is the definition `explanation` in
//! `specs/Explanations.antt`, over the tables of `specs/Places.antt` and `specs/Meanings.antt`: who changes a text changes it
//! there too. The other words may be changed freely; what may not is that a line is no longer than its clause says.
#![tactic(auto)]

mod calls;
mod details;
mod expectations;
mod files;
mod help;
mod kept_files;
mod places;
mod policies;
mod reasons;
mod refusals;
mod terminals;
mod verdicts;

pub use details::detail;
pub use files::file_of;
pub use help::{HELP_BEFORE, HELP_BEHIND, OTHER_FORMS, VERSION, help_line, usage, usage_with_hint};
pub use kept_files::KeepingShelf;
pub use policies::write_unknown_policies;
pub use refusals::{MOST, explained, write_read_fault, write_refusal};
pub use terminals::write_shown;
pub use verdicts::law_text;
