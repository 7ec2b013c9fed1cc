//! The text of a history: its lines are written one by one, and a line is read back.
//!
//! This layer stands on `rail_io` for what is written to, and on the definitions of `rail_rules`, where
//! the text of a line is defined. It adds nothing to them: `specs/` says which names a plant has. A line
//! is put together in a room that the caller keeps, and handed on whole, as one piece, or piece by piece
//! where it names more trains than the room takes; how it is put together may be changed freely.
//!
//! A line is read by a guess: of bytes that are the text of a line, `likely_what` gives what the line says, and
//! of other bytes anything; whoever reads writes the line back and compares.
#![tactic(auto)]

mod bare_lines;
mod cutting;
mod file_lines;
mod files;
mod history_lines;
mod items;
mod laws;
mod lines;
mod lists;
mod read_line;
mod read_time;
mod read_trains;
mod read_what;
mod read_words;
mod trains;
mod words;
mod writing;
mod written_text;

pub use bare_lines::put_bare_line;
pub use file_lines::FileLines;
pub use files::{History, read_history};
pub use items::ListItem;
pub use laws::{
    a_file_has_one_first_wrong_line, a_file_is_a_history_or_has_a_first_wrong_line,
    a_file_with_a_wrong_line_is_no_history, a_history_file_has_one_history,
    a_lawful_history_may_stand_in_a_file,
};
pub use lines::Lines;
pub use read_line::ReadLine;
pub use read_what::likely_what;
pub use read_words::{HoldReason, Verb};
pub use writing::write_entry;
