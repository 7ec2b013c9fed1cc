//! Snapshots: a run is saved after some of its lines, and goes on from them.
//!
//! This layer stands on the engine of a run (`rail_engine`), which gives the next line of a run and follows one that was
//! made before, and on the texts of histories (`rail_history`). A snapshot is a header and the text of the lines so far; no
//! state is kept beside them. `write_lines` is the one loop that hands on lines, behind whatever front; `save` is the header
//! and that loop, and what goes on behind a snapshot is that loop behind the engine that `resume` gives back. The definitions
//! stand in `specs/Snapshots.antt`, and how far was written in `specs/WrittenLines.antt`. Bodies and proofs may be changed
//! freely. What may not change is that a snapshot whose lines are not those of a run of this input is refused at the first
//! line with which they are none, and that only `resume` takes memory.
#![tactic(auto)]

mod laws;
mod lines;
mod resuming;
mod saving;

pub use laws::{
    a_file_with_an_unread_line_is_no_snapshot, a_saved_run_is_resumed,
    a_snapshot_has_one_list_of_lines, lines_are_followed_or_one_is_the_first_other,
};
pub use lines::write_lines;
pub use resuming::resume;
pub use saving::save;
