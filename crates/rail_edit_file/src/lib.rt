//! Edit files: the edits that their lines spell, made line by line, and a scene after them.
//!
//! This layer stands on `rail_edit` for the editor, on `rail_text` for lines and words, and on `rail_scene`
//! and `rail_compile` for scenes. `specs/EditLines.antt` says what a line asks for, `specs/EditFiles.antt` what
//! a file makes of a network and where it is refused, and `specs/EditedScenes.antt` the same of a scene. Every
//! program here answers exactly to these; how lines are cut and read may be changed freely.
#![tactic(auto)]

mod lists;
mod making;
mod scenes;
mod spelling;
mod words;

pub use making::edit_network;
pub use scenes::edit_scene;
