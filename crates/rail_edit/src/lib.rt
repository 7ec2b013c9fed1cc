//! The editor: edits of a network, one after another, with undo and redo.
//!
//! This layer stands on `rail_routes` for networks and the rules by which their items are accepted.
//! `specs/Edits.antt` says what an edit makes of a network and why it is refused, and `specs/Editing.antt`
//! what an editor is: a network, and the edits that led to it. What is kept of an edit, so that it can be
//! taken back, may be changed freely: nothing is copied, an item moves between the network and the editor.
#![tactic(auto)]

mod edit;
mod editor;
mod laws;
mod making;
mod restoring;

pub use edit::Edit;
pub use editor::{EditFault, Editor};
pub use laws::{an_editor_stands_for_its_first_network, an_undo_gives_the_network_before};
