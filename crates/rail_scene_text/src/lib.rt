//! A scene as text: a file that is read as the same scene.
//!
//! This layer stands on `rail_scene`, which reads scene files. The scene goes into a TOML table, which `toml` prints;
//! what is printed is read back as the table. The definitions in `specs/` say which table that is; contracts outside
//! this crate speak only of what the text is read as, so the table may be changed as long as it is read as the same
//! scene.
#![tactic(auto)]

mod laws;
mod rows;
mod tables;
mod values;
mod writing;

pub use laws::a_text_with_the_table_of_a_scene_is_read_as_the_scene;
pub use rows::a_table_without_a_key_spells_something_else;
pub use writing::write_scene;
