//! Scenes: what a scene file spells.
//!
//! This layer stands on `rail_routes` for networks; `rail_compile` makes the plant of a scene. The order in
//! which a scene is refused is one list of tests over the TOML tree, in `specs/`, apart from the code that
//! reads.
//!
//! A file is read in two passes over its tree: whether each table is of its form, and then the values,
//! item by item into the network, the kinds and the trains. Both go by the tables of keys in `keys`, those of
//! the version that the root names. The definitions have a table of their own, and contracts say that the two
//! agree: a key, its range or its default is changed in both. The layers above use the contracts of the public
//! calls alone, so the bodies may be changed freely.
#![tactic(auto)]

mod draft;
mod entries;
mod fields;
mod forms;
pub mod keys;
mod laws;
mod members;
mod naming;
mod places;
mod reading;
mod rosters;
mod scene;
mod versions;

pub use laws::the_number_of_an_item_is_told_as_it_is;
pub use naming::{item_name, item_table};
pub use reading::read_scene;
pub use scene::{Scene, SceneTrain};
pub use versions::Version;
