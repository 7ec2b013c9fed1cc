//! Which train holds each section, while a run goes on.
//!
//! This layer stands on the plain data of `rail_base` alone: a finite map from sections to trains, which
//! contracts see as the list of the holders by section number. A section is taken by one train at a time,
//! and is given free before the next train takes it. The table may be kept in another way as long as the
//! contracts hold. What may not change is that only `new` takes memory, and that each other call costs one
//! look at the table, `first_held` one for each section that it looks at.
#![tactic(auto)]

mod holders;

pub use holders::Holders;
