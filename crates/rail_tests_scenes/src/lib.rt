//! Tests of what a scene file is read from and edited by: tracks, networks, scenes and edit files, each public call on its happy path,
//! the refusals in their order, and the ends of each range and limit.
//!
//! They stand here and not beside the calls because a crate with tests is proved twice, and apart from
//! `rail_tests_calls` because every test function is proved too. The expected values come from
//! `docs/FORMATS.md` and from the rules of operation in `docs/OPERATION.md`, never from the program. Nothing
//! stands on this crate.
#![tactic(auto)]

#[cfg(test)]
mod edits;
#[cfg(test)]
mod networks;
#[cfg(test)]
mod scenes;
#[cfg(test)]
mod tracks;
