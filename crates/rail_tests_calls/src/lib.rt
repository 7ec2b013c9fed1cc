//! Tests of the public calls of single crates: each call on its happy path, and the refusals that no
//! worked row shows. Tracks, networks and scenes have theirs in `rail_tests_scenes`, what reads the other files and what
//! tells of a run in `rail_tests_reports`.
//!
//! They stand here and not beside the calls because a crate with tests is proved twice, and every test
//! function is proved too. The expected values come from the rules of operation in `docs/OPERATION.md` and
//! from `docs/FORMATS.md`, never from the program. Nothing stands on this crate.
#![tactic(auto)]

#[cfg(test)]
mod analysis;
#[cfg(test)]
mod chains;
#[cfg(test)]
mod cores;
#[cfg(test)]
mod events;
#[cfg(test)]
mod failures;
#[cfg(test)]
mod ground;
#[cfg(test)]
mod holders;
#[cfg(test)]
mod kept_lists;
#[cfg(test)]
mod lines;
#[cfg(test)]
mod plants;
#[cfg(test)]
mod policies;
#[cfg(test)]
mod sets;
#[cfg(test)]
mod shelves;
