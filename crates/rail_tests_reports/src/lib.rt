//! Tests of the public calls that read command files, timetables and history files, and of those that tell of a run:
//! its delays, how full a line is, where further trains fit, and refusals in a planner's words. Each call on its happy path, and the refusals
//! that no worked row shows.
//!
//! They stand here and not beside the calls because a crate with tests is proved twice, and every test
//! function is proved too; and apart from `rail_tests_calls`, so that two processes can prove them side by side. The
//! expected values come from the rules of operation in `docs/OPERATION.md` and from `docs/FORMATS.md`, never from the
//! program. Nothing stands on this crate.
#![tactic(auto)]

#[cfg(test)]
mod capacity;
#[cfg(test)]
mod commands;
#[cfg(test)]
mod explanations;
#[cfg(test)]
mod histories;
#[cfg(test)]
mod insertions;
#[cfg(test)]
mod reports;
#[cfg(test)]
mod timetables;
#[cfg(test)]
mod words;
