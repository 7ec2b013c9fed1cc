//! Tests that cross crates: worked rows from a scene file to the values of calls of several crates, and instances of the
//! laws: on worked histories their premises hold, so no law speaks of nothing.
//!
//! Each call is proved to meet its contract; a row tells whether the contracts, put together, say what
//! was meant. What the top call answers stands as data in `rail_rows`. The expected values were worked out by hand from
//! the rules of operation in `docs/OPERATION.md`, and never come from the program. Nothing stands on this crate.
#![tactic(auto)]

mod laws;
#[cfg(test)]
mod running_times;
#[cfg(test)]
mod tests;

pub use laws::{the_deadlock_avoided_is_an_instance, the_loop_is_an_instance};
