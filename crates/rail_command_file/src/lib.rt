//! Command files: the commands that they spell.
//!
//! This layer stands on the plain data of `rail_base`, and on the lines, words, numbers and times of `rail_text`; what a
//! command may order is defined in `rail_rules`. `specs/Commands.antt` says what a command file means and where it is
//! refused. Every program here answers exactly to it; how a line is read may be changed freely. Memory is taken for the
//! commands alone.
#![tactic(auto)]

mod commands;
mod orders;

pub use commands::read_commands;
