//! The rows: command lines with their files, and what the rules of operation answer to each: by hand, or as a row says by another program.
//!
//! This program stands on the top call of `rail_top` and on shelves and sinks in memory. It reads the files of rows that
//! its words name, asks the top call each row, and prints how many rows of each file are answered as they say;
//! of a row that is answered otherwise it prints what was answered. How a row is written stands at the head of
//! `data/pieces.rows`. The rows are data: a row more needs no proof. What is printed is compared with the file
//! `stdout` by the gate, as two compilers build this program; the rows of `data/witness.rows` are wrong on purpose, so
//! that a comparison that always says yes would be seen there.
#![tactic(auto)]

mod answers;
mod decks;
mod files;
mod rows;
mod tables;

use rail_base::limits::FILE_BYTES;
use rail_io::{FileShelf, read_whole};
use std::env;
use std::process::ExitCode;
use std::rt::HostRuntime;
use tables::{Table, tell_table};

fn main(rt: HostRuntime) -> ExitCode {
    match tell_tables(&rt) {
        Some(()) => ExitCode::SUCCESS,
        None => ExitCode::FAILURE,
    }
}

/// Prints what comes of each table that a word of the command line names; `None` where one can't be read or printed.
fn tell_tables(rt: &HostRuntime) -> Option<()> {
    let alloc = rt.alloc();
    let mut pieces = Vec::new(alloc);
    for name in env::args(rt).ok()?.skip(1) {
        let mut shelf = FileShelf::new(rt);
        let bytes = read_whole(alloc, &mut shelf, name.as_str(), FILE_BYTES).ok()?;
        let table = Table {
            name: name.as_str(),
            text: str::from_utf8(&bytes).ok()?,
        };
        let told = tell_table(alloc, &mut pieces, table).ok()?;
        rt.print(told.as_str()).ok()?;
    }
    Some(())
}
