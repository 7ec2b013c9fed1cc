//! A file of rows: its pieces are kept, and its rows asked.

use crate::files::{file, number, numbered, push_written};
use crate::rows::Row;
use rail_io::File;
use std::alloc::{AllocError, Global};

/// A file of rows.
#[derive(Clone, Copy)]
pub struct Table<'a> {
    pub name: &'a str,
    pub text: &'a str,
}

/// Asks each row of the table, and keeps its pieces for it and for the tables behind it. The text tells each row that is
/// answered otherwise than it says, and how many rows are answered as they say.
pub fn tell_table(
    alloc: Global,
    pieces: &mut Vec<File>,
    table: Table,
) -> Result<String, AllocError> {
    let mut told = String::new(alloc);
    let (mut rows, mut wrong) = (0u32, 0u32);
    for block in table.text.split("\n== ").skip(1) {
        let (head, lines) = block.split_once("\n").unwrap_or((block, ""));
        match head.strip_prefix("piece ") {
            Some(name) => {
                let piece = piece_of(alloc, pieces, name, lines)?;
                pieces.push(piece)?;
            }
            None => {
                rows = rows.saturating_add(1);
                if !tell_rows(alloc, pieces, head, lines, &mut told)? {
                    wrong = wrong.saturating_add(1);
                }
            }
        }
    }
    let right = rows.saturating_sub(wrong);
    let name = table.name;
    write!(
        told,
        "{name}: {right} of {rows} rows are answered as they say\n"
    )?;
    Ok(told)
}

/// The piece of these lines.
fn piece_of(alloc: Global, pieces: &[File], name: &str, lines: &str) -> Result<File, AllocError> {
    let mut bytes = Vec::new(alloc);
    for line in lines.lines() {
        push_written(pieces, &mut bytes, line)?;
    }
    file(alloc, name, bytes)
}

/// Asks a row of these words: where its lines begin with `each FIRST LAST`, for each of these numbers, which stands in place
/// of each `@` of the others. False where one is answered otherwise than its lines say, which is told then.
fn tell_rows(
    alloc: Global,
    pieces: &mut Vec<File>,
    words: &str,
    lines: &str,
    told: &mut String,
) -> Result<bool, AllocError> {
    let Some((numbers, lines)) = lines
        .strip_prefix("each ")
        .and_then(|rest| rest.split_once("\n"))
    else {
        return tell_row(alloc, pieces, words, lines, told);
    };
    let (first, last) = numbers.split_once(" ").unwrap_or(("1", "0"));
    let mut is_right = number(first) <= number(last);
    for each in number(first)..=number(last) {
        let lines = numbered(alloc, lines, "@", each)?;
        if !tell_row(alloc, pieces, words, lines.as_str(), told)? {
            is_right = false;
        }
    }
    Ok(is_right)
}

/// Asks a row of these words, and adds the outputs that it keeps to the pieces. False where it is answered otherwise than its
/// lines say, which is told then.
fn tell_row(
    alloc: Global,
    pieces: &mut Vec<File>,
    words: &str,
    lines: &str,
    told: &mut String,
) -> Result<bool, AllocError> {
    let mut row = Row::new(alloc, words);
    for line in lines.lines() {
        row.take(pieces, line, told)?;
    }
    drop(row.ask(told)?);
    let (is_right, kept) = row.into_parts();
    for piece in kept {
        pieces.push(piece)?;
    }
    Ok(is_right)
}
