//! The files of a row, and what is wanted of its output: texts that are put together line by line.

use rail_base::{Seq, Word};
use rail_io::File;
use std::alloc::{AllocError, Global};

/// The name as a word.
pub fn word(alloc: Global, text: &str) -> Result<Word, AllocError> {
    Ok(Word::from_string(String::from_str(alloc, text)?))
}

/// The file of this name with these bytes.
pub fn file(alloc: Global, name: &str, bytes: Vec<u8>) -> Result<File, AllocError> {
    Ok(File {
        name: word(alloc, name)?,
        bytes: Seq::from_vec(bytes),
    })
}

/// Adds the pieces of these names. False where one is not there.
pub fn push_pieces(pieces: &[File], bytes: &mut Vec<u8>, names: &str) -> Result<bool, AllocError> {
    for name in names.split_whitespace() {
        match piece(pieces, name) {
            Some(piece) => bytes.extend_from_slice(piece)?,
            None => return Ok(false),
        }
    }
    Ok(true)
}

/// The piece of this name; of `NAME<NUMBER` its lines before the line with this number, from 1.
fn piece<'a>(pieces: &'a [File], name: &str) -> Option<&'a [u8]> {
    let (name, line) = match name.split_once("<") {
        Some((name, line)) => (name, Some(number(line))),
        None => (name, None),
    };
    for piece in pieces {
        if piece.name.as_str() == name {
            let bytes = piece.bytes.as_slice();
            return match line {
                Some(line) => Some(lines_before(bytes, line)),
                None => Some(bytes),
            };
        }
    }
    None
}

/// The lines before the line with this number, from 1.
fn lines_before(bytes: &[u8], line: u32) -> &[u8] {
    let mut number = 1;
    for (index, byte) in bytes.iter().enumerate() {
        if number >= line {
            return &bytes[..index];
        }
        if *byte == b'\n' {
            number += 1;
        }
    }
    bytes
}

/// Whether the line begins as one that adds to a text.
pub fn is_written(line: &str) -> bool {
    line.starts_with("|")
        || line.starts_with("*")
        || line.starts_with("~")
        || line.starts_with("+ ")
}

/// Adds what a line of a row stands for: `|TEXT` is a line with its line feed, `*COUNT|TEXT` so many lines with their number
/// from 0 in place of each `#` (as `numbered` has it), `~COUNT|TEXT` the text so often, without line feeds, and `+ PIECE PIECE` pieces. False
/// where it is none of these.
pub fn push_written(pieces: &[File], bytes: &mut Vec<u8>, line: &str) -> Result<bool, AllocError> {
    if let Some(names) = line.strip_prefix("+ ") {
        return push_pieces(pieces, bytes, names);
    }
    let Some((count, text)) = line.split_once("|") else {
        return Ok(false);
    };
    if count.is_empty() {
        push_line(bytes, text)?;
    } else if let Some(count) = count.strip_prefix("*") {
        push_lines(bytes, number(count), text)?;
    } else if let Some(count) = count.strip_prefix("~") {
        push_copies(bytes, number(count), text)?;
    } else {
        return Ok(false);
    }
    Ok(true)
}

/// Adds a line. In it `\xHH` stands for a byte, and a `\` at its end for no line feed.
fn push_line(bytes: &mut Vec<u8>, line: &str) -> Result<(), AllocError> {
    match line.strip_suffix("\\") {
        Some(line) => push_text(bytes, line),
        None => {
            push_text(bytes, line)?;
            bytes.push(b'\n')?;
            Ok(())
        }
    }
}

fn push_text(bytes: &mut Vec<u8>, text: &str) -> Result<(), AllocError> {
    for (index, part) in text.split("\\x").enumerate() {
        if index == 0 {
            bytes.extend_from_slice(part.as_bytes())?;
        } else {
            push_escaped(bytes, part)?;
        }
    }
    Ok(())
}

/// Adds the byte of the two hexadecimal digits with which the part begins, and the rest of the part.
fn push_escaped(bytes: &mut Vec<u8>, part: &str) -> Result<(), AllocError> {
    if let Some((digits, rest)) = part.split_at_checked(2) {
        bytes.push(u8::from_str_radix(digits, 16).unwrap_or(b'?'))?;
        bytes.extend_from_slice(rest.as_bytes())?;
    }
    Ok(())
}

fn push_lines(bytes: &mut Vec<u8>, count: u32, line: &str) -> Result<(), AllocError> {
    for number in 0..count {
        push_numbered(bytes, line, number)?;
    }
    Ok(())
}

/// Adds the line with the number in place of each `#`.
fn push_numbered(bytes: &mut Vec<u8>, line: &str, number: u32) -> Result<(), AllocError> {
    let text = numbered(*bytes.allocator(), line, "#", number)?;
    push_line(bytes, text.as_str())
}

/// The text with the number in place of each mark, and one more for each `+` behind the mark; with a `:` behind it the time
/// of day that is so many times ten minutes.
pub fn numbered(alloc: Global, text: &str, mark: &str, number: u32) -> Result<String, AllocError> {
    let mut told = String::new(alloc);
    for (index, part) in text.split(mark).enumerate() {
        if index == 0 {
            told.push_str(part)?;
        } else if let Some(rest) = part.strip_prefix(":") {
            let (tens, minutes) = (number / 60, number / 6 % 10);
            write!(told, "{tens}{minutes}:{}0:00{rest}", number % 6)?;
        } else {
            let (more, rest) = pluses(part);
            write!(told, "{}{rest}", number.saturating_add(more))?;
        }
    }
    Ok(told)
}

/// How many `+` stand at the front of the text, and what stands behind them.
fn pluses(text: &str) -> (u32, &str) {
    let count = text.bytes().take_while(|byte| *byte == b'+').count();
    match text.split_at_checked(count) {
        Some((_, rest)) => (u32::try_from(count).unwrap_or(0), rest),
        None => (0, text),
    }
}

fn push_copies(bytes: &mut Vec<u8>, count: u32, text: &str) -> Result<(), AllocError> {
    for _ in 0..count {
        push_text(bytes, text)?;
    }
    Ok(())
}

/// The number, or 0 where the text is none.
pub fn number(text: &str) -> u32 {
    text.parse().unwrap_or(0)
}
