//! What the top call answers, and whether it is what is wanted.

use crate::decks::{self, BUILT_IN, Deck};
use crate::files::{number, word};
use rail_base::Word;
use rail_io::{DripShelf, DripSink, File, MemoryShelf, MemorySink, Shelf};
use rail_top::Status;
use std::alloc::{AllocError, Global};

/// The most bytes that an output may have.
const ROOM: usize = 4_194_304;

/// A command line, with the policies that are handed in and the calls of the shelf and of the sink that fail.
#[derive(Clone, Copy)]
pub struct Question<'a> {
    /// The words; `""` stands for the empty word.
    pub words: &'a str,
    pub deck: Deck<'a>,
    /// The number of the call of the shelf that fails, from 1; 0 for none.
    pub shelf_fails: u64,
    /// The number of the call of the sink that fails, from 1; 0 for none.
    pub sink_fails: u64,
    /// Whether each call of the shelf and of the sink moves one byte; then none fails.
    pub is_dripping: bool,
    /// Whether it is asked twice, to be answered the same.
    pub is_twice: bool,
}

impl<'a> Question<'a> {
    /// The words with the policies of the program, on a shelf and a sink that do not fail.
    pub fn plainly(words: &'a str) -> Question<'a> {
        Question {
            words,
            deck: Deck::Named(BUILT_IN),
            shelf_fails: 0,
            sink_fails: 0,
            is_dripping: false,
            is_twice: false,
        }
    }

    /// The same with what the line says, if it says how the words are asked.
    pub fn with(self, line: &'a str) -> Option<Question<'a>> {
        let (key, value) = line.split_once(" ").unwrap_or((line, ""));
        let mut asked = self;
        match key {
            "shelf" => asked.shelf_fails = value.parse().ok()?,
            "sink" => asked.sink_fails = value.parse().ok()?,
            "drip" => asked.is_dripping = true,
            "deck" => asked.deck = Deck::Named(value),
            "odd" => asked.deck = Deck::Odd,
            "counting" => asked.deck = Deck::Counting,
            "twice" => asked.is_twice = true,
            _ => return None,
        }
        Some(asked)
    }
}

/// An answer: the text of its status, which is `done` where that is empty, and the output.
#[derive(Drop)]
pub struct Answer {
    pub status: String,
    pub output: String,
}

/// What the top call answers over these files.
pub fn answer_to(alloc: Global, asked: Question, files: Vec<File>) -> Result<Answer, AllocError> {
    if asked.is_dripping {
        return answer_over(alloc, asked, &mut DripShelf::new(files));
    }
    let fails = vec![in alloc; asked.shelf_fails]?;
    answer_over(alloc, asked, &mut MemoryShelf::new(files, fails))
}

/// What the top call answers over the shelf, to the second asking where it is asked twice.
fn answer_over<S: Shelf>(
    alloc: Global,
    asked: Question,
    shelf: &mut S,
) -> Result<Answer, AllocError> {
    let once = ask(alloc, asked, shelf)?;
    if !asked.is_twice {
        return Ok(once);
    }
    let again = ask(alloc, asked, shelf)?;
    if again.output.as_str() == once.output.as_str() {
        return Ok(again);
    }
    Ok(Answer {
        status: String::from_str(alloc, "another output the second time")?,
        output: again.output,
    })
}

/// What the top call answers over the shelf.
fn ask<S: Shelf>(alloc: Global, asked: Question, shelf: &mut S) -> Result<Answer, AllocError> {
    let words = words_of(alloc, asked.words)?;
    if asked.is_dripping {
        let Ok(mut sink) = DripSink::with_room(alloc, ROOM) else {
            return Err(AllocError);
        };
        let status = decks::ask(alloc, &words, shelf, &mut sink, asked.deck)?;
        return answer_of(alloc, status, sink.bytes());
    }
    let Ok(mut sink) = MemorySink::with_room(alloc, ROOM, vec![in alloc; asked.sink_fails]?) else {
        return Err(AllocError);
    };
    let status = decks::ask(alloc, &words, shelf, &mut sink, asked.deck)?;
    answer_of(alloc, status, sink.bytes())
}

/// The answer with this status and these bytes as output.
fn answer_of(alloc: Global, status: Status, bytes: Option<&[u8]>) -> Result<Answer, AllocError> {
    Ok(Answer {
        status: status_text(alloc, status)?,
        output: text_of(alloc, bytes)?,
    })
}

fn words_of(alloc: Global, line: &str) -> Result<Vec<Word>, AllocError> {
    let mut words = Vec::new(alloc);
    for text in line.split_whitespace() {
        words.push(word(alloc, if text == "\"\"" { "" } else { text })?)?;
    }
    Ok(words)
}

fn status_text(alloc: Global, status: Status) -> Result<String, AllocError> {
    let mut text = [0; 64];
    let length = status.text(&mut text);
    if length == 0 {
        return String::from_str(alloc, "done");
    }
    text_of(alloc, Some(&text[..length]))
}

/// The bytes as text, where they are some.
fn text_of(alloc: Global, bytes: Option<&[u8]>) -> Result<String, AllocError> {
    let text = bytes.and_then(|bytes| str::from_utf8(bytes).ok());
    String::from_str(alloc, text.unwrap_or("no text"))
}

/// Whether the answer is that of status 0, or one that is refused with a number from 1 to `most`, and without output.
pub fn is_done_or_refused(answer: &Answer, most: u32) -> bool {
    match answer.status.strip_prefix("refused ") {
        Some(refusal) => {
            let (refused, _) = refusal.split_once(" ").unwrap_or((refusal, ""));
            answer.output.is_empty() && (1..=most).contains(&number(refused))
        }
        None => answer.status.as_str() == "done",
    }
}

/// Whether the output is what is wanted: these pieces, with any bytes between each two of them.
pub fn has_pieces(output: &str, wanted: &[Vec<u8>]) -> bool {
    match wanted {
        [] => false,
        [whole] => output.as_bytes() == whole.as_slice(),
        [first, middle @ .., last] => match output.strip_prefix(text(first)) {
            Some(rest) => match behind_each(rest, middle) {
                Some(rest) => rest.ends_with(text(last)),
                None => false,
            },
            None => false,
        },
    }
}

/// What stands behind the pieces in the text, each sought behind the one before; `None` where one is not there.
fn behind_each<'a>(output: &'a str, pieces: &[Vec<u8>]) -> Option<&'a str> {
    let mut rest = output;
    for piece in pieces {
        rest = match rest.split_once(text(piece)) {
            Some((_, behind)) => behind,
            None => return None,
        };
    }
    Some(rest)
}

/// The bytes as text; what no output has where they are none.
fn text(bytes: &[u8]) -> &str {
    str::from_utf8(bytes).unwrap_or("\u{0}")
}

/// How many lines the output has that are no hold lines.
pub fn lines_beside_holds(output: &str) -> usize {
    let lines = output.matches("\n").count();
    lines.saturating_sub(output.matches(" hold ").count())
}
