//! A row: what is asked, over which files, and what is wanted.

use crate::answers::{
    Answer, Question, answer_to, has_pieces, is_done_or_refused, lines_beside_holds,
};
use crate::files::{file, is_written, number, push_pieces, push_written};
use rail_io::File;
use std::alloc::{AllocError, Global};
use std::mem;

/// A row, as far as its lines were taken.
#[derive(Drop)]
pub struct Row<'a> {
    alloc: Global,
    asked: Question<'a>,
    files: Vec<Text>,
    /// What is wanted, from the line of its status on.
    wanted: Option<Wanted<'a>>,
    /// Outputs that the tables behind may use as pieces.
    kept: Vec<File>,
    is_right: bool,
}

/// A file of the row, to which lines are added.
#[derive(Drop)]
struct Text {
    name: String,
    bytes: Vec<u8>,
}

/// What is wanted of an answer.
#[derive(Drop)]
struct Wanted<'a> {
    status: &'a str,
    /// The output in pieces, with any bytes between each two of them.
    output: Vec<Vec<u8>>,
    /// How many lines the output has that are no hold lines, where that is told.
    lines: Option<u32>,
    /// The name under which the output is kept, where that is told.
    kept_as: Option<&'a str>,
}

impl<'a> Row<'a> {
    /// The row that asks these words.
    pub fn new(alloc: Global, words: &'a str) -> Row<'a> {
        Row {
            alloc,
            asked: Question::plainly(words),
            files: Vec::new(alloc),
            wanted: None,
            kept: Vec::new(alloc),
            is_right: true,
        }
    }

    /// Whether all that was asked was answered as the row says, and the outputs that are kept as pieces.
    pub fn into_parts(self) -> (bool, Vec<File>) {
        (self.is_right, self.kept)
    }

    /// Takes a line of the row. What is answered otherwise than the row says is told.
    pub fn take(
        &mut self,
        pieces: &[File],
        line: &'a str,
        told: &mut String,
    ) -> Result<(), AllocError> {
        if line.is_empty() || line.starts_with("# ") {
            return Ok(());
        }
        if let Some(words) = line.strip_prefix("then ") {
            return self.go_on(words, told);
        }
        let is_taken = match &mut self.wanted {
            Some(wanted) => wanted.take(pieces, line)?,
            None => self.take_asked(pieces, line)?,
        };
        if !is_taken {
            self.is_right = false;
            write!(told, "no line of a row: {line}\n")?;
        }
        Ok(())
    }

    /// Takes a line before what is wanted. False where it is none.
    fn take_asked(&mut self, pieces: &[File], line: &'a str) -> Result<bool, AllocError> {
        if let Some(status) = line.strip_prefix("> ") {
            self.wanted = Some(Wanted::new(self.alloc, status)?);
            return Ok(true);
        }
        if let Some(asked) = self.asked.with(line) {
            self.asked = asked;
            return Ok(true);
        }
        if let Some(count) = line.strip_prefix("cut ") {
            return Ok(self.cut(number(count) as usize));
        }
        match self.files.last_mut() {
            Some(text) if is_written(line) => push_written(pieces, &mut text.bytes, line),
            _ => {
                match line.split_once(":") {
                    Some((name, names)) => self.begin_file(pieces, name, names),
                    None => Ok(false),
                }
            }
        }
    }

    /// Keeps so many bytes at the front of the file that was begun. False where none was.
    fn cut(&mut self, count: usize) -> bool {
        match self.files.last_mut() {
            Some(text) => {
                text.bytes.truncate(count);
                true
            }
            None => false,
        }
    }

    /// Begins the file of this name with the pieces of these names. False where one is not there.
    fn begin_file(&mut self, pieces: &[File], name: &str, names: &str) -> Result<bool, AllocError> {
        let mut bytes = Vec::new(self.alloc);
        let is_begun = push_pieces(pieces, &mut bytes, names)?;
        let name = String::from_str(self.alloc, name)?;
        self.files.push(Text { name, bytes })?;
        Ok(is_begun)
    }

    /// Asks what was taken, and then these words, for which the output is the file `output`.
    fn go_on(&mut self, words: &'a str, told: &mut String) -> Result<(), AllocError> {
        let output = self.ask(told)?;
        self.asked = Question::plainly(words);
        self.files.push(Text {
            name: String::from_str(self.alloc, "output")?,
            bytes: output.into_bytes(),
        })?;
        Ok(())
    }

    /// Asks what was taken, and gives the output. What is answered otherwise than the row says is told.
    pub fn ask(&mut self, told: &mut String) -> Result<String, AllocError> {
        let files = self.take_files()?;
        let answer = answer_to(self.alloc, self.asked, files)?;
        let is_right = match self.wanted.take() {
            Some(wanted) => {
                if let Some(name) = wanted.kept_as {
                    let bytes = answer.output.clone()?.into_bytes();
                    self.kept.push(file(self.alloc, name, bytes)?)?;
                }
                wanted.is_met(&answer)
            }
            None => false,
        };
        if !is_right {
            self.is_right = false;
            let words = self.asked.words;
            write!(told, "== {words}\n> {}\n{}", answer.status, answer.output)?;
        }
        Ok(answer.output)
    }

    /// The files that were taken, which are gone then.
    fn take_files(&mut self) -> Result<Vec<File>, AllocError> {
        let mut files = Vec::new(self.alloc);
        for text in mem::replace(&mut self.files, Vec::new(self.alloc)) {
            let Text { name, bytes } = text;
            files.push(file(self.alloc, name.as_str(), bytes)?)?;
        }
        Ok(files)
    }
}

impl<'a> Wanted<'a> {
    /// The status of this text is wanted, and no output.
    fn new(alloc: Global, status: &'a str) -> Result<Wanted<'a>, AllocError> {
        Ok(Wanted {
            status,
            output: vec![in alloc; Vec::new(alloc)]?,
            lines: None,
            kept_as: None,
        })
    }

    /// Takes a line of what is wanted. False where it is none.
    fn take(&mut self, pieces: &[File], line: &'a str) -> Result<bool, AllocError> {
        if line == "..." {
            self.output.push(Vec::new(*self.output.allocator()))?;
            return Ok(true);
        }
        if let Some(count) = line.strip_prefix("lines ") {
            self.lines = Some(number(count));
            return Ok(true);
        }
        if let Some(name) = line.strip_prefix("keep ") {
            self.kept_as = Some(name);
            return Ok(true);
        }
        match self.output.last_mut() {
            Some(part) => push_written(pieces, part, line),
            None => Ok(false),
        }
    }

    /// Whether the answer is the one that is wanted.
    fn is_met(&self, answer: &Answer) -> bool {
        if let Some(most) = self.status.strip_prefix("done or refused 1 to ") {
            return is_done_or_refused(answer, number(most));
        }
        answer.status.as_str() == self.status
            && has_pieces(answer.output.as_str(), &self.output)
            && match self.lines {
                Some(lines) => lines_beside_holds(answer.output.as_str()) == lines as usize,
                None => true,
            }
    }
}
