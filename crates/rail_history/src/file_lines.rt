//! The lines of a history file, read one by one.

ghost use Rattle.std.specs.Prelude.{◌≡◌, ◌≢◌, ◌==◌, ◌+◌, ◌-◌, ◌<◌, ◌≤◌, ◌^◌, [], ◌∷◌, ◌++◌, List, ℕ, IfOk, IfErr, IsTrue, OnOk, cond, false, length, position};
ghost use Rattle.std.specs.List.{list_any};
ghost use Rattle.rail_base.specs.declared.limits.TheConstants.{FRESH_LINES};
ghost use Rattle.rail_text.specs.Names.{HasNames};
ghost use Rattle.rail_history.specs.HistoryLines.{IsHistory, IsLine, IsSpelled, is_fresh};
ghost use Rattle.rail_history.specs.LineReads.{IsWrongLine, line_read};
ghost use Rattle.rail_history.specs.ReadFiles.{GoesOn, IsReadTo, IsReading, IsRefusedBehind, text_left};
ghost use Rattle.rail_rules.specs.Fronts.{Line};
ghost use Rattle.rail_rules.specs.Plant.{Plant};

use crate::lists::is_fresh;
use crate::read_line::{ReadLine, read_line};
use rail_base::limits::FRESH_LINES;
use rail_base::{Fault, Names, Reason};
use rail_text::refused_at;
use std::alloc::Global;

/// A history file of which the lines are read one by one. It is empty behind the last line.
#[derive(Drop)]
pub struct FileLines<'a> {
    /// What is left of the file.
    text: &'a [u8],
    /// How many lines were read.
    number: u32,
    /// How many of them have a fresh list.
    fresh: usize,
}

impl<'a> FileLines<'a> {
    /// The file of these bytes, of which no line was read.
    pub fn new(bytes: &'a [u8]) -> FileLines<'a>
        ensures front { (plant : Plant) → IsReadTo plant bytes.now [] result }
        ensures reading { length bytes.now < 2 ^ 32 - 1 → IsReading result }
    {
        FileLines {
            text: bytes,
            number: 0,
            fresh: 0,
        }
    }

    /// Whether all lines were read.
    pub fn is_empty(&self) -> bool
        ensures empty { IsTrue result → text_left self.now ≡ [] }
        ensures some { result ≡ false → text_left self.now ≢ [] }
        ensures whole { IsTrue result → (plant : Plant) (bytes : List ℕ) (lines : List Line)
            → IsReadTo plant bytes lines self.now → IsHistory plant bytes lines }
    {
        self.text.is_empty()
    }

    /// What is left of the file.
    pub fn text(&self) -> &[u8]
        ensures { result.now ≡ text_left self.now }
    {
        self.text
    }

    /// Reads the next line, for the sections and trains of these names. The file is refused where that is no line of a
    /// history, or has one fresh list too many.
    pub fn next_line(&mut self, alloc: Global, names: &Names) -> Result<ReadLine, Fault>
        requires trains { length names.now.trains.keys ≤ 2 ^ 16 }
        requires sections { length names.now.sections.keys ≤ 2 ^ 16 }
        requires reading { IsReading self.old }
        requires some { text_left self.old ≢ [] }
        ensures read { IfOk result (λ line. (plant : Plant) → HasNames plant names.now
            → GoesOn plant self.old self.new (line_read line)) }
        ensures reading { OnOk result (IsReading self.new) }
        ensures less { OnOk result (length (text_left self.new) < length (text_left self.old)) }
        ensures refused { IfErr result (IsRefusedBehind names.now self.old) }
    {
        self.number += 1;
        let (bytes, rest) = cut_line(self.text);
        let line = line_of(alloc, names, self.fresh, self.number, bytes)?;
        self.fresh += usize::from(is_fresh(&line.entry.what));
        self.text = rest;
        Ok(line)
    }

    /// Whether the file goes on with these bytes. Then they are passed as a line without a fresh list, and not read.
    pub fn pass(&mut self, bytes: &[u8]) -> bool
        requires reading { IsReading self.old }
        requires some { bytes.now ≢ [] }
        ensures passed { IsTrue result → (plant : Plant) (line : Line) → IsSpelled plant line bytes.now
            → is_fresh line.entry.what ≡ false → GoesOn plant self.old self.new line }
        ensures reading { IsReading self.new }
        ensures less { IsTrue result → length (text_left self.new) < length (text_left self.old) }
        ensures stays { result ≡ false → self.new ≡ self.old }
    {
        let Some(rest) = self.text.strip_prefix(bytes) else {
            return false;
        };
        self.text = rest;
        self.number += 1;
        true
    }

    /// Reads all lines that are left, for the sections and trains of these names, and keeps none. The file is refused as by
    /// `next_line`.
    pub fn read_rest(&mut self, alloc: Global, names: &Names) -> Result<(), Fault>
        requires trains { length names.now.trains.keys ≤ 2 ^ 16 }
        requires sections { length names.now.sections.keys ≤ 2 ^ 16 }
        requires reading { IsReading self.old }
        ensures read { OnOk result ((plant : Plant) → HasNames plant names.now → (bytes : List ℕ) (lines : List Line)
            → IsReadTo plant bytes lines self.old → (rest : List Line) × IsHistory plant bytes (lines ++ rest)) }
        ensures refused { IfErr result (IsRefusedBehind names.now self.old) }
    {
        while !self.is_empty() {
            let _line = self.next_line(alloc, names)?;
        }
        Ok(())
    }
}

/// The line of these bytes, which has this number, behind so many fresh lists.
fn line_of(
    alloc: Global,
    names: &Names,
    fresh: usize,
    number: u32,
    bytes: &[u8],
) -> Result<ReadLine, Fault>
    requires trains { length names.now.trains.keys ≤ 2 ^ 16 }
    requires sections { length names.now.sections.keys ≤ 2 ^ 16 }
    requires few { fresh ≤ FRESH_LINES }
    ensures read { IfOk result (λ line. IsLine names.now bytes.now (line_read line)) }
    ensures within { IfOk result (λ line. fresh + cond (is_fresh line.entry.what) 1 0 ≤ FRESH_LINES) }
    ensures refused { IfErr result (IsWrongLine names.now fresh number bytes.now) }
{
    let Some(line) = read_line(alloc, names, bytes)? else {
        return Err(refused_at(Reason::HistoryForm, number));
    };
    let more = usize::from(is_fresh(&line.entry.what));
    if fresh + more > FRESH_LINES {
        return Err(refused_at(Reason::HistoryForm, number));
    }
    Ok(line)
}

/// The first line with its line feed, and the text behind it; the whole text where it has no line feed.
fn cut_line(text: &[u8]) -> (&[u8], &[u8])
    ensures whole { text.now ≡ result.0.now ++ result.1.now }
    ensures some { text.now ≢ [] → length result.1.now < length text.now }
    ensures line { (body more : List ℕ) → list_any (λ b. b == 10) body ≡ false → text.now ≡ body ++ 10 ∷ more
        → result.0.now ≡ body ++ 10 ∷ [] }
{
    match line_feed(text) {
        Some(end) => (&text[..end + 1], &text[end + 1..]),
        None => (text, &[]),
    }
}

/// The place of the first line feed.
fn line_feed(text: &[u8]) -> Option<usize>
    ensures { result ≡ position (λ b. b == 10) text.now }
{
    text.iter().position(|byte| *byte == b'\n')
}
