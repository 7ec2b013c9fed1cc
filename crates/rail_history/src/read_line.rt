//! A line is read by a guess that is written back.

ghost use Rattle.std.specs.Prelude.{◌≡◌, ◌↔◌, ◌≤◌, ◌^◌, ℕ, List, IfOk, IfSome, IfNone, drop, length, true};
ghost use Rattle.std.specs.List.{list_all};
ghost use Rattle.rail_text.specs.Names.{HasNames};
ghost use Rattle.rail_history.specs.HistoryLines.{IsLine, IsNoLine, IsSpelled, is_history_line};
ghost use Rattle.rail_history.specs.LineReads.{AreLikelyTrains, AreNotedTrains, IsLikelyLine, line_read, trains_read};
ghost use Rattle.rail_history.specs.Lines.{brought};
ghost use Rattle.rail_history.specs.ReadWords.{is_spaceless, joined};
ghost use Rattle.rail_rules.specs.Plant.{Plant};

use crate::cutting::cut;
use crate::history_lines::is_history_line;
use crate::lists::does_list;
use crate::read_time::likely_time;
use crate::read_trains::likely_trains;
use crate::read_what::likely_what;
use crate::writing::write_entry;
use crate::written_text::Written;
use rail_base::limits::LIST_TRAINS;
use rail_base::{Entry, Names, Note, OutOfMemory, TrainNo, What};
use rail_text::LineBuffer;
use std::alloc::Global;

/// A line of a history: its entry, and the trains of a fresh list or those that an end line names.
#[derive(Drop)]
pub struct ReadLine {
    pub entry: Entry,
    pub(crate) trains: Vec<TrainNo>,
}

impl ReadLine {
    /// The trains beside the entry: those of a fresh list, or those that an end line names, and none at other lines.
    pub fn beside(&self) -> &[TrainNo]
        ensures { result.now ≡ brought self.now.entry.what (trains_read self.now) }
    {
        if does_list(&self.entry.what) {
            self.trains.as_slice()
        } else {
            &[]
        }
    }
}

/// The line whose text these bytes are, with the line feed: `None` exactly where they are the text of none.
pub(crate) fn read_line(
    alloc: Global,
    names: &Names,
    bytes: &[u8],
) -> Result<Option<ReadLine>, OutOfMemory>
    requires trains { length names.now.trains.keys ≤ 2 ^ 16 }
    requires sections { length names.now.sections.keys ≤ 2 ^ 16 }
    ensures some { IfOk result (λ read. IfSome read (λ line. IsLine names.now bytes.now (line_read line))) }
    ensures none { IfOk result (λ read. IfNone read (IsNoLine names.now bytes.now)) }
{
    let [text @ .., b'\n'] = bytes else {
        return Ok(None);
    };
    let Some(line) = likely_line(alloc, names, text)? else {
        return Ok(None);
    };
    if is_line(alloc, names, &line, bytes)? {
        Ok(Some(line))
    } else {
        Ok(None)
    }
}

/// Whether the line is one of the file, and the bytes are its text.
fn is_line(alloc: Global, names: &Names, line: &ReadLine, bytes: &[u8]) -> Result<bool, OutOfMemory>
    ensures { IfOk result (λ is. (plant : Plant) → HasNames plant names.now → is ≡ true ↔ IsSpelled plant (line_read line.now) bytes.now) }
{
    if !is_history_line(names, &line.entry, line.trains.as_slice()) {
        return Ok(false);
    }
    is_text_of(alloc, names, line, bytes)
}

/// What a text that some line has before its line feed says. Any other text says something or nothing.
fn likely_line(alloc: Global, names: &Names, text: &[u8]) -> Result<Option<ReadLine>, OutOfMemory>
    requires trains { length names.now.trains.keys ≤ 2 ^ 16 }
    requires sections { length names.now.sections.keys ≤ 2 ^ 16 }
    ensures { IfOk result (IsLikelyLine names.now text.now) }
{
    let (time, said) = cut(text);
    let Some(at) = likely_time(time) else {
        return Ok(None);
    };
    let Some(what) = likely_what(names, said) else {
        return Ok(None);
    };
    let entry = Entry { at, what };
    let trains = listed_trains(alloc, names, &entry, said)?;
    Ok(Some(ReadLine { entry, trains }))
}

/// The trains that a line of this entry, with this text behind its time, brings.
fn listed_trains(
    alloc: Global,
    names: &Names,
    entry: &Entry,
    said: &[u8],
) -> Result<Vec<TrainNo>, OutOfMemory>
    requires { length names.now.trains.keys ≤ 2 ^ 16 }
    ensures { IfOk result (λ list. AreLikelyTrains names.now entry.now.what said.now list.items) }
{
    let (_, behind_verb) = cut(said);
    match entry.what {
        What::Admit { note, .. } => noted_trains(alloc, names, note, behind_note(behind_verb)),
        What::End => likely_trains(alloc, names, behind_verb, behind_verb.len()),
        _ => Ok(Vec::new(alloc)),
    }
}

/// The trains that an admission with this note, and with this text behind it, brings.
fn noted_trains(
    alloc: Global,
    names: &Names,
    note: Note,
    text: &[u8],
) -> Result<Vec<TrainNo>, OutOfMemory>
    requires { length names.now.trains.keys ≤ 2 ^ 16 }
    ensures { IfOk result (λ list. AreNotedTrains names.now note text.now list.items) }
{
    match note {
        Note::Fresh => likely_trains(alloc, names, text, LIST_TRAINS),
        Note::Pulled => Ok(Vec::new(alloc)),
        Note::Appended => Ok(Vec::new(alloc)),
    }
}

/// What stands behind the train, the move and the note of an admission.
fn behind_note(text: &[u8]) -> &[u8]
    ensures { (words : List (List ℕ)) → list_all is_spaceless words ≡ true → text.now ≡ joined words
        → result.now ≡ joined (drop 3 words) }
{
    let (_, rest) = cut(text);
    let (_, rest) = cut(rest);
    let (_, rest) = cut(rest);
    rest
}

/// Whether the bytes are the text of the line.
fn is_text_of(
    alloc: Global,
    names: &Names,
    line: &ReadLine,
    bytes: &[u8],
) -> Result<bool, OutOfMemory>
    requires { (plant : Plant) → HasNames plant names.now → is_history_line plant (line_read line.now) ≡ true }
    ensures { IfOk result (λ is. (plant : Plant) → HasNames plant names.now
        → is ≡ true ↔ IsSpelled plant (line_read line.now) bytes.now) }
{
    let mut room = LineBuffer::new();
    let mut written = Written::new(alloc);
    match write_entry(
        names,
        line.entry,
        line.trains.as_slice(),
        &mut room,
        &mut written,
    ) {
        Ok(()) => Ok(written.as_slice() == bytes),
        Err(_) => Err(OutOfMemory),
    }
}
