//! What is written of an entry with its list.

ghost use Rattle.std.specs.Prelude.{◌≡◌, ℕ, ◌<◌, ◌↔◌, ◌^◌, List, length, IsTrue, All};
ghost use Rattle.std.specs.List.{list_all};
ghost use Rattle.rail_rules.specs.Plant.{Plant, trains};
ghost use Rattle.rail_rules.specs.WritableLines.{is_known_train, is_writable};
ghost use Rattle.rail_history.specs.Lines.{line_of};

use crate::plants::trains_of;
use crate::shelves::alone;
use indexmap::IndexSet;
use rail_base::limits::LIST_TRAINS;
use rail_base::{Entry, Name, Names, Note, OutOfMemory, Time, TrainNo, What};
use rail_history::write_entry;
use rail_io::{Failed, MemorySink, Sink, SureSink};
use rail_text::LineBuffer;
use std::alloc::{AllocError, Global};

// The trains of the list by their numbers, what the entry says, the number of the write that fails,
// whether all was written, and the bytes without the line feed.
const CASES: &str = "0110222/fresh/0/yes/00:03:40.0 admit B 1 fresh A1 B*2 A1 A2*3
1/fresh/0/yes/00:03:40.0 admit B 1 fresh B
11/fresh/2/yes/00:03:40.0 admit B 1 fresh B*2
2222222222222/fresh/0/yes/00:03:40.0 admit B 1 fresh A2*13
0110222/pulled/0/yes/00:03:40.0 admit B 1 pulled
0110222/out/0/yes/00:03:40.0 out B
/end/0/yes/00:03:40.0 end
0/end/0/yes/00:03:40.0 end A1
01/end/0/yes/00:03:40.0 end A1 B
011/end/0/yes/00:03:40.0 end A1 B B
01/end/1/no/
0110222/fresh/1/no/";

/// What an entry of the train B says.
fn what_of(word: &str) -> What
    ensures { (plant : Plant) (kept : List ℕ) → 1 < trains plant → IsTrue (list_all (is_known_train plant) kept)
        → length kept < 2 ^ 64
        → IsTrue (is_writable plant (line_of (record { at = 2200; what = result }) kept)) }
{
    match word {
        "fresh" => What::Admit {
            train: TrainNo(1),
            place: 1,
            note: Note::Fresh,
        },
        "pulled" => What::Admit {
            train: TrainNo(1),
            place: 1,
            note: Note::Pulled,
        },
        "out" => What::Out { train: TrainNo(1) },
        _ => What::End,
    }
}

/// The names in their order.
fn names_of(alloc: Global, text: &str) -> Result<IndexSet<Name>, AllocError> {
    let mut names = IndexSet::new(alloc);
    for word in text.split_whitespace() {
        if let Some(name) = Name::read(word.as_bytes()) {
            names.insert(name)?;
        }
    }
    Ok(names)
}

/// Whether the train has a name.
fn is_named(names: &Names, train: TrainNo) -> bool
    ensures { IsTrue result ↔ (train < length names.now.trains.keys) }
{
    usize::from(train.0) < names.trains.len()
}

/// Whether all trains have names.
fn are_named(names: &Names, trains: &[TrainNo]) -> bool
    ensures { IsTrue result ↔ All (λ t. t < length names.now.trains.keys) trains.now }
{
    trains.iter().all(|train| is_named(names, *train))
}

/// Writes the line, where its trains have names.
fn write<O: Sink>(names: &Names, word: &str, kept: &[TrainNo], out: &mut O) -> Result<(), Failed> {
    if kept.len() > LIST_TRAINS || !is_named(names, TrainNo(1)) || !are_named(names, kept) {
        return Err(Failed);
    }
    let entry = Entry {
        at: Time(2200),
        what: what_of(word),
    };
    write_entry(names, entry, kept, &mut LineBuffer::new(), out)
}

/// Whether the case is written as it says.
fn holds(alloc: Global, names: &Names, case: &str) -> Option<bool> {
    let (list, rest) = case.split_once("/")?;
    let (word, rest) = rest.split_once("/")?;
    let (call, rest) = rest.split_once("/")?;
    let (answer, line) = rest.split_once("/")?;
    let kept = trains_of(alloc, list).ok()?;
    let bytes = bytes_of(alloc, line, answer).ok()?;
    match sink_of(alloc, 100, call) {
        Ok(mut sink) => {
            let is_whole = write(names, word, &kept, &mut sink).is_ok();
            Some(is_whole == (answer == "yes") && sink.bytes() == Some(bytes.as_bytes()))
        }
        Err(_) => None,
    }
}

/// The bytes of the line, with a line feed where all was written.
fn bytes_of(alloc: Global, line: &str, answer: &str) -> Result<String, AllocError> {
    let mut bytes = String::from_str(alloc, line)?;
    if answer == "yes" {
        bytes.push_str("\n")?;
    }
    Ok(bytes)
}

/// The sink with so much room in which the call of this number fails.
fn sink_of(alloc: Global, room: usize, call: &str) -> Result<MemorySink, OutOfMemory> {
    let fails = alone(alloc, call.parse().unwrap_or(0))?;
    MemorySink::with_room(alloc, room, fails)
}

/// The names of two sections, and of the trains of the text.
fn names_with(alloc: Global, trains: &str) -> Result<Names, AllocError> {
    let sections = names_of(alloc, "L1 L2")?;
    let trains = names_of(alloc, trains)?;
    Ok(Names { sections, trains })
}

/// The first of the cases that is written otherwise than it says.
fn first_other(alloc: Global, cases: &'static str) -> Option<&'static str> {
    match names_with(alloc, "A1 B A2") {
        Ok(names) => first_other_of(alloc, &names, cases),
        Err(_) => Some("no memory"),
    }
}

fn first_other_of<'a>(alloc: Global, names: &Names, cases: &'a str) -> Option<&'a str> {
    for case in cases.lines() {
        if !holds(alloc, names, case).unwrap_or(false) {
            return Some(case);
        }
    }
    None
}

#[test]
fn writes_lists(rt: HostRuntime) {
    let other = first_other(rt.alloc(), CASES);
    assert!(rt; other.is_none(), "{other:?}");
}

/// Adds two trains to the list, and their names to its line.
fn push_two(kept: &mut Vec<TrainNo>, line: &mut String) -> Result<(), AllocError> {
    kept.push(TrainNo(0))?;
    kept.push(TrainNo(1))?;
    line.push_str(" A1 B")
}

/// Adds the trains of a long list, and its line.
fn push_long(kept: &mut Vec<TrainNo>, line: &mut String) -> Result<(), AllocError> {
    line.push_str("00:03:40.0 admit B 1 fresh")?;
    for _ in 0..200 {
        push_two(kept, line)?;
    }
    line.push_str("\n")
}

#[test]
fn hands_a_long_line_on_piece_by_piece(rt: HostRuntime) {
    let written = ((Ok(()), true), (Err(Failed), [true; 2]));
    assert!(rt; long_line(rt.alloc()) == Ok(written));
}

/// What comes of a write, and whether the sink has all then.
type Whole = (Result<(), Failed>, bool);

/// What comes of a write, and whether the sink has a part then, and the line begins with what it has.
type Part = (Result<(), Failed>, [bool; 2]);

/// What comes of a long line, and where the second write fails.
fn long_line(alloc: Global) -> Result<(Whole, Part), OutOfMemory> {
    let names = names_with(alloc, "A1 B")?;
    long_line_of(alloc, &names)
}

fn long_line_of(alloc: Global, names: &Names) -> Result<(Whole, Part), OutOfMemory> {
    let mut kept = Vec::new(alloc);
    let mut line = String::new(alloc);
    push_long(&mut kept, &mut line)?;
    let whole = whole(alloc, names, &kept, &line)?;
    let part = part(alloc, names, &kept, &line)?;
    Ok((whole, part))
}

fn whole(alloc: Global, names: &Names, kept: &[TrainNo], line: &str) -> Result<Whole, OutOfMemory> {
    let mut sink = SureSink::with_room(alloc, 2000)?;
    let written = write(names, "fresh", kept, &mut sink);
    Ok((written, sink.bytes() == Some(line.as_bytes())))
}

fn part(alloc: Global, names: &Names, kept: &[TrainNo], line: &str) -> Result<Part, OutOfMemory> {
    let mut sink = sink_of(alloc, 2000, "2")?;
    let written = write(names, "fresh", kept, &mut sink);
    let bytes = sink.bytes().unwrap_or(b"");
    let is_part = 0 < bytes.len() && bytes.len() < line.len();
    Ok((written, [is_part, line.as_bytes().starts_with(bytes)]))
}
