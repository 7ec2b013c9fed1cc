//! The trains that a line brings, put behind its words. Where the line is full, it is handed on so far.

ghost use Rattle.std.specs.Prelude.{◌≡◌, ◌+◌, ◌≤◌, ◌<◌, ◌∷◌, ◌++◌, length, map, OnOk, OnErr};
ghost use Rattle.rail_io.specs.FaultCounts.{Rose};
ghost use Rattle.rail_io.specs.Writes.{Adds, AddsPrefix};
ghost use Rattle.rail_rules.specs.Texts.{items_of};
ghost use Rattle.rail_rules.specs.Texts.{behind};
ghost use Rattle.rail_text.specs.Names.{names_in, train_name};
ghost use Rattle.rail_history.specs.Lines.{brought_words, item_text};
ghost use Rattle.rail_history.specs.Pieces.{IsHandedOn};
ghost use Rattle.rail_text.specs.declared.line_buffer.TheConstants.{ROOM};
ghost use Rattle.rail_history.specs.declared.trains.TheConstants.{FULL};

use rail_base::{Entry, Names, Note, TrainNo, What, repeats};
use rail_io::{Failed, Sink, write_whole};
use rail_text::LineBuffer;

/// The bytes from which on a line is handed on before one more train is put.
const FULL: usize = 448;

/// Puts the trains that the entry brings: the items of a fresh list, or each train of an end line.
// In line, as most entries bring none; what puts them is not.
#[inline(always)]
pub(crate) fn put_brought<O: Sink>(
    line: &mut LineBuffer,
    names: &Names,
    entry: &Entry,
    kept: &[TrainNo],
    out: &mut O,
) -> Result<(), Failed>
    requires { length line.old < ROOM }
    ensures adds { OnOk result (IsHandedOn (O.written out.old) (O.written out.new) line.new
        (line.old ++ behind (brought_words names.now entry.now.what kept.now))) }
    ensures room { OnOk result (length line.new < ROOM) }
    ensures failed_adds_prefix { OnErr result (AddsPrefix (O.written out.old) (O.written out.new)
        (line.old ++ behind (brought_words names.now entry.now.what kept.now))) }
    ensures failed_rose { OnErr result (Rose (O.faults out.old) (O.faults out.new)) }
    ensures faults_never_fall { O.faults out.old ≤ O.faults out.new }
{
    match entry.what {
        What::Admit {
            note: Note::Fresh,
            ..
        } => put_items(line, names, kept, out),
        What::End => put_trains(line, names, kept, out),
        _ => Ok(()),
    }
}

/// Puts the items of a list: neighbouring equal trains are one.
#[inline(never)]
fn put_items<O: Sink>(
    line: &mut LineBuffer,
    names: &Names,
    list: &[TrainNo],
    out: &mut O,
) -> Result<(), Failed>
    requires { length line.old < ROOM }
    ensures adds { OnOk result (IsHandedOn (O.written out.old) (O.written out.new) line.new
        (line.old ++ behind (map (item_text names.now) (items_of list.now)))) }
    ensures room { OnOk result (length line.new < ROOM) }
    ensures failed_adds_prefix { OnErr result (AddsPrefix (O.written out.old) (O.written out.new)
        (line.old ++ behind (map (item_text names.now) (items_of list.now)))) }
    ensures failed_rose { OnErr result (Rose (O.faults out.old) (O.faults out.new)) }
    ensures faults_never_fall { O.faults out.old ≤ O.faults out.new }
{
    let mut left = list;
    while let Some((train, others)) = left.split_first() {
        let more = repeats(*train, others);
        put_item(line, names, *train, more + 1, out)?;
        left = &others[more..];
    }
    Ok(())
}

/// Puts each train of the list.
#[inline(never)]
fn put_trains<O: Sink>(
    line: &mut LineBuffer,
    names: &Names,
    list: &[TrainNo],
    out: &mut O,
) -> Result<(), Failed>
    requires { length line.old < ROOM }
    ensures adds { OnOk result (IsHandedOn (O.written out.old) (O.written out.new) line.new
        (line.old ++ behind (map (train_name (names_in names.now)) list.now))) }
    ensures room { OnOk result (length line.new < ROOM) }
    ensures failed_adds_prefix { OnErr result (AddsPrefix (O.written out.old) (O.written out.new)
        (line.old ++ behind (map (train_name (names_in names.now)) list.now))) }
    ensures failed_rose { OnErr result (Rose (O.faults out.old) (O.faults out.new)) }
    ensures faults_never_fall { O.faults out.old ≤ O.faults out.new }
{
    let mut left = list;
    while let Some((train, others)) = left.split_first() {
        put_item(line, names, *train, 1, out)?;
        left = others;
    }
    Ok(())
}

/// Puts the name of the train, and how often it is taken in a row from two times on.
fn put_item<O: Sink>(
    line: &mut LineBuffer,
    names: &Names,
    train: TrainNo,
    count: usize,
    out: &mut O,
) -> Result<(), Failed>
    requires { length line.old < ROOM }
    ensures adds { OnOk result (IsHandedOn (O.written out.old) (O.written out.new) line.new
        (line.old ++ 32 ∷ item_text names.now (record { train = train; count = count }))) }
    ensures room { OnOk result (length line.new < ROOM) }
    ensures failed_adds_prefix { OnErr result (AddsPrefix (O.written out.old) (O.written out.new)
        (line.old ++ 32 ∷ item_text names.now (record { train = train; count = count }))) }
    ensures failed_rose { OnErr result (Rose (O.faults out.old) (O.faults out.new)) }
    ensures faults_never_fall { O.faults out.old ≤ O.faults out.new }
{
    make_room(line, out)?;
    line.put_train(names, train);
    if count != 1 {
        line.put_count(count as u64);
    }
    Ok(())
}

/// Hands on what the line has so far, where it is full.
fn make_room<O: Sink>(line: &mut LineBuffer, out: &mut O) -> Result<(), Failed>
    ensures adds { OnOk result (IsHandedOn (O.written out.old) (O.written out.new) line.new line.old) }
    ensures room { OnOk result (length line.new ≤ FULL) }
    ensures failed_adds_prefix { OnErr result (AddsPrefix (O.written out.old) (O.written out.new) line.old) }
    ensures failed_rose { OnErr result (Rose (O.faults out.old) (O.faults out.new)) }
    ensures faults_never_fall { O.faults out.old ≤ O.faults out.new }
{
    if line.as_slice().len() > FULL {
        write_whole(out, line.as_slice())?;
        line.clear();
    }
    Ok(())
}
