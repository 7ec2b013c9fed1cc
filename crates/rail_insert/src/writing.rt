//! The copies as a text.

ghost use Rattle.std.specs.Prelude.{◌≡◌, ◌+◌, ◌≤◌, ◌∷◌, ◌++◌, flat_map, length};
ghost use Rattle.rail_insert.specs.Texts.{bar_line, copies_text, copy_text, copy_word, inserted_text, owner_word, path_line, paths_line};
ghost use Rattle.rail_text.specs.Names.{names_in};
ghost use Rattle.rail_text.specs.Writes.{WritesText};
ghost use Rattle.rail_text.specs.declared.line_buffer.TheConstants.{ROOM};

use crate::bars::{Bar, Owner};
use crate::insertion::{Inserted, Placed};
use itoa::Buffer;
use rail_base::{Names, Time, TrainNo};
use rail_io::{Failed, Sink, write_whole};
use rail_text::LineBuffer;

/// Puts a space and the name of a copy of the train: its name, a plus sign and the number of the copy.
fn put_copy(line: &mut LineBuffer, names: &Names, train: TrainNo, number: u64)
    requires { length line.old + 58 ≤ ROOM }
    ensures text { line.new ≡ line.old ++ 32 ∷ copy_word (names_in names.now) train number }
    ensures short { length line.new ≤ length line.old + 58 }
{
    let mut digits = Buffer::new();
    line.put_train(names, train);
    line.put(b"+");
    line.put(digits.format(number).as_bytes());
}

/// Puts a space and the name of the owner; a copy is one of the train.
fn put_owner(line: &mut LineBuffer, names: &Names, train: TrainNo, owner: Owner)
    requires { length line.old + 58 ≤ ROOM }
    ensures text { line.new ≡ line.old ++ 32 ∷ owner_word (names_in names.now) train owner }
    ensures short { length line.new ≤ length line.old + 58 }
{
    match owner {
        Owner::Train(other) => line.put_train(names, other),
        Owner::Copy(number) => put_copy(line, names, train, u64::from(number)),
    }
}

/// Writes the line of a bar of a copy of the train.
fn write_bar<O: Sink>(names: &Names, train: TrainNo, bar: &Bar, out: &mut O) -> Result<(), Failed>
    ensures { WritesText O.Sink out.old out.new (bar_line (names_in names.now) train bar.now) result }
{
    let mut line = LineBuffer::new();
    line.put(b"bar");
    line.put_time(bar.from);
    line.put_time(bar.to);
    put_owner(&mut line, names, train, bar.owner);
    line.put_section(names, bar.section);
    line.put(b"\n");
    write_whole(out, line.as_slice())
}

/// Writes the line of the copy itself.
fn write_path<O: Sink>(
    names: &Names,
    train: TrainNo,
    number: u64,
    begin: Time,
    out: &mut O,
) -> Result<(), Failed>
    ensures { WritesText O.Sink out.old out.new (path_line (names_in names.now) train number begin) result }
{
    let mut line = LineBuffer::new();
    line.put(b"path");
    put_copy(&mut line, names, train, number);
    line.put_time(begin);
    line.put(b"\n");
    write_whole(out, line.as_slice())
}

/// Writes the line with the number of copies.
fn write_paths<O: Sink>(count: u64, out: &mut O) -> Result<(), Failed>
    ensures { WritesText O.Sink out.old out.new (paths_line count) result }
{
    let mut line = LineBuffer::new();
    line.put(b"paths");
    line.put_number(count);
    line.put(b"\n");
    write_whole(out, line.as_slice())
}

/// Writes the lines of the bars of a copy of the train.
fn write_bars<O: Sink>(
    names: &Names,
    train: TrainNo,
    bars: &[Bar],
    out: &mut O,
) -> Result<(), Failed>
    ensures { WritesText O.Sink out.old out.new (flat_map (bar_line (names_in names.now) train) bars.now) result }
{
    for bar in bars {
        write_bar(names, train, bar, out)?;
    }
    Ok(())
}

/// Writes the lines of the copy with this number: its bars, and then itself.
fn write_copy<O: Sink>(
    names: &Names,
    train: TrainNo,
    number: u64,
    placed: &Placed,
    out: &mut O,
) -> Result<(), Failed>
    ensures { WritesText O.Sink out.old out.new (copy_text (names_in names.now) train number placed.now) result }
{
    write_bars(names, train, &placed.bars, out)?;
    write_path(names, train, number, placed.begin, out)
}

/// Writes the lines of the copies, which are numbered from 1.
fn write_copies<O: Sink>(
    names: &Names,
    train: TrainNo,
    copies: &[Placed],
    out: &mut O,
) -> Result<(), Failed>
    ensures { WritesText O.Sink out.old out.new (copies_text (names_in names.now) train 1 copies.now) result }
{
    for (index, placed) in copies.iter().enumerate() {
        write_copy(names, train, index as u64 + 1, placed, out)?;
    }
    Ok(())
}

/// Writes the copies of the train: for each its bars and its begin, and at the end how many there are. It takes no
/// memory.
///
/// Each write is handed one line. After a failure nothing more is written.
pub fn write_inserted<O: Sink>(
    names: &Names,
    train: TrainNo,
    inserted: &Inserted,
    out: &mut O,
) -> Result<(), Failed>
    ensures { WritesText O.Sink out.old out.new (inserted_text (names_in names.now) train inserted.now.copies.items) result }
{
    write_copies(names, train, &inserted.copies, out)?;
    write_paths(inserted.copies.len() as u64, out)
}
