//! `capacity LINE FROM TO SCENE [TIMETABLE [COMMANDS]]`: how far the trains of a run can be pushed together on a line,
//! and how full the line is then.

ghost use Rattle.std.specs.Prelude.{◌≡◌, ◌≢◌, ◌+◌, ◌-◌, ◌<◌, ◌≤◌, ◌^◌, ◌++◌, ◌∷◌, [], IfErr, IfOk, IsTrue, MatchOption, None, OnOk, OnErr, Some, decimal, flat_map, length, map, true, false};
ghost use Rattle.std.specs.List.{IsDistinct};
ghost use Rattle.rail_base.specs.Refusals.{AnswersFirst};
ghost use Rattle.rail_base.specs.declared.limits.TheConstants.{SECTIONS};
ghost use Rattle.rail_base.specs.declared.refusals.Fault.TheVariants.{Refused};
ghost use Rattle.rail_base.specs.declared.refusals.Refusal.{Refusal};
ghost use Rattle.rail_text.specs.declared.line_buffer.TheConstants.{ROOM};
ghost use Rattle.rail_capacity.specs.BlockingTimes.{are_conflict_free, block_of, taken_blocks};
ghost use Rattle.rail_capacity.specs.Compression.{IsCompression};
ghost use Rattle.rail_input.specs.Inputs.{refuses_file};
ghost use Rattle.rail_io.specs.Writes.{Adds, AddsPrefix};
ghost use Rattle.rail_policy.specs.Seats.{is_fine_deck};
ghost use Rattle.rail_rules.specs.Texts.{behind, spaced};
ghost use Rattle.rail_command_line.specs.Forms.{scenario_files, scenario_in};
ghost use Rattle.rail_forms.specs.Answers.{IsAnswer};
ghost use Rattle.rail_forms.specs.BegunRuns.{HasBegun, input_of, seats_of};
ghost use Rattle.rail_forms.specs.Capacity.{AnswersCapacity, IsCapacityText, IsEmptyStudy, capacity_text, line_refusal, piece_refusal, piece_refused, pieces, pieces_refusal, rate_lines, rate_word, section_named, sections_on, shift_line, study_refusal, tight_words};
ghost use Rattle.rail_text.specs.Names.{names_in};
ghost use Rattle.rail_forms.specs.NotedRuns.{ReportsRun};
ghost use Rattle.rail_forms.specs.Promises.{KeepsPromise, WritesAnswer, ended, is_of_bytes};
ghost use Rattle.rail_text.specs.Writes.{WritesText};

use crate::beginning::Begun;
use crate::scenario::ScenarioFiles;
use crate::status::Status;
use rail_base::{Fault, Interval, Name, Names, OutOfMemory, Part, Reason, Refusal, SectionNo};
use rail_capacity::{CapacityFault, Compressed, Shift, Tight, Window, compress};
use rail_command_line::Scenario;
use rail_io::{Failed, Shelf, Sink, write_whole};
use rail_policy::{Desk, Policy, Seen};
use rail_stairs::{Stairs, ended_by, ended_intervals_are_without_conflict};
use rail_text::LineBuffer;
use std::alloc::{AllocError, Global};

/// The refusal of the empty word for a line.
const LINE_EMPTY: Refusal = Refusal {
    reason: Reason::LineEmpty,
    part: Part::Word,
    item: 2,
    step: 0,
};

/// The refusal of a window that does not begin before it ends.
const WINDOW_EMPTY: Refusal = Refusal {
    reason: Reason::WindowEmpty,
    part: Part::Word,
    item: 3,
    step: 0,
};

/// Writes the compression over the line in the window, of the scenario. Where the line is empty, or the window does not
/// begin before it ends, it is refused before any file is read.
pub fn answer<S: Shelf, O: Sink>(
    alloc: Global,
    line: &str,
    window: Window,
    scenario: &Scenario,
    shelf: &mut S,
    out: &mut O,
    deck: Vec<Box<dyn Policy>>,
) -> Result<(), Status>
    requires fine { IsTrue (is_fine_deck (map ⟦<Box<dyn Policy> as Policy>⟧.seat deck.items)) }
    ensures kept { KeepsPromise S.Shelf O.Sink (scenario_files (scenario_in scenario.now)) shelf.old shelf.new out.old out.new (ended result) }
    ensures answer { AnswersCapacity line.now window (scenario_in scenario.now) (map ⟦<Box<dyn Policy> as Policy>⟧.seat deck.items)
        (S.told shelf.old) (O.written out.old) (O.written out.new) (ended result) }
    ensures unread { IsEmptyStudy line.now window → shelf.new ≡ shelf.old }
{
    if line.is_empty() {
        return Err(Status::Refused(LINE_EMPTY));
    }
    if window.to.0 <= window.from.0 {
        return Err(Status::Refused(WINDOW_EMPTY));
    }
    let files = ScenarioFiles::read(alloc, scenario, shelf)?;
    let begun = files.begin(alloc, deck)?;
    report(alloc, line, window, begun, out)
}

/// Follows the run to its end, and writes the compression of that run. All memory is taken before the first byte.
fn report<O: Sink>(
    alloc: Global,
    line: &str,
    window: Window,
    begun: Begun,
    out: &mut O,
) -> Result<(), Status>
    requires ordered { window.from < window.to }
    requires begun { HasBegun ⟦<Desk as Seen>⟧.table begun }
    ensures answer { let input = input_of begun in let seats = seats_of ⟦<Desk as Seen>⟧.table begun in
        let tells = IsCapacityText line.now window in
        IsAnswer (line_refusal input.plant line.now)
        (ReportsRun tells input seats (Adds (O.written out.old) (O.written out.new)))
        (ReportsRun tells input seats (AddsPrefix (O.written out.old) (O.written out.new))) (ended result) }
    ensures writes { WritesAnswer O.Sink out.old out.new (ended result) }
    ensures of_bytes { is_of_bytes (ended result) ≡ true }
{
    let sections = read_sections(alloc, begun.plant().names(), line)?;
    let mut stairs = Stairs::new(alloc, begun.plant())?;
    let Ok(engine) = begun.follow_to_end(&mut stairs);
    ended_intervals_are_without_conflict();
    let stairway = stairs.intervals(alloc, engine.plant())?;
    let intervals = ended_by(stairway, stairs.ended());
    let compressed = compressed_by(alloc, &intervals, &sections, window)?;
    write_compressed(engine.plant().names(), &compressed, out)?;
    Ok(())
}

/// The compression of the intervals over the line, where it has a section and the window begins before it ends.
fn compressed_by(
    alloc: Global,
    intervals: &[Interval],
    sections: &[SectionNo],
    window: Window,
) -> Result<Compressed, OutOfMemory>
    requires apart { IsTrue (are_conflict_free (map block_of intervals.now)) }
    requires filled { sections.now ≢ [] }
    requires ordered { window.from < window.to }
    ensures { IfOk result (λ compressed. IsCompression (taken_blocks intervals.now sections.now window) window
        compressed.trains.items compressed.occupancy compressed.rate) }
{
    match compress(alloc, intervals, sections, window) {
        Ok(compressed) => Ok(compressed),
        Err(CapacityFault::OutOfMemory) => Err(OutOfMemory),
        Err(CapacityFault::LineEmpty | CapacityFault::WindowEmpty) => unreachable!(),
    }
}

/// The sections of a line, in the order of the pieces between its commas. It is refused by its first piece that is no
/// section's name, or names a section that stood before.
fn read_sections(alloc: Global, names: &Names, line: &str) -> Result<Vec<SectionNo>, Fault>
    requires { length names.now.sections.keys ≤ SECTIONS }
    ensures sections { IfOk result (λ sections. sections.items ≡ sections_on names.now.sections.keys (pieces line.now)) }
    ensures filled { IfOk result (λ sections. sections.items ≢ []) }
    ensures accepted { OnOk result (pieces_refusal names.now.sections.keys [] 1 (pieces line.now) ≡ None) }
    ensures refused { IfErr result (AnswersFirst (pieces_refusal names.now.sections.keys [] 1 (pieces line.now))) }
    ensures of_bytes { IfErr result (λ fault. refuses_file fault ≡ false) }
{
    let mut sections = Vec::new(alloc);
    for piece in line.split(',') {
        let section = section_of(names, piece.as_bytes(), &sections)?;
        sections.push(section).map_err(AllocError::from)?;
    }
    Ok(sections)
}

/// The section of a piece behind those before it. A line has few pieces, so these are looked at one after another.
fn section_of(names: &Names, piece: &[u8], before: &[SectionNo]) -> Result<SectionNo, Fault>
    requires names { length names.now.sections.keys ≤ SECTIONS }
    requires few { length before.now ≤ SECTIONS }
    ensures section { IfOk result (λ section. section_named names.now.sections.keys piece.now ≡ Some section) }
    ensures accepted { OnOk result (piece_refusal names.now.sections.keys before.now (length before.now + 1) piece.now ≡ None) }
    ensures refused { IfErr result (λ fault. (refusal : Refusal) × (fault ≡ Refused refusal)
        × (piece_refusal names.now.sections.keys before.now (length before.now + 1) piece.now ≡ Some refusal)) }
{
    let number = before.len() as u32 + 1;
    let Some(section) = section_named(names, piece) else {
        return Err(piece_refused(Reason::Unknown, number));
    };
    if before.contains(&section) {
        return Err(piece_refused(Reason::Repeated, number));
    }
    Ok(section)
}

/// The number of the section of this name.
fn section_named(names: &Names, piece: &[u8]) -> Option<SectionNo>
    requires { length names.now.sections.keys ≤ SECTIONS }
    ensures { result ≡ section_named names.now.sections.keys piece.now }
{
    names.section(Name::read(piece)?)
}

/// The refusal of a piece of the line, which counts from 1.
fn piece_refused(reason: Reason, number: u32) -> Fault
    ensures { result ≡ Refused (piece_refused reason number) }
{
    Fault::Refused(Refusal {
        reason,
        part: Part::Word,
        item: 2,
        step: number,
    })
}

/// Writes the lines of the trains, of the occupancy and of the rate.
fn write_compressed<O: Sink>(
    names: &Names,
    compressed: &Compressed,
    out: &mut O,
) -> Result<(), Failed>
    ensures { WritesText O.Sink out.old out.new
        (capacity_text (names_in names.now) compressed.now.trains.items compressed.now.occupancy compressed.now.rate) result }
{
    write_shifts(names, &compressed.trains, out)?;
    write_rate(compressed.occupancy, compressed.rate, out)
}

/// Writes a line for each train.
fn write_shifts<O: Sink>(names: &Names, shifts: &[Shift], out: &mut O) -> Result<(), Failed>
    ensures { WritesText O.Sink out.old out.new (flat_map (shift_line (names_in names.now)) shifts.now) result }
{
    for shift in shifts {
        write_shift(names, shift, out)?;
    }
    Ok(())
}

/// Writes the line of a train.
fn write_shift<O: Sink>(names: &Names, shift: &Shift, out: &mut O) -> Result<(), Failed>
    ensures { WritesText O.Sink out.old out.new (shift_line (names_in names.now) shift.now) result }
{
    let mut line = LineBuffer::new();
    line.put(b"train");
    line.put_train(names, shift.train);
    line.put_number(shift.earlier);
    put_tight(&mut line, names, shift.tight);
    line.put(b"\n");
    write_whole(out, line.as_slice())
}

/// Puts what a train touches.
fn put_tight(line: &mut LineBuffer, names: &Names, tight: Tight)
    requires { length line.old + 40 ≤ ROOM }
    ensures text { line.new ≡ line.old ++ behind (tight_words (names_in names.now) tight) }
    ensures short { length line.new ≤ length line.old + 40 }
{
    match tight {
        Tight::Start => line.put_word(b"start"),
        Tight::After { train, section } => {
            line.put_word(b"after");
            line.put_train(names, train);
            line.put_section(names, section);
        }
    }
}

/// Writes the lines of the occupancy, in tenths of a second, and of the rate, in hundredths of a percent.
fn write_rate<O: Sink>(occupancy: u64, rate: u64, out: &mut O) -> Result<(), Failed>
    ensures { WritesText O.Sink out.old out.new (rate_lines occupancy rate) result }
{
    let mut line = LineBuffer::new();
    line.put(b"occupancy");
    line.put_number(occupancy);
    line.put(b"\nrate");
    put_rate(&mut line, rate);
    line.put(b"\n");
    write_whole(out, line.as_slice())
}

/// Puts a rate as percent, with two digits behind the point.
fn put_rate(line: &mut LineBuffer, rate: u64)
    requires { length line.old + 44 ≤ ROOM }
    ensures text { line.new ≡ line.old ++ 32 ∷ rate_word rate }
    ensures short { length line.new ≤ length line.old + 44 }
{
    let cents = (rate % 100) as u8;
    line.put_number(rate / 100);
    line.put(&[b'.', b'0' + cents / 10, b'0' + cents % 10]);
}
