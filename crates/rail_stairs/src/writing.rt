//! The text of a stairway.

ghost use Rattle.std.specs.Prelude.{◌≡◌, ℕ, ◌+◌, ◌<◌, [], List, length, flat_map, IsSome, OnOk};
ghost use Rattle.rail_base.specs.declared.intervals.Interval.{Interval};
ghost use Rattle.rail_base.specs.declared.limits.TheConstants.{OVERLAP_SECTIONS, ROUTE_SECTIONS, SECTIONS};
ghost use Rattle.rail_rules.specs.Fronts.{Front};
ghost use Rattle.rail_rules.specs.Plant.{claims, trains};
ghost use Rattle.rail_stairs.specs.NotedHistories.{AreNoted, IsNoted};
ghost use Rattle.rail_stairs.specs.Journeys.{AreAllAdmissible, before_move, before_step, before_train};
ghost use Rattle.rail_stairs.specs.JourneyTrains.{admissions_in, at_train, of_train};
ghost use Rattle.rail_stairs.specs.Stairways.{move_intervals, step_intervals, train_intervals};
ghost use Rattle.rail_stairs.specs.StairsTexts.{section_line, section_lines, stair_line, stairs_text};
ghost use Rattle.rail_stairs.specs.Tallies.{IsTallied};
ghost use Rattle.rail_text.specs.Writes.{WritesText};

use crate::journey::Journey;
use crate::stairs::Stairs;
use crate::tallies::Tallies;
use crate::words::put_line;
use rail_base::{Interval, SectionNo, Time, TrainNo};
use rail_io::{Failed, Sink, write_whole};
use rail_plan::Plant;
use rail_text::LineBuffer;

/// Writes the stairway of the history that was noted to its end: a line for each blocking interval, by train,
/// move and step, and a line for each section. The intervals of the overlap of a move stand behind those of the
/// sections that it needs, and count for their sections as all others. Parts are in tenths of a second. It takes
/// no memory.
pub fn write_stairs<O: Sink>(plant: &Plant, stairs: &Stairs, out: &mut O) -> Result<(), Failed>
    requires noted { IsNoted plant.now stairs.now }
    requires ended { IsSome stairs.now.ended }
    ensures { (front : Front) → AreNoted plant.now front stairs.now
        → WritesText O.Sink out.old out.new (stairs_text plant.now front) result }
{
    let ended = stairs.ended();
    let mut tallies = Tallies::new();
    write_intervals(plant, stairs, ended, &mut tallies, out)?;
    write_sections(plant, &tallies, out)
}

/// Writes a line for each interval that was noted, and counts them.
fn write_intervals<O: Sink>(
    plant: &Plant,
    stairs: &Stairs,
    ended: Time,
    tallies: &mut Tallies,
    out: &mut O,
) -> Result<(), Failed>
    requires noted { length stairs.now.admissions.items ≡ trains plant.now }
    requires admissible { AreAllAdmissible plant.now stairs.now }
    requires empty { IsTallied ended [] tallies.old }
    ensures text { WritesText O.Sink out.old out.new
        (flat_map (stair_line plant.now) (before_train plant.now stairs.now (trains plant.now))) result }
    ensures counted { OnOk result (IsTallied ended (before_train plant.now stairs.now (trains plant.now)) tallies.new) }
{
    for number in 0..plant.moves().trains() {
        let journey = Journey::new(plant, stairs, TrainNo(number));
        write_journey(&journey, ended, tallies, out)?;
    }
    Ok(())
}

/// Writes a line for each interval of the train, and counts them.
fn write_journey<O: Sink>(
    journey: &Journey,
    ended: Time,
    tallies: &mut Tallies,
    out: &mut O,
) -> Result<(), Failed>
    requires before { IsTallied ended (at_train before_train journey.now) tallies.old }
    ensures text { WritesText O.Sink out.old out.new (flat_map (stair_line journey.now.plant.now) (of_train train_intervals journey.now)) result }
    ensures counted { OnOk result (IsTallied ended (at_train before_move journey.now (length (admissions_in journey.now))) tallies.new) }
{
    for index in 0..journey.moves() {
        write_move(journey, index, ended, tallies, out)?;
    }
    Ok(())
}

/// Writes a line for each interval of the move, which counts from 0, and counts them.
fn write_move<O: Sink>(
    journey: &Journey,
    index: u16,
    ended: Time,
    tallies: &mut Tallies,
    out: &mut O,
) -> Result<(), Failed>
    requires index { index < length (admissions_in journey.now) }
    requires before { IsTallied ended (at_train before_move journey.now index) tallies.old }
    ensures text { WritesText O.Sink out.old out.new
        (flat_map (stair_line journey.now.plant.now) (of_train move_intervals journey.now index)) result }
    ensures counted { OnOk result (IsTallied ended
        (at_train before_step journey.now index (claims journey.now.plant.now journey.now.train index)) tallies.new) }
{
    for step in 0..journey.claims(index) {
        write_step(journey, index, step, ended, tallies, out)?;
    }
    Ok(())
}

/// Writes a line for the interval of the step of the move, which both count from 0, and counts it, where the step has one.
fn write_step<O: Sink>(
    journey: &Journey,
    index: u16,
    step: u16,
    ended: Time,
    tallies: &mut Tallies,
    out: &mut O,
) -> Result<(), Failed>
    requires index { index < length (admissions_in journey.now) }
    requires step { step < claims journey.now.plant.now journey.now.train index }
    requires few { step < ROUTE_SECTIONS + OVERLAP_SECTIONS }
    requires before { IsTallied ended (at_train before_step journey.now index step) tallies.old }
    ensures text { WritesText O.Sink out.old out.new
        (flat_map (stair_line journey.now.plant.now) (of_train step_intervals journey.now index step)) result }
    ensures counted { OnOk result (IsTallied ended (at_train before_step journey.now index (step + 1)) tallies.new) }
{
    let Some(interval) = journey.interval(index, step) else {
        return Ok(());
    };
    tallies.add(&interval, ended);
    write_interval(journey.plant, &interval, out)
}

/// Writes the line of the interval.
fn write_interval<O: Sink>(plant: &Plant, interval: &Interval, out: &mut O) -> Result<(), Failed>
    requires train { interval.now.train < trains plant.now }
    requires section { interval.now.section < length plant.now.tables.sections }
    ensures { WritesText O.Sink out.old out.new (stair_line plant.now interval.now) result }
{
    let mut line = LineBuffer::new();
    put_line(&mut line, plant, interval);
    write_whole(out, line.as_slice())
}

/// Writes the line of each section, of which these intervals were counted.
fn write_sections<O: Sink>(plant: &Plant, tallies: &Tallies, out: &mut O) -> Result<(), Failed>
    ensures { (ended : ℕ) (seen : List Interval) → IsTallied ended seen tallies.now
        → WritesText O.Sink out.old out.new (section_lines plant.now ended seen) result }
{
    for number in 0..plant.names().sections.len() {
        write_section(plant, SectionNo(number as u16), tallies, out)?;
    }
    Ok(())
}

/// Writes the line of the section.
fn write_section<O: Sink>(
    plant: &Plant,
    section: SectionNo,
    tallies: &Tallies,
    out: &mut O,
) -> Result<(), Failed>
    requires known { section < length plant.now.tables.sections }
    requires few { section < SECTIONS }
    ensures { (ended : ℕ) (seen : List Interval) → IsTallied ended seen tallies.now
        → WritesText O.Sink out.old out.new (section_line plant.now ended seen section) result }
{
    let mut line = LineBuffer::new();
    line.put(b"section");
    line.put_name(&plant.section(section).name);
    line.put_number(tallies.visits(section));
    line.put_sum(tallies.occupied(section));
    line.put(b"\n");
    write_whole(out, line.as_slice())
}
