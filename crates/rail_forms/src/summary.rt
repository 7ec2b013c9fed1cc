//! `gen NUMBER`: a run of the made-up scene of the number, told in one line.

ghost use Rattle.std.specs.Prelude.{◌≡◌, ◌<◌, [], IsTrue, None, map, true};
ghost use Rattle.rail_io.specs.Writes.{Adds, AddsPrefix};
ghost use Rattle.rail_policy.specs.Seats.{is_fine_deck};
ghost use Rattle.rail_forms.specs.Answers.{IsAnswer};
ghost use Rattle.rail_forms.specs.BegunRuns.{HasBegun, input_of, seats_of};
ghost use Rattle.rail_forms.specs.NotedRuns.{ReportsRun};
ghost use Rattle.rail_forms.specs.Promises.{WritesAnswer, ended, is_of_bytes};
ghost use Rattle.rail_forms.specs.Summaries.{AnswersGen, IsSummaryText, summary_line, summary_of};

use crate::beginning::Begun;
use crate::notes::LineNotes;
use crate::status::Status;
use rail_base::{Entry, Time, TrainNo, What};
use rail_delay::put_count;
use rail_gen::scene_of;
use rail_input::{ReadInput, scene_input};
use rail_io::{Sink, write_whole};
use rail_plan::Plant;
use rail_policy::{Desk, Policy, Seen, names_of, read_marks};
use rail_text::LineBuffer;
use std::alloc::Global;
use std::convert::Infallible;

/// What is counted of the lines of a run.
#[derive(Clone, Copy, Debug, PartialEq, Eq)]
pub(crate) struct Summary {
    /// How many moves were admitted.
    moves: u64,
    /// How many lines are not hold lines.
    lines: u64,
    /// How many lines are hold lines.
    holds: u64,
    /// How many trains left over their last portal.
    outs: u64,
    /// The time of the last line.
    last: Time,
}

impl Summary {
    /// That of no line.
    fn new() -> Summary
        ensures { result ≡ summary_of [] }
    {
        Summary {
            moves: 0,
            lines: 0,
            holds: 0,
            outs: 0,
            last: Time(0),
        }
    }
}

impl LineNotes for Summary {
    ghost use Rattle.rail_forms.specs.Summaries.{summary_of};

    type Fault = Infallible;

    ghost are_noted = { λ input front first now. now ≡ summary_of front };

    fn note_line(
        &mut self,
        _plant: &Plant,
        entry: Entry,
        _listed: &[TrainNo],
    ) -> Result<(), Infallible> {
        self.last = entry.at;
        if let What::Hold { .. } = entry.what {
            self.holds += 1;
            return Ok(());
        }
        self.lines += 1;
        match entry.what {
            What::Admit { .. } => self.moves += 1,
            What::Out { .. } => self.outs += 1,
            _ => {}
        }
        Ok(())
    }
}

/// Runs the made-up scene of the number, and writes the line that tells of that run. The policy that
/// is in force first is the one that the scene names, and the first of the deck where it has none of that name.
pub fn answer<O: Sink>(
    alloc: Global,
    number: u64,
    out: &mut O,
    deck: Vec<Box<dyn Policy>>,
) -> Result<(), Status>
    requires fine { IsTrue (is_fine_deck (map ⟦<Box<dyn Policy> as Policy>⟧.seat deck.items)) }
    ensures answer { AnswersGen number (map ⟦<Box<dyn Policy> as Policy>⟧.seat deck.items)
        (O.written out.old) (O.written out.new) (ended result) }
    ensures writes { WritesAnswer O.Sink out.old out.new (ended result) }
    ensures of_bytes { is_of_bytes (ended result) ≡ true }
{
    let names = names_of(alloc, &deck)?;
    read_marks(&deck);
    let scene = scene_of(alloc, number)?;
    let ReadInput {
        plant,
        commands,
        force,
    } = scene_input(alloc, &scene, &names)?;
    let desk = Desk::new(deck, force);
    let begun = Begun::new(alloc, plant, commands, desk)?;
    summarize(number, begun, out)
}

/// Follows the run to its end, and writes the line that tells of that run.
fn summarize<O: Sink>(number: u64, begun: Begun, out: &mut O) -> Result<(), Status>
    requires { HasBegun ⟦<Desk as Seen>⟧.table begun }
    ensures answer { let input = input_of begun in let seats = seats_of ⟦<Desk as Seen>⟧.table begun in
        IsAnswer None (ReportsRun (IsSummaryText number) input seats (Adds (O.written out.old) (O.written out.new)))
        (ReportsRun (IsSummaryText number) input seats (AddsPrefix (O.written out.old) (O.written out.new))) (ended result) }
    ensures writes { WritesAnswer O.Sink out.old out.new (ended result) }
    ensures of_bytes { is_of_bytes (ended result) ≡ true }
{
    let mut summary = Summary::new();
    let Ok(engine) = begun.follow_to_end(&mut summary);
    let line = text_of(number, engine.plant().moves().trains(), &summary);
    write_whole(out, line.as_slice())?;
    Ok(())
}

/// The line of a run with so many trains.
fn text_of(number: u64, trains: u16, summary: &Summary) -> LineBuffer
    ensures { result ≡ summary_line number trains summary.now }
{
    let mut line = LineBuffer::new();
    line.put(b"gen");
    line.put_number(number);
    put_count(&mut line, b"trains", u64::from(trains));
    put_count(&mut line, b"moves", summary.moves);
    put_count(&mut line, b"lines", summary.lines);
    put_count(&mut line, b"holds", summary.holds);
    line.put_word(b"last");
    line.put_time(summary.last);
    put_count(&mut line, b"out", summary.outs);
    line.put(b"\n");
    line
}
