//! `run SCENE [TIMETABLE [COMMANDS]]`: the history of the scene, line by line.

ghost use Rattle.std.specs.Prelude.{◌≡◌, ◌≤◌, IsTrue, None, OnOk, OnErr, map, true};
ghost use Rattle.rail_command_line.specs.Forms.{scenario_files, scenario_in};
ghost use Rattle.rail_io.specs.FaultCounts.{Rose};
ghost use Rattle.rail_policy.specs.Seats.{is_fine_deck};
ghost use Rattle.rail_forms.specs.Answers.{IsAnswer};
ghost use Rattle.rail_forms.specs.BegunRuns.{HasBegun, input_of, seats_of};
ghost use Rattle.rail_forms.specs.Promises.{KeepsPromise, WritesAnswer, ended, is_of_bytes};
ghost use Rattle.rail_forms.specs.Runs.{AnswersRun, RunsInput, RunsInputInPart};

use crate::beginning::Begun;
use crate::notes::LineNotes;
use crate::scenario::ScenarioFiles;
use crate::status::Status;
use rail_base::{Entry, TrainNo};
use rail_command_line::Scenario;
use rail_history::write_entry;
use rail_io::{Failed, Shelf, Sink};
use rail_plan::Plant;
use rail_policy::{Desk, Policy, Seen};
use rail_text::LineBuffer;
use std::alloc::Global;

/// Writes the history of the scenario.
pub fn answer<S: Shelf, O: Sink>(
    alloc: Global,
    scenario: &Scenario,
    shelf: &mut S,
    out: &mut O,
    deck: Vec<Box<dyn Policy>>,
) -> Result<(), Status>
    requires fine { IsTrue (is_fine_deck (map ⟦<Box<dyn Policy> as Policy>⟧.seat deck.items)) }
    ensures kept { KeepsPromise S.Shelf O.Sink (scenario_files (scenario_in scenario.now)) shelf.old shelf.new out.old out.new (ended result) }
    ensures answer { AnswersRun (scenario_in scenario.now) (map ⟦<Box<dyn Policy> as Policy>⟧.seat deck.items)
        (S.told shelf.old) (O.written out.old) (O.written out.new) (ended result) }
{
    let files = ScenarioFiles::read(alloc, scenario, shelf)?;
    let begun = files.begin(alloc, deck)?;
    report(begun, out)
}

/// Follows the run to its end, and writes its history.
fn report<O: Sink>(begun: Begun, out: &mut O) -> Result<(), Status>
    requires { HasBegun ⟦<Desk as Seen>⟧.table begun }
    ensures answer { let input = input_of begun in let seats = seats_of ⟦<Desk as Seen>⟧.table begun in
        IsAnswer None (RunsInput input seats (O.written out.old) (O.written out.new))
        (RunsInputInPart input seats (O.written out.old) (O.written out.new)) (ended result) }
    ensures writes { WritesAnswer O.Sink out.old out.new (ended result) }
    ensures of_bytes { is_of_bytes (ended result) ≡ true }
{
    write_history(begun, out)?;
    Ok(())
}

/// What hands on the lines of a history: each is put together in the same room.
#[derive(Drop)]
struct Writer<'o, O: Sink> {
    line: LineBuffer,
    out: &'o mut O,
}

impl<'o, O: Sink> LineNotes for Writer<'o, O> {
    ghost use Rattle.std.specs.Prelude.{◌≡◌};
    ghost use Rattle.rail_forms.specs.WrittenHistories.{AreWritten, IsWrittenInPart};

    type Fault = Failed;

    ghost are_noted = { λ input front first now. (now.out.ghost_name ≡ first.out.ghost_name)
        × AreWritten O.Sink input front first.out.now now.out.now };

    ghost is_cut = { λ input front first now. (now.out.ghost_name ≡ first.out.ghost_name)
        × IsWrittenInPart O.Sink input front first.out.now now.out.now };

    fn note_line(&mut self, plant: &Plant, entry: Entry, listed: &[TrainNo]) -> Result<(), Failed> {
        write_entry(plant.names(), entry, listed, &mut self.line, self.out)?;
        Ok(())
    }
}

/// Hands on the lines of the run one by one, until the history has ended. It takes no memory.
fn write_history<O: Sink>(begun: Begun, out: &mut O) -> Result<(), Failed>
    requires { HasBegun ⟦<Desk as Seen>⟧.table begun }
    ensures adds { OnOk result (RunsInput (input_of begun) (seats_of ⟦<Desk as Seen>⟧.table begun)
        (O.written out.old) (O.written out.new)) }
    ensures failed_adds_prefix { OnErr result (RunsInputInPart (input_of begun) (seats_of ⟦<Desk as Seen>⟧.table begun)
        (O.written out.old) (O.written out.new)) }
    ensures failed_rose { OnErr result (Rose (O.faults out.old) (O.faults out.new)) }
    ensures faults_never_fall { O.faults out.old ≤ O.faults out.new }
{
    let mut writer = Writer {
        line: LineBuffer::new(),
        out,
    };
    begun.follow_to_end(&mut writer)?;
    Ok(())
}
