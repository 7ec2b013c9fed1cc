//! `save COUNT SCENE TIMETABLE COMMANDS`: a snapshot of a run after so many of its lines.

ghost use Rattle.std.specs.Prelude.{◌≡◌, IsTrue, None, map, true};
ghost use Rattle.rail_command_line.specs.Forms.{scenario_files, scenario_in};
ghost use Rattle.rail_policy.specs.Seats.{is_fine_deck};
ghost use Rattle.rail_forms.specs.Answers.{IsAnswer};
ghost use Rattle.rail_forms.specs.BegunRuns.{HasBegun, input_of, seats_of};
ghost use Rattle.rail_forms.specs.Promises.{KeepsPromise, WritesAnswer, ended, is_of_bytes};
ghost use Rattle.rail_forms.specs.Snapshots.{AnswersSave, SavesInput, SavesInputInPart};

use crate::beginning::Begun;
use crate::scenario::ScenarioFiles;
use crate::status::Status;
use rail_command_line::Scenario;
use rail_io::{Shelf, Sink};
use rail_policy::{Desk, Policy, Seen};
use std::alloc::Global;

/// Writes a snapshot of the scenario's run after so many lines, or after its end line where it has fewer.
pub fn answer<S: Shelf, O: Sink>(
    alloc: Global,
    count: u64,
    scenario: &Scenario,
    shelf: &mut S,
    out: &mut O,
    deck: Vec<Box<dyn Policy>>,
) -> Result<(), Status>
    requires fine { IsTrue (is_fine_deck (map ⟦<Box<dyn Policy> as Policy>⟧.seat deck.items)) }
    ensures kept { KeepsPromise S.Shelf O.Sink (scenario_files (scenario_in scenario.now)) shelf.old shelf.new out.old out.new (ended result) }
    ensures answer { AnswersSave count (scenario_in scenario.now) (map ⟦<Box<dyn Policy> as Policy>⟧.seat deck.items)
        (S.told shelf.old) (O.written out.old) (O.written out.new) (ended result) }
{
    let files = ScenarioFiles::read(alloc, scenario, shelf)?;
    let begun = files.begin(alloc, deck)?;
    report(count, begun, out)
}

/// Follows the run through so many lines, and writes its snapshot.
fn report<O: Sink>(count: u64, begun: Begun, out: &mut O) -> Result<(), Status>
    requires { HasBegun ⟦<Desk as Seen>⟧.table begun }
    ensures answer { let input = input_of begun in let seats = seats_of ⟦<Desk as Seen>⟧.table begun in
        IsAnswer None (SavesInput count input seats (O.written out.old) (O.written out.new))
        (SavesInputInPart count input seats (O.written out.old) (O.written out.new)) (ended result) }
    ensures writes { WritesAnswer O.Sink out.old out.new (ended result) }
    ensures of_bytes { is_of_bytes (ended result) ≡ true }
{
    begun.save(count, out)?;
    Ok(())
}
