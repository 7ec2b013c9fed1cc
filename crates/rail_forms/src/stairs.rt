//! `stairs SCENE [TIMETABLE [COMMANDS]]`: the blocking time stairway of a run, line by line.

ghost use Rattle.std.specs.Prelude.{◌≡◌, IsTrue, None, map, true};
ghost use Rattle.rail_command_line.specs.Forms.{scenario_files, scenario_in};
ghost use Rattle.rail_io.specs.Writes.{Adds, AddsPrefix};
ghost use Rattle.rail_policy.specs.Seats.{is_fine_deck};
ghost use Rattle.rail_forms.specs.Answers.{IsAnswer};
ghost use Rattle.rail_forms.specs.BegunRuns.{HasBegun, input_of, seats_of};
ghost use Rattle.rail_forms.specs.NotedRuns.{ReportsRun};
ghost use Rattle.rail_forms.specs.Promises.{KeepsPromise, WritesAnswer, ended, is_of_bytes};
ghost use Rattle.rail_forms.specs.Stairs.{AnswersStairs, IsStairsText};

use crate::beginning::Begun;
use crate::scenario::ScenarioFiles;
use crate::status::Status;
use rail_command_line::Scenario;
use rail_io::{Shelf, Sink};
use rail_policy::{Desk, Policy, Seen};
use rail_stairs::{Stairs, write_stairs};
use std::alloc::Global;

/// Writes the blocking time stairway of the scenario.
pub fn answer<S: Shelf, O: Sink>(
    alloc: Global,
    scenario: &Scenario,
    shelf: &mut S,
    out: &mut O,
    deck: Vec<Box<dyn Policy>>,
) -> Result<(), Status>
    requires fine { IsTrue (is_fine_deck (map ⟦<Box<dyn Policy> as Policy>⟧.seat deck.items)) }
    ensures kept { KeepsPromise S.Shelf O.Sink (scenario_files (scenario_in scenario.now)) shelf.old shelf.new out.old out.new (ended result) }
    ensures answer { AnswersStairs (scenario_in scenario.now) (map ⟦<Box<dyn Policy> as Policy>⟧.seat deck.items)
        (S.told shelf.old) (O.written out.old) (O.written out.new) (ended result) }
{
    let files = ScenarioFiles::read(alloc, scenario, shelf)?;
    let begun = files.begin(alloc, deck)?;
    report(alloc, begun, out)
}

/// Follows the run to its end, and writes the stairway of that run.
fn report<O: Sink>(alloc: Global, begun: Begun, out: &mut O) -> Result<(), Status>
    requires { HasBegun ⟦<Desk as Seen>⟧.table begun }
    ensures answer { let input = input_of begun in let seats = seats_of ⟦<Desk as Seen>⟧.table begun in
        IsAnswer None (ReportsRun IsStairsText input seats (Adds (O.written out.old) (O.written out.new)))
        (ReportsRun IsStairsText input seats (AddsPrefix (O.written out.old) (O.written out.new))) (ended result) }
    ensures writes { WritesAnswer O.Sink out.old out.new (ended result) }
    ensures of_bytes { is_of_bytes (ended result) ≡ true }
{
    let mut stairs = Stairs::new(alloc, begun.plant())?;
    let Ok(engine) = begun.follow_to_end(&mut stairs);
    write_stairs(engine.plant(), &stairs, out)?;
    Ok(())
}
