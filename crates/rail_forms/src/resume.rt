//! `resume SCENE TIMETABLE COMMANDS SNAPSHOT`: the lines of a run that follow those of a snapshot.

ghost use Rattle.std.specs.Prelude.{◌≡◌, ◌-◌, ◌<◌, ◌≤◌, ◌^◌, ◌++◌, ◌∷◌, [], List, IsTrue, None, OnErr, OnOk, Some, length, map, reverse, true};
ghost use Rattle.rail_command_line.specs.Files.{file_as};
ghost use Rattle.rail_command_line.specs.Forms.{scenario_files, scenario_in};
ghost use Rattle.rail_command_line.specs.declared.files.FileRole.TheVariants as role;
ghost use Rattle.rail_engine.specs.Engines.{StandsFor};
ghost use Rattle.rail_io.specs.FaultCounts.{Rose};
ghost use Rattle.rail_laws_end.specs.Forks.{are_marks};
ghost use Rattle.rail_ledger.specs.Inputs.{input_in};
ghost use Rattle.rail_policy.specs.Seats.{is_fine_deck};
ghost use Rattle.rail_rules.specs.Fronts.{Line};
ghost use Rattle.rail_rules.specs.RunHistories.{Seat};
ghost use Rattle.rail_save.specs.WrittenLines.{IsInRun};
ghost use Rattle.rail_forms.specs.BegunRuns.{HasBegun, input_of, seats_of};
ghost use Rattle.rail_forms.specs.Promises.{KeepsPromise, WritesAnswer, ended, is_of_bytes};
ghost use Rattle.rail_forms.specs.Snapshots.{AnswersResume, AnswersSnapshot, ResumesInput, ResumesInputInPart};

use crate::beginning::{Begun, most_steps};
use crate::files::read_file;
use crate::scenario::ScenarioFiles;
use crate::status::Status;
use rail_command_line::{FileRole, Scenario};
use rail_engine::Engine;
use rail_io::{Failed, Shelf, Sink};
use rail_policy::{Desk, Policy, Seen};
use rail_save::write_lines;
use std::alloc::Global;

/// Writes the lines behind the snapshot in the file of this name, in the run of the scenario.
pub fn answer<S: Shelf, O: Sink>(
    alloc: Global,
    scenario: &Scenario,
    snapshot: &str,
    shelf: &mut S,
    out: &mut O,
    deck: Vec<Box<dyn Policy>>,
) -> Result<(), Status>
    requires fine { IsTrue (is_fine_deck (map ⟦<Box<dyn Policy> as Policy>⟧.seat deck.items)) }
    ensures kept { KeepsPromise S.Shelf O.Sink
        (scenario_files (scenario_in scenario.now) ++ file_as role.Snapshot (Some snapshot.now) ∷ [])
        shelf.old shelf.new out.old out.new (ended result) }
    ensures answer { AnswersResume (scenario_in scenario.now) snapshot.now (map ⟦<Box<dyn Policy> as Policy>⟧.seat deck.items)
        (S.told shelf.old) (O.written out.old) (O.written out.new) (ended result) }
{
    let files = ScenarioFiles::read(alloc, scenario, shelf)?;
    let snapshot = read_file(alloc, shelf, snapshot, FileRole::Snapshot)?;
    let begun = files.begin(alloc, deck)?;
    report(alloc, begun, &snapshot, out)
}

/// Writes the lines of the run behind the snapshot.
fn report<O: Sink>(alloc: Global, begun: Begun, snapshot: &[u8], out: &mut O) -> Result<(), Status>
    requires begun { HasBegun ⟦<Desk as Seen>⟧.table begun }
    requires short { length snapshot.now < 2 ^ 32 - 1 }
    ensures answer { AnswersSnapshot None (input_of begun) (seats_of ⟦<Desk as Seen>⟧.table begun) snapshot.now
        (O.written out.old) (O.written out.new) (ended result) }
    ensures writes { WritesAnswer O.Sink out.old out.new (ended result) }
    ensures of_bytes { is_of_bytes (ended result) ≡ true }
{
    let engine = begun.resume(alloc, snapshot)?;
    write_rest(engine, out)?;
    Ok(())
}

/// Hands on the lines that are left to the engine, behind those of a snapshot. It takes no memory.
fn write_rest<O: Sink>(engine: Engine, out: &mut O) -> Result<(), Failed>
    requires somewhere { IsInRun engine.core (⟦<Desk as Seen>⟧.table engine.desk) }
    ensures written { (seats : List Seat) (lines : List Line) → IsTrue (are_marks seats)
        → StandsFor seats (reverse lines) engine.core (⟦<Desk as Seen>⟧.table engine.desk)
        → OnOk result (ResumesInput lines (input_in engine.core.input) seats (O.written out.old) (O.written out.new)) }
    ensures failed { (seats : List Seat) (lines : List Line)
        → StandsFor seats (reverse lines) engine.core (⟦<Desk as Seen>⟧.table engine.desk)
        → OnErr result (ResumesInputInPart lines (input_in engine.core.input) seats (O.written out.old) (O.written out.new)) }
    ensures failed_rose { OnErr result (Rose (O.faults out.old) (O.faults out.new)) }
    ensures faults_never_fall { O.faults out.old ≤ O.faults out.new }
{
    let mut engine = engine;
    let most = most_steps(engine.plant(), engine.commands().len() as u64);
    write_lines(&mut engine, most, out)
}
