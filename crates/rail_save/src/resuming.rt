//! A saved run is resumed.

ghost use Rattle.std.specs.Prelude.{◌≡◌, ◌-◌, ◌<◌, ◌^◌, [], IfErr, IfOk, IsTrue, OnOk, length, reverse};
ghost use Rattle.rail_engine.specs.Engines.{StandsFor};
ghost use Rattle.rail_history.specs.LineReads.{lines_of};
ghost use Rattle.rail_history.specs.LinesLeft.{lines_left};
ghost use Rattle.rail_laws_end.specs.Forks.{are_marks};
ghost use Rattle.rail_ledger.specs.Inputs.{input_in};
ghost use Rattle.rail_policy.specs.Desks.{run_seats};
ghost use Rattle.rail_rules.specs.WritableLines.{IsNamed};
ghost use Rattle.rail_save.specs.Snapshots.{IsOtherFault, IsRefusedSnapshot, IsRefusedUnread, IsResumed, IsSnapshot};

use crate::saving::HEADER;
use rail_base::{Fault, Reason};
use rail_engine::Engine;
use rail_history::{History, Lines, read_history};
use rail_plan::Plant;
use rail_policy::{Desk, Seen};
use rail_text::refused_at;
use std::alloc::Global;

/// Follows the lines of a snapshot. The engine has just begun, and is given back standing for the front of the snapshot; a
/// custom policy is not asked.
///
/// A snapshot is refused by the number of a line, the header counted as the first: as no snapshot at the first line that is
/// no line of one, the lack of the last line feed included; else, as one of another run, at the first line with which the
/// lines so far are not those of a run of this plant with these commands and policies. A line behind the end line is such a
/// line. The header alone is the snapshot of no line. `OutOfMemory` comes where the memory for the lines of the file is not
/// found. In each of these cases the engine is dropped.
pub fn resume(alloc: Global, engine: Engine, bytes: &[u8]) -> Result<Engine, Fault>
    requires begun { let desk = ⟦<Desk as Seen>⟧.table engine.desk in StandsFor (run_seats desk) [] engine.core desk }
    requires marks { IsTrue (are_marks (run_seats (⟦<Desk as Seen>⟧.table engine.desk))) }
    requires short { length bytes.now < 2 ^ 32 - 1 }
    ensures input { IfOk result (λ after. after.core.input ≡ engine.core.input) }
    ensures resumed { let table = ⟦<Desk as Seen>⟧.table in
        IfOk result (λ after. IsResumed (run_seats (table engine.desk)) bytes.now after.core (table after.desk)) }
    ensures refused { let seats = run_seats (⟦<Desk as Seen>⟧.table engine.desk) in
        IfErr result (IsRefusedSnapshot (input_in engine.core.input) seats bytes.now) }
{
    let mut engine = engine;
    let history = read_snapshot(alloc, engine.plant(), bytes)?;
    let mut lines = history.lines(alloc)?;
    follow_lines(&mut engine, &mut lines)?;
    Ok(engine)
}

/// Reads the lines of a snapshot.
fn read_snapshot(alloc: Global, plant: &Plant, bytes: &[u8]) -> Result<History, Fault>
    requires named { IsNamed plant.now }
    requires short { length bytes.now < 2 ^ 32 - 1 }
    ensures read { IfOk result (λ history. IsSnapshot plant.now bytes.now (lines_of history)) }
    ensures short { IfOk result (λ history. length (lines_of history) < 2 ^ 32 - 1) }
    ensures refused { IfErr result (IsRefusedUnread plant.now bytes.now) }
{
    let Some(text) = bytes.strip_prefix(HEADER) else {
        return Err(refused_at(Reason::SnapshotForm, 1));
    };
    match read_history(alloc, plant.names(), text) {
        Ok(history) => Ok(history),
        Err(Fault::Refused(refusal)) => Err(refused_at(Reason::SnapshotForm, refusal.item + 1)),
        Err(Fault::OutOfMemory) => Err(Fault::OutOfMemory),
    }
}

/// Follows the lines of a snapshot up to the first with which the lines so far are not those of a run.
fn follow_lines(engine: &mut Engine, lines: &mut Lines<'_>) -> Result<(), Fault>
    requires begun { let desk = ⟦<Desk as Seen>⟧.table engine.old.desk in StandsFor (run_seats desk) [] engine.old.core desk }
    requires marks { IsTrue (are_marks (run_seats (⟦<Desk as Seen>⟧.table engine.old.desk))) }
    requires short { length (lines_left lines.old) < 2 ^ 32 - 1 }
    ensures input { engine.new.core.input ≡ engine.old.core.input }
    ensures followed { let table = ⟦<Desk as Seen>⟧.table in
        OnOk result (StandsFor (run_seats (table engine.old.desk)) (reverse (lines_left lines.old)) engine.new.core (table engine.new.desk)) }
    ensures other { let seats = run_seats (⟦<Desk as Seen>⟧.table engine.old.desk) in
        IfErr result (IsOtherFault (input_in engine.old.core.input) seats (lines_left lines.old)) }
{
    let mut number = 1;
    while let Some(entry) = lines.next_entry() {
        number += 1;
        if !engine.follow(entry, lines.trains()) {
            return Err(refused_at(Reason::SnapshotOther, number));
        }
    }
    Ok(())
}
