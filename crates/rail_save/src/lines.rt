//! Lines of a run are handed on.

ghost use Rattle.std.specs.Prelude.{◌≡◌, ◌≤◌, List, OnErr, OnOk};
ghost use Rattle.rail_engine.specs.Engines.{StandsFor};
ghost use Rattle.rail_io.specs.FaultCounts.{Rose};
ghost use Rattle.rail_rules.specs.Fronts.{Front};
ghost use Rattle.rail_rules.specs.RunHistories.{Seat};
ghost use Rattle.rail_save.specs.WrittenLines.{IsInRun, IsWritten, IsWrittenInPart};

use rail_engine::Engine;
use rail_history::write_entry;
use rail_io::{Failed, Sink};
use rail_policy::{Desk, Seen};
use rail_text::LineBuffer;

/// Hands on the next lines of the run, `count` of them, or fewer up to the end line. Behind the end line none is left, and
/// nothing is written. On `Failed` the engine has given the line that was not written to its end. It takes no memory.
pub fn write_lines<O: Sink>(engine: &mut Engine, count: u64, out: &mut O) -> Result<(), Failed>
    requires somewhere { IsInRun engine.old.core (⟦<Desk as Seen>⟧.table engine.old.desk) }
    ensures input { engine.new.core.input ≡ engine.old.core.input }
    ensures written { let table = ⟦<Desk as Seen>⟧.table in (seats : List Seat) (front : Front)
        → StandsFor seats front engine.old.core (table engine.old.desk)
        → OnOk result (IsWritten seats front count engine.new.core (table engine.new.desk) (O.written out.old) (O.written out.new)) }
    ensures failed { let table = ⟦<Desk as Seen>⟧.table in (seats : List Seat) (front : Front)
        → StandsFor seats front engine.old.core (table engine.old.desk)
        → OnErr result (IsWrittenInPart seats front count engine.new.core (table engine.new.desk) (O.written out.old) (O.written out.new)) }
    ensures failed_rose { OnErr result (Rose (O.faults out.old) (O.faults out.new)) }
    ensures faults_never_fall { O.faults out.old ≤ O.faults out.new }
{
    let mut line = LineBuffer::new();
    for _ in 0..count {
        let Some(entry) = engine.step() else {
            return Ok(());
        };
        let plant = engine.plant();
        write_entry(plant.names(), entry, engine.listed(), &mut line, out)?;
    }
    Ok(())
}
