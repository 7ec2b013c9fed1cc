//! A run is saved.

ghost use Rattle.std.specs.Prelude.{◌≡◌, ◌≤◌, [], OnErr, OnOk};
ghost use Rattle.rail_engine.specs.Engines.{StandsFor};
ghost use Rattle.rail_io.specs.FaultCounts.{Rose};
ghost use Rattle.rail_policy.specs.Desks.{run_seats};
ghost use Rattle.rail_save.specs.Snapshots.{header};
ghost use Rattle.rail_save.specs.WrittenLines.{IsSaved, IsSavedInPart};

use crate::lines::write_lines;
use rail_engine::Engine;
use rail_io::{Failed, Sink, write_whole};
use rail_policy::{Desk, Seen};

/// The first line of a snapshot.
pub(crate) const HEADER: &[u8] = b"rail-snapshot 1\n";

/// Writes a snapshot of the run after `count` lines, or of the whole history where it has fewer. The engine has just begun;
/// afterwards it stands for the front of these lines. On `Failed` it has given at most one line more than were written
/// whole. It takes no memory.
pub fn save<O: Sink>(engine: &mut Engine, count: u64, out: &mut O) -> Result<(), Failed>
    requires begun { let desk = ⟦<Desk as Seen>⟧.table engine.old.desk in StandsFor (run_seats desk) [] engine.old.core desk }
    ensures input { engine.new.core.input ≡ engine.old.core.input }
    ensures saved { let table = ⟦<Desk as Seen>⟧.table in
        OnOk result (IsSaved (run_seats (table engine.old.desk)) count engine.new.core (table engine.new.desk) (O.written out.old) (O.written out.new)) }
    ensures failed { let table = ⟦<Desk as Seen>⟧.table in
        OnErr result (IsSavedInPart (run_seats (table engine.old.desk)) count engine.new.core (table engine.new.desk) (O.written out.old) (O.written out.new)) }
    ensures failed_rose { OnErr result (Rose (O.faults out.old) (O.faults out.new)) }
    ensures faults_never_fall { O.faults out.old ≤ O.faults out.new }
{
    write_whole(out, HEADER)?;
    write_lines(engine, count, out)?;
    Ok(())
}
