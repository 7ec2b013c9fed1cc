//! The line of an entry of a history, written to a sink.

ghost use Rattle.std.specs.Prelude.{◌≤◌, IsTrue, OnOk, OnErr};
ghost use Rattle.rail_io.specs.FaultCounts.{Rose};
ghost use Rattle.rail_io.specs.Writes.{Adds, AddsPrefix};
ghost use Rattle.rail_rules.specs.Plant.{Plant};
ghost use Rattle.rail_rules.specs.Texts.{line_text};
ghost use Rattle.rail_rules.specs.WritableLines.{is_writable};
ghost use Rattle.rail_text.specs.Names.{HasNames};
ghost use Rattle.rail_history.specs.Lines.{line_of};

use crate::trains::put_brought;
use crate::words::put_what;
use rail_base::{Entry, Names, TrainNo};
use rail_io::{Failed, Sink, write_whole};
use rail_text::LineBuffer;

/// Writes the line of an entry. `kept` is the list of a fresh admission, or the trains that an end line
/// names; at another entry it isn't looked at. The trains and sections are those of the names. The line is
/// put together in `line`, whatever that has before. A line that names no list is one piece. It takes no
/// memory.
// In line where a run is followed: so the entry is not handed on through memory.
#[inline(always)]
pub fn write_entry<O: Sink>(
    names: &Names,
    entry: Entry,
    kept: &[TrainNo],
    line: &mut LineBuffer,
    out: &mut O,
) -> Result<(), Failed>
    requires { (plant : Plant) × HasNames plant names.now × IsTrue (is_writable plant (line_of entry kept.now)) }
    ensures adds { (plant : Plant) → HasNames plant names.now
        → OnOk result (Adds (O.written out.old) (O.written out.new) (line_text plant (line_of entry kept.now))) }
    ensures failed_adds_prefix { (plant : Plant) → HasNames plant names.now
        → OnErr result (AddsPrefix (O.written out.old) (O.written out.new) (line_text plant (line_of entry kept.now))) }
    ensures failed_rose { OnErr result (Rose (O.faults out.old) (O.faults out.new)) }
    ensures faults_never_fall { O.faults out.old ≤ O.faults out.new }
{
    line.begin(entry.at);
    put_what(line, names, &entry);
    put_brought(line, names, &entry, kept, out)?;
    line.put(b"\n");
    write_whole(out, line.as_slice())
}
