//! A line that brings no trains, put together to be compared.

ghost use Rattle.std.specs.Prelude.{◌≡◌, [], ◌≢◌};
ghost use Rattle.rail_history.specs.Lines.{bare};
ghost use Rattle.rail_rules.specs.Plant.{Plant};
ghost use Rattle.rail_rules.specs.Texts.{line_text};
ghost use Rattle.rail_text.specs.Names.{HasNames};

use crate::words::put_what;
use rail_base::{Entry, Names};
use rail_text::LineBuffer;

/// Puts the line of an entry without trains beside it, with its line feed, together in `line`, whatever that has before.
pub fn put_bare_line(line: &mut LineBuffer, names: &Names, entry: &Entry)
    ensures text { (plant : Plant) → HasNames plant names.now → line.new ≡ line_text plant (bare entry.now) }
    ensures some { line.new ≢ [] }
{
    line.begin(entry.at);
    put_what(line, names, entry);
    line.put(b"\n");
}
