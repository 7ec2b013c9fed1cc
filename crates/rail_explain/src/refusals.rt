//! The line that explains a refusal.

ghost use Rattle.std.specs.Prelude.{◌≡◌, ◌+◌, ◌≤◌, [], ◌∷◌, ◌++◌, length};
ghost use Rattle.std.specs.Option.{option_copied};
ghost use Rattle.rail_explain.specs.Explanations.{explanation, file_text, read_fault_line, refusal_line};
ghost use Rattle.rail_explain.specs.Meanings.{meaning_text};
ghost use Rattle.rail_explain.specs.Places.{key_at};
ghost use Rattle.rail_explain.specs.declared.refusals.TheConstants.{MOST};
ghost use Rattle.rail_text.specs.Writes.{WritesText};
ghost use Rattle.rail_text.specs.declared.line_buffer.TheConstants.{ROOM};

use crate::expectations::{kind_text, put_range, unknown_text};
use crate::places::{key_at, put_item, put_keys, put_place};
use crate::reasons::reason_text;
use crate::terminals::write_shown;
use rail_base::{Name, Reason, Refusal};
use rail_io::{Failed, Sink, write_whole};
use rail_text::LineBuffer;

/// How many bytes the explanation of a refusal has at most.
pub const MOST: usize = 400;

/// The explanation of a refusal, which has a name where its item has one: the item, then the key, joint, step or place,
/// and what was expected there. It stands behind the name of the file and has no line feed.
pub fn explained(refusal: &Refusal, name: Option<Name>) -> LineBuffer
    ensures text { result ≡ explanation refusal.now name }
    ensures short { length result ≤ MOST }
{
    let mut line = LineBuffer::new();
    put_item(&mut line, refusal, name);
    put_place(&mut line, refusal);
    put_meaning(&mut line, refusal);
    line
}

/// Writes the line of a refusal: the name of the file in which it lies, where it lies in one, its explanation, and what the
/// file reads there.
pub fn write_refusal<O: Sink>(
    file: Option<&str>,
    refusal: &Refusal,
    name: Option<Name>,
    detail: &LineBuffer,
    out: &mut O,
) -> Result<(), Failed>
    ensures { WritesText O.Sink out.old out.new (refusal_line (option_copied file.entry) refusal.now name detail.now) result }
{
    write_file(file, out)?;
    write_whole(out, explained(refusal, name).as_slice())?;
    write_end(detail, out)
}

/// Writes the detail and a line feed.
fn write_end<O: Sink>(detail: &LineBuffer, out: &mut O) -> Result<(), Failed>
    ensures { WritesText O.Sink out.old out.new (detail.now ++ 10 ∷ []) result }
{
    write_whole(out, detail.as_slice())?;
    write_whole(out, b"\n")
}

/// Writes that the file could not be read.
pub fn write_read_fault<O: Sink>(file: &str, out: &mut O) -> Result<(), Failed>
    ensures { WritesText O.Sink out.old out.new (read_fault_line file.now) result }
{
    write_file(Some(file), out)?;
    write_whole(out, b"the file is not there, or could not be read\n")
}

/// Writes the name of the file in which a refusal lies, where it lies in one, with a colon and a space.
pub(crate) fn write_file<O: Sink>(file: Option<&str>, out: &mut O) -> Result<(), Failed>
    ensures { WritesText O.Sink out.old out.new (file_text (option_copied file.entry)) result }
{
    let Some(file) = file else {
        return Ok(());
    };
    write_shown(file.as_bytes(), out)?;
    write_whole(out, b": ")
}

/// Puts what the reason means, and what was expected at the key.
fn put_meaning(line: &mut LineBuffer, refusal: &Refusal)
    requires { length line.old + 250 ≤ ROOM }
    ensures text { line.new ≡ line.old ++ meaning_text refusal.now.reason (key_at refusal.now) refusal.now }
    ensures short { length line.new ≤ length line.old + 250 }
{
    match (refusal.reason, key_at(refusal)) {
        (Reason::Range, Some(key)) => put_range(line, key.form),
        (Reason::WrongKind, Some(key)) => line.put(kind_text(key.form)),
        (Reason::Unknown, Some(key)) => line.put(unknown_text(key.name)),
        (Reason::KeyUnknown, _) => {
            line.put(b" has a key that is none of its keys");
            put_keys(line, refusal.part);
        }
        _ => line.put(reason_text(refusal)),
    }
}
