//! Commands that change nothing, since the program has no policy of the name that they give.

ghost use Rattle.std.specs.Prelude.{◌≡◌};
ghost use Rattle.rail_explain.specs.Policies.{named_text, unknown_line};
ghost use Rattle.rail_text.specs.Writes.{WritesText};

use crate::refusals::write_file;
use crate::terminals::write_shown;
use rail_io::{Failed, Sink, write_whole};
use rail_text::{LineBuffer, NumberedLine, next_word, numbered_lines};

/// Whether the program has a policy of this name.
fn is_policy(name: &[u8]) -> bool {
    matches!(name, b"priority" | b"timetable" | b"fcfs" | b"rotating")
}

/// The policy that a line of a command file names: that which it puts in force, or retires.
fn named_policy(line: &[u8]) -> Option<&[u8]> {
    let (_, behind_time) = next_word(line)?;
    let (verb, behind_verb) = next_word(behind_time)?;
    if !matches!(verb, b"policy" | b"retire") {
        return None;
    }
    Some(next_word(behind_verb)?.0)
}

/// Writes a line for each command of the file that names a policy which the program does not have. Such a command changes
/// nothing: the history tells it as `untold`. A file of 2^32 - 1 bytes or more, which no form accepts, has no such line.
pub fn write_unknown_policies<O: Sink>(
    file: &str,
    commands: &[u8],
    out: &mut O,
) -> Result<(), Failed> {
    if commands.len() >= u32::MAX as usize {
        return Ok(());
    }
    for NumberedLine { number, line } in numbered_lines(commands) {
        if let Some(name) = named_policy(line)
            && !is_policy(name)
        {
            write_unknown(file, number, name, out)?;
        }
    }
    Ok(())
}

/// Writes the line for the command on the line of this number, which names this policy.
fn write_unknown<O: Sink>(file: &str, number: u32, name: &[u8], out: &mut O) -> Result<(), Failed>
    ensures { WritesText O.Sink out.old out.new (unknown_line file.now number name.now) result }
{
    let mut place = LineBuffer::new();
    place.put(b"line");
    place.put_number(u64::from(number));
    place.put(b": no policy is named ");
    write_file(Some(file), out)?;
    write_whole(out, place.as_slice())?;
    write_named(name, out)
}

/// Writes the name, and what follows from it.
fn write_named<O: Sink>(name: &[u8], out: &mut O) -> Result<(), Failed>
    ensures { WritesText O.Sink out.old out.new (named_text name.now) result }
{
    write_shown(name, out)?;
    write_whole(
        out,
        b", so the command changed nothing; the policies are priority, timetable, fcfs and rotating\n",
    )
}
