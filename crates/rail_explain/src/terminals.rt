//! Text of the outside as it is shown on a terminal: no byte of it moves a cursor, rings a bell or ends a line.

ghost use Rattle.std.specs.Prelude.{◌≡◌, ◌+◌, ◌*◌, ◌<◌, ◌≤◌, ◌++◌, length, take};
ghost use Rattle.rail_explain.specs.Terminals.{hex_digit, is_plain, shown_byte, shown_text, spelled};
ghost use Rattle.rail_text.specs.Writes.{WritesText};
ghost use Rattle.rail_text.specs.declared.line_buffer.TheConstants.{ROOM};

use rail_io::{Failed, Sink, write_whole};
use rail_text::LineBuffer;

/// Whether a terminal shows the byte: it is no control character.
fn is_plain(byte: u8) -> bool
    ensures { result ≡ is_plain byte }
{
    byte >= 32 && byte != 127
}

/// The digit of a number below 16.
fn hex_digit(number: u8) -> u8
    requires { number < 16 }
    ensures { result ≡ hex_digit number }
{
    if number < 10 {
        b'0' + number
    } else {
        b'a' + (number - 10)
    }
}

/// The spelling of a control character: `\x` and its two digits.
fn spelled(byte: u8) -> [u8; 4]
    ensures { result ≡ spelled byte }
{
    [b'\\', b'x', hex_digit(byte / 16), hex_digit(byte % 16)]
}

/// Writes the text as it is shown.
pub fn write_shown<O: Sink>(text: &[u8], out: &mut O) -> Result<(), Failed>
    ensures { WritesText O.Sink out.old out.new (shown_text text.now) result }
{
    let mut left = text;
    while let Some((byte, others)) = left.split_first() {
        write_byte(*byte, out)?;
        left = others;
    }
    Ok(())
}

/// Writes the byte as it is shown.
fn write_byte<O: Sink>(byte: u8, out: &mut O) -> Result<(), Failed>
    ensures { WritesText O.Sink out.old out.new (shown_byte byte) result }
{
    if is_plain(byte) {
        write_whole(out, &[byte])
    } else {
        write_whole(out, &spelled(byte))
    }
}

/// Puts the text as it is shown, of which no more than the first `most` bytes are told.
pub(crate) fn put_shown(line: &mut LineBuffer, text: &[u8], most: usize)
    requires { length line.old + 4 * most ≤ ROOM }
    ensures text { line.new ≡ line.old ++ shown_text (take most text.now) }
    ensures short { length line.new ≤ length line.old + 4 * most }
{
    let end = text.len().min(most);
    put_bytes(line, &text[..end]);
}

/// Puts all bytes of the text as they are shown.
fn put_bytes(line: &mut LineBuffer, text: &[u8])
    requires { length line.old + 4 * length text.now ≤ ROOM }
    ensures text { line.new ≡ line.old ++ shown_text text.now }
    ensures short { length line.new ≤ length line.old + 4 * length text.now }
{
    for byte in text {
        put_byte(line, *byte);
    }
}

/// Puts the byte as it is shown.
fn put_byte(line: &mut LineBuffer, byte: u8)
    requires { length line.old + 4 ≤ ROOM }
    ensures text { line.new ≡ line.old ++ shown_byte byte }
    ensures short { length line.new ≤ length line.old + 4 }
{
    if is_plain(byte) {
        line.put(&[byte]);
    } else {
        line.put(&spelled(byte));
    }
}
