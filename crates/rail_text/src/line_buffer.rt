//! The room in which a line of output is put together.

ghost use Rattle.std.specs.Prelude.{◌≡◌, ◌+◌, ◌<◌, ◌≤◌, [], ◌∷◌, ◌++◌, decimal, length, take};
ghost use Rattle.rail_base.specs.Clock.{time_text};
ghost use Rattle.rail_text.specs.Minutes.{tenths_text};
ghost use Rattle.rail_text.specs.Words.{number_word, time_word};
ghost use Rattle.rail_text.specs.declared.line_buffer.TheConstants.{ROOM};

use itoa::Buffer;
use rail_base::{Name, Time, write_time};
use std::marker::Model;

/// The bytes that a line has room for.
pub const ROOM: usize = 512;

/// A minute in tenths of a second.
const MINUTE: u64 = 600;

/// The text of a line so far, which contracts see as its bytes.
///
/// Most lines begin with a time of the same minute as the line before, whose text is kept.
#[derive(Drop)]
pub struct LineBuffer {
    bytes: [u8; ROOM],
    len: usize,
    /// How many bytes at the front are the text of `minute`, to be kept for the next line; 0 where they are not.
    kept: usize,
    /// The minute with which a line began, counted from 0.
    minute: u64,
}

impl Model for LineBuffer {
    ghost use Rattle.std.specs.Prelude.{List, ℕ, ◌≤◌, take};
    ghost use Rattle.rail_text.specs.Minutes.{IsKept};
    ghost use Rattle.rail_text.specs.declared.line_buffer.TheConstants.{ROOM};

    ghost Value = { List ℕ };

    ghost view = { λ line. take line.len line.bytes };

    ghost invariant = { λ line. (line.len ≤ ROOM) × IsKept line.bytes line.len line.kept line.minute };
}

impl LineBuffer {
    /// A line without a byte.
    pub fn new() -> LineBuffer
        ensures { result ≡ [] }
    {
        LineBuffer {
            bytes: [0; ROOM],
            len: 0,
            kept: 0,
            minute: 0,
        }
    }

    /// Takes all bytes away, so that another line can be put together in the same room.
    pub fn clear(&mut self)
        ensures { self.new ≡ [] }
    {
        self.len = 0;
        self.kept = 0;
    }

    /// Takes all bytes away, and puts the time. Where the line began with a time of the same minute, only what
    /// follows the minute is written.
    #[inline(always)]
    pub fn begin(&mut self, time: Time)
        ensures text { self.new ≡ time_text time }
        ensures short { length self.new ≤ 32 }
    {
        if self.kept > 0 && time.0 / MINUTE == self.minute {
            self.len = self.kept;
            self.put(&tenths_text(time.0 % MINUTE));
        } else {
            self.begin_minute(time);
        }
    }

    /// Takes all bytes away, and puts the time.
    #[cold]
    #[inline(never)]
    fn begin_minute(&mut self, time: Time)
        ensures text { self.new ≡ time_text time }
        ensures short { length self.new ≤ 32 }
    {
        let mut text = [0; 32];
        let len = write_time(time, &mut text);
        self.clear();
        self.put(&text[..len]);
        self.kept = self.len - 4;
        self.minute = time.0 / MINUTE;
    }

    /// The bytes so far.
    pub fn as_slice(&self) -> &[u8]
        ensures { result.now ≡ self.now }
    {
        &self.bytes[..self.len]
    }

    /// Puts the bytes at the end.
    #[inline(always)]
    pub fn put(&mut self, bytes: &[u8])
        requires { length self.old + length bytes.now ≤ ROOM }
        ensures { self.new ≡ self.old ++ bytes.now }
    {
        let end = self.len + bytes.len();
        self.bytes[self.len..end].copy_from_slice(bytes);
        self.len = end;
    }

    /// Puts a space and the word at the end.
    #[inline(always)]
    pub fn put_word(&mut self, word: &[u8])
        requires { length self.old + length word.now + 1 ≤ ROOM }
        ensures { self.new ≡ self.old ++ 32 ∷ word.now }
    {
        self.put(b" ");
        self.put(word);
    }

    /// Puts a space and the number in decimal digits at the end.
    #[inline(always)]
    pub fn put_number(&mut self, number: u64)
        requires { length self.old + 21 ≤ ROOM }
        ensures text { self.new ≡ self.old ++ 32 ∷ decimal number }
        ensures short { length self.new ≤ length self.old + 21 }
    {
        self.put_behind(b' ', number);
    }

    /// Puts the mark and the number in decimal digits at the end.
    #[inline(always)]
    fn put_behind(&mut self, mark: u8, number: u64)
        requires { length self.old + 21 ≤ ROOM }
        ensures text { self.new ≡ self.old ++ mark ∷ decimal number }
        ensures short { length self.new ≤ length self.old + 21 }
    {
        if number < 10 {
            self.put(&[mark, digit(number)]);
        } else if number < 100 {
            self.put(&[mark, digit(number / 10), digit(number % 10)]);
        } else {
            let mut digits = Buffer::new();
            self.put(&[mark]);
            self.put(digits.format(number).as_bytes());
        }
    }

    /// Puts a space and the number at the end, or a dash where there is none.
    pub fn put_number_or_dash(&mut self, number: Option<u64>)
        requires { length self.old + 21 ≤ ROOM }
        ensures text { self.new ≡ self.old ++ 32 ∷ number_word number }
        ensures short { length self.new ≤ length self.old + 21 }
    {
        match number {
            Some(number) => self.put_number(number),
            None => self.put_word(b"-"),
        }
    }

    /// Puts a space and the sum, which may be larger than 64 bits, in decimal digits at the end.
    pub fn put_sum(&mut self, sum: u128)
        requires { length self.old + 41 ≤ ROOM }
        ensures text { self.new ≡ self.old ++ 32 ∷ decimal sum }
        ensures short { length self.new ≤ length self.old + 41 }
    {
        let mut digits = Buffer::new();
        self.put_word(digits.format(sum).as_bytes());
    }

    /// Puts a star and the count in decimal digits at the end.
    pub fn put_count(&mut self, count: u64)
        requires { length self.old + 41 ≤ ROOM }
        ensures text { self.new ≡ self.old ++ 42 ∷ decimal count }
        ensures short { length self.new ≤ length self.old + 41 }
    {
        self.put_behind(b'*', count);
    }

    /// Puts a space and the time at the end, in its canonical form.
    pub fn put_time(&mut self, time: Time)
        requires { length self.old + 33 ≤ ROOM }
        ensures text { self.new ≡ self.old ++ 32 ∷ time_text time }
        ensures short { length self.new ≤ length self.old + 33 }
    {
        let mut text = [0; 32];
        let len = write_time(time, &mut text);
        self.put_word(&text[..len]);
    }

    /// Puts a space and the time at the end, or a dash where there is none.
    pub fn put_time_or_dash(&mut self, time: Option<Time>)
        requires { length self.old + 33 ≤ ROOM }
        ensures text { self.new ≡ self.old ++ 32 ∷ time_word time }
        ensures short { length self.new ≤ length self.old + 33 }
    {
        match time {
            Some(time) => self.put_time(time),
            None => self.put_word(b"-"),
        }
    }

    /// Puts a space and the name at the end. All 16 bytes in which a name lies are copied at once; what is behind the
    /// name is no part of the line.
    #[inline(always)]
    pub fn put_name(&mut self, name: &Name)
        requires { length self.old + 17 ≤ ROOM }
        ensures text { self.new ≡ self.old ++ 32 ∷ name.now }
        ensures short { length self.new ≤ length self.old + 17 }
    {
        self.put_front(name.padded(), name.as_bytes().len());
    }

    /// Puts a space and the first of the bytes, so many, at the end.
    #[inline(always)]
    fn put_front(&mut self, bytes: [u8; 16], count: usize)
        requires count { count ≤ 16 }
        requires room { length self.old + 17 ≤ ROOM }
        ensures { self.new ≡ self.old ++ 32 ∷ take count bytes }
    {
        let begin = self.len + 1;
        self.bytes[self.len] = b' ';
        self.bytes[begin..begin + 16].copy_from_slice(&bytes);
        self.len = begin + count;
    }
}

/// What follows the minute in the canonical form of a time, by the tenths of a second since then.
fn tenths_text(tenths: u64) -> [u8; 4]
    requires { tenths < 600 }
    ensures { result ≡ tenths_text tenths }
{
    let rest = tenths % 100;
    [
        digit(tenths / 100),
        digit(rest / 10),
        b'.',
        digit(rest % 10),
    ]
}

/// The digit of a number below 10.
fn digit(n: u64) -> u8
    requires { n < 10 }
    ensures { result ≡ 48 + n }
{
    b'0' + n as u8
}
