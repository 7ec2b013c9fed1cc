//! The words of a line of the report, put at its end one after another.

ghost use Rattle.std.specs.Prelude.{◌≡◌, ◌+◌, ◌-◌, ◌≤◌, ◌<◌, ◌^◌, [], ◌∷◌, ◌++◌, length, decimal};
ghost use Rattle.rail_text.specs.declared.line_buffer.TheConstants.{ROOM};
ghost use Rattle.rail_rules.specs.Texts.{behind};
ghost use Rattle.rail_delay.specs.Reports.{lateness, times_words};

use rail_base::Time;
use rail_text::LineBuffer;

/// A planned and an actual time, as far as they are there.
#[derive(Clone, Copy)]
pub struct Times {
    pub planned: Option<Time>,
    pub actual: Option<Time>,
}

/// Puts a planned and an actual time, and how late that was.
pub fn put_times(line: &mut LineBuffer, times: &Times)
    requires { length line.old + 107 ≤ ROOM }
    ensures text { line.new ≡ line.old ++ behind (times_words times.now.planned times.now.actual) }
    ensures short { length line.new ≤ length line.old + 107 }
{
    line.put_time_or_dash(times.planned);
    line.put_time_or_dash(times.actual);
    line.put_number_or_dash(lateness(times));
}

/// How late something was, in tenths of a second, where both times are there.
pub fn lateness(times: &Times) -> Option<u64>
    ensures { result ≡ lateness times.now.planned times.now.actual }
{
    Some(times.actual?.0.saturating_sub(times.planned?.0))
}

/// Puts a word and a number.
pub fn put_count(line: &mut LineBuffer, word: &[u8], count: u64)
    requires room { length line.old + 51 ≤ ROOM }
    requires word { length word.now ≤ 9 }
    ensures text { line.new ≡ line.old ++ behind (word.now ∷ decimal count ∷ []) }
    ensures short { length line.new ≤ length line.old + 51 }
{
    line.put_word(word);
    line.put_number(count);
}

/// Puts a word and a sum that may be larger than 64 bits.
pub fn put_sum(line: &mut LineBuffer, word: &[u8], sum: u128)
    requires room { length line.old + 51 ≤ ROOM }
    requires word { length word.now ≤ 9 }
    ensures text { line.new ≡ line.old ++ behind (word.now ∷ decimal sum ∷ []) }
    ensures short { length line.new ≤ length line.old + 51 }
{
    line.put_word(word);
    line.put_sum(sum);
}
