//! Times as text: the canonical form that is written, and the lenient one that is read.

ghost use Rattle.std.specs.Prelude.{◌≡◌, ℕ, ◌+◌, ◌*◌, ◌/◌, ◌%◌, ◌-◌, ◌<◌, ◌≤◌, ◌^◌, ◌∷◌, [], ◌++◌, ◌⊎◌, ◌↔◌, IsTrue, MatchOption, take, drop, length, codes};
ghost use Rattle.rail_base.specs.Clock.{IsLenientTime, hours_text, seconds_text, time_text, two_digits};

use crate::limits::HOUR_DIGITS;
use crate::numbers::Time;
use itoa::Buffer;
use std::str;

/// An hour in tenths of a second.
const HOUR: u64 = 36_000;
/// A minute in tenths of a second.
const MINUTE: u64 = 600;
/// A second in tenths of a second.
const SECOND: u64 = 10;
/// The first time, in tenths of a second, whose hours have more digits than an input may have.
const TOO_LONG: u64 = 36_000_000_000_000_000;

const _: () = prove!(HOUR_DIGITS == 12 && TOO_LONG == HOUR * 1_000_000_000_000);

/// Writes the canonical form `H:MM:SS.T` at the front of `into`, and gives its length.
pub fn write_time(time: Time, into: &mut [u8; 32]) -> usize
    ensures text { take result into.new ≡ time_text time }
    ensures len { result ≡ length (time_text time) }
    ensures rest { drop result into.new ≡ drop result into.old }
{
    let hours = time.0 / HOUR;
    let end = if hours < 100 {
        put(into, 0, &hours_pair(hours))
    } else {
        let mut digits = Buffer::new();
        put(into, 0, digits.format(hours).as_bytes())
    };
    put(into, end, &clock_text(time.0))
}

/// The time of a text of an input: `None` exactly where the text is not of the lenient form.
pub fn read_time(text: &[u8]) -> Option<Time>
    ensures { MatchOption result
        ((time : ℕ) → IsLenientTime text.now time → ⊥) (λ time. IsLenientTime text.now time) }
{
    let time = Time(likely_time(text)?);
    let mut written = [0; 32];
    let len = write_time(time, &mut written);
    if time.0 < TOO_LONG && is_lenient_form(text, &written[..len]) {
        Some(time)
    } else {
        None
    }
}

/// Puts the bytes at `at`, and gives the place behind them.
fn put(into: &mut [u8; 32], at: usize, bytes: &[u8]) -> usize
    requires { at + length bytes.now ≤ 32 }
    ensures end { result ≡ at + length bytes.now }
    ensures written { take result into.new ≡ take at into.old ++ bytes.now }
    ensures rest { (n : ℕ) → result ≤ n → drop n into.new ≡ drop n into.old }
{
    let end = at + bytes.len();
    into[at..end].copy_from_slice(bytes);
    end
}

/// What follows the hours in the canonical form of a time in tenths of a second.
fn clock_text(time: u64) -> [u8; 8]
    ensures { result ≡ 58 ∷ two_digits (time / 600 % 60) ++ 58 ∷ two_digits (time / 10 % 60) ++ 46 ∷ (48 + time % 10) ∷ [] }
{
    let [m1, m0] = pair(time / MINUTE % 60);
    let [s1, s0] = pair(time / SECOND % 60);
    [b':', m1, m0, b':', s1, s0, b'.', digit(time % 10)]
}

/// The text of hours below 100, which has two digits.
fn hours_pair(hours: u64) -> [u8; 2]
    requires { hours < 100 }
    ensures { result ≡ hours_text hours }
{
    pair(hours)
}

/// The two digits of a number below 100.
fn pair(n: u64) -> [u8; 2]
    requires { n < 100 }
    ensures { result ≡ two_digits n }
{
    [digit(n / 10), digit(n % 10)]
}

/// The digit of a number below 10.
fn digit(n: u64) -> u8
    requires { n < 10 }
    ensures { result ≡ 48 + n }
{
    b'0' + n as u8
}

/// Whether the text is the canonical one, or the same without its tenths where they are 0.
fn is_lenient_form(text: &[u8], canonical: &[u8]) -> bool
    ensures { IsTrue result ↔ ((text.now ≡ canonical.now) ⊎ (text.now ++ codes ".0" ≡ canonical.now)) }
{
    text == canonical || matches!(canonical.strip_suffix(b".0"), Some(whole) if text == whole)
}

/// The time that a text of the lenient form spells, in tenths of a second. Any other text gives
/// some time or none.
fn likely_time(text: &[u8]) -> Option<u64>
    ensures { (time : ℕ) → IsLenientTime text.now time → result ≡ Some time }
{
    match text {
        [seconds @ .., b'.', tenth] => {
            Some(likely_seconds(seconds)?.saturating_add(value(*tenth)))
        }
        _ => likely_seconds(text),
    }
}

/// The time that `H:MM:SS` spells, in tenths of a second.
fn likely_seconds(text: &[u8]) -> Option<u64>
    ensures { (seconds : ℕ) → seconds < 3_600_000_000_000_000 → text.now ≡ seconds_text seconds → result ≡ Some (10 * seconds) }
{
    let [hours @ .., b':', m1, m0, b':', s1, s0] = text else {
        return None;
    };
    let minutes = value(*m1) * 10 + value(*m0);
    let seconds = value(*s1) * 10 + value(*s0);
    let clock = minutes * MINUTE + seconds * SECOND;
    Some(
        likely_hours(hours)?
            .saturating_mul(HOUR)
            .saturating_add(clock),
    )
}

/// The number that the digits of the hours spell.
fn likely_hours(text: &[u8]) -> Option<u64>
    ensures { (hours : ℕ) → hours < 2 ^ 64 → text.now ≡ hours_text hours → result ≡ Some hours }
{
    str::from_utf8(text).ok()?.parse::<u64>().ok()
}

/// The number that a digit spells.
fn value(digit: u8) -> u64
    ensures { result ≡ digit - 48 }
{
    u64::from(digit.saturating_sub(b'0'))
}
