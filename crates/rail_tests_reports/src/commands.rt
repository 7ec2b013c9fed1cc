//! What is read of a line: words, numbers and times. What command files spell, and what they are refused for, is in the
//! rows of `rail_rows`.

use rail_base::{Fault, Part, Reason, Refusal, Time};
use rail_text::{input_time, is_decimal, next_line, next_word, refused_at, value_of};

#[test]
fn cuts_lines_and_words(rt: HostRuntime) {
    assert!(rt; cut() == Some([true; 6]));
}

/// Whether these are the first line of a text, what is behind it, and the two words of the line; and whether there
/// is no line where there are no bytes, and no third word.
fn cut() -> Option<[bool; 6]> {
    let (line, rest) = next_line(b" at  A\r\nmove A")?;
    let (first, behind) = next_word(line)?;
    let (second, last) = next_word(behind)?;
    Some([
        line == b" at  A".as_slice(),
        rest == b"move A".as_slice(),
        first == b"at".as_slice(),
        second == b"A".as_slice(),
        next_line(b"").is_none(),
        next_word(last).is_none(),
    ])
}

#[test]
fn reads_decimal_numbers(rt: HostRuntime) {
    let numbers = [
        number("0"),
        number("907"),
        number("18446744073709551615"),
        number("18446744073709551616"),
    ];
    let others = [
        number(""),
        number("01"),
        number("25x"),
        number("+1"),
        number(" 1"),
    ];
    let most = Some(18_446_744_073_709_551_615);
    assert!(rt; (numbers, others) == ([Some(0), Some(907), most, most], [None; 5]));
}

/// The number that the word spells.
fn number(word: &str) -> Option<u64> {
    if is_decimal(word.as_bytes()) {
        Some(value_of(word.as_bytes()))
    } else {
        None
    }
}

#[test]
fn reads_times_up_to_ten_days(rt: HostRuntime) {
    let times = [
        input_time(b"00:01:00"),
        input_time(b"240:00:00.0"),
        input_time(b"240:00:00.1"),
        input_time(b"0:01:00"),
    ];
    assert!(rt; times == [Some(Time(600)), Some(Time(8_640_000)), None, None]);
}

#[test]
fn refuses_a_line(rt: HostRuntime) {
    let refusal = Refusal {
        reason: Reason::CommandForm,
        part: Part::Line,
        item: 3,
        step: 0,
    };
    assert_eq!(rt; refused_at(Reason::CommandForm, 3), Fault::Refused(refusal));
}
