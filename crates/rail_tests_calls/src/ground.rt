//! Times and names as text, and what the other calls of the ground layer give.

use indexmap::IndexSet;
use rail_base::{
    Name, Names, Reason, SectionNo, Seq, Time, TrainNo, Word, ceil_div, read_time, write_time,
};
use std::alloc::{AllocError, Global};

// Each text with its time in tenths of a second.
const TIMES: &str = "00:02:45.6 1656
00:00:00 0
00:02:00 1200
00:02:00.0 1200
09:59:59.9 359999
99:59:59 3599990
100:00:00.0 3600000
240:00:00 8640000
999999999999:59:59.9 35999999999999999";

#[test]
fn reads_the_times_of_an_input(rt: HostRuntime) {
    let other = first_other(TIMES);
    assert!(rt; other.is_none(), "{other:?}");
}

/// The first of the texts that is read otherwise than as its time.
fn first_other(cases: &str) -> Option<&str> {
    for case in cases.lines() {
        if !is_time(case).unwrap_or(false) {
            return Some(case);
        }
    }
    None
}

/// Whether the text is read as its time.
fn is_time(case: &str) -> Option<bool> {
    let (text, time) = case.split_once(" ")?;
    Some(read_time(text.as_bytes()) == Some(Time(time.parse().ok()?)))
}

// The first one is empty.
const NO_TIMES: &str = "
now
0:00:00
000:00:00
010:00:00
1000000000000:00:00
00:60:00
00:00:60
00:00
00:0:00
00:00:00.
00:00:00.10
00:00:00,1
+1:00:00
0x:00:00";

#[test]
fn refuses_what_is_no_time(rt: HostRuntime) {
    let others = [
        read_time(b"00:00:00 "),
        read_time(b" 00:00:00"),
        read_time(b"\xff0:00:00"),
    ];
    assert!(rt; (first_read(NO_TIMES), others) == (None, [None; 3]));
}

/// The first of the texts that is read as a time.
fn first_read(texts: &str) -> Option<&str> {
    for text in texts.split("\n") {
        if read_time(text.as_bytes()).is_some() {
            return Some(text);
        }
    }
    None
}

// Each text, and before it its time in tenths of a second.
const WRITTEN: &str = "0 00:00:00.0
1656 00:02:45.6
359999 09:59:59.9
360000 10:00:00.0
3600000 100:00:00.0
18446744073709551615 512409557603043:06:01.5";

#[test]
fn writes_the_canonical_form(rt: HostRuntime) {
    let other = first_written_otherwise(WRITTEN);
    assert!(rt; other.is_none(), "{other:?}");
}

/// The first of the times that is written otherwise than as its text.
fn first_written_otherwise(cases: &str) -> Option<&str> {
    for case in cases.lines() {
        if !is_written_so(case).unwrap_or(false) {
            return Some(case);
        }
    }
    None
}

fn is_written_so(case: &str) -> Option<bool> {
    let (time, text) = case.split_once(" ")?;
    Some(is_written(time.parse().ok()?, text.as_bytes()))
}

/// Whether the time is written so, and nothing behind it.
fn is_written(time: u64, text: &[u8]) -> bool {
    let mut into = [b'#'; 32];
    let len = write_time(Time(time), &mut into);
    into.get(..len) == Some(text) && are_untouched(&into, len)
}

/// Whether the bytes from this number on are as they were.
fn are_untouched(bytes: &[u8], from: usize) -> bool {
    for (number, byte) in bytes.iter().enumerate() {
        if number >= from && *byte != b'#' {
            return false;
        }
    }
    true
}

#[test]
fn reads_the_names(rt: HostRuntime) {
    let names = [
        is_read(b"a"),
        is_read(b"S12_N-3"),
        is_read(b"0"),
        is_read(b"abcdefghijklmnop"),
    ];
    let others = [
        Name::read(b""),
        Name::read(b"abcdefghijklmnopq"),
        Name::read(b"a b"),
        Name::read(b"a.b"),
        Name::read(b"\xc3\xa9"),
        Name::read(b"a\0"),
    ];
    assert!(rt; (names, others) == ([true; 4], [None; 6]));
}

/// Whether the bytes are read as the name that has them.
fn is_read(bytes: &[u8]) -> bool {
    match Name::read(bytes) {
        Some(name) => name.as_bytes() == bytes,
        None => false,
    }
}

#[test]
fn divides_upwards(rt: HostRuntime) {
    let quotients = [
        ceil_div(0, 1),
        ceil_div(1, 10),
        ceil_div(10, 3),
        ceil_div(14, 7),
        ceil_div(15, 7),
    ];
    assert!(rt; quotients == [0, 1, 4, 2, 3]);
}

#[test]
fn numbers_the_reasons(rt: HostRuntime) {
    let numbers = [
        Reason::NotToml.number(),
        Reason::InUse.number(),
        Reason::RerouteName.number(),
    ];
    assert!(rt; numbers == [1, 20, 38]);
}

fn three_numbers(alloc: Global) -> Result<Vec<u16>, AllocError> {
    Ok(vec![in alloc; 3, 1, 2]?)
}

#[test]
fn gives_back_what_a_list_holds(rt: HostRuntime) {
    assert!(rt; is_given_back(rt.alloc()) == Ok([true; 2]));
}

/// Whether a list gives back its numbers, and the vector that it was made of.
fn is_given_back(alloc: Global) -> Result<[bool; 2], AllocError> {
    let items = Seq::from_vec(three_numbers(alloc)?);
    let is_seen = items.as_slice() == [3, 1, 2].as_slice();
    let is_taken = items.into_vec().as_slice() == [3, 1, 2].as_slice();
    Ok([is_seen, is_taken])
}

#[test]
fn gives_back_what_a_word_holds(rt: HostRuntime) {
    assert!(rt; is_spelled(rt.alloc(), "fcfs") == Ok(true));
}

/// Whether a word of the text has this text.
fn is_spelled(alloc: Global, text: &str) -> Result<bool, AllocError> {
    let word = Word::from_string(String::from_str(alloc, text)?);
    Ok(word.as_str() == text)
}

fn two_names(alloc: Global, first: Name, second: Name) -> Result<IndexSet<Name>, AllocError> {
    let mut names = IndexSet::new(alloc);
    names.insert(first)?;
    names.insert(second)?;
    Ok(names)
}

/// Names of two sections, and of two trains the other way round.
fn names_of(alloc: Global, here: Name, there: Name) -> Result<Names, AllocError> {
    let sections = two_names(alloc, here, there)?;
    let trains = two_names(alloc, there, here)?;
    Ok(Names { sections, trains })
}

/// The number of the section with the name, where there are two sections.
fn section(names: &Names, name: Name) -> Option<SectionNo> {
    if names.sections.len() == 2 {
        names.section(name)
    } else {
        None
    }
}

/// The number of the train with the name, where there are two trains.
fn train(names: &Names, name: Name) -> Option<TrainNo> {
    if names.trains.len() == 2 {
        names.train(name)
    } else {
        None
    }
}

#[test]
fn finds_numbers_by_name(rt: HostRuntime) {
    let sections = [Some(SectionNo(0)), Some(SectionNo(1)), None];
    let trains = [Some(TrainNo(1)), Some(TrainNo(0)), None];
    assert!(rt; numbers_found(rt.alloc()) == Some((sections, trains)));
}

/// The numbers of the sections A and B, and of C, which there is not; and those of the trains of these names.
fn numbers_found(alloc: Global) -> Option<([Option<SectionNo>; 3], [Option<TrainNo>; 3])> {
    let (here, there) = (Name::read(b"A")?, Name::read(b"B")?);
    let absent = Name::read(b"C")?;
    let names = names_of(alloc, here, there).ok()?;
    Some((
        [
            section(&names, here),
            section(&names, there),
            section(&names, absent),
        ],
        [
            train(&names, here),
            train(&names, there),
            train(&names, absent),
        ],
    ))
}
