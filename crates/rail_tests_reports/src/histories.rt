//! History files: what is read. What they are refused for is in the rows of `rail_rows`.

use crate::reports::HELD;
use indexmap::IndexSet;
use rail_base::{Fault, Name, Names};
use rail_history::read_history;
use std::alloc::{AllocError, Global};

// A file for the sections X, Y and the trains A, B, and what is read of it: the numbers of entries and of lists
// and of the trains in all lists. In a file `|` is a line feed.
const FILES: &str = "
 = 0 0 0
00:01:48.0 end| = 1 1 0
00:01:48.0 end B A A| = 1 1 3
00:01:48.0 ready A 0| = 1 0 0
00:01:48.0 ready A 65535| = 1 0 0
00:01:48.0 told 0|00:00:00.0 untold 65535| = 2 0 0
100:01:48.0 out A|00:01:48.0 free Y A|00:01:48.0 arrive B 1|00:01:48.0 enter A 1 X| = 4 0 0
00:01:48.0 hold A 1 stopped|00:01:48.0 hold A 1 closed X|00:01:48.0 hold A 1 blocked X B|00:01:48.0 hold A 1 nolist| = 4 0 0
00:01:48.0 admit A 1 pulled|00:01:48.0 admit A 1 appended|00:01:48.0 admit A 1 fresh B A*3 B|00:01:48.0 end A| = 4 2 6
00:01:48.0 admit A 1 fresh A*2 B| = 1 1 3
00:01:48.0 admit A 1 fresh A*32767 B| = 1 1 32768
";

// Two trains that pass each other at a station with two tracks.
const PASSING: &str = "\
00:01:48.0 ready A 1
00:01:48.0 ready B 1
00:01:48.0 admit A 1 appended
00:01:48.0 admit B 1 appended
00:02:00.0 enter A 1 W
00:02:00.0 enter B 1 E
00:02:40.0 enter A 1 PW
00:02:40.0 enter B 1 PE
00:02:42.0 enter A 1 L1
00:02:42.0 enter B 1 L2
00:02:45.6 free W A
00:02:45.6 free E B
00:02:47.6 free PW A
00:02:47.6 free PE B
00:03:10.0 ready A 2
00:03:10.0 ready B 2
00:03:10.0 admit A 2 pulled
00:03:10.0 admit B 2 pulled
00:03:22.0 arrive A 1
00:03:22.0 arrive B 1
00:03:22.0 enter A 2 PE
00:03:22.0 enter B 2 PW
00:03:24.0 enter A 2 E
00:03:24.0 enter B 2 W
00:03:27.6 free L1 A
00:03:27.6 free L2 B
00:03:29.6 free PW B
00:03:29.6 free PE A
00:04:04.0 arrive A 2
00:04:04.0 arrive B 2
00:04:07.6 out A
00:04:07.6 out B
00:04:09.6 free W B
00:04:09.6 free E A
00:04:09.6 end
";

#[test]
fn reads_whole_histories(rt: HostRuntime) {
    let alloc = rt.alloc();
    let are_told = [
        is_told(alloc, "A B", HELD, "41 1 0"),
        is_told(alloc, "A B", PASSING, "35 1 0"),
        is_told(alloc, "A", PASSING, "refused 2"),
    ];
    assert_eq!(rt; are_told, [Ok(true); 3]);
}

/// Whether this is read of the history of the station, for these trains.
fn is_told(alloc: Global, trains: &str, file: &str, want: &str) -> Result<bool, AllocError> {
    let told = told_of(alloc, "W PW L1 L2 PE E", trains, file.as_bytes())?;
    Ok(told.as_str() == want)
}

#[test]
fn reads_lines_and_their_lists(rt: HostRuntime) {
    let other = first_other(rt.alloc());
    assert!(rt; other.is_none(), "{other:?}");
}

/// The first of the files of which is read otherwise than it says.
fn first_other(alloc: Global) -> Option<&'static str> {
    for case in FILES.lines().skip(1) {
        if !holds(alloc, case).unwrap_or(false) {
            return Some(case);
        }
    }
    None
}

/// Whether of the file is read what it says.
fn holds(alloc: Global, case: &str) -> Option<bool> {
    let (file, wanted) = case.split_once(" = ")?;
    let told = told(alloc, file).ok()?;
    Some(told.as_str() == wanted)
}

/// What is read of the file, as it stands in the table.
fn told(alloc: Global, file: &str) -> Result<String, AllocError> {
    told_of(alloc, "X Y", "A B", bytes_of(alloc, file)?.as_slice())
}

/// What is read of the bytes, for these sections and trains, as it stands in the table.
fn told_of(
    alloc: Global,
    sections: &str,
    trains: &str,
    bytes: &[u8],
) -> Result<String, AllocError> {
    let names = Names {
        sections: names_of(alloc, sections)?,
        trains: names_of(alloc, trains)?,
    };
    if bytes.len() > 1_000_000 || names.sections.len() > 9 || names.trains.len() > 9 {
        return Err(AllocError);
    }
    match read_history(alloc, &names, bytes) {
        Ok(history) => {
            let entries = history.entries.len();
            let lists = history.lists.len();
            let mut trains = 0usize;
            for list in &history.lists {
                for item in list.as_slice() {
                    trains = trains.saturating_add(item.count);
                }
            }
            format!(in alloc; "{entries} {lists} {trains}")
        }
        Err(Fault::Refused(refusal)) => {
            let line = refusal.item;
            format!(in alloc; "refused {line}")
        }
        Err(Fault::OutOfMemory) => Err(AllocError),
    }
}

/// The bytes of a file of the table.
fn bytes_of(alloc: Global, file: &str) -> Result<Vec<u8>, AllocError> {
    let mut bytes = Vec::new(alloc);
    for byte in file.as_bytes() {
        bytes.push(if *byte == b'|' { b'\n' } else { *byte })?;
    }
    Ok(bytes)
}

/// The names in their order.
fn names_of(alloc: Global, text: &str) -> Result<IndexSet<Name>, AllocError> {
    let mut names = IndexSet::new(alloc);
    for word in text.split_whitespace() {
        if let Some(name) = Name::read(word.as_bytes()) {
            names.insert(name)?;
        }
    }
    Ok(names)
}
