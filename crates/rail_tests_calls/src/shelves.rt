//! Shelves and sinks: what is read of the files in memory and of the system, and what is written, with a
//! call that fails; each call through the bound of its trait too.
use rail_base::{OutOfMemory, Seq, Word};
use rail_io::{
    Failed, File, FileShelf, GatheredSink, MemoryShelf, MemorySink, OutSink, ReadWhole, Shelf,
    Sink, SureShelf, SureSink, read_whole, write_whole,
};
use std::alloc::{AllocError, Global};
use std::fmt::Display;
use std::{env, fs, io};

fn file(alloc: Global, name: &str, bytes: &[u8]) -> Result<File, AllocError> {
    let name = Word::from_string(String::from_str(alloc, name)?);
    let bytes = Seq::from_vec(bytes.to_vec(alloc)?);
    Ok(File { name, bytes })
}

fn push_file(
    alloc: Global,
    files: &mut Vec<File>,
    name: &str,
    bytes: &[u8],
) -> Result<(), AllocError> {
    files.push(file(alloc, name, bytes)?)?;
    Ok(())
}

/// Adds three files, of which two have one name.
fn push_three(alloc: Global, files: &mut Vec<File>) -> Result<(), AllocError> {
    push_file(alloc, files, "scene", b"five.")?;
    push_file(alloc, files, "empty", b"")?;
    push_file(alloc, files, "scene", b"hidden")
}

/// The number alone.
pub(super) fn alone(alloc: Global, number: u64) -> Result<Vec<u64>, AllocError> {
    Ok(vec![in alloc; number]?)
}

/// The shelf with the three files on which this call fails.
fn shelf_of(alloc: Global, fail: u64) -> Result<MemoryShelf, AllocError> {
    let mut files = Vec::new(alloc);
    push_three(alloc, &mut files)?;
    Ok(MemoryShelf::new(files, alone(alloc, fail)?))
}

/// Whether the file is read so, through the bound: its bytes, or why not.
fn reads<S: Shelf>(
    alloc: Global,
    shelf: &mut S,
    name: &str,
    limit: u64,
    want: Result<&[u8], ReadWhole>,
) -> bool {
    match read_whole(alloc, shelf, name, limit) {
        Ok(bytes) => want == Ok(bytes.as_slice()),
        Err(fault) => want == Err(fault),
    }
}

// The number of the call that fails, the file, the limit, and the bytes, or why they are not read. The
// calls are start, a read that moves the bytes, and a read that meets the end.
const READS: &str = "\
0 scene 100 =five.
1 scene 100 fault
2 scene 100 fault
3 scene 100 fault
4 scene 100 =five.
0 absent 100 fault
0 empty 0 =
0 scene 5 =five.
0 scene 4 too large
";

#[test]
fn reads_from_memory(rt: HostRuntime) {
    let other = first_other(rt.alloc(), READS);
    assert!(rt; other.is_none(), "{other:?}");
}

/// The first of the cases that is read otherwise than it says.
fn first_other(alloc: Global, cases: &str) -> Option<&str> {
    for case in cases.lines() {
        if !holds(alloc, case).unwrap_or(false) {
            return Some(case);
        }
    }
    None
}

/// Whether the case is read as it says.
fn holds(alloc: Global, case: &str) -> Option<bool> {
    let (fail, rest) = case.split_once(" ")?;
    let (name, rest) = rest.split_once(" ")?;
    let (limit, want) = rest.split_once(" ")?;
    let want = match want.strip_prefix("=") {
        Some(bytes) => Ok(bytes.as_bytes()),
        None if want == "fault" => Err(ReadWhole::ReadFault),
        None => Err(ReadWhole::TooLarge),
    };
    let limit = limit.parse().ok()?;
    match shelf_of(alloc, fail.parse().ok()?) {
        Ok(mut shelf) => Some(reads(alloc, &mut shelf, name, limit, want)),
        Err(_) => None,
    }
}

/// A shelf with one file of 100,000 bytes.
fn long_shelf(alloc: Global) -> Result<SureShelf, AllocError> {
    let long = vec![in alloc; 7; 100_000]?;
    let mut files = Vec::new(alloc);
    push_file(alloc, &mut files, "long", &long)?;
    Ok(SureShelf::new(files))
}

#[test]
fn reads_without_fault(rt: HostRuntime) {
    assert!(rt; is_read_without_fault(rt.alloc()) == Ok([true; 3]));
}

/// Whether a shelf with one long file is read as it is, as empty where the file is absent, and not where the file
/// is too large.
fn is_read_without_fault(alloc: Global) -> Result<[bool; 3], AllocError> {
    let long = vec![in alloc; 7; 100_000]?;
    let mut shelf = long_shelf(alloc)?;
    let too_large = Err(ReadWhole::TooLarge);
    let is_read = reads(alloc, &mut shelf, "long", 100_000, Ok(&long));
    let is_absent = reads(alloc, &mut shelf, "absent", 0, Ok(b""));
    let is_too_large = reads(alloc, &mut shelf, "long", 99_999, too_large);
    Ok([is_read, is_absent, is_too_large])
}

/// Writes the lines in turn, through the bound, to the first that fails.
fn write_lines<O: Sink>(sink: &mut O, lines: &[&str]) -> Result<(), Failed> {
    for line in lines {
        write_whole(sink, line.as_bytes())?;
    }
    Ok(())
}

const LINES: [&str; 4] = ["one\n", "two\n", "", "three\n"];

/// Whether the lines are written so to a sink with room for 16 bytes on which this call fails, and what it
/// has then.
fn writes(alloc: Global, fail: u64, want: Result<(), Failed>, bytes: &[u8]) -> bool {
    match sink_of(alloc, fail) {
        Ok(mut sink) => write_lines(&mut sink, &LINES) == want && sink.bytes() == Some(bytes),
        Err(_) => false,
    }
}

fn sink_of(alloc: Global, fail: u64) -> Result<MemorySink, OutOfMemory> {
    let fails = alone(alloc, fail)?;
    MemorySink::with_room(alloc, 16, fails)
}

#[test]
fn writes_to_memory(rt: HostRuntime) {
    let alloc = rt.alloc();
    let are_written = [
        writes(alloc, 0, Ok(()), b"one\ntwo\nthree\n"),
        writes(alloc, 1, Err(Failed), b""),
        writes(alloc, 3, Err(Failed), b"one\ntwo\n"),
    ];
    assert_eq!(rt; are_written, [true; 3]);
}

/// Whether all lines are written, and what the sink tells then.
fn adds(sink: &mut SureSink, lines: &[&str], bytes: Option<&[u8]>) -> bool {
    write_lines(sink, lines) == Ok(()) && sink.bytes() == bytes
}

#[test]
fn writes_without_fault(rt: HostRuntime) {
    assert!(rt; is_written_without_fault(rt.alloc()) == Ok([true; 3]));
}

/// Whether a sink has what is written, also where it is full then, and tells nothing of it once it was too much.
fn is_written_without_fault(alloc: Global) -> Result<[bool; 3], OutOfMemory> {
    let mut sink = SureSink::with_room(alloc, 16)?;
    let is_written = adds(&mut sink, &LINES, Some(b"one\ntwo\nthree\n"));
    let is_filled = adds(&mut sink, &["+2"], Some(b"one\ntwo\nthree\n+2"));
    let is_lost = adds(&mut sink, &["!"], None);
    Ok([is_written, is_filled, is_lost])
}

/// Whether the lines are written, and finished, so by a sink that gathers six bytes, before one in memory
/// on which this call fails, and what that one has then. The calls are two of six bytes, and one of two.
fn gathers(
    alloc: Global,
    fail: u64,
    written: Result<(), Failed>,
    finished: Result<(), Failed>,
    bytes: &[u8],
) -> Result<bool, OutOfMemory> {
    let mut sink = GatheredSink::with_room(alloc, sink_of(alloc, fail)?, 6)?;
    let is_written = write_lines(&mut sink, &LINES) == written;
    let is_finished = sink.finish() == finished;
    Ok(is_written && is_finished && sink.behind().bytes() == Some(bytes))
}

#[test]
fn gathers_what_is_written(rt: HostRuntime) {
    let alloc = rt.alloc();
    let are_gathered = [
        gathers(alloc, 0, Ok(()), Ok(()), b"one\ntwo\nthree\n"),
        gathers(alloc, 1, Err(Failed), Ok(()), b"one\ntw"),
        gathers(alloc, 2, Err(Failed), Ok(()), b"one\ntwo\nthre"),
        gathers(alloc, 3, Ok(()), Err(Failed), b"one\ntwo\nthre"),
    ];
    assert_eq!(rt; are_gathered, [Ok(true); 4]);
}

/// Whether the file is read with this text, is too large for a lesser limit, and is a fault when it is
/// taken away, as a folder is; and whether the faults alone are counted.
fn is_read_back(rt: &HostRuntime, name: &str, text: &str) -> bool {
    let length = text.len() as u64;
    let mut shelf = FileShelf::new(rt);
    let is_written = fs::write(rt, name, text).is_ok();
    let is_read = reads(rt.alloc(), &mut shelf, name, length, Ok(text.as_bytes()));
    let is_too_large = reads(
        rt.alloc(),
        &mut shelf,
        name,
        length.saturating_sub(1),
        Err(ReadWhole::TooLarge),
    );
    let is_without_fault = shelf.faults() == 0;
    let is_removed = fs::remove_file(rt, name).is_ok();
    let fault = Err(ReadWhole::ReadFault);
    let is_absent = reads(rt.alloc(), &mut shelf, name, length, fault);
    let is_no_file = reads(rt.alloc(), &mut shelf, "/", length, fault);
    let is_counted = is_without_fault && shelf.faults() == 2;
    is_written && is_read && is_too_large && is_removed && is_absent && is_no_file && is_counted
}

#[test]
fn reads_files(rt: HostRuntime) {
    let Ok(folder) = env::temp_dir(&rt) else {
        panic!(rt; "no folder");
    };
    let Ok(path) = folder.as_path().join(rt.alloc(), "rail-shelves.txt") else {
        panic!(rt; "no memory");
    };
    let Some(name) = path.as_path().to_str() else {
        panic!(rt; "a path that is no text");
    };
    let are_read_back = [
        is_read_back(&rt, name, "three lines\n\n."),
        is_read_back(&rt, name, "version = 1\n"),
    ];
    assert_eq!(rt; are_read_back, [true; 2]);
}

/// An output that takes so many bytes of each piece, or fails.
#[derive(Drop)]
struct Taking(Option<usize>);

impl Print for Taking {
    fn print<D: Display + Drop>(&self, _value: D) -> io::Result<()> {
        Ok(())
    }

    fn println<D: Display + Drop>(&self, _value: D) -> io::Result<()> {
        Ok(())
    }

    fn write_all(&self, _bytes: &[u8]) -> io::Result<()> {
        Ok(())
    }

    fn write_some(&self, bytes: &[u8]) -> io::Result<usize> {
        match self.0 {
            Some(most) => Ok(bytes.len().min(most)),
            None => Err(io::Error::from(io::ErrorKind::BrokenPipe)),
        }
    }
}

/// Whether a line is written so to an output that takes so many bytes of each piece, or fails, and the
/// count of faults is this then.
fn is_taken(most: Option<usize>, want: Result<(), Failed>, faults: u64) -> bool {
    let mut out = OutSink::new(Taking(most));
    write_lines(&mut out, &["one line\n"]) == want && out.faults() == faults
}

#[test]
fn writes_out(rt: HostRuntime) {
    let mut out = OutSink::new(&rt);
    let written = write_lines(&mut out, &["one line\n"]);
    let are_taken = [
        is_taken(Some(4), Ok(()), 0),
        is_taken(Some(0), Err(Failed), 1),
        is_taken(None, Err(Failed), 1),
    ];
    assert!(rt; (written, out.faults(), are_taken) == (Ok(()), 0, [true; 3]));
}
