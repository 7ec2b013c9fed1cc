//! A whole file read from a shelf, and a whole piece written to a sink.

ghost use Rattle.std.specs.Prelude.{◌≡◌, ◌≢◌, ◌⊎◌, ◌+◌, ◌<◌, ◌≤◌, [], Some, None, Ok, Err, IsTrue, IsSome, IsOk, IfSome, IfOk, OnOk, OnErr, length, take, vec_len};
ghost use Rattle.rail_io.specs.FaultCounts.{Rose};
ghost use Rattle.rail_io.specs.Writes.{Adds, AddsPrefix};
ghost use Rattle.rail_io.specs.Whole.{why_not_read};
ghost use Rattle.rail_io.specs.declared.whole_files.ReadWhole.TheVariants as read_whole;

use crate::shelf::{Shelf, StartFault};
use crate::sink::{Failed, Sink};
use std::alloc::{AllocError, Global};
use thiserror::Error;

/// How many bytes room is taken for at first. Most files have fewer, so that they are never moved.
const FIRST_ROOM: usize = 131_072;

/// How many bytes a read of a file has room for.
const PIECE: usize = 16_384;

/// Why a file was not read.
#[derive(Clone, Copy, Debug, PartialEq, Eq, Error)]
pub enum ReadWhole {
    /// The file was not begun, or a read of it failed.
    #[error("the file cannot be read")]
    ReadFault,
    /// The file has more bytes than the limit.
    #[error("the file is too large")]
    TooLarge,
    /// Memory was not found.
    #[error("out of memory")]
    OutOfMemory,
}

impl From<StartFault> for ReadWhole {
    ghost from_gives = { λ fault e. e ≡ why_not_read fault };

    fn from(fault: StartFault) -> ReadWhole {
        match fault {
            StartFault::Failed => ReadWhole::ReadFault,
            StartFault::OutOfMemory => ReadWhole::OutOfMemory,
        }
    }
}

impl From<Failed> for ReadWhole {
    ghost from_gives = { λ _ e. e ≡ read_whole.ReadFault };

    fn from(_: Failed) -> ReadWhole {
        ReadWhole::ReadFault
    }
}

impl From<AllocError> for ReadWhole {
    ghost from_gives = { λ _ e. e ≡ read_whole.OutOfMemory };

    fn from(_: AllocError) -> ReadWhole {
        ReadWhole::OutOfMemory
    }
}

/// Reads the named file to its end, where it has at most `limit` bytes.
///
/// `OutOfMemory` leaves the shelf unchanged, unless the file was begun by then.
pub fn read_whole<S: Shelf>(
    alloc: Global,
    shelf: &mut S,
    name: &str,
    limit: u64,
) -> Result<Vec<u8>, ReadWhole>
    ensures bytes { IfOk result
        (λ bytes. IfSome (S.told shelf.old name.now) (λ told. bytes.items ≡ told)) }
    ensures within_limit { IfOk result (λ bytes. vec_len bytes ≤ limit) }
    ensures told_within_limit { OnOk result
        (IfSome (S.told shelf.old name.now) (λ told. length told ≤ limit)) }
    ensures all_moved { IfOk result (λ bytes. S.moved shelf.new ≡ vec_len bytes) }
    ensures end_met { OnOk result (IsTrue (S.ended shelf.new)) }
    ensures ok_begun { OnOk result (S.begun shelf.new ≡ Some name.now) }
    ensures ok_clears_failed { OnOk result (S.failed shelf.new ≡ None) }

    ensures fault_rose { result ≡ Err read_whole.ReadFault →
        Rose (S.faults shelf.old) (S.faults shelf.new) }
    ensures fault_name { result ≡ Err read_whole.ReadFault → S.failed shelf.new ≡ Some name.now }

    ensures too_large_begun { result ≡ Err read_whole.TooLarge → S.begun shelf.new ≡ Some name.now }
    ensures too_large_moved { result ≡ Err read_whole.TooLarge → limit < S.moved shelf.new }
    ensures too_large_told { result ≡ Err read_whole.TooLarge →
        IfSome (S.told shelf.old name.now) (λ told. limit < length told) }
    ensures too_large_clears_failed { result ≡ Err read_whole.TooLarge → S.failed shelf.new ≡ None }

    ensures out_of_memory { result ≡ Err read_whole.OutOfMemory →
        (shelf.new ≡ shelf.old) ⊎ (S.begun shelf.new ≡ Some name.now) }

    ensures told_stays { S.told shelf.new ≡ S.told shelf.old }
    ensures faults_never_fall { S.faults shelf.old ≤ S.faults shelf.new }
{
    shelf.start(alloc, name)?;
    read_begun(alloc, shelf, limit)
}

/// Reads the file that was begun just now to its end, where it has at most `limit` bytes.
fn read_begun<S: Shelf>(alloc: Global, shelf: &mut S, limit: u64) -> Result<Vec<u8>, ReadWhole>
    requires begun { IsSome (S.begun shelf.old) }
    requires none_moved { S.moved shelf.old ≡ 0 }

    ensures bytes { IfOk result (λ bytes. IfSome (S.left shelf.old) (λ left. bytes.items ≡ left)) }
    ensures within_limit { IfOk result (λ bytes. vec_len bytes ≤ limit) }
    ensures all_moved { IfOk result (λ bytes. S.moved shelf.new ≡ vec_len bytes) }
    ensures end_met { OnOk result (IsTrue (S.ended shelf.new)) }

    ensures fault_rose { result ≡ Err read_whole.ReadFault →
        Rose (S.faults shelf.old) (S.faults shelf.new) }
    ensures fault_name { result ≡ Err read_whole.ReadFault →
        S.failed shelf.new ≡ S.begun shelf.old }
    ensures other_failed { result ≢ Err read_whole.ReadFault →
        S.failed shelf.new ≡ S.failed shelf.old }

    ensures too_large_moved { result ≡ Err read_whole.TooLarge → limit < S.moved shelf.new }
    ensures too_large_left { result ≡ Err read_whole.TooLarge →
        IfSome (S.left shelf.old) (λ left. limit < length left) }

    ensures begun_stays { S.begun shelf.new ≡ S.begun shelf.old }
    ensures told_stays { S.told shelf.new ≡ S.told shelf.old }
    ensures faults_never_fall { S.faults shelf.old ≤ S.faults shelf.new }
{
    let mut bytes = Vec::with_capacity(alloc, FIRST_ROOM)?;
    let mut filled = 0;
    while filled as u64 <= limit {
        make_room(&mut bytes, filled)?;
        let count = shelf.read(&mut bytes[filled..])?;
        if count == 0 {
            bytes.truncate(filled);
            return Ok(bytes);
        }
        filled += count;
    }
    Err(ReadWhole::TooLarge)
}

/// Sees that there is room behind the first `filled` bytes: for one read at a time, so that little is filled with zeros
/// for nothing. A vector that has to move doubles.
fn make_room(bytes: &mut Vec<u8>, filled: usize) -> Result<(), AllocError>
    requires { filled ≤ vec_len bytes.old }
    ensures front { take filled bytes.new.items ≡ take filled bytes.old.items }
    ensures filled { filled ≤ vec_len bytes.new }
    ensures room { OnOk result (filled < vec_len bytes.new) }
{
    if filled < bytes.len() {
        return Ok(());
    }
    bytes.resize(filled.saturating_add(PIECE), 0)
}

/// Writes the whole piece, in as many calls as the sink needs. An empty piece takes no call.
#[inline(always)]
pub fn write_whole<O: Sink>(sink: &mut O, piece: &[u8]) -> Result<(), Failed>
    ensures adds { OnOk result (Adds (O.written sink.old) (O.written sink.new) piece.now) }
    ensures failed_adds_prefix { OnErr result
        (AddsPrefix (O.written sink.old) (O.written sink.new) piece.now) }
    ensures failed_rose { OnErr result (Rose (O.faults sink.old) (O.faults sink.new)) }
    ensures empty_is_ok { piece.now ≡ [] → IsOk result }
    ensures empty_takes_no_call { piece.now ≡ [] → sink.new ≡ sink.old }
    ensures faults_never_fall { O.faults sink.old ≤ O.faults sink.new }
{
    if piece.is_empty() {
        return Ok(());
    }
    let count = sink.write(piece)?;
    if count == piece.len() {
        return Ok(());
    }
    write_rest(sink, &piece[count..])
}

/// Writes the whole rest of a piece of which a call took the front.
#[cold]
#[inline(never)]
fn write_rest<O: Sink>(sink: &mut O, rest: &[u8]) -> Result<(), Failed>
    ensures adds { OnOk result (Adds (O.written sink.old) (O.written sink.new) rest.now) }
    ensures failed_adds_prefix { OnErr result
        (AddsPrefix (O.written sink.old) (O.written sink.new) rest.now) }
    ensures failed_rose { OnErr result (Rose (O.faults sink.old) (O.faults sink.new)) }
    ensures faults_never_fall { O.faults sink.old ≤ O.faults sink.new }
{
    if write_front(sink, rest) == rest.len() {
        Ok(())
    } else {
        Err(Failed)
    }
}

/// Writes the piece from its front on, in as many calls as the sink needs, until all is taken or a call
/// fails, and says how many bytes were taken. An empty piece takes no call.
pub(crate) fn write_front<O: Sink>(sink: &mut O, piece: &[u8]) -> usize
    ensures within { result ≤ length piece.now }
    ensures adds { Adds (O.written sink.old) (O.written sink.new) (take result piece.now) }
    ensures part_rose { result < length piece.now → Rose (O.faults sink.old) (O.faults sink.new) }
    ensures empty_takes_no_call { piece.now ≡ [] → sink.new ≡ sink.old }
    ensures faults_never_fall { O.faults sink.old ≤ O.faults sink.new }
{
    let mut done = 0;
    while done < piece.len() {
        let Ok(count) = sink.write(&piece[done..]) else {
            return done;
        };
        done += count;
    }
    done
}
