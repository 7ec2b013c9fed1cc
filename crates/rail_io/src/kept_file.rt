//! One file in memory, found by its name among others and read piece by piece.

ghost use Rattle.std.specs.Prelude.{◌≡◌, ◌≢◌, ◌+◌, ◌^◌, ◌<◌, ◌≤◌, [], ◌++◌, length, min, take, drop, option_copied, unwrap_or, option_and_then};
ghost use Rattle.rail_io.specs.File.{bytes_named};

use crate::reading::Reading;
use rail_base::{Seq, Word};

/// A file that is kept in memory.
#[derive(Debug, Drop)]
pub struct File {
    pub name: Word,
    pub bytes: Seq<u8>,
}

/// The bytes of the first file of this name.
pub(crate) fn bytes_of<'a>(files: &'a [File], name: &str) -> Option<&'a [u8]>
    ensures { option_copied result ≡ bytes_named files.now name.now }
{
    let file = files.iter().find(|file| file.name.as_str() == name)?;
    Some(file.bytes.as_slice())
}

/// The bytes of the begun file; a file that is not held is empty.
pub(crate) fn begun_bytes<'a>(files: &'a [File], reading: &Reading) -> &'a [u8]
    ensures { result.now ≡ unwrap_or (option_and_then (bytes_named files.now) reading.now.name) [] }
{
    match reading.name() {
        Some(name) => bytes_of(files, name.as_str()).unwrap_or(&[]),
        None => &[],
    }
}

/// Moves the bytes from the number `from` on to the front of `into`, as many as there are and as
/// have room, and says how many.
pub(crate) fn move_bytes(bytes: &[u8], from: u64, into: &mut [u8]) -> usize
    ensures count { result ≡ min (length (drop from bytes.now)) (length into.old) }
    ensures within { result ≤ length into.old }
    ensures moves { drop from bytes.now ≡ take result into.new ++ drop (from + result) bytes.now }
    ensures none_at_end { result ≡ 0 → 0 < length into.old → drop from bytes.now ≡ [] }
    ensures some_before_end { 0 < result → drop from bytes.now ≢ [] }
    ensures fits { from + result < 2 ^ 64 }
{
    let start = bytes.len().min(from as usize);
    let rest = &bytes[start..];
    let count = rest.len().min(into.len());
    into[..count].copy_from_slice(&rest[..count]);
    count
}
