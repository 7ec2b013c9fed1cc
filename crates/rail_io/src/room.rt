//! A room of a fixed size, in which the bytes of a gathered sink wait until they are handed on.

ghost use Rattle.std.specs.Prelude.{◌≡◌, ◌+◌, ◌-◌, ◌<◌, ◌≤◌, [], ◌++◌, IfOk, length, take, drop, min, vec_len, vec_capacity};

use rail_base::OutOfMemory;
use std::alloc::Global;

/// How many bytes more than wanted are cleared at once.
const BLOCK: usize = 1024;

/// Bytes that are kept in a room of a fixed size, to be handed on from their front. The room is cleared little by
/// little, only as far as it is used.
#[derive(Drop)]
pub(crate) struct Room {
    /// The bytes that are kept, and those behind them that were cleared already.
    bytes: Vec<u8>,
    /// How many bytes are kept.
    kept: usize,
    /// How many bytes there is room for.
    size: usize,
    ghost within: { kept ≤ vec_len bytes },
    ghost cleared: { vec_len bytes ≤ size },
    ghost taken: { size ≤ vec_capacity bytes },
}

impl Room {
    ghost use Rattle.rail_io.specs.Room.{kept_in, size_of};

    /// Takes a room for so many bytes, and none is kept.
    pub(crate) fn new(alloc: Global, size: usize) -> Result<Room, OutOfMemory>
        ensures none_kept { IfOk result (λ room. kept_in room ≡ []) }
        ensures size { IfOk result (λ room. size_of room ≡ size) }
    {
        let bytes = Vec::with_capacity(alloc, size)?;
        Ok(Room {
            bytes,
            kept: 0,
            size,
        })
    }

    /// The bytes that are kept.
    pub(crate) fn as_slice(&self) -> &[u8]
        ensures { result.now ≡ kept_in self.now }
    {
        &self.bytes[..self.kept]
    }

    /// Keeps bytes from the front of the piece on, as many as there is room for, and says how many.
    // In line, as all on the way of a line to its room is: a line is put in fewer instructions than a call takes.
    #[inline(always)]
    pub(crate) fn put(&mut self, piece: &[u8]) -> usize
        ensures count { result ≡ min (length piece.now) (size_of self.old - length (kept_in self.old)) }
        ensures kept { kept_in self.new ≡ kept_in self.old ++ take result piece.now }
        ensures size { size_of self.new ≡ size_of self.old }
    {
        let count = piece.len();
        if count > self.bytes.len() - self.kept {
            return self.put_past(piece);
        }
        let end = self.kept + count;
        copy_piece(&mut self.bytes[self.kept..end], piece);
        self.kept = end;
        count
    }

    /// Keeps bytes from the front of the piece on where those behind the kept ones that were cleared are too few.
    #[cold]
    #[inline(never)]
    fn put_past(&mut self, piece: &[u8]) -> usize
        ensures count { result ≡ min (length piece.now) (size_of self.old - length (kept_in self.old)) }
        ensures kept { kept_in self.new ≡ kept_in self.old ++ take result piece.now }
        ensures size { size_of self.new ≡ size_of self.old }
    {
        let count = piece.len().min(self.size - self.kept);
        let end = self.kept + count;
        if self.bytes.len() < end {
            self.clear_past(end);
        }
        self.bytes[self.kept..end].copy_from_slice(&piece[..count]);
        self.kept = end;
        count
    }

    /// Clears the room as far as `end`, and a block more where there is one.
    fn clear_past(&mut self, end: usize)
        requires beyond { vec_len self.old.bytes < end }
        requires within { end ≤ size_of self.old }
        ensures cleared { end ≤ vec_len self.new.bytes }
        ensures kept { kept_in self.new ≡ kept_in self.old }
        ensures size { size_of self.new ≡ size_of self.old }
        ensures count { self.new.kept ≡ self.old.kept }
    {
        let size = end.saturating_add(BLOCK).min(self.size);
        self.bytes.resize(size, 0).unwrap();
    }

    /// Keeps so many bytes at the front no more.
    pub(crate) fn drop_front(&mut self, count: usize)
        requires { count ≤ length (kept_in self.old) }
        ensures kept { kept_in self.new ≡ drop count (kept_in self.old) }
        ensures size { size_of self.new ≡ size_of self.old }
    {
        self.bytes.copy_within(count..self.kept, 0);
        self.kept -= count;
    }
}

/// Copies the piece over as many bytes. Most lines have 16 to 64 bytes: of these both ends are copied, each of a length that
/// is known where the code is compiled, so that nothing is called.
#[inline(always)]
fn copy_piece(bytes: &mut [u8], piece: &[u8])
    requires { length bytes.old ≡ length piece.now }
    ensures { bytes.new ≡ piece.now }
{
    match piece.len() {
        16..=32 => copy_ends::<16>(bytes, piece),
        33..=64 => copy_ends::<32>(bytes, piece),
        _ => bytes.copy_from_slice(piece),
    }
}

/// Copies the first and the last `END` bytes of the piece over as many bytes, which are all that it has. They are read before
/// the first is written, so that nothing is asked of where both lie.
#[inline(always)]
fn copy_ends<const END: usize>(bytes: &mut [u8], piece: &[u8])
    requires same { length bytes.old ≡ length piece.now }
    requires within { END ≤ length piece.now }
    requires all { length piece.now ≤ END + END }
    ensures { bytes.new ≡ piece.now }
{
    let rest = piece.len() - END;
    let mut first = [0; END];
    let mut last = [0; END];
    first.copy_from_slice(&piece[..END]);
    last.copy_from_slice(&piece[rest..]);
    bytes[..END].copy_from_slice(&first);
    bytes[rest..].copy_from_slice(&last);
}
