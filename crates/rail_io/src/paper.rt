//! The bytes that were written to a sink in memory.

ghost use Rattle.std.specs.Prelude.{◌≡◌, ◌≤◌, [], Some, None, IfOk, option_copied, vec_capacity, vec_len};

use rail_base::OutOfMemory;
use std::alloc::Global;

/// The bytes that are written to a sink in memory, up to its room.
#[derive(Drop)]
pub(crate) struct Paper {
    bytes: Vec<u8>,
    room: usize,
    /// Whether a piece did not fit the room.
    is_full: bool,
    ghost has_room: { room ≤ vec_capacity bytes },
    ghost within_room: { vec_len bytes ≤ room },
}

impl Paper {
    ghost use Rattle.rail_io.specs.Paper.{room_of, told, told_after};

    /// Takes the room, and nothing is written.
    pub(crate) fn with_room(alloc: Global, room: usize) -> Result<Paper, OutOfMemory>
        ensures none_written { IfOk result (λ paper. told paper ≡ Some []) }
        ensures room { IfOk result (λ paper. room_of paper ≡ room) }
    {
        let bytes = Vec::with_capacity(alloc, room)?;
        Ok(Paper {
            bytes,
            room,
            is_full: false,
        })
    }

    /// The bytes written: `None` from the first piece on that did not fit the room.
    pub(crate) fn bytes(&self) -> Option<&[u8]>
        ensures { option_copied result ≡ told self.now }
    {
        if self.is_full {
            None
        } else {
            Some(self.bytes.as_slice())
        }
    }

    /// Takes the whole piece. From the first piece on that does not fit, the bytes are not kept.
    pub(crate) fn put(&mut self, piece: &[u8])
        ensures told { told self.new ≡ told_after (room_of self.old) (told self.old) piece.now }
        ensures room { room_of self.new ≡ room_of self.old }
    {
        if self.is_full || piece.len() > self.room - self.bytes.len() {
            self.is_full = true;
            return;
        }
        self.bytes.extend_from_slice(piece).unwrap();
    }
}
