//! A text is written to be compared.

ghost use Rattle.std.specs.Prelude.{◌≡◌, []};

use rail_io::{Failed, Sink};
use std::alloc::Global;

/// A sink that keeps all bytes. A write fails where memory is not found.
#[derive(Drop)]
pub(crate) struct Written {
    bytes: Vec<u8>,
    faults: u64,
}

impl Written {
    /// A sink to which nothing was written.
    pub(crate) fn new(alloc: Global) -> Written
        ensures { result.bytes.items ≡ [] }
    {
        Written {
            bytes: Vec::new(alloc),
            faults: 0,
        }
    }

    /// The bytes that were written.
    pub(crate) fn as_slice(&self) -> &[u8]
        ensures { result.now ≡ self.now.bytes.items }
    {
        self.bytes.as_slice()
    }
}

impl Sink for Written {
    ghost use Rattle.std.specs.Prelude.{Some};

    ghost written = { λ sink. Some sink.bytes.items };

    ghost faults = { λ sink. sink.faults };

    fn write(&mut self, piece: &[u8]) -> Result<usize, Failed> {
        match self.bytes.extend_from_slice(piece) {
            Ok(()) => Ok(piece.len()),
            Err(_) => {
                self.faults = self.faults.saturating_add(1);
                Err(Failed)
            }
        }
    }
}
