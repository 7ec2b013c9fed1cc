//! A shelf that keeps what is read from it, so that words about a refusal are found without opening a file again.

ghost use Rattle.std.specs.Prelude.{◌≡◌};

use rail_io::{Failed, Shelf, StartFault};
use std::alloc::{AllocError, Global};

/// The most bytes of a file that are kept: as many as a scene or a file of lines may have. Of a larger file nothing is kept.
const MOST_KEPT: usize = 1_048_576;

/// How many bytes of a file room is taken for at first. Most files have fewer, so that they are never moved.
const FIRST_KEPT: usize = 131_072;

/// A file with what was read of it.
#[derive(Drop)]
struct KeptFile {
    name: String,
    bytes: Vec<u8>,
}

/// A shelf before another one, of which it hands on all that is read, and keeps it. Where memory for a file is not found,
/// or the file is larger than a scene may be, the file is read as without it, and is not kept.
#[derive(Drop)]
pub struct KeepingShelf<S> {
    behind: S,
    files: Vec<KeptFile>,
    /// Whether the file that was begun last is kept.
    is_keeping: bool,
}

impl<S: Shelf + Drop> KeepingShelf<S> {
    ghost use Rattle.rail_explain.specs.KeptFiles.{behind_of};

    /// A shelf before this one, which has kept nothing yet. It takes no memory.
    pub fn new(alloc: Global, behind: S) -> KeepingShelf<S>
        ensures { behind_of result ≡ behind }
    {
        KeepingShelf {
            behind,
            files: Vec::new(alloc),
            is_keeping: false,
        }
    }

    /// The shelf behind this one.
    pub fn behind(&self) -> &S
        ensures { result.now ≡ behind_of self.now }
    {
        &self.behind
    }

    /// What was read of the file of this name, where it was kept.
    pub fn bytes_of(&self, name: &str) -> Option<&[u8]> {
        let file = self.files.iter().find(|file| file.name.as_str() == name)?;
        Some(file.bytes.as_slice())
    }

    /// Begins to keep a file.
    fn begin(&mut self, alloc: Global, name: &str) -> Result<(), AllocError>
        ensures { behind_of self.new ≡ behind_of self.old }
    {
        let name = String::from_str(alloc, name)?;
        let bytes = Vec::with_capacity(alloc, FIRST_KEPT)?;
        self.files.push(KeptFile { name, bytes })?;
        Ok(())
    }

    /// Keeps the piece, or gives the file up.
    fn keep(&mut self, piece: &[u8])
        ensures { behind_of self.new ≡ behind_of self.old }
    {
        if !self.is_keeping {
            return;
        }
        self.is_keeping = match self.files.last_mut() {
            Some(file) => file.add(piece),
            None => false,
        };
        if !self.is_keeping {
            self.files.pop();
        }
    }
}

impl KeptFile {
    /// Adds the piece; false where there is no room for it.
    fn add(&mut self, piece: &[u8]) -> bool {
        let has_room = self.bytes.len() <= MOST_KEPT && piece.len() <= MOST_KEPT - self.bytes.len();
        has_room && self.bytes.extend_from_slice(piece).is_ok()
    }
}

impl<S: Shelf + Drop> Shelf for KeepingShelf<S> {
    ghost use Rattle.rail_explain.specs.KeptFiles.{behind_of};

    ghost told = { λ shelf. S.told (behind_of shelf) };

    ghost left = { λ shelf. S.left (behind_of shelf) };

    ghost begun = { λ shelf. S.begun (behind_of shelf) };

    ghost moved = { λ shelf. S.moved (behind_of shelf) };

    ghost ended = { λ shelf. S.ended (behind_of shelf) };

    ghost faults = { λ shelf. S.faults (behind_of shelf) };

    ghost failed = { λ shelf. S.failed (behind_of shelf) };

    fn start(&mut self, alloc: Global, name: &str) -> Result<(), StartFault> {
        match self.behind.start(alloc, name) {
            Ok(()) => {
                self.is_keeping = self.begin(alloc, name).is_ok();
                Ok(())
            }
            Err(StartFault::Failed) => {
                self.is_keeping = false;
                Err(StartFault::Failed)
            }
            Err(StartFault::OutOfMemory) => Err(StartFault::OutOfMemory),
        }
    }

    fn read(&mut self, into: &mut [u8]) -> Result<usize, Failed> {
        let count = self.behind.read(into)?;
        self.keep(&into[..count]);
        Ok(count)
    }
}
