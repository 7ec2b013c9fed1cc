//! A shelf and a sink in memory that never fail.

ghost use Rattle.std.specs.Prelude.{◌≡◌, ◌<◌, [], Some, None, Ok, IfOk, length, option_copied};
ghost use Rattle.rail_io.specs.Reads.{fresh, begun_name};

use crate::kept_file::File;
use crate::kept_files::KeptFiles;
use crate::paper::Paper;
use crate::shelf::{Shelf, StartFault};
use crate::sink::{Failed, Sink};
use rail_base::OutOfMemory;
use std::alloc::Global;

/// A shelf over files in memory that never fails: a file that is not held is empty. Of two files of
/// one name the first is read.
#[derive(Drop)]
pub struct SureShelf {
    kept: KeptFiles,
}

impl SureShelf {
    ghost use Rattle.rail_io.specs.KeptFiles.{files_on};
    ghost use Rattle.rail_io.specs.SureFiles.{kept_of, reading_of};

    /// The shelf with these files.
    pub fn new(files: Vec<File>) -> SureShelf
        ensures files { files_on (kept_of result) ≡ files.items }
        ensures none_begun { reading_of result ≡ fresh }
    {
        SureShelf {
            kept: KeptFiles::new(files),
        }
    }
}

impl Shelf for SureShelf {
    ghost use Rattle.rail_io.specs.KeptFiles.{left_on, told_on};
    ghost use Rattle.rail_io.specs.SureFiles.{kept_of, reading_of};

    ghost told = { λ shelf. told_on (kept_of shelf) };

    ghost left = { λ shelf. left_on (kept_of shelf) };

    ghost begun = { λ shelf. begun_name (reading_of shelf) };

    ghost moved = { λ shelf. (reading_of shelf).moved };

    ghost ended = { λ shelf. (reading_of shelf).has_ended };

    ghost faults = { λ _. 0 };

    ghost failed = { λ _. None };

    fn start(&mut self, alloc: Global, name: &str) -> Result<(), StartFault> {
        self.kept.start(alloc, name)?;
        Ok(())
    }

    fn read(&mut self, into: &mut [u8]) -> Result<usize, Failed> {
        Ok(self.kept.read(into))
    }
}

/// A sink in memory that never fails.
#[derive(Drop)]
pub struct SureSink {
    paper: Paper,
}

impl SureSink {
    ghost use Rattle.rail_io.specs.Paper.{room_of, told};
    ghost use Rattle.rail_io.specs.SureFiles.{paper_of};

    /// A sink with room for so many bytes in all. It takes the room here.
    pub fn with_room(alloc: Global, room: usize) -> Result<SureSink, OutOfMemory>
        ensures none_written { IfOk result (λ sink. told (paper_of sink) ≡ Some []) }
        ensures room { IfOk result (λ sink. room_of (paper_of sink) ≡ room) }
    {
        let paper = Paper::with_room(alloc, room)?;
        Ok(SureSink { paper })
    }

    /// The bytes written: `None` from the first piece on that did not fit the room.
    pub fn bytes(&self) -> Option<&[u8]>
        ensures { option_copied result ≡ told (paper_of self.now) }
    {
        self.paper.bytes()
    }
}

impl Sink for SureSink {
    ghost use Rattle.rail_io.specs.Paper.{room_of, told, told_after};
    ghost use Rattle.rail_io.specs.SureFiles.{paper_of};

    ghost written = { λ sink. told (paper_of sink) };

    ghost faults = { λ _. 0 };

    /// Takes the whole piece. From the first piece on that does not fit the room, what was written
    /// is not told.
    fn write(&mut self, piece: &[u8]) -> Result<usize, Failed>
        requires { 0 < length piece.now }
        ensures whole { result ≡ Ok (length piece.now) }
        ensures told { told (paper_of self.new) ≡
            told_after (room_of (paper_of self.old)) (told (paper_of self.old)) piece.now }
        ensures room { room_of (paper_of self.new) ≡ room_of (paper_of self.old) }
    {
        self.paper.put(piece);
        Ok(piece.len())
    }
}
