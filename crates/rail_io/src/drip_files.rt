//! A shelf and a sink in memory that never fail, and move one byte in each call.

ghost use Rattle.std.specs.Prelude.{◌≡◌, ◌≢◌, ◌+◌, ◌^◌, ◌<◌, ◌≤◌, [], Some, None, Ok, IsSome, IfOk, length, min, take, option_copied};
ghost use Rattle.std.specs.Io.KnownBytes.{prepend_known, IsAtEnd};
ghost use Rattle.rail_io.specs.Reads.{fresh, begun_name};

use crate::kept_file::File;
use crate::kept_files::KeptFiles;
use crate::paper::Paper;
use crate::shelf::{Shelf, StartFault};
use crate::sink::{Failed, Sink};
use rail_base::OutOfMemory;
use std::alloc::Global;

/// A shelf over files in memory that never fails, each read of which moves one byte. A file that is not held is empty.
/// Of two files of one name the first is read.
#[derive(Drop)]
pub struct DripShelf {
    kept: KeptFiles,
}

impl DripShelf {
    ghost use Rattle.rail_io.specs.KeptFiles.{files_on};
    ghost use Rattle.rail_io.specs.DripFiles.{kept_of, reading_of};

    /// The shelf with these files.
    pub fn new(files: Vec<File>) -> DripShelf
        ensures files { files_on (kept_of result) ≡ files.items }
        ensures none_begun { reading_of result ≡ fresh }
    {
        DripShelf {
            kept: KeptFiles::new(files),
        }
    }
}

impl Shelf for DripShelf {
    ghost use Rattle.rail_io.specs.KeptFiles.{after_read, left_on, told_on, unread};
    ghost use Rattle.rail_io.specs.DripFiles.{kept_of, reading_of};

    ghost told = { λ shelf. told_on (kept_of shelf) };

    ghost left = { λ shelf. left_on (kept_of shelf) };

    ghost begun = { λ shelf. begun_name (reading_of shelf) };

    ghost moved = { λ shelf. (reading_of shelf).moved };

    ghost ended = { λ shelf. (reading_of shelf).has_ended };

    ghost faults = { λ _. 0 };

    ghost failed = { λ _. None };

    fn start(&mut self, alloc: Global, name: &str) -> Result<(), StartFault> {
        self.kept.start(alloc, name)?;
        Ok(())
    }

    /// Moves one byte, where one is left.
    fn read(&mut self, into: &mut [u8]) -> Result<usize, Failed>
        requires begun { IsSome (begun_name (reading_of self.old)) }
        requires room { 0 < length into.old }
        ensures one { result ≡ Ok (min (length (unread (kept_of self.old))) 1) }
        ensures within { IfOk result (λ n. n ≤ length into.old) }
        ensures moves { IfOk result
            (λ n. left_on (kept_of self.old) ≡ prepend_known (take n into.new) (left_on (kept_of self.new))) }
        ensures none_at_end { IfOk result (λ n. n ≡ 0 → IsAtEnd (left_on (kept_of self.old))) }
        ensures some_before_end { IfOk result (λ n. 0 < n → left_on (kept_of self.old) ≢ Some []) }
        ensures count_fits { IfOk result (λ n. (reading_of self.old).moved + n < 2 ^ 64) }
        ensures reads { IfOk result (λ n. kept_of self.new ≡ after_read (kept_of self.old) n) }
    {
        Ok(self.kept.read(&mut into[..1]))
    }
}

/// A sink in memory that never fails, each write to which takes one byte.
#[derive(Drop)]
pub struct DripSink {
    paper: Paper,
}

impl DripSink {
    ghost use Rattle.rail_io.specs.Paper.{room_of, told};
    ghost use Rattle.rail_io.specs.DripFiles.{paper_of};

    /// A sink with room for so many bytes in all. It takes the room here.
    pub fn with_room(alloc: Global, room: usize) -> Result<DripSink, OutOfMemory>
        ensures none_written { IfOk result (λ sink. told (paper_of sink) ≡ Some []) }
        ensures room { IfOk result (λ sink. room_of (paper_of sink) ≡ room) }
    {
        let paper = Paper::with_room(alloc, room)?;
        Ok(DripSink { paper })
    }

    /// The bytes written: `None` from the first byte on that did not fit the room.
    pub fn bytes(&self) -> Option<&[u8]>
        ensures { option_copied result ≡ told (paper_of self.now) }
    {
        self.paper.bytes()
    }
}

impl Sink for DripSink {
    ghost use Rattle.rail_io.specs.Paper.{room_of, told, told_after};
    ghost use Rattle.rail_io.specs.DripFiles.{paper_of};

    ghost written = { λ sink. told (paper_of sink) };

    ghost faults = { λ _. 0 };

    /// Takes one byte. From the first byte on that does not fit the room, what was written is not told.
    fn write(&mut self, piece: &[u8]) -> Result<usize, Failed>
        requires { 0 < length piece.now }
        ensures one { result ≡ Ok 1 }
        ensures told { told (paper_of self.new) ≡
            told_after (room_of (paper_of self.old)) (told (paper_of self.old)) (take 1 piece.now) }
        ensures room { room_of (paper_of self.new) ≡ room_of (paper_of self.old) }
    {
        self.paper.put(&piece[..1]);
        Ok(1)
    }
}
