//! Files in memory, and how far the begun one is read.

ghost use Rattle.std.specs.Prelude.{◌≡◌, ◌≢◌, ◌↔◌, ◌+◌, ◌^◌, ◌<◌, ◌≤◌, [], ◌++◌, IsTrue, IsSome, OnOk, OnErr, length, min, take};
ghost use Rattle.rail_io.specs.File.{bytes_named};
ghost use Rattle.rail_io.specs.KeptFiles.{after_start, after_read, files_on, unread};
ghost use Rattle.rail_io.specs.Reads.{fresh};

use crate::kept_file::{File, begun_bytes, bytes_of, move_bytes};
use crate::reading::Reading;
use rail_base::Word;
use std::alloc::{AllocError, Global};

/// Files in memory, and where the reading of them stands. Of two files of one name the first is read.
#[derive(Drop)]
pub(crate) struct KeptFiles {
    files: Vec<File>,
    pub(crate) reading: Reading,
}

impl KeptFiles {
    /// These files, of which none was begun.
    pub(crate) fn new(files: Vec<File>) -> KeptFiles
        ensures files { files_on result ≡ files.items }
        ensures none_begun { result.reading ≡ fresh }
    {
        KeptFiles {
            files,
            reading: Reading::new(),
        }
    }

    /// Whether a file of this name is held.
    pub(crate) fn has(&self, name: &str) -> bool
        ensures { IsTrue result ↔ IsSome (bytes_named (files_on self.now) name.now) }
    {
        bytes_of(&self.files, name).is_some()
    }

    /// Begins the file of this name, whether it is held or not.
    pub(crate) fn start(&mut self, alloc: Global, name: &str) -> Result<(), AllocError>
        ensures begins { OnOk result (self.new ≡ after_start self.old name.now) }
        ensures out_of_memory { OnErr result (self.new ≡ self.old) }
    {
        let name = Word::from_string(String::from_str(alloc, name)?);
        self.reading.begin(name);
        Ok(())
    }

    /// Moves the next bytes of the begun file to the front of `into`, as many as there are and as have room, and says
    /// how many. A file that is not held is empty.
    pub(crate) fn read(&mut self, into: &mut [u8]) -> usize
        ensures count { result ≡ min (length (unread self.old)) (length into.old) }
        ensures within { result ≤ length into.old }
        ensures moves { unread self.old ≡ take result into.new ++ unread self.new }
        ensures none_at_end { result ≡ 0 → 0 < length into.old → unread self.old ≡ [] }
        ensures some_before_end { 0 < result → unread self.old ≢ [] }
        ensures fits { self.old.reading.moved + result < 2 ^ 64 }
        ensures after { self.new ≡ after_read self.old result }
    {
        let bytes = begun_bytes(&self.files, &self.reading);
        let count = move_bytes(bytes, self.reading.moved(), into);
        self.reading.advance(count);
        count
    }
}
