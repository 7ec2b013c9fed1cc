//! The adapters to the system: a shelf over its files, and a sink to standard output.

ghost use Rattle.std.specs.Prelude.{◌≡◌, ◌+◌, ◌^◌, ◌<◌, ◌≤◌, None, IfSome, length, option_copied};
ghost use Rattle.rail_io.specs.Reads.{begun_name, failed_name};

use crate::reading::Reading;
use crate::shelf::{Shelf, StartFault};
use crate::sink::{Failed, Sink};
use rail_base::Word;
use std::alloc::Global;
use std::fs;
use std::io::{ErrorKind, Read};
use std::rt::Files;

/// How often a call of the system is made at most where a signal interrupts it each time.
const TRIES: u32 = 64;

/// The shelf over the files of the system, which tells no content. A name is a path.
#[derive(Drop)]
pub struct FileShelf<R: Files> {
    access: R,
    /// The file that was begun last.
    file: Option<R::File>,
    reading: Reading,
}

impl<R: Files + Drop> FileShelf<R> {
    /// The shelf over the files that `access` reaches, as `&rt` of the runtime.
    pub fn new(access: R) -> FileShelf<R>
        ensures no_fault { ⟦<FileShelf<R> as Shelf>⟧.faults result ≡ 0 }
        ensures none_begun { ⟦<FileShelf<R> as Shelf>⟧.begun result ≡ None }
        ensures none_failed { ⟦<FileShelf<R> as Shelf>⟧.failed result ≡ None }
    {
        FileShelf {
            access,
            file: None,
            reading: Reading::new(),
        }
    }

    /// How many calls failed; at 2^64 - 1 it stands still.
    pub fn faults(&self) -> u64
        ensures { result ≡ ⟦<FileShelf<R> as Shelf>⟧.faults self.now }
    {
        self.reading.faults()
    }

    /// The name of the file at which a call failed, if none was begun since.
    pub fn failed(&self) -> Option<&Word>
        ensures { option_copied result ≡ ⟦<FileShelf<R> as Shelf>⟧.failed self.now }
    {
        self.reading.failed()
    }

    /// Moves the next bytes, as many as the count of moved bytes has room for. `None` where the
    /// count has no room, and where the system fails.
    fn next_bytes(&mut self, into: &mut [u8]) -> Option<usize>
        ensures within { IfSome result (λ n. n ≤ length into.old) }
        ensures count_fits { IfSome result (λ n. self.old.reading.moved + n < 2 ^ 64) }
        ensures reading_stays { self.new.reading ≡ self.old.reading }
    {
        let room = u64::MAX - self.reading.moved();
        let most = into.len().min(room as usize);
        if most == 0 {
            return None;
        }
        read_some(self.file.as_mut()?, &mut into[..most])
    }
}

/// Moves the next bytes of the file, and says how many: `None` where the system fails. A read that a signal interrupts is
/// made again.
fn read_some<F: Read>(file: &mut F, into: &mut [u8]) -> Option<usize>
    ensures within { IfSome result (λ n. n ≤ length into.old) }
{
    for _ in 0..TRIES {
        match file.read(into) {
            Err(error) if error.kind() == ErrorKind::Interrupted => {}
            read => return read.ok(),
        }
    }
    None
}

impl<R: Files + Drop> Shelf for FileShelf<R> {
    ghost use Rattle.rail_io.specs.SystemFiles.{reading_of};

    ghost told = { λ _ _. None };

    ghost left = { λ _. None };

    ghost begun = { λ shelf. begun_name (reading_of shelf) };

    ghost moved = { λ shelf. (reading_of shelf).moved };

    ghost ended = { λ shelf. (reading_of shelf).has_ended };

    ghost faults = { λ shelf. (reading_of shelf).faults };

    ghost failed = { λ shelf. failed_name (reading_of shelf) };

    fn start(&mut self, alloc: Global, name: &str) -> Result<(), StartFault> {
        let kept = Word::from_string(String::from_str(alloc, name)?);
        match fs::open(&self.access, name) {
            Ok(file) => {
                self.file = Some(file);
                self.reading.begin(kept);
                Ok(())
            }
            Err(_) => {
                self.file = None;
                self.reading.refuse(kept);
                Err(StartFault::Failed)
            }
        }
    }

    fn read(&mut self, into: &mut [u8]) -> Result<usize, Failed> {
        match self.next_bytes(into) {
            Some(count) => {
                self.reading.advance(count);
                Ok(count)
            }
            None => {
                self.reading.fail();
                Err(Failed)
            }
        }
    }
}

/// The sink to standard output, which tells no content.
#[derive(Drop)]
pub struct OutSink<R> {
    access: R,
    faults: u64,
}

impl<R: Print + Drop> OutSink<R> {
    /// The sink to the standard output that `access` reaches, as `&rt` of the runtime.
    pub fn new(access: R) -> OutSink<R>
        ensures no_fault { ⟦<OutSink<R> as Sink>⟧.faults result ≡ 0 }
    {
        OutSink { access, faults: 0 }
    }

    /// How many calls failed; at 2^64 - 1 it stands still.
    pub fn faults(&self) -> u64
        ensures { result ≡ ⟦<OutSink<R> as Sink>⟧.faults self.now }
    {
        self.faults
    }
}

impl<R: Print + Drop> Sink for OutSink<R> {
    ghost use Rattle.rail_io.specs.SystemFiles.{faults_of};

    ghost written = { λ _. None };

    ghost faults = { faults_of };

    /// `Failed` where the system fails, and where it takes no byte.
    fn write(&mut self, piece: &[u8]) -> Result<usize, Failed> {
        match write_some(&self.access, piece) {
            Some(count) => Ok(count),
            None => {
                self.faults = self.faults.saturating_add(1);
                Err(Failed)
            }
        }
    }
}

/// Writes the next bytes of a piece, and says how many: `None` where the system fails, or takes no byte. A write that a signal
/// interrupts is made again.
fn write_some<R: Print>(access: &R, piece: &[u8]) -> Option<usize>
    ensures some { IfSome result (λ n. 0 < n) }
    ensures within { IfSome result (λ n. n ≤ length piece.now) }
{
    for _ in 0..TRIES {
        match access.write_some(piece) {
            Ok(count) if count > 0 => return Some(count),
            Err(error) if error.kind() == ErrorKind::Interrupted => {}
            _ => return None,
        }
    }
    None
}
