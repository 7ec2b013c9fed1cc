//! A shelf and a sink in memory, on which planned calls fail.

ghost use Rattle.std.specs.Prelude.{◌≡◌, ◌≢◌, ◌⊎◌, ◌↔◌, ◌+◌, ◌^◌, ◌<◌, ◌≤◌, [], Some, None, Ok, Err, IsNone, IsSome, IsErr, IfOk, OnOk, OnErr, length, take, option_copied};
ghost use Rattle.std.specs.Io.KnownBytes.{prepend_known, IsAtEnd};
ghost use Rattle.rail_io.specs.FaultCounts.{raised};
ghost use Rattle.rail_io.specs.Reads.{fresh, begun_name, failed_name, after_begin, after_refusal, after_failure, after_move};
ghost use Rattle.rail_io.specs.File.{bytes_named};

use crate::kept_file::File;
use crate::kept_files::KeptFiles;
use crate::paper::Paper;
use crate::plan::Plan;
use crate::shelf::{Shelf, StartFault};
use crate::sink::{Failed, Sink};
use rail_base::{OutOfMemory, Word};
use std::alloc::Global;

/// A shelf over files in memory, on which planned calls fail.
///
/// `start` and `read` are counted together, from 1; a `start` that answers `OutOfMemory` is not
/// counted. A name that is not held is a fault. Of two files of one name the first is read.
#[derive(Drop)]
pub struct MemoryShelf {
    kept: KeptFiles,
    plan: Plan,
}

impl MemoryShelf {
    ghost use Rattle.rail_io.specs.KeptFiles.{files_on};
    ghost use Rattle.rail_io.specs.MemoryShelf.{calls_made, failing_calls, kept_of, reading_of};

    /// The shelf with these files. `fails` has the numbers of the calls that are to fail.
    pub fn new(files: Vec<File>, fails: Vec<u64>) -> MemoryShelf
        ensures files { files_on (kept_of result) ≡ files.items }
        ensures fails { failing_calls result ≡ fails.items }
        ensures no_call { calls_made result ≡ 0 }
        ensures none_begun { reading_of result ≡ fresh }
    {
        MemoryShelf {
            kept: KeptFiles::new(files),
            plan: Plan::new(fails),
        }
    }
}

impl Shelf for MemoryShelf {
    ghost use Rattle.rail_io.specs.KeptFiles.{files_on};
    ghost use Rattle.rail_io.specs.MemoryShelf.{kept_of, left_on, reading_of, with_reading, IsPlannedToFail};
    ghost use Rattle.rail_io.specs.declared.shelf.StartFault.TheVariants as start_fault;

    ghost told = { λ shelf. bytes_named (files_on (kept_of shelf)) };

    ghost left = { left_on };

    ghost begun = { λ shelf. begun_name (reading_of shelf) };

    ghost moved = { λ shelf. (reading_of shelf).moved };

    ghost ended = { λ shelf. (reading_of shelf).has_ended };

    ghost faults = { λ shelf. (reading_of shelf).faults };

    ghost failed = { λ shelf. failed_name (reading_of shelf) };

    fn start(&mut self, alloc: Global, name: &str) -> Result<(), StartFault>
        ensures begins { OnOk result
            (self.new ≡ with_reading self.old (after_begin (reading_of self.old) name.now)) }
        ensures begins_held { OnOk result (IsSome (bytes_named (files_on (kept_of self.old)) name.now)) }
        ensures begins_unplanned { OnOk result (¬ IsPlannedToFail self.old) }
        ensures refuses { result ≡ Err start_fault.Failed →
            self.new ≡ with_reading self.old (after_refusal (reading_of self.old) name.now) }
        ensures refused_by { result ≡ Err start_fault.Failed →
            IsPlannedToFail self.old ⊎ IsNone (bytes_named (files_on (kept_of self.old)) name.now) }
        ensures out_of_memory { result ≡ Err start_fault.OutOfMemory → self.new ≡ self.old }
        ensures faults_never_fall { (reading_of self.old).faults ≤ (reading_of self.new).faults }
    {
        let kept = Word::from_string(String::from_str(alloc, name)?);
        if self.plan.is_next_to_fail() || !self.kept.has(name) {
            self.kept.reading.refuse(kept);
            return Err(StartFault::Failed);
        }
        self.kept.reading.begin(kept);
        Ok(())
    }

    fn read(&mut self, into: &mut [u8]) -> Result<usize, Failed>
        requires begun { IsSome (begun_name (reading_of self.old)) }
        requires room { 0 < length into.old }

        ensures planned { IsErr result ↔ IsPlannedToFail self.old }
        ensures within { IfOk result (λ n. n ≤ length into.old) }
        ensures moves { IfOk result
            (λ n. left_on self.old ≡ prepend_known (take n into.new) (left_on self.new)) }
        ensures none_at_end { IfOk result (λ n. n ≡ 0 → IsAtEnd (left_on self.old)) }
        ensures some_before_end { IfOk result (λ n. 0 < n → left_on self.old ≢ Some []) }
        ensures count_fits { IfOk result (λ n. (reading_of self.old).moved + n < 2 ^ 64) }
        ensures reads { IfOk result
            (λ n. self.new ≡ with_reading self.old (after_move (reading_of self.old) n)) }
        ensures fails { OnErr result
            (self.new ≡ with_reading self.old (after_failure (reading_of self.old))) }
        ensures faults_never_fall { (reading_of self.old).faults ≤ (reading_of self.new).faults }
    {
        if self.plan.is_next_to_fail() {
            self.kept.reading.fail();
            return Err(Failed);
        }
        Ok(self.kept.read(into))
    }
}

/// A sink in memory, on which planned calls fail. The calls of `write` are counted from 1.
#[derive(Drop)]
pub struct MemorySink {
    paper: Paper,
    plan: Plan,
    /// How many calls failed; at its last value it stands still.
    faults: u64,
}

impl MemorySink {
    ghost use Rattle.rail_io.specs.MemorySink.{failing_writes, faults_of, paper_of, writes_made};
    ghost use Rattle.rail_io.specs.Paper.{room_of, told};

    /// A sink with room for so many bytes in all, which it takes here. `fails` has the numbers of
    /// the calls that are to fail.
    pub fn with_room(alloc: Global, room: usize, fails: Vec<u64>) -> Result<MemorySink, OutOfMemory>
        ensures none_written { IfOk result (λ sink. told (paper_of sink) ≡ Some []) }
        ensures room { IfOk result (λ sink. room_of (paper_of sink) ≡ room) }
        ensures fails { IfOk result (λ sink. failing_writes sink ≡ fails.items) }
        ensures no_call { IfOk result (λ sink. writes_made sink ≡ 0) }
        ensures no_fault { IfOk result (λ sink. faults_of sink ≡ 0) }
    {
        let paper = Paper::with_room(alloc, room)?;
        Ok(MemorySink {
            paper,
            plan: Plan::new(fails),
            faults: 0,
        })
    }

    /// The bytes written: `None` from the first piece on that did not fit the room.
    pub fn bytes(&self) -> Option<&[u8]>
        ensures { option_copied result ≡ told (paper_of self.now) }
    {
        self.paper.bytes()
    }
}

impl Sink for MemorySink {
    ghost use Rattle.rail_io.specs.MemorySink.{failing_writes, faults_of, paper_of, writes_made, IsPlannedToFail};
    ghost use Rattle.rail_io.specs.Paper.{room_of, told, told_after};

    ghost written = { λ sink. told (paper_of sink) };

    ghost faults = { faults_of };

    /// Fails exactly where the call is planned to, and else takes the whole piece. From the first
    /// piece on that does not fit the room, what was written is not told.
    fn write(&mut self, piece: &[u8]) -> Result<usize, Failed>
        requires { 0 < length piece.now }

        ensures planned { IsErr result ↔ IsPlannedToFail self.old }
        ensures whole { IfOk result (λ n. n ≡ length piece.now) }
        ensures told { OnOk result
            (told (paper_of self.new) ≡ told_after (room_of (paper_of self.old)) (told (paper_of self.old)) piece.now) }
        ensures failed_adds_none { OnErr result (told (paper_of self.new) ≡ told (paper_of self.old)) }

        ensures ok_counts_no_fault { OnOk result (faults_of self.new ≡ faults_of self.old) }
        ensures failed_counted { OnErr result (faults_of self.new ≡ raised (faults_of self.old)) }
        ensures faults_never_fall { faults_of self.old ≤ faults_of self.new }

        ensures call_counted { writes_made self.new ≡ raised (writes_made self.old) }
        ensures plan_stays { failing_writes self.new ≡ failing_writes self.old }
        ensures room_stays { room_of (paper_of self.new) ≡ room_of (paper_of self.old) }
    {
        if self.plan.is_next_to_fail() {
            self.faults = self.faults.saturating_add(1);
            return Err(Failed);
        }
        self.paper.put(piece);
        Ok(piece.len())
    }
}
