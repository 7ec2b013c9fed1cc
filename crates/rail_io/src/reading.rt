//! Where the reading of a shelf stands: the begun file, how much of it was moved, and what failed.

ghost use Rattle.std.specs.Prelude.{◌≡◌, ◌+◌, ◌^◌, ◌<◌, ◌≤◌, option_copied};
ghost use Rattle.rail_io.specs.Reads.{failed_name, fresh, after_begin, after_refusal, after_failure, after_move};

use rail_base::Word;

/// Where the reading of a shelf's files stands.
#[derive(Drop)]
pub(crate) struct Reading {
    /// The name of the last file that was to be begun.
    name: Option<Word>,
    /// Whether that file is begun.
    is_begun: bool,
    /// Whether a call failed at that file.
    has_failed: bool,
    /// How many of its bytes were moved.
    moved: u64,
    /// Whether a read met its end.
    has_ended: bool,
    /// How many calls failed; at its last value it stands still.
    faults: u64,
}

impl Reading {
    /// No file was begun, and no call failed.
    pub(crate) fn new() -> Reading
        ensures { result ≡ fresh }
    {
        Reading {
            name: None,
            is_begun: false,
            has_failed: false,
            moved: 0,
            has_ended: false,
            faults: 0,
        }
    }

    /// The name of the last file that was to be begun.
    pub(crate) fn name(&self) -> Option<&Word>
        ensures { option_copied result ≡ self.now.name }
    {
        self.name.as_ref()
    }

    /// The name of the file at which a call failed, if none was begun since.
    pub(crate) fn failed(&self) -> Option<&Word>
        ensures { option_copied result ≡ failed_name self.now }
    {
        if self.has_failed {
            self.name.as_ref()
        } else {
            None
        }
    }

    /// How many bytes of the begun file were moved.
    pub(crate) fn moved(&self) -> u64
        ensures { result ≡ self.now.moved }
    {
        self.moved
    }

    /// How many calls failed.
    pub(crate) fn faults(&self) -> u64
        ensures { result ≡ self.now.faults }
    {
        self.faults
    }

    /// The file of this name is begun.
    pub(crate) fn begin(&mut self, name: Word)
        ensures { self.new ≡ after_begin self.old name }
    {
        self.name = Some(name);
        self.is_begun = true;
        self.has_failed = false;
        self.moved = 0;
        self.has_ended = false;
    }

    /// The file of this name could not be begun.
    pub(crate) fn refuse(&mut self, name: Word)
        ensures after { self.new ≡ after_refusal self.old name }
        ensures faults_never_fall { self.old.faults ≤ self.new.faults }
    {
        self.name = Some(name);
        self.is_begun = false;
        self.has_failed = true;
        self.moved = 0;
        self.faults = self.faults.saturating_add(1);
    }

    /// A read of the begun file failed.
    pub(crate) fn fail(&mut self)
        ensures after { self.new ≡ after_failure self.old }
        ensures faults_never_fall { self.old.faults ≤ self.new.faults }
    {
        self.has_failed = true;
        self.faults = self.faults.saturating_add(1);
    }

    /// A read moved so many bytes; a read of none met the end.
    pub(crate) fn advance(&mut self, count: usize)
        requires { self.old.moved + count < 2 ^ 64 }
        ensures { self.new ≡ after_move self.old count }
    {
        self.moved += count as u64;
        self.has_ended = self.has_ended || count == 0;
    }
}
