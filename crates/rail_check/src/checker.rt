//! What is kept of a history that is checked, line by line.

ghost use Rattle.std.specs.Prelude.{◌≡◌, ◌-◌, ◌<◌, ◌^◌, [], IfOk, IfSome, IsNone, true};
ghost use Rattle.rail_check.specs.Checkers.{ChecksLine, IsChecked, IsChecking, IsDecidedAt, IsEndedWith};
ghost use Rattle.rail_ledger.specs.Inputs.{input_in};
ghost use Rattle.rail_ledger.specs.Ledgers.{line_taken};
ghost use Rattle.rail_rules.specs.Accepted.{is_accepted_input};
ghost use Rattle.rail_rules.specs.Fronts.{is_hold};

use crate::verdict::Verdict;
use rail_base::{Entry, OutOfMemory, TrainNo, What};
use rail_ledger::{Ledger, RunInput};
use rail_text::LineBuffer;
use std::alloc::Global;

/// What is kept of the lines that were checked, all of which may follow those before them.
#[derive(Drop)]
pub(crate) struct Checker {
    pub(crate) ledger: Ledger,
    /// Whether the last line is a hold line.
    pub(crate) after_hold: bool,
    /// How many lines were checked.
    pub(crate) lines: u32,
    /// Room for the line that is due.
    pub(crate) room: LineBuffer,
}

impl Checker {
    /// The checker of the input before the first line, with all memory that it ever takes.
    pub(crate) fn begin(alloc: Global, input: RunInput) -> Result<Checker, OutOfMemory>
        requires accepted { is_accepted_input (input_in input) ≡ true }
        ensures { IfOk result (IsChecked input []) }
    {
        Ok(Checker {
            ledger: Ledger::begin(alloc, input)?,
            after_hold: false,
            lines: 0,
            room: LineBuffer::new(),
        })
    }

    /// Judges the next line, with the trains beside its entry: `None` where it may follow; else the verdict, whatever
    /// lines are behind it.
    pub(crate) fn take(&mut self, entry: Entry, trains: &[TrainNo]) -> Option<Verdict>
        requires checking { IsChecking self.old }
        requires few { self.old.lines < 2 ^ 32 - 1 }
        ensures input { self.new.ledger.input ≡ self.old.ledger.input }
        ensures taken { IsNone result → ChecksLine self.old self.new (line_taken entry trains.now) }
        ensures refused { IfSome result (IsDecidedAt self.old (line_taken entry trains.now)) }
    {
        self.lines += 1;
        if let Some(law) = self.ledger.take(entry, trains, self.after_hold) {
            return Some(Verdict::No {
                line: self.lines,
                law,
            });
        }
        self.after_hold = is_hold(&entry.what);
        None
    }

    /// The verdict where no line follows.
    pub(crate) fn end(&mut self) -> Verdict
        requires checking { IsChecking self.old }
        requires few { self.old.lines < 2 ^ 32 - 1 }
        ensures { IsEndedWith self.old result }
    {
        match self.ledger.judge_end() {
            Some(law) => Verdict::No {
                line: self.lines + 1,
                law,
            },
            None => Verdict::Yes,
        }
    }
}

/// Whether this is a hold line.
pub(crate) fn is_hold(what: &What) -> bool
    ensures { result ≡ is_hold what.now }
{
    matches!(what, What::Hold { .. })
}
