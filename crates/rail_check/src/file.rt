//! A history file is checked as it is read.

ghost use Rattle.std.specs.Prelude.{◌≡◌, ◌≢◌, ◌-◌, ◌<◌, ◌^◌, [], IfOk, IfErr, IfNone, IfSome, IsTrue, OnOk, false, length, true};
ghost use Rattle.rail_check.specs.Answers.{IsVerdictOn};
ghost use Rattle.rail_check.specs.Checkers.{Decides, IsFollowing, KeepsUp, ReachesEnd, Refuses};
ghost use Rattle.rail_history.specs.HistoryLines.{IsRefusedIn};
ghost use Rattle.rail_history.specs.ReadFiles.{IsReading, text_left};
ghost use Rattle.rail_ledger.specs.Inputs.{input_in};
ghost use Rattle.rail_rules.specs.Accepted.{is_accepted_input};

use crate::checker::{Checker, is_hold};
use crate::verdict::Verdict;
use rail_base::Fault;
use rail_history::{FileLines, put_bare_line};
use rail_ledger::RunInput;
use std::alloc::Global;

/// Whether the history in the file of these bytes is lawful to its end: a history of the plant with its calls, under the
/// commands, and with the names of the deck, of which one is in force first. The input is handed over, since the ledger
/// that is made here keeps it. The names of the file are those of the plant. The file is refused where `read_history`
/// refuses it, whatever the verdict on the lines before would be.
///
/// The law of a `No` is the least of those that the line breaks, except that law 6 goes before laws 1 and 7:
///
/// 1. an event line or the end line is not the due one, or a line follows the end line;
/// 2. a train is admitted that is not waiting at this instant, or another move of it, or after a hold line of the
///    round;
/// 3. a train is admitted that is stopped, or over a closed section;
/// 4. a train is admitted over a section that is blocked at the instant;
/// 5. a train is admitted after which the kept list does not bring every train inside to its exit;
/// 6. a hold line is not the due one, or a line other than an admission stands where a train could be admitted
///    or a hold line is due;
/// 7. the end line is missing.
///
/// A line is read only where it is not the due one: the text of the line that is due is compared with the bytes of the
/// file. `OutOfMemory` comes where memory is not found.
pub fn check_file(alloc: Global, input: RunInput, bytes: &[u8]) -> Result<Verdict, Fault>
    requires accepted { is_accepted_input (input_in input) ≡ true }
    requires short { length bytes.now < 2 ^ 32 - 1 }
    ensures verdict { IfOk result (IsVerdictOn (input_in input) bytes.now) }
    ensures refused { IfErr result (IsRefusedIn input.plant bytes.now) }
{
    let mut checker = Checker::begin(alloc, input)?;
    let mut file = FileLines::new(bytes);
    match checker.follow(alloc, &mut file)? {
        Some(verdict) => {
            file.read_rest(alloc, checker.ledger.input.plant.names())?;
            Ok(verdict)
        }
        None => Ok(checker.end()),
    }
}

impl Checker {
    /// Checks the lines of the file: `None` where all may follow; else the verdict, whatever lines are behind the first
    /// that may not follow, which is the last that was read.
    fn follow(&mut self, alloc: Global, file: &mut FileLines) -> Result<Option<Verdict>, Fault>
        requires following { IsFollowing self.old file.old }
        requires reading { IsReading file.old }
        ensures input { self.new.ledger.input ≡ self.old.ledger.input }
        ensures reading { OnOk result (IsReading file.new) }
        ensures ended { IfOk result (λ answer. IfNone answer (ReachesEnd self.old file.old self.new)) }
        ensures room { IfOk result (λ answer. IfNone answer (self.new.lines < 2 ^ 32 - 1)) }
        ensures decided { IfOk result (λ answer. IfSome answer (Decides self.old file.old file.new)) }
        ensures refused { IfErr result (Refuses self.old file.old) }
    {
        while !file.is_empty() {
            if let Some(verdict) = self.follow_line(alloc, file)? {
                return Ok(Some(verdict));
            }
        }
        Ok(None)
    }

    /// Checks the next line of the file: `None` where it may follow; else the verdict, whatever lines are behind it.
    fn follow_line(&mut self, alloc: Global, file: &mut FileLines) -> Result<Option<Verdict>, Fault>
        requires following { IsFollowing self.old file.old }
        requires reading { IsReading file.old }
        requires some { text_left file.old ≢ [] }
        ensures input { self.new.ledger.input ≡ self.old.ledger.input }
        ensures reading { OnOk result (IsReading file.new) }
        ensures less { OnOk result (length (text_left file.new) < length (text_left file.old)) }
        ensures followed { IfOk result (λ answer. IfNone answer (KeepsUp self.old file.old self.new file.new)) }
        ensures decided { IfOk result (λ answer. IfSome answer (Decides self.old file.old file.new)) }
        ensures refused { IfErr result (Refuses self.old file.old) }
    {
        if self.pass_due(file) {
            return Ok(None);
        }
        let line = file.next_line(alloc, self.ledger.input.plant.names())?;
        Ok(self.take(line.entry, line.beside()))
    }

    /// Whether the file goes on with the line that is due. Then the line is taken, and passed without being read.
    fn pass_due(&mut self, file: &mut FileLines) -> bool
        requires following { IsFollowing self.old file.old }
        requires reading { IsReading file.old }
        ensures input { self.new.ledger.input ≡ self.old.ledger.input }
        ensures reading { IsReading file.new }
        ensures less { IsTrue result → length (text_left file.new) < length (text_left file.old) }
        ensures followed { KeepsUp self.old file.old self.new file.new }
        ensures stays { result ≡ false → file.new ≡ file.old }
    {
        if !self.ledger.may_go_on() && says_admission(file.text()) {
            return false;
        }
        let Some(due) = self.ledger.due(self.after_hold) else {
            return false;
        };
        put_bare_line(&mut self.room, self.ledger.input.plant.names(), &due.entry);
        if !file.pass(self.room.as_slice()) {
            return false;
        }
        self.ledger.take_due(&due);
        self.after_hold = is_hold(&due.entry.what);
        self.lines += 1;
        true
    }
}

/// Whether the text begins like that of an admission. It is only a guess which saves work: where nothing but the word is
/// alike, the line is read, and judged by what it says.
fn says_admission(text: &[u8]) -> bool {
    match text.iter().position(|byte| *byte == b' ') {
        Some(end) => text[end + 1..].starts_with(b"admit "),
        None => false,
    }
}
