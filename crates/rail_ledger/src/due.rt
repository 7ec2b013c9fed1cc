//! The line that is due, before a history says what comes.

ghost use Rattle.std.specs.Prelude.{◌≡◌, [], IsNone, IfSome, false, true};
ghost use Rattle.rail_ledger.specs.DueLines.{IsDue, IsNoneDue};
ghost use Rattle.rail_ledger.specs.Ledgers.{IsHoldDue, IsSomewhere, MayGoOn, StandsAsBefore, TakesLine, line_with};
ghost use Rattle.rail_ledger.specs.declared.ledger.Listed.TheVariants as which;
ghost use Rattle.rail_state.specs.Representation.{AreAllKnown};

use crate::judgement::Left;
use crate::ledger::{Ledger, Listed};
use rail_base::{Entry, TrainNo};

/// A line that is due: no other line but an admission may follow.
#[derive(Clone, Copy, Debug)]
pub struct Due {
    /// The entry of the line, which names no list.
    pub entry: Entry,
    /// The train of a hold line, and none at the line of an event.
    train: Option<TrainNo>,
}

impl Ledger {
    /// The line that is due: that of the next event where nothing is left to decide at this instant, or the hold line
    /// that is due. There is none where some train could be admitted, where no event is pending, and behind the end
    /// line. No line is given. `after_hold` tells whether the last line was a hold line: then each train that waits has
    /// a known cause.
    pub fn due(&mut self, after_hold: bool) -> Option<Due>
        requires running { IsSomewhere self.old }
        requires known { after_hold ≡ true → AreAllKnown self.old.input.plant self.old.state.trains }
        ensures input { self.new.input ≡ self.old.input }
        ensures unchanged { StandsAsBefore self.old self.new }
        ensures due { IfSome result (IsDue self.new) }
        ensures none { IsNone result → IsNoneDue self.old self.new }
    {
        if self.state.has_ended {
            return None;
        }
        self.listed = Listed::Nothing;
        if self.may_go_on() {
            return self.event_due();
        }
        match self.left_to_decide(after_hold) {
            Left::Admission => None,
            Left::Hold(train) => Some(self.hold_due(train)),
            Left::Nothing => self.event_due(),
        }
    }

    /// The line of the next event, where there is one.
    fn event_due(&self) -> Option<Due>
        requires running { IsSomewhere self.now }
        requires going { self.now.state.has_ended ≡ false }
        requires may { MayGoOn self.now }
        requires unlisted { self.now.listed ≡ which.Nothing }
        ensures due { IfSome result (IsDue self.now) }
        ensures none { IsNone result → self.now.state.queue.events ≡ [] }
    {
        let event = self.state.queue.first()?;
        let entry = Entry {
            at: event.at,
            what: self.says(&event),
        };
        Some(Due { entry, train: None })
    }

    /// The hold line of this train, which is due.
    fn hold_due(&self, train: TrainNo) -> Due
        requires running { IsSomewhere self.now }
        requires due { IsHoldDue self.now train }
        requires unlisted { self.now.listed ≡ which.Nothing }
        ensures { IsDue self.now result }
    {
        let entry = Entry {
            at: self.state.instant,
            what: self.state.hold_line(train),
        };
        Due {
            entry,
            train: Some(train),
        }
    }

    /// Takes the line that is due. What is kept stands for the lines with it.
    pub fn take_due(&mut self, due: &Due)
        requires running { IsSomewhere self.old }
        requires due { IsDue self.old due.now }
        ensures input { self.new.input ≡ self.old.input }
        ensures taken { TakesLine self.old self.new (line_with due.now.entry []) }
    {
        match due.train {
            Some(train) => {
                self.hold_train(train);
            }
            None => {
                self.go_on();
            }
        }
    }
}
