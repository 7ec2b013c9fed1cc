//! A line is judged by what is kept.

ghost use Rattle.std.specs.Prelude.{◌≡◌, ◌≢◌, ◌↔◌, ℕ, ◌<◌, ◌≤◌, ◌∷◌, [], cond, is_some, Some, true, false, IsTrue, IsNone, IsSome, IfSome};
ghost use Rattle.rail_ledger.specs.Ledgers.{AreAlike, CouldGo, HasGiven, IsAdmissibleNow, IsAt, IsEnded, IsHoldDue, IsNextLine, IsNextTrain, IsRefused, IsRefusedWith, IsSettled, IsSomewhere, IsSomewhereWith, IsUnended, MayGoOn, StandsAsBefore, TakesLine, TakesLineWith, admission, is_forbidden_by, is_in_place, is_next_move, line_taken, line_with, list_in, list_with, untried};
ghost use Rattle.rail_ledger.specs.declared.judgement.Left.TheVariants.{Admission, Hold as HoldOf, Nothing};
ghost use Rattle.rail_ledger.specs.declared.ledger.Listed.TheVariants as which;
ghost use Rattle.rail_queue.specs.Order.{first_time_of, is_sorted};
ghost use Rattle.rail_rules.specs.Fronts.{Front, Line, is_admission, is_hold, kept, places};
ghost use Rattle.rail_laws_step.specs.HolderTables.{held_cause, own_overlap};
ghost use Rattle.rail_list.specs.GivenLists.{may_be_given};
ghost use Rattle.rail_state.specs.Representation.{AreAllKnown};
ghost use Rattle.rail_state.specs.TrainStates.{state_of};
ghost use Rattle.rail_rules.specs.Plant.{claimed, moves_of};

use crate::ledger::{Ledger, Listed, list_with};
use rail_base::{Entry, Note, Time, TrainNo, What};
use rail_list::admit_given;
use rail_state::{claimed_sections, held_cause, overlap_behind};

/// What is left to decide at an instant at which nothing is pending.
#[derive(Clone, Copy, Debug, PartialEq, Eq)]
pub enum Left {
    /// Some train could be admitted.
    Admission,
    /// The hold line of this train is due.
    Hold(TrainNo),
    /// Nothing.
    Nothing,
}

impl Ledger {
    /// Takes a line, with the list of a fresh admission or the trains that an end line names, and without trains else:
    /// `None` where it may follow, and then what is kept stands for the lines with it; else the law that it breaks,
    /// and then what is kept stands for the lines so far. `after_hold` tells whether the last line was a hold line. The
    /// line may name any train, section and command.
    pub fn take(&mut self, entry: Entry, trains: &[TrainNo], after_hold: bool) -> Option<u8>
        requires running { IsSomewhereWith after_hold self.old }
        ensures input { self.new.input ≡ self.old.input }
        ensures taken { IsNone result → TakesLineWith after_hold self.old self.new (line_taken entry trains.now) }
        ensures refused { IfSome result (IsRefusedWith after_hold self.old (line_taken entry trains.now)) }
        ensures unchanged { IsSome result → StandsAsBefore self.old self.new }
    {
        if self.state.has_ended {
            return Some(1);
        }
        let what = entry.what;
        match what {
            What::Admit { train, place, note } => {
                self.take_admission(entry.at, train, place, note, trains, after_hold)
            }
            _ => self.take_other(entry, trains, after_hold),
        }
    }

    /// Judges that no line follows: `None` after the end line; else the law that is broken, 6 where something is
    /// left to decide at this instant, and 7 where nothing is. What is kept stands for the lines so far.
    pub fn judge_end(&mut self) -> Option<u8>
        requires running { IsSomewhere self.old }
        ensures input { self.new.input ≡ self.old.input }
        ensures unchanged { StandsAsBefore self.old self.new }
        ensures ended { IsNone result → IsEnded self.old }
        ensures missing { IfSome result (IsUnended self.old) }
    {
        if self.state.has_ended {
            return None;
        }
        self.listed = Listed::Nothing;
        if self.may_go_on() {
            return Some(7);
        }
        match self.left_to_decide(false) {
            Left::Admission => Some(6),
            Left::Hold(_) => Some(6),
            Left::Nothing => Some(7),
        }
    }

    /// What is left to decide at this instant, at which nothing is pending. No line is given. Where the last line
    /// was a hold line each train that waits has a known cause.
    pub(crate) fn left_to_decide(&mut self, after_hold: bool) -> Left
        requires running { IsSomewhere self.old }
        requires known { after_hold ≡ true → AreAllKnown self.old.input.plant self.old.state.trains }
        requires going { self.old.state.has_ended ≡ false }
        requires unsettled { self.old.state.is_settled ≡ false }
        requires none_due { first_time_of self.old.state.queue.events ≢ Some self.old.state.instant }
        requires sorted { IsTrue (is_sorted self.old.state.queue.events) }
        requires unlisted { self.old.listed ≡ which.Nothing }
        ensures input { self.new.input ≡ self.old.input }
        ensures listed { self.new.listed ≡ which.Nothing }
        ensures unchanged { StandsAsBefore self.old self.new }
        ensures known_unchanged { after_hold ≡ true → self.new.state.trains ≡ self.old.state.trains }
        ensures admission { result ≡ Admission → CouldGo self.old }
        ensures hold { (train : ℕ) → result ≡ HoldOf train → IsHoldDue self.new train }
        ensures nothing { result ≡ Nothing → IsSettled self.old self.new }
    {
        while let Some(train) = self.look_unless(after_hold) {
            if self.knows_list(train) {
                return Left::Admission;
            }
        }
        match self.state.trains.first_lacking() {
            Some(train) => Left::Hold(train),
            None => {
                self.state.is_settled = true;
                Left::Nothing
            }
        }
    }

    /// Looks at the trains that wait, unless the cause of each is known: of those that nothing bars one, if there
    /// is one.
    fn look_unless(&mut self, are_known: bool) -> Option<TrainNo>
        requires running { IsSomewhere self.old }
        requires known { are_known ≡ true → AreAllKnown self.old.input.plant self.old.state.trains }
        ensures alike { AreAlike self.old self.new }
        ensures at { StandsAsBefore self.old self.new }
        ensures known_unchanged { are_known ≡ true → self.new.state.trains ≡ self.old.state.trains }
        ensures none { IsNone result → AreAllKnown self.new.input.plant self.new.state.trains }
        ensures some { IsSome result → are_known ≡ false }
        ensures next { IfSome result (IsNextTrain self.new) }
        ensures fewer { untried self.new.state.trains ≤ untried self.old.state.trains }
    {
        if are_known {
            return None;
        }
        self.look()
    }

    /// Takes a line that is no admission: `None` where it may follow, and then what is kept stands for the lines
    /// with it; else the law that it breaks, and then what is kept stands for the lines so far. `after_hold` tells whether
    /// the last line was a hold line: then each train that waits has a known cause.
    pub fn take_other(&mut self, entry: Entry, trains: &[TrainNo], after_hold: bool) -> Option<u8>
        requires running { IsSomewhere self.old }
        requires known { after_hold ≡ true → AreAllKnown self.old.input.plant self.old.state.trains }
        requires other { is_admission entry.what ≡ false }
        ensures input { self.new.input ≡ self.old.input }
        ensures taken { IsNone result → TakesLine self.old self.new (line_with entry trains.now) }
        ensures listed { IsNone result → list_in self.new ≡ trains.now }
        ensures refused { IfSome result (IsRefused self.old (line_with entry trains.now)) }
        ensures unchanged { IsSome result → StandsAsBefore self.old self.new }
        ensures known_unchanged { after_hold ≡ true → IsSome result → self.new.state.trains ≡ self.old.state.trains }
    {
        if self.state.has_ended {
            return Some(1);
        }
        self.listed = Listed::Nothing;
        if self.may_go_on() {
            return self.take_next(entry, trains);
        }
        match self.left_to_decide(after_hold) {
            Left::Admission => Some(6),
            Left::Hold(train) => self.take_hold(entry, trains, train),
            Left::Nothing => self.take_next(entry, trains),
        }
    }

    /// Takes a line that is no admission where the hold line of this train is due.
    fn take_hold(&mut self, entry: Entry, trains: &[TrainNo], train: TrainNo) -> Option<u8>
        requires running { IsSomewhere self.old }
        requires due { IsHoldDue self.old train }
        requires unlisted { self.old.listed ≡ which.Nothing }
        requires other { is_admission entry.what ≡ false }
        ensures input { self.new.input ≡ self.old.input }
        ensures taken { IsNone result → TakesLine self.old self.new (line_with entry trains.now) }
        ensures listed { IsNone result → list_in self.new ≡ trains.now }
        ensures refused { IfSome result (IsRefused self.old (line_with entry trains.now)) }
        ensures unchanged { IsSome result → StandsAsBefore self.old self.new }
        ensures known_unchanged { IsSome result → self.new.state.trains ≡ self.old.state.trains }
    {
        let due = Entry {
            at: self.state.instant,
            what: self.state.hold_line(train),
        };
        if !is_line(&entry, trains, &due, &[]) {
            return Some(6);
        }
        self.hold_train(train);
        None
    }

    /// Takes a line that is no admission where nothing is left to decide at this instant.
    fn take_next(&mut self, entry: Entry, trains: &[TrainNo]) -> Option<u8>
        requires running { IsSomewhere self.old }
        requires going { self.old.state.has_ended ≡ false }
        requires may { MayGoOn self.old }
        requires unlisted { self.old.listed ≡ which.Nothing }
        requires other { is_admission entry.what ≡ false }
        ensures input { self.new.input ≡ self.old.input }
        ensures taken { IsNone result → TakesLine self.old self.new (line_with entry trains.now) }
        ensures listed { IsNone result → list_in self.new ≡ trains.now }
        ensures refused { IfSome result (IsRefused self.old (line_with entry trains.now)) }
        ensures unchanged { IsSome result → StandsAsBefore self.old self.new }
        ensures known_unchanged { IsSome result → self.new.state.trains ≡ self.old.state.trains }
    {
        if !self.is_next(&entry, trains) {
            return Some(law_of_other(&entry));
        }
        self.go_on();
        None
    }

    /// Whether the line is that of the next event, or the end line where none is pending. No line is given.
    fn is_next(&mut self, entry: &Entry, trains: &[TrainNo]) -> bool
        requires running { IsSomewhere self.old }
        requires going { self.old.state.has_ended ≡ false }
        requires may { MayGoOn self.old }
        ensures kept { self.new ≡ record self.old { remaining = self.new.remaining } }
        ensures unchanged { StandsAsBefore self.old self.new }
        ensures exact { (line : Line) × IsNextLine self.old line × (IsTrue result ↔ (line ≡ line_with entry.now trains.now)) }
    {
        match self.state.queue.first() {
            Some(event) => {
                let due = Entry {
                    at: event.at,
                    what: self.says(&event),
                };
                is_line(entry, trains, &due, &[])
            }
            None => self.is_end(entry, trains),
        }
    }

    /// Whether the line is the end line, where none is pending and all that waits was told why. No line is given.
    fn is_end(&mut self, entry: &Entry, trains: &[TrainNo]) -> bool
        requires running { IsSomewhere self.old }
        requires going { self.old.state.has_ended ≡ false }
        requires settled { self.old.state.is_settled ≡ true }
        requires empty { self.old.state.queue.events ≡ [] }
        ensures kept { self.new ≡ record self.old { remaining = self.new.remaining } }
        ensures unchanged { StandsAsBefore self.old self.new }
        ensures exact { (line : Line) × IsNextLine self.old line × (IsTrue result ↔ (line ≡ line_with entry.now trains.now)) }
    {
        let due = Entry {
            at: self.state.instant,
            what: What::End,
        };
        self.state
            .trains
            .list_remaining(&self.orders, &mut self.remaining);
        let is_end = is_line(entry, trains, &due, &self.remaining);
        self.remaining.clear();
        is_end
    }

    /// Takes an admission: `None` where it may follow, and then what is kept stands for the lines with it;
    /// else the law that it breaks, and then what is kept stands for the lines so far. `after_hold` tells whether the last line was a hold line.
    pub fn take_admission(
        &mut self,
        at: Time,
        train: TrainNo,
        place: u16,
        note: Note,
        list: &[TrainNo],
        after_hold: bool,
    ) -> Option<u8>
        requires running { IsSomewhereWith after_hold self.old }
        requires going { self.old.state.has_ended ≡ false }
        ensures input { self.new.input ≡ self.old.input }
        ensures taken { IsNone result → TakesLineWith after_hold self.old self.new (admission at train place note list.now) }
        ensures listed { IsNone result → self.new.listed ≡ list_with note }
        ensures unlisted { IsSome result → self.new.listed ≡ self.old.listed }
        ensures known_unchanged { IsSome result → self.new.state.trains ≡ self.old.state.trains }
        ensures refused { IfSome result (IsRefusedWith after_hold self.old (admission at train place note list.now)) }
        ensures unchanged { IsSome result → StandsAsBefore self.old self.new }
    {
        if !self.is_in_place(at, train, place, after_hold) {
            return Some(2);
        }
        if self.is_forbidden(train) {
            return Some(3);
        }
        if self.is_occupied(train) {
            return Some(4);
        }
        if !self.keep_given(train, note, list) {
            return Some(5);
        }
        self.state.admit(&self.input.plant, train);
        self.listed = list_with(note);
        None
    }

    /// Whether the train waits at this instant, this is its next move, and no hold line stands before in the
    /// round.
    fn is_in_place(&self, at: Time, train: TrainNo, place: u16, after_hold: bool) -> bool
        requires { IsSomewhere self.now }
        ensures exact { result ≡ is_in_place self.now at train place after_hold }
        ensures sorted { IsTrue (is_sorted self.now.state.queue.events) }
    {
        let first = self.state.queue.first_time();
        at == self.state.instant
            && first != Some(self.state.instant)
            && self.is_next_move(train, place)
            && !after_hold
    }

    /// Whether the train waits, and this is its next move.
    fn is_next_move(&self, train: TrainNo, place: u16) -> bool
        requires { IsSomewhere self.now }
        ensures { result ≡ is_next_move self.now.state.trains train place }
    {
        if train.0 >= self.input.plant.moves().trains() {
            return false;
        }
        let train_state = self.state.trains.get(train);
        train_state.waits && u32::from(place) == u32::from(train_state.place) + 1
    }

    /// Whether the train is stopped, or a section of its next move is closed.
    fn is_forbidden(&self, train: TrainNo) -> bool
        requires running { IsSomewhere self.now }
        requires waits { (state_of self.now.state.trains train).waits ≡ true }
        ensures { result ≡ is_forbidden_by self.now.orders train
            (claimed self.now.input.plant train (state_of self.now.state.trains train).place) }
    {
        let place = self.state.trains.get(train).place;
        let sections = claimed_sections(&self.input.plant, train, place + 1);
        self.orders.stop_cause(train).is_some() || self.orders.closed_cause(sections).is_some()
    }

    /// Whether the holder of a section that the train's next move claims bars the train.
    fn is_occupied(&self, train: TrainNo) -> bool
        requires running { IsSomewhere self.now }
        requires waits { (state_of self.now.state.trains train).waits ≡ true }
        ensures { result ≡ is_some (held_cause self.now.state.holders train
            (own_overlap self.now.input.plant train (state_of self.now.state.trains train).place)
            (claimed self.now.input.plant train (state_of self.now.state.trains train).place)) }
    {
        let place = self.state.trains.get(train).place;
        let own = overlap_behind(&self.input.plant, train, place);
        let sections = claimed_sections(&self.input.plant, train, place + 1);
        held_cause(&self.state.holders, train, own, sections).is_some()
    }

    /// Makes the train's next move on the places, and keeps the list that its admission with this note keeps,
    /// where that completes after it.
    fn keep_given(&mut self, train: TrainNo, note: Note, list: &[TrainNo]) -> bool
        requires next { IsAdmissibleNow self.old train }
        requires going { self.old.state.has_ended ≡ false }
        ensures lists { self.new ≡ record self.old { places = self.new.places; kept = self.new.kept; failures = self.new.failures } }
        ensures exact { (front : Front) → IsAt front self.old → result
            ≡ may_be_given (moves_of self.old.input.plant) (places self.old.input.plant front) (kept self.old.input.plant front) train note list.now }
        ensures given { IsTrue result → (front : Front) → IsAt front self.old → HasGiven front self.old self.new train note list.now }
        ensures unchanged { result ≡ false → StandsAsBefore self.old self.new }
    {
        let moves = self.input.plant.moves();
        // For its clauses alone: the moves are a table within the limits.
        moves.trains();
        let analyst = self.searcher.analyst();
        admit_given(
            moves,
            &mut self.places,
            &mut self.kept,
            analyst,
            &mut self.failures,
            train,
            note,
            list,
        )
    }
}

/// Whether the line is this one: the due entry with the list that belongs to it.
fn is_line(entry: &Entry, trains: &[TrainNo], due: &Entry, list: &[TrainNo]) -> bool
    ensures { IsTrue result ↔ (line_with due.now list.now ≡ line_with entry.now trains.now) }
{
    are_same(entry, due) && are_same_lists(list, trains)
}

/// Whether the two entries are one.
fn are_same(entry: &Entry, given: &Entry) -> bool
    ensures { IsTrue result ↔ (given.now ≡ entry.now) }
{
    entry == given
}

/// Whether the two lists are one.
fn are_same_lists(list: &[TrainNo], trains: &[TrainNo]) -> bool
    ensures { IsTrue result ↔ (list.now ≡ trains.now) }
{
    list == trains
}

/// The law that the line breaks where it is no admission, and nothing is left to decide.
fn law_of_other(entry: &Entry) -> u8
    ensures { result ≡ cond (is_hold entry.now.what) 6 1 }
{
    match entry.what {
        What::Hold { .. } => 6,
        _ => 1,
    }
}
