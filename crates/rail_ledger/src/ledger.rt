//! What is kept of a run, and how it goes on line by line.

ghost use Rattle.std.specs.Prelude.{◌≡◌, ◌≢◌, ◌⊎◌, ◌↔◌, ℕ, suc, ◌-◌, ◌<◌, ◌≤◌, [], ◌∷◌, cond, drop, slice_get, List, Some, None, true, false, length, replicate, vec_capacity, IsTrue, IsNone, IfOk, IfSome};
ghost use Rattle.std.specs.List.{list_any};
ghost use Rattle.rail_base.specs.declared.history.What.TheVariants.{Told, Untold};
ghost use Rattle.rail_base.specs.declared.orders.Command.{Command};
ghost use Rattle.rail_queue.specs.declared.event.Class.TheVariants as class;
ghost use Rattle.rail_rules.specs.Accepted.{is_accepted_input};
ghost use Rattle.rail_rules.specs.Plant.{moves, trains};
ghost use Rattle.rail_ledger.specs.Inputs.{input_in};
ghost use Rattle.rail_ledger.specs.Ledgers.{AreAlike, AreUnbarred, ContinuesRun, GivesEntry, HasToldCommand, HasList, HasPassed, HasTried, IsAdmissionOf, IsAt, IsDeciding, IsNextLine, IsNextTrain, IsOther, IsSettled, IsSomewhere, MayGoOn, StandsAsBefore, is_effective, list_in, list_with, untried};
ghost use Rattle.rail_ledger.specs.declared.ledger.Listed.TheVariants as which;
ghost use Rattle.rail_base.specs.declared.limits.TheConstants.{TRAINS};
ghost use Rattle.rail_cores.specs.Searchers.{IsSearcherFor};
ghost use Rattle.rail_list.specs.Failures.{is_kept};
ghost use Rattle.rail_list.specs.KeptLists.{HasRoomFor};
ghost use Rattle.rail_place.specs.PlaceStates.{IsMadeFor};
ghost use Rattle.rail_place.specs.Tables.{moves_in};
ghost use Rattle.rail_queue.specs.Order.{first_time_of, goes_before, is_sorted};
ghost use Rattle.rail_rules.specs.Causes.{could_go, is_repairable};
ghost use Rattle.rail_rules.specs.Fronts.{Front, is_hold};
ghost use Rattle.rail_state.specs.Representation.{AreAllKnown, bare_at};
ghost use Rattle.rail_state.specs.TrainStates.{IsReadyFirst, lacks_hold_line, state_of};

use crate::input::RunInput;
use rail_base::limits::TRAINS;
use rail_base::{Entry, Note, Order, OutOfMemory, Time, TrainNo, What};
use rail_cores::Searcher;
use rail_list::{Failures, KeptList, Reader, admit_by_list, is_list_known};
use rail_orders::ToldOrders;
use rail_place::{Moves, Places};
use rail_queue::{Class, Event};
use rail_state::RunState;
use std::alloc::Global;

/// Which list belongs to the last line.
#[derive(Clone, Copy, Debug, PartialEq, Eq)]
pub enum Listed {
    /// None.
    Nothing,
    /// The kept list, which a fresh admission brought.
    Kept,
    /// The trains that remain at the end.
    Remaining,
}

/// All that is kept of a run.
pub struct Ledger {
    pub input: RunInput,
    /// What the commands told so far mean.
    pub orders: ToldOrders,
    pub state: RunState,
    pub places: Places,
    pub kept: KeptList,
    /// With it the kept list is read as a whole.
    pub reader: Reader,
    pub searcher: Searcher,
    /// The searches that failed.
    pub failures: Failures,
    /// The trains that remain, once the end line was given.
    pub remaining: Vec<TrainNo>,
    pub listed: Listed,
}

impl Drop for Ledger {
    fn drop(self) {
        let Ledger {
            input: _input,
            orders: _orders,
            state: _state,
            places: _places,
            kept: _kept,
            reader: _reader,
            searcher: _searcher,
            failures: _failures,
            remaining: _remaining,
            listed: _listed,
        } = self;
    }
}

impl Ledger {
    /// The ledger of the input before the first line. All memory that it needs is taken here.
    pub fn begin(alloc: Global, input: RunInput) -> Result<Ledger, OutOfMemory>
        requires accepted { is_accepted_input (input_in input) ≡ true }
        ensures input { IfOk result (λ ledger. ledger.input ≡ input) }
        ensures begun { IfOk result (λ ledger. (IsAt [] ledger) × (ledger.listed ≡ which.Nothing)) }
    {
        let orders = ToldOrders::new(alloc, &input.plant, &input.deck, input.force)?;
        let state = RunState::new(alloc, &input.plant, &input.commands)?;
        let lists = lists_of(alloc, input.plant.moves())?;
        Ok(Ledger {
            input,
            orders,
            state,
            places: lists.places,
            kept: lists.kept,
            reader: lists.reader,
            searcher: lists.searcher,
            failures: lists.failures,
            remaining: lists.remaining,
            listed: Listed::Nothing,
        })
    }

    /// The list that belongs to the last line.
    pub fn last_list(&self) -> &[TrainNo]
        ensures { result.now ≡ list_in self.now }
    {
        match self.listed {
            Listed::Nothing => &[],
            Listed::Kept => self.kept.as_slice(&self.reader),
            Listed::Remaining => &self.remaining,
        }
    }

    /// Whether nothing is left to decide at the instant: an event has it, or each waiting train was told why.
    pub fn may_go_on(&self) -> bool
        ensures may { IsTrue result → MayGoOn self.now }
        ensures unsettled { result ≡ false → self.now.state.is_settled ≡ false }
        ensures none_due { result ≡ false → first_time_of self.now.state.queue.events ≢ Some self.now.state.instant }
        ensures sorted { IsTrue (is_sorted self.now.state.queue.events) }
    {
        let first = self.state.queue.first_time();
        self.state.is_settled || first == Some(self.state.instant)
    }

    /// Where some train waits, it is decided once more who goes at this instant.
    pub fn decide_again(&mut self)
        ensures input { self.new.input ≡ self.old.input }
        ensures ended { self.new.state.has_ended ≡ self.old.state.has_ended }
        ensures listed { self.new.listed ≡ self.old.listed }
        ensures at { StandsAsBefore self.old self.new }
    {
        if self.state.trains.is_any_waiting() {
            self.state.is_settled = false;
        }
    }

    /// The line of the next event, or the end line where there is none.
    #[inline(always)]
    pub fn go_on(&mut self) -> Entry
        requires running { IsSomewhere self.old }
        requires going { self.old.state.has_ended ≡ false }
        requires may { MayGoOn self.old }
        requires unlisted { self.old.listed ≡ which.Nothing }
        ensures input { self.new.input ≡ self.old.input }
        ensures kind { IsOther result }
        ensures line { GivesEntry self.old self.new result }
    {
        match self.next_event() {
            Some(entry) => entry,
            None => self.end(),
        }
    }

    /// Looks at the trains that wait: of those that nothing bars the one that was ready first, if there is one.
    #[inline(always)]
    pub fn look(&mut self) -> Option<TrainNo>
        requires running { IsSomewhere self.old }
        ensures alike { AreAlike self.old self.new }
        ensures at { StandsAsBefore self.old self.new }
        ensures none { IsNone result → AreAllKnown self.new.input.plant self.new.state.trains }
        ensures first { IfSome result (IsReadyFirst self.new.state.trains) }
        ensures next { IfSome result (IsNextTrain self.new) }
        ensures unbarred { AreUnbarred self.new }
        ensures fewer { untried self.new.state.trains ≤ untried self.old.state.trains }
    {
        self.state
            .trains
            .look(&self.input.plant, &self.orders, &self.state.holders)
    }

    /// A list that brings every train inside to its exit after the train's next move, which the places then
    /// have made. With none, that is the cause of the train.
    fn find_list(&mut self, train: TrainNo) -> Option<Note>
        requires running { IsSomewhere self.old }
        requires deciding { IsDeciding self.old }
        requires next { IsNextTrain self.old train }
        ensures alike { AreAlike self.old self.new }
        ensures found { IfSome result (λ note. (self.new.state.trains ≡ self.old.state.trains)
            × ((front : Front) → IsAt front self.old → HasList front self.old self.new train note)) }
        ensures none { IsNone result → HasTried self.old self.new train }
    {
        let moves = self.input.plant.moves();
        let depth = self.input.plant.depth();
        // For its clauses alone: the moves are a table within the limits.
        moves.trains();
        match admit_by_list(
            moves,
            &mut self.places,
            &mut self.kept,
            &mut self.searcher,
            &mut self.failures,
            depth,
            train,
        ) {
            Some(note) => Some(note),
            None => {
                self.state.trains.note_no_list(train);
                None
            }
        }
    }

    /// Whether a list is known that brings every train inside to its exit after the train's next move, which is not
    /// made. With none, that is the cause of the train.
    pub fn knows_list(&mut self, train: TrainNo) -> bool
        requires running { IsSomewhere self.old }
        requires deciding { IsDeciding self.old }
        requires next { IsNextTrain self.old train }
        ensures alike { AreAlike self.old self.new }
        ensures at { StandsAsBefore self.old self.new }
        ensures known { IsTrue result → (front : Front) → IsAt front self.old
            → could_go (input_in self.old.input) front train ≡ true }
        ensures none { result ≡ false → HasTried self.old self.new train }
        ensures same { IsTrue result → self.new.state.trains ≡ self.old.state.trains }
        ensures fewer { result ≡ false → untried self.new.state.trains < untried self.old.state.trains }
    {
        let moves = self.input.plant.moves();
        let depth = self.input.plant.depth();
        // For its clauses alone: the moves are a table within the limits.
        moves.trains();
        if is_list_known(
            moves,
            &mut self.places,
            &mut self.kept,
            &mut self.searcher,
            &mut self.failures,
            depth,
            train,
        ) {
            return true;
        }
        self.state.trains.note_no_list(train);
        false
    }

    /// Whether the kept list, repaired for the train's next move, brings every train inside to its exit after it.
    pub fn is_repairable(&mut self, train: TrainNo) -> bool
        requires running { IsSomewhere self.old }
        requires deciding { IsDeciding self.old }
        requires next { IsNextTrain self.old train }
        ensures alike { AreAlike self.old self.new }
        ensures at { StandsAsBefore self.old self.new }
        ensures same { self.new.state.trains ≡ self.old.state.trains }
        ensures exact { (front : Front) → IsAt front self.old → result ≡ is_repairable (input_in self.old.input) front train }
    {
        let moves = self.input.plant.moves();
        // For its clauses alone: the moves are a table within the limits.
        moves.trains();
        self.kept.is_repairable(moves, &self.places, train)
    }

    /// The admission of the train's next move, where a list is known that brings every train inside to its
    /// exit after it. Else that none is known is its cause. The admission continues a run where the policy in
    /// force chooses the train.
    pub fn admit(&mut self, train: TrainNo) -> Option<Entry>
        requires running { IsSomewhere self.old }
        requires going { self.old.state.has_ended ≡ false }
        requires unlisted { self.old.listed ≡ which.Nothing }
        requires deciding { IsDeciding self.old }
        requires next { IsNextTrain self.old train }
        ensures input { self.new.input ≡ self.old.input }
        ensures line { IfSome result (GivesEntry self.old self.new) }
        ensures entry { IfSome result (IsAdmissionOf train (state_of self.old.state.trains train).place) }
        ensures run { IfSome result (ContinuesRun self.old self.new train) }
        ensures none { IsNone result → AreAlike self.old self.new × HasTried self.old self.new train }
    {
        let note = self.find_list(train)?;
        let place = self.state.trains.get(train).place + 1;
        self.state.admit(&self.input.plant, train);
        self.listed = list_with(note);
        Some(Entry {
            at: self.state.instant,
            what: What::Admit { train, place, note },
        })
    }

    /// The hold line of the first train that was not told why it waits. With none, all is settled.
    #[inline(always)]
    pub fn hold(&mut self) -> Option<Entry>
        requires running { IsSomewhere self.old }
        requires going { self.old.state.has_ended ≡ false }
        requires deciding { IsDeciding self.old }
        requires known { AreAllKnown self.old.input.plant self.old.state.trains }
        requires unsettled { self.old.state.is_settled ≡ false }
        requires unlisted { self.old.listed ≡ which.Nothing }
        ensures input { self.new.input ≡ self.old.input }
        ensures line { IfSome result (GivesEntry self.old self.new) }
        ensures kind { IfSome result (λ entry. (is_hold entry.what ≡ true) × (self.new.listed ≡ which.Nothing)) }
        ensures none { IsNone result → IsSettled self.old self.new }
    {
        match self.state.trains.first_lacking() {
            Some(train) => Some(self.hold_train(train)),
            None => {
                self.state.is_settled = true;
                None
            }
        }
    }

    /// The hold line of this train, the first that was not told why it waits.
    #[inline(always)]
    pub(crate) fn hold_train(&mut self, train: TrainNo) -> Entry
        requires running { IsSomewhere self.old }
        requires going { self.old.state.has_ended ≡ false }
        requires deciding { IsDeciding self.old }
        requires known { AreAllKnown self.old.input.plant self.old.state.trains }
        requires unsettled { self.old.state.is_settled ≡ false }
        requires unlisted { self.old.listed ≡ which.Nothing }
        requires train { train < length self.old.state.trains }
        requires lacks { lacks_hold_line (state_of self.old.state.trains train) ≡ true }
        requires first { (u : ℕ) → u < train → lacks_hold_line (state_of self.old.state.trains u) ≡ false }
        ensures input { self.new.input ≡ self.old.input }
        ensures kind { (is_hold result.what ≡ true) × (self.new.listed ≡ which.Nothing) }
        ensures line { GivesEntry self.old self.new result }
    {
        let what = self.state.hold(&self.input.plant, train);
        Entry {
            at: self.state.instant,
            what,
        }
    }

    /// The line of the next event, where there is one.
    #[inline(always)]
    fn next_event(&mut self) -> Option<Entry>
        requires running { IsSomewhere self.old }
        requires going { self.old.state.has_ended ≡ false }
        requires may { MayGoOn self.old }
        requires unlisted { self.old.listed ≡ which.Nothing }
        ensures input { self.new.input ≡ self.old.input }
        ensures none { IsNone result → (self.new ≡ self.old) × (self.old.state.queue.events ≡ []) }
        ensures kind { IfSome result IsOther }
        ensures line { IfSome result (GivesEntry self.old self.new) }
    {
        let event = self.state.queue.pop()?;
        let at = event.at;
        if is_command(&event) {
            let what = self.tell(at, event.number);
            return Some(Entry { at, what });
        }
        let what = self.state.happen(&self.input.plant, event);
        Some(Entry { at, what })
    }

    /// The line of the command of this number, which counts from 1, at this time: it is told where its order takes
    /// effect.
    fn tell(&mut self, at: Time, number: u16) -> What
        requires first { 1 ≤ number }
        requires listed { number ≤ length self.old.input.commands.items }
        requires known { length self.old.state.trains ≡ trains self.old.input.plant }
        requires moves { (t : ℕ) → t < trains self.old.input.plant → (state_of self.old.state.trains t).waits ≡ true
            → (state_of self.old.state.trains t).place < moves self.old.input.plant t }
        requires waits { (t : ℕ) → (state_of self.old.state.trains t).waits ≡ false → (state_of self.old.state.trains t).known ≡ None }
        ensures untold { (command : Command) → slice_get self.old.input.commands.items (number - 1) ≡ Some command
            → is_effective self.old command.what ≡ false → HasPassed self.old self.new at number result }
        ensures told { (command : Command) → slice_get self.old.input.commands.items (number - 1) ≡ Some command
            → is_effective self.old command.what ≡ true → HasToldCommand self.old self.new at number command.what result }
    {
        let order = self.input.commands[usize::from(number) - 1].what;
        if !self.is_effective(&order) {
            self.state.instant = at;
            return What::Untold { command: number };
        }
        self.orders.tell(&order);
        self.state.tell(&self.input.plant, at, &order);
        What::Told { command: number }
    }

    /// What the line of the event says, which is the first that is pending.
    pub(crate) fn says(&self, event: &Event) -> What
        requires running { IsSomewhere self.now }
        requires going { self.now.state.has_ended ≡ false }
        requires may { MayGoOn self.now }
        requires first { self.now.state.queue.events ≡ event.now ∷ drop 1 self.now.state.queue.events }
        requires least { list_any (λ other. goes_before other event.now) self.now.state.queue.events ≡ false }
        ensures next { IsNextLine self.now (bare_at event.now.at result) }
    {
        if is_command(event) {
            return self.says_of(event.number);
        }
        self.state.says(&self.input.plant, event)
    }

    /// What the line of the command of this number says, which counts from 1.
    fn says_of(&self, number: u16) -> What
        requires first { 1 ≤ number }
        requires listed { number ≤ length self.now.input.commands.items }
        ensures { (command : Command) → slice_get self.now.input.commands.items (number - 1) ≡ Some command
            → result ≡ cond (is_effective self.now command.what) (Told number) (Untold number) }
    {
        let order = self.input.commands[usize::from(number) - 1].what;
        if self.is_effective(&order) {
            What::Told { command: number }
        } else {
            What::Untold { command: number }
        }
    }

    /// Whether the order takes effect now.
    fn is_effective(&self, order: &Order) -> bool
        ensures { result ≡ is_effective self.now order.now }
    {
        let has_moved = match order {
            Order::Cancel(train) => self.state.trains.has_moved(*train),
            _ => false,
        };
        self.orders.takes_effect(order, has_moved)
    }

    /// The end line.
    fn end(&mut self) -> Entry
        requires running { IsSomewhere self.old }
        requires going { self.old.state.has_ended ≡ false }
        requires settled { self.old.state.is_settled ≡ true }
        requires empty { self.old.state.queue.events ≡ [] }
        ensures input { self.new.input ≡ self.old.input }
        ensures kind { IsOther result }
        ensures line { GivesEntry self.old self.new result }
    {
        self.state
            .trains
            .list_remaining(&self.orders, &mut self.remaining);
        self.state.has_ended = true;
        self.listed = Listed::Remaining;
        Entry {
            at: self.state.instant,
            what: What::End,
        }
    }
}

/// Whether the event is that of a command.
fn is_command(event: &Event) -> bool
    ensures { IsTrue result ↔ (event.now.class ≡ class.Command) }
{
    matches!(event.class, Class::Command)
}

/// The list that belongs to the line of an admission with this note.
pub(crate) fn list_with(note: Note) -> Listed
    ensures { result ≡ list_with note }
{
    match note {
        Note::Fresh => Listed::Kept,
        Note::Pulled | Note::Appended => Listed::Nothing,
    }
}

/// What a ledger keeps of lists, made in a function of its own: where memory is not found nothing but lists
/// has to be given back there.
#[derive(Drop)]
struct Lists {
    places: Places,
    kept: KeptList,
    reader: Reader,
    searcher: Searcher,
    failures: Failures,
    remaining: Vec<TrainNo>,
}

/// The lists before the first line, with room for all moves and all trains.
fn lists_of(alloc: Global, moves: &Moves) -> Result<Lists, OutOfMemory>
    ensures made { IfOk result (λ lists. IsMadeFor moves.now lists.places) }
    ensures positions { IfOk result (λ lists. lists.places.positions ≡ replicate {A = ℕ} (length moves.now) 0) }
    ensures searcher { IfOk result (λ lists. IsSearcherFor (moves_in moves.now) lists.searcher) }
    ensures failures { IfOk result (λ lists. (t : ℕ) → is_kept lists.failures t ≡ false) }
    ensures kept { IfOk result (λ lists. lists.kept.trains ≡ []) }
    ensures room { IfOk result (λ lists. HasRoomFor moves.now lists.kept) }
    ensures remaining { IfOk result (λ lists. lists.remaining.items ≡ []) }
    ensures capacity { IfOk result (λ lists. vec_capacity lists.remaining ≡ TRAINS) }
{
    let (kept, reader) = KeptList::new(alloc, moves)?;
    let remaining = Vec::with_capacity(alloc, TRAINS)?;
    let places = Places::outside(alloc, moves)?;
    let searcher = Searcher::new(alloc, moves)?;
    let failures = Failures::new(alloc)?;
    Ok(Lists {
        places,
        kept,
        reader,
        searcher,
        failures,
        remaining,
    })
}
