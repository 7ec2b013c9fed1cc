//! All trains of a run.

ghost use Rattle.std.specs.Prelude.{◌≡◌, ℕ, ◌-◌, ◌<◌, ◌≤◌, ◌||◌, not, nat_lt, [], ◌∷◌, None, get_or, length, set, true, false, IfOk, IsTrue, MatchOption, vec_capacity};
ghost use Rattle.std.specs.List.{filter};
ghost use Rattle.rail_base.specs.declared.history.Cause.TheVariants.{NoList};
ghost use Rattle.rail_base.specs.declared.history.What.TheVariants.{Free, Enter, Out, Ready};
ghost use Rattle.rail_rules.specs.Plant.{Plant, moves, step_section, steps, trains};
ghost use Rattle.rail_rules.specs.Numbers.{listed};
ghost use Rattle.rail_state.specs.TrainStates.{state_told};
ghost use Rattle.rail_state.specs.TrainStates.{AreAtFirst, IsAnyWaiting, IsNextOf, IsReadyFirst, bar_by, is_blocked_at, lacks_hold_line, is_untried, looked_at, outside, state_admitted, state_after, state_of, after_hold_line};
ghost use Rattle.rail_state.specs.TrainSearches.{is_waiting};

use crate::blocked_at::BlockedAt;
use crate::train::{TrainState, head_behind, push_outside, section_at};
use crate::train_sets::TrainSets;
use crate::train_walks::{look_again_at_each, look_at_each, note_taking_each, tell_each};
use rail_base::{Cause, Order, OutOfMemory, SectionNo, Time, TrainNo};
use rail_block::MoveTimes;
use rail_holders::Holders;
use rail_orders::ToldOrders;
use rail_plan::Plant;
use std::alloc::Global;
use std::marker::Model;

/// What a run keeps of each train, by train number. Contracts see it as the list of its entries.
#[derive(Debug)]
pub struct TrainStates {
    rows: Vec<TrainState>,
    /// The trains by what is kept of them: nobody is sought among all.
    sets: TrainSets,
    /// For each section the trains that are blocked at it.
    blocked: BlockedAt,
}

impl Drop for TrainStates {
    fn drop(self) {
        let TrainStates {
            rows: _rows,
            sets: _,
            blocked: _blocked,
        } = self;
    }
}

impl Model for TrainStates {
    ghost use Rattle.std.specs.Prelude.{List, vec_capacity};
    ghost use Rattle.rail_state.specs.declared.train.TrainState.{TrainState};
    ghost use Rattle.rail_state.specs.TrainSearches.{AreKept};

    ghost Value = { List TrainState };

    ghost view = { λ states. states.rows.items };

    ghost invariant = { λ states. AreKept states.rows.items states.sets states.blocked (vec_capacity states.rows) };
}

impl TrainStates {
    /// The trains of the plant before their entries.
    pub fn new(alloc: Global, plant: &Plant) -> Result<TrainStates, OutOfMemory>
        ensures { IfOk result (λ states. states ≡ listed (outside plant.now) (trains plant.now)) }
    {
        let trains = plant.moves().trains();
        let mut rows = Vec::with_capacity(alloc, usize::from(trains))?;
        for number in 0..trains {
            push_outside(&mut rows, plant, TrainNo(number));
        }
        Ok(TrainStates {
            rows,
            sets: TrainSets::none(),
            blocked: BlockedAt::new(alloc)?,
        })
    }

    /// The first train from this number on that waits, where there is one.
    pub fn next_waiting(&self, number: u16) -> Option<TrainNo>
        ensures { IsNextOf is_waiting self.now number result }
    {
        self.sets.waiting.first_from(number)
    }

    /// The first train from this number on that waits without a known cause, where there is one.
    pub fn next_untried(&self, number: u16) -> Option<TrainNo>
        ensures { IsNextOf is_untried self.now number result }
    {
        self.sets.untried.first_from(number)
    }

    /// Whether some train waits.
    pub fn is_any_waiting(&self) -> bool
        ensures { IsTrue result → IsAnyWaiting self.now }
    {
        self.next_waiting(0).is_some()
    }

    /// What is kept of the train.
    pub fn get(&self, train: TrainNo) -> &TrainState
        requires { train < length self.now }
        ensures { result.now ≡ state_of self.now train }
    {
        &self.rows[usize::from(train.0)]
    }

    /// Whether some move of the train is admitted.
    pub fn has_moved(&self, train: TrainNo) -> bool
        ensures { result ≡ nat_lt 0 (state_of self.now train).place }
    {
        match self.rows.get(usize::from(train.0)) {
            Some(train_state) => train_state.place > 0,
            None => false,
        }
    }

    /// The section that the train's head enters next.
    pub fn next_section(&self, plant: &Plant, train: TrainNo) -> SectionNo
        requires train { train < length self.now }
        requires known { train < trains plant.now }
        requires first { 1 ≤ (state_of self.now train).head.place }
        requires last { (state_of self.now train).head.place ≤ moves plant.now train }
        requires first_step { 1 ≤ (state_of self.now train).head.step }
        requires last_step { (state_of self.now train).head.step ≤ steps plant.now train ((state_of self.now train).head.place - 1) }
        ensures { result ≡ step_section plant.now train ((state_of self.now train).head.place - 1)
            ((state_of self.now train).head.step - 1) }
    {
        let head = self.get(train).head;
        section_at(plant, train, head)
    }

    /// The section that the train's head enters next, after which the next one is that behind it.
    #[inline(always)]
    pub fn enter(&mut self, plant: &Plant, train: TrainNo) -> SectionNo
        requires train { train < length self.old }
        requires known { train < trains plant.now }
        requires first { 1 ≤ (state_of self.old train).head.place }
        requires last { (state_of self.old train).head.place ≤ moves plant.now train }
        requires first_step { 1 ≤ (state_of self.old train).head.step }
        requires last_step { (state_of self.old train).head.step ≤ steps plant.now train ((state_of self.old train).head.place - 1) }
        ensures section { result ≡ step_section plant.now train ((state_of self.old train).head.place - 1)
            ((state_of self.old train).head.step - 1) }
        ensures length { length self.new ≡ length self.old }
        ensures trains { (m x t : ℕ) → state_of self.new t ≡ state_after plant.now (Enter train m x) t (state_of self.old t) }
    {
        let train_state = &mut self.rows[usize::from(train.0)];
        let head = train_state.head;
        train_state.head = head_behind(plant, train, head);
        section_at(plant, train, head)
    }

    /// The train's out line was given.
    pub fn leave(&mut self, train: TrainNo)
        requires { train < length self.old }
        ensures length { length self.new ≡ length self.old }
        ensures trains { (plant : Plant) (t : ℕ) → state_of self.new t ≡ state_after plant (Out train) t (state_of self.old t) }
    {
        let train_state = &mut self.rows[usize::from(train.0)];
        train_state.is_out = true;
    }

    /// The ready line of the train's next move was given.
    pub fn make_ready(&mut self, train: TrainNo)
        requires { train < length self.old }
        ensures length { length self.new ≡ length self.old }
        ensures trains { (plant : Plant) (m t : ℕ) → state_of self.new t ≡ state_after plant (Ready train m) t (state_of self.old t) }
    {
        let train_state = &mut self.rows[usize::from(train.0)];
        train_state.waits = true;
        self.sets.note(train, train_state);
    }

    /// A section is free: the causes of the trains that were blocked at it are no longer known. Whether there were any.
    #[inline(always)]
    pub fn look_again_at(&mut self, section: SectionNo) -> bool
        ensures length { length self.new ≡ length self.old }
        ensures trains { (plant : Plant) (u t : ℕ) → state_of self.new t
            ≡ state_after plant (Free section u) t (state_of self.old t) }
        ensures any { result ≡ false → (t : ℕ) → is_blocked_at section (state_of self.old t).known ≡ false }
        ensures some { result ≡ true → (t : ℕ) × (is_blocked_at section (state_of self.old t).known ≡ true) }
    {
        let blocked = self.blocked.take(section);
        look_again_at_each(&mut self.rows, blocked, section, &mut self.sets)
    }

    /// Looks at the trains that wait without a known cause: what bars the next move is the cause. Of the
    /// others, the train that was ready first, and of several that with the least number.
    #[inline(always)]
    pub fn look(&mut self, plant: &Plant, orders: &ToldOrders, holders: &Holders) -> Option<TrainNo>
        requires known { length self.old ≡ trains plant.now }
        requires sections { length holders.now ≡ length plant.now.tables.sections }
        requires moves { (t : ℕ) → t < trains plant.now → (state_of self.old t).waits ≡ true
            → (state_of self.old t).place < moves plant.now t }
        ensures length { length self.new ≡ length self.old }
        ensures trains { (t : ℕ) → t < length self.old → state_of self.new t
            ≡ looked_at plant.now (bar_by orders.now holders.now) t (state_of self.old t) }
        ensures first { MatchOption result ((t : ℕ) → is_untried (state_of self.new t) ≡ false)
            (λ train. (train < length self.new) × IsReadyFirst self.new train) }
    {
        // Half of the looks after an admission find nobody.
        self.next_untried(0)?;
        look_at_each(
            &mut self.rows,
            plant,
            orders,
            holders,
            &mut self.sets,
            &mut self.blocked,
        )
    }

    /// The order was told: the causes that it may change are no longer known, and a train that it cancels does
    /// not wait.
    pub fn tell(&mut self, plant: &Plant, order: &Order)
        requires known { length self.old ≡ trains plant.now }
        requires moves { (t : ℕ) → t < trains plant.now → (state_of self.old t).waits ≡ true
            → (state_of self.old t).place < moves plant.now t }
        requires waits { (t : ℕ) → (state_of self.old t).waits ≡ false → (state_of self.old t).known ≡ None }
        ensures length { length self.new ≡ length self.old }
        ensures trains { (t : ℕ) → t < length self.old → state_of self.new t
            ≡ state_told plant.now (order.now ∷ []) t (state_of self.old t) }
    {
        tell_each(&mut self.rows, plant, order, &mut self.sets);
    }

    /// No list is known for the train.
    pub fn note_no_list(&mut self, train: TrainNo)
        requires { train < length self.old }
        ensures { self.new ≡ set self.old train (record (state_of self.old train) { known = Some NoList }) }
    {
        let train_state = &mut self.rows[usize::from(train.0)];
        train_state.known = Some(Cause::NoList);
        self.sets.note(train, train_state);
    }

    /// The first train that has a known cause which its last hold line doesn't name.
    pub fn first_lacking(&self) -> Option<TrainNo>
        ensures { MatchOption result ((t : ℕ) → lacks_hold_line (state_of self.now t) ≡ false)
            (λ train. (train < length self.now) × (lacks_hold_line (state_of self.now train) ≡ true)
            × ((u : ℕ) → u < train → lacks_hold_line (state_of self.now u) ≡ false)) }
    {
        self.sets.lacking.first_from(0)
    }

    /// The hold line of the train's next move was given, with its known cause. No arrival is deferred then: the one that was is the answer.
    pub fn hold(&mut self, train: TrainNo) -> Option<Time>
        requires { train < length self.old }
        ensures trains { self.new ≡ set self.old train (after_hold_line (state_of self.old train)) }
        ensures arrival { result ≡ (state_of self.old train).deferred }
    {
        let train_state = &mut self.rows[usize::from(train.0)];
        let arrival = train_state.hold();
        self.sets.note_hold(train);
        arrival
    }

    /// The train's next move is admitted, with these times, which leaves these holders; `arrival` is deferred. The
    /// causes of the others stay known where they are the same.
    pub fn admit(
        &mut self,
        plant: &Plant,
        holders: &Holders,
        train: TrainNo,
        times: MoveTimes,
        arrival: Option<Time>,
    )
        requires train { train < length self.old }
        requires known { length self.old ≡ trains plant.now }
        requires sections { length holders.now ≡ length plant.now.tables.sections }
        requires moves { (t : ℕ) → t < trains plant.now → (state_of self.old t).waits ≡ true
            → (state_of self.old t).place < moves plant.now t }
        requires waits { (t : ℕ) → (state_of self.old t).waits ≡ false → (state_of self.old t).known ≡ None }
        requires at_first_section { AreAtFirst plant.now self.old }
        requires place { (state_of self.old train).place < 65535 }
        ensures length { length self.new ≡ length self.old }
        ensures trains { (t : ℕ) → t < length self.old → state_of self.new t
            ≡ state_admitted plant.now holders.now train times arrival t (state_of self.old t) }
    {
        note_taking_each(&mut self.rows, plant, holders, &mut self.sets);
        let train_state = &mut self.rows[usize::from(train.0)];
        train_state.admit(times, arrival);
        self.sets.note(train, train_state);
    }

    /// Puts the trains that are neither out nor cancelled into the list, by number.
    pub fn list_remaining(&self, orders: &ToldOrders, into: &mut Vec<TrainNo>)
        requires empty { into.old.items ≡ [] }
        requires room { length self.now ≤ vec_capacity into.old }
        ensures trains { into.new.items ≡ filter (λ t. not ((state_of self.now t).is_out || get_or orders.now.cancelled t false))
            (listed (λ t. t) (length self.now)) }
        ensures room { vec_capacity into.new ≡ vec_capacity into.old }
    {
        for (number, train_state) in self.rows.iter().enumerate() {
            let train = TrainNo(number as u16);
            if train_state.is_left(orders, train) {
                into.push_reserved(train);
            }
        }
    }
}
