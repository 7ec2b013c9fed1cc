//! The state of a run as one.

ghost use Rattle.std.specs.Prelude.{◌≡◌, ℕ, suc, ◌+◌, ◌<◌, ◌≤◌, ◌^◌, [], ◌∷◌, Bool, Option, Some, None, true, false, length, count_by, replicate, IfOk, IsSome};
ghost use Rattle.rail_base.specs.declared.history.Cause.{Cause};
ghost use Rattle.rail_base.specs.declared.history.What.TheVariants.{Hold};
ghost use Rattle.rail_block.specs.declared.times.MoveTimes.{MoveTimes};
ghost use Rattle.rail_laws_step.specs.HolderTables.{held_cause, own_overlap};
ghost use Rattle.rail_laws_step.specs.MostDue.{most_due};
ghost use Rattle.rail_queue.specs.declared.event.Class.TheVariants.{Ready};
ghost use Rattle.rail_queue.specs.declared.event.Event.{Event};
ghost use Rattle.rail_rules.specs.Fronts.{Front};
ghost use Rattle.rail_rules.specs.Numbers.{gather, listed};
ghost use Rattle.rail_rules.specs.Plant.{claimed, moves, trains};
ghost use Rattle.rail_state.specs.Admissions.{IsGivable};
ghost use Rattle.rail_state.specs.Events.{AreFreedOnce, command_events, deferred_of, train_event};
ghost use Rattle.rail_state.specs.Representation.{IsAdmitLine, IsHoldLine, IsReadyFor, StaysSettled, holders_after, taken_over, what_of};
ghost use Rattle.rail_state.specs.SeenCauses.{cancelled_by, is_uncancelled};
ghost use Rattle.rail_state.specs.TrainStates.{AreAtFirst, outside, lacks_hold_line, state_after, state_of, state_told};
ghost use Rattle.std.specs.List.{filter};
ghost use Rattle.rail_base.specs.declared.limits.TheConstants.{COMMANDS, OVERLAP_SECTIONS};
ghost use Rattle.rail_state.specs.declared.pushes.TheConstants.{MOVE_EVENTS};

use crate::admission::{push_move, take_sections};
use crate::events::{event_of_command, event_of_train};
use crate::pushes::{MOVE_EVENTS, push_entry, push_overlap};
use crate::trains::TrainStates;
use rail_base::{Cause, Command, Order, OutOfMemory, SectionNo, Time, TrainNo, What};
use rail_block::{KnownMove, times_of};
use rail_holders::Holders;
use rail_plan::Plant;
use rail_queue::{Class, Event, EventQueue};
use std::alloc::Global;

/// What is kept of a run beside its plant, its places and its lists.
pub struct RunState {
    /// The events that are pending.
    pub queue: EventQueue,
    /// What is kept of each train.
    pub trains: TrainStates,
    /// Who holds each section.
    pub holders: Holders,
    /// The time of the last line, in tenths of a second; 0 before the first.
    pub instant: Time,
    /// Each waiting train was told why it waits.
    pub is_settled: bool,
    /// The end line was given.
    pub has_ended: bool,
}

impl Drop for RunState {
    fn drop(self) {
        let RunState {
            queue: _queue,
            trains: _trains,
            holders: _holders,
            instant: _instant,
            is_settled: _is_settled,
            has_ended: _has_ended,
        } = self;
    }
}

impl RunState {
    /// The state before the first line, with the events of the commands. All memory that it needs is taken here.
    pub fn new(alloc: Global, plant: &Plant, commands: &[Command]) -> Result<RunState, OutOfMemory>
        requires few { length commands.now ≤ COMMANDS }
        ensures events { IfOk result (λ state. (q : Event → Bool) → count_by q state.queue.events
            ≡ count_by q (gather (λ t. train_event (state_of state.trains t).times.next_ready Ready t 1 ∷ []) (trains plant.now))
            + count_by q (command_events 0 commands.now)) }
        ensures room { IfOk result (λ state. length state.queue.events + state.queue.spare
            ≡ most_due plant.now (length commands.now) + MOVE_EVENTS) }
        ensures trains { IfOk result (λ state. state.trains ≡ listed (outside plant.now) (trains plant.now)) }
        ensures holders { IfOk result (λ state. state.holders ≡ replicate (length plant.now.tables.sections) None) }
        ensures instant { IfOk result (λ state. state.instant ≡ 0) }
        ensures settled { IfOk result (λ state. state.is_settled ≡ true) }
        ensures going { IfOk result (λ state. state.has_ended ≡ false) }
    {
        let holders = free_sections(alloc, plant)?;
        let trains = TrainStates::new(alloc, plant)?;
        let queue = first_events(alloc, plant, commands, &trains)?;
        Ok(RunState {
            queue,
            trains,
            holders,
            instant: Time(0),
            is_settled: true,
            has_ended: false,
        })
    }

    /// What the line of the event says.
    pub fn says(&self, plant: &Plant, event: &Event) -> What
        requires ready { IsReadyFor plant.now self.now event.now }
        requires many { length self.now.trains ≡ trains plant.now }
        ensures { result ≡ what_of plant.now self.now.trains event.now }
    {
        let train = event.train;
        let place = event.place;
        match event.class {
            Class::Free => What::Free {
                section: SectionNo(event.number),
                train,
            },
            Class::Arrive => What::Arrive { train, place },
            Class::Enter => What::Enter {
                train,
                place,
                section: self.trains.next_section(plant, train),
            },
            Class::Out => What::Out { train },
            Class::Ready => What::Ready { train, place },
            Class::Command => What::Told {
                command: event.number,
            },
        }
    }

    /// What the hold line of the train's next move says, with its known cause.
    pub fn hold_line(&self, train: TrainNo) -> What
        requires train { train < length self.now.trains }
        requires lacks { lacks_hold_line (state_of self.now.trains train) ≡ true }
        requires place { (state_of self.now.trains train).place < 65535 }
        ensures { (why : Cause) → (state_of self.now.trains train).known ≡ Some why
            → result ≡ Hold train ((state_of self.now.trains train).place + 1) why }
    {
        let train_state = self.trains.get(train);
        hold_with(train, train_state.place + 1, train_state.known)
    }

    /// The event happens: the instant is its time, the section that it frees has no holder, and what is kept
    /// of the trains is as its line leaves it. What the line says.
    #[inline(always)]
    pub fn happen(&mut self, plant: &Plant, event: Event) -> What
        requires ready { IsReadyFor plant.now self.old event }
        requires many { length self.old.trains ≡ trains plant.now }
        ensures what { result ≡ what_of plant.now self.old.trains event }
        ensures queue { self.new.queue ≡ self.old.queue }
        ensures instant { self.new.instant ≡ event.at }
        ensures going { self.new.has_ended ≡ self.old.has_ended }
        ensures holders { self.new.holders ≡ holders_after (what_of plant.now self.old.trains event) self.old.holders }
        ensures many { length self.new.trains ≡ length self.old.trains }
        ensures trains { (t : ℕ) → state_of self.new.trains t
            ≡ state_after plant.now (what_of plant.now self.old.trains event) t (state_of self.old.trains t) }
        ensures settled { self.new.is_settled ≡ true → (self.old.is_settled ≡ true)
            × StaysSettled plant.now self.old.trains (what_of plant.now self.old.trains event) }
    {
        let train = event.train;
        let place = event.place;
        self.instant = event.at;
        match event.class {
            Class::Free => {
                let section = SectionNo(event.number);
                self.holders.free(section);
                let was_cause = self.trains.look_again_at(section);
                self.is_settled = self.is_settled && !was_cause;
                What::Free { section, train }
            }
            Class::Arrive => What::Arrive { train, place },
            Class::Enter => {
                let section = self.trains.enter(plant, train);
                What::Enter {
                    train,
                    place,
                    section,
                }
            }
            Class::Out => {
                self.trains.leave(train);
                What::Out { train }
            }
            Class::Ready => {
                self.trains.make_ready(train);
                self.is_settled = false;
                What::Ready { train, place }
            }
            Class::Command => What::Told {
                command: event.number,
            },
        }
    }

    /// The order is told at this time, which is the instant then: the causes that it may change are no longer
    /// known, and a train that it cancels neither waits nor will be ready.
    pub fn tell(&mut self, plant: &Plant, at: Time, order: &Order)
        requires known { length self.old.trains ≡ trains plant.now }
        requires moves { (t : ℕ) → t < trains plant.now → (state_of self.old.trains t).waits ≡ true
            → (state_of self.old.trains t).place < moves plant.now t }
        requires waits { (t : ℕ) → (state_of self.old.trains t).waits ≡ false → (state_of self.old.trains t).known ≡ None }
        ensures events { self.new.queue.events ≡ filter (is_uncancelled (order.now ∷ [])) self.old.queue.events }
        ensures room { length self.new.queue.events + self.new.queue.spare ≡ length self.old.queue.events + self.old.queue.spare }
        ensures instant { self.new.instant ≡ at }
        ensures going { self.new.has_ended ≡ self.old.has_ended }
        ensures holders { self.new.holders ≡ self.old.holders }
        ensures settled { self.new.is_settled ≡ false }
        ensures many { length self.new.trains ≡ length self.old.trains }
        ensures trains { (t : ℕ) → t < length self.old.trains → state_of self.new.trains t
            ≡ state_told plant.now (order.now ∷ []) t (state_of self.old.trains t) }
    {
        self.instant = at;
        self.is_settled = false;
        self.trains.tell(plant, order);
        forget_cancelled(&mut self.queue, order);
    }

    /// The train's next move is admitted at the instant: its events are pending, its needed sections are taken by
    /// the train, and its times are carried.
    pub fn admit(&mut self, plant: &Plant, train: TrainNo)
        requires givable { (front : Front) × IsGivable plant.now front self.old.trains self.old.instant train }
        requires room { MOVE_EVENTS ≤ self.old.queue.spare }
        requires sections { length self.old.holders ≡ length plant.now.tables.sections }
        requires single { AreFreedOnce (taken_over plant.now self.old.holders train (state_of self.old.trains train).place) self.old.queue.events }
        requires free { held_cause self.old.holders train (own_overlap plant.now train (state_of self.old.trains train).place)
            (claimed plant.now train (state_of self.old.trains train).place) ≡ None }
        requires moves { (t : ℕ) → t < trains plant.now → (state_of self.old.trains t).waits ≡ true
            → (state_of self.old.trains t).place < moves plant.now t }
        requires waits { (t : ℕ) → (state_of self.old.trains t).waits ≡ false → (state_of self.old.trains t).known ≡ None }
        requires at_first_section { AreAtFirst plant.now self.old.trains }
        ensures given { (front : Front) → IsGivable plant.now front self.old.trains self.old.instant train
            → (times : MoveTimes) × (arrival : Option ℕ) × IsAdmitLine plant.now front train times arrival self.old self.new }
        ensures room { length self.new.queue.events + self.new.queue.spare ≡ length self.old.queue.events + self.old.queue.spare }
    {
        let before = *self.trains.get(train);
        let place = before.place + 1;
        let times = times_of(plant, train, place, self.instant, &before.times);
        let known = KnownMove::new(plant, train, place);
        let arrival = push_move(
            &known,
            &mut self.queue,
            &times,
            &before.times,
            &self.holders,
        );
        take_sections(&known, &mut self.holders);
        self.trains
            .admit(plant, &self.holders, train, times, arrival);
        self.is_settled = false;
    }

    /// The hold line of the train's next move is given, with its known cause: an arrival that was deferred is
    /// pending, and so are the ends of the overlap there. What the line says.
    #[inline(always)]
    pub fn hold(&mut self, plant: &Plant, train: TrainNo) -> What
        requires train { train < length self.old.trains }
        requires known { train < trains plant.now }
        requires within { (state_of self.old.trains train).place ≤ moves plant.now train }
        requires time { (at : ℕ) → (state_of self.old.trains train).deferred ≡ Some at → at < 2 ^ 53 }
        requires lacks { lacks_hold_line (state_of self.old.trains train) ≡ true }
        requires place { (state_of self.old.trains train).place < 65535 }
        requires room { OVERLAP_SECTIONS + 1 ≤ self.old.queue.spare }
        requires unsettled { self.old.is_settled ≡ false }
        ensures what { (why : Cause) → (state_of self.old.trains train).known ≡ Some why
            → result ≡ Hold train ((state_of self.old.trains train).place + 1) why }
        ensures line { IsHoldLine plant.now train self.old self.new }
        ensures room { length self.new.queue.events + self.new.queue.spare ≡ length self.old.queue.events + self.old.queue.spare }
    {
        let train_state = *self.trains.get(train);
        let arrival = self.trains.hold(train);
        push_deferred(plant, &mut self.queue, train, train_state.place, arrival);
        hold_with(train, train_state.place + 1, train_state.known)
    }
}

/// What a hold line of this move says, where its cause is known.
fn hold_with(train: TrainNo, place: u16, known: Option<Cause>) -> What
    requires { IsSome known }
    ensures { (why : Cause) → known ≡ Some why → result ≡ Hold train place why }
{
    match known {
        Some(cause) => What::Hold {
            train,
            place,
            cause,
        },
        None => unreachable!(),
    }
}

/// Takes out what would make a train ready that the order cancels.
fn forget_cancelled(queue: &mut EventQueue, order: &Order)
    ensures events { queue.new.events ≡ filter (is_uncancelled (order.now ∷ [])) queue.old.events }
    ensures room { length queue.new.events + queue.new.spare ≡ length queue.old.events + queue.old.spare }
{
    if let Some(train) = cancelled_by(order) {
        queue.forget(Class::Ready, train.0);
    }
}

/// The train that the order cancels, where it is a cancel.
fn cancelled_by(order: &Order) -> Option<TrainNo>
    ensures { result ≡ cancelled_by order.now }
{
    match order {
        Order::Cancel(train) => Some(*train),
        _ => None,
    }
}

/// Pushes the arrival of the train at the end of the move to this place and the ends of the overlap there, where an
/// arrival was deferred.
fn push_deferred(
    plant: &Plant,
    queue: &mut EventQueue,
    train: TrainNo,
    place: u16,
    arrival: Option<Time>,
)
    requires train { train < trains plant.now }
    requires last { place ≤ moves plant.now train }
    requires time { (at : ℕ) → arrival ≡ Some at → at < 2 ^ 53 }
    requires room { OVERLAP_SECTIONS + 1 ≤ queue.old.spare }
    ensures counted { (q : Event → Bool) → count_by q queue.new.events
        ≡ count_by q queue.old.events + count_by q (deferred_of plant.now train place arrival) }
    ensures room { length queue.new.events + queue.new.spare ≡ length queue.old.events + queue.old.spare }
{
    if let Some(at) = arrival {
        queue.push(event_of_train(at, Class::Arrive, train, place));
        push_overlap(plant, queue, train, place, at);
    }
}

/// The sections of the plant, which nobody holds.
fn free_sections(alloc: Global, plant: &Plant) -> Result<Holders, OutOfMemory>
    ensures { IfOk result (λ holders. holders ≡ replicate (length plant.now.tables.sections) None) }
{
    Holders::new(alloc, plant.names().sections.len() as u16)
}

/// The queue of the first events: each train's first move is ready, and each command is told.
fn first_events(
    alloc: Global,
    plant: &Plant,
    commands: &[Command],
    states: &TrainStates,
) -> Result<EventQueue, OutOfMemory>
    requires few { length commands.now ≤ COMMANDS }
    requires states { states.now ≡ listed (outside plant.now) (trains plant.now) }
    ensures counted { IfOk result (λ queue. (q : Event → Bool) → count_by q queue.events
        ≡ count_by q (gather (λ t. train_event (state_of states.now t).times.next_ready Ready t 1 ∷ []) (trains plant.now))
        + count_by q (command_events 0 commands.now)) }
    ensures room { IfOk result (λ queue. length queue.events + queue.spare ≡ most_due plant.now (length commands.now) + MOVE_EVENTS) }
{
    let trains = plant.moves().trains();
    let mut queue = EventQueue::with_room(alloc, queue_room(plant, commands.len()))?;
    for number in 0..trains {
        let train = TrainNo(number);
        push_entry(&mut queue, train, &states.get(train).times);
    }
    push_commands(&mut queue, commands);
    Ok(queue)
}

/// How many events the queue has room for: all that are due at once, and those that one admission brings.
fn queue_room(plant: &Plant, commands: usize) -> usize
    requires few { commands ≤ COMMANDS }
    ensures { result ≡ most_due plant.now commands + MOVE_EVENTS }
{
    let sections = plant.names().sections.len();
    let trains = plant.moves().trains() as usize;
    3 * sections + 2 * trains + commands + MOVE_EVENTS
}

/// Pushes the events of the commands, which are numbered from 1. The last one goes first: so each of those that are far
/// goes before all far ones that were pushed.
fn push_commands(queue: &mut EventQueue, commands: &[Command])
    requires few { length commands.now ≤ COMMANDS }
    requires room { length commands.now ≤ queue.old.spare }
    ensures counted { (q : Event → Bool) → count_by q queue.new.events
        ≡ count_by q queue.old.events + count_by q (command_events 0 commands.now) }
    ensures room { length queue.new.events + queue.new.spare ≡ length queue.old.events + queue.old.spare }
{
    let mut left = commands.len();
    while left > 0 {
        left -= 1;
        queue.push(event_of_command(commands[left].at, left as u16 + 1));
    }
}
