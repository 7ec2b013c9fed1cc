//! The queue of pending events.

ghost use Rattle.std.specs.Prelude.{◌≡◌, ℕ, ◌+◌, ◌/◌, ◌<◌, ◌≤◌, Bool, false, List, [], ◌∷◌, IfOk, IsTrue, IsNone, IfSome, ◌↔◌, MatchOption, max, count_by, drop, length, nat_eq, not, ◌&&◌};
ghost use Rattle.std.specs.List.{filter, list_any};
ghost use Rattle.rail_queue.specs.declared.event.Event.{Event};
ghost use Rattle.rail_queue.specs.Order.{goes_before, in_order, inserted, is_of, is_sorted, first_time_of};
ghost use Rattle.rail_queue.specs.Ring.{all_events, bucket, chain_at, chain_in, IsPut, IsRing, ring};

use crate::chains::put_in_order;
use crate::choice::{earliest, first_event, first_with};
use crate::event::{Class, Event, bucket_of};
use crate::marks::Marks;
use crate::removal::{take_out, take_out_of};
use rail_base::{OutOfMemory, Time};
use rail_slots::Slots;
use std::alloc::Global;
use std::marker::Model;

/// The number of chains of the ring, each of one bucket of time; the chain after them is for all that is far.
pub(crate) const RING: usize = 1024;

/// Pending events, sorted by time, class and number. Of events that are equal in these the one that was
/// pushed first comes first.
///
/// They lie in chains by buckets of 64 tenths of a second. The base is the greatest bucket of an event that was
/// popped. An event whose bucket at its push is one of the 1,024 from the base on lies in the chain of its bucket
/// modulo 1,024; all others lie in the far chain. So a push into a near bucket looks at held events of this bucket
/// and at the one that comes first of all, however many are pending.
///
/// The chain with the event that comes first is kept. So to ask for this event searches nothing, and only `pop`,
/// `forget` and `forget_at` look for the chain anew.
#[derive(Debug)]
pub struct EventQueue {
    slots: Slots<Event>,
    base: u64,
    /// Which chains of the ring have an event.
    marks: Marks,
    /// The chain whose first event comes first of all, if there is an event.
    first_chain: Option<usize>,
}

impl Drop for EventQueue {
    fn drop(self) {
        let EventQueue {
            slots: _slots,
            base: _base,
            marks: _marks,
            first_chain: _first_chain,
        } = self;
    }
}

impl Model for EventQueue {
    ghost use Rattle.rail_queue.specs.Queue.{Queue, queue_of};
    ghost use Rattle.rail_queue.specs.Marks.{IsKept};

    ghost Value = { Queue };

    ghost view = { λ queue. queue_of queue.slots queue.base };

    ghost invariant = { λ queue. IsKept queue.base queue.marks.words queue.slots.chains queue.first_chain };
}

/// The chain of a bucket in the ring that begins with the bucket `base`.
fn chain_of(base: u64, bucket: u64) -> usize
    ensures { result ≡ chain_in base bucket }
{
    if base <= bucket && bucket - base < RING as u64 {
        (bucket % RING as u64) as usize
    } else {
        RING
    }
}

impl EventQueue {
    /// An empty queue with room for so many events.
    pub fn with_room(alloc: Global, room: usize) -> Result<EventQueue, OutOfMemory>
        ensures empty { IfOk result (λ queue. queue.events ≡ []) }
        ensures spare { IfOk result (λ queue. queue.spare ≡ room) }
        ensures base { IfOk result (λ queue. queue.base ≡ 0) }
        ensures walked { IfOk result (λ queue. queue.slots.walked ≡ 0) }
    {
        let slots = Slots::with_room(alloc, RING + 1, room)?;
        Ok(EventQueue {
            slots,
            base: 0,
            marks: Marks::new(),
            first_chain: None,
        })
    }

    /// How many more events there is room for.
    pub fn spare(&self) -> usize
        ensures spare { result ≡ self.now.spare }
        ensures sorted { IsTrue (is_sorted self.now.events) }
    {
        self.slots.spare()
    }

    /// The greatest bucket, of 64 tenths of a second each, of an event that was popped; 0 before.
    pub fn base(&self) -> u64
        ensures { result ≡ self.now.base }
    {
        self.base
    }

    /// The chains in which the events lie: 1,024 near ones and the far one. Each is sorted.
    pub fn slots(&self) -> &Slots<Event>
        ensures slots { result.now ≡ self.now.slots }
        ensures long { length self.now.slots.chains ≡ 1025 }
        ensures ring { IsRing ring self.now.base self.now.slots.chains }
        ensures events { self.now.events ≡ in_order (all_events ring self.now.slots.chains) }
        ensures spare { self.now.spare ≡ self.now.slots.spare }
    {
        &self.slots
    }

    /// Puts the event behind those that come before it and those that are equal to it in time, class and
    /// number. Where its bucket is near, the search for its place looks at held events of that bucket alone.
    pub fn push(&mut self, event: Event)
        requires { 1 ≤ self.old.spare }
        ensures events { self.new.events ≡ inserted event self.old.events }
        ensures spare { self.new.spare + 1 ≡ self.old.spare }
        ensures counted { (p : Event → Bool) → count_by p self.new.events ≡ count_by p (event ∷ []) + count_by p self.old.events }
        ensures base { self.new.base ≡ self.old.base }
        ensures chain { IsPut self.old.slots.chains self.new.slots.chains (chain_at self.old.base event) event }
        ensures near { self.old.base ≤ bucket event → bucket event < self.old.base + 1024
            → self.new.slots.walked ≤ self.old.slots.walked + count_by (λ held. nat_eq (bucket held) (bucket event)) self.old.events }
    {
        let chain = chain_of(self.base, event.bucket());
        self.first_chain = Some(first_with(&self.slots, self.first_chain, chain, &event));
        put_in_order(&mut self.slots, chain, event);
        self.marks.mark(chain);
    }

    /// The next event, if there is one.
    pub fn first(&self) -> Option<Event>
        ensures none { IsNone result ↔ (self.now.events ≡ []) }
        ensures next { IfSome result (λ event. self.now.events ≡ event ∷ drop 1 self.now.events) }
        ensures least { IfSome result (λ event. list_any (λ other. goes_before other event) self.now.events ≡ false) }
        ensures sorted { IsTrue (is_sorted self.now.events) }
    {
        let chain = self.first_chain?;
        first_event(&self.slots, chain)
    }

    /// Takes out the next event, if there is one. No chain is searched: one step, to the event behind it.
    #[inline(always)]
    pub fn pop(&mut self) -> Option<Event>
        ensures none { IsNone result ↔ (self.old.events ≡ []) }
        ensures next { MatchOption result (self.new ≡ self.old) (λ event. self.old.events ≡ event ∷ self.new.events) }
        ensures spare { MatchOption result (self.new.spare ≡ self.old.spare) (λ _. self.new.spare ≡ self.old.spare + 1) }
        ensures least { IfSome result (λ event. list_any (λ other. goes_before other event) self.old.events ≡ false) }
        ensures counted { IfSome result (λ event. (p : Event → Bool)
            → count_by p self.old.events ≡ count_by p (event ∷ []) + count_by p self.new.events) }
        ensures base { MatchOption result (self.new.base ≡ self.old.base) (λ event. self.new.base ≡ max self.old.base (bucket event)) }
        ensures walked { self.new.slots.walked ≤ self.old.slots.walked + 1 }
    {
        let chain = self.first_chain?;
        let Some(event) = self.slots.take_first(chain) else {
            unreachable!()
        };
        self.marks.note(&self.slots, chain);
        self.base = self.base.max(event.bucket());
        self.first_chain = earliest(&self.slots, &self.marks, self.base);
        Some(event)
    }

    /// Takes out the events of the class with the number. The others stay in their order.
    pub fn forget(&mut self, class: Class, number: u16)
        ensures events { self.new.events ≡ filter (λ event. not (is_of class number event)) self.old.events }
        ensures counted { (p : Event → Bool)
            → count_by p self.new.events ≡ count_by (λ event. not (is_of class number event) && p event) self.old.events }
        ensures room { length self.new.events + self.new.spare ≡ length self.old.events + self.old.spare }
        ensures base { self.new.base ≡ self.old.base }
    {
        take_out(&mut self.slots, RING + 1, class, number);
        self.marks.note_all(&self.slots);
        self.first_chain = earliest(&self.slots, &self.marks, self.base);
    }

    /// Takes out the event of the class with the number, where there is one: there are no more. The others stay in
    /// their order.
    ///
    /// It is looked for in the chain of the time first, and found there where it happens then and was near at its
    /// push. That looks at the events of this chain alone, which are those of its bucket, or all the far ones where
    /// the time is far. Only where none is found there is it sought as `forget` does it: so a wrong time costs time,
    /// and nothing else.
    pub fn forget_at(&mut self, at: Time, class: Class, number: u16)
        requires single { count_by (is_of class number) self.old.events ≤ 1 }
        ensures events { self.new.events ≡ filter (λ event. not (is_of class number event)) self.old.events }
        ensures counted { (p : Event → Bool)
            → count_by p self.new.events ≡ count_by (λ event. not (is_of class number event) && p event) self.old.events }
        ensures room { length self.new.events + self.new.spare ≡ length self.old.events + self.old.spare }
        ensures base { self.new.base ≡ self.old.base }
    {
        let chain = chain_of(self.base, bucket_of(at));
        let spare = self.slots.spare();
        take_out_of(&mut self.slots, chain, class, number);
        if self.slots.spare() == spare {
            self.forget(class, number);
            return;
        }
        self.marks.note(&self.slots, chain);
        self.first_chain = earliest(&self.slots, &self.marks, self.base);
    }

    /// When the next event happens, if there is one.
    pub fn first_time(&self) -> Option<Time>
        ensures time { result ≡ first_time_of self.now.events }
        ensures sorted { IsTrue (is_sorted self.now.events) }
    {
        let event = self.first()?;
        Some(event.at)
    }
}
