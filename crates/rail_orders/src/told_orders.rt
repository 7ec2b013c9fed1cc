//! What the commands told so far mean for sections, trains and policies.

ghost use Rattle.std.specs.Prelude.{◌≡◌, ◌<◌, false, get_or, length, not, set, vec_capacity, IfOk};
ghost use Rattle.std.specs.List.{filter};
ghost use Rattle.rail_base.specs.NameForms.{same_name};
ghost use Rattle.rail_orders.specs.OrderTables.{closed_in, first_priorities, first_tables, has_policy, stop_in, takes_effect_in, told_after};

use rail_base::{Cause, Name, Order, OutOfMemory, SectionNo, TrainNo, add_rows, copies};
use rail_plan::Plant;
use std::alloc::Global;
use std::marker::Model;

/// What the commands told so far mean: which sections are closed, which trains are stopped or cancelled, the
/// priority of each train, and the policies that are left and in force. Sections and trains count from 0.
pub struct ToldOrders {
    closed: Vec<bool>,
    /// A section was closed at some time: before that no sections are looked through for a closed one.
    has_closed: bool,
    stopped: Vec<bool>,
    cancelled: Vec<bool>,
    priorities: Vec<u8>,
    /// The names of the policies that were not retired.
    deck: Vec<Name>,
    /// The name of the policy in force.
    force: Name,
}

impl Drop for ToldOrders {
    fn drop(self) {
        let ToldOrders {
            closed: _closed,
            has_closed: _,
            stopped: _stopped,
            cancelled: _cancelled,
            priorities: _priorities,
            deck: _deck,
            force: _,
        } = self;
    }
}

impl Model for ToldOrders {
    ghost use Rattle.std.specs.Prelude.{◌≡◌, ℕ, false, get_or, length, vec_capacity};
    ghost use Rattle.rail_orders.specs.OrderTables.{Told};

    ghost Value = { Told };

    ghost view = { λ orders. record {
      closed = orders.closed.items;
      stopped = orders.stopped.items;
      cancelled = orders.cancelled.items;
      priorities = orders.priorities.items;
      deck = orders.deck.items;
      room = vec_capacity orders.deck;
      force = orders.force;
    } };

    ghost invariant = { λ orders. (vec_capacity orders.closed ≡ length orders.closed.items)
        × (vec_capacity orders.stopped ≡ length orders.stopped.items)
        × (vec_capacity orders.cancelled ≡ length orders.cancelled.items)
        × (vec_capacity orders.priorities ≡ length orders.priorities.items)
        × (orders.has_closed ≡ false → (x : ℕ) → get_or orders.closed.items x false ≡ false) };
}

impl ToldOrders {
    /// Before any order: nothing is closed, stopped or cancelled, each train has its own priority, and the policy
    /// at `force` of the deck is in force.
    pub fn new(
        alloc: Global,
        plant: &Plant,
        deck: &[Name],
        force: usize,
    ) -> Result<ToldOrders, OutOfMemory>
        requires { force < length deck.now }
        ensures { IfOk result (λ orders. orders ≡ first_tables plant.now deck.now force) }
    {
        let sections = plant.names().sections.len();
        let trains = usize::from(plant.moves().trains());
        Ok(ToldOrders {
            closed: copies(alloc, false, sections, sections)?,
            has_closed: false,
            stopped: copies(alloc, false, trains, trains)?,
            cancelled: copies(alloc, false, trains, trains)?,
            priorities: priorities_of(alloc, plant)?,
            deck: names_of(alloc, deck)?,
            force: deck[force],
        })
    }

    /// Whether the train is cancelled.
    pub fn is_cancelled(&self, train: TrainNo) -> bool
        ensures { result ≡ get_or self.now.cancelled train false }
    {
        is_set(&self.cancelled, usize::from(train.0))
    }

    /// The priority of the train: the one last told, or its own; 0 is the most important.
    pub fn priority(&self, train: TrainNo) -> u8
        ensures { result ≡ get_or self.now.priorities train 0 }
    {
        self.priorities
            .get(usize::from(train.0))
            .copied()
            .unwrap_or(0)
    }

    /// The cause that the train is stopped, where it is.
    pub fn stop_cause(&self, train: TrainNo) -> Option<Cause>
        ensures { result ≡ stop_in self.now train }
    {
        if is_set(&self.stopped, usize::from(train.0)) {
            Some(Cause::Stopped)
        } else {
            None
        }
    }

    /// The cause that the first of the sections that is closed is, where one is.
    pub fn closed_cause(&self, sections: &[SectionNo]) -> Option<Cause>
        ensures { result ≡ closed_in self.now sections.now }
    {
        if !self.has_closed {
            return None;
        }
        let first = sections
            .iter()
            .find(|section| is_set(&self.closed, usize::from(section.0)))?;
        Some(Cause::Closed { section: *first })
    }

    /// Whether the order takes effect now. `has_moved` tells of a train that is to be cancelled whether a move of
    /// it is admitted.
    pub fn takes_effect(&self, order: &Order, has_moved: bool) -> bool
        ensures { result ≡ takes_effect_in self.now has_moved order.now }
    {
        match order {
            Order::Policy(name) => self.has_policy(*name),
            Order::Retire(name) => self.has_policy(*name) && *name != self.force,
            Order::Cancel(train) => !has_moved && !self.is_cancelled(*train),
            _ => true,
        }
    }

    /// Whether a policy of this name is left in the deck.
    fn has_policy(&self, name: Name) -> bool
        ensures { result ≡ has_policy self.now name }
    {
        self.deck.iter().any(|other| name == *other)
    }

    /// The order is told.
    pub fn tell(&mut self, order: &Order)
        ensures { self.new ≡ told_after order.now self.old }
    {
        match order {
            Order::Close(section) => {
                set_at(&mut self.closed, usize::from(section.0), true);
                self.has_closed = true;
            }
            Order::Reopen(section) => set_at(&mut self.closed, usize::from(section.0), false),
            Order::Stop(train) => set_at(&mut self.stopped, usize::from(train.0), true),
            Order::Go(train) => set_at(&mut self.stopped, usize::from(train.0), false),
            Order::Cancel(train) => set_at(&mut self.cancelled, usize::from(train.0), true),
            Order::Priority(train, priority) => {
                set_at(&mut self.priorities, usize::from(train.0), *priority);
            }
            Order::Policy(name) => self.force = *name,
            Order::Retire(name) => take_out(&mut self.deck, *name),
        }
    }
}

/// The trains' own priorities.
fn priorities_of(alloc: Global, plant: &Plant) -> Result<Vec<u8>, OutOfMemory>
    ensures items { IfOk result (λ priorities. priorities.items ≡ first_priorities plant.now) }
    ensures room { IfOk result (λ priorities. vec_capacity priorities ≡ length priorities.items) }
{
    let trains = plant.moves().trains();
    let mut priorities = Vec::with_capacity(alloc, usize::from(trains))?;
    for number in 0..trains {
        priorities.push_reserved(plant.train(TrainNo(number)).priority);
    }
    Ok(priorities)
}

/// The names of the deck, in memory for no more of them.
fn names_of(alloc: Global, deck: &[Name]) -> Result<Vec<Name>, OutOfMemory>
    ensures items { IfOk result (λ names. names.items ≡ deck.now) }
    ensures room { IfOk result (λ names. vec_capacity names ≡ length deck.now) }
{
    let mut names = Vec::with_capacity(alloc, deck.len())?;
    add_rows(&mut names, deck);
    Ok(names)
}

/// Whether the flag of this number is there and set.
fn is_set(flags: &[bool], number: usize) -> bool
    ensures { result ≡ get_or flags.now number false }
{
    flags.get(number).copied().unwrap_or(false)
}

/// Sets the item of this number, where it is there.
fn set_at<T: Copy + Drop>(items: &mut [T], number: usize, item: T)
    ensures { items.new ≡ set items.old number item }
{
    if number < items.len() {
        items[number] = item;
    }
}

/// Takes the policies of this name out of the deck.
fn take_out(deck: &mut Vec<Name>, name: Name)
    ensures items { deck.new.items ≡ filter (λ other. not (same_name name other)) deck.old.items }
    ensures room { vec_capacity deck.new ≡ vec_capacity deck.old }
{
    deck.retain(|other| name != *other);
}
