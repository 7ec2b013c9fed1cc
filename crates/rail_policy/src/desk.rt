//! The desk: it keeps the policies of a deck, and asks the one in force.

ghost use Rattle.std.specs.Prelude.{◌≡◌, ◌≢◌, ◌<◌, ◌↔◌, IfOk, IfSome, Some, None, IsErr, IsErrOf, IsTrue, OnOk, OnErr, length, map, vec_capacity, vec_len};
ghost use Rattle.rail_policy.specs.Choices.{HasLeastKey, MayChoose};
ghost use Rattle.rail_policy.specs.Desks.{Drops, PutsInForce, after_answer, after_note, after_turn, seat_in_force, within, without};
ghost use Rattle.rail_policy.specs.Seats.{is_fine_deck, names_of, index_of, seat_at};

use crate::deck;
use crate::desk_table::Seen;
use crate::offer::Offer;
use crate::policy::Policy;
use rail_base::{Name, OutOfMemory, PolicyKind, TrainNo};
use std::alloc::Global;
use thiserror::Error;

/// What a turn was about: the offer that it chose, and how many were handed in.
#[derive(Clone, Copy, Debug, PartialEq, Eq)]
pub struct Asked {
    pub offer: Offer,
    pub offered: usize,
}

/// No policy of the desk has the name.
#[derive(Clone, Copy, Debug, PartialEq, Eq, Error)]
#[error("no policy has this name")]
pub struct UnknownName;

/// Why a policy stays.
#[derive(Clone, Copy, Debug, PartialEq, Eq, Error)]
pub enum Retire {
    #[error("no policy has this name")]
    Unknown,
    #[error("the policy is in force")]
    InForce,
}

/// The policies of a deck in boxes, one of which is in force. Contracts see it as the table of `Seen`.
pub struct Desk {
    deck: Vec<Box<dyn Policy>>,
    force: usize,
    last: Option<Asked>,
    ghost in_range: { force < vec_len deck },
}

impl Drop for Desk {
    fn drop(self) {
        let Desk {
            deck: _deck,
            force: _force,
            last: _last,
        } = self;
    }
}

impl Desk {
    /// A desk over the deck, where the policy at the index `force` is in force. It takes no memory.
    pub fn new(deck: Vec<Box<dyn Policy>>, force: usize) -> Desk
        requires fine { IsTrue (is_fine_deck (map ⟦<Box<dyn Policy> as Policy>⟧.seat deck.items)) }
        requires force { force < vec_len deck }
        ensures { let seats = map ⟦<Box<dyn Policy> as Policy>⟧.seat deck.items in
            ⟦<Desk as Seen>⟧.table result ≡ record { seats = seats; force = force; last = None } }
    {
        Desk {
            deck,
            force,
            last: None,
        }
    }

    /// How many policies there are.
    pub fn len(&self) -> usize
        ensures { result ≡ length (⟦<Desk as Seen>⟧.table self.now).seats }
    {
        self.deck.len()
    }

    /// The name of the policy at this index.
    pub fn name_at(&self, index: usize) -> Name
        requires { index < length (⟦<Desk as Seen>⟧.table self.now).seats }
        ensures { result ≡ (seat_at (⟦<Desk as Seen>⟧.table self.now).seats index).name }
    {
        self.deck[index].name()
    }

    /// The names of the policies, in order.
    pub fn names(&self, alloc: Global) -> Result<Vec<Name>, OutOfMemory>
        ensures { IfOk result (λ names. names.items ≡ names_of (⟦<Desk as Seen>⟧.table self.now).seats) }
    {
        deck::names_in(alloc, &self.deck)
    }

    /// The index of the policy in force.
    pub fn force(&self) -> usize
        ensures index { result ≡ (⟦<Desk as Seen>⟧.table self.now).force }
        ensures in_range { result < length (⟦<Desk as Seen>⟧.table self.now).seats }
    {
        self.force
    }

    /// The kind of the policy in force.
    pub fn kind_in_force(&self) -> PolicyKind
        ensures { result ≡ (seat_in_force (⟦<Desk as Seen>⟧.table self.now)).kind }
    {
        self.deck[self.force].kind()
    }

    /// What the last turn was about; none before the first turn.
    pub fn last(&self) -> Option<Asked>
        ensures { result ≡ (⟦<Desk as Seen>⟧.table self.now).last }
    {
        self.last
    }

    /// Puts the policy of this name in force.
    pub fn exchange(&mut self, name: Name) -> Result<(), UnknownName>
        ensures unknown { IsErr result ↔ (index_of (⟦<Desk as Seen>⟧.table self.old).seats name ≡ None) }
        ensures ok { let table = ⟦<Desk as Seen>⟧.table in OnOk result (PutsInForce (table self.old) (table self.new) name) }
        ensures in_force { OnOk result ((seat_in_force (⟦<Desk as Seen>⟧.table self.new)).name ≡ name) }
        ensures refused { OnErr result (self.new ≡ self.old) }
        ensures unchanged { let table = ⟦<Desk as Seen>⟧.table in OnErr result (table self.new ≡ table self.old) }
        ensures room { vec_capacity self.new.deck ≡ vec_capacity self.old.deck }
    {
        let Some(index) = self.index_of(name) else {
            return Err(UnknownName);
        };
        self.force = index;
        Ok(())
    }

    /// Drops the policy of this name, which is not in force. The others stay in their order.
    pub fn retire(&mut self, name: Name) -> Result<(), Retire>
        ensures unknown { IsErrOf result Retire.Unknown ↔ (index_of (⟦<Desk as Seen>⟧.table self.old).seats name ≡ None) }
        ensures in_force { let old = ⟦<Desk as Seen>⟧.table self.old in
            IsErrOf result Retire.InForce ↔ (index_of old.seats name ≡ Some old.force) }
        ensures ok { let table = ⟦<Desk as Seen>⟧.table in OnOk result (Drops (table self.old) (table self.new) name) }
        ensures same_in_force { let table = ⟦<Desk as Seen>⟧.table in seat_in_force (table self.new) ≡ seat_in_force (table self.old) }
        ensures refused { OnErr result (self.new ≡ self.old) }
        ensures unchanged { let table = ⟦<Desk as Seen>⟧.table in OnErr result (table self.new ≡ table self.old) }
        ensures room { vec_capacity self.new.deck ≡ vec_capacity self.old.deck }
    {
        let Some(index) = self.index_of(name) else {
            return Err(Retire::Unknown);
        };
        if index == self.force {
            return Err(Retire::InForce);
        }
        self.drop_at(index);
        Ok(())
    }

    /// The index of the policy of this name, where there is one.
    fn index_of(&self, name: Name) -> Option<usize>
        ensures index { result ≡ index_of (⟦<Desk as Seen>⟧.table self.now).seats name }
        ensures in_range { IfSome result (λ index. index < length (⟦<Desk as Seen>⟧.table self.now).seats) }
    {
        deck::index_of(&self.deck, name)
    }

    /// Drops the policy at this index, which is not in force.
    fn drop_at(&mut self, index: usize)
        requires index { index < length (⟦<Desk as Seen>⟧.table self.old).seats }
        requires not_in_force { index ≢ (⟦<Desk as Seen>⟧.table self.old).force }
        ensures table { let table = ⟦<Desk as Seen>⟧.table in table self.new ≡ without (table self.old) index }
        ensures room { vec_capacity self.new.deck ≡ vec_capacity self.old.deck }
    {
        deck::drop_at(&mut self.deck, index);
        if index < self.force {
            self.force -= 1;
        }
    }

    /// The index of the offer that the policy in force chooses. Its answer counts as the first offer where it
    /// is out of range.
    pub fn turn(&mut self, offers: &[Offer]) -> usize
        requires { 0 < length offers.now }
        ensures table { let table = ⟦<Desk as Seen>⟧.table in
            table self.new ≡ after_turn (table self.old) offers.now (seat_in_force (table self.new)).answered }
        ensures answer { result ≡ within (length offers.now) (seat_in_force (⟦<Desk as Seen>⟧.table self.new)).answered }
        ensures choice { let table = ⟦<Desk as Seen>⟧.table in let seat = seat_in_force (table self.old) in
            MayChoose seat.kind seat.mark offers.now (seat_in_force (table self.new)).answered }
        ensures least { let seat = seat_in_force (⟦<Desk as Seen>⟧.table self.old) in HasLeastKey seat.kind seat.mark offers.now result }
        ensures room { vec_capacity self.new.deck ≡ vec_capacity self.old.deck }
    {
        let answer = self.ask(offers);
        let chosen = if answer < offers.len() { answer } else { 0 };
        self.last = Some(Asked {
            offer: offers[chosen],
            offered: offers.len(),
        });
        chosen
    }

    /// The answer of the policy in force to the offers.
    fn ask(&mut self, offers: &[Offer]) -> usize
        requires { 0 < length offers.now }
        ensures table { let table = ⟦<Desk as Seen>⟧.table in table self.new ≡ after_answer (table self.old) result }
        ensures choice { let seat = seat_in_force (⟦<Desk as Seen>⟧.table self.old) in MayChoose seat.kind seat.mark offers.now result }
        ensures room { vec_capacity self.new.deck ≡ vec_capacity self.old.deck }
    {
        deck::ask(&mut self.deck, self.force, offers)
    }

    /// Tells the policy in force which train was admitted.
    pub fn noted(&mut self, admitted: TrainNo)
        ensures table { let table = ⟦<Desk as Seen>⟧.table in table self.new ≡ after_note (table self.old) admitted }
        ensures room { vec_capacity self.new.deck ≡ vec_capacity self.old.deck }
    {
        deck::note_admission(&mut self.deck, self.force, admitted);
    }
}
