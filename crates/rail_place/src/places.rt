//! The places of the trains, and the holders of the sections.

ghost use Rattle.std.specs.Prelude.{◌≡◌, ℕ, ◌+◌, ◌-◌, ◌<◌, ◌≤◌, ◌^◌, ◌↔◌, ◌≢◌, List, min, length, replicate, get_or, set, IsTrue, IsOk, IfOk, IfErr, MatchResult, Some, None, slice_index};
ghost use Rattle.rail_rules.specs.Numbers.{are_apart};
ghost use Rattle.rail_rules.specs.Moves.{stand};
ghost use Rattle.rail_rules.specs.Places.{after, is_legal, place_of};
ghost use Rattle.rail_place.specs.Tables.{moves_in, MoveLists};
ghost use Rattle.rail_base.specs.declared.limits.TheConstants.{SECTIONS};
ghost use Rattle.rail_place.specs.PlaceStates.{IsFreeBehind, IsMadeFor};
ghost use Rattle.rail_place.specs.Bars.{bar_of};
ghost use Rattle.rail_place.specs.Overlaps.{IsFault};

use crate::barring::{Barred, PlacesFault};
use crate::holdings::{holdings_of, owners_of};
use crate::moves::Moves;
use crate::owners::{copy_front, first_owned, occupy, release};
use rail_base::limits::{SECTIONS, TRAINS};
use rail_base::{OutOfMemory, SectionNo, TrainNo, add_rows, copies, replace_rows};
use std::alloc::Global;
use std::marker::Model;

/// How many moves each train has made, and which train holds each section. Trains and sections count
/// from 0; a train at place 0 has not entered, and one at its last place is out. Each call is handed
/// the moves for which the places were made.
#[derive(Debug)]
pub struct Places {
    positions: Vec<u16>,
    owners: Vec<Option<TrainNo>>,
    played: u64,
}

impl Drop for Places {
    fn drop(self) {
        let Places {
            positions: _positions,
            owners: _owners,
            played: _played,
        } = self;
    }
}

impl Model for Places {
    ghost use Rattle.rail_place.specs.PlaceStates.{State};

    ghost Value = { State };

    ghost view = { λ places. record { positions = places.positions.items; owners = places.owners.items; played = places.played } };

    ghost use Rattle.rail_place.specs.Room.{IsRoomy};

    ghost invariant = { λ places. IsRoomy places.positions places.owners places.played };
}

impl Places {
    /// Places with the trains at these places, nothing played. `Overlap` where two trains would hold
    /// one section: the least such section, and the two least trains that would hold it.
    pub fn new(alloc: Global, moves: &Moves, positions: &[u16]) -> Result<Places, PlacesFault>
        requires long { length positions.now ≡ length moves.now }
        requires within { (t : ℕ) → t < length moves.now → slice_index positions.now t ≤ (moves_in moves.now).moves t }
        ensures made { IfOk result (IsMadeFor moves.now) }
        ensures positions { IfOk result (λ places. places.positions ≡ positions.now) }
        ensures played { IfOk result (λ places. places.played ≡ 0) }
        ensures fault { IfErr result (IsFault (moves_in moves.now) positions.now) }
    {
        prove_eq!(positions.len(), usize::from(moves.trains()));
        let holdings = holdings_of(alloc, moves, positions)?;
        let owners = owners_of(alloc, &holdings)?;
        let mut room = Vec::with_capacity(alloc, TRAINS)?;
        add_rows(&mut room, positions);
        Ok(Places {
            positions: room,
            owners,
            played: 0,
        })
    }

    /// Places with every train outside, nothing played.
    pub fn outside(alloc: Global, moves: &Moves) -> Result<Places, OutOfMemory>
        ensures made { IfOk result (IsMadeFor moves.now) }
        ensures positions { IfOk result (λ places. places.positions ≡ replicate {A = ℕ} (length moves.now) 0) }
        ensures played { IfOk result (λ places. places.played ≡ 0) }
    {
        Ok(Places {
            positions: copies(alloc, 0, usize::from(moves.trains()), TRAINS)?,
            owners: copies(alloc, None, SECTIONS, SECTIONS)?,
            played: 0,
        })
    }

    /// How many moves the train has made.
    pub fn position(&self, train: TrainNo) -> u16
        requires { train < length self.now.positions }
        ensures { result ≡ place_of self.now.positions train }
    {
        self.positions[usize::from(train.0)]
    }

    /// How many moves each train has made.
    pub fn positions(&self) -> &[u16]
        ensures { result.now ≡ self.now.positions }
    {
        &self.positions
    }

    /// How many moves were made on these places since they were made, by `advance` and by `play`; it
    /// stays at 2^64 - 1.
    pub fn played(&self) -> u64
        ensures { result ≡ self.now.played }
    {
        self.played
    }

    /// The train that holds the section, if one does.
    pub fn holder(&self, section: SectionNo) -> Option<TrainNo>
        ensures { result ≡ get_or self.now.owners section None }
    {
        *self.owners.get(usize::from(section.0))?
    }

    /// Whether the train's next move is legal, and else why not: `Out` where the train has made all its
    /// moves, and `Held` with the first claimed section that is taken, and its holder.
    pub fn legal(&self, moves: &Moves, train: TrainNo) -> Result<(), Barred>
        requires made { IsMadeFor moves.now self.now }
        requires train { train < length moves.now }
        ensures exact { MatchResult result
            (λ _. bar_of (moves_in moves.now) self.now.positions train ≡ None)
            (λ why. bar_of (moves_in moves.now) self.now.positions train ≡ Some why) }
        ensures legal { IsOk result ↔ IsTrue (is_legal (moves_in moves.now) self.now.positions train) }
    {
        let place = self.positions[usize::from(train.0)];
        if place >= moves.places(train) {
            return Err(Barred::Out);
        }
        match first_owned(&self.owners, moves.claim(train, place + 1)) {
            Some(why) => Err(why),
            None => Ok(()),
        }
    }

    /// Makes the train's next move, which is legal.
    pub fn advance(&mut self, moves: &Moves, train: TrainNo)
        requires made { IsMadeFor moves.now self.old }
        requires train { train < length moves.now }
        requires legal { IsTrue (is_legal (moves_in moves.now) self.old.positions train) }
        ensures made { IsMadeFor moves.now self.new }
        ensures positions { self.new.positions ≡ after self.old.positions train }
        ensures played { self.new.played ≡ min (self.old.played + 1) (2 ^ 64 - 1) }
    {
        let place = self.positions[usize::from(train.0)];
        release(&mut self.owners, moves.stand(train, place));
        occupy(&mut self.owners, moves.stand(train, place + 1), train);
        self.positions[usize::from(train.0)] = place + 1;
        self.played = self.played.saturating_add(1);
    }

    /// Takes the train's last move back. The train has made one, and no other train holds a section of
    /// its standing set at the place before.
    pub fn retreat(&mut self, moves: &Moves, train: TrainNo)
        requires made { IsMadeFor moves.now self.old }
        requires train { train < length moves.now }
        requires moved { 0 < place_of self.old.positions train }
        requires free { (u : ℕ) → u ≢ train → IsTrue (are_apart
            (stand (moves_in moves.now) train (place_of self.old.positions train - 1))
            (stand (moves_in moves.now) u (place_of self.old.positions u))) }
        ensures made { IsMadeFor moves.now self.new }
        ensures positions { self.new.positions ≡ set self.old.positions train (place_of self.old.positions train - 1) }
        ensures played { self.new.played ≡ self.old.played }
    {
        let place = self.position(train);
        self.put(moves, train, place - 1);
    }

    /// Puts the train at the place, wherever it was before, which counts as no move. No other train holds
    /// a section of its standing set there.
    pub fn put(&mut self, moves: &Moves, train: TrainNo, place: u16)
        requires made { IsMadeFor moves.now self.old }
        requires train { train < length moves.now }
        requires within { place ≤ (moves_in moves.now).moves train }
        requires free { (u : ℕ) → u ≢ train → IsTrue (are_apart
            (stand (moves_in moves.now) train place)
            (stand (moves_in moves.now) u (place_of self.old.positions u))) }
        ensures made { IsMadeFor moves.now self.new }
        ensures positions { self.new.positions ≡ set self.old.positions train place }
        ensures played { self.new.played ≡ self.old.played }
    {
        let before = self.positions[usize::from(train.0)];
        release(&mut self.owners, moves.stand(train, before));
        occupy(&mut self.owners, moves.stand(train, place), train);
        self.positions[usize::from(train.0)] = place;
    }

    /// Takes over the positions of the other places, so that these are made for the moves for which
    /// those were, where nobody holds a section behind the first so many, neither there nor here: the holders
    /// of those first ones alone are copied. What was played here stays. It takes no memory, since places have
    /// room for any number of trains within the limits.
    #[inline(always)]
    pub fn copy_front(&mut self, other: &Places, sections: usize)
        requires within { sections ≤ SECTIONS }
        requires own { IsFreeBehind sections self.old.owners }
        requires others { IsFreeBehind sections other.now.owners }
        ensures made { (table : List MoveLists) → IsMadeFor table other.now → IsMadeFor table self.new }
        ensures positions { self.new.positions ≡ other.now.positions }
        ensures owners { self.new.owners ≡ other.now.owners }
        ensures played { self.new.played ≡ self.old.played }
    {
        replace_rows(&mut self.positions, &other.positions);
        copy_front(
            self.owners.as_mut_slice(),
            other.owners.as_slice(),
            sections,
        );
    }
}
