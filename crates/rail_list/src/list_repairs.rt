//! The kept list repaired: a train's first entry pulled out of it, or its remaining moves added to it.

ghost use Rattle.std.specs.Prelude.{◌≡◌, ◌+◌, ◌<◌, ◌≤◌, if◌then◌else◌, length, IsTrue};
ghost use Rattle.rail_rules.specs.Fronts.{without_first};
ghost use Rattle.rail_rules.specs.Places.{after, completes, is_inside, is_legal, place_of};
ghost use Rattle.rail_place.specs.PlaceStates.{IsMadeFor};
ghost use Rattle.rail_place.specs.Tables.{moves_in};
ghost use Rattle.rail_list.specs.KeptLists.{HasRoomFor, before_first, with_moves_left};
ghost use Rattle.rail_list.specs.Repairs.{is_repairable_for};

use crate::KeptList;
use crate::entries::free_entries_before;
use crate::needers::is_leg_safe;
use rail_base::TrainNo;
use rail_place::{Moves, Places};

impl KeptList {
    /// Takes the first entry of the train, which is inside and makes this move now, out of the list.
    /// True exactly where the list without it completes from the places after the move; else the list
    /// stays. No move is played: the other trains make the moves that they made, so only an entry before
    /// that first one is in the way, which needs what the train then stands on. Entries behind it are not looked at.
    pub fn pull(&mut self, moves: &Moves, places: &Places, train: TrainNo) -> bool
        requires made { IsMadeFor moves.now places.now }
        requires room { HasRoomFor moves.now self.old }
        requires completes { IsTrue (completes (moves_in moves.now) places.now.positions self.old.trains) }
        requires train { train < length moves.now }
        requires inside { IsTrue (is_inside (moves_in moves.now) places.now.positions train) }
        requires legal { IsTrue (is_legal (moves_in moves.now) places.now.positions train) }
        ensures exact { result ≡ completes (moves_in moves.now) (after places.now.positions train) (without_first train self.old.trains) }
        ensures trains { self.new.trains ≡ (if result then without_first train self.old.trains else self.old.trains) }
        ensures room { self.new.room ≡ self.old.room }
        ensures looked { self.new.looked ≤ self.old.looked + length (before_first train self.old.trains) + 1 }
    {
        let sections = moves.stand(train, places.position(train) + 1);
        match free_entries_before(moves, places, self, train, sections) {
            Some(first) => {
                self.take_out(first);
                true
            }
            None => false,
        }
    }

    /// Adds the moves that are left to the train, which stands outside and makes its first move now, at
    /// the end of the list. True exactly where the list with them completes from the places after the
    /// move; else the list stays. No move is played: the list has each move that the trains inside have left,
    /// and the train then stands still until it is alone, so only a train that needs later what it stands on
    /// is in the way. This costs a look at each train, and for one inside a look at the table for each section.
    pub fn append(&mut self, moves: &Moves, places: &Places, train: TrainNo) -> bool
        requires made { IsMadeFor moves.now places.now }
        requires room { HasRoomFor moves.now self.old }
        requires completes { IsTrue (completes (moves_in moves.now) places.now.positions self.old.trains) }
        requires train { train < length moves.now }
        requires outside { place_of places.now.positions train ≡ 0 }
        requires legal { IsTrue (is_legal (moves_in moves.now) places.now.positions train) }
        ensures exact { result ≡ completes (moves_in moves.now) (after places.now.positions train)
            (with_moves_left (moves_in moves.now) train self.old.trains) }
        ensures trains { self.new.trains ≡ (if result
            then with_moves_left (moves_in moves.now) train self.old.trains
            else self.old.trains) }
        ensures room { self.new.room ≡ self.old.room }
        ensures looked { self.new.looked ≡ self.old.looked }
    {
        if !is_leg_safe(moves, places, train, 1, &mut self.needer) {
            return false;
        }
        self.add(train, moves.places(train) - 1);
        true
    }

    /// Whether the list repaired for the train's next move completes from the places after it: without the first
    /// entry of a train that is inside, with the moves that are left to an entering train at its end. The list stays.
    pub fn is_repairable(&mut self, moves: &Moves, places: &Places, train: TrainNo) -> bool
        requires made { IsMadeFor moves.now places.now }
        requires completes { IsTrue (completes (moves_in moves.now) places.now.positions self.old.trains) }
        requires train { train < length moves.now }
        requires legal { IsTrue (is_legal (moves_in moves.now) places.now.positions train) }
        ensures exact { result ≡ is_repairable_for (moves_in moves.now) places.now.positions self.old.trains train }
        ensures trains { self.new.trains ≡ self.old.trains }
        ensures room { self.new.room ≡ self.old.room }
        ensures looked { self.new.looked ≤ self.old.looked + length (before_first train self.old.trains) + 1 }
    {
        let place = places.position(train);
        if place == 0 {
            return is_leg_safe(moves, places, train, 1, &mut self.needer);
        }
        let sections = moves.stand(train, place + 1);
        free_entries_before(moves, places, self, train, sections).is_some()
    }
}
