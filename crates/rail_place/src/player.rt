//! The player of lists: it makes the moves on the places themselves, and takes them back.

ghost use Rattle.std.specs.Prelude.{◌≡◌, ℕ, ◌+◌, ◌-◌, ◌<◌, ◌≤◌, ◌^◌, ◌↔◌, List, Option, Some, None, min, length, take, IsTrue, OnOk, MatchOption, MatchResult};
ghost use Rattle.std.specs.List.{All};
ghost use Rattle.rail_rules.specs.Numbers.{first_below};
ghost use Rattle.rail_rules.specs.Places.{completes, is_inside, is_legal, is_valid_state};
ghost use Rattle.rail_place.specs.Tables.{moves_in};
ghost use Rattle.rail_place.specs.PlaceStates.{IsMadeFor};
ghost use Rattle.rail_place.specs.Bars.{bar_in_list, ending, moves_made, outcome};
ghost use Rattle.rail_place.specs.Plays.{IsPlayed};

use crate::barring::{Barred, Played};
use crate::moves::Moves;
use crate::places::Places;
use rail_base::TrainNo;
use rail_base::limits::LIST_TRAINS;

impl Places {
    /// What comes of playing the list from these places: `Illegal` at the first train that is not
    /// inside, `Outside` at place 0 and `Out` at its last place, or whose move is not legal; `Inside`
    /// where all moves are legal and a train is inside afterwards; else `Completes`. The places are as
    /// before. It takes no memory.
    pub fn play(&mut self, moves: &Moves, list: &[TrainNo]) -> Played
        requires made { IsMadeFor moves.now self.old }
        requires trains { All (λ t. t < length moves.now) list.now }
        ensures made { IsMadeFor moves.now self.new }
        ensures positions { self.new.positions ≡ self.old.positions }
        ensures exact { result ≡ outcome (moves_in moves.now) self.old.positions 1 list.now }
        ensures completes { (result ≡ Played.Completes) ↔ IsTrue (completes (moves_in moves.now) self.old.positions list.now) }
        ensures played { self.new.played
            ≡ min (self.old.played + moves_made (moves_in moves.now) self.old.positions list.now) (2 ^ 64 - 1) }
    {
        let (made, barred) = play_on(self, moves, list);
        let played = match barred {
            Some(why) => Played::Illegal {
                index: made as u32 + 1,
                why,
            },
            None => ending_of(first_inside(self, moves)),
        };
        self.take_back(moves, &list[..made]);
        played
    }

    /// Takes the moves of the list back, which were made in this order, the last first. The places are
    /// then as they were before these moves; the count of moves stays. It takes no memory.
    fn take_back(&mut self, moves: &Moves, list: &[TrainNo])
        requires made { IsMadeFor moves.now self.old }
        requires trains { All (λ t. t < length moves.now) list.now }
        requires moves { (s : List ℕ) × IsTrue (is_valid_state (moves_in moves.now) s)
            × IsPlayed (moves_in moves.now) s list.now self.old.positions }
        ensures made { IsMadeFor moves.now self.new }
        ensures positions { (s : List ℕ) → IsPlayed (moves_in moves.now) s list.now self.old.positions → self.new.positions ≡ s }
        ensures played { self.new.played ≡ self.old.played }
    {
        let mut left = list;
        while let Some((last, earlier)) = left.split_last() {
            self.retreat(moves, *last);
            left = earlier;
        }
    }
}

/// Why the list may not name the train next.
fn may_play(places: &Places, moves: &Moves, train: TrainNo) -> Result<(), Barred>
    requires made { IsMadeFor moves.now places.now }
    requires train { train < length moves.now }
    ensures exact { MatchResult result
        (λ _. bar_in_list (moves_in moves.now) places.now.positions train ≡ None)
        (λ why. bar_in_list (moves_in moves.now) places.now.positions train ≡ Some why) }
    ensures inside { OnOk result (IsTrue (is_inside (moves_in moves.now) places.now.positions train)) }
    ensures legal { OnOk result (IsTrue (is_legal (moves_in moves.now) places.now.positions train)) }
{
    if places.position(train) == 0 {
        return Err(Barred::Outside);
    }
    places.legal(moves, train)
}

/// Makes the moves of the list up to the first train that may not move: how many those are, and why
/// that train may not.
fn play_on(places: &mut Places, moves: &Moves, list: &[TrainNo]) -> (usize, Option<Barred>)
    requires made { IsMadeFor moves.now places.old }
    requires trains { All (λ t. t < length moves.now) list.now }
    ensures made { IsMadeFor moves.now places.new }
    ensures within { result.0 ≤ length list.now }
    ensures few { result.0 ≤ LIST_TRAINS }
    ensures moves { IsPlayed (moves_in moves.now) places.old.positions (take result.0 list.now) places.new.positions }
    ensures count { result.0 ≡ moves_made (moves_in moves.now) places.old.positions list.now }
    ensures played { places.new.played ≡ min (places.old.played + result.0) (2 ^ 64 - 1) }
    ensures answer { MatchOption result.1
        (outcome (moves_in moves.now) places.old.positions 1 list.now
        ≡ ending (first_below (is_inside (moves_in moves.now) places.new.positions) (length places.new.positions)))
        (λ why. outcome (moves_in moves.now) places.old.positions 1 list.now ≡ Played.Illegal (result.0 + 1) why) }
{
    for (made, train) in list.iter().enumerate() {
        if let Err(why) = may_play(places, moves, *train) {
            return (made, Some(why));
        }
        places.advance(moves, *train);
    }
    (list.len(), None)
}

/// The least train that is inside.
fn first_inside(places: &Places, moves: &Moves) -> Option<TrainNo>
    requires { IsMadeFor moves.now places.now }
    ensures { result ≡ first_below (is_inside (moves_in moves.now) places.now.positions) (length places.now.positions) }
{
    for number in 0..moves.trains() {
        let train = TrainNo(number);
        let place = places.position(train);
        if 0 < place && place < moves.places(train) {
            return Some(train);
        }
    }
    None
}

/// Nobody is left inside, or this train is.
fn ending_of(inside: Option<TrainNo>) -> Played
    ensures { result ≡ ending inside }
{
    match inside {
        Some(train) => Played::Inside { train },
        None => Played::Completes,
    }
}
