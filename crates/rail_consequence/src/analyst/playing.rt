//! Whether a given list completes, told by the sets of the trains, with no move made.

ghost use Rattle.std.specs.Prelude.{◌≡◌, ℕ, ◌+◌, ◌<◌, ◌≤◌, ◌↔◌, length, set, IsTrue};
ghost use Rattle.rail_rules.specs.Analysis.{is_leg};
ghost use Rattle.rail_rules.specs.Places.{completes, has_holder, is_valid_state, place_of};
ghost use Rattle.rail_place.specs.PlaceStates.{IsMadeFor};
ghost use Rattle.rail_place.specs.Tables.{IsTable, moves_in};
ghost use Rattle.rail_consequence.specs.AnalystStates.{IsAnalystFor};
ghost use Rattle.rail_consequence.specs.Needs.{AreWords, IsRowsOf, IsSet};
ghost use Rattle.rail_consequence.specs.Searches.{leg_to};
ghost use Rattle.rail_consequence.specs.Ways.{IsWayFree};

use super::Analyst;
use crate::rows::Rows;
use crate::width::{All, Four, One, Three, Two, Width};
use rail_base::limits::TRAINS;
use rail_base::{TrainNo, repeats};
use rail_place::{Moves, Places};
use rail_sets::{WORDS, is_empty, join, meet_beyond, replace};

impl Analyst {
    /// Whether the list completes from the places: played move by move, each train is inside at its turn and its move is
    /// legal, and nobody is inside afterwards. No move is made on the places. It takes no memory.
    ///
    /// Moves of one train side by side are looked at together, as those of a leg. Where no other train holds a section that
    /// the train needs for any move that it has left, no single move is looked at.
    pub fn does_complete(&self, moves: &Moves, places: &Places, list: &[TrainNo]) -> bool
        requires made { IsMadeFor moves.now places.now }
        requires own { IsAnalystFor (moves_in moves.now) self.now }
        ensures { result ≡ completes (moves_in moves.now) places.now.positions list.now }
    {
        let rows = self.sheet.rows();
        let words = rows.width();
        if words <= One::WORDS {
            does_complete_in::<One>(moves, rows, places, list)
        } else if words <= Two::WORDS {
            does_complete_in::<Two>(moves, rows, places, list)
        } else if words <= Three::WORDS {
            does_complete_in::<Three>(moves, rows, places, list)
        } else if words <= Four::WORDS {
            does_complete_in::<Four>(moves, rows, places, list)
        } else {
            does_complete_in::<All>(moves, rows, places, list)
        }
    }
}

/// The same with so many words of each set.
fn does_complete_in<W: Width>(moves: &Moves, rows: &Rows, places: &Places, list: &[TrainNo]) -> bool
    requires words { AreWords (moves_in moves.now) W.WORDS }
    requires rows { IsRowsOf (moves_in moves.now) rows.now }
    requires made { IsMadeFor moves.now places.now }
    ensures { result ≡ completes (moves_in moves.now) places.now.positions list.now }
{
    let mut room = [0u16; TRAINS];
    let positions = &mut room[..usize::from(moves.trains())];
    positions.copy_from_slice(places.positions());
    let mut taken = taken_by_all::<W>(moves, rows, positions);
    let mut left = list;
    while let Some(train) = left.first() {
        let count = repeats(*train, left);
        if !goes_on::<W>(moves, rows, *train, count, positions, &mut taken) {
            return false;
        }
        left = &left[count..];
    }
    is_empty(&taken)
}

/// The sections that the trains hold at these places.
fn taken_by_all<W: Width>(moves: &Moves, rows: &Rows, positions: &[u16]) -> [u64; WORDS]
    requires words { AreWords (moves_in moves.now) W.WORDS }
    requires rows { IsRowsOf (moves_in moves.now) rows.now }
    requires table { IsTable moves.now }
    requires state { IsTrue (is_valid_state (moves_in moves.now) positions.now) }
    ensures { IsSet result (has_holder (moves_in moves.now) positions.now) }
{
    let mut taken = [0u64; WORDS];
    for (number, place) in positions.iter().enumerate() {
        join(
            &mut taken,
            rows.stand::<W>(moves, TrainNo(number as u16), *place),
        );
    }
    taken
}

/// Goes on with the train by so many moves, where that is a leg: whether it is one.
fn goes_on<W: Width>(
    moves: &Moves,
    rows: &Rows,
    train: TrainNo,
    count: usize,
    positions: &mut [u16],
    taken: &mut [u64; WORDS],
) -> bool
    requires words { AreWords (moves_in moves.now) W.WORDS }
    requires rows { IsRowsOf (moves_in moves.now) rows.now }
    requires some { 0 < count }
    requires state { IsTrue (is_valid_state (moves_in moves.now) positions.old) }
    requires taken { IsSet taken.old (has_holder (moves_in moves.now) positions.old) }
    ensures exact { result ≡ is_leg (moves_in moves.now) positions.old (leg_to train (place_of positions.old train + count)) }
    ensures positions { IsTrue result → positions.new ≡ set positions.old train (place_of positions.old train + count) }
    ensures taken { IsTrue result → IsSet taken.new (has_holder (moves_in moves.now) positions.new) }
{
    if train.0 >= moves.trains() {
        return false;
    }
    let from = positions[usize::from(train.0)];
    let last = moves.places(train);
    if from == 0 || usize::from(last - from) < count {
        return false;
    }
    let to = from + count as u16;
    if !is_way_free::<W>(moves, rows, train, from, to, taken) {
        return false;
    }
    let gone = rows.stand::<W>(moves, train, from);
    let come = rows.stand::<W>(moves, train, to);
    replace(taken, gone, come);
    positions[usize::from(train.0)] = to;
    true
}

/// The train needs no section of the set for its moves from the one place to the other, but those on which it stands.
fn is_way_free<W: Width>(
    moves: &Moves,
    rows: &Rows,
    train: TrainNo,
    from: u16,
    to: u16,
    taken: &[u64; WORDS],
) -> bool
    requires words { AreWords (moves_in moves.now) W.WORDS }
    requires rows { IsRowsOf (moves_in moves.now) rows.now }
    requires table { IsTable moves.now }
    requires train { train < length moves.now }
    requires from { from ≤ to }
    requires to { to ≤ (moves_in moves.now).moves train }
    ensures { IsTrue result ↔ IsWayFree (moves_in moves.now) train from to taken.now }
{
    let own = rows.stand::<W>(moves, train, from);
    if !meet_beyond(rows.rest::<W>(moves, train, from), taken, own) {
        return true;
    }
    for made in from..to {
        if meet_beyond(rows.need::<W>(moves, train, made), taken, own) {
            return false;
        }
    }
    true
}
