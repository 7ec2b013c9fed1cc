//! The needs at the places from which the last search began.

ghost use Rattle.std.specs.Prelude.{◌≡◌, ◌≢◌, ℕ, ◌+◌, ◌<◌, ◌≤◌, get_or, length, set, IfOk, IsTrue};
ghost use Rattle.rail_consequence.specs.declared.tally.TheConstants.{STRIDE};
ghost use Rattle.rail_rules.specs.Places.{is_inside, place_of};
ghost use Rattle.rail_place.specs.PlaceStates.{IsMadeFor};
ghost use Rattle.rail_place.specs.Tables.{IsTable, moves_in};
ghost use Rattle.rail_consequence.specs.Needs.{AreWords, IsRowsOf, IsTallyFor};
ghost use Rattle.rail_consequence.specs.Stops.{IsNotedTo};
ghost use Rattle.rail_consequence.specs.Workspace.{IsListing};

use crate::needs::{note_move, recount};
use crate::notes::SearchNotes;
use crate::rows::Rows;
use crate::train_list::TrainList;
use crate::width::Width;
use rail_base::{OutOfMemory, TrainNo, copies};
use rail_place::{Moves, Places};
use rail_sets::Counts;
use std::alloc::Global;
use std::marker::Model;

/// So many trains are compared at once.
const STRIDE: usize = 8;

/// Places, and the needs of the moves that the trains have left there. It follows the places from one
/// search to the next, train by train.
#[derive(Debug, Drop)]
pub struct NeedTally {
    positions: Vec<u16>,
    needs: Counts,
}

impl Model for NeedTally {
    ghost use Rattle.std.specs.Prelude.{◌≡◌, length, vec_capacity};
    ghost use Rattle.rail_consequence.specs.Needs.{Placed};

    ghost Value = { Placed };

    ghost view = { λ tally. record { positions = tally.positions.items; counts = tally.needs } };

    ghost invariant = { λ tally. vec_capacity tally.positions ≡ length tally.positions.items };
}

impl NeedTally {
    /// The needs with every train outside, which are none.
    pub fn new(alloc: Global, moves: &Moves) -> Result<NeedTally, OutOfMemory>
        ensures kept { IfOk result (IsTallyFor (moves_in moves.now)) }
        ensures outside { IfOk result (λ tally. (t : ℕ) → place_of tally.positions t ≡ 0) }
    {
        let trains = usize::from(moves.trains());
        Ok(NeedTally {
            positions: copies(alloc, 0, trains, trains)?,
            needs: Counts::new(alloc)?,
        })
    }

    /// Goes over to these places with what is noted of the trains, and with the list of those that are inside. It looks for
    /// the trains that stand at other places, some at once.
    pub fn follow<W: Width>(
        &mut self,
        moves: &Moves,
        rows: &Rows,
        places: &Places,
        inside: &mut TrainList,
        notes: &mut SearchNotes,
    )
        requires words { AreWords (moves_in moves.now) W.WORDS }
        requires made { IsMadeFor moves.now places.now }
        requires rows { IsRowsOf (moves_in moves.now) rows.now }
        requires kept { IsTallyFor (moves_in moves.now) self.old }
        requires listed { IsListing (moves_in moves.now) self.old.positions inside.old }
        requires noted { IsNotedTo (moves_in moves.now) self.old.positions notes.old }
        ensures noted { IsNotedTo (moves_in moves.now) self.new.positions notes.new }
        ensures kept { IsTallyFor (moves_in moves.now) self.new }
        ensures positions { self.new.positions ≡ places.now.positions }
        ensures listed { IsListing (moves_in moves.now) self.new.positions inside.new }
    {
        let mut number = first_other(&self.positions, places.positions(), 0);
        while number < self.positions.len() {
            let train = TrainNo(number as u16);
            self.follow_train::<W>(moves, rows, train, places.position(train), notes);
            if stands_inside(moves, places, train) {
                inside.include(train);
            } else {
                inside.exclude(train);
            }
            number = first_other(&self.positions, places.positions(), number + 1);
        }
    }

    /// Goes over to this place of the train.
    pub fn follow_train<W: Width>(
        &mut self,
        moves: &Moves,
        rows: &Rows,
        train: TrainNo,
        place: u16,
        notes: &mut SearchNotes,
    )
        requires words { AreWords (moves_in moves.now) W.WORDS }
        requires table { IsTable moves.now }
        requires rows { IsRowsOf (moves_in moves.now) rows.now }
        requires train { train < length moves.now }
        requires within { place ≤ (moves_in moves.now).moves train }
        requires kept { IsTallyFor (moves_in moves.now) self.old }
        requires noted { IsNotedTo (moves_in moves.now) self.old.positions notes.old }
        ensures kept { IsTallyFor (moves_in moves.now) self.new }
        ensures positions { self.new.positions ≡ set self.old.positions train place }
        ensures noted { IsNotedTo (moves_in moves.now) self.new.positions notes.new }
    {
        let from = self.positions[usize::from(train.0)];
        note_move::<W>(notes, &self.needs, moves, rows, train, from, place);
        recount::<W>(&mut self.needs, moves, rows, train, from, place);
        self.positions[usize::from(train.0)] = place;
    }

    /// The needs at the places.
    pub fn needs(&self) -> &Counts
        ensures { result.now ≡ self.now.counts }
    {
        &self.needs
    }
}

/// The first train from this number on that stands at another place in the second list than in the first one; the number
/// of trains where there is none.
#[inline(never)]
fn first_other(positions: &[u16], others: &[u16], from: usize) -> usize
    requires same { length others.now ≡ length positions.now }
    requires from { from ≤ length positions.now }
    ensures from { from ≤ result }
    ensures bound { result ≤ length positions.now }
    ensures same { (k d : ℕ) → from ≤ k → k < result → get_or positions.now k d ≡ get_or others.now k d }
    ensures other { (d : ℕ) → result < length positions.now → get_or positions.now result d ≢ get_or others.now result d }
{
    let mut number = from;
    while number + STRIDE <= positions.len() && are_alike(positions, others, number) {
        number += STRIDE;
    }
    while number < positions.len() && positions[number] == others[number] {
        number += 1;
    }
    number
}

/// Whether so many trains from this number on stand at the same places in both lists.
fn are_alike(positions: &[u16], others: &[u16], from: usize) -> bool
    requires same { length others.now ≡ length positions.now }
    requires from { from + STRIDE ≤ length positions.now }
    ensures { IsTrue result → (k d : ℕ) → from ≤ k → k < from + STRIDE → get_or positions.now k d ≡ get_or others.now k d }
{
    let mut same = true;
    for number in from..from + STRIDE {
        same &= positions[number] == others[number];
    }
    same
}

/// The train is inside.
pub fn stands_inside(moves: &Moves, places: &Places, train: TrainNo) -> bool
    requires made { IsMadeFor moves.now places.now }
    requires train { train < length moves.now }
    ensures { result ≡ is_inside (moves_in moves.now) places.now.positions train }
{
    let place = places.position(train);
    0 < place && place < moves.places(train)
}
