//! Searches for some trains alone, with all others outside.

ghost use Rattle.std.specs.Prelude.{◌≡◌, ℕ, ◌+◌, ◌<◌, ◌≤◌, length, IfOk, IfSome, IsTrue};
ghost use Rattle.rail_base.specs.declared.limits.TheConstants.{TRAINS};
ghost use Rattle.rail_consequence.specs.AnalystStates.{IsAnalystFor};
ghost use Rattle.rail_consequence.specs.Cores.{IsCore};
ghost use Rattle.rail_place.specs.PlaceStates.{IsMadeFor};
ghost use Rattle.rail_place.specs.Tables.{moves_in};
ghost use Rattle.rail_sets.specs.TrainSets.{has_train};
ghost use Rattle.rail_cores.specs.Alones.{IsAloneFor, IsEmpty, StandAlone};

use rail_base::{OutOfMemory, TrainNo};
use rail_consequence::{Analyst, what_can_be_found_can_be_found_ahead};
use rail_place::{Moves, Places};
use rail_sets::TrainSet;
use std::alloc::Global;

/// So many trains are put together at most.
const MOST: usize = 16;

/// What searches for some trains alone. It has an analyst and places of its own.
#[derive(Debug)]
pub struct Alone {
    analyst: Analyst,
    places: Places,
}

impl Drop for Alone {
    fn drop(self) {
        let Alone {
            analyst: _analyst,
            places: _places,
        } = self;
    }
}

impl Alone {
    /// What searches so, with all the memory that it ever takes. It shares the sets of the analyst.
    pub fn new(alloc: Global, moves: &Moves, analyst: &Analyst) -> Result<Alone, OutOfMemory>
        requires own { IsAnalystFor (moves_in moves.now) analyst.now }
        ensures { IfOk result (IsAloneFor (moves_in moves.now)) }
    {
        let places = Places::outside(alloc, moves)?;
        let analyst = analyst.beside(alloc, moves)?;
        Ok(Alone { analyst, places })
    }

    /// Whether nothing is found, by at most `depth` free legs, where of all trains inside these alone are there, each where
    /// it stands. Then they are a core. It takes no memory.
    pub fn fails(&mut self, moves: &Moves, places: &Places, trains: &TrainSet, depth: u8) -> bool
        requires made { IsMadeFor moves.now places.now }
        requires own { IsAloneFor (moves_in moves.now) self.old }
        ensures own { IsAloneFor (moves_in moves.now) self.new }
        ensures core { IsTrue result → IsCore (moves_in moves.now) depth places.now.positions (has_train trains.now) }
    {
        what_can_be_found_can_be_found_ahead();
        clear(moves, &mut self.places);
        stand_alone(moves, places, trains, &mut self.places);
        !self.analyst.search(moves, &self.places, depth)
    }

    /// How many legs were made or taken back in all searches.
    pub fn legs(&self) -> u64 {
        self.analyst.legs()
    }

    /// A small core, where a search among all trains left these inside: some trains that find nothing alone. It is grown from
    /// the train: the first one joins that is in the way of the list that is found alone, or else the first of
    /// those that were left. No search is begun once so many legs were tried.
    pub fn small_core(
        &mut self,
        moves: &Moves,
        places: &Places,
        depth: u8,
        train: TrainNo,
        left: TrainSet,
        legs: u64,
    ) -> Option<TrainSet>
        requires made { IsMadeFor moves.now places.now }
        requires own { IsAloneFor (moves_in moves.now) self.old }
        requires train { train < TRAINS }
        ensures own { IsAloneFor (moves_in moves.now) self.new }
        ensures core { IfSome result (λ trains. IsCore (moves_in moves.now) depth places.now.positions (has_train trains)) }
    {
        let begun = self.legs();
        let mut trains = TrainSet::none();
        trains.insert(train);
        let mut left = left;
        for _ in 0..MOST {
            if self.fails(moves, places, &trains, depth) {
                return Some(self.thinned(moves, places, depth, trains));
            }
            if self.legs().wrapping_sub(begun) >= legs {
                return None;
            }
            let next = match self.in_the_way(moves, places, &trains) {
                Some(other) => other,
                None => first_but(&mut left, &trains)?,
            };
            trains.insert(next);
        }
        None
    }

    /// The core without each of its trains that can be left out: they are tried in turn.
    fn thinned(&mut self, moves: &Moves, places: &Places, depth: u8, core: TrainSet) -> TrainSet
        requires made { IsMadeFor moves.now places.now }
        requires own { IsAloneFor (moves_in moves.now) self.old }
        requires core { IsCore (moves_in moves.now) depth places.now.positions (has_train core) }
        ensures own { IsAloneFor (moves_in moves.now) self.new }
        ensures core { IsCore (moves_in moves.now) depth places.now.positions (has_train result) }
    {
        let mut core = core;
        let mut untried = core;
        while let Some(train) = untried.take_first() {
            let mut fewer = core;
            fewer.remove(train);
            if self.fails(moves, places, &fewer, depth) {
                core = fewer;
            }
        }
        core
    }

    /// The first train, none of these, that is in the way of the list that the last search found for them alone: it holds a
    /// section that a move of the list needs. The list is played on the own places.
    fn in_the_way(&mut self, moves: &Moves, places: &Places, trains: &TrainSet) -> Option<TrainNo>
        requires made { IsMadeFor moves.now places.now }
        requires own { IsAloneFor (moves_in moves.now) self.old }
        ensures own { IsAloneFor (moves_in moves.now) self.new }
        ensures known { IfSome result (λ other. other < TRAINS) }
    {
        let list = self.analyst.list();
        first_in_the_way(moves, places, list, &mut self.places, trains)
    }
}

/// The first train of the set that is none of these; it is taken out of the set with those before it.
fn first_but(trains: &mut TrainSet, others: &TrainSet) -> Option<TrainNo>
    ensures { IfSome result (λ train. train < TRAINS) }
{
    while let Some(train) = trains.take_first() {
        if !others.has(train) {
            return Some(train);
        }
    }
    None
}

/// The first train, none of these, that holds on the first places a section that a move of the list needs. The list is
/// played on the second ones, as far as its moves are legal there.
fn first_in_the_way(
    moves: &Moves,
    places: &Places,
    list: &[TrainNo],
    played: &mut Places,
    trains: &TrainSet,
) -> Option<TrainNo>
    requires made { IsMadeFor moves.now places.now }
    requires played { IsMadeFor moves.now played.old }
    ensures played { IsMadeFor moves.now played.new }
    ensures known { IfSome result (λ other. other < TRAINS) }
{
    for train in list {
        if train.0 >= moves.trains() || played.legal(moves, *train).is_err() {
            return None;
        }
        let place = played.position(*train);
        if let Some(other) = first_holder_but(moves, places, *train, place + 1, trains) {
            return Some(other);
        }
        played.advance(moves, *train);
    }
    None
}

/// The first train, none of these, that holds a section that the train's move to the place needs.
fn first_holder_but(
    moves: &Moves,
    places: &Places,
    train: TrainNo,
    place: u16,
    trains: &TrainSet,
) -> Option<TrainNo>
    requires made { IsMadeFor moves.now places.now }
    requires train { train < length moves.now }
    requires first { 1 ≤ place }
    requires last { place ≤ (moves_in moves.now).moves train }
    ensures { IfSome result (λ other. other < TRAINS) }
{
    for section in moves.claim(train, place) {
        if let Some(holder) = places.holder(*section) {
            if !trains.has(holder) {
                return Some(holder);
            }
        }
    }
    None
}

/// Puts each train outside.
fn clear(moves: &Moves, places: &mut Places)
    requires made { IsMadeFor moves.now places.old }
    ensures made { IsMadeFor moves.now places.new }
    ensures empty { IsEmpty places.new.positions }
{
    for number in 0..moves.trains() {
        let train = TrainNo(number);
        if places.position(train) > 0 {
            places.put(moves, train, 0);
        }
    }
}

/// Puts these trains where they stand on the first places, on the second ones, on which all are outside.
fn stand_alone(moves: &Moves, from: &Places, trains: &TrainSet, to: &mut Places)
    requires from { IsMadeFor moves.now from.now }
    requires made { IsMadeFor moves.now to.old }
    requires empty { IsEmpty to.old.positions }
    ensures made { IsMadeFor moves.now to.new }
    ensures alone { StandAlone trains.now from.now.positions to.new.positions }
{
    for number in 0..moves.trains() {
        let train = TrainNo(number);
        if trains.has(train) {
            let place = from.position(train);
            to.put(moves, train, place);
        }
    }
}
