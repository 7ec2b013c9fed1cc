//! The calls of a timetable, by train and place.

ghost use Rattle.std.specs.Prelude.{◌≡◌, ℕ, ◌-◌, ◌==◌, ◌<◌, ◌≤◌, [], length, get_or, is_some, map, replicate, Option, Some, None, IsTrue, IfOk};
ghost use Rattle.std.specs.Global.{Vec};
ghost use Rattle.rail_base.specs.declared.plant.Call.{Call};
ghost use Rattle.rail_base.specs.declared.plant.Tables.{Tables};
ghost use Rattle.rail_base.specs.declared.plant.TrainRow.{TrainRow};
ghost use Rattle.rail_rules.specs.Plant.{move_row, moves};
ghost use Rattle.rail_rules.specs.Accepted.{is_call_in_range};
ghost use Rattle.rail_rules.specs.RunHistories.{call_arrival, call_departure};
ghost use Rattle.rail_plan.specs.PlanFaults.{bare};
ghost use Rattle.rail_plan.specs.CallTables.{AreCallsFor, call_at, departure_within, no_calls, with_call};

use crate::plant::Plant;
use rail_base::{Call, OutOfMemory, Time, TrainNo, TrainRow};
use std::alloc::{AllocError, Global};
use std::marker::Model;

/// The calls of the trains at the places of their itineraries, one at most for each train and place.
/// Contracts see them as a list for each train, with room for a call at each of its places.
#[derive(Debug)]
pub struct Calls {
    rows: Vec<Vec<Option<Call>>>,
    /// For each train the last place with a departure, counted from 1, and 0 where there is none: no place behind it is
    /// looked at for one.
    lasts: Vec<u16>,
}

impl Drop for Calls {
    fn drop(self) {
        let Calls {
            rows: _rows,
            lasts: _lasts,
        } = self;
    }
}

impl Model for Calls {
    ghost use Rattle.std.specs.Prelude.{List, Option, map};
    ghost use Rattle.rail_base.specs.declared.plant.Call.{Call};

    ghost Value = { List (List (Option Call)) };

    ghost view = { λ calls. map (λ row. row.items) calls.rows.items };

    ghost use Rattle.rail_plan.specs.CallTables.{AreLasts};

    ghost invariant = { λ calls. AreLasts (map (λ row. row.items) calls.rows.items) calls.lasts.items };
}

impl Calls {
    /// No call yet, with room for one at each place of each train of the plant.
    pub fn new(alloc: Global, plant: &Plant) -> Result<Calls, OutOfMemory>
        ensures empty { IfOk result (λ calls. calls ≡ no_calls plant.now.tables) }
        ensures free { IfOk result (λ calls. (t place : ℕ) → call_at calls t place ≡ None) }
        ensures made { IfOk result (AreCallsFor plant.now.tables) }
    {
        let rows = rooms_of(alloc, plant.trains())?;
        let lasts = vec![in alloc; 0; rows.len()]?;
        Ok(Calls { rows, lasts })
    }

    /// No calls and no room for any, as a plant has them that was not given calls. It takes no memory.
    pub(crate) fn none(alloc: Global) -> Calls
        ensures { result ≡ [] }
    {
        Calls {
            rows: Vec::new(alloc),
            lasts: Vec::new(alloc),
        }
    }

    /// Gives the train this call at this place, which counts from 1. It takes no memory.
    ///
    /// Calls that were made for a plant stay so where the call may stand at its place: its times and its
    /// dwell are within the limit of an input; one that does not stop has no dwell; at the last place it
    /// does not stop and has no departure; at a place with a turn it stops.
    pub fn set(&mut self, train: TrainNo, place: u16, call: Call)
        requires train { train < length self.old }
        requires first { 1 ≤ place }
        requires last { place ≤ length (get_or self.old train []) }
        requires free { call_at self.old train place ≡ None }
        ensures set { self.new ≡ with_call self.old train place call }
        ensures made { (tables : Tables) → AreCallsFor tables self.old
            → IsTrue (is_call_in_range (place == moves (bare tables) train)
            (is_some (move_row (bare tables) train (place - 1)).turn) (Some call))
            → AreCallsFor tables self.new }
    {
        let row = &mut self.rows[usize::from(train.0)];
        row[usize::from(place) - 1] = Some(call);
        let reached = if call.departure.is_some() { place } else { 0 };
        let last = &mut self.lasts[usize::from(train.0)];
        *last = reached.max(*last);
    }

    /// The call of the train at the place, which counts from 1.
    pub fn at(&self, train: TrainNo, place: u16) -> Option<Call>
        requires { 1 ≤ place }
        ensures { result ≡ call_at self.now train place }
    {
        let row = self.rows.get(usize::from(train.0))?;
        row.get(usize::from(place) - 1).copied().flatten()
    }

    /// The departure of the first of the train's calls that has one, at the places from the one to that
    /// before the other. Places behind the last one with a departure are not looked at.
    pub(crate) fn first_departure(&self, train: TrainNo, from: u16, to: u16) -> Option<Time>
        requires { 1 ≤ from }
        ensures { result ≡ departure_within self.now train (from - 1) (to - from) }
    {
        if usize::from(train.0) >= self.rows.len() {
            return None;
        }
        let last = self.lasts[usize::from(train.0)];
        for place in from..to {
            if last < place {
                return None;
            }
            let departure = self.departure(train, place);
            if departure.is_some() {
                return departure;
            }
        }
        None
    }

    /// The departure of the train's call at the place.
    fn departure(&self, train: TrainNo, place: u16) -> Option<Time>
        requires { 1 ≤ place }
        ensures { result ≡ call_departure (call_at self.now train place) }
    {
        self.at(train, place)?.departure
    }

    /// The arrival of the train's call at the place.
    pub(crate) fn arrival(&self, train: TrainNo, place: u16) -> Option<Time>
        requires { 1 ≤ place }
        ensures { result ≡ call_arrival (call_at self.now train place) }
    {
        self.at(train, place)?.arrival
    }
}

/// Room for a call at each place of each train.
fn rooms_of(alloc: Global, trains: &[TrainRow]) -> Result<Vec<Vec<Option<Call>>>, AllocError>
    ensures { IfOk result (λ rooms. map (λ (room : Vec (Option Call)). room.items) rooms.items
        ≡ map (λ (row : TrainRow). replicate (length row.moves) None) trains.now) }
{
    let mut rooms = Vec::new(alloc);
    for train in trains {
        rooms.push(room_for(alloc, train)?)?;
    }
    Ok(rooms)
}

/// Room for a call at each place of the train.
fn room_for(alloc: Global, train: &TrainRow) -> Result<Vec<Option<Call>>, AllocError>
    ensures { IfOk result (λ room. room.items ≡ replicate (length train.now.moves) None) }
{
    vec![in alloc; None; train.moves.as_slice().len()]
}
