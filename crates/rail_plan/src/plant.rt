//! A plant that may be run: its tables, moves and calls.

ghost use Rattle.std.specs.Prelude.{◌≡◌, ◌-◌, ◌<◌, ◌≤◌, [], length, map, None, IsTrue, IfOk, IfErr, OnOk};
ghost use Rattle.rail_base.specs.declared.limits.TheConstants.{COMMANDS, ITINERARY_ROUTES, SECTIONS, TRAINS};
ghost use Rattle.rail_base.specs.declared.plant.SectionRow.{SectionRow};
ghost use Rattle.rail_base.specs.declared.plant.TrainRow.{TrainRow};
ghost use Rattle.rail_rules.specs.Plant.{bound, call_after, move_row, moves, moves_of, section, train, trains};
ghost use Rattle.rail_rules.specs.Accepted.{is_accepted, is_move_in_range};
ghost use Rattle.rail_rules.specs.RunHistories.{due};
ghost use Rattle.rail_place.specs.Tables.{moves_in};
ghost use Rattle.rail_plan.specs.PlanFaults.{IsAnswer, IsPlannable, bare, fault_of};
ghost use Rattle.rail_plan.specs.CallTables.{AreCallsFor, with_calls};
ghost use Rattle.rail_plan.specs.MoveTables.{table_of};

use crate::bounds::event_bound;
use crate::calls::Calls;
use crate::faults::PlanFault;
use crate::making::{moves_of, names_of};
use crate::rows::{move_row, section_row, train_row};
use rail_base::{Call, MoveRow, Names, SectionNo, SectionRow, Tables, Time, TrainNo, TrainRow};
use rail_place::Moves;
use std::alloc::Global;
use std::marker::Model;

/// A plant that may be run: the numbers of its sections and trains, and the calls of a timetable.
/// Sections and trains count from 0, places and moves from 1: move `i` leads to place `i`.
pub struct Plant {
    tables: Tables,
    calls: Calls,
    names: Names,
    moves: Moves,
}

impl Drop for Plant {
    fn drop(self) {
        let Plant {
            tables: _tables,
            calls: _calls,
            names: _names,
            moves: _moves,
        } = self;
    }
}

impl Model for Plant {
    ghost use Rattle.rail_rules.specs.Plant.{Plant};

    ghost Value = { Plant };

    ghost view = { λ plant. record { tables = plant.tables; calls = plant.calls } };

    ghost use Rattle.rail_plan.specs.PlantFields.{IsPlantInside};

    ghost invariant = { λ plant. IsPlantInside plant.names.sections.keys plant.names.trains.keys plant.moves plant.tables plant.calls };
}

impl Plant {
    /// The plant of the tables, without calls.
    ///
    /// It is refused, train by train and place by place before the last, by the first of these that
    /// holds: as too long, where the train is longer than the sections of the route that leads to the
    /// place; as self-blocked, where the train would stand there on a section that its next move claims.
    pub fn new(alloc: Global, tables: Tables) -> Result<Plant, PlanFault>
        requires { IsPlannable tables }
        ensures accepted { OnOk result (fault_of tables ≡ None) }
        ensures spelled { IfOk result (λ plant. plant ≡ bare tables) }
        ensures valid { IfOk result (λ plant. IsTrue (is_accepted plant)) }
        ensures refused { IfErr result (IsAnswer (fault_of tables)) }
    {
        let moves = moves_of(alloc, &tables)?;
        let names = names_of(alloc, &tables)?;
        Ok(Plant {
            tables,
            calls: Calls::none(alloc),
            names,
            moves,
        })
    }

    /// The same plant with these calls, which were made for it, in place of those that it has. It takes
    /// no memory.
    pub fn with_calls(self, calls: Calls) -> Plant
        requires { AreCallsFor self.tables calls }
        ensures calls { result ≡ with_calls self.tables calls }
        ensures valid { IsTrue (is_accepted result) }
    {
        let Plant {
            tables,
            calls: _,
            names,
            moves,
        } = self;
        Plant {
            tables,
            calls,
            names,
            moves,
        }
    }

    /// The tables and the moves. It takes no memory.
    pub fn into_parts(self) -> (Tables, Moves)
        ensures tables { result.0 ≡ self.tables }
        ensures moves { result.1 ≡ table_of self.tables }
        ensures plannable { IsPlannable self.tables }
    {
        let Plant {
            tables,
            calls: _,
            names: _,
            moves,
        } = self;
        (tables, moves)
    }

    /// The names of the sections and of the trains, in the order of their numbers.
    pub fn names(&self) -> &Names
        ensures sections { result.now.sections.keys ≡ map (λ (row : SectionRow). row.name) self.now.tables.sections }
        ensures trains { result.now.trains.keys ≡ map (λ (row : TrainRow). row.name) self.now.tables.trains }
        ensures few_sections { length result.now.sections.keys ≤ SECTIONS }
        ensures few_trains { length result.now.trains.keys ≤ TRAINS }
    {
        &self.names
    }

    /// The moves of the trains: the sections that each claims, and where the train stands after it.
    pub fn moves(&self) -> &Moves
        ensures moves { moves_in result.now ≡ moves_of self.now }
        ensures trains { length result.now ≡ trains self.now }
        ensures accepted { IsTrue (is_accepted self.now) }
    {
        &self.moves
    }

    /// The trains in the order of their numbers.
    pub(crate) fn trains(&self) -> &[TrainRow]
        ensures rows { result.now ≡ self.now.tables.trains }
        ensures accepted { IsTrue (is_accepted self.now) }
    {
        self.tables.trains.as_slice()
    }

    /// The train of this number.
    pub fn train(&self, number: TrainNo) -> &TrainRow
        requires { number < trains self.now }
        ensures row { result.now ≡ train self.now number }
        ensures few { length result.now.moves ≤ ITINERARY_ROUTES }
    {
        train_row(&self.tables, number)
    }

    /// The section of this number.
    pub fn section(&self, number: SectionNo) -> &SectionRow
        requires { number < length self.now.tables.sections }
        ensures { result.now ≡ section self.now number }
    {
        section_row(&self.tables, number)
    }

    /// The move of the train that leads to this place.
    pub fn move_row(&self, train: TrainNo, place: u16) -> &MoveRow
        requires train { train < trains self.now }
        requires first { 1 ≤ place }
        requires last { place ≤ moves self.now train }
        ensures row { result.now ≡ move_row self.now train (place - 1) }
        ensures fine { IsTrue (is_move_in_range (length self.now.tables.sections) result.now) }
    {
        move_row(&self.tables, train, place)
    }

    /// The call of the train at this place, where there is one.
    pub fn call(&self, train: TrainNo, place: u16) -> Option<Call>
        requires train { train < trains self.now }
        requires first { 1 ≤ place }
        requires last { place ≤ moves self.now train }
        ensures { result ≡ call_after self.now train (place - 1) }
    {
        self.calls.at(train, place)
    }

    /// Release time in tenths of a second, one for the whole plant.
    pub fn release(&self) -> u32
        ensures { result ≡ self.now.tables.release }
    {
        self.tables.release
    }

    /// How long after its arrival a train still holds the overlap of a route, in tenths of a second, one for the whole plant.
    pub fn overlap_time(&self) -> u32
        ensures { result ≡ self.now.tables.overlap_time }
    {
        self.tables.overlap_time
    }

    /// The greatest number of free legs in a list that the analysis looks for.
    pub fn depth(&self) -> u8
        ensures { result ≡ self.now.tables.depth }
    {
        self.tables.depth
    }

    /// When the train's move that leads to this place is due: the first move when the train enters; each
    /// other one at the next departure of its calls from the place before on; else at the arrival of its
    /// call at its last place; else when it enters.
    pub fn due(&self, train: TrainNo, place: u16) -> Time
        requires train { train < trains self.now }
        requires first { 1 ≤ place }
        requires last { place ≤ moves self.now train }
        ensures { result ≡ due self.now train (place - 1) }
    {
        let row = train_row(&self.tables, train);
        if place == 1 {
            return row.entry;
        }
        let last = row.moves.as_slice().len() as u16;
        self.calls
            .first_departure(train, place - 1, last)
            .or(self.calls.arrival(train, last))
            .unwrap_or(row.entry)
    }

    /// How many lines a history of the plant has at most, hold lines aside, where there are so many
    /// commands.
    pub fn event_bound(&self, commands: u64) -> u64
        requires { commands ≤ COMMANDS }
        ensures { result ≡ bound self.now commands }
    {
        event_bound(&self.tables, commands)
    }
}
