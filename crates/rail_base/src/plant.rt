//! The plain data of a plant: its sections, its trains with their kinds and moves, and the calls of a timetable.

use crate::numbers::{SectionNo, Time};
use crate::sequence::Seq;
use crate::shared::Shared;
use crate::text::Name;

/// The numbers of a plant: its sections and its trains with their moves, in the order of the scene.
#[derive(Debug)]
pub struct Tables {
    pub sections: Seq<SectionRow>,
    /// Release time in tenths of a second, one for the whole plant.
    pub release: u32,
    /// How long after its arrival a train still holds the overlap of a route, in tenths of a second, one for the whole plant.
    pub overlap_time: u32,
    /// The greatest number of free legs in a list that the analysis looks for.
    pub depth: u8,
    pub trains: Seq<TrainRow>,
}

impl Drop for Tables {
    fn drop(self) {
        let Tables {
            sections: _sections,
            release: _release,
            overlap_time: _overlap_time,
            depth: _depth,
            trains: _trains,
        } = self;
    }
}

/// A track section.
#[derive(Clone, Copy, Debug, PartialEq, Eq)]
pub struct SectionRow {
    pub name: Name,
    /// Metres.
    pub length: u32,
    /// Permitted speed in km/h.
    pub speed: u32,
}

/// A train with its moves in order, one for each route of its itinerary. Trains with the same itinerary may share them.
#[derive(Debug)]
pub struct TrainRow {
    pub name: Name,
    pub kind: TrainKind,
    /// When the head passes the entry portal, if nothing holds the train.
    pub entry: Time,
    /// 0 is the most important.
    pub priority: u8,
    pub moves: Shared<MoveRow>,
}

impl Drop for TrainRow {
    fn drop(self) {
        let TrainRow {
            name: _,
            kind: _,
            entry: _,
            priority: _,
            moves: _moves,
        } = self;
    }
}

/// What the trains of one kind have in common.
#[derive(Clone, Copy, Debug, PartialEq, Eq)]
pub struct TrainKind {
    pub name: Name,
    /// Metres.
    pub length: u32,
    /// Greatest speed in km/h.
    pub speed: u32,
    /// Start supplement in tenths of a second: lost by a start from a stand.
    pub start: u32,
    /// Stop supplement in tenths of a second: lost by braking to a stand.
    pub stop: u32,
}

/// A move: a route, from the post at which it begins.
#[derive(Debug)]
pub struct MoveRow {
    /// The needed sections in route order.
    pub sections: Seq<SectionNo>,
    /// The sections of the route's overlap in order: beyond its end, and held together with the route.
    pub overlap: Seq<SectionNo>,
    /// Time for clearing the signal, in tenths of a second.
    pub setting: u32,
    /// Signal watching time, in tenths of a second.
    pub watching: u32,
    /// Approach time of a train that passes, in tenths of a second.
    pub approach: u32,
    /// The turn at the end of the move, where there is one.
    pub turn: Option<TurnRow>,
}

impl Drop for MoveRow {
    fn drop(self) {
        let MoveRow {
            sections: _sections,
            overlap: _overlap,
            setting: _,
            watching: _,
            approach: _,
            turn: _,
        } = self;
    }
}

/// A change of direction at the end of a move.
#[derive(Clone, Copy, Debug, PartialEq, Eq)]
pub struct TurnRow {
    /// The step of the move, counted from 1, from whose entering joint the train leaves again.
    pub step: u16,
    /// Least standing time for the turn, in tenths of a second.
    pub time: u32,
}

/// A call of a train at a place of its itinerary. A call that does not stop holds no train.
#[derive(Clone, Copy, Debug, PartialEq, Eq)]
pub struct Call {
    pub stops: bool,
    pub arrival: Option<Time>,
    /// Before this the train does not leave a stop.
    pub departure: Option<Time>,
    /// Least standing time at a stop, in tenths of a second.
    pub dwell: u32,
}
