//! The kept list and its runs: each is looked at by itself, and the look is counted.

ghost use Rattle.std.specs.Prelude.{◌≡◌, ◌+◌, ◌-◌, ◌^◌, ◌<◌, ◌≤◌, ◌++◌, [], drop, length, min, replicate, slice_index, IfOk};
ghost use Rattle.std.specs.List.{remove};
ghost use Rattle.rail_rules.specs.Numbers.{sum_below};
ghost use Rattle.rail_place.specs.Tables.{moves_in};
ghost use Rattle.rail_list.specs.KeptLists.{HasRoomFor, before_first};

use crate::entries::make_room;
use crate::runs::{add_run, close_gap, count_runs, fit, pass_on};
use rail_base::{OutOfMemory, TrainNo, add_copies, replace_rows};
use rail_place::Moves;
use std::alloc::Global;
use std::marker::Model;

/// A list of moves by their trains, in the order in which they are made. Trains count from 0. It has
/// room for the moves for which it was made, so that no repair takes memory.
///
/// A run of entries of one train that stand side by side is looked at by itself, and each look is counted, so that a
/// contract can say how much of the list a repair saw. The whole list is seen by its reader alone.
#[derive(Debug)]
pub struct KeptList {
    /// The list, from `front` on.
    trains: Vec<TrainNo>,
    /// For each entry of how many entries side by side, all of its train, it is known to be the first: 1 or more.
    runs: Vec<u16>,
    front: usize,
    /// For how many entries memory was taken.
    room: usize,
    looked: u64,
    /// The last train inside that needed what an entering one would have stood on; at first any.
    pub(crate) needer: TrainNo,
}

/// Entries of one train that stand side by side.
#[derive(Clone, Copy, Debug)]
pub struct Run {
    pub train: TrainNo,
    /// How many they are.
    pub count: u16,
}

/// With it whoever made a kept list reads it as a whole. A repair has none: it sees the runs that it looks at.
#[derive(Debug, Drop)]
pub struct Reader {
    /// Only `KeptList::new` makes one.
    _made: (),
}

impl Drop for KeptList {
    fn drop(self) {
        let KeptList {
            trains: _trains,
            runs: _runs,
            front: _front,
            room: _room,
            looked: _looked,
            needer: _,
        } = self;
    }
}

impl Model for KeptList {
    ghost use Rattle.std.specs.Prelude.{drop, vec_capacity};
    ghost use Rattle.rail_list.specs.KeptLists.{IsKeptIn, Kept};

    ghost Value = { Kept };

    ghost view = { λ kept. record { trains = drop kept.front kept.trains.items; room = kept.room; looked = kept.looked } };

    ghost invariant = { λ kept.
        IsKeptIn kept.trains.items kept.runs.items kept.front kept.room (vec_capacity kept.trains) (vec_capacity kept.runs) };
}

impl KeptList {
    /// An empty list, with room for all moves of all trains, and its reader.
    pub fn new(alloc: Global, moves: &Moves) -> Result<(KeptList, Reader), OutOfMemory>
        ensures trains { IfOk result (λ made. made.0.trains ≡ []) }
        ensures made { IfOk result (λ made. HasRoomFor moves.now made.0) }
        ensures looked { IfOk result (λ made. made.0.looked ≡ 0) }
    {
        let room = moves_of_all(moves);
        let kept = KeptList {
            trains: Vec::with_capacity(alloc, room)?,
            runs: Vec::with_capacity(alloc, room)?,
            front: 0,
            room,
            looked: 0,
            needer: TrainNo(0),
        };
        Ok((kept, Reader { _made: () }))
    }

    /// How many looks at its runs there were; it stays at 2^64 - 1 once there.
    pub fn looked(&self) -> u64
        ensures { result ≡ self.now.looked }
    {
        self.looked
    }

    /// How many entries there are.
    pub(crate) fn len(&self) -> usize
        ensures { result ≡ length self.now.trains }
    {
        self.trains.len() - self.front
    }

    /// The run that begins with the entry before which so many stand, or a part of it. The look is counted.
    pub(crate) fn look(&mut self, before: usize) -> Run
        requires { before < length self.old.trains }
        ensures train { result.train ≡ slice_index self.old.trains before }
        ensures some { 1 ≤ result.count }
        ensures run { drop before self.old.trains ≡ replicate result.count result.train ++ drop (before + result.count) self.old.trains }
        ensures trains { self.new.trains ≡ self.old.trains }
        ensures room { self.new.room ≡ self.old.room }
        ensures looked { self.new.looked ≡ min (self.old.looked + 1) (2 ^ 64 - 1) }
    {
        self.looked = self.looked.saturating_add(1);
        let index = self.front + before;
        Run {
            train: self.trains[index],
            count: self.runs[index],
        }
    }

    /// Takes out the train's first entry, before which so many stand. These are moved back by one place.
    pub(crate) fn take_out(&mut self, before: usize)
        requires within { before < length self.old.trains }
        requires first { before ≡ length (before_first (slice_index self.old.trains before) self.old.trains) }
        ensures trains { self.new.trains ≡ remove self.old.trains before }
        ensures room { self.new.room ≡ self.old.room }
        ensures looked { self.new.looked ≡ self.old.looked }
    {
        pass_on(&self.trains, &mut self.runs, self.front, before);
        close_gap(&mut self.trains, &mut self.runs, self.front, before);
        self.front += 1;
    }

    /// Adds so many entries of the train at the end.
    pub(crate) fn add(&mut self, train: TrainNo, count: u16)
        requires { length self.old.trains + count ≤ self.old.room }
        ensures trains { self.new.trains ≡ self.old.trains ++ replicate count train }
        ensures room { self.new.room ≡ self.old.room }
        ensures looked { self.new.looked ≡ self.old.looked }
    {
        self.front = make_room(&mut self.trains, &mut self.runs, self.front, count);
        add_copies(&mut self.trains, train, usize::from(count));
        add_run(&mut self.runs, count);
    }

    /// The list is then this one.
    pub fn replace(&mut self, list: &[TrainNo])
        requires { length list.now ≤ self.old.room }
        ensures trains { self.new.trains ≡ list.now }
        ensures room { self.new.room ≡ self.old.room }
        ensures looked { self.new.looked ≡ self.old.looked }
    {
        replace_rows(&mut self.trains, list);
        fit(&mut self.runs, list.len());
        count_runs(list, &mut self.runs);
        self.front = 0;
    }

    /// The list as a whole.
    pub fn as_slice(&self, _reader: &Reader) -> &[TrainNo]
        ensures { result.now ≡ self.now.trains }
    {
        &self.trains[self.front..]
    }
}

/// How many moves all trains have.
fn moves_of_all(moves: &Moves) -> usize
    ensures sum { result ≡ sum_below (moves_in moves.now).moves (length moves.now) }
{
    let mut sum = 0;
    for number in 0..moves.trains() {
        sum += usize::from(moves.places(TrainNo(number)));
    }
    sum
}
