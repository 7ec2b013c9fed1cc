//! A list of trains by number.

ghost use Rattle.std.specs.Prelude.{◌≡◌, ℕ, ◌<◌, ◌≤◌, ◌&&◌, ◌||◌, ◌==◌, [], not, get_or, length, IfOk, IsTrue};
ghost use Rattle.std.specs.List.Sorted.{IsStrictlyIncreasing};
ghost use Rattle.rail_base.specs.declared.limits.TheConstants.{TRAINS};
ghost use Rattle.rail_rules.specs.Numbers.{is_in};
ghost use Rattle.rail_sets.specs.TrainSets.{has_train};

use rail_base::limits::TRAINS;
use rail_base::{OutOfMemory, TrainNo};
use rail_sets::TrainSet;
use std::alloc::Global;
use std::marker::Model;

/// Trains by number, each of them once.
#[derive(Debug, Drop)]
pub struct TrainList {
    trains: Vec<TrainNo>,
    /// The same trains.
    set: TrainSet,
}

impl Model for TrainList {
    ghost use Rattle.std.specs.Prelude.{◌≡◌, ℕ, List, ◌<◌, vec_capacity};
    ghost use Rattle.std.specs.List.{All};
    ghost use Rattle.std.specs.List.Sorted.{IsStrictlyIncreasing};
    ghost use Rattle.rail_base.specs.declared.limits.TheConstants.{TRAINS};
    ghost use Rattle.rail_rules.specs.Numbers.{is_in};
    ghost use Rattle.rail_sets.specs.TrainSets.{has_train};

    ghost Value = { List ℕ };

    ghost view = { λ list. list.trains.items };

    ghost invariant = { λ list. IsStrictlyIncreasing list.trains.items × All (λ t. t < TRAINS) list.trains.items × (vec_capacity list.trains ≡ TRAINS)
        × ((t : ℕ) → has_train list.set t ≡ is_in t list.trains.items) };
}

impl TrainList {
    /// No trains, with all the memory that the list ever takes.
    pub fn new(alloc: Global) -> Result<TrainList, OutOfMemory>
        ensures { IfOk result (λ list. list ≡ []) }
    {
        Ok(TrainList {
            trains: Vec::with_capacity(alloc, TRAINS)?,
            set: TrainSet::none(),
        })
    }

    /// The trains of the list.
    pub fn as_slice(&self) -> &[TrainNo]
        ensures { result.now ≡ self.now }
    {
        self.trains.as_slice()
    }

    /// The trains of the list as a set.
    pub fn set(&self) -> TrainSet
        ensures { (t : ℕ) → has_train result t ≡ is_in t self.now }
    {
        self.set
    }

    /// Puts the train into the list, where it isn't there.
    pub fn include(&mut self, train: TrainNo)
        requires { train < TRAINS }
        ensures { (u : ℕ) → is_in u self.new ≡ (u == train || is_in u self.old) }
    {
        let position = position_in(&self.trains, train);
        if position == self.trains.len() || self.trains[position] != train {
            self.trains.insert(position, train).unwrap();
            self.set.insert(train);
        }
    }

    /// Takes the train out of the list, where it is there.
    pub fn exclude(&mut self, train: TrainNo)
        ensures { (u : ℕ) → is_in u self.new ≡ (not (u == train) && is_in u self.old) }
    {
        let position = position_in(&self.trains, train);
        if position < self.trains.len() && self.trains[position] == train {
            self.trains.remove(position);
            self.set.remove(train);
        }
    }
}

/// The trains as a set.
pub fn all_of(trains: &[TrainNo]) -> TrainSet
    requires { (t : ℕ) → IsTrue (is_in t trains.now) → t < TRAINS }
    ensures { (t : ℕ) → has_train result t ≡ is_in t trains.now }
{
    let mut set = TrainSet::none();
    insert_each(&mut set, trains);
    set
}

/// Puts each of the trains into the set.
pub fn insert_each(set: &mut TrainSet, trains: &[TrainNo])
    requires { (t : ℕ) → IsTrue (is_in t trains.now) → t < TRAINS }
    ensures { (t : ℕ) → has_train set.new t ≡ (is_in t trains.now || has_train set.old t) }
{
    for train in trains {
        set.insert(*train);
    }
}

/// The position of the first train whose number is not below this one, counted from 0; that behind the last train where there
/// is none. It is sought from the end, since trains that enter have later numbers, mostly.
fn position_in(trains: &[TrainNo], train: TrainNo) -> usize
    requires sorted { IsStrictlyIncreasing trains.now }
    ensures bound { result ≤ length trains.now }
    ensures front { (k d : ℕ) → k < result → get_or trains.now k d < train }
    ensures here { (d : ℕ) → result < length trains.now → train ≤ get_or trains.now result d }
{
    for position in (0..trains.len()).rev() {
        let other = trains[position];
        if other.0 < train.0 {
            return position + 1;
        }
    }
    0
}
