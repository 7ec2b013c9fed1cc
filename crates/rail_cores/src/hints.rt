//! Small cores of searches that failed before: by train, and the last one for all.

ghost use Rattle.std.specs.Prelude.{◌<◌};
ghost use Rattle.rail_base.specs.declared.limits.TheConstants.{TRAINS};

use rail_base::limits::TRAINS;
use rail_base::{OutOfMemory, TrainNo, copies};
use rail_sets::TrainSet;
use std::alloc::Global;
use std::marker::Model;

/// For each train the small core of its last search that failed, if one was found, and that of the last search of any train.
/// They are asked for first where a train searches again: that they were cores does not say that they are.
#[derive(Debug, Drop)]
pub struct Hints {
    own: Vec<TrainSet>,
    last: TrainSet,
}

impl Model for Hints {
    ghost use Rattle.std.specs.Prelude.{◌≡◌, List, length, vec_capacity};
    ghost use Rattle.rail_base.specs.declared.limits.TheConstants.{TRAINS};
    ghost use Rattle.rail_sets.specs.declared.train_set.TrainSet.{TrainSet};

    ghost Value = { List TrainSet };

    ghost view = { λ hints. hints.own.items };

    ghost invariant = { λ hints. (length hints.own.items ≡ TRAINS) × (vec_capacity hints.own ≡ TRAINS) };
}

impl Hints {
    /// No hints, with all the memory that they ever take.
    pub fn new(alloc: Global) -> Result<Hints, OutOfMemory> {
        Ok(Hints {
            own: copies(alloc, TrainSet::none(), TRAINS, TRAINS)?,
            last: TrainSet::none(),
        })
    }

    /// The train's own hint, if it has one.
    pub fn own(&self, train: TrainNo) -> Option<TrainSet>
        requires { train < TRAINS }
    {
        some_trains(self.own[usize::from(train.0)])
    }

    /// The last hint of any train, with this train in it, if there is one.
    pub fn last_with(&self, train: TrainNo) -> Option<TrainSet>
        requires { train < TRAINS }
    {
        let mut trains = some_trains(self.last)?;
        trains.insert(train);
        Some(trains)
    }

    /// These trains are the hint of the train from now on.
    pub fn keep(&mut self, train: TrainNo, trains: TrainSet)
        requires { train < TRAINS }
    {
        self.own[usize::from(train.0)] = trains;
    }

    /// These trains are the last hint of any train, but for this one, in whose place another one will ask.
    pub fn share(&mut self, train: TrainNo, trains: TrainSet)
        requires { train < TRAINS }
    {
        let mut others = trains;
        others.remove(train);
        self.last = others;
    }

    /// The train has no hint of its own any more.
    pub fn drop_own(&mut self, train: TrainNo)
        requires { train < TRAINS }
    {
        self.own[usize::from(train.0)] = TrainSet::none();
    }

    /// There is no last hint any more.
    pub fn drop_last(&mut self) {
        self.last = TrainSet::none();
    }
}

/// The trains, where there are any.
fn some_trains(trains: TrainSet) -> Option<TrainSet> {
    trains.first_from(0)?;
    Some(trains)
}
