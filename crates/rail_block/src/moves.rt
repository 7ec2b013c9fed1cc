//! A move of a train of a plant, a step of one, and a section of its overlap.

ghost use Rattle.std.specs.Prelude.{◌≡◌, ◌-◌, ◌<◌, ◌≤◌, IsTrue};
ghost use Rattle.rail_rules.specs.Accepted.{is_accepted};
ghost use Rattle.rail_rules.specs.Plant.{claims, moves, steps, trains};

use crate::running::may_be_run;
use rail_base::TrainNo;
use rail_plan::Plant;

/// A move of a train of the plant: the plant may be run, the train is one of the plant's, and the place to
/// which the move leads is one of the train's.
#[derive(Clone, Copy)]
pub struct KnownMove<'p> {
    /// The plant.
    pub plant: &'p Plant,
    /// The train, counted from 0.
    pub train: TrainNo,
    /// The place to which the move leads, counted from 1.
    pub place: u16,
    pub ghost accepted: { IsTrue (is_accepted plant.now) },
    pub ghost known: { train < trains plant.now },
    pub ghost first: { 1 ≤ place },
    pub ghost last: { place ≤ moves plant.now train },
}

/// A step of a move.
#[derive(Clone, Copy)]
pub struct KnownStep<'m> {
    /// The move.
    pub of: &'m KnownMove<'m>,
    /// The number of the step, counted from 1.
    pub step: u16,
    pub ghost first: { 1 ≤ step },
    pub ghost last: { step ≤ steps of.now.plant.now of.now.train (of.now.place - 1) },
}

/// A section of the overlap of a move.
#[derive(Clone, Copy)]
pub struct KnownOver<'m> {
    /// The move.
    pub of: &'m KnownMove<'m>,
    /// The number of the section among those that the move claims, counted from 1: it is behind the steps.
    pub step: u16,
    pub ghost behind: { steps of.now.plant.now of.now.train (of.now.place - 1) < step },
    pub ghost last: { step ≤ claims of.now.plant.now of.now.train (of.now.place - 1) },
}

impl<'p> KnownMove<'p> {
    /// The move of the train to this place, counted from 1.
    pub fn new(plant: &'p Plant, train: TrainNo, place: u16) -> KnownMove<'p>
        requires train { train < trains plant.now }
        requires first { 1 ≤ place }
        requires last { place ≤ moves plant.now train }
        ensures plant { result.plant.now ≡ plant.now }
        ensures train { result.train ≡ train }
        ensures place { result.place ≡ place }
    {
        may_be_run(plant);
        KnownMove {
            plant,
            train,
            place,
        }
    }
}

impl<'m> KnownStep<'m> {
    /// The step of the move, counted from 1.
    pub fn new(of: &'m KnownMove<'m>, step: u16) -> KnownStep<'m>
        requires first { 1 ≤ step }
        requires last { step ≤ steps of.now.plant.now of.now.train (of.now.place - 1) }
        ensures of { result.of.now ≡ of.now }
        ensures step { result.step ≡ step }
    {
        KnownStep { of, step }
    }
}

impl<'m> KnownOver<'m> {
    /// The section of the overlap of the move, whose number is behind those of the steps.
    pub fn new(of: &'m KnownMove<'m>, step: u16) -> KnownOver<'m>
        requires behind { steps of.now.plant.now of.now.train (of.now.place - 1) < step }
        requires last { step ≤ claims of.now.plant.now of.now.train (of.now.place - 1) }
        ensures of { result.of.now ≡ of.now }
        ensures step { result.step ≡ step }
    {
        KnownOver { of, step }
    }
}
