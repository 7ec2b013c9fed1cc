//! The intervals of a stairway, all together.

ghost use Rattle.std.specs.Prelude.{◌≡◌, ◌+◌, ◌<◌, ◌++◌, length, map, IfOk, OnOk};
ghost use Rattle.rail_base.specs.declared.limits.TheConstants.{OVERLAP_SECTIONS, ROUTE_SECTIONS};
ghost use Rattle.rail_rules.specs.Fronts.{Front};
ghost use Rattle.rail_rules.specs.Plant.{Plant, claims, trains};
ghost use Rattle.rail_stairs.specs.NotedHistories.{AreNoted, IsNoted};
ghost use Rattle.rail_stairs.specs.Journeys.{AreAllAdmissible, before_train};
ghost use Rattle.rail_stairs.specs.JourneyTrains.{admissions_in, of_train};
ghost use Rattle.rail_stairs.specs.Stairways.{ended_by, move_intervals, stairway, step_intervals, train_intervals};

use crate::journey::Journey;
use crate::stairs::Stairs;
use rail_base::{Interval, OutOfMemory, Time, TrainNo};
use rail_plan::Plant;
use std::alloc::{AllocError, Global};

impl Stairs {
    /// The intervals of the history that was noted, by train, move and step; those of the overlap of a move stand behind
    /// those of the sections that it needs. One is open where its train stands on the section and its next move is not
    /// admitted; one of an overlap never is. No interval is empty.
    pub fn intervals(&self, alloc: Global, plant: &Plant) -> Result<Vec<Interval>, OutOfMemory>
        requires { IsNoted plant.now self.now }
        ensures { IfOk result (λ intervals. (front : Front) → AreNoted plant.now front self.now
            → intervals.items ≡ stairway plant.now front) }
    {
        Ok(collect(alloc, plant, self)?)
    }
}

/// The intervals, open ones ended at a time. It takes no memory.
pub fn ended_by(mut intervals: Vec<Interval>, ended: Time) -> Vec<Interval>
    ensures { result.items ≡ map (ended_by ended) intervals.items }
{
    for interval in intervals.iter_mut() {
        interval.end = Some(interval.end.unwrap_or(ended));
    }
    intervals
}

/// The intervals of all trains.
fn collect<'s>(
    alloc: Global,
    plant: &'s Plant,
    stairs: &'s Stairs,
) -> Result<Vec<Interval>, AllocError>
    requires noted { length stairs.now.admissions.items ≡ trains plant.now }
    requires admissible { AreAllAdmissible plant.now stairs.now }
    ensures { IfOk result (λ intervals. intervals.items ≡ before_train plant.now stairs.now (trains plant.now)) }
{
    let mut intervals = Vec::new(alloc);
    for number in 0..plant.moves().trains() {
        let journey = Journey::new(plant, stairs, TrainNo(number));
        push_journey(&mut intervals, &journey)?;
    }
    Ok(intervals)
}

/// Adds the intervals of the train.
fn push_journey(intervals: &mut Vec<Interval>, journey: &Journey) -> Result<(), AllocError>
    ensures { OnOk result (intervals.new.items ≡ intervals.old.items ++ of_train train_intervals journey.now) }
{
    for index in 0..journey.moves() {
        push_move(intervals, journey, index)?;
    }
    Ok(())
}

/// Adds the intervals of the move, which counts from 0.
fn push_move(intervals: &mut Vec<Interval>, journey: &Journey, index: u16) -> Result<(), AllocError>
    requires { index < length (admissions_in journey.now) }
    ensures { OnOk result (intervals.new.items ≡ intervals.old.items ++ of_train move_intervals journey.now index) }
{
    for step in 0..journey.claims(index) {
        push_step(intervals, journey, index, step)?;
    }
    Ok(())
}

/// Adds the interval of the step of the move, which both count from 0, where the step has one.
fn push_step(
    intervals: &mut Vec<Interval>,
    journey: &Journey,
    index: u16,
    step: u16,
) -> Result<(), AllocError>
    requires index { index < length (admissions_in journey.now) }
    requires step { step < claims journey.now.plant.now journey.now.train index }
    requires few { step < ROUTE_SECTIONS + OVERLAP_SECTIONS }
    ensures { OnOk result (intervals.new.items ≡ intervals.old.items ++ of_train step_intervals journey.now index step) }
{
    let Some(interval) = journey.interval(index, step) else {
        return Ok(());
    };
    // The end by itself: the checker has no proof of a push that names no `Option`.
    let end = interval.end;
    intervals.push(Interval { end, ..interval })?;
    Ok(())
}
