//! Timetable files: the calls that are read. What they spell, and what they are refused for, is in the rows of
//! `rail_rows`.

use rail_base::{Call, Fault, Time, TrainNo};
use rail_compile::compile;
use rail_plan::Plant;
use rail_scene::read_scene;
use rail_timetable::read_timetable;
use std::alloc::{AllocError, Global};

// A line of three sections: A stands at the signal M before its last section; B turns there, and goes
// back from N. Each has a place behind its first move, and leaves at the second.
const SCENE: &str = "
version = 1
release = 20
section = [
    { name = 'X1', kind = 'plain', length = 1000, speed = 90, joints = ['a', 'b'] },
    { name = 'X2', kind = 'plain', length = 1000, speed = 90, joints = ['b', 'c'] },
    { name = 'X3', kind = 'plain', length = 1000, speed = 90, joints = ['c', 'd'] },
]
portal = [
    { name = 'West', joint = 'a', setting = 10, watching = 10, approach = 100 },
    { name = 'East', joint = 'd', setting = 10, watching = 10, approach = 100 },
]
signal = [
    { name = 'M', joint = 'c', ahead = 'X3', setting = 10, watching = 10, approach = 100 },
    { name = 'N', joint = 'b', ahead = 'X1', setting = 10, watching = 10, approach = 100 },
]
turn = [{ arriving = 'M', leaving = 'N', time = 600 }]
route = [
    { name = 'in', from = 'West', to = 'M', path = ['a', 'X1', 'b', 'X2', 'c'] },
    { name = 'on', from = 'M', to = 'East', path = ['c', 'X3', 'd'] },
    { name = 'back', from = 'N', to = 'West', path = ['b', 'X1', 'a'] },
]
kind = [{ name = 'R', length = 90, speed = 90, start = 100, stop = 50 }]
train = [
    { name = 'A', kind = 'R', entry = '00:02:00', routes = ['in', 'on'] },
    { name = 'B', kind = 'R', entry = '00:30:00', routes = ['in', 'back'] },
]
";

/// The first record of a timetable.
const HEADER: &str = "train,place,arrival,departure,dwell";

/// A timetable with one call.
const ONE_CALL: &str = "\
train,place,arrival,departure,dwell
A,1,00:03:20,00:05:00,00:01:00
";

#[test]
fn gives_the_calls_by_train_and_place(rt: HostRuntime) {
    let stop = Call {
        stops: true,
        arrival: Some(Time(2_000)),
        departure: Some(Time(3_000)),
        dwell: 600,
    };
    assert!(rt; calls_given(rt.alloc()) == Ok([Some(stop), None, None]));
}

/// The calls of A at both places and of B at its first, by the timetable with one call.
fn calls_given(alloc: Global) -> Result<[Option<Call>; 3], Fault> {
    let plant = plant_of(alloc)?;
    calls_in(alloc, &plant)
}

fn calls_in(alloc: Global, plant: &Plant) -> Result<[Option<Call>; 3], Fault> {
    let calls = read_timetable(alloc, plant, ONE_CALL.as_bytes())?;
    Ok([
        calls.at(TrainNo(0), 1),
        calls.at(TrainNo(0), 2),
        calls.at(TrainNo(1), 1),
    ])
}

/// A move from a place is due when its call departs, and else when the train enters.
#[test]
fn calls_say_when_moves_are_due(rt: HostRuntime) {
    let due = [due(rt.alloc(), HEADER), due(rt.alloc(), ONE_CALL)];
    assert!(rt; due == [Some(Time(1_200)), Some(Time(3_000))]);
}

/// When the second move of A is due by a timetable.
fn due(alloc: Global, text: &str) -> Option<Time> {
    match plant_of(alloc) {
        Ok(plant) => due_in(alloc, plant, text),
        Err(_) => None,
    }
}

fn due_in(alloc: Global, plant: Plant, text: &str) -> Option<Time> {
    if plant.moves().trains() != 2 || plant.train(TrainNo(0)).moves.as_slice().len() != 2 {
        return None;
    }
    if text.len() > 100 {
        return None;
    }
    match read_timetable(alloc, &plant, text.as_bytes()) {
        Ok(calls) => Some(plant.with_calls(calls).due(TrainNo(0), 2)),
        Err(_) => None,
    }
}

/// The plant of the scene.
fn plant_of(alloc: Global) -> Result<Plant, Fault> {
    let scene = read_scene(alloc, SCENE.as_bytes())?;
    compile(alloc, &scene)
}
