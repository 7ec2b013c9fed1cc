//! The rows, each with the values that the rules give it by hand.
mod scenes;

ghost use Rattle.std.specs.Prelude.{◌≡◌, ◌<◌, ◌^◌};
ghost use Rattle.rail_rules.specs.Plant.{moves, steps, trains};
ghost use Rattle.rail_block.specs.CarriedTimes.{AreBelow};

use rail_base::{Cause, Fault, Interval, Parts, SectionNo, Time, TrainNo, What};
use rail_block::{KnownMove, KnownStep, MoveTimes, entry_times, interval_of, times_of};
use rail_compile::compile;
use rail_engine::Engine;
use rail_plan::Plant;
use rail_policy::{Desk, FcfsPolicy, Policy, deck_is_fine};
use rail_scene::read_scene;
use scenes::{LOOP, OVERLAP, TURN};
use std::alloc::Global;
use std::process::Abort;

/// The only train of a row.
const A: TrainNo = TrainNo(0);

/// The third section of the station.
const L1: SectionNo = SectionNo(2);

/// The plant of a scene file.
fn plant_of(alloc: Global, text: &str) -> Result<Plant, Fault> {
    let scene = read_scene(alloc, text.as_bytes())?;
    compile(alloc, &scene)
}

/// A train that waits for its own tail. It comes over W, PW and L1, where its head takes 400, 20 and 400
/// tenths of a second, turns, and goes back over PW and W; the start supplement is 100, and its whole
/// length clears a section in 400. It is admitted as soon as it is ready, and then when PW is given free.
#[test]
fn turns_at_the_station(rt: HostRuntime) {
    let Ok(plant) = plant_of(rt.alloc(), TURN) else {
        panic!(rt; "no plant");
    };
    runs_in_time(&rt, &plant);
    blocks_where_it_stands(&rt, &plant);
}

/// The times of its two moves.
fn both_moves(rt: &impl Abort, plant: &Plant) -> (MoveTimes, MoveTimes)
    ensures train { 0 < trains plant.now }
    ensures moves { moves plant.now 0 ≡ 2 }
    ensures there { steps plant.now 0 0 ≡ 3 }
    ensures back { steps plant.now 0 1 ≡ 2 }
    ensures first { AreBelow (2 ^ 51) result.0 }
    ensures second { AreBelow (2 ^ 51) result.1 }
{
    assert_eq!(rt; plant.moves().trains(), 1);
    assert_eq!(rt; plant.train(A).moves.as_slice().len(), 2);
    assert_eq!(rt; plant.move_row(A, 1).sections.as_slice().len(), 3);
    assert_eq!(rt; plant.move_row(A, 2).sections.as_slice().len(), 2);
    // Setting, watching and approach are 10, 10 and 100 before its entry.
    let entry = entry_times(plant, A);
    assert!(rt; entry.free_run == Time(1_200) && entry.next_ready == Time(1_080));
    // It passes the portal at its entry time and is at E1 after 820. The signal W1 is to be clear 20
    // before it would depart.
    let first = times_of(plant, A, 1, Time(1_080), &entry);
    assert!(rt; first.passes && first.go == Time(1_200));
    assert!(rt; first.free_run == Time(2_020) && first.next_ready == Time(2_000));
    // It starts 20 after the admission, and its head is at the portal after 100, 20 and 400.
    let second = times_of(plant, A, 2, Time(2_040), &first);
    assert!(rt; !second.passes && second.go == Time(2_060) && second.free_run == Time(2_580));
    (first, second)
}

/// When it arrives, enters, leaves, clears and is out.
fn runs_in_time(rt: &impl Abort, plant: &Plant) {
    let (first, second) = both_moves(rt, plant);
    let there = KnownMove::new(plant, A, 1);
    let back = KnownMove::new(plant, A, 2);
    assert_eq!(rt; there.stop_at(&first), Time(2_020));
    assert_eq!(rt; there.arrive_time(&first, Some(&second)), Time(2_020));
    assert_eq!(rt; back.arrive_time(&second, None), Time(2_580));
    assert_eq!(rt; back.reach_time(&second, 0), Time(2_060));
    // The start supplement and PW.
    assert_eq!(rt; back.reach_time(&second, 1), Time(2_180));
    // W, and then PW.
    let over_pw = KnownStep::new(&there, 2);
    let over_l1 = KnownStep::new(&there, 3);
    assert_eq!(rt; over_pw.leave_time(&first, Some(&second)), Time(1_620));
    assert_eq!(rt; over_l1.leave_time(&first, Some(&second)), Time(2_020));
    // The train is clear of PW 400 after its head, and PW is given free 20 later.
    assert_eq!(rt; over_pw.end_of(&first, None), Some(Time(2_040)));
    // It begins to clear L1 after its start supplement.
    assert_eq!(rt; over_l1.end_of(&first, Some(&second)), Some(Time(2_580)));
    assert_eq!(rt; back.out_time(&second), Time(2_980));
}

/// The blocking interval of L1, on which it stands: open at first, and closed by its second move.
fn blocks_where_it_stands(rt: &impl Abort, plant: &Plant) {
    let (first, second) = both_moves(rt, plant);
    // It stands from 2,020 until it starts at 2,060 and has lost 100.
    let parts = Parts {
        setting: Some(10),
        watching: Some(10),
        approach: Some(100),
        waiting: Some(0),
        earlier: Some(420),
        running: Some(400),
        standing: Some(140),
        clearing: Some(400),
        release: Some(20),
    };
    let closed = Interval {
        section: L1,
        train: A,
        place: 1,
        begin: Time(1_080),
        end: Some(Time(2_580)),
        parts,
    };
    assert!(rt; interval_of(plant, A, 1, 3, &first, Some(&second)) == closed);
    let open = Interval {
        end: None,
        parts: Parts {
            standing: None,
            ..parts
        },
        ..closed
    };
    assert!(rt; interval_of(plant, A, 1, 3, &first, None) == open);
}

/// The section behind the signal is claimed by the move to it as its overlap, and needed by the next move.
#[test]
fn claims_the_section_behind_the_signal(rt: HostRuntime) {
    let Ok(plant) = plant_of(rt.alloc(), OVERLAP) else {
        panic!(rt; "no plant");
    };
    let moves = plant.moves();
    assert_eq!(rt; moves.trains(), 1);
    assert_eq!(rt; moves.places(A), 2);
    let both = [SectionNo(0), SectionNo(1)];
    let (first, second) = both.split_at(1);
    let to_signal = moves.need(A, 1) == first && moves.over(A, 1) == second;
    let onward = moves.need(A, 2) == second && moves.over(A, 2).is_empty();
    assert!(rt; to_signal && onward && moves.claim(A, 1) == both.as_slice());
}

/// The second train of a row.
const B: TrainNo = TrainNo(1);

/// Two trains that pass each other at a loop: the kept list has the moves that are left of those inside,
/// and no line brings a list of its own.
#[test]
fn keeps_the_moves_that_are_left(rt: HostRuntime) {
    let Ok(plant) = plant_of(rt.alloc(), LOOP) else {
        panic!(rt; "no plant");
    };
    let mut deck: Vec<Box<dyn Policy>> = Vec::new(rt.alloc());
    let Ok(first_come) = Box::new(rt.alloc(), FcfsPolicy::new()) else {
        panic!(rt; "no memory");
    };
    if deck.push(first_come).is_err() {
        panic!(rt; "no memory");
    }
    assert!(rt; deck_is_fine(&deck) && deck.len() == 1);
    let desk = Desk::new(deck, 0);
    let Ok(mut engine) = Engine::begin(rt.alloc(), plant, Vec::new(rt.alloc()), desk) else {
        panic!(rt; "no memory");
    };
    assert_eq!(rt; engine.plant().moves().trains(), 2);
    assert!(rt; engine.kept().is_empty());
    let mut last = None;
    for _ in 0..100 {
        let Some(entry) = engine.step() else {
            break;
        };
        assert!(rt; cause_of(entry.what).is_none());
        if let Some((train, place)) = admission_of(entry.what) {
            assert!(rt; is_kept_after(train, place, engine.kept()));
            assert!(rt; engine.listed().is_empty());
            last = Some((train, place));
        }
    }
    assert!(rt; last == Some((B, 2)));
    assert!(rt; engine.step().is_none());
}

/// Whether this is the kept list after the admission of this move of the train.
fn is_kept_after(train: TrainNo, place: u16, kept: &[TrainNo]) -> bool {
    match (train, place) {
        (A, 1) => kept == [A].as_slice(),
        (B, 1) => kept == [A, B].as_slice(),
        (A, 2) => kept == [B].as_slice(),
        (B, 2) => kept.is_empty(),
        _ => false,
    }
}

/// Why a line holds a train, if it is a hold line.
fn cause_of(what: What) -> Option<Cause> {
    match what {
        What::Hold { cause, .. } => Some(cause),
        _ => None,
    }
}

/// The train and the move that a line admits, if it is an admission.
fn admission_of(what: What) -> Option<(TrainNo, u16)> {
    match what {
        What::Admit { train, place, .. } => Some((train, place)),
        _ => None,
    }
}
