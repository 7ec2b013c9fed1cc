//! Four trains on a small plant: to what each list is repaired, and which lists are not.
ghost use Rattle.rail_list.specs.KeptLists.{HasRoomFor};
ghost use Rattle.rail_place.specs.PlaceStates.{IsMadeFor};

use crate::plants::{are_there, moves_of, places_at, trains_of};
use rail_base::TrainNo;
use rail_list::{KeptList, a_completing_list_fits};
use rail_place::{Moves, Places, Played};
use std::alloc::Global;

// Each train has three moves over one section each. It stands on the first and then on the second, and
// leaves over the third. Train 0 and train 1 go over section 5, train 3 begins there.
const TRAINS: &str = "0 5 1/0 5, 3 5 2/3 5, 4 6 7/4 6, 5 6 8/5 6";

// The place of each train, the list, the train that moves, whether the list is repaired, and the list
// afterwards.
const PULLS: &str = "1100 0011 0 yes 011
1100 0011 1 no 0011
0110 2211 1 yes 221
0110 2121 1 yes 221
2100 011 0 yes 11
0210 122 2 yes 12";

const APPENDS: &str = "1100 0011 2 yes 001122
1100 0011 3 no 0011
0100 11 3 no 11
0010 22 3 yes 2233";

#[test]
fn pulls_the_first_entry_or_none(rt: HostRuntime) {
    let other = first_other(rt.alloc(), PULLS);
    assert!(rt; other.is_none(), "{other:?}");
}

#[test]
fn appends_the_moves_left_or_none(rt: HostRuntime) {
    let other = first_other(rt.alloc(), APPENDS);
    assert!(rt; other.is_none(), "{other:?}");
}

#[test]
fn begins_empty(rt: HostRuntime) {
    assert!(rt; is_empty_at_first(rt.alloc()) == Some(true));
}

#[test]
fn a_pull_looks_no_further_than_the_first_entry(rt: HostRuntime) {
    assert!(rt; looks_of_a_pull(rt.alloc()) == Some(2));
}

/// How many looks there were once train 1 was pulled, before whose first entry a run of train 2 stands.
fn looks_of_a_pull(alloc: Global) -> Option<u64> {
    let moves = moves_of(alloc, TRAINS)?;
    let list = trains_of(alloc, "2211").ok()?;
    match places_at(alloc, &moves, "0110") {
        Ok(mut places) => match KeptList::new(alloc, &moves) {
            Ok((mut kept, _reader)) => {
                is_repaired(&moves, &mut places, &mut kept, &list, TrainNo(1))?;
                Some(kept.looked())
            }
            Err(_) => None,
        },
        Err(_) => None,
    }
}

fn is_empty_at_first(alloc: Global) -> Option<bool> {
    let moves = moves_of(alloc, TRAINS)?;
    match KeptList::new(alloc, &moves) {
        Ok((kept, reader)) => Some(kept.as_slice(&reader).is_empty()),
        Err(_) => None,
    }
}

/// The first of the cases that is answered otherwise than it says.
fn first_other(alloc: Global, cases: &'static str) -> Option<&'static str> {
    match moves_of(alloc, TRAINS) {
        Some(moves) => first_other_on(alloc, &moves, cases),
        None => Some(TRAINS),
    }
}

fn first_other_on<'a>(alloc: Global, moves: &Moves, cases: &'a str) -> Option<&'a str> {
    for case in cases.lines() {
        if !holds(alloc, moves, case).unwrap_or(false) {
            return Some(case);
        }
    }
    None
}

/// Whether the case is answered as it says.
fn holds(alloc: Global, moves: &Moves, case: &str) -> Option<bool> {
    let (positions, rest) = case.split_once(" ")?;
    let (list, rest) = rest.split_once(" ")?;
    let (train, rest) = rest.split_once(" ")?;
    let (answer, after) = rest.split_once(" ")?;
    let train = TrainNo(train.parse().ok()?);
    let list = trains_of(alloc, list).ok()?;
    match places_at(alloc, moves, positions) {
        Ok(mut places) => match KeptList::new(alloc, moves) {
            Ok((mut kept, reader)) => {
                let told = is_repaired(moves, &mut places, &mut kept, &list, train);
                let is_list = has(alloc, kept.as_slice(&reader), after);
                Some(told == Some(answer == "yes") && is_list)
            }
            Err(_) => None,
        },
        Err(_) => None,
    }
}

/// Whether the list is repaired for the next move of the train: pulled where the train is inside, and else
/// appended. Nothing where the move is not legal, or the list does not complete.
fn is_repaired(
    moves: &Moves,
    places: &mut Places,
    kept: &mut KeptList,
    list: &[TrainNo],
    train: TrainNo,
) -> Option<bool>
    requires made { IsMadeFor moves.now places.old }
    requires room { HasRoomFor moves.now kept.old }
{
    if train.0 >= moves.trains() || !are_there(moves, list) {
        return None;
    }
    if places.legal(moves, train).is_err() || places.play(moves, list) != Played::Completes {
        return None;
    }
    a_completing_list_fits();
    kept.replace(list);
    if places.position(train) == 0 {
        Some(kept.append(moves, places, train))
    } else {
        Some(kept.pull(moves, places, train))
    }
}

/// Whether the list has the trains of the digits.
fn has(alloc: Global, list: &[TrainNo], digits: &str) -> bool {
    match trains_of(alloc, digits) {
        Ok(trains) => list == trains.as_slice(),
        Err(_) => false,
    }
}
