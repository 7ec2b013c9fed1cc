//! What the player of lists answers, and at which depth a list is found.
ghost use Rattle.rail_consequence.specs.AnalystStates.{IsAnalystFor};
ghost use Rattle.rail_place.specs.PlaceStates.{IsMadeFor};
ghost use Rattle.rail_place.specs.Tables.{moves_in};

use crate::plants::{are_there, moves_of, places_at};
use rail_base::{SectionNo, TrainNo};
use rail_consequence::Analyst;
use rail_place::{Barred, Moves, Places, PlacesFault, Played};
use std::alloc::Global;

const A: TrainNo = TrainNo(0);

const B: TrainNo = TrainNo(1);

/// What comes of playing the list; index 0 where it names a train that there is not.
fn play(places: &mut Places, moves: &Moves, list: &[TrainNo]) -> Played
    requires { IsMadeFor moves.now places.old }
    ensures { IsMadeFor moves.now places.new }
{
    if !are_there(moves, list) {
        return Played::Illegal {
            index: 0,
            why: Barred::Outside,
        };
    }
    places.play(moves, list)
}

#[test]
fn plays_lists_at_a_loop(rt: HostRuntime) {
    let inside = Played::Inside { train: A };
    let out = Played::Illegal {
        index: 2,
        why: Barred::Out,
    };
    let outside = Played::Illegal {
        index: 1,
        why: Barred::Outside,
    };
    let played = [Played::Completes, inside, out, outside];
    assert!(rt; played_at_a_loop(rt.alloc()) == Some((played, [2, 4])));
}

/// What comes of lists at the loop line with the sections W, PW, L1, L2, PE, E, where A goes over L1 to the east:
/// of three where both trains are inside, and of one where both are outside; and how many moves were played after
/// the first and after the third.
fn played_at_a_loop(alloc: Global) -> Option<([Played; 4], [u64; 2])> {
    let moves = moves_of(alloc, "012 45/2, 543 10/3")?;
    let (inside, counts) = played_inside(alloc, &moves)?;
    let [first, second, third] = inside;
    let fourth = played_from(alloc, &moves, "00", &[A])?;
    Some(([first, second, third, fourth], counts))
}

fn played_inside(alloc: Global, moves: &Moves) -> Option<([Played; 3], [u64; 2])> {
    match places_at(alloc, moves, "11") {
        Ok(mut places) => {
            let first = play(&mut places, moves, &[A, B]);
            let count = places.played();
            let second = play(&mut places, moves, &[B]);
            let third = play(&mut places, moves, &[A, A]);
            Some(([first, second, third], [count, places.played()]))
        }
        Err(_) => None,
    }
}

/// What comes of the list where the trains are at these places.
fn played_from(alloc: Global, moves: &Moves, digits: &str, list: &[TrainNo]) -> Option<Played> {
    match places_at(alloc, moves, digits) {
        Ok(mut places) => Some(play(&mut places, moves, list)),
        Err(_) => None,
    }
}

#[test]
fn tells_which_lists_complete_at_a_loop(rt: HostRuntime) {
    assert!(rt; told_at_a_loop(rt.alloc()) == Some([true, false, false, false]));
}

/// Which of these lists complete at the loop line where both trains are inside: one of the moves that both have left, one that
/// leaves a train inside, one that names a train too often, and one of a third train.
fn told_at_a_loop(alloc: Global) -> Option<[bool; 4]> {
    let moves = moves_of(alloc, "012 45/2, 543 10/3")?;
    match places_at(alloc, &moves, "11") {
        Ok(places) => match Analyst::new(alloc, &moves) {
            Ok(analyst) => Some([
                analyst.does_complete(&moves, &places, &[A, B]),
                analyst.does_complete(&moves, &places, &[B]),
                analyst.does_complete(&moves, &places, &[A, A]),
                analyst.does_complete(&moves, &places, &[A, B, TrainNo(2)]),
            ]),
            Err(_) => None,
        },
        Err(_) => None,
    }
}

#[test]
fn names_the_first_holder(rt: HostRuntime) {
    let held = Played::Illegal {
        index: 1,
        why: Barred::Held {
            section: SectionNo(2),
            holder: B,
        },
    };
    let overlap = PlacesFault::Overlap {
        section: SectionNo(2),
        first: A,
        second: B,
    };
    assert!(rt; told_of_holders(rt.alloc()) == Some((held, overlap)));
}

/// What comes of a list with a move onto a section on which B stands, and of two trains on one section.
fn told_of_holders(alloc: Global) -> Option<(Played, PlacesFault)> {
    let moves = moves_of(alloc, "0 12 45/0 2, 542 10/2")?;
    let held = played_from(alloc, &moves, "11", &[A])?;
    match places_at(alloc, &moves, "21") {
        Ok(_) => None,
        Err(fault) => Some((held, fault)),
    }
}

/// The trains, the place of each, and the least depth below 3 at which a list is found.
///
/// First three trains stand in a ring, and one of them may have a way round over a free track. Then, with
/// the sections W, PW, L1, L2, PE, C, QW, N1, N2, QE, X, two trains go to the east over L1, C and N1, and
/// one to the west over N2; then a train stands on N1 that can go on to a track that the second
/// train to the east needs at the end, with the same trains the other way round. At last two trains meet at the loop,
/// of which the first one claims over its overlap the section on which the second one stands.
const DEPTHS: &str = "\
0 1/0, 1 2/1, 2 0/2: 111: none
0 3 1/0 3, 1 2/1, 2 0/2: 111: 0
0 1/0, 1 2/1, 2 0/2: 020: 0
012 45 67 9a/2 5 7, 012 45 67 9a/2 5 7, a 986543 10/a 3: 211: 1
012 45 67 9a/2 5 7, 012 45 67 9ak/2 5 7, a 986543 10/a 3, 7 k 2/7 k: 2111: 2
7 k 2/7 k, a 986543 10/a 3, 012 45 67 9ak/2 5 7, 012 45 67 9a/2 5 7: 1112: 2
0 1245 45/0 2, 5 43 10/5 3: 11: 0
";

#[test]
fn finds_the_free_legs_that_help(rt: HostRuntime) {
    let other = first_other(rt.alloc(), DEPTHS);
    assert!(rt; other.is_none(), "{other:?}");
}

/// The first of the cases that is answered otherwise than it says.
fn first_other(alloc: Global, cases: &str) -> Option<&str> {
    for case in cases.lines() {
        if !holds(alloc, case).unwrap_or(false) {
            return Some(case);
        }
    }
    None
}

/// Whether the case is answered as it says.
fn holds(alloc: Global, case: &str) -> Option<bool> {
    let (trains, rest) = case.split_once(": ")?;
    let (positions, depth) = rest.split_once(": ")?;
    match moves_of(alloc, trains) {
        Some(moves) => Some(helps_at(alloc, &moves, positions, depth)),
        None => None,
    }
}

/// Whether that is the least depth that helps the trains at these places.
fn helps_at(alloc: Global, moves: &Moves, positions: &str, depth: &str) -> bool {
    match places_at(alloc, moves, positions) {
        Ok(mut places) => match Analyst::new(alloc, moves) {
            Ok(mut analyst) => is_least(moves, &mut places, &mut analyst, depth.parse().ok()),
            Err(_) => false,
        },
        Err(_) => false,
    }
}

/// Whether at this depth a list is found from the places that completes, and none at a lesser one; of no
/// depth, whether none is found below 3.
fn is_least(moves: &Moves, places: &mut Places, analyst: &mut Analyst, want: Option<u8>) -> bool
    requires made { IsMadeFor moves.now places.old }
    requires own { IsAnalystFor (moves_in moves.now) analyst.old }
{
    for depth in 0..3 {
        if let Some(list) = analyst.find(moves, places, depth) {
            return want == Some(depth) && play(places, moves, list) == Played::Completes;
        }
    }
    want == None
}
