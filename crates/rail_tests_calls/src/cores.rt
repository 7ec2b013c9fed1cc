//! Which trains find nothing alone, and the small cores that are found among them.
ghost use Rattle.std.specs.Prelude.{◌<◌, IfSome};
ghost use Rattle.rail_cores.specs.Alones.{IsAloneFor};
ghost use Rattle.rail_place.specs.PlaceStates.{IsMadeFor};
ghost use Rattle.rail_place.specs.Tables.{moves_in};

use crate::failures::{are_all, is_named};
use crate::plants::{moves_of, places_at};
use rail_base::TrainNo;
use rail_consequence::Analyst;
use rail_cores::Alone;
use rail_place::{Moves, Places};
use rail_sets::TrainSet;
use std::alloc::Global;

const DEPTH: u8 = 1;

/// Train 0 stands on section 3, and goes over 0 and 2. Train 1 stands on 2 and needs 0 and 3 at once, so that neither
/// goes on. So it is with the trains 2 and 3 at the sections 8, 5 and 7. Train 4 is outside. Train 5 stands on b, and goes after
/// train 2, over c and 8.
const TRAINS: &str = "3 0 2/3 0, 2 03/2, 8 5 7/8 5, 7 58/7, 9 a/9, b c 8/b c";

/// All but train 4 have entered.
const PLACES: &str = "111101";

/// Trains, and whether nothing is found where these alone are inside: two bar each other, wherever others are, and one
/// goes out.
const ASKED: &str = "\
0 found
1 found
01 fails
4 found
25 found
23 fails
0123 fails
0345 found
135 found
0235 fails
";

#[test]
fn some_trains_alone_find_nothing(rt: HostRuntime) {
    let other = first_other(rt.alloc());
    assert!(rt; other == None, "{other:?}");
}

/// The first of the lines that is answered otherwise than it says.
fn first_other(alloc: Global) -> Option<&'static str> {
    match moves_of(alloc, TRAINS) {
        Some(moves) => match places_at(alloc, &moves, PLACES) {
            Ok(places) => match alone_on(alloc, &moves) {
                Some(mut alone) => first_other_line(&moves, &places, &mut alone),
                None => Some(TRAINS),
            },
            Err(_) => Some(PLACES),
        },
        None => Some(TRAINS),
    }
}

/// What searches for some trains alone.
fn alone_on(alloc: Global, moves: &Moves) -> Option<Alone>
    ensures { IfSome result (IsAloneFor (moves_in moves.now)) }
{
    match Analyst::new(alloc, moves) {
        Ok(analyst) => match Alone::new(alloc, moves, &analyst) {
            Ok(alone) => Some(alone),
            Err(_) => None,
        },
        Err(_) => None,
    }
}

fn first_other_line(moves: &Moves, places: &Places, alone: &mut Alone) -> Option<&'static str>
    requires made { IsMadeFor moves.now places.now }
    requires own { IsAloneFor (moves_in moves.now) alone.old }
{
    for line in ASKED.lines() {
        let (digits, answer) = line.split_once(" ").unwrap_or((line, ""));
        let fails = alone.fails(moves, places, &set_of(digits), DEPTH);
        if answer != (if fails { "fails" } else { "found" }) {
            return Some(line);
        }
    }
    None
}

/// Of the six trains those of the digits.
fn set_of(digits: &str) -> TrainSet {
    let mut set = TrainSet::none();
    for number in 0..6u8 {
        if is_named(digits, number) {
            set.insert(TrainNo(u16::from(number)));
        }
    }
    set
}

#[test]
fn a_small_core_is_grown_from_the_train_that_asks(rt: HostRuntime) {
    assert!(rt; are_cores(rt.alloc()) == Some([true, true, true]));
}

/// Whether the small core that is grown from train 1 is of the trains 0 and 1, that from train 3 of 2 and 3; and that from
/// train 5, in whose way is train 2, and in the way of this one train 3, of these two as well: train 5 is left out again.
fn are_cores(alloc: Global) -> Option<[bool; 3]> {
    let moves = moves_of(alloc, TRAINS)?;
    match places_at(alloc, &moves, PLACES) {
        Ok(places) => {
            let mut alone = alone_on(alloc, &moves)?;
            Some([
                is_core(&moves, &places, &mut alone, 1, "01"),
                is_core(&moves, &places, &mut alone, 3, "23"),
                is_core(&moves, &places, &mut alone, 5, "23"),
            ])
        }
        Err(_) => None,
    }
}

/// Whether the small core that is grown from the train is of these trains.
fn is_core(moves: &Moves, places: &Places, alone: &mut Alone, train: u16, digits: &str) -> bool
    requires made { IsMadeFor moves.now places.now }
    requires own { IsAloneFor (moves_in moves.now) alone.old }
    requires train { train < 6 }
    ensures own { IsAloneFor (moves_in moves.now) alone.new }
{
    let left = set_of("01235");
    match alone.small_core(moves, places, DEPTH, TrainNo(train), left, 1000) {
        Some(core) => are_all(core, digits),
        None => false,
    }
}
