//! Two trains that wait for a list in vain: what is kept of the searches that failed, and when it is forgotten.
ghost use Rattle.std.specs.Prelude.{◌<◌, length, IsTrue};
ghost use Rattle.rail_cores.specs.Searchers.{IsSearcherFor};
ghost use Rattle.rail_list.specs.Failures.{AreFailures};
ghost use Rattle.rail_list.specs.KeptLists.{HasRoomFor};
ghost use Rattle.rail_place.specs.PlaceStates.{IsMadeFor};
ghost use Rattle.rail_place.specs.Tables.{moves_in};
ghost use Rattle.rail_rules.specs.Places.{completes};
ghost use Rattle.rail_tests_calls.specs.declared.failures.TheConstants.{DEPTH};

use crate::plants::{are_there, moves_of, places_at, trains_of};
use rail_base::{Note, TrainNo};
use rail_cores::Searcher;
use rail_list::{Failures, KeptList, a_completing_list_fits, admit_by_list, is_list_known};
use rail_place::{Moves, Places, Played};
use rail_sets::TrainSet;
use std::alloc::Global;

const DEPTH: u8 = 1;

/// Train 0 stands on section 3, and goes over 0 and 2. Train 1 would stand on 2 and needs 0 and 3 at once, so that neither
/// goes on where both are inside. So it is with the trains 2 and 3 at the sections 8, 5 and 7. Train 4 meets nobody. Train 5
/// stands on b and goes after train 2, over c and 8, so that it is one of the core of train 3; but nobody else needs c.
const TRAINS: &str = "3 0 2/3 0, 2 03/2, 8 5 7/8 5, 7 58/7, 9 a/9, b c 8/b c";

/// The train that is asked for, how it is admitted, the trains of the core of the last search that failed, and the trains of
/// which a failure is kept. The core shows which search was the last: in the fifth line it is still that of train 3, so
/// nothing was searched for train 1 again; in the seventh, once train 0 has moved, it is that of train 1 again. In the third
/// line train 5 moves safely, and the failure of train 3 lasts, though train 5 is one of its core.
const STEPS: &str = "\
1 none 01 1
3 none 235 13
5 pulled 235 13
4 appended 235 13
1 none 235 13
0 pulled 235 3
1 none 01 13
3 none 01 13
0 pulled 01 3
1 appended 01 3
";

#[test]
fn a_failure_lasts_until_one_of_its_core_moves(rt: HostRuntime) {
    let other = first_other(rt.alloc());
    assert!(rt; other == None, "{other:?}");
}

/// The first of the steps that is answered otherwise than it says.
fn first_other(alloc: Global) -> Option<&'static str> {
    match moves_of(alloc, TRAINS) {
        Some(moves) => first_other_on(alloc, &moves),
        None => Some(TRAINS),
    }
}

fn first_other_on(alloc: Global, moves: &Moves) -> Option<&'static str> {
    match places_at(alloc, moves, "101001") {
        Ok(mut places) => match KeptList::new(alloc, moves) {
            Ok((mut kept, _reader)) => match Failures::new(alloc) {
                Ok(mut failures) => first_other_by(
                    alloc,
                    moves,
                    &mut places,
                    &mut kept,
                    &mut failures,
                ),
                Err(_) => Some(TRAINS),
            },
            Err(_) => Some(TRAINS),
        },
        Err(_) => Some(TRAINS),
    }
}

/// The same with a list that completes.
fn first_other_by(
    alloc: Global,
    moves: &Moves,
    places: &mut Places,
    kept: &mut KeptList,
    failures: &mut Failures,
) -> Option<&'static str>
    requires made { IsMadeFor moves.now places.old }
    requires room { HasRoomFor moves.now kept.old }
    requires failures { AreFailures (moves_in moves.now) DEPTH places.old.positions failures.old }
{
    match trains_of(alloc, "002255") {
        Ok(list) => {
            if !are_there(moves, &list) || places.play(moves, &list) != Played::Completes {
                return Some("002255");
            }
            a_completing_list_fits();
            kept.replace(&list);
            match Searcher::new(alloc, moves) {
                Ok(mut searcher) => first_other_step(moves, places, kept, &mut searcher, failures),
                Err(_) => Some(TRAINS),
            }
        }
        Err(_) => Some(TRAINS),
    }
}

fn first_other_step(
    moves: &Moves,
    places: &mut Places,
    kept: &mut KeptList,
    searcher: &mut Searcher,
    failures: &mut Failures,
) -> Option<&'static str>
    requires made { IsMadeFor moves.now places.old }
    requires own { IsSearcherFor (moves_in moves.now) searcher.old }
    requires failures { AreFailures (moves_in moves.now) DEPTH places.old.positions failures.old }
    requires room { HasRoomFor moves.now kept.old }
    requires completes { IsTrue (completes (moves_in moves.now) places.old.positions kept.old.trains) }
{
    for step in STEPS.lines() {
        if !holds(moves, places, kept, searcher, failures, step).unwrap_or(false) {
            return Some(step);
        }
    }
    None
}

/// Whether the step is answered as it says.
fn holds(
    moves: &Moves,
    places: &mut Places,
    kept: &mut KeptList,
    searcher: &mut Searcher,
    failures: &mut Failures,
    step: &str,
) -> Option<bool>
    requires made { IsMadeFor moves.now places.old }
    requires own { IsSearcherFor (moves_in moves.now) searcher.old }
    requires failures { AreFailures (moves_in moves.now) DEPTH places.old.positions failures.old }
    requires room { HasRoomFor moves.now kept.old }
    requires completes { IsTrue (completes (moves_in moves.now) places.old.positions kept.old.trains) }
    ensures made { IsMadeFor moves.now places.new }
    ensures own { IsSearcherFor (moves_in moves.now) searcher.new }
    ensures failures { AreFailures (moves_in moves.now) DEPTH places.new.positions failures.new }
    ensures room { HasRoomFor moves.now kept.new }
    ensures completes { IsTrue (completes (moves_in moves.now) places.new.positions kept.new.trains) }
{
    let (train, rest) = step.split_once(" ")?;
    let (way, rest) = rest.split_once(" ")?;
    let (core, failed) = rest.split_once(" ")?;
    let train = TrainNo(train.parse().ok()?);
    let asked = ask(moves, places, kept, searcher, failures, train)?;
    Some(asked == note_of(way) && are_all(searcher.core(), core) && are_kept(failures, failed))
}

/// How the train is admitted, where its next move is legal and both calls agree whether a list is known.
fn ask(
    moves: &Moves,
    places: &mut Places,
    kept: &mut KeptList,
    searcher: &mut Searcher,
    failures: &mut Failures,
    train: TrainNo,
) -> Option<Option<Note>>
    requires made { IsMadeFor moves.now places.old }
    requires own { IsSearcherFor (moves_in moves.now) searcher.old }
    requires failures { AreFailures (moves_in moves.now) DEPTH places.old.positions failures.old }
    requires room { HasRoomFor moves.now kept.old }
    requires completes { IsTrue (completes (moves_in moves.now) places.old.positions kept.old.trains) }
    ensures made { IsMadeFor moves.now places.new }
    ensures own { IsSearcherFor (moves_in moves.now) searcher.new }
    ensures failures { AreFailures (moves_in moves.now) DEPTH places.new.positions failures.new }
    ensures room { HasRoomFor moves.now kept.new }
    ensures completes { IsTrue (completes (moves_in moves.now) places.new.positions kept.new.trains) }
{
    if train.0 >= moves.trains() || places.legal(moves, train).is_err() {
        return None;
    }
    let known = is_list_known(moves, places, kept, searcher, failures, DEPTH, train);
    let note = admit_by_list(moves, places, kept, searcher, failures, DEPTH, train);
    if note.is_some() == known {
        Some(note)
    } else {
        None
    }
}

fn note_of(word: &str) -> Option<Note> {
    match word {
        "pulled" => Some(Note::Pulled),
        "appended" => Some(Note::Appended),
        "fresh" => Some(Note::Fresh),
        _ => None,
    }
}

/// Whether of the six trains the set has those of the digits.
pub(super) fn are_all(set: TrainSet, digits: &str) -> bool {
    for number in 0..6u8 {
        if set.has(TrainNo(u16::from(number))) != is_named(digits, number) {
            return false;
        }
    }
    true
}

/// Whether of the six trains the failures of those of the digits are kept.
fn are_kept(failures: &Failures, digits: &str) -> bool {
    for number in 0..6u8 {
        if failures.has(TrainNo(u16::from(number))) != is_named(digits, number) {
            return false;
        }
    }
    true
}

pub(super) fn is_named(digits: &str, number: u8) -> bool
    requires { number < 6 }
{
    digits.as_bytes().contains(&(b'0' + number))
}
