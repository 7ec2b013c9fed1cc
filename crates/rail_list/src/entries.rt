//! The entries of a kept list.

ghost use Rattle.std.specs.Prelude.{◌≡◌, ℕ, ◌+◌, ◌-◌, ◌<◌, ◌≤◌, drop, length, IsTrue, IfSome, is_some, not, vec_len, vec_capacity};
ghost use Rattle.std.specs.List.{All};
ghost use Rattle.rail_base.specs.declared.limits.TheConstants.{ITINERARY_ROUTES, SECTIONS};
ghost use Rattle.rail_rules.specs.Numbers.{any_below, are_apart, is_in};
ghost use Rattle.rail_rules.specs.Places.{completes};
ghost use Rattle.rail_place.specs.PlaceStates.{IsMadeFor};
ghost use Rattle.rail_place.specs.Tables.{moves_in};
ghost use Rattle.rail_list.specs.KeptLists.{before_first, is_free_before};

use crate::KeptList;
use crate::needers::does_need_from;
use rail_base::limits::TRAINS;
use rail_base::{SectionNo, TrainNo};
use rail_place::{Moves, Places};

/// What the entries that were passed tell of a train.
#[derive(Clone, Copy, Debug)]
enum Seen {
    /// So many of its entries were passed.
    Passed(u8),
    /// It needs none of the sections any more.
    Idle,
}

/// How many entries stand before the first of the train, where none of them needs one of the sections for its move.
/// No entry behind that one is looked at. The list has an entry for each move that its trains have left, so that
/// the entries of a train are its moves from its place on, in turn. The first run of a train costs a look at the
/// table for each section. A train that needs none of them for a move that it has left is not looked at again; of
/// another one each entry costs a look at the sections of its move.
pub fn free_entries_before(
    moves: &Moves,
    places: &Places,
    kept: &mut KeptList,
    train: TrainNo,
    sections: &[SectionNo],
) -> Option<usize>
    requires made { IsMadeFor moves.now places.now }
    requires known { All (λ t. t < length moves.now) kept.old.trains }
    requires completes { IsTrue (completes (moves_in moves.now) places.now.positions kept.old.trains) }
    requires in_range { (x : ℕ) → IsTrue (is_in x sections.now) → x < SECTIONS }
    ensures first { IfSome result (λ first. first ≡ length (before_first train kept.old.trains)) }
    ensures exact { is_some result ≡ is_free_before (moves_in moves.now) train sections.now kept.old.trains }
    ensures trains { kept.new.trains ≡ kept.old.trains }
    ensures room { kept.new.room ≡ kept.old.room }
    ensures looked { kept.new.looked ≤ kept.old.looked + length (before_first train kept.old.trains) + 1 }
{
    let mut passed = [Seen::Passed(0); TRAINS];
    let count = kept.len();
    let mut index = 0;
    while index < count {
        let run = kept.look(index);
        if run.train == train {
            return Some(index);
        }
        index += usize::from(run.count);
        let number = usize::from(run.train.0);
        let Seen::Passed(times) = passed[number] else {
            continue;
        };
        let times = u16::from(times);
        let place = places.position(run.train) + times;
        if times == 0 && !does_need_from(moves, run.train, place, sections) {
            passed[number] = Seen::Idle;
            continue;
        }
        if does_need_one_of(moves, run.train, place, run.count, sections) {
            return None;
        }
        passed[number] = Seen::Passed((times + run.count) as u8);
    }
    Some(count)
}

/// Whether one of so many moves of the train, in turn from the one at this place on, needs one of the sections.
#[inline(never)]
fn does_need_one_of(
    moves: &Moves,
    train: TrainNo,
    place: u16,
    count: u16,
    sections: &[SectionNo],
) -> bool
    requires train { train < length moves.now }
    requires last { place + count ≤ (moves_in moves.now).moves train }
    requires short { (moves_in moves.now).moves train ≤ ITINERARY_ROUTES }
    requires in_range { (x : ℕ) → IsTrue (is_in x sections.now) → x < SECTIONS }
    ensures { result ≡ any_below (λ m. not (are_apart sections.now ((moves_in moves.now).claim train (place + m)))) count }
{
    for section in sections {
        if moves.claims_within(train, place, count, *section) {
            return true;
        }
    }
    false
}

/// Whether the train's move to this place needs one of the sections.
pub fn does_need_one(moves: &Moves, train: TrainNo, place: u16, sections: &[SectionNo]) -> bool
    requires train { train < length moves.now }
    requires first { 1 ≤ place }
    requires last { place ≤ (moves_in moves.now).moves train }
    requires in_range { (x : ℕ) → IsTrue (is_in x sections.now) → x < SECTIONS }
    ensures { result ≡ not (are_apart sections.now ((moves_in moves.now).claim train (place - 1))) }
{
    for section in sections {
        if moves.claims(train, place, *section) {
            return true;
        }
    }
    false
}

/// Moves the list, which begins at the front, and its runs to the start of their room where so many entries more would
/// not fit behind it. Where it then begins.
pub fn make_room(trains: &mut Vec<TrainNo>, runs: &mut Vec<u16>, front: usize, count: u16) -> usize
    requires within { front ≤ vec_len trains.old }
    requires beside { vec_len runs.old ≡ vec_len trains.old }
    requires fits { vec_len trains.old - front + count ≤ vec_capacity trains.old }
    ensures trains { drop result trains.new.items ≡ drop front trains.old.items }
    ensures runs { drop result runs.new.items ≡ drop front runs.old.items }
    ensures within { result ≤ vec_len trains.new }
    ensures beside { vec_len runs.new ≡ vec_len trains.new }
    ensures fits { vec_len trains.new + count ≤ vec_capacity trains.new }
    ensures room { vec_capacity trains.new ≡ vec_capacity trains.old }
    ensures room_of_runs { vec_capacity runs.new ≡ vec_capacity runs.old }
{
    if trains.len() + usize::from(count) <= trains.capacity() {
        return front;
    }
    move_to_start(trains, front);
    move_to_start(runs, front);
    0
}

/// Moves the table, which begins at the front, to the start of its room.
fn move_to_start<T: Copy>(table: &mut Vec<T>, front: usize)
    requires { front ≤ vec_len table.old }
    ensures rows { table.new.items ≡ drop front table.old.items }
    ensures room { vec_capacity table.new ≡ vec_capacity table.old }
{
    let left = table.len() - front;
    table.copy_within(front.., 0);
    table.truncate(left);
}
