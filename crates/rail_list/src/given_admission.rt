//! An admission with a given note and list.

ghost use Rattle.std.specs.Prelude.{◌≡◌, ℕ, ◌+◌, ◌<◌, ◌≤◌, [], true, false, length, nat_lt, IsTrue};
ghost use Rattle.std.specs.List.{list_all};
ghost use Rattle.rail_base.specs.declared.history.Note.TheVariants.{Appended, Fresh, Pulled};
ghost use Rattle.rail_rules.specs.Places.{after, completes, is_inside, is_legal, place_of};
ghost use Rattle.rail_consequence.specs.AnalystStates.{IsAnalystFor};
ghost use Rattle.rail_place.specs.PlaceStates.{IsMadeFor};
ghost use Rattle.rail_place.specs.Tables.{moves_in};
ghost use Rattle.rail_list.specs.KeptLists.{HasRoomFor, before_first};
ghost use Rattle.rail_list.specs.Failures.{AreFailures, AreOthersKept};
ghost use Rattle.rail_list.specs.GivenLists.{given_list, may_be_given};

use crate::{Failures, KeptList};
use rail_base::{Note, TrainNo};
use rail_consequence::Analyst;
use rail_place::{Moves, Places};

/// Makes the train's next move on the places, and keeps the list that an admission with this note keeps,
/// where the note fits the train's place and the list completes after the move. False exactly where not; then
/// places and list are as before.
pub fn admit_given(
    moves: &Moves,
    places: &mut Places,
    kept: &mut KeptList,
    analyst: &Analyst,
    failures: &mut Failures,
    train: TrainNo,
    note: Note,
    list: &[TrainNo],
) -> bool
    requires made { IsMadeFor moves.now places.old }
    requires room { HasRoomFor moves.now kept.old }
    requires completes { IsTrue (completes (moves_in moves.now) places.old.positions kept.old.trains) }
    requires train { train < length moves.now }
    requires legal { IsTrue (is_legal (moves_in moves.now) places.old.positions train) }
    requires own { IsAnalystFor (moves_in moves.now) analyst.now }
    ensures made { IsMadeFor moves.now places.new }
    ensures room { kept.new.room ≡ kept.old.room }
    ensures exact { result ≡ may_be_given (moves_in moves.now) places.old.positions kept.old.trains train note list.now }
    ensures given { IsTrue result → (places.new.positions ≡ after places.old.positions train)
        × (kept.new.trains ≡ given_list (moves_in moves.now) kept.old.trains train note list.now) }
    ensures none { result ≡ false → (places.new.positions ≡ places.old.positions) × (kept.new.trains ≡ kept.old.trains) }
    ensures failures { (depth : ℕ) → AreFailures (moves_in moves.now) depth places.old.positions failures.old
        → AreFailures (moves_in moves.now) depth places.new.positions failures.new }
    ensures others { AreOthersKept train failures.old failures.new }
    ensures looked { kept.new.looked ≤ kept.old.looked + length (before_first train kept.old.trains) + 1 }
{
    let admitted = match note {
        Note::Pulled => admit_pulled(moves, places, kept, train),
        Note::Appended => admit_appended(moves, places, kept, train),
        Note::Fresh => admit_listed(moves, places, kept, analyst, train, list),
    };
    if admitted {
        failures.forget(moves, places, train);
    }
    admitted
}

/// An admission that pulls the train.
fn admit_pulled(moves: &Moves, places: &mut Places, kept: &mut KeptList, train: TrainNo) -> bool
    requires made { IsMadeFor moves.now places.old }
    requires room { HasRoomFor moves.now kept.old }
    requires completes { IsTrue (completes (moves_in moves.now) places.old.positions kept.old.trains) }
    requires train { train < length moves.now }
    requires legal { IsTrue (is_legal (moves_in moves.now) places.old.positions train) }
    ensures made { IsMadeFor moves.now places.new }
    ensures room { kept.new.room ≡ kept.old.room }
    ensures exact { result ≡ may_be_given (moves_in moves.now) places.old.positions kept.old.trains train Pulled [] }
    ensures given { IsTrue result → (places.new.positions ≡ after places.old.positions train)
        × (kept.new.trains ≡ given_list (moves_in moves.now) kept.old.trains train Pulled []) }
    ensures none { result ≡ false → (places.new.positions ≡ places.old.positions) × (kept.new.trains ≡ kept.old.trains) }
    ensures looked { kept.new.looked ≤ kept.old.looked + length (before_first train kept.old.trains) + 1 }
{
    if places.position(train) == 0 || !kept.pull(moves, places, train) {
        return false;
    }
    places.advance(moves, train);
    true
}

/// An admission that appends the moves of an entering train.
fn admit_appended(moves: &Moves, places: &mut Places, kept: &mut KeptList, train: TrainNo) -> bool
    requires made { IsMadeFor moves.now places.old }
    requires room { HasRoomFor moves.now kept.old }
    requires completes { IsTrue (completes (moves_in moves.now) places.old.positions kept.old.trains) }
    requires train { train < length moves.now }
    requires legal { IsTrue (is_legal (moves_in moves.now) places.old.positions train) }
    ensures made { IsMadeFor moves.now places.new }
    ensures room { kept.new.room ≡ kept.old.room }
    ensures exact { result ≡ may_be_given (moves_in moves.now) places.old.positions kept.old.trains train Appended [] }
    ensures given { IsTrue result → (places.new.positions ≡ after places.old.positions train)
        × (kept.new.trains ≡ given_list (moves_in moves.now) kept.old.trains train Appended []) }
    ensures none { result ≡ false → (places.new.positions ≡ places.old.positions) × (kept.new.trains ≡ kept.old.trains) }
    ensures looked { kept.new.looked ≡ kept.old.looked }
{
    if places.position(train) > 0 || !kept.append(moves, places, train) {
        return false;
    }
    places.advance(moves, train);
    true
}

/// An admission that brings a list of its own.
fn admit_listed(
    moves: &Moves,
    places: &mut Places,
    kept: &mut KeptList,
    analyst: &Analyst,
    train: TrainNo,
    list: &[TrainNo],
) -> bool
    requires made { IsMadeFor moves.now places.old }
    requires room { HasRoomFor moves.now kept.old }
    requires train { train < length moves.now }
    requires legal { IsTrue (is_legal (moves_in moves.now) places.old.positions train) }
    requires own { IsAnalystFor (moves_in moves.now) analyst.now }
    ensures made { IsMadeFor moves.now places.new }
    ensures room { kept.new.room ≡ kept.old.room }
    ensures exact { result ≡ may_be_given (moves_in moves.now) places.old.positions kept.old.trains train Fresh list.now }
    ensures given { IsTrue result → (places.new.positions ≡ after places.old.positions train) × (kept.new.trains ≡ list.now) }
    ensures none { result ≡ false → (places.new.positions ≡ places.old.positions) × (kept.new.trains ≡ kept.old.trains) }
    ensures looked { kept.new.looked ≡ kept.old.looked }
{
    if list.is_empty() {
        return false;
    }
    places.advance(moves, train);
    if analyst.does_complete(moves, places, list) {
        kept.replace(list);
        true
    } else {
        places.retreat(moves, train);
        false
    }
}
