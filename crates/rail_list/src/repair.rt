//! A move by the kept list: the list is repaired, or a fresh one is searched for.

ghost use Rattle.std.specs.Prelude.{◌≡◌, ℕ, ◌+◌, ◌<◌, ◌≤◌, true, false, length, IsTrue, IsNone, IsSome, IfSome};
ghost use Rattle.rail_rules.specs.Analysis.{finds};
ghost use Rattle.rail_rules.specs.Places.{after, completes, is_legal};
ghost use Rattle.rail_place.specs.PlaceStates.{IsMadeFor};
ghost use Rattle.rail_place.specs.Tables.{moves_in};
ghost use Rattle.rail_cores.specs.Searchers.{IsSearcherFor};
ghost use Rattle.rail_list.specs.Failures.{AreFailures, AreOthersKept, is_kept};
ghost use Rattle.rail_list.specs.KeptLists.{HasRoomFor, before_first};
ghost use Rattle.rail_list.specs.Repairs.{IsNoted, is_known, is_repairable_for};

use crate::{Failures, KeptList};
use rail_base::{Note, TrainNo};
use rail_cores::Searcher;
use rail_place::{Moves, Places};

/// Makes the train's next move on the places where a list is known that brings every train inside to its
/// exit after it, and keeps such a list: the repaired one, or else, where some list of legs with at most
/// `depth` free ones does so, a fresh one that completes. `None` where no list is known; then places and
/// list are as before, and the failure of the search is kept. Nothing is searched where one was kept before.
pub fn admit_by_list(
    moves: &Moves,
    places: &mut Places,
    kept: &mut KeptList,
    searcher: &mut Searcher,
    failures: &mut Failures,
    depth: u8,
    train: TrainNo,
) -> Option<Note>
    requires made { IsMadeFor moves.now places.old }
    requires own { IsSearcherFor (moves_in moves.now) searcher.old }
    requires failures { AreFailures (moves_in moves.now) depth places.old.positions failures.old }
    requires room { HasRoomFor moves.now kept.old }
    requires completes { IsTrue (completes (moves_in moves.now) places.old.positions kept.old.trains) }
    requires train { train < length moves.now }
    requires legal { IsTrue (is_legal (moves_in moves.now) places.old.positions train) }
    ensures made { IsMadeFor moves.now places.new }
    ensures own { IsSearcherFor (moves_in moves.now) searcher.new }
    ensures failures { AreFailures (moves_in moves.now) depth places.new.positions failures.new }
    ensures others { AreOthersKept train failures.old failures.new }
    ensures room { kept.new.room ≡ kept.old.room }
    ensures none { IsNone result → (places.new.positions ≡ places.old.positions) × (kept.new.trains ≡ kept.old.trains)
        × (is_known (moves_in moves.now) depth places.old.positions kept.old.trains train ≡ false) }
    ensures moved { IsSome result → places.new.positions ≡ after places.old.positions train }
    ensures note { IfSome result (λ note.
        IsNoted (moves_in moves.now) depth places.old.positions kept.old.trains train note kept.new.trains) }
    ensures completes { IsTrue (completes (moves_in moves.now) places.new.positions kept.new.trains) }
    ensures noted { IsNone result → IsTrue (is_kept failures.new train) }
    ensures spared { IsTrue (is_kept failures.old train) → searcher.new ≡ searcher.old }
    ensures looked { kept.new.looked ≤ kept.old.looked + length (before_first train kept.old.trains) + 1 }
{
    if let Some(note) = repair(moves, places, kept, train) {
        places.advance(moves, train);
        failures.forget(moves, places, train);
        return Some(note);
    }
    if failures.has(train) {
        return None;
    }
    if admit_afresh(moves, places, kept, searcher, failures, depth, train) {
        Some(Note::Fresh)
    } else {
        None
    }
}

/// Repairs the list for the train's next move, and says how. `None` exactly where the repaired list
/// doesn't complete after the move; then the list is as before.
fn repair(moves: &Moves, places: &Places, kept: &mut KeptList, train: TrainNo) -> Option<Note>
    requires made { IsMadeFor moves.now places.now }
    requires room { HasRoomFor moves.now kept.old }
    requires completes { IsTrue (completes (moves_in moves.now) places.now.positions kept.old.trains) }
    requires train { train < length moves.now }
    requires legal { IsTrue (is_legal (moves_in moves.now) places.now.positions train) }
    ensures room { kept.new.room ≡ kept.old.room }
    ensures none { IsNone result → (kept.new.trains ≡ kept.old.trains)
        × (is_repairable_for (moves_in moves.now) places.now.positions kept.old.trains train ≡ false) }
    ensures note { IfSome result (λ note. (depth : ℕ)
        → IsNoted (moves_in moves.now) depth places.now.positions kept.old.trains train note kept.new.trains) }
    ensures looked { kept.new.looked ≤ kept.old.looked + length (before_first train kept.old.trains) + 1 }
{
    if places.position(train) > 0 {
        if kept.pull(moves, places, train) {
            return Some(Note::Pulled);
        }
    } else if kept.append(moves, places, train) {
        return Some(Note::Appended);
    }
    None
}

/// Makes the train's next move where the analysis finds a list after it, and keeps that list. False
/// exactly where it finds none; then places and list are as before, and the failure is kept.
fn admit_afresh(
    moves: &Moves,
    places: &mut Places,
    kept: &mut KeptList,
    searcher: &mut Searcher,
    failures: &mut Failures,
    depth: u8,
    train: TrainNo,
) -> bool
    requires made { IsMadeFor moves.now places.old }
    requires own { IsSearcherFor (moves_in moves.now) searcher.old }
    requires failures { AreFailures (moves_in moves.now) depth places.old.positions failures.old }
    requires room { HasRoomFor moves.now kept.old }
    requires train { train < length moves.now }
    requires legal { IsTrue (is_legal (moves_in moves.now) places.old.positions train) }
    ensures made { IsMadeFor moves.now places.new }
    ensures own { IsSearcherFor (moves_in moves.now) searcher.new }
    ensures failures { AreFailures (moves_in moves.now) depth places.new.positions failures.new }
    ensures others { AreOthersKept train failures.old failures.new }
    ensures room { kept.new.room ≡ kept.old.room }
    ensures exact { result ≡ finds (moves_in moves.now) depth (after places.old.positions train) }
    ensures none { result ≡ false → (places.new.positions ≡ places.old.positions) × (kept.new.trains ≡ kept.old.trains) }
    ensures moved { IsTrue result → places.new.positions ≡ after places.old.positions train }
    ensures completes { IsTrue result → IsTrue (completes (moves_in moves.now) (after places.old.positions train) kept.new.trains) }
    ensures noted { result ≡ false → IsTrue (is_kept failures.new train) }
    ensures looked { kept.new.looked ≡ kept.old.looked }
{
    places.advance(moves, train);
    if searcher.search(moves, places, depth, train) {
        kept.replace(searcher.list());
        failures.forget(moves, places, train);
        true
    } else {
        failures.note(train, searcher.core());
        places.retreat(moves, train);
        false
    }
}

/// Whether a list is known that brings every train inside to its exit after the train's next move: the repaired one,
/// or one that the analysis finds with at most `depth` free legs. List and places are as before. The failure of a search
/// is kept, and nothing is searched where one was kept before.
pub fn is_list_known(
    moves: &Moves,
    places: &mut Places,
    kept: &mut KeptList,
    searcher: &mut Searcher,
    failures: &mut Failures,
    depth: u8,
    train: TrainNo,
) -> bool
    requires made { IsMadeFor moves.now places.old }
    requires own { IsSearcherFor (moves_in moves.now) searcher.old }
    requires failures { AreFailures (moves_in moves.now) depth places.old.positions failures.old }
    requires completes { IsTrue (completes (moves_in moves.now) places.old.positions kept.old.trains) }
    requires train { train < length moves.now }
    requires legal { IsTrue (is_legal (moves_in moves.now) places.old.positions train) }
    ensures made { IsMadeFor moves.now places.new }
    ensures own { IsSearcherFor (moves_in moves.now) searcher.new }
    ensures failures { AreFailures (moves_in moves.now) depth places.new.positions failures.new }
    ensures positions { places.new.positions ≡ places.old.positions }
    ensures exact { result ≡ is_known (moves_in moves.now) depth places.old.positions kept.old.trains train }
    ensures trains { kept.new.trains ≡ kept.old.trains }
    ensures room { kept.new.room ≡ kept.old.room }
    ensures noted { result ≡ false → IsTrue (is_kept failures.new train) }
    ensures spared { IsTrue (is_kept failures.old train) → searcher.new ≡ searcher.old }
    ensures looked { kept.new.looked ≤ kept.old.looked + length (before_first train kept.old.trains) + 1 }
{
    if kept.is_repairable(moves, places, train) {
        return true;
    }
    if failures.has(train) {
        return false;
    }
    is_found(moves, places, searcher, failures, depth, train)
}

/// Whether the analysis finds a list after the train's next move; where not, the failure is kept. The places are as before.
fn is_found(
    moves: &Moves,
    places: &mut Places,
    searcher: &mut Searcher,
    failures: &mut Failures,
    depth: u8,
    train: TrainNo,
) -> bool
    requires made { IsMadeFor moves.now places.old }
    requires own { IsSearcherFor (moves_in moves.now) searcher.old }
    requires failures { AreFailures (moves_in moves.now) depth places.old.positions failures.old }
    requires train { train < length moves.now }
    requires legal { IsTrue (is_legal (moves_in moves.now) places.old.positions train) }
    ensures made { IsMadeFor moves.now places.new }
    ensures own { IsSearcherFor (moves_in moves.now) searcher.new }
    ensures failures { AreFailures (moves_in moves.now) depth places.new.positions failures.new }
    ensures positions { places.new.positions ≡ places.old.positions }
    ensures exact { result ≡ finds (moves_in moves.now) depth (after places.old.positions train) }
    ensures noted { result ≡ false → IsTrue (is_kept failures.new train) }
{
    places.advance(moves, train);
    let found = searcher.search(moves, places, depth, train);
    places.retreat(moves, train);
    if found {
        return true;
    }
    failures.note(train, searcher.core());
    false
}
