//! For how many trains each section is needed by moves that they have left.

ghost use Rattle.std.specs.Prelude.{◌≡◌, ◌≢◌, ℕ, ◌<◌, ◌≤◌, false, length, IsTrue};
ghost use Rattle.rail_place.specs.Tables.{IsTable, moves_in};
ghost use Rattle.rail_sets.specs.Sets.{has};
ghost use Rattle.rail_consequence.specs.declared.notes.Stop.TheVariants.{Unknown};
ghost use Rattle.rail_consequence.specs.Stops.{stop_of};
ghost use Rattle.rail_consequence.specs.Needs.{AreWords, IsAmong, IsRecounted, IsRowsOf, count_of, needs_left};

use crate::notes::{SearchNotes, Stop};
use crate::rows::Rows;
use crate::width::Width;
use rail_base::TrainNo;
use rail_place::Moves;
use rail_sets::Counts;

/// Counts the train, which was counted as at the one place, as at the other. A train that has not entered counts for
/// nothing.
pub fn recount<W: Width>(
    needs: &mut Counts,
    moves: &Moves,
    rows: &Rows,
    train: TrainNo,
    from: u16,
    to: u16,
)
    requires words { AreWords (moves_in moves.now) W.WORDS }
    requires rows { IsRowsOf (moves_in moves.now) rows.now }
    requires train { train < length moves.now }
    requires from { from ≤ (moves_in moves.now).moves train }
    requires to { to ≤ (moves_in moves.now).moves train }
    requires among { IsAmong (moves_in moves.now) train from needs.old }
    ensures { IsRecounted (moves_in moves.now) train from to needs.old needs.new }
{
    let first = place_or_last(moves, train, from);
    let last = place_or_last(moves, train, to);
    if first < last {
        needs.count_down(
            rows.rest::<W>(moves, train, first),
            rows.rest::<W>(moves, train, last),
        );
    } else if last < first {
        needs.count_up(
            rows.rest::<W>(moves, train, last),
            rows.rest::<W>(moves, train, first),
        );
    }
}

/// Takes back what is noted of the train, which is counted as at the one place and is to be counted as at the other, and
/// notes the sections that fall to one train then.
pub fn note_move<W: Width>(
    notes: &mut SearchNotes,
    needs: &Counts,
    moves: &Moves,
    rows: &Rows,
    train: TrainNo,
    from: u16,
    to: u16,
)
    requires words { AreWords (moves_in moves.now) W.WORDS }
    requires rows { IsRowsOf (moves_in moves.now) rows.now }
    requires table { IsTable moves.now }
    requires train { train < length moves.now }
    requires from { from ≤ (moves_in moves.now).moves train }
    requires to { to ≤ (moves_in moves.now).moves train }
    ensures here { stop_of notes.new.stops train ≡ Unknown }
    ensures others { (u : ℕ) → u ≢ train → stop_of notes.new.stops u ≡ stop_of notes.old.stops u }
    ensures kept { (x : ℕ) → IsTrue (has notes.old.fell x) → IsTrue (has notes.new.fell x) }
    ensures falls { (x : ℕ) → IsTrue (needs_left (moves_in moves.now) train from x)
        → needs_left (moves_in moves.now) train to x ≡ false → count_of needs.now x ≡ 2 → IsTrue (has notes.new.fell x) }
    ensures none { (notes.old.has_fallen ≡ false → (x : ℕ) → has notes.old.fell x ≡ false)
        → notes.new.has_fallen ≡ false → (x : ℕ) → has notes.new.fell x ≡ false }
{
    notes.set(train, Stop::Unknown);
    let first = place_or_last(moves, train, from);
    let last = place_or_last(moves, train, to);
    if first >= last {
        return;
    }
    let needed = rows.rest::<W>(moves, train, first);
    let later = rows.rest::<W>(moves, train, last);
    if needs.has_falls(needed, later) {
        needs.add_falls(&mut notes.fell, needed, later);
        notes.has_fallen = true;
    }
}

/// The place, or the last one of a train that has not entered: both trains need nothing.
fn place_or_last(moves: &Moves, train: TrainNo, place: u16) -> u16
    requires train { train < length moves.now }
    requires within { place ≤ (moves_in moves.now).moves train }
    ensures within { result ≤ (moves_in moves.now).moves train }
    ensures entered { 0 < (moves_in moves.now).moves train → 0 < result }
    ensures alike { (x : ℕ) → needs_left (moves_in moves.now) train result x ≡ needs_left (moves_in moves.now) train place x }
{
    if place == 0 {
        moves.places(train)
    } else {
        place
    }
}
