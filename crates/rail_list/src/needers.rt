//! Which trains inside need sections for the moves that they have left.

ghost use Rattle.std.specs.Prelude.{◌≡◌, ℕ, ◌<◌, ◌≤◌, ◌==◌, ◌&&◌, length, nat_le, not, IsTrue};
ghost use Rattle.rail_base.specs.declared.limits.TheConstants.{SECTIONS};
ghost use Rattle.rail_rules.specs.Analysis.{is_safe, needs_later};
ghost use Rattle.rail_rules.specs.Numbers.{any_below, are_apart, is_in};
ghost use Rattle.rail_place.specs.PlaceStates.{IsMadeFor};
ghost use Rattle.rail_place.specs.Tables.{moves_in};

use rail_base::{SectionNo, TrainNo};
use rail_place::{Moves, Places};

/// Whether a leg of the train that ends at this place is safe: it ends out, or no other train inside needs for a move that
/// it has left what the train then stands on. `last` is the train of which the answer was yes before: it is asked first, since
/// it mostly is the one again, and is then the one of which it was now.
pub fn is_leg_safe(
    moves: &Moves,
    places: &Places,
    train: TrainNo,
    place: u16,
    last: &mut TrainNo,
) -> bool
    requires made { IsMadeFor moves.now places.now }
    requires train { train < length moves.now }
    requires within { place ≤ (moves_in moves.now).moves train }
    ensures { result ≡ is_safe (moves_in moves.now) places.now.positions (record { train = train; place = place }) }
{
    if place == moves.places(train) {
        return true;
    }
    let sections = moves.stand(train, place);
    if last.0 < moves.trains() && does_other_need(moves, places, train, *last, sections) {
        return false;
    }
    for number in 0..moves.trains() {
        if does_other_need(moves, places, train, TrainNo(number), sections) {
            *last = TrainNo(number);
            return false;
        }
    }
    true
}

/// Whether the other train is another one than the first, is inside, and needs one of the sections for a move that it has left.
fn does_other_need(
    moves: &Moves,
    places: &Places,
    train: TrainNo,
    other: TrainNo,
    sections: &[SectionNo],
) -> bool
    requires made { IsMadeFor moves.now places.now }
    requires other { other < length moves.now }
    requires in_range { (x : ℕ) → IsTrue (is_in x sections.now) → x < SECTIONS }
    ensures { result ≡ (not (other == train) && needs_later (moves_in moves.now) places.now.positions sections.now other) }
{
    let place = places.position(other);
    0 < place
        && place < moves.places(other)
        && other != train
        && does_need_from(moves, other, place, sections)
}

/// Whether the train needs one of the sections for a move that it has left at this place.
pub fn does_need_from(moves: &Moves, train: TrainNo, place: u16, sections: &[SectionNo]) -> bool
    requires train { train < length moves.now }
    requires in_range { (x : ℕ) → IsTrue (is_in x sections.now) → x < SECTIONS }
    ensures { result ≡ any_below (λ i. nat_le place i && not (are_apart ((moves_in moves.now).claim train i) sections.now))
        ((moves_in moves.now).moves train) }
{
    for section in sections {
        if moves.claims_after(train, place, *section) {
            return true;
        }
    }
    false
}
