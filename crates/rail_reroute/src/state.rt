//! What a state of places leads to.

ghost use Rattle.std.specs.Prelude.{◌≡◌, ◌≤◌, ◌<◌, ℕ, List as ListOf, length, set, slice_index, IfOk, IsTrue};
ghost use Rattle.std.specs.List.{list_all};
ghost use Rattle.rail_place.specs.PlaceStates.{IsMadeFor};
ghost use Rattle.rail_place.specs.Overlaps.{IsFault, IsOverlap};
ghost use Rattle.rail_place.specs.Tables.{moves_in};
ghost use Rattle.rail_consequence.specs.AnalystStates.{IsAnalystFor};
ghost use Rattle.rail_rules.specs.Analysis.{Finds};
ghost use Rattle.rail_rules.specs.Moves.{Moves as Plan, stand};
ghost use Rattle.rail_rules.specs.Places.{place_of};
ghost use Rattle.rail_reroute.specs.Judgements.{LeadsTo};
ghost use Rattle.rail_reroute.specs.Judges.{is_unheld};
ghost use Rattle.rail_reroute.specs.declared.judgements.Judged.TheVariants.{List, Overlap};

use crate::judgements::Judged;
use rail_base::{OutOfMemory, SectionNo, Seq, TrainNo};
use rail_consequence::Analyst;
use rail_place::{Moves, Places, PlacesFault};
use std::alloc::Global;

/// What the state leads to in which the trains stand at these places, by so many free legs at most. In the places that are
/// handed in this train alone stands elsewhere, outside; it is put where it stands, and back behind the search. Where it is known
/// that nothing is found, nothing is searched.
pub fn find_way(
    alloc: Global,
    moves: &Moves,
    analyst: &mut Analyst,
    depth: u8,
    places: &mut Places,
    positions: &[u16],
    train: TrainNo,
    fails: bool,
) -> Result<Judged, OutOfMemory>
    requires own { IsAnalystFor (moves_in moves.now) analyst.old }
    requires made { IsMadeFor moves.now places.old }
    requires train { train < length moves.now }
    requires outside { place_of places.old.positions train ≡ 0 }
    requires others { set places.old.positions train (place_of positions.now train) ≡ positions.now }
    requires long { length positions.now ≡ length moves.now }
    requires within { (t : ℕ) → t < length moves.now → slice_index positions.now t ≤ (moves_in moves.now).moves t }
    requires fails { IsTrue fails → Finds (moves_in moves.now) depth positions.now → ⊥ }
    ensures own { IsAnalystFor (moves_in moves.now) analyst.new }
    ensures made { IsMadeFor moves.now places.new }
    ensures positions { places.new.positions ≡ places.old.positions }
    ensures answer { IfOk result (LeadsTo (moves_in moves.now) depth positions.now) }
{
    let place = positions[usize::from(train.0)];
    if !is_free(moves, places, train, place) {
        return find_anew(alloc, moves, analyst, depth, positions);
    }
    places.put(moves, train, place);
    let answer = find_list(alloc, moves, analyst, depth, places, fails);
    places.put(moves, train, 0);
    answer
}

/// Whether nobody holds a section on which the train stands at the place.
fn is_free(moves: &Moves, places: &Places, train: TrainNo, place: u16) -> bool
    requires train { train < length moves.now }
    requires within { place ≤ (moves_in moves.now).moves train }
    ensures { result ≡ list_all (is_unheld places.now.owners) (stand (moves_in moves.now) train place) }
{
    moves
        .stand(train, place)
        .iter()
        .all(|section| is_unheld(places, *section))
}

/// Whether nobody holds the section.
fn is_unheld(places: &Places, section: SectionNo) -> bool
    ensures { result ≡ is_unheld places.now.owners section }
{
    places.holder(section).is_none()
}

/// What the state leads to in which the trains stand at these places, by so many free legs at most; the places are made.
fn find_anew(
    alloc: Global,
    moves: &Moves,
    analyst: &mut Analyst,
    depth: u8,
    positions: &[u16],
) -> Result<Judged, OutOfMemory>
    requires own { IsAnalystFor (moves_in moves.now) analyst.old }
    requires long { length positions.now ≡ length moves.now }
    requires within { (t : ℕ) → t < length moves.now → slice_index positions.now t ≤ (moves_in moves.now).moves t }
    ensures own { IsAnalystFor (moves_in moves.now) analyst.new }
    ensures answer { IfOk result (LeadsTo (moves_in moves.now) depth positions.now) }
{
    match Places::new(alloc, moves, positions) {
        Ok(places) => find_list(alloc, moves, analyst, depth, &places, false),
        Err(fault) => found_for(fault),
    }
}

/// What a fault of the places says of them.
fn found_for(fault: PlacesFault) -> Result<Judged, OutOfMemory>
    ensures { (plan : Plan) (s : ListOf ℕ) → IsFault plan s fault → IfOk result (λ found. (x first second : ℕ)
        × (found ≡ Overlap x first second) × IsOverlap plan s x first second) }
{
    match fault {
        PlacesFault::OutOfMemory => Err(OutOfMemory),
        PlacesFault::Overlap {
            section,
            first,
            second,
        } => Ok(Judged::Overlap {
            section,
            first,
            second,
        }),
    }
}

/// A list that brings every train inside from the places to its exit, or that none is found, where this isn't known.
fn find_list(
    alloc: Global,
    moves: &Moves,
    analyst: &mut Analyst,
    depth: u8,
    places: &Places,
    fails: bool,
) -> Result<Judged, OutOfMemory>
    requires made { IsMadeFor moves.now places.now }
    requires own { IsAnalystFor (moves_in moves.now) analyst.old }
    requires fails { IsTrue fails → Finds (moves_in moves.now) depth places.now.positions → ⊥ }
    ensures own { IsAnalystFor (moves_in moves.now) analyst.new }
    ensures answer { IfOk result (LeadsTo (moves_in moves.now) depth places.now.positions) }
{
    if fails {
        return Ok(Judged::NoList);
    }
    match analyst.find(moves, places, depth) {
        Some(list) => listed(alloc, list),
        None => Ok(Judged::NoList),
    }
}

/// That this list was found.
fn listed(alloc: Global, list: &[TrainNo]) -> Result<Judged, OutOfMemory>
    ensures { IfOk result (λ found. found ≡ List list.now) }
{
    Ok(Judged::List(Seq::from_vec(list.to_vec(alloc)?)))
}
