//! Small plants as texts: the moves of the trains, and where they stand.
ghost use Rattle.std.specs.Prelude.{◌≡◌, ℕ, ◌+◌, ◌<◌, ◌≤◌, ◌∷◌, [], length, get_or, replicate, IsTrue, IfOk, All};
ghost use Rattle.std.specs.List.{list_all, list_any};
ghost use Rattle.rail_rules.specs.Moves.{is_valid, is_valid_move};
ghost use Rattle.rail_rules.specs.Numbers.{is_in};
ghost use Rattle.rail_place.specs.PlaceStates.{IsMadeFor};
ghost use Rattle.rail_place.specs.Tables.{moves_in, row_lists};

use rail_base::limits::{ITINERARY_ROUTES, ROUTE_SECTIONS, SECTIONS, TRAINS};
use rail_base::{SectionNo, Seq, TrainNo};
use rail_place::{Moves, Places, PlacesFault, SectionLists};
use std::alloc::{AllocError, Global};

/// The moves of the trains of the text. For each train it has the sections that each move needs, a slash,
/// and the sections on which the train stands after each move but the last. A section is a digit, or a
/// small letter from 10 on.
pub(super) fn moves_of(alloc: Global, trains: &str) -> Option<Moves> {
    let mut moves = Moves::new(alloc);
    if push_all(alloc, &mut moves, trains) {
        Some(moves)
    } else {
        None
    }
}

fn push_all(alloc: Global, moves: &mut Moves, trains: &str) -> bool {
    for train in trains.split(", ") {
        if !push(alloc, moves, train) {
            return false;
        }
    }
    true
}

/// Adds the train of the text. False where it has no valid moves, and where memory is not found.
fn push(alloc: Global, moves: &mut Moves, train: &str) -> bool {
    let Some((need, stand)) = train.split_once("/") else {
        return false;
    };
    match rows(alloc, need) {
        Ok(need) => match rows(alloc, stand) {
            Ok(stand) => push_rows(alloc, moves, need, stand),
            Err(_) => false,
        },
        Err(_) => false,
    }
}

fn push_rows(
    alloc: Global,
    moves: &mut Moves,
    need: Vec<Seq<SectionNo>>,
    stand: Vec<Seq<SectionNo>>,
) -> bool {
    let fits = usize::from(moves.trains()) < TRAINS && need.len() <= ITINERARY_ROUTES;
    if fits && row_is_small(&need) && row_is_valid(&need, &stand) {
        push_lists(alloc, moves, &need, &stand)
    } else {
        false
    }
}

/// Adds the train of these valid rows. False where memory is not found.
fn push_lists(
    alloc: Global,
    moves: &mut Moves,
    need: &[Seq<SectionNo>],
    stand: &[Seq<SectionNo>],
) -> bool
    requires room { length moves.old < TRAINS }
    requires short { length need.now ≤ ITINERARY_ROUTES }
    requires narrow { (m : ℕ) → length (get_or need.now m []) ≤ ROUTE_SECTIONS }
    requires in_range { (m x : ℕ) → IsTrue (is_in x (get_or need.now m [])) → x < SECTIONS }
    requires valid { IsTrue (is_valid (moves_in (row_lists need.now [] stand.now ∷ []))) }
{
    match lists(alloc, need) {
        Ok(need) => match lists(alloc, stand) {
            Ok(stand) => match no_overlaps(alloc, need.len()) {
                Ok(over) => moves.push_train(alloc, need, over, stand).is_ok(),
                Err(_) => false,
            },
            Err(_) => false,
        },
        Err(_) => false,
    }
}

/// The overlaps of so many moves that have none.
fn no_overlaps(alloc: Global, moves: usize) -> Result<SectionLists, AllocError>
    ensures { IfOk result (λ overs. overs ≡ replicate moves []) }
{
    let mut overs = SectionLists::with_capacity(alloc, moves, 0)?;
    for _ in 0..moves {
        overs.push(&[])?;
    }
    Ok(overs)
}

/// The rows as lists in one vector.
fn lists(alloc: Global, rows: &[Seq<SectionNo>]) -> Result<SectionLists, AllocError>
    ensures { IfOk result (λ lists. lists ≡ rows.now) }
{
    let mut lists = SectionLists::with_capacity(alloc, rows.len(), rows.len())?;
    for row in rows {
        lists.push(row.as_slice())?;
    }
    Ok(lists)
}

fn rows(alloc: Global, words: &str) -> Result<Vec<Seq<SectionNo>>, AllocError> {
    let mut rows = Vec::new(alloc);
    for word in words.split(" ") {
        rows.push(sections(alloc, word)?)?;
    }
    Ok(rows)
}

fn sections(alloc: Global, letters: &str) -> Result<Seq<SectionNo>, AllocError> {
    let mut sections = Vec::new(alloc);
    for letter in letters.as_bytes() {
        sections.push(SectionNo(number(*letter)))?;
    }
    Ok(Seq::from_vec(sections))
}

fn numbers(alloc: Global, letters: &str) -> Result<Vec<u16>, AllocError> {
    let mut numbers = Vec::new(alloc);
    for letter in letters.as_bytes() {
        numbers.push(number(*letter))?;
    }
    Ok(numbers)
}

/// The trains of the digits.
pub(super) fn trains_of(alloc: Global, digits: &str) -> Result<Vec<TrainNo>, AllocError> {
    let mut trains = Vec::new(alloc);
    for digit in digits.as_bytes() {
        trains.push(TrainNo(number(*digit)))?;
    }
    Ok(trains)
}

fn number(letter: u8) -> u16 {
    if letter < b'a' {
        u16::from(letter.saturating_sub(b'0'))
    } else {
        u16::from(letter - b'a' + 10)
    }
}

fn move_is_valid(need: &[Seq<SectionNo>], stand: &[Seq<SectionNo>], made: usize) -> bool
    requires { made + 1 < length need.now }
    ensures { IsTrue result → IsTrue (is_valid_move (moves_in (row_lists need.now [] stand.now ∷ [])) 0 made) }
{
    if made >= stand.len() {
        return false;
    }
    let standing = stand[made].as_slice();
    if standing.is_empty() || share_one(need[made + 1].as_slice(), standing) {
        return false;
    }
    all_in(standing, need[made].as_slice())
}

/// Some section stands in both.
fn share_one(needed: &[SectionNo], sections: &[SectionNo]) -> bool
    ensures { result ≡ list_any (λ x. is_in x sections.now) needed.now }
{
    needed.iter().any(|section| stands_in(*section, sections))
}

fn stands_in(section: SectionNo, sections: &[SectionNo]) -> bool
    ensures { result ≡ is_in section sections.now }
{
    sections.iter().any(|other| *other == section)
}

fn all_in(sections: &[SectionNo], needed: &[SectionNo]) -> bool
    ensures { result ≡ list_all (λ x. is_in x needed.now) sections.now }
{
    sections.iter().all(|section| stands_in(*section, needed))
}

fn row_is_valid(need: &[Seq<SectionNo>], stand: &[Seq<SectionNo>]) -> bool
    ensures { IsTrue result → IsTrue (is_valid (moves_in (row_lists need.now [] stand.now ∷ []))) }
{
    for made in 1..need.len() {
        if !move_is_valid(need, stand, made - 1) {
            return false;
        }
    }
    true
}

fn row_is_small(need: &[Seq<SectionNo>]) -> bool
    ensures narrow { IsTrue result → (m : ℕ) → length (get_or need.now m []) ≤ ROUTE_SECTIONS }
    ensures in_range { IsTrue result → (m x : ℕ) → IsTrue (is_in x (get_or need.now m [])) → x < SECTIONS }
{
    for row in need {
        if row.as_slice().len() > ROUTE_SECTIONS || !all_small(row.as_slice()) {
            return false;
        }
    }
    true
}

fn all_small(sections: &[SectionNo]) -> bool
    ensures { IsTrue result → (x : ℕ) → IsTrue (is_in x sections.now) → x < SECTIONS }
{
    for section in sections {
        if usize::from(section.0) >= SECTIONS {
            return false;
        }
    }
    true
}

/// Whether all trains of the list are trains of these moves.
pub(super) fn are_there(moves: &Moves, list: &[TrainNo]) -> bool
    ensures { IsTrue result → All (λ t. t < length moves.now) list.now }
{
    let trains = moves.trains();
    list.iter().all(|train| train.0 < trains)
}

/// The places with the trains there, by digits.
pub(super) fn places_at(alloc: Global, moves: &Moves, digits: &str) -> Result<Places, PlacesFault>
    ensures { IfOk result (IsMadeFor moves.now) }
{
    let positions = numbers(alloc, digits)?;
    if positions.len() != usize::from(moves.trains()) || !all_within(moves, &positions) {
        return Err(PlacesFault::OutOfMemory);
    }
    Places::new(alloc, moves, &positions)
}

fn all_within(moves: &Moves, positions: &[u16]) -> bool
    requires { length positions.now ≡ length moves.now }
    ensures { IsTrue result → (t : ℕ) → t < length moves.now → get_or positions.now t 0 ≤ (moves_in moves.now).moves t }
{
    let trains = moves.trains();
    for number in 0..trains {
        if positions[usize::from(number)] > moves.places(TrainNo(number)) {
            return false;
        }
    }
    true
}
