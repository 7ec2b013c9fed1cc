//! What each train needs and where it stands, as sets: for each of its places.

ghost use Rattle.std.specs.Prelude.{◌≡◌, ℕ, ◌+◌, ◌*◌, ◌<◌, ◌≤◌, [], get_or, length, map, vec_capacity, IfOk, IsTrue};
ghost use Rattle.rail_rules.specs.Moves.{stand};
ghost use Rattle.rail_rules.specs.Numbers.{is_in};
ghost use Rattle.rail_place.specs.Tables.{IsTable, moves_in};
ghost use Rattle.rail_sets.specs.declared.sets.TheConstants.{WORDS};
ghost use Rattle.rail_consequence.specs.Needs.{needs_from};
ghost use Rattle.rail_consequence.specs.Needs.{AreWords, IsPlaceSets, IsRowsOf, IsSet, IsSetRow, with_row};

use crate::width::Width;
use rail_base::{OutOfMemory, TrainNo};
use rail_place::Moves;
use rail_sets::{WORDS, add_all, join, width_of};
use std::alloc::{AllocError, Global};
use std::marker::Model;
use std::mem;
use std::rc::Rc;

/// The sections of a train at one of its places, as sets.
#[derive(Clone, Copy, Debug)]
pub struct PlaceSets {
    /// Those that its next move needs.
    need: [u64; WORDS],
    /// Those that the moves need that it has left.
    rest: [u64; WORDS],
    /// Those on which it stands.
    stand: [u64; WORDS],
}

/// The sets of one train, or of several that make the same moves, from place 0 to its last place.
#[derive(Debug, Drop)]
struct Row {
    places: Vec<PlaceSets>,
}

impl Model for Row {
    ghost use Rattle.std.specs.Prelude.{◌≡◌, List, length, vec_capacity};
    ghost use Rattle.rail_consequence.specs.declared.rows.PlaceSets.{PlaceSets};

    ghost Value = { List PlaceSets };

    ghost view = { λ row. row.places.items };

    ghost invariant = { λ row. vec_capacity row.places ≡ length row.places.items };
}

/// The sets of all trains, and the words that such a set takes. Trains that share their moves share their sets.
#[derive(Debug)]
pub struct Rows {
    width: usize,
    rows: Vec<Rc<Row>>,
}

impl Drop for Rows {
    fn drop(self) {
        let Rows {
            width: _width,
            rows: _rows,
        } = self;
    }
}

impl Model for Rows {
    ghost use Rattle.std.specs.Prelude.{◌≡◌, length, map, vec_capacity};
    ghost use Rattle.rail_consequence.specs.Needs.{SetRows};

    ghost Value = { SetRows };

    ghost view = { λ rows. record { width = rows.width; rows = map (λ row. row.value) rows.rows.items } };

    ghost invariant = { λ rows. vec_capacity rows.rows ≡ length rows.rows.items };
}

impl Rows {
    /// The sets of the moves, with all the memory that they ever take.
    pub fn new(alloc: Global, moves: &Moves) -> Result<Rows, OutOfMemory>
        ensures { IfOk result (IsRowsOf (moves_in moves.now)) }
    {
        let mut rows = Vec::with_capacity(alloc, usize::from(moves.trains()))?;
        let mut width = 0;
        for number in 0..moves.trains() {
            let row = row_behind(alloc, moves, TrainNo(number), rows.as_slice())?;
            width = row.width(moves, TrainNo(number)).max(width);
            rows.push_reserved(row);
        }
        Ok(Rows { width, rows })
    }

    /// The same sets, shared with these.
    pub fn shared(&self, alloc: Global) -> Result<Rows, OutOfMemory>
        ensures { IfOk result (λ rows. rows ≡ self.now) }
    {
        Ok(Rows {
            width: self.width,
            rows: shared_rows(alloc, &self.rows)?,
        })
    }

    /// Exchanges the sets of the train with those of the first train of the other sets. Both take as many words then as the
    /// wider ones took.
    pub fn exchange(&mut self, train: TrainNo, others: &mut Rows)
        requires train { train < length self.old.rows }
        requires some { 0 < length others.old.rows }
        ensures here { self.new ≡ with_row self.old others.old.width train (get_or others.old.rows 0 []) }
        ensures there { others.new ≡ with_row others.old self.old.width 0 (get_or self.old.rows train []) }
    {
        let width = self.width.max(others.width);
        self.width = width;
        others.width = width;
        mem::swap(&mut self.rows[usize::from(train.0)], &mut others.rows[0]);
    }

    /// The words that a set takes.
    pub fn width(&self) -> usize
        ensures { result ≡ self.now.width }
    {
        self.width
    }

    /// The sections that the train's next move needs at the place.
    #[inline(always)]
    pub fn need<W: Width>(&self, moves: &Moves, train: TrainNo, place: u16) -> &[u64]
        requires words { AreWords (moves_in moves.now) W.WORDS }
        requires rows { IsRowsOf (moves_in moves.now) self.now }
        requires train { train < length moves.now }
        requires within { place ≤ (moves_in moves.now).moves train }
        ensures set { IsSet result.now (λ x. is_in x ((moves_in moves.now).claim train place)) }
        ensures long { length result.now ≡ W.WORDS }
    {
        &self.at(moves, train, place).need[..W::WORDS]
    }

    /// The sections that the moves need that the train has left at the place.
    #[inline(always)]
    pub fn rest<W: Width>(&self, moves: &Moves, train: TrainNo, place: u16) -> &[u64]
        requires words { AreWords (moves_in moves.now) W.WORDS }
        requires rows { IsRowsOf (moves_in moves.now) self.now }
        requires train { train < length moves.now }
        requires within { place ≤ (moves_in moves.now).moves train }
        ensures set { IsSet result.now (needs_from (moves_in moves.now) train place) }
        ensures long { length result.now ≡ W.WORDS }
    {
        &self.at(moves, train, place).rest[..W::WORDS]
    }

    /// The sections on which the train stands at the place.
    #[inline(always)]
    pub fn stand<W: Width>(&self, moves: &Moves, train: TrainNo, place: u16) -> &[u64]
        requires words { AreWords (moves_in moves.now) W.WORDS }
        requires rows { IsRowsOf (moves_in moves.now) self.now }
        requires table { IsTable moves.now }
        requires train { train < length moves.now }
        requires within { place ≤ (moves_in moves.now).moves train }
        ensures set { IsSet result.now (λ x. is_in x (stand (moves_in moves.now) train place)) }
        ensures long { length result.now ≡ W.WORDS }
    {
        &self.at(moves, train, place).stand[..W::WORDS]
    }

    /// The sets of the train at the place.
    #[inline(always)]
    fn at(&self, moves: &Moves, train: TrainNo, place: u16) -> &PlaceSets
        requires rows { IsRowsOf (moves_in moves.now) self.now }
        requires train { train < length moves.now }
        requires within { place ≤ (moves_in moves.now).moves train }
        ensures { IsPlaceSets (moves_in moves.now) train place result.now }
    {
        &self.rows[usize::from(train.0)].places[usize::from(place)]
    }
}

/// The same rows, shared with these.
fn shared_rows(alloc: Global, rows: &[Rc<Row>]) -> Result<Vec<Rc<Row>>, OutOfMemory>
    ensures rows { IfOk result (λ all. map (λ row. row.value) all.items ≡ map (λ row. row.value) rows.now) }
    ensures room { IfOk result (λ all. vec_capacity all ≡ length all.items) }
{
    let mut all = Vec::with_capacity(alloc, rows.len())?;
    for row in rows {
        all.push_reserved(row.clone()?);
    }
    Ok(all)
}

/// The row of the train behind those of all trains before it: that of the first one with its moves, or its own.
fn row_behind(
    alloc: Global,
    moves: &Moves,
    train: TrainNo,
    rows: &[Rc<Row>],
) -> Result<Rc<Row>, OutOfMemory>
    requires table { IsTable moves.now }
    requires train { train < length moves.now }
    requires rows { length rows.now ≡ train }
    requires told { (t : ℕ) → t < train
        → IsSetRow (moves_in moves.now) t ((moves_in moves.now).moves t + 1) (get_or (map (λ row. row.value) rows.now) t []) }
    ensures { IfOk result (λ row. IsSetRow (moves_in moves.now) train ((moves_in moves.now).moves train + 1) row.value) }
{
    let first = moves.first_like(train);
    if first.0 < train.0 {
        return Ok(rows[usize::from(first.0)].clone()?);
    }
    let row = Row::new(alloc, moves, train)?;
    match Rc::new(alloc, row) {
        Ok(row) => Ok(row),
        Err(_) => Err(OutOfMemory),
    }
}

impl Row {
    /// The sets of the train.
    fn new(alloc: Global, moves: &Moves, train: TrainNo) -> Result<Row, AllocError>
        requires table { IsTable moves.now }
        requires train { train < length moves.now }
        ensures { IfOk result (IsSetRow (moves_in moves.now) train ((moves_in moves.now).moves train + 1)) }
    {
        let last = moves.places(train);
        let mut places = Vec::with_capacity(alloc, usize::from(last) + 1)?;
        let mut later = [0u64; WORDS];
        for back in 0..last + 1 {
            let sets = PlaceSets::new(moves, train, last - back, &later);
            later = sets.rest;
            places.push_reserved(sets);
        }
        places.reverse();
        Ok(Row { places })
    }

    /// The words that the sets of the train take.
    fn width(&self, moves: &Moves, train: TrainNo) -> usize
        requires row { IsSetRow (moves_in moves.now) train ((moves_in moves.now).moves train + 1) self.now }
        requires train { train < length moves.now }
        ensures all { (i x : ℕ) → IsTrue (is_in x ((moves_in moves.now).claim train i)) → x < 64 * result }
        ensures few { result ≤ WORDS }
    {
        width_of(&self.places[0].rest)
    }
}

impl PlaceSets {
    /// The sets of the train at the place, of which behind it the moves that are left need the sections `later`.
    fn new(moves: &Moves, train: TrainNo, place: u16, later: &[u64; WORDS]) -> PlaceSets
        requires table { IsTable moves.now }
        requires train { train < length moves.now }
        requires within { place ≤ (moves_in moves.now).moves train }
        requires later { IsSet later.now (needs_from (moves_in moves.now) train (place + 1)) }
        ensures { IsPlaceSets (moves_in moves.now) train place result }
    {
        let need = need_at(moves, train, place);
        let mut rest = need;
        join(&mut rest, later);
        let mut stand = [0u64; WORDS];
        add_all(&mut stand, moves.stand(train, place));
        PlaceSets { need, rest, stand }
    }
}

/// The sections that the train's next move needs at the place.
fn need_at(moves: &Moves, train: TrainNo, place: u16) -> [u64; WORDS]
    requires train { train < length moves.now }
    requires within { place ≤ (moves_in moves.now).moves train }
    ensures { IsSet result (λ x. is_in x ((moves_in moves.now).claim train place)) }
{
    let mut need = [0u64; WORDS];
    if place == moves.places(train) {
        return need;
    }
    add_all(&mut need, moves.claim(train, place + 1));
    need
}
