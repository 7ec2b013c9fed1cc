//! The moves of the trains: what each of them claims, and where the train stands after it.

ghost use Rattle.std.specs.Prelude.{◌≡◌, ℕ, suc, false, List, ◌+◌, ◌-◌, ◌<◌, ◌≤◌, ◌&&◌, [], ◌∷◌, ◌++◌, nat_le, length, get_or, set, IsTrue, OnOk, OnErr};
ghost use Rattle.rail_rules.specs.Numbers.{any_below, is_in};
ghost use Rattle.rail_rules.specs.Moves.{is_valid, stand};
ghost use Rattle.rail_place.specs.Lasts.{TellsEnds, last_claim};
ghost use Rattle.rail_place.specs.Tables.{AreFirsts, MoveLists, no_lists};

use crate::claims::claims_of;
use crate::lasts::{first_claims, last_claims};
use crate::section_lists::SectionLists;
use rail_base::limits::{ITINERARY_ROUTES, OVERLAP_SECTIONS, ROUTE_SECTIONS, SECTIONS, TRAINS};
use rail_base::{OutOfMemory, SectionNo, TrainNo};
use std::alloc::{AllocError, Global};
use std::marker::Model;
use std::mem;
use std::rc::Rc;

/// The moves of one train, or of several that make the same ones.
#[derive(Debug, Drop)]
struct Row {
    claims: SectionLists,
    overs: SectionLists,
    stands: SectionLists,
    /// For each section the last move that claims it, so that no moves are looked through for it.
    lasts: Vec<u16>,
    /// For each section the first move that claims it.
    firsts: Vec<u16>,
}

/// The moves of all trains: the sections that each move claims, its route's in order and then those of the overlap, and
/// the sections on which the train stands after it. Trains count from 0, places and moves from 1: the train at place
/// `i` has made its moves 1 to `i`. Trains that make the same moves share them.
#[derive(Debug)]
pub struct Moves {
    rows: Vec<Rc<Row>>,
    /// For each train the first one whose moves it shares, or itself. It is empty once moves were exchanged.
    firsts: Vec<u16>,
}

impl Drop for Moves {
    fn drop(self) {
        let Moves {
            rows: _rows,
            firsts: _firsts,
        } = self;
    }
}

impl Model for Moves {
    ghost use Rattle.std.specs.Prelude.{ℕ, List};
    ghost use Rattle.std.specs.Prelude.{map};
    ghost use Rattle.std.specs.List.{All};
    ghost use Rattle.rail_place.specs.Lasts.{TellsEnds};
    ghost use Rattle.rail_place.specs.Tables.{AreFirsts, EndWith, IsTable, MoveLists, row_lists};

    ghost Value = { List MoveLists };

    ghost view = { λ moves. map (λ row. row_lists row.value.claims row.value.overs row.value.stands) moves.rows.items };

    ghost invariant = { λ moves. IsTable (map (λ row. row_lists row.value.claims row.value.overs row.value.stands) moves.rows.items)
        × All (λ row. TellsEnds row.value.claims row.value.lasts.items row.value.firsts.items) moves.rows.items
        × All (λ row. EndWith row.value.claims row.value.overs) moves.rows.items
        × AreFirsts (map (λ row. row_lists row.value.claims row.value.overs row.value.stands) moves.rows.items) moves.firsts.items };
}

impl Moves {
    ghost use Rattle.rail_place.specs.Tables.{EndWith, EndsWith, IsTable, joined, lists_of, moves_in, over_of, row_lists};

    /// No trains. It takes no memory.
    pub fn new(alloc: Global) -> Moves
        ensures { result ≡ [] }
    {
        Moves {
            rows: Vec::new(alloc),
            firsts: Vec::new(alloc),
        }
    }

    /// Adds a train as the last one: the sections that each of its moves needs, those of each move's overlap, and the
    /// sections on which it stands after each move. A move claims what it needs and then its overlap. The last move
    /// leads out, and needs no standing set. Where memory is not found nothing is changed.
    pub fn push_train(
        &mut self,
        alloc: Global,
        need: SectionLists,
        over: SectionLists,
        stand: SectionLists,
    ) -> Result<(), OutOfMemory>
        requires room { length self.old < TRAINS }
        requires short { length need ≤ ITINERARY_ROUTES }
        requires over { length over ≡ length need }
        requires narrow { (m : ℕ) → length (get_or (joined need over) m []) ≤ ROUTE_SECTIONS + OVERLAP_SECTIONS }
        requires in_range { (m x : ℕ) → IsTrue (is_in x (get_or (joined need over) m [])) → x < SECTIONS }
        requires valid { IsTrue (is_valid (moves_in (lists_of need over stand ∷ []))) }
        ensures ok { OnOk result (self.new ≡ self.old ++ lists_of need over stand ∷ []) }
        ensures err { OnErr result (self.new ≡ self.old) }
    {
        let Ok(claims) = claims_of(alloc, need, &over) else {
            return Err(OutOfMemory);
        };
        let Ok(lasts) = last_claims(alloc, &claims) else {
            return Err(OutOfMemory);
        };
        let Ok(firsts) = first_claims(alloc, &claims) else {
            return Err(OutOfMemory);
        };
        let Ok(row) = Rc::new(
            alloc,
            Row {
                claims,
                overs: over,
                stands: stand,
                lasts,
                firsts,
            },
        ) else {
            return Err(OutOfMemory);
        };
        let first = self.rows.len() as u16;
        self.push_row(row, first)
    }

    /// Adds a train as the last one that makes the moves of this one, and shares them. Where memory is not found nothing is
    /// changed.
    pub fn push_like(&mut self, train: TrainNo) -> Result<(), OutOfMemory>
        requires room { length self.old < TRAINS }
        requires train { train < length self.old }
        ensures ok { OnOk result (self.new ≡ self.old ++ get_or self.old train no_lists ∷ []) }
        ensures err { OnErr result (self.new ≡ self.old) }
    {
        let Ok(row) = self.rows[usize::from(train.0)].clone() else {
            return Err(OutOfMemory);
        };
        let first = self.first_like(train);
        self.push_row(row, first.0)
    }

    /// Adds a train as the last one with this row, which is that of the train `first` where it is not its own.
    fn push_row(&mut self, row: Rc<Row>, first: u16) -> Result<(), OutOfMemory>
        requires table { IsTable (self.old ++ row_lists row.value.claims row.value.overs row.value.stands ∷ []) }
        requires told { TellsEnds row.value.claims row.value.lasts.items row.value.firsts.items }
        requires ends { EndWith row.value.claims row.value.overs }
        requires before { first ≤ length self.old }
        requires same { get_or (self.old ++ row_lists row.value.claims row.value.overs row.value.stands ∷ []) first no_lists
            ≡ row_lists row.value.claims row.value.overs row.value.stands }
        ensures ok { OnOk result (self.new ≡ self.old ++ row_lists row.value.claims row.value.overs row.value.stands ∷ []) }
        ensures err { OnErr result (self.new ≡ self.old) }
    {
        if self.rows.reserve(1).is_err() {
            return Err(OutOfMemory);
        }
        let Ok(()) = note_first(&mut self.firsts, self.rows.len(), first) else {
            return Err(OutOfMemory);
        };
        self.rows.push_reserved(row);
        Ok(())
    }

    /// The first train that shares its moves with this one, which is the train itself where no earlier one does. Once moves
    /// were exchanged, it is not known which trains share theirs, and each is its own first one.
    pub fn first_like(&self, train: TrainNo) -> TrainNo
        requires { train < length self.now }
        ensures before { result ≤ train }
        ensures same { get_or self.now result no_lists ≡ get_or self.now train no_lists }
    {
        match self.firsts.get(usize::from(train.0)) {
            Some(first) => TrainNo(*first),
            None => train,
        }
    }

    /// Exchanges the moves of the train with those of the first train of the other table. It takes no memory.
    pub fn exchange(&mut self, train: TrainNo, others: &mut Moves)
        requires train { train < length self.old }
        requires some { 0 < length others.old }
        ensures here { self.new ≡ set self.old train (get_or others.old 0 no_lists) }
        ensures there { others.new ≡ set others.old 0 (get_or self.old train no_lists) }
    {
        self.firsts.clear();
        others.firsts.clear();
        mem::swap(&mut self.rows[usize::from(train.0)], &mut others.rows[0]);
    }

    /// The number of trains.
    pub fn trains(&self) -> u16
        ensures count { result ≡ length self.now }
        ensures table { IsTable self.now }
    {
        self.rows.len() as u16
    }

    /// The number of moves of the train, which is the number of its places.
    pub fn places(&self, train: TrainNo) -> u16
        requires { train < length self.now }
        ensures { result ≡ (moves_in self.now).moves train }
    {
        self.row(train).claims.len() as u16
    }

    /// The sections that the train's move to this place claims, in order: those that it needs, and then its overlap.
    pub fn claim(&self, train: TrainNo, place: u16) -> &[SectionNo]
        requires train { train < length self.now }
        requires first { 1 ≤ place }
        requires last { place ≤ (moves_in self.now).moves train }
        ensures sections { result.now ≡ (moves_in self.now).claim train (place - 1) }
        ensures in_range { (x : ℕ) → IsTrue (is_in x result.now) → x < SECTIONS }
    {
        self.row(train).claims.at(usize::from(place) - 1)
    }

    /// The sections that the train's move to this place needs, in route order: what it claims without its overlap.
    pub fn need(&self, train: TrainNo, place: u16) -> &[SectionNo]
        requires train { train < length self.now }
        requires first { 1 ≤ place }
        requires last { place ≤ (moves_in self.now).moves train }
        ensures { (moves_in self.now).claim train (place - 1) ≡ result.now ++ over_of self.now train (place - 1) }
    {
        let claim = self.claim(train, place);
        let over = self.over(train, place);
        &claim[..claim.len() - over.len()]
    }

    /// The sections of the overlap of the train's move to this place, in order.
    pub fn over(&self, train: TrainNo, place: u16) -> &[SectionNo]
        requires train { train < length self.now }
        requires first { 1 ≤ place }
        requires last { place ≤ (moves_in self.now).moves train }
        ensures sections { result.now ≡ over_of self.now train (place - 1) }
        ensures fits { length result.now ≤ length ((moves_in self.now).claim train (place - 1)) }
        ensures ends { EndsWith ((moves_in self.now).claim train (place - 1)) result.now }
    {
        self.row(train).overs.at(usize::from(place) - 1)
    }

    /// The sections on which the train stands at this place: none at place 0 and at the last one.
    pub fn stand(&self, train: TrainNo, place: u16) -> &[SectionNo]
        requires train { train < length self.now }
        requires last { place ≤ (moves_in self.now).moves train }
        ensures sections { result.now ≡ stand (moves_in self.now) train place }
        ensures in_range { (x : ℕ) → IsTrue (is_in x result.now) → x < SECTIONS }
    {
        let row = self.row(train);
        let place = usize::from(place);
        if 0 < place && place < row.claims.len() {
            row.stands.at(place - 1)
        } else {
            &[]
        }
    }

    /// Whether the train's move to this place claims the section. The sections of the move are looked at only
    /// where the train makes this or an earlier move over the section, and this or a later one.
    pub fn claims(&self, train: TrainNo, place: u16, section: SectionNo) -> bool
        requires train { train < length self.now }
        requires first { 1 ≤ place }
        requires last { place ≤ (moves_in self.now).moves train }
        requires section { section < SECTIONS }
        ensures { result ≡ is_in section ((moves_in self.now).claim train (place - 1)) }
    {
        if place < self.first_claim(train, section) {
            return false;
        }
        place <= self.last_claim(train, section)
            && self
                .claim(train, place)
                .iter()
                .any(|claimed| *claimed == section)
    }

    /// Whether one of so many moves of the train, in turn from the one at this place on, claims the section. No move is
    /// looked at where they all come before the first one of the train over the section.
    pub fn claims_within(&self, train: TrainNo, place: u16, count: u16, section: SectionNo) -> bool
        requires train { train < length self.now }
        requires last { place + count ≤ (moves_in self.now).moves train }
        requires section { section < SECTIONS }
        ensures { result ≡ any_below (λ m. is_in section ((moves_in self.now).claim train (place + m))) count }
    {
        let first = self.first_claim(train, section);
        if place + count < first {
            return false;
        }
        for step in 0..count {
            if self.claims(train, place + step + 1, section) {
                return true;
            }
        }
        false
    }

    /// Whether the train claims the section for a move that it has left at this place.
    pub fn claims_after(&self, train: TrainNo, place: u16, section: SectionNo) -> bool
        requires train { train < length self.now }
        requires section { section < SECTIONS }
        ensures { result ≡ any_below (λ m. nat_le place m && is_in section ((moves_in self.now).claim train m))
            ((moves_in self.now).moves train) }
    {
        place < self.last_claim(train, section)
    }

    /// The last move of the train that claims the section, counted from 1, and 0 where none does.
    fn last_claim(&self, train: TrainNo, section: SectionNo) -> u16
        requires train { train < length self.now }
        requires section { section < SECTIONS }
        ensures { result ≡ last_claim (moves_in self.now) train section }
    {
        self.row(train).lasts[usize::from(section.0)]
    }

    /// The first move of the train that claims the section, counted from 1, and 0 where none does.
    fn first_claim(&self, train: TrainNo, section: SectionNo) -> u16
        requires train { train < length self.now }
        requires section { section < SECTIONS }
        ensures table { IsTable self.now }
        ensures none { (m : ℕ) → suc m < result → is_in section ((moves_in self.now).claim train m) ≡ false }
    {
        self.row(train).firsts[usize::from(section.0)]
    }

    /// What is kept of the train.
    fn row(&self, train: TrainNo) -> &Row
        requires { train < length self.now }
        ensures table { IsTable self.now }
        ensures lists { get_or self.now train no_lists ≡ row_lists result.now.claims result.now.overs result.now.stands }
        ensures told { TellsEnds result.now.claims result.now.lasts.items result.now.firsts.items }
        ensures ends { EndWith result.now.claims result.now.overs }
    {
        &self.rows[usize::from(train.0)]
    }
}

/// Notes the first train that shares its moves with one that comes behind so many others, unless it is not known of all
/// of these. Where memory is not found nothing is changed.
fn note_first(firsts: &mut Vec<u16>, trains: usize, first: u16) -> Result<(), AllocError>
    requires { first ≤ trains }
    ensures ok { (table : List MoveLists) (row : MoveLists) → length table ≡ trains → AreFirsts table firsts.old.items
        → get_or (table ++ row ∷ []) first no_lists ≡ row → OnOk result (AreFirsts (table ++ row ∷ []) firsts.new.items) }
    ensures err { OnErr result (firsts.new.items ≡ firsts.old.items) }
{
    if firsts.len() == trains {
        firsts.push(first)?;
    }
    Ok(())
}
