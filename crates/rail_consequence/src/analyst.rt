//! The analyst, and the worksheet on which it searches.

ghost use Rattle.std.specs.Prelude.{◌≡◌, ℕ, ◌+◌, ◌-◌, ◌<◌, ◌≤◌, ◌≢◌, ◌↔◌, [], ◌++◌, List, None, false, get_or, length, take, drop, set, IsTrue, IsNone, IfOk, IfSome, is_some, nat_eq};
ghost use Rattle.std.specs.List.{suffix_len};
ghost use Rattle.rail_rules.specs.Analysis.{Finds, is_leg, moves_left};
ghost use Rattle.rail_rules.specs.Places.{completes, is_inside, nobody_inside, place_of};
ghost use Rattle.rail_place.specs.PlaceStates.{IsMadeFor};
ghost use Rattle.rail_place.specs.Plays.{IsPlayed};
ghost use Rattle.rail_place.specs.Tables.{IsTable, moves_in};
ghost use Rattle.rail_rules.specs.Moves.{Moves as Plan, stand};
ghost use Rattle.rail_rules.specs.Numbers.{are_apart};
ghost use Rattle.rail_consequence.specs.AnalystStates.{AreAlikeBut, IsAnalystFor, IsAnswered, IsAsideFor};
ghost use Rattle.rail_consequence.specs.Needs.{AreRowsFor, AreWords, IsCounted, IsRowsOf, IsSet, with_row};
ghost use Rattle.rail_consequence.specs.Searches.{leg_to};
ghost use Rattle.rail_consequence.specs.Workspace.{GoesOn, IsListing, IsPlayedFrom, IsReady};

use crate::needs::recount;
use crate::notes::SearchNotes;
use crate::rows::Rows;
use crate::tally::{NeedTally, stands_inside};
use crate::train_list::TrainList;
use crate::width::{All, Four, One, Three, Two, Width};
use rail_base::limits::LIST_TRAINS;
use rail_base::{OutOfMemory, TrainNo, add_copies};
use rail_place::{Moves, Places};
use rail_sets::{Counts, TrainSet, WORDS, join, replace};
use std::alloc::Global;
use std::marker::Model;
use std::mem;

mod closing;
mod freeing;
mod playing;
mod searching;

/// Finds lists of moves that bring every train inside to its exit. It keeps places of its own and room
/// for the longest list, so that a search takes no memory. It belongs to the moves for which it was made:
/// the needs of the moves that are left are counted once, and then follow the places from search to search.
#[derive(Debug)]
pub struct Analyst {
    /// The trains that were inside when the last search began, by number.
    inside: TrainList,
    /// The needs at the places from which the last search began.
    tally: NeedTally,
    /// What is noted of the trains there.
    notes: SearchNotes,
    sheet: Worksheet,
    /// The core of the last search that failed.
    core: TrainSet,
}

impl Drop for Analyst {
    fn drop(self) {
        let Analyst {
            inside: _inside,
            tally: _tally,
            notes: _notes,
            sheet: _sheet,
            core: _core,
        } = self;
    }
}

impl Model for Analyst {
    ghost use Rattle.rail_consequence.specs.AnalystStates.{Tallied};

    ghost Value = { Tallied };

    ghost view = { λ analyst. record { inside = analyst.inside; tally = analyst.tally; notes = analyst.notes; rows = analyst.sheet.rows; list = analyst.sheet.list; core = analyst.core } };
}

/// What a search works on. Nobody enters in a search: the calls that go over trains are handed a list
/// of those that were inside when it began, and look at no others.
#[derive(Debug, Drop)]
struct Worksheet {
    rows: Rows,
    places: Places,
    /// The sections that are taken at the places.
    taken: [u64; WORDS],
    needs: Counts,
    list: Vec<TrainNo>,
    /// How often a train was put to another place.
    legs: u64,
}

impl Model for Worksheet {
    ghost use Rattle.rail_consequence.specs.Workspace.{IsSheet, Work};

    ghost Value = { Work };

    ghost view = { λ sheet. record { rows = sheet.rows; places = sheet.places; taken = sheet.taken; needs = sheet.needs; list = sheet.list.items } };

    ghost invariant = { λ sheet. IsSheet sheet.rows sheet.places sheet.needs sheet.list };
}

impl Analyst {
    ghost use Rattle.std.specs.Borrow.{sem};
    ghost use Rattle.rail_consequence.specs.Analysts.{StaysFor};

    /// An analyst, with all the memory that it ever takes.
    pub fn new(alloc: Global, moves: &Moves) -> Result<Analyst, OutOfMemory>
        ensures { IfOk result (IsAnalystFor (moves_in moves.now)) }
    {
        let rows = Rows::new(alloc, moves)?;
        Analyst::over(alloc, moves, rows)
    }

    /// A second analyst for the same moves, with all the memory that it ever takes. It shares the sets of this one.
    pub fn beside(&self, alloc: Global, moves: &Moves) -> Result<Analyst, OutOfMemory>
        requires own { IsAnalystFor (moves_in moves.now) self.now }
        ensures { IfOk result (IsAnalystFor (moves_in moves.now)) }
    {
        let rows = self.sheet.rows().shared(alloc)?;
        Analyst::over(alloc, moves, rows)
    }

    /// An analyst with these sets of the moves.
    fn over(alloc: Global, moves: &Moves, rows: Rows) -> Result<Analyst, OutOfMemory>
        requires rows { IsRowsOf (moves_in moves.now) rows }
        ensures { IfOk result (IsAnalystFor (moves_in moves.now)) }
    {
        Ok(Analyst {
            inside: TrainList::new(alloc)?,
            tally: NeedTally::new(alloc, moves)?,
            notes: SearchNotes::none(),
            sheet: Worksheet::over(alloc, moves, rows)?,
            core: TrainSet::none(),
        })
    }

    /// A list of moves that completes from the places, where some list of legs with at most `depth`
    /// free ones brings every train inside to its exit; none exactly where there is no such list of
    /// legs. It takes no memory.
    ///
    /// The search goes over the trains inside alone, which are listed once when it begins. Whether a leg
    /// is safe costs the words of the set on which the train would stand. A train that has no safe leg is
    /// looked at again only once the section that stopped it is free, or it is left alone in need of a section.
    /// So at depth 0 the cost grows with the moves that are left where each train waits for the one before
    /// it. At worst, each safe leg lets every train be looked at again over all its moves. With free legs
    /// this is done after each choice of at most `depth` of them. Where nothing is found even with the
    /// chosen train out of the way, that one search stands for all its legs: the cost then grows with the
    /// number of trains inside, to the power of the depth, and else with that of their legs.
    pub fn find(&mut self, moves: &Moves, places: &Places, depth: u8) -> Option<&[TrainNo]>
        requires made { IsMadeFor moves.now places.now }
        requires own { IsAnalystFor (moves_in moves.now) self.old }
        ensures* own { sem 𝓛 (StaysFor self.entry (moves_in moves.now)) }
        ensures some { IfSome result (λ list. IsTrue (completes (moves_in moves.now) places.now.positions list.now)) }
        ensures none { IsNone result ↔ (Finds (moves_in moves.now) depth places.now.positions → ⊥) }
    {
        if self.search(moves, places, depth) {
            Some(self.sheet.list())
        } else {
            None
        }
    }

    /// The list that the last search found.
    pub fn list(&self) -> &[TrainNo]
        ensures { result.now ≡ self.now.list }
    {
        self.sheet.list()
    }

    /// The core of the last search that failed: as long as each of these trains stands where it stood, nothing is found,
    /// wherever the others are.
    pub fn core(&self) -> TrainSet
        ensures { result ≡ self.now.core }
    {
        self.core
    }

    /// How many legs were made or taken back since the analyst was made; the count begins anew behind 2^64 - 1. It tells what
    /// searches cost.
    pub fn legs(&self) -> u64 {
        self.sheet.legs()
    }

    /// Sets the train aside: it is counted as outside, and nothing is noted of any train. So the analyst is one for all moves
    /// that differ in those of this train alone, but for the sets of the train.
    pub fn set_aside(&mut self, moves: &Moves, train: TrainNo)
        requires own { IsAnalystFor (moves_in moves.now) self.old }
        requires table { IsTable moves.now }
        requires train { train < length moves.now }
        ensures aside { (other : Plan) → AreAlikeBut train (moves_in moves.now) other → IsAsideFor other train self.new }
        ensures rows { self.new.rows ≡ self.old.rows }
    {
        self.tally
            .follow_train::<All>(moves, self.sheet.rows(), train, 0, &mut self.notes);
        self.inside.exclude(train);
        self.notes = SearchNotes::none();
    }

    /// Exchanges the sets of the train that was set aside with those of the first train of the other sets, which are the sets
    /// of these moves of the train. It takes no memory.
    pub fn exchange(&mut self, moves: &Moves, train: TrainNo, others: &mut Rows)
        requires aside { IsAsideFor (moves_in moves.now) train self.old }
        requires train { train < length moves.now }
        requires others { AreRowsFor (moves_in moves.now) train others.old }
        ensures own { IsAnalystFor (moves_in moves.now) self.new }
        ensures back { (other : Plan) → IsRowsOf other self.old.rows → train < other.trains → AreRowsFor other train others.new }
    {
        self.sheet.exchange(train, others);
    }

    /// Makes a list of moves that completes from the places, by legs of which at most `depth` are free. Whether there is
    /// one; where there is none, the core of the search is kept. Sets are looked at as far as the moves need.
    pub fn search(&mut self, moves: &Moves, places: &Places, depth: u8) -> bool
        requires made { IsMadeFor moves.now places.now }
        requires own { IsAnalystFor (moves_in moves.now) self.old }
        ensures own { IsAnalystFor (moves_in moves.now) self.new }
        ensures answer { IsAnswered (moves_in moves.now) places.now.positions depth result self.new.list self.new.core }
    {
        let words = self.sheet.rows().width();
        if words <= One::WORDS {
            self.search_in::<One>(moves, places, depth)
        } else if words <= Two::WORDS {
            self.search_in::<Two>(moves, places, depth)
        } else if words <= Three::WORDS {
            self.search_in::<Three>(moves, places, depth)
        } else if words <= Four::WORDS {
            self.search_in::<Four>(moves, places, depth)
        } else {
            self.search_in::<All>(moves, places, depth)
        }
    }

    /// The same with so many words of each set.
    fn search_in<W: Width>(&mut self, moves: &Moves, places: &Places, depth: u8) -> bool
        requires words { AreWords (moves_in moves.now) W.WORDS }
        requires wide { self.old.rows.width ≤ W.WORDS }
        requires made { IsMadeFor moves.now places.now }
        requires own { IsAnalystFor (moves_in moves.now) self.old }
        ensures own { IsAnalystFor (moves_in moves.now) self.new }
        ensures answer { IsAnswered (moves_in moves.now) places.now.positions depth result self.new.list self.new.core }
    {
        self.tally.follow::<W>(
            moves,
            self.sheet.rows(),
            places,
            &mut self.inside,
            &mut self.notes,
        );
        let inside = self.inside.as_slice();
        self.sheet
            .begin::<W>(moves, places, self.tally.needs(), inside);
        let settled = self.sheet.look_again::<W>(moves, inside, &mut self.notes);
        if self
            .sheet
            .search_from::<W>(moves, inside, &self.notes, settled, depth)
        {
            return true;
        }
        self.core = self.sheet.trains_inside(moves, self.inside.set());
        false
    }
}

/// How often the train stands at the end of the list without another between.
fn repeats_at_end(train: TrainNo, list: &[TrainNo]) -> usize
    ensures count { result ≡ suffix_len (nat_eq train) list.now }
    ensures few { result ≤ length list.now }
{
    list.iter()
        .rev()
        .take_while(|other| **other == train)
        .count()
}

/// The sections that the trains hold at the places.
fn taken_at<W: Width>(
    moves: &Moves,
    rows: &Rows,
    places: &Places,
    inside: &[TrainNo],
) -> [u64; WORDS]
    requires words { AreWords (moves_in moves.now) W.WORDS }
    requires made { IsMadeFor moves.now places.now }
    requires rows { IsRowsOf (moves_in moves.now) rows.now }
    requires listed { IsListing (moves_in moves.now) places.now.positions inside.now }
    ensures { IsSet result (λ x. is_some (get_or places.now.owners x None)) }
{
    let mut taken = [0u64; WORDS];
    for train in inside {
        join(
            &mut taken,
            rows.stand::<W>(moves, *train, places.position(*train)),
        );
    }
    taken
}

impl Worksheet {
    /// A worksheet with these sets of the moves, and with all the memory that it ever takes.
    fn over(alloc: Global, moves: &Moves, rows: Rows) -> Result<Worksheet, OutOfMemory>
        requires rows { IsRowsOf (moves_in moves.now) rows }
        ensures { IfOk result (λ sheet. IsRowsOf (moves_in moves.now) sheet.rows) }
    {
        Ok(Worksheet {
            rows,
            places: Places::outside(alloc, moves)?,
            taken: [0; WORDS],
            needs: Counts::new(alloc)?,
            list: Vec::with_capacity(alloc, LIST_TRAINS)?,
            legs: 0,
        })
    }

    /// Exchanges the sets of the train with those of the first train of the other sets.
    fn exchange(&mut self, train: TrainNo, others: &mut Rows)
        requires train { train < length self.old.rows.rows }
        requires some { 0 < length others.old.rows }
        ensures here { self.new.rows ≡ with_row self.old.rows others.old.width train (get_or others.old.rows 0 []) }
        ensures there { others.new ≡ with_row others.old self.old.rows.width 0 (get_or self.old.rows.rows train []) }
    {
        self.rows.exchange(train, others);
    }

    /// The sets of the trains at each place.
    fn rows(&self) -> &Rows
        ensures { result.now ≡ self.now.rows }
    {
        &self.rows
    }

    /// How often a train was put to another place.
    fn legs(&self) -> u64 {
        self.legs
    }

    /// Begins a search from the places, with the needs there: no moves are made. The holders and the needs are
    /// copied of so many sections as the words have.
    fn begin<W: Width>(
        &mut self,
        moves: &Moves,
        places: &Places,
        needs: &Counts,
        inside: &[TrainNo],
    )
        requires words { AreWords (moves_in moves.now) W.WORDS }
        requires wide { self.old.rows.width ≤ W.WORDS }
        requires made { IsMadeFor moves.now places.now }
        requires rows { IsRowsOf (moves_in moves.now) self.old.rows }
        requires counted { IsCounted (moves_in moves.now) places.now.positions needs.now }
        requires listed { IsListing (moves_in moves.now) places.now.positions inside.now }
        ensures ready { IsReady moves.now self.new }
        ensures positions { self.new.places.positions ≡ places.now.positions }
        ensures list { self.new.list ≡ [] }
    {
        self.places.copy_front(places, 64 * W::WORDS);
        self.taken = taken_at::<W>(moves, &self.rows, places, inside);
        self.needs.copy_front(needs, W::WORDS);
        self.list.clear();
    }

    /// The moves that were made.
    fn list(&self) -> &[TrainNo]
        ensures { result.now ≡ self.now.list }
    {
        self.list.as_slice()
    }

    /// Puts the train at the place, which is no move of the list. No other train holds a section of its
    /// standing set there.
    fn put<W: Width>(&mut self, moves: &Moves, train: TrainNo, place: u16)
        requires words { AreWords (moves_in moves.now) W.WORDS }
        requires ready { IsReady moves.now self.old }
        requires train { train < length moves.now }
        requires entered { 0 < place_of self.old.places.positions train }
        requires within { place ≤ (moves_in moves.now).moves train }
        requires later { 0 < place }
        requires free { (u : ℕ) → u ≢ train → IsTrue (are_apart
            (stand (moves_in moves.now) train place)
            (stand (moves_in moves.now) u (place_of self.old.places.positions u))) }
        requires few { length self.old.list + moves_left (moves_in moves.now) (set self.old.places.positions train place) ≤ LIST_TRAINS }
        ensures ready { IsReady moves.now self.new }
        ensures positions { self.new.places.positions ≡ set self.old.places.positions train place }
        ensures list { self.new.list ≡ self.old.list }
    {
        let from = self.places.position(train);
        let gone = self.rows.stand::<W>(moves, train, from);
        let come = self.rows.stand::<W>(moves, train, place);
        replace(&mut self.taken, gone, come);
        recount::<W>(&mut self.needs, moves, &self.rows, train, from, place);
        self.places.put(moves, train, place);
        self.legs = self.legs.wrapping_add(1);
    }

    /// Makes the moves of a leg, all at once.
    fn go_to<W: Width>(&mut self, moves: &Moves, train: TrainNo, place: u16)
        requires words { AreWords (moves_in moves.now) W.WORDS }
        requires ready { IsReady moves.now self.old }
        requires train { train < length moves.now }
        requires leg { IsTrue (is_leg (moves_in moves.now) self.old.places.positions (leg_to train place)) }
        ensures ready { IsReady moves.now self.new }
        ensures moves { GoesOn (moves_in moves.now) self.old self.new }
        ensures positions { self.new.places.positions ≡ set self.old.places.positions train place }
    {
        let count = place - self.places.position(train);
        self.put::<W>(moves, train, place);
        // The list is taken out, so that its length is written once and not at each move.
        let alloc = *self.list.allocator();
        let mut list = mem::replace(&mut self.list, Vec::new(alloc));
        add_copies(&mut list, train, usize::from(count));
        self.list = list;
    }

    /// Takes the moves back that were made since the list had this length.
    fn go_back<W: Width>(&mut self, moves: &Moves, mark: usize)
        requires words { AreWords (moves_in moves.now) W.WORDS }
        requires ready { IsReady moves.now self.old }
        requires mark { mark ≤ length self.old.list }
        requires played { IsPlayedFrom (moves_in moves.now) mark self.old }
        ensures ready { IsReady moves.now self.new }
        ensures list { self.new.list ≡ take mark self.old.list }
        ensures positions { (s : List ℕ)
            → IsPlayed (moves_in moves.now) s (drop mark self.old.list) self.old.places.positions
            → self.new.places.positions ≡ s }
    {
        while self.list.len() > mark {
            self.take_run_back::<W>(moves, mark);
        }
    }

    /// Takes the last moves of the list back that one train made in a row, but none of the first `mark`.
    fn take_run_back<W: Width>(&mut self, moves: &Moves, mark: usize)
        requires words { AreWords (moves_in moves.now) W.WORDS }
        requires ready { IsReady moves.now self.old }
        requires mark { mark < length self.old.list }
        requires played { IsPlayedFrom (moves_in moves.now) mark self.old }
        ensures ready { IsReady moves.now self.new }
        ensures above { mark ≤ length self.new.list }
        ensures fewer { length self.new.list < length self.old.list }
        ensures list { self.new.list ≡ take (length self.new.list) self.old.list }
        ensures positions { (s : List ℕ)
            → IsPlayed (moves_in moves.now) s (drop mark self.old.list) self.old.places.positions
            → IsPlayed (moves_in moves.now) s (drop mark self.new.list) self.new.places.positions }
    {
        let made = &self.list[mark..];
        let Some(train) = made.last().copied() else {
            return;
        };
        let count = repeats_at_end(train, made);
        self.list.truncate(self.list.len() - count);
        let place = self.places.position(train) - count as u16;
        self.put::<W>(moves, train, place);
    }

    /// Nobody is inside.
    fn is_done(&self, moves: &Moves, inside: &[TrainNo]) -> bool
        requires ready { IsReady moves.now self.now }
        requires listed { IsListing (moves_in moves.now) self.now.places.positions inside.now }
        ensures { IsTrue result ↔ IsTrue (nobody_inside (moves_in moves.now) self.now.places.positions) }
    {
        for train in inside {
            if stands_inside(moves, &self.places, *train) {
                return false;
            }
        }
        true
    }
}
