//! The searcher: an analyst that asks for small cores first.

ghost use Rattle.std.specs.Prelude.{◌≡◌, ◌<◌, IfOk, IsTrue};
ghost use Rattle.rail_base.specs.declared.limits.TheConstants.{TRAINS};
ghost use Rattle.rail_consequence.specs.AnalystStates.{IsAnswered};
ghost use Rattle.rail_consequence.specs.Cores.{IsCore};
ghost use Rattle.rail_place.specs.PlaceStates.{IsMadeFor};
ghost use Rattle.rail_place.specs.Tables.{moves_in};
ghost use Rattle.rail_sets.specs.TrainSets.{has_train};
ghost use Rattle.rail_cores.specs.Searchers.{IsSearcherFor};

use crate::account::Account;
use crate::alone::Alone;
use crate::hints::Hints;
use rail_base::{OutOfMemory, TrainNo};
use rail_consequence::Analyst;
use rail_place::{Moves, Places};
use rail_sets::TrainSet;
use std::alloc::Global;

/// Finds lists of moves that bring every train inside to its exit, for trains that wait. It belongs to the moves for which it
/// was made.
#[derive(Debug)]
pub struct Searcher {
    /// What searches among all trains.
    analyst: Analyst,
    alone: Alone,
    hints: Hints,
    account: Account,
    /// The core of the last search that failed.
    core: TrainSet,
}

impl Drop for Searcher {
    fn drop(self) {
        let Searcher {
            analyst: _analyst,
            alone: _alone,
            hints: _hints,
            account: _account,
            core: _core,
        } = self;
    }
}

impl Searcher {
    /// A searcher, with all the memory that it ever takes.
    pub fn new(alloc: Global, moves: &Moves) -> Result<Searcher, OutOfMemory>
        ensures { IfOk result (IsSearcherFor (moves_in moves.now)) }
    {
        let analyst = Analyst::new(alloc, moves)?;
        let alone = Alone::new(alloc, moves, &analyst)?;
        let hints = Hints::new(alloc)?;
        Ok(Searcher {
            analyst,
            alone,
            hints,
            account: Account::empty(),
            core: TrainSet::none(),
        })
    }

    /// What searches among all trains.
    pub fn analyst(&self) -> &Analyst
        ensures { result.now ≡ self.now.analyst }
    {
        &self.analyst
    }

    /// The list that the last search found.
    pub fn list(&self) -> &[TrainNo]
        ensures { result.now ≡ self.now.analyst.list }
    {
        self.analyst.list()
    }

    /// The core of the last search that failed: as long as each of these trains stands where it stood, nothing is found,
    /// wherever the others are.
    pub fn core(&self) -> TrainSet
        ensures { result ≡ self.now.core }
    {
        self.core
    }

    /// Makes a list of moves that completes from the places, by legs of which at most `depth` are free, for the train, which
    /// stands on them behind the move that it waits for. Whether there is one; where there is none, the core of the search
    /// is kept. The trains that failed alone before are asked for first; where a search among all trains fails, a smaller
    /// core is sought as far as the account goes. It takes no memory.
    pub fn search(&mut self, moves: &Moves, places: &Places, depth: u8, train: TrainNo) -> bool
        requires made { IsMadeFor moves.now places.now }
        requires own { IsSearcherFor (moves_in moves.now) self.old }
        requires train { train < TRAINS }
        ensures own { IsSearcherFor (moves_in moves.now) self.new }
        ensures answer { IsAnswered (moves_in moves.now) places.now.positions depth result self.new.analyst.list self.new.core }
    {
        if self.fails_again(moves, places, depth, train) {
            return false;
        }
        let begun = self.analyst.legs();
        if self.analyst.search(moves, places, depth) {
            return true;
        }
        self.core = self.analyst.core();
        let legs = self.analyst.legs().wrapping_sub(begun);
        if let Some(most) = self.account.earn(legs) {
            self.lessen_core(moves, places, depth, train, most);
        }
        false
    }

    /// Whether trains that failed alone before do so again: those of the train's own last failure, or else those of the last
    /// one of any train, with this train among them. Then they are the core.
    fn fails_again(&mut self, moves: &Moves, places: &Places, depth: u8, train: TrainNo) -> bool
        requires made { IsMadeFor moves.now places.now }
        requires own { IsSearcherFor (moves_in moves.now) self.old }
        requires train { train < TRAINS }
        ensures own { IsSearcherFor (moves_in moves.now) self.new }
        ensures core { IsTrue result → IsCore (moves_in moves.now) depth places.now.positions (has_train self.new.core) }
    {
        if let Some(trains) = self.hints.own(train) {
            if self.alone.fails(moves, places, &trains, depth) {
                self.core = trains;
                return true;
            }
            self.hints.drop_own(train);
        }
        if let Some(trains) = self.hints.last_with(train) {
            if self.alone.fails(moves, places, &trains, depth) {
                self.hints.keep(train, trains);
                self.core = trains;
                return true;
            }
            self.hints.drop_last();
        }
        false
    }

    /// Seeks a smaller core than that of the search that failed, trying legs as long as there were at most so many.
    #[inline(never)]
    fn lessen_core(&mut self, moves: &Moves, places: &Places, depth: u8, train: TrainNo, most: u64)
        requires made { IsMadeFor moves.now places.now }
        requires own { IsSearcherFor (moves_in moves.now) self.old }
        requires train { train < TRAINS }
        requires core { IsCore (moves_in moves.now) depth places.now.positions (has_train self.old.core) }
        ensures own { IsSearcherFor (moves_in moves.now) self.new }
        ensures core { IsCore (moves_in moves.now) depth places.now.positions (has_train self.new.core) }
        ensures analyst { self.new.analyst ≡ self.old.analyst }
    {
        let begun = self.alone.legs();
        match self
            .alone
            .small_core(moves, places, depth, train, self.core, most)
        {
            Some(trains) => {
                self.hints.keep(train, trains);
                self.hints.share(train, trains);
                self.core = trains;
            }
            None => self.account.spend(self.alone.legs().wrapping_sub(begun)),
        }
    }
}
