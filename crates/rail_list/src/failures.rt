//! Searches that failed, by train.

ghost use Rattle.std.specs.Prelude.{◌≡◌, ◌≢◌, ℕ, ◌<◌, ◌==◌, ◌||◌, List, false, length, IfOk, IfSome, IsTrue};
ghost use Rattle.rail_base.specs.declared.limits.TheConstants.{TRAINS};
ghost use Rattle.rail_rules.specs.Places.{after, place_of};
ghost use Rattle.rail_place.specs.PlaceStates.{IsMadeFor};
ghost use Rattle.rail_place.specs.Tables.{moves_in};
ghost use Rattle.rail_list.specs.Failures.{AreKept, HasMoved, TellsKept, TellsSafe, core_at, is_kept, is_safe_move};

use crate::entries::does_need_one;
use crate::needers::{does_need_from, is_leg_safe};
use rail_base::limits::TRAINS;
use rail_base::{OutOfMemory, TrainNo, copies};
use rail_place::{Moves, Places};
use rail_sets::TrainSet;
use std::alloc::Global;
use std::marker::Model;

/// For each train that waits for a list in vain the core of the search that failed, as long as the train itself has not moved
/// since, nor one of the core but by a safe leg. So long a search would fail again.
#[derive(Debug, Drop)]
pub struct Failures {
    cores: Vec<TrainSet>,
    /// The trains of which a failure is kept.
    kept: TrainSet,
    /// The last train inside that needed what one of a core then stood on; at first any.
    needer: TrainNo,
}

impl Model for Failures {
    ghost use Rattle.std.specs.Prelude.{◌≡◌, length, vec_capacity};
    ghost use Rattle.rail_base.specs.declared.limits.TheConstants.{TRAINS};
    ghost use Rattle.rail_list.specs.Failures.{Failed};

    ghost Value = { Failed };

    ghost view = { λ failures. record { cores = failures.cores.items; kept = failures.kept } };

    ghost invariant = { λ failures. (length failures.cores.items ≡ TRAINS) × (vec_capacity failures.cores ≡ TRAINS) };
}

impl Failures {
    /// No failure, with all the memory that it ever takes.
    pub fn new(alloc: Global) -> Result<Failures, OutOfMemory>
        ensures { IfOk result (λ failures. (t : ℕ) → is_kept failures t ≡ false) }
    {
        Ok(Failures {
            cores: copies(alloc, TrainSet::none(), TRAINS, TRAINS)?,
            kept: TrainSet::none(),
            needer: TrainNo(0),
        })
    }

    /// Whether a failure of the train is kept: a search for its next move would fail again.
    pub fn has(&self, train: TrainNo) -> bool
        requires { train < TRAINS }
        ensures { result ≡ is_kept self.now train }
    {
        self.kept.has(train)
    }

    /// The search for the train's next move failed with this core.
    pub fn note(&mut self, train: TrainNo, core: TrainSet)
        requires { train < TRAINS }
        ensures kept { (t : ℕ) → is_kept self.new t ≡ (t == train || is_kept self.old t) }
        ensures core { core_at self.new train ≡ core }
        ensures others { (t : ℕ) → t ≢ train → core_at self.new t ≡ core_at self.old t }
    {
        self.cores[usize::from(train.0)] = core;
        self.kept.insert(train);
    }

    /// The train has made its next move, which was legal, and stands on these places: its own failure is forgotten, and that
    /// of each train of whose core it is one. Only where the move was a safe leg, and is one behind the next move of that
    /// train, too, its core lasts. The cost grows with the failures that are kept; only where one has the train in its core
    /// are other trains looked at, and first the one that was in the way before.
    #[inline(always)]
    pub fn forget(&mut self, moves: &Moves, places: &Places, moved: TrainNo)
        requires made { IsMadeFor moves.now places.now }
        requires moved { moved < length moves.now }
        requires begun { 0 < place_of places.now.positions moved }
        ensures kept { AreKept (moves_in moves.now) moved places.now.positions self.old self.new }
        ensures cores { self.new.cores ≡ self.old.cores }
    {
        if self.kept.first_from(0).is_some() {
            self.forget_kept(moves, places, moved);
        }
    }

    /// The same where a failure is kept.
    #[inline(never)]
    fn forget_kept(&mut self, moves: &Moves, places: &Places, moved: TrainNo)
        requires made { IsMadeFor moves.now places.now }
        requires moved { moved < length moves.now }
        requires begun { 0 < place_of places.now.positions moved }
        ensures kept { AreKept (moves_in moves.now) moved places.now.positions self.old self.new }
        ensures cores { self.new.cores ≡ self.old.cores }
    {
        let mut kept = self.kept;
        kept.remove(moved);
        let mut left = kept;
        let mut needer = self.needer;
        let mut known = None;
        while let Some(train) = left.take_first() {
            if self.cores[usize::from(train.0)].has(moved)
                && !does_last(moves, places, moved, train, &mut known, &mut needer)
            {
                kept.remove(train);
            }
        }
        self.kept = kept;
        self.needer = needer;
    }
}

/// Whether a core of which the train that moved is one lasts for the waiting train. Whether the move was a safe leg is
/// found once, where nothing is known of it.
fn does_last(
    moves: &Moves,
    places: &Places,
    moved: TrainNo,
    waiting: TrainNo,
    known: &mut Option<bool>,
    needer: &mut TrainNo,
) -> bool
    requires made { IsMadeFor moves.now places.now }
    requires moved { moved < length moves.now }
    requires begun { 0 < place_of places.now.positions moved }
    requires waiting { waiting ≢ moved }
    requires known { IfSome known.old (TellsSafe (moves_in moves.now) moved places.now.positions) }
    ensures known { IfSome known.new (TellsSafe (moves_in moves.now) moved places.now.positions) }
    ensures exact { TellsKept (moves_in moves.now) moved waiting places.now.positions result }
{
    let is_safe = match *known {
        Some(is_safe) => is_safe,
        None => was_safe(moves, places, moved, needer),
    };
    *known = Some(is_safe);
    is_safe && stays_safe(moves, places, moved, waiting)
}

/// Whether the move by which the train came here was a safe leg.
fn was_safe(moves: &Moves, places: &Places, moved: TrainNo, needer: &mut TrainNo) -> bool
    requires made { IsMadeFor moves.now places.now }
    requires moved { moved < length moves.now }
    ensures { TellsSafe (moves_in moves.now) moved places.now.positions result }
{
    let place = places.position(moved);
    place > 1 && is_leg_safe(moves, places, moved, place, needer)
}

/// Whether the move by which the train came here, a safe leg, is one behind the next move of the waiting train, too.
fn stays_safe(moves: &Moves, places: &Places, moved: TrainNo, waiting: TrainNo) -> bool
    requires made { IsMadeFor moves.now places.now }
    requires moved { moved < length moves.now }
    requires begun { 0 < place_of places.now.positions moved }
    requires waiting { waiting ≢ moved }
    ensures { (s : List ℕ) → HasMoved (moves_in moves.now) s moved places.now.positions
        → IsTrue (is_safe_move (moves_in moves.now) s moved)
        → result ≡ is_safe_move (moves_in moves.now) (after s waiting) moved }
{
    if waiting.0 >= moves.trains() {
        return true;
    }
    let place = places.position(waiting);
    if place >= moves.places(waiting) {
        return true;
    }
    let end = places.position(moved);
    !does_need_one(moves, moved, end, moves.stand(waiting, place + 1))
        && !does_need_from(moves, waiting, place + 1, moves.stand(moved, end))
}
