//! Looks at what a leg would free, before it is made.

ghost use Rattle.std.specs.Prelude.{◌≡◌, ℕ, ◌+◌, ◌*◌, ◌<◌, ◌≤◌, ◌≢◌, ◌⊎◌, Option, Some, None, true, false, [], length, set, IsTrue, IfSome};
ghost use Rattle.rail_rules.specs.Places.{is_inside, place_of};
ghost use Rattle.rail_place.specs.Tables.{moves_in};
ghost use Rattle.rail_rules.specs.Numbers.{is_in};
ghost use Rattle.rail_sets.specs.Sets.{has};
ghost use Rattle.rail_sets.specs.TrainSets.{has_train};
ghost use Rattle.rail_consequence.specs.Needs.{AreWords};
ghost use Rattle.rail_consequence.specs.Searches.{FindsByNoLegOf, HasNoSafeLegOf};
ghost use Rattle.rail_consequence.specs.Freeing.{AreSeveral, FallsInVain, FreesNobody, HasFalls, HasOther, IsLookahead, IsNextStop, IsNotAwaited, MayWaitFor, WaitsFor};
ghost use Rattle.rail_consequence.specs.Stops.{IsSettled, IsUntouched, stop_of};
ghost use Rattle.rail_consequence.specs.declared.notes.Stop.TheVariants.{Later};
ghost use Rattle.rail_consequence.specs.Workspace.{IsListing, IsReady};
ghost use Rattle.rail_base.specs.declared.limits.TheConstants.{TRAINS};

use super::Worksheet;
use crate::lookahead::Lookahead;
use crate::notes::{SearchNotes, Stop};
use crate::tally::stands_inside;
use crate::train_list::insert_each;
use crate::width::Width;
use rail_base::TrainNo;
use rail_place::Moves;
use rail_sets::{TrainSet, WORDS, fill_replaced, meet, meet_beyond};

/// Where a train has more places before it than this, it is first asked whether it can go out, and then place by place.
const FAR: u16 = 24;

impl Worksheet {
    /// Finds the trains of which it may help that they make the last free leg, where two are inside or more. Of the others a
    /// look at what is noted tells that they can't go on, or that nobody gets a safe leg even where they have gone out.
    ///
    /// It goes over the trains that are stopped, and asks of each only what would hold it where the train were gone for
    /// which it waits.
    pub(super) fn find_openers<W: Width>(
        &self,
        moves: &Moves,
        inside: &[TrainNo],
        notes: &SearchNotes,
    ) -> TrainSet
        requires words { AreWords (moves_in moves.now) W.WORDS }
        requires ready { IsReady moves.now self.now }
        requires listed { IsListing (moves_in moves.now) self.now.places.positions inside.now }
        requires settled { IsSettled (moves_in moves.now) self.now.places.positions notes.now.stops }
        requires several { AreSeveral (moves_in moves.now) self.now.places.positions }
        ensures known { (t : ℕ) → has_train result t ≡ true → t < length moves.now }
        ensures others { (t : ℕ) → has_train result t ≡ false → FindsByNoLegOf (moves_in moves.now) 0 self.now.places.positions t }
    {
        let mut openers = TrainSet::none();
        // Trains that wait for one entered behind it, mostly, so that it is known to be awaited before its turn comes.
        for index in (0..inside.len()).rev() {
            let train = inside[index];
            self.add_awaited::<W>(moves, inside, notes, train, &mut openers);
            self.add_by_falls::<W>(moves, inside, notes, train, &mut openers);
        }
        openers
    }

    /// Adds the train for which this one waits, where this one may get a safe leg once that one has gone out; all trains
    /// of the list where it waits for none.
    fn add_awaited<W: Width>(
        &self,
        moves: &Moves,
        inside: &[TrainNo],
        notes: &SearchNotes,
        other: TrainNo,
        openers: &mut TrainSet,
    )
        requires words { AreWords (moves_in moves.now) W.WORDS }
        requires ready { IsReady moves.now self.now }
        requires listed { IsListing (moves_in moves.now) self.now.places.positions inside.now }
        requires other { other < length moves.now }
        requires settled { IsSettled (moves_in moves.now) self.now.places.positions notes.now.stops }
        ensures known { (t : ℕ) → has_train openers.new t ≡ true → has_train openers.old t ≡ false → t < length moves.now }
        ensures more { (t : ℕ) → has_train openers.new t ≡ false → has_train openers.old t ≡ false }
        ensures here { (t : ℕ) → has_train openers.new t ≡ false → IsTrue (is_inside (moves_in moves.now) self.now.places.positions t)
            → IsNotAwaited (moves_in moves.now) self.now.places.positions notes.now.stops t other }
    {
        let Some(train) = self.awaited(moves, notes, other) else {
            if stands_inside(moves, &self.places, other) {
                insert_each(openers, inside);
            }
            return;
        };
        if train == other || notes.stop(train).is_next() || openers.has(train) {
            return;
        }
        let last = moves.places(train);
        let ahead = self.look_without::<W>(moves, train);
        if !self.is_kept_from_legs::<W>(moves, &ahead, other, train, last) {
            openers.insert(train);
        }
    }

    /// The train that holds the section that is noted to stop this one.
    fn awaited(&self, moves: &Moves, notes: &SearchNotes, train: TrainNo) -> Option<TrainNo>
        requires ready { IsReady moves.now self.now }
        requires train { train < length moves.now }
        ensures exact { (key : Option ℕ)
            → WaitsFor (moves_in moves.now) self.now.places.positions notes.now.stops train key → key ≡ result }
        ensures inside { IfSome result (λ h. IsTrue (is_inside (moves_in moves.now) self.now.places.positions h)) }
        ensures known { IfSome result (λ h. h < length moves.now) }
    {
        match notes.stop(train) {
            Stop::Unknown | Stop::Free => None,
            Stop::Next(section) | Stop::Later(section) => self.places.holder(section),
        }
    }

    /// Adds the train where a section falls to another one once it has gone out, which may get a safe leg.
    fn add_by_falls<W: Width>(
        &self,
        moves: &Moves,
        inside: &[TrainNo],
        notes: &SearchNotes,
        train: TrainNo,
        openers: &mut TrainSet,
    )
        requires words { AreWords (moves_in moves.now) W.WORDS }
        requires ready { IsReady moves.now self.now }
        requires listed { IsListing (moves_in moves.now) self.now.places.positions inside.now }
        requires train { train < length moves.now }
        ensures known { (t : ℕ) → has_train openers.new t ≡ true → has_train openers.old t ≡ false → t < length moves.now }
        ensures more { (t : ℕ) → has_train openers.new t ≡ false → has_train openers.old t ≡ false }
        ensures here { has_train openers.new train ≡ false → IsTrue (is_inside (moves_in moves.now) self.now.places.positions train)
            → IsNextStop notes.now.stops train
            ⊎ FallsInVain (moves_in moves.now) self.now.places.positions self.now.needs W.WORDS notes.now.stops inside.now train ((moves_in moves.now).moves train) }
    {
        if notes.stop(train).is_next()
            || !stands_inside(moves, &self.places, train)
            || !self.has_pairs::<W>(moves, train)
            || openers.has(train)
        {
            return;
        }
        let last = moves.places(train);
        let ahead = self.look_without::<W>(moves, train);
        if !self.falls_are_in_vain::<W>(moves, inside, notes, &ahead, train, last) {
            openers.insert(train);
        }
    }

    /// Whether a section that the train needs is needed by one other.
    fn has_pairs<W: Width>(&self, moves: &Moves, train: TrainNo) -> bool
        requires words { AreWords (moves_in moves.now) W.WORDS }
        requires ready { IsReady moves.now self.now }
        requires train { train < length moves.now }
        ensures { result ≡ false → HasFalls (moves_in moves.now) self.now.places.positions self.now.needs W.WORDS train ((moves_in moves.now).moves train) [] }
    {
        self.needs.has_pairs(
            self.rows
                .rest::<W>(moves, train, self.places.position(train)),
        )
    }

    /// Whether no other train inside gets a safe leg where the train goes on to the place: there is another, and
    /// each stays without one. A train that is stopped by a third one does, unless a section that it needs falls to
    /// it: a look at those that wait for the train, and at those left alone in need of a section is enough.
    pub(super) fn frees_nobody<W: Width>(
        &self,
        moves: &Moves,
        inside: &[TrainNo],
        notes: &SearchNotes,
        train: TrainNo,
        place: u16,
    ) -> bool
        requires words { AreWords (moves_in moves.now) W.WORDS }
        requires ready { IsReady moves.now self.now }
        requires listed { IsListing (moves_in moves.now) self.now.places.positions inside.now }
        requires train { train < length moves.now }
        requires settled { IsSettled (moves_in moves.now) self.now.places.positions notes.now.stops }
        requires inside { IsTrue (is_inside (moves_in moves.now) self.now.places.positions train) }
        requires ahead { place_of self.now.places.positions train < place }
        requires within { place ≤ (moves_in moves.now).moves train }
        ensures { IsTrue result → FreesNobody (moves_in moves.now) self.now.places.positions train place }
    {
        if !self.has_other_inside(moves, inside, train) {
            return false;
        }
        let ahead = self.look_ahead::<W>(moves, train, place);
        self.stay_without_leg::<W>(moves, inside, notes, &ahead, train, place)
            && self.falls_are_in_vain::<W>(moves, inside, notes, &ahead, train, place)
    }

    /// Looks which sections fall to another train, which are taken and which more than one train needs, where the train,
    /// which is inside, goes on to the place.
    #[inline(always)]
    fn look_ahead<W: Width>(&self, moves: &Moves, train: TrainNo, place: u16) -> Lookahead
        requires words { AreWords (moves_in moves.now) W.WORDS }
        requires ready { IsReady moves.now self.now }
        requires train { train < length moves.now }
        requires inside { IsTrue (is_inside (moves_in moves.now) self.now.places.positions train) }
        requires within { place ≤ (moves_in moves.now).moves train }
        requires later { 0 < place }
        ensures sets { IsLookahead (moves_in moves.now) self.now.places.positions self.now.needs W.WORDS train place result }
        ensures fell { HasFalls (moves_in moves.now) self.now.places.positions self.now.needs W.WORDS train place result.fell }
        ensures none { result.has_fallen ≡ false → (x : ℕ) → x < 64 * W.WORDS → has result.fell x ≡ false }
    {
        let from = self.places.position(train);
        let mut ahead = Lookahead::new();
        ahead.has_fallen = self.needs.fill_falls(
            &mut ahead.fell,
            &mut ahead.shared,
            self.rows.rest::<W>(moves, train, from),
            self.rows.rest::<W>(moves, train, place),
        );
        fill_replaced(
            &mut ahead.taken,
            &self.taken,
            self.rows.stand::<W>(moves, train, from),
            self.rows.stand::<W>(moves, train, place),
        );
        ahead
    }

    /// Looks at the same where the train goes out: it needs nothing then, and stands on nothing.
    #[inline(always)]
    fn look_without<W: Width>(&self, moves: &Moves, train: TrainNo) -> Lookahead
        requires words { AreWords (moves_in moves.now) W.WORDS }
        requires ready { IsReady moves.now self.now }
        requires train { train < length moves.now }
        requires inside { IsTrue (is_inside (moves_in moves.now) self.now.places.positions train) }
        ensures sets { IsLookahead (moves_in moves.now) self.now.places.positions self.now.needs W.WORDS train ((moves_in moves.now).moves train) result }
        ensures fell { HasFalls (moves_in moves.now) self.now.places.positions self.now.needs W.WORDS train ((moves_in moves.now).moves train) result.fell }
        ensures none { result.has_fallen ≡ false → (x : ℕ) → x < 64 * W.WORDS → has result.fell x ≡ false }
    {
        let from = self.places.position(train);
        let none = [0u64; WORDS];
        let mut ahead = Lookahead::new();
        ahead.has_fallen = self.needs.fill_falls(
            &mut ahead.fell,
            &mut ahead.shared,
            self.rows.rest::<W>(moves, train, from),
            &none[..W::WORDS],
        );
        fill_replaced(
            &mut ahead.taken,
            &self.taken,
            self.rows.stand::<W>(moves, train, from),
            &none[..W::WORDS],
        );
        ahead
    }

    /// Whether each other train of the list that waits for this one, or for none, has no safe leg once it has gone on to the
    /// place.
    fn stay_without_leg<W: Width>(
        &self,
        moves: &Moves,
        inside: &[TrainNo],
        notes: &SearchNotes,
        ahead: &Lookahead,
        train: TrainNo,
        place: u16,
    ) -> bool
        requires words { AreWords (moves_in moves.now) W.WORDS }
        requires ready { IsReady moves.now self.now }
        requires listed { IsListing (moves_in moves.now) self.now.places.positions inside.now }
        requires train { train < length moves.now }
        requires later { 0 < place }
        requires within { place ≤ (moves_in moves.now).moves train }
        requires ahead { IsLookahead (moves_in moves.now) self.now.places.positions self.now.needs W.WORDS train place ahead.now }
        ensures { IsTrue result → (u : ℕ) → IsTrue (is_in u inside.now) → u ≢ train
            → MayWaitFor (moves_in moves.now) self.now.places.positions notes.now.stops u train
            → HasNoSafeLegOf (moves_in moves.now) (set self.now.places.positions train place) u }
    {
        // Trains that wait for it entered behind it, mostly, so that they have later numbers.
        for index in (0..inside.len()).rev() {
            let other = inside[index];
            if other != train
                && self.may_wait_for(moves, notes, other, train)
                && !self.is_kept_from_legs::<W>(moves, ahead, other, train, place)
            {
                return false;
            }
        }
        true
    }

    /// Whether the one train waits for the other, or for none.
    fn may_wait_for(
        &self,
        moves: &Moves,
        notes: &SearchNotes,
        other: TrainNo,
        train: TrainNo,
    ) -> bool
        requires ready { IsReady moves.now self.now }
        requires other { other < length moves.now }
        ensures { result ≡ false → MayWaitFor (moves_in moves.now) self.now.places.positions notes.now.stops other train → ⊥ }
    {
        match self.awaited(moves, notes, other) {
            Some(holder) => holder == train,
            None => true,
        }
    }

    /// Whether each train of the list, if it is another one than that which goes on to the place, and a section falls
    /// to it though a later move of it is barred, has no safe leg then.
    fn falls_are_in_vain<W: Width>(
        &self,
        moves: &Moves,
        inside: &[TrainNo],
        notes: &SearchNotes,
        ahead: &Lookahead,
        train: TrainNo,
        place: u16,
    ) -> bool
        requires words { AreWords (moves_in moves.now) W.WORDS }
        requires ready { IsReady moves.now self.now }
        requires listed { IsListing (moves_in moves.now) self.now.places.positions inside.now }
        requires train { train < length moves.now }
        requires later { 0 < place }
        requires within { place ≤ (moves_in moves.now).moves train }
        requires ahead { IsLookahead (moves_in moves.now) self.now.places.positions self.now.needs W.WORDS train place ahead.now }
        requires none { ahead.now.has_fallen ≡ false → (x : ℕ) → x < 64 * W.WORDS → has ahead.now.fell x ≡ false }
        ensures { IsTrue result → (u x : ℕ) → IsTrue (is_in u inside.now) → u ≢ train → stop_of notes.now.stops u ≡ Later x
            → IsUntouched (moves_in moves.now) self.now.places.positions ahead.now.fell u
            ⊎ HasNoSafeLegOf (moves_in moves.now) (set self.now.places.positions train place) u }
    {
        if !ahead.has_fallen {
            return true;
        }
        for other in inside {
            if *other != train
                && !self.falls_in_vain::<W>(moves, notes, ahead, *other, train, place)
            {
                return false;
            }
        }
        true
    }

    /// The same for one train.
    fn falls_in_vain<W: Width>(
        &self,
        moves: &Moves,
        notes: &SearchNotes,
        ahead: &Lookahead,
        other: TrainNo,
        train: TrainNo,
        place: u16,
    ) -> bool
        requires words { AreWords (moves_in moves.now) W.WORDS }
        requires ready { IsReady moves.now self.now }
        requires other { other < length moves.now }
        requires train { train < length moves.now }
        requires differs { other ≢ train }
        requires later { 0 < place }
        requires within { place ≤ (moves_in moves.now).moves train }
        requires ahead { IsLookahead (moves_in moves.now) self.now.places.positions self.now.needs W.WORDS train place ahead.now }
        ensures { IsTrue result → (x : ℕ) → stop_of notes.now.stops other ≡ Later x
            → IsUntouched (moves_in moves.now) self.now.places.positions ahead.now.fell other
            ⊎ HasNoSafeLegOf (moves_in moves.now) (set self.now.places.positions train place) other }
    {
        let Stop::Later(_) = notes.stop(other) else {
            return true;
        };
        !meet(
            self.rows
                .rest::<W>(moves, other, self.places.position(other)),
            &ahead.fell,
        ) || self.is_kept_from_legs::<W>(moves, ahead, other, train, place)
    }

    /// Whether two trains are inside.
    pub(super) fn are_several_inside(&self, moves: &Moves, inside: &[TrainNo]) -> bool
        requires ready { IsReady moves.now self.now }
        requires listed { IsListing (moves_in moves.now) self.now.places.positions inside.now }
        ensures { IsTrue result → AreSeveral (moves_in moves.now) self.now.places.positions }
    {
        for train in inside {
            if stands_inside(moves, &self.places, *train) {
                return self.has_other_inside(moves, inside, *train);
            }
        }
        false
    }

    /// Whether another train is inside.
    fn has_other_inside(&self, moves: &Moves, inside: &[TrainNo], train: TrainNo) -> bool
        requires ready { IsReady moves.now self.now }
        requires listed { IsListing (moves_in moves.now) self.now.places.positions inside.now }
        ensures { IsTrue result → HasOther (moves_in moves.now) self.now.places.positions train }
    {
        for other in inside {
            if *other != train && stands_inside(moves, &self.places, *other) {
                return true;
            }
        }
        false
    }

    /// Whether a look at the way of the one train shows that it has no safe leg once the other one has gone on to the
    /// place: a section that one of its moves needs is taken then, and at each end of a leg up to there it would stand on
    /// a section that another train needs.
    #[inline(always)]
    fn is_kept_from_legs<W: Width>(
        &self,
        moves: &Moves,
        ahead: &Lookahead,
        stopped: TrainNo,
        train: TrainNo,
        place: u16,
    ) -> bool
        requires words { AreWords (moves_in moves.now) W.WORDS }
        requires ready { IsReady moves.now self.now }
        requires stopped { stopped < length moves.now }
        requires train { train < length moves.now }
        requires other { stopped ≢ train }
        requires later { 0 < place }
        requires within { place ≤ (moves_in moves.now).moves train }
        requires ahead { IsLookahead (moves_in moves.now) self.now.places.positions self.now.needs W.WORDS train place ahead.now }
        ensures { IsTrue result → HasNoSafeLegOf (moves_in moves.now) (set self.now.places.positions train place) stopped }
    {
        let at = self.places.position(stopped);
        let own = self.rows.stand::<W>(moves, stopped, at);
        let last = moves.places(stopped);
        if last - at > FAR
            && !meet_beyond(self.rows.rest::<W>(moves, stopped, at), &ahead.taken, own)
        {
            return false;
        }
        for made in at..last {
            if meet_beyond(self.rows.need::<W>(moves, stopped, made), &ahead.taken, own) {
                return true;
            }
            if !meet(
                self.rows.stand::<W>(moves, stopped, made + 1),
                &ahead.shared,
            ) {
                return false;
            }
        }
        false
    }
}
