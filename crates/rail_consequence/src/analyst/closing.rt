//! Safe legs, made until there is none.

ghost use Rattle.std.specs.Prelude.{◌≡◌, ℕ, ◌*◌, ◌/◌, ◌<◌, ◌≤◌, ◌≢◌, Some, false, length, set, IsTrue, MatchOption};
ghost use Rattle.rail_rules.specs.Analysis.{is_leg, is_safe, moves_left};
ghost use Rattle.rail_rules.specs.Numbers.{is_in};
ghost use Rattle.rail_rules.specs.Places.{is_inside, place_of};
ghost use Rattle.rail_place.specs.Tables.{moves_in};
ghost use Rattle.rail_sets.specs.Sets.{has};
ghost use Rattle.rail_sets.specs.TrainSets.{has_train};
ghost use Rattle.rail_sets.specs.declared.sets.TheConstants.{WORDS};
ghost use Rattle.rail_consequence.specs.Cores.{LeadsAhead};
ghost use Rattle.rail_consequence.specs.Needs.{AreWords};
ghost use Rattle.rail_consequence.specs.Searches.{FindsSame, HasNoSafeLeg, HasNoSafeLegOf, leg_to};
ghost use Rattle.rail_consequence.specs.Stops.{AreSettledBelow, AreSettledFrom, IsTakenByOther, IsNotedTo, IsSettled, IsStopped, IsUntouched, Shows, section_of, stop_of};
ghost use Rattle.rail_consequence.specs.Workspace.{GoesOn, IsBack, IsListing, IsReady};

use super::Worksheet;
use crate::notes::{SearchNotes, Stop};
use crate::tally::stands_inside;
use crate::width::Width;
use rail_base::{SectionNo, TrainNo};
use rail_place::Moves;
use rail_sets::{TrainSet, WORDS, first_common, meet, meet_beyond};

/// What looking at a train shows.
#[derive(Clone, Copy)]
pub enum Look {
    /// A leg to this place is safe.
    Leads(u16),
    /// It has no safe leg, and this stops it: another train holds the section.
    Stopped(Stop),
}

/// The word that has the section, which is one of those that so many words have.
#[inline(always)]
fn word_of<W: Width>(section: SectionNo) -> usize
    requires few { W.WORDS ≤ WORDS }
    ensures word { section < 64 * W.WORDS → result ≡ section / 64 }
    ensures bound { result < WORDS }
{
    if W::WORDS == 1 {
        return 0;
    }
    usize::from(section.0 / 64) % WORDS
}

impl Worksheet {
    /// Makes safe legs until there is none, and leaves what stops each train that is inside. The first so many trains of the
    /// list have none where it begins.
    pub(super) fn close<W: Width>(
        &mut self,
        moves: &Moves,
        inside: &[TrainNo],
        notes: &mut SearchNotes,
        settled: usize,
    )
        requires words { AreWords (moves_in moves.now) W.WORDS }
        requires ready { IsReady moves.now self.old }
        requires listed { IsListing (moves_in moves.now) self.old.places.positions inside.now }
        requires noted { IsNotedTo (moves_in moves.now) self.old.places.positions notes.old }
        requires settled { AreSettledBelow (moves_in moves.now) self.old.places.positions notes.old.stops inside.now settled }
        ensures ready { IsReady moves.now self.new }
        ensures moves { GoesOn (moves_in moves.now) self.old self.new }
        ensures same { FindsSame (moves_in moves.now) self.old.places.positions self.new.places.positions }
        ensures ahead { LeadsAhead (moves_in moves.now) self.old.places.positions self.new.places.positions }
        ensures none { HasNoSafeLeg (moves_in moves.now) self.new.places.positions }
        ensures settled { IsSettled (moves_in moves.now) self.new.places.positions notes.new.stops }
    {
        let mut from = settled;
        let mut upto = inside.len();
        // The trains behind the one that made the last leg were looked at since.
        while from < upto {
            upto = self.make_safe_legs::<W>(moves, inside, notes, from, upto);
            from = 0;
        }
    }

    /// Goes over the trains of the list from one index up to another, and over those behind them, too, once a leg is made:
    /// makes a safe leg of each that has one at its turn. Those before and behind have none. Only the first so many, as
    /// it says, may have a safe leg then; none, where no leg was made.
    #[inline(never)]
    fn make_safe_legs<W: Width>(
        &mut self,
        moves: &Moves,
        inside: &[TrainNo],
        notes: &mut SearchNotes,
        from: usize,
        upto: usize,
    ) -> usize
        requires words { AreWords (moves_in moves.now) W.WORDS }
        requires ready { IsReady moves.now self.old }
        requires listed { IsListing (moves_in moves.now) self.old.places.positions inside.now }
        requires noted { IsNotedTo (moves_in moves.now) self.old.places.positions notes.old }
        requires within { upto ≤ length inside.now }
        requires looked_at { AreSettledBelow (moves_in moves.now) self.old.places.positions notes.old.stops inside.now from }
        requires settled { AreSettledFrom (moves_in moves.now) self.old.places.positions notes.old.stops inside.now upto }
        ensures ready { IsReady moves.now self.new }
        ensures moves { GoesOn (moves_in moves.now) self.old self.new }
        ensures same { FindsSame (moves_in moves.now) self.old.places.positions self.new.places.positions }
        ensures ahead { LeadsAhead (moves_in moves.now) self.old.places.positions self.new.places.positions }
        ensures fewer { 0 < result → moves_left (moves_in moves.now) self.new.places.positions
            < moves_left (moves_in moves.now) self.old.places.positions }
        ensures within { result ≤ length inside.now }
        ensures settled { AreSettledFrom (moves_in moves.now) self.new.places.positions notes.new.stops inside.now result }
        ensures noted { IsNotedTo (moves_in moves.now) self.new.places.positions notes.new }
    {
        let mut settled_from = 0;
        let mut end = upto;
        let mut index = from;
        while index < end {
            let train = inside[index];
            index += 1;
            if self.make_safe_leg::<W>(moves, train, notes) {
                // Each train may have a safe leg now.
                settled_from = index;
                end = inside.len();
            }
        }
        settled_from
    }

    /// Makes the farthest safe leg of the train; or notes what stops it, where it has none. A train is
    /// not looked at again as long as what stopped it does.
    #[inline(always)]
    fn make_safe_leg<W: Width>(
        &mut self,
        moves: &Moves,
        train: TrainNo,
        notes: &mut SearchNotes,
    ) -> bool
        requires words { AreWords (moves_in moves.now) W.WORDS }
        requires ready { IsReady moves.now self.old }
        requires train { train < length moves.now }
        requires noted { IsNotedTo (moves_in moves.now) self.old.places.positions notes.old }
        ensures ready { IsReady moves.now self.new }
        ensures moves { GoesOn (moves_in moves.now) self.old self.new }
        ensures same { FindsSame (moves_in moves.now) self.old.places.positions self.new.places.positions }
        ensures ahead { LeadsAhead (moves_in moves.now) self.old.places.positions self.new.places.positions }
        ensures fewer { IsTrue result → moves_left (moves_in moves.now) self.new.places.positions
            < moves_left (moves_in moves.now) self.old.places.positions }
        ensures none { result ≡ false
            → IsBack self.old self.new × HasNoSafeLegOf (moves_in moves.now) self.old.places.positions train }
        ensures stopped { result ≡ false → (x : ℕ) → IsTrue (is_inside (moves_in moves.now) self.new.places.positions train)
            → section_of (stop_of notes.new.stops train) ≡ Some x
            → IsStopped (moves_in moves.now) self.new.places.positions train x }
        ensures others { result ≡ false → (u : ℕ) → u ≢ train → stop_of notes.new.stops u ≡ stop_of notes.old.stops u }
        ensures noted { IsNotedTo (moves_in moves.now) self.new.places.positions notes.new }
    {
        if self.is_stopped::<W>(moves, notes, train) {
            return false;
        }
        if !stands_inside(moves, &self.places, train) {
            return false;
        }
        match self.look::<W>(moves, train) {
            Look::Stopped(stop) => {
                notes.set(train, stop);
                false
            }
            Look::Leads(place) => {
                self.note_leg::<W>(moves, train, place, notes);
                self.go_to::<W>(moves, train, place);
                true
            }
        }
    }

    /// The trains that are inside, which are some of these: those are left out that a move of the list has led out.
    pub(super) fn trains_inside(&self, moves: &Moves, trains: TrainSet) -> TrainSet
        requires ready { IsReady moves.now self.now }
        requires listed { (t : ℕ) → IsTrue (is_inside (moves_in moves.now) self.now.places.positions t) → IsTrue (has_train trains t) }
        ensures { (t : ℕ) → IsTrue (is_inside (moves_in moves.now) self.now.places.positions t) → IsTrue (has_train result t) }
    {
        let mut left = trains;
        for train in &self.list {
            if train.0 < moves.trains() && !stands_inside(moves, &self.places, *train) {
                left.remove(*train);
            }
        }
        left
    }

    /// Looks at the trains inside that nothing of what is noted stops, and notes what does. No section has fallen
    /// since. So many first trains of the list, as it says, have no safe leg.
    pub(super) fn look_again<W: Width>(
        &self,
        moves: &Moves,
        inside: &[TrainNo],
        notes: &mut SearchNotes,
    ) -> usize
        requires words { AreWords (moves_in moves.now) W.WORDS }
        requires ready { IsReady moves.now self.now }
        requires listed { IsListing (moves_in moves.now) self.now.places.positions inside.now }
        requires noted { IsNotedTo (moves_in moves.now) self.now.places.positions notes.old }
        ensures noted { IsNotedTo (moves_in moves.now) self.now.places.positions notes.new }
        ensures within { result ≤ length inside.now }
        ensures settled { AreSettledBelow (moves_in moves.now) self.now.places.positions notes.new.stops inside.now result }
    {
        let mut settled = inside.len();
        for (index, train) in inside.iter().enumerate() {
            if self.look_at::<W>(moves, *train, notes) || settled < index {
                continue;
            }
            settled = index;
        }
        notes.forget_falls();
        settled
    }

    /// Looks at the train if nothing of what is noted stops it, and notes what does. Whether it has no safe leg.
    #[inline(always)]
    fn look_at<W: Width>(&self, moves: &Moves, train: TrainNo, notes: &mut SearchNotes) -> bool
        requires words { AreWords (moves_in moves.now) W.WORDS }
        requires ready { IsReady moves.now self.now }
        requires train { train < length moves.now }
        requires noted { IsNotedTo (moves_in moves.now) self.now.places.positions notes.old }
        ensures stopped { (x : ℕ) → IsTrue (is_inside (moves_in moves.now) self.now.places.positions train)
            → section_of (stop_of notes.new.stops train) ≡ Some x
            → IsStopped (moves_in moves.now) self.now.places.positions train x }
        ensures none { IsTrue result → HasNoSafeLegOf (moves_in moves.now) self.now.places.positions train }
        ensures others { (u : ℕ) → u ≢ train → stop_of notes.new.stops u ≡ stop_of notes.old.stops u }
        ensures noted { IsNotedTo (moves_in moves.now) self.now.places.positions notes.new }
    {
        if notes.stop(train).is_free() {
            return false;
        }
        if self.is_stopped::<W>(moves, notes, train) {
            return true;
        }
        if !stands_inside(moves, &self.places, train) {
            return true;
        }
        match self.look::<W>(moves, train) {
            Look::Stopped(stop) => {
                notes.set(train, stop);
                true
            }
            Look::Leads(_) => {
                notes.set(train, Stop::Free);
                false
            }
        }
    }

    /// Takes back what is noted of the train, which is to go on to the place, and notes the sections that fall to
    /// one train then.
    pub(super) fn note_leg<W: Width>(
        &self,
        moves: &Moves,
        train: TrainNo,
        place: u16,
        notes: &mut SearchNotes,
    )
        requires words { AreWords (moves_in moves.now) W.WORDS }
        requires ready { IsReady moves.now self.now }
        requires train { train < length moves.now }
        requires inside { IsTrue (is_inside (moves_in moves.now) self.now.places.positions train) }
        requires ahead { place_of self.now.places.positions train < place }
        requires within { place ≤ (moves_in moves.now).moves train }
        requires noted { IsNotedTo (moves_in moves.now) self.now.places.positions notes.old }
        ensures { IsNotedTo (moves_in moves.now) (set self.now.places.positions train place) notes.new }
    {
        notes.set(train, Stop::Unknown);
        let from = self.places.position(train);
        let needed = self.rows.rest::<W>(moves, train, from);
        let later = self.rows.rest::<W>(moves, train, place);
        if self.needs.has_falls(needed, later) {
            self.needs.add_falls(&mut notes.fell, needed, later);
            notes.has_fallen = true;
        }
    }

    /// What is noted of the train stops it still.
    fn is_stopped<W: Width>(&self, moves: &Moves, notes: &SearchNotes, train: TrainNo) -> bool
        requires words { AreWords (moves_in moves.now) W.WORDS }
        requires ready { IsReady moves.now self.now }
        requires train { train < length moves.now }
        requires noted { IsNotedTo (moves_in moves.now) self.now.places.positions notes.now }
        ensures { IsTrue result → IsTrue (is_inside (moves_in moves.now) self.now.places.positions train)
            → (x : ℕ) × (section_of (stop_of notes.now.stops train) ≡ Some x)
            × IsStopped (moves_in moves.now) self.now.places.positions train x }
    {
        match notes.stop(train) {
            Stop::Unknown | Stop::Free => false,
            Stop::Next(section) => self.is_taken::<W>(section),
            Stop::Later(section) => {
                self.is_taken::<W>(section) && !self.is_touched::<W>(moves, notes, train)
            }
        }
    }

    /// A section fell to one train that this train may need.
    fn is_touched<W: Width>(&self, moves: &Moves, notes: &SearchNotes, train: TrainNo) -> bool
        requires words { AreWords (moves_in moves.now) W.WORDS }
        requires ready { IsReady moves.now self.now }
        requires train { train < length moves.now }
        requires noted { IsNotedTo (moves_in moves.now) self.now.places.positions notes.now }
        ensures { result ≡ false → IsUntouched (moves_in moves.now) self.now.places.positions notes.now.fell train }
    {
        notes.has_fallen
            && meet(
                self.rows
                    .rest::<W>(moves, train, self.places.position(train)),
                &notes.fell,
            )
    }

    /// Looks how far the train, which is inside, can go on while all others stand, and for the last place on its
    /// way to which a leg is safe.
    #[inline(always)]
    fn look<W: Width>(&self, moves: &Moves, train: TrainNo) -> Look
        requires words { AreWords (moves_in moves.now) W.WORDS }
        requires ready { IsReady moves.now self.now }
        requires train { train < length moves.now }
        requires inside { IsTrue (is_inside (moves_in moves.now) self.now.places.positions train) }
        ensures { Shows (moves_in moves.now) self.now.places.positions train result }
    {
        let place = self.places.position(train);
        let last = moves.places(train);
        if let Some(section) = self.stop_of::<W>(moves, train, place) {
            return Look::Stopped(Stop::Next(section));
        }
        let own = self.rows.stand::<W>(moves, train, place);
        if !meet_beyond(self.rows.rest::<W>(moves, train, place), &self.taken, own) {
            // A leg that ends out is safe.
            return Look::Leads(last);
        }
        for made in place + 1..last {
            if let Some(section) = self.stop_of::<W>(moves, train, made) {
                return match self.last_safe::<W>(moves, train, made) {
                    Some(end) => Look::Leads(end),
                    None => Look::Stopped(Stop::Later(section)),
                };
            }
        }
        Look::Leads(last)
    }

    /// The last place on the train's way up to this one to which a leg is safe. No other train holds a section that
    /// its moves up to there need.
    fn last_safe<W: Width>(&self, moves: &Moves, train: TrainNo, most: u16) -> Option<u16>
        requires words { AreWords (moves_in moves.now) W.WORDS }
        requires ready { IsReady moves.now self.now }
        requires train { train < length moves.now }
        requires entered { 0 < place_of self.now.places.positions train }
        requires within { most ≤ (moves_in moves.now).moves train }
        requires free { (i : ℕ) → place_of self.now.places.positions train ≤ i → i < most
            → (x : ℕ) → IsTrue (is_in x ((moves_in moves.now).claim train i))
            → IsTakenByOther (moves_in moves.now) self.now.places.positions train x → ⊥ }
        ensures { MatchOption result
            ((p : ℕ) → place_of self.now.places.positions train < p → p ≤ most
            → is_safe (moves_in moves.now) self.now.places.positions (leg_to train p) ≡ false)
            (λ p. IsTrue (is_leg (moves_in moves.now) self.now.places.positions (leg_to train p))
            × IsTrue (is_safe (moves_in moves.now) self.now.places.positions (leg_to train p))) }
    {
        let from = self.places.position(train);
        let mut end = most;
        while end > from {
            if self.is_safe_at::<W>(moves, train, end) {
                return Some(end);
            }
            end -= 1;
        }
        None
    }

    /// A section of the train's move from this place that another train holds.
    pub(super) fn stop_of<W: Width>(
        &self,
        moves: &Moves,
        train: TrainNo,
        made: u16,
    ) -> Option<SectionNo>
        requires words { AreWords (moves_in moves.now) W.WORDS }
        requires ready { IsReady moves.now self.now }
        requires train { train < length moves.now }
        requires within { made < (moves_in moves.now).moves train }
        ensures { MatchOption result
            ((x : ℕ) → IsTrue (is_in x ((moves_in moves.now).claim train made))
            → IsTakenByOther (moves_in moves.now) self.now.places.positions train x → ⊥)
            (λ x. IsTrue (is_in x ((moves_in moves.now).claim train made))
            × IsTakenByOther (moves_in moves.now) self.now.places.positions train x) }
    {
        let own = self
            .rows
            .stand::<W>(moves, train, self.places.position(train));
        first_common(self.rows.need::<W>(moves, train, made), &self.taken, own)
    }

    /// A train holds the section, which is one of those that so many words have.
    #[inline(always)]
    fn is_taken<W: Width>(&self, section: SectionNo) -> bool
        requires few { W.WORDS ≤ WORDS }
        ensures { section < 64 * W.WORDS → result ≡ has self.now.taken section }
    {
        self.taken[word_of::<W>(section)] >> (section.0 % 64) & 1 == 1
    }

    /// A leg of the train, which is inside, to the place ahead is safe: it ends out, or no other train inside needs its
    /// standing set later.
    fn is_safe_at<W: Width>(&self, moves: &Moves, train: TrainNo, place: u16) -> bool
        requires words { AreWords (moves_in moves.now) W.WORDS }
        requires ready { IsReady moves.now self.now }
        requires train { train < length moves.now }
        requires entered { 0 < place_of self.now.places.positions train }
        requires ahead { place_of self.now.places.positions train < place }
        requires within { place ≤ (moves_in moves.now).moves train }
        ensures { result ≡ is_safe (moves_in moves.now) self.now.places.positions (leg_to train place) }
    {
        self.needs
            .are_once(self.rows.stand::<W>(moves, train, place))
    }
}
