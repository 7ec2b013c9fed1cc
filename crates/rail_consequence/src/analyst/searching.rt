//! The search: safe legs as long as there is one, then each free leg that may help.

ghost use Rattle.std.specs.Prelude.{◌≡◌, ℕ, ◌+◌, ◌<◌, ◌≤◌, false, length, set, IsTrue};
ghost use Rattle.rail_rules.specs.Analysis.{Finds, is_leg};
ghost use Rattle.rail_rules.specs.Places.{is_inside};
ghost use Rattle.rail_place.specs.Tables.{moves_in};
ghost use Rattle.rail_consequence.specs.Cores.{LeadsAhead};
ghost use Rattle.rail_consequence.specs.Needs.{AreWords};
ghost use Rattle.rail_consequence.specs.Searches.{FindsByNoLeg, FindsByNoLegOf, HasNoSafeLeg, IsCleared, leg_to};
ghost use Rattle.rail_consequence.specs.Stops.{AreSettledBelow, IsNotedTo, IsSettled};
ghost use Rattle.rail_consequence.specs.Workspace.{GoesOn, IsBack, IsListing, IsReady};

use super::Worksheet;
use crate::notes::SearchNotes;
use crate::train_list::all_of;
use crate::width::Width;
use rail_base::TrainNo;
use rail_place::Moves;

/// How many places a train must be able to go on to that a search without it costs less than trying them,
/// where so many free legs may be left.
fn ends_for(depth: u8) -> u16 {
    if depth == 0 { 3 } else { 2 }
}

impl Worksheet {
    /// Makes moves until nobody is inside, by legs of which at most `depth` are free; or leaves all as
    /// it was where that can't be done.
    #[cycle(search)]
    pub(super) fn search<W: Width>(
        &mut self,
        moves: &Moves,
        inside: &[TrainNo],
        notes: &mut SearchNotes,
        depth: u8,
    ) -> bool
        requires words { AreWords (moves_in moves.now) W.WORDS }
        requires ready { IsReady moves.now self.old }
        requires listed { IsListing (moves_in moves.now) self.old.places.positions inside.now }
        requires noted { IsNotedTo (moves_in moves.now) self.old.places.positions notes.old }
        ensures ready { IsReady moves.now self.new }
        ensures found { IsTrue result → IsCleared (moves_in moves.now) depth self.old self.new }
        ensures none { result ≡ false
            → IsBack self.old self.new × (Finds (moves_in moves.now) depth self.old.places.positions → ⊥) }
    {
        let mark = self.list.len();
        self.close::<W>(moves, inside, notes, 0);
        if self.search_on::<W>(moves, inside, notes, depth) {
            return true;
        }
        self.go_back::<W>(moves, mark);
        false
    }

    /// Makes moves until nobody is inside, as `search` does. The first so many trains of the list have no safe leg. Where it
    /// can't be done the safe legs are left, and nothing is found from where they lead.
    #[inline(never)]
    pub(super) fn search_from<W: Width>(
        &mut self,
        moves: &Moves,
        inside: &[TrainNo],
        noted: &SearchNotes,
        settled: usize,
        depth: u8,
    ) -> bool
        requires words { AreWords (moves_in moves.now) W.WORDS }
        requires ready { IsReady moves.now self.old }
        requires listed { IsListing (moves_in moves.now) self.old.places.positions inside.now }
        requires noted { IsNotedTo (moves_in moves.now) self.old.places.positions noted.now }
        requires settled { AreSettledBelow (moves_in moves.now) self.old.places.positions noted.now.stops inside.now settled }
        ensures ready { IsReady moves.now self.new }
        ensures found { IsTrue result → IsCleared (moves_in moves.now) depth self.old self.new }
        ensures moves { GoesOn (moves_in moves.now) self.old self.new }
        ensures ahead { result ≡ false → LeadsAhead (moves_in moves.now) self.old.places.positions self.new.places.positions }
        ensures none { result ≡ false → (Finds (moves_in moves.now) depth self.old.places.positions → ⊥)
            × (Finds (moves_in moves.now) depth self.new.places.positions → ⊥) }
    {
        let mut notes = *noted;
        self.close::<W>(moves, inside, &mut notes, settled);
        self.search_on::<W>(moves, inside, &notes, depth)
    }

    /// As `search`, from places where no leg is safe.
    #[cycle(search)]
    pub(super) fn search_on<W: Width>(
        &mut self,
        moves: &Moves,
        inside: &[TrainNo],
        notes: &SearchNotes,
        depth: u8,
    ) -> bool
        requires words { AreWords (moves_in moves.now) W.WORDS }
        requires ready { IsReady moves.now self.old }
        requires listed { IsListing (moves_in moves.now) self.old.places.positions inside.now }
        requires none { HasNoSafeLeg (moves_in moves.now) self.old.places.positions }
        requires settled { IsSettled (moves_in moves.now) self.old.places.positions notes.now.stops }
        ensures ready { IsReady moves.now self.new }
        ensures found { IsTrue result → IsCleared (moves_in moves.now) depth self.old self.new }
        ensures none { result ≡ false
            → IsBack self.old self.new × (Finds (moves_in moves.now) depth self.old.places.positions → ⊥) }
    {
        if self.is_done(moves, inside) {
            return true;
        }
        if depth == 0 {
            return false;
        }
        self.try_free_legs::<W>(moves, inside, notes, depth - 1)
    }

    /// As `search`, with a first leg of any train, from places where no leg is safe.
    #[cycle(search)]
    fn try_free_legs<W: Width>(
        &mut self,
        moves: &Moves,
        inside: &[TrainNo],
        notes: &SearchNotes,
        depth: u8,
    ) -> bool
        requires words { AreWords (moves_in moves.now) W.WORDS }
        requires ready { IsReady moves.now self.old }
        requires listed { IsListing (moves_in moves.now) self.old.places.positions inside.now }
        requires room { depth < 255 }
        requires none { HasNoSafeLeg (moves_in moves.now) self.old.places.positions }
        requires settled { IsSettled (moves_in moves.now) self.old.places.positions notes.now.stops }
        ensures ready { IsReady moves.now self.new }
        ensures found { IsTrue result → IsCleared (moves_in moves.now) (depth + 1) self.old self.new }
        ensures none { result ≡ false → IsBack self.old self.new × FindsByNoLeg (moves_in moves.now) depth self.old.places.positions }
    {
        let mut openers = if depth == 0 && self.are_several_inside(moves, inside) {
            self.find_openers::<W>(moves, inside, notes)
        } else {
            all_of(inside)
        };
        while let Some(train) = openers.take_first() {
            if self.try_legs_of::<W>(moves, inside, notes, train, depth) {
                return true;
            }
        }
        false
    }

    /// As `search`, with a first leg of this train: each place that it can go on to is tried, but where it
    /// shows before that none helps.
    #[cycle(search)]
    fn try_legs_of<W: Width>(
        &mut self,
        moves: &Moves,
        inside: &[TrainNo],
        notes: &SearchNotes,
        train: TrainNo,
        depth: u8,
    ) -> bool
        requires words { AreWords (moves_in moves.now) W.WORDS }
        requires ready { IsReady moves.now self.old }
        requires listed { IsListing (moves_in moves.now) self.old.places.positions inside.now }
        requires train { train < length moves.now }
        requires room { depth < 255 }
        requires none { HasNoSafeLeg (moves_in moves.now) self.old.places.positions }
        requires settled { IsSettled (moves_in moves.now) self.old.places.positions notes.now.stops }
        ensures ready { IsReady moves.now self.new }
        ensures found { IsTrue result → IsCleared (moves_in moves.now) (depth + 1) self.old self.new }
        ensures none { result ≡ false
            → IsBack self.old self.new × FindsByNoLegOf (moves_in moves.now) depth self.old.places.positions train }
    {
        if self.is_hopeless::<W>(moves, inside, notes, train, depth) {
            return false;
        }
        let from = self.places.position(train);
        let last = moves.places(train);
        for made in from..last {
            if self.stop_of::<W>(moves, train, made).is_some() {
                return false;
            }
            if self.try_leg::<W>(moves, inside, notes, train, made + 1, depth) {
                return true;
            }
        }
        false
    }

    /// As `search`, with this leg first.
    #[cycle(search)]
    fn try_leg<W: Width>(
        &mut self,
        moves: &Moves,
        inside: &[TrainNo],
        notes: &SearchNotes,
        train: TrainNo,
        place: u16,
        depth: u8,
    ) -> bool
        requires words { AreWords (moves_in moves.now) W.WORDS }
        requires ready { IsReady moves.now self.old }
        requires listed { IsListing (moves_in moves.now) self.old.places.positions inside.now }
        requires train { train < length moves.now }
        requires room { depth < 255 }
        requires none { HasNoSafeLeg (moves_in moves.now) self.old.places.positions }
        requires settled { IsSettled (moves_in moves.now) self.old.places.positions notes.now.stops }
        requires leg { IsTrue (is_leg (moves_in moves.now) self.old.places.positions (leg_to train place)) }
        ensures ready { IsReady moves.now self.new }
        ensures found { IsTrue result → IsCleared (moves_in moves.now) (depth + 1) self.old self.new }
        ensures none { result ≡ false
            → IsBack self.old self.new × (Finds (moves_in moves.now) depth (set self.old.places.positions train place) → ⊥) }
    {
        if depth == 0 && self.frees_nobody::<W>(moves, inside, notes, train, place) {
            return false;
        }
        self.search_behind::<W>(moves, inside, notes, train, place, depth)
    }

    /// As `search`, behind this leg.
    #[inline(never)]
    #[cycle(search)]
    fn search_behind<W: Width>(
        &mut self,
        moves: &Moves,
        inside: &[TrainNo],
        notes: &SearchNotes,
        train: TrainNo,
        place: u16,
        depth: u8,
    ) -> bool
        requires words { AreWords (moves_in moves.now) W.WORDS }
        requires ready { IsReady moves.now self.old }
        requires listed { IsListing (moves_in moves.now) self.old.places.positions inside.now }
        requires train { train < length moves.now }
        requires room { depth < 255 }
        requires settled { IsSettled (moves_in moves.now) self.old.places.positions notes.now.stops }
        requires leg { IsTrue (is_leg (moves_in moves.now) self.old.places.positions (leg_to train place)) }
        ensures ready { IsReady moves.now self.new }
        ensures found { IsTrue result → IsCleared (moves_in moves.now) (depth + 1) self.old self.new }
        ensures none { result ≡ false
            → IsBack self.old self.new × (Finds (moves_in moves.now) depth (set self.old.places.positions train place) → ⊥) }
    {
        let mut then = *notes;
        let mark = self.list.len();
        then.forget_falls();
        self.note_leg::<W>(moves, train, place, &mut then);
        self.go_to::<W>(moves, train, place);
        if self.search::<W>(moves, inside, &mut then, depth) {
            return true;
        }
        self.go_back::<W>(moves, mark);
        false
    }

    /// Whether it shows before they are tried that none of the train's legs helps: it can't go on; or nothing
    /// is found with the train out of the way, since what can be found can be found without a train. Where the
    /// train has few legs, to try them costs less than that.
    #[cycle(search)]
    fn is_hopeless<W: Width>(
        &mut self,
        moves: &Moves,
        inside: &[TrainNo],
        notes: &SearchNotes,
        train: TrainNo,
        depth: u8,
    ) -> bool
        requires words { AreWords (moves_in moves.now) W.WORDS }
        requires ready { IsReady moves.now self.old }
        requires listed { IsListing (moves_in moves.now) self.old.places.positions inside.now }
        requires train { train < length moves.now }
        requires room { depth < 255 }
        requires settled { IsSettled (moves_in moves.now) self.old.places.positions notes.now.stops }
        ensures ready { IsReady moves.now self.new }
        ensures back { IsBack self.old self.new }
        ensures inside { result ≡ false → IsTrue (is_inside (moves_in moves.now) self.old.places.positions train) }
        ensures none { IsTrue result → FindsByNoLegOf (moves_in moves.now) depth self.old.places.positions train }
    {
        if !self.can_go_on::<W>(moves, notes, train) {
            return true;
        }
        if !self.has_ends::<W>(moves, train, ends_for(depth)) {
            return false;
        }
        !self.is_found_without::<W>(moves, inside, notes, train, depth)
    }

    /// Whether, with the train out of the way, nobody is left inside after legs of which at most `depth`
    /// are free. What can be found can be found without a train that is inside.
    #[cycle(search)]
    fn is_found_without<W: Width>(
        &mut self,
        moves: &Moves,
        inside: &[TrainNo],
        notes: &SearchNotes,
        train: TrainNo,
        depth: u8,
    ) -> bool
        requires words { AreWords (moves_in moves.now) W.WORDS }
        requires ready { IsReady moves.now self.old }
        requires listed { IsListing (moves_in moves.now) self.old.places.positions inside.now }
        requires train { train < length moves.now }
        requires room { depth < 255 }
        requires inside { IsTrue (is_inside (moves_in moves.now) self.old.places.positions train) }
        requires settled { IsSettled (moves_in moves.now) self.old.places.positions notes.now.stops }
        ensures ready { IsReady moves.now self.new }
        ensures back { IsBack self.old self.new }
        ensures none { result ≡ false
            → Finds (moves_in moves.now) depth (set self.old.places.positions train ((moves_in moves.now).moves train)) → ⊥ }
    {
        let mark = self.list.len();
        let place = self.places.position(train);
        let last = moves.places(train);
        let mut then = *notes;
        then.forget_falls();
        self.note_leg::<W>(moves, train, last, &mut then);
        self.take_out::<W>(moves, train);
        let found = self.search::<W>(moves, inside, &mut then, depth);
        self.go_back::<W>(moves, mark);
        self.put::<W>(moves, train, place);
        found
    }

    /// Takes the train out, as if it had made its moves.
    fn take_out<W: Width>(&mut self, moves: &Moves, train: TrainNo)
        requires words { AreWords (moves_in moves.now) W.WORDS }
        requires ready { IsReady moves.now self.old }
        requires train { train < length moves.now }
        requires inside { IsTrue (is_inside (moves_in moves.now) self.old.places.positions train) }
        ensures ready { IsReady moves.now self.new }
        ensures positions { self.new.places.positions
            ≡ set self.old.places.positions train ((moves_in moves.now).moves train) }
        ensures list { self.new.list ≡ self.old.list }
    {
        self.put::<W>(moves, train, moves.places(train));
    }

    /// The train is inside, and no other one holds a section that its next move needs. No leg of it leads on
    /// otherwise.
    fn can_go_on<W: Width>(&self, moves: &Moves, notes: &SearchNotes, train: TrainNo) -> bool
        requires words { AreWords (moves_in moves.now) W.WORDS }
        requires ready { IsReady moves.now self.now }
        requires train { train < length moves.now }
        requires settled { IsSettled (moves_in moves.now) self.now.places.positions notes.now.stops }
        ensures inside { IsTrue result → IsTrue (is_inside (moves_in moves.now) self.now.places.positions train) }
        ensures none { result ≡ false → (p : ℕ) → is_leg (moves_in moves.now) self.now.places.positions (leg_to train p) ≡ false }
    {
        if notes.stop(train).is_next() {
            return false;
        }
        let place = self.places.position(train);
        if place == 0 || place >= moves.places(train) {
            return false;
        }
        self.stop_of::<W>(moves, train, place).is_none()
    }

    /// Whether the train is inside and can go on to at least so many places while all others stand.
    fn has_ends<W: Width>(&self, moves: &Moves, train: TrainNo, count: u16) -> bool
        requires words { AreWords (moves_in moves.now) W.WORDS }
        requires ready { IsReady moves.now self.now }
        requires train { train < length moves.now }
        ensures { IsTrue result → IsTrue (is_inside (moves_in moves.now) self.now.places.positions train) }
    {
        let place = self.places.position(train);
        let last = moves.places(train);
        if place == 0 || last <= place || last - place < count {
            return false;
        }
        for made in place..place + count {
            if self.stop_of::<W>(moves, train, made).is_some() {
                return false;
            }
        }
        true
    }
}
