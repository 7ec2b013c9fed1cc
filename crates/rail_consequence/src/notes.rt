//! What stops each train.

ghost use Rattle.std.specs.Prelude.{◌≡◌, ◌≢◌, ℕ, ◌*◌, ◌<◌, false, None, IsTrue};
ghost use Rattle.rail_sets.specs.Sets.{has};
ghost use Rattle.rail_consequence.specs.declared.notes.Stop.TheVariants.{Unknown, Next};
ghost use Rattle.rail_consequence.specs.Stops.{section_of, stop_of};

use rail_base::limits::TRAINS;
use rail_base::{SectionNo, TrainNo};
use rail_sets::WORDS;

/// What stops a train on its way to a safe leg.
#[derive(Clone, Copy, Debug)]
pub enum Stop {
    /// Nothing is known.
    Unknown,
    /// When it was looked at, it had a safe leg.
    Free,
    /// Its next move needs this section.
    Next(SectionNo),
    /// A later move needs this section, and no leg up to there is safe.
    Later(SectionNo),
}

impl Stop {
    /// Its next move is noted.
    pub fn is_next(self) -> bool
        ensures some { IsTrue result → (x : ℕ) × (self ≡ Next x) }
    {
        matches!(self, Stop::Next(_))
    }

    /// The train had a safe leg.
    pub fn is_free(self) -> bool
        ensures { IsTrue result → section_of self ≡ None }
    {
        matches!(self, Stop::Free)
    }
}

/// What was seen to stop each train. That it lasts shows where it is used: another train must hold the section, and
/// where a later move needs it none of the sections that the train needs may have fallen to one train.
#[derive(Clone, Copy, Debug)]
pub struct SearchNotes {
    stops: [Stop; TRAINS],
    /// The sections that two trains needed since then, and one does now.
    pub fell: [u64; WORDS],
    /// Whether there may be any.
    pub has_fallen: bool,
}

impl SearchNotes {
    /// Nothing is known of any train.
    pub fn none() -> SearchNotes
        ensures stops { (u : ℕ) → stop_of result.stops u ≡ Unknown }
        ensures fell { (x : ℕ) → has result.fell x ≡ false }
    {
        SearchNotes {
            stops: [Stop::Unknown; TRAINS],
            fell: [0; WORDS],
            has_fallen: false,
        }
    }

    /// No section has fallen.
    pub fn forget_falls(&mut self)
        ensures stops { self.new.stops ≡ self.old.stops }
        ensures fell { (x : ℕ) → has self.new.fell x ≡ false }
    {
        self.fell = [0; WORDS];
        self.has_fallen = false;
    }

    /// What stops the train.
    pub fn stop(&self, train: TrainNo) -> Stop
        requires { train < TRAINS }
        ensures { result ≡ stop_of self.now.stops train }
    {
        self.stops[usize::from(train.0)]
    }

    /// Notes what stops the train.
    pub fn set(&mut self, train: TrainNo, stop: Stop)
        requires { train < TRAINS }
        ensures here { stop_of self.new.stops train ≡ stop }
        ensures others { (u : ℕ) → u ≢ train → stop_of self.new.stops u ≡ stop_of self.old.stops u }
        ensures fell { self.new.fell ≡ self.old.fell }
        ensures has_fallen { self.new.has_fallen ≡ self.old.has_fallen }
    {
        self.stops[usize::from(train.0)] = stop;
    }
}
