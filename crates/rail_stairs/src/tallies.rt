//! The table of the sections.

ghost use Rattle.std.specs.Prelude.{◌≡◌, ◌+◌, ◌<◌, ◌^◌, get_or, set, [], ◌∷◌, ◌++◌, List, ℕ};
ghost use Rattle.rail_base.specs.declared.intervals.Interval.{Interval};
ghost use Rattle.rail_base.specs.declared.limits.TheConstants.{SECTIONS};
ghost use Rattle.rail_stairs.specs.Stairways.{length_until};
ghost use Rattle.rail_stairs.specs.Tallies.{IsTallied};

use rail_base::limits::SECTIONS;
use rail_base::{Interval, SectionNo, Time};

/// For each section, how many intervals it has, and for how many tenths of a second it is occupied.
#[derive(Drop)]
pub(crate) struct Tallies {
    visits: [u64; SECTIONS],
    /// In 128 bits, since the sum of so many times of 64 bits may not fit them.
    occupied: [u128; SECTIONS],
}

impl Tallies {
    /// No interval counted.
    pub(crate) fn new() -> Tallies
        ensures { (ended : ℕ) → IsTallied ended [] result }
    {
        Tallies {
            visits: [0; SECTIONS],
            occupied: [0; SECTIONS],
        }
    }

    /// Counts one more interval; an open one is ended at `ended`.
    pub(crate) fn add(&mut self, interval: &Interval, ended: Time)
        requires known { interval.now.section < SECTIONS }
        requires visits { get_or self.old.visits interval.now.section 0 < 2 ^ 32 }
        requires occupied { get_or self.old.occupied interval.now.section 0 < 2 ^ 96 }
        ensures { (seen : List Interval) → IsTallied ended seen self.old → IsTallied ended (seen ++ interval.now ∷ []) self.new }
    {
        self.count(interval.section, length_until(interval, ended));
    }

    /// Counts one more interval on the section, of this length.
    fn count(&mut self, section: SectionNo, length: u64)
        requires known { section < SECTIONS }
        requires visits { get_or self.old.visits section 0 < 2 ^ 32 }
        requires occupied { get_or self.old.occupied section 0 < 2 ^ 96 }
        ensures visits { self.new.visits ≡ set self.old.visits section (get_or self.old.visits section 0 + 1) }
        ensures occupied { self.new.occupied ≡ set self.old.occupied section (get_or self.old.occupied section 0 + length) }
    {
        let index = usize::from(section.0);
        self.visits[index] += 1;
        self.occupied[index] += u128::from(length);
    }

    /// How many intervals the section has.
    pub(crate) fn visits(&self, section: SectionNo) -> u64
        requires { section < SECTIONS }
        ensures { result ≡ get_or self.now.visits section 0 }
    {
        self.visits[usize::from(section.0)]
    }

    /// For how many tenths of a second the section is occupied.
    pub(crate) fn occupied(&self, section: SectionNo) -> u128
        requires { section < SECTIONS }
        ensures { result ≡ get_or self.now.occupied section 0 }
    {
        self.occupied[usize::from(section.0)]
    }
}

/// The length of the interval in tenths of a second; an open one is ended at `ended`.
fn length_until(interval: &Interval, ended: Time) -> u64
    ensures { result ≡ length_until ended interval.now }
{
    interval
        .end
        .unwrap_or(ended)
        .0
        .saturating_sub(interval.begin.0)
}
