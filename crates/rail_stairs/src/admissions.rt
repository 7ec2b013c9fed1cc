//! The admissions of one train.

ghost use Rattle.std.specs.Prelude.{◌≡◌, ◌<◌, ◌≤◌, [], ◌∷◌, ◌++◌, length};
ghost use Rattle.rail_base.specs.declared.limits.TheConstants.{ITINERARY_ROUTES};

use rail_base::Time;
use rail_base::limits::ITINERARY_ROUTES;
use std::marker::Model;

/// The times of a train's admissions, the first one first, with room for all its moves. Contracts see them as a
/// list.
#[derive(Debug, Drop)]
pub struct Admissions {
    times: [Time; ITINERARY_ROUTES],
    count: usize,
}

impl Model for Admissions {
    ghost use Rattle.std.specs.Prelude.{List, ℕ, ◌≤◌, take};
    ghost use Rattle.rail_base.specs.declared.limits.TheConstants.{ITINERARY_ROUTES};

    ghost Value = { List ℕ };

    ghost view = { λ admissions. take admissions.count admissions.times };

    ghost invariant = { λ admissions. admissions.count ≤ ITINERARY_ROUTES };
}

impl Admissions {
    /// No admission yet.
    pub fn none() -> Admissions
        ensures { result ≡ [] }
    {
        Admissions {
            times: [Time(0); ITINERARY_ROUTES],
            count: 0,
        }
    }

    /// The times so far.
    pub fn as_slice(&self) -> &[Time]
        ensures times { result.now ≡ self.now }
        ensures few { length result.now ≤ ITINERARY_ROUTES }
    {
        &self.times[..self.count]
    }

    /// One more admission.
    pub fn push(&mut self, at: Time)
        requires { length self.old < ITINERARY_ROUTES }
        ensures { self.new ≡ self.old ++ at ∷ [] }
    {
        self.times[self.count] = at;
        self.count += 1;
    }
}
