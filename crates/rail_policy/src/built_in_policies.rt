//! The four built-in policies: by priority, by timetable, first come first served, and in rotation.

ghost use Rattle.std.specs.Prelude.{◌≡◌, ◌<◌, length, codes};
ghost use Rattle.rail_base.specs.declared.orders.PolicyKind.TheVariants.{Priority, Timetable, Fcfs, Rotating};
ghost use Rattle.rail_policy.specs.Choices.{HasLeastKey};
ghost use Rattle.rail_policy.specs.Seats.{fresh_seat};

use crate::offer::Offer;
use crate::policy::Policy;
use rail_base::{Name, PolicyKind, TrainNo};

/// Chooses by priority, then entry, then train number.
#[derive(Clone, Copy, Debug)]
pub struct PriorityPolicy {
    answered: usize,
}

impl PriorityPolicy {
    /// The policy named `priority`, which was not asked yet.
    pub fn new() -> PriorityPolicy
        ensures { ⟦<PriorityPolicy as Policy>⟧.seat result ≡ fresh_seat (codes "priority") Priority }
    {
        PriorityPolicy { answered: 0 }
    }
}

impl Policy for PriorityPolicy {
    ghost seat = { λ policy. record { name = codes "priority"; kind = Priority; mark = 0; answered = policy.answered } };

    fn name(&self) -> Name {
        Name::read(b"priority").unwrap()
    }

    fn kind(&self) -> PolicyKind {
        PolicyKind::Priority
    }

    fn mark(&self) -> u16 {
        0
    }

    fn answered(&self) -> usize {
        self.answered
    }

    fn choose(&mut self, offers: &[Offer]) -> usize {
        self.answered = index_of_least(offers, PolicyKind::Priority, 0);
        self.answered
    }

    fn note(&mut self, _admitted: TrainNo) {}
}

/// Chooses by due time, then train number.
#[derive(Clone, Copy, Debug)]
pub struct TimetablePolicy {
    answered: usize,
}

impl TimetablePolicy {
    /// The policy named `timetable`, which was not asked yet.
    pub fn new() -> TimetablePolicy
        ensures { ⟦<TimetablePolicy as Policy>⟧.seat result ≡ fresh_seat (codes "timetable") Timetable }
    {
        TimetablePolicy { answered: 0 }
    }
}

impl Policy for TimetablePolicy {
    ghost seat = { λ policy. record { name = codes "timetable"; kind = Timetable; mark = 0; answered = policy.answered } };

    fn name(&self) -> Name {
        Name::read(b"timetable").unwrap()
    }

    fn kind(&self) -> PolicyKind {
        PolicyKind::Timetable
    }

    fn mark(&self) -> u16 {
        0
    }

    fn answered(&self) -> usize {
        self.answered
    }

    fn choose(&mut self, offers: &[Offer]) -> usize {
        self.answered = index_of_least(offers, PolicyKind::Timetable, 0);
        self.answered
    }

    fn note(&mut self, _admitted: TrainNo) {}
}

/// First come, first served: chooses by ready time, then train number.
#[derive(Clone, Copy, Debug)]
pub struct FcfsPolicy {
    answered: usize,
}

impl FcfsPolicy {
    /// The policy named `fcfs`, which was not asked yet.
    pub fn new() -> FcfsPolicy
        ensures { ⟦<FcfsPolicy as Policy>⟧.seat result ≡ fresh_seat (codes "fcfs") Fcfs }
    {
        FcfsPolicy { answered: 0 }
    }
}

impl Policy for FcfsPolicy {
    ghost seat = { λ policy. record { name = codes "fcfs"; kind = Fcfs; mark = 0; answered = policy.answered } };

    fn name(&self) -> Name {
        Name::read(b"fcfs").unwrap()
    }

    fn kind(&self) -> PolicyKind {
        PolicyKind::Fcfs
    }

    fn mark(&self) -> u16 {
        0
    }

    fn answered(&self) -> usize {
        self.answered
    }

    fn choose(&mut self, offers: &[Offer]) -> usize {
        self.answered = index_of_least(offers, PolicyKind::Fcfs, 0);
        self.answered
    }

    fn note(&mut self, _admitted: TrainNo) {}
}

/// Chooses by train number, in turn behind the train admitted last.
#[derive(Clone, Copy, Debug)]
pub struct RotatingPolicy {
    mark: u16,
    answered: usize,
}

impl RotatingPolicy {
    /// The policy named `rotating`, which begins with train 0.
    pub fn new() -> RotatingPolicy
        ensures { ⟦<RotatingPolicy as Policy>⟧.seat result ≡ fresh_seat (codes "rotating") Rotating }
    {
        RotatingPolicy {
            mark: 0,
            answered: 0,
        }
    }
}

impl Policy for RotatingPolicy {
    ghost seat = { λ policy. record { name = codes "rotating"; kind = Rotating; mark = policy.mark; answered = policy.answered } };

    fn name(&self) -> Name {
        Name::read(b"rotating").unwrap()
    }

    fn kind(&self) -> PolicyKind {
        PolicyKind::Rotating
    }

    fn mark(&self) -> u16 {
        self.mark
    }

    fn answered(&self) -> usize {
        self.answered
    }

    fn choose(&mut self, offers: &[Offer]) -> usize {
        self.answered = index_of_least(offers, PolicyKind::Rotating, self.mark);
        self.answered
    }

    fn note(&mut self, admitted: TrainNo) {
        self.mark = admitted.0.wrapping_add(1);
    }
}

/// The index of the first offer before which no other one goes.
fn index_of_least(offers: &[Offer], kind: PolicyKind, mark: u16) -> usize
    requires { 0 < length offers.now }
    ensures { HasLeastKey kind mark offers.now result }
{
    let mut least = 0;
    let mut first = &offers[0];
    for (index, offer) in offers.iter().enumerate() {
        if offer.goes_before(first, kind, mark) {
            least = index;
            first = offer;
        }
    }
    least
}
