//! The trait of dispatching policies.

ghost use Rattle.std.specs.Prelude.{◌≡◌, ◌<◌, length};
ghost use Rattle.rail_policy.specs.Choices.{MayChoose};
ghost use Rattle.rail_policy.specs.Seats.{DeskSeat, asked, noted};

use crate::offer::Offer;
use rail_base::{Name, PolicyKind, TrainNo};

/// A dispatching policy: it chooses which of the waiting trains is tried next.
///
/// Contracts see it as a seat. Its name and kind never change.
pub trait Policy: Drop {
    ghost seat: { Self → DeskSeat };

    /// The name by which commands call it.
    fn name(&self) -> Name
        ensures { result ≡ (seat self.now).name };

    /// By which key it chooses.
    fn kind(&self) -> PolicyKind
        ensures { result ≡ (seat self.now).kind };

    /// Where a rotating policy begins: the number behind the train that was admitted last. A custom policy counts
    /// by it how often it was asked, and goes on from 65,535 with 0. Every other policy begins with 0 and keeps it.
    fn mark(&self) -> u16
        ensures { result ≡ (seat self.now).mark };

    /// What it answered last.
    fn answered(&self) -> usize
        ensures { result ≡ (seat self.now).answered };

    /// The index of the offer that it chooses, counted from 0. That of a custom policy may be out of range.
    fn choose(&mut self, offers: &[Offer]) -> usize
        requires { 0 < length offers.now }
        ensures seat { seat self.new ≡ asked (seat self.old) result }
        ensures choice { MayChoose (seat self.old).kind (seat self.old).mark offers.now result };

    /// Takes note that the train was admitted while this policy was in force.
    fn note(&mut self, admitted: TrainNo)
        ensures { seat self.new ≡ noted (seat self.old) admitted };
}
