//! What a policy is told of a waiting train, and which of two offers goes first.

ghost use Rattle.std.specs.Prelude.{◌≡◌};

use rail_base::{PolicyKind, Time, TrainNo};

/// A waiting train that a policy may choose. Times are in tenths of a second.
#[derive(Clone, Copy, Debug, PartialEq, Eq)]
pub struct Offer {
    pub train: TrainNo,
    /// The number of the move that waits, counted from 1.
    pub place: u16,
    /// 0 is the most important.
    pub priority: u8,
    /// When the train enters by the scene.
    pub entry: Time,
    /// When the move is due by the timetable, or the entry.
    pub due: Time,
    /// When the move became ready.
    pub ready: Time,
}

impl Offer {
    ghost use Rattle.rail_policy.specs.Keys.{goes_before};

    /// Whether this offer's key is less than the other's, by a policy of this kind with this mark.
    pub(crate) fn goes_before(&self, other: &Offer, kind: PolicyKind, mark: u16) -> bool
        ensures { result ≡ goes_before kind mark self.now other.now }
    {
        match kind {
            PolicyKind::Priority => {
                (self.priority, self.entry, self.train) < (other.priority, other.entry, other.train)
            }
            PolicyKind::Timetable => (self.due, self.train) < (other.due, other.train),
            // Written out: it is asked of each offer in each turn, and most are ready later.
            PolicyKind::Fcfs => {
                self.ready < other.ready || (self.ready == other.ready && self.train < other.train)
            }
            PolicyKind::Rotating => {
                self.train.0.wrapping_sub(mark) < other.train.0.wrapping_sub(mark)
            }
            PolicyKind::Custom => false,
        }
    }
}
