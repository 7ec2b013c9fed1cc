//! The blocking interval of a section by one move of a train, and its nine parts.

use crate::numbers::{SectionNo, Time, TrainNo};

/// The blocking interval of one section by one move of a train: from its begin to before its end.
#[derive(Clone, Copy, Debug, PartialEq, Eq)]
pub struct Interval {
    pub section: SectionNo,
    pub train: TrainNo,
    /// The number of the move, counted from 1.
    pub place: u16,
    pub begin: Time,
    /// `None` while the train stands on the section and its next move is not admitted.
    pub end: Option<Time>,
    pub parts: Parts,
}

/// The parts of a blocking interval in their order, in tenths of a second; `None` while undecided.
#[derive(Clone, Copy, Debug, PartialEq, Eq)]
pub struct Parts {
    /// Clearing the signal.
    pub setting: Option<u64>,
    /// Watching the signal.
    pub watching: Option<u64>,
    /// The approach; 0 for a train that starts from a stand.
    pub approach: Option<u64>,
    /// From the end of the parts before to the start of the move.
    pub waiting: Option<u64>,
    /// Running over the sections of the move before this one.
    pub earlier: Option<u64>,
    /// Running over the section.
    pub running: Option<u64>,
    /// Standing on the section until the next move.
    pub standing: Option<u64>,
    /// From the head's leaving the section, or the start of the next move, until the train is clear of it.
    pub clearing: Option<u64>,
    /// Releasing the section.
    pub release: Option<u64>,
}
