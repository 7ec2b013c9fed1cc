//! Commands and what they order, and the kinds of dispatching policies.

use crate::numbers::{SectionNo, Time, TrainNo};
use crate::text::Name;

/// A command: when it is told, and what it orders.
#[derive(Clone, Copy, Debug, PartialEq, Eq)]
pub struct Command {
    pub at: Time,
    pub what: Order,
}

/// What a command orders.
#[derive(Clone, Copy, Debug, PartialEq, Eq)]
pub enum Order {
    /// The policy of this name comes into force.
    Policy(Name),
    /// The policy of this name, which is not in force, leaves the deck.
    Retire(Name),
    /// No further move over the section is admitted.
    Close(SectionNo),
    /// Moves over the section are admitted again.
    Reopen(SectionNo),
    /// No further move of the train is admitted.
    Stop(TrainNo),
    /// Moves of the train are admitted again.
    Go(TrainNo),
    /// The train, of which no move was admitted, does not run.
    Cancel(TrainNo),
    /// The train has this priority from now on; 0 is the most important.
    Priority(TrainNo, u8),
}

/// How a dispatching policy chooses among the waiting trains: by the least key.
#[derive(Clone, Copy, Debug, PartialEq, Eq)]
pub enum PolicyKind {
    /// By priority, then entry time, then train number.
    Priority,
    /// By due time, then train number.
    Timetable,
    /// First come, first served: by ready time, then train number.
    Fcfs,
    /// By train number, in turn after the train admitted last.
    Rotating,
    /// Any answer.
    Custom,
}
