//! The lines of a history, and the causes for which a ready move is held.

use crate::numbers::{SectionNo, Time, TrainNo};

/// One line of a history. The trains of a fresh list, or those that an end line names, go beside it.
#[derive(Clone, Copy, Debug, PartialEq, Eq)]
pub struct Entry {
    /// When the line happens.
    pub at: Time,
    pub what: What,
}

/// What a line of a history says. `place` is the number of the move, and commands have the number of
/// their order in the command list; both count from 1.
#[derive(Clone, Copy, Debug, PartialEq, Eq)]
pub enum What {
    /// The section is given free behind the train: its blocking interval ends.
    Free {
        section: SectionNo,
        train: TrainNo,
    },
    /// The train arrives at the end of the move's route.
    Arrive {
        train: TrainNo,
        place: u16,
    },
    /// The head of the train enters the section.
    Enter {
        train: TrainNo,
        place: u16,
        section: SectionNo,
    },
    /// The whole train has left over its last portal.
    Out {
        train: TrainNo,
    },
    /// The move could be admitted from now on.
    Ready {
        train: TrainNo,
        place: u16,
    },
    /// The command took effect.
    Told {
        command: u16,
    },
    /// The command changed nothing.
    Untold {
        command: u16,
    },
    /// The move is admitted: its route is set as a whole.
    Admit {
        train: TrainNo,
        place: u16,
        note: Note,
    },
    /// The move is not admitted now, for this cause.
    Hold {
        train: TrainNo,
        place: u16,
        cause: Cause,
    },
    /// Nothing follows.
    End,
}

/// How the kept list brings every train inside to its exit after an admission.
#[derive(Clone, Copy, Debug, PartialEq, Eq)]
pub enum Note {
    /// The kept list without the first occurrence of the train, which was inside.
    Pulled,
    /// The kept list with the remaining moves of the entering train at its end.
    Appended,
    /// A new list, which stands on the line.
    Fresh,
}

/// Why a ready move is held.
#[derive(Clone, Copy, Debug, PartialEq, Eq)]
pub enum Cause {
    /// A stop command for the train is in force.
    Stopped,
    /// The first needed section that is closed by a command.
    Closed { section: SectionNo },
    /// The first needed section that is blocked, and the train that blocks it, which may be the same.
    Blocked { section: SectionNo, holder: TrainNo },
    /// No list of following moves within the depth is known that brings every train inside to its exit.
    NoList,
}
