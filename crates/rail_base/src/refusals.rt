//! Why an input is refused and where, and that memory was not found.

ghost use Rattle.std.specs.Prelude.{◌≡◌};
ghost use Rattle.rail_base.specs.Refusals.{number_of};

use std::alloc::AllocError;
use thiserror::Error;

/// Memory was not found.
#[derive(Clone, Copy, Debug, PartialEq, Eq, Error)]
#[error("out of memory")]
pub struct OutOfMemory;

impl From<AllocError> for OutOfMemory {
    ghost from_gives = { λ _ _. Unit {0} };

    fn from(_: AllocError) -> OutOfMemory {
        OutOfMemory
    }
}

/// Why an input is refused, and where.
#[derive(Clone, Copy, Debug, PartialEq, Eq)]
pub struct Refusal {
    pub reason: Reason,
    pub part: Part,
    /// The number of the item in its part, counted from 1; 0 where the part has none.
    pub item: u32,
    /// The number of the key, joint, step or place in the item, counted from 1; 0 where none is meant.
    pub step: u32,
}

/// What a call that reads an input answers in place of its result.
#[derive(Clone, Copy, Debug, PartialEq, Eq)]
pub enum Fault {
    Refused(Refusal),
    OutOfMemory,
}

impl From<AllocError> for Fault {
    ghost use Rattle.rail_base.specs.declared.refusals.Fault.TheVariants as fault;

    ghost from_gives = { λ _ e. e ≡ fault.OutOfMemory };

    fn from(_: AllocError) -> Fault {
        Fault::OutOfMemory
    }
}

impl From<OutOfMemory> for Fault {
    ghost use Rattle.rail_base.specs.declared.refusals.Fault.TheVariants as fault;

    ghost from_gives = { λ _ e. e ≡ fault.OutOfMemory };

    fn from(_: OutOfMemory) -> Fault {
        Fault::OutOfMemory
    }
}

/// The part of the input in which a refusal lies.
#[derive(Clone, Copy, Debug, PartialEq, Eq)]
pub enum Part {
    Bytes,
    Root,
    Section,
    Portal,
    Signal,
    Board,
    Turn,
    Route,
    Kind,
    Train,
    /// A record of a timetable, the header counted.
    Row,
    /// A line of a command, edit, list or history file, skipped lines counted.
    Line,
    /// A word of the command line.
    Word,
    /// A file, by its number among the file words of the command.
    File,
}

/// Why an input is refused.
#[derive(Clone, Copy, Debug, PartialEq, Eq)]
pub enum Reason {
    /// The bytes are no TOML.
    NotToml,
    /// A key without default is absent.
    KeyMissing,
    /// A value is not of the stated kind.
    WrongKind,
    /// A key is not in the list of keys.
    KeyUnknown,
    /// A text that has to be a name is none.
    BadName,
    /// The name, or the turn, stands already.
    Repeated,
    /// A name refers to nothing.
    Unknown,
    /// A value is outside its range.
    Range,
    /// A joint is in too many sections, twice in one, or carries a portal.
    JointCrowded,
    /// A post or a turn breaks a rule on its place.
    PostPlace,
    /// A route breaks a rule on its steps.
    RouteBroken,
    /// A section occurs twice in a route.
    RouteRepeat,
    /// Two routes of an itinerary do not meet.
    ItineraryBroken,
    /// An itinerary does not begin or end at a portal.
    NotPortal,
    /// A train is longer than the sections of a route before its last one.
    TooLong,
    /// A train would stand on a section that its next move needs.
    SelfBlocked,
    /// A limit is passed.
    TooMany,
    /// A timetable is not of its form.
    TimetableForm,
    /// A record of a timetable breaks a rule.
    TimetableValue,
    /// An item to be removed is in use.
    InUse,
    /// The policy of the scene is not in the deck.
    UnknownPolicy,
    /// A line is not of a command's form.
    CommandForm,
    /// A section or train of a command is unknown.
    CommandName,
    /// The time of a command is below that of the one before.
    CommandOrder,
    /// A line is not a line of a history.
    HistoryForm,
    /// The line for a compression is empty.
    LineEmpty,
    /// The window does not begin before its end.
    WindowEmpty,
    /// A line is not a line of a snapshot.
    SnapshotForm,
    /// A snapshot belongs to another input.
    SnapshotOther,
    /// No free path fits.
    NoPath,
    /// A line is not of an edit's form.
    EditForm,
    /// No edit is left to undo.
    NothingToUndo,
    /// No undone edit is left to redo.
    NothingToRedo,
    /// A line is not of the list file's form.
    ListForm,
    /// A train of a list is unknown.
    ListName,
    /// Two trains of a list hold one section.
    ListPlaces,
    /// A line is not of a rerouting's form.
    RerouteForm,
    /// A name of a rerouting is unknown.
    RerouteName,
}

impl Reason {
    /// The number that the refusal's text shows, from 1 to 38; 39 is kept free.
    pub fn number(self) -> u8
        ensures { result ≡ number_of self }
    {
        self as u8 + 1
    }
}
