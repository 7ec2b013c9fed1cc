//! The tables of a scene file: which keys each has in each version of the format, in which order, and of which form.
//!
//! The reader cites these constants alone. The contracts here say that they are the keys of the format, which stand in
//! a table of the definitions, `key_row` in `specs/Keys.antt`. The types are public, since the definitions speak of them, and
//! so is `keys_in`, for whoever tells of a key; what the reader does with them is not.
ghost use Rattle.std.specs.Prelude.{◌≡◌, ◌≤◌, length, IsTrue};
ghost use Rattle.rail_base.specs.Lists.{are_distinct};
ghost use Rattle.rail_scene.specs.Forms.{have_one_text};
ghost use Rattle.rail_scene.specs.Keys.{text_of, list_key, root_keys, route_keys, keys_of, part_of, keys_in, list_in};

use crate::versions::Version;
use rail_base::{Part, limits};

/// Which key it is. Two keys of different tables that are written alike and are of one form are one.
#[derive(Clone, Copy)]
pub enum KeyName {
    Version,
    Release,
    Depth,
    Policy,
    Section,
    Portal,
    Signal,
    Board,
    Turn,
    Route,
    Kind,
    Train,
    OverlapTime,
    Name,
    SectionKind,
    SectionLength,
    Speed,
    Joints,
    Joint,
    Setting,
    Watching,
    Approach,
    Ahead,
    Arriving,
    Leaving,
    Time,
    From,
    To,
    Path,
    Overlap,
    TrainLength,
    Start,
    Stop,
    TrainKind,
    Entry,
    Priority,
    Routes,
}

impl KeyName {
    /// The text of the key.
    pub fn text(self) -> &'static str
        ensures text { result.now ≡ text_of self }
        ensures short { length result.now ≤ 12 }
    {
        match self {
            KeyName::Version => "version",
            KeyName::Release => "release",
            KeyName::Depth => "depth",
            KeyName::Policy => "policy",
            KeyName::Section => "section",
            KeyName::Portal => "portal",
            KeyName::Signal => "signal",
            KeyName::Board => "board",
            KeyName::Turn => "turn",
            KeyName::Route => "route",
            KeyName::Kind => "kind",
            KeyName::Train => "train",
            KeyName::OverlapTime => "overlap_time",
            KeyName::Name => "name",
            KeyName::SectionKind => "kind",
            KeyName::SectionLength => "length",
            KeyName::Speed => "speed",
            KeyName::Joints => "joints",
            KeyName::Joint => "joint",
            KeyName::Setting => "setting",
            KeyName::Watching => "watching",
            KeyName::Approach => "approach",
            KeyName::Ahead => "ahead",
            KeyName::Arriving => "arriving",
            KeyName::Leaving => "leaving",
            KeyName::Time => "time",
            KeyName::From => "from",
            KeyName::To => "to",
            KeyName::Path => "path",
            KeyName::Overlap => "overlap",
            KeyName::TrainLength => "length",
            KeyName::Start => "start",
            KeyName::Stop => "stop",
            KeyName::TrainKind => "kind",
            KeyName::Entry => "entry",
            KeyName::Priority => "priority",
            KeyName::Routes => "routes",
        }
    }
}

/// A range of whole numbers, and the number that an absent key stands for. A required key is never
/// absent when its number is used.
#[derive(Clone, Copy)]
pub struct Bounds {
    pub low: u32,
    pub high: u32,
    pub default: u32,
}

/// What the value of a key has to be.
#[derive(Clone, Copy)]
pub enum KeyForm {
    /// A string that is a name.
    Name,
    /// A string that is a name; an absent key stands for `fcfs`.
    Policy,
    /// A string that is the word of a section kind.
    Choice,
    /// A string that is a time up to the greatest of an input.
    Time,
    Whole(Bounds),
    /// A list of strings that are names, as many as the section kind of the table has joints.
    Joints,
    /// A list of strings that are names: joints and sections in turn.
    Path,
    /// A list of strings that are names: sections and joints in turn, beyond a path.
    Overlap,
    /// A list of strings that are names: the routes of an itinerary.
    Itinerary,
    /// A list of tables.
    Tables,
}

/// A key of a table.
#[derive(Clone, Copy)]
pub struct Key {
    pub name: KeyName,
    pub form: KeyForm,
    pub required: bool,
}

/// The lists of tables of a scene file.
#[derive(Clone, Copy)]
pub enum ListPart {
    Section,
    Portal,
    Signal,
    Board,
    Turn,
    Route,
    Kind,
    Train,
}

/// The lists in the order in which they are read.
pub(crate) const LIST_PARTS: [ListPart; 8] = [
    ListPart::Section,
    ListPart::Portal,
    ListPart::Signal,
    ListPart::Board,
    ListPart::Turn,
    ListPart::Route,
    ListPart::Kind,
    ListPart::Train,
];

impl ListPart {
    /// The key of the root that has the list.
    pub(crate) fn key(self) -> Key
        ensures { result ≡ list_key self }
    {
        match self {
            ListPart::Section => SECTION_LIST,
            ListPart::Portal => PORTAL_LIST,
            ListPart::Signal => SIGNAL_LIST,
            ListPart::Board => BOARD_LIST,
            ListPart::Turn => TURN_LIST,
            ListPart::Route => ROUTE_LIST,
            ListPart::Kind => KIND_LIST,
            ListPart::Train => TRAIN_LIST,
        }
    }

    /// The keys of a table in the list, in a file of the version.
    pub(crate) fn keys(self, version: Version) -> &'static [Key]
        ensures keys { result.now ≡ keys_of self version }
        ensures few { length result.now ≤ MOST_KEYS }
        ensures distinct { IsTrue (are_distinct have_one_text result.now) }
    {
        match self {
            ListPart::Section => &SECTION_KEYS,
            ListPart::Portal => &PORTAL_KEYS,
            ListPart::Signal => &SIGNAL_KEYS,
            ListPart::Board => &BOARD_KEYS,
            ListPart::Turn => &TURN_KEYS,
            ListPart::Route => route_keys(version),
            ListPart::Kind => &KIND_KEYS,
            ListPart::Train => &TRAIN_KEYS,
        }
    }

    /// The indices of the keys of a table in the list as their texts are ordered.
    pub(crate) fn order(self, version: Version) -> &'static [usize] {
        match self {
            ListPart::Section => &SECTION_ORDER,
            ListPart::Portal => &PORTAL_ORDER,
            ListPart::Signal => &SIGNAL_ORDER,
            ListPart::Board => &BOARD_ORDER,
            ListPart::Turn => &TURN_ORDER,
            ListPart::Route => match version {
                Version::One => &FIRST_ROUTE_ORDER,
                Version::Two => &ROUTE_ORDER,
            },
            ListPart::Kind => &KIND_ORDER,
            ListPart::Train => &TRAIN_ORDER,
        }
    }

    /// The part of a refusal in the list.
    pub(crate) fn part(self) -> Part
        ensures { result ≡ part_of self }
    {
        match self {
            ListPart::Section => Part::Section,
            ListPart::Portal => Part::Portal,
            ListPart::Signal => Part::Signal,
            ListPart::Board => Part::Board,
            ListPart::Turn => Part::Turn,
            ListPart::Route => Part::Route,
            ListPart::Kind => Part::Kind,
            ListPart::Train => Part::Train,
        }
    }
}

/// The keys of the root of a file of the version.
pub(crate) fn root_keys(version: Version) -> &'static [Key]
    ensures keys { result.now ≡ root_keys version }
    ensures few { length result.now ≤ MOST_KEYS }
{
    match version {
        Version::One => &FIRST_ROOT_KEYS,
        Version::Two => &ROOT_KEYS,
    }
}

/// The keys of a route in a file of the version.
fn route_keys(version: Version) -> &'static [Key]
    ensures keys { result.now ≡ route_keys version }
    ensures few { length result.now ≤ MOST_KEYS }
    ensures distinct { IsTrue (are_distinct have_one_text result.now) }
{
    match version {
        Version::One => &FIRST_ROUTE_KEYS,
        Version::Two => &ROUTE_KEYS,
    }
}

/// The keys of a table of the part in a file of the version, in their order: of the root, or of an item. Other parts have
/// none.
pub fn keys_in(part: Part, version: Version) -> &'static [Key]
    ensures keys { result.now ≡ keys_in part version }
    ensures few { length result.now ≤ MOST_KEYS }
{
    match part {
        Part::Root => root_keys(version),
        Part::Section => &SECTION_KEYS,
        Part::Portal => &PORTAL_KEYS,
        Part::Signal => &SIGNAL_KEYS,
        Part::Board => &BOARD_KEYS,
        Part::Turn => &TURN_KEYS,
        Part::Route => route_keys(version),
        Part::Kind => &KIND_KEYS,
        Part::Train => &TRAIN_KEYS,
        Part::Bytes | Part::Row | Part::Line | Part::Word | Part::File => &[],
    }
}

/// The list of a part that is one.
pub(crate) fn list_in(part: Part) -> Option<ListPart>
    ensures { result ≡ list_in part }
{
    match part {
        Part::Section => Some(ListPart::Section),
        Part::Portal => Some(ListPart::Portal),
        Part::Signal => Some(ListPart::Signal),
        Part::Board => Some(ListPart::Board),
        Part::Turn => Some(ListPart::Turn),
        Part::Route => Some(ListPart::Route),
        Part::Kind => Some(ListPart::Kind),
        Part::Train => Some(ListPart::Train),
        Part::Bytes | Part::Root | Part::Row | Part::Line | Part::Word | Part::File => None,
    }
}

pub(crate) const VERSION: Key = Key {
    name: KeyName::Version,
    form: KeyForm::Whole(Bounds {
        low: 1,
        high: 2,
        default: 2,
    }),
    required: true,
};

pub(crate) const RELEASE: Key = Key {
    name: KeyName::Release,
    form: KeyForm::Whole(Bounds {
        low: 0,
        high: limits::RELEASE,
        default: 0,
    }),
    required: true,
};

/// Depth of the analysis where a scene names none.
const DEFAULT_DEPTH: u32 = 1;

pub(crate) const DEPTH: Key = Key {
    name: KeyName::Depth,
    form: KeyForm::Whole(Bounds {
        low: 0,
        high: limits::DEPTH as u32,
        default: DEFAULT_DEPTH,
    }),
    required: false,
};

pub(crate) const POLICY: Key = Key {
    name: KeyName::Policy,
    form: KeyForm::Policy,
    required: false,
};

pub(crate) const SECTION_LIST: Key = Key {
    name: KeyName::Section,
    form: KeyForm::Tables,
    required: false,
};

pub(crate) const PORTAL_LIST: Key = Key {
    name: KeyName::Portal,
    form: KeyForm::Tables,
    required: false,
};

pub(crate) const SIGNAL_LIST: Key = Key {
    name: KeyName::Signal,
    form: KeyForm::Tables,
    required: false,
};

pub(crate) const BOARD_LIST: Key = Key {
    name: KeyName::Board,
    form: KeyForm::Tables,
    required: false,
};

pub(crate) const TURN_LIST: Key = Key {
    name: KeyName::Turn,
    form: KeyForm::Tables,
    required: false,
};

pub(crate) const ROUTE_LIST: Key = Key {
    name: KeyName::Route,
    form: KeyForm::Tables,
    required: false,
};

pub(crate) const KIND_LIST: Key = Key {
    name: KeyName::Kind,
    form: KeyForm::Tables,
    required: false,
};

pub(crate) const TRAIN_LIST: Key = Key {
    name: KeyName::Train,
    form: KeyForm::Tables,
    required: false,
};

pub(crate) const OVERLAP_TIME: Key = Key {
    name: KeyName::OverlapTime,
    form: KeyForm::Whole(Bounds {
        low: 0,
        high: limits::OVERLAP,
        default: 0,
    }),
    required: false,
};

/// The most keys of a table.
pub const MOST_KEYS: usize = 13;

/// The keys of the root in the first version.
const FIRST_ROOT_KEYS: [Key; 12] = [
    VERSION,
    RELEASE,
    DEPTH,
    POLICY,
    SECTION_LIST,
    PORTAL_LIST,
    SIGNAL_LIST,
    BOARD_LIST,
    TURN_LIST,
    ROUTE_LIST,
    KIND_LIST,
    TRAIN_LIST,
];

/// The keys of the root in the second version.
const ROOT_KEYS: [Key; MOST_KEYS] = [
    VERSION,
    RELEASE,
    DEPTH,
    POLICY,
    SECTION_LIST,
    PORTAL_LIST,
    SIGNAL_LIST,
    BOARD_LIST,
    TURN_LIST,
    ROUTE_LIST,
    KIND_LIST,
    TRAIN_LIST,
    OVERLAP_TIME,
];

pub(crate) const NAME: Key = Key {
    name: KeyName::Name,
    form: KeyForm::Name,
    required: true,
};

pub(crate) const SECTION_KIND: Key = Key {
    name: KeyName::SectionKind,
    form: KeyForm::Choice,
    required: true,
};

pub(crate) const SECTION_LENGTH: Key = Key {
    name: KeyName::SectionLength,
    form: KeyForm::Whole(Bounds {
        low: 1,
        high: limits::SECTION_LENGTH,
        default: 1,
    }),
    required: true,
};

pub(crate) const SPEED: Key = Key {
    name: KeyName::Speed,
    form: KeyForm::Whole(Bounds {
        low: 1,
        high: limits::SPEED,
        default: 1,
    }),
    required: true,
};

pub(crate) const JOINTS: Key = Key {
    name: KeyName::Joints,
    form: KeyForm::Joints,
    required: true,
};

/// The keys of a section.
pub(crate) const SECTION_KEYS: [Key; 5] = [NAME, SECTION_KIND, SECTION_LENGTH, SPEED, JOINTS];

/// The indices of these keys as their texts are ordered.
pub(crate) const SECTION_ORDER: [usize; 5] = [4, 1, 2, 0, 3];

pub(crate) const JOINT: Key = Key {
    name: KeyName::Joint,
    form: KeyForm::Name,
    required: true,
};

pub(crate) const SETTING: Key = Key {
    name: KeyName::Setting,
    form: KeyForm::Whole(Bounds {
        low: 1,
        high: limits::SETTING,
        default: 1,
    }),
    required: true,
};

pub(crate) const WATCHING: Key = Key {
    name: KeyName::Watching,
    form: KeyForm::Whole(Bounds {
        low: 0,
        high: limits::WATCHING,
        default: 0,
    }),
    required: true,
};

pub(crate) const APPROACH: Key = Key {
    name: KeyName::Approach,
    form: KeyForm::Whole(Bounds {
        low: 0,
        high: limits::APPROACH,
        default: 0,
    }),
    required: true,
};

/// The keys of a portal.
pub(crate) const PORTAL_KEYS: [Key; 5] = [NAME, JOINT, SETTING, WATCHING, APPROACH];

/// The indices of these keys as their texts are ordered.
pub(crate) const PORTAL_ORDER: [usize; 5] = [4, 1, 0, 2, 3];

pub(crate) const AHEAD: Key = Key {
    name: KeyName::Ahead,
    form: KeyForm::Name,
    required: true,
};

/// The keys of a signal.
pub(crate) const SIGNAL_KEYS: [Key; 6] = [NAME, JOINT, AHEAD, SETTING, WATCHING, APPROACH];

/// The indices of these keys as their texts are ordered.
pub(crate) const SIGNAL_ORDER: [usize; 6] = [2, 5, 1, 0, 3, 4];

/// The keys of a board.
pub(crate) const BOARD_KEYS: [Key; 2] = [NAME, JOINT];

/// The indices of these keys as their texts are ordered.
pub(crate) const BOARD_ORDER: [usize; 2] = [1, 0];

pub(crate) const ARRIVING: Key = Key {
    name: KeyName::Arriving,
    form: KeyForm::Name,
    required: true,
};

pub(crate) const LEAVING: Key = Key {
    name: KeyName::Leaving,
    form: KeyForm::Name,
    required: true,
};

pub(crate) const TURN_TIME: Key = Key {
    name: KeyName::Time,
    form: KeyForm::Whole(Bounds {
        low: 0,
        high: limits::TURN_TIME,
        default: 0,
    }),
    required: true,
};

/// The keys of a turn.
pub(crate) const TURN_KEYS: [Key; 3] = [ARRIVING, LEAVING, TURN_TIME];

/// The indices of these keys as their texts are ordered.
pub(crate) const TURN_ORDER: [usize; 3] = [0, 1, 2];

pub(crate) const FROM: Key = Key {
    name: KeyName::From,
    form: KeyForm::Name,
    required: true,
};

pub(crate) const TO: Key = Key {
    name: KeyName::To,
    form: KeyForm::Name,
    required: true,
};

pub(crate) const PATH: Key = Key {
    name: KeyName::Path,
    form: KeyForm::Path,
    required: true,
};

pub(crate) const OVERLAP: Key = Key {
    name: KeyName::Overlap,
    form: KeyForm::Overlap,
    required: false,
};

/// The keys of a route in the first version.
pub(crate) const FIRST_ROUTE_KEYS: [Key; 4] = [NAME, FROM, TO, PATH];

/// The indices of these keys as their texts are ordered.
pub(crate) const FIRST_ROUTE_ORDER: [usize; 4] = [1, 0, 3, 2];

/// The keys of a route in the second version.
const ROUTE_KEYS: [Key; 5] = [NAME, FROM, TO, PATH, OVERLAP];

/// The indices of these keys as their texts are ordered.
pub(crate) const ROUTE_ORDER: [usize; 5] = [1, 0, 4, 3, 2];

pub(crate) const TRAIN_LENGTH: Key = Key {
    name: KeyName::TrainLength,
    form: KeyForm::Whole(Bounds {
        low: 1,
        high: limits::TRAIN_LENGTH,
        default: 1,
    }),
    required: true,
};

pub(crate) const START: Key = Key {
    name: KeyName::Start,
    form: KeyForm::Whole(Bounds {
        low: 0,
        high: limits::START,
        default: 0,
    }),
    required: true,
};

pub(crate) const STOP: Key = Key {
    name: KeyName::Stop,
    form: KeyForm::Whole(Bounds {
        low: 0,
        high: limits::STOP,
        default: 0,
    }),
    required: true,
};

/// The keys of a train kind.
pub(crate) const KIND_KEYS: [Key; 5] = [NAME, TRAIN_LENGTH, SPEED, START, STOP];

/// The indices of these keys as their texts are ordered.
pub(crate) const KIND_ORDER: [usize; 5] = [1, 0, 2, 3, 4];

pub(crate) const TRAIN_KIND: Key = Key {
    name: KeyName::TrainKind,
    form: KeyForm::Name,
    required: true,
};

pub(crate) const ENTRY: Key = Key {
    name: KeyName::Entry,
    form: KeyForm::Time,
    required: true,
};

pub(crate) const PRIORITY: Key = Key {
    name: KeyName::Priority,
    form: KeyForm::Whole(Bounds {
        low: 0,
        high: 255,
        default: 0,
    }),
    required: false,
};

pub(crate) const ROUTES: Key = Key {
    name: KeyName::Routes,
    form: KeyForm::Itinerary,
    required: true,
};

/// The keys of a train.
pub(crate) const TRAIN_KEYS: [Key; 5] = [NAME, TRAIN_KIND, ENTRY, PRIORITY, ROUTES];

/// The indices of these keys as their texts are ordered.
pub(crate) const TRAIN_ORDER: [usize; 5] = [2, 1, 0, 3, 4];
