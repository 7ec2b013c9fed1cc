//! The greatest counts and values that are accepted. Each limit itself is accepted.

/// Track sections of a scene.
pub const SECTIONS: usize = 512;
/// Portals, signals and boards of a scene together.
pub const POSTS: usize = 512;
/// Turns of a scene.
pub const TURNS: usize = 512;
/// Routes of a scene.
pub const ROUTES: usize = 1024;
/// Sections of a route, of which there is at least one.
pub const ROUTE_SECTIONS: usize = 32;
/// Sections of the overlap of a route.
pub const OVERLAP_SECTIONS: usize = 8;
/// Train kinds of a scene.
pub const KINDS: usize = 128;
/// Trains of a scene.
pub const TRAINS: usize = 256;
/// Routes of an itinerary, of which there is at least one.
pub const ITINERARY_ROUTES: usize = 128;
/// Lines of a move, hold lines aside: its head enters and its tail frees each section, the overlap's sections are
/// freed, and it is ready, admitted and arrives.
pub const MOVE_LINES: usize = 2 * ROUTE_SECTIONS + OVERLAP_SECTIONS + 3;
/// Lines of the moves of a train, hold lines aside.
pub const TRAIN_LINES: usize = ITINERARY_ROUTES * MOVE_LINES;
/// Commands of a run.
pub const COMMANDS: usize = 1024;
/// Accepted edits that an editor keeps.
pub const EDITS: usize = 4096;
/// Policies in a deck, of which there is at least one.
pub const POLICIES: usize = 16;
/// Depth of the analysis.
pub const DEPTH: u8 = 2;

/// Bytes of a scene, timetable, command, edit or list file.
pub const FILE_BYTES: u64 = 1_048_576;
/// Bytes of a history file that is read.
pub const HISTORY_BYTES: u64 = 16_777_216;
/// Trains of the list on a fresh line: the greatest number of moves of a plant.
pub const LIST_TRAINS: usize = TRAINS * ITINERARY_ROUTES;
/// Fresh lines of a history: the greatest number of moves of a plant.
pub const FRESH_LINES: usize = TRAINS * ITINERARY_ROUTES;

/// Times in scene, timetable and command files, in tenths of a second: ten days.
pub const INPUT_TIME: u64 = 8_640_000;
/// Hours that a time text in an input may have, as a count of digits.
pub const HOUR_DIGITS: usize = 12;
/// Bytes of a name, of which there is at least one.
pub const NAME_BYTES: usize = 16;

/// Length of a section in metres, of which there is at least one.
pub const SECTION_LENGTH: u32 = 100_000;
/// Length of a train in metres, of which there is at least one.
pub const TRAIN_LENGTH: u32 = 10_000;
/// Speed of a section or a train in km/h, of which there is at least one.
pub const SPEED: u32 = 500;
/// Setting time of a portal or signal in tenths of a second, of which there is at least one.
pub const SETTING: u32 = 6_000;
/// Watching time of a portal or signal in tenths of a second.
pub const WATCHING: u32 = 6_000;
/// Approach time of a portal or signal in tenths of a second.
pub const APPROACH: u32 = 36_000;
/// Time of a turn in tenths of a second.
pub const TURN_TIME: u32 = 864_000;
/// Release time in tenths of a second.
pub const RELEASE: u32 = 6_000;
/// How long after an arrival an overlap is held, in tenths of a second.
pub const OVERLAP: u32 = 6_000;
/// Start supplement of a train kind in tenths of a second.
pub const START: u32 = 6_000;
/// Stop supplement of a train kind in tenths of a second.
pub const STOP: u32 = 6_000;
