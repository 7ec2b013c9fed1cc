//! What a reason means where no key is told with it.

ghost use Rattle.std.specs.Prelude.{◌≡◌, ◌≤◌, length};
ghost use Rattle.rail_explain.specs.Meanings.{no_path, post_place, reason_text, repeated, snapshot_form, too_many, unknown_item};

use rail_base::limits::{
    COMMANDS, EDITS, FILE_BYTES, HISTORY_BYTES, KINDS, LIST_TRAINS, NAME_BYTES, POSTS, ROUTES,
    SECTIONS, TRAINS, TURNS,
};
use rail_base::{Part, Reason, Refusal};

// The limits that the texts below tell.
const _: () = prove!(NAME_BYTES == 16);

const _: () = prove!(FILE_BYTES == 1_048_576 && HISTORY_BYTES == 16_777_216);

const _: () = prove!(SECTIONS == 512 && POSTS == 512 && TURNS == 512 && ROUTES == 1_024);

const _: () = prove!(KINDS == 128 && TRAINS == 256);

const _: () = prove!(COMMANDS == 1_024 && EDITS == 4_096 && LIST_TRAINS == 32_768);

/// What the reason of a refusal means. The reasons that are told with a key, a joint, a step or a place have their words
/// behind these.
pub fn reason_text(refusal: &Refusal) -> &'static [u8]
    ensures text { result.now ≡ reason_text refusal.now.reason refusal.now }
    ensures short { length result.now ≤ 140 }
{
    match refusal.reason {
        Reason::NotToml => b" is no TOML in UTF-8",
        Reason::KeyMissing => b" is missing",
        Reason::WrongKind => b" has a value of another kind",
        Reason::KeyUnknown => b" has a key that is none of its keys",
        Reason::BadName => b" must be a name: 1 to 16 of A-Z a-z 0-9 _ -",
        Reason::Repeated => repeated(refusal.part),
        Reason::Unknown => unknown_item(refusal.part),
        Reason::Range => b" is out of its range",
        Reason::JointCrowded => {
            b" is in two sections already, stands twice in this one, or carries a portal"
        }
        Reason::PostPlace => post_place(refusal.part),
        Reason::RouteBroken => {
            b" does not lead on: no way of its section joins these joints, or the post there is another one or looks back"
        }
        Reason::RouteRepeat => b" is over a section that stood in the route before",
        Reason::ItineraryBroken => {
            b": the next route does not begin at the signal where this one ends, and no turn leads there"
        }
        Reason::NotPortal if refusal.step == 0 => b": the way must begin at a portal",
        Reason::NotPortal => b": the way must end at a portal",
        Reason::TooLong =>
            b": the train is longer than the sections of the route on which it is to stand",
        Reason::SelfBlocked => b": the train would stand on a section that its next move needs",
        Reason::TooMany => too_many(refusal.part),
        Reason::TimetableForm => {
            b" must have the five fields train,place,arrival,departure,dwell; record 1 is that header"
        }
        Reason::TimetableValue => {
            b" has no such train or place, a second call, no time as 01:30:00, a pass where it turns, or a departure at the end"
        }
        Reason::InUse => b" takes out what is still in use",
        Reason::UnknownPolicy => b" must be priority, timetable, fcfs or rotating",
        Reason::CommandForm => {
            b" must be a time as 01:30:00 and close, open, stop, go, cancel, priority, policy or retire with its words"
        }
        Reason::CommandName => {
            b" names nothing of the scene: close and open take a section, stop, go, cancel and priority a train"
        }
        Reason::CommandOrder => b" has a time before that of the command above it",
        Reason::HistoryForm => b" is no line of a history, or has no line feed at its end",
        Reason::LineEmpty => b", LINE, must name one section or more",
        Reason::WindowEmpty => b", FROM, must be before TO",
        Reason::EditForm => b" must be add or remove with the words of an item, undo or redo",
        Reason::NothingToUndo => b" has no edit left to undo",
        Reason::NothingToRedo => b" has no undone edit left to make again",
        Reason::ListForm => b" must be at TRAIN PLACE, or behind all of these move TRAIN",
        Reason::ListName => b" names a train that is not in the scene",
        Reason::ListPlaces => b": two trains would stand on one section at these places",
        Reason::SnapshotForm => snapshot_form(refusal.item),
        Reason::SnapshotOther => {
            b" is no line that a run of this scene, timetable and commands could have there"
        }
        Reason::NoPath => no_path(refusal.item),
        Reason::RerouteForm => b" does not say how a train is rerouted",
        Reason::RerouteName => b" names a train or a route that is not in the scene",
    }
}

/// What is not there.
fn unknown_item(part: Part) -> &'static [u8]
    ensures text { result.now ≡ unknown_item part }
    ensures short { length result.now ≤ 140 }
{
    match part {
        Part::Word => b" names nothing of the scene: LINE takes sections, TRAIN a train",
        _ => b" names what is not there",
    }
}

/// What stands already.
fn repeated(part: Part) -> &'static [u8]
    ensures text { result.now ≡ repeated part }
    ensures short { length result.now ≤ 140 }
{
    match part {
        Part::Turn => b" leads between two posts that have a turn already",
        Part::Portal | Part::Signal | Part::Board => {
            b" has a name that a portal, signal or board before it has"
        }
        Part::Word => b", LINE, names a section twice",
        Part::Line => b" gives a name, or a turn, that stands already",
        _ => b" has a name that stands before it",
    }
}

/// Where posts and turns have to be.
fn post_place(part: Part) -> &'static [u8]
    ensures text { result.now ≡ post_place part }
    ensures short { length result.now ≤ 140 }
{
    match part {
        Part::Portal =>
            b" must stand at a joint of one section, which has no portal and no board yet",
        Part::Signal => {
            b" must stand at a joint of two sections, one of them ahead of it, with no other signal that looks there"
        }
        Part::Board =>
            b" must stand at a joint of one or two sections, which has no portal and no board yet",
        Part::Turn => b" must arrive at no portal, leave over a signal, and have two posts",
        _ => b" does not stand as it has to",
    }
}

/// How many there may be.
fn too_many(part: Part) -> &'static [u8]
    ensures text { result.now ≡ too_many part }
    ensures short { length result.now ≤ 140 }
{
    match part {
        Part::File => {
            b" is larger than a file may be: 1,048,576 bytes, and a history or a snapshot 16,777,216"
        }
        Part::Section => b" is one too many: there may be 512 sections",
        Part::Portal | Part::Signal | Part::Board => {
            b" is one too many: there may be 512 portals, signals and boards together"
        }
        Part::Turn => b" is one too many: there may be 512 turns",
        Part::Route => b" is one too many: there may be 1,024 routes",
        Part::Kind => b" is one too many: there may be 128 kinds",
        Part::Train => b" is one too many: there may be 256 trains",
        Part::Line =>
            b" is one too many: there may be 1,024 commands, 4,096 edits kept, and 32,768 trains in a list",
        _ => b" is more than there may be",
    }
}

/// What a line of a snapshot has to be; the first one tells that it is one.
fn snapshot_form(item: u32) -> &'static [u8]
    ensures text { result.now ≡ snapshot_form item }
    ensures short { length result.now ≤ 140 }
{
    match item {
        1 => b" must be rail-snapshot 1, with which a snapshot begins",
        _ => b" is no line of a history, or has no line feed at its end",
    }
}

/// Which word asks for paths that are not there.
fn no_path(item: u32) -> &'static [u8]
    ensures text { result.now ≡ no_path item }
    ensures short { length result.now ≤ 140 }
{
    match item {
        2 => {
            b", TRAIN, has no whole path in the run to be copied: it was not admitted, or stands somewhere at the end"
        }
        _ => b", FROM: no path is free that begins there or later, and before TO",
    }
}
