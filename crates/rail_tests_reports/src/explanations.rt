//! What is said of a refusal.

use rail_base::{Name, OutOfMemory, Part, Reason, Refusal, Seq, Word};
use rail_command_line::{Form, request_of};
use rail_explain::{
    KeepingShelf, VERSION, detail, explained, file_of, help_line, law_text, usage_with_hint,
    write_read_fault, write_refusal, write_unknown_policies,
};
use rail_io::{File, MemoryShelf, MemorySink, read_whole};
use std::alloc::{AllocError, Global};

/// What is said of item 2 of the part, at this step.
const TOLD: [(Reason, Part, u32, &str); 45] = [
    (
        Reason::NotToml,
        Part::Bytes,
        0,
        "the file is no TOML in UTF-8",
    ),
    (
        Reason::KeyMissing,
        Part::Root,
        2,
        "the root: key 2 \"release\" is missing",
    ),
    (
        Reason::WrongKind,
        Part::Turn,
        3,
        "turn 2: key 3 \"time\" must be a whole number",
    ),
    (
        Reason::KeyUnknown,
        Part::Board,
        0,
        "board 2 has a key that is none of its keys: name joint",
    ),
    (
        Reason::BadName,
        Part::Signal,
        3,
        "signal 2: key 3 \"ahead\" must be a name: 1 to 16 of A-Z a-z 0-9 _ -",
    ),
    (
        Reason::Repeated,
        Part::Section,
        1,
        "section 2 has a name that stands before it",
    ),
    (
        Reason::Unknown,
        Part::Train,
        2,
        "train 2: key 2 \"kind\" names no kind",
    ),
    (
        Reason::Range,
        Part::Section,
        3,
        "section 2: key 3 \"length\" must be 1 to 100000",
    ),
    (
        Reason::Range,
        Part::Route,
        5,
        "route 2: key 5 \"overlap\" must have at most 16 names, sections and joints in turn, in an even number",
    ),
    (
        Reason::KeyUnknown,
        Part::Route,
        0,
        "route 2 has a key that is none of its keys: name from to path, in version 2 overlap",
    ),
    (
        Reason::Range,
        Part::Train,
        5,
        "train 2: key 5 \"routes\" must have 1 to 128 names",
    ),
    (
        Reason::JointCrowded,
        Part::Section,
        1,
        "section 2: joint 1 is in two sections already, stands twice in this one, or carries a portal",
    ),
    (
        Reason::PostPlace,
        Part::Portal,
        0,
        "portal 2 must stand at a joint of one section, which has no portal and no board yet",
    ),
    (
        Reason::RouteBroken,
        Part::Route,
        3,
        "route 2: step 3 does not lead on: no way of its section joins these joints, or the post there is another one or looks back",
    ),
    (
        Reason::RouteRepeat,
        Part::Route,
        3,
        "route 2: step 3 is over a section that stood in the route before",
    ),
    (
        Reason::ItineraryBroken,
        Part::Train,
        1,
        "train 2: place 1: the next route does not begin at the signal where this one ends, and no turn leads there",
    ),
    (
        Reason::NotPortal,
        Part::Train,
        0,
        "train 2: the way must begin at a portal",
    ),
    (
        Reason::TooLong,
        Part::Train,
        1,
        "train 2: place 1: the train is longer than the sections of the route on which it is to stand",
    ),
    (
        Reason::SelfBlocked,
        Part::Train,
        1,
        "train 2: place 1: the train would stand on a section that its next move needs",
    ),
    (
        Reason::TooMany,
        Part::Kind,
        0,
        "kind 2 is one too many: there may be 128 kinds",
    ),
    (
        Reason::TimetableForm,
        Part::Row,
        0,
        "record 2 must have the five fields train,place,arrival,departure,dwell; record 1 is that header",
    ),
    (
        Reason::TimetableValue,
        Part::Row,
        0,
        "record 2 has no such train or place, a second call, no time as 01:30:00, a pass where it turns, or a departure at the end",
    ),
    (
        Reason::InUse,
        Part::Line,
        0,
        "line 2 takes out what is still in use",
    ),
    (
        Reason::UnknownPolicy,
        Part::Root,
        4,
        "the root: key 4 \"policy\" must be priority, timetable, fcfs or rotating",
    ),
    (
        Reason::CommandForm,
        Part::Line,
        0,
        "line 2 must be a time as 01:30:00 and close, open, stop, go, cancel, priority, policy or retire with its words",
    ),
    (
        Reason::CommandName,
        Part::Line,
        0,
        "line 2 names nothing of the scene: close and open take a section, stop, go, cancel and priority a train",
    ),
    (
        Reason::CommandOrder,
        Part::Line,
        0,
        "line 2 has a time before that of the command above it",
    ),
    (
        Reason::HistoryForm,
        Part::Line,
        0,
        "line 2 is no line of a history, or has no line feed at its end",
    ),
    (
        Reason::LineEmpty,
        Part::Word,
        0,
        "word 2, LINE, must name one section or more",
    ),
    (
        Reason::WindowEmpty,
        Part::Word,
        0,
        "word 2, FROM, must be before TO",
    ),
    (
        Reason::SnapshotForm,
        Part::Line,
        0,
        "line 2 is no line of a history, or has no line feed at its end",
    ),
    (
        Reason::SnapshotOther,
        Part::Line,
        0,
        "line 2 is no line that a run of this scene, timetable and commands could have there",
    ),
    (
        Reason::NoPath,
        Part::Word,
        0,
        "word 2, TRAIN, has no whole path in the run to be copied: it was not admitted, or stands somewhere at the end",
    ),
    (
        Reason::EditForm,
        Part::Line,
        0,
        "line 2 must be add or remove with the words of an item, undo or redo",
    ),
    (
        Reason::NothingToUndo,
        Part::Line,
        0,
        "line 2 has no edit left to undo",
    ),
    (
        Reason::NothingToRedo,
        Part::Line,
        0,
        "line 2 has no undone edit left to make again",
    ),
    (
        Reason::ListForm,
        Part::Line,
        0,
        "line 2 must be at TRAIN PLACE, or behind all of these move TRAIN",
    ),
    (
        Reason::ListName,
        Part::Line,
        0,
        "line 2 names a train that is not in the scene",
    ),
    (
        Reason::ListPlaces,
        Part::Line,
        0,
        "line 2: two trains would stand on one section at these places",
    ),
    (
        Reason::RerouteForm,
        Part::Line,
        0,
        "line 2 does not say how a train is rerouted",
    ),
    (
        Reason::RerouteName,
        Part::Line,
        0,
        "line 2 names a train or a route that is not in the scene",
    ),
    (
        Reason::Range,
        Part::Line,
        3,
        "line 2: value 3 is out of its range",
    ),
    (
        Reason::TooMany,
        Part::File,
        0,
        "the file is larger than a file may be: 1,048,576 bytes, and a history or a snapshot 16,777,216",
    ),
    (
        Reason::Unknown,
        Part::Word,
        1,
        "word 2: piece 1 names nothing of the scene: LINE takes sections, TRAIN a train",
    ),
    (
        Reason::Repeated,
        Part::Word,
        0,
        "word 2, LINE, names a section twice",
    ),
];

#[test]
fn says_what_each_reason_means(rt: HostRuntime) {
    let other = first_other();
    assert!(rt; other.is_none(), "{other:?}");
}

/// The first of the texts that is not said.
fn first_other() -> Option<&'static str> {
    for (reason, part, step, text) in TOLD {
        let refusal = Refusal {
            reason,
            part,
            item: 2,
            step,
        };
        if explained(&refusal, None).as_slice() != text.as_bytes() {
            return Some(text);
        }
    }
    None
}

/// A refusal of item 2 of the part.
fn repeated(part: Part) -> Refusal {
    Refusal {
        reason: Reason::Repeated,
        part,
        item: 2,
        step: 1,
    }
}

#[test]
fn names_the_item(rt: HostRuntime) {
    let line = explained(&repeated(Part::Train), Name::read(b"T02"));
    assert!(rt; line.as_slice() == b"train 2 T02 has a name that stands before it".as_slice());
}

#[test]
fn names_the_file_of_the_item(rt: HostRuntime) {
    let alloc = rt.alloc();
    let are_in_files = [
        is_in_file(alloc, "run s t c", Part::Train, Some("s")),
        is_in_file(
            alloc,
            "capacity l 00:00:00 01:00:00 s",
            Part::Train,
            Some("s"),
        ),
        is_in_file(alloc, "check s t c h", Part::Row, Some("t")),
        is_in_file(alloc, "report s t c", Part::Line, Some("c")),
        is_in_file(alloc, "edit s e", Part::Line, Some("e")),
        is_in_file(alloc, "capacity l 00:00:00 01:00:00 s", Part::Word, None),
    ];
    assert_eq!(rt; are_in_files, [true; 6]);
}

/// Whether a refusal in this part lies in this file of the command line.
fn is_in_file(alloc: Global, words: &str, part: Part, file: Option<&str>) -> bool {
    match words_of(alloc, words) {
        Ok(words) => match request_of(&words) {
            Some(request) => file_of(&request, &repeated(part)) == file,
            None => false,
        },
        Err(_) => false,
    }
}

/// The words of a command line.
fn words_of(alloc: Global, text: &str) -> Result<Vec<Word>, AllocError> {
    let mut words = Vec::new(alloc);
    for word in text.split_whitespace() {
        words.push(Word::from_string(String::from_str(alloc, word)?))?;
    }
    Ok(words)
}

#[test]
fn shows_how_a_form_is_typed(rt: HostRuntime) {
    let are_shown = [
        usage_with_hint(Form::Play).as_slice() == b"rail play SCENE LIST".as_slice(),
        usage_with_hint(Form::Gen).as_slice()
            == b"rail gen NUMBER, where NUMBER is below 2^64 and has no leading zeros".as_slice(),
        help_line(Form::Stairs).as_slice()
            == b"    rail stairs SCENE [TIMETABLE [COMMANDS]] blocking intervals of the trains, and how long each section is occupied\n".as_slice(),
        help_line(Form::Check).as_slice()
            == b"    rail check SCENE TIMETABLE COMMANDS HISTORY\n                                             whether a history is lawful to its end, or its first wrong line\n".as_slice(),
        VERSION == "rail 0.20.3\n",
    ];
    assert_eq!(rt; are_shown, [true; 5]);
}

/// A scene with mistakes in it.
const WRONG: &str = "\
version = 2

[[section]]
name = \"s1\"
kind = \"plane\"
lenght = 100
joints = [\"a\", \"b\", 7]
speed = 0

[[signal]]
name = \"a\\u001Bb\"
joint = \"b\"

[[route]]
name = \"r1\"
path = [\"a\", \"s1\", \"b\", \"s9\", \"c\"]

[[train]]
name = \"T1\"
routes = [\"r1\", \"r2\"]
";

/// A text of lines, of which one is longer than what is told of it.
const LINES: &str = "\
# a comment

00:00:10 clos s1
xxxxxxxxxxxxxxxxxxxxxxxxxxxxxxxxxxxxxxxxxxxxxxxxxxxxxxxxxxxxxxxxxxxxxx
";

/// What is said of a file that reads so, where the refusal is of this item, at this step.
const DETAILS: [(Reason, Part, u32, u32, &str, &str); 21] = [
    (
        Reason::NotToml,
        Part::Bytes,
        0,
        0,
        "a = 1\nb = [1, x]\n",
        "; line 2, column 9: invalid value, expected a string, number, boolean, date-time, array or inline table",
    ),
    (Reason::NotToml, Part::Bytes, 0, 0, "a = 1\n", ""),
    (
        Reason::Range,
        Part::Section,
        1,
        2,
        WRONG,
        "; it reads \"plane\"",
    ),
    (
        Reason::KeyMissing,
        Part::Section,
        1,
        3,
        WRONG,
        "; it has \"lenght\"",
    ),
    (
        Reason::KeyUnknown,
        Part::Section,
        1,
        0,
        WRONG,
        "; it has \"lenght\"",
    ),
    (Reason::KeyUnknown, Part::Section, 2, 0, WRONG, ""),
    (Reason::Range, Part::Section, 1, 4, WRONG, "; it reads 0"),
    (
        Reason::WrongKind,
        Part::Section,
        1,
        5,
        WRONG,
        "; it reads 7",
    ),
    (
        Reason::WrongKind,
        Part::Section,
        1,
        2,
        WRONG,
        "; it reads \"plane\"",
    ),
    (
        Reason::Range,
        Part::Route,
        1,
        4,
        WRONG,
        "; it is a list of 5",
    ),
    (
        Reason::JointCrowded,
        Part::Section,
        1,
        2,
        WRONG,
        "; it reads b",
    ),
    (
        Reason::BadName,
        Part::Signal,
        1,
        1,
        WRONG,
        "; it reads \"a\\x1bb\"",
    ),
    (
        Reason::PostPlace,
        Part::Signal,
        1,
        0,
        WRONG,
        "; it reads \"b\"",
    ),
    (
        Reason::Unknown,
        Part::Route,
        1,
        4,
        WRONG,
        "; it reads \"s9\"",
    ),
    (
        Reason::RouteBroken,
        Part::Route,
        1,
        2,
        WRONG,
        "; it reads b s9 c",
    ),
    (
        Reason::Unknown,
        Part::Train,
        1,
        5,
        WRONG,
        "; it reads \"r2\"",
    ),
    (
        Reason::ItineraryBroken,
        Part::Train,
        1,
        1,
        WRONG,
        "; it reads r1 r2",
    ),
    (
        Reason::CommandForm,
        Part::Line,
        3,
        0,
        LINES,
        "; it reads \"00:00:10 clos s1\"",
    ),
    (
        Reason::CommandForm,
        Part::Line,
        4,
        0,
        LINES,
        "; it reads \"xxxxxxxxxxxxxxxxxxxxxxxxxxxxxxxxxxxxxxxxxxxxxxxxxxxxxxxxxxxx\" ..",
    ),
    (
        Reason::TimetableForm,
        Part::Row,
        2,
        0,
        LINES,
        "; line 3 reads \"00:00:10 clos s1\"",
    ),
    (Reason::TooMany, Part::File, 1, 0, LINES, ""),
];

#[test]
fn says_what_the_file_reads(rt: HostRuntime) {
    let other = first_other_detail(rt.alloc());
    assert!(rt; other.is_none(), "{other:?}");
}

/// The first of the details that is not told.
fn first_other_detail(alloc: Global) -> Option<&'static str> {
    for (reason, part, item, step, file, told) in DETAILS {
        let refusal = Refusal {
            reason,
            part,
            item,
            step,
        };
        if detail(alloc, &refusal, file.as_bytes(), b"").as_slice() != told.as_bytes() {
            return Some(told);
        }
    }
    None
}

/// Two trains, with a scene's keys as far as they are read for words about a call.
const TRAINS: &str = "\
[[train]]
name = \"A\"
routes = [\"r1\", \"r2\", \"r3\"]

[[train]]
name = \"B\"
routes = [\"r1\"]
";

/// Records of a timetable, of which the last one is refused, and what is said of it.
const CALLS: [(Reason, &str, &str); 11] = [
    (
        Reason::TimetableValue,
        "C,1,,,",
        "; no train of the scene has this name",
    ),
    (
        Reason::TimetableValue,
        "B,2,,,",
        "; the train has the places 1 to 1",
    ),
    (
        Reason::TimetableValue,
        "A,0,,,",
        "; the train has the places 1 to 3",
    ),
    (
        Reason::TimetableValue,
        "A,1.5,,,",
        "; the train has the places 1 to 3",
    ),
    (
        Reason::TimetableValue,
        "A,2,5:00,,",
        "; its arrival is no time as 01:30:00",
    ),
    (
        Reason::TimetableValue,
        "A,2,,05:00,",
        "; its departure is no time as 01:30:00",
    ),
    (
        Reason::TimetableValue,
        "A,2,,,30",
        "; its dwell is no time as 00:00:30, nor pass",
    ),
    (
        Reason::TimetableValue,
        "A,1,,00:01:00,",
        "; a record before it has this train and place",
    ),
    (
        Reason::TimetableValue,
        "A,3,,00:05:00,",
        "; its place is the last one, where departure and dwell are empty",
    ),
    (
        Reason::TimetableValue,
        "A,2,,,pass",
        "; the train turns there, where dwell is not pass",
    ),
    (
        Reason::TimetableForm,
        "A;2;;;",
        "; fields are parted by commas, not by semicolons",
    ),
];

#[test]
fn says_what_is_out_of_order_in_a_call(rt: HostRuntime) {
    let other = first_other_call(rt.alloc());
    assert_eq!(rt; other, Ok(None));
}

/// The first of the calls of which something else is said.
fn first_other_call(alloc: Global) -> Result<Option<&'static str>, AllocError> {
    for (reason, record, told) in CALLS {
        let refusal = Refusal {
            reason,
            part: Part::Row,
            item: 3,
            step: 0,
        };
        let mut file = String::from_str(alloc, "train,place,arrival,departure,dwell\nA,1,,,\n")?;
        file.push_str(record)?;
        let line = detail(alloc, &refusal, file.as_bytes(), TRAINS.as_bytes());
        if !line.as_slice().ends_with(told.as_bytes()) {
            return Ok(Some(record));
        }
    }
    Ok(None)
}

#[test]
fn shows_a_name_without_control_characters(rt: HostRuntime) {
    let shown = shown_in(rt.alloc());
    assert_eq!(rt; shown, Ok(true));
}

/// Whether a line and the name of its file, and the name of one that was not read, are written as they are to be shown.
fn shown_in(alloc: Global) -> Result<bool, OutOfMemory> {
    let mut out = MemorySink::with_room(alloc, 400, Vec::new(alloc))?;
    let refusal = repeated(Part::Line);
    let line = detail(alloc, &refusal, b"a\nb\x07\n", b"");
    let is_written = write_refusal(Some("x\x1b[31m"), &refusal, None, &line, &mut out).is_ok()
        && write_read_fault("y\n", &mut out).is_ok();
    Ok(is_written && out.bytes() == Some(SHOWN.as_bytes()))
}

/// What is shown of names and texts with control characters in them.
const SHOWN: &str = "\
x\\x1b[31m: line 2 gives a name, or a turn, that stands already; it reads \"b\\x07\"
y\\x0a: the file is not there, or could not be read
";

#[test]
fn tells_which_policies_are_unknown(rt: HostRuntime) {
    let told = are_told(rt.alloc());
    assert_eq!(rt; told, Ok(true));
}

/// Whether each command that names a policy which the program does not have is told with its line, and no other one.
fn are_told(alloc: Global) -> Result<bool, OutOfMemory> {
    let mut out = MemorySink::with_room(alloc, 400, Vec::new(alloc))?;
    let is_written = write_unknown_policies("c", ORDERS.as_bytes(), &mut out).is_ok();
    Ok(is_written && out.bytes() == Some(UNKNOWN.as_bytes()))
}

/// Commands, of which two name a policy that the program does not have.
const ORDERS: &str = "\
# 00:00:01 policy best
00:00:01 policy priority
00:00:01 policy timetable
00:00:02  policy  best
00:00:02 policy fcfs

00:00:03 retire rotating
00:00:03 retire prioritys
00:00:04 close fcf
";

/// What is told of these commands.
const UNKNOWN: &str = "\
c: line 4: no policy is named best, so the command changed nothing; the policies are priority, timetable, fcfs and rotating
c: line 8: no policy is named prioritys, so the command changed nothing; the policies are priority, timetable, fcfs and rotating
";

#[test]
fn keeps_what_was_read(rt: HostRuntime) {
    let kept = kept_of(rt.alloc());
    assert_eq!(rt; kept, Ok([true; 3]));
}

/// Whether a file is read as it is, is kept, and one that is not there is not.
fn kept_of(alloc: Global) -> Result<[bool; 3], OutOfMemory> {
    let shelf = MemoryShelf::new(one_file(alloc)?, Vec::new(alloc));
    let mut files = KeepingShelf::new(alloc, shelf);
    let is_read = read_whole(alloc, &mut files, "a", 100).is_ok();
    let is_missing = read_whole(alloc, &mut files, "b", 100).is_err();
    Ok([
        is_read && is_missing,
        files
            .bytes_of("a")
            .is_some_and(|bytes| bytes == [7; 20].as_slice()),
        files.bytes_of("b").is_none(),
    ])
}

/// A file of twenty bytes.
fn one_file(alloc: Global) -> Result<Vec<File>, AllocError> {
    let name = Word::from_string(String::from_str(alloc, "a")?);
    let bytes = Seq::from_vec(vec![in alloc; 7; 20]?);
    let mut files = Vec::new(alloc);
    files.push(File { name, bytes })?;
    Ok(files)
}
