//! Passages of each kind, the order of the refusals, and each call with ample memory, by a script: each of
//! its lines says what is done to a track, and what is answered.
use rail_base::{Name, Seq};
use rail_track::{NetFault, Section, SectionKind, Track};
use std::alloc::Global;

/// A section of each kind, alone, and whether it leads between each pair of joints. Three plain sections in
/// line, and then the first refusals in order; a section at the limits of all numbers; the middle one
/// taken out once, after which its joints and its name are free.
const SCRIPT: &str = "\
plain S a-b 50 90: yes
leads a-a: no
leads a-b: yes
leads a-c: no
leads a-d: no
leads b-a: yes
leads b-b: no
leads b-c: no
leads b-d: no
leads c-a: no
leads c-b: no
leads c-c: no
leads c-d: no
leads d-a: no
leads d-b: no
leads d-c: no
leads d-d: no
without S: yes
points S a-b-c 50 90: yes
leads a-a: no
leads a-b: yes
leads a-c: yes
leads a-d: no
leads b-a: yes
leads b-b: no
leads b-c: no
leads b-d: no
leads c-a: yes
leads c-b: no
leads c-c: no
leads c-d: no
leads d-a: no
leads d-b: no
leads d-c: no
leads d-d: no
without S: yes
crossing S a-b-c-d 50 90: yes
leads a-a: no
leads a-b: yes
leads a-c: no
leads a-d: no
leads b-a: yes
leads b-b: no
leads b-c: no
leads b-d: no
leads c-a: no
leads c-b: no
leads c-c: no
leads c-d: yes
leads d-a: no
leads d-b: no
leads d-c: yes
leads d-d: no
without S: yes
slip S a-b-c-d 50 90: yes
leads a-a: no
leads a-b: yes
leads a-c: no
leads a-d: yes
leads b-a: yes
leads b-b: no
leads b-c: yes
leads b-d: no
leads c-a: no
leads c-b: yes
leads c-c: no
leads c-d: yes
leads d-a: yes
leads d-b: no
leads d-c: yes
leads d-d: no
without S: yes
plain W a-b 50 90: yes
plain V b-c 50 90: yes
plain U c-d 50 90: yes
plain W b 0 0: Range 3
plain W b 100000 501: Range 4
plain W b 1 500: Range 5
plain W b-q 1 1: Repeated 1
plain Z b-q 1 1: JointCrowded 1
plain Z q-c 1 1: JointCrowded 2
plain Z q-q 1 1: JointCrowded 1
plain Z d-q 100000 500: yes
plain Y d-x 1 1: JointCrowded 1
without V: yes
without V: Unknown 0
plain X b-c 1 1: yes
plain V x-y 1 1: yes
plain Y x-b 1 1: JointCrowded 2
";

#[test]
fn answers_by_the_rules(rt: HostRuntime) {
    assert_eq!(rt; told(rt.alloc()), (None, 5, [Some(3), None]));
}

/// The first line of the script that is answered otherwise than it says; and how many sections there are then, and
/// where X and Y stand.
fn told(alloc: Global) -> (Option<&'static str>, usize, [Option<usize>; 2]) {
    let mut track = Track::new(alloc);
    let other = first_other(alloc, &mut track, SCRIPT);
    let indices = [index(&track, "X"), index(&track, "Y")];
    (other, track.sections().len(), indices)
}

#[test]
fn stops_at_the_limit(rt: HostRuntime) {
    let mut track = Track::new(rt.alloc());
    assert!(rt; is_filled(rt.alloc(), &mut track));
}

/// Whether as many sections as the limit can be added, each between two joints of its own, and no further.
fn is_filled(alloc: Global, track: &mut Track) -> bool {
    for number in 0..513u16 {
        let want = if number < 512 { "yes" } else { "TooMany 0" };
        match format!(in alloc; "plain {number} l{number}-r{number} 50 90: {want}") {
            Ok(line) if holds(alloc, track, line.as_str()) => {}
            _ => return false,
        }
    }
    true
}

/// The first line of the script that is answered otherwise than it says.
fn first_other<'a>(alloc: Global, track: &mut Track, script: &'a str) -> Option<&'a str> {
    for line in script.lines() {
        if !holds(alloc, track, line) {
            return Some(line);
        }
    }
    None
}

/// Whether the line is answered as it says.
fn holds(alloc: Global, track: &mut Track, line: &str) -> bool {
    match line.split_once(": ") {
        Some((words, want)) => is_told(alloc, answer(alloc, track, words), want),
        None => false,
    }
}

/// Whether a call answered so: yes, no, or the reason and the step of a refusal.
fn is_told(alloc: Global, answer: Option<Result<(), NetFault>>, want: &str) -> bool {
    match answer {
        Some(Ok(())) => want == "yes",
        Some(Err(NetFault::Refused { reason, step })) => {
            match format!(in alloc; "{reason:?} {step}") {
                Ok(told) => told.as_str() == want,
                Err(_) => false,
            }
        }
        Some(Err(NetFault::OutOfMemory)) => false,
        None => want == "no",
    }
}

/// What is answered to the words, or nothing where they ask for a passage that is not there.
fn answer(alloc: Global, track: &mut Track, words: &str) -> Option<Result<(), NetFault>> {
    match words.split_once(" ")? {
        ("leads", pair) => leads(track, pair),
        ("without", section) => Some(without(track, name(section)?)),
        _ => Some(track.add_section(alloc, section(alloc, words)?)),
    }
}

/// That the section S leads from the first joint of the pair to the second.
fn leads(track: &Track, pair: &str) -> Option<Result<(), NetFault>> {
    let (from, to) = pair.split_once("-")?;
    if track.passage(name("S")?, name(from)?, name(to)?) {
        Some(Ok(()))
    } else {
        None
    }
}

/// The index of the section, where it is found by its name too.
fn index(track: &Track, section: &str) -> Option<usize> {
    let name = name(section)?;
    let _found = track.section(name)?;
    track.section_index(name)
}

/// Takes a section out.
fn without(track: &mut Track, section: Name) -> Result<(), NetFault> {
    match track.remove_section(section) {
        Ok(_) => Ok(()),
        Err(fault) => Err(fault),
    }
}

/// The section of the words: its kind, its name, its joints, its length and its speed.
fn section(alloc: Global, words: &str) -> Option<Section> {
    let (word, rest) = words.split_once(" ")?;
    let (section, rest) = rest.split_once(" ")?;
    let (joints, rest) = rest.split_once(" ")?;
    let (length, speed) = rest.split_once(" ")?;
    Some(Section {
        name: name(section)?,
        kind: kind(word),
        length: length.parse().unwrap_or(0),
        speed: speed.parse().unwrap_or(0),
        joints: joints_of(alloc, joints)?,
    })
}

fn name(text: &str) -> Option<Name> {
    Name::read(text.as_bytes())
}

fn kind(word: &str) -> SectionKind {
    match word {
        "points" => SectionKind::Points,
        "crossing" => SectionKind::Crossing,
        "slip" => SectionKind::Slip,
        _ => SectionKind::Plain,
    }
}

/// The joints of a text, which has a dash between each two.
fn joints_of(alloc: Global, text: &str) -> Option<Seq<Name>> {
    let mut joints = Vec::new(alloc);
    for joint in text.split("-") {
        joints.push(name(joint)?).ok()?;
    }
    Some(Seq::from_vec(joints))
}
