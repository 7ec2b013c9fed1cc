//! The plant with a loop, changed step by step: each call with ample memory, and the first reason of
//! some refusals. Each name is one letter: sections in capitals, joints in small letters, posts and
//! routes in digits.
ghost use Rattle.std.specs.Prelude.{IsTrue, IfSome};
ghost use Rattle.rail_routes.specs.PostRules.{is_formed};

use rail_base::{Name, Seq};
use rail_routes::{Network, Post, PostRole, Route, Step, Turn};
use rail_track::{NetFault, Section, SectionKind};
use std::alloc::Global;

/// A loop of two tracks, L and M, between points P and Q and the single tracks W and E, with portals 1
/// and 2, signals 3 and 4 at the ends of L, a turn between them, and a route 5 from 1 to 3.
/// Then what it has and finds, and what is refused on it: a joint in two sections, a joint with a portal, a
/// name that a signal has, an unknown section ahead, a place that is taken, a turn that stands already, one
/// from a portal, a section twice, an end in the section ahead of it; the points under the route, and signal
/// 4 as long as the turn names it. What is not in use is taken out, and a board may then stand where no
/// section ends but one.
const SCRIPT: &str = "\
+section Wab: yes
+section Pbcd: yes
+section Lce: yes
+section Mdf: yes
+section Qgef: yes
+section Egh: yes
+portal 1a: yes
+portal 2h: yes
+signal 3eQ: yes
+signal 4cP: yes
+turn 34: yes
+route 513 aWb bPc cLe: yes
has 622011: yes
finds P534: yes
+section Zbq: JointCrowded 1
+section Zqa: JointCrowded 2
+portal 3q: Repeated 1
+signal 6eX: Unknown 3
+signal 6eQ: PostPlace 0
+turn 34: Repeated 1
+turn 14: PostPlace 0
+route 613 aWb bWa: RouteRepeat 2
+route 614 aWb bPc: RouteBroken 2
-section P: InUse 0
-section M: yes
+board 7f: yes
-post 4: InUse 0
-turn 34: yes
-post 4: yes
-route 5: yes
-route 5: Unknown 0
has 521100: yes
";

#[test]
fn adds_and_takes_out_by_the_rules(rt: HostRuntime) {
    let other = first_other(rt.alloc());
    assert!(rt; other.is_none(), "{other:?}");
}

/// The first line of the script that is answered otherwise than it says, from a network without items on.
fn first_other(alloc: Global) -> Option<&'static str> {
    let mut network = Network::new(alloc);
    first_other_on(alloc, &mut network)
}

fn first_other_on(alloc: Global, network: &mut Network) -> Option<&'static str> {
    for line in SCRIPT.lines() {
        if !holds(alloc, network, line) {
            return Some(line);
        }
    }
    None
}

/// Whether the line is answered as it says.
fn holds(alloc: Global, network: &mut Network, line: &str) -> bool {
    match line.split_once(": ") {
        Some((words, want)) => is_told(alloc, answer(alloc, network, words), want),
        None => false,
    }
}

/// Whether a call answered so: yes, or the reason and the step of a refusal.
fn is_told(alloc: Global, answer: Option<Result<(), NetFault>>, want: &str) -> bool {
    match answer {
        Some(Ok(())) => want == "yes",
        Some(Err(NetFault::Refused { reason, step })) => {
            match format!(in alloc; "{reason:?} {step}") {
                Ok(told) => told.as_str() == want,
                Err(_) => false,
            }
        }
        _ => false,
    }
}

/// What is answered to the words, if they spell a change.
fn answer(alloc: Global, network: &mut Network, words: &str) -> Option<Result<(), NetFault>> {
    let (verb, rest) = words.split_once(" ")?;
    match verb {
        "+section" => Some(network.add_section(alloc, section(alloc, rest.as_bytes())?)),
        "+turn" => Some(network.add_turn(alloc, turn(rest.as_bytes())?)),
        "+route" => Some(network.add_route(alloc, route(alloc, rest)?)),
        "has" => is_so(has(network, rest.as_bytes())),
        "finds" => is_so(finds(network, rest.as_bytes())?),
        _ => match post(verb, rest.as_bytes()) {
            Some(post) => Some(network.add_post(alloc, post)),
            None => without(network, verb, rest.as_bytes()),
        },
    }
}

/// An answer of yes where it is so, and of none where it is not.
fn is_so(holds: bool) -> Option<Result<(), NetFault>> {
    if holds { Some(Ok(())) } else { None }
}

/// What comes of taking an item out.
fn without(network: &mut Network, verb: &str, letters: &[u8]) -> Option<Result<(), NetFault>> {
    let first = name(*letters.first()?)?;
    let last = name(*letters.last()?)?;
    match verb {
        "-section" => Some(done(network.remove_section(first))),
        "-post" => Some(done(network.remove_post(first))),
        "-turn" => Some(done(network.remove_turn(first, last))),
        "-route" => Some(done(network.remove_route(first))),
        _ => None,
    }
}

/// That an item was taken out.
fn done<T: Drop>(answer: Result<T, NetFault>) -> Result<(), NetFault> {
    let _ = answer?;
    Ok(())
}

fn name(letter: u8) -> Option<Name> {
    Name::read(&[letter])
}

/// A section of 50 m at 90 km/h: points where there are three joints, and else plain.
fn section(alloc: Global, letters: &[u8]) -> Option<Section> {
    let (letter, rest) = letters.split_first()?;
    Some(Section {
        name: name(*letter)?,
        kind: if rest.len() == 3 {
            SectionKind::Points
        } else {
            SectionKind::Plain
        },
        length: 50,
        speed: 90,
        joints: joints(alloc, rest)?,
    })
}

fn joints(alloc: Global, letters: &[u8]) -> Option<Seq<Name>> {
    let mut joints = Vec::new(alloc);
    for letter in letters {
        joints.push(name(*letter)?).ok()?;
    }
    Some(Seq::from_vec(joints))
}

/// A portal, a signal or a board: its name, its joint, and the section ahead of a signal.
fn post(verb: &str, letters: &[u8]) -> Option<Post>
    ensures { IfSome result (λ post. IsTrue (is_formed post)) }
{
    let (role, ahead, time) = match (verb, letters) {
        ("+portal", [_, _]) => (PostRole::Portal, None, 10),
        ("+signal", [_, _, ahead]) => (PostRole::Signal, Some(name(*ahead)?), 10),
        ("+board", [_, _]) => (PostRole::Board, None, 0),
        _ => return None,
    };
    Some(Post {
        name: name(letters[0])?,
        role,
        joint: name(letters[1])?,
        ahead,
        setting: time,
        watching: time,
        approach: time,
    })
}

fn turn(letters: &[u8]) -> Option<Turn> {
    let [arriving, leaving] = letters else {
        return None;
    };
    Some(Turn {
        arriving: name(*arriving)?,
        leaving: name(*leaving)?,
        time: 0,
    })
}

/// A route: its name and its posts, and then each of its steps.
fn route(alloc: Global, words: &str) -> Option<Route> {
    let (head, path) = words.split_once(" ")?;
    let [letter, from, to] = head.as_bytes() else {
        return None;
    };
    Some(Route {
        name: name(*letter)?,
        from: name(*from)?,
        to: name(*to)?,
        steps: steps(alloc, path)?,
        overlap: Seq::from_vec(Vec::new(alloc)),
    })
}

fn steps(alloc: Global, path: &str) -> Option<Seq<Step>> {
    let mut steps = Vec::new(alloc);
    for word in path.split(" ") {
        steps.push(step(word.as_bytes())?).ok()?;
    }
    Some(Seq::from_vec(steps))
}

/// A step: the joint that it comes from, its section, and the joint that it goes to.
fn step(letters: &[u8]) -> Option<Step> {
    let [from, section, to] = letters else {
        return None;
    };
    Some(Step {
        section: name(*section)?,
        from: name(*from)?,
        to: name(*to)?,
    })
}

/// Whether there are so many sections, portals, signals, boards, turns and routes, each a digit.
fn has(network: &Network, digits: &[u8]) -> bool {
    match digits {
        [sections, portals, signals, boards, turns, routes] => {
            is(network.sections().len(), *sections)
                && is(network.portals().len(), *portals)
                && is(network.signals().len(), *signals)
                && is(network.boards().len(), *boards)
                && is(network.turns().len(), *turns)
                && is(network.routes().len(), *routes)
        }
        _ => false,
    }
}

/// Whether the digit is this number.
fn is(number: usize, digit: u8) -> bool {
    number == usize::from(digit.saturating_sub(b'0'))
}

/// Whether the second section, a route, and two posts with a turn from the first to the second are found by
/// these names, and nothing else.
fn finds(network: &Network, letters: &[u8]) -> Option<bool> {
    let [section, route, post, other] = letters else {
        return None;
    };
    let (section, route) = (name(*section)?, name(*route)?);
    let (post, other) = (name(*post)?, name(*other)?);
    Some(
        network.section_index(section) == Some(1)
            && network.section_index(post) == None
            && network.post(post).is_some()
            && network.turn(post, other).is_some()
            && network.turn(other, post).is_none()
            && network.route(route).is_some(),
    )
}
