//! Small scene files that are read, written and made up. What scene files are refused for is in the rows of `rail_rows`.
ghost use Rattle.std.specs.Prelude.{◌≡◌, IfOk};
ghost use Rattle.rail_scene.specs.SpelledScenes.{spelled_scene};

mod track;

use rail_base::{Fault, Name, Part, Time, TrainKind};
use rail_gen::scene_of;
use rail_routes::{Network, Route, Step};
use rail_scene::{Scene, SceneTrain, item_name, read_scene};
use rail_scene_text::write_scene;
use rail_track::{Section, SectionKind};
use std::alloc::Global;
pub(crate) use track::TRACK;

#[test]
fn tells_the_name_of_an_item(rt: HostRuntime) {
    let alloc = rt.alloc();
    let are_named = [
        is_named(alloc, Part::Train, 2, Some(b"B".as_slice())),
        is_named(alloc, Part::Train, 1, None),
        is_named(alloc, Part::Train, 3, None),
        is_named(alloc, Part::Kind, 2, None),
        is_named(alloc, Part::Row, 1, None),
    ];
    assert_eq!(rt; are_named, [true; 5]);
}

/// Whether the item of a file with two trains, of which the first one has no name, has this name.
fn is_named(alloc: Global, part: Part, item: u32, name: Option<&[u8]>) -> bool {
    let file: &[u8] = b"[[train]]\nname = 1\n[[train]]\nname = \"B\"\n";
    match item_name(alloc, file, part, item) {
        Ok(Some(told)) => name == Some(told.as_bytes()),
        Ok(None) => name.is_none(),
        Err(_) => false,
    }
}

#[test]
fn reads_what_is_spelled(rt: HostRuntime) {
    assert!(rt; reads_the_track(rt.alloc()));
}

/// Whether the track is read as its file spells it.
fn reads_the_track(alloc: Global) -> bool {
    match read_scene(alloc, TRACK.as_bytes()) {
        Ok(scene) => {
            let is_read = is_the_track(&scene);
            drop(scene);
            is_read
        }
        Err(_) => false,
    }
}

#[test]
fn writes_what_is_read_as_the_same(rt: HostRuntime) {
    assert!(rt; reads_the_track_again(rt.alloc()));
}

/// Whether the track is read from what is written of it as its file spells it.
fn reads_the_track_again(alloc: Global) -> bool {
    match read_again(alloc, TRACK.as_bytes()) {
        Ok(scene) => {
            let is_read = is_the_track(&scene);
            drop(scene);
            is_read
        }
        Err(_) => false,
    }
}

/// The scene of a file, as it is read from what is written of it: it is the scene that the file spells.
fn read_again(alloc: Global, bytes: &[u8]) -> Result<Scene, Fault>
    ensures { IfOk result (λ scene. scene ≡ spelled_scene bytes.now) }
{
    let scene = read_scene(alloc, bytes)?;
    let text = match write_scene(alloc, &scene) {
        Ok(text) => text,
        Err(_) => return Err(Fault::OutOfMemory),
    };
    read_scene(alloc, text.as_slice())
}

#[test]
fn makes_up_a_scene_that_is_read_again(rt: HostRuntime) {
    assert!(rt; makes_up_a_line(rt.alloc(), 1));
}

/// Whether the scene of the number is a line with its stations, also where it is read from what is written of it.
fn makes_up_a_line(alloc: Global, number: u64) -> bool {
    let Ok(scene) = scene_of(alloc, number) else {
        return false;
    };
    let Ok(text) = write_scene(alloc, &scene) else {
        return false;
    };
    match read_scene(alloc, text.as_slice()) {
        Ok(again) => {
            let is_line = is_a_line(&again)
                && again.trains.as_slice().len() == scene.trains.as_slice().len();
            drop(again);
            is_line
        }
        Err(_) => false,
    }
}

/// Whether the scene has the sections, signals and routes of some 2 to 8 stations, three train kinds, and 4 to 32 trains.
fn is_a_line(scene: &Scene) -> bool {
    let network = &scene.network;
    let stations = network.signals().len() / 6;
    let trains = scene.trains.as_slice().len();
    (2..=8).contains(&stations)
        && network.sections().len() == 5 * stations + 1
        && network.portals().len() == 2
        && network.routes().len() == 8 * stations + 2
        && scene.kinds.as_slice().len() == 3
        && (4..=32).contains(&trains)
}

/// Whether the scene is what its file spells, with a depth, a policy and a priority that the file leaves
/// out.
fn is_the_track(scene: &Scene) -> bool {
    scene.release == 20
        && scene.depth == 1
        && is(scene.policy, b"fcfs")
        && is_the_network(&scene.network)
        && are_the_kinds(scene.kinds.as_slice())
        && are_the_trains(scene.trains.as_slice())
}

fn is_the_network(network: &Network) -> bool {
    are_the_counts(network)
        && are_the_sections(network.sections())
        && are_the_routes(network.routes())
}

fn are_the_counts(network: &Network) -> bool {
    [3, 2, 2, 1, 1, 1]
        == [
            network.sections().len(),
            network.portals().len(),
            network.signals().len(),
            network.boards().len(),
            network.turns().len(),
            network.routes().len(),
        ]
}

fn are_the_sections(sections: &[Section]) -> bool {
    let [_, points, _] = sections else {
        return false;
    };
    is(points.name, b"P")
        && points.kind == SectionKind::Points
        && points.length == 50
        && points.speed == 90
        && are_the_joints(points.joints.as_slice())
}

fn are_the_joints(joints: &[Name]) -> bool {
    match joints {
        [tip, left, right] => is(*tip, b"b") && is(*left, b"c") && is(*right, b"d"),
        _ => false,
    }
}

fn are_the_routes(routes: &[Route]) -> bool {
    match routes {
        [route] => {
            is(route.from, b"West")
                && is(route.to, b"East")
                && are_the_steps(route.steps.as_slice())
        }
        _ => false,
    }
}

fn are_the_steps(steps: &[Step]) -> bool {
    match steps {
        [_, _, step] => is(step.section, b"C") && is(step.from, b"c") && is(step.to, b"e"),
        _ => false,
    }
}

fn are_the_kinds(kinds: &[TrainKind]) -> bool {
    match kinds {
        [kind] => kind.length == 90 && kind.speed == 90 && kind.start == 100 && kind.stop == 50,
        _ => false,
    }
}

fn are_the_trains(trains: &[SceneTrain]) -> bool {
    let [train] = trains else {
        return false;
    };
    let [route] = train.routes.as_slice() else {
        return false;
    };
    is(train.kind, b"k") && train.entry == Time(1_200) && train.priority == 0 && is(*route, b"r")
}

/// Whether the bytes spell the name.
fn is(name: Name, bytes: &[u8]) -> bool {
    name.as_bytes() == bytes
}
