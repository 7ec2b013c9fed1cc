//! The scene of a number.
ghost use Rattle.std.specs.Prelude.{◌≡◌, ◌<◌, ◌≤◌, ◌∷◌, [], None, IfOk, OnOk};
ghost use Rattle.rail_scene.specs.Scenes.{IsScene};
ghost use Rattle.rail_compile.specs.Refusals.{compile_refusal};
ghost use Rattle.rail_gen.specs.LinePlants.{line_network};
ghost use Rattle.rail_gen.specs.MadeScenes.{line_kinds, made_scene};

use crate::laws::a_made_up_scene_is_accepted;
use crate::names::name;
use crate::tracks::add_sections;
use crate::trains::{drawn, trains};
use crate::ways::{add_portals, add_routes, add_signals};
use rail_base::{OutOfMemory, Seq, TrainKind};
use rail_routes::Network;
use rail_scene::Scene;
use rail_track::NetFault;
use rand_core::SeedableRng;
use rand_pcg::Lcg64Xsh32;
use std::alloc::{AllocError, Global};

/// The made-up scene of a number: a line plant with 2 to 8 stations and 4 to 32 trains. The same number gives the same
/// scene always, and every one is accepted when it is compiled.
pub fn scene_of(alloc: Global, number: u64) -> Result<Scene, OutOfMemory>
    ensures made { IfOk result (λ scene. scene ≡ made_scene number) }
    ensures kept { IfOk result IsScene }
    ensures compiled { IfOk result (λ scene. compile_refusal scene ≡ None) }
{
    a_made_up_scene_is_accepted();
    let mut words = Lcg64Xsh32::seed_from_u64(number);
    let count = 2 + drawn(&mut words, 7) as u8;
    let total = 4 + drawn(&mut words, 29) as u8;
    let network = match line_network(alloc, count) {
        Ok(network) => network,
        // No item of a line is refused, so that only memory can be missing.
        Err(_) => return Err(OutOfMemory),
    };
    let kinds = kinds(alloc)?;
    let trains = trains(alloc, &mut words, count, total)?;
    Ok(Scene {
        release: 30,
        depth: 1,
        policy: name(b"fcfs"),
        overlap_time: 0,
        network,
        kinds: Seq::from_vec(kinds),
        trains: Seq::from_vec(trains),
    })
}

/// The line plant with so many stations.
fn line_network(alloc: Global, count: u8) -> Result<Network, NetFault>
    requires { count < 9 }
    ensures { IfOk result (λ network. network ≡ line_network count) }
{
    let mut network = Network::new(alloc);
    add_sections(alloc, &mut network, count)?;
    add_portals(alloc, &mut network)?;
    add_signals(alloc, &mut network, count)?;
    add_routes(alloc, &mut network, count)?;
    Ok(network)
}

/// The train kinds.
fn kinds(alloc: Global) -> Result<Vec<TrainKind>, AllocError>
    ensures { IfOk result (λ kinds. kinds.items ≡ line_kinds) }
{
    let fast = TrainKind {
        name: name(b"fast"),
        length: 200,
        speed: 160,
        start: 200,
        stop: 150,
    };
    let local = TrainKind {
        name: name(b"local"),
        length: 100,
        speed: 120,
        start: 150,
        stop: 120,
    };
    let goods = TrainKind {
        name: name(b"goods"),
        length: 500,
        speed: 90,
        start: 400,
        stop: 300,
    };
    Ok(vec![in alloc; fast, local, goods]?)
}
