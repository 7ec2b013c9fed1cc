//! Writing a scene file.
ghost use Rattle.std.specs.Prelude.{◌≡◌, None, OnOk, IfOk};
ghost use Rattle.toml.specs.View.{table_view};
ghost use Rattle.rail_scene.specs.Order.{scene_refusal};
ghost use Rattle.rail_scene.specs.Scenes.{IsScene};
ghost use Rattle.rail_scene.specs.SpelledScenes.{root_of, spelled_scene};
ghost use Rattle.rail_scene.specs.Fields.{version_of};
ghost use Rattle.rail_scene.specs.Versions.{newest};
ghost use Rattle.rail_scene_text.specs.Tables.{IsSceneText, network_members, scene_members};
ghost use Rattle.rail_scene_text.specs.FieldTypes.{IsTyped, IsTypedNetwork};

use crate::values::{Written, array, put};
use rail_base::{OutOfMemory, a_text_stands_for_one_time};
use rail_routes::Network;
use rail_scene::keys::KeyName;
use rail_scene::{Scene, Version};
use std::alloc::{AllocError, Global};
use toml::{Table, Value};

/// The version of the scene format that is written.
const VERSION: Version = Version::NEWEST;

/// A text in the newest version of the format that is read as the scene: the TOML document of its keys and tables, as the
/// library `toml` lays it out. How
/// that is may change from one release to the next.
///
/// The scene may be one that was read or one that was put together, as long as it keeps the limits and ranges of a
/// scene; a network keeps its own at any time. The text of a scene near the limits may be longer than a scene file may
/// be.
pub fn write_scene(alloc: Global, scene: &Scene) -> Result<Vec<u8>, OutOfMemory>
    requires kept { IsScene scene.now }
    ensures text { IfOk result (λ text. IsSceneText scene.now text.items) }
    ensures accepted { IfOk result (λ text. scene_refusal text.items ≡ None) }
    ensures same { IfOk result (λ text. spelled_scene text.items ≡ scene.now) }
    ensures version { IfOk result (λ text. version_of (root_of text.items) ≡ newest) }
{
    a_text_stands_for_one_time();
    // A network is sound at any time, as its sections tell.
    let _sections = scene.network.sections();
    let root = scene_table(alloc, scene)?;
    match toml::table_to_string(alloc, &root) {
        Ok(text) => Ok(text.into_bytes()),
        // A table without dates is printed wherever there is memory.
        Err(_) => Err(OutOfMemory),
    }
}

/// The table of a scene.
fn scene_table(alloc: Global, scene: &Scene) -> Result<Table, AllocError>
    ensures table { IfOk result (λ root. table_view root ≡ scene_members scene.now) }
    ensures typed { OnOk result (IsTyped scene.now) }
{
    let mut root = network_table(alloc, &scene.network)?;
    put(
        alloc,
        &mut root,
        KeyName::Version,
        Value::from(VERSION.number()),
    )?;
    put(
        alloc,
        &mut root,
        KeyName::Release,
        Value::from(scene.release),
    )?;
    put(alloc, &mut root, KeyName::Depth, Value::from(scene.depth))?;
    put(
        alloc,
        &mut root,
        KeyName::Policy,
        scene.policy.value(alloc)?,
    )?;
    put(
        alloc,
        &mut root,
        KeyName::OverlapTime,
        Value::from(scene.overlap_time),
    )?;
    let kinds = array(alloc, scene.kinds.as_slice())?;
    put(alloc, &mut root, KeyName::Kind, kinds)?;
    let trains = array(alloc, scene.trains.as_slice())?;
    put(alloc, &mut root, KeyName::Train, trains)?;
    Ok(root)
}

/// The table of a scene, as far as it is of the network.
fn network_table(alloc: Global, network: &Network) -> Result<Table, AllocError>
    ensures table { IfOk result (λ root. table_view root ≡ network_members network.now) }
    ensures typed { OnOk result (IsTypedNetwork network.now) }
{
    let mut root = Table::new(alloc);
    put(
        alloc,
        &mut root,
        KeyName::Section,
        array(alloc, network.sections())?,
    )?;
    put(
        alloc,
        &mut root,
        KeyName::Portal,
        array(alloc, network.portals())?,
    )?;
    put(
        alloc,
        &mut root,
        KeyName::Signal,
        array(alloc, network.signals())?,
    )?;
    put(
        alloc,
        &mut root,
        KeyName::Board,
        array(alloc, network.boards())?,
    )?;
    put(
        alloc,
        &mut root,
        KeyName::Turn,
        array(alloc, network.turns())?,
    )?;
    put(
        alloc,
        &mut root,
        KeyName::Route,
        array(alloc, network.routes())?,
    )?;
    Ok(root)
}
