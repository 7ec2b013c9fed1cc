//! Reading a scene file.
ghost use Rattle.std.specs.Prelude.{◌≡◌, ◌∷◌, [], ◌≤◌, None, unwrap_or, OnOk, IfOk, IfErr};
ghost use Rattle.toml.specs.View.{view};
ghost use Rattle.rail_base.specs.declared.limits.TheConstants as limit;
ghost use Rattle.rail_base.specs.FirstRefusals.{first_failing};
ghost use Rattle.rail_track.specs.NetFaults.{Answers};
ghost use Rattle.rail_scene.specs.declared.keys.KeyName.TheVariants as word;
ghost use Rattle.rail_scene.specs.Keys.{key_of, first_root_keys, root_keys};
ghost use Rattle.rail_scene.specs.Scenes.{IsScene};
ghost use Rattle.rail_scene.specs.Fields.{policy_at};
ghost use Rattle.rail_scene.specs.Entries.{spelled_number};
ghost use Rattle.rail_scene.specs.Values.{value_tests};
ghost use Rattle.rail_base.specs.Refusals.{AnswersFirst};
ghost use Rattle.rail_scene.specs.Order.{scene_refusal, scene_values, lists_values, listed_items, toml_test};
ghost use Rattle.rail_scene.specs.SpelledScenes.{spelled_scene, scene_of, root_of, overlap_time_in};

use crate::draft::Draft;
use crate::entries::read_number;
use crate::fields::{policy_at, value_at, version_of};
use crate::forms::check_forms;
use crate::keys::{DEPTH, LIST_PARTS, OVERLAP_TIME, POLICY, RELEASE, VERSION};
use crate::places::located;
use crate::scene::Scene;
use crate::versions::Version;
use rail_base::{Fault, Name, Part, Reason, Refusal};
use rail_track::NetFault;
use std::alloc::Global;
use toml::Value;

/// The scene that the bytes of a scene file spell.
///
/// The file is TOML in UTF-8. Its root has `version`, which is 1 or 2, `release`, `depth`, `policy`, and a
/// list of tables for each part: `section`, `portal`, `signal`, `board`, `turn`, `route`, `kind` and
/// `train`. The version says which keys a table has: the second one adds `overlap_time` in the root and
/// `overlap` in a route. A version that is none has the keys of the second. Times that are whole numbers are tenths of a second,
/// lengths metres, speeds km/h.
///
/// It is refused with the first reason that holds: bytes that are no TOML; then the forms of all tables,
/// the root first and then each list in order, where in each table a key that is missing or whose value
/// is of another kind comes key by key, and then a key that is unknown; then the values, the root first
/// and then each list in order. The values of an item are looked at in this order: one item too many; a
/// bad name or a number, time, word or count out of range, key by key; a name that stands already; an
/// unknown name; a place that is taken or wrong, or a crowded joint; a section that occurs twice in a
/// route; a route that does not lead on. Items count from 1 in their part; the step is the number of the
/// key in its table, of the joint in its section or of the step in its route, and 0 where none is meant.
///
/// The kinds and routes that trains name are not looked up here.
pub fn read_scene(alloc: Global, bytes: &[u8]) -> Result<Scene, Fault>
    ensures accepted { OnOk result (scene_refusal bytes.now ≡ None) }
    ensures spelled { IfOk result (λ scene. scene ≡ spelled_scene bytes.now) }
    ensures kept { IfOk result IsScene }
    ensures refused { IfErr result (AnswersFirst (scene_refusal bytes.now)) }
{
    let root = read_root(alloc, bytes)?;
    let version = version_of(&root);
    check_forms(&root, version)?;
    read_values(alloc, &root, version)
}

/// The root of the table that the bytes are by TOML.
pub(crate) fn read_root(alloc: Global, bytes: &[u8]) -> Result<Value, Fault>
    ensures accepted { OnOk result (first_failing (toml_test bytes.now ∷ []) ≡ None) }
    ensures root { IfOk result (λ root. view root ≡ root_of bytes.now) }
    ensures refused { IfErr result (AnswersFirst (first_failing (toml_test bytes.now ∷ []))) }
{
    match toml::table_from_slice(alloc, bytes) {
        Ok(table) => Ok(Value::Table(table)),
        Err(error) => {
            if error.is_memory() {
                Err(Fault::OutOfMemory)
            } else {
                Err(Fault::Refused(Refusal {
                    reason: Reason::NotToml,
                    part: Part::Bytes,
                    item: 0,
                    step: 0,
                }))
            }
        }
    }
}

/// The scene of a root by the keys of a version, whether or not its tables are of their form.
fn read_values(alloc: Global, root: &Value, version: Version) -> Result<Scene, Fault>
    ensures accepted { OnOk result (first_failing (scene_values version (view root.now)) ≡ None) }
    ensures spelled { IfOk result (λ scene. scene ≡ scene_of version (view root.now)) }
    ensures kept { IfOk result IsScene }
    ensures refused { IfErr result (AnswersFirst (first_failing (scene_values version (view root.now)))) }
{
    let header = match read_header(root, version) {
        Ok(header) => header,
        Err(fault) => return Err(located(Part::Root, 0, fault)),
    };
    let draft = read_lists(alloc, root, version)?;
    Ok(finished(header, draft))
}

/// The items of the lists of a root, by the keys of a version.
fn read_lists(alloc: Global, root: &Value, version: Version) -> Result<Draft, Fault>
    ensures accepted { OnOk result (first_failing (lists_values version (view root.now)) ≡ None) }
    ensures draft { IfOk result (λ draft. draft ≡ listed_items version (view root.now)) }
    ensures refused { IfErr result (AnswersFirst (first_failing (lists_values version (view root.now)))) }
{
    let mut draft = Draft::new(alloc);
    match draft.add_lists(alloc, root, version, &LIST_PARTS) {
        Ok(()) => Ok(draft),
        Err(fault) => {
            // A call of its own, so that the proof of this function does not go into each table of the draft.
            drop(draft);
            Err(fault)
        }
    }
}

/// The scene of what the root says beside its lists, and of the items of its lists.
fn finished(header: Header, draft: Draft) -> Scene
    requires release { header.release ≤ limit.RELEASE }
    requires depth { header.depth ≤ limit.DEPTH }
    requires overlap_time { header.overlap_time ≤ limit.OVERLAP }
    ensures scene { result ≡ record {
      release = header.release;
      depth = header.depth;
      policy = header.policy;
      overlap_time = header.overlap_time;
      network = draft.network;
      kinds = draft.kinds;
      trains = draft.trains;
    } }
    ensures kept { IsScene result }
{
    let Draft {
        network,
        kinds,
        trains,
    } = draft;
    Scene {
        release: header.release,
        depth: header.depth,
        policy: header.policy,
        overlap_time: header.overlap_time,
        network,
        kinds: kinds.into_seq(),
        trains: trains.into_seq(),
    }
}

/// What the root of a scene file says beside its lists.
#[derive(Clone, Copy)]
struct Header {
    release: u32,
    depth: u8,
    policy: Name,
    overlap_time: u32,
}

/// What the root says beside its lists, by the keys of a version.
fn read_header(root: &Value, version: Version) -> Result<Header, NetFault>
    ensures accepted { OnOk result (first_failing (value_tests 1 (root_keys version) (view root.now)) ≡ None) }
    ensures release { IfOk result (λ header. header.release ≡ spelled_number (key_of word.Release) (view root.now)) }
    ensures depth { IfOk result (λ header. header.depth ≡ spelled_number (key_of word.Depth) (view root.now)) }
    ensures policy { IfOk result (λ header. header.policy ≡ unwrap_or (policy_at (key_of word.Policy) (view root.now)) []) }
    ensures release_fits { IfOk result (λ header. header.release ≤ limit.RELEASE) }
    ensures overlap_time { IfOk result (λ header. header.overlap_time ≡ overlap_time_in version (view root.now)) }
    ensures depth_fits { IfOk result (λ header. header.depth ≤ limit.DEPTH) }
    ensures overlap_time_fits { IfOk result (λ header. header.overlap_time ≤ limit.OVERLAP) }
    ensures refused { IfErr result (Answers (first_failing (value_tests 1 (root_keys version) (view root.now)))) }
{
    match version {
        Version::One => read_first_header(root),
        Version::Two => {
            let mut header = read_first_header(root)?;
            header.overlap_time = read_number(value_at(root, OVERLAP_TIME), OVERLAP_TIME, 13)?;
            Ok(header)
        }
    }
}

/// What the root says beside its lists by the keys that it has in each version.
fn read_first_header(root: &Value) -> Result<Header, NetFault>
    ensures accepted { OnOk result (first_failing (value_tests 1 first_root_keys (view root.now)) ≡ None) }
    ensures release { IfOk result (λ header. header.release ≡ spelled_number (key_of word.Release) (view root.now)) }
    ensures depth { IfOk result (λ header. header.depth ≡ spelled_number (key_of word.Depth) (view root.now)) }
    ensures policy { IfOk result (λ header. header.policy ≡ unwrap_or (policy_at (key_of word.Policy) (view root.now)) []) }
    ensures overlap_time { IfOk result (λ header. header.overlap_time ≡ 0) }
    ensures release_fits { IfOk result (λ header. header.release ≤ limit.RELEASE) }
    ensures depth_fits { IfOk result (λ header. header.depth ≤ limit.DEPTH) }
    ensures refused { IfErr result (Answers (first_failing (value_tests 1 first_root_keys (view root.now)))) }
{
    let _number = read_number(value_at(root, VERSION), VERSION, 1)?;
    let release = read_number(value_at(root, RELEASE), RELEASE, 2)?;
    let depth = read_number(value_at(root, DEPTH), DEPTH, 3)?;
    match policy_at(root, POLICY) {
        Some(policy) => Ok(Header {
            release,
            depth: depth as u8,
            policy,
            overlap_time: 0,
        }),
        None => Err(NetFault::Refused {
            reason: Reason::BadName,
            step: 4,
        }),
    }
}
