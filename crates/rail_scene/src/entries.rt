//! The items of a scene file, each from its table.
ghost use Rattle.std.specs.Prelude.{◌≡◌, ◌⊎◌, true, false, ◌==◌, ◌++◌, [], ◌∷◌, IsTrue, Some, None, length, map, option_map, option_and_then, OnOk, IfOk, IfErr, MatchResult};
ghost use Rattle.std.specs.Option.{option_copied, option_map_or};
ghost use Rattle.toml.specs.Data.{as_str};
ghost use Rattle.toml.specs.View.{view};
ghost use Rattle.rail_base.specs.declared.refusals.Reason.TheVariants.{BadName, Range};
ghost use Rattle.rail_track.specs.declared.section.NetFault.{NetFault};
ghost use Rattle.rail_track.specs.declared.section.NetFault.TheVariants.{Refused, OutOfMemory};
ghost use Rattle.rail_base.specs.Limits.{is_from_one, most, InputTime};
ghost use Rattle.rail_track.specs.SectionRules.{joint_count};
ghost use Rattle.rail_base.specs.FirstRefusals.{first_failing};
ghost use Rattle.rail_track.specs.NetFaults.{Answers};
ghost use Rattle.rail_scene.specs.declared.keys.TheConstants.{SECTION_KEYS, PORTAL_KEYS, SIGNAL_KEYS, BOARD_KEYS, TURN_KEYS, KIND_KEYS, TRAIN_KEYS};
ghost use Rattle.rail_scene.specs.Fields.{name_in, number_by, kind_named, time_up_to, elements_of, are_names, names_in, is_path_count, is_overlap_count};
ghost use Rattle.rail_scene.specs.Entries.{section_of, portal_of, signal_of, board_of, turn_of, route_of, kind_of, train_of, steps_of, steps_from, steps_behind, spelled_names};
ghost use Rattle.rail_scene.specs.Keys.{first_route_keys, route_keys};
ghost use Rattle.rail_scene.specs.Values.{value_tests, tests_by, list_tests};
ghost use Rattle.rail_scene.specs.Scenes.{is_fit_kind, is_fit_train};
ghost use Rattle.rail_scene.specs.declared.keys.KeyForm.TheVariants as KeyForm;
ghost use Rattle.rail_scene.specs.declared.versions.Version.TheVariants as version;

use crate::fields::{elements_at, elements_if_any, kind_in, name_in, number_by, time_in};
use crate::keys::{
    APPROACH, BOARD_KEYS, BOARD_ORDER, FIRST_ROUTE_KEYS, FIRST_ROUTE_ORDER, KIND_KEYS, KIND_ORDER,
    Key, OVERLAP, PORTAL_KEYS, PORTAL_ORDER, PRIORITY, SECTION_KEYS, SECTION_LENGTH, SECTION_ORDER,
    SETTING, SIGNAL_KEYS, SIGNAL_ORDER, SPEED, START, STOP, TRAIN_KEYS, TRAIN_LENGTH, TRAIN_ORDER,
    TURN_KEYS, TURN_ORDER, TURN_TIME, WATCHING,
};
use crate::members::values_of;
use crate::scene::SceneTrain;
use crate::versions::Version;
use rail_base::limits::{ITINERARY_ROUTES, OVERLAP_SECTIONS, ROUTE_SECTIONS};
use rail_base::{Name, Reason, Seq, Time, TrainKind};
use rail_routes::{Post, PostRole, Route, Step, Turn};
use rail_track::{NetFault, Section, SectionKind, joint_count};
use std::alloc::{AllocError, Global};
use toml::Value;

/// A refusal for this reason at this step.
fn refused(reason: Reason, step: u32) -> NetFault
    ensures { result ≡ Refused reason step }
{
    NetFault::Refused { reason, step }
}

/// The name that the value at key number `step` is.
fn read_name(value: Option<&Value>, step: u32) -> Result<Name, NetFault>
    ensures { let read = option_and_then name_in (option_map view (option_copied value.entry)) in
        MatchResult result (λ name. read ≡ Some name) (λ fault. (read ≡ None) × (fault ≡ Refused BadName step)) }
{
    match name_if_any(value) {
        Some(name) => Ok(name),
        None => Err(refused(Reason::BadName, step)),
    }
}

/// The name that a value is, where there is one.
fn name_if_any(value: Option<&Value>) -> Option<Name>
    ensures { result ≡ option_and_then name_in (option_map view (option_copied value.entry)) }
{
    name_in(value?)
}

/// The number that the value at key number `step` is.
pub(crate) fn read_number(value: Option<&Value>, key: Key, step: u32) -> Result<u32, NetFault>
    ensures { let read = number_by key.form (option_map view (option_copied value.entry)) in
        MatchResult result (λ number. read ≡ Some number) (λ fault. (read ≡ None) × (fault ≡ Refused Range step)) }
{
    match number_by(key.form, value) {
        Some(number) => Ok(number),
        None => Err(refused(Reason::Range, step)),
    }
}

/// The section kind that the value at key number `step` names.
fn read_kind(value: Option<&Value>, step: u32) -> Result<SectionKind, NetFault>
    ensures { let read = option_and_then kind_named (option_and_then as_str (option_map view (option_copied value.entry))) in
        MatchResult result (λ kind. read ≡ Some kind) (λ fault. (read ≡ None) × (fault ≡ Refused Range step)) }
{
    match kind_in(value) {
        Some(kind) => Ok(kind),
        None => Err(refused(Reason::Range, step)),
    }
}

/// The time that the value at key number `step` spells.
fn read_time(value: Option<&Value>, step: u32) -> Result<Time, NetFault>
    ensures { let read = option_and_then (time_up_to (most InputTime)) (option_and_then as_str (option_map view (option_copied value.entry))) in
        MatchResult result (λ time. read ≡ Some time) (λ fault. (read ≡ None) × (fault ≡ Refused Range step)) }
{
    match time_in(value) {
        Some(time) => Ok(time),
        None => Err(refused(Reason::Range, step)),
    }
}

/// The names that the values at key number `step` are. The first that is none is told.
fn read_names(alloc: Global, values: &[Value], step: u32) -> Result<Vec<Name>, NetFault>
    ensures names { IfOk result (λ names. names.items ≡ names_in (map view values.now)) }
    ensures accepted { OnOk result (are_names (map view values.now) ≡ true) }
    ensures refused { IfErr result (λ fault.
        (fault ≡ OutOfMemory) ⊎ ((are_names (map view values.now) ≡ false) × (fault ≡ Refused BadName step))) }
{
    let mut names = Vec::new(alloc);
    names.reserve(values.len())?;
    for value in values {
        match name_in(value) {
            Some(name) => push(&mut names, name)?,
            None => return Err(refused(Reason::BadName, step)),
        }
    }
    Ok(names)
}

/// The names that the values at key number `step` are, if there may be so many.
fn read_list(
    alloc: Global,
    values: &[Value],
    is_count: bool,
    step: u32,
) -> Result<Vec<Name>, NetFault>
    ensures names { IfOk result (λ names. names.items ≡ names_in (map view values.now)) }
    ensures counted { OnOk result (is_count ≡ true) }
    ensures accepted { OnOk result (first_failing (list_tests step is_count (map view values.now)) ≡ None) }
    ensures refused { IfErr result (Answers (first_failing (list_tests step is_count (map view values.now)))) }
{
    if !is_count {
        return Err(refused(Reason::Range, step));
    }
    Ok(read_names(alloc, values, step)?)
}

/// Adds an item last. It fails only for want of memory.
fn push<T: Drop>(items: &mut Vec<T>, item: T) -> Result<(), AllocError>
    ensures { OnOk result (items.new.items ≡ items.old.items ++ item ∷ []) }
{
    items.push(item)?;
    Ok(())
}

/// The joints of a section of the kind.
fn read_joints(
    alloc: Global,
    value: Option<&Value>,
    kind: SectionKind,
    step: u32,
) -> Result<Vec<Name>, NetFault>
    ensures names { let values = option_map_or elements_of (option_map view (option_copied value.entry)) [] in
        IfOk result (λ names. names.items ≡ names_in values) }
    ensures accepted { let values = option_map_or elements_of (option_map view (option_copied value.entry)) [] in
        OnOk result (first_failing (list_tests step (length values == joint_count kind) values) ≡ None) }
    ensures refused { let values = option_map_or elements_of (option_map view (option_copied value.entry)) [] in
        IfErr result (Answers (first_failing (list_tests step (length values == joint_count kind) values))) }
{
    let values = elements_if_any(value);
    read_list(alloc, values, values.len() == joint_count(kind), step)
}

/// The section of a table.
pub(crate) fn section(alloc: Global, table: &Value) -> Result<Section, NetFault>
    ensures accepted { OnOk result (first_failing (value_tests 1 SECTION_KEYS (view table.now)) ≡ None) }
    ensures spelled { IfOk result (λ section. section ≡ section_of (view table.now)) }
    ensures refused { IfErr result (Answers (first_failing (value_tests 1 SECTION_KEYS (view table.now)))) }
{
    let [name, kind, length, speed, joints, ..] = values_of(table, &SECTION_KEYS, &SECTION_ORDER);
    let name = read_name(name, 1)?;
    let kind = read_kind(kind, 2)?;
    let length = read_number(length, SECTION_LENGTH, 3)?;
    let speed = read_number(speed, SPEED, 4)?;
    let joints = read_joints(alloc, joints, kind, 5)?;
    Ok(Section {
        name,
        kind,
        length,
        speed,
        joints: Seq::from_vec(joints),
    })
}

/// The portal of a table.
pub(crate) fn portal(table: &Value) -> Result<Post, NetFault>
    ensures accepted { OnOk result (first_failing (value_tests 1 PORTAL_KEYS (view table.now)) ≡ None) }
    ensures spelled { IfOk result (λ post. post ≡ portal_of (view table.now)) }
    ensures refused { IfErr result (Answers (first_failing (value_tests 1 PORTAL_KEYS (view table.now)))) }
{
    let [name, joint, setting, watching, approach, ..] = values_of(
        table,
        &PORTAL_KEYS,
        &PORTAL_ORDER,
    );
    Ok(Post {
        name: read_name(name, 1)?,
        role: PostRole::Portal,
        joint: read_name(joint, 2)?,
        ahead: None,
        setting: read_number(setting, SETTING, 3)?,
        watching: read_number(watching, WATCHING, 4)?,
        approach: read_number(approach, APPROACH, 5)?,
    })
}

/// The signal of a table.
pub(crate) fn signal(table: &Value) -> Result<Post, NetFault>
    ensures accepted { OnOk result (first_failing (value_tests 1 SIGNAL_KEYS (view table.now)) ≡ None) }
    ensures spelled { IfOk result (λ post. post ≡ signal_of (view table.now)) }
    ensures refused { IfErr result (Answers (first_failing (value_tests 1 SIGNAL_KEYS (view table.now)))) }
{
    let [name, joint, ahead, setting, watching, approach] = values_of(
        table,
        &SIGNAL_KEYS,
        &SIGNAL_ORDER,
    );
    Ok(Post {
        name: read_name(name, 1)?,
        role: PostRole::Signal,
        joint: read_name(joint, 2)?,
        ahead: Some(read_name(ahead, 3)?),
        setting: read_number(setting, SETTING, 4)?,
        watching: read_number(watching, WATCHING, 5)?,
        approach: read_number(approach, APPROACH, 6)?,
    })
}

/// The board of a table. It has no times.
pub(crate) fn board(table: &Value) -> Result<Post, NetFault>
    ensures accepted { OnOk result (first_failing (value_tests 1 BOARD_KEYS (view table.now)) ≡ None) }
    ensures spelled { IfOk result (λ post. post ≡ board_of (view table.now)) }
    ensures refused { IfErr result (Answers (first_failing (value_tests 1 BOARD_KEYS (view table.now)))) }
{
    let [name, joint, ..] = values_of(table, &BOARD_KEYS, &BOARD_ORDER);
    Ok(Post {
        name: read_name(name, 1)?,
        role: PostRole::Board,
        joint: read_name(joint, 2)?,
        ahead: None,
        setting: 0,
        watching: 0,
        approach: 0,
    })
}

/// The turn of a table.
pub(crate) fn turn(table: &Value) -> Result<Turn, NetFault>
    ensures accepted { OnOk result (first_failing (value_tests 1 TURN_KEYS (view table.now)) ≡ None) }
    ensures spelled { IfOk result (λ turn. turn ≡ turn_of (view table.now)) }
    ensures refused { IfErr result (Answers (first_failing (value_tests 1 TURN_KEYS (view table.now)))) }
{
    let [arriving, leaving, time, ..] = values_of(table, &TURN_KEYS, &TURN_ORDER);
    Ok(Turn {
        arriving: read_name(arriving, 1)?,
        leaving: read_name(leaving, 2)?,
        time: read_number(time, TURN_TIME, 3)?,
    })
}

/// The route of a table, by the keys of a version.
pub(crate) fn route(alloc: Global, version: Version, table: &Value) -> Result<Route, NetFault>
    ensures accepted { OnOk result (first_failing (value_tests 1 (route_keys version) (view table.now)) ≡ None) }
    ensures spelled { IfOk result (λ route. route ≡ route_of version (view table.now)) }
    ensures refused { IfErr result (Answers (first_failing (value_tests 1 (route_keys version) (view table.now)))) }
{
    match version {
        Version::One => route_without_overlap(alloc, table),
        Version::Two => {
            let mut route = route_without_overlap(alloc, table)?;
            let names = read_overlap(alloc, table, 5)?;
            let overlap = steps_behind(alloc, route.steps.as_slice(), names.as_slice())?;
            route.overlap = Seq::from_vec(overlap);
            Ok(route)
        }
    }
}

/// The route of a table by the keys that it has in each version, which have no overlap.
fn route_without_overlap(alloc: Global, table: &Value) -> Result<Route, NetFault>
    ensures accepted { OnOk result (first_failing (value_tests 1 first_route_keys (view table.now)) ≡ None) }
    ensures spelled { IfOk result (λ route. route ≡ route_of version.One (view table.now)) }
    ensures refused { IfErr result (Answers (first_failing (value_tests 1 first_route_keys (view table.now)))) }
{
    let [name, from, to, path, ..] = values_of(table, &FIRST_ROUTE_KEYS, &FIRST_ROUTE_ORDER);
    let name = read_name(name, 1)?;
    let from = read_name(from, 2)?;
    let to = read_name(to, 3)?;
    let path = read_path(alloc, path, 4)?;
    Ok(Route {
        name,
        from,
        to,
        steps: Seq::from_vec(steps_of(alloc, path.as_slice())?),
        overlap: Seq::from_vec(Vec::new(alloc)),
    })
}

/// The sections and joints of an overlap in turn.
fn read_overlap(alloc: Global, table: &Value, step: u32) -> Result<Vec<Name>, NetFault>
    ensures names { IfOk result (λ names. names.items ≡ spelled_names OVERLAP (view table.now)) }
    ensures accepted { OnOk result (first_failing (tests_by KeyForm.Overlap step OVERLAP (view table.now)) ≡ None) }
    ensures refused { IfErr result (Answers (first_failing (tests_by KeyForm.Overlap step OVERLAP (view table.now)))) }
{
    let values = elements_at(table, OVERLAP);
    read_list(alloc, values, is_overlap_count(values.len()), step)
}

/// Whether so many sections and joints in turn are an overlap.
fn is_overlap_count(names: usize) -> bool
    ensures { result ≡ is_overlap_count names }
{
    names / 2 <= OVERLAP_SECTIONS && names % 2 == 0
}

/// The joints and sections of a path in turn.
fn read_path(alloc: Global, value: Option<&Value>, step: u32) -> Result<Vec<Name>, NetFault>
    ensures names { let values = option_map_or elements_of (option_map view (option_copied value.entry)) [] in
        IfOk result (λ names. names.items ≡ names_in values) }
    ensures accepted { let values = option_map_or elements_of (option_map view (option_copied value.entry)) [] in
        OnOk result (first_failing (list_tests step (is_path_count (length values)) values) ≡ None) }
    ensures refused { let values = option_map_or elements_of (option_map view (option_copied value.entry)) [] in
        IfErr result (Answers (first_failing (list_tests step (is_path_count (length values)) values))) }
{
    let values = elements_if_any(value);
    read_list(alloc, values, is_path_count(values.len()), step)
}

/// Whether so many joints and sections in turn are a path.
fn is_path_count(names: usize) -> bool
    ensures { result ≡ is_path_count names }
{
    names / 2 >= 1 && names / 2 <= ROUTE_SECTIONS && names % 2 == 1
}

/// The steps of a path of joints and sections in turn.
fn steps_of(alloc: Global, path: &[Name]) -> Result<Vec<Step>, NetFault>
    ensures steps { IfOk result (λ steps. steps.items ≡ steps_of path.now) }
    ensures memory { IfErr result (λ fault. fault ≡ OutOfMemory) }
{
    match path {
        [start, rest @ ..] => steps_from(alloc, *start, rest),
        [] => Ok(Vec::new(alloc)),
    }
}

/// The steps that go on where others end, over sections and joints in turn.
fn steps_behind(alloc: Global, steps: &[Step], names: &[Name]) -> Result<Vec<Step>, NetFault>
    ensures steps { IfOk result (λ behind. behind.items ≡ steps_behind steps.now names.now) }
    ensures memory { IfErr result (λ fault. fault ≡ OutOfMemory) }
{
    match steps.last() {
        Some(step) => steps_from(alloc, step.to, names),
        None => Ok(Vec::new(alloc)),
    }
}

/// The steps from a joint on, over sections and joints in turn.
fn steps_from(alloc: Global, start: Name, names: &[Name]) -> Result<Vec<Step>, NetFault>
    ensures steps { IfOk result (λ steps. steps.items ≡ steps_from start names.now) }
    ensures memory { IfErr result (λ fault. fault ≡ OutOfMemory) }
{
    let mut steps = Vec::new(alloc);
    steps.reserve(names.len() / 2)?;
    let mut joint = start;
    let mut rest = names;
    while let [section, next, more @ ..] = rest {
        let step = Step {
            section: *section,
            from: joint,
            to: *next,
        };
        push(&mut steps, step)?;
        joint = *next;
        rest = more;
    }
    Ok(steps)
}

/// The train kind of a table.
pub(crate) fn train_kind(table: &Value) -> Result<TrainKind, NetFault>
    ensures accepted { OnOk result (first_failing (value_tests 1 KIND_KEYS (view table.now)) ≡ None) }
    ensures spelled { IfOk result (λ kind. kind ≡ kind_of (view table.now)) }
    ensures fit { IfOk result (λ kind. IsTrue (is_fit_kind kind)) }
    ensures refused { IfErr result (Answers (first_failing (value_tests 1 KIND_KEYS (view table.now)))) }
{
    let [name, length, speed, start, stop, ..] = values_of(table, &KIND_KEYS, &KIND_ORDER);
    Ok(TrainKind {
        name: read_name(name, 1)?,
        length: read_number(length, TRAIN_LENGTH, 2)?,
        speed: read_number(speed, SPEED, 3)?,
        start: read_number(start, START, 4)?,
        stop: read_number(stop, STOP, 5)?,
    })
}

/// The names of the routes of an itinerary.
fn read_itinerary(alloc: Global, value: Option<&Value>, step: u32) -> Result<Vec<Name>, NetFault>
    ensures names { let values = option_map_or elements_of (option_map view (option_copied value.entry)) [] in
        IfOk result (λ names. names.items ≡ names_in values) }
    ensures count { IfOk result (λ names. is_from_one ITINERARY_ROUTES (length names.items) ≡ true) }
    ensures accepted { let values = option_map_or elements_of (option_map view (option_copied value.entry)) [] in
        OnOk result (first_failing (list_tests step (is_from_one ITINERARY_ROUTES (length values)) values) ≡ None) }
    ensures refused { let values = option_map_or elements_of (option_map view (option_copied value.entry)) [] in
        IfErr result (Answers (first_failing (list_tests step (is_from_one ITINERARY_ROUTES (length values)) values))) }
{
    let values = elements_if_any(value);
    let is_count = !values.is_empty() && values.len() <= ITINERARY_ROUTES;
    read_list(alloc, values, is_count, step)
}

/// The train of a table.
pub(crate) fn train(alloc: Global, table: &Value) -> Result<SceneTrain, NetFault>
    ensures accepted { OnOk result (first_failing (value_tests 1 TRAIN_KEYS (view table.now)) ≡ None) }
    ensures spelled { IfOk result (λ train. train ≡ train_of (view table.now)) }
    ensures fit { IfOk result (λ train. IsTrue (is_fit_train train)) }
    ensures refused { IfErr result (Answers (first_failing (value_tests 1 TRAIN_KEYS (view table.now)))) }
{
    let [name, kind, entry, priority, routes, ..] = values_of(table, &TRAIN_KEYS, &TRAIN_ORDER);
    let name = read_name(name, 1)?;
    let kind = read_name(kind, 2)?;
    let entry = read_time(entry, 3)?;
    let priority = read_number(priority, PRIORITY, 4)?;
    let routes = read_itinerary(alloc, routes, 5)?;
    Ok(SceneTrain {
        name,
        kind,
        entry,
        priority: priority as u8,
        routes: Seq::from_vec(routes),
    })
}
