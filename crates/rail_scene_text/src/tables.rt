//! The tables of a scene file, from its items.
ghost use Rattle.std.specs.Prelude.{◌≡◌, ◌++◌, ◌&&◌, true, IfOk, OnOk, IsTrue};
ghost use Rattle.std.specs.Option.{option_map_or};
ghost use Rattle.toml.specs.View.{table_view};
ghost use Rattle.rail_base.specs.NameForms.{is_name};
ghost use Rattle.rail_scene_text.specs.Tables.{kind_word, path_of, overlap_of, first_joint, post_members, with_ahead};

use crate::values::{Written, array, byte_value, put, time_value};
use rail_base::{Name, TrainKind};
use rail_routes::{Post, PostRole, Route, Step, Turn};
use rail_scene::SceneTrain;
use rail_scene::keys::KeyName;
use rail_track::{Section, SectionKind};
use std::alloc::{AllocError, Global};
use toml::{Table, Value};

/// The word of a section kind.
fn kind_word(kind: SectionKind) -> &'static str
    ensures { result.now ≡ kind_word kind }
{
    match kind {
        SectionKind::Plain => "plain",
        SectionKind::Points => "points",
        SectionKind::Crossing => "crossing",
        SectionKind::Slip => "slip",
    }
}

impl Written for Section {
    ghost use Rattle.rail_scene_text.specs.Tables.{section_data};
    ghost use Rattle.rail_scene_text.specs.FieldTypes.{is_typed_section};

    ghost data_of = { section_data };

    ghost is_typed = { is_typed_section };

    fn value(&self, alloc: Global) -> Result<Value, AllocError> {
        let mut members = Table::new(alloc);
        put(alloc, &mut members, KeyName::Name, self.name.value(alloc)?)?;
        put(
            alloc,
            &mut members,
            KeyName::SectionKind,
            Value::string(alloc, kind_word(self.kind))?,
        )?;
        put(
            alloc,
            &mut members,
            KeyName::SectionLength,
            Value::from(self.length),
        )?;
        put(alloc, &mut members, KeyName::Speed, Value::from(self.speed))?;
        put(
            alloc,
            &mut members,
            KeyName::Joints,
            array(alloc, self.joints.as_slice())?,
        )?;
        Ok(Value::Table(members))
    }
}

/// The members that a post has beside its section ahead.
fn post_members(alloc: Global, post: &Post) -> Result<Table, AllocError>
    ensures members { IfOk result (λ members. table_view members ≡ post_members post.now.role post.now) }
    ensures typed { OnOk result (IsTrue (is_name post.now.name && is_name post.now.joint)) }
{
    let mut members = Table::new(alloc);
    put(alloc, &mut members, KeyName::Name, post.name.value(alloc)?)?;
    put(
        alloc,
        &mut members,
        KeyName::Joint,
        post.joint.value(alloc)?,
    )?;
    match post.role {
        PostRole::Board => Ok(members),
        PostRole::Portal | PostRole::Signal => {
            put(
                alloc,
                &mut members,
                KeyName::Setting,
                Value::from(post.setting),
            )?;
            put(
                alloc,
                &mut members,
                KeyName::Watching,
                Value::from(post.watching),
            )?;
            put(
                alloc,
                &mut members,
                KeyName::Approach,
                Value::from(post.approach),
            )?;
            Ok(members)
        }
    }
}

/// The members with the section ahead, where there is one.
fn with_ahead(alloc: Global, mut members: Table, ahead: Option<Name>) -> Result<Table, AllocError>
    ensures members { IfOk result (λ all. table_view all ≡ with_ahead ahead (table_view members)) }
    ensures typed { OnOk result (IsTrue (option_map_or is_name ahead true)) }
{
    match ahead {
        Some(ahead) => {
            put(alloc, &mut members, KeyName::Ahead, ahead.value(alloc)?)?;
            Ok(members)
        }
        None => Ok(members),
    }
}

impl Written for Post {
    ghost use Rattle.rail_scene_text.specs.Tables.{post_data};
    ghost use Rattle.rail_scene_text.specs.FieldTypes.{is_typed_post};

    ghost data_of = { post_data };

    ghost is_typed = { is_typed_post };

    fn value(&self, alloc: Global) -> Result<Value, AllocError> {
        let members = post_members(alloc, self)?;
        Ok(Value::Table(with_ahead(alloc, members, self.ahead)?))
    }
}

impl Written for Turn {
    ghost use Rattle.rail_scene_text.specs.Tables.{turn_data};
    ghost use Rattle.rail_scene_text.specs.FieldTypes.{is_typed_turn};

    ghost data_of = { turn_data };

    ghost is_typed = { is_typed_turn };

    fn value(&self, alloc: Global) -> Result<Value, AllocError> {
        let mut members = Table::new(alloc);
        put(
            alloc,
            &mut members,
            KeyName::Arriving,
            self.arriving.value(alloc)?,
        )?;
        put(
            alloc,
            &mut members,
            KeyName::Leaving,
            self.leaving.value(alloc)?,
        )?;
        put(alloc, &mut members, KeyName::Time, Value::from(self.time))?;
        Ok(Value::Table(members))
    }
}

/// The joints and sections of the steps in turn.
fn path_of(alloc: Global, steps: &[Step]) -> Result<Vec<Name>, AllocError>
    ensures { IfOk result (λ names. names.items ≡ path_of steps.now) }
{
    let mut names = first_joint(alloc, steps)?;
    push_steps(&mut names, steps)?;
    Ok(names)
}

/// The sections and joints of the steps in turn.
fn overlap_of(alloc: Global, steps: &[Step]) -> Result<Vec<Name>, AllocError>
    ensures { IfOk result (λ names. names.items ≡ overlap_of steps.now) }
{
    let mut names = Vec::new(alloc);
    push_steps(&mut names, steps)?;
    Ok(names)
}

/// Adds the section of each step, and the joint at which it is left.
fn push_steps(names: &mut Vec<Name>, steps: &[Step]) -> Result<(), AllocError>
    ensures { OnOk result (names.new.items ≡ names.old.items ++ overlap_of steps.now) }
{
    for step in steps {
        names.push(step.section)?;
        names.push(step.to)?;
    }
    Ok(())
}

/// The joint where the steps begin.
fn first_joint(alloc: Global, steps: &[Step]) -> Result<Vec<Name>, AllocError>
    ensures { IfOk result (λ names. names.items ≡ first_joint steps.now) }
{
    let mut names = Vec::new(alloc);
    match steps.first() {
        Some(step) => {
            names.push(step.from)?;
            Ok(names)
        }
        None => Ok(names),
    }
}

impl Written for Route {
    ghost use Rattle.rail_scene_text.specs.Tables.{route_data};
    ghost use Rattle.rail_scene_text.specs.FieldTypes.{is_typed_route};

    ghost data_of = { route_data };

    ghost is_typed = { is_typed_route };

    fn value(&self, alloc: Global) -> Result<Value, AllocError> {
        let path = path_of(alloc, self.steps.as_slice())?;
        let overlap = overlap_of(alloc, self.overlap.as_slice())?;
        let mut members = Table::new(alloc);
        put(alloc, &mut members, KeyName::Name, self.name.value(alloc)?)?;
        put(alloc, &mut members, KeyName::From, self.from.value(alloc)?)?;
        put(alloc, &mut members, KeyName::To, self.to.value(alloc)?)?;
        put(
            alloc,
            &mut members,
            KeyName::Path,
            array(alloc, path.as_slice())?,
        )?;
        put(
            alloc,
            &mut members,
            KeyName::Overlap,
            array(alloc, overlap.as_slice())?,
        )?;
        Ok(Value::Table(members))
    }
}

impl Written for TrainKind {
    ghost use Rattle.rail_scene_text.specs.Tables.{kind_data};
    ghost use Rattle.rail_scene_text.specs.FieldTypes.{is_typed_kind};

    ghost data_of = { kind_data };

    ghost is_typed = { is_typed_kind };

    fn value(&self, alloc: Global) -> Result<Value, AllocError> {
        let mut members = Table::new(alloc);
        put(alloc, &mut members, KeyName::Name, self.name.value(alloc)?)?;
        put(
            alloc,
            &mut members,
            KeyName::TrainLength,
            Value::from(self.length),
        )?;
        put(alloc, &mut members, KeyName::Speed, Value::from(self.speed))?;
        put(alloc, &mut members, KeyName::Start, Value::from(self.start))?;
        put(alloc, &mut members, KeyName::Stop, Value::from(self.stop))?;
        Ok(Value::Table(members))
    }
}

impl Written for SceneTrain {
    ghost use Rattle.rail_scene_text.specs.Tables.{train_data};
    ghost use Rattle.rail_scene_text.specs.FieldTypes.{is_typed_train};

    ghost data_of = { train_data };

    ghost is_typed = { is_typed_train };

    fn value(&self, alloc: Global) -> Result<Value, AllocError> {
        let mut members = Table::new(alloc);
        put(alloc, &mut members, KeyName::Name, self.name.value(alloc)?)?;
        put(
            alloc,
            &mut members,
            KeyName::TrainKind,
            self.kind.value(alloc)?,
        )?;
        put(
            alloc,
            &mut members,
            KeyName::Entry,
            time_value(alloc, self.entry)?,
        )?;
        put(
            alloc,
            &mut members,
            KeyName::Priority,
            byte_value(self.priority),
        )?;
        put(
            alloc,
            &mut members,
            KeyName::Routes,
            array(alloc, self.routes.as_slice())?,
        )?;
        Ok(Value::Table(members))
    }
}
