//! Readers of the keys of a table. They are total: a table that is not of its form has values too.
ghost use Rattle.std.specs.Prelude.{◌≡◌, ◌<◌, ◌==◌, ◌&&◌, ◌/◌, [], Some, None, Option, option_map, option_and_then, map, not, if◌then◌else◌};
ghost use Rattle.std.specs.Option.{option_copied, option_map_or};
ghost use Rattle.toml.specs.Data.{as_str, as_integer};
ghost use Rattle.toml.specs.View.{view};
ghost use Rattle.rail_scene.specs.Fields.{value_at, name_in, name_at, policy_at, counted, bounded, number_by, number_at, version_of, kind_named, time_up_to, elements_of, elements_at};

use crate::keys::{Bounds, Key, KeyForm, VERSION};
use crate::versions::Version;
use rail_base::limits::INPUT_TIME;
use rail_base::{Name, Time, a_text_stands_for_one_time, read_time};
use rail_track::SectionKind;
use toml::Value;

/// The policy of a scene that names none.
const DEFAULT_POLICY: &[u8] = b"fcfs";

/// The value of a key.
pub(crate) fn value_at(table: &Value, key: Key) -> Option<&Value>
    ensures { option_map (λ v. view v.now) result ≡ value_at key (view table.now) }
{
    table.get(key.name.text())
}

/// The name that a value is.
pub(crate) fn name_in(value: &Value) -> Option<Name>
    ensures { result ≡ name_in (view value.now) }
{
    Name::read(value.as_str()?.as_bytes())
}

/// The name at a key.
pub(crate) fn name_at(table: &Value, key: Key) -> Option<Name>
    ensures { result ≡ name_at key (view table.now) }
{
    name_in(value_at(table, key)?)
}

/// The policy at a key; `fcfs` where the key is absent.
pub(crate) fn policy_at(table: &Value, key: Key) -> Option<Name>
    ensures { result ≡ policy_at key (view table.now) }
{
    match value_at(table, key) {
        Some(value) => name_in(value),
        None => Name::read(DEFAULT_POLICY),
    }
}

/// The number at a key, where it is in its range: its default where it is absent.
pub(crate) fn number_at(table: &Value, key: Key) -> Option<u32>
    ensures { result ≡ number_at key (view table.now) }
{
    number_by(key.form, value_at(table, key))
}

/// The number that a value is, where it is in the range of the form: the default where there is no value.
pub(crate) fn number_by(form: KeyForm, value: Option<&Value>) -> Option<u32>
    ensures { result ≡ number_by form (option_map view (option_copied value.entry)) }
{
    let KeyForm::Whole(bounds) = form else {
        return None;
    };
    match value {
        Some(value) => bounded(bounds, counted(value)?),
        None => bounded(bounds, u64::from(bounds.default)),
    }
}

/// The whole number that a value is, where it is not negative.
fn counted(value: &Value) -> Option<u64>
    ensures { result ≡ option_and_then counted (as_integer (view value.now)) }
{
    let number = value.as_integer()?;
    if number >= 0 {
        Some(number as u64)
    } else {
        None
    }
}

/// The number, where it is in the range.
fn bounded(bounds: Bounds, number: u64) -> Option<u32>
    ensures { result ≡ bounded bounds number }
{
    if u64::from(bounds.low) <= number && number <= u64::from(bounds.high) {
        Some(number as u32)
    } else {
        None
    }
}

/// The version that a root names. A root that names none is read as one of the newest.
pub(crate) fn version_of(root: &Value) -> Version
    ensures { result ≡ version_of (view root.now) }
{
    match number_at(root, VERSION) {
        Some(number) => Version::named(number).unwrap_or(Version::NEWEST),
        None => Version::NEWEST,
    }
}

/// The section kind that a value names.
pub(crate) fn kind_in(value: Option<&Value>) -> Option<SectionKind>
    ensures { result ≡ option_and_then kind_named (option_and_then as_str (option_map view (option_copied value.entry))) }
{
    kind_named(value?.as_str()?)
}

/// The section kind that a word stands for.
fn kind_named(word: &str) -> Option<SectionKind>
    ensures { result ≡ kind_named word.now }
{
    if word == "plain" {
        Some(SectionKind::Plain)
    } else if word == "points" {
        Some(SectionKind::Points)
    } else if word == "crossing" {
        Some(SectionKind::Crossing)
    } else if word == "slip" {
        Some(SectionKind::Slip)
    } else {
        None
    }
}

/// The time that a value spells, where it is none past the greatest of an input.
pub(crate) fn time_in(value: Option<&Value>) -> Option<Time>
    ensures { result ≡ option_and_then (time_up_to INPUT_TIME) (option_and_then as_str (option_map view (option_copied value.entry))) }
{
    entry_time(value?.as_str()?)
}

/// The time that a text spells, where it is none past the greatest of an input.
fn entry_time(text: &str) -> Option<Time>
    ensures { result ≡ time_up_to INPUT_TIME text.now }
{
    a_text_stands_for_one_time();
    let time = read_time(text.as_bytes())?;
    if time.0 <= INPUT_TIME {
        Some(time)
    } else {
        None
    }
}

/// The elements of a value; what is no array has none.
pub(crate) fn elements_of(value: &Value) -> &[Value]
    ensures { map view result.now ≡ elements_of (view value.now) }
{
    match value.as_array() {
        Some(array) => array.as_slice(),
        None => &[],
    }
}

/// The elements of a value, where there is one.
pub(crate) fn elements_if_any(value: Option<&Value>) -> &[Value]
    ensures { map view result.now ≡ option_map_or elements_of (option_map view (option_copied value.entry)) [] }
{
    match value {
        Some(value) => elements_of(value),
        None => &[],
    }
}

/// The elements at a key.
pub(crate) fn elements_at(table: &Value, key: Key) -> &[Value]
    ensures { map view result.now ≡ elements_at key (view table.now) }
{
    elements_if_any(value_at(table, key))
}
