//! The first pass over a scene file: whether each table is of its form.
ghost use Rattle.std.specs.Prelude.{◌≡◌, ℕ, ◌<◌, ◌≤◌, ◌^◌, false, length, get_or, position, Some, None, map, not, string_bytes, IsTrue, OnOk, IfErr};
ghost use Rattle.std.specs.List.{list_any, list_all};
ghost use Rattle.std.specs.BTreeMap.{keys};
ghost use Rattle.toml.specs.Data.{table as as_data};
ghost use Rattle.toml.specs.View.{table_view, view};
ghost use Rattle.rail_base.specs.Lists.{are_distinct};
ghost use Rattle.rail_base.specs.NameForms.{same_name};
ghost use Rattle.rail_base.specs.declared.refusals.Part.TheVariants.{Root};
ghost use Rattle.rail_base.specs.declared.refusals.Reason.TheVariants.{KeyMissing, WrongKind};
ghost use Rattle.rail_base.specs.FirstRefusals.{first_failing};
ghost use Rattle.rail_scene.specs.Fields.{value_at};
ghost use Rattle.rail_scene.specs.declared.keys.Key.{Key};
ghost use Rattle.rail_scene.specs.declared.keys.TheConstants.{MOST_KEYS};
ghost use Rattle.rail_scene.specs.Keys.{text_of};
ghost use Rattle.rail_scene.specs.Forms.{have_one_text, is_list_of, is_string, is_table, is_of, is_known, has_unknown, form_tests, key_tests, key_test};
ghost use Rattle.rail_base.specs.Refusals.{AnswersFirst};
ghost use Rattle.rail_scene.specs.Order.{located, list_forms, forms_of, scene_forms};

use crate::fields::{elements_at, value_at};
use crate::keys::{Key, KeyForm, LIST_PARTS, ListPart, MOST_KEYS, root_keys};
use crate::members::key_index;
use crate::places::{item_number, located};
use crate::versions::Version;
use rail_base::{Fault, Part, Reason};
use rail_track::NetFault;
use toml::{Table, Value};

/// Whether all tables of a scene file are of their form by the keys of a version, from the root on. The first that is
/// not is told, as a key that is missing, a value of another kind, or a key that is unknown.
pub(crate) fn check_forms(root: &Value, version: Version) -> Result<(), Fault>
    ensures accepted { OnOk result (first_failing (scene_forms version (view root.now)) ≡ None) }
    ensures refused { IfErr result (AnswersFirst (first_failing (scene_forms version (view root.now)))) }
{
    match form_fault(root, root_keys(version)) {
        Some(fault) => Err(located(Part::Root, 0, fault)),
        None => check_lists(root, version, &LIST_PARTS),
    }
}

/// Whether the tables of the lists are of their form.
fn check_lists(root: &Value, version: Version, parts: &[ListPart]) -> Result<(), Fault>
    ensures accepted { OnOk result (first_failing (forms_of version (view root.now) parts.now) ≡ None) }
    ensures refused { IfErr result (AnswersFirst (first_failing (forms_of version (view root.now) parts.now))) }
{
    for part in parts {
        check_list(*part, version, elements_at(root, part.key()))?;
    }
    Ok(())
}

/// Whether the tables of a list are of their form. Most are, which one walk over their members tells; only in
/// another one are the keys looked up in their order.
fn check_list(part: ListPart, version: Version, tables: &[Value]) -> Result<(), Fault>
    ensures accepted { OnOk result (first_failing (list_forms part version 1 (map view tables.now)) ≡ None) }
    ensures refused { IfErr result (AnswersFirst (first_failing (list_forms part version 1 (map view tables.now)))) }
{
    let keys = part.keys(version);
    let order = part.order(version);
    for (index, table) in tables.iter().enumerate() {
        if is_of_form(table, keys, order) {
            continue;
        }
        match form_fault(table, keys) {
            Some(fault) => return Err(located(part.part(), item_number(index), fault)),
            None => {}
        }
    }
    Ok(())
}

/// What is wrong with the form of a table, if anything.
fn form_fault(table: &Value, keys: &[Key]) -> Option<NetFault>
    requires { length keys.now < 2 ^ 16 }
    ensures { result ≡ first_failing (form_tests keys.now (view table.now)) }
{
    match keys_fault(table, keys) {
        Some(fault) => Some(fault),
        None => {
            if has_unknown(table, keys) {
                Some(NetFault::Refused {
                    reason: Reason::KeyUnknown,
                    step: 0,
                })
            } else {
                None
            }
        }
    }
}

/// Whether the value is a table whose members are those of its form.
fn is_of_form(value: &Value, keys: &[Key], order: &[usize]) -> bool
    requires few { length keys.now ≤ MOST_KEYS }
    requires distinct { IsTrue (are_distinct have_one_text keys.now) }
    ensures { IsTrue result → first_failing (form_tests keys.now (view value.now)) ≡ None }
{
    match value.as_table() {
        Some(table) => are_of_form(table, keys, order),
        None => false,
    }
}

/// Whether each member of the table has one of the keys and a value of the kind that its form states, and each
/// required key is there.
fn are_of_form(table: &Table, keys: &[Key], order: &[usize]) -> bool
    requires few { length keys.now ≤ MOST_KEYS }
    requires distinct { IsTrue (are_distinct have_one_text keys.now) }
    ensures { IsTrue result → first_failing (form_tests keys.now (as_data (table_view table.now))) ≡ None }
{
    let mut met = [false; MOST_KEYS];
    for (place, (text, value)) in table.iter().enumerate() {
        let Some(index) = key_index(keys, order, place, text.as_str()) else {
            return false;
        };
        if !is_of(value, keys[index].form) {
            return false;
        }
        met[index] = true;
    }
    has_required(keys, &met)
}

/// Whether each required key is met.
fn has_required(keys: &[Key], met: &[bool; MOST_KEYS]) -> bool
    requires { length keys.now ≤ MOST_KEYS }
    ensures { IsTrue result → (i : ℕ) (key : Key) → i < length keys.now → IsTrue (get_or keys.now i key).required → IsTrue (get_or met.now i false) }
{
    for (index, key) in keys.iter().enumerate() {
        if key.required && !met[index] {
            return false;
        }
    }
    true
}

/// What is wrong with the first of the keys that is missing or has a value of another kind, if one is.
fn keys_fault(table: &Value, keys: &[Key]) -> Option<NetFault>
    requires { length keys.now < 2 ^ 16 }
    ensures { result ≡ first_failing (key_tests 1 keys.now (view table.now)) }
{
    for (index, key) in keys.iter().enumerate() {
        match key_fault(table, *key, index as u32 + 1) {
            Some(fault) => return Some(fault),
            None => {}
        }
    }
    None
}

/// What is wrong with the form of the value of key number `step`, if anything.
fn key_fault(table: &Value, key: Key, step: u32) -> Option<NetFault>
    ensures { result ≡ first_failing (key_test step key (value_at key (view table.now))) }
{
    match value_at(table, key) {
        Some(value) => {
            if is_of(value, key.form) {
                None
            } else {
                Some(NetFault::Refused {
                    reason: Reason::WrongKind,
                    step,
                })
            }
        }
        None => {
            if key.required {
                Some(NetFault::Refused {
                    reason: Reason::KeyMissing,
                    step,
                })
            } else {
                None
            }
        }
    }
}

/// Whether the value is of the kind that the form states.
fn is_of(value: &Value, form: KeyForm) -> bool
    ensures { result ≡ is_of form (view value.now) }
{
    match form {
        KeyForm::Name | KeyForm::Policy | KeyForm::Choice | KeyForm::Time => value.is_str(),
        KeyForm::Whole(_) => value.is_integer(),
        KeyForm::Joints | KeyForm::Path | KeyForm::Overlap | KeyForm::Itinerary => {
            is_list_of_strings(value)
        }
        KeyForm::Tables => is_list_of_tables(value),
    }
}

/// Whether the value is an array of strings.
fn is_list_of_strings(value: &Value) -> bool
    ensures { result ≡ is_list_of is_string (view value.now) }
{
    match value.as_array() {
        Some(array) => are_strings(array.as_slice()),
        None => false,
    }
}

/// Whether each of the values is a string.
fn are_strings(values: &[Value]) -> bool
    ensures { result ≡ list_all (λ v. is_string (view v)) values.now }
{
    values.iter().all(|value| value.is_str())
}

/// Whether the value is an array of tables.
fn is_list_of_tables(value: &Value) -> bool
    ensures { result ≡ is_list_of is_table (view value.now) }
{
    match value.as_array() {
        Some(array) => are_tables(array.as_slice()),
        None => false,
    }
}

/// Whether each of the values is a table.
fn are_tables(values: &[Value]) -> bool
    ensures { result ≡ list_all (λ v. is_table (view v)) values.now }
{
    values.iter().all(|value| value.is_table())
}

/// Whether a table has a key that is none of these.
fn has_unknown(table: &Value, keys: &[Key]) -> bool
    ensures { result ≡ has_unknown keys.now (view table.now) }
{
    match table.as_table() {
        Some(table) => has_unknown_key(table, keys),
        None => false,
    }
}

/// Whether the members of a table have a key that is none of these.
fn has_unknown_key(table: &Table, known: &[Key]) -> bool
    ensures { result ≡ list_any (λ text. not (is_known known.now (string_bytes text))) (keys table.now) }
{
    table.keys().any(|text| !is_known(known, text.as_str()))
}

/// Whether the text is one of the keys.
fn is_known(keys: &[Key], text: &str) -> bool
    ensures { result ≡ is_known keys.now text.now }
{
    keys.iter().any(|key| key.name.text() == text)
}
