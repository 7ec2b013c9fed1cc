//! What a file reads where a refusal lies in it: the fault of its TOML, the line, the record, or the value of the scene.

ghost use Rattle.std.specs.Prelude.{◌≡◌, ◌+◌, ◌≤◌, length};
ghost use Rattle.rail_text.specs.declared.line_buffer.TheConstants.{ROOM};

use crate::calls::{are_of_one_place, fault_of_call};
use crate::places::key_at;
use crate::terminals::put_shown;
use csv::{ByteRecord, ByteRecordsIntoIter, ReaderBuilder};
use itoa::Buffer;
use rail_base::limits::{ROUTES, SECTIONS};
use rail_base::{Name, Part, Reason, Refusal};
use rail_scene::keys::{Key, KeyForm, KeyName, keys_in};
use rail_scene::{Version, item_table};
use rail_text::{LineBuffer, next_line};
use std::alloc::Global;
use toml::Value;

/// The most bytes that are told of a text of the file.
const MOST_TOLD: usize = 60;

/// The most items of a part that have names which others refer to.
const MOST_ITEMS: u32 = 1_024;

const _: () = prove!(SECTIONS <= MOST_ITEMS as usize && ROUTES == MOST_ITEMS as usize);

/// The most bytes that are told of what is wrong with a text.
const MOST_SAID: usize = 85;

/// The most bytes of a name that are told beside other names.
const MOST_OF_NAME: usize = 20;

/// What the file reads where a refusal lies in it, to stand behind the explanation: a semicolon, and then the place and the
/// text. No byte where nothing more can be told, as for a whole item, and where memory for the reading is not found. A call
/// of a timetable is looked at beside the scene.
pub fn detail(alloc: Global, refusal: &Refusal, bytes: &[u8], scene: &[u8]) -> LineBuffer
    ensures short { length result ≤ 400 }
{
    let mut line = LineBuffer::new();
    match refusal.part {
        Part::Bytes => put_fault(alloc, &mut line, bytes),
        Part::Line => put_line(&mut line, bytes, refusal.item),
        Part::Row => put_record(alloc, &mut line, bytes, scene, refusal),
        Part::File | Part::Word => {}
        _ => put_value_of(alloc, &mut line, bytes, refusal),
    }
    line
}

/// Puts where the bytes are no TOML, and what was expected there.
fn put_fault(alloc: Global, line: &mut LineBuffer, bytes: &[u8])
    requires { length line.old + 400 ≤ ROOM }
    ensures short { length line.new ≤ length line.old + 400 }
{
    let Err(fault) = toml::table_from_slice(alloc, bytes) else {
        return;
    };
    let Some(range) = fault.span() else {
        return;
    };
    let before = &bytes[..bytes.len().min(range.start)];
    let (row, column) = position_behind(before);
    line.put(b"; line");
    line.put_number(row);
    line.put(b", column");
    line.put_number(column);
    line.put(b": ");
    put_shown(line, fault.message().as_bytes(), MOST_SAID);
}

/// The line and the column, both counted from 1, of the place behind the text. A column counts characters.
fn position_behind(text: &[u8]) -> (u64, u64) {
    let mut line: u64 = 1;
    let mut column: u64 = 1;
    for byte in text {
        if *byte == b'\n' {
            line = line.saturating_add(1);
            column = 1;
        } else if *byte & 0xC0 != 0x80 {
            column = column.saturating_add(1);
        }
    }
    (line, column)
}

/// Puts the text of the line, which counts from 1.
fn put_line(line: &mut LineBuffer, bytes: &[u8], number: u32)
    requires { length line.old + 400 ≤ ROOM }
    ensures short { length line.new ≤ length line.old + 400 }
{
    if let Some(text) = line_at(bytes, u64::from(number)) {
        line.put(b"; it reads ");
        put_quoted(line, text);
        if text.contains(&b'\t') {
            line.put(b"; words are parted by spaces, not by tabs");
        } else if text.contains(&b';') {
            line.put(b"; words are parted by spaces, with no semicolon");
        }
    }
}

/// The line of this number, counted from 1, without its line feed.
fn line_at(bytes: &[u8], number: u64) -> Option<&[u8]> {
    let mut rest = bytes;
    for _ in 1..number {
        rest = next_line(rest)?.1;
    }
    Some(next_line(rest)?.0)
}

/// Puts the line of a record of a timetable, its text, and what is out of order there.
fn put_record(alloc: Global, line: &mut LineBuffer, bytes: &[u8], scene: &[u8], refusal: &Refusal)
    requires { length line.old + 400 ≤ ROOM }
    ensures short { length line.new ≤ length line.old + 400 }
{
    let Some(record) = record_at(alloc, bytes, refusal.item) else {
        return;
    };
    let Some(position) = record.position() else {
        return;
    };
    let Some((number, text)) = line_with_text(bytes, position.line()) else {
        return;
    };
    line.put(b"; line");
    line.put_number(number);
    line.put(b" reads ");
    put_quoted(line, text);
    match refusal.reason {
        Reason::TimetableForm => put_other_comma(line, text),
        _ => put_call(alloc, line, bytes, scene, &record),
    }
}

/// Puts that the fields are parted by another character than commas, where they seem to be.
fn put_other_comma(line: &mut LineBuffer, text: &[u8])
    requires { length line.old + 100 ≤ ROOM }
    ensures short { length line.new ≤ length line.old + 100 }
{
    if text.contains(&b';') {
        line.put(b"; fields are parted by commas, not by semicolons");
    } else if text.contains(&b'\t') {
        line.put(b"; fields are parted by commas, not by tabs");
    }
}

/// Puts what is out of order in a call.
fn put_call(alloc: Global, line: &mut LineBuffer, bytes: &[u8], scene: &[u8], call: &ByteRecord)
    requires { length line.old + 100 ≤ ROOM }
    ensures short { length line.new ≤ length line.old + 100 }
{
    if let Ok(table) = toml::table_from_slice(alloc, scene) {
        let is_second = is_second_call(alloc, bytes, call);
        fault_of_call(&Value::Table(table), call, is_second).put(line);
    }
}

/// The first line from this number on that has a byte, since records pass over empty lines, and its number. Lines count
/// from 1.
fn line_with_text(bytes: &[u8], from: u64) -> Option<(u64, &[u8])> {
    let mut rest = bytes;
    let mut number: u64 = 1;
    while let Some((line, behind)) = next_line(rest) {
        if number >= from && !line.is_empty() {
            return Some((number, line));
        }
        rest = behind;
        number = number.saturating_add(1);
    }
    None
}

/// The records of a timetable.
fn records(alloc: Global, bytes: &[u8]) -> ByteRecordsIntoIter<&[u8]> {
    ReaderBuilder::new()
        .has_headers(false)
        .flexible(true)
        .from_reader(alloc, bytes)
        .into_byte_records()
}

/// The record of this number of a timetable, counted from 1.
fn record_at(alloc: Global, bytes: &[u8], number: u32) -> Option<ByteRecord> {
    let mut left = number;
    for record in records(alloc, bytes) {
        left = left.saturating_sub(1);
        if left == 0 {
            return record.ok();
        }
    }
    None
}

/// Whether a record before the call is one of its train and place.
fn is_second_call(alloc: Global, bytes: &[u8], call: &ByteRecord) -> bool {
    for record in records(alloc, bytes) {
        let Ok(record) = record else {
            return false;
        };
        if record.position().map(|it| it.line()) == call.position().map(|it| it.line()) {
            return false;
        }
        if are_of_one_place(&record, call) {
            return true;
        }
    }
    false
}

/// Puts the text between quotation marks, cut where it is long.
fn put_quoted(line: &mut LineBuffer, text: &[u8])
    requires { length line.old + 250 ≤ ROOM }
    ensures short { length line.new ≤ length line.old + 250 }
{
    line.put(b"\"");
    put_shown(line, text, MOST_TOLD);
    line.put(b"\"");
    if text.len() > MOST_TOLD {
        line.put(b" ..");
    }
}

/// Puts the value of the scene in which the refusal lies.
fn put_value_of(alloc: Global, line: &mut LineBuffer, bytes: &[u8], refusal: &Refusal)
    requires { length line.old + 400 ≤ ROOM }
    ensures short { length line.new ≤ length line.old + 400 }
{
    if let Ok(table) = toml::table_from_slice(alloc, bytes) {
        put_value_in(line, &Value::Table(table), refusal);
    }
}

/// Puts the value of the root in which the refusal lies.
fn put_value_in(line: &mut LineBuffer, root: &Value, refusal: &Refusal)
    requires { length line.old + 400 ≤ ROOM }
    ensures short { length line.new ≤ length line.old + 400 }
{
    let Some(item) = item_of(root, refusal.part, refusal.item) else {
        return;
    };
    match refusal.reason {
        Reason::KeyUnknown | Reason::KeyMissing => put_unknown_key(line, root, item, refusal.part),
        Reason::JointCrowded => put_names(line, item, KeyName::Joints, refusal.step, 1),
        Reason::RouteBroken | Reason::RouteRepeat => {
            // a step is a section of the path between two joints
            let section = refusal.step.saturating_mul(2);
            put_names(line, item, KeyName::Path, section.saturating_sub(1), 3);
        }
        Reason::ItineraryBroken => {
            put_names(line, item, KeyName::Routes, refusal.step, 2);
        }
        Reason::NotPortal | Reason::TooLong | Reason::SelfBlocked => {
            put_names(line, item, KeyName::Routes, refusal.step.max(1), 1);
        }
        Reason::PostPlace => put_joint(line, item),
        _ => put_value_at_key(line, root, item, refusal),
    }
}

/// The table of an item; of the root it is the root.
fn item_of(root: &Value, part: Part, item: u32) -> Option<&Value> {
    match part {
        Part::Root => Some(root),
        _ => item_table(root, part, item),
    }
}

/// Puts the first key of the item that is none of its part, in the order of their bytes.
fn put_unknown_key(line: &mut LineBuffer, root: &Value, item: &Value, part: Part)
    requires { length line.old + 400 ≤ ROOM }
    ensures short { length line.new ≤ length line.old + 400 }
{
    let keys = keys_in(part, version_of(root));
    let Some(table) = item.as_table() else {
        return;
    };
    for (text, _) in table.iter() {
        if !is_key(keys, text.as_str()) {
            line.put(b"; it has ");
            put_quoted(line, text.as_bytes());
            return;
        }
    }
}

/// Whether one of the keys is written so.
fn is_key(keys: &[Key], text: &str) -> bool {
    for key in keys {
        if key.name.text() == text {
            return true;
        }
    }
    false
}

/// The version that the scene names.
fn version_of(root: &Value) -> Version {
    match root.get(KeyName::Version.text()) {
        Some(Value::Integer(1)) => Version::One,
        _ => Version::NEWEST,
    }
}

/// Puts so many names of the list at a key, from the number `first` on, which counts from 1.
fn put_names(line: &mut LineBuffer, item: &Value, key: KeyName, first: u32, count: usize)
    requires few { count ≤ 3 }
    requires room { length line.old + 400 ≤ ROOM }
    ensures short { length line.new ≤ length line.old + 400 }
{
    let Some(Value::Array(values)) = item.get(key.text()) else {
        return;
    };
    let start = (first as usize).saturating_sub(1).min(values.len());
    let end = start.saturating_add(count).min(values.len());
    line.put(b"; it reads");
    for value in &values[start..end] {
        line.put(b" ");
        put_shown(line, text_of(value).as_bytes(), MOST_OF_NAME);
    }
}

/// Puts the joint of a post.
fn put_joint(line: &mut LineBuffer, item: &Value)
    requires { length line.old + 400 ≤ ROOM }
    ensures short { length line.new ≤ length line.old + 400 }
{
    if let Some(joint) = item.get(KeyName::Joint.text()) {
        put_value(line, joint);
    }
}

/// The text of a string; none of another value.
fn text_of(value: &Value) -> &str {
    value.as_str().unwrap_or("")
}

/// Puts the value at the key in which the refusal lies.
fn put_value_at_key(line: &mut LineBuffer, root: &Value, item: &Value, refusal: &Refusal)
    requires { length line.old + 400 ≤ ROOM }
    ensures short { length line.new ≤ length line.old + 400 }
{
    let Some(key) = key_at(refusal) else {
        return;
    };
    if let Some(value) = item.get(key.name.text()) {
        put_value(line, fault_in(root, refusal.reason, key, value));
    }
}

/// The value, or of a list of names the first that is refused for the reason, where it is refused for one name.
fn fault_in<'v>(root: &'v Value, reason: Reason, key: Key, value: &'v Value) -> &'v Value {
    let Value::Array(names) = value else {
        return value;
    };
    for (index, name) in names.iter().enumerate() {
        if is_fault(root, reason, key.form, index, name) {
            return name;
        }
    }
    value
}

/// Whether the name at this index of a list, counted from 0, is one that is refused for the reason.
fn is_fault(root: &Value, reason: Reason, form: KeyForm, index: usize, name: &Value) -> bool {
    match (reason, form) {
        (
            Reason::WrongKind,
            KeyForm::Joints | KeyForm::Path | KeyForm::Overlap | KeyForm::Itinerary,
        ) => { !name.is_str() }
        (Reason::BadName, _) => Name::read(text_of(name).as_bytes()).is_none(),
        (Reason::Unknown, KeyForm::Itinerary) => !is_named(root, Part::Route, name),
        (Reason::Unknown, KeyForm::Path) => index % 2 == 1 && !is_named(root, Part::Section, name),
        (Reason::Unknown, KeyForm::Overlap) => index % 2 == 0
            && !is_named(root, Part::Section, name),
        _ => false,
    }
}

/// Whether the value is the name of an item of the part.
fn is_named(root: &Value, part: Part, value: &Value) -> bool {
    for item in 1..=MOST_ITEMS {
        let Some(table) = item_table(root, part, item) else {
            return false;
        };
        if table.get(KeyName::Name.text()).map(text_of) == value.as_str() {
            return true;
        }
    }
    false
}

/// Puts a value: the text of a string, a whole number, how long a list is, or what kind of value another one is.
fn put_value(line: &mut LineBuffer, value: &Value)
    requires { length line.old + 400 ≤ ROOM }
    ensures short { length line.new ≤ length line.old + 400 }
{
    match value {
        Value::String(text) => {
            line.put(b"; it reads ");
            put_quoted(line, text.as_bytes());
        }
        Value::Integer(number) => {
            let mut digits = Buffer::new();
            line.put(b"; it reads ");
            put_shown(line, digits.format(*number).as_bytes(), MOST_OF_NAME);
        }
        Value::Array(values) => {
            line.put(b"; it is a list of");
            line.put_number(values.len() as u64);
        }
        _ => {
            line.put(b"; it is of the kind ");
            put_shown(line, value.type_str().as_bytes(), MOST_OF_NAME);
        }
    }
}
