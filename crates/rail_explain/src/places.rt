//! Where a refusal lies, in words.

ghost use Rattle.std.specs.Prelude.{◌≡◌, ◌+◌, ◌*◌, ◌≤◌, ◌++◌, ◌∷◌, decimal, length};
ghost use Rattle.rail_explain.specs.Places.{item_text, key_at, key_text, key_words, keys_text, numbered_part, part_text, place_text, quoted, step_text, value_text};
ghost use Rattle.rail_text.specs.declared.line_buffer.TheConstants.{ROOM};

use rail_base::{Name, Part, Reason, Refusal};
use rail_scene::Version;
use rail_scene::keys::{Key, keys_in};
use rail_text::LineBuffer;

/// The word for what a part has items of.
fn part_text(part: Part) -> &'static [u8]
    ensures text { result.now ≡ part_text part }
    ensures short { length result.now ≤ 8 }
{
    match part {
        Part::Bytes | Part::File => b"the file",
        Part::Root => b"the root",
        Part::Section => b"section",
        Part::Portal => b"portal",
        Part::Signal => b"signal",
        Part::Board => b"board",
        Part::Turn => b"turn",
        Part::Route => b"route",
        Part::Kind => b"kind",
        Part::Train => b"train",
        Part::Row => b"record",
        Part::Line => b"line",
        Part::Word => b"word",
    }
}

/// Puts the word, and the number of the item. A file is told by its name, and its root as such.
fn put_part(line: &mut LineBuffer, part: Part, item: u32)
    requires { length line.old + 50 ≤ ROOM }
    ensures text { line.new ≡ line.old ++ numbered_part part item }
    ensures short { length line.new ≤ length line.old + 50 }
{
    line.put(part_text(part));
    match part {
        Part::Bytes | Part::File | Part::Root => {}
        _ => line.put_number(u64::from(item)),
    }
}

/// Puts the part, the number of the item, and its name where it has one.
pub fn put_item(line: &mut LineBuffer, refusal: &Refusal, name: Option<Name>)
    requires { length line.old + 70 ≤ ROOM }
    ensures text { line.new ≡ line.old ++ item_text refusal.now name }
    ensures short { length line.new ≤ length line.old + 70 }
{
    put_part(line, refusal.part, refusal.item);
    if let Some(name) = name {
        line.put_name(&name);
    }
}

/// The key of a scene file in which a refusal lies. A refusal does not tell the version of its file, so this is a key of the
/// newest one.
pub fn key_at(refusal: &Refusal) -> Option<Key>
    ensures { result ≡ key_at refusal.now }
{
    keys_in(refusal.part, Version::NEWEST)
        .get(refusal.step.checked_sub(1)? as usize)
        .copied()
}

/// Puts a colon, a word and the number of the step.
fn put_step(line: &mut LineBuffer, word: &[u8], step: u32)
    requires word { length word.now ≤ 12 }
    requires room { length line.old + 60 ≤ ROOM }
    ensures text { line.new ≡ line.old ++ step_text word.now step }
    ensures short { length line.new ≤ length line.old + 60 }
{
    line.put(b":");
    line.put_word(word);
    line.put_number(u64::from(step));
}

/// Puts the number of the key, and its name; a value of a line has a number alone.
fn put_key(line: &mut LineBuffer, refusal: &Refusal)
    requires { length line.old + 80 ≤ ROOM }
    ensures text { line.new ≡ line.old ++ key_text refusal.now (key_at refusal.now) }
    ensures short { length line.new ≤ length line.old + 80 }
{
    match key_at(refusal) {
        Some(key) => {
            put_step(line, b"key", refusal.step);
            put_quoted(line, key);
        }
        None if refusal.step == 0 => {}
        None => put_value(line, refusal),
    }
}

/// Puts the name of a key between quotation marks.
fn put_quoted(line: &mut LineBuffer, key: Key)
    requires { length line.old + 20 ≤ ROOM }
    ensures text { line.new ≡ line.old ++ quoted key }
    ensures short { length line.new ≤ length line.old + 20 }
{
    line.put(b" \"");
    line.put(key.name.text().as_bytes());
    line.put(b"\"");
}

/// Puts the number of a piece of a word, or of a value of a line.
fn put_value(line: &mut LineBuffer, refusal: &Refusal)
    requires { length line.old + 60 ≤ ROOM }
    ensures text { line.new ≡ line.old ++ value_text refusal.now.part refusal.now.step }
    ensures short { length line.new ≤ length line.old + 60 }
{
    match refusal.part {
        Part::Word => put_step(line, b"piece", refusal.step),
        _ => put_step(line, b"value", refusal.step),
    }
}

/// Puts where in its item a refusal lies: at a key, a joint, a step or a place. Of the other reasons the item is told alone.
pub fn put_place(line: &mut LineBuffer, refusal: &Refusal)
    requires { length line.old + 80 ≤ ROOM }
    ensures text { line.new ≡ line.old ++ place_text refusal.now.reason refusal.now }
    ensures short { length line.new ≤ length line.old + 80 }
{
    match refusal.reason {
        Reason::KeyMissing
        | Reason::WrongKind
        | Reason::BadName
        | Reason::Unknown
        | Reason::Range
        | Reason::UnknownPolicy => put_key(line, refusal),
        Reason::JointCrowded => put_step(line, b"joint", refusal.step),
        Reason::RouteBroken | Reason::RouteRepeat => put_step(line, b"step", refusal.step),
        Reason::ItineraryBroken | Reason::TooLong | Reason::SelfBlocked => {
            put_step(line, b"place", refusal.step);
        }
        _ => {}
    }
}

/// Puts the keys that a table of the part may have in the newest version, and before those that the first version has not
/// that they are of the second.
pub fn put_keys(line: &mut LineBuffer, part: Part)
    requires { length line.old + 190 ≤ ROOM }
    ensures text { line.new ≡ line.old ++ keys_text part }
    ensures short { length line.new ≤ length line.old + 190 }
{
    let first = keys_in(part, Version::One);
    let all = keys_in(part, Version::NEWEST);
    line.put(b":");
    put_key_names(line, first);
    if first.len() < all.len() {
        line.put(b", in version 2");
        put_key_names(line, &all[first.len()..]);
    }
}

/// Puts the names of the keys.
fn put_key_names(line: &mut LineBuffer, keys: &[Key])
    requires { length line.old + 13 * length keys.now ≤ ROOM }
    ensures text { line.new ≡ line.old ++ key_words keys.now }
    ensures short { length line.new ≤ length line.old + 13 * length keys.now }
{
    for key in keys {
        line.put_word(key.name.text().as_bytes());
    }
}
