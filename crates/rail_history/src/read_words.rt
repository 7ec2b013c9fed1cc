//! What the words of a line spell.

ghost use Rattle.std.specs.Prelude.{◌≡◌, ◌<◌, ◌≤◌, ◌^◌, ℕ, [], Some, drop, get_or, length, decimal, position, true};
ghost use Rattle.rail_base.specs.NameForms.{is_name, same_name};
ghost use Rattle.rail_base.specs.declared.history.Cause.{Cause as Why};
ghost use Rattle.rail_base.specs.declared.history.Cause.TheVariants.{Blocked, Closed};
ghost use Rattle.rail_text.specs.Names.{HasNames};
ghost use Rattle.rail_history.specs.ReadWords.{joined, note_of, rare_verb_of, reason_of, verb_of};
ghost use Rattle.rail_rules.specs.Plant.{Plant, trains};
ghost use Rattle.rail_rules.specs.Texts.{cause_words, section_word, train_word};
ghost use Rattle.rail_rules.specs.WritableLines.{IsNamed, is_writable_cause};

use crate::cutting::cut;
use rail_base::{Cause, Name, Names, Note, SectionNo, TrainNo};
use std::str;

/// What the word behind the time tells.
#[derive(Clone, Copy, Debug, PartialEq, Eq)]
pub enum Verb {
    Free,
    Arrive,
    Enter,
    Out,
    Ready,
    Told,
    Untold,
    Admit,
    Hold,
    End,
    Other,
}

/// What the first word of a cause tells.
#[derive(Clone, Copy, Debug, PartialEq, Eq)]
pub enum HoldReason {
    Stopped,
    Closed,
    Blocked,
    NoList,
    Other,
}

/// What the word behind the time tells.
pub(crate) fn verb_of(word: &[u8]) -> Verb
    ensures { result ≡ verb_of word.now }
{
    if word == b"free".as_slice() {
        Verb::Free
    } else if word == b"arrive".as_slice() {
        Verb::Arrive
    } else if word == b"enter".as_slice() {
        Verb::Enter
    } else if word == b"out".as_slice() {
        Verb::Out
    } else if word == b"ready".as_slice() {
        Verb::Ready
    } else {
        rare_verb_of(word)
    }
}

/// What another word behind the time tells.
fn rare_verb_of(word: &[u8]) -> Verb
    ensures { result ≡ rare_verb_of word.now }
{
    if word == b"told".as_slice() {
        Verb::Told
    } else if word == b"untold".as_slice() {
        Verb::Untold
    } else if word == b"admit".as_slice() {
        Verb::Admit
    } else if word == b"hold".as_slice() {
        Verb::Hold
    } else if word == b"end".as_slice() {
        Verb::End
    } else {
        Verb::Other
    }
}

/// The train of this name.
pub(crate) fn train_of(names: &Names, word: &[u8]) -> Option<TrainNo>
    requires { length names.now.trains.keys ≤ 2 ^ 16 }
    ensures { (plant : Plant) → HasNames plant names.now → IsNamed plant
        → (t : ℕ) → t < trains plant
        → word.now ≡ train_word plant t → result ≡ Some t }
{
    train_named(names, word)
}

/// The section of this name.
pub(crate) fn section_of(names: &Names, word: &[u8]) -> Option<SectionNo>
    requires { length names.now.sections.keys ≤ 2 ^ 16 }
    ensures { (plant : Plant) → HasNames plant names.now → IsNamed plant
        → (x : ℕ) → x < length plant.tables.sections
        → word.now ≡ section_word plant x → result ≡ Some x }
{
    section_named(names, word)
}

/// The number that the digits of a word spell. Any other word gives some number or none.
pub(crate) fn number_of(word: &[u8]) -> Option<u16>
    ensures { (n : ℕ) → n < 65536 → word.now ≡ decimal n → result ≡ Some n }
{
    str::from_utf8(word).ok()?.parse::<u16>().ok()
}

/// The note that a word tells.
pub(crate) fn note_of(word: &[u8]) -> Option<Note>
    ensures { result ≡ note_of word.now }
{
    if word == b"pulled".as_slice() {
        Some(Note::Pulled)
    } else if word == b"appended".as_slice() {
        Some(Note::Appended)
    } else if word == b"fresh".as_slice() {
        Some(Note::Fresh)
    } else {
        None
    }
}

/// What the first word of a cause tells.
pub(crate) fn reason_of(word: &[u8]) -> HoldReason
    ensures { result ≡ reason_of word.now }
{
    if word == b"stopped".as_slice() {
        HoldReason::Stopped
    } else if word == b"closed".as_slice() {
        HoldReason::Closed
    } else if word == b"blocked".as_slice() {
        HoldReason::Blocked
    } else if word == b"nolist".as_slice() {
        HoldReason::NoList
    } else {
        HoldReason::Other
    }
}

/// The cause that begins with this word, with what stands behind it.
pub(crate) fn cause_of(names: &Names, word: &[u8], rest: &[u8]) -> Option<Cause>
    requires trains { length names.now.trains.keys ≤ 2 ^ 16 }
    requires sections { length names.now.sections.keys ≤ 2 ^ 16 }
    ensures { (plant : Plant) → HasNames plant names.now → IsNamed plant
        → (why : Why) → is_writable_cause plant why ≡ true
        → word.now ≡ get_or (cause_words plant why) 0 [] → rest.now ≡ joined (drop 1 (cause_words plant why))
        → result ≡ Some why }
{
    let (first, rest) = cut(rest);
    let (second, _) = cut(rest);
    match reason_of(word) {
        HoldReason::Stopped => Some(Cause::Stopped),
        HoldReason::Closed => read_closed(names, first),
        HoldReason::Blocked => read_blocked(names, first, second),
        HoldReason::NoList => Some(Cause::NoList),
        HoldReason::Other => None,
    }
}

/// The train whose name is this word.
fn train_named(names: &Names, word: &[u8]) -> Option<TrainNo>
    requires { length names.now.trains.keys ≤ 2 ^ 16 }
    ensures { is_name word.now ≡ true → result ≡ position (same_name word.now) names.now.trains.keys }
{
    let name = Name::read(word)?;
    names.train(name)
}

/// The section whose name is this word.
fn section_named(names: &Names, word: &[u8]) -> Option<SectionNo>
    requires { length names.now.sections.keys ≤ 2 ^ 16 }
    ensures { is_name word.now ≡ true → result ≡ position (same_name word.now) names.now.sections.keys }
{
    let name = Name::read(word)?;
    names.section(name)
}

/// A closed section.
fn read_closed(names: &Names, first: &[u8]) -> Option<Cause>
    requires { length names.now.sections.keys ≤ 2 ^ 16 }
    ensures { (plant : Plant) → HasNames plant names.now → IsNamed plant
        → (x : ℕ) → x < length plant.tables.sections
        → first.now ≡ section_word plant x → result ≡ Some (Closed x) }
{
    Some(Cause::Closed {
        section: section_of(names, first)?,
    })
}

/// A blocked section, and by whom.
fn read_blocked(names: &Names, first: &[u8], second: &[u8]) -> Option<Cause>
    requires trains { length names.now.trains.keys ≤ 2 ^ 16 }
    requires sections { length names.now.sections.keys ≤ 2 ^ 16 }
    ensures { (plant : Plant) → HasNames plant names.now → IsNamed plant
        → (x u : ℕ) → x < length plant.tables.sections → u < trains plant
        → first.now ≡ section_word plant x → second.now ≡ train_word plant u → result ≡ Some (Blocked x u) }
{
    Some(Cause::Blocked {
        section: section_of(names, first)?,
        holder: train_of(names, second)?,
    })
}
