//! What a line says behind its time.

ghost use Rattle.std.specs.Prelude.{◌≡◌, ◌<◌, ◌≤◌, ◌^◌, ℕ, [], Some, decimal, drop, get_or, length, true};
ghost use Rattle.rail_base.specs.declared.history.Cause.{Cause as Why};
ghost use Rattle.rail_base.specs.declared.history.Note.{Note as Said_note};
ghost use Rattle.rail_base.specs.declared.history.What.{What as Said};
ghost use Rattle.rail_base.specs.declared.history.What.TheVariants.{Admit, Arrive, Enter, Free, Hold, Out, Ready, Told, Untold};
ghost use Rattle.rail_text.specs.Names.{HasNames};
ghost use Rattle.rail_history.specs.ReadWords.{is_small_what, joined, note_of};
ghost use Rattle.rail_rules.specs.Fronts.{Line};
ghost use Rattle.rail_rules.specs.Plant.{Plant, trains};
ghost use Rattle.rail_rules.specs.Texts.{cause_words, section_word, train_word, what_words};
ghost use Rattle.rail_rules.specs.WritableLines.{IsNamed, is_writable_cause, is_writable_what};

use crate::cutting::cut;
use crate::read_words::{Verb, cause_of, note_of, number_of, section_of, train_of, verb_of};
use rail_base::{Names, What};

/// What a text that some line has behind its time says. Any other text says something or nothing.
pub fn likely_what(names: &Names, text: &[u8]) -> Option<What>
    requires trains { length names.now.trains.keys ≤ 2 ^ 16 }
    requires sections { length names.now.sections.keys ≤ 2 ^ 16 }
    ensures { (plant : Plant) → HasNames plant names.now → IsNamed plant → (line : Line) (what : Said)
        → is_writable_what plant line what ≡ true → is_small_what what ≡ true
        → text.now ≡ joined (what_words plant line what) → result ≡ Some what }
{
    let (verb, rest) = cut(text);
    let (first, rest) = cut(rest);
    let (second, rest) = cut(rest);
    let (third, rest) = cut(rest);
    match verb_of(verb) {
        Verb::Free => read_free(names, first, second),
        Verb::Arrive => read_arrive(names, first, second),
        Verb::Enter => read_enter(names, first, second, third),
        Verb::Out => read_out(names, first),
        Verb::Ready => read_ready(names, first, second),
        Verb::Told => read_told(first),
        Verb::Untold => read_untold(first),
        Verb::Admit => read_admit(names, first, second, third),
        Verb::Hold => read_hold(names, first, second, third, rest),
        Verb::End => Some(What::End),
        Verb::Other => None,
    }
}

/// A section that is given free.
fn read_free(names: &Names, first: &[u8], second: &[u8]) -> Option<What>
    requires trains { length names.now.trains.keys ≤ 2 ^ 16 }
    requires sections { length names.now.sections.keys ≤ 2 ^ 16 }
    ensures { (plant : Plant) → HasNames plant names.now → IsNamed plant
        → (x t : ℕ) → x < length plant.tables.sections → t < trains plant
        → first.now ≡ section_word plant x → second.now ≡ train_word plant t → result ≡ Some (Free x t) }
{
    Some(What::Free {
        section: section_of(names, first)?,
        train: train_of(names, second)?,
    })
}

/// An arrival.
fn read_arrive(names: &Names, first: &[u8], second: &[u8]) -> Option<What>
    requires trains { length names.now.trains.keys ≤ 2 ^ 16 }
    ensures { (plant : Plant) → HasNames plant names.now → IsNamed plant
        → (t m : ℕ) → t < trains plant → m < 65536
        → first.now ≡ train_word plant t → second.now ≡ decimal m → result ≡ Some (Arrive t m) }
{
    Some(What::Arrive {
        train: train_of(names, first)?,
        place: number_of(second)?,
    })
}

/// A move that is ready.
fn read_ready(names: &Names, first: &[u8], second: &[u8]) -> Option<What>
    requires trains { length names.now.trains.keys ≤ 2 ^ 16 }
    ensures { (plant : Plant) → HasNames plant names.now → IsNamed plant
        → (t m : ℕ) → t < trains plant → m < 65536
        → first.now ≡ train_word plant t → second.now ≡ decimal m → result ≡ Some (Ready t m) }
{
    Some(What::Ready {
        train: train_of(names, first)?,
        place: number_of(second)?,
    })
}

/// A head that enters a section.
fn read_enter(names: &Names, first: &[u8], second: &[u8], third: &[u8]) -> Option<What>
    requires trains { length names.now.trains.keys ≤ 2 ^ 16 }
    requires sections { length names.now.sections.keys ≤ 2 ^ 16 }
    ensures { (plant : Plant) → HasNames plant names.now → IsNamed plant
        → (t m x : ℕ) → t < trains plant → m < 65536 → x < length plant.tables.sections
        → first.now ≡ train_word plant t → second.now ≡ decimal m → third.now ≡ section_word plant x
        → result ≡ Some (Enter t m x) }
{
    Some(What::Enter {
        train: train_of(names, first)?,
        place: number_of(second)?,
        section: section_of(names, third)?,
    })
}

/// A train that is out.
fn read_out(names: &Names, first: &[u8]) -> Option<What>
    requires trains { length names.now.trains.keys ≤ 2 ^ 16 }
    ensures { (plant : Plant) → HasNames plant names.now → IsNamed plant
        → (t : ℕ) → t < trains plant
        → first.now ≡ train_word plant t → result ≡ Some (Out t) }
{
    Some(What::Out {
        train: train_of(names, first)?,
    })
}

/// A command that took effect.
fn read_told(first: &[u8]) -> Option<What>
    ensures { (k : ℕ) → k < 65536 → first.now ≡ decimal k → result ≡ Some (Told k) }
{
    Some(What::Told {
        command: number_of(first)?,
    })
}

/// A command that changed nothing.
fn read_untold(first: &[u8]) -> Option<What>
    ensures { (k : ℕ) → k < 65536 → first.now ≡ decimal k → result ≡ Some (Untold k) }
{
    Some(What::Untold {
        command: number_of(first)?,
    })
}

/// An admission.
fn read_admit(names: &Names, first: &[u8], second: &[u8], third: &[u8]) -> Option<What>
    requires trains { length names.now.trains.keys ≤ 2 ^ 16 }
    ensures { (plant : Plant) → HasNames plant names.now → IsNamed plant
        → (t m : ℕ) (note : Said_note) → t < trains plant → m < 65536
        → first.now ≡ train_word plant t → second.now ≡ decimal m → note_of third.now ≡ Some note
        → result ≡ Some (Admit t m note) }
{
    Some(What::Admit {
        train: train_of(names, first)?,
        place: number_of(second)?,
        note: note_of(third)?,
    })
}

/// A hold line.
fn read_hold(names: &Names, first: &[u8], second: &[u8], third: &[u8], rest: &[u8]) -> Option<What>
    requires trains { length names.now.trains.keys ≤ 2 ^ 16 }
    requires sections { length names.now.sections.keys ≤ 2 ^ 16 }
    ensures { (plant : Plant) → HasNames plant names.now → IsNamed plant
        → (t m : ℕ) (why : Why) → t < trains plant → m < 65536 → is_writable_cause plant why ≡ true
        → first.now ≡ train_word plant t → second.now ≡ decimal m
        → third.now ≡ get_or (cause_words plant why) 0 [] → rest.now ≡ joined (drop 1 (cause_words plant why))
        → result ≡ Some (Hold t m why) }
{
    Some(What::Hold {
        train: train_of(names, first)?,
        place: number_of(second)?,
        cause: cause_of(names, third, rest)?,
    })
}
