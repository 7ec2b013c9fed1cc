//! Tests of the words of a line.

ghost use Rattle.std.specs.Prelude.{◌≡◌, ◌≤◌, ◌^◌, ◌-◌, ◌==◌, ◌&&◌, not, is_some, length, min, true, false, [], ◌∷◌, List, ℕ, MatchOption};
ghost use Rattle.std.specs.List.{list_all};
ghost use Rattle.rail_base.specs.NameForms.{is_name};
ghost use Rattle.rail_command_line.specs.Verbs.{verb_of};
ghost use Rattle.rail_text.specs.Decimals.{value_of};
ghost use Rattle.rail_text.specs.Lines.{number_of_name, words};
ghost use Rattle.rail_command_line.specs.Lists.{is_position, knows};

use rail_base::{Name, Names, TrainNo};
use rail_text::{is_decimal, next_word, value_of};

/// What the first word of a line asks for.
#[derive(Clone, Copy, Debug, PartialEq, Eq)]
pub(crate) enum ListVerb {
    At,
    Move,
    Other,
}

/// What the first word of a line asks for.
pub(crate) fn verb_of(word: &[u8]) -> ListVerb
    ensures { result ≡ verb_of word.now }
{
    if word == b"at".as_slice() {
        ListVerb::At
    } else if word == b"move".as_slice() {
        ListVerb::Move
    } else {
        ListVerb::Other
    }
}

/// Whether the word is a name.
pub(crate) fn is_name(word: &[u8]) -> bool
    ensures { result ≡ is_name word.now }
{
    Name::read(word).is_some()
}

/// The name and the number that the words are, where they are a name and a number and no more.
pub(crate) fn read_position(args: &[u8]) -> Option<(Name, u64)>
    ensures { MatchOption result
        (is_position (words args.now) ≡ false)
        (λ read. (number : List ℕ)
        × (words args.now ≡ read.0 ∷ number ∷ [])
        × (is_position (words args.now) ≡ true)
        × (read.1 ≡ min (value_of number) (2 ^ 64 - 1))) }
{
    let (train, rest) = next_word(args)?;
    let (number, rest) = next_word(rest)?;
    if next_word(rest).is_some() || !is_decimal(number) {
        return None;
    }
    match Name::read(train) {
        Some(name) => Some((name, value_of(number))),
        None => None,
    }
}

/// Whether there is a word, and each is a name.
pub(crate) fn are_names(args: &[u8]) -> bool
    ensures { result ≡ (not (length (words args.now) == 0) && list_all is_name (words args.now)) }
{
    match next_word(args) {
        Some((first, rest)) => is_name(first) && are_all_names(rest),
        None => false,
    }
}

/// Whether each word is a name.
fn are_all_names(args: &[u8]) -> bool
    ensures { result ≡ list_all is_name (words args.now) }
{
    let mut left = args;
    while let Some((word, rest)) = next_word(left) {
        if !is_name(word) {
            return false;
        }
        left = rest;
    }
    true
}

/// The train that a word names.
pub(crate) fn train_of(names: &Names, word: &[u8]) -> Option<TrainNo>
    requires { length names.now.trains.keys ≤ 2 ^ 16 }
    ensures { is_name word.now ≡ true → result ≡ number_of_name names.now.trains.keys word.now }
{
    match Name::read(word) {
        Some(name) => names.train(name),
        None => None,
    }
}

/// Whether each word names a train.
pub(crate) fn are_known(names: &Names, args: &[u8]) -> bool
    requires { length names.now.trains.keys ≤ 2 ^ 16 }
    ensures { list_all is_name (words args.now) ≡ true → result ≡ list_all (knows names.now.trains.keys) (words args.now) }
{
    let mut left = args;
    while let Some((word, rest)) = next_word(left) {
        if train_of(names, word).is_none() {
            return false;
        }
        left = rest;
    }
    true
}
