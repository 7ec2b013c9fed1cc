//! The trains at the end of a line.

ghost use Rattle.std.specs.Prelude.{◌≡◌, ◌==◌, ◌≤◌, ◌^◌, List, Some, IfOk, length, map, position, true};
ghost use Rattle.std.specs.List.{list_all};
ghost use Rattle.rail_text.specs.Names.{HasNames};
ghost use Rattle.rail_history.specs.HistoryLines.{expanded, is_small_item};
ghost use Rattle.rail_history.specs.ReadWords.{joined};
ghost use Rattle.rail_rules.specs.Plant.{Plant};
ghost use Rattle.rail_rules.specs.Texts.{Item, item_word};
ghost use Rattle.rail_rules.specs.WritableLines.{IsNamed};

use crate::cutting::cut;
use crate::read_words::{number_of, train_of};
use rail_base::{Names, OutOfMemory, TrainNo};
use std::alloc::Global;

/// A train, taken so many times in a row.
#[derive(Clone, Copy)]
pub(crate) struct ReadItem {
    train: TrainNo,
    count: usize,
}

/// The trains whose items the text has, where they are no more than `most`. Any other text gives some trains.
pub(crate) fn likely_trains(
    alloc: Global,
    names: &Names,
    text: &[u8],
    most: usize,
) -> Result<Vec<TrainNo>, OutOfMemory>
    requires { length names.now.trains.keys ≤ 2 ^ 16 }
    ensures { IfOk result (λ list. (plant : Plant) → HasNames plant names.now → IsNamed plant → (items : List Item)
        → list_all (is_small_item plant) items ≡ true → length (expanded items) ≤ most
        → text.now ≡ joined (map (item_word plant) items) → list.items ≡ expanded items) }
{
    let mut list = Vec::new(alloc);
    let mut left = text;
    while !left.is_empty() {
        let (word, rest) = cut(left);
        let Some(item) = likely_item(names, word) else {
            return Ok(list);
        };
        if item.count > most - list.len() {
            return Ok(list);
        }
        list.resize(list.len() + item.count, item.train)?;
        left = rest;
    }
    Ok(list)
}

/// The train that an item names, and how often it is taken.
fn likely_item(names: &Names, word: &[u8]) -> Option<ReadItem>
    requires { length names.now.trains.keys ≤ 2 ^ 16 }
    ensures { (plant : Plant) → HasNames plant names.now → IsNamed plant → (item : Item)
        → is_small_item plant item ≡ true
        → word.now ≡ item_word plant item → result ≡ Some (record { train = item.train; count = item.count }) }
{
    match star(word) {
        Some(end) => {
            let train = train_of(names, &word[..end])?;
            let count = number_of(&word[end + 1..])?;
            Some(ReadItem {
                train,
                count: usize::from(count),
            })
        }
        None => Some(ReadItem {
            train: train_of(names, word)?,
            count: 1,
        }),
    }
}

/// The place of the first star.
fn star(text: &[u8]) -> Option<usize>
    ensures { result ≡ position (λ b. b == 42) text.now }
{
    text.iter().position(|byte| *byte == b'*')
}
