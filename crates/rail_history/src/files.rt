//! History files.

ghost use Rattle.std.specs.Prelude.{◌≡◌, ◌-◌, ◌<◌, ◌≤◌, ◌^◌, [], ◌∷◌, ◌++◌, IfOk, IfErr, OnOk, cond, length};
ghost use Rattle.rail_text.specs.Names.{HasNames};
ghost use Rattle.rail_history.specs.HistoryLines.{IsHistory, IsRefusedFor, does_list};
ghost use Rattle.rail_history.specs.LineReads.{IsPaired, lines_of, lists_of};
ghost use Rattle.rail_rules.specs.Plant.{Plant};

use crate::file_lines::FileLines;
use crate::items::{ListItem, items_of};
use crate::lists::does_list;
use crate::read_line::ReadLine;
use rail_base::{Entry, Fault, Names, Seq};
use std::alloc::{AllocError, Global};

/// A history that was read.
#[derive(Debug, Drop)]
pub struct History {
    pub entries: Vec<Entry>,
    /// For each admission with a fresh list, and for each end line, the trains that it names, as items, in the order of
    /// the entries.
    pub lists: Vec<Seq<ListItem>>,
}

/// Reads a history file, for the sections and trains of these names.
///
/// It is refused as no history at the first line that is no line of a history. Each line has to end with a line
/// feed, its times have to be of the canonical form and no time above 2^64 - 1 tenths, its numbers without
/// leading zeros and at most 65,535, and its names those of sections and trains. A fresh list has at most
/// `LIST_TRAINS` trains, and a history at most `FRESH_LINES` fresh lists. An empty file is read as no entries.
pub fn read_history(alloc: Global, names: &Names, bytes: &[u8]) -> Result<History, Fault>
    requires trains { length names.now.trains.keys ≤ 2 ^ 16 }
    requires sections { length names.now.sections.keys ≤ 2 ^ 16 }
    requires short { length bytes.now < 2 ^ 32 - 1 }
    ensures read { IfOk result (λ history. (plant : Plant) → HasNames plant names.now → IsHistory plant bytes.now (lines_of history)) }
    ensures paired { IfOk result (λ history. IsPaired history) }
    ensures short { IfOk result (λ history. length history.entries.items ≤ length bytes.now) }
    ensures refused { IfErr result (IsRefusedFor names.now bytes.now) }
{
    let mut history = History {
        entries: Vec::new(alloc),
        lists: Vec::new(alloc),
    };
    let mut file = FileLines::new(bytes);
    while !file.is_empty() {
        let line = file.next_line(alloc, names)?;
        add(alloc, &mut history, line)?;
    }
    Ok(history)
}

/// Adds the line behind the others.
fn add(alloc: Global, history: &mut History, line: ReadLine) -> Result<(), AllocError>
    ensures entries { OnOk result (history.new.entries.items ≡ history.old.entries.items ++ line.entry ∷ []) }
    ensures lists { OnOk result (lists_of history.new
        ≡ lists_of history.old ++ cond (does_list line.entry.what) (line.trains.items ∷ []) []) }
{
    let ReadLine { entry, trains } = line;
    if does_list(&entry.what) {
        let items = items_of(alloc, trains.as_slice())?;
        history.lists.push(Seq::from_vec(items))?;
    }
    history.entries.push(entry)?;
    Ok(())
}
