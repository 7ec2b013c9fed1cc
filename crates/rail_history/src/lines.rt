//! The lines of a history that was read, one by one.

ghost use Rattle.std.specs.Prelude.{◌≡◌, ◌≤◌, IfOk, length, vec_capacity};
ghost use Rattle.std.specs.List.{All};
ghost use Rattle.rail_history.specs.ListItems.{spelled_by};

use crate::files::History;
use crate::items::{ListItem, longest, spell};
use crate::lists::cut_list;
use rail_base::{Entry, OutOfMemory, Seq, TrainNo};
use std::alloc::Global;

/// The lines of a history, the oldest first: the line at hand with the trains beside its entry, and the lines that are still
/// to come. Before the first line there are no trains.
#[derive(Drop)]
pub struct Lines<'a> {
    entries: &'a [Entry],
    /// Of these entries, the lists of those that have one.
    lists: &'a [Seq<ListItem>],
    /// The trains beside the entry at hand, in room for those of each line.
    trains: Vec<TrainNo>,
    ghost fits: { All (λ items. length (spelled_by items) ≤ vec_capacity trains) lists.now },
}

impl History {
    ghost use Rattle.rail_history.specs.LineReads.{lines_of};
    ghost use Rattle.rail_history.specs.LinesLeft.{lines_left};

    /// The lines of the history from the first on, with all the memory that they ever take.
    pub fn lines(&self, alloc: Global) -> Result<Lines<'_>, OutOfMemory>
        ensures { IfOk result (λ lines. lines_left lines ≡ lines_of self.now) }
    {
        let Some(most) = longest(self.lists.as_slice()) else {
            return Err(OutOfMemory);
        };
        Ok(Lines {
            entries: &self.entries,
            lists: self.lists.as_slice(),
            trains: Vec::with_capacity(alloc, most)?,
        })
    }
}

impl<'a> Lines<'a> {
    ghost use Rattle.rail_history.specs.LinesLeft.{GivesLine, beside};

    /// Goes on to the next line, and gives its entry: none behind the last line. It takes no memory.
    pub fn next_entry(&mut self) -> Option<Entry>
        ensures { GivesLine self.old result self.new }
    {
        let (entry, entries) = self.entries.split_first()?;
        let (items, lists) = cut_list(&entry.what, self.lists);
        spell(&mut self.trains, items);
        self.entries = entries;
        self.lists = lists;
        Some(*entry)
    }

    /// The trains beside the entry at hand: those of a fresh list, or those that an end line names, and none at other lines.
    pub fn trains(&self) -> &[TrainNo]
        ensures { result.now ≡ beside self.now }
    {
        self.trains.as_slice()
    }
}
