//! The blocking times of a line in a window, taken from the intervals of a run.

ghost use Rattle.std.specs.Prelude.{◌≡◌, ◌==◌, IfOk, map};
ghost use Rattle.std.specs.List.{filter, list_any};
ghost use Rattle.std.specs.List.Sorted.{IsNonDecreasing};
ghost use Rattle.rail_capacity.specs.BlockingTimes.{block_of, is_taken, taken_blocks};

use crate::compression::Window;
use rail_base::{Interval, OutOfMemory, SectionNo, Time, TrainNo};
use std::alloc::Global;

/// A blocking interval without its parts, as the compression takes it: how long one move of a train blocks a
/// section, from `begin` to before `end`.
#[derive(Clone, Copy, Debug, PartialEq, Eq)]
pub struct BlockingTime {
    pub section: SectionNo,
    pub train: TrainNo,
    pub begin: Time,
    pub end: Time,
}

/// The blocking time of the interval. That of an open one is empty.
fn block_of(interval: &Interval) -> BlockingTime
    ensures { result ≡ block_of interval.now }
{
    BlockingTime {
        section: interval.section,
        train: interval.train,
        begin: interval.begin,
        end: interval.end.unwrap_or(interval.begin),
    }
}

/// The section is one of these, which are given in order.
fn is_on(sections: &[SectionNo], section: SectionNo) -> bool
    requires { IsNonDecreasing sections.now }
    ensures { result ≡ list_any (λ other. other == section) sections.now }
{
    sections.binary_search(&section).is_ok()
}

/// The interval is on the line, whose sections are given in order, and begins in the window.
fn is_taken(sections: &[SectionNo], window: Window, interval: &Interval) -> bool
    requires { IsNonDecreasing sections.now }
    ensures { result ≡ is_taken sections.now window interval.now }
{
    is_on(sections, interval.section)
        && window.from.0 <= interval.begin.0
        && interval.begin.0 < window.to.0
}

/// The blocking times on a line whose sections are given in order.
fn blocks_on(
    alloc: Global,
    intervals: &[Interval],
    sections: &[SectionNo],
    window: Window,
) -> Result<Vec<BlockingTime>, OutOfMemory>
    requires { IsNonDecreasing sections.now }
    ensures { IfOk result (λ blocks. blocks.items ≡ taken_blocks intervals.now sections.now window) }
{
    let blocks = intervals
        .iter()
        .filter(|interval| is_taken(sections, window, interval))
        .map(block_of)
        .collect(alloc)?;
    Ok(blocks)
}

/// The blocking times of the intervals on the line's sections that begin in the window. The line is sorted once and
/// then searched by halves.
pub fn taken_blocks(
    alloc: Global,
    intervals: &[Interval],
    sections: &[SectionNo],
    window: Window,
) -> Result<Vec<BlockingTime>, OutOfMemory>
    ensures { IfOk result (λ blocks. blocks.items ≡ taken_blocks intervals.now sections.now window) }
{
    let mut sorted = Vec::from_slice(alloc, sections)?;
    sorted.sort_unstable();
    blocks_on(alloc, intervals, &sorted, window)
}
