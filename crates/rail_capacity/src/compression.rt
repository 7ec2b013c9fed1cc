//! The compression: the trains of a line pass as early as their order allows; how full the line then is.

ghost use Rattle.std.specs.Prelude.{◌≡◌, ◌≢◌, ◌-◌, ◌<◌, ◌≤◌, ◌↔◌, List, [], IfOk, IsTrue, map};
ghost use Rattle.std.specs.List.{All};
ghost use Rattle.std.specs.Result.{IsErrOf};
ghost use Rattle.rail_capacity.specs.BlockingTimes.{AreConflictFree, are_conflict_free, block_of, taken_blocks};
ghost use Rattle.rail_capacity.specs.Compression.{IsCompression};

use crate::blocking_times::{BlockingTime, taken_blocks};
use crate::occupancy::{moved_blocks, occupancy};
use crate::shifts::{Shift, least_bounds, shifts_of};
use rail_base::{Interval, OutOfMemory, SectionNo, Time};
use std::alloc::Global;

/// From one instant to before another one, in tenths of a second.
#[derive(Clone, Copy, Debug, PartialEq, Eq)]
pub struct Window {
    pub from: Time,
    pub to: Time,
}

impl Window {
    /// How long the window is, in tenths of a second.
    fn duration(self) -> u64
        requires { self.from ≤ self.to }
        ensures { result ≡ self.to - self.from }
    {
        self.to.0 - self.from.0
    }
}

/// Why there is no compression.
#[derive(Clone, Copy, Debug, PartialEq, Eq)]
pub enum CapacityFault {
    /// The line has no section.
    LineEmpty,
    /// The line has a section, and the window doesn't begin before it ends.
    WindowEmpty,
    /// Memory was not found.
    OutOfMemory,
}

impl From<OutOfMemory> for CapacityFault {
    ghost use Rattle.rail_capacity.specs.declared.compression.CapacityFault.TheVariants as fault;

    ghost from_gives = { λ _ e. e ≡ fault.OutOfMemory };

    fn from(_: OutOfMemory) -> CapacityFault {
        CapacityFault::OutOfMemory
    }
}

/// The trains of a line, passed over it as early as their order allows.
#[derive(Debug)]
pub struct Compressed {
    /// The trains with a blocking time on the line in the window, by number.
    pub trains: Vec<Shift>,
    /// The occupancy time: how much later than the first train a copy of it can begin behind all others, in tenths of
    /// a second. The first train is that which begins first, the one with the least number where several do. It is 0
    /// where no train has a blocking time.
    pub occupancy: u64,
    /// The occupancy rate: the occupancy time in hundredths of a percent of the window, rounded down. It can be
    /// above 10,000.
    pub rate: u64,
}

impl Drop for Compressed {
    fn drop(self) {
        let Compressed {
            trains: _trains,
            occupancy: _,
            rate: _,
        } = self;
    }
}

/// The compression of blocking times none of which begins before the window.
fn compress_blocks(
    alloc: Global,
    blocks: &[BlockingTime],
    window: Window,
) -> Result<Compressed, OutOfMemory>
    requires conflict_free { AreConflictFree blocks.now }
    requires within { All (λ block. window.from ≤ block.begin) blocks.now }
    requires window { window.from < window.to }
    ensures { IfOk result (λ c. IsCompression blocks.now window c.trains.items c.occupancy c.rate) }
{
    let table = least_bounds(alloc, blocks, window.from)?;
    let trains = shifts_of(alloc, &table)?;
    let moved = moved_blocks(alloc, blocks, &table)?;
    let occupancy = occupancy(alloc, &moved)?;
    let rate = 10_000 * occupancy / window.duration();
    Ok(Compressed {
        trains,
        occupancy,
        rate,
    })
}

/// The compression of the intervals on the line's sections that begin in the window. The order of `sections` is all one,
/// and so is whether a section stands in it twice.
///
/// Intervals that are open have to be ended first, as by the time at which the run ended.
pub fn compress(
    alloc: Global,
    intervals: &[Interval],
    sections: &[SectionNo],
    window: Window,
) -> Result<Compressed, CapacityFault>
    requires { IsTrue (are_conflict_free (map block_of intervals.now)) }
    ensures compression { IfOk result (λ c.
        IsCompression (taken_blocks intervals.now sections.now window) window c.trains.items c.occupancy c.rate) }
    ensures line_empty { IsErrOf result CapacityFault.LineEmpty ↔ (sections.now ≡ []) }
    ensures window_empty { IsErrOf result CapacityFault.WindowEmpty ↔ ((sections.now ≢ []) × (window.to ≤ window.from)) }
{
    if sections.is_empty() {
        return Err(CapacityFault::LineEmpty);
    }
    if window.to.0 <= window.from.0 {
        return Err(CapacityFault::WindowEmpty);
    }
    let blocks = taken_blocks(alloc, intervals, sections, window)?;
    Ok(compress_blocks(alloc, &blocks, window)?)
}
