//! The occupancy time of a compression: how much later a copy of the first train begins behind all others.

ghost use Rattle.std.specs.Prelude.{◌≡◌, ℕ, ◌-◌, ◌<◌, ◌^◌, ◌==◌, cond, max, slice_index, length, IfOk, MatchOption, List, [], map};
ghost use Rattle.std.specs.List.{All};
ghost use Rattle.std.specs.Option.{option_map_or};
ghost use Rattle.rail_capacity.specs.declared.blocking_times.BlockingTime.{BlockingTime};
ghost use Rattle.rail_capacity.specs.Bounds.{limit_of};
ghost use Rattle.rail_capacity.specs.Compression.{moved_block};
ghost use Rattle.rail_capacity.specs.Ends.{AreEnds, IsRoom, precedes, with_end};
ghost use Rattle.rail_capacity.specs.Occupancy.{IsFirstBlock, IsOccupancy};

use crate::blocking_times::BlockingTime;
use crate::bounds::TrainBound;
use rail_base::{OutOfMemory, Time, TrainNo};
use std::alloc::Global;

/// The blocking time as it lies in the compression.
fn moved_block(block: &BlockingTime, table: &[TrainBound]) -> BlockingTime
    ensures { result ≡ moved_block (λ other. other.begin - limit_of table.now other.train) block.now }
{
    let earlier = table
        .get(usize::from(block.train.0))
        .map_or(0, |bound| bound.earlier);
    let begin = block.begin.0.saturating_sub(earlier);
    let duration = block.end.0.saturating_sub(block.begin.0);
    BlockingTime {
        section: block.section,
        train: block.train,
        begin: Time(begin),
        end: Time(begin + duration),
    }
}

/// The blocking times as they lie in the compression.
pub fn moved_blocks(
    alloc: Global,
    blocks: &[BlockingTime],
    table: &[TrainBound],
) -> Result<Vec<BlockingTime>, OutOfMemory>
    ensures { IfOk result (λ all.
        all.items ≡ map (moved_block (λ other. other.begin - limit_of table.now other.train)) blocks.now) }
{
    let all = blocks
        .iter()
        .map(|block| moved_block(block, table))
        .collect(alloc)?;
    Ok(all)
}

/// The blocking time begins first, or with the other and is of a lesser train.
fn precedes(block: &BlockingTime, other: &BlockingTime) -> bool
    ensures { result ≡ precedes block.now other.now }
{
    block.begin.0 < other.begin.0
        || (block.begin.0 == other.begin.0 && block.train.0 < other.train.0)
}

/// The first of the blocking times so far and this one.
fn first_of(first: Option<BlockingTime>, block: &BlockingTime) -> BlockingTime
    ensures { result ≡ option_map_or (λ other. cond (precedes block.now other) block.now other) first block.now }
{
    let Some(other) = first else {
        return *block;
    };
    if precedes(block, &other) {
        return *block;
    }
    other
}

/// The blocking time that begins first, that of the least train where several do.
fn first_block(blocks: &[BlockingTime]) -> Option<BlockingTime>
    ensures { MatchOption result (blocks.now ≡ []) (λ block. IsFirstBlock blocks.now block) }
{
    let mut first: Option<BlockingTime> = None;
    for block in blocks {
        first = Some(first_of(first, block));
    }
    first
}

/// One more than the greatest number of a section with a blocking time.
fn count_of(blocks: &[BlockingTime]) -> usize
    ensures { All (λ block. block.section < result) blocks.now }
{
    let mut count = 0;
    for block in blocks {
        count = count.max(usize::from(block.section.0) + 1);
    }
    count
}

/// The section is blocked to the end of the blocking time at least.
fn extend(ends: &mut [u64], block: &BlockingTime)
    requires { block.now.section < length ends.old }
    ensures { ends.new ≡ with_end ends.old block.now }
{
    let end = &mut ends[usize::from(block.section.0)];
    *end = block.end.0.max(*end);
}

/// Extends the ends to those of all blocking times, where there was none before.
fn extend_all(ends: &mut [u64], blocks: &[BlockingTime])
    requires known { All (λ block. block.section < length ends.old) blocks.now }
    requires blank { AreEnds [] ends.old }
    ensures { AreEnds blocks.now ends.new }
{
    for block in blocks {
        extend(ends, block);
    }
}

/// When the last blocking time on each section ends, by number; 0 where there is none.
fn ends_of(alloc: Global, blocks: &[BlockingTime]) -> Result<Vec<u64>, OutOfMemory>
    ensures known { IfOk result (λ ends. All (λ block. block.section < length ends.items) blocks.now) }
    ensures ends { IfOk result (λ ends. AreEnds blocks.now ends.items) }
{
    let mut ends = vec![in alloc; 0u64; count_of(blocks)]?;
    extend_all(&mut ends, blocks);
    Ok(ends)
}

/// The room with one more blocking time, where it is one of the train.
fn room_with(room: u64, block: &BlockingTime, ends: &[u64], train: TrainNo) -> u64
    requires { block.now.section < length ends.now }
    ensures { result ≡
        cond (block.now.train == train) (max room (slice_index ends.now block.now.section - block.now.begin)) room }
{
    if block.train != train {
        return room;
    }
    let end = ends[usize::from(block.section.0)];
    room.max(end.saturating_sub(block.begin.0))
}

/// How much later a copy of the train has to be, so that it begins on no section before the last blocking time there
/// ends.
fn room_behind(blocks: &[BlockingTime], ends: &[u64], train: TrainNo) -> u64
    requires { All (λ block. block.section < length ends.now) blocks.now }
    ensures { IsRoom blocks.now ends.now train result }
{
    let mut room: u64 = 0;
    for block in blocks {
        room = room_with(room, block, ends, train);
    }
    room
}

/// How much later than the first train its copy begins behind all blocking times, in tenths of a second; 0 where
/// there is none.
pub fn occupancy(alloc: Global, blocks: &[BlockingTime]) -> Result<u64, OutOfMemory>
    ensures occupancy { IfOk result (λ occupancy. IsOccupancy blocks.now occupancy) }
    ensures bound { IfOk result (λ occupancy. All (λ block. block.end < 2 ^ 50) blocks.now → occupancy < 2 ^ 50) }
{
    let Some(first) = first_block(blocks) else {
        return Ok(0);
    };
    let ends = ends_of(alloc, blocks)?;
    Ok(room_behind(blocks, &ends, first.train))
}
