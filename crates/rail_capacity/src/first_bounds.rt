//! The bounds that the begin of the window sets.

ghost use Rattle.std.specs.Prelude.{◌≡◌, ◌<◌, ◌≤◌, length, [], IfOk};
ghost use Rattle.std.specs.List.{All, Contains};
ghost use Rattle.rail_capacity.specs.FirstBounds.{AreFirstBounds, with_block};

use crate::blocking_times::BlockingTime;
use crate::bounds::TrainBound;
use crate::shifts::Tight;
use rail_base::{OutOfMemory, Time};
use std::alloc::Global;

/// The bound of a train without a blocking time.
const ABSENT: TrainBound = TrainBound {
    present: false,
    fixed: false,
    earlier: 0,
    tight: Tight::Start,
};

/// One more than the greatest number of a train with a blocking time.
fn count_of(blocks: &[BlockingTime]) -> usize
    ensures above { All (λ block. block.train < result) blocks.now }
    ensures small { result ≤ 65536 }
{
    let mut count = 0;
    for block in blocks {
        count = count.max(usize::from(block.train.0) + 1);
    }
    count
}

/// The train can pass at most so much earlier that this blocking time begins with the window.
fn enter(table: &mut [TrainBound], block: &BlockingTime, from: Time)
    requires known { block.now.train < length table.old }
    requires within { from ≤ block.now.begin }
    ensures { table.new ≡ with_block table.old block.now from }
{
    let earlier = block.begin.0 - from.0;
    let bound = &mut table[usize::from(block.train.0)];
    if !bound.present || earlier < bound.earlier {
        bound.present = true;
        bound.earlier = earlier;
    }
}

/// Enters all blocking times, where none was entered before.
fn enter_all(table: &mut [TrainBound], blocks: &[BlockingTime], from: Time)
    requires known { All (λ block. block.train < length table.old) blocks.now }
    requires within { All (λ block. from ≤ block.begin) blocks.now }
    requires blank { AreFirstBounds from [] table.old }
    ensures { AreFirstBounds from blocks.now table.new }
{
    for block in blocks {
        enter(table, block, from);
    }
}

/// The bounds by train number, each of so much earlier as brings the first blocking time of the train to the begin of
/// the window.
pub fn first_bounds(
    alloc: Global,
    blocks: &[BlockingTime],
    from: Time,
) -> Result<Vec<TrainBound>, OutOfMemory>
    requires { All (λ block. from ≤ block.begin) blocks.now }
    ensures small { IfOk result (λ table. length table.items ≤ 65536) }
    ensures known { IfOk result (λ table. All (λ block. block.train < length table.items) blocks.now) }
    ensures first { IfOk result (λ table. AreFirstBounds from blocks.now table.items) }
{
    let mut table = vec![in alloc; ABSENT; count_of(blocks)]?;
    enter_all(&mut table, blocks, from);
    Ok(table)
}
