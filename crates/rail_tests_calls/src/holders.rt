//! A section that goes from one train to the next.

use rail_base::{OutOfMemory, SectionNo, TrainNo};
use rail_holders::Holders;
use std::alloc::Global;

#[test]
fn a_section_goes_from_one_train_to_the_next(rt: HostRuntime) {
    let told = [Some(TrainNo(7)), None, Some(TrainNo(7)), Some(TrainNo(0))];
    assert!(rt; holders_in_turn(rt.alloc()) == Ok(told));
}

/// Who holds the section and who another one, who gives it free, and who holds it then.
fn holders_in_turn(alloc: Global) -> Result<[Option<TrainNo>; 4], OutOfMemory> {
    let mut holders = Holders::new(alloc, 3)?;
    holders.take(SectionNo(2), TrainNo(7));
    let first = holders.holder(SectionNo(2));
    let other = holders.holder(SectionNo(1));
    let freed = holders.free(SectionNo(2));
    holders.take(SectionNo(2), TrainNo(0));
    Ok([first, other, Some(freed), holders.holder(SectionNo(2))])
}
