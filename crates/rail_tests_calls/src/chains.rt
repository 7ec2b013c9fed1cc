//! Items that come into two chains and go again.

use rail_base::OutOfMemory;
use rail_slots::Slots;
use std::alloc::Global;

/// How many slots are spare, whether each slot is where it was put, how many steps were made, and the items.
type Told = ([usize; 3], [bool; 4], u64, [Option<u32>; 5]);

#[test]
fn items_come_and_go_in_two_chains(rt: HostRuntime) {
    let items = [Some(20), Some(20), Some(10), None, Some(1)];
    assert!(rt; told(rt.alloc()) == Ok(([4, 1, 4], [true; 4], 2, items)));
}

/// What is told of room for four items: of 10 and 20 in the first chain and 1 in the second, and when all were taken.
fn told(alloc: Global) -> Result<Told, OutOfMemory> {
    let mut slots = Slots::<u32>::with_room(alloc, 2, 4)?;
    let spare_at_first = slots.spare();
    let is_empty = slots.first(0) == None;
    let ten = slots.put_first(0, 10);
    let twenty = slots.put_after(ten, 20);
    slots.put_first(1, 1);
    let spare = slots.spare();
    let is_first = slots.first(0) == Some(ten);
    let item = slots.item(twenty);
    let is_next = slots.next(ten) == Some(twenty);
    let is_last = slots.next(twenty) == None;
    let walked = slots.walked();
    let second = slots.take_after(ten);
    let first = slots.take_first(0);
    let none = slots.take_first(0);
    let other = slots.take_first(1);
    Ok((
        [spare_at_first, spare, slots.spare()],
        [is_empty, is_first, is_next, is_last],
        walked,
        [Some(item), second, first, none, other],
    ))
}
