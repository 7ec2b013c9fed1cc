//! Where copies of a train are placed, which bars keep them from earlier begins, and where none fits.

use crate::capacity::NO_PARTS;
use rail_base::{Interval, SectionNo, Time, TrainNo};
use rail_capacity::Window;
use rail_insert::{Bar, InsertFault, Inserted, Owner, insert};

// Macros, so that the conditions of the call are seen to hold of these numbers.
macro_rules! interval {
    ($section:literal, $train:literal, $begin:literal, $end:expr) => {
        Interval {
            section: SectionNo($section),
            train: TrainNo($train),
            place: 1,
            begin: Time($begin),
            end: $end,
            parts: NO_PARTS,
        }
    };
}

macro_rules! window {
    ($from:literal, $to:literal) => {
        Window {
            from: Time($from),
            to: Time($to),
        }
    };
}

/// Two trains pass at a loop. The sections are W, PW, L1, L2, PE and E, the trains A and B.
macro_rules! at_the_loop {
    () => {
        [
            interval!(0, 0, 1080, Some(Time(1656))),
            interval!(1, 0, 1080, Some(Time(1676))),
            interval!(2, 0, 1080, Some(Time(2076))),
            interval!(4, 0, 1900, Some(Time(2096))),
            interval!(5, 0, 1900, Some(Time(2496))),
            interval!(5, 1, 1080, Some(Time(1656))),
            interval!(4, 1, 1080, Some(Time(1676))),
            interval!(3, 1, 1080, Some(Time(2076))),
            interval!(1, 1, 1900, Some(Time(2096))),
            interval!(0, 1, 1900, Some(Time(2496))),
        ]
    };
}

/// A bar of a train, by the begins that it excludes, the train and the section.
fn bar(from: u64, to: u64, train: u16, section: u16) -> Bar {
    Bar {
        from: Time(from),
        to: Time(to),
        owner: Owner::Train(TrainNo(train)),
        section: SectionNo(section),
    }
}

/// The same of a copy.
fn own_bar(from: u64, to: u64, copy: u16, section: u16) -> Bar {
    Bar {
        from: Time(from),
        to: Time(to),
        owner: Owner::Copy(copy),
        section: SectionNo(section),
    }
}

/// Whether copies were placed at these begins, with these bars one after another.
fn is_inserted(
    found: &Result<Inserted, InsertFault>,
    begins: &[u64],
    counts: &[usize],
    bars: &[Bar],
) -> bool {
    match found {
        Ok(found) => {
            let placed = found.copies.as_slice();
            let are_begins = placed
                .iter()
                .map(|placed| placed.begin.0)
                .eq(begins.iter().copied());
            let are_counts = placed
                .iter()
                .map(|placed| placed.bars.len())
                .eq(counts.iter().copied());
            let are_bars = placed
                .iter()
                .flat_map(|placed| placed.bars.iter())
                .eq(bars.iter());
            are_begins && are_counts && are_bars
        }
        Err(_) => false,
    }
}

/// Why no copy was placed.
fn fault_of(found: Result<Inserted, InsertFault>) -> Option<InsertFault> {
    match found {
        Ok(_) => None,
        Err(fault) => Some(fault),
    }
}

#[test]
fn two_copies_are_placed_behind_two_trains_at_a_loop(rt: HostRuntime) {
    let intervals = at_the_loop!();
    let found = insert(rt.alloc(), &intervals, TrainNo(0), window!(1080, 18000), 2);
    let bars = [
        bar(1080, 2076, 0, 2),
        bar(2076, 2496, 1, 0),
        bar(1080, 2076, 0, 2),
        own_bar(2076, 3492, 1, 2),
    ];
    assert!(rt; is_inserted(&found, &[2496, 3492], &[2, 2], &bars));
}

#[test]
fn a_window_that_ends_before_a_copy_fits_has_fewer_of_them_or_none(rt: HostRuntime) {
    let intervals = at_the_loop!();
    let one = insert(rt.alloc(), &intervals, TrainNo(0), window!(1080, 3000), 2);
    let none = insert(rt.alloc(), &intervals, TrainNo(0), window!(1080, 2400), 2);
    let bars = [bar(1080, 2076, 0, 2), bar(2076, 2496, 1, 0)];
    let is_one = is_inserted(&one, &[2496], &[2], &bars);
    assert!(rt; (is_one, fault_of(none)) == (true, Some(InsertFault::NoPath)));
}

// The copy blocks section 0 for 10 from its begin, and section 1 from 10 to 20 and from 20 to 30 behind it. So there are
// bars of two sections that end together, as at 100, of a train and a copy, as at 110, and of two trains, as at 180. The
// values are those of a program that tries each bar of the rules.
#[test]
fn of_bars_that_end_together_the_least_section_is_listed_and_then_the_least_owner(rt: HostRuntime) {
    let intervals = [
        interval!(0, 0, 110, Some(Time(120))),
        interval!(1, 0, 120, Some(Time(130))),
        interval!(1, 0, 130, Some(Time(140))),
        interval!(1, 1, 190, Some(Time(200))),
        interval!(0, 2, 220, Some(Time(250))),
        interval!(1, 2, 160, Some(Time(190))),
    ];
    let found = insert(rt.alloc(), &intervals, TrainNo(0), window!(90, 400), 3);
    let bars = [
        own_bar(90, 100, 1, 0),
        bar(100, 110, 0, 1),
        bar(110, 120, 0, 0),
        bar(120, 130, 0, 1),
        own_bar(90, 100, 1, 0),
        bar(100, 110, 0, 1),
        bar(110, 120, 0, 0),
        bar(120, 130, 0, 1),
        own_bar(130, 140, 2, 0),
        bar(140, 170, 2, 1),
        bar(170, 180, 1, 1),
        bar(180, 190, 1, 1),
    ];
    assert!(rt; is_inserted(&found, &[90, 130, 190], &[0, 4, 8], &bars));
}

// Train 1 stands on section 0 from 150 on. The copy of train 0 blocks it for 10, so it begins before 140.
#[test]
fn an_open_interval_is_in_the_way_for_ever(rt: HostRuntime) {
    let intervals = [
        interval!(0, 0, 100, Some(Time(110))),
        interval!(0, 1, 150, None),
    ];
    let found = insert(rt.alloc(), &intervals, TrainNo(0), window!(110, 9000), 128);
    let bars = [
        own_bar(110, 120, 1, 0),
        own_bar(110, 120, 1, 0),
        own_bar(120, 130, 2, 0),
        own_bar(110, 120, 1, 0),
        own_bar(120, 130, 2, 0),
        own_bar(130, 140, 3, 0),
    ];
    assert!(rt; is_inserted(&found, &[110, 120, 130, 140], &[0, 1, 2, 3], &bars));
}

#[test]
fn no_copy_is_placed(rt: HostRuntime) {
    let intervals = [
        interval!(0, 0, 100, Some(Time(110))),
        interval!(0, 1, 150, None),
    ];
    let empty = fault_of(insert(rt.alloc(), &intervals, TrainNo(2), window!(90, 90), 1));
    let unknown = fault_of(insert(rt.alloc(), &intervals, TrainNo(2), window!(90, 91), 1));
    let standing = fault_of(insert(rt.alloc(), &intervals, TrainNo(1), window!(90, 91), 1));
    let full = fault_of(insert(rt.alloc(), &intervals, TrainNo(0), window!(141, 9000), 1));
    let wanted = (
        (Some(InsertFault::WindowEmpty), Some(InsertFault::NoTrain)),
        (Some(InsertFault::NoTrain), Some(InsertFault::NoPath)),
    );
    assert!(rt; ((empty, unknown), (standing, full)) == wanted);
}
