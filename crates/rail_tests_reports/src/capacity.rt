//! How far the trains of a line are pushed together, how full it is, and where there is no compression.

use rail_base::{Interval, Parts, SectionNo, Time, TrainNo};
use rail_capacity::{CapacityFault, Compressed, Shift, Tight, Window, compress};

pub(crate) const NO_PARTS: Parts = Parts {
    setting: None,
    watching: None,
    approach: None,
    waiting: None,
    earlier: None,
    running: None,
    standing: None,
    clearing: None,
    release: None,
};

// A macro, so that the condition of the call is seen to hold of these numbers.
macro_rules! interval {
    ($section:literal, $train:literal, $begin:literal, $end:literal) => {
        Interval {
            section: SectionNo($section),
            train: TrainNo($train),
            place: 1,
            begin: Time($begin),
            end: Some(Time($end)),
            parts: NO_PARTS,
        }
    };
}

/// Whether there is a compression with these shifts, this occupancy and this rate.
fn is_compressed(
    found: Result<Compressed, CapacityFault>,
    trains: &[Shift],
    occupancy: u64,
    rate: u64,
) -> bool {
    match found {
        Ok(found) => {
            let is_shifted = found.trains.as_slice() == trains;
            is_shifted && found.occupancy == occupancy && found.rate == rate
        }
        Err(_) => false,
    }
}

/// Why there is no compression.
fn fault_of(found: Result<Compressed, CapacityFault>) -> Option<CapacityFault> {
    found.err()
}

#[test]
fn two_trains_of_a_loop_are_pushed_together_on_one_section(rt: HostRuntime) {
    // Section 0 is W, train 0 is A and train 1 is B. The others begin out of the window or are not on the line.
    let intervals = [
        interval!(0, 0, 1080, 1656),
        interval!(1, 0, 1080, 1676),
        interval!(0, 1, 1900, 2496),
        interval!(0, 2, 599, 700),
        interval!(0, 3, 6600, 6700),
    ];
    let window = Window {
        from: Time(600),
        to: Time(6600),
    };
    let found = compress(rt.alloc(), &intervals, &[SectionNo(0)], window);
    let a = Shift {
        train: TrainNo(0),
        earlier: 480,
        tight: Tight::Start,
    };
    let b = Shift {
        train: TrainNo(1),
        earlier: 724,
        tight: Tight::After {
            train: TrainNo(0),
            section: SectionNo(0),
        },
    };
    assert!(rt; is_compressed(found, &[a, b], 1172, 1953));
}

// Train 3 runs over section 0 and then 1, train 7 the other way: each goes first on one of them. Train 3 begins with
// the window, 5 earlier. On section 0 train 7 has 80 behind it, which is less than the 105 up to the window, so it
// passes 85 earlier. Then section 0 is blocked to 195 and section 1 to 345, and a copy of train 3, which blocks them
// from 95 and from 295, is 100 later.
#[test]
fn trains_that_pass_each_other_keep_their_order_on_each_section(rt: HostRuntime) {
    let intervals = [
        interval!(0, 3, 100, 150),
        interval!(1, 3, 300, 350),
        interval!(1, 7, 200, 250),
        interval!(0, 7, 230, 280),
    ];
    let window = Window {
        from: Time(95),
        to: Time(605),
    };
    let line = [SectionNo(1), SectionNo(0)];
    let found = compress(rt.alloc(), &intervals, &line, window);
    let first = Shift {
        train: TrainNo(3),
        earlier: 5,
        tight: Tight::Start,
    };
    let second = Shift {
        train: TrainNo(7),
        earlier: 85,
        tight: Tight::After {
            train: TrainNo(3),
            section: SectionNo(0),
        },
    };
    assert!(rt; is_compressed(found, &[first, second], 100, 1960));
}

// On section 0 the second train could pass 400 earlier, but on section 1 it follows the first without a gap.
#[test]
fn a_train_moves_as_one(rt: HostRuntime) {
    let intervals = [
        interval!(0, 0, 500, 600),
        interval!(1, 0, 900, 1000),
        interval!(0, 1, 700, 800),
        interval!(1, 1, 1000, 1100),
    ];
    let window = Window {
        from: Time(200),
        to: Time(1200),
    };
    let line = [SectionNo(0), SectionNo(1)];
    let found = compress(rt.alloc(), &intervals, &line, window);
    let first = Shift {
        train: TrainNo(0),
        earlier: 300,
        tight: Tight::Start,
    };
    let second = Shift {
        train: TrainNo(1),
        earlier: 300,
        tight: Tight::After {
            train: TrainNo(0),
            section: SectionNo(1),
        },
    };
    assert!(rt; is_compressed(found, &[first, second], 300, 3000));
}

fn window(from: u64, to: u64) -> Window {
    Window {
        from: Time(from),
        to: Time(to),
    }
}

#[test]
fn a_line_or_a_window_with_nothing_in_it(rt: HostRuntime) {
    let intervals = [interval!(0, 0, 100, 200)];
    let line = [SectionNo(0)];
    let no_line = fault_of(compress(rt.alloc(), &intervals, &[], window(5, 5)));
    let no_window = fault_of(compress(rt.alloc(), &intervals, &line, window(5, 5)));
    let no_trains = compress(rt.alloc(), &intervals, &line, window(5, 100));
    let faults = (
        Some(CapacityFault::LineEmpty),
        Some(CapacityFault::WindowEmpty),
    );
    assert!(rt; ((no_line, no_window), is_compressed(no_trains, &[], 0, 0)) == (faults, true));
}
