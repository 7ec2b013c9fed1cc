//! Sets of sections, and how often each section is counted.

use rail_base::{OutOfMemory, SectionNo};
use rail_sets::{
    Counts, WORDS, add_all, clear, fill_replaced, first_common, is_empty, join, meet, meet_beyond,
    replace, width_of,
};
use std::alloc::Global;

const NONE: [u64; WORDS] = [0; WORDS];

/// Sections 3, 70 and 511.
const LINE: [u64; WORDS] = [1 << 3, 1 << 6, 0, 0, 0, 0, 0, 1 << 63];

/// Sections 70 and 71.
const STATION: [u64; WORDS] = [0, 1 << 6 | 1 << 7, 0, 0, 0, 0, 0, 0];

/// Section 70.
const JUNCTION: [u64; WORDS] = [0, 1 << 6, 0, 0, 0, 0, 0, 0];

/// Section 5.
const SIDING: [u64; WORDS] = [1 << 5, 0, 0, 0, 0, 0, 0, 0];

#[test]
fn sections_are_added(rt: HostRuntime) {
    assert!(rt; sets() == [LINE, STATION, JUNCTION, SIDING]);
}

/// The line, the station, the junction and the siding by their sections.
fn sets() -> [[u64; WORDS]; 4] {
    let mut line = NONE;
    add_all(&mut line, &[SectionNo(3), SectionNo(70), SectionNo(511)]);
    let mut station = NONE;
    add_all(&mut station, &[SectionNo(70), SectionNo(71)]);
    let mut junction = NONE;
    add_all(&mut junction, &[SectionNo(70)]);
    let mut siding = NONE;
    add_all(&mut siding, &[SectionNo(5)]);
    [line, station, junction, siding]
}

#[test]
fn sets_meet(rt: HostRuntime) {
    let first = (Some(SectionNo(70)), None);
    let are_met = [true, false, false, true, false];
    assert!(rt; meetings() == (are_met, first, [8, 2]));
}

type Meetings = (
    [bool; 5],
    (Option<SectionNo>, Option<SectionNo>),
    [usize; 2],
);

/// Whether the line and the station meet, the first word of the line with it, and beyond the station, and whether no
/// sections are an empty set, and the line; the first common section, and beyond the station; and how many words each
/// takes.
fn meetings() -> Meetings {
    (
        [
            meet(&LINE, &STATION),
            meet(&LINE[..1], &STATION),
            meet_beyond(&LINE, &STATION, &STATION),
            is_empty(&NONE),
            is_empty(&LINE),
        ],
        (
            first_common(&LINE, &STATION, &NONE),
            first_common(&LINE, &STATION, &STATION),
        ),
        [width_of(&LINE), width_of(&STATION)],
    )
}

#[test]
fn sets_change(rt: HostRuntime) {
    let replaced = [1 << 3 | 1 << 5, 0, 0, 0, 0, 0, 0, 1 << 63];
    assert!(rt; changes() == ([true, false, true], replaced));
}

/// Whether both sets together meet the station beyond the line, and without the station still meet it, and the
/// line; and the line with the siding in place of the station.
fn changes() -> ([bool; 3], [u64; WORDS]) {
    let mut both = LINE;
    join(&mut both, &STATION);
    let meets_beyond = meet_beyond(&both, &STATION, &LINE);
    replace(&mut both, &STATION, &NONE);
    let mut replaced = NONE;
    fill_replaced(&mut replaced, &LINE, &STATION, &SIDING);
    (
        [meets_beyond, meet(&both, &STATION), meet(&both, &LINE)],
        replaced,
    )
}

#[test]
fn sections_are_counted(rt: HostRuntime) {
    let once = [true, false, true, false];
    let pairs = [true, false, true, false];
    let falls = (
        [true, false],
        [JUNCTION, NONE, NONE, JUNCTION, JUNCTION, NONE],
    );
    assert!(rt; counted(rt.alloc()) == Ok((once, pairs, falls)));
}

type Falls = ([bool; 2], [[u64; WORDS]; 6]);

/// First whether the sections of the line are counted once; and, in a copy of the counts of the line and the station,
/// where what the station has beside the line is counted again, and when the line is counted down then, and whether
/// those of the station are; and then what is told of the counts of both.
fn counted(alloc: Global) -> Result<([bool; 4], [bool; 4], Falls), OutOfMemory> {
    let mut counts = Counts::new(alloc)?;
    let mut later = Counts::new(alloc)?;
    counts.count_up(&LINE, &NONE);
    let is_once = counts.are_once(&LINE);
    counts.count_up(&STATION, &NONE);
    later.copy_from(&counts);
    later.count_up(&STATION, &LINE);
    let is_line_once = later.are_once(&LINE);
    later.count_down(&LINE, &NONE);
    let is_left_once = later.are_once(&LINE);
    let is_station_once = later.are_once(&STATION);
    Ok((
        [is_once, is_line_once, is_left_once, is_station_once],
        pairs(&counts),
        falls(&counts),
    ))
}

/// Whether the sections of the first word of the line are counted once, and all of it; whether the line has some that
/// are counted twice, and its first word.
fn pairs(counts: &Counts) -> [bool; 4] {
    [
        counts.are_once(&LINE[..1]),
        counts.are_once(&LINE),
        counts.has_pairs(&LINE),
        counts.has_pairs(&LINE[..1]),
    ]
}

/// Whether some section falls back to one when the line goes, and when the station comes for it, with the sets of
/// those that fall and of those that stay shared; and the sets of those that fall alone.
fn falls(counts: &Counts) -> Falls {
    let mut fell = NONE;
    let mut shared = NONE;
    let falls = counts.fill_falls(&mut fell, &mut shared, &LINE, &NONE);
    let (all_fell, none_shared) = (fell, shared);
    let falls_then = counts.fill_falls(&mut fell, &mut shared, &LINE, &STATION);
    let mut added = NONE;
    counts.add_falls(&mut added, &LINE, &NONE);
    let all_added = added;
    clear(&mut added);
    counts.add_falls(&mut added, &LINE, &STATION);
    (
        [falls, falls_then],
        [all_fell, none_shared, fell, shared, all_added, added],
    )
}
