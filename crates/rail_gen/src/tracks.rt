//! The sections and joints of the line.
ghost use Rattle.std.specs.Prelude.{◌≡◌, ◌<◌, ◌++◌, IfOk, OnOk};
ghost use Rattle.rail_gen.specs.LinePlants.{plain, points, joint_behind, station_sections, line_sections};

use crate::names::{at_station, name};
use rail_base::{Name, Seq};
use rail_routes::Network;
use rail_track::{NetFault, Section, SectionKind};
use std::alloc::{AllocError, Global};

/// Plain track between two joints.
fn plain(
    alloc: Global,
    name: Name,
    length: u32,
    speed: u32,
    from: Name,
    to: Name,
) -> Result<Section, AllocError>
    ensures { IfOk result (λ section. section ≡ plain name length speed from to) }
{
    let joints = Seq::from_vec(vec![in alloc; from, to]?);
    Ok(Section {
        name,
        kind: SectionKind::Plain,
        length,
        speed,
        joints,
    })
}

/// Points from a tip to two legs.
fn points(
    alloc: Global,
    name: Name,
    tip: Name,
    left: Name,
    right: Name,
) -> Result<Section, AllocError>
    ensures { IfOk result (λ section. section ≡ points name tip left right) }
{
    let joints = Seq::from_vec(vec![in alloc; tip, left, right]?);
    Ok(Section {
        name,
        kind: SectionKind::Points,
        length: 60,
        speed: 60,
        joints,
    })
}

/// The joint at the east end of the line behind a station.
pub(crate) fn joint_behind(count: u8, k: u8) -> Name
    requires { k < 9 }
    ensures { result ≡ joint_behind count k }
{
    if k == count {
        name(b"z")
    } else {
        at_station(b'a', k + 1)
    }
}

/// Adds the sections of a station last.
fn add_station_sections(
    alloc: Global,
    network: &mut Network,
    count: u8,
    k: u8,
) -> Result<(), NetFault>
    requires { k < 9 }
    ensures { OnOk result (network.new ≡ record network.old { sections = network.old.sections ++ station_sections count k }) }
{
    let (b, c) = (at_station(b'b', k), at_station(b'c', k));
    let (d, e) = (at_station(b'd', k), at_station(b'e', k));
    let (a, f) = (at_station(b'a', k), at_station(b'f', k));
    network.add_section(alloc, points(alloc, at_station(b'P', k), a, b, c)?)?;
    network.add_section(alloc, plain(alloc, at_station(b'A', k), 600, 80, b, d)?)?;
    network.add_section(alloc, plain(alloc, at_station(b'B', k), 600, 80, c, e)?)?;
    network.add_section(alloc, points(alloc, at_station(b'Q', k), f, d, e)?)?;
    let line = plain(
        alloc,
        at_station(b'X', k),
        3_000,
        100,
        f,
        joint_behind(count, k),
    )?;
    network.add_section(alloc, line)?;
    Ok(())
}

/// Adds the sections of the line last.
pub(crate) fn add_sections(alloc: Global, network: &mut Network, count: u8) -> Result<(), NetFault>
    requires { count < 9 }
    ensures { OnOk result (network.new ≡ record network.old { sections = network.old.sections ++ line_sections count }) }
{
    let first = plain(
        alloc,
        at_station(b'X', 0),
        3_000,
        100,
        name(b"w"),
        at_station(b'a', 1),
    )?;
    network.add_section(alloc, first)?;
    for k in 1..count + 1 {
        add_station_sections(alloc, network, count, k)?;
    }
    Ok(())
}
