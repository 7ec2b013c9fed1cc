//! The posts and the routes of the line.
ghost use Rattle.std.specs.Prelude.{◌≡◌, ◌<◌, ◌≤◌, ◌-◌, ◌+◌, ◌∷◌, [], ◌++◌, IfOk, OnOk, IsTrue};
ghost use Rattle.rail_gen.specs.LinePlants.{portal, signal, line_portals, station_signals, line_signals, over, route_over, route_through, joint_behind, joint_before, post_behind, post_before, at_station, east_in, east_out, west_in, west_out, eastbound_routes, westbound_routes, station_routes, line_routes};
ghost use Rattle.rail_base.specs.NameForms.{is_name_byte};
ghost use Rattle.rail_gen.specs.MadeScenes.{track_of};

use crate::names::{at_station, name, route_in, route_out};
use crate::tracks::joint_behind;
use rail_base::{Name, Seq};
use rail_routes::{Network, Post, PostRole, Route, Step};
use rail_track::NetFault;
use std::alloc::{AllocError, Global};

/// A portal.
fn portal(name: Name, joint: Name) -> Post
    ensures { result ≡ portal name joint }
{
    Post {
        name,
        role: PostRole::Portal,
        joint,
        ahead: None,
        setting: 60,
        watching: 50,
        approach: 300,
    }
}

/// A signal of a station with its section ahead, by their letters.
fn signal(name: u8, joint: u8, ahead: u8, k: u8) -> Post
    requires name { IsTrue (is_name_byte name) }
    requires joint { IsTrue (is_name_byte joint) }
    requires ahead { IsTrue (is_name_byte ahead) }
    requires digit { k < 10 }
    ensures { result ≡ signal (at_station (name ∷ []) k) (at_station (joint ∷ []) k) (at_station (ahead ∷ []) k) }
{
    Post {
        name: at_station(name, k),
        role: PostRole::Signal,
        joint: at_station(joint, k),
        ahead: Some(at_station(ahead, k)),
        setting: 60,
        watching: 50,
        approach: 300,
    }
}

/// Adds the portals of the line last.
pub(crate) fn add_portals(alloc: Global, network: &mut Network) -> Result<(), NetFault>
    ensures { OnOk result (network.new ≡ record network.old { portals = network.old.portals ++ line_portals }) }
{
    network.add_post(alloc, portal(name(b"West"), name(b"w")))?;
    network.add_post(alloc, portal(name(b"East"), name(b"z")))?;
    Ok(())
}

/// Adds the signals of a station last.
fn add_station_signals(alloc: Global, network: &mut Network, k: u8) -> Result<(), NetFault>
    requires { k < 10 }
    ensures { OnOk result (network.new ≡ record network.old { signals = network.old.signals ++ station_signals k }) }
{
    network.add_post(alloc, signal(b'H', b'a', b'P', k))?;
    network.add_post(alloc, signal(b'E', b'd', b'Q', k))?;
    network.add_post(alloc, signal(b'F', b'e', b'Q', k))?;
    network.add_post(alloc, signal(b'G', b'f', b'Q', k))?;
    network.add_post(alloc, signal(b'U', b'b', b'P', k))?;
    network.add_post(alloc, signal(b'V', b'c', b'P', k))?;
    Ok(())
}

/// Adds the signals of the line last.
pub(crate) fn add_signals(alloc: Global, network: &mut Network, count: u8) -> Result<(), NetFault>
    requires { count < 9 }
    ensures { OnOk result (network.new ≡ record network.old { signals = network.old.signals ++ line_signals count }) }
{
    for k in 1..count + 1 {
        add_station_signals(alloc, network, k)?;
    }
    Ok(())
}

/// A route over one section.
fn route_over(
    alloc: Global,
    name: Name,
    from: Name,
    to: Name,
    step: Step,
) -> Result<Route, AllocError>
    ensures { IfOk result (λ route. route ≡ route_over name from to step) }
{
    let steps = Seq::from_vec(vec![in alloc; step]?);
    Ok(Route {
        name,
        from,
        to,
        steps,
        overlap: Seq::from_vec(Vec::new(alloc)),
    })
}

/// A route over two sections, which meet where the first step ends.
fn route_through(
    alloc: Global,
    name: Name,
    from: Name,
    to: Name,
    step: Step,
    section: Name,
    end: Name,
) -> Result<Route, AllocError>
    ensures { IfOk result (λ route. route ≡ route_through name from to step section end) }
{
    let last = Step {
        section,
        from: step.to,
        to: end,
    };
    let steps = Seq::from_vec(vec![in alloc; step, last]?);
    Ok(Route {
        name,
        from,
        to,
        steps,
        overlap: Seq::from_vec(Vec::new(alloc)),
    })
}

/// A step over a section.
fn over(section: Name, from: Name, to: Name) -> Step
    ensures { result ≡ over section from to }
{
    Step { section, from, to }
}

/// The post where the line behind a station ends: that of the next one, or the portal.
fn post_behind(count: u8, k: u8) -> Name
    requires { k < 9 }
    ensures { result ≡ post_behind count k }
{
    if k == count {
        name(b"East")
    } else {
        at_station(b'H', k + 1)
    }
}

/// The post where the line before a station ends: that of the one before, or the portal.
fn post_before(k: u8) -> Name
    requires low { 1 ≤ k }
    requires high { k < 10 }
    ensures { result ≡ post_before k }
{
    if k == 1 {
        name(b"West")
    } else {
        at_station(b'G', k - 1)
    }
}

/// The joint at the west end of the line before a station: that of the one before, or the west end of all.
fn joint_before(k: u8) -> Name
    requires low { 1 ≤ k }
    requires high { k < 10 }
    ensures { result ≡ joint_before k }
{
    if k == 1 {
        name(b"w")
    } else {
        at_station(b'f', k - 1)
    }
}

/// The section of a track of a station.
fn section_of(is_b: bool, k: u8) -> Name
    requires { k < 10 }
    ensures { result ≡ at_station (track_of is_b).section k }
{
    if is_b {
        at_station(b'B', k)
    } else {
        at_station(b'A', k)
    }
}

/// The joint at the west end of a track of a station.
fn west_of(is_b: bool, k: u8) -> Name
    requires { k < 10 }
    ensures { result ≡ at_station (track_of is_b).west k }
{
    if is_b {
        at_station(b'c', k)
    } else {
        at_station(b'b', k)
    }
}

/// The joint at the east end of a track of a station.
fn east_of(is_b: bool, k: u8) -> Name
    requires { k < 10 }
    ensures { result ≡ at_station (track_of is_b).east k }
{
    if is_b {
        at_station(b'e', k)
    } else {
        at_station(b'd', k)
    }
}

/// The signal of a track of a station for trains to the east.
fn eastbound_of(is_b: bool, k: u8) -> Name
    requires { k < 10 }
    ensures { result ≡ at_station (track_of is_b).eastbound k }
{
    if is_b {
        at_station(b'F', k)
    } else {
        at_station(b'E', k)
    }
}

/// The signal of a track of a station for trains to the west.
fn westbound_of(is_b: bool, k: u8) -> Name
    requires { k < 10 }
    ensures { result ≡ at_station (track_of is_b).westbound k }
{
    if is_b {
        at_station(b'V', k)
    } else {
        at_station(b'U', k)
    }
}

/// The way of a train to the east into a station.
fn east_in(alloc: Global, k: u8, is_b: bool) -> Result<Route, AllocError>
    requires { k < 10 }
    ensures { IfOk result (λ route. route ≡ east_in k (track_of is_b)) }
{
    let name = route_in(b'e', k, is_b);
    let first = over(at_station(b'P', k), at_station(b'a', k), west_of(is_b, k));
    let (from, to) = (at_station(b'H', k), eastbound_of(is_b, k));
    route_through(
        alloc,
        name,
        from,
        to,
        first,
        section_of(is_b, k),
        east_of(is_b, k),
    )
}

/// The way of a train to the east out of a station.
fn east_out(alloc: Global, count: u8, k: u8, is_b: bool) -> Result<Route, AllocError>
    requires { k < 9 }
    ensures { IfOk result (λ route. route ≡ east_out count k (track_of is_b)) }
{
    let name = route_out(b'e', k, is_b);
    let first = over(at_station(b'Q', k), east_of(is_b, k), at_station(b'f', k));
    let (from, to) = (eastbound_of(is_b, k), post_behind(count, k));
    route_through(
        alloc,
        name,
        from,
        to,
        first,
        at_station(b'X', k),
        joint_behind(count, k),
    )
}

/// The way of a train to the west into a station.
fn west_in(alloc: Global, k: u8, is_b: bool) -> Result<Route, AllocError>
    requires { k < 10 }
    ensures { IfOk result (λ route. route ≡ west_in k (track_of is_b)) }
{
    let name = route_in(b'w', k, is_b);
    let first = over(at_station(b'Q', k), at_station(b'f', k), east_of(is_b, k));
    let (from, to) = (at_station(b'G', k), westbound_of(is_b, k));
    route_through(
        alloc,
        name,
        from,
        to,
        first,
        section_of(is_b, k),
        west_of(is_b, k),
    )
}

/// The way of a train to the west out of a station.
fn west_out(alloc: Global, k: u8, is_b: bool) -> Result<Route, AllocError>
    requires low { 1 ≤ k }
    requires high { k < 10 }
    ensures { IfOk result (λ route. route ≡ west_out k (track_of is_b)) }
{
    let name = route_out(b'w', k, is_b);
    let first = over(at_station(b'P', k), west_of(is_b, k), at_station(b'a', k));
    let (from, to) = (westbound_of(is_b, k), post_before(k));
    route_through(
        alloc,
        name,
        from,
        to,
        first,
        at_station(b'X', k - 1),
        joint_before(k),
    )
}

/// Adds the routes of a station last.
fn add_station_routes(
    alloc: Global,
    network: &mut Network,
    count: u8,
    k: u8,
) -> Result<(), NetFault>
    requires low { 1 ≤ k }
    requires high { k < 9 }
    ensures { OnOk result (network.new ≡ record network.old { routes = network.old.routes ++ station_routes count k }) }
{
    add_eastbound_routes(alloc, network, count, k)?;
    add_westbound_routes(alloc, network, k)?;
    Ok(())
}

/// Adds the routes of a station to the east last.
fn add_eastbound_routes(
    alloc: Global,
    network: &mut Network,
    count: u8,
    k: u8,
) -> Result<(), NetFault>
    requires low { 1 ≤ k }
    requires high { k < 9 }
    ensures { OnOk result (network.new ≡ record network.old { routes = network.old.routes ++ eastbound_routes count k }) }
{
    network.add_route(alloc, east_in(alloc, k, false)?)?;
    network.add_route(alloc, east_in(alloc, k, true)?)?;
    network.add_route(alloc, east_out(alloc, count, k, false)?)?;
    network.add_route(alloc, east_out(alloc, count, k, true)?)?;
    Ok(())
}

/// Adds the routes of a station to the west last.
fn add_westbound_routes(alloc: Global, network: &mut Network, k: u8) -> Result<(), NetFault>
    requires low { 1 ≤ k }
    requires high { k < 9 }
    ensures { OnOk result (network.new ≡ record network.old { routes = network.old.routes ++ westbound_routes k }) }
{
    network.add_route(alloc, west_in(alloc, k, false)?)?;
    network.add_route(alloc, west_in(alloc, k, true)?)?;
    network.add_route(alloc, west_out(alloc, k, false)?)?;
    network.add_route(alloc, west_out(alloc, k, true)?)?;
    Ok(())
}

/// Adds the routes of the line last.
pub(crate) fn add_routes(alloc: Global, network: &mut Network, count: u8) -> Result<(), NetFault>
    requires { count < 9 }
    ensures { OnOk result (network.new ≡ record network.old { routes = network.old.routes ++ line_routes count }) }
{
    let first = over(at_station(b'X', 0), name(b"w"), at_station(b'a', 1));
    let from_west = route_over(
        alloc,
        name(b"estart"),
        name(b"West"),
        at_station(b'H', 1),
        first,
    )?;
    network.add_route(alloc, from_west)?;
    let last = over(at_station(b'X', count), name(b"z"), at_station(b'f', count));
    let to = at_station(b'G', count);
    network.add_route(
        alloc,
        route_over(alloc, name(b"wstart"), name(b"East"), to, last)?,
    )?;
    for k in 1..count + 1 {
        add_station_routes(alloc, network, count, k)?;
    }
    Ok(())
}
