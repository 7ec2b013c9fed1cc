//! Whether the routes of an itinerary follow one another.

ghost use Rattle.std.specs.Prelude.{◌≡◌, ◌<◌, ◌≤◌, get_or, length, map, is_some, position, IsTrue, IfOk, IfSome};
ghost use Rattle.std.specs.List.{list_all};
ghost use Rattle.rail_base.specs.declared.limits.TheConstants.{ITINERARY_ROUTES, ROUTE_SECTIONS};
ghost use Rattle.rail_base.specs.FirstRefusals.{first_failing};
ghost use Rattle.rail_routes.specs.Net.{guards, no_route};
ghost use Rattle.rail_compile.specs.Itineraries.{goes_on_to, may_leave, runs_on, turn_between, turn_step};
ghost use Rattle.rail_compile.specs.Refusals.{of_train, place_tests, route_tests};
ghost use Rattle.rail_compile.specs.Ways.{AreWays, are_numbers, is_among, place_among, routes_at, way_over};

use crate::compiling::ways::{Way, Ways};
use indexmap::IndexSet;
use rail_base::{Name, Part, Reason, Refusal, TurnRow};
use rail_routes::{Network, Post, Route, Step};
use std::alloc::{AllocError, Global};

/// A refusal of a train, at a step of it.
pub fn of_train(reason: Reason, item: u32, step: u32) -> Refusal
    ensures { result ≡ of_train reason item step }
{
    Refusal {
        reason,
        part: Part::Train,
        item,
        step,
    }
}

/// The numbers of the routes of these names: `None` where one of them is the name of none.
pub fn route_numbers(
    alloc: Global,
    names: &IndexSet<Name>,
    itinerary: &[Name],
) -> Result<Option<Vec<usize>>, AllocError>
    ensures known { IfOk result (λ numbers. is_some numbers ≡ list_all (is_among names.now.keys) itinerary.now) }
    ensures numbers { IfOk result (λ numbers. IfSome numbers (λ found. found.items ≡ map (place_among names.now.keys) itinerary.now)) }
{
    let mut numbers = Vec::with_capacity(alloc, itinerary.len())?;
    for name in itinerary {
        let Some(number) = names.get_index_of(name) else {
            return Ok(None);
        };
        numbers.push(number)?;
    }
    Ok(Some(numbers))
}

/// The first refusal of an itinerary, by the numbers of its routes: it does not begin at a portal; from a
/// route the train can't go on to the next one; it does not end at a portal.
pub fn route_refusal(
    network: &Network,
    ways: &Ways,
    item: u32,
    numbers: &[usize],
) -> Option<Refusal>
    requires ways { AreWays network.now ways.now }
    requires numbers { IsTrue (are_numbers network.now numbers.now) }
    requires some { 1 ≤ length numbers.now }
    requires few { length numbers.now ≤ ITINERARY_ROUTES }
    ensures { result ≡ first_failing (route_tests network.now item (routes_at network.now numbers.now)) }
{
    let first = way_in(network, ways, numbers, 0);
    if !first.begins_at_portal {
        return Some(of_train(Reason::NotPortal, item, 0));
    }
    let broken = place_refusal(network, ways, item, numbers);
    if broken.is_some() {
        return broken;
    }
    let last = way_in(network, ways, numbers, numbers.len() - 1);
    if !last.ends_at_portal {
        return Some(of_train(Reason::NotPortal, item, numbers.len() as u32));
    }
    None
}

/// The first place at which the train can't go on.
fn place_refusal(network: &Network, ways: &Ways, item: u32, numbers: &[usize]) -> Option<Refusal>
    requires ways { AreWays network.now ways.now }
    requires numbers { IsTrue (are_numbers network.now numbers.now) }
    requires few { length numbers.now ≤ ITINERARY_ROUTES }
    ensures { result ≡ first_failing (place_tests network.now item 1 (routes_at network.now numbers.now)) }
{
    for place in 1..numbers.len() {
        let way = way_in(network, ways, numbers, place - 1);
        let route = route_in(network, numbers, place - 1);
        let next = route_in(network, numbers, place);
        if !goes_on_to(network, way, route, next) {
            return Some(of_train(Reason::ItineraryBroken, item, place as u32));
        }
    }
    None
}

/// The way over the route at the index of the itinerary.
pub fn way_in<'a>(network: &Network, ways: &'a Ways, numbers: &[usize], index: usize) -> &'a Way
    requires ways { AreWays network.now ways.now }
    requires numbers { IsTrue (are_numbers network.now numbers.now) }
    requires within { index < length numbers.now }
    ensures { result.now ≡ way_over network.now (get_or (routes_at network.now numbers.now) index no_route) }
{
    &ways.items[numbers[index]]
}

/// The route at the index of the itinerary.
pub fn route_in<'a>(network: &'a Network, numbers: &[usize], index: usize) -> &'a Route
    requires numbers { IsTrue (are_numbers network.now numbers.now) }
    requires within { index < length numbers.now }
    ensures route { result.now ≡ get_or (routes_at network.now numbers.now) index no_route }
    ensures few { length result.now.steps ≤ ROUTE_SECTIONS }
{
    &network.routes()[numbers[index]]
}

/// Whether a train may go on from the route to the next one: straight on at a signal, or by a turn.
fn goes_on_to(network: &Network, way: &Way, route: &Route, next: &Route) -> bool
    requires way { way.now ≡ way_over network.now route.now }
    requires few { length route.now.steps ≤ ROUTE_SECTIONS }
    ensures { result ≡ goes_on_to network.now route.now next.now }
{
    runs_on(network, way, route, next) || turn_between(network, route, next).is_some()
}

/// Whether the route ends at the signal where the next one begins.
fn runs_on(network: &Network, way: &Way, route: &Route, next: &Route) -> bool
    requires { way.now ≡ way_over network.now route.now }
    ensures { result ≡ runs_on network.now route.now next.now }
{
    route.to == next.from && way.ends_at_signal
}

/// The turn from the end of the route to the beginning of the next one, at the first step over which a
/// train may leave there.
pub fn turn_between(network: &Network, route: &Route, next: &Route) -> Option<TurnRow>
    requires { length route.now.steps ≤ ROUTE_SECTIONS }
    ensures { result ≡ turn_between network.now route.now next.now }
{
    let turn = network.turn(route.to, next.from)?;
    let step = turn_step(network, route, next)?;
    Some(TurnRow {
        step: step as u16 + 1,
        time: turn.time,
    })
}

/// The first step of the route, counted from 0, over which a train may leave from where the next route
/// begins.
fn turn_step(network: &Network, route: &Route, next: &Route) -> Option<usize>
    ensures { result ≡ turn_step network.now route.now next.now }
{
    let leaving = network.post(next.from)?;
    leaving_step(&leaving, route.steps.as_slice())
}

/// The first step, counted from 0, over which a train may leave from the signal.
fn leaving_step(leaving: &Post, steps: &[Step]) -> Option<usize>
    ensures { result ≡ position (may_leave leaving.now) steps.now }
{
    steps.iter().position(|step| may_leave(leaving, step))
}

/// Whether a train that came over the step may leave from the signal.
fn may_leave(leaving: &Post, step: &Step) -> bool
    ensures { result ≡ may_leave leaving.now step.now }
{
    leaving.joint == step.from && !guards(leaving, step.section)
}

/// Whether the post has this section ahead by name.
fn guards(post: &Post, section: Name) -> bool
    ensures { result ≡ guards section post.now }
{
    match post.ahead {
        Some(ahead) => section == ahead,
        None => false,
    }
}
