//! The routes of a network, with what each gives to the itineraries over it looked up once.

ghost use Rattle.std.specs.Prelude.{◌≡◌, map, Some, None, IsTrue, IfOk};
ghost use Rattle.rail_routes.specs.declared.items.Route.{Route};
ghost use Rattle.rail_routes.specs.declared.items.Step.{Step};
ghost use Rattle.rail_routes.specs.Net.{post_named};
ghost use Rattle.rail_routes.specs.SoundNetworks.{is_sound_route};
ghost use Rattle.rail_compile.specs.Itineraries.{move_over, number_of};
ghost use Rattle.std.specs.List.{list_all};
ghost use Rattle.rail_compile.specs.Ways.{AreWays, is_known_step, way_over};

use indexmap::IndexSet;
use rail_base::limits::SECTIONS;
use rail_base::{MoveRow, Name, SectionNo, Seq};
use rail_routes::{Network, Post, PostRole, Route, Step};
use std::alloc::{AllocError, Global};

/// What a route gives to each itinerary over it.
#[derive(Drop)]
pub struct Way {
    /// The move over the route, without a turn.
    pub row: MoveRow,
    pub begins_at_portal: bool,
    pub ends_at_portal: bool,
    pub ends_at_signal: bool,
}

/// The routes of a network by their names, each with its way, in the order of the network.
#[derive(Drop)]
pub struct Ways {
    pub names: IndexSet<Name>,
    pub items: Vec<Way>,
}

/// The ways of the network.
pub fn ways_of(alloc: Global, network: &Network) -> Result<Ways, AllocError>
    ensures { IfOk result (λ ways. AreWays network.now ways) }
{
    let names = route_names(alloc, network)?;
    let items = way_items(alloc, network)?;
    Ok(Ways { names, items })
}

/// The names of the routes in their order.
fn route_names(alloc: Global, network: &Network) -> Result<IndexSet<Name>, AllocError>
    ensures { IfOk result (λ names. names.keys ≡ map (λ (route : Route). route.name) network.now.routes) }
{
    let mut names = IndexSet::with_capacity(alloc, network.routes().len())?;
    for route in network.routes() {
        names.insert(route.name)?;
    }
    Ok(names)
}

/// The way over each route, in their order.
fn way_items(alloc: Global, network: &Network) -> Result<Vec<Way>, AllocError>
    ensures { IfOk result (λ ways. ways.items ≡ map (way_over network.now) network.now.routes) }
{
    let mut ways = Vec::with_capacity(alloc, network.routes().len())?;
    for route in network.routes() {
        ways.push(way_over(alloc, network, route)?)?;
    }
    Ok(ways)
}

/// The way over the route.
fn way_over(alloc: Global, network: &Network, route: &Route) -> Result<Way, AllocError>
    requires { IsTrue (is_sound_route network.now route.now) }
    ensures { IfOk result (λ way. way ≡ way_over network.now route.now) }
{
    let begin = network.post(route.from).unwrap();
    let end = network.post(route.to).unwrap();
    let row = move_over(alloc, network, route, &begin)?;
    Ok(Way {
        row,
        begins_at_portal: matches!(begin.role, PostRole::Portal),
        ends_at_portal: matches!(end.role, PostRole::Portal),
        ends_at_signal: matches!(end.role, PostRole::Signal),
    })
}

/// The move over a route and its overlap that begins at the post, without a turn.
fn move_over(
    alloc: Global,
    network: &Network,
    route: &Route,
    begin: &Post,
) -> Result<MoveRow, AllocError>
    requires route { IsTrue (is_sound_route network.now route.now) }
    requires begin { post_named route.now.from network.now ≡ Some begin.now }
    ensures { IfOk result (λ row. row ≡ move_over network.now route.now None) }
{
    let sections = numbers_of(alloc, network, route.steps.as_slice())?;
    let overlap = numbers_of(alloc, network, route.overlap.as_slice())?;
    Ok(MoveRow {
        sections: Seq::from_vec(sections),
        overlap: Seq::from_vec(overlap),
        setting: begin.setting,
        watching: begin.watching,
        approach: begin.approach,
        turn: None,
    })
}

/// The numbers of the sections of the steps, in their order.
fn numbers_of(
    alloc: Global,
    network: &Network,
    steps: &[Step],
) -> Result<Vec<SectionNo>, AllocError>
    requires { IsTrue (list_all (is_known_step network.now.sections) steps.now) }
    ensures { IfOk result (λ numbers. numbers.items ≡ map (λ (step : Step). number_of network.now step.section) steps.now) }
{
    // A network is sound at any time, as its sections tell.
    prove!(network.sections().len() <= SECTIONS);
    let mut numbers = Vec::with_capacity(alloc, steps.len())?;
    for step in steps {
        let index = network.section_index(step.section).unwrap();
        numbers.push(SectionNo(index as u16))?;
    }
    Ok(numbers)
}
