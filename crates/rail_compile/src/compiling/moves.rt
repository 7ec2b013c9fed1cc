//! The moves over the routes of an itinerary.

ghost use Rattle.std.specs.Prelude.{◌≡◌, ◌+◌, ◌<◌, drop, get_or, length, IsTrue, IfOk};
ghost use Rattle.rail_compile.specs.Itineraries.{moves_over, turn_before};
ghost use Rattle.rail_routes.specs.Net.{no_route};
ghost use Rattle.rail_compile.specs.Ways.{AreWays, are_numbers, routes_at};

use crate::compiling::itineraries::{route_in, turn_between, way_in};
use crate::compiling::ways::Ways;
use rail_base::{MoveRow, Seq, TurnRow};
use rail_plan::LentMove;
use rail_routes::Network;
use std::alloc::{AllocError, Global};

/// The moves over the routes of these numbers.
pub fn moves_over(
    alloc: Global,
    network: &Network,
    ways: &Ways,
    numbers: &[usize],
) -> Result<Vec<MoveRow>, AllocError>
    requires ways { AreWays network.now ways.now }
    requires numbers { IsTrue (are_numbers network.now numbers.now) }
    ensures { IfOk result (λ moves. moves.items ≡ moves_over network.now (routes_at network.now numbers.now)) }
{
    let mut moves = Vec::with_capacity(alloc, numbers.len())?;
    for index in 0..numbers.len() {
        let way = way_in(network, ways, numbers, index);
        let turn = turn_after(network, numbers, index);
        moves.push(with_turn(alloc, &way.row, turn)?)?;
    }
    Ok(moves)
}

/// The moves over the routes of these numbers, lent by the ways.
pub fn lent_over<'a>(
    alloc: Global,
    network: &Network,
    ways: &'a Ways,
    numbers: &[usize],
) -> Result<Vec<LentMove<'a>>, AllocError>
    requires ways { AreWays network.now ways.now }
    requires numbers { IsTrue (are_numbers network.now numbers.now) }
    ensures { IfOk result (λ moves. moves.items ≡ moves_over network.now (routes_at network.now numbers.now)) }
{
    let mut moves = Vec::with_capacity(alloc, numbers.len())?;
    for index in 0..numbers.len() {
        let way = way_in(network, ways, numbers, index);
        moves.push(LentMove::new(&way.row, turn_after(network, numbers, index)))?;
    }
    Ok(moves)
}

/// The turn at the end of the route at the index, where there is one.
fn turn_after(network: &Network, numbers: &[usize], index: usize) -> Option<TurnRow>
    requires numbers { IsTrue (are_numbers network.now numbers.now) }
    requires within { index < length numbers.now }
    ensures { result ≡ let routes = routes_at network.now numbers.now in
        turn_before network.now (get_or routes index no_route) (drop (index + 1) routes) }
{
    if index + 1 == numbers.len() {
        return None;
    }
    let route = route_in(network, numbers, index);
    let next = route_in(network, numbers, index + 1);
    turn_between(network, route, next)
}

/// The row with this turn.
fn with_turn(alloc: Global, row: &MoveRow, turn: Option<TurnRow>) -> Result<MoveRow, AllocError>
    ensures { IfOk result (λ made. made ≡ record row.now { turn = turn }) }
{
    let sections = row.sections.as_slice().to_vec(alloc)?;
    let overlap = row.overlap.as_slice().to_vec(alloc)?;
    Ok(MoveRow {
        sections: Seq::from_vec(sections),
        overlap: Seq::from_vec(overlap),
        setting: row.setting,
        watching: row.watching,
        approach: row.approach,
        turn,
    })
}
