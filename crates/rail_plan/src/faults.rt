//! Why tables are no plant.

ghost use Rattle.std.specs.Prelude.{◌≡◌, ℕ, ◌-◌, ◌<◌, ◌≤◌, IsTrue, get_or, length, map};
ghost use Rattle.rail_base.specs.declared.limits.TheConstants.{ITINERARY_ROUTES};
ghost use Rattle.rail_rules.specs.Accepted.{is_move_in_range};
ghost use Rattle.rail_rules.specs.Plant.{no_move};
ghost use Rattle.rail_plan.specs.PlanFaults.{IsPlannable, bare, fault_over, first_answer, standing_of};

use crate::lent::LentMove;
use crate::standing::{first_claimed, route_length};
use rail_base::{OutOfMemory, SectionNo, Tables, TrainNo};
use rail_place::SectionLists;
use std::alloc::AllocError;

/// Why tables are no plant. Trains count from 0, places from 1.
#[derive(Clone, Copy, Debug, PartialEq, Eq)]
pub enum PlanFault {
    /// The train is longer than the sections of the route that leads to this place, where it is to stand.
    TooLong {
        train: TrainNo,
        place: u16,
    },
    /// At this place the train would stand on this section, which its next move claims; it is the first
    /// such of its route and its overlap, in order.
    SelfBlocked {
        train: TrainNo,
        place: u16,
        section: SectionNo,
    },
    /// Memory was not found.
    OutOfMemory,
}

impl From<AllocError> for PlanFault {
    ghost use Rattle.rail_plan.specs.declared.faults.PlanFault.TheVariants as fault;

    ghost from_gives = { λ _ e. e ≡ fault.OutOfMemory };

    fn from(_: AllocError) -> PlanFault {
        PlanFault::OutOfMemory
    }
}

impl From<OutOfMemory> for PlanFault {
    ghost use Rattle.rail_plan.specs.declared.faults.PlanFault.TheVariants as fault;

    ghost from_gives = { λ _ e. e ≡ fault.OutOfMemory };

    fn from(_: OutOfMemory) -> PlanFault {
        PlanFault::OutOfMemory
    }
}

/// The first fault of a train of so many metres that makes these moves, place by place.
pub fn first_fault(
    tables: &Tables,
    train: TrainNo,
    metres: u32,
    moves: &[LentMove<'_>],
    stands: &SectionLists,
) -> Option<PlanFault>
    requires tables { IsPlannable tables.now }
    requires few { length moves.now ≤ ITINERARY_ROUTES }
    requires fine { (m : ℕ) → m < length moves.now → IsTrue (is_move_in_range (length tables.now.sections) (get_or moves.now m no_move)) }
    requires stands { stands.now ≡ map (standing_of (bare tables.now) metres) moves.now }
    ensures { result ≡ first_answer (fault_over (bare tables.now) train metres moves.now) (length moves.now - 1) }
{
    for place in 1..moves.len() as u16 {
        let fault = place_fault(tables, train, metres, moves, stands, place);
        if fault.is_some() {
            return fault;
        }
    }
    None
}

/// The fault of the train at a place that is not its last.
fn place_fault(
    tables: &Tables,
    train: TrainNo,
    metres: u32,
    moves: &[LentMove<'_>],
    stands: &SectionLists,
    place: u16,
) -> Option<PlanFault>
    requires tables { IsPlannable tables.now }
    requires fine { (m : ℕ) → m < length moves.now → IsTrue (is_move_in_range (length tables.now.sections) (get_or moves.now m no_move)) }
    requires stands { stands.now ≡ map (standing_of (bare tables.now) metres) moves.now }
    requires first { 1 ≤ place }
    requires inside { place < length moves.now }
    ensures { result ≡ fault_over (bare tables.now) train metres moves.now (place - 1) }
{
    let index = usize::from(place) - 1;
    if route_length(tables, &moves[index]) < metres {
        return Some(PlanFault::TooLong { train, place });
    }
    let section = first_claimed(&moves[index + 1], stands.at(index))?;
    Some(PlanFault::SelfBlocked {
        train,
        place,
        section,
    })
}
