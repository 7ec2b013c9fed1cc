//! Which answer a proposal gets.

ghost use Rattle.std.specs.Prelude.{◌≡◌, ◌≤◌, ◌<◌, ◌^◌, ◌+◌, ◌==◌, ℕ, IfOk, IfSome, IsErr, IsTrue, MatchOption, None, Ok, length, nat_lt, slice_index};
ghost use Rattle.rail_base.specs.declared.limits.TheConstants.{ITINERARY_ROUTES};
ghost use Rattle.rail_base.specs.Refusals.{refusal_in};
ghost use Rattle.rail_compile.specs.Itineraries.{plant_of_scene};
ghost use Rattle.rail_compile.specs.Refusals.{are_known, compile_refusal};
ghost use Rattle.rail_rules.specs.Places.{is_valid_state};
ghost use Rattle.rail_rules.specs.Plant.{moves, moves_of};
ghost use Rattle.rail_scene.specs.Scenes.{IsScene};
ghost use Rattle.rail_reroute.specs.Judgements.{IsJudged};
ghost use Rattle.rail_reroute.specs.declared.judgements.Judged.TheVariants.{Refused};

use crate::judges::Judge;
use rail_base::limits::ITINERARY_ROUTES;
use rail_base::{Fault, Name, OutOfMemory, Reason, SectionNo, Seq, TrainNo};
use rail_compile::compile;
use rail_scene::Scene;
use std::alloc::Global;

/// The answer to a proposal.
#[derive(Debug, Drop)]
pub enum Judged {
    /// The train has made all its moves.
    Out,
    /// The train can't have the new itinerary, for this reason, at this place of it. It has too many routes, at place 0;
    /// or it is broken, begins or ends at no portal, or the train is too long or blocks its own way there.
    Refused {
        reason: Reason,
        place: u16,
    },
    /// Two trains would hold one section where they stand.
    Overlap {
        section: SectionNo,
        first: TrainNo,
        second: TrainNo,
    },
    /// No list of legs within the depth brings every train inside to its exit.
    NoList,
    /// A list that does.
    List(Seq<TrainNo>),
}

/// Whether the train has made all its moves at the place.
pub fn is_out_at(scene: &Scene, train: TrainNo, place: u16) -> bool
    requires { train < length scene.now.trains }
    ensures { result ≡ (place == moves (plant_of_scene scene.now) train) }
{
    let row = &scene.trains.as_slice()[usize::from(train.0)];
    usize::from(place) == row.routes.as_slice().len()
}

/// Whether an itinerary with these routes behind the place has more than the limit.
pub fn is_too_many(place: u16, routes: &[Name]) -> bool
    requires { place ≤ ITINERARY_ROUTES }
    ensures { result ≡ nat_lt ITINERARY_ROUTES (place + length routes.now) }
{
    routes.len() > ITINERARY_ROUTES - usize::from(place)
}

/// That the new itinerary is refused so.
pub fn refused_for(fault: Fault) -> Result<Judged, OutOfMemory>
    requires { IfSome (refusal_in fault) (λ refusal. refusal.step < 2 ^ 16) }
    ensures { MatchOption (refusal_in fault) (IsErr result) (λ refusal. result ≡ Ok (Refused refusal.reason refusal.step)) }
{
    match fault {
        Fault::Refused(refusal) => Ok(Judged::Refused {
            reason: refusal.reason,
            place: refusal.step as u16,
        }),
        Fault::OutOfMemory => Err(OutOfMemory),
    }
}
