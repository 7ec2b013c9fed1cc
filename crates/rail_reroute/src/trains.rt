//! The trains of a scene, of which one takes other routes.

ghost use Rattle.std.specs.Prelude.{◌≡◌, ◌≤◌, length, IfOk};
ghost use Rattle.rail_reroute.specs.Judgements.{rerouted_train};

use rail_base::{Name, Seq};
use rail_scene::SceneTrain;
use std::alloc::{AllocError, Global};

/// The train with its itinerary up to the place, and these routes behind it.
pub fn rerouted_train(
    alloc: Global,
    train: &SceneTrain,
    place: u16,
    routes: &[Name],
) -> Result<SceneTrain, AllocError>
    requires { place ≤ length train.now.routes }
    ensures { IfOk result (λ made. made ≡ rerouted_train train.now place routes.now) }
{
    let kept = &train.routes.as_slice()[..usize::from(place)];
    let mut itinerary = Vec::with_capacity(alloc, kept.len().saturating_add(routes.len()))?;
    itinerary.extend_from_slice(kept)?;
    itinerary.extend_from_slice(routes)?;
    Ok(with_routes(train, itinerary))
}

/// The train with this itinerary.
fn with_routes(train: &SceneTrain, routes: Vec<Name>) -> SceneTrain
    ensures { result ≡ record train.now { routes = routes.items } }
{
    SceneTrain {
        name: train.name,
        kind: train.kind,
        entry: train.entry,
        priority: train.priority,
        routes: Seq::from_vec(routes),
    }
}
