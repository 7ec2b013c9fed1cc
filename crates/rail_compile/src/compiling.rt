//! From a scene to its plant.

ghost use Rattle.std.specs.Prelude.{◌≡◌, suc, None, IsTrue, IfOk, IfErr, OnOk};
ghost use Rattle.rail_rules.specs.Accepted.{is_accepted};
ghost use Rattle.rail_base.specs.declared.refusals.Fault.TheVariants.{Refused};
ghost use Rattle.rail_scene.specs.Scenes.{IsScene};
ghost use Rattle.rail_base.specs.FirstRefusals.{first_failing};
ghost use Rattle.rail_scene.specs.Scenes.{is_fit_train};
ghost use Rattle.rail_compile.specs.Itineraries.{plant_of_scene, train_row, with_trains};
ghost use Rattle.rail_compile.specs.RowTypes.{is_typed_row};
ghost use Rattle.rail_base.specs.Refusals.{AnswersFirst};
ghost use Rattle.rail_compile.specs.Refusals.{compile_refusal, fault_for, of_train, train_tests};
ghost use Rattle.rail_compile.specs.Ways.{AreLookups};

use crate::compiling::itineraries::of_train;
use crate::compiling::kinds::kind_names;
use crate::compiling::spelling::tables_of;
use crate::compiling::trains::train_moves;
use crate::compiling::ways::{Ways, ways_of};
use indexmap::IndexSet;
use rail_base::{Fault, Name, OutOfMemory, Part, Reason, Refusal, TrainNo};
use rail_plan::{LentMove, PlanFault, Plant};
use rail_scene::{Scene, SceneTrain};
use std::alloc::Global;

mod itineraries;
mod kinds;
mod moves;
mod spelling;
mod trains;
mod ways;

/// What is looked up of a scene, whatever its trains are: so it is made once for all plants that are compiled of the scene
/// with other trains.
#[derive(Drop)]
pub struct Lookups {
    /// The names of the kinds, in their order.
    pub kinds: IndexSet<Name>,
    pub ways: Ways,
}

impl Lookups {
    /// That of the scene.
    pub fn of_scene(alloc: Global, scene: &Scene) -> Result<Lookups, OutOfMemory>
        requires { IsScene scene.now }
        ensures { IfOk result (AreLookups scene.now) }
    {
        let kinds = kind_names(alloc, scene.kinds.as_slice())?;
        let ways = ways_of(alloc, &scene.network)?;
        Ok(Lookups { kinds, ways })
    }
}

/// The plant of the scene, which has no calls.
///
/// It is refused train by train, and for a train by the first of these that holds: as unknown, where no
/// kind has the name of its kind, at step 2, or no route one of the names of its routes, at step 5; as no
/// portal, where its first route does not begin at one, at step 0; as broken, at the first place where the
/// next route does not begin at the signal where the last one ended, and no turn leads there; as no
/// portal, where its last route does not end at one, at the last place. Where no train is refused so, it
/// is refused as `Plant::new` refuses its tables, at the place. Items and places count from 1.
pub fn compile(alloc: Global, scene: &Scene) -> Result<Plant, Fault>
    requires { IsScene scene.now }
    ensures accepted { OnOk result (compile_refusal scene.now ≡ None) }
    ensures spelled { IfOk result (λ plant. plant ≡ plant_of_scene scene.now) }
    ensures valid { IfOk result (λ plant. IsTrue (is_accepted plant)) }
    ensures refused { IfErr result (AnswersFirst (compile_refusal scene.now)) }
{
    let lookups = Lookups::of_scene(alloc, scene)?;
    compile_with(alloc, scene, &lookups, scene.trains.as_slice())
}

/// The plant of the scene with these trains in place of its own, which has no calls. It is refused as `compile` refuses
/// the scene with these trains.
fn compile_with(
    alloc: Global,
    scene: &Scene,
    lookups: &Lookups,
    trains: &[SceneTrain],
) -> Result<Plant, Fault>
    requires scene { IsScene (with_trains scene.now trains.now) }
    requires lookups { AreLookups scene.now lookups.now }
    ensures accepted { OnOk result (compile_refusal (with_trains scene.now trains.now) ≡ None) }
    ensures spelled { IfOk result (λ plant. plant ≡ plant_of_scene (with_trains scene.now trains.now)) }
    ensures valid { IfOk result (λ plant. IsTrue (is_accepted plant)) }
    ensures refused { IfErr result (AnswersFirst (compile_refusal (with_trains scene.now trains.now))) }
{
    let tables = tables_of(alloc, scene, &lookups.kinds, &lookups.ways, trains)?;
    match Plant::new(alloc, tables) {
        Ok(plant) => Ok(plant),
        Err(fault) => Err(fault_for(fault)),
    }
}

/// The moves of one train, which counts from 1 among those of the scene, or the first refusal of it for its kind or its
/// itinerary. They are lent by what was looked up, so that no row is copied.
pub fn compile_moves<'a>(
    alloc: Global,
    scene: &Scene,
    lookups: &'a Lookups,
    item: u32,
    train: &SceneTrain,
) -> Result<Vec<LentMove<'a>>, Fault>
    requires lookups { AreLookups scene.now lookups.now }
    requires train { IsTrue (is_fit_train train.now) }
    ensures accepted { OnOk result (first_failing (train_tests scene.now item train.now) ≡ None) }
    ensures moves { IfOk result (λ moves. moves.items ≡ (train_row scene.now train.now).moves) }
    ensures typed { IsTrue (is_typed_row (train_row scene.now train.now)) }
    ensures refused { IfErr result (AnswersFirst (first_failing (train_tests scene.now item train.now))) }
{
    train_moves(alloc, scene, &lookups.kinds, &lookups.ways, item, train)
}

/// What a scene is refused for whose plant has this fault.
pub fn fault_for(fault: PlanFault) -> Fault
    ensures { result ≡ fault_for fault }
{
    match fault {
        PlanFault::TooLong { train, place } => at_place(Reason::TooLong, train, place),
        PlanFault::SelfBlocked { train, place, .. } => at_place(Reason::SelfBlocked, train, place),
        PlanFault::OutOfMemory => Fault::OutOfMemory,
    }
}

/// The refusal of the train at the place.
fn at_place(reason: Reason, train: TrainNo, place: u16) -> Fault
    ensures { result ≡ Refused (of_train reason (suc train) place) }
{
    Fault::Refused(of_train(reason, u32::from(train.0) + 1, u32::from(place)))
}
