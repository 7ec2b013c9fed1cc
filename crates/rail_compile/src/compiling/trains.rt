//! The trains of the plant, or which of them is refused for its kind or its itinerary.

ghost use Rattle.std.specs.Prelude.{◌≡◌, ℕ, ◌+◌, ◌<◌, get_or, length, map, take, None, IsTrue, IfOk, IfErr, IfSome, OnOk};
ghost use Rattle.std.specs.Bool.{Decides};
ghost use Rattle.std.specs.List.{list_all};
ghost use Rattle.rail_base.specs.declared.plant.TrainKind.{TrainKind};
ghost use Rattle.rail_base.specs.FirstRefusals.{first_failing};
ghost use Rattle.rail_base.specs.Refusals.{AnswersFirst};
ghost use Rattle.rail_scene.specs.declared.scene.SceneTrain.{SceneTrain};
ghost use Rattle.rail_scene.specs.Scenes.{IsScene, is_fit_train};
ghost use Rattle.rail_compile.specs.Itineraries.{routes_of, train_row, with_trains};
ghost use Rattle.rail_compile.specs.Refusals.{train_tests, trains_tests};
ghost use Rattle.rail_compile.specs.RowTypes.{is_typed_row};
ghost use Rattle.rail_compile.specs.Ways.{AreWays, are_numbers, routes_at};

use crate::compiling::itineraries::{of_train, route_numbers, route_refusal};
use crate::compiling::kinds::kind_of;
use crate::compiling::moves::{lent_over, moves_over};
use crate::compiling::ways::Ways;
use indexmap::IndexSet;
use rail_base::{Fault, MoveRow, Name, Reason, Shared, Time, TrainKind, TrainRow};
use rail_plan::LentMove;
use rail_scene::{Scene, SceneTrain};
use std::alloc::Global;

/// So many trains before a train are looked at for one with its itinerary.
const TRAINS_BEFORE: usize = 8;

/// The rows of the trains, or the first refusal of one, train by train. The names are those of the kinds.
pub fn train_rows(
    alloc: Global,
    scene: &Scene,
    kinds: &IndexSet<Name>,
    ways: &Ways,
    trains: &[SceneTrain],
) -> Result<Vec<TrainRow>, Fault>
    requires scene { IsScene (with_trains scene.now trains.now) }
    requires kinds { kinds.now.keys ≡ map (λ (kind : TrainKind). kind.name) scene.now.kinds }
    requires ways { AreWays scene.now.network ways.now }
    ensures accepted { OnOk result (first_failing (trains_tests (with_trains scene.now trains.now) 1 trains.now) ≡ None) }
    ensures rows { IfOk result (λ rows. rows.items ≡ map (train_row (with_trains scene.now trains.now)) trains.now) }
    ensures typed { IfOk result (λ rows. IsTrue (list_all is_typed_row rows.items)) }
    ensures refused { IfErr result (AnswersFirst (first_failing (trains_tests (with_trains scene.now trains.now) 1 trains.now))) }
{
    let mut rows = Vec::with_capacity(alloc, trains.len())?;
    for (index, train) in trains.iter().enumerate() {
        let row = row_at(
            alloc,
            scene,
            kinds,
            ways,
            trains,
            index,
            train,
            rows.as_slice(),
        )?;
        if rows.push(row).is_err() {
            return Err(Fault::OutOfMemory);
        }
    }
    Ok(rows)
}

/// The row of the train at the index behind the rows before it, or its first refusal.
fn row_at(
    alloc: Global,
    scene: &Scene,
    kinds: &IndexSet<Name>,
    ways: &Ways,
    trains: &[SceneTrain],
    index: usize,
    train: &SceneTrain,
    rows: &[TrainRow],
) -> Result<TrainRow, Fault>
    requires scene { IsScene (with_trains scene.now trains.now) }
    requires kinds { kinds.now.keys ≡ map (λ (kind : TrainKind). kind.name) scene.now.kinds }
    requires ways { AreWays scene.now.network ways.now }
    requires train { IsTrue (is_fit_train train.now) }
    requires within { index < length trains.now }
    requires rows { rows.now ≡ map (train_row (with_trains scene.now trains.now)) (take index trains.now) }
    requires passed { (k : ℕ) (before : SceneTrain) → k < index → before ≡ get_or trains.now k before →
        first_failing (train_tests (with_trains scene.now trains.now) (k + 1) before) ≡ None }
    ensures accepted { OnOk result (first_failing (train_tests (with_trains scene.now trains.now) (index + 1) train.now) ≡ None) }
    ensures row { IfOk result (λ row. row ≡ train_row (with_trains scene.now trains.now) train.now) }
    ensures typed { IfOk result (λ row. IsTrue (is_typed_row row)) }
    ensures refused { IfErr result (AnswersFirst (first_failing (train_tests (with_trains scene.now trains.now) (index + 1) train.now))) }
{
    let item = index as u32 + 1;
    if let Some(number) = train_before(trains, index, train.routes.as_slice()) {
        let before = &trains[number];
        let row = &rows[number];
        return row_behind(scene, kinds, item, train, before, row);
    }
    train_row(alloc, scene, kinds, ways, item, train)
}

/// The nearest train before the one at the index that has this itinerary, among the last few of them.
fn train_before(trains: &[SceneTrain], index: usize, routes: &[Name]) -> Option<usize>
    requires { index < length trains.now }
    ensures before { IfSome result (λ before. before < index) }
    ensures same { IfSome result (λ before. (train : SceneTrain) → train ≡ get_or trains.now before train → train.routes ≡ routes.now) }
{
    for back in 0..index.min(TRAINS_BEFORE) {
        let before = index - 1 - back;
        if are_same(trains[before].routes.as_slice(), routes) {
            return Some(before);
        }
    }
    None
}

/// The row of a train that has the itinerary and so the moves of one before it, or its first refusal.
fn row_behind(
    scene: &Scene,
    kinds: &IndexSet<Name>,
    item: u32,
    train: &SceneTrain,
    before: &SceneTrain,
    row: &TrainRow,
) -> Result<TrainRow, Fault>
    requires kinds { kinds.now.keys ≡ map (λ (kind : TrainKind). kind.name) scene.now.kinds }
    requires same { before.now.routes ≡ train.now.routes }
    requires row { row.now ≡ train_row scene.now before.now }
    requires passed { first_failing (train_tests scene.now item before.now) ≡ None }
    ensures accepted { OnOk result (first_failing (train_tests scene.now item train.now) ≡ None) }
    ensures row { IfOk result (λ row. row ≡ train_row scene.now train.now) }
    ensures typed { IfOk result (λ row. IsTrue (is_typed_row row)) }
    ensures refused { IfErr result (AnswersFirst (first_failing (train_tests scene.now item train.now))) }
{
    if !kinds.contains(&train.kind) {
        return Err(Fault::Refused(of_train(Reason::Unknown, item, 2)));
    }
    let kind = kind_of(scene.kinds.as_slice(), kinds, train.kind);
    let moves = row.moves.share()?;
    Ok(typed_row(train.name, kind, train.entry, train.priority, moves))
}

/// Whether the names are the same, in the same order.
fn are_same(names: &[Name], others: &[Name]) -> bool
    ensures { Decides result (names.now ≡ others.now) }
{
    names == others
}

/// The row of a train, or its first refusal.
pub fn train_row(
    alloc: Global,
    scene: &Scene,
    kinds: &IndexSet<Name>,
    ways: &Ways,
    item: u32,
    train: &SceneTrain,
) -> Result<TrainRow, Fault>
    requires kinds { kinds.now.keys ≡ map (λ (kind : TrainKind). kind.name) scene.now.kinds }
    requires ways { AreWays scene.now.network ways.now }
    requires train { IsTrue (is_fit_train train.now) }
    ensures accepted { OnOk result (first_failing (train_tests scene.now item train.now) ≡ None) }
    ensures row { IfOk result (λ row. row ≡ train_row scene.now train.now) }
    ensures typed { IfOk result (λ row. IsTrue (is_typed_row row)) }
    ensures refused { IfErr result (AnswersFirst (first_failing (train_tests scene.now item train.now))) }
{
    let numbers = itinerary_of(alloc, scene, kinds, ways, item, train)?;
    let kind = kind_of(scene.kinds.as_slice(), kinds, train.kind);
    let moves = Shared::from_vec(alloc, moves_over(alloc, &scene.network, ways, &numbers)?)?;
    Ok(typed_row(train.name, kind, train.entry, train.priority, moves))
}

/// The moves of a train, lent by the ways, or its first refusal. Its name is a name by its type.
pub fn train_moves<'a>(
    alloc: Global,
    scene: &Scene,
    kinds: &IndexSet<Name>,
    ways: &'a Ways,
    item: u32,
    train: &SceneTrain,
) -> Result<Vec<LentMove<'a>>, Fault>
    requires kinds { kinds.now.keys ≡ map (λ (kind : TrainKind). kind.name) scene.now.kinds }
    requires ways { AreWays scene.now.network ways.now }
    requires train { IsTrue (is_fit_train train.now) }
    ensures accepted { OnOk result (first_failing (train_tests scene.now item train.now) ≡ None) }
    ensures moves { IfOk result (λ moves. moves.items ≡ (train_row scene.now train.now).moves) }
    ensures typed { IsTrue (is_typed_row (train_row scene.now train.now)) }
    ensures refused { IfErr result (AnswersFirst (first_failing (train_tests scene.now item train.now))) }
{
    prove!(!train.name.as_bytes().is_empty());
    prove!(train.priority <= 255);
    let numbers = itinerary_of(alloc, scene, kinds, ways, item, train)?;
    Ok(lent_over(alloc, &scene.network, ways, &numbers)?)
}

/// The numbers of the routes of the train's itinerary, or its first refusal.
fn itinerary_of(
    alloc: Global,
    scene: &Scene,
    kinds: &IndexSet<Name>,
    ways: &Ways,
    item: u32,
    train: &SceneTrain,
) -> Result<Vec<usize>, Fault>
    requires kinds { kinds.now.keys ≡ map (λ (kind : TrainKind). kind.name) scene.now.kinds }
    requires ways { AreWays scene.now.network ways.now }
    requires train { IsTrue (is_fit_train train.now) }
    ensures accepted { OnOk result (first_failing (train_tests scene.now item train.now) ≡ None) }
    ensures numbers { IfOk result (λ numbers. IsTrue (are_numbers scene.now.network numbers.items)) }
    ensures routes { IfOk result (λ numbers. routes_at scene.now.network numbers.items ≡ routes_of scene.now.network train.now.routes) }
    ensures refused { IfErr result (AnswersFirst (first_failing (train_tests scene.now item train.now))) }
{
    if !kinds.contains(&train.kind) {
        return Err(Fault::Refused(of_train(Reason::Unknown, item, 2)));
    }
    let Some(numbers) = route_numbers(alloc, &ways.names, train.routes.as_slice())? else {
        return Err(Fault::Refused(of_train(Reason::Unknown, item, 5)));
    };
    match route_refusal(&scene.network, ways, item, &numbers) {
        Some(refusal) => Err(Fault::Refused(refusal)),
        None => Ok(numbers),
    }
}

/// A row of these values. Its name is a name by its type.
fn typed_row(
    name: Name,
    kind: TrainKind,
    entry: Time,
    priority: u8,
    moves: Shared<MoveRow>,
) -> TrainRow
    ensures row { result ≡ record { name = name; kind = kind; entry = entry; priority = priority; moves = moves } }
    ensures typed { IsTrue (is_typed_row result) }
{
    prove!(!name.as_bytes().is_empty());
    TrainRow {
        name,
        kind,
        entry,
        priority,
        moves,
    }
}
