//! What is done to each train of a set.

ghost use Rattle.std.specs.Prelude.{◌≡◌, ℕ, ◌<◌, ◌≤◌, [], ◌∷◌, true, false, length, set, IsTrue, MatchOption, None};
ghost use Rattle.std.specs.Option.{ForSome};
ghost use Rattle.rail_rules.specs.Numbers.{comes_before};
ghost use Rattle.rail_rules.specs.Plant.{moves, trains};
ghost use Rattle.rail_state.specs.TrainStates.{AreAtFirst, IsReadyFirst, after_taking, bar_by, is_blocked_at, is_untried, looked_at, state_of, state_told, turn, without_known};
ghost use Rattle.rail_base.specs.declared.limits.TheConstants.{SECTIONS, TRAINS};
ghost use Rattle.rail_sets.specs.TrainSets.{has_train};
ghost use Rattle.rail_state.specs.TrainSearches.{AreBlockedAt, AreSetsOf, earlier};

use crate::blocked_at::BlockedAt;
use crate::train::TrainState;
use crate::train_sets::TrainSets;
use rail_base::{Order, SectionNo, Time, TrainNo};
use rail_holders::Holders;
use rail_orders::ToldOrders;
use rail_plan::Plant;
use rail_sets::TrainSet;

/// Looks at each untried train. Of those that are untried then, the one that was ready first, and of several that
/// the one with the least number.
#[inline(never)]
pub(crate) fn look_at_each(
    rows: &mut [TrainState],
    plant: &Plant,
    orders: &ToldOrders,
    holders: &Holders,
    sets: &mut TrainSets,
    blocked: &mut BlockedAt,
) -> Option<TrainNo>
    requires few { length rows.old ≤ TRAINS }
    requires sets { AreSetsOf rows.old sets.old }
    requires known { length rows.old ≡ trains plant.now }
    requires sections { length holders.now ≡ length plant.now.tables.sections }
    requires moves { (t : ℕ) → t < trains plant.now → (state_of rows.old t).waits ≡ true
        → (state_of rows.old t).place < moves plant.now t }
    ensures length { length rows.new ≡ length rows.old }
    ensures looked { (t : ℕ) → state_of rows.new t ≡ looked_at plant.now (bar_by orders.now holders.now) t (state_of rows.old t) }
    ensures first { MatchOption result ((t : ℕ) → is_untried (state_of rows.new t) ≡ false)
        (λ train. (train < length rows.new) × IsReadyFirst rows.new train) }
    ensures sets { AreSetsOf rows.new sets.new }
    ensures blocked { AreBlockedAt rows.old blocked.old → AreBlockedAt rows.new blocked.new }
{
    let mut first = None;
    let mut left = sets.untried;
    while let Some(train) = left.take_first() {
        if look_at(rows, train, plant, orders, holders, sets, blocked) {
            first = Some(earlier(rows, first, train));
        }
    }
    first
}

/// Looks at this train, which is untried. Whether it is so then.
fn look_at(
    rows: &mut [TrainState],
    train: TrainNo,
    plant: &Plant,
    orders: &ToldOrders,
    holders: &Holders,
    sets: &mut TrainSets,
    blocked: &mut BlockedAt,
) -> bool
    requires few { length rows.old ≤ TRAINS }
    requires train { train < length rows.old }
    requires known { length rows.old ≡ trains plant.now }
    requires sections { length holders.now ≡ length plant.now.tables.sections }
    requires moves { (state_of rows.old train).place < moves plant.now train }
    requires untried { is_untried (state_of rows.old train) ≡ true }
    ensures rows { rows.new ≡ set rows.old train (looked_at plant.now (bar_by orders.now holders.now) train (state_of rows.old train)) }
    ensures answer { result ≡ is_untried (state_of rows.new train) }
    ensures sets { AreSetsOf rows.old sets.old → AreSetsOf rows.new sets.new }
    ensures blocked { AreBlockedAt rows.old blocked.old → AreBlockedAt rows.new blocked.new }
{
    let train_state = &mut rows[usize::from(train.0)];
    train_state.look(plant, orders, holders, train);
    sets.note_look(train, train_state);
    has_few_sections(plant);
    train_state.note_in(blocked, train);
    train_state.is_untried()
}

/// The numbers of the plant's sections are small.
fn has_few_sections(plant: &Plant)
    ensures { length plant.now.tables.sections ≤ SECTIONS }
{
    plant.names();
}

/// Of the first one so far and this train, the one that comes before the other.
fn earlier(rows: &[TrainState], first: Option<TrainNo>, train: TrainNo) -> TrainNo
    requires train { train < length rows.now }
    requires first { ForSome first (λ u. u < length rows.now) }
    ensures { result ≡ earlier rows.now first train }
{
    match first {
        Some(other) if !comes_before(rows, train, other) => other,
        _ => train,
    }
}

/// Whether the train is ready before the other one, or at once with a lesser number.
fn comes_before(rows: &[TrainState], train: TrainNo, other: TrainNo) -> bool
    requires train { train < length rows.now }
    requires other { other < length rows.now }
    ensures { result ≡ comes_before (turn rows.now train) (turn rows.now other) }
{
    let ready = ready_of(rows, train);
    let other_ready = ready_of(rows, other);
    ready < other_ready || (ready == other_ready && train.0 < other.0)
}

/// When the train is ready for its next move.
fn ready_of(rows: &[TrainState], train: TrainNo) -> Time
    requires { train < length rows.now }
    ensures { result ≡ (state_of rows.now train).times.next_ready }
{
    rows[usize::from(train.0)].times.next_ready
}

/// The causes of those of these trains that were blocked at this section are no longer known. Whether there were any.
/// All that were blocked at it are among these.
pub(crate) fn look_again_at_each(
    rows: &mut [TrainState],
    blocked: TrainSet,
    section: SectionNo,
    sets: &mut TrainSets,
) -> bool
    requires blocked { (t : ℕ) → is_blocked_at section (state_of rows.old t).known ≡ true → has_train blocked t ≡ true }
    requires sets { AreSetsOf rows.old sets.old }
    ensures length { length rows.new ≡ length rows.old }
    ensures rows { (t : ℕ) → state_of rows.new t ≡ without_known section (state_of rows.old t) }
    ensures any { result ≡ false → (t : ℕ) → is_blocked_at section (state_of rows.old t).known ≡ false }
    ensures some { result ≡ true → (t : ℕ) × (is_blocked_at section (state_of rows.old t).known ≡ true) }
    ensures sets { AreSetsOf rows.new sets.new }
{
    let mut any = false;
    let mut left = blocked;
    while let Some(train) = left.take_first() {
        let index = usize::from(train.0);
        if index < rows.len() {
            if rows[index].forget(section) {
                sets.note_forgotten(train, &rows[index]);
                any = true;
            }
        }
    }
    any
}

/// Tells each train that waits the order.
pub(crate) fn tell_each(rows: &mut [TrainState], plant: &Plant, order: &Order, sets: &mut TrainSets)
    requires few { length rows.old ≤ TRAINS }
    requires sets { AreSetsOf rows.old sets.old }
    requires known { length rows.old ≡ trains plant.now }
    requires moves { (t : ℕ) → t < trains plant.now → (state_of rows.old t).waits ≡ true
        → (state_of rows.old t).place < moves plant.now t }
    requires waits { (t : ℕ) → (state_of rows.old t).waits ≡ false → (state_of rows.old t).known ≡ None }
    ensures length { length rows.new ≡ length rows.old }
    ensures told { (t : ℕ) → state_of rows.new t ≡ state_told plant.now (order.now ∷ []) t (state_of rows.old t) }
    ensures sets { AreSetsOf rows.new sets.new }
{
    let mut left = sets.waiting;
    while let Some(train) = left.take_first() {
        let train_state = &mut rows[usize::from(train.0)];
        train_state.tell(plant, order, train);
        sets.note(train, train_state);
    }
}

/// A train took sections, which leaves these holders: each train notes it whose cause that may change.
pub(crate) fn note_taking_each(
    rows: &mut [TrainState],
    plant: &Plant,
    holders: &Holders,
    sets: &mut TrainSets,
)
    requires few { length rows.old ≤ TRAINS }
    requires sets { AreSetsOf rows.old sets.old }
    requires known { length rows.old ≡ trains plant.now }
    requires sections { length holders.now ≡ length plant.now.tables.sections }
    requires moves { (t : ℕ) → t < trains plant.now → (state_of rows.old t).waits ≡ true
        → (state_of rows.old t).place < moves plant.now t }
    requires waits { (t : ℕ) → (state_of rows.old t).waits ≡ false → (state_of rows.old t).known ≡ None }
    requires at_first_section { AreAtFirst plant.now rows.old }
    ensures length { length rows.new ≡ length rows.old }
    ensures noted { (t : ℕ) → state_of rows.new t ≡ after_taking plant.now holders.now t (state_of rows.old t) }
    ensures sets { AreSetsOf rows.new sets.new }
{
    let mut left = sets.changeable;
    while let Some(train) = left.take_first() {
        let train_state = &mut rows[usize::from(train.0)];
        if !train_state.note_taking(plant, holders, train) {
            sets.note_forgotten(train, train_state);
        }
    }
}
