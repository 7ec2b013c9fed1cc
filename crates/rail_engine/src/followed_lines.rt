//! A line of a run that was made before is followed.

ghost use Rattle.std.specs.Prelude.{◌≡◌, ◌≢◌, ℕ, ◌<◌, ◌≤◌, Some, true, false, IsTrue, length, vec_capacity};
ghost use Rattle.rail_base.specs.declared.history.Note.{Note};
ghost use Rattle.rail_base.specs.declared.history.What.TheVariants.{Admit};
ghost use Rattle.rail_base.specs.declared.limits.TheConstants.{TRAINS};
ghost use Rattle.rail_base.specs.declared.orders.PolicyKind.TheVariants.{Custom};
ghost use Rattle.rail_engine.specs.Desks.{after_orders};
ghost use Rattle.rail_engine.specs.Engines.{StaysDesk};
ghost use Rattle.rail_engine.specs.FollowedLines.{AdmitsInRun, ContinuesNoRun, FollowsRuns, IsAskedAlone, IsNotedAlone, LetsAnotherGo, LetsGoFirst, RefusesRuns};
ghost use Rattle.rail_engine.specs.Rounds.{HasTriedTrain};
ghost use Rattle.rail_laws_end.specs.Forks.{is_built_in};
ghost use Rattle.rail_policy.specs.Desks.{seat_in_force};
ghost use Rattle.rail_queue.specs.Order.{first_time_of, is_sorted};
ghost use Rattle.rail_ledger.specs.Inputs.{input_in};
ghost use Rattle.rail_ledger.specs.Ledgers.{AreAlike, AreUnbarred, IsAt, IsDeciding, IsSomewhere, StandsAsBefore, TakesLine, admission, line_taken, line_with, list_in, list_with, trains_taken};
ghost use Rattle.rail_rules.specs.Causes.{could_go};
ghost use Rattle.rail_rules.specs.RunHistories.{repairs_first};
ghost use Rattle.rail_rules.specs.Fronts.{Front, is_admission, is_hold};
ghost use Rattle.rail_rules.specs.Orders.{orders_of};
ghost use Rattle.rail_state.specs.Representation.{AreAllKnown, list_for};
ghost use Rattle.rail_state.specs.TrainStates.{is_untried, state_of};

use crate::offers::{offer, pick};
use crate::round::{Round, tell_desk};
use rail_base::{Entry, Note, PolicyKind, Time, TrainNo, What};
use rail_ledger::Ledger;
use rail_policy::{Desk, Seen};

/// Takes a line that is no admission: true exactly where the lines so far with it are those of a run.
pub(crate) fn follow_other(
    ledger: &mut Ledger,
    round: &mut Round,
    desk: &mut Desk,
    entry: Entry,
    list: &[TrainNo],
) -> bool
    requires running { IsSomewhere ledger.old }
    requires over { round.old.is_over ≡ true → AreAllKnown ledger.old.input.plant ledger.old.state.trains }
    requires going { ledger.old.state.has_ended ≡ false }
    requires other { is_admission entry.what ≡ false }
    ensures input { ledger.new.input ≡ ledger.old.input }
    ensures room { vec_capacity round.new.offers ≡ vec_capacity round.old.offers }
    ensures over { round.new.is_over ≡ true → AreAllKnown ledger.new.input.plant ledger.new.state.trains }
    ensures line { IsTrue result → TakesLine ledger.old ledger.new (line_with entry list.now) }
    ensures run { let table = ⟦<Desk as Seen>⟧.table in
        IsTrue result → FollowsRuns ledger.old ledger.new (table desk.old) (table desk.new) (line_with entry list.now) }
    ensures listed { IsTrue result → list_in ledger.new ≡ list.now }
    ensures orders { let table = ⟦<Desk as Seen>⟧.table in IsTrue result
        → table desk.new ≡ after_orders (orders_of ledger.old.input.commands.items entry.what) (table desk.old) }
    ensures refused { let table = ⟦<Desk as Seen>⟧.table in
        result ≡ false → RefusesRuns ledger.old (table desk.old) (line_with entry list.now) }
    ensures unchanged { result ≡ false → StandsAsBefore ledger.old ledger.new }
    ensures unlisted { result ≡ false → list_in ledger.new ≡ list_in ledger.old }
    ensures desk { let table = ⟦<Desk as Seen>⟧.table in result ≡ false → table desk.new ≡ table desk.old }
{
    let listed = ledger.listed;
    match ledger.take_other(entry, list, round.is_over) {
        Some(_) => {
            ledger.listed = listed;
            false
        }
        None => {
            round.is_over = is_hold(&entry.what);
            tell_desk(desk, &ledger.input.commands, &entry.what);
            true
        }
    }
}

/// Whether this is a hold line.
fn is_hold(what: &What) -> bool
    ensures { result ≡ is_hold what.now }
{
    matches!(what, What::Hold { .. })
}

/// Whether a train that nothing bars, if its cause is not known, could go. Where no list is known, that is its cause then.
pub(crate) fn could_go(ledger: &mut Ledger, train: TrainNo) -> bool
    requires running { IsSomewhere ledger.old }
    requires deciding { IsDeciding ledger.old }
    requires unbarred { AreUnbarred ledger.old }
    requires train { train < length ledger.old.state.trains }
    ensures alike { AreAlike ledger.old ledger.new }
    ensures at { StandsAsBefore ledger.old ledger.new }
    ensures exact { (front : Front) → IsAt front ledger.old → result ≡ could_go (input_in ledger.old.input) front train }
    ensures same { IsTrue result → ledger.new.state.trains ≡ ledger.old.state.trains }
    ensures tried { result ≡ false → HasTriedTrain ledger.old ledger.new train }
{
    if !ledger.state.trains.get(train).is_untried() {
        return false;
    }
    ledger.knows_list(train)
}

/// Whether the policy in force, which is of a built-in kind, would let the train go first of those that could go.
pub(crate) fn goes_first(
    ledger: &mut Ledger,
    round: &mut Round,
    desk: &mut Desk,
    train: TrainNo,
) -> bool
    requires running { IsSomewhere ledger.old }
    requires going { ledger.old.state.has_ended ≡ false }
    requires unsettled { ledger.old.state.is_settled ≡ false }
    requires none_due { first_time_of ledger.old.state.queue.events ≢ Some ledger.old.state.instant }
    requires sorted { IsTrue (is_sorted ledger.old.state.queue.events) }
    requires room { TRAINS ≤ vec_capacity round.old.offers }
    requires built_in { is_built_in (seat_in_force (⟦<Desk as Seen>⟧.table desk.old)).kind ≡ true }
    requires train { train < length ledger.old.state.trains }
    ensures input { ledger.new.input ≡ ledger.old.input }
    ensures at { StandsAsBefore ledger.old ledger.new }
    ensures unbarred { IsTrue result → AreUnbarred ledger.new }
    ensures room { vec_capacity round.new.offers ≡ vec_capacity round.old.offers }
    ensures over { round.new.is_over ≡ round.old.is_over }
    ensures alike { AreAlike ledger.old ledger.new }
    ensures desk { let table = ⟦<Desk as Seen>⟧.table in StaysDesk ledger.old (table desk.old) (table desk.new) }
    ensures asked { let table = ⟦<Desk as Seen>⟧.table in IsAskedAlone (table desk.old) (table desk.new) }
    ensures first { let table = ⟦<Desk as Seen>⟧.table in IsTrue result → LetsGoFirst ledger.old (table desk.old) train }
    ensures other { let table = ⟦<Desk as Seen>⟧.table in result ≡ false → LetsAnotherGo ledger.old (table desk.old) train }
{
    offer(&mut round.offers, ledger, false);
    while !round.offers.is_empty() {
        let picked = pick(&mut round.offers, desk);
        if picked == train {
            return true;
        }
        if could_go(ledger, picked) {
            return false;
        }
    }
    false
}

/// Takes an admission of this train: true exactly where it may follow, the train could go, and repair goes before a fresh
/// list. Else what is kept stands for the lines so far.
pub(crate) fn admit_as(
    ledger: &mut Ledger,
    at: Time,
    train: TrainNo,
    place: u16,
    note: Note,
    list: &[TrainNo],
) -> bool
    requires running { IsSomewhere ledger.old }
    requires going { ledger.old.state.has_ended ≡ false }
    requires unsettled { ledger.old.state.is_settled ≡ false }
    requires none_due { first_time_of ledger.old.state.queue.events ≢ Some ledger.old.state.instant }
    requires sorted { IsTrue (is_sorted ledger.old.state.queue.events) }
    requires unbarred { AreUnbarred ledger.old }
    requires train { train < length ledger.old.state.trains }
    ensures input { ledger.new.input ≡ ledger.old.input }
    ensures taken { IsTrue result → AdmitsInRun ledger.old ledger.new train note (admission at train place note list.now) }
    ensures listed { IsTrue result → ledger.new.listed ≡ list_with note }
    ensures refused { result ≡ false → ContinuesNoRun ledger.old (admission at train place note list.now) }
    ensures unlisted { result ≡ false → ledger.new.listed ≡ ledger.old.listed }
    ensures unchanged { result ≡ false → StandsAsBefore ledger.old ledger.new }
{
    if !could_go(ledger, train) {
        return false;
    }
    if !repairs_first(ledger, train, note) {
        return false;
    }
    match ledger.take_admission(at, train, place, note, list, false) {
        Some(_) => false,
        None => true,
    }
}

/// Whether repair goes before a fresh list where the train's next move, which could be made, is admitted with this note.
fn repairs_first(ledger: &mut Ledger, train: TrainNo, note: Note) -> bool
    requires running { IsSomewhere ledger.old }
    requires deciding { IsDeciding ledger.old }
    requires unbarred { AreUnbarred ledger.old }
    requires train { train < length ledger.old.state.trains }
    requires untried { is_untried (state_of ledger.old.state.trains train) ≡ true }
    ensures alike { AreAlike ledger.old ledger.new }
    ensures at { StandsAsBefore ledger.old ledger.new }
    ensures exact { (front : Front) → IsAt front ledger.old → result ≡ repairs_first (input_in ledger.old.input) front train note }
{
    match note {
        Note::Fresh => !ledger.is_repairable(train),
        Note::Pulled => true,
        Note::Appended => true,
    }
}

/// Whether the policy in force lets the train go first of those that could go. A custom one lets every train go first,
/// and is not asked.
fn lets_go_first(ledger: &mut Ledger, round: &mut Round, desk: &mut Desk, train: TrainNo) -> bool
    requires running { IsSomewhere ledger.old }
    requires going { ledger.old.state.has_ended ≡ false }
    requires unsettled { ledger.old.state.is_settled ≡ false }
    requires none_due { first_time_of ledger.old.state.queue.events ≢ Some ledger.old.state.instant }
    requires sorted { IsTrue (is_sorted ledger.old.state.queue.events) }
    requires room { TRAINS ≤ vec_capacity round.old.offers }
    requires train { train < length ledger.old.state.trains }
    ensures alike { AreAlike ledger.old ledger.new }
    ensures at { StandsAsBefore ledger.old ledger.new }
    ensures unbarred { IsTrue result → AreUnbarred ledger.new }
    ensures room { vec_capacity round.new.offers ≡ vec_capacity round.old.offers }
    ensures over { round.new.is_over ≡ round.old.is_over }
    ensures desk { let table = ⟦<Desk as Seen>⟧.table in StaysDesk ledger.old (table desk.old) (table desk.new) }
    ensures asked { let table = ⟦<Desk as Seen>⟧.table in IsAskedAlone (table desk.old) (table desk.new) }
    ensures first { let table = ⟦<Desk as Seen>⟧.table in IsTrue result → LetsGoFirst ledger.old (table desk.old) train }
    ensures other { let table = ⟦<Desk as Seen>⟧.table in result ≡ false → LetsAnotherGo ledger.old (table desk.old) train }
{
    if is_custom(desk.kind_in_force()) {
        ledger.look();
        return true;
    }
    goes_first(ledger, round, desk, train)
}

/// Whether this is the kind of a custom policy.
fn is_custom(kind: PolicyKind) -> bool
    ensures custom { IsTrue result → kind ≡ Custom }
    ensures built_in { result ≡ false → is_built_in kind ≡ true }
{
    matches!(kind, PolicyKind::Custom)
}

/// Takes an admission of this train: true exactly where the lines so far with it are those of a run.
fn follow_admission(
    ledger: &mut Ledger,
    round: &mut Round,
    desk: &mut Desk,
    at: Time,
    train: TrainNo,
    place: u16,
    note: Note,
    list: &[TrainNo],
) -> bool
    requires running { IsSomewhere ledger.old }
    requires room { TRAINS ≤ vec_capacity round.old.offers }
    requires over { round.old.is_over ≡ true → AreAllKnown ledger.old.input.plant ledger.old.state.trains }
    requires going { ledger.old.state.has_ended ≡ false }
    ensures input { ledger.new.input ≡ ledger.old.input }
    ensures room { vec_capacity round.new.offers ≡ vec_capacity round.old.offers }
    ensures over { round.new.is_over ≡ true → AreAllKnown ledger.new.input.plant ledger.new.state.trains }
    ensures line { IsTrue result → TakesLine ledger.old ledger.new (admission at train place note list.now) }
    ensures run { let table = ⟦<Desk as Seen>⟧.table in IsTrue result
        → FollowsRuns ledger.old ledger.new (table desk.old) (table desk.new) (admission at train place note list.now) }
    ensures listed { IsTrue result → list_in ledger.new ≡ list_for note list.now }
    ensures noted { let table = ⟦<Desk as Seen>⟧.table in IsTrue result → IsNotedAlone (table desk.old) (table desk.new) train }
    ensures refused { let table = ⟦<Desk as Seen>⟧.table in
        result ≡ false → RefusesRuns ledger.old (table desk.old) (admission at train place note list.now) }
    ensures unchanged { result ≡ false → StandsAsBefore ledger.old ledger.new }
    ensures unlisted { result ≡ false → list_in ledger.new ≡ list_in ledger.old }
    ensures desk { let table = ⟦<Desk as Seen>⟧.table in result ≡ false → StaysDesk ledger.old (table desk.old) (table desk.new) }
    ensures asked { let table = ⟦<Desk as Seen>⟧.table in result ≡ false → IsAskedAlone (table desk.old) (table desk.new) }
{
    if round.is_over {
        return false;
    }
    if ledger.may_go_on() {
        return false;
    }
    if train.0 >= ledger.input.plant.moves().trains() {
        return false;
    }
    if !lets_go_first(ledger, round, desk, train) {
        return false;
    }
    if !admit_as(ledger, at, train, place, note, list) {
        return false;
    }
    desk.noted(train);
    true
}

/// Takes a line of a run that was made before, with the list of a fresh admission or the trains that an end line names:
/// true exactly where the lines so far with it are those of a run.
pub(crate) fn follow_line(
    ledger: &mut Ledger,
    round: &mut Round,
    desk: &mut Desk,
    entry: Entry,
    list: &[TrainNo],
) -> bool
    requires running { IsSomewhere ledger.old }
    requires room { TRAINS ≤ vec_capacity round.old.offers }
    requires over { round.old.is_over ≡ true → AreAllKnown ledger.old.input.plant ledger.old.state.trains }
    ensures somewhere { IsSomewhere ledger.new }
    ensures input { ledger.new.input ≡ ledger.old.input }
    ensures room { vec_capacity round.new.offers ≡ vec_capacity round.old.offers }
    ensures over { round.new.is_over ≡ true → AreAllKnown ledger.new.input.plant ledger.new.state.trains }
    ensures line { IsTrue result → TakesLine ledger.old ledger.new (line_taken entry list.now) }
    ensures run { let table = ⟦<Desk as Seen>⟧.table in
        IsTrue result → FollowsRuns ledger.old ledger.new (table desk.old) (table desk.new) (line_taken entry list.now) }
    ensures listed { IsTrue result → list_in ledger.new ≡ trains_taken entry.what list.now }
    ensures noted { let table = ⟦<Desk as Seen>⟧.table in IsTrue result → (t m : ℕ) (note : Note) → entry.what ≡ Admit t m note
        → IsNotedAlone (table desk.old) (table desk.new) t }
    ensures orders { let table = ⟦<Desk as Seen>⟧.table in IsTrue result → is_admission entry.what ≡ false
        → table desk.new ≡ after_orders (orders_of ledger.old.input.commands.items entry.what) (table desk.old) }
    ensures refused { let table = ⟦<Desk as Seen>⟧.table in
        result ≡ false → RefusesRuns ledger.old (table desk.old) (line_taken entry list.now) }
    ensures unchanged { result ≡ false → StandsAsBefore ledger.old ledger.new }
    ensures unlisted { result ≡ false → list_in ledger.new ≡ list_in ledger.old }
    ensures desk { let table = ⟦<Desk as Seen>⟧.table in result ≡ false → StaysDesk ledger.old (table desk.old) (table desk.new) }
    ensures asked { let table = ⟦<Desk as Seen>⟧.table in result ≡ false → IsAskedAlone (table desk.old) (table desk.new) }
{
    if ledger.state.has_ended {
        return false;
    }
    let what = entry.what;
    match what {
        What::Admit { train, place, note } => {
            follow_admission(ledger, round, desk, entry.at, train, place, note, list)
        }
        _ => follow_other(ledger, round, desk, entry, list),
    }
}
