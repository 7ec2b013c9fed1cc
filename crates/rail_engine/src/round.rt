//! The next line of a run.

ghost use Rattle.std.specs.Prelude.{◌≡◌, ℕ, ◌≢◌, ◌≤◌, Some, true, false, IsTrue, IsNone, IfSome, vec_capacity};
ghost use Rattle.rail_base.specs.declared.limits.TheConstants.{TRAINS};
ghost use Rattle.rail_base.specs.declared.history.What.TheVariants.{Told};
ghost use Rattle.rail_base.specs.declared.orders.PolicyKind.TheVariants.{Custom};
ghost use Rattle.rail_engine.specs.PolicyTurns.{AdmitsNobody, AsksFirst, TellsDesks};
ghost use Rattle.rail_engine.specs.Desks.{after_orders};
ghost use Rattle.rail_engine.specs.Engines.{ContinuesRuns, StaysDesk};
ghost use Rattle.rail_ledger.specs.Inputs.{input_in};
ghost use Rattle.rail_ledger.specs.Ledgers.{GivesEntry, IsAt, IsSettled, IsSomewhere, MayGoOn, StandsAsBefore};
ghost use Rattle.rail_ledger.specs.declared.ledger.Listed.TheVariants as which;
ghost use Rattle.rail_policy.specs.Desks.{seat_in_force};
ghost use Rattle.rail_queue.specs.Order.{first_time_of, is_sorted};
ghost use Rattle.rail_rules.specs.Fronts.{Front, is_admission};
ghost use Rattle.rail_rules.specs.Orders.{orders_of};
ghost use Rattle.rail_state.specs.Representation.{AreAllKnown};

use crate::attempt::attempt;
use crate::offers::{offer, pick};
use rail_base::{Command, Entry, Order, PolicyKind, What};
use rail_ledger::{Ledger, Listed};
use rail_policy::{Desk, Offer, Seen};

/// A round of decisions.
pub(crate) struct Round {
    /// The trains that are offered; between two lines it means nothing.
    pub(crate) offers: Vec<Offer>,
    /// Whether every train was offered at this instant since the last admission. Then each one that waits has a
    /// known cause, which no hold line changes: nobody is looked at or offered until the next event.
    pub(crate) is_over: bool,
}

impl Drop for Round {
    fn drop(self) {
        let Round {
            offers: _offers,
            is_over: _,
        } = self;
    }
}

/// The next line; `None` after the end line. A custom policy in force is asked at each instant with a round, and
/// a policy of a built-in kind where some train could go.
#[inline(always)]
pub(crate) fn next_line(ledger: &mut Ledger, round: &mut Round, desk: &mut Desk) -> Option<Entry>
    requires running { IsSomewhere ledger.old }
    requires room { TRAINS ≤ vec_capacity round.old.offers }
    requires over { round.old.is_over ≡ true → AreAllKnown ledger.old.input.plant ledger.old.state.trains }
    ensures input { ledger.new.input ≡ ledger.old.input }
    ensures room { vec_capacity round.new.offers ≡ vec_capacity round.old.offers }
    ensures over { round.new.is_over ≡ true → AreAllKnown ledger.new.input.plant ledger.new.state.trains }
    ensures ended { IsNone result → (ledger.old.state.has_ended ≡ true) × (ledger.new ≡ ledger.old) }
    ensures desk { let table = ⟦<Desk as Seen>⟧.table in IsNone result → table desk.new ≡ table desk.old }
    ensures going { IfSome result (λ entry. ledger.old.state.has_ended ≡ false) }
    ensures line { IfSome result (GivesEntry ledger.old ledger.new) }
    ensures run { let table = ⟦<Desk as Seen>⟧.table in
        IfSome result (ContinuesRuns ledger.old ledger.new (table desk.old) (table desk.new)) }
    ensures asked { let table = ⟦<Desk as Seen>⟧.table in
        IfSome result (AsksFirst ledger.old (table desk.old) (table desk.new)) }
    ensures told { let table = ⟦<Desk as Seen>⟧.table in
        IfSome result (TellsDesks ledger.old (table desk.old) (table desk.new)) }
{
    if ledger.state.has_ended {
        return None;
    }
    ledger.listed = Listed::Nothing;
    let all = offers_all(ledger, round, desk);
    if ledger.may_go_on() {
        return Some(go_on(ledger, round, desk));
    }
    match decide(ledger, round, desk, all) {
        Some(entry) => Some(entry),
        None => Some(go_on(ledger, round, desk)),
    }
}

/// Whether all trains that wait are offered: a custom policy in force is asked about each of them at each instant
/// with a round, and so the round is held, whatever is settled.
fn offers_all(ledger: &mut Ledger, round: &Round, desk: &Desk) -> bool
    requires { IsSomewhere ledger.old }
    ensures input { ledger.new.input ≡ ledger.old.input }
    ensures ended { ledger.new.state.has_ended ≡ ledger.old.state.has_ended }
    ensures listed { ledger.new.listed ≡ ledger.old.listed }
    ensures at { StandsAsBefore ledger.old ledger.new }
    ensures over { round.now.is_over ≡ true → ledger.new ≡ ledger.old }
    ensures all { (seat_in_force (⟦<Desk as Seen>⟧.table desk.now)).kind ≡ Custom → round.now.is_over ≡ false → result ≡ true }
{
    if round.is_over {
        return false;
    }
    match desk.kind_in_force() {
        PolicyKind::Custom => {
            ledger.decide_again();
            true
        }
        _ => false,
    }
}

/// The line of the next event, or the end line where there is none. The desk is told the order that it tells.
// In line down to the queue: most lines are made here, and then none is handed on through memory.
#[inline(always)]
fn go_on(ledger: &mut Ledger, round: &mut Round, desk: &mut Desk) -> Entry
    requires running { IsSomewhere ledger.old }
    requires going { ledger.old.state.has_ended ≡ false }
    requires may { MayGoOn ledger.old }
    requires unlisted { ledger.old.listed ≡ which.Nothing }
    ensures input { ledger.new.input ≡ ledger.old.input }
    ensures room { vec_capacity round.new.offers ≡ vec_capacity round.old.offers }
    ensures over { round.new.is_over ≡ false }
    ensures line { GivesEntry ledger.old ledger.new result }
    ensures run { let table = ⟦<Desk as Seen>⟧.table in ContinuesRuns ledger.old ledger.new (table desk.old) (table desk.new) result }
    ensures kind { is_admission result.what ≡ false }
    ensures told { let table = ⟦<Desk as Seen>⟧.table in
        table desk.new ≡ after_orders (orders_of ledger.old.input.commands.items result.what) (table desk.old) }
{
    round.is_over = false;
    let entry = ledger.go_on();
    tell_desk(desk, &ledger.input.commands, &entry.what);
    entry
}

/// The desk is told the order of the command that a line tells. Commands count from 1.
#[inline(always)]
pub(crate) fn tell_desk(desk: &mut Desk, commands: &[Command], what: &What)
    requires { (k : ℕ) → what.now ≡ Told k → 1 ≤ k }
    ensures { let table = ⟦<Desk as Seen>⟧.table in
        table desk.new ≡ after_orders (orders_of commands.now what.now) (table desk.old) }
{
    let What::Told { command } = what else {
        return;
    };
    let Some(command) = commands.get(usize::from(*command) - 1) else {
        return;
    };
    // A policy that a told order names is there, and in force it is not retired.
    match &command.what {
        Order::Policy(name) => {
            let _ = desk.exchange(*name);
        }
        Order::Retire(name) => {
            let _ = desk.retire(*name);
        }
        _ => {}
    }
}

/// An admission or a hold line, where there is one at this instant, at which nothing is pending.
#[inline(always)]
fn decide(ledger: &mut Ledger, round: &mut Round, desk: &mut Desk, all: bool) -> Option<Entry>
    requires running { IsSomewhere ledger.old }
    requires going { ledger.old.state.has_ended ≡ false }
    requires unsettled { ledger.old.state.is_settled ≡ false }
    requires none_due { first_time_of ledger.old.state.queue.events ≢ Some ledger.old.state.instant }
    requires sorted { IsTrue (is_sorted ledger.old.state.queue.events) }
    requires unlisted { ledger.old.listed ≡ which.Nothing }
    requires room { TRAINS ≤ vec_capacity round.old.offers }
    requires over { round.old.is_over ≡ true → AreAllKnown ledger.old.input.plant ledger.old.state.trains }
    requires all { (seat_in_force (⟦<Desk as Seen>⟧.table desk.old)).kind ≡ Custom → round.old.is_over ≡ false → all ≡ true }
    ensures input { ledger.new.input ≡ ledger.old.input }
    ensures room { vec_capacity round.new.offers ≡ vec_capacity round.old.offers }
    ensures over { IfSome result (λ entry. round.new.is_over ≡ true → AreAllKnown ledger.new.input.plant ledger.new.state.trains) }
    ensures line { IfSome result (GivesEntry ledger.old ledger.new) }
    ensures run { let table = ⟦<Desk as Seen>⟧.table in
        IfSome result (ContinuesRuns ledger.old ledger.new (table desk.old) (table desk.new)) }
    ensures asked { let table = ⟦<Desk as Seen>⟧.table in
        IfSome result (AsksFirst ledger.old (table desk.old) (table desk.new)) }
    ensures told { let table = ⟦<Desk as Seen>⟧.table in
        IfSome result (TellsDesks ledger.old (table desk.old) (table desk.new)) }
    ensures nobody { let table = ⟦<Desk as Seen>⟧.table in
        IsNone result → (front : Front) → IsAt front ledger.old → AdmitsNobody (input_in ledger.old.input) front (table desk.old) (table desk.new) }
    ensures none { IsNone result → IsSettled ledger.old ledger.new }
    ensures desk { let table = ⟦<Desk as Seen>⟧.table in IsNone result → StaysDesk ledger.old (table desk.old) (table desk.new) }
{
    if round.is_over {
        return ledger.hold();
    }
    offer(&mut round.offers, ledger, all);
    while !round.offers.is_empty() {
        let train = pick(&mut round.offers, desk);
        if let Some(entry) = attempt(ledger, train) {
            desk.noted(train);
            return Some(entry);
        }
    }
    round.is_over = true;
    ledger.hold()
}
