//! The offers of a round.

ghost use Rattle.std.specs.Prelude.{◌≡◌, ◌<◌, ◌≤◌, ℕ, true, length, vec_capacity};
ghost use Rattle.rail_base.specs.declared.limits.TheConstants.{TRAINS};
ghost use Rattle.rail_engine.specs.PolicyTurns.{IsTurn};
ghost use Rattle.rail_engine.specs.Engines.{StaysDesk};
ghost use Rattle.rail_engine.specs.Rounds.{AreOffers, IsPicked, is_offered, offer_in, offered_below, offers_in};
ghost use Rattle.rail_ledger.specs.Ledgers.{AreAlike, AreUnbarred, IsSomewhere, StandsAsBefore};
ghost use Rattle.rail_policy.specs.Desks.{seat_in_force};
ghost use Rattle.rail_state.specs.TrainStates.{IsNextOf, state_of};

use rail_base::TrainNo;
use rail_ledger::Ledger;
use rail_policy::{Desk, Offer, Seen};

/// Looks at the trains that wait, and offers those without a known cause, or all that wait, by number.
#[inline(always)]
pub(crate) fn offer(offers: &mut Vec<Offer>, ledger: &mut Ledger, all: bool)
    requires running { IsSomewhere ledger.old }
    requires room { TRAINS ≤ vec_capacity offers.old }
    ensures alike { AreAlike ledger.old ledger.new }
    ensures at { StandsAsBefore ledger.old ledger.new }
    ensures unbarred { AreUnbarred ledger.new }
    ensures offers { AreOffers ledger.new offers.new.items }
    ensures all { all ≡ true → offers.new.items ≡ offers_in ledger.new }
    ensures few { length offers.new.items ≤ TRAINS }
    ensures room { vec_capacity offers.new ≡ vec_capacity offers.old }
{
    let untried = ledger.look();
    if all || untried.is_some() {
        fill(offers, ledger, all);
    } else {
        offers.clear();
    }
}

/// Offers the trains that wait without a known cause, or all that wait, by number.
#[inline(never)]
fn fill(offers: &mut Vec<Offer>, ledger: &Ledger, all: bool)
    requires running { IsSomewhere ledger.now }
    requires room { TRAINS ≤ vec_capacity offers.old }
    ensures offers { AreOffers ledger.now offers.new.items }
    ensures all { offers.new.items ≡ offered_below all ledger.now (length ledger.now.state.trains) }
    ensures few { length offers.new.items ≤ TRAINS }
    ensures room { vec_capacity offers.new ≡ vec_capacity offers.old }
{
    offers.clear();
    let mut from = 0;
    while let Some(train) = next_offered(ledger, all, from) {
        offers.push_reserved(offer_of(ledger, train));
        from = train.0 + 1;
    }
}

/// The first train from this number on that is offered, where there is one.
fn next_offered(ledger: &Ledger, all: bool, number: u16) -> Option<TrainNo>
    ensures { IsNextOf (is_offered all) ledger.now.state.trains number result }
{
    if all {
        ledger.state.trains.next_waiting(number)
    } else {
        ledger.state.trains.next_untried(number)
    }
}

/// The next move of the train as it is offered to a policy.
fn offer_of(ledger: &Ledger, train: TrainNo) -> Offer
    requires running { IsSomewhere ledger.now }
    requires train { train < length ledger.now.state.trains }
    requires waits { (state_of ledger.now.state.trains train).waits ≡ true }
    ensures { result ≡ offer_in ledger.now train }
{
    let plant = &ledger.input.plant;
    let train_state = ledger.state.trains.get(train);
    let place = train_state.place + 1;
    Offer {
        train,
        place,
        priority: ledger.orders.priority(train),
        entry: plant.train(train).entry,
        due: plant.due(train, place),
        ready: train_state.times.next_ready,
    }
}

/// The train that the policy in force chooses, whose offer is taken out of the offers.
pub(crate) fn pick(offers: &mut Vec<Offer>, desk: &mut Desk) -> TrainNo
    requires { 0 < length offers.old.items }
    ensures picked { let seat = seat_in_force (⟦<Desk as Seen>⟧.table desk.old) in
        IsPicked seat.kind seat.mark offers.old.items offers.new.items result }
    ensures fewer { length offers.new.items < length offers.old.items }
    ensures room { vec_capacity offers.new ≡ vec_capacity offers.old }
    ensures desk { let table = ⟦<Desk as Seen>⟧.table in (ledger : Ledger) → StaysDesk ledger (table desk.old) (table desk.new) }
    ensures turn { let table = ⟦<Desk as Seen>⟧.table in IsTurn (table desk.old) (table desk.new) offers.old.items offers.new.items result }
{
    let place = desk.turn(offers);
    offers.remove(place).train
}
