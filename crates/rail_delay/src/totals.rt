//! How late the trains were together, and how long they were held. Two numbers of 64 bits for each call can pass 64
//! bits together, so the totals have 128.

ghost use Rattle.std.specs.Prelude.{◌≡◌, ◌+◌, ◌*◌, ◌^◌, ◌-◌, ◌≤◌, ◌<◌, length, is_some};
ghost use Rattle.std.specs.List.{count_by, sum_by};
ghost use Rattle.rail_base.specs.declared.limits.TheConstants.{ITINERARY_ROUTES, TRAINS};
ghost use Rattle.rail_rules.specs.Numbers.{sum_below};
ghost use Rattle.rail_rules.specs.Plant.{call_after, moves, train, trains};
ghost use Rattle.rail_delay.specs.Reports.{call_late, late_number, lateness, train_late};

use crate::account::Account;
use crate::delays::Delays;
use crate::lines::{Times, lateness};
use crate::visits::{Visit, visit_of};
use rail_base::{Call, TrainNo};
use rail_plan::Plant;

/// How late all trains were at their entries and calls together, in tenths of a second.
pub fn total_late(plant: &Plant, delays: &Delays) -> u128
    ensures { result ≡ sum_below (train_late plant.now delays.now.visits) (trains plant.now) }
{
    let trains = plant.moves().trains();
    let mut late = 0;
    for number in 0..trains {
        late += train_late(plant, delays, TrainNo(number));
    }
    late
}

/// How late the train was at its entry and all its calls together.
fn train_late(plant: &Plant, delays: &Delays, train: TrainNo) -> u128
    requires { train < trains plant.now }
    ensures late { result ≡ train_late plant.now delays.now.visits train }
    ensures few { result ≤ (2 * ITINERARY_ROUTES + 1) * 2 ^ 64 }
{
    let row = delays.visits(train);
    let entry = Times {
        planned: Some(plant.train(train).entry),
        actual: visit_of(row, 0).departed,
    };
    late_number(&entry) + calls_late(plant, row, train)
}

/// How late the train was at all its calls together.
fn calls_late(plant: &Plant, row: &[Visit], train: TrainNo) -> u128
    requires { train < trains plant.now }
    ensures late { result ≡ sum_below (λ m. call_late row.now m (call_after plant.now train m)) (moves plant.now train) }
    ensures few { result ≤ 2 * ITINERARY_ROUTES * 2 ^ 64 }
{
    let places = plant.train(train).moves.as_slice().len() as u16;
    let mut late = 0;
    for index in 0..places {
        late += call_late(row, index, plant.call(train, index + 1));
    }
    late
}

/// How late the train was at the call at the end of a move, counted from 0, where there is one.
fn call_late(row: &[Visit], index: u16, call: Option<Call>) -> u128
    ensures late { result ≡ call_late row.now index call }
    ensures few { result ≤ 2 * 2 ^ 64 }
{
    match call {
        Some(call) => {
            let visit = usize::from(index);
            let arrival = Times {
                planned: call.arrival,
                actual: visit_of(row, visit).arrived,
            };
            let departure = Times {
                planned: call.departure,
                actual: visit_of(row, visit + 1).departed,
            };
            late_number(&arrival) + late_number(&departure)
        }
        None => 0,
    }
}

/// How late something was, which counts as 0 where a time is not there.
fn late_number(times: &Times) -> u128
    ensures late { result ≡ late_number (lateness times.now.planned times.now.actual) }
    ensures few { result < 2 ^ 64 }
{
    u128::from(lateness(times).unwrap_or(0))
}

/// How long all trains were held, in tenths of a second.
pub fn total_held(accounts: &[Account]) -> u128
    ensures { result ≡ sum_by (λ kept. kept.held) accounts.now }
{
    let mut held = 0;
    for account in accounts {
        held += u128::from(account.held);
    }
    held
}

/// How many trains are out.
pub fn how_many_out(accounts: &[Account]) -> u64
    ensures { result ≡ count_by (λ kept. is_some kept.out) accounts.now }
{
    accounts
        .iter()
        .filter(|account| account.out.is_some())
        .count() as u64
}

/// How many trains were cancelled.
pub fn how_many_cancelled(accounts: &[Account]) -> u64
    ensures { result ≡ count_by (λ kept. kept.cancelled) accounts.now }
{
    accounts.iter().filter(|account| account.cancelled).count() as u64
}
