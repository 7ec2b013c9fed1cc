//! When a train is ready for a move, and when the move begins.

ghost use Rattle.std.specs.Prelude.{◌≡◌, ℕ, ◌+◌, ◌-◌, ◌<◌, ◌≤◌, ◌^◌, max, false};
ghost use Rattle.std.specs.Option.{option_map_or};
ghost use Rattle.rail_base.specs.declared.limits.TheConstants.{INPUT_TIME};
ghost use Rattle.rail_base.specs.declared.plant.Call.{Call};
ghost use Rattle.rail_base.specs.declared.plant.TurnRow.{TurnRow};
ghost use Rattle.rail_rules.specs.Plant.{departure, dwell, is_forced, trains};
ghost use Rattle.rail_rules.specs.Times.{depart_time, ready_time, signal_time, start_time, stop_time};
ghost use Rattle.rail_block.specs.KnownMoves.{of_move, of_place};

use crate::moves::KnownMove;
use crate::running::{after, kind_of};
use rail_base::{Call, Time, TrainNo, TurnRow};
use rail_plan::Plant;

/// The call, where there is one, is a stop.
fn stops(call: Option<Call>) -> bool
    ensures { result ≡ option_map_or (λ (c : Call). c.stops) call false }
{
    match call {
        Some(call) => call.stops,
        None => false,
    }
}

/// The dwell of the call, where there is one, in tenths of a second.
fn call_dwell(call: Option<Call>) -> u32
    ensures { result ≡ option_map_or (λ (c : Call). c.dwell) call 0 }
{
    match call {
        Some(call) => call.dwell,
        None => 0,
    }
}

/// The departure of the call, or 0.
fn call_departure(call: Option<Call>) -> Time
    ensures { result ≡ option_map_or (λ (c : Call). option_map_or (λ (at : ℕ). at) c.departure 0) call 0 }
{
    match call {
        Some(call) => call.departure.unwrap_or(Time(0)),
        None => Time(0),
    }
}

/// The time of the turn, where there is one, in tenths of a second.
fn turn_time(turn: Option<TurnRow>) -> u32
    ensures { result ≡ option_map_or (λ (u : TurnRow). u.time) turn 0 }
{
    match turn {
        Some(turn) => turn.time,
        None => 0,
    }
}

/// The time of a stop of a train that would run freely until this time.
pub fn stop_time(plant: &Plant, train: TrainNo, arrived: Time) -> Time
    requires train { train < trains plant.now }
    requires time { arrived < 2 ^ 52 }
    ensures time { result ≡ stop_time plant.now train arrived }
    ensures soon { result ≤ arrived + 6000 }
{
    after(arrived, u64::from(kind_of(plant, train).stop))
}

/// The time so many tenths of a second before another, and not below 0.
fn earlier(time: Time, span: u64) -> Time
    ensures { result ≡ time - span }
{
    Time(time.0.saturating_sub(span))
}

impl KnownMove<'_> {
    /// The place to which the move leads holds the train: a stop call or a turn is there. The last place
    /// holds no train.
    pub fn is_forced(&self) -> bool
        ensures { result ≡ of_place is_forced self.now }
    {
        if self.place == self.last_place() {
            return false;
        }
        let turns = self.row().turn.is_some();
        turns || stops(self.plant.call(self.train, self.place))
    }

    /// The place at which the move begins holds the train. The entry holds no train.
    pub(crate) fn begins_forced(&self) -> bool
        ensures { result ≡ of_move is_forced self.now }
    {
        if self.place == 1 {
            return false;
        }
        let before = KnownMove::new(self.plant, self.train, self.place - 1);
        before.is_forced()
    }

    /// The least standing time at the place at which the move begins, in tenths of a second, by its call
    /// and its turn.
    fn dwell(&self) -> u64
        ensures time { result ≡ of_move dwell self.now }
        ensures short { result ≤ INPUT_TIME }
    {
        if self.place == 1 {
            return 0;
        }
        let call = call_dwell(self.plant.call(self.train, self.place - 1));
        let turn = turn_time(self.plant.move_row(self.train, self.place - 1).turn);
        u64::from(call.max(turn))
    }

    /// The departure of the call at the place at which the move begins, or 0.
    fn departure(&self) -> Time
        ensures time { result ≡ of_move departure self.now }
        ensures early { result ≤ INPUT_TIME }
    {
        if self.place == 1 {
            return Time(0);
        }
        call_departure(self.plant.call(self.train, self.place - 1))
    }

    /// When the train, which would reach the beginning of the move freely at `arrived`, departs there if
    /// it stops.
    fn depart_time(&self, arrived: Time) -> Time
        requires { arrived < 2 ^ 52 }
        ensures time { result ≡ of_move depart_time self.now arrived }
        ensures soon { result ≤ arrived + 2 ^ 25 }
    {
        let stopped = stop_time(self.plant, self.train, arrived);
        if self.begins_forced() {
            let stood = after(stopped, self.dwell());
            stood.max(self.departure())
        } else {
            stopped
        }
    }

    /// The time in tenths of a second for clearing and watching the signal at which the move begins.
    fn signal_time(&self) -> u64
        ensures time { result ≡ of_move signal_time self.now }
        ensures short { result ≤ 2 ^ 14 }
    {
        let row = self.row();
        u64::from(row.setting) + u64::from(row.watching)
    }

    /// When the train is ready for the move, whose beginning it would reach freely at `arrived`. The move
    /// before was admitted at `previous`.
    #[inline(always)]
    pub(crate) fn ready_time(&self, previous: Time, arrived: Time) -> Time
        requires { arrived < 2 ^ 52 }
        ensures time { result ≡ of_move ready_time self.now previous arrived }
        ensures soon { result ≤ max previous (arrived + 2 ^ 25) }
    {
        let signal = self.signal_time();
        if self.begins_forced() {
            let departs = self.depart_time(arrived);
            previous.max(earlier(departs, signal))
        } else {
            let approach = u64::from(self.row().approach);
            previous.max(earlier(arrived, signal + approach))
        }
    }

    /// When the move begins, whose beginning the train would reach freely at `arrived`.
    pub(crate) fn start_time(&self, arrived: Time, admitted: Time, passes: bool) -> Time
        requires time { arrived < 2 ^ 52 }
        requires admitted { admitted < 2 ^ 52 }
        ensures time { result ≡ of_move start_time self.now arrived admitted passes }
        ensures soon { result ≤ max admitted arrived + 2 ^ 25 }
    {
        let signalled = after(admitted, self.signal_time());
        if passes {
            after(signalled, u64::from(self.row().approach))
        } else {
            self.depart_time(arrived).max(signalled)
        }
    }
}
