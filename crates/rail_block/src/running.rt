//! What the tables say of a move, and how long its train takes over a section and to clear it.

ghost use Rattle.std.specs.Prelude.{◌≡◌, ◌+◌, ◌-◌, ◌<◌, ◌≤◌, ◌^◌, length, IsTrue};
ghost use Rattle.rail_base.specs.declared.limits.TheConstants.{ROUTE_SECTIONS, SECTION_LENGTH, SPEED, START, STOP, TRAIN_LENGTH};
ghost use Rattle.rail_base.specs.Limits.{is_from_one};
ghost use Rattle.rail_rules.specs.Accepted.{is_accepted, is_move_in_range};
ghost use Rattle.rail_rules.specs.Moves.{stand};
ghost use Rattle.rail_rules.specs.Plant.{move_row, moves, moves_of, run_over, section, step_section, steps, train, trains};
ghost use Rattle.rail_rules.specs.Times.{clearing, start_loss};
ghost use Rattle.rail_block.specs.KnownMoves.{of_move, of_step};
ghost use Rattle.rail_block.specs.Steps.{step_clearing, step_time};

use crate::moves::{KnownMove, KnownStep};
use crate::running_times::{clear_time, run_time};
use rail_base::{MoveRow, SectionNo, SectionRow, Time, TrainKind, TrainNo};
use rail_plan::Plant;

/// The plant may be run, as each plant that was made.
pub fn may_be_run(plant: &Plant)
    ensures { IsTrue (is_accepted plant.now) }
{
    plant.moves();
}

/// The time so many tenths of a second after another.
pub fn after(time: Time, span: u64) -> Time
    requires { time + span < 2 ^ 64 }
    ensures { result ≡ time + span }
{
    Time(time.0 + span)
}

/// The tenths of a second from a time to another one; 0 where that is before it.
pub fn between(from: Time, to: Time) -> u64
    ensures { result ≡ to - from }
{
    to.0.saturating_sub(from.0)
}

/// The kind of the train.
pub fn kind_of(plant: &Plant, number: TrainNo) -> &TrainKind
    requires { number < trains plant.now }
    ensures kind { result.now ≡ (train plant.now number).kind }
    ensures speed { IsTrue (is_from_one SPEED result.now.speed) }
    ensures length { IsTrue (is_from_one TRAIN_LENGTH result.now.length) }
    ensures start { result.now.start ≤ START }
    ensures stop { result.now.stop ≤ STOP }
{
    may_be_run(plant);
    &plant.train(number).kind
}

/// The section of this number.
fn section_row(plant: &Plant, number: SectionNo) -> &SectionRow
    requires { number < length plant.now.tables.sections }
    ensures row { result.now ≡ section plant.now number }
    ensures speed { IsTrue (is_from_one SPEED result.now.speed) }
    ensures length { IsTrue (is_from_one SECTION_LENGTH result.now.length) }
{
    may_be_run(plant);
    plant.section(number)
}

/// The start supplement that a move begins with, in tenths of a second: none where the train passes.
pub fn start_loss(plant: &Plant, train: TrainNo, passes: bool) -> u64
    requires { train < trains plant.now }
    ensures loss { result ≡ start_loss plant.now train passes }
    ensures short { result ≤ START }
{
    if passes {
        0
    } else {
        u64::from(kind_of(plant, train).start)
    }
}

/// The time in tenths of a second from the moment at which the train begins to clear the section to
/// that at which its tail leaves it.
fn clear_time_of(plant: &Plant, train: TrainNo, section: SectionNo) -> u64
    requires train { train < trains plant.now }
    requires section { section < length plant.now.tables.sections }
    ensures time { result ≡ clearing plant.now train section }
    ensures short { result ≤ 2 ^ 22 }
{
    clear_time(kind_of(plant, train), section_row(plant, section).speed)
}

impl KnownMove<'_> {
    /// What the plant's tables say of the move.
    pub fn row(&self) -> &MoveRow
        ensures row { result.now ≡ of_move move_row self.now }
        ensures fine { IsTrue (is_move_in_range (length self.now.plant.now.tables.sections) result.now) }
    {
        self.plant.move_row(self.train, self.place)
    }

    /// How many moves the train has: the number of its last place.
    pub fn last_place(&self) -> u16
        ensures { result ≡ moves self.now.plant.now self.now.train }
    {
        self.plant.moves().places(self.train)
    }

    /// The sections on which the train stands at the place to which the move leads.
    pub(crate) fn stand(&self) -> &[SectionNo]
        ensures { result.now ≡ stand (moves_of self.now.plant.now) self.now.train self.now.place }
    {
        self.plant.moves().stand(self.train, self.place)
    }

    /// How many steps the move has.
    pub fn steps(&self) -> u16
        ensures steps { result ≡ of_move steps self.now }
        ensures some { 1 ≤ result }
        ensures few { result ≤ ROUTE_SECTIONS }
    {
        self.row().sections.as_slice().len() as u16
    }

    /// The time in tenths of a second over the first sections of the move, so many.
    pub(crate) fn run_over(&self, count: u16) -> u64
        requires { count ≤ of_move steps self.now }
        ensures time { result ≡ of_move run_over self.now count }
        ensures short { result ≤ 2 ^ 27 }
    {
        let mut time = 0;
        for index in 0..count {
            time += KnownStep::new(&*self, index + 1).run_time();
        }
        time
    }
}

impl KnownStep<'_> {
    /// The section of the step.
    pub(crate) fn section(&self) -> SectionNo
        ensures section { result ≡ of_step step_section self.now }
        ensures known { result < length self.now.of.now.plant.now.tables.sections }
    {
        self.of.row().sections.as_slice()[usize::from(self.step) - 1]
    }

    /// The time in tenths of a second that the head of the train takes over the section of the step. The
    /// start supplement is no part of it.
    pub fn run_time(&self) -> u64
        ensures time { result ≡ of_step step_time self.now }
        ensures short { result ≤ 2 ^ 22 }
    {
        let row = section_row(self.of.plant, self.section());
        run_time(kind_of(self.of.plant, self.of.train), row.length, row.speed)
    }

    /// The tenths of a second from the moment at which the train begins to clear the section of the step to
    /// that at which its tail leaves it.
    pub(crate) fn clear_time(&self) -> u64
        ensures time { result ≡ of_step step_clearing self.now }
        ensures short { result ≤ 2 ^ 22 }
    {
        clear_time_of(self.of.plant, self.of.train, self.section())
    }
}
