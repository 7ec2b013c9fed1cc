//! `insert TRAIN FROM TO COUNT SCENE [TIMETABLE [COMMANDS]]`: where further trains like a given one fit between the trains of
//! a run, and what keeps each from an earlier begin.

ghost use Rattle.std.specs.Prelude.{◌≡◌, ◌<◌, ◌≤◌, ◌^◌, IfErr, IfOk, IsTrue, None, OnOk, Some, length, map, true, false};
ghost use Rattle.rail_base.specs.Refusals.{AnswersFirst};
ghost use Rattle.rail_base.specs.declared.limits.TheConstants.{TRAINS};
ghost use Rattle.rail_base.specs.declared.refusals.Fault.TheVariants as fault;
ghost use Rattle.rail_base.specs.declared.refusals.Refusal.{Refusal};
ghost use Rattle.rail_insert.specs.Insertions.{IsInsertion};
ghost use Rattle.rail_insert.specs.TimeBounds.{are_timely};
ghost use Rattle.rail_input.specs.Inputs.{refuses_file};
ghost use Rattle.rail_io.specs.Writes.{Adds, AddsPrefix};
ghost use Rattle.rail_policy.specs.Seats.{is_fine_deck};
ghost use Rattle.rail_rules.specs.Numbers.{or_else};
ghost use Rattle.rail_command_line.specs.Forms.{paths_in, scenario_files};
ghost use Rattle.rail_forms.specs.Answers.{IsAnswer};
ghost use Rattle.rail_forms.specs.BegunRuns.{HasBegun, input_of, seats_of};
ghost use Rattle.rail_forms.specs.Insertions.{AnswersInsertion, IsInsertionText, IsNoPathAmong, IsRefusedRun, name_refusal, refused_with, train_named, train_refusal};
ghost use Rattle.rail_forms.specs.NotedRuns.{ReportsRun};
ghost use Rattle.rail_forms.specs.Promises.{KeepsPromise, WritesAnswer, ended, is_of_bytes};
ghost use Rattle.rail_forms.specs.declared.status.Status.TheVariants.{Refused};

use crate::beginning::Begun;
use crate::scenario::ScenarioFiles;
use crate::status::Status;
use rail_base::{Fault, Interval, Name, Names, Part, Reason, Refusal, TrainNo};
use rail_capacity::Window;
use rail_command_line::PathRequest;
use rail_insert::{InsertFault, Inserted, insert, write_inserted};
use rail_io::{Shelf, Sink};
use rail_policy::{Desk, Policy, Seen};
use rail_stairs::{Stairs, intervals_are_timely};
use std::alloc::Global;

/// The refusal of a window that does not begin before it ends.
const WINDOW_EMPTY: Refusal = Refusal {
    reason: Reason::WindowEmpty,
    part: Part::Word,
    item: 3,
    step: 0,
};

/// The refusal of a word that is no train's name.
const TRAIN_UNKNOWN: Refusal = Refusal {
    reason: Reason::Unknown,
    part: Part::Word,
    item: 2,
    step: 1,
};

/// The refusal of a train that has no interval in the run, or an open one.
const NO_STAIRWAY: Refusal = Refusal {
    reason: Reason::NoPath,
    part: Part::Word,
    item: 2,
    step: 0,
};

/// The refusal of a window in which not even one copy fits.
const NO_PLACE: Refusal = Refusal {
    reason: Reason::NoPath,
    part: Part::Word,
    item: 3,
    step: 0,
};

/// Writes the paths that are asked for, between the trains of the scenario. Where the window does not begin before it ends,
/// they are refused before any file is read; where no path is free, after the run.
pub fn answer<S: Shelf, O: Sink>(
    alloc: Global,
    paths: &PathRequest,
    shelf: &mut S,
    out: &mut O,
    deck: Vec<Box<dyn Policy>>,
) -> Result<(), Status>
    requires fine { IsTrue (is_fine_deck (map ⟦<Box<dyn Policy> as Policy>⟧.seat deck.items)) }
    requires early { paths.now.to < 2 ^ 55 }
    requires some { 1 ≤ paths.now.count }
    ensures kept { KeepsPromise S.Shelf O.Sink (scenario_files (paths_in paths.now).scenario) shelf.old shelf.new out.old out.new (ended result) }
    ensures answer { AnswersInsertion (paths_in paths.now) (map ⟦<Box<dyn Policy> as Policy>⟧.seat deck.items)
        (S.told shelf.old) (O.written out.old) (O.written out.new) (ended result) }
    ensures unread { paths.now.to ≤ paths.now.from → shelf.new ≡ shelf.old }
{
    if paths.to.0 <= paths.from.0 {
        return Err(Status::Refused(WINDOW_EMPTY));
    }
    let window = Window {
        from: paths.from,
        to: paths.to,
    };
    let files = ScenarioFiles::read(alloc, &paths.scenario, shelf)?;
    let begun = files.begin(alloc, deck)?;
    report(alloc, paths.train, window, paths.count, begun, out)
}

/// Follows the run to its end, and writes the paths that are asked for between its trains. All memory is taken before the
/// first byte.
fn report<O: Sink>(
    alloc: Global,
    word: &str,
    window: Window,
    count: u16,
    begun: Begun,
    out: &mut O,
) -> Result<(), Status>
    requires ordered { window.from < window.to }
    requires early { window.to < 2 ^ 55 }
    requires some { 1 ≤ count }
    requires begun { HasBegun ⟦<Desk as Seen>⟧.table begun }
    ensures answer { let input = input_of begun in let seats = seats_of ⟦<Desk as Seen>⟧.table begun in
        let tells = IsInsertionText word.now window count in
        IsAnswer (or_else (train_refusal input.plant word.now) (refused_with (ended result)))
        (ReportsRun tells input seats (Adds (O.written out.old) (O.written out.new)))
        (ReportsRun tells input seats (AddsPrefix (O.written out.old) (O.written out.new))) (ended result) }
    ensures behind { let input = input_of begun in (refusal : Refusal) → ended result ≡ Refused refusal
        → train_refusal input.plant word.now ≡ None
        → IsRefusedRun word.now window refusal input (seats_of ⟦<Desk as Seen>⟧.table begun) }
    ensures writes { WritesAnswer O.Sink out.old out.new (ended result) }
    ensures of_bytes { is_of_bytes (ended result) ≡ true }
{
    let train = train_of(begun.plant().names(), word)?;
    let mut stairs = Stairs::new(alloc, begun.plant())?;
    let Ok(engine) = begun.follow_to_end(&mut stairs);
    intervals_are_timely();
    let intervals = stairs.intervals(alloc, engine.plant())?;
    let inserted = inserted_into(alloc, &intervals, train, window, count)?;
    write_inserted(engine.plant().names(), train, &inserted, out)?;
    Ok(())
}

/// The train of this name.
fn train_of(names: &Names, word: &str) -> Result<TrainNo, Fault>
    requires { length names.now.trains.keys ≤ TRAINS }
    ensures train { IfOk result (λ train. train_named names.now.trains.keys word.now ≡ Some train) }
    ensures accepted { OnOk result (name_refusal names.now.trains.keys word.now ≡ None) }
    ensures refused { IfErr result (AnswersFirst (name_refusal names.now.trains.keys word.now)) }
    ensures of_bytes { IfErr result (λ why. refuses_file why ≡ false) }
{
    let Some(train) = train_named(names, word.as_bytes()) else {
        return Err(Fault::Refused(TRAIN_UNKNOWN));
    };
    Ok(train)
}

/// The number of the train of this name.
fn train_named(names: &Names, word: &[u8]) -> Option<TrainNo>
    requires { length names.now.trains.keys ≤ TRAINS }
    ensures { result ≡ train_named names.now.trains.keys word.now }
{
    names.train(Name::read(word)?)
}

/// The paths that are asked for, between these intervals, where there is one.
fn inserted_into(
    alloc: Global,
    intervals: &[Interval],
    train: TrainNo,
    window: Window,
    count: u16,
) -> Result<Inserted, Fault>
    requires timely { IsTrue (are_timely intervals.now) }
    requires ordered { window.from < window.to }
    requires early { window.to < 2 ^ 55 }
    requires some { 1 ≤ count }
    ensures inserted { IfOk result (λ inserted. IsInsertion intervals.now train window count
        inserted.copies.items) }
    ensures none { IfErr result (λ why. (refusal : Refusal) → why ≡ fault.Refused refusal
        → IsNoPathAmong intervals.now train window refusal) }
    ensures of_bytes { IfErr result (λ why. refuses_file why ≡ false) }
{
    match insert(alloc, intervals, train, window, count) {
        Ok(inserted) => Ok(inserted),
        Err(InsertFault::NoTrain) => Err(Fault::Refused(NO_STAIRWAY)),
        Err(InsertFault::NoPath) => Err(Fault::Refused(NO_PLACE)),
        Err(InsertFault::OutOfMemory) => Err(Fault::OutOfMemory),
        Err(InsertFault::WindowEmpty) => unreachable!(),
    }
}
