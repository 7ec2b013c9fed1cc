//! `check SCENE TIMETABLE COMMANDS HISTORY`: the verdict on a history of the scene, as a line.

ghost use Rattle.std.specs.Prelude.{◌≡◌, ◌-◌, ◌<◌, ◌≤◌, ◌^◌, ◌++◌, ◌∷◌, [], IsTrue, Some, length, map, true};
ghost use Rattle.rail_check.specs.Answers.{judged_in};
ghost use Rattle.rail_command_line.specs.Files.{file_as};
ghost use Rattle.rail_command_line.specs.Forms.{scenario_files, scenario_in};
ghost use Rattle.rail_command_line.specs.declared.files.FileRole.TheVariants as role;
ghost use Rattle.rail_policy.specs.Seats.{is_fine_deck, names_of};
ghost use Rattle.rail_forms.specs.Checks.{AnswersCheck, AnswersHistory, status_judged, verdict_text, verdict_words};
ghost use Rattle.rail_forms.specs.Promises.{KeepsPromise, WritesAnswer, ended, is_of_bytes};
ghost use Rattle.rail_forms.specs.Scenarios.{refusal_in, spelled_in};
ghost use Rattle.rail_text.specs.Writes.{WritesText};

use crate::files::read_file;
use crate::scenario::ScenarioFiles;
use crate::status::Status;
use rail_check::{Verdict, check_file};
use rail_command_line::{FileRole, Scenario};
use rail_input::ReadInput;
use rail_io::{Failed, Shelf, Sink, write_whole};
use rail_ledger::RunInput;
use rail_policy::{Policy, names_of};
use rail_text::LineBuffer;
use std::alloc::Global;

/// Writes the verdict on the history in the file of this name, for the scenario. Of the policies the names are used, and
/// which one the scene names; none is asked.
pub fn answer<S: Shelf, O: Sink>(
    alloc: Global,
    scenario: &Scenario,
    history: &str,
    shelf: &mut S,
    out: &mut O,
    deck: Vec<Box<dyn Policy>>,
) -> Result<(), Status>
    requires fine { IsTrue (is_fine_deck (map ⟦<Box<dyn Policy> as Policy>⟧.seat deck.items)) }
    ensures kept { KeepsPromise S.Shelf O.Sink
        (scenario_files (scenario_in scenario.now) ++ file_as role.History (Some history.now) ∷ [])
        shelf.old shelf.new out.old out.new (ended result) }
    ensures answer { AnswersCheck (scenario_in scenario.now) history.now (map ⟦<Box<dyn Policy> as Policy>⟧.seat deck.items)
        (S.told shelf.old) (O.written out.old) (O.written out.new) (ended result) }
{
    let files = ScenarioFiles::read(alloc, scenario, shelf)?;
    let history = read_file(alloc, shelf, history, FileRole::History)?;
    judge(alloc, &files, &history, out, &deck)
}

/// Writes the verdict on the history for what the files of the scenario spell.
fn judge<O: Sink>(
    alloc: Global,
    files: &ScenarioFiles,
    history: &[u8],
    out: &mut O,
    deck: &[Box<dyn Policy>],
) -> Result<(), Status>
    requires fine { IsTrue (is_fine_deck (map ⟦<Box<dyn Policy> as Policy>⟧.seat deck.now)) }
    requires short { length history.now < 2 ^ 32 - 1 }
    ensures answer { let names = names_of (map ⟦<Box<dyn Policy> as Policy>⟧.seat deck.now) in
        AnswersHistory (refusal_in files.now names) (spelled_in files.now names)
        history.now (O.written out.old) (O.written out.new) (ended result) }
    ensures writes { WritesAnswer O.Sink out.old out.new (ended result) }
    ensures of_bytes { is_of_bytes (ended result) ≡ true }
{
    let names = names_of(alloc, deck)?;
    let ReadInput {
        plant,
        commands,
        force,
    } = files.read_input(alloc, &names)?;
    let input = RunInput {
        plant,
        commands,
        deck: names,
        force,
    };
    let verdict = check_file(alloc, input, history)?;
    write_verdict(verdict, out)?;
    end_with(verdict)
}

/// How a command ends that has written the verdict.
fn end_with(verdict: Verdict) -> Result<(), Status>
    ensures { ended result ≡ status_judged (judged_in verdict) }
{
    match verdict {
        Verdict::Yes => Ok(()),
        Verdict::No { line, law } => Err(Status::CheckedNo { line, law }),
    }
}

/// Writes the verdict as a line.
fn write_verdict<O: Sink>(verdict: Verdict, out: &mut O) -> Result<(), Failed>
    ensures { WritesText O.Sink out.old out.new (verdict_text (judged_in verdict)) result }
{
    let mut line = LineBuffer::new();
    put_verdict(&mut line, verdict);
    line.put(b"\n");
    write_whole(out, line.as_slice())
}

/// Puts the words for the verdict.
fn put_verdict(line: &mut LineBuffer, verdict: Verdict)
    requires { line.old ≡ [] }
    ensures text { line.new ≡ verdict_words (judged_in verdict) }
    ensures short { length line.new ≤ 100 }
{
    match verdict {
        Verdict::Yes => line.put(b"yes"),
        Verdict::No { line: number, law } => {
            line.put(b"no");
            line.put_number(u64::from(number));
            line.put_number(u64::from(law));
        }
    }
}
