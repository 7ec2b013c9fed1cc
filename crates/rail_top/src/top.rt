//! The top call: what the words ask for, on files and an output.

ghost use Rattle.std.specs.Prelude.{◌≡◌, ◌↔◌, ℕ, IsTrue, List, map};
ghost use Rattle.rail_policy.specs.Seats.{is_fine_deck};
ghost use Rattle.rail_command_line.specs.Forms.{IsAsked, Values, files_of, form_in, values_in};
ghost use Rattle.rail_command_line.specs.declared.forms.Form.{Form};
ghost use Rattle.rail_forms.specs.declared.status.Status.TheVariants as status;
ghost use Rattle.rail_forms.specs.Promises.{ReadsFiles, WritesAnswer, ended};
ghost use Rattle.rail_top.specs.Forms.{AnswersForm, AreRefusedAlone, IsAcceptedInput, IsComplete, IsDone, IsDoneFor};

use rail_base::{Word, a_text_stands_for_one_time};
use rail_capacity::Window;
use rail_command_line::{Request, request_of};
use rail_forms::{
    Status, capacity, check, edit, infra, insert, migrate, play, report, reroute, resume, run,
    save, scene, stairs, summary,
};
use rail_io::{Shelf, Sink};
use rail_policy::Policy;
use std::alloc::Global;

/// Does what the words ask for. The files that they name are read from the shelf, all of them before
/// anything is refused but their size, and what is answered is added to the output.
///
/// What a run promises is `IsRun` in `specs/Runs.antt` of `rail_forms`, which the clause `answer` comes to: `run` that
/// ends `Done` has added the text of one history in which every event line is the due one, blocking intervals of
/// one section never overlap, the kept list brings every train inside to its exit after every line, each hold
/// line names the true cause, the policy is obeyed, each ready train waits for a stated true cause whenever
/// time goes on, and a repaired list goes before a fresh one; at the end, where no section stays closed and no
/// train stopped, every train is out or cancelled, and where none is cancelled there are exactly as many lines as
/// the bound says, hold lines aside, less one for each section of an overlap that was taken over. So it is of any
/// commands and any policies, whatever these answer.
///
/// The policies of the deck are those that the scene and the commands may name, 1 to 16 with distinct names.
///
/// What `save` promises is `SavesInput` in `specs/Snapshots.antt` there, and what `resume` promises is `ResumesInput`: `save`
/// that ends `Done` has added a snapshot of so many lines of a run, or of all where it has fewer; `resume` that ends `Done`
/// has added lines which, behind those of the snapshot, are a run to its end. It does not promise that a policy of a kind
/// of its own goes on as it would have gone, since of what such a policy keeps nothing stands in a snapshot.
///
/// What a check promises is `IsJudged` in `specs/Checks.antt` there: where nothing is refused and the history file is
/// the text of lines, `check` adds `yes` and ends `Done` exactly where these are a history that is lawful to its end;
/// else it adds the first line that may not follow and the law that it breaks, and ends `CheckedNo` with both.
///
/// A command whose input is accepted is done where no count of faults rose, unless memory is wanting; where paths are asked
/// for it may also be refused because none is free.
///
/// `Usage` comes exactly where the words are not in the table of words, and before any file. A refusal is
/// the first one in the order of refusals. `ReadFault` and `WriteFault` come only where the count of
/// faults of the shelf and of the output rose in this call.
pub fn rail<S: Shelf, O: Sink>(
    alloc: Global,
    words: &[Word],
    shelf: &mut S,
    out: &mut O,
    deck: Vec<Box<dyn Policy>>,
) -> Status
    requires fine { IsTrue (is_fine_deck (map ⟦<Box<dyn Policy> as Policy>⟧.seat deck.items)) }
    ensures usage { (result ≡ status.Usage) ↔ ((form : Form) (values : Values form) → IsAsked form values words.now → ⊥) }
    ensures answer { (form : Form) (values : Values form) → IsAsked form values words.now
        → AnswersForm form values (map ⟦<Box<dyn Policy> as Policy>⟧.seat deck.items)
        (S.told shelf.old) (O.written out.old) (O.written out.new) result }
    ensures complete { (form : Form) (values : Values form) → IsAsked form values words.now
        → IsComplete S.Shelf O.Sink (IsAcceptedInput form values (map ⟦<Box<dyn Policy> as Policy>⟧.seat deck.items) (S.told shelf.old))
        (IsDone form result) shelf.old shelf.new out.old out.new result }
    ensures reads { (form : Form) (values : Values form) → IsAsked form values words.now
        → ReadsFiles S.Shelf (files_of form values) shelf.old shelf.new result }
    ensures unread { (form : Form) (values : Values form) → IsAsked form values words.now
        → AreRefusedAlone form values → shelf.new ≡ shelf.old }
    ensures usage_unread { result ≡ status.Usage → shelf.new ≡ shelf.old }
    ensures writes { WritesAnswer O.Sink out.old out.new result }
{
    a_text_stands_for_one_time();
    match request_of(words) {
        Some(request) => status_of(answer(alloc, &request, shelf, out, deck)),
        None => Status::Usage,
    }
}

/// Does what is asked for by some words.
fn answer<S: Shelf, O: Sink>(
    alloc: Global,
    request: &Request,
    shelf: &mut S,
    out: &mut O,
    deck: Vec<Box<dyn Policy>>,
) -> Result<(), Status>
    requires fine { IsTrue (is_fine_deck (map ⟦<Box<dyn Policy> as Policy>⟧.seat deck.items)) }
    requires asked { (words : List (List ℕ)) × IsAsked (form_in request.now) (values_in request.now) words }
    ensures { IsDoneFor S.Shelf O.Sink (form_in request.now) (values_in request.now) (map ⟦<Box<dyn Policy> as Policy>⟧.seat deck.items)
        shelf.old shelf.new out.old out.new (ended result) }
{
    match request {
        Request::Run(scenario) => run::answer(alloc, scenario, shelf, out, deck),
        Request::Stairs(scenario) => stairs::answer(alloc, scenario, shelf, out, deck),
        Request::Report(scenario) => report::answer(alloc, scenario, shelf, out, deck),
        Request::Capacity {
            line,
            from,
            to,
            scenario,
        } => {
            let window = Window {
                from: *from,
                to: *to,
            };
            capacity::answer(alloc, line, window, scenario, shelf, out, deck)
        }
        Request::Insert(paths) => insert::answer(alloc, paths, shelf, out, deck),
        Request::Infra { scene } => infra::answer(alloc, scene, shelf, out),
        Request::Play { scene, list } => play::answer(alloc, scene, list, shelf, out),
        Request::Check { scenario, history } => {
            check::answer(alloc, scenario, history, shelf, out, deck)
        }
        Request::Edit { scene, edits } => edit::answer(alloc, scene, edits, shelf, out),
        Request::Reroute {
            scene,
            list,
            proposals,
        } => reroute::answer(alloc, scene, list, proposals, shelf, out),
        Request::Save { count, scenario } => {
            save::answer(alloc, *count, scenario, shelf, out, deck)
        }
        Request::Resume { scenario, snapshot } => {
            resume::answer(alloc, scenario, snapshot, shelf, out, deck)
        }
        Request::Migrate { scene } => migrate::answer(alloc, scene, shelf, out),
        Request::Scene { number } => scene::answer(alloc, *number, out),
        Request::Gen { number } => summary::answer(alloc, *number, out, deck),
    }
}

/// The status of a command that ended so.
fn status_of(end: Result<(), Status>) -> Status
    ensures { result ≡ ended end }
{
    match end {
        Ok(()) => Status::Done,
        Err(status) => status,
    }
}
