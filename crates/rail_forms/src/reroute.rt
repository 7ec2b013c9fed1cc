//! `reroute SCENE LIST PROPOSALS`: what each proposal leads to that a train takes other routes from where it stands.

ghost use Rattle.std.specs.Prelude.{◌≡◌, ◌-◌, ◌<◌, ◌^◌, ◌++◌, ◌∷◌, [], None, Some, IfErr, IfOk, IsTrue, OnOk, length, true};
ghost use Rattle.std.specs.List.{list_all};
ghost use Rattle.rail_base.specs.Refusals.{AnswersFirst};
ghost use Rattle.rail_compile.specs.Refusals.{compile_refusal};
ghost use Rattle.rail_compile.specs.Itineraries.{plant_of_scene};
ghost use Rattle.rail_io.specs.Writes.{Adds, AddsPrefix};
ghost use Rattle.rail_reroute.specs.Proposals.{is_ready, proposals_in, proposals_refusal, route_names, train_names};
ghost use Rattle.rail_reroute.specs.Judges.{IsJudgeFor};
ghost use Rattle.rail_rules.specs.Places.{is_valid_state};
ghost use Rattle.rail_rules.specs.Plant.{moves_of};
ghost use Rattle.rail_scene.specs.Scenes.{IsScene};
ghost use Rattle.rail_command_line.specs.Files.{file_as};
ghost use Rattle.rail_command_line.specs.declared.files.FileRole.TheVariants as role;
ghost use Rattle.rail_text.specs.Writes.{WritesText};
ghost use Rattle.rail_forms.specs.Answers.{IsAnswer};
ghost use Rattle.rail_forms.specs.Promises.{KeepsPromise, WritesAnswer, ended, is_of_bytes};
ghost use Rattle.rail_forms.specs.Reroutes.{AnswersReroute, AreAnswered, IsAnswered, JudgesFiles, answered_text, reroute_refusal};

use crate::files::read_file;
use crate::play::places_of;
use crate::status::Status;
use rail_base::{Fault, OutOfMemory};
use rail_command_line::FileRole;
use rail_input::{Planned, read_plant};
use rail_io::{Failed, Shelf, Sink};
use rail_plan::Plant;
use rail_reroute::{Judge, Judged, Proposal, read_proposals, write_judged};
use rail_scene::Scene;
use std::alloc::{AllocError, Global};

/// The answer to the proposal on a line.
#[derive(Debug)]
pub struct Answered {
    pub line: u32,
    pub judged: Judged,
}

impl Drop for Answered {
    fn drop(self) {
        let Answered {
            line: _,
            judged: _judged,
        } = self;
    }
}

/// Writes for each proposal, in order, what comes of it where the trains stand as the list says, in the files of these
/// names. No line of the list may move a train. All proposals are judged before the first byte is written.
pub fn answer<S: Shelf, O: Sink>(
    alloc: Global,
    scene: &str,
    list: &str,
    proposals: &str,
    shelf: &mut S,
    out: &mut O,
) -> Result<(), Status>
    ensures kept { KeepsPromise S.Shelf O.Sink
        (file_as role.Scene (Some scene.now) ∷ file_as role.List (Some list.now) ∷ file_as role.Proposals (Some proposals.now) ∷ [])
        shelf.old shelf.new out.old out.new (ended result) }
    ensures answer { AnswersReroute scene.now list.now proposals.now (S.told shelf.old) (O.written out.old) (O.written out.new) (ended result) }
{
    let scene = read_file(alloc, shelf, scene, FileRole::Scene)?;
    let list = read_file(alloc, shelf, list, FileRole::List)?;
    let proposals = read_file(alloc, shelf, proposals, FileRole::Proposals)?;
    judge_files(alloc, &scene, &list, &proposals, out)
}

/// Judges the proposals for the scene that the bytes spell, and writes the answers.
fn judge_files<O: Sink>(
    alloc: Global,
    bytes: &[u8],
    list: &[u8],
    proposals: &[u8],
    out: &mut O,
) -> Result<(), Status>
    requires list { length list.now < 2 ^ 32 - 1 }
    requires proposals { length proposals.now < 2 ^ 32 - 1 }
    ensures answer { IsAnswer (reroute_refusal bytes.now list.now proposals.now)
        (JudgesFiles bytes.now list.now proposals.now (Adds (O.written out.old) (O.written out.new)))
        (JudgesFiles bytes.now list.now proposals.now (AddsPrefix (O.written out.old) (O.written out.new))) (ended result) }
    ensures writes { WritesAnswer O.Sink out.old out.new (ended result) }
    ensures of_bytes { is_of_bytes (ended result) ≡ true }
{
    let planned = read_plant(alloc, bytes)?;
    let placed = places_of(
        alloc,
        planned.plant.names(),
        planned.plant.moves(),
        list,
        false,
    )?;
    let Planned { scene, plant } = planned;
    let answers = answers_to(alloc, &scene, plant, placed.file.positions(), proposals)?;
    write_answers(&scene, &answers, out)?;
    Ok(())
}

/// The answers to the proposals of a file, in order, where the trains stand at these places.
fn answers_to(
    alloc: Global,
    scene: &Scene,
    plant: Plant,
    positions: &[u16],
    bytes: &[u8],
) -> Result<Vec<Answered>, Fault>
    requires kept { IsScene scene.now }
    requires plant { plant ≡ plant_of_scene scene.now }
    requires compiled { compile_refusal scene.now ≡ None }
    requires valid { IsTrue (is_valid_state (moves_of (plant_of_scene scene.now)) positions.now) }
    requires short { length bytes.now < 2 ^ 32 - 1 }
    ensures accepted { OnOk result (proposals_refusal (train_names scene.now) (route_names scene.now) bytes.now ≡ None) }
    ensures answered { IfOk result (λ answers.
        AreAnswered scene.now positions.now (proposals_in (train_names scene.now) bytes.now) answers.items) }
    ensures refused { IfErr result (AnswersFirst (proposals_refusal (train_names scene.now) (route_names scene.now) bytes.now)) }
{
    let mut judge = Judge::new(alloc, scene, plant)?;
    let proposals = read_proposals(alloc, scene, judge.lookups(), bytes)?;
    let answers = answer_each(alloc, scene, &mut judge, positions, proposals.as_slice())?;
    Ok(answers)
}

/// The answer to each proposal, in order.
fn answer_each(
    alloc: Global,
    scene: &Scene,
    judge: &mut Judge,
    positions: &[u16],
    proposals: &[Proposal],
) -> Result<Vec<Answered>, OutOfMemory>
    requires own { IsJudgeFor scene.now judge.old }
    requires kept { IsScene scene.now }
    requires compiled { compile_refusal scene.now ≡ None }
    requires valid { IsTrue (is_valid_state (moves_of (plant_of_scene scene.now)) positions.now) }
    requires ready { IsTrue (list_all (is_ready scene.now) proposals.now) }
    ensures own { IsJudgeFor scene.now judge.new }
    ensures answered { IfOk result (λ answers. AreAnswered scene.now positions.now proposals.now answers.items) }
{
    let mut answers = Vec::new(alloc);
    for proposal in proposals {
        let answer = answer_to(alloc, scene, judge, positions, proposal)?;
        push(&mut answers, answer)?;
    }
    Ok(answers)
}

/// The answer to a proposal.
fn answer_to(
    alloc: Global,
    scene: &Scene,
    judge: &mut Judge,
    positions: &[u16],
    proposal: &Proposal,
) -> Result<Answered, OutOfMemory>
    requires own { IsJudgeFor scene.now judge.old }
    requires kept { IsScene scene.now }
    requires compiled { compile_refusal scene.now ≡ None }
    requires valid { IsTrue (is_valid_state (moves_of (plant_of_scene scene.now)) positions.now) }
    requires ready { IsTrue (is_ready scene.now proposal.now) }
    ensures own { IsJudgeFor scene.now judge.new }
    ensures answered { IfOk result (IsAnswered scene.now positions.now proposal.now) }
{
    let judged = judge.judge(
        alloc,
        scene,
        positions,
        proposal.train,
        proposal.routes.as_slice(),
    )?;
    Ok(Answered {
        line: proposal.line,
        judged,
    })
}

/// Puts an answer behind others.
fn push(answers: &mut Vec<Answered>, answer: Answered) -> Result<(), AllocError>
    ensures { OnOk result (answers.new.items ≡ answers.old.items ++ answer ∷ []) }
{
    answers.push(answer)?;
    Ok(())
}

/// Writes a line for each answer.
fn write_answers<O: Sink>(scene: &Scene, answers: &[Answered], out: &mut O) -> Result<(), Failed>
    ensures { WritesText O.Sink out.old out.new (answered_text scene.now answers.now) result }
{
    for answer in answers {
        write_judged(scene, answer.line, &answer.judged, out)?;
    }
    Ok(())
}
