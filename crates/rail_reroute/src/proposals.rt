//! Files of proposals, line by line.

ghost use Rattle.std.specs.Prelude.{◌≡◌, ◌-◌, ◌<◌, ◌≤◌, ◌^◌, ◌++◌, ◌∷◌, [], cond, length, map, option_map, IsTrue, None, Some, IfOk, IfErr, OnOk};
ghost use Rattle.std.specs.List.{list_all};
ghost use Rattle.rail_base.specs.FirstRefusals.{first_failing};
ghost use Rattle.rail_base.specs.Lists.{are_distinct};
ghost use Rattle.rail_base.specs.Refusals.{AnswersFirst};
ghost use Rattle.rail_compile.specs.Ways.{AreLookups};
ghost use Rattle.rail_scene.specs.Scenes.{IsScene, is_one_train};
ghost use Rattle.rail_scene.specs.declared.scene.SceneTrain.{SceneTrain};
ghost use Rattle.rail_text.specs.Lines.{line_at, number_of_name, words};
ghost use Rattle.rail_reroute.specs.Proposals.{are_in, is_in_names, is_proposal, is_ready, line_tests, proposal_on, proposals_in, proposals_refusal, route_names, train_names};

use indexmap::IndexSet;
use rail_base::{Fault, Name, Reason, Seq, TrainNo};
use rail_compile::Lookups;
use rail_scene::{Scene, SceneTrain};
use rail_text::{NumberedLine, next_word, numbered_lines, read_names, refused_at};
use std::alloc::{AllocError, Global};

/// A proposal: a train, and the routes that it would take from where it stands.
#[derive(Debug)]
pub struct Proposal {
    /// The line on which it stands, counted from 1.
    pub line: u32,
    pub train: TrainNo,
    /// The names of the routes, in order.
    pub routes: Seq<Name>,
}

impl Drop for Proposal {
    fn drop(self) {
        let Proposal {
            line: _,
            train: _,
            routes: _routes,
        } = self;
    }
}

/// The proposals of a file for a scene, in the order of their lines.
///
/// It is refused, line by line, by the first of these that holds: as no proposal, where a line is not two names or more;
/// as of an unknown name, where no train has the first name or no route one of the others. Lines count from 1; a line
/// without a word, or whose first word begins with `#`, is skipped.
pub fn read_proposals(
    alloc: Global,
    scene: &Scene,
    lookups: &Lookups,
    bytes: &[u8],
) -> Result<Seq<Proposal>, Fault>
    requires scene { IsScene scene.now }
    requires lookups { AreLookups scene.now lookups.now }
    requires short { length bytes.now < 2 ^ 32 - 1 }
    ensures accepted { OnOk result (proposals_refusal (train_names scene.now) (route_names scene.now) bytes.now ≡ None) }
    ensures read { IfOk result (λ proposals. proposals ≡ proposals_in (train_names scene.now) bytes.now) }
    ensures ready { IfOk result (λ proposals. IsTrue (list_all (is_ready scene.now) proposals)) }
    ensures refused { IfErr result (AnswersFirst (proposals_refusal (train_names scene.now) (route_names scene.now) bytes.now)) }
{
    let trains = train_names(alloc, scene.trains.as_slice())?;
    let proposals = read_lines(alloc, &trains, &lookups.ways.names, bytes)?;
    Ok(Seq::from_vec(proposals))
}

/// The names of the trains in their order.
fn train_names(alloc: Global, trains: &[SceneTrain]) -> Result<IndexSet<Name>, AllocError>
    requires { IsTrue (are_distinct is_one_train trains.now) }
    ensures { IfOk result (λ names. names.keys ≡ map (λ (train : SceneTrain). train.name) trains.now) }
{
    let mut names = IndexSet::with_capacity(alloc, trains.len())?;
    for train in trains {
        names.insert(train.name)?;
    }
    Ok(names)
}

/// The proposals of a file, for trains and routes of these names.
fn read_lines(
    alloc: Global,
    trains: &IndexSet<Name>,
    routes: &IndexSet<Name>,
    bytes: &[u8],
) -> Result<Vec<Proposal>, Fault>
    requires trains { length trains.now.keys ≤ 2 ^ 16 }
    requires short { length bytes.now < 2 ^ 32 - 1 }
    ensures accepted { OnOk result (proposals_refusal trains.now.keys routes.now.keys bytes.now ≡ None) }
    ensures read { IfOk result (λ proposals. proposals.items ≡ proposals_in trains.now.keys bytes.now) }
    ensures refused { IfErr result (AnswersFirst (proposals_refusal trains.now.keys routes.now.keys bytes.now)) }
{
    let mut proposals = Vec::new(alloc);
    for NumberedLine { number, line } in numbered_lines(bytes) {
        read_line(alloc, trains, routes, &mut proposals, number, line)?;
    }
    Ok(proposals)
}

/// Reads a line, which has this number, behind these proposals.
fn read_line(
    alloc: Global,
    trains: &IndexSet<Name>,
    routes: &IndexSet<Name>,
    proposals: &mut Vec<Proposal>,
    number: u32,
    line: &[u8],
) -> Result<(), Fault>
    requires trains { length trains.now.keys ≤ 2 ^ 16 }
    ensures accepted { OnOk result (first_failing (line_tests trains.now.keys routes.now.keys (line_at number line.now)) ≡ None) }
    ensures pushed { OnOk result (proposals.new.items ≡ proposals.old.items ++ proposal_on trains.now.keys (line_at number line.now) ∷ []) }
    ensures refused { IfErr result (AnswersFirst (first_failing (line_tests trains.now.keys routes.now.keys (line_at number line.now)))) }
{
    let proposal = proposal_of(alloc, trains, routes, number, line)?;
    push(proposals, proposal)?;
    Ok(())
}

/// Adds a proposal behind the others.
fn push(proposals: &mut Vec<Proposal>, proposal: Proposal) -> Result<(), AllocError>
    ensures { OnOk result (proposals.new.items ≡ proposals.old.items ++ proposal ∷ []) }
{
    proposals.push(proposal)?;
    Ok(())
}

/// The proposal of a line, which has this number.
fn proposal_of(
    alloc: Global,
    trains: &IndexSet<Name>,
    routes: &IndexSet<Name>,
    number: u32,
    line: &[u8],
) -> Result<Proposal, Fault>
    requires trains { length trains.now.keys ≤ 2 ^ 16 }
    ensures accepted { OnOk result (first_failing (line_tests trains.now.keys routes.now.keys (line_at number line.now)) ≡ None) }
    ensures proposal { IfOk result (λ proposal. proposal ≡ proposal_on trains.now.keys (line_at number line.now)) }
    ensures refused { IfErr result (AnswersFirst (first_failing (line_tests trains.now.keys routes.now.keys (line_at number line.now)))) }
{
    let Some((train, names)) = way_on(alloc, line)? else {
        return Err(refused_at(Reason::RerouteForm, number));
    };
    let Some(train) = train_of(trains, routes, train, &names) else {
        return Err(refused_at(Reason::RerouteName, number));
    };
    Ok(Proposal {
        line: number,
        train,
        routes: Seq::from_vec(names),
    })
}

/// The names of a train and of its routes that a line has: `None` exactly where it is not two names or more.
fn way_on(alloc: Global, line: &[u8]) -> Result<Option<(Name, Vec<Name>)>, AllocError>
    ensures { IfOk result (λ read.
        option_map (λ way. way.0 ∷ way.1.items) read ≡ cond (is_proposal (words line.now)) (Some (words line.now)) None) }
{
    let Some((word, rest)) = next_word(line) else {
        return Ok(None);
    };
    let Some(train) = Name::read(word) else {
        return Ok(None);
    };
    let Some(routes) = read_names(alloc, rest)? else {
        return Ok(None);
    };
    if routes.is_empty() {
        return Ok(None);
    }
    Ok(Some((train, routes)))
}

/// The number of the train, where it and the routes are known.
fn train_of(
    trains: &IndexSet<Name>,
    routes: &IndexSet<Name>,
    train: Name,
    names: &[Name],
) -> Option<TrainNo>
    requires { length trains.now.keys ≤ 2 ^ 16 }
    ensures { result ≡ cond (are_in trains.now.keys routes.now.keys (train ∷ names.now)) (number_of_name trains.now.keys train) None }
{
    let index = trains.get_index_of(&train)?;
    if are_routes(routes, names) {
        Some(TrainNo(index as u16))
    } else {
        None
    }
}

/// Whether each name is that of a route.
fn are_routes(routes: &IndexSet<Name>, names: &[Name]) -> bool
    ensures { result ≡ list_all (is_in_names routes.now.keys) names.now }
{
    names.iter().all(|name| is_route(routes, *name))
}

/// Whether a route has the name.
fn is_route(routes: &IndexSet<Name>, name: Name) -> bool
    ensures { result ≡ is_in_names routes.now.keys name }
{
    routes.get_index_of(&name).is_some()
}
