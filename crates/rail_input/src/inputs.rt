//! The files of a run.

ghost use Rattle.std.specs.Prelude.{◌≡◌, ◌-◌, ◌<◌, ◌≤◌, ◌^◌, length, option_copied, true, false, None, IfOk, IfErr, IfSome, OnOk};
ghost use Rattle.rail_base.specs.Limits.{is_from_one, most, Commands, Policies};
ghost use Rattle.rail_base.specs.Refusals.{AnswersFirst};
ghost use Rattle.rail_rules.specs.Accepted.{are_commands_in_range, are_distinct_names, is_accepted, is_accepted_input};
ghost use Rattle.rail_compile.specs.Refusals.{compile_refusal};
ghost use Rattle.rail_scene.specs.Scenes.{IsScene};
ghost use Rattle.rail_input.specs.Inputs.{calls_refusal, commands_of, input_in, input_refusal, orders_refusal, refuses_file, scene_input, with_timetable};

use crate::deck::{force_of, index_in_deck};
use crate::scenes::{Planned, read_plant};
use rail_base::{Command, Fault, Name, OutOfMemory};
use rail_command_file::read_commands;
use rail_compile::compile;
use rail_plan::Plant;
use rail_scene::Scene;
use rail_timetable::read_timetable;
use std::alloc::Global;

/// What the files of a run spell: a plant with its calls, the commands in order of time, and the place in
/// the deck of the policy that is in force first, counted from 0.
#[derive(Drop)]
pub struct ReadInput {
    pub plant: Plant,
    pub commands: Vec<Command>,
    pub force: usize,
}

/// Reads the files of a run, for a deck of policies of these names. A run without a timetable has no calls,
/// and one without a command file has no commands.
///
/// It is refused by the first of these that holds: as `read_plant` refuses the scene; as of an unknown
/// policy, where the deck has none of the name that the scene gives, at the fourth key of the root; as
/// `read_timetable` refuses the timetable; as `read_commands` refuses the commands. What is read may be run
/// where the deck has 1 to 16 policies and no name stands twice.
pub fn read_input(
    alloc: Global,
    scene: &[u8],
    timetable: Option<&[u8]>,
    commands: Option<&[u8]>,
    deck: &[Name],
) -> Result<ReadInput, Fault>
    requires short_timetable { IfSome timetable (λ bytes. length bytes.now < 2 ^ 32 - 1) }
    requires short_commands { IfSome commands (λ bytes. length bytes.now < 2 ^ 32 - 1) }
    ensures accepted { OnOk result (input_refusal scene.now (option_copied timetable.entry) (option_copied commands.entry) deck.now ≡ None) }
    ensures plant { let input = input_in scene.now (option_copied timetable.entry) (option_copied commands.entry) deck.now in
        IfOk result (λ read. read.plant ≡ input.plant) }
    ensures commands { let input = input_in scene.now (option_copied timetable.entry) (option_copied commands.entry) deck.now in
        IfOk result (λ read. read.commands.items ≡ input.commands) }
    ensures force { let input = input_in scene.now (option_copied timetable.entry) (option_copied commands.entry) deck.now in
        IfOk result (λ read. read.force ≡ input.force) }
    ensures in_range { IfOk result (λ read. read.force < length deck.now) }
    ensures fine { let input = input_in scene.now (option_copied timetable.entry) (option_copied commands.entry) deck.now in
        is_from_one (most Policies) (length deck.now) ≡ true → are_distinct_names deck.now ≡ true
        → OnOk result (is_accepted_input input ≡ true) }
    ensures refused { let first = input_refusal scene.now (option_copied timetable.entry) (option_copied commands.entry) deck.now in
        IfErr result (AnswersFirst first) }
    ensures of_bytes { IfErr result (λ fault. refuses_file fault ≡ false) }
{
    let Planned { scene, plant } = read_plant(alloc, scene)?;
    let force = force_of(scene.policy, deck)?;
    let plant = with_timetable(alloc, plant, timetable)?;
    let commands = commands_of(alloc, &plant, commands)?;
    Ok(ReadInput {
        plant,
        commands,
        force,
    })
}

/// The run of a scene by itself, without calls and commands. The policy that is in force first is the one that the
/// scene names, and the first of the deck where it has none of that name. The plant of the scene must not be refused.
pub fn scene_input(alloc: Global, scene: &Scene, deck: &[Name]) -> Result<ReadInput, OutOfMemory>
    requires kept { IsScene scene.now }
    requires compiled { compile_refusal scene.now ≡ None }
    requires filled { 1 ≤ length deck.now }
    ensures plant { IfOk result (λ read. read.plant ≡ (scene_input scene.now deck.now).plant) }
    ensures commands { IfOk result (λ read. read.commands.items ≡ (scene_input scene.now deck.now).commands) }
    ensures force { IfOk result (λ read. read.force ≡ (scene_input scene.now deck.now).force) }
    ensures in_range { IfOk result (λ read. read.force < length deck.now) }
    ensures fine { is_from_one (most Policies) (length deck.now) ≡ true → are_distinct_names deck.now ≡ true
        → OnOk result (is_accepted_input (scene_input scene.now deck.now) ≡ true) }
{
    let plant = match compile(alloc, scene) {
        Ok(plant) => plant,
        Err(Fault::OutOfMemory) => return Err(OutOfMemory),
        Err(Fault::Refused(_)) => unreachable!(),
    };
    let force = index_in_deck(scene.policy, deck).unwrap_or(0);
    let commands = Vec::new(alloc);
    Ok(ReadInput {
        plant,
        commands,
        force,
    })
}

/// The plant with the calls of the timetable, where there is one.
fn with_timetable(alloc: Global, plant: Plant, timetable: Option<&[u8]>) -> Result<Plant, Fault>
    requires short { IfSome timetable (λ bytes. length bytes.now < 2 ^ 32 - 1) }
    ensures accepted { OnOk result (calls_refusal plant.tables (option_copied timetable.entry) ≡ None) }
    ensures plant { IfOk result (λ called. called ≡ with_timetable plant (option_copied timetable.entry)) }
    ensures tables { IfOk result (λ called. called.tables ≡ plant.tables) }
    ensures valid { is_accepted plant ≡ true → IfOk result (λ called. is_accepted called ≡ true) }
    ensures refused { IfErr result (AnswersFirst (calls_refusal plant.tables (option_copied timetable.entry))) }
    ensures of_bytes { IfErr result (λ fault. refuses_file fault ≡ false) }
{
    match timetable {
        Some(bytes) => {
            let calls = read_timetable(alloc, &plant, bytes)?;
            Ok(plant.with_calls(calls))
        }
        None => Ok(plant),
    }
}

/// The commands for the plant, where there is a file of them.
fn commands_of(alloc: Global, plant: &Plant, commands: Option<&[u8]>) -> Result<Vec<Command>, Fault>
    requires short { IfSome commands (λ bytes. length bytes.now < 2 ^ 32 - 1) }
    ensures accepted { OnOk result (orders_refusal plant.now.tables (option_copied commands.entry) ≡ None) }
    ensures commands { IfOk result (λ read. read.items ≡ commands_of plant.now.tables (option_copied commands.entry)) }
    ensures few { IfOk result (λ read. length read.items ≤ most Commands) }
    ensures in_range { IfOk result (λ read. are_commands_in_range plant.now 0 read.items ≡ true) }
    ensures refused { IfErr result (AnswersFirst (orders_refusal plant.now.tables (option_copied commands.entry))) }
    ensures of_bytes { IfErr result (λ fault. refuses_file fault ≡ false) }
{
    match commands {
        Some(bytes) => read_commands(alloc, plant.names(), bytes),
        None => Ok(Vec::new(alloc)),
    }
}
