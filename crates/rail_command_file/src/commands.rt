//! Command files.

ghost use Rattle.std.specs.Prelude.{◌≡◌, ◌+◌, ◌-◌, ◌<◌, ◌≤◌, ◌^◌, ◌++◌, ◌∷◌, [], List, length, true, Some, None, OnOk, IfOk, IfErr};
ghost use Rattle.rail_base.specs.Limits.{most, Commands};
ghost use Rattle.rail_base.specs.Refusals.{AnswersFirst};
ghost use Rattle.rail_rules.specs.Accepted.{are_commands_in_range};
ghost use Rattle.rail_rules.specs.Plant.{Plant, trains};
ghost use Rattle.rail_text.specs.Lines.{line_at};
ghost use Rattle.rail_command_file.specs.Commands.{command_on, commands_in, commands_refusal, last_time};
ghost use Rattle.rail_command_file.specs.LineAnswers.{IsRefusedLine, LinePasses, with_line};

use crate::orders::{named_command, order_of};
use rail_base::limits::COMMANDS;
use rail_base::{Command, Fault, Names, Order, Reason, Time};
use rail_text::{NumberedLine, numbered_lines, refused_at};
use std::alloc::{AllocError, Global};

/// Reads a command file, for the sections and trains of these names.
///
/// It is refused, line by line, by the first of these that holds: as too many, at the line of the 1,025th
/// command; as no command, where a line is not a time up to ten days and then one of `policy NAME`,
/// `retire NAME`, `close SECTION`, `open SECTION`, `stop TRAIN`, `go TRAIN`, `cancel TRAIN` and
/// `priority TRAIN N` with N from 0 to 255; as of an unknown name, where no section or train has it (the
/// name of a policy is not looked up); as out of order, where its time is below that of the command before.
/// Lines count from 1; a line without a word, or whose first word begins with `#`, is skipped.
pub fn read_commands(alloc: Global, names: &Names, bytes: &[u8]) -> Result<Vec<Command>, Fault>
    requires sections { length names.now.sections.keys ≤ 2 ^ 16 }
    requires trains { length names.now.trains.keys ≤ 2 ^ 16 }
    requires short { length bytes.now < 2 ^ 32 - 1 }
    ensures commands { IfOk result (λ commands. commands.items ≡ commands_in names.now.sections.keys names.now.trains.keys bytes.now) }
    ensures accepted { OnOk result (commands_refusal names.now.sections.keys names.now.trains.keys bytes.now ≡ None) }
    ensures refused { IfErr result (AnswersFirst (commands_refusal names.now.sections.keys names.now.trains.keys bytes.now)) }
    ensures few { IfOk result (λ commands. length commands.items ≤ most Commands) }
    ensures in_range { (plant : Plant) → length plant.tables.sections ≡ length names.now.sections.keys
        → trains plant ≡ length names.now.trains.keys
        → IfOk result (λ commands. are_commands_in_range plant 0 commands.items ≡ true) }
{
    let mut commands = Vec::new(alloc);
    for NumberedLine { number, line } in numbered_lines(bytes) {
        read_line(&mut commands, names, number, line)?;
    }
    Ok(commands)
}

/// Reads a line, which has this number, behind these commands.
fn read_line(
    commands: &mut Vec<Command>,
    names: &Names,
    number: u32,
    line: &[u8],
) -> Result<(), Fault>
    requires sections { length names.now.sections.keys ≤ 2 ^ 16 }
    requires trains { length names.now.trains.keys ≤ 2 ^ 16 }
    ensures accepted { OnOk result (LinePasses names.now commands.old.items (line_at number line.now)) }
    ensures pushed { OnOk result (commands.new.items ≡ with_line names.now commands.old.items (line_at number line.now)) }
    ensures refused { IfErr result (IsRefusedLine names.now commands.old.items (line_at number line.now)) }
{
    let Command { at, what } = read_command(commands.as_slice(), names, number, line)?;
    push(commands, at, what)?;
    Ok(())
}

/// Adds a command behind the others. It takes the parts, since the type of an order has to stand in the
/// function that pushes one.
fn push(commands: &mut Vec<Command>, at: Time, what: Order) -> Result<(), AllocError>
    ensures { OnOk result (commands.new.items ≡ commands.old.items ++ record { at = at; what = what } ∷ []) }
{
    commands.push(Command { at, what })?;
    Ok(())
}

/// The command of a line, behind these commands.
fn read_command(
    before: &[Command],
    names: &Names,
    number: u32,
    line: &[u8],
) -> Result<Command, Fault>
    requires sections { length names.now.sections.keys ≤ 2 ^ 16 }
    requires trains { length names.now.trains.keys ≤ 2 ^ 16 }
    ensures accepted { OnOk result (LinePasses names.now before.now (line_at number line.now)) }
    ensures command { let line = line_at number line.now in
        IfOk result (λ command. command_on names.now.sections.keys names.now.trains.keys line ≡ Some command) }
    ensures refused { IfErr result (IsRefusedLine names.now before.now (line_at number line.now)) }
{
    if before.len() >= COMMANDS {
        return Err(refused_at(Reason::TooMany, number));
    }
    let Some(named) = named_command(line) else {
        return Err(refused_at(Reason::CommandForm, number));
    };
    let Some(what) = order_of(names, named.what) else {
        return Err(refused_at(Reason::CommandName, number));
    };
    if named.at < earliest(before) {
        return Err(refused_at(Reason::CommandOrder, number));
    }
    Ok(Command { at: named.at, what })
}

/// The time before which no further command may stand.
fn earliest(commands: &[Command]) -> Time
    ensures { result ≡ last_time commands.now }
{
    match commands.last() {
        Some(command) => command.at,
        None => Time(0),
    }
}
