//! `infra SCENE`: the counts of the scene, and its routes.

ghost use Rattle.std.specs.Prelude.{◌≡◌, ◌+◌, ◌≤◌, ◌++◌, ◌∷◌, [], Some, length, true};
ghost use Rattle.rail_base.specs.declared.limits.TheConstants.{ROUTE_SECTIONS};
ghost use Rattle.rail_rules.specs.Texts.{behind};
ghost use Rattle.rail_text.specs.declared.line_buffer.TheConstants.{ROOM};
ghost use Rattle.rail_scene.specs.SpelledScenes.{spelled_scene};
ghost use Rattle.rail_input.specs.Inputs.{plant_refusal};
ghost use Rattle.rail_command_line.specs.Files.{file_as};
ghost use Rattle.rail_command_line.specs.declared.files.FileRole.TheVariants as role;
ghost use Rattle.rail_forms.specs.Answers.{IsTextAnswer};
ghost use Rattle.rail_forms.specs.Infra.{AnswersInfra, count_words, counts_line, infra_text, route_length, route_line, route_lines, section_and_post_counts, step_length, train_counts, turn_and_route_counts};
ghost use Rattle.rail_forms.specs.Promises.{KeepsPromise, WritesAnswer, ended, is_of_bytes};
ghost use Rattle.rail_text.specs.Writes.{WritesText};

use crate::files::read_file;
use crate::status::Status;
use rail_command_line::FileRole;
use rail_input::read_plant;
use rail_io::{Failed, Shelf, Sink, write_whole};
use rail_routes::{Network, Route, Step};
use rail_scene::Scene;
use rail_text::LineBuffer;
use std::alloc::Global;

/// Writes the counts and routes of the scene in the file of this name.
pub fn answer<S: Shelf, O: Sink>(
    alloc: Global,
    scene: &str,
    shelf: &mut S,
    out: &mut O,
) -> Result<(), Status>
    ensures kept { KeepsPromise S.Shelf O.Sink (file_as role.Scene (Some scene.now) ∷ []) shelf.old shelf.new out.old out.new (ended result) }
    ensures answer { AnswersInfra scene.now (S.told shelf.old) (O.written out.old) (O.written out.new) (ended result) }
{
    let scene = read_file(alloc, shelf, scene, FileRole::Scene)?;
    show_scene(alloc, &scene, out)
}

/// Writes the counts and routes of the scene that the bytes spell.
fn show_scene<O: Sink>(alloc: Global, bytes: &[u8], out: &mut O) -> Result<(), Status>
    ensures answer { IsTextAnswer (plant_refusal bytes.now) (infra_text (spelled_scene bytes.now))
        (O.written out.old) (O.written out.new) (ended result) }
    ensures writes { WritesAnswer O.Sink out.old out.new (ended result) }
    ensures of_bytes { is_of_bytes (ended result) ≡ true }
{
    let planned = read_plant(alloc, bytes)?;
    write_scene(&planned.scene, out)?;
    Ok(())
}

/// Writes how many items of each kind the scene has, and then a line for each route.
fn write_scene<O: Sink>(scene: &Scene, out: &mut O) -> Result<(), Failed>
    ensures { WritesText O.Sink out.old out.new (infra_text scene.now) result }
{
    write_counts(scene, out)?;
    write_routes(&scene.network, out)
}

/// Writes a line for each route.
fn write_routes<O: Sink>(network: &Network, out: &mut O) -> Result<(), Failed>
    ensures { WritesText O.Sink out.old out.new (route_lines network.now.sections network.now.routes) result }
{
    for route in network.routes() {
        write_route(network, route, out)?;
    }
    Ok(())
}

/// Writes the line of the counts.
fn write_counts<O: Sink>(scene: &Scene, out: &mut O) -> Result<(), Failed>
    ensures { WritesText O.Sink out.old out.new (counts_line scene.now) result }
{
    let mut line = LineBuffer::new();
    line.put(b"infra");
    put_section_and_post_counts(&mut line, &scene.network);
    put_turn_and_route_counts(&mut line, &scene.network);
    put_train_counts(&mut line, scene);
    line.put(b"\n");
    write_whole(out, line.as_slice())
}

/// Puts how many sections and posts there are.
fn put_section_and_post_counts(line: &mut LineBuffer, network: &Network)
    requires { length line.old + 200 ≤ ROOM }
    ensures text { line.new ≡ line.old ++ behind (section_and_post_counts network.now) }
    ensures short { length line.new ≤ length line.old + 200 }
{
    put_count(line, b"sections", network.sections().len());
    put_count(line, b"portals", network.portals().len());
    put_count(line, b"signals", network.signals().len());
    put_count(line, b"boards", network.boards().len());
}

/// Puts how many turns and routes there are.
fn put_turn_and_route_counts(line: &mut LineBuffer, network: &Network)
    requires { length line.old + 100 ≤ ROOM }
    ensures text { line.new ≡ line.old ++ behind (turn_and_route_counts network.now) }
    ensures short { length line.new ≤ length line.old + 100 }
{
    put_count(line, b"turns", network.turns().len());
    put_count(line, b"routes", network.routes().len());
}

/// Puts how many train kinds and trains there are.
fn put_train_counts(line: &mut LineBuffer, scene: &Scene)
    requires { length line.old + 100 ≤ ROOM }
    ensures text { line.new ≡ line.old ++ behind (train_counts scene.now) }
    ensures short { length line.new ≤ length line.old + 100 }
{
    put_count(line, b"kinds", scene.kinds.as_slice().len());
    put_count(line, b"trains", scene.trains.as_slice().len());
}

/// Puts a word and a count.
fn put_count(line: &mut LineBuffer, word: &[u8], count: usize)
    requires room { length line.old + 50 ≤ ROOM }
    requires word { length word.now ≤ 8 }
    ensures text { line.new ≡ line.old ++ behind (count_words word.now count) }
    ensures short { length line.new ≤ length line.old + 50 }
{
    line.put_word(word);
    line.put_number(count as u64);
}

/// Writes the line of a route.
fn write_route<O: Sink>(network: &Network, route: &Route, out: &mut O) -> Result<(), Failed>
    requires { length route.now.steps ≤ ROUTE_SECTIONS }
    ensures { WritesText O.Sink out.old out.new (route_line network.now.sections route.now) result }
{
    let mut line = LineBuffer::new();
    line.put(b"route");
    line.put_name(&route.name);
    line.put_name(&route.from);
    line.put_name(&route.to);
    line.put_number(route_length(network, route));
    line.put_number(route.steps.as_slice().len() as u64);
    line.put(b"\n");
    write_whole(out, line.as_slice())
}

/// The metres of the sections of a route together.
fn route_length(network: &Network, route: &Route) -> u64
    requires { length route.now.steps ≤ ROUTE_SECTIONS }
    ensures { result ≡ route_length network.now.sections route.now }
{
    let mut metres = 0;
    for step in route.steps.as_slice() {
        metres += u64::from(step_length(network, step));
    }
    metres
}

/// The metres of the section of a step.
fn step_length(network: &Network, step: &Step) -> u32
    ensures { result ≡ step_length network.now.sections step.now }
{
    match network.section(step.section) {
        Some(section) => section.length,
        None => 0,
    }
}
