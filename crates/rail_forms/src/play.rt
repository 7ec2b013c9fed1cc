//! `play SCENE LIST`: what the player answers to the list, as a line.

ghost use Rattle.std.specs.Prelude.{◌≡◌, ◌+◌, ◌-◌, ◌<◌, ◌≤◌, ◌^◌, ◌++◌, ◌∷◌, [], None, Some, IfErr, IfOk, OnOk, get_or, length, true};
ghost use Rattle.rail_rules.specs.Texts.{behind};
ghost use Rattle.rail_text.specs.declared.line_buffer.TheConstants.{ROOM};
ghost use Rattle.rail_input.specs.Inputs.{plant_in};
ghost use Rattle.rail_command_line.specs.Files.{file_as};
ghost use Rattle.rail_command_line.specs.declared.files.FileRole.TheVariants as role;
ghost use Rattle.rail_forms.specs.Answers.{IsTextAnswer};
ghost use Rattle.rail_text.specs.Names.{names_in};
ghost use Rattle.rail_forms.specs.Plays.{AnswersPlay, IsListAnswer, bar_words, list_refusal, places_refusal, play_refusal, play_text, played_line, played_words, shared_at};
ghost use Rattle.rail_place.specs.PlaceStates.{IsMadeFor};
ghost use Rattle.rail_place.specs.Tables.{moves_in};
ghost use Rattle.rail_text.specs.Lines.{lines_of};
ghost use Rattle.rail_command_line.specs.ListAnswers.{IsListFor, read_of};
ghost use Rattle.rail_forms.specs.Promises.{KeepsPromise, WritesAnswer, ended, is_of_bytes};
ghost use Rattle.rail_text.specs.Writes.{WritesText};

use crate::files::read_file;
use crate::status::Status;
use rail_base::{Names, Part, Reason, Refusal, TrainNo};
use rail_command_line::{FileRole, ListFile, read_list};
use rail_input::read_plant;
use rail_io::{Failed, Shelf, Sink, write_whole};
use rail_place::{Barred, Moves, Places, PlacesFault, Played};
use rail_plan::Plant;
use rail_text::LineBuffer;
use std::alloc::Global;

/// Writes what the player of the scene answers to the list, in the files of these names.
pub fn answer<S: Shelf, O: Sink>(
    alloc: Global,
    scene: &str,
    list: &str,
    shelf: &mut S,
    out: &mut O,
) -> Result<(), Status>
    ensures kept { KeepsPromise S.Shelf O.Sink
        (file_as role.Scene (Some scene.now) ∷ file_as role.List (Some list.now) ∷ [])
        shelf.old shelf.new out.old out.new (ended result) }
    ensures answer { AnswersPlay scene.now list.now (S.told shelf.old) (O.written out.old) (O.written out.new) (ended result) }
{
    let scene = read_file(alloc, shelf, scene, FileRole::Scene)?;
    let list = read_file(alloc, shelf, list, FileRole::List)?;
    play_list(alloc, &scene, &list, out)
}

/// Writes what the player of the scene that the bytes spell answers to the list.
fn play_list<O: Sink>(alloc: Global, bytes: &[u8], list: &[u8], out: &mut O) -> Result<(), Status>
    requires { length list.now < 2 ^ 32 - 1 }
    ensures answer { IsTextAnswer (play_refusal bytes.now list.now) (play_text (plant_in bytes.now) list.now)
        (O.written out.old) (O.written out.new) (ended result) }
    ensures writes { WritesAnswer O.Sink out.old out.new (ended result) }
    ensures of_bytes { is_of_bytes (ended result) ≡ true }
{
    let planned = read_plant(alloc, bytes)?;
    play_on_plant(alloc, &planned.plant, list, out)
}

/// Reads the list, plays it on the plant, and writes the answer.
fn play_on_plant<O: Sink>(
    alloc: Global,
    plant: &Plant,
    list: &[u8],
    out: &mut O,
) -> Result<(), Status>
    requires { length list.now < 2 ^ 32 - 1 }
    ensures answer { IsTextAnswer (list_refusal plant.now true list.now) (play_text plant.now list.now)
        (O.written out.old) (O.written out.new) (ended result) }
    ensures writes { WritesAnswer O.Sink out.old out.new (ended result) }
    ensures of_bytes { is_of_bytes (ended result) ≡ true }
{
    let names = plant.names();
    let moves = plant.moves();
    let mut placed = places_of(alloc, names, moves, list, true)?;
    let played = placed.places.play(moves, placed.file.list());
    write_played(names, placed.file.list(), played, out)?;
    Ok(())
}

/// A list file, and the places at which the trains stand by it.
pub struct PlacedList {
    pub file: ListFile,
    pub places: Places,
}

impl Drop for PlacedList {
    fn drop(self) {
        let PlacedList {
            file: _file,
            places: _places,
        } = self;
    }
}

/// What a list file says, and the places at which the trains stand by it, which have these names and moves. Where no line of
/// it may move a train, one that does is refused.
pub(crate) fn places_of(
    alloc: Global,
    names: &Names,
    moves: &Moves,
    list: &[u8],
    may_move: bool,
) -> Result<PlacedList, Status>
    requires names { length names.now.trains.keys ≡ length moves.now }
    requires short { length list.now < 2 ^ 32 - 1 }
    ensures accepted { OnOk result (places_refusal names.now.trains.keys (moves_in moves.now) (length moves.now) may_move list.now ≡ None) }
    ensures listed { IfOk result (λ placed. placed.file ≡ read_of names.now.trains.keys (length moves.now) (lines_of list.now)) }
    ensures list { IfOk result (λ placed. IsListFor moves.now placed.file) }
    ensures places { IfOk result (λ placed. placed.places.positions ≡ placed.file.positions) }
    ensures made { IfOk result (λ placed. IsMadeFor moves.now placed.places) }
    ensures refused { IfErr result (IsListAnswer
        (places_refusal names.now.trains.keys (moves_in moves.now) (length moves.now) may_move list.now)) }
    ensures of_bytes { IfErr result (λ status. is_of_bytes status ≡ true) }
{
    let file = read_list(alloc, names, moves, may_move, list)?;
    match Places::new(alloc, moves, file.positions()) {
        Ok(places) => Ok(PlacedList { file, places }),
        Err(PlacesFault::OutOfMemory) => Err(Status::OutOfMemory),
        Err(PlacesFault::Overlap { .. }) => Err(Status::Refused(shared(file.last_at()))),
    }
}

/// The refusal of a list where two trains hold one section.
fn shared(line: u32) -> Refusal
    ensures { result ≡ shared_at line }
{
    Refusal {
        reason: Reason::ListPlaces,
        part: Part::Line,
        item: line,
        step: 0,
    }
}

/// Writes the answer to a list as one line.
fn write_played<O: Sink>(
    names: &Names,
    list: &[TrainNo],
    played: Played,
    out: &mut O,
) -> Result<(), Failed>
    ensures { WritesText O.Sink out.old out.new (played_line (names_in names.now) list.now played) result }
{
    let mut line = LineBuffer::new();
    put_played(&mut line, names, list, played);
    line.put(b"\n");
    write_whole(out, line.as_slice())
}

/// Puts the answer.
fn put_played(line: &mut LineBuffer, names: &Names, list: &[TrainNo], played: Played)
    requires { line.old ≡ [] }
    ensures text { line.new ≡ played_words (names_in names.now) list.now played }
    ensures short { length line.new ≤ 200 }
{
    match played {
        Played::Completes => line.put(b"completes"),
        Played::Inside { train } => {
            line.put(b"inside");
            line.put_train(names, train);
        }
        Played::Illegal { index, why } => {
            line.put(b"illegal");
            line.put_number(u64::from(index));
            put_bar(line, names, train_at(list, index), why);
        }
    }
}

/// Puts why a train may not move.
fn put_bar(line: &mut LineBuffer, names: &Names, train: TrainNo, why: Barred)
    requires { length line.old + 60 ≤ ROOM }
    ensures text { line.new ≡ line.old ++ behind (bar_words (names_in names.now) train why) }
    ensures short { length line.new ≤ length line.old + 60 }
{
    match why {
        Barred::Outside => {
            line.put_word(b"outside");
            line.put_train(names, train);
        }
        Barred::Out => {
            line.put_word(b"out");
            line.put_train(names, train);
        }
        Barred::Held { section, holder } => {
            line.put_word(b"held");
            line.put_train(names, train);
            line.put_section(names, section);
            line.put_train(names, holder);
        }
    }
}

/// The train of the list at this number, which counts from 1.
fn train_at(list: &[TrainNo], index: u32) -> TrainNo
    ensures { result ≡ get_or list.now (index - 1) 0 }
{
    match list.get((index as usize).saturating_sub(1)) {
        Some(train) => *train,
        None => TrainNo(0),
    }
}
