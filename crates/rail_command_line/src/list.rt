//! List files: where the trains stand, and the moves to be made.

ghost use Rattle.std.specs.Prelude.{◌≡◌, ℕ, Bool, ◌+◌, ◌-◌, ◌<◌, ◌≤◌, ◌^◌, ◌++◌, [], List, length, map, set, true, false, Some, None, OnOk, IfOk, IfErr};
ghost use Rattle.std.specs.List.{list_all};
ghost use Rattle.rail_base.specs.NameForms.{is_name};
ghost use Rattle.rail_place.specs.Tables.{moves_in};
ghost use Rattle.rail_rules.specs.Moves.{Moves as plan_of_moves};
ghost use Rattle.rail_text.specs.Lines.{lines_of, words};
ghost use Rattle.rail_command_line.specs.Lists.{knows, list_line_refusal, moves_trains, number_of_train, sets};
ghost use Rattle.rail_base.specs.Refusals.{AnswersFirst};
ghost use Rattle.rail_command_line.specs.ListAnswers.{IsListFor, IsPosition, IsRefusedMoves, IsRefusedPosition, after_line, after_moves, after_position, asked_refusal, read_of, words_refusal};

use crate::checking::{ListVerb, are_known, are_names, read_position, train_of, verb_of};
use rail_base::{Fault, Name, Names, Reason, TrainNo};
use rail_place::Moves;
use rail_text::{NumberedLine, next_word, numbered_lines, refused_at};
use std::alloc::{AllocError, Global};
use std::marker::Model;

/// What a list file says: where the trains stand, and the moves to be made.
#[derive(Debug)]
pub struct ListFile {
    positions: Vec<u16>,
    list: Vec<TrainNo>,
    last_at: u32,
    has_moved: bool,
}

impl Drop for ListFile {
    fn drop(self) {
        let ListFile {
            positions: _positions,
            list: _list,
            last_at: _last_at,
            has_moved: _has_moved,
        } = self;
    }
}

impl Model for ListFile {
    ghost use Rattle.rail_command_line.specs.ListAnswers.{ReadList};

    ghost Value = { ReadList };

    ghost view = { λ file. record {
      positions = file.positions.items;
      list = file.list.items;
      last_at = file.last_at;
      has_moved = file.has_moved;
    } };
}

impl ListFile {
    /// What is kept before the first line: all trains are outside.
    fn new(alloc: Global, trains: u16) -> Result<ListFile, AllocError>
        ensures { IfOk result (λ file. file ≡ read_of [] trains []) }
    {
        Ok(ListFile {
            positions: vec![in alloc; 0; usize::from(trains)]?,
            list: Vec::new(alloc),
            last_at: 0,
            has_moved: false,
        })
    }

    /// How many moves each train has made.
    pub fn positions(&self) -> &[u16]
        ensures { result.now ≡ self.now.positions }
    {
        self.positions.as_slice()
    }

    /// The trains that are to make a move, in order.
    pub fn list(&self) -> &[TrainNo]
        ensures { result.now ≡ self.now.list }
    {
        self.list.as_slice()
    }

    /// The last line that says where a train stands, counted from 1; 0 where there is none.
    pub fn last_at(&self) -> u32
        ensures { result ≡ self.now.last_at }
    {
        self.last_at
    }

    /// Reads a line, which has this number. It moves trains only where lines may.
    fn read_line(
        &mut self,
        names: &Names,
        moves: &Moves,
        may_move: bool,
        number: u32,
        line: &[u8],
    ) -> Result<(), Fault>
        requires names { length names.now.trains.keys ≡ length moves.now }
        requires few { length moves.now ≤ 2 ^ 16 }
        requires list { IsListFor moves.now self.old }
        ensures accepted { OnOk result (words_refusal names.now.trains.keys (moves_in moves.now) may_move self.old number (words line.now) ≡ None) }
        ensures listed { OnOk result (self.new ≡ after_line names.now.trains.keys self.old number (words line.now)) }
        ensures list { OnOk result (IsListFor moves.now self.new) }
        ensures refused { IfErr result (AnswersFirst (words_refusal names.now.trains.keys (moves_in moves.now) may_move self.old number (words line.now))) }
    {
        let Some((verb, args)) = next_word(line) else {
            return Ok(());
        };
        match verb_of(verb) {
            ListVerb::At => self.read_at(names, moves, number, args),
            ListVerb::Move if may_move => self.read_moves(names, number, args),
            ListVerb::Move | ListVerb::Other => Err(refused_at(Reason::ListForm, number)),
        }
    }

    /// Reads what stands behind `at`.
    fn read_at(
        &mut self,
        names: &Names,
        moves: &Moves,
        number: u32,
        args: &[u8],
    ) -> Result<(), Fault>
        requires names { length names.now.trains.keys ≡ length moves.now }
        requires few { length moves.now ≤ 2 ^ 16 }
        requires list { IsListFor moves.now self.old }
        ensures accepted { (may_move : Bool) (verb : List ℕ) → sets verb ≡ true →
            OnOk result (asked_refusal names.now.trains.keys (moves_in moves.now) may_move self.old number verb (words args.now) ≡ None) }
        ensures listed { OnOk result (self.new ≡ after_position names.now.trains.keys self.old number (words args.now)) }
        ensures list { OnOk result (IsListFor moves.now self.new) }
        ensures refused { (may_move : Bool) (verb : List ℕ) → sets verb ≡ true →
            IfErr result (AnswersFirst (asked_refusal names.now.trains.keys (moves_in moves.now) may_move self.old number verb (words args.now))) }
    {
        if self.has_moved {
            return Err(refused_at(Reason::ListForm, number));
        }
        match read_position(args) {
            Some((train, position)) => self.set(names, moves, number, train, position),
            None => Err(refused_at(Reason::ListForm, number)),
        }
    }

    /// Reads what stands behind `move`.
    fn read_moves(&mut self, names: &Names, number: u32, args: &[u8]) -> Result<(), Fault>
        requires few { length names.now.trains.keys ≤ 2 ^ 16 }
        ensures accepted { (plan : plan_of_moves) (verb : List ℕ) → sets verb ≡ false → moves_trains verb ≡ true →
            OnOk result (asked_refusal names.now.trains.keys plan true self.old number verb (words args.now) ≡ None) }
        ensures listed { OnOk result (self.new ≡ after_moves names.now.trains.keys self.old (words args.now)) }
        ensures known { OnOk result (list_all (knows names.now.trains.keys) (words args.now) ≡ true) }
        ensures refused { (plan : plan_of_moves) (verb : List ℕ) → sets verb ≡ false → moves_trains verb ≡ true →
            IfErr result (AnswersFirst (asked_refusal names.now.trains.keys plan true self.old number verb (words args.now))) }
    {
        if !are_names(args) {
            return Err(refused_at(Reason::ListForm, number));
        }
        self.add(names, number, args)
    }

    /// Puts a train at a position.
    fn set(
        &mut self,
        names: &Names,
        moves: &Moves,
        number: u32,
        name: Name,
        position: u64,
    ) -> Result<(), Fault>
        requires names { length names.now.trains.keys ≡ length moves.now }
        requires few { length moves.now ≤ 2 ^ 16 }
        requires list { IsListFor moves.now self.old }
        ensures accepted { OnOk result (IsPosition names.now.trains.keys (moves_in moves.now) name position) }
        ensures listed { OnOk result (self.new ≡ record self.old {
          positions = set self.old.positions (number_of_train names.now.trains.keys name) position;
          last_at = number;
        }) }
        ensures list { OnOk result (IsListFor moves.now self.new) }
        ensures refused { IfErr result (IsRefusedPosition names.now.trains.keys (moves_in moves.now) name position number) }
    {
        let Some(train) = names.train(name) else {
            return Err(refused_at(Reason::ListName, number));
        };
        if position > u64::from(moves.places(train)) {
            return Err(refused_at(Reason::ListForm, number));
        }
        self.positions[usize::from(train.0)] = position as u16;
        self.last_at = number;
        Ok(())
    }

    /// Adds a move of each train.
    fn add(&mut self, names: &Names, number: u32, args: &[u8]) -> Result<(), Fault>
        requires few { length names.now.trains.keys ≤ 2 ^ 16 }
        requires named { list_all is_name (words args.now) ≡ true }
        ensures known { OnOk result (list_all (knows names.now.trains.keys) (words args.now) ≡ true) }
        ensures listed { OnOk result (self.new ≡ after_moves names.now.trains.keys self.old (words args.now)) }
        ensures refused { IfErr result (IsRefusedMoves names.now.trains.keys (words args.now) number) }
    {
        if !are_known(names, args) {
            return Err(refused_at(Reason::ListName, number));
        }
        push_trains(&mut self.list, names, args)?;
        self.has_moved = true;
        Ok(())
    }
}

/// Pushes the train that each word names.
fn push_trains(list: &mut Vec<TrainNo>, names: &Names, args: &[u8]) -> Result<(), AllocError>
    requires few { length names.now.trains.keys ≤ 2 ^ 16 }
    requires named { list_all is_name (words args.now) ≡ true }
    requires known { list_all (knows names.now.trains.keys) (words args.now) ≡ true }
    ensures { OnOk result (list.new.items ≡ list.old.items ++ map (number_of_train names.now.trains.keys) (words args.now)) }
{
    let mut left = args;
    while let Some((word, rest)) = next_word(left) {
        if let Some(train) = train_of(names, word) {
            list.push(train)?;
        }
        left = rest;
    }
    Ok(())
}

/// Reads a list file. `names` has the names of the trains whose moves these are.
///
/// It is refused, line by line, by the first of these that holds: as no list file, where a line is not
/// `at TRAIN POSITION`, before any train is moved, or `move TRAIN [TRAIN ..]`, where lines may move trains; as of an unknown name,
/// where a train has none of the names; as no list file, where a position is above the train's number of
/// moves. Lines count from 1; a line without a word, or whose first word begins with `#`, is skipped.
pub fn read_list(
    alloc: Global,
    names: &Names,
    moves: &Moves,
    may_move: bool,
    bytes: &[u8],
) -> Result<ListFile, Fault>
    requires names { length names.now.trains.keys ≡ length moves.now }
    requires short { length bytes.now < 2 ^ 32 - 1 }
    ensures accepted { OnOk result (list_line_refusal names.now.trains.keys (moves_in moves.now) may_move bytes.now ≡ None) }
    ensures listed { IfOk result (λ file. file ≡ read_of names.now.trains.keys (length moves.now) (lines_of bytes.now)) }
    ensures list { IfOk result (IsListFor moves.now) }
    ensures refused { IfErr result (AnswersFirst (list_line_refusal names.now.trains.keys (moves_in moves.now) may_move bytes.now)) }
{
    let mut file = ListFile::new(alloc, moves.trains())?;
    for NumberedLine { number, line } in numbered_lines(bytes) {
        file.read_line(names, moves, may_move, number, line)?;
    }
    Ok(file)
}
