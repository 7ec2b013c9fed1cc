//! What a plant keeps beside its tables: the moves and the names that they spell.

ghost use Rattle.std.specs.Prelude.{◌≡◌, ℕ, ◌+◌, ◌-◌, ◌<◌, ◌^◌, ◌++◌, ◌∷◌, [], OnOk, get_or, None, IsTrue, IfErr, IfOk, length, map, min, sum_by};
ghost use Rattle.std.specs.List.{All};
ghost use Rattle.rail_base.specs.declared.plant.MoveRow.{MoveRow};
ghost use Rattle.rail_base.specs.declared.plant.SectionRow.{SectionRow};
ghost use Rattle.rail_base.specs.declared.plant.TrainRow.{TrainRow};
ghost use Rattle.rail_base.specs.declared.limits.TheConstants.{TRAINS};
ghost use Rattle.rail_rules.specs.Plant.{moves_of, no_move, no_train};
ghost use Rattle.rail_rules.specs.Accepted.{are_distinct_names, is_move_in_range};
ghost use Rattle.rail_place.specs.Tables.{moves_in};
ghost use Rattle.rail_plan.specs.PlanFaults.{IsAnswer, IsPlannable, bare, fault_of, fault_of_train, standing_of};
ghost use Rattle.rail_plan.specs.Alike.{IsMadeTo};
ghost use Rattle.rail_plan.specs.MoveTables.{row_with, spelled, table_of, with_moves};

use crate::alike::train_like;
use crate::faults::{PlanFault, first_fault};
use crate::lent::{LentMove, lent_rows};
use crate::rows::train_row;
use crate::standing::standing;
use indexmap::IndexSet;
use rail_base::{Name, Names, OutOfMemory, SectionRow, Tables, TrainNo, TrainRow};
use rail_place::{Moves, SectionLists};
use std::alloc::{AllocError, Global};

/// So many trains at most are kept, whose moves are compared with those of each train behind them.
const KEPT_TRAINS: usize = 8;

/// The moves of the trains: the sections that each needs, its overlap, and where the train stands after it. Nothing is
/// said of a standing set after a train's last move, so it is kept as for the others. Refused is the first fault of the
/// tables, train by train and place by place.
pub fn moves_of(alloc: Global, tables: &Tables) -> Result<Moves, PlanFault>
    requires { IsPlannable tables.now }
    ensures accepted { OnOk result (fault_of tables.now ≡ None) }
    ensures table { IfOk result (λ moves. moves ≡ table_of tables.now) }
    ensures moves { IfOk result (λ moves. moves_in moves ≡ moves_of (bare tables.now)) }
    ensures refused { IfErr result (IsAnswer (fault_of tables.now)) }
{
    let mut moves = Moves::new(alloc);
    let mut kept = Vec::with_capacity(alloc, KEPT_TRAINS)?;
    for index in 0..tables.trains.as_slice().len() {
        let train = TrainNo(index as u16);
        push_moves_behind(alloc, tables, train, &mut kept, &mut moves)?;
    }
    Ok(moves)
}

/// Adds the moves of the train behind those of all trains before it, or tells its first fault. It shares them with one of
/// the kept trains that is like it; where none is, it is kept too as long as there is room.
fn push_moves_behind(
    alloc: Global,
    tables: &Tables,
    train: TrainNo,
    kept: &mut Vec<TrainNo>,
    moves: &mut Moves,
) -> Result<(), PlanFault>
    requires tables { IsPlannable tables.now }
    requires train { train < length tables.now.trains }
    requires made { IsMadeTo tables.now train moves.old }
    requires kept { All (λ k. k < train) kept.old.items }
    ensures accepted { OnOk result (fault_of_train (bare tables.now) train ≡ None) }
    ensures made { OnOk result (IsMadeTo tables.now (train + 1) moves.new) }
    ensures kept { OnOk result (All (λ k. k < train + 1) kept.new.items) }
    ensures refused { IfErr result (IsAnswer (fault_of_train (bare tables.now) train)) }
{
    if let Some(first) = train_like(tables, kept, train) {
        moves.push_like(first)?;
        return Ok(());
    }
    push_moves_of(alloc, tables, train, moves)?;
    keep(kept, train)?;
    Ok(())
}

/// Keeps the train as long as there is room.
fn keep(kept: &mut Vec<TrainNo>, train: TrainNo) -> Result<(), AllocError>
    requires { All (λ k. k < train) kept.old.items }
    ensures { OnOk result (All (λ k. k < train + 1) kept.new.items) }
{
    if kept.len() < KEPT_TRAINS {
        kept.push(train)?;
    }
    Ok(())
}

/// Adds the moves of the train behind those of others, or tells its first fault.
fn push_moves_of(
    alloc: Global,
    tables: &Tables,
    train: TrainNo,
    moves: &mut Moves,
) -> Result<(), PlanFault>
    requires tables { IsPlannable tables.now }
    requires train { train < length tables.now.trains }
    requires room { length moves.old < TRAINS }
    ensures accepted { OnOk result (fault_of_train (bare tables.now) train ≡ None) }
    ensures moves { OnOk result (moves.new ≡ moves.old ++ spelled (bare tables.now) (get_or tables.now.trains train no_train) ∷ []) }
    ensures refused { IfErr result (IsAnswer (fault_of_train (bare tables.now) train)) }
{
    let rows = lent_rows(alloc, train_row(tables, train).moves.as_slice())?;
    push_moves(alloc, tables, train, rows.as_slice(), moves)
}

/// The moves of one train alone, where it makes these in place of those of its row. Refused is its first fault with them,
/// place by place, as `Plant::new` refuses it.
pub fn moves_over(
    alloc: Global,
    tables: &Tables,
    train: TrainNo,
    rows: &[LentMove<'_>],
) -> Result<Moves, PlanFault>
    requires tables { IsPlannable tables.now }
    requires train { train < length tables.now.trains }
    requires changed { IsPlannable (with_moves tables.now train rows.now) }
    ensures accepted { OnOk result (fault_of_train (bare (with_moves tables.now train rows.now)) train ≡ None) }
    ensures moves { IfOk result (λ moves. moves ≡ spelled (bare tables.now) (row_with tables.now train rows.now) ∷ []) }
    ensures refused { IfErr result (IsAnswer (fault_of_train (bare (with_moves tables.now train rows.now)) train)) }
{
    let mut moves = Moves::new(alloc);
    push_moves(alloc, tables, train, rows, &mut moves)?;
    Ok(moves)
}

/// Adds these moves of the train behind those of others, or tells its first fault with them.
fn push_moves(
    alloc: Global,
    tables: &Tables,
    train: TrainNo,
    rows: &[LentMove<'_>],
    moves: &mut Moves,
) -> Result<(), PlanFault>
    requires tables { IsPlannable tables.now }
    requires train { train < length tables.now.trains }
    requires changed { IsPlannable (with_moves tables.now train rows.now) }
    requires room { length moves.old < TRAINS }
    ensures accepted { OnOk result (fault_of_train (bare (with_moves tables.now train rows.now)) train ≡ None) }
    ensures moves { OnOk result (moves.new ≡ moves.old ++ spelled (bare tables.now) (row_with tables.now train rows.now) ∷ []) }
    ensures refused { IfErr result (IsAnswer (fault_of_train (bare (with_moves tables.now train rows.now)) train)) }
{
    let metres = train_row(tables, train).kind.length;
    let stand = stands_of(alloc, tables, metres, rows)?;
    if let Some(fault) = first_fault(tables, train, metres, rows, &stand) {
        return Err(fault);
    }
    let need = needs_of(alloc, rows)?;
    let over = overs_of(alloc, rows)?;
    moves.push_train(alloc, need, over, stand)?;
    Ok(())
}

/// The sections that each move needs, those of its route in order.
fn needs_of(alloc: Global, moves: &[LentMove<'_>]) -> Result<SectionLists, AllocError>
    ensures { IfOk result (λ needs. needs ≡ map (λ (row : MoveRow). row.sections) moves.now) }
{
    let mut needs = SectionLists::with_capacity(alloc, moves.len(), sections_in(moves))?;
    for row in moves {
        needs.push(row.sections())?;
    }
    Ok(needs)
}

/// The sections of the overlap of each move.
fn overs_of(alloc: Global, moves: &[LentMove<'_>]) -> Result<SectionLists, AllocError>
    ensures { IfOk result (λ overs. overs ≡ map (λ (row : MoveRow). row.overlap) moves.now) }
{
    let mut overs = SectionLists::with_capacity(alloc, moves.len(), 0)?;
    for row in moves {
        overs.push(row.overlap())?;
    }
    Ok(overs)
}

/// Where a train of so many metres stands after each move.
fn stands_of(
    alloc: Global,
    tables: &Tables,
    metres: u32,
    moves: &[LentMove<'_>],
) -> Result<SectionLists, AllocError>
    requires tables { IsPlannable tables.now }
    requires fine { (m : ℕ) → m < length moves.now → IsTrue (is_move_in_range (length tables.now.sections) (get_or moves.now m no_move)) }
    ensures { IfOk result (λ stands. stands ≡ map (standing_of (bare tables.now) metres) moves.now) }
{
    let mut stands = SectionLists::with_capacity(alloc, moves.len(), sections_in(moves))?;
    for row in moves {
        stands.push(standing(tables, metres, row))?;
    }
    Ok(stands)
}

/// How many sections the moves need, each counted as often as a move needs it.
fn sections_in(moves: &[LentMove<'_>]) -> usize
    ensures { result ≡ min (sum_by (λ (row : MoveRow). length row.sections) moves.now) (2 ^ 64 - 1) }
{
    let mut count: usize = 0;
    for row in moves {
        count = count.saturating_add(row.sections().len());
    }
    count
}

/// The names of the sections and of the trains.
pub fn names_of(alloc: Global, tables: &Tables) -> Result<Names, OutOfMemory>
    requires { IsPlannable tables.now }
    ensures sections { IfOk result (λ names. names.sections.keys ≡ map (λ (row : SectionRow). row.name) tables.now.sections) }
    ensures trains { IfOk result (λ names. names.trains.keys ≡ map (λ (row : TrainRow). row.name) tables.now.trains) }
{
    let sections = section_names(alloc, tables.sections.as_slice())?;
    let trains = train_names(alloc, tables.trains.as_slice())?;
    Ok(Names { sections, trains })
}

/// The names of the sections in their order.
fn section_names(alloc: Global, rows: &[SectionRow]) -> Result<IndexSet<Name>, AllocError>
    requires { IsTrue (are_distinct_names (map (λ (row : SectionRow). row.name) rows.now)) }
    ensures { IfOk result (λ names. names.keys ≡ map (λ (row : SectionRow). row.name) rows.now) }
{
    let mut names = IndexSet::with_capacity(alloc, rows.len())?;
    for row in rows {
        names.insert(row.name)?;
    }
    Ok(names)
}

/// The names of the trains in their order.
fn train_names(alloc: Global, rows: &[TrainRow]) -> Result<IndexSet<Name>, AllocError>
    requires { IsTrue (are_distinct_names (map (λ (row : TrainRow). row.name) rows.now)) }
    ensures { IfOk result (λ names. names.keys ≡ map (λ (row : TrainRow). row.name) rows.now) }
{
    let mut names = IndexSet::with_capacity(alloc, rows.len())?;
    for row in rows {
        names.insert(row.name)?;
    }
    Ok(names)
}
