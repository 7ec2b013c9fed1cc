//! Moves that are lent, for a train that has no row of its own for them.

ghost use Rattle.std.specs.Prelude.{◌≡◌, IfOk};

use rail_base::{MoveRow, SectionNo, TurnRow};
use std::alloc::{AllocError, Global};
use std::marker::Model;

/// A move whose row is lent, with the turn at its end in place of that of the row. Contracts see it as the row with this
/// turn.
#[derive(Drop)]
pub struct LentMove<'a> {
    row: &'a MoveRow,
    turn: Option<TurnRow>,
}

impl<'a> Model for LentMove<'a> {
    ghost use Rattle.rail_base.specs.declared.plant.MoveRow.{MoveRow};

    ghost Value = { MoveRow };

    ghost view = { λ lent. record lent.row.now { turn = lent.turn } };
}

impl<'a> LentMove<'a> {
    /// The move of the row with this turn at its end.
    pub fn new(row: &'a MoveRow, turn: Option<TurnRow>) -> LentMove<'a>
        ensures { result ≡ record row.now { turn = turn } }
    {
        LentMove { row, turn }
    }

    /// The sections that the move needs, in route order.
    pub(crate) fn sections(&self) -> &'a [SectionNo]
        ensures { result.now ≡ self.now.sections }
    {
        self.row.sections.as_slice()
    }

    /// The sections of its overlap, in order.
    pub(crate) fn overlap(&self) -> &'a [SectionNo]
        ensures { result.now ≡ self.now.overlap }
    {
        self.row.overlap.as_slice()
    }

    /// The turn at its end.
    pub(crate) fn turn(&self) -> Option<TurnRow>
        ensures { result ≡ self.now.turn }
    {
        self.turn
    }
}

/// The moves of these rows.
pub fn lent_rows(alloc: Global, rows: &[MoveRow]) -> Result<Vec<LentMove<'_>>, AllocError>
    ensures { IfOk result (λ moves. moves.items ≡ rows.now) }
{
    let mut moves = Vec::with_capacity(alloc, rows.len())?;
    for row in rows {
        moves.push(LentMove::new(row, row.turn))?;
    }
    Ok(moves)
}
