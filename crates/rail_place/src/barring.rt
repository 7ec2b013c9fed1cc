//! What stands against a move, and what comes of playing a list.

ghost use Rattle.std.specs.Prelude.{◌≡◌};

use rail_base::{SectionNo, TrainNo};
use std::alloc::AllocError;

/// Why a train may not make its next move.
#[derive(Clone, Copy, Debug, PartialEq, Eq)]
pub enum Barred {
    /// The train has not entered. The player of lists alone answers this.
    Outside,
    /// The train has made all its moves.
    Out,
    /// A claimed section is taken; this is the first such, the route before the overlap.
    Held { section: SectionNo, holder: TrainNo },
}

/// Why places can't be made.
#[derive(Clone, Copy, Debug, PartialEq, Eq)]
pub enum PlacesFault {
    /// Two trains would hold one section. It is the least such section, and they are the two least
    /// trains that would hold it.
    Overlap {
        section: SectionNo,
        first: TrainNo,
        second: TrainNo,
    },
    /// Memory was not found.
    OutOfMemory,
}

impl From<AllocError> for PlacesFault {
    ghost use Rattle.rail_place.specs.declared.barring.PlacesFault.TheVariants as fault;

    ghost from_gives = { λ _ e. e ≡ fault.OutOfMemory };

    fn from(_: AllocError) -> PlacesFault {
        PlacesFault::OutOfMemory
    }
}

/// What comes of playing a list of moves.
#[derive(Clone, Copy, Debug, PartialEq, Eq)]
pub enum Played {
    /// Each move was legal, and nobody is inside afterwards.
    Completes,
    /// The train named here is not inside, or its move is not legal. The index counts from 1.
    Illegal { index: u32, why: Barred },
    /// Each move was legal, and this is the least train that is inside afterwards.
    Inside { train: TrainNo },
}
