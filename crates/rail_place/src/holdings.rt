//! Which trains would hold each section, as far as it takes to find two of one section.

ghost use Rattle.std.specs.Prelude.{◌≡◌, ℕ, ◌<◌, ◌≤◌, map, length, get_or, IfOk, IfErr, IsTrue, slice_index, vec_capacity};
ghost use Rattle.rail_rules.specs.Numbers.{is_in};
ghost use Rattle.rail_place.specs.Tables.{IsTable, moves_in};
ghost use Rattle.rail_place.specs.Holdings.{IsFirstShared, IsShared, TellsBelow, owner_in, taken_up, with_train};

use crate::barring::PlacesFault;
use crate::moves::Moves;
use rail_base::limits::SECTIONS;
use rail_base::{SectionNo, TrainNo};
use std::alloc::{AllocError, Global};

/// The trains that would hold a section: none, one, or the two least of more.
#[derive(Clone, Copy, Debug, PartialEq, Eq)]
pub enum Holding {
    Free,
    One(TrainNo),
    Two(TrainNo, TrainNo),
}

impl Holding {
    ghost use Rattle.rail_place.specs.Holdings.{with_train};

    /// With this train, whose number is no less than those before.
    fn with(self, train: TrainNo) -> Holding
        ensures { result ≡ with_train self train }
    {
        match self {
            Holding::Free => Holding::One(train),
            Holding::One(first) => {
                if first == train {
                    Holding::One(first)
                } else {
                    Holding::Two(first, train)
                }
            }
            Holding::Two(first, second) => Holding::Two(first, second),
        }
    }
}

/// Which trains would hold each section, with the trains at these places.
pub fn holdings_of(
    alloc: Global,
    moves: &Moves,
    positions: &[u16],
) -> Result<Vec<Holding>, AllocError>
    requires table { IsTable moves.now }
    requires long { length positions.now ≡ length moves.now }
    requires within { (t : ℕ) → t < length moves.now → slice_index positions.now t ≤ (moves_in moves.now).moves t }
    ensures room { IfOk result (λ holdings. length holdings.items ≡ SECTIONS) }
    ensures told { IfOk result (λ holdings. (x : ℕ) → x < SECTIONS
        → TellsBelow (moves_in moves.now) positions.now x (length positions.now) (get_or holdings.items x Holding.Free)) }
{
    let mut holdings = vec![in alloc; Holding::Free; SECTIONS]?;
    for (number, place) in positions.iter().enumerate() {
        let train = TrainNo(number as u16);
        take_up(&mut holdings, moves.stand(train, *place), train);
    }
    Ok(holdings)
}

/// Notes that the train would hold each of the sections.
fn take_up(holdings: &mut Vec<Holding>, sections: &[SectionNo], train: TrainNo)
    requires { (x : ℕ) → IsTrue (is_in x sections.now) → x < length holdings.old.items }
    ensures { holdings.new.items ≡ taken_up holdings.old.items sections.now train }
{
    for section in sections {
        let known = holdings[usize::from(section.0)];
        holdings[usize::from(section.0)] = known.with(train);
    }
}

/// The owner of each section; or the least section that two trains would hold, and these.
pub fn owners_of(alloc: Global, holdings: &[Holding]) -> Result<Vec<Option<TrainNo>>, PlacesFault>
    requires { length holdings.now ≡ SECTIONS }
    ensures owners { IfOk result (λ owners. owners.items ≡ map owner_in holdings.now) }
    ensures room { IfOk result (λ owners. vec_capacity owners ≡ SECTIONS) }
    ensures single { IfOk result (λ _. (x : ℕ) → x < length holdings.now → IsShared (get_or holdings.now x Holding.Free) → ⊥) }
    ensures fault { IfErr result (IsFirstShared holdings.now) }
{
    let mut owners = Vec::with_capacity(alloc, SECTIONS)?;
    for (number, holding) in holdings.iter().enumerate() {
        let owner = match *holding {
            Holding::Free => None,
            Holding::One(train) => Some(train),
            Holding::Two(first, second) => {
                return Err(PlacesFault::Overlap {
                    section: SectionNo(number as u16),
                    first,
                    second,
                });
            }
        };
        owners.push_reserved(owner);
    }
    Ok(owners)
}
