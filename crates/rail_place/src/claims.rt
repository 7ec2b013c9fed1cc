//! The sections that moves claim, made from those that they need and from their overlaps.

ghost use Rattle.std.specs.Prelude.{◌≡◌, length, IfOk};
ghost use Rattle.rail_place.specs.Tables.{joined};

use crate::section_lists::SectionLists;
use std::alloc::{AllocError, Global};

/// The sections that each move claims: first those that it needs, then those of its overlap. Where no move has an
/// overlap they are those that it needs, and nothing is copied.
pub fn claims_of(
    alloc: Global,
    need: SectionLists,
    over: &SectionLists,
) -> Result<SectionLists, AllocError>
    requires { length over.now ≡ length need }
    ensures { IfOk result (λ claims. claims ≡ joined need over.now) }
{
    if over.are_empty() {
        return Ok(need);
    }
    joined(alloc, &need, over)
}

/// The lists joined, the first with the first, and so on.
fn joined(
    alloc: Global,
    need: &SectionLists,
    over: &SectionLists,
) -> Result<SectionLists, AllocError>
    requires { length over.now ≡ length need.now }
    ensures { IfOk result (λ claims. claims ≡ joined need.now over.now) }
{
    let room = need.sections().saturating_add(over.sections());
    let mut claims = SectionLists::with_capacity(alloc, need.len(), room)?;
    let mut claim = Vec::new(alloc);
    for index in 0..need.len() {
        claim.clear();
        claim.extend_from_slice(need.at(index))?;
        claim.extend_from_slice(over.at(index))?;
        claims.push(claim.as_slice())?;
    }
    Ok(claims)
}
