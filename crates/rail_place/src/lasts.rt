//! For each section the last move of a train that claims it, and one before which none does.

ghost use Rattle.std.specs.Prelude.{◌≡◌, ℕ, ◌<◌, ◌≤◌, [], length, get_or, IsTrue, IfOk};
ghost use Rattle.rail_rules.specs.Numbers.{is_in};
ghost use Rattle.rail_place.specs.Lasts.{TellsFirsts, TellsLasts};
ghost use Rattle.rail_place.specs.Owners.{given};

use crate::section_lists::SectionLists;
use rail_base::SectionNo;
use rail_base::limits::{ITINERARY_ROUTES, SECTIONS};
use std::alloc::{AllocError, Global};

/// The last of the moves that claims each section, counted from 1, and 0 where none does.
pub fn last_claims(alloc: Global, claims: &SectionLists) -> Result<Vec<u16>, AllocError>
    requires short { length claims.now ≤ ITINERARY_ROUTES }
    requires in_range { (m x : ℕ) → IsTrue (is_in x (get_or claims.now m [])) → x < SECTIONS }
    ensures { IfOk result (λ lasts. TellsLasts claims.now lasts.items) }
{
    let mut lasts = vec![in alloc; 0u16; SECTIONS]?;
    for made in 0..claims.len() {
        note(&mut lasts, claims.at(made), made as u16 + 1);
    }
    Ok(lasts)
}

/// The first of the moves that claims each section, counted from 1, and 0 where none does.
pub fn first_claims(alloc: Global, claims: &SectionLists) -> Result<Vec<u16>, AllocError>
    requires short { length claims.now ≤ ITINERARY_ROUTES }
    requires in_range { (m x : ℕ) → IsTrue (is_in x (get_or claims.now m [])) → x < SECTIONS }
    ensures { IfOk result (λ firsts. TellsFirsts claims.now firsts.items) }
{
    let mut firsts = vec![in alloc; 0u16; SECTIONS]?;
    let mut left = claims.len();
    while left > 0 {
        note(&mut firsts, claims.at(left - 1), left as u16);
        left -= 1;
    }
    Ok(firsts)
}

/// Notes the move for each of the sections.
fn note(noted: &mut Vec<u16>, sections: &[SectionNo], place: u16)
    requires { (x : ℕ) → IsTrue (is_in x sections.now) → x < length noted.old.items }
    ensures { noted.new.items ≡ given noted.old.items sections.now place }
{
    for section in sections {
        noted[usize::from(section.0)] = place;
    }
}
