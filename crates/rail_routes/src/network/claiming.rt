//! How often the routes have a section in path or overlap.
ghost use Rattle.std.specs.Prelude.{◌≡◌, ◌+◌, ◌<◌, ◌≤◌, ◌^◌, List, ℕ, length, count_by};
ghost use Rattle.indexmap.specs.IndexMap.{spare};
ghost use Rattle.rail_base.specs.NameForms.{same_name};
ghost use Rattle.rail_track.specs.KeyCounts.{times};
ghost use Rattle.rail_routes.specs.Uses.{sections_of};

use crate::items::Route;
use rail_base::Name;
use rail_base::limits::{OVERLAP_SECTIONS, ROUTE_SECTIONS};
use rail_track::{Tally, count_each, discount_each};

/// The number of sections in path and overlap of the route.
pub(super) fn count_of_sections(route: &Route) -> usize
    requires path { length route.now.steps ≤ ROUTE_SECTIONS }
    requires overlap { length route.now.overlap ≤ OVERLAP_SECTIONS }
    ensures { result ≡ length (sections_of route.now) }
{
    route.steps.as_slice().len() + route.overlap.as_slice().len()
}

/// Counts each section of path and overlap once more. There is room for them, so it takes no memory.
pub(super) fn count_sections(tally: &mut Tally<Name>, route: &Route)
    requires room { length (sections_of route.now) ≤ spare tally.old }
    requires fits { (name : List ℕ) → times same_name tally.old name + count_by (same_name name) (sections_of route.now) < 2 ^ 32 }
    ensures { (name : List ℕ) →
        times same_name tally.new name ≡ times same_name tally.old name + count_by (same_name name) (sections_of route.now) }
{
    count_each(tally, route.steps.as_slice());
    count_each(tally, route.overlap.as_slice());
}

/// Counts each section of path and overlap once less.
pub(super) fn discount_sections(tally: &mut Tally<Name>, route: &Route)
    requires { (name : List ℕ) → count_by (same_name name) (sections_of route.now) ≤ times same_name tally.old name }
    ensures { (name : List ℕ) →
        times same_name tally.new name + count_by (same_name name) (sections_of route.now) ≡ times same_name tally.old name }
{
    discount_each(tally, route.steps.as_slice());
    discount_each(tally, route.overlap.as_slice());
}
