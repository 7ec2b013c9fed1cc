//! The table from each section to the train that holds it.

ghost use Rattle.std.specs.Prelude.{◌≡◌, ℕ, ◌<◌, ◌≤◌, ◌++◌, length, take, drop, None, IsTrue, vec_capacity};
ghost use Rattle.rail_rules.specs.Numbers.{is_in};
ghost use Rattle.rail_place.specs.Owners.{first_owned_in, given};

use crate::barring::Barred;
use rail_base::{SectionNo, TrainNo};

/// Gives each of the sections to the train.
pub fn occupy(owners: &mut Vec<Option<TrainNo>>, sections: &[SectionNo], train: TrainNo)
    requires { (x : ℕ) → IsTrue (is_in x sections.now) → x < length owners.old.items }
    ensures owners { owners.new.items ≡ given owners.old.items sections.now (Some train) }
    ensures room { vec_capacity owners.new ≡ vec_capacity owners.old }
{
    for section in sections {
        owners[usize::from(section.0)] = Some(train);
    }
}

/// Takes each of the sections from its owner.
pub fn release(owners: &mut Vec<Option<TrainNo>>, sections: &[SectionNo])
    requires { (x : ℕ) → IsTrue (is_in x sections.now) → x < length owners.old.items }
    ensures owners { owners.new.items ≡ given owners.old.items sections.now None }
    ensures room { vec_capacity owners.new ≡ vec_capacity owners.old }
{
    for section in sections {
        owners[usize::from(section.0)] = None;
    }
}

/// Takes over the owners of the first so many sections from the other table.
#[inline(always)]
pub fn copy_front(owners: &mut [Option<TrainNo>], others: &[Option<TrainNo>], sections: usize)
    requires here { sections ≤ length owners.old }
    requires there { sections ≤ length others.now }
    ensures { owners.new ≡ take sections others.now ++ drop sections owners.old }
{
    owners[..sections].copy_from_slice(&others[..sections]);
}

/// The first of the sections that has an owner, with that owner.
pub fn first_owned(owners: &Vec<Option<TrainNo>>, sections: &[SectionNo]) -> Option<Barred>
    requires { (x : ℕ) → IsTrue (is_in x sections.now) → x < length owners.now.items }
    ensures { result ≡ first_owned_in owners.now.items sections.now }
{
    for section in sections {
        if let Some(holder) = owners[usize::from(section.0)] {
            return Some(Barred::Held {
                section: *section,
                holder,
            });
        }
    }
    None
}
