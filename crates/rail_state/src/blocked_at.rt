//! For each section the trains that are blocked at it.

ghost use Rattle.std.specs.Prelude.{◌≡◌, ◌≢◌, ◌<◌, ℕ, true, false, IfOk};
ghost use Rattle.rail_base.specs.declared.limits.TheConstants.{SECTIONS, TRAINS};
ghost use Rattle.rail_sets.specs.TrainSets.{has_train};
ghost use Rattle.rail_state.specs.BlockedAt.{set_at};

use rail_base::limits::SECTIONS;
use rail_base::{SectionNo, TrainNo, copies};
use rail_sets::TrainSet;
use std::alloc::{AllocError, Global};
use std::marker::Model;

/// For each section the trains that may be blocked at it.
#[derive(Debug, Drop)]
pub(crate) struct BlockedAt {
    sets: Vec<TrainSet>,
}

impl Model for BlockedAt {
    ghost use Rattle.std.specs.Prelude.{◌≡◌, List, length, vec_capacity};
    ghost use Rattle.rail_base.specs.declared.limits.TheConstants.{SECTIONS};
    ghost use Rattle.rail_sets.specs.declared.train_set.TrainSet.{TrainSet};

    ghost Value = { List TrainSet };

    ghost view = { λ blocked. blocked.sets.items };

    ghost invariant = { λ blocked. (length blocked.sets.items ≡ SECTIONS) × (vec_capacity blocked.sets ≡ SECTIONS) };
}

impl BlockedAt {
    /// No train is blocked at any section.
    pub(crate) fn new(alloc: Global) -> Result<BlockedAt, AllocError>
        ensures { IfOk result (λ blocked. (x t : ℕ) → has_train (set_at blocked x) t ≡ false) }
    {
        Ok(BlockedAt {
            sets: copies(alloc, TrainSet::none(), SECTIONS, SECTIONS)?,
        })
    }

    /// The train is blocked at the section.
    pub(crate) fn insert(&mut self, section: SectionNo, train: TrainNo)
        requires section { section < SECTIONS }
        requires train { train < TRAINS }
        ensures here { has_train (set_at self.new section) train ≡ true }
        ensures others { (x t : ℕ) → has_train (set_at self.old x) t ≡ true → has_train (set_at self.new x) t ≡ true }
    {
        self.sets[usize::from(section.0)].insert(train);
    }

    /// The trains that may be blocked at the section. None is from then on.
    pub(crate) fn take(&mut self, section: SectionNo) -> TrainSet
        ensures set { (t : ℕ) → has_train result t ≡ has_train (set_at self.old section) t }
        ensures others { (x : ℕ) → x ≢ section → set_at self.new x ≡ set_at self.old x }
    {
        match self.sets.get_mut(usize::from(section.0)) {
            Some(set) => {
                let taken = *set;
                *set = TrainSet::none();
                taken
            }
            None => TrainSet::none(),
        }
    }
}
