//! Which train holds each section, in a table by section number.

ghost use Rattle.std.specs.Prelude.{◌≡◌, ℕ, ◌<◌, length, get_or, set, replicate, IfOk, IsSome, Some, None};
ghost use Rattle.std.specs.List.{All};
ghost use Rattle.rail_holders.specs.FirstHeld.{first_held};

use rail_base::{OutOfMemory, SectionNo, TrainNo, copies};
use std::alloc::Global;
use std::marker::Model;

/// Which train holds each section. Sections and trains count from 0.
#[derive(Debug)]
pub struct Holders {
    trains: Vec<Option<TrainNo>>,
}

impl Drop for Holders {
    fn drop(self) {
        let Holders { trains: _trains } = self;
    }
}

impl Model for Holders {
    ghost use Rattle.std.specs.Prelude.{◌≡◌, List, Option, length, vec_capacity, ℕ};

    ghost Value = { List (Option ℕ) };

    ghost view = { λ holders. holders.trains.items };

    ghost invariant = { λ holders. vec_capacity holders.trains ≡ length holders.trains.items };
}

impl Holders {
    /// Holders of so many sections, where nobody holds one.
    pub fn new(alloc: Global, sections: u16) -> Result<Holders, OutOfMemory>
        ensures { IfOk result (λ holders. holders ≡ replicate sections None) }
    {
        let sections = usize::from(sections);
        let trains = copies(alloc, None, sections, sections)?;
        Ok(Holders { trains })
    }

    /// The train that holds the section, if one does.
    pub fn holder(&self, section: SectionNo) -> Option<TrainNo>
        requires { section < length self.now }
        ensures { result ≡ get_or self.now section None }
    {
        self.trains[usize::from(section.0)]
    }

    /// The first of these sections that somebody holds, and its holder. Four are looked at in one go.
    pub fn first_held(&self, sections: &[SectionNo]) -> Option<(SectionNo, TrainNo)>
        requires { All (λ x. x < length self.now) sections.now }
        ensures { result ≡ first_held self.now sections.now }
    {
        let mut left = sections;
        while let Some((four, behind)) = left.split_first_chunk::<4>() {
            let held = self.first_held_of(four);
            if held.is_some() {
                return held;
            }
            left = behind;
        }
        self.first_held_of(left)
    }

    /// The first of these sections that somebody holds, and its holder, looked at one by one.
    fn first_held_of(&self, sections: &[SectionNo]) -> Option<(SectionNo, TrainNo)>
        requires { All (λ x. x < length self.now) sections.now }
        ensures { result ≡ first_held self.now sections.now }
    {
        for section in sections {
            if let Some(holder) = self.holder(*section) {
                return Some((*section, holder));
            }
        }
        None
    }

    /// The train holds the section from now on. Nobody held it before.
    pub fn take(&mut self, section: SectionNo, train: TrainNo)
        requires section { section < length self.old }
        requires free { get_or self.old section None ≡ None }
        ensures { self.new ≡ set self.old section (Some train) }
    {
        self.trains[usize::from(section.0)] = Some(train);
    }

    /// Nobody holds the section from now on. The answer is the train that held it.
    pub fn free(&mut self, section: SectionNo) -> TrainNo
        requires section { section < length self.old }
        requires taken { IsSome (get_or self.old section None) }
        ensures holder { Some result ≡ get_or self.old section None }
        ensures freed { self.new ≡ set self.old section None }
    {
        match self.trains[usize::from(section.0)].take() {
            Some(train) => train,
            None => unreachable!(),
        }
    }
}
