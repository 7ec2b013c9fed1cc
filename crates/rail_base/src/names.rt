//! The names of the sections and trains of a plant, and the numbers that they stand for.

ghost use Rattle.std.specs.Prelude.{◌≡◌, ◌≤◌, ◌^◌, length, position};
ghost use Rattle.rail_base.specs.NameForms.{same_name};

use crate::numbers::{SectionNo, TrainNo};
use crate::text::Name;
use indexmap::IndexSet;

/// The names of the sections and of the trains of a plant, each in the order of their numbers.
#[derive(Debug)]
pub struct Names {
    pub sections: IndexSet<Name>,
    pub trains: IndexSet<Name>,
}

impl Drop for Names {
    fn drop(self) {
        let Names {
            sections: _sections,
            trains: _trains,
        } = self;
    }
}

impl Names {
    /// The number of the section of this name, counted from 0: `None` exactly where none has it.
    pub fn section(&self, name: Name) -> Option<SectionNo>
        requires { length self.now.sections.keys ≤ 2 ^ 16 }
        ensures { result ≡ position (same_name name) self.now.sections.keys }
    {
        let index = self.sections.get_index_of(&name)?;
        Some(SectionNo(index as u16))
    }

    /// The number of the train of this name, counted from 0: `None` exactly where none has it.
    pub fn train(&self, name: Name) -> Option<TrainNo>
        requires { length self.now.trains.keys ≤ 2 ^ 16 }
        ensures { result ≡ position (same_name name) self.now.trains.keys }
    {
        let index = self.trains.get_index_of(&name)?;
        Some(TrainNo(index as u16))
    }
}
