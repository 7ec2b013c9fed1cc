//! The names of trains and sections, by number.

ghost use Rattle.std.specs.Prelude.{◌≡◌, ◌+◌, ◌≤◌, ◌++◌, ◌∷◌, length};
ghost use Rattle.rail_rules.specs.Plant.{Plant};
ghost use Rattle.rail_rules.specs.Texts.{section_word, train_word};
ghost use Rattle.rail_text.specs.Names.{HasNames, names_in, section_name, train_name};
ghost use Rattle.rail_text.specs.declared.line_buffer.TheConstants.{ROOM};

use crate::line_buffer::LineBuffer;
use rail_base::{Names, SectionNo, TrainNo};

impl LineBuffer {
    /// Puts a space and the name of the train at the end; nothing but the space where no train has the number.
    #[inline(always)]
    pub fn put_train(&mut self, names: &Names, train: TrainNo)
        requires { length self.old + 17 ≤ ROOM }
        ensures text { self.new ≡ self.old ++ 32 ∷ train_name (names_in names.now) train }
        ensures of_plant { (plant : Plant) → HasNames plant names.now → self.new ≡ self.old ++ 32 ∷ train_word plant train }
        ensures short { length self.new ≤ length self.old + 17 }
    {
        match names.trains.get_index(usize::from(train.0)) {
            Some(name) => self.put_name(name),
            None => self.put_word(b""),
        }
    }

    /// Puts a space and the name of the section at the end; nothing but the space where no section has the number.
    #[inline(always)]
    pub fn put_section(&mut self, names: &Names, section: SectionNo)
        requires { length self.old + 17 ≤ ROOM }
        ensures text { self.new ≡ self.old ++ 32 ∷ section_name (names_in names.now) section }
        ensures of_plant { (plant : Plant) → HasNames plant names.now → self.new ≡ self.old ++ 32 ∷ section_word plant section }
        ensures short { length self.new ≤ length self.old + 17 }
    {
        match names.sections.get_index(usize::from(section.0)) {
            Some(name) => self.put_name(name),
            None => self.put_word(b""),
        }
    }
}
