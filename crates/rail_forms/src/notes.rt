//! What is noted of a run, line by line.

ghost use Rattle.std.specs.Prelude.{◌∷◌, OnErr, OnOk};
ghost use Rattle.rail_rules.specs.Fronts.{Front, Line};
ghost use Rattle.rail_rules.specs.Orders.{Input};
ghost use Rattle.rail_forms.specs.NotedRuns.{FollowsNoted, IsNext};

use rail_base::{Entry, TrainNo};
use rail_delay::{Delays, a_lawful_front_is_in_order};
use rail_plan::Plant;
use rail_stairs::Stairs;
use std::convert::Infallible;

/// What is noted of the lines of a run, as they come.
pub trait LineNotes {
    /// Why a line is not noted to its end; `Infallible` where each line is.
    type Fault;

    /// The lines of the front, in a history of the input, were noted. The first notes are those before the first line,
    /// the second ones what has become of them.
    ghost are_noted: { Input → Front → Self → Self → Type 0 };

    /// The lines of the front but the last were noted, and of that one a first part.
    ghost is_cut: { Input → Front → Self → Self → Type 0 } = { λ input front first now. ⊥ };

    /// Notes the next line of a history, of which this is the entry, with the list that belongs to it. It takes no memory.
    fn note_line(
        &mut self,
        plant: &Plant,
        entry: Entry,
        listed: &[TrainNo],
    ) -> Result<(), Self::Fault>
        requires { (first : Self)
            × FollowsNoted (λ input front. are_noted input front first self.old) plant.now entry listed.now }
        ensures noted { OnOk result ((input : Input) (front : Front) (line : Line) (first : Self)
            → IsNext input front line plant.now entry listed.now
            → are_noted input front first self.old → are_noted input (line ∷ front) first self.new) }
        ensures cut { OnErr result ((input : Input) (front : Front) (line : Line) (first : Self)
            → IsNext input front line plant.now entry listed.now
            → are_noted input front first self.old → is_cut input (line ∷ front) first self.new) };
}

impl LineNotes for Stairs {
    ghost use Rattle.rail_stairs.specs.NotedHistories.{AreNoted};

    type Fault = Infallible;

    ghost are_noted = { λ input front first now. AreNoted input.plant front now };

    fn note_line(
        &mut self,
        _plant: &Plant,
        entry: Entry,
        _listed: &[TrainNo],
    ) -> Result<(), Infallible> {
        self.note(entry);
        Ok(())
    }
}

impl LineNotes for Delays {
    ghost use Rattle.rail_delay.specs.Accounts.{AreNoted};

    type Fault = Infallible;

    ghost are_noted = { λ input front first now. AreNoted input.plant input.commands front now };

    fn note_line(
        &mut self,
        plant: &Plant,
        entry: Entry,
        _listed: &[TrainNo],
    ) -> Result<(), Infallible> {
        a_lawful_front_is_in_order();
        self.note(plant, entry);
        Ok(())
    }
}
