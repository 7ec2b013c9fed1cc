//! What is noted of a history.

ghost use Rattle.std.specs.Prelude.{◌≡◌, ◌<◌, ◌≤◌, [], ◌∷◌, ◌++◌, get_or, set, length, IsSome, IsTrue, IfOk, Some};
ghost use Rattle.rail_base.specs.declared.limits.TheConstants.{ITINERARY_ROUTES};
ghost use Rattle.rail_rules.specs.Fronts.{Front, Line};
ghost use Rattle.rail_rules.specs.Numbers.{listed};
ghost use Rattle.rail_rules.specs.Plant.{Plant};
ghost use Rattle.rail_stairs.specs.NotedHistories.{AreNoted, has_room, noted_of};

use crate::admissions::Admissions;
use rail_base::{Entry, OutOfMemory, Time, TrainNo, What};
use rail_plan::Plant;
use std::alloc::{AllocError, Global};

/// What is noted of a history: the admissions of each train, and when the history ended.
#[derive(Debug)]
pub struct Stairs {
    /// By train number.
    admissions: Vec<Admissions>,
    /// The time of the end line.
    ended: Option<Time>,
}

impl Drop for Stairs {
    fn drop(self) {
        let Stairs {
            admissions: _admissions,
            ended: _ended,
        } = self;
    }
}

impl Stairs {
    /// Nothing noted yet, with room for all moves of the plant's trains.
    pub fn new(alloc: Global, plant: &Plant) -> Result<Stairs, OutOfMemory>
        ensures { IfOk result (λ stairs. AreNoted plant.now [] stairs) }
    {
        let admissions = none_of(alloc, plant.moves().trains())?;
        Ok(Stairs {
            admissions,
            ended: None,
        })
    }

    /// The admissions noted of the train.
    pub(crate) fn admissions(&self, train: TrainNo) -> &[Time]
        requires { train < length self.now.admissions.items }
        ensures times { result.now ≡ noted_of self.now train }
        ensures few { length result.now ≤ ITINERARY_ROUTES }
    {
        self.admissions[usize::from(train.0)].as_slice()
    }

    /// The time of the end line, which was noted.
    pub fn ended(&self) -> Time
        requires { IsSome self.now.ended }
        ensures { self.now.ended ≡ Some result }
    {
        self.ended.unwrap()
    }

    /// Notes the next line of a history. Lines that neither admit a move nor end the history change nothing. It
    /// takes no memory.
    pub fn note(&mut self, entry: Entry)
        requires room { IsTrue (has_room self.old entry.what) }
        ensures noted { (plant : Plant) (front : Front) (line : Line) → line.entry ≡ entry
            → AreNoted plant front self.old → AreNoted plant (line ∷ front) self.new }
    {
        let Entry { at, what } = entry;
        match what {
            What::Admit { train, .. } => add_admission(&mut self.admissions, train, at),
            What::End => self.ended = Some(at),
            _ => {}
        }
    }
}

/// Adds an admission of the train.
fn add_admission(rows: &mut Vec<Admissions>, train: TrainNo, at: Time)
    requires train { train < length rows.old.items }
    requires room { length (get_or rows.old.items train []) < ITINERARY_ROUTES }
    ensures { rows.new.items ≡ set rows.old.items train (get_or rows.old.items train [] ++ at ∷ []) }
{
    rows[usize::from(train.0)].push(at);
}

/// No admission yet of so many trains.
fn none_of(alloc: Global, trains: u16) -> Result<Vec<Admissions>, AllocError>
    ensures { IfOk result (λ admissions. admissions.items ≡ listed (λ _. []) trains) }
{
    let mut admissions = Vec::new(alloc);
    for _ in 0..trains {
        admissions.push(Admissions::none())?;
    }
    Ok(admissions)
}
