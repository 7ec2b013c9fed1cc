//! The admitted moves of one train.

ghost use Rattle.std.specs.Prelude.{◌≡◌, ◌<◌, ◌≤◌, length, IsTrue};
ghost use Rattle.rail_base.specs.declared.limits.TheConstants.{ITINERARY_ROUTES};
ghost use Rattle.rail_rules.specs.Accepted.{is_accepted};
ghost use Rattle.rail_rules.specs.Plant.{trains};
ghost use Rattle.rail_stairs.specs.Journeys.{AreAdmissible, AreAllAdmissible, AreTimesTo};
ghost use Rattle.rail_stairs.specs.NotedHistories.{noted_of};

use crate::stairs::Stairs;
use rail_base::limits::ITINERARY_ROUTES;
use rail_base::{Time, TrainNo};
use rail_block::{MoveTimes, entry_times, later_admissions_change_no_earlier_times, times_of};
use rail_plan::Plant;

/// The places of a train at most: that of its entry, and one for each move.
pub(crate) const PLACES: usize = ITINERARY_ROUTES + 1;

/// The admitted moves of a train, with the times of its places.
#[derive(Drop)]
pub(crate) struct Journey<'p> {
    pub(crate) plant: &'p Plant,
    pub(crate) stairs: &'p Stairs,
    pub(crate) train: TrainNo,
    pub(crate) times: [MoveTimes; PLACES],
    pub(crate) ghost known: { train < trains plant.now },
    pub(crate) ghost accepted: { IsTrue (is_accepted plant.now) },
    pub(crate) ghost noted: { train < length stairs.now.admissions.items },
    pub(crate) ghost admissible: { AreAllAdmissible plant.now stairs.now },
    pub(crate) ghost few: { length (noted_of stairs.now train) ≤ ITINERARY_ROUTES },
    pub(crate) ghost timed: { AreTimesTo plant.now train (noted_of stairs.now train) (length (noted_of stairs.now train)) times },
}

impl<'p> Journey<'p> {
    /// The moves of the train whose admissions were noted.
    pub(crate) fn new(plant: &'p Plant, stairs: &'p Stairs, train: TrainNo) -> Journey<'p>
        requires known { train < trains plant.now }
        requires noted { train < length stairs.now.admissions.items }
        requires accepted { IsTrue (is_accepted plant.now) }
        requires admissible { AreAllAdmissible plant.now stairs.now }
        ensures plant { result.plant.now ≡ plant.now }
        ensures stairs { result.stairs.now ≡ stairs.now }
        ensures train { result.train ≡ train }
    {
        Journey {
            plant,
            stairs,
            train,
            times: times_by(plant, train, stairs.admissions(train)),
        }
    }
}

/// The times of the train at its entry and of the moves that are admitted at these times.
fn times_by(plant: &Plant, train: TrainNo, admissions: &[Time]) -> [MoveTimes; PLACES]
    requires known { train < trains plant.now }
    requires admissible { AreAdmissible plant.now train admissions.now }
    requires few { length admissions.now ≤ ITINERARY_ROUTES }
    ensures { AreTimesTo plant.now train admissions.now (length admissions.now) result }
{
    later_admissions_change_no_earlier_times();
    let mut times = [entry_times(plant, train); PLACES];
    for (index, at) in admissions.iter().enumerate() {
        let place = index as u16 + 1;
        times[index + 1] = times_of(plant, train, place, *at, &times[index]);
    }
    times
}
