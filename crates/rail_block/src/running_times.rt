//! Running times: how long a train takes over a section, and how long it takes to clear it.

ghost use Rattle.std.specs.Prelude.{◌≡◌, min, IsTrue};
ghost use Rattle.rail_base.specs.Limits.{is_from_one};
ghost use Rattle.rail_block.specs.RunningTimes.{time_over};

use rail_base::limits::{SECTION_LENGTH, SPEED, TRAIN_LENGTH};
use rail_base::{TrainKind, ceil_div};

/// The time in tenths of a second that the head of a train of this kind takes over a section, whose
/// length is in metres and whose speed in km/h, rounded up to a whole tenth. The train runs at the
/// lesser of its own speed and the section's.
pub fn run_time(kind: &TrainKind, length: u32, speed: u32) -> u64
    requires train_speed { IsTrue (is_from_one SPEED kind.now.speed) }
    requires section_speed { IsTrue (is_from_one SPEED speed) }
    requires section_length { IsTrue (is_from_one SECTION_LENGTH length) }
    ensures { result ≡ time_over length (min kind.now.speed speed) }
{
    time_over(length, kind.speed.min(speed))
}

/// The time in tenths of a second that a train of this kind takes from the moment at which its head
/// leaves a section to that at which its tail does, rounded up to a whole tenth. The section's speed
/// is in km/h, and the train runs at the lesser of its own speed and this one.
pub fn clear_time(kind: &TrainKind, speed: u32) -> u64
    requires train_speed { IsTrue (is_from_one SPEED kind.now.speed) }
    requires train_length { IsTrue (is_from_one TRAIN_LENGTH kind.now.length) }
    requires section_speed { IsTrue (is_from_one SPEED speed) }
    ensures { result ≡ time_over kind.now.length (min kind.now.speed speed) }
{
    time_over(kind.length, kind.speed.min(speed))
}

/// The time in tenths of a second over so many metres at a speed in km/h.
fn time_over(metres: u32, speed: u32) -> u64
    requires length { IsTrue (is_from_one SECTION_LENGTH metres) }
    requires speed { IsTrue (is_from_one SPEED speed) }
    ensures { result ≡ time_over metres speed }
{
    ceil_div(36 * u64::from(metres), u64::from(speed))
}
