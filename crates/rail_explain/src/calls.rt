//! What is out of order in a call of a timetable, as far as its fields and the scene show it.

ghost use Rattle.std.specs.Prelude.{◌≡◌, ◌+◌, ◌≤◌, length};
ghost use Rattle.rail_text.specs.declared.line_buffer.TheConstants.{ROOM};

use csv::ByteRecord;
use rail_base::Part;
use rail_base::limits::TRAINS;
use rail_scene::item_table;
use rail_scene::keys::KeyName;
use rail_text::{LineBuffer, input_time, is_decimal, value_of};
use toml::Value;

/// What is out of order in a call, by its fields from the first one on.
#[derive(Clone, Copy, Debug, PartialEq, Eq)]
pub(crate) enum CallFault {
    Train,
    /// The place is none of the train, which has so many.
    Place(u64),
    Arrival,
    Departure,
    Dwell,
    /// A call before it has its train and place.
    Second,
    /// Departure or dwell stand at the last place.
    End,
    Turn,
}

impl CallFault {
    /// Puts what is out of order.
    pub(crate) fn put(self, line: &mut LineBuffer)
        requires { length line.old + 100 ≤ ROOM }
        ensures short { length line.new ≤ length line.old + 100 }
    {
        match self {
            CallFault::Place(last) => {
                line.put(b"; the train has the places 1 to");
                line.put_number(last);
            }
            CallFault::Train => line.put(b"; no train of the scene has this name"),
            CallFault::Arrival => line.put(b"; its arrival is no time as 01:30:00"),
            CallFault::Departure => line.put(b"; its departure is no time as 01:30:00"),
            CallFault::Dwell => line.put(b"; its dwell is no time as 00:00:30, nor pass"),
            CallFault::Second => line.put(b"; a record before it has this train and place"),
            CallFault::End => {
                line.put(b"; its place is the last one, where departure and dwell are empty");
            }
            CallFault::Turn => line.put(b"; the train turns there, where dwell is not pass"),
        }
    }
}

/// What is out of order in a call that is refused, of a timetable for this scene. Whether a call before it has its train and
/// place is told.
pub(crate) fn fault_of_call(scene: &Value, call: &ByteRecord, is_second: bool) -> CallFault {
    let Some(last) = places_of(scene, field(call, 0)) else {
        return CallFault::Train;
    };
    let place = field(call, 1);
    if !is_decimal(place) || value_of(place) == 0 || value_of(place) > last {
        return CallFault::Place(last);
    }
    if !is_time_or_empty(field(call, 2)) {
        return CallFault::Arrival;
    }
    if !is_time_or_empty(field(call, 3)) {
        return CallFault::Departure;
    }
    if field(call, 4) != b"pass".as_slice() && !is_time_or_empty(field(call, 4)) {
        return CallFault::Dwell;
    }
    if is_second {
        CallFault::Second
    } else if value_of(place) == last {
        CallFault::End
    } else {
        CallFault::Turn
    }
}

/// Whether two records are calls of one train at one place.
pub(crate) fn are_of_one_place(call: &ByteRecord, other: &ByteRecord) -> bool {
    let (place, other_place) = (field(call, 1), field(other, 1));
    field(call, 0) == field(other, 0)
        && is_decimal(place)
        && is_decimal(other_place)
        && value_of(place) == value_of(other_place)
}

/// How many places the train of this name has: one for each route of its itinerary.
fn places_of(scene: &Value, train: &[u8]) -> Option<u64> {
    for item in 1..=TRAINS as u32 {
        let table = item_table(scene, Part::Train, item)?;
        if table.get(KeyName::Name.text())?.as_str()?.as_bytes() == train {
            let Value::Array(routes) = table.get(KeyName::Routes.text())? else {
                return None;
            };
            return Some(routes.len() as u64);
        }
    }
    None
}

/// Whether the field is empty or a time that a call may have.
fn is_time_or_empty(field: &[u8]) -> bool {
    field.is_empty() || input_time(field).is_some()
}

/// The field at an index, counted from 0; empty where there is none.
fn field(call: &ByteRecord, index: usize) -> &[u8] {
    call.get(index).unwrap_or(&[])
}
