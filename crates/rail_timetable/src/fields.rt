//! What the fields of a call spell.

ghost use Rattle.std.specs.Prelude.{◌≡◌, cond};
ghost use Rattle.rail_timetable.specs.Fields.{call_at_place, dwell_of, earlier_call, last_call, place_within, time_if_any, train_named};

use rail_base::{Call, Name, Time, TrainNo};
use rail_plan::Plant;
use rail_text::{a_word_spells_an_input_time, input_time, is_decimal, value_of};

/// How long a train stands at a place, as a field spells it.
#[derive(Clone, Copy, Debug)]
pub(crate) enum Dwell {
    Empty,
    Pass,
    /// At least so many tenths of a second.
    Least(u32),
}

/// The train of this name.
pub(crate) fn train_named(plant: &Plant, field: &[u8]) -> Option<TrainNo>
    ensures { result ≡ train_named plant.now.tables field.now }
{
    plant.names().train(Name::read(field)?)
}

/// The place that a field spells, from 1 to the last one.
pub(crate) fn place_within(last: u16, field: &[u8]) -> Option<u16>
    ensures { result ≡ place_within last field.now }
{
    if !is_decimal(field) {
        return None;
    }
    let place = u16::try_from(value_of(field)).ok()?;
    if 1 <= place && place <= last {
        Some(place)
    } else {
        None
    }
}

/// The call that an arrival, a departure and a dwell spell at a place, which may be the last one or have
/// a turn.
pub(crate) fn call_at_place(
    last: bool,
    turns: bool,
    arrival: &[u8],
    departure: &[u8],
    dwell: &[u8],
) -> Option<Call>
    ensures { result ≡ call_at_place last turns arrival.now departure.now dwell.now }
{
    let arrival = time_if_any(arrival)?;
    let departure = time_if_any(departure)?;
    let dwell = dwell_of(dwell)?;
    if last {
        last_call(arrival, departure, dwell)
    } else {
        earlier_call(turns, arrival, departure, dwell)
    }
}

/// The time of a field that may be empty.
fn time_if_any(field: &[u8]) -> Option<Option<Time>>
    ensures { result ≡ time_if_any field.now }
{
    if field.is_empty() {
        return Some(None);
    }
    Some(Some(input_time(field)?))
}

/// The dwell of a field.
fn dwell_of(field: &[u8]) -> Option<Dwell>
    ensures { result ≡ dwell_of field.now }
{
    if field.is_empty() {
        return Some(Dwell::Empty);
    }
    if field == b"pass".as_slice() {
        return Some(Dwell::Pass);
    }
    a_word_spells_an_input_time();
    let time = input_time(field)?;
    Some(Dwell::Least(time.0 as u32))
}

/// The call at the last place of an itinerary.
fn last_call(arrival: Option<Time>, departure: Option<Time>, dwell: Dwell) -> Option<Call>
    ensures { result ≡ last_call arrival departure dwell }
{
    match (departure, dwell) {
        (None, Dwell::Empty) => Some(Call {
            stops: false,
            arrival,
            departure: None,
            dwell: 0,
        }),
        _ => None,
    }
}

/// The call at a place before the last one, which may have a turn.
fn earlier_call(
    turns: bool,
    arrival: Option<Time>,
    departure: Option<Time>,
    dwell: Dwell,
) -> Option<Call>
    ensures { result ≡ earlier_call turns arrival departure dwell }
{
    let (stops, dwell) = match dwell {
        Dwell::Empty => (true, 0),
        Dwell::Pass if turns => return None,
        Dwell::Pass => (false, 0),
        Dwell::Least(time) => (true, time),
    };
    Some(Call {
        stops,
        arrival,
        departure,
        dwell,
    })
}
