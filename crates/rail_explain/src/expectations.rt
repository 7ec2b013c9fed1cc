//! What a key of a scene file has to have.

ghost use Rattle.std.specs.Prelude.{◌≡◌, ◌+◌, ◌≤◌, ◌++◌, length};
ghost use Rattle.rail_explain.specs.Meanings.{bounds_text, kind_text, range_text, unknown_text};
ghost use Rattle.rail_text.specs.declared.line_buffer.TheConstants.{ROOM};

use rail_base::limits::{INPUT_TIME, ITINERARY_ROUTES, OVERLAP_SECTIONS, ROUTE_SECTIONS};
use rail_scene::keys::{Bounds, KeyForm, KeyName};
use rail_text::LineBuffer;

// The limits that the texts below tell: 240 hours, the names of a path and of an overlap of as many sections, the routes of an
// itinerary.
const _: () = prove!(INPUT_TIME == 240 * 36_000);

const _: () = prove!(2 * ROUTE_SECTIONS + 1 == 65);

const _: () = prove!(2 * OVERLAP_SECTIONS == 16);

const _: () = prove!(ITINERARY_ROUTES == 128);

/// Puts the range of a key.
pub fn put_range(line: &mut LineBuffer, form: KeyForm)
    requires { length line.old + 110 ≤ ROOM }
    ensures text { line.new ≡ line.old ++ range_text form }
    ensures short { length line.new ≤ length line.old + 110 }
{
    match form {
        KeyForm::Whole(bounds) => put_bounds(line, bounds),
        KeyForm::Choice => line.put(b" must be plain, points, crossing or slip"),
        KeyForm::Time => line.put(b" must be a time as 06:00:00, of at most 240:00:00"),
        KeyForm::Joints => {
            line.put(
                b" must have 2 names for plain track, 3 for points, 4 for a crossing or a slip",
            );
        }
        KeyForm::Path => line.put(b" must have 3 to 65 names, joints and sections in turn"),
        KeyForm::Overlap => line.put(
            b" must have at most 16 names, sections and joints in turn, in an even number",
        ),
        KeyForm::Itinerary => line.put(b" must have 1 to 128 names"),
        KeyForm::Name | KeyForm::Policy | KeyForm::Tables => line.put(b" is out of its range"),
    }
}

/// Puts the least and the greatest number.
fn put_bounds(line: &mut LineBuffer, bounds: Bounds)
    requires { length line.old + 110 ≤ ROOM }
    ensures text { line.new ≡ line.old ++ bounds_text bounds }
    ensures short { length line.new ≤ length line.old + 110 }
{
    line.put(b" must be");
    line.put_number(u64::from(bounds.low));
    if bounds.low < bounds.high {
        line.put(b" to");
        line.put_number(u64::from(bounds.high));
    }
}

/// The kind of value that a key has to have.
pub fn kind_text(form: KeyForm) -> &'static [u8]
    ensures text { result.now ≡ kind_text form }
    ensures short { length result.now ≤ 60 }
{
    match form {
        KeyForm::Name | KeyForm::Policy | KeyForm::Choice | KeyForm::Time => b" must be a string",
        KeyForm::Whole(_) => b" must be a whole number",
        KeyForm::Joints | KeyForm::Path | KeyForm::Overlap | KeyForm::Itinerary =>
            b" must be a list of strings",
        KeyForm::Tables => b" must be a list of tables, as [[section]] begins one",
    }
}

/// What a name at a key refers to, where it refers to nothing.
pub fn unknown_text(key: KeyName) -> &'static [u8]
    ensures text { result.now ≡ unknown_text key }
    ensures short { length result.now ≤ 60 }
{
    match key {
        KeyName::Ahead => b" names no section",
        KeyName::Path | KeyName::Overlap => b" names a section that is not there",
        KeyName::Arriving | KeyName::Leaving | KeyName::From | KeyName::To => {
            b" names no portal, signal or board"
        }
        KeyName::TrainKind => b" names no kind",
        KeyName::Routes => b" names a route that is not there",
        _ => b" names what is not there",
    }
}
