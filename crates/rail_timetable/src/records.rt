//! The records of a file, and the fields of a record.

ghost use Rattle.std.specs.Prelude.{◌≡◌, ◌≤◌, [], get_or, length, map, IfOk, MatchOption};
ghost use Rattle.csv.specs.Records.{fields_of};
ghost use Rattle.rail_timetable.specs.Fields.{texts_of};
ghost use Rattle.rail_timetable.specs.Records.{records_in};

use csv::{ByteRecord, ReaderBuilder};
use rail_base::OutOfMemory;
use std::alloc::Global;

/// The records of a file, in order. No error of the reader is one of the file's form: whatever stops it
/// is told as want of memory.
pub(crate) fn records_of(alloc: Global, bytes: &[u8]) -> Result<Vec<ByteRecord>, OutOfMemory>
    ensures records { IfOk result (λ records. map fields_of records.items ≡ records_in bytes.now) }
    ensures few { IfOk result (λ records. length records.items ≤ length bytes.now) }
{
    let reader = ReaderBuilder::new()
        .has_headers(false)
        .flexible(true)
        .from_reader(alloc, bytes);
    let mut records = Vec::new(alloc);
    for record in reader.into_byte_records() {
        let Ok(record) = record else {
            return Err(OutOfMemory);
        };
        if records.push(record).is_err() {
            return Err(OutOfMemory);
        }
    }
    Ok(records)
}

/// The fields of a record of five.
#[derive(Clone, Copy, Debug)]
pub(crate) struct Fields<'a> {
    pub(crate) train: &'a [u8],
    pub(crate) place: &'a [u8],
    pub(crate) arrival: &'a [u8],
    pub(crate) departure: &'a [u8],
    pub(crate) dwell: &'a [u8],
}

/// The fields of the row: `None` exactly where there are not five.
pub(crate) fn five_fields(row: &ByteRecord) -> Option<Fields<'_>>
    ensures { MatchOption result
        (length (fields_of row.now) ≡ 5 → ⊥)
        (λ five. fields_of row.now ≡ texts_of five) }
{
    if row.len() != 5 {
        return None;
    }
    Some(Fields {
        train: field(row, 0),
        place: field(row, 1),
        arrival: field(row, 2),
        departure: field(row, 3),
        dwell: field(row, 4),
    })
}

/// The field at this index, counted from 0; empty where the row is shorter.
fn field(row: &ByteRecord, index: usize) -> &[u8]
    ensures { result.now ≡ get_or (fields_of row.now) index [] }
{
    match row.get(index) {
        Some(field) => field,
        None => &[],
    }
}
