//! Timetable files.

ghost use Rattle.std.specs.Prelude.{◌≡◌, ◌-◌, ◌<◌, ◌^◌, length, map, None, OnOk, IfOk, IfErr};
ghost use Rattle.csv.specs.Records.{fields_of};
ghost use Rattle.rail_base.specs.FirstRefusals.{first_failing};
ghost use Rattle.rail_base.specs.Refusals.{AnswersFirst};
ghost use Rattle.rail_plan.specs.CallTables.{AreCallsFor};
ghost use Rattle.rail_timetable.specs.Timetables.{AreSpelledCalls, calls_in, records_tests, timetable_refusal, with_records};

use crate::records::records_of;
use crate::rows::{is_header, read_record, refused_record};
use csv::ByteRecord;
use rail_base::{Fault, Reason};
use rail_plan::{Calls, Plant};
use std::alloc::Global;

/// Reads a timetable file, for this plant: the header `train,place,arrival,departure,dwell`, and behind it
/// a record for each call.
///
/// It is refused, record by record, by the first of these that holds: as no timetable, where there is no
/// record, the first is not the header, or a record has not five fields; as of a wrong value, where a field
/// spells no train of the plant, no place of that train, no time up to ten days or, in the dwell, not
/// `pass` either; where the call may not stand at its place, since at the last place there is no departure
/// and no dwell, and at a place with a turn a train does not pass; or where the train has a call there
/// already. Records count from 1 with the header.
pub fn read_timetable(alloc: Global, plant: &Plant, bytes: &[u8]) -> Result<Calls, Fault>
    requires short { length bytes.now < 2 ^ 32 - 1 }
    ensures calls { IfOk result (λ calls. calls ≡ calls_in plant.now.tables bytes.now) }
    ensures accepted { OnOk result (timetable_refusal plant.now.tables bytes.now ≡ None) }
    ensures spelled { IfOk result (AreSpelledCalls plant.now.tables bytes.now) }
    ensures made { IfOk result (AreCallsFor plant.now.tables) }
    ensures refused { IfErr result (AnswersFirst (timetable_refusal plant.now.tables bytes.now)) }
{
    let records = records_of(alloc, bytes)?;
    let mut calls = Calls::new(alloc, plant)?;
    match records.as_slice() {
        [header, others @ ..] if is_header(header) => read_records(&mut calls, plant, others)?,
        _ => return Err(refused_record(Reason::TimetableForm, 1)),
    }
    Ok(calls)
}

/// Reads the records behind the header.
fn read_records(calls: &mut Calls, plant: &Plant, records: &[ByteRecord]) -> Result<(), Fault>
    requires few { length records.now < 2 ^ 32 - 2 }
    requires made { AreCallsFor plant.now.tables calls.old }
    ensures accepted { OnOk result (first_failing (records_tests plant.now.tables calls.old 2 (map fields_of records.now)) ≡ None) }
    ensures calls { OnOk result (calls.new ≡ with_records plant.now.tables calls.old (map fields_of records.now)) }
    ensures made { OnOk result (AreCallsFor plant.now.tables calls.new) }
    ensures refused { IfErr result (AnswersFirst (first_failing (records_tests plant.now.tables calls.old 2 (map fields_of records.now)))) }
{
    let mut number = 1;
    for row in records {
        number += 1;
        read_record(calls, plant, number, row)?;
    }
    Ok(())
}
