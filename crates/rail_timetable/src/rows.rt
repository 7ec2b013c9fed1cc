//! The record of a call: whose it is, at which place, and the call.

ghost use Rattle.std.specs.Prelude.{◌≡◌, ◌<◌, None, IsTrue, OnOk, IfErr, IfSome};
ghost use Rattle.csv.specs.Records.{fields_of};
ghost use Rattle.rail_base.specs.FirstRefusals.{first_failing};
ghost use Rattle.rail_base.specs.Refusals.{AnswersFirst};
ghost use Rattle.rail_base.specs.declared.refusals.Fault.TheVariants.{Refused};
ghost use Rattle.rail_plan.specs.CallTables.{AreCallsFor};
ghost use Rattle.rail_rules.specs.Accepted.{is_accepted};
ghost use Rattle.rail_rules.specs.Plant.{moves, trains};
ghost use Rattle.rail_timetable.specs.Fields.{MayStand, call_of, call_of_train, texts_of};
ghost use Rattle.rail_timetable.specs.Timetables.{is_header, record_tests, refusal_at, with_record};

use crate::fields::{call_at_place, place_within, train_named};
use crate::records::{Fields, five_fields};
use csv::ByteRecord;
use rail_base::{Call, Fault, Part, Reason, Refusal, TrainNo};
use rail_plan::{Calls, Plant};
use rail_text::a_word_spells_an_input_time;

/// A call of a train at a place, which counts from 1.
#[derive(Clone, Copy, Debug)]
pub(crate) struct PlacedCall {
    pub(crate) train: TrainNo,
    pub(crate) place: u16,
    pub(crate) call: Call,
}

/// Whether the record is the header.
pub(crate) fn is_header(row: &ByteRecord) -> bool
    ensures { result ≡ is_header (fields_of row.now) }
{
    match five_fields(row) {
        Some(fields) => {
            fields.train == b"train".as_slice()
                && fields.place == b"place".as_slice()
                && fields.arrival == b"arrival".as_slice()
                && fields.departure == b"departure".as_slice()
                && fields.dwell == b"dwell".as_slice()
        }
        None => false,
    }
}

/// Reads a record behind the header, which has this number among all records.
pub(crate) fn read_record(
    calls: &mut Calls,
    plant: &Plant,
    number: u32,
    row: &ByteRecord,
) -> Result<(), Fault>
    requires made { AreCallsFor plant.now.tables calls.old }
    ensures accepted { OnOk result (first_failing (record_tests plant.now.tables calls.old number (fields_of row.now)) ≡ None) }
    ensures set { OnOk result (calls.new ≡ with_record plant.now.tables calls.old (fields_of row.now)) }
    ensures made { OnOk result (AreCallsFor plant.now.tables calls.new) }
    ensures refused { IfErr result (AnswersFirst (first_failing (record_tests plant.now.tables calls.old number (fields_of row.now)))) }
{
    let Some(fields) = five_fields(row) else {
        return Err(refused_record(Reason::TimetableForm, number));
    };
    let Some(placed) = call_of(plant, &fields) else {
        return Err(refused_record(Reason::TimetableValue, number));
    };
    if calls.at(placed.train, placed.place).is_some() {
        return Err(refused_record(Reason::TimetableValue, number));
    }
    calls.set(placed.train, placed.place, placed.call);
    Ok(())
}

/// The call that the fields spell, where they spell one that may stand at its place.
fn call_of(plant: &Plant, fields: &Fields<'_>) -> Option<PlacedCall>
    ensures spelled { result ≡ call_of plant.now.tables (texts_of fields.now) }
    ensures placed { IfSome result (MayStand plant.now.tables) }
{
    let train = train_named(plant, fields.train)?;
    call_of_train(plant, train, fields)
}

/// The call of this train that the other fields spell.
fn call_of_train(plant: &Plant, train: TrainNo, fields: &Fields<'_>) -> Option<PlacedCall>
    requires { train < trains plant.now }
    ensures spelled { result ≡ call_of_train plant.now.tables fields.now.place.now
        fields.now.arrival.now fields.now.departure.now fields.now.dwell.now train }
    ensures placed { IfSome result (MayStand plant.now.tables) }
{
    a_word_spells_an_input_time();
    let last = last_place(plant, train);
    let place = place_within(last, fields.place)?;
    let turns = plant.move_row(train, place).turn.is_some();
    let call = call_at_place(
        place == last,
        turns,
        fields.arrival,
        fields.departure,
        fields.dwell,
    )?;
    Some(PlacedCall { train, place, call })
}

/// The last place of the train, which is the number of its moves. A plant has no turn there.
fn last_place(plant: &Plant, train: TrainNo) -> u16
    requires { train < trains plant.now }
    ensures last { result ≡ moves plant.now train }
    ensures accepted { IsTrue (is_accepted plant.now) }
{
    plant.moves().places(train)
}

/// The refusal of a record for this reason. Records count from 1.
pub(crate) fn refused_record(reason: Reason, number: u32) -> Fault
    ensures { result ≡ Refused (refusal_at reason number) }
{
    Fault::Refused(Refusal {
        reason,
        part: Part::Row,
        item: number,
        step: 0,
    })
}
