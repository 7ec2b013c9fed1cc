//! When trains actually departed and arrived.

ghost use Rattle.std.specs.Prelude.{◌≡◌, ◌==◌, ◌-◌, ◌≤◌, ◌&&◌, IfOk, false, length, nat_lt, replicate, set, slice_get};
ghost use Rattle.std.specs.Option.{option_map_or};
ghost use Rattle.rail_delay.specs.Noting.{AreVisitsAfter};
ghost use Rattle.rail_delay.specs.Reports.{no_visit, visit_of};
ghost use Rattle.rail_delay.specs.VisitRows.{no_visits, rows_of, visit_in, with_visit};
ghost use Rattle.rail_delay.specs.Visits.{is_first_section};

use rail_base::{Entry, SectionNo, Time, TrainNo, TrainRow, What};
use rail_plan::Plant;
use std::alloc::{AllocError, Global};

/// When a train departed on a move, and when it arrived at its end.
#[derive(Clone, Copy)]
pub struct Visit {
    pub departed: Option<Time>,
    pub arrived: Option<Time>,
}

impl Visit {
    /// Before any line.
    pub fn new() -> Visit
        ensures { result ≡ no_visit }
    {
        Visit {
            departed: None,
            arrived: None,
        }
    }
}

/// Room for a visit of each move of each train.
pub fn rooms_of(alloc: Global, plant: &Plant) -> Result<Vec<Vec<Visit>>, AllocError>
    ensures { IfOk result (λ rooms. rows_of rooms.items ≡ no_visits plant.now) }
{
    let trains = plant.moves().trains();
    let mut rooms = Vec::new(alloc);
    for number in 0..trains {
        rooms.push(room_for(alloc, plant.train(TrainNo(number)))?)?;
    }
    Ok(rooms)
}

/// Room for a visit of each move of the train.
fn room_for(alloc: Global, train: &TrainRow) -> Result<Vec<Visit>, AllocError>
    ensures { IfOk result (λ room. room.items ≡ replicate (length train.now.moves) no_visit) }
{
    vec![in alloc; Visit::new(); train.moves.as_slice().len()]
}

/// Notes the departure or the arrival that the line tells of, where the plant has its train and move.
pub fn note_visit(rows: &mut [Vec<Visit>], plant: &Plant, entry: &Entry)
    ensures { AreVisitsAfter plant.now entry.now (rows_of rows.old) (rows_of rows.new) }
{
    match entry.what {
        What::Enter {
            train,
            place,
            section,
        } => {
            if is_first_section(plant, train, place, section) {
                let mut visit = visit_at(rows, train, place);
                visit.departed = Some(entry.at);
                set_visit(rows, train, place, visit);
            }
        }
        What::Arrive { train, place } => {
            if place > 0 {
                let mut visit = visit_at(rows, train, place);
                visit.arrived = Some(entry.at);
                set_visit(rows, train, place, visit);
            }
        }
        _ => {}
    }
}

/// Whether the train's move that leads to this place needs this section first.
fn is_first_section(plant: &Plant, train: TrainNo, place: u16, section: SectionNo) -> bool
    ensures { result ≡ (nat_lt 0 place && is_first_section plant.now train (place - 1) section) }
{
    if place == 0 || train.0 >= plant.moves().trains() {
        return false;
    }
    let moves = plant.train(train).moves.as_slice();
    match moves.get(usize::from(place) - 1) {
        Some(row) => is_first(row.sections.as_slice(), section),
        None => false,
    }
}

/// Whether the section is the first of these.
fn is_first(sections: &[SectionNo], section: SectionNo) -> bool
    ensures { result ≡ option_map_or (λ x. x == section) (slice_get sections.now 0) false }
{
    match sections.first() {
        Some(first) => *first == section,
        None => false,
    }
}

/// The visit of the train's move that leads to this place, where it is there.
fn visit_at(rows: &[Vec<Visit>], train: TrainNo, place: u16) -> Visit
    requires { 1 ≤ place }
    ensures { result ≡ visit_in (rows_of rows.now) train (place - 1) }
{
    match rows.get(usize::from(train.0)) {
        Some(row) => visit_of(row, usize::from(place) - 1),
        None => Visit::new(),
    }
}

/// The visit of a move, counted from 0, where it is there.
pub fn visit_of(row: &[Visit], index: usize) -> Visit
    ensures { result ≡ visit_of row.now index }
{
    row.get(index).copied().unwrap_or(Visit::new())
}

/// Sets the visit of the train's move that leads to this place, where it is there.
fn set_visit(rows: &mut [Vec<Visit>], train: TrainNo, place: u16, visit: Visit)
    requires { 1 ≤ place }
    ensures { rows_of rows.new ≡ with_visit (rows_of rows.old) train (place - 1) visit }
{
    let index = usize::from(train.0);
    if index < rows.len() {
        set_at(&mut rows[index], usize::from(place) - 1, visit);
    }
}

/// Sets the visit of this number, where it is there.
fn set_at(row: &mut [Visit], index: usize, visit: Visit)
    ensures { row.new ≡ set row.old index visit }
{
    if index < row.len() {
        row[index] = visit;
    }
}
