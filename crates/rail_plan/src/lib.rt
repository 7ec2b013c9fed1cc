//! Plants: the tables of a scene with what follows from them, and the calls of a timetable.
//!
//! This layer stands on the plain data of `rail_base`, on the definitions of `rail_rules`, and on
//! `rail_place` for the table of moves. `Plant::new` finds the first train that does not fit its routes,
//! or that would stand on a section that its next move needs; what it accepts may be run. Contracts see
//! a plant as its tables with its calls, so that what `rail_rules` says of plants holds of it word for
//! word. `specs/` says which tables are planned, what their fault is, and which calls belong to them.
//!
//! The layers above use the contracts alone: what a plant keeps beside its tables may be changed. What
//! may not change is that only `Plant::new`, `Calls::new` and `moves_over` take memory.
#![tactic(auto)]

mod alike;
mod bounds;
mod calls;
mod faults;
mod lent;
mod making;
mod plant;
mod rows;
mod standing;

pub use calls::Calls;
pub use faults::PlanFault;
pub use lent::LentMove;
pub use making::moves_over;
pub use plant::Plant;
