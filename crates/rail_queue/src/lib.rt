//! What is pending in a run: events in order of time, class and number.
//!
//! This layer stands on the chains of `rail_slots`, on the plain data of `rail_base` and, for how numbers are
//! compared in turn, on the definitions of `rail_rules`. Contracts see a queue as the list of its events, the
//! next one first, the room that is left, the bucket with which the ring of near buckets begins, and the chains
//! in which the events lie; `specs/` says which of two events comes first, and in which chain an event lies.
//! Two laws say what a push means for the order: of equal events the one pushed first comes first, and the
//! others stay in their order.
//!
//! Which chain comes first is kept: a push compares its event with the one that comes first, and the chains are
//! searched only where events were taken out.
//!
//! What may not change is that only `with_room` takes memory, that the events lie in these chains, and that a
//! push into a near bucket makes no steps but over events of this bucket.
#![tactic(auto)]

mod chains;
mod choice;
mod event;
mod laws;
mod marks;
mod queue;
mod removal;

pub use event::{Class, Event};
pub use laws::{
    events_equal_in_order_stand_in_the_order_in_which_they_were_pushed,
    the_others_stay_in_their_order,
};
pub use queue::EventQueue;
