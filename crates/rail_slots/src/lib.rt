//! Chains of slots in one room.
//!
//! This layer stands on the plain data of `rail_base` alone. Contracts see the chains as lists, each of its
//! slots with their items, and how much room is left. A slot is in use where it stands in a chain, and it
//! stands in one place only; its number means nothing but the slot. Each step from a slot to the one after it
//! is counted, and so is each item that is taken out, so that a contract above can say how far a search went.
//! Without a step only the first slot of each chain and slots that were put in are seen.
//!
//! How the slots are linked may be kept in another way as long as the contracts hold. What may not change is
//! that only `with_room` takes memory, and that each other call costs the same, however many slots are in use.
#![tactic(auto)]

mod links;
mod slots;

pub use slots::Slots;
