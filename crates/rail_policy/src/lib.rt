//! Dispatching policies in boxes, and the desk that keeps them.
//!
//! This layer stands on `rail_base` for the kinds of policies, and on the definitions of `rail_rules` for how
//! keys are compared. A policy is asked which of the waiting trains is tried next. Contracts see it as a seat:
//! its name, kind, mark and last answer. `specs/Keys.antt` has the key by which each kind chooses,
//! `specs/Choices.antt` what a policy may answer: one of a built-in kind answers an offer before which no other
//! goes, a custom one anything; a scripted one, of `specs/Scripts.antt`, answers from its list. The desk has the
//! boxes of a deck, one of which is in force; contracts see it as the table of `Seen`, and each of its calls says
//! what the table is afterwards.
//!
//! How a policy finds the offer with the least key may be changed, and how the desk finds a box. What may not
//! change is that no call takes memory, that a turn asks the box in force once and no other, and that an answer
//! that is in range is taken.
#![tactic(auto)]

mod boxes;
mod built_in_policies;
mod deck;
mod desk;
mod desk_table;
mod offer;
mod policy;
mod scripted_policy;

pub use built_in_policies::{FcfsPolicy, PriorityPolicy, RotatingPolicy, TimetablePolicy};
pub use deck::{deck_is_fine, names_of, read_marks};
pub use desk::{Asked, Desk, Retire, UnknownName};
pub use desk_table::Seen;
pub use offer::Offer;
pub use policy::Policy;
pub use scripted_policy::ScriptedPolicy;
