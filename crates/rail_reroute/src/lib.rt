//! Reroutings: proposals that trains take other routes from where they stand, and what each would lead to.
//!
//! This layer stands on `rail_compile` for the plant of a scene with other trains, on `rail_place` and `rail_consequence`
//! for what a state of places leads to, and on `rail_text` for lines. `specs/Judgements.antt` says which answer is right,
//! `specs/Proposals.antt` what a file of proposals means and where it is refused, and `specs/Lines.antt` which line is
//! written for an answer. Each proposal is judged by itself; how may be changed freely.
#![tactic(auto)]

mod judgements;
mod judges;
mod laws;
mod lines;
mod proposals;
mod state;
mod trains;

pub use judgements::Judged;
pub use judges::Judge;
pub use laws::{a_proposal_has_one_answer, a_refused_rerouting_is_refused_for_its_itinerary};
pub use lines::write_judged;
pub use proposals::{Proposal, read_proposals};
