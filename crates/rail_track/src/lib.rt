//! The track layer: sections, the passages of a section, and the track as a list of sections.
//!
//! It stands on the ground layer. The layers above use two more of its things: rolls of items
//! that are found by a key, and tallies of names. The list of
//! tests in `specs/SectionRules.antt` decides which section is accepted, and with which answer one is
//! refused: change the rules there. How a roll or a track finds a name may be changed freely.
#![tactic(auto)]

mod acceptance;
mod accepting;
mod passing;
mod roll;
mod section;
mod tally;
mod track;

pub use acceptance::the_sections_of_a_sound_track_are_accepted_in_their_order;
pub use accepting::{ClosedJoints, joint_count};
pub use roll::{Keyed, Roll};
pub use section::{NetFault, Section, SectionKind};
pub use tally::{Tally, count, count_each, discount, discount_each, times};
pub use track::Track;
