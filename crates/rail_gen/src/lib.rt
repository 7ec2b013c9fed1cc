//! Made-up scenes: the scene of a number, and that every one of them is accepted.
//!
//! A number gives a line plant and its trains by the words of a generator, `Lcg64Xsh32` of the kit, in order. The
//! definitions in `specs/` say which scene that is; `scene_of` makes it. How the code is laid out may be changed freely;
//! the scene of a number stands in users' notes and scripts, so the definitions may not.
//!
//! That a train is accepted is not proved train by train: all choices of tracks on each of the seven plants are
//! evaluated, in both directions and for each kind. A change of the plant, of the kinds or of the itineraries is
//! evaluated again by itself.
#![tactic(auto)]

mod laws;
mod making;
mod names;
mod tracks;
mod trains;
mod ways;

pub use laws::a_made_up_scene_is_accepted;
pub use making::scene_of;
