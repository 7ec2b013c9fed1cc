//! The network layer: posts, turns and routes over a track, of which each is accepted by its rules
//! alone and taken out only where nothing uses it.
//!
//! It stands on the track layer, and through it on the ground layer. The rules of the network stand
//! in `specs/`: the tests of a new post, turn and route in the order of their refusals, what is in use,
//! and what no network holds twice. Change a rule there. The tables beside the lists, which answer what
//! stands at a joint, runs over a section or names a post, may be changed freely.
#![tactic(auto)]

mod acceptance;
mod items;
mod network;
mod post_list;

pub use acceptance::{
    the_sections_and_posts_of_a_sound_network_are_accepted_in_their_order,
    the_turns_and_routes_of_a_sound_network_are_accepted_in_their_order,
};
pub use items::{Post, PostRole, Route, Step, Turn};
pub use network::Network;
