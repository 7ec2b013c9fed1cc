//! What follows from a list of moves that brings every train inside to its exit: there is no deadlock. And how deep a
//! search has to go to find such a list wherever there is one.
//!
//! This layer stands on the definitions of `rail_rules` alone: it speaks of places and moves, and of no history.
//! `specs/Locked.antt` says what a deadlock is; a change of it is a change of the laws. Each law is the contract of a
//! function without code. The lemmas that the crates above cite stand in `proofs/CallerLemmas.antt`; all else in
//! `proofs/` may be changed freely.
#![tactic(auto)]

mod laws;

pub use laws::{
    a_depth_of_the_moves_left_finds_every_list, a_greater_depth_finds_no_less,
    where_a_list_completes_no_trains_are_locked,
};
