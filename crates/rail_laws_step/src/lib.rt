//! How each line changes what a run keeps: what is due and to come, where heads are, who holds a section,
//! who waits and why.
//!
//! This layer stands on `rail_laws_events`. It has lemmas alone and no function: those that the crates above
//! cite stand in `proofs/CallerLemmas.antt`, each with its sentence; all else in `proofs/` may be changed freely.
//! The definitions in `specs/` speak of lines and fronts, not of a program.
#![tactic(auto)]
