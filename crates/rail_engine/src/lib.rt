//! The engine of a run of all trains together: the ledger, and the desk that says which train goes first.
//!
//! This layer stands on the ledger of a run (`rail_ledger`), which keeps all and gives each line that follows by
//! itself, and on the dispatching policies (`rail_policy`). At each instant the trains that could go are offered to
//! the policy in force, which says which of them is tried next. So each line that the engine gives continues a run
//! history of its input, and the contracts of `Engine` say so for every front for which it stands
//! (`specs/Engines.antt`). The desk belongs to that front: `specs/Desks.antt` says which boxes are left, which one is
//! in force and what their marks are. Bodies may be changed freely. What may not change is that only `Engine::begin`
//! takes memory, that a policy of a built-in kind is not asked about trains whose cause is known, and that a custom
//! one is offered every train that waits, by number, at each instant with a round.
#![tactic(auto)]

mod attempt;
mod engine;
mod followed_lines;
mod offers;
mod round;

pub use engine::Engine;
pub use rail_laws_end::one_history;
