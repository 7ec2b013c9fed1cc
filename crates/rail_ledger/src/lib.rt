//! The ledger of a run: all that is kept of it, the next line where nobody is to be chosen, and whether a given
//! line may follow.
//!
//! This layer stands on the state of a run and what that represents (`rail_state`), and on the kept list and its
//! repair (`rail_list`). `Ledger` keeps plant, state, places and lists; it keeps no lines: that it stands for a
//! front, the lines given so far, is a relation (`specs/Ledgers.antt`) that each call keeps. It chooses nobody: of
//! the trains that could go it shows the one that was ready first, admits the one that it is told, and gives each
//! line that follows by itself. So an engine that chooses and a checker that is handed its lines both stand on it.
//! Bodies may be changed freely, and so may all proofs. What may not change is that only `Ledger::begin` takes
//! memory, that a line which may not follow is refused with the law that it breaks, and that a call costs what it
//! touches: no scan of all events, sections or trains.
#![tactic(auto)]

mod due;
mod input;
mod judgement;
mod ledger;

pub use due::Due;
pub use input::RunInput;
pub use judgement::Left;
pub use ledger::{Ledger, Listed};
