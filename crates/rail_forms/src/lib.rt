//! The forms of the command line: what each of them does, from the bytes of its files to the bytes of its answer.
//!
//! Each form has a module, whose call `answer` reads the files that it is handed the names of, and adds its answer to an
//! output. Those that run a scenario are all alike: read its files, begin the run (`src/scenario.rt`), follow it. A run is
//! followed to its end by one loop (`src/beginning.rt`), which hands each line to what is noted of it (`src/notes.rt`): the
//! history is written so as well (`src/run.rt`). How a snapshot is written and resumed stands in `rail_save`. This layer
//! stands on all that is below the program and joins it; which words ask for which form is told above. What every form
//! promises of the files and of the output is one record, `KeepsPromise` in `specs/Promises.antt`; what a form answers,
//! accepts and refuses alone is defined in a module of its own, which ends with its terms (`specs/Terms.antt`), as what a
//! run writes in `specs/Runs.antt`. The contracts of the calls `answer`, the exit statuses and the texts are relied upon;
//! how a form is put together may be changed freely.
#![tactic(auto)]

mod beginning;
pub mod capacity;
pub mod check;
pub mod edit;
mod files;
pub mod infra;
pub mod insert;
pub mod migrate;
mod notes;
pub mod play;
pub mod report;
pub mod reroute;
pub mod resume;
pub mod run;
pub mod save;
mod scenario;
pub mod scene;
pub mod stairs;
mod status;
pub mod summary;

pub use status::Status;
