//! The outside as the simulator sees it: shelves, from which named files are read, and sinks, to
//! which bytes are written; objects of both kinds in memory, which fail as planned, never, or never
//! and move one byte a call; the adapters to files and to standard output; reading a whole file, and
//! writing a whole piece.
//!
//! It stands on `rail_base`, of which it uses `Word`, `Seq` and `OutOfMemory`. The layers above use
//! the contracts of the two traits and of `read_whole` and `write_whole` alone, so any body may be
//! changed freely; a change of a trait's clause is a change of every layer above. `files` is the
//! trusted edge: what files and standard output hold is outside of what is proved.
#![tactic(auto)]

mod drip_files;
mod files;
mod gathered_sink;
mod kept_file;
mod kept_files;
mod memory;
mod paper;
mod plan;
mod reading;
mod room;
mod shelf;
mod sink;
mod sure_files;
mod whole_files;

pub use drip_files::{DripShelf, DripSink};
pub use files::{FileShelf, OutSink};
pub use gathered_sink::GatheredSink;
pub use kept_file::File;
pub use memory::{MemoryShelf, MemorySink};
pub use shelf::{Shelf, StartFault};
pub use sink::{Failed, Sink};
pub use sure_files::{SureShelf, SureSink};
pub use whole_files::{ReadWhole, read_whole, write_whole};
