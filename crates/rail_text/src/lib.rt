//! Text in and out: the lines, words, numbers and times of the files that are read line by line, and the room in which a
//! line of output is put together.
//!
//! This layer stands on `rail_base`, where the forms of names and times are defined. `specs/Lines.antt` says what lines and
//! words are and which lines are skipped, `specs/Decimals.antt` which number digits spell, `specs/Times.antt` which time a
//! word of an input spells, and `specs/Names.antt` which name a number has. Every program here answers exactly to these; how
//! lines and words are cut and put together may be changed freely. No call but `read_names` takes memory.
#![tactic(auto)]

mod decimals;
mod line_buffer;
mod line_numbers;
mod lines;
mod name_words;
mod names;
mod times;

pub use decimals::{is_decimal, value_of};
pub use line_buffer::{LineBuffer, ROOM};
pub use line_numbers::{NumberedLine, NumberedLines, numbered_lines};
pub use lines::{next_line, next_word, refused_at};
pub use name_words::read_names;
pub use times::{a_word_spells_an_input_time, input_time};
