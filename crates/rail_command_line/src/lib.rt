//! The words of the command line: the table of its forms, and what the words of each spell, with the files that it reads;
//! and the lines of list files.
//!
//! This layer stands on `rail_base`, and for lists on the lines and words of `rail_text` and the moves of `rail_place`, on
//! whose player they are played. A request is parsed once (`src/forms.rt`), and lists its files once, each with its role;
//! the role of a file says how large it may be and which number a refusal gives it (`src/files.rt`). The table of words and
//! the meaning of a list are the definitions in `specs/Forms.antt`, `specs/Files.antt` and `specs/Lists.antt`, to which
//! every program here answers exactly; how they are read may be changed freely. A new form is its lines in `src/forms.rt`
//! and in `specs/Forms.antt`, and an answer for its files in `proofs/forms/Request/files`.
#![tactic(auto)]

mod checking;
mod files;
mod forms;
mod list;
mod numbers;

pub use files::{FileRole, RequestFiles};
pub use forms::{FORMS, Form, PATHS, PathRequest, Request, Scenario, form_named, request_of};
pub use list::{ListFile, read_list};
