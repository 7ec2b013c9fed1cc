//! The files that a command reads, each with the role that it has there.

ghost use Rattle.std.specs.Prelude.{◌≡◌, ◌≤◌, List, position};
ghost use Rattle.std.specs.Option.{option_copied};
ghost use Rattle.rail_base.specs.declared.limits.TheConstants.{HISTORY_BYTES};
ghost use Rattle.rail_command_line.specs.Files.{AreFiles, File, file_with, most_bytes, named_file, number_of, same_role};

use rail_base::Word;
use rail_base::limits::{FILE_BYTES, HISTORY_BYTES};

/// What a file is for a command.
#[derive(Clone, Copy, Debug, PartialEq, Eq)]
pub enum FileRole {
    Scene,
    Timetable,
    Commands,
    History,
    List,
    Edits,
    Proposals,
    Snapshot,
}

impl FileRole {
    /// How many bytes a file of the role may have.
    pub fn most_bytes(self) -> u64
        ensures exact { result ≡ most_bytes self }
        ensures short { result ≤ HISTORY_BYTES }
    {
        match self {
            FileRole::History | FileRole::Snapshot => HISTORY_BYTES,
            FileRole::Scene
            | FileRole::Timetable
            | FileRole::Commands
            | FileRole::List
            | FileRole::Edits
            | FileRole::Proposals => FILE_BYTES,
        }
    }

    /// The number of the file among the file words of its command, from 1; a `-` counts too.
    pub fn number(self) -> u32
        ensures { result ≡ number_of self }
    {
        match self {
            FileRole::Scene => 1,
            FileRole::Timetable | FileRole::List | FileRole::Edits => 2,
            FileRole::Commands | FileRole::Proposals => 3,
            FileRole::History | FileRole::Snapshot => 4,
        }
    }
}

/// The files of a request, in the order in which they are read: four at most.
#[derive(Clone, Copy, Debug, PartialEq, Eq)]
pub struct RequestFiles<'w> {
    pub roles: &'static [FileRole],
    /// The name of the file of each role, at its place: `None` where the file is missing, and behind the last role.
    pub names: [Option<&'w str>; 4],
}

impl<'w> RequestFiles<'w> {
    /// The name of the file of the role, where one of the files has it.
    pub fn name_of(&self, role: FileRole) -> Option<&'w str>
        ensures { (files : List File) → AreFiles self.now files → option_copied result ≡ file_with role files }
    {
        let place = place_of(role, self.roles)?;
        *self.names.get(place)?
    }
}

/// The place of the role among the roles, from 0, where it is there.
fn place_of(role: FileRole, roles: &[FileRole]) -> Option<usize>
    ensures { result ≡ position (same_role role) roles.now }
{
    roles.iter().position(|other| *other == role)
}

/// The word that stands for no file.
const NO_FILE: &str = "-";

/// The name of the file that a word names: none where the word is `-`.
pub(crate) fn named_file(word: &Word) -> Option<&str>
    ensures { option_copied result ≡ named_file word.now }
{
    let word = word.as_str();
    if word == NO_FILE { None } else { Some(word) }
}
