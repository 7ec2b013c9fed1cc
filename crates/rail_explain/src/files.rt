//! In which file a refusal lies.

ghost use Rattle.std.specs.Prelude.{◌≡◌, find, option_and_then};
ghost use Rattle.std.specs.Option.{option_copied};
ghost use Rattle.rail_command_line.specs.Files.{file_with, roles_of};
ghost use Rattle.rail_command_line.specs.Forms.{files_in};
ghost use Rattle.rail_explain.specs.Files.{has_instructions, role_at, role_of, role_of_lines};

use rail_base::{Part, Reason, Refusal};
use rail_command_line::{FileRole, Request};

/// The name of the file in which a refusal of what is asked for lies: `None` where it lies in a word, or in a file that the
/// request does not read.
pub fn file_of<'w>(request: &Request<'w>, refusal: &Refusal) -> Option<&'w str>
    ensures { let files = files_in request.now in
        option_copied result ≡ option_and_then (λ role. file_with role files) (role_of (roles_of files) refusal.now refusal.now.part) }
{
    let files = request.files();
    let role = role_of(files.roles, refusal)?;
    files.name_of(role)
}

/// The role of the file in which a refusal lies, among the roles of the files that are read.
fn role_of(roles: &[FileRole], refusal: &Refusal) -> Option<FileRole>
    ensures { result ≡ role_of roles.now refusal.now refusal.now.part }
{
    match refusal.part {
        Part::Word => None,
        Part::Row => Some(FileRole::Timetable),
        Part::Line => role_of_lines(roles, refusal.reason),
        Part::File => role_at(roles, refusal.item),
        _ => Some(FileRole::Scene),
    }
}

/// The role of the file of lines in which a refusal lies. What is wrong in a history, a snapshot or proposals has reasons of
/// its own; any other lies in the first file with instructions.
fn role_of_lines(roles: &[FileRole], reason: Reason) -> Option<FileRole>
    ensures { result ≡ role_of_lines roles.now reason }
{
    match reason {
        Reason::HistoryForm => Some(FileRole::History),
        Reason::SnapshotForm | Reason::SnapshotOther => Some(FileRole::Snapshot),
        Reason::RerouteForm | Reason::RerouteName => Some(FileRole::Proposals),
        _ => first_with_instructions(roles),
    }
}

/// The first of the roles that is one of a file with instructions.
fn first_with_instructions(roles: &[FileRole]) -> Option<FileRole>
    ensures { result ≡ find has_instructions roles.now }
{
    roles.iter().copied().find(|role| has_instructions(*role))
}

/// Whether the lines of a file of the role say what is done: those of a list, of edits and of commands do.
fn has_instructions(role: FileRole) -> bool
    ensures { result ≡ has_instructions role }
{
    match role {
        FileRole::List | FileRole::Edits | FileRole::Commands => true,
        FileRole::Scene
        | FileRole::Timetable
        | FileRole::History
        | FileRole::Proposals
        | FileRole::Snapshot => false,
    }
}

/// The role of the file of this number, from 1, where one of the files has it.
fn role_at(roles: &[FileRole], number: u32) -> Option<FileRole>
    ensures { result ≡ role_at roles.now number }
{
    if number == 0 {
        return None;
    }
    roles.get(number as usize - 1).copied()
}
