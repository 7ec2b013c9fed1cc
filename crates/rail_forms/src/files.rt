//! The files of a command, read one after another.

ghost use Rattle.std.specs.Prelude.{◌≡◌, ◌≤◌, ℕ, List, Option, None, Some, IfOk, IfErr, IfSome, OnOk, length};
ghost use Rattle.std.specs.Option.{option_copied};
ghost use Rattle.rail_base.specs.declared.limits.TheConstants.{HISTORY_BYTES};
ghost use Rattle.rail_forms.specs.Files.{IsFileAnswer, IsNamedAnswer, IsRead, IsReadIfAny, content_of, told_of, too_large, too_large_if_any, too_many_bytes};

use crate::status::Status;
use rail_base::{Part, Reason, Refusal};
use rail_command_line::FileRole;
use rail_io::{ReadWhole, Shelf, read_whole};
use std::alloc::Global;

/// The bytes of the file of this name, which has this role for the command. It ends with `ReadFault` where it cannot be
/// read, and as refused, too many, where it has more bytes than a file of this role may have.
pub fn read_file<S: Shelf>(
    alloc: Global,
    shelf: &mut S,
    name: &str,
    role: FileRole,
) -> Result<Vec<u8>, Status>
    ensures bytes { IfOk result (λ bytes. (told : List ℕ) → S.told shelf.old name.now ≡ Some told → bytes.items ≡ told) }
    ensures short { IfOk result (λ bytes. length bytes.items ≤ HISTORY_BYTES) }
    ensures fits { IfOk result (λ bytes. too_large role bytes.items ≡ None) }
    ensures read { OnOk result (IsRead S.Shelf name.now shelf.new) }
    ensures refused { IfErr result (IsFileAnswer S.Shelf role name.now shelf.old shelf.new) }
    ensures told_stays { S.told shelf.new ≡ S.told shelf.old }
    ensures faults_never_fall { S.faults shelf.old ≤ S.faults shelf.new }
{
    let limit = role.most_bytes();
    match read_whole(alloc, shelf, name, limit) {
        Ok(bytes) => Ok(bytes),
        Err(ReadWhole::ReadFault) => Err(Status::ReadFault),
        Err(ReadWhole::TooLarge) => Err(Status::Refused(too_many_bytes(role))),
        Err(ReadWhole::OutOfMemory) => Err(Status::OutOfMemory),
    }
}

/// The bytes of the file of this name, which has this role; none where there is no name. It ends as `read_file` does.
pub fn read_if_named<S: Shelf>(
    alloc: Global,
    shelf: &mut S,
    name: Option<&str>,
    role: FileRole,
) -> Result<Option<Vec<u8>>, Status>
    ensures content { IfOk result (λ bytes. (content : Option (List ℕ))
        → told_of (S.told shelf.old) (option_copied name.entry) ≡ Some content → content_of bytes ≡ content) }
    ensures short { IfOk result (λ bytes. IfSome (content_of bytes) (λ b. length b ≤ HISTORY_BYTES)) }
    ensures fits { IfOk result (λ bytes. too_large_if_any role (content_of bytes) ≡ None) }
    ensures read { OnOk result (IsReadIfAny S.Shelf (option_copied name.entry) shelf.old shelf.new) }
    ensures refused { IfErr result (IsNamedAnswer S.Shelf role (option_copied name.entry) shelf.old shelf.new) }
    ensures told_stays { S.told shelf.new ≡ S.told shelf.old }
    ensures faults_never_fall { S.faults shelf.old ≤ S.faults shelf.new }
{
    let Some(name) = name else {
        return Ok(None);
    };
    let bytes = read_file(alloc, shelf, name, role)?;
    Ok(Some(bytes))
}

/// The refusal of a file for its size, by its role.
fn too_many_bytes(role: FileRole) -> Refusal
    ensures { result ≡ too_many_bytes role }
{
    Refusal {
        reason: Reason::TooMany,
        part: Part::File,
        item: role.number(),
        step: 0,
    }
}
