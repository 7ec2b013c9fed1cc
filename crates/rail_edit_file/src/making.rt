//! The edits of a file, made one after the other.

ghost use Rattle.std.specs.Prelude.{◌≡◌, ◌-◌, ◌<◌, ◌^◌, length, IsTrue, None, Some, IfOk, IfErr, OnOk};
ghost use Rattle.rail_base.specs.Refusals.{AnswersFirst};
ghost use Rattle.rail_track.specs.NetFaults.{Answers};
ghost use Rattle.rail_text.specs.Lines.{line_at, lines_of, words};
ghost use Rattle.rail_edit_file.specs.EditLines.{edit_line, is_formed_line};
ghost use Rattle.rail_edit_file.specs.EditFiles.{after_asked, after_line, after_lines, asked_at, asked_refusal, edited_network, edits_refusal, fault_of, lines_refusal, on_line};

use crate::spelling::{EditLine, edit_line};
use rail_base::{Fault, Part, Reason, Refusal};
use rail_edit::{EditFault, Editor};
use rail_routes::Network;
use rail_text::{NumberedLine, numbered_lines, refused_at};
use rail_track::NetFault;
use std::alloc::Global;

/// The network after the edits of a file.
///
/// It is refused, line by line, by the first of these that holds: as no edit, where a line is not `undo`,
/// `redo`, `remove section NAME`, `remove post NAME`, `remove turn ARRIVING LEAVING`, `remove route NAME`,
/// `add section NAME KIND LENGTH SPEED JOINT JOINT [JOINT [JOINT]]`,
/// `add portal NAME JOINT SETTING WATCHING APPROACH`, `add signal NAME JOINT AHEAD SETTING WATCHING APPROACH`,
/// `add board NAME JOINT`, `add turn ARRIVING LEAVING TIME` or
/// `add route NAME FROM TO JOINT SECTION JOINT [SECTION JOINT ..]`, with numbers up to 4,294,967,295 without
/// leading zeros; where there is nothing to undo, or to redo; as an editor of the network refuses the edit, at
/// the line and with the step of the editor. Lines count from 1; a line without a word, or whose first word
/// begins with `#`, is skipped.
pub fn edit_network(alloc: Global, network: Network, bytes: &[u8]) -> Result<Network, Fault>
    requires short { length bytes.now < 2 ^ 32 - 1 }
    ensures accepted { OnOk result (edits_refusal network bytes.now ≡ None) }
    ensures edited { IfOk result (λ after. after ≡ edited_network network bytes.now) }
    ensures refused { IfErr result (AnswersFirst (edits_refusal network bytes.now)) }
{
    let mut editor = Editor::new(alloc, network);
    match edit_lines(alloc, &mut editor, bytes) {
        Ok(()) => Ok(editor.into_network()),
        Err(fault) => Err(fault),
    }
}

/// Makes the edits of the lines.
fn edit_lines(alloc: Global, editor: &mut Editor, bytes: &[u8]) -> Result<(), Fault>
    requires short { length bytes.now < 2 ^ 32 - 1 }
    ensures accepted { OnOk result (lines_refusal (lines_of bytes.now) editor.old ≡ None) }
    ensures edited { OnOk result (editor.new ≡ after_lines (lines_of bytes.now) editor.old) }
    ensures refused { IfErr result (AnswersFirst (lines_refusal (lines_of bytes.now) editor.old)) }
{
    for NumberedLine { number, line } in numbered_lines(bytes) {
        make_line(alloc, editor, number, line)?;
    }
    Ok(())
}

/// Makes the edit of a line, which has this number.
fn make_line(alloc: Global, editor: &mut Editor, number: u32, line: &[u8]) -> Result<(), Fault>
    ensures accepted { OnOk result (asked_at number (edit_line (words line.now)) editor.old ≡ None) }
    ensures edited { OnOk result (editor.new ≡ after_line (line_at number line.now) editor.old) }
    ensures refused { IfErr result (AnswersFirst (asked_at number (edit_line (words line.now)) editor.old)) }
{
    let Some(asked) = edit_line(alloc, line)? else {
        return Err(refused_at(Reason::EditForm, number));
    };
    match make(alloc, editor, asked) {
        Ok(()) => Ok(()),
        Err(fault) => Err(on_line(number, fault)),
    }
}

/// Makes what a line asks for.
fn make(alloc: Global, editor: &mut Editor, asked: EditLine) -> Result<(), NetFault>
    requires { IsTrue (is_formed_line asked) }
    ensures accepted { OnOk result (asked_refusal asked editor.old ≡ None) }
    ensures made { OnOk result (editor.new ≡ after_asked asked editor.old) }
    ensures refused { IfErr result (Answers (asked_refusal asked editor.old)) }
{
    match asked {
        EditLine::Change(edit) => editor.apply(alloc, edit),
        EditLine::Undo => match editor.undo(alloc) {
            Ok(()) => Ok(()),
            Err(fault) => Err(fault_of(fault)),
        },
        EditLine::Redo => match editor.redo(alloc) {
            Ok(()) => Ok(()),
            Err(fault) => Err(fault_of(fault)),
        },
    }
}

/// The fault of an undo or a redo, as one of the network.
fn fault_of(fault: EditFault) -> NetFault
    ensures { result ≡ fault_of fault }
{
    match fault {
        EditFault::NothingToUndo => NetFault::Refused {
            reason: Reason::NothingToUndo,
            step: 0,
        },
        EditFault::NothingToRedo => NetFault::Refused {
            reason: Reason::NothingToRedo,
            step: 0,
        },
        EditFault::OutOfMemory => NetFault::OutOfMemory,
    }
}

/// The fault of an editor, at the line of this number.
fn on_line(number: u32, fault: NetFault) -> Fault
    ensures { AnswersFirst (on_line number (Some fault)) result }
{
    match fault {
        NetFault::Refused { reason, step } => Fault::Refused(Refusal {
            reason,
            part: Part::Line,
            item: number,
            step,
        }),
        NetFault::OutOfMemory => Fault::OutOfMemory,
    }
}
