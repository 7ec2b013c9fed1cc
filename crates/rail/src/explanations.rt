//! What a status means, on standard error before the status text. What standard error does not take changes nothing, and
//! no answer depends on it.

use rail_base::{Name, Refusal, Word};
use rail_command_line::{FORMS, FileRole, Form, form_named, request_of};
use rail_explain::{
    HELP_BEFORE, HELP_BEHIND, KeepingShelf, OTHER_FORMS, detail, file_of, help_line, law_text,
    usage, usage_with_hint, write_read_fault, write_refusal, write_unknown_policies,
};
use rail_input::read_plant;
use rail_io::{FileShelf, OutSink};
use rail_scene::keys::keys_in;
use rail_scene::{Version, item_name};
use rail_text::LineBuffer;
use rail_top::Status;
use std::io::{self, IsTerminal};
use std::rt::HostRuntime;

/// The files of the system, with what was read of them.
pub type Files<'r> = KeepingShelf<FileShelf<&'r HostRuntime>>;

/// Says what a status means, as far as there is something to say: one line, and for words that are in no form the forms.
/// What the files read is found in what was kept of them: no file is opened again.
pub fn explain(rt: &HostRuntime, words: &[Word], status: Status, files: &Files<'_>) {
    let _ = match status {
        Status::Usage => explain_usage(rt, words),
        Status::Refused(refusal) => {
            explain_refusal(rt, words, &refusal, files);
            Ok(())
        }
        Status::ReadFault => {
            explain_read_fault(rt, files.behind().failed());
            Ok(())
        }
        Status::WriteFault => explain_write_fault(rt),
        Status::CheckedNo { law, .. } => rt.eprintln(law_text(law)),
        Status::Done => {
            explain_unknown_policies(rt, words, files);
            Ok(())
        }
        Status::OutOfMemory => Ok(()),
    };
}

/// Shows the form that begins with the same word as the command line; where there is none, all forms, a line each. Who asks
/// for help by another word than `--help` gets it here.
fn explain_usage(rt: &HostRuntime, words: &[Word]) -> io::Result<()> {
    if let [word] = words
        && matches!(word.as_str(), "help" | "-h" | "-help")
    {
        return print_help(rt);
    }
    if let Some(verb) = words.first()
        && let Some(form) = form_named(verb.as_str())
    {
        return print_line(rt, &usage_with_hint(form));
    }
    for form in FORMS {
        print_line(rt, &usage(form))?;
    }
    rt.eprintln(OTHER_FORMS)
}

/// Prints the forms and what each of them prints, as `--help` does on standard output.
fn print_help(rt: &HostRuntime) -> io::Result<()> {
    rt.eprint(HELP_BEFORE)?;
    for form in FORMS {
        if let Ok(text) = str::from_utf8(help_line(form).as_slice()) {
            rt.eprint(text)?;
        }
    }
    rt.eprint(HELP_BEHIND)
}

/// Prints a line.
fn print_line(rt: &HostRuntime, line: &LineBuffer) -> io::Result<()> {
    match str::from_utf8(line.as_slice()) {
        Ok(text) => rt.eprintln(text),
        Err(_) => Ok(()),
    }
}

/// Says that standard output failed.
pub fn explain_write_fault(rt: &HostRuntime) -> io::Result<()> {
    rt.eprintln("standard output did not take all that was written")
}

/// Says which commands changed nothing, since they name no policy of the program. It is said to a person at a terminal alone:
/// where standard error goes elsewhere nothing stands there behind a command that did what it was asked for.
fn explain_unknown_policies(rt: &HostRuntime, words: &[Word], files: &Files<'_>) {
    let errors = rt.stderr();
    if !errors.is_terminal() {
        return;
    }
    if let Some(request) = request_of(words)
        && let Some(file) = request.file(FileRole::Commands)
        && let Some(commands) = files.bytes_of(file)
    {
        let _ = write_unknown_policies(file, commands, &mut OutSink::new(errors));
    }
}

/// Says which file could not be read.
fn explain_read_fault(rt: &HostRuntime, failed: Option<&Word>) {
    if let Some(name) = failed {
        let _ = write_read_fault(name.as_str(), &mut OutSink::new(rt.stderr()));
    }
}

/// Says in which file a refusal lies, where in it, what was expected there, and what the file reads there.
fn explain_refusal(rt: &HostRuntime, words: &[Word], refusal: &Refusal, files: &Files<'_>) {
    let Some(request) = request_of(words) else {
        return;
    };
    let file = file_of(&request, refusal);
    let bytes = file.and_then(|file| files.bytes_of(file)).unwrap_or(&[]);
    let name = name_in(rt, bytes, refusal);
    let scene = request
        .file(FileRole::Scene)
        .and_then(|file| files.bytes_of(file));
    let mut detail = detail(rt.alloc(), refusal, bytes, scene.unwrap_or(&[]));
    if request.form() == Form::Edit
        && file == request.file(FileRole::Scene)
        && is_accepted(rt, bytes)
    {
        detail.put(b"; it is so after the edits, and not before them");
    }
    let _ = write_refusal(file, refusal, name, &detail, &mut OutSink::new(rt.stderr()));
}

/// Whether the scene is accepted as it stands in its file.
fn is_accepted(rt: &HostRuntime, scene: &[u8]) -> bool {
    read_plant(rt.alloc(), scene).is_ok()
}

/// The name of the item in which a refusal of a scene lies.
fn name_in(rt: &HostRuntime, bytes: &[u8], refusal: &Refusal) -> Option<Name> {
    if keys_in(refusal.part, Version::NEWEST).is_empty() || refusal.item == 0 {
        return None;
    }
    item_name(rt.alloc(), bytes, refusal.part, refusal.item).ok()?
}
