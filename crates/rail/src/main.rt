//! The program: it hands its words, the system's files and standard output to the top call of `rail_top`,
//! explains on standard error what it refuses, and ends with the status.
#![tactic(auto)]

ghost use Rattle.std.specs.Prelude.{◌≡◌, ◌≢◌, []};
ghost use Rattle.rail_forms.specs.declared.status.Status.TheVariants.{WriteFault};
ghost use Rattle.rail_io.specs.GatheredSink.{gathered_by};

mod explanations;

use explanations::{explain, explain_write_fault};
use rail_base::Word;
use rail_command_line::FORMS;
use rail_explain::{HELP_BEFORE, HELP_BEHIND, KeepingShelf, VERSION, help_line};
use rail_io::{FileShelf, GatheredSink, OutSink, Sink};
use rail_policy::{
    FcfsPolicy, Policy, PriorityPolicy, RotatingPolicy, TimetablePolicy, deck_is_fine,
};
use rail_top::{Status, rail};
use std::alloc::AllocError;
use std::env;
use std::io::{self, ErrorKind};
use std::process::ExitCode;
use std::rt::HostRuntime;

/// The exit status where a word is no text.
const WORDS_FAULT: u8 = 7;

/// How many bytes are gathered for standard output at most.
const GATHERED: usize = 65_536;

fn main(rt: HostRuntime) -> ExitCode {
    match words_of(&rt) {
        Ok(words) => answer(&rt, &words),
        Err(error) if error.kind() == ErrorKind::OutOfMemory => end(&rt, Status::OutOfMemory),
        Err(_) => {
            let _ = rt.eprintln("a word of the command line is no text in UTF-8\nwords fault");
            ExitCode::from(WORDS_FAULT)
        }
    }
}

/// The words of the command line after the name of the program.
fn words_of(rt: &HostRuntime) -> io::Result<Vec<Word>> {
    let mut words = Vec::new(rt.alloc());
    for text in env::args(rt)?.skip(1) {
        words.push(Word::from_string(text))?;
    }
    Ok(words)
}

/// Answers `--help` and `--version`, and hands all other words on.
fn answer(rt: &HostRuntime, words: &[Word]) -> ExitCode {
    match words {
        [word] if word.as_str() == "--help" => end_of(rt, print_help(rt)),
        [word] if word.as_str() == "--version" => end_of(rt, rt.print(VERSION)),
        _ => {
            match run(rt, words) {
                Ok(status) => end(rt, status),
                Err(_) => end(rt, Status::OutOfMemory),
            }
        }
    }
}

/// What the words ask for, with the four built-in policies, on the system's files and standard output.
fn run(rt: &HostRuntime, words: &[Word]) -> Result<Status, AllocError> {
    let alloc = rt.alloc();
    let mut deck: Vec<Box<dyn Policy>> = Vec::with_capacity(alloc, 4)?;
    deck.push_reserved(Box::new(alloc, PriorityPolicy::new())?);
    deck.push_reserved(Box::new(alloc, TimetablePolicy::new())?);
    deck.push_reserved(Box::new(alloc, FcfsPolicy::new())?);
    deck.push_reserved(Box::new(alloc, RotatingPolicy::new())?);
    // The four names differ; the prover does not look into the boxes, so the deck is looked at here.
    if !deck_is_fine(&deck) {
        return Ok(Status::OutOfMemory);
    }
    let mut files = KeepingShelf::new(alloc, FileShelf::new(rt));
    let Ok(mut out) = GatheredSink::with_room(alloc, OutSink::new(rt), GATHERED) else {
        return Ok(Status::OutOfMemory);
    };
    let status = rail(alloc, words, &mut files, &mut out, deck);
    let status = finish(status, &mut out);
    explain(rt, words, status, &files);
    Ok(status)
}

/// Hands on what is gathered, and gives the status of the program: that of the top call, or a write fault
/// where not all was handed on.
fn finish<S: Sink + Drop>(status: Status, out: &mut GatheredSink<S>) -> Status
    ensures none_left { result ≢ WriteFault → gathered_by out.new ≡ [] }
    ensures other_stays { result ≢ WriteFault → result ≡ status }
{
    match out.finish() {
        Ok(()) => status,
        Err(_) => Status::WriteFault,
    }
}

/// Prints the forms and what each of them prints.
fn print_help(rt: &HostRuntime) -> io::Result<()> {
    rt.print(HELP_BEFORE)?;
    for form in FORMS {
        if let Ok(text) = str::from_utf8(help_line(form).as_slice()) {
            rt.print(text)?;
        }
    }
    rt.print(HELP_BEHIND)
}

/// The end of a command that printed a text of the program's own.
fn end_of(rt: &HostRuntime, printed: io::Result<()>) -> ExitCode {
    match printed {
        Ok(()) => ExitCode::SUCCESS,
        Err(_) => {
            let _ = explain_write_fault(rt);
            end(rt, Status::WriteFault)
        }
    }
}

/// Prints the status text on standard error, and gives the exit status. What standard error does not take
/// changes nothing.
fn end(rt: &HostRuntime, status: Status) -> ExitCode {
    let mut text = [0; 64];
    let length = status.text(&mut text);
    if let Ok(text) = str::from_utf8(&text[..length])
        && !text.is_empty()
    {
        let _ = rt.eprintln(text);
    }
    ExitCode::from(status.exit())
}
