//! Which form a command line has.

use rail_base::Word;
use rail_command_line::{Form, Request, request_of};
use std::alloc::{AllocError, Global};

fn words_of(alloc: Global, line: &str) -> Result<Vec<Word>, AllocError> {
    let mut words = Vec::new(alloc);
    for text in line.split_whitespace() {
        words.push(Word::from_string(String::from_str(alloc, text)?))?;
    }
    Ok(words)
}

// Each line, and its form, if it has one.
const LINES: [(&str, Option<Form>); 28] = [
    ("", None),
    ("run", None),
    ("run S", Some(Form::Run)),
    ("run S - C", Some(Form::Run)),
    ("run S T C more", None),
    ("Run S", None),
    ("infra S", Some(Form::Infra)),
    ("play S L", Some(Form::Play)),
    ("play S", None),
    ("check S - - H", Some(Form::Check)),
    ("check S H", None),
    ("stairs S T", Some(Form::Stairs)),
    ("report S", Some(Form::Report)),
    ("capacity X1 00:01:00 00:11:00.0 S", Some(Form::Capacity)),
    ("capacity X1 00:01:00 0:11:00 S", None),
    ("capacity X1 00:01:00 00:11:00", None),
    ("insert A 00:01:00 00:11:00.0 128 S", Some(Form::Insert)),
    ("insert A 00:01:00 00:11:00 0 S", None),
    ("insert A 00:01:00 00:11:00 129 S", None),
    ("insert A 00:01:00 00:11:00 01 S", None),
    ("insert A 00:01:00 00:11:00 1", None),
    ("edit S E", Some(Form::Edit)),
    ("migrate S", Some(Form::Migrate)),
    ("gen 18446744073709551615", Some(Form::Gen)),
    ("gen 18446744073709551616", None),
    ("gen 01", None),
    ("scene 0", Some(Form::Scene)),
    ("scene +1", None),
];

#[test]
fn tells_the_form(rt: HostRuntime) {
    let other = first_other(rt.alloc());
    assert!(rt; other.is_none(), "{other:?}");
}

/// The first of the lines whose form is told otherwise.
fn first_other(alloc: Global) -> Option<&'static str> {
    for (line, form) in LINES {
        if !has_form(alloc, line, form) {
            return Some(line);
        }
    }
    None
}

/// Whether the line has this form.
fn has_form(alloc: Global, line: &str, form: Option<Form>) -> bool {
    match words_of(alloc, line) {
        Ok(words) => request_of(&words).as_ref().map(Request::form) == form,
        Err(_) => false,
    }
}
