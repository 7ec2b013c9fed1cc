//! The words at the end of a line that are a list.

ghost use Rattle.std.specs.Prelude.{◌≡◌, ◌≤◌, ◌∷◌, false, MatchOption, length, option_map, Some, None, IfOk, IfSome};
ghost use Rattle.rail_text.specs.Lines.{words};
ghost use Rattle.rail_edit_file.specs.EditLines.{is_slash, overlap_from, steps_from, way_from};
ghost use Rattle.rail_edit_file.specs.declared.lists.Way.{Way};

use rail_base::{Name, Seq};
use rail_routes::Step;
use rail_text::next_word;
use std::alloc::{AllocError, Global};

/// The steps that the words are, each a section and the joint at which it is left, from a joint on: `None`
/// exactly where a word is no name, or a section has no joint behind it.
pub(crate) fn steps(
    alloc: Global,
    start: Name,
    args: &[u8],
) -> Result<Option<Vec<Step>>, AllocError>
    ensures { IfOk result (λ read. option_map (λ steps. steps.items) read ≡ steps_from start (words args.now)) }
{
    let mut steps = Vec::new(alloc);
    let mut from = start;
    let mut left = args;
    while let Some((word, rest)) = next_word(left) {
        let Some((step, rest)) = step(from, word, rest) else {
            return Ok(None);
        };
        from = step.to;
        steps.push(step)?;
        left = rest;
    }
    Ok(Some(steps))
}

/// The steps of a route: those of its path, and then those of its overlap.
#[derive(Drop)]
pub(crate) struct Way {
    pub(crate) steps: Seq<Step>,
    pub(crate) overlap: Seq<Step>,
}

/// The steps of a path that the words are from a joint on, and those of its overlap behind a `/`: `None` exactly where a word
/// is no name, a section has no joint behind it, or there is a `/` with nothing behind it.
pub(crate) fn way_from(alloc: Global, start: Name, args: &[u8]) -> Result<Option<Way>, AllocError>
    ensures { IfOk result (λ read. read ≡ way_from start (words args.now)) }
{
    let mut steps = Vec::new(alloc);
    let mut from = start;
    let mut left = args;
    while let Some((word, rest)) = next_word(left) {
        if word == b"/".as_slice() {
            return Ok(with_overlap(steps, overlap(alloc, from, rest)?));
        }
        let Some((step, rest)) = step(from, word, rest) else {
            return Ok(None);
        };
        from = step.to;
        steps.push(step)?;
        left = rest;
    }
    Ok(Some(Way {
        steps: Seq::from_vec(steps),
        overlap: Seq::from_vec(Vec::new(alloc)),
    }))
}

/// The steps of an overlap that the words are from a joint on: `None` exactly where there is no word, a word is no name, or a
/// section has no joint behind it.
fn overlap(alloc: Global, start: Name, args: &[u8]) -> Result<Option<Vec<Step>>, AllocError>
    ensures { IfOk result (λ read. option_map (λ steps. steps.items) read ≡ overlap_from start (words args.now)) }
{
    match next_word(args) {
        Some(_) => steps(alloc, start, args),
        None => Ok(None),
    }
}

/// A path with its overlap, where that is one.
fn with_overlap(steps: Vec<Step>, overlap: Option<Vec<Step>>) -> Option<Way>
    ensures { result ≡ option_map (λ overlap. record { steps = steps.items; overlap = overlap.items }) overlap }
{
    let overlap = overlap?;
    Some(Way {
        steps: Seq::from_vec(steps),
        overlap: Seq::from_vec(overlap),
    })
}

/// The step over the section that the word names, from a joint to the one that the next word names, and the
/// text behind that.
fn step<'a>(from: Name, section: &[u8], rest: &'a [u8]) -> Option<(Step, &'a [u8])>
    ensures read { MatchOption result (steps_from from (section.now ∷ words rest.now) ≡ None) (λ parts.
        steps_from from (section.now ∷ words rest.now)
        ≡ option_map (λ steps. parts.0 ∷ steps) (steps_from parts.0.to (words parts.1.now))) }
    ensures way { is_slash section.now ≡ false → MatchOption result (way_from from (section.now ∷ words rest.now) ≡ None) (λ parts.
        way_from from (section.now ∷ words rest.now)
        ≡ option_map (λ (way : Way). record way { steps = parts.0 ∷ way.steps }) (way_from parts.0.to (words parts.1.now))) }
    ensures less { IfSome result (λ parts. length parts.1.now ≤ length rest.now) }
{
    let (to, rest) = next_word(rest)?;
    let section = Name::read(section)?;
    let to = Name::read(to)?;
    Some((Step { section, from, to }, rest))
}
