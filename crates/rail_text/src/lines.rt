//! Lines and words are cut off one by one from the front of a text.

ghost use Rattle.std.specs.Prelude.{◌≡◌, ◌==◌, ◌<◌, ◌∷◌, [], MatchOption, length, not, position};
ghost use Rattle.std.specs.Str.Lines.{lines, strip_carriage_return};
ghost use Rattle.rail_base.specs.declared.refusals.Fault.TheVariants.{Refused};
ghost use Rattle.rail_text.specs.Lines.{is_skipped, refusal_at, words};

use rail_base::{Fault, Part, Reason, Refusal};

/// The first line, and the text behind it; none where the text has no byte. Lines end with a line feed,
/// which the last one may lack; one carriage return before a line feed is dropped.
pub fn next_line(text: &[u8]) -> Option<(&[u8], &[u8])>
    ensures lines { MatchOption result (lines text.now ≡ []) (λ parts. lines text.now ≡ parts.0.now ∷ lines parts.1.now) }
    ensures less { MatchOption result (text.now ≡ []) (λ parts. length parts.1.now < length text.now) }
{
    if text.is_empty() {
        return None;
    }
    match first(text, b'\n') {
        Some(end) => Some((without_return(&text[..end]), &text[end + 1..])),
        None => Some((text, &[])),
    }
}

/// The line without the one carriage return at its end, where it has one.
fn without_return(line: &[u8]) -> &[u8]
    ensures { result.now ≡ strip_carriage_return line.now }
{
    match line {
        [front @ .., b'\r'] => front,
        _ => line,
    }
}

/// The first word, and the text behind it; none where the text has no byte but spaces.
pub fn next_word(text: &[u8]) -> Option<(&[u8], &[u8])>
    ensures words { MatchOption result (words text.now ≡ []) (λ parts. words text.now ≡ parts.0.now ∷ words parts.1.now) }
    ensures less { MatchOption result (words text.now ≡ []) (λ parts. length parts.1.now < length text.now) }
{
    let Some(start) = first_other(text, b' ') else {
        return None;
    };
    let text = &text[start..];
    match first(text, b' ') {
        Some(end) => Some((&text[..end], &text[end + 1..])),
        None => Some((text, &[])),
    }
}

/// The place of the first such byte.
fn first(text: &[u8], wanted: u8) -> Option<usize>
    ensures { result ≡ position (λ b. b == wanted) text.now }
{
    text.iter().position(|byte| *byte == wanted)
}

/// The place of the first byte that is another.
fn first_other(text: &[u8], passed: u8) -> Option<usize>
    ensures { result ≡ position (λ b. not (b == passed)) text.now }
{
    text.iter().position(|byte| *byte != passed)
}

/// The refusal of a line for this reason. Lines count from 1.
pub fn refused_at(reason: Reason, line: u32) -> Fault
    ensures { result ≡ Refused (refusal_at reason line) }
{
    Fault::Refused(Refusal {
        reason,
        part: Part::Line,
        item: line,
        step: 0,
    })
}

/// Whether the line is skipped: it has no word, or its first word begins with `#`.
pub fn is_skipped(line: &[u8]) -> bool
    ensures { result ≡ is_skipped (words line.now) }
{
    match next_word(line) {
        Some((word, _)) => word.first() == Some(&b'#'),
        None => true,
    }
}
