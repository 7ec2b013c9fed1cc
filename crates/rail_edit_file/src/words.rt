//! Single words of an edit.

ghost use Rattle.std.specs.Prelude.{◌≡◌, cond, Some, None};
ghost use Rattle.rail_text.specs.Decimals.{value_of};
ghost use Rattle.rail_scene.specs.Fields.{kind_named};
ghost use Rattle.rail_edit_file.specs.EditLines.{is_number};

use rail_text::{is_decimal, value_of};
use rail_track::SectionKind;

/// The number that a word spells: `None` exactly where it is no number in decimal digits without leading
/// zeros, or one above 4,294,967,295.
pub(crate) fn number(word: &[u8]) -> Option<u32>
    ensures { result ≡ cond (is_number word.now) (Some (value_of word.now)) None }
{
    if !is_decimal(word) {
        return None;
    }
    u32::try_from(value_of(word)).ok()
}

/// The kind of section that a word stands for.
pub(crate) fn kind(word: &[u8]) -> Option<SectionKind>
    ensures { result ≡ kind_named word.now }
{
    if word == b"plain".as_slice() {
        Some(SectionKind::Plain)
    } else if word == b"points".as_slice() {
        Some(SectionKind::Points)
    } else if word == b"crossing".as_slice() {
        Some(SectionKind::Crossing)
    } else if word == b"slip".as_slice() {
        Some(SectionKind::Slip)
    } else {
        None
    }
}
