//! Words are cut off one by one from the front of a text.

ghost use Rattle.std.specs.Prelude.{◌≡◌, ◌==◌, ◌<◌, List, ℕ, [], drop, get_or, length, position, true};
ghost use Rattle.std.specs.List.{list_all};
ghost use Rattle.rail_history.specs.ReadWords.{is_spaceless, joined};

/// The word before the first space, and what stands behind that space.
pub(crate) fn cut(text: &[u8]) -> (&[u8], &[u8])
    ensures words { (words : List (List ℕ)) → list_all is_spaceless words ≡ true → text.now ≡ joined words
        → (result.0.now ≡ get_or words 0 []) × (result.1.now ≡ joined (drop 1 words)) }
    ensures less { 0 < length text.now → length result.1.now < length text.now }
{
    match space(text) {
        Some(end) => (&text[..end], &text[end + 1..]),
        None => (text, &[]),
    }
}

/// The place of the first space.
fn space(text: &[u8]) -> Option<usize>
    ensures { result ≡ position (λ b. b == 32) text.now }
{
    text.iter().position(|byte| *byte == b' ')
}
