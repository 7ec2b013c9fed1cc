//! Names of up to 16 bytes, and owned texts.

ghost use Rattle.std.specs.Prelude.{◌≡◌, ◌-◌, ◌<◌, ◌≤◌, ◌++◌, ◌∷◌, [], IsTrue, Some, None, if◌then◌else◌, length, replicate};
ghost use Rattle.std.specs.List.{list_all};
ghost use Rattle.std.specs.String.{string_bytes};
ghost use Rattle.rail_base.specs.NameForms.{is_name, is_name_byte};

use crate::limits::NAME_BYTES;
use std::hash::{Hash, Hasher};
use std::marker::Model;

/// A name of 1 to 16 bytes of `A-Z a-z 0-9 _ -`, which contracts see as its bytes.
#[derive(Clone, Copy, Debug)]
pub struct Name {
    bytes: [u8; 16],
    len: u8,
}

impl Model for Name {
    ghost use Rattle.std.specs.Prelude.{List, ℕ, ◌++◌, ◌-◌, length, replicate};

    ghost Value = { List ℕ };

    ghost use Rattle.rail_base.specs.NameFields.{bytes_of, IsNameInside, inverse_of-bytes_of};

    ghost view = { bytes_of };

    ghost invariant = { IsNameInside };

    ghost inverse = { λ name. record { bytes = name ++ replicate (16 - length name) 0; len = length name } };

    ghost inverse_ok = { inverse_of-bytes_of };
}

impl Name {
    /// The name that the bytes spell: `None` exactly where they are no name.
    pub fn read(bytes: &[u8]) -> Option<Name>
        ensures { result ≡ (if is_name bytes.now then Some bytes.now else None) }
    {
        if !is_name(bytes) {
            return None;
        }
        let mut stored = [0; 16];
        stored[..bytes.len()].copy_from_slice(bytes);
        Some(Name {
            bytes: stored,
            len: bytes.len() as u8,
        })
    }

    /// The bytes of the name.
    pub fn as_bytes(&self) -> &[u8]
        ensures value { result.now ≡ self.now }
        ensures name { IsTrue (is_name self.now) }
    {
        &self.bytes[..self.len as usize]
    }

    /// The bytes of the name, and zeros behind them, 16 in all: so that they can be copied at once.
    pub fn padded(&self) -> [u8; 16]
        ensures { result ≡ self.now ++ replicate (16 - length self.now) 0 }
    {
        self.bytes
    }
}

impl PartialEq for Name {
    ghost use Rattle.std.proofs.Common.{rules};
    ghost use Rattle.std.specs.Cmp.Rules.{comparing};
    ghost use Rattle.rail_base.specs.NameForms.{same_name};

    ghost eq = { same_name };

    ghost laws = { Prim.search (comparing, rules) };

    // All sixteen bytes are compared at once.
    fn eq(&self, other: &Name) -> bool {
        self.len == other.len && self.bytes == other.bytes
    }
}

impl Eq for Name {
    ghost use Rattle.std.proofs.Common.{rules};
    ghost use Rattle.std.specs.Cmp.Rules.{comparing};

    ghost laws = { Prim.search (comparing, rules) };
}

impl Hash for Name {
    ghost use Rattle.std.proofs.Common.{ap};
    ghost use Rattle.std.specs.Cmp.Lexicographic.{bytes_decides};

    ghost hash_input = { λ name. (name ++ replicate (16 - length name) 0) ∷ [] };

    ghost respects_eq = { λ x y same. ap (λ name. (name ++ replicate (16 - length name) 0) ∷ []) ((bytes_decides x y).0 same) };

    // All sixteen bytes are written at once, so that a hasher takes them in a step.
    fn hash<H: Hasher>(&self, state: &mut H) {
        state.write(&self.bytes);
    }
}

/// Whether the bytes are a name.
fn is_name(bytes: &[u8]) -> bool
    ensures value { result ≡ is_name bytes.now }
    ensures short { IsTrue result → length bytes.now ≤ 16 }
{
    !bytes.is_empty() && bytes.len() <= NAME_BYTES && are_name_bytes(bytes)
}

/// Whether a name may have each of the bytes.
fn are_name_bytes(bytes: &[u8]) -> bool
    ensures { result ≡ list_all is_name_byte bytes.now }
{
    bytes.iter().all(|byte| is_name_byte(*byte))
}

// 1 at each byte that a name may have, so that a byte is looked at in one step.
#[rattlefmt::skip]
static NAME_BYTE: [u8; 256] = [
    0, 0, 0, 0, 0, 0, 0, 0, 0, 0, 0, 0, 0, 0, 0, 0,
    0, 0, 0, 0, 0, 0, 0, 0, 0, 0, 0, 0, 0, 0, 0, 0,
    0, 0, 0, 0, 0, 0, 0, 0, 0, 0, 0, 0, 0, 1, 0, 0,
    1, 1, 1, 1, 1, 1, 1, 1, 1, 1, 0, 0, 0, 0, 0, 0,
    0, 1, 1, 1, 1, 1, 1, 1, 1, 1, 1, 1, 1, 1, 1, 1,
    1, 1, 1, 1, 1, 1, 1, 1, 1, 1, 1, 0, 0, 0, 0, 1,
    0, 1, 1, 1, 1, 1, 1, 1, 1, 1, 1, 1, 1, 1, 1, 1,
    1, 1, 1, 1, 1, 1, 1, 1, 1, 1, 1, 0, 0, 0, 0, 0,
    0, 0, 0, 0, 0, 0, 0, 0, 0, 0, 0, 0, 0, 0, 0, 0,
    0, 0, 0, 0, 0, 0, 0, 0, 0, 0, 0, 0, 0, 0, 0, 0,
    0, 0, 0, 0, 0, 0, 0, 0, 0, 0, 0, 0, 0, 0, 0, 0,
    0, 0, 0, 0, 0, 0, 0, 0, 0, 0, 0, 0, 0, 0, 0, 0,
    0, 0, 0, 0, 0, 0, 0, 0, 0, 0, 0, 0, 0, 0, 0, 0,
    0, 0, 0, 0, 0, 0, 0, 0, 0, 0, 0, 0, 0, 0, 0, 0,
    0, 0, 0, 0, 0, 0, 0, 0, 0, 0, 0, 0, 0, 0, 0, 0,
    0, 0, 0, 0, 0, 0, 0, 0, 0, 0, 0, 0, 0, 0, 0, 0,
];

/// Whether a name may have the byte.
fn is_name_byte(byte: u8) -> bool
    ensures { result ≡ is_name_byte byte }
{
    NAME_BYTE[usize::from(byte)] == 1
}

/// An owned text, which contracts see as its bytes.
#[derive(Debug)]
pub struct Word {
    text: String,
}

impl Drop for Word {
    fn drop(self) {
        let Word { text: _text } = self;
    }
}

impl Model for Word {
    ghost use Rattle.std.specs.Prelude.{List, ℕ};
    ghost use Rattle.std.specs.String.{string_bytes};

    ghost Value = { List ℕ };

    ghost view = { λ word. string_bytes word.text };
}

impl Word {
    /// The same text. It takes no memory.
    pub fn from_string(text: String) -> Word
        ensures { result ≡ string_bytes text }
    {
        Word { text }
    }

    /// The text.
    pub fn as_str(&self) -> &str
        ensures { result.now ≡ self.now }
    {
        self.text.as_str()
    }
}
