//! The words of a line that are all names.

ghost use Rattle.std.specs.Prelude.{◌≡◌, None, Some, IfOk, cond, option_map};
ghost use Rattle.std.specs.List.{list_all};
ghost use Rattle.rail_base.specs.NameForms.{is_name};
ghost use Rattle.rail_text.specs.Lines.{words};

use crate::lines::next_word;
use rail_base::Name;
use std::alloc::{AllocError, Global};

/// So many names are read before more memory is asked for.
const NAMES: usize = 16;

/// The names that the words of the text are: `None` exactly where a word is no name. It takes the memory of the names,
/// and fails only where that is not to be had.
pub fn read_names(alloc: Global, args: &[u8]) -> Result<Option<Vec<Name>>, AllocError>
    ensures { IfOk result (λ read.
        option_map (λ names. names.items) read ≡ cond (list_all is_name (words args.now)) (Some (words args.now)) None) }
{
    let mut names = Vec::with_capacity(alloc, NAMES)?;
    let mut left = args;
    while let Some((word, rest)) = next_word(left) {
        let Some(name) = Name::read(word) else {
            return Ok(None);
        };
        names.push(name)?;
        left = rest;
    }
    Ok(Some(names))
}
