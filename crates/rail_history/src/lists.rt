//! The trains that stand beside a line of a history: those of a fresh list, or those that the end line names.

ghost use Rattle.std.specs.Prelude.{◌≡◌, [], cond, drop, get_or};
ghost use Rattle.rail_history.specs.HistoryLines.{does_list, is_fresh};

use crate::items::ListItem;
use rail_base::{Note, Seq, What};

/// The items beside the next line, of which the entry says this, and the lists of the lines behind it. `lists` has those of
/// the lines from this one on that have some.
pub(crate) fn cut_list<'a>(
    what: &What,
    lists: &'a [Seq<ListItem>],
) -> (&'a [ListItem], &'a [Seq<ListItem>])
    ensures list { result.0.now ≡ cond (does_list what.now) (get_or lists.now 0 []) [] }
    ensures others { result.1.now ≡ cond (does_list what.now) (drop 1 lists.now) lists.now }
{
    if !does_list(what) {
        return (&[], lists);
    }
    match lists.split_first() {
        Some((first, others)) => (first.as_slice(), others),
        None => (&[], &[]),
    }
}

/// Whether an entry that says this has trains beside it: a fresh list, or those that an end line names.
pub(crate) fn does_list(what: &What) -> bool
    ensures { result ≡ does_list what.now }
{
    is_fresh(what) || matches!(what, What::End)
}

/// Whether this is an admission with a fresh list.
pub(crate) fn is_fresh(what: &What) -> bool
    ensures { result ≡ is_fresh what.now }
{
    matches!(
        what,
        What::Admit {
            note: Note::Fresh,
            ..
        }
    )
}
