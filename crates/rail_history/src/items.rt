//! A list of trains as items: what takes memory grows with the line that spells it, and not with the list.

ghost use Rattle.std.specs.Prelude.{◌≡◌, ◌≤◌, IfOk, IfSome, length, vec_capacity};
ghost use Rattle.std.specs.List.{All};
ghost use Rattle.rail_history.specs.ListItems.{spelled_by};

use rail_base::{Seq, TrainNo, add_copies, repeats};
use std::alloc::{AllocError, Global};

/// A train, taken so many times in a row.
#[derive(Clone, Copy, Debug)]
pub struct ListItem {
    pub train: TrainNo,
    pub count: usize,
}

/// The items of a list: neighbouring equal trains are one.
pub(crate) fn items_of(alloc: Global, list: &[TrainNo]) -> Result<Vec<ListItem>, AllocError>
    ensures { IfOk result (λ items. spelled_by items.items ≡ list.now) }
{
    let mut items = Vec::new(alloc);
    let mut left = list;
    while let Some((train, others)) = left.split_first() {
        let more = repeats(*train, others);
        items.push(ListItem {
            train: *train,
            count: more + 1,
        })?;
        left = &others[more..];
    }
    Ok(items)
}

/// The list is then that which the items spell, for which there is room. It takes no memory.
pub(crate) fn spell(list: &mut Vec<TrainNo>, items: &[ListItem])
    requires { length (spelled_by items.now) ≤ vec_capacity list.old }
    ensures spelled { list.new.items ≡ spelled_by items.now }
    ensures room { vec_capacity list.new ≡ vec_capacity list.old }
{
    list.clear();
    for item in items {
        add_copies(list, item.train, item.count);
    }
}

/// A length that none of the spelled lists exceeds: none where one is of 2^64 trains or more.
pub(crate) fn longest(lists: &[Seq<ListItem>]) -> Option<usize>
    ensures { IfSome result (λ most. All (λ items. length (spelled_by items) ≤ most) lists.now) }
{
    let mut most = 0;
    for list in lists {
        most = length_of(list.as_slice())?.max(most);
    }
    Some(most)
}

/// The length of the list that the items spell: none where it is 2^64 or more.
fn length_of(items: &[ListItem]) -> Option<usize>
    ensures { IfSome result (λ count. count ≡ length (spelled_by items.now)) }
{
    let mut count: usize = 0;
    for item in items {
        count = count.checked_add(item.count)?;
    }
    Some(count)
}
