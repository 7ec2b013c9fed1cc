//! A list of items with one owner, which contracts see as that list.

ghost use Rattle.std.specs.Prelude.{◌≡◌};

use std::marker::Model;

/// A list of items, which contracts see as that list.
#[derive(Debug)]
pub struct Seq<T> {
    items: Vec<T>,
}

impl<T: Drop> Drop for Seq<T> {
    fn drop(self) {
        let Seq { items: _items } = self;
    }
}

impl<T> Model for Seq<T> {
    ghost use Rattle.std.specs.Prelude.{List};

    ghost Value = { List T };

    ghost view = { λ sequence. sequence.items.items };
}

impl<T> Seq<T> {
    /// The same items in the same order. It takes no memory.
    pub fn from_vec(items: Vec<T>) -> Seq<T>
        ensures { result ≡ items.items }
    {
        Seq { items }
    }

    /// The items in order.
    pub fn as_slice(&self) -> &[T]
        ensures { result.now ≡ self.now }
    {
        self.items.as_slice()
    }

    /// The vector that holds the items. It takes no memory.
    pub fn into_vec(self) -> Vec<T>
        ensures { result.items ≡ self }
    {
        let Seq { items } = self;
        items
    }
}
