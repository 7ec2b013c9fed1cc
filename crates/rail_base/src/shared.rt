//! A list of items that several owners share.

ghost use Rattle.std.specs.Prelude.{◌≡◌, IfOk};

use std::alloc::{AllocError, Global};
use std::marker::Model;
use std::rc::Rc;

/// A list of items that several owners share, which contracts see as that list.
#[derive(Debug)]
pub struct Shared<T> {
    items: Rc<Vec<T>>,
}

impl<T: Drop> Drop for Shared<T> {
    fn drop(self) {
        let Shared { items: _items } = self;
    }
}

impl<T> Model for Shared<T> {
    ghost use Rattle.std.specs.Prelude.{List};

    ghost Value = { List T };

    ghost view = { λ shared. shared.items.value.items };
}

impl<T: Drop> Shared<T> {
    /// The same items in the same order, with one owner.
    pub fn from_vec(alloc: Global, items: Vec<T>) -> Result<Shared<T>, AllocError>
        ensures { IfOk result (λ shared. shared ≡ items.items) }
    {
        match Rc::new(alloc, items) {
            Ok(items) => Ok(Shared { items }),
            Err(_) => Err(AllocError),
        }
    }

    /// The same items for a further owner. It takes no memory, and fails only where the owners can't be counted any more.
    pub fn share(&self) -> Result<Shared<T>, AllocError>
        ensures { IfOk result (λ shared. shared ≡ self.now) }
    {
        Ok(Shared {
            items: self.items.clone()?,
        })
    }

    /// The items in order.
    pub fn as_slice(&self) -> &[T]
        ensures { result.now ≡ self.now }
    {
        self.items.as_slice()
    }
}
