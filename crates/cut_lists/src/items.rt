ghost use Rattle.std.specs.Prelude.{◌≡◌, IfOk};

use std::alloc::{AllocError, Global};
use std::marker::Model;

/// Items in order, in memory of their own. Contracts see the list of them alone, and not how much memory a `Vec` took
/// for it, so that two are the same where their items are.
#[derive(Debug, Drop)]
pub struct Items<T> {
    items: Vec<T>,
}

impl<T> Model for Items<T> {
    ghost use Rattle.std.specs.Prelude.{List};

    ghost Value = { List T };

    ghost view = { λ i. i.items.items };
}

impl<T> Items<T> {
    /// The items of a `Vec`.
    pub fn from_vec(items: Vec<T>) -> Items<T>
        ensures { result ≡ items.items }
    {
        Items { items }
    }

    /// The items as a `Vec`.
    pub fn into_vec(self) -> Vec<T>
        ensures { result.items ≡ self }
    {
        let Items { items } = self;
        items
    }

    /// The items as a slice.
    pub fn as_slice(&self) -> &[T]
        ensures { result.now ≡ self.now }
    {
        self.items.as_slice()
    }
}

impl<T: Copy> Items<T> {
    /// A copy of items.
    pub fn copy_of(alloc: Global, items: &[T]) -> Result<Items<T>, AllocError>
        ensures { IfOk result (λ copy. copy ≡ items.now) }
    {
        Ok(Items {
            items: Vec::from_slice(alloc, items)?,
        })
    }

    /// A copy of these items.
    pub fn try_clone(&self, alloc: Global) -> Result<Items<T>, AllocError>
        ensures { IfOk result (λ copy. copy ≡ self.now) }
    {
        Items::copy_of(alloc, self.items.as_slice())
    }
}
