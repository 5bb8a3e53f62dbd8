//! Lists that may have room taken beforehand.

ghost use Rattle.std.specs.Prelude.{◌≡◌, ◌==◌, [], ◌∷◌, ◌++◌, length, OnOk, OnErr, slice_get, option_copied};

use acct_base::BlockList;
use std::alloc::{AllocError, Global};
use std::marker::Model;

/// A list whose first items stand in one piece, in room that was taken beforehand, and whose later items
/// stand in blocks. Contracts see it as the list of its items.
#[derive(Debug, Drop)]
pub struct RoomyList<T> {
    first: Vec<T>,
    more: BlockList<T>,
}

impl<T> Model for RoomyList<T> {
    ghost use Rattle.std.specs.Prelude.{◌+◌, ◌++◌, ◌<◌, ◌^◌, length, List as Listed};

    ghost Value = { Listed T };

    ghost view = { λ l. l.first.items ++ l.more };

    ghost invariant = { λ l. length l.first.items + length l.more < 2 ^ 64 };
}

impl<T> RoomyList<T> {
    /// A list without items.
    pub fn new(alloc: Global) -> Self
        ensures { result ≡ [] }
    {
        RoomyList {
            first: Vec::new(alloc),
            more: BlockList::new(alloc),
        }
    }

    /// The list of these items. It takes no memory.
    pub fn of(items: Vec<T>) -> Self
        ensures { result ≡ items.items }
    {
        let alloc = *items.allocator();
        RoomyList {
            first: items,
            more: BlockList::new(alloc),
        }
    }

    /// Puts an item at the end. Where memory is wanting the list stays as it was.
    pub fn push(&mut self, item: T) -> Result<(), AllocError>
    where
        T: Drop,
        ensures ok { OnOk result (self.new ≡ self.old ++ item ∷ []) }
        ensures err { OnErr result (self.new ≡ self.old) }
    {
        self.len().checked_add(1).ok_or(AllocError)?;
        self.more.push(item)
    }

    /// How many items there are.
    #[inline]
    pub fn len(&self) -> usize
        ensures { result ≡ length self.now }
    {
        self.first.len() + self.more.len()
    }

    /// Whether there is no item.
    pub fn is_empty(&self) -> bool
        ensures { result ≡ (length self.now == 0) }
    {
        self.len() == 0
    }

    /// The item at a place, from 0; None where the place is not below the length.
    #[inline]
    pub fn get(&self, place: usize) -> Option<&T>
        ensures { option_copied result ≡ slice_get self.now place }
    {
        match self.first.get(place) {
            Some(item) => Some(item),
            None => self.more.get(place - self.first.len()),
        }
    }
}
