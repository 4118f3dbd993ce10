//! A list that is made by its owner and read by contracts.
ghost use Rattle.std.specs.Prelude.{◌≡◌, ◌≢◌, ◌++◌, ◌∷◌, [], length, slice_get, OnOk, OnErr};
ghost use Rattle.std.specs.Option.{option_copied};

use nal_term::ListError;
use std::alloc::Global;
use std::marker::Model;

/// Items in their order. Contracts see the list of them. There is no bound on their number.
#[derive(Drop)]
pub struct ItemList<T: Drop> {
    items: Vec<T>,
}

impl<T: Drop> Model for ItemList<T> {
    ghost use Rattle.std.specs.Prelude.{List};

    ghost Value = { List T };

    ghost view = { λ l. l.items.items };
}

impl<T: Drop> ItemList<T> {
    /// A list without items. It takes no memory.
    pub fn new(alloc: Global) -> ItemList<T>
        ensures { result ≡ [] }
    {
        ItemList {
            items: Vec::new(alloc),
        }
    }

    /// Adds an item at the end. `Memory` where there was none for it, and the list is then as before; `Bound` never.
    pub fn push(&mut self, item: T) -> Result<(), ListError>
        ensures ok { OnOk result (self.new ≡ self.old ++ item ∷ []) }
        ensures err { OnErr result (self.new ≡ self.old) }
        ensures unbounded { result ≢ Err ListError.Bound }
    {
        match self.items.push(item) {
            Ok(()) => Ok(()),
            Err(_) => Err(ListError::Memory),
        }
    }

    /// How many items there are.
    pub fn count(&self) -> u64
        ensures { result ≡ length self.now }
    {
        self.items.len() as u64
    }

    /// The item at a place, counted from 0. None exactly where there is none.
    pub fn get(&self, place: u64) -> Option<&T>
        ensures { option_copied result ≡ slice_get self.now place }
    {
        if place < self.count() {
            Some(&self.items[place as usize])
        } else {
            None
        }
    }

    /// The items as a slice.
    pub fn as_slice(&self) -> &[T]
        ensures { result.now ≡ self.now }
    {
        self.items.as_slice()
    }
}
