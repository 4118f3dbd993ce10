ghost use Rattle.std.specs.Prelude.{◌≡◌, ◌≢◌, ◌≤◌, ◌↔◌, ◌++◌, ◌∷◌, [], length, IsTrue, OnErr, OnOk, slice_get};
ghost use Rattle.std.specs.Option.{option_copied};
ghost use Rattle.proof_check.specs.LineLists.{IsLineList};

use arrayvec::ArrayVec;
use nal_term::ListError;
use std::alloc::Global;
use std::marker::Model;

/// How many numbers a list may have: as many as a proof has lines.
const MOST_ITEMS: usize = 256;

/// Numbers of lines that increase strictly, at most 256, which contracts see as a list. It holds them in place.
#[derive(Drop)]
pub struct LineList {
    items: ArrayVec<u64, MOST_ITEMS>,
}

impl Model for LineList {
    ghost use Rattle.std.specs.Prelude.{List, ℕ};
    ghost use Rattle.proof_check.specs.LineLists.{IsLineList};

    ghost Value = { List ℕ };

    ghost view = { λ l. l.items.items };

    ghost invariant = { λ l. IsLineList l.items.items };
}

impl LineList {
    /// No numbers. It takes no memory.
    pub fn new(_alloc: Global) -> Self
        ensures { result ≡ [] }
    {
        LineList {
            items: ArrayVec::new(),
        }
    }

    /// Adds a number at the end. `Bound` exactly where the list with it would not increase or would
    /// have more than 256 numbers. An `Err` changes nothing. It takes no memory.
    pub fn push(&mut self, item: u64) -> Result<(), ListError>
        ensures ok { OnOk result (self.new ≡ self.old ++ item ∷ []) }
        ensures bound { (result ≡ Err ListError.Bound) ↔ ¬ IsLineList (self.old ++ item ∷ []) }
        ensures err { OnErr result (self.new ≡ self.old) }
        ensures memory { result ≢ Err ListError.Memory }
    {
        if !takes(self.items.as_slice(), item) {
            return Err(ListError::Bound);
        }
        self.items.push(item);
        Ok(())
    }

    /// How many numbers there are: at most 256.
    pub fn count(&self) -> u64
        ensures count { result ≡ length self.now }
        ensures bound { result ≤ 256 }
    {
        self.items.len() as u64
    }

    /// The number at a place, counted from 0. None exactly where there is none.
    pub fn get(&self, place: u64) -> Option<&u64>
        ensures { option_copied result ≡ slice_get self.now place }
    {
        if place < self.count() {
            Some(&self.items[place as usize])
        } else {
            None
        }
    }

    /// The numbers as a slice.
    pub fn as_slice(&self) -> &[u64]
        ensures items { result.now ≡ self.now }
        ensures increasing { IsLineList result.now }
    {
        self.items.as_slice()
    }
}

/// Whether the list may end with this number too.
fn takes(items: &[u64], item: u64) -> bool
    requires { IsLineList items.now }
    ensures { IsTrue result ↔ IsLineList (items.now ++ item ∷ []) }
{
    match items.last() {
        None => true,
        Some(last) => *last < item && items.len() < MOST_ITEMS,
    }
}
