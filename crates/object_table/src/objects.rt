ghost use Rattle.std.specs.Prelude.{◌≡◌, ◌+◌, ◌<◌, ◌≤◌, ◌++◌, ◌∷◌, [], length, Some, None, IfSome, IfNone, OnOk, slice_get, Contains};
ghost use Rattle.object_table.specs.Objects.{names_of, number_of, owner_of};

use indexmap::IndexMap;
use keyed_hash::{HashKey, KeyedHash};
use nal_term::Name;
use std::alloc::{AllocError, Global};
use std::marker::Model;

/// How many objects there may be.
pub const MOST_OBJECTS: usize = 65_536;

/// The objects of the service, at most 65,536. Contracts see the list of its rows, each an object's name
/// and its owner; the place of a row, from 0, is the object's number. Beside the rows they see the number
/// `spare` of rows that there is memory for.
#[derive(Drop)]
pub struct ObjectTable {
    rows: IndexMap<Name, u32, KeyedHash>,
}

impl Model for ObjectTable {
    ghost use Rattle.std.specs.Prelude.{◌≤◌, length};
    ghost use Rattle.object_table.specs.Objects.{Objects};
    ghost use Rattle.indexmap.specs.IndexMap.{spare as room};

    ghost Value = { Objects };

    ghost view = { λ t. record { rows = t.rows.entries; spare = room t.rows } };

    ghost invariant = { λ t. length t.rows.entries ≤ 65536 };
}

impl ObjectTable {
    /// A table without objects, whose names are hashed under this key. It takes no memory.
    pub fn new(alloc: Global, key: HashKey) -> ObjectTable
        ensures { result.rows ≡ [] }
    {
        ObjectTable {
            rows: IndexMap::with_hasher(alloc, KeyedHash::new(key)),
        }
    }

    /// Makes room for one more object at least. The objects stay; an `Err` says that there was no memory.
    pub fn reserve(&mut self) -> Result<(), AllocError>
        ensures rows { self.new.rows ≡ self.old.rows }
        ensures room { OnOk result (1 ≤ self.new.spare) }
        ensures kept { self.old.spare ≤ self.new.spare }
    {
        self.rows.reserve(1)
    }

    /// Adds an object last, and answers its number: how many there were before. It takes no memory.
    pub fn add(&mut self, name: Name, owner: u32) -> u64
        requires room { 1 ≤ self.old.spare }
        requires fresh { number_of self.old.rows name ≡ None }
        requires bound { length self.old.rows < 65536 }
        ensures rows { self.new.rows ≡ self.old.rows ++ (name, owner) ∷ [] }
        ensures number { result ≡ length self.old.rows }
        ensures spare { self.old.spare ≤ self.new.spare + 1 }
    {
        let number = self.rows.len();
        self.rows.insert(name, owner).unwrap();
        number as u64
    }

    /// The number of the object with this name. None exactly where no object has it.
    pub fn number(&self, name: &Name) -> Option<u64>
        ensures number { result ≡ number_of self.now.rows name.now }
        ensures found { IfSome result (λ k. slice_get (names_of self.now.rows) k ≡ Some name.now) }
        ensures none { IfNone result (¬ Contains (names_of self.now.rows) name.now) }
        ensures within { IfSome result (λ k. k < length self.now.rows) }
    {
        match self.rows.get_index_of(name) {
            Some(place) => Some(place as u64),
            None => None,
        }
    }

    /// The owner of the object with this number. None exactly where there is no such object.
    pub fn owner(&self, number: u64) -> Option<u32>
        ensures { result ≡ owner_of self.now.rows number }
    {
        if number < self.count() {
            let (_, owner) = self.rows.get_index(number as usize)?;
            Some(*owner)
        } else {
            None
        }
    }

    /// How many objects there are: at most 65,536.
    pub fn count(&self) -> u64
        ensures count { result ≡ length self.now.rows }
        ensures bound { result ≤ 65536 }
    {
        self.rows.len() as u64
    }
}
