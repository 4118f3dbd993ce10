//! The cases that a session knows.
ghost use Rattle.std.specs.Prelude.{◌≡◌, ◌≤◌, ◌<◌, ◌++◌, ◌∷◌, [], length, None, OnOk, IfOk};
ghost use Rattle.session_core.specs.Inner.Knowing.{joined_rows, knows_row, place_among};
ghost use Rattle.session_core.specs.Standing.{most_known};

use indexmap::{IndexMap, IndexSet};
use keyed_hash::{HashKey, KeyedHash};
use nal_term::Name;
use std::alloc::{AllocError, Global};
use std::marker::Model;
use verdict_words::CasePlace;

/// How many cases a session knows at most.
const MOST_KNOWN: usize = 4096;

/// The cases that a session knows: the first that it came to know, and none is forgotten. Contracts see the list of them, and the
/// number of cases more that there is memory for.
///
/// The names are hashed under a key that is no secret: only the session's own peer chooses them, and where they collide a look-up
/// walks over the cases of this session at worst.
#[derive(Drop)]
pub struct Known {
    // The operations and the objects of the cases. The key of a case has the places of its two names here.
    ops: IndexSet<Name, KeyedHash>,
    objects: IndexSet<Name, KeyedHash>,
    places: IndexMap<(usize, usize), CasePlace, KeyedHash>,
}

impl Model for Known {
    ghost use Rattle.std.specs.Prelude.{◌≤◌, length, map, min};
    ghost use Rattle.indexmap.specs.IndexMap.{spare as room};
    ghost use Rattle.indexmap.specs.IndexSet.{spare as set_room};
    ghost use Rattle.session_core.specs.Inner.Knowing.{AreHeld, KnownValue, row_of};
    ghost use Rattle.session_core.specs.Standing.{most_known};

    ghost Value = { KnownValue };

    ghost view = { λ k. record { rows = map (row_of k.ops.keys k.objects.keys) k.places.entries; spare = min (min (set_room k.ops) (set_room k.objects)) (room k.places) } };

    ghost invariant = { λ k. AreHeld k.ops.keys k.objects.keys k.places.entries × (length k.places.entries ≤ most_known) };
}

/// The names of one case more.
#[derive(Drop)]
pub struct Room {
    pub op: Name,
    pub object: Name,
}

impl Known {
    /// Knows nothing. It takes no memory.
    pub fn new(alloc: Global) -> Known
        ensures { result.rows ≡ [] }
    {
        let hash = KeyedHash::new(HashKey::new(0, 0));
        Known {
            ops: IndexSet::with_hasher(alloc, hash),
            objects: IndexSet::with_hasher(alloc, hash),
            places: IndexMap::with_hasher(alloc, hash),
        }
    }

    /// The place of the case of this operation and object, where it is known. No name is copied, and no other case is looked at.
    pub fn find(&self, op: &Name, object: &Name) -> Option<CasePlace>
        ensures { result ≡ place_among self.now.rows op.now object.now }
    {
        let op = self.ops.get_index_of(op)?;
        let object = self.objects.get_index_of(object)?;
        self.places.get(&(op, object)).copied()
    }

    /// Takes the memory to know this case too. What is known stays; an `Err` says that there was no memory.
    pub fn reserve(&mut self, alloc: Global, op: &Name, object: &Name) -> Result<Room, AllocError>
        ensures known { self.new.rows ≡ self.old.rows }
        ensures spare { OnOk result (1 ≤ self.new.spare) }
        ensures op { IfOk result (λ room. room.op ≡ op.now) }
        ensures object { IfOk result (λ room. room.object ≡ object.now) }
    {
        self.ops.reserve(1)?;
        self.objects.reserve(1)?;
        self.places.reserve(1)?;
        let (op, object) = (op.copy(alloc)?, object.copy(alloc)?);
        Ok(Room { op, object })
    }

    /// Knows the case in this place too, unless it is known or there are too many. Whether it is known then. It takes no memory.
    pub fn join(&mut self, room: Room, place: Option<CasePlace>) -> bool
        requires { 1 ≤ self.old.spare }
        ensures known { self.new.rows ≡ joined_rows self.old.rows room.op room.object place }
        ensures is_known { result ≡ knows_row self.new.rows room.op room.object }
    {
        if self.find(&room.op, &room.object).is_some() {
            return true;
        }
        let Some(place) = place else {
            return false;
        };
        if self.places.len() >= MOST_KNOWN {
            return false;
        }
        self.add(room, place);
        true
    }

    /// Adds a case that is not known, last.
    fn add(&mut self, room: Room, place: CasePlace)
        requires spare { 1 ≤ self.old.spare }
        requires unknown { place_among self.old.rows room.op room.object ≡ None }
        requires few { length self.old.rows < most_known }
        ensures { self.new.rows ≡ self.old.rows ++ record { op = room.op; object = room.object; place = place } ∷ [] }
    {
        let Room { op, object } = room;
        let (op, _) = self.ops.insert_full(op).unwrap();
        let (object, _) = self.objects.insert_full(object).unwrap();
        self.places.insert((op, object), place).unwrap();
    }
}
