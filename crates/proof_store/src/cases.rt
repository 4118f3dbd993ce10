ghost use Rattle.std.specs.Prelude.{ℕ, ◌≡◌, ◌+◌, ◌<◌, ◌≤◌, ◌++◌, ◌∷◌, [], true, false, length, Some, None, IfSome, OnOk, slice_set, is_some, IsTrue};
ghost use Rattle.std.specs.Option.{option_map, option_and_then, option_copied};
ghost use Rattle.proof_lines.specs.Lines.{line_trees};
ghost use Rattle.proof_store.specs.Cases.{rows, number_of, proof_of};

use indexmap::{IndexMap, IndexSet};
use keyed_hash::{HashKey, KeyedHash};
use nal_term::Name;
use proof_lines::Proof;
use std::alloc::{AllocError, Global};
use std::marker::Model;

/// How many cases there may be.
pub const MOST_CASES: usize = 262_144;

/// The proofs of the service, at most 262,144. Contracts see the list of its rows, each a subject, an
/// operation, an object and a proof or none; the place of a row, from 0, is its case number, which no other
/// row is ever given. Beside the rows they see the number `spare` of rows that there is memory for.
#[derive(Drop)]
pub struct ProofStore {
    // The operations of the cases. A case's key has its operation's place here.
    ops: IndexSet<Name, KeyedHash>,
    cases: IndexMap<(u32, usize, u64), Option<Proof>, KeyedHash>,
}

impl Model for ProofStore {
    ghost use Rattle.std.specs.Prelude.{map, min};
    ghost use Rattle.std.specs.Coded.{codes};
    ghost use Rattle.nal_term.specs.contracts.terms.Term as t;
    ghost use Rattle.nal_term.specs.contracts.formulas.Formula as f;
    ghost use Rattle.proof_store.specs.Cases.{Cases};
    ghost use Rattle.proof_store.specs.Held.{held_case};
    ghost use Rattle.proof_store.specs.Inner.Places.{AreHeld};
    ghost use Rattle.indexmap.specs.IndexMap.{spare as room};
    ghost use Rattle.indexmap.specs.IndexSet.{spare as set_room};

    ghost Value = { Cases };

    ghost coded = { Prim.hlevel (codes, t.the_row.coded, f.the_row.coded) };

    ghost view = { λ s. record { held = map (held_case s.ops.keys) s.cases.entries; spare = min (set_room s.ops) (room s.cases) } };

    ghost invariant = { λ s. AreHeld s.ops.keys s.cases.entries };
}

impl ProofStore {
    /// A store without cases, whose names are hashed under this key. It takes no memory.
    pub fn new(alloc: Global, key: HashKey) -> ProofStore
        ensures { rows result ≡ [] }
    {
        let hash = KeyedHash::new(key);
        ProofStore {
            ops: IndexSet::with_hasher(alloc, hash),
            cases: IndexMap::with_hasher(alloc, hash),
        }
    }

    /// Makes room for one more case at least. The rows stay; an `Err` says that there was no memory.
    pub fn reserve(&mut self) -> Result<(), AllocError>
        ensures rows { rows self.new ≡ rows self.old }
        ensures room { OnOk result (1 ≤ self.new.spare) }
        ensures kept { self.old.spare ≤ self.new.spare }
    {
        self.ops.reserve(1)?;
        self.cases.reserve(1)
    }

    /// Gives a subject, an operation and an object this proof, and answers their case number: in the place of
    /// their row, or in a new row, which goes last. It takes no memory.
    pub fn set(&mut self, subject: u32, op: Name, object: u64, proof: Proof) -> u64
        requires room { 1 ≤ self.old.spare }
        requires bound { number_of (rows self.old) subject op object ≡ None → length (rows self.old) < 262144 }
        ensures known { (k : ℕ) → number_of (rows self.old) subject op object ≡ Some k
            → (result ≡ k)
            × (rows self.new ≡ slice_set (rows self.old) k (subject, op, object, Some (line_trees proof))) }
        ensures fresh { number_of (rows self.old) subject op object ≡ None
            → (result ≡ length (rows self.old))
            × (rows self.new ≡ rows self.old ++ (subject, op, object, Some (line_trees proof)) ∷ []) }
        ensures spare { self.old.spare ≤ self.new.spare + 1 }
    {
        let (place, _) = self.ops.insert_full(op).unwrap();
        let key = (subject, place, object);
        let (number, _) = self.cases.insert_full(key, Some(proof)).unwrap();
        number as u64
    }

    /// Takes the proof of a subject, an operation and an object away; their row stays without one, and keeps
    /// its number. False exactly where they had no proof, and nothing changes then.
    pub fn clear(&mut self, subject: u32, op: &Name, object: u64) -> bool
        ensures had { result
            ≡ is_some (option_and_then (proof_of (rows self.old)) (number_of (rows self.old) subject op.now object)) }
        ensures cleared { IsTrue result
            → (k : ℕ) × (number_of (rows self.old) subject op.now object ≡ Some k)
            × (rows self.new ≡ slice_set (rows self.old) k (subject, op.now, object, None)) }
        ensures unchanged { result ≡ false → rows self.new ≡ rows self.old }
        ensures spare { self.new.spare ≡ self.old.spare }
    {
        let place = match self.ops.get_index_of(op) {
            Some(place) => place,
            None => return false,
        };
        let number = match self.cases.get_index_of(&(subject, place, object)) {
            Some(number) => number,
            None => return false,
        };
        if self.cases[number].is_none() {
            return false;
        }
        self.cases[number] = None;
        true
    }

    /// The case number of a subject, an operation and an object. None exactly where they have no row.
    pub fn number_of(&self, subject: u32, op: &Name, object: u64) -> Option<u64>
        ensures number { result ≡ number_of (rows self.now) subject op.now object }
        ensures within { IfSome result (λ k. k < length (rows self.now)) }
    {
        let place = match self.ops.get_index_of(op) {
            Some(place) => place,
            None => return None,
        };
        match self.cases.get_index_of(&(subject, place, object)) {
            Some(number) => Some(number as u64),
            None => None,
        }
    }

    /// The proof of the case with this number. None exactly where there is no such case, or it has no proof.
    pub fn proof(&self, case: u64) -> Option<&Proof>
        ensures { option_map line_trees (option_copied result) ≡ proof_of (rows self.now) case }
    {
        if case >= self.count() {
            return None;
        }
        self.cases[case as usize].as_ref()
    }

    /// How many cases there are: at most 262,144.
    pub fn count(&self) -> u64
        ensures count { result ≡ length (rows self.now) }
        ensures bound { result ≤ 262144 }
    {
        self.cases.len() as u64
    }
}
