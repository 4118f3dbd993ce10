ghost use Rattle.std.specs.Prelude.{ℕ, ◌≡◌, ◌+◌, ◌≤◌, ◌++◌, ◌∷◌, [], false, Some, None, OnOk, slice_set, is_some, IsTrue};
ghost use Rattle.std.specs.List.{remove};
ghost use Rattle.std.specs.Option.{option_map, option_copied};
ghost use Rattle.nal_term.specs.Trees.{term_tree, formula_tree};
ghost use Rattle.goal_store.specs.GoalRows.{goals, ports, goal_place, port_place, goal_of, port_of};

use indexmap::{IndexMap, IndexSet};
use keyed_hash::{HashKey, KeyedHash};
use nal_term::{Formula, Name, Term};
use std::alloc::{AllocError, Global};
use std::marker::Model;

/// The goals of the service, and the ports of the authorities. Contracts see two lists of rows: an
/// operation, an object and their goal; a principal and its port. A row that is there keeps its place, and a
/// new one goes last. Beside the rows they see the number `spare` of rows of each list that there is memory
/// for.
#[derive(Drop)]
pub struct GoalStore {
    // The operations that ever had a goal. A goal's key has its operation's place here.
    ops: IndexSet<Name, KeyedHash>,
    goals: IndexMap<(usize, u64), Formula, KeyedHash>,
    ports: IndexMap<Term, u64, KeyedHash>,
}

impl Model for GoalStore {
    ghost use Rattle.std.specs.Prelude.{map, min};
    ghost use Rattle.std.specs.Coded.{codes};
    ghost use Rattle.nal_term.specs.contracts.terms.Term as t;
    ghost use Rattle.nal_term.specs.contracts.formulas.Formula as f;
    ghost use Rattle.goal_store.specs.GoalRows.{Holdings};
    ghost use Rattle.goal_store.specs.Held.{held_goal};
    ghost use Rattle.goal_store.specs.Inner.Places.{AreHeld};
    ghost use Rattle.indexmap.specs.IndexMap.{spare as room};
    ghost use Rattle.indexmap.specs.IndexSet.{spare as set_room};

    ghost Value = { Holdings };

    ghost coded = { Prim.hlevel (codes, t.the_row.coded, f.the_row.coded) };

    ghost view = { λ s. record { goals_held = map (held_goal s.ops.keys) s.goals.entries; ports_held = s.ports.entries; spare = min (min (set_room s.ops) (room s.goals)) (room s.ports) } };

    ghost invariant = { λ s. AreHeld s.ops.keys s.goals.entries };
}

impl GoalStore {
    /// A store without goals and bindings, whose names and terms are hashed under this key. It takes no memory.
    pub fn new(alloc: Global, key: HashKey) -> GoalStore
        ensures goals { goals result ≡ [] }
        ensures ports { ports result ≡ [] }
    {
        let hash = KeyedHash::new(key);
        GoalStore {
            ops: IndexSet::with_hasher(alloc, hash),
            goals: IndexMap::with_hasher(alloc, hash),
            ports: IndexMap::with_hasher(alloc, hash),
        }
    }

    /// Makes room for one more goal or binding at least. The rows stay; an `Err` says that there was no
    /// memory.
    pub fn reserve(&mut self) -> Result<(), AllocError>
        ensures goals { goals self.new ≡ goals self.old }
        ensures ports { ports self.new ≡ ports self.old }
        ensures room { OnOk result (1 ≤ self.new.spare) }
        ensures kept { self.old.spare ≤ self.new.spare }
    {
        self.ops.reserve(1)?;
        self.goals.reserve(1)?;
        self.ports.reserve(1)
    }

    /// Gives an operation on an object this goal: in the place of their row, or in a new row, which goes
    /// last. It takes no memory.
    pub fn set(&mut self, op: Name, object: u64, goal: Formula)
        requires room { 1 ≤ self.old.spare }
        ensures known { (k : ℕ) → goal_place (goals self.old) op object ≡ Some k
            → goals self.new ≡ slice_set (goals self.old) k (op, object, formula_tree goal) }
        ensures fresh { goal_place (goals self.old) op object ≡ None
            → goals self.new ≡ goals self.old ++ (op, object, formula_tree goal) ∷ [] }
        ensures ports { ports self.new ≡ ports self.old }
        ensures spare { self.old.spare ≤ self.new.spare + 1 }
    {
        let (place, _) = self.ops.insert_full(op).unwrap();
        self.goals.insert((place, object), goal).unwrap();
    }

    /// Takes the goal of an operation on an object away; the rows after it close up. False exactly where
    /// there was none, and nothing changes then.
    pub fn clear(&mut self, op: &Name, object: u64) -> bool
        ensures had { result ≡ is_some (goal_of (goals self.old) op.now object) }
        ensures removed { IsTrue result
            → (k : ℕ) × (goal_place (goals self.old) op.now object ≡ Some k)
            × (goals self.new ≡ remove (goals self.old) k) }
        ensures unchanged { result ≡ false → goals self.new ≡ goals self.old }
        ensures ports { ports self.new ≡ ports self.old }
        ensures spare { self.old.spare ≤ self.new.spare }
    {
        let place = match self.ops.get_index_of(op) {
            Some(place) => place,
            None => return false,
        };
        let row = match self.goals.get_index_of(&(place, object)) {
            Some(row) => row,
            None => return false,
        };
        let _gone = self.goals.shift_remove_index(row);
        true
    }

    /// The goal of an operation on an object. None exactly where there is none.
    pub fn goal(&self, op: &Name, object: u64) -> Option<&Formula>
        ensures { option_map formula_tree (option_copied result) ≡ goal_of (goals self.now) op.now object }
    {
        let place = match self.ops.get_index_of(op) {
            Some(place) => place,
            None => return None,
        };
        self.goals.get(&(place, object))
    }

    /// Gives a principal this port: in the place of its row, or in a new row, which goes last. It takes no
    /// memory.
    pub fn bind(&mut self, principal: Term, port: u64)
        requires room { 1 ≤ self.old.spare }
        ensures known { (k : ℕ) → port_place (ports self.old) (term_tree principal) ≡ Some k
            → ports self.new ≡ slice_set (ports self.old) k (term_tree principal, port) }
        ensures fresh { port_place (ports self.old) (term_tree principal) ≡ None
            → ports self.new ≡ ports self.old ++ (term_tree principal, port) ∷ [] }
        ensures goals { goals self.new ≡ goals self.old }
        ensures spare { self.old.spare ≤ self.new.spare + 1 }
    {
        self.ports.insert(principal, port).unwrap();
    }

    /// Takes the port of a principal away; the rows after it close up. False exactly where it had none, and
    /// nothing changes then.
    pub fn unbind(&mut self, principal: &Term) -> bool
        ensures had { result ≡ is_some (port_of (ports self.old) (term_tree principal.now)) }
        ensures removed { IsTrue result
            → (k : ℕ) × (port_place (ports self.old) (term_tree principal.now) ≡ Some k)
            × (ports self.new ≡ remove (ports self.old) k) }
        ensures unchanged { result ≡ false → ports self.new ≡ ports self.old }
        ensures goals { goals self.new ≡ goals self.old }
        ensures spare { self.old.spare ≤ self.new.spare }
    {
        let row = match self.ports.get_index_of(principal) {
            Some(row) => row,
            None => return false,
        };
        let _gone = self.ports.shift_remove_index(row);
        true
    }

    /// The port of a principal. None exactly where it has none.
    pub fn port(&self, principal: &Term) -> Option<u64>
        ensures { result ≡ port_of (ports self.now) (term_tree principal.now) }
    {
        match self.ports.get(principal) {
            Some(port) => Some(*port),
            None => None,
        }
    }
}
