ghost use Rattle.std.specs.Prelude.{ℕ, IfOk, length, map, drop, true, ◌≡◌, ◌≢◌, ◌+◌, ◌-◌, ◌<◌, ◌≤◌, ◌↔◌, ◌++◌, ◌∷◌, [], Some, None, OnOk, OnErr, slice_get, slice_set};
ghost use Rattle.std.specs.List.{All, remove};
ghost use Rattle.std.specs.Option.{option_map, option_copied};
ghost use Rattle.nal_term.specs.Trees.{formula_tree};
ghost use Rattle.label_store.specs.LabelRows.{LabelRow, rows, label_place, holder_of, is_held, labels_of};
ghost use Rattle.label_store.specs.Inner.Kept.{IsRowOf, holder_in};

use crate::counts::{Counts, count, take_one};
use crate::rows::{Holding, Rows, find_row, next_held, push_row, remove_row};
use indexmap::{IndexMap, IndexSet};
use keyed_hash::{HashKey, KeyedHash};
use nal_term::Formula;
use std::alloc::{AllocError, Global};
use std::marker::Model;

/// Why a label was not given away or deleted.
#[derive(Clone, Copy, Debug, PartialEq, Eq)]
pub enum LabelRefusal {
    /// No label has the number.
    NoSuchLabel,
    /// Another principal holds the label.
    NotHolder,
}

/// The labels of the service. Contracts see the list of its rows, each a number, the holder and the label.
/// Beside the rows they see the number `spare` of rows that there is memory for.
#[derive(Drop)]
pub struct LabelStore {
    // The formulas of all labels that were ever said, each once.
    formulas: IndexSet<Formula, KeyedHash>,
    rows: Rows,
    // How many of the rows are holes: for the time that a call takes alone.
    holes: usize,
    counts: Counts,
}

impl Model for LabelStore {
    ghost use Rattle.std.specs.Prelude.{◌+◌, ◌-◌, length, map, min};
    ghost use Rattle.std.specs.Coded.{codes};
    ghost use Rattle.nal_term.specs.contracts.terms.Term as t;
    ghost use Rattle.nal_term.specs.contracts.formulas.Formula as f;
    ghost use Rattle.label_store.specs.LabelRows.{Labels};
    ghost use Rattle.label_store.specs.Held.{held_label, live_entries};
    ghost use Rattle.label_store.specs.Inner.Kept.{AreHeld, AreCounted};
    ghost use Rattle.indexmap.specs.IndexMap.{spare as room, index_map_len};
    ghost use Rattle.indexmap.specs.IndexSet.{spare as set_room};

    ghost Value = { Labels };

    ghost coded = { Prim.hlevel (codes, t.the_row.coded, f.the_row.coded) };

    ghost view = { λ s. record { held = map (held_label s.formulas.keys) (live_entries s.rows.entries); spare = min (min (set_room s.formulas) (room s.rows)) (index_map_len s.counts + room s.counts - length s.rows.entries) } };

    ghost invariant = { λ s. AreHeld s.formulas.keys s.rows.entries × AreCounted s.counts s.rows.entries };
}

impl LabelStore {
    /// A store without labels, whose formulas are hashed under this key. It takes no memory.
    pub fn new(alloc: Global, key: HashKey) -> LabelStore
        ensures { rows result ≡ [] }
    {
        let hash = KeyedHash::new(key);
        LabelStore {
            formulas: IndexSet::with_hasher(alloc, hash),
            rows: IndexMap::with_hasher(alloc, hash),
            holes: 0,
            counts: IndexMap::with_hasher(alloc, hash),
        }
    }

    /// Makes room for one more label at least. The rows stay; an `Err` says that there was no memory.
    pub fn reserve(&mut self) -> Result<(), AllocError>
        ensures rows { rows self.new ≡ rows self.old }
        ensures room { OnOk result (1 ≤ self.new.spare) }
        ensures kept { self.old.spare ≤ self.new.spare }
    {
        self.formulas.reserve(1)?;
        self.rows.reserve(1)?;

        // Twice the rows, so that a recount is needed once in as many transfers at most.
        let wanted = self.rows.len() + self.rows.len() + 1;
        self.counts
            .reserve(wanted.saturating_sub(self.counts.len()))
    }

    /// Adds a label last, held by this principal, under a number above all others. It takes no memory.
    pub fn say(&mut self, number: u64, holder: u32, label: Formula)
        requires room { 1 ≤ self.old.spare }
        requires above { All (λ (row : LabelRow). row.0 < number) (rows self.old) }
        ensures rows { rows self.new ≡ rows self.old ++ (number, holder, formula_tree label) ∷ [] }
        ensures spare { self.old.spare ≤ self.new.spare + 1 }
    {
        let (place, _) = self.formulas.insert_full(label).unwrap();
        let row = Holding {
            holder,
            place,
            live: true,
        };
        push_row(&mut self.rows, number, row);
        count(&mut self.counts, &self.rows, (holder, place));
    }

    /// Gives a label to another principal: its row stays in its place, with the new holder. `NoSuchLabel`
    /// exactly where no row has the number, else `NotHolder` exactly where another than `from` holds it. An
    /// `Err` changes nothing.
    pub fn transfer(&mut self, number: u64, from: u32, to: u32) -> Result<(), LabelRefusal>
        ensures no_label { (result ≡ Err LabelRefusal.NoSuchLabel) ↔ (holder_of (rows self.old) number ≡ None) }
        ensures not_holder { (result ≡ Err LabelRefusal.NotHolder) ↔
            ((h : ℕ) × (holder_of (rows self.old) number ≡ Some h) × (h ≢ from)) }
        ensures moved { OnOk result
            ((k : ℕ) × (row : LabelRow) × (label_place (rows self.old) number ≡ Some k)
            × (slice_get (rows self.old) k ≡ Some row)
            × (rows self.new ≡ slice_set (rows self.old) k (number, to, row.2))) }
        ensures err { OnErr result (rows self.new ≡ rows self.old) }
        ensures spare { self.old.spare ≤ self.new.spare }
    {
        let (index, formula) = match held_row(&self.rows, number, from) {
            Ok(row) => row,
            Err(refusal) => return Err(refusal),
        };
        self.rows[index].holder = to;
        take_one(&mut self.counts, (from, formula));
        count(&mut self.counts, &self.rows, (to, formula));
        Ok(())
    }

    /// Deletes a label; the rows after it close up. `NoSuchLabel` exactly where no row has the number, else
    /// `NotHolder` exactly where another than `from` holds it. An `Err` changes nothing.
    pub fn delete(&mut self, number: u64, from: u32) -> Result<(), LabelRefusal>
        ensures no_label { (result ≡ Err LabelRefusal.NoSuchLabel) ↔ (holder_of (rows self.old) number ≡ None) }
        ensures not_holder { (result ≡ Err LabelRefusal.NotHolder) ↔
            ((h : ℕ) × (holder_of (rows self.old) number ≡ Some h) × (h ≢ from)) }
        ensures removed { OnOk result
            ((k : ℕ) × (label_place (rows self.old) number ≡ Some k) × (rows self.new ≡ remove (rows self.old) k)) }
        ensures err { OnErr result (rows self.new ≡ rows self.old) }
        ensures spare { self.old.spare ≤ self.new.spare }
    {
        let (index, formula) = match held_row(&self.rows, number, from) {
            Ok(row) => row,
            Err(refusal) => return Err(refusal),
        };
        remove_row(&mut self.rows, &mut self.holes, index);
        take_one(&mut self.counts, (from, formula));
        Ok(())
    }

    /// The holder of the label with this number. None exactly where no label has it.
    pub fn find(&self, number: u64) -> Option<u32>
        ensures { result ≡ holder_of (rows self.now) number }
    {
        match find_row(&self.rows, number) {
            Some((_, row)) => Some(row.holder),
            None => None,
        }
    }

    /// Whether the principal holds the label: some row has both.
    pub fn holds(&self, holder: u32, label: &Formula) -> bool
        ensures { result ≡ is_held (rows self.now) holder (formula_tree label.now) }
    {
        let place = match self.formulas.get_index_of(label) {
            Some(place) => place,
            None => return false,
        };
        match self.counts.get(&(holder, place)) {
            Some(count) => *count > 0,
            None => false,
        }
    }

    /// The labels of a principal in the order of the rows, one after another. It takes no memory.
    pub fn labels(&self, holder: u32) -> LabelsOf<'_>
        ensures { map formula_tree result ≡ labels_of (rows self.now) holder }
    {
        LabelsOf {
            formulas: &self.formulas,
            rows: &self.rows,
            holder,
            index: 0,
        }
    }

    /// The k-th label of a principal in the order of the rows, from 1. None exactly where k is 0 or the
    /// principal holds fewer. It takes no memory, and time for all rows up to that label: `labels` serves for
    /// more than one.
    pub fn label(&self, holder: u32, k: u64) -> Option<&Formula>
        ensures zero { k ≡ 0 → option_copied result ≡ None }
        ensures value { 0 < k
            → option_map formula_tree (option_copied result) ≡ slice_get (labels_of (rows self.now) holder) (k - 1) }
    {
        if k == 0 {
            return None;
        }
        let mut labels = self.labels(holder);
        for _ in 1..k {
            match labels.next() {
                Some(_) => {}
                None => return None,
            }
        }
        labels.next()
    }
}

// The index of the label's row and the place of its formula, where `from` holds it.
fn held_row(rows: &Rows, number: u64, from: u32) -> Result<(usize, usize), LabelRefusal>
    ensures no_label { (result ≡ Err LabelRefusal.NoSuchLabel) ↔ (holder_in rows.now.entries number ≡ None) }
    ensures not_holder { (result ≡ Err LabelRefusal.NotHolder) ↔
        ((h : ℕ) × (holder_in rows.now.entries number ≡ Some h) × (h ≢ from)) }
    ensures row { IfOk result
        (λ r. IsRowOf rows.now.entries number r.0 (record { holder = from; place = r.1; live = true })) }
    ensures within { IfOk result (λ r. r.0 < length rows.now.entries) }
{
    let (index, row) = match find_row(rows, number) {
        Some(found) => found,
        None => return Err(LabelRefusal::NoSuchLabel),
    };
    if row.holder == from {
        Ok((index, row.place))
    } else {
        Err(LabelRefusal::NotHolder)
    }
}

/// The labels of a principal that are still to come, in their order. Contracts see their list.
#[derive(Drop)]
pub struct LabelsOf<'a> {
    formulas: &'a IndexSet<Formula, KeyedHash>,
    rows: &'a Rows,
    holder: u32,
    // The index of the next row to look at.
    index: usize,
}

impl<'a> Model for LabelsOf<'a> {
    ghost use Rattle.std.specs.Prelude.{List};
    ghost use Rattle.std.specs.Coded.{codes};
    ghost use Rattle.nal_term.specs.contracts.terms.Term as t;
    ghost use Rattle.nal_term.specs.contracts.formulas.Formula as f;
    ghost use Rattle.nal_term.specs.declared.formulas.Formula.{Formula};
    ghost use Rattle.label_store.specs.Held.{labels_from};
    ghost use Rattle.label_store.specs.Inner.Kept.{HasPlaces};

    ghost Value = { List Formula };

    ghost coded = { Prim.hlevel (codes, t.the_row.coded, f.the_row.coded) };

    ghost view = { λ l. labels_from l.formulas.now.keys l.rows.now.entries l.holder l.index };

    ghost invariant = { λ l. HasPlaces l.formulas.now.keys l.rows.now.entries };
}

impl<'a> LabelsOf<'a> {
    /// The next label. None exactly where none is left.
    pub fn next(&mut self) -> Option<&'a Formula>
        ensures label { option_map formula_tree (option_copied result) ≡ slice_get (map formula_tree self.old) 0 }
        ensures rest { map formula_tree self.new ≡ drop 1 (map formula_tree self.old) }
    {
        match next_held(self.rows, self.holder, self.index) {
            Some((after, row)) => {
                self.index = after;
                self.formulas.get_index(row.place)
            }
            None => None,
        }
    }
}
