//! Which entries of a journal still matter.
ghost use Rattle.std.specs.Prelude.{◌≡◌, ◌∷◌, List, IfOk, OnOk};
ghost use Rattle.policy_history.specs.Events.{EntryTree, entry_tree};
ghost use Rattle.policy_history.specs.Values.{entry_trees};
ghost use Rattle.policy_compaction.specs.Kept.{matters};
ghost use Rattle.policy_compaction.specs.Inner.Marking.{AreUndone, marks_of};

use crate::slots::{Slot, left_by, undone_by};
use indexmap::IndexSet;
use keyed_hash::KeyedHash;
use policy_history::{Entry, Journal, hash_key};
use std::alloc::{AllocError, Global};

/// What later entries undo.
type Undone = IndexSet<Slot, KeyedHash>;

/// For each entry of the journal, in their order, whether it still matters. The entries are gone through once, from the
/// last. An `Err` is want of memory.
pub fn marks(alloc: Global, journal: &Journal) -> Result<Vec<bool>, AllocError>
    ensures { IfOk result (λ marks. marks.items ≡ marks_of (entry_trees journal.now.entries)) }
{
    let entries = journal.entries().as_slice();
    let hash = KeyedHash::new(hash_key(&journal.head().principals));
    let mut undone = IndexSet::with_hasher(alloc, hash);
    let mut marks = Vec::from_elem(alloc, false, entries.len())?;
    for index in (0..entries.len()).rev() {
        let entry = &entries[index];
        marks[index] = matters(alloc, index as u64 + 1, entry, &undone)?;
        undo(alloc, entry, &mut undone)?;
    }
    Ok(marks)
}

/// Whether the entry with this number matters, where this is what the later ones undo.
fn matters(alloc: Global, number: u64, entry: &Entry, undone: &Undone) -> Result<bool, AllocError>
    ensures { IfOk result (λ it. (later : List EntryTree) → AreUndone undone.now.keys later
        → it ≡ matters number (entry_tree entry.now) later) }
{
    match left_by(alloc, number, entry)? {
        None => Ok(false),
        Some(slot) => Ok(!undone.contains(&slot)),
    }
}

/// Adds what the entry undoes.
fn undo(alloc: Global, entry: &Entry, undone: &mut Undone) -> Result<(), AllocError>
    ensures { OnOk result ((later : List EntryTree) → AreUndone undone.old.keys later
        → AreUndone undone.new.keys (entry_tree entry.now ∷ later)) }
{
    if let Some(slot) = undone_by(alloc, entry)? {
        undone.insert(slot)?;
    }
    Ok(())
}
