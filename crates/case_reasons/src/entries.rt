//! The entries of a journal that what is in force comes from.
ghost use Rattle.std.specs.Prelude.{◌≡◌, MatchOption, ℕ, Some, false};
ghost use Rattle.policy_history.specs.Events.{EntryTree, entry_tree};
ghost use Rattle.policy_history.specs.Machine.{IsLegal};
ghost use Rattle.policy_history.specs.Values.{entry_trees};
ghost use Rattle.label_holdings.specs.Entries.{IsLast, entry_at};
ghost use Rattle.case_reasons.specs.Origins.{changes_goal, changes_proof, makes};
ghost use Rattle.case_reasons.specs.Inner.Deeds.{passes};

use nal_term::Name;
use policy_history::{Entry, Event, Journal};

/// What an entry is looked for by.
#[derive(Clone, Copy)]
pub enum Deed<'a> {
    /// It makes the object with this name.
    Makes {
        object: &'a Name,
    },
    /// It sets or clears the goal of an operation on an object.
    ChangesGoal {
        op: &'a Name,
        object: &'a Name,
    },
    /// It registers or removes the proof of a principal for an operation on an object.
    ChangesProof {
        principal: u32,
        op: &'a Name,
        object: &'a Name,
    },
}

/// The last entry of the journal that does this, with its number, from 1. None exactly where none does.
pub fn last_of<'a>(journal: &'a Journal, deed: Deed) -> Option<(u64, &'a Entry)>
    ensures last { MatchOption result
        ((m : ℕ) (e : EntryTree) → entry_at (entry_trees journal.now.entries) m ≡ Some e → passes deed.entry e ≡ false)
        (λ found. IsLast (passes deed.entry) (entry_trees journal.now.entries) found.0 (entry_tree found.1.now)) }
    ensures legal { IsLegal journal.now.head (entry_trees journal.now.entries) }
{
    let _legal = journal.count();
    last_in(journal.entries().as_slice(), deed)
}

/// The last of the entries that does this, with its number.
fn last_in<'a>(entries: &'a [Entry], deed: Deed) -> Option<(u64, &'a Entry)>
    ensures { MatchOption result
        ((m : ℕ) (e : EntryTree) → entry_at (entry_trees entries.now) m ≡ Some e → passes deed.entry e ≡ false)
        (λ found. IsLast (passes deed.entry) (entry_trees entries.now) found.0 (entry_tree found.1.now)) }
{
    for index in (0..entries.len()).rev() {
        let entry = &entries[index];
        if deed.is_of(entry) {
            return Some((index as u64 + 1, entry));
        }
    }
    None
}

impl<'a> Deed<'a> {
    /// Whether the entry does this.
    fn is_of(&self, entry: &Entry) -> bool
        ensures { result ≡ passes self.now (entry_tree entry.now) }
    {
        match self {
            Deed::Makes { object } => makes(entry, object),
            Deed::ChangesGoal { op, object } => changes_goal(entry, op, object),
            Deed::ChangesProof {
                principal,
                op,
                object,
            } => changes_proof(entry, *principal, op, object),
        }
    }
}

/// Whether the entry makes the object with this name.
fn makes(entry: &Entry, object: &Name) -> bool
    ensures { result ≡ makes object.now (entry_tree entry.now) }
{
    match &entry.event {
        Event::NewObject { name } => object == name,
        _ => false,
    }
}

/// Whether the entry sets or clears the goal of the operation on the object.
fn changes_goal(entry: &Entry, op: &Name, object: &Name) -> bool
    ensures { result ≡ changes_goal op.now object.now (entry_tree entry.now) }
{
    match &entry.event {
        Event::SetGoal {
            op: of,
            object: on,
            ..
        } => op == of && object == on,
        Event::ClearGoal { op: of, object: on } => op == of && object == on,
        _ => false,
    }
}

/// Whether the entry registers or removes the principal's proof for the operation on the object.
fn changes_proof(entry: &Entry, principal: u32, op: &Name, object: &Name) -> bool
    ensures { result ≡ changes_proof principal op.now object.now (entry_tree entry.now) }
{
    principal == entry.principal
        && match &entry.event {
            Event::SetProof {
                op: of,
                object: on,
                ..
            } => op == of && object == on,
            Event::ClearProof { op: of, object: on } => op == of && object == on,
            _ => false,
        }
}
