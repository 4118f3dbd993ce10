//! A journal that is made anew, as far as it is wanted.
ghost use Rattle.std.specs.Prelude.{◌≡◌, ◌≤◌, ◌+◌, ◌++◌, ◌∷◌, [], IfOk, OnOk, length};
ghost use Rattle.policy_history.specs.Events.{entry_tree};
ghost use Rattle.policy_history.specs.Machine.{IsAccepted};
ghost use Rattle.policy_history.specs.Values.{entry_trees, state_after};
ghost use Rattle.audit_check.specs.Beginnings.{IsBeginning};

use policy_history::{Entry, Journal};
use std::alloc::{AllocError, Global};

/// The journal as it was when it had so many entries, made anew from it. An `Err` is want of memory.
pub fn beginning_of(alloc: Global, whole: &Journal, at: u64) -> Result<Journal, AllocError>
    requires { at ≤ length whole.now.entries }
    ensures { IfOk result (λ part. IsBeginning part whole.now at) }
{
    let head = whole.head().copy(alloc)?;
    let mut part = Journal::new(alloc, head)?;
    match replay_to(alloc, &mut part, whole, at) {
        Ok(()) => Ok(part),
        Err(AllocError) => {
            drop(part);
            Err(AllocError)
        }
    }
}

/// Adds entries of the whole journal to its beginning, until that has so many. An `Err` is want of memory.
pub fn replay_to(
    alloc: Global,
    part: &mut Journal,
    whole: &Journal,
    at: u64,
) -> Result<(), AllocError>
    requires begun { IsBeginning part.old whole.now (length part.old.entries) }
    requires later { length part.old.entries ≤ at }
    requires within { at ≤ length whole.now.entries }
    ensures { OnOk result (IsBeginning part.new whole.now at) }
{
    let entries = whole.entries().as_slice();
    let _legal = whole.count();
    for index in part.count()..at {
        append_copy(alloc, part, &entries[index as usize])?;
    }
    Ok(())
}

/// Adds a copy of an entry that is accepted. An `Err` is want of memory.
fn append_copy(alloc: Global, journal: &mut Journal, entry: &Entry) -> Result<(), AllocError>
    requires { IsAccepted journal.old.head (state_after journal.old) (entry_tree entry.now) }
    ensures head { OnOk result (journal.new.head ≡ journal.old.head) }
    ensures entries { OnOk result
        (entry_trees journal.new.entries ≡ entry_trees journal.old.entries ++ entry_tree entry.now ∷ []) }
    ensures count { OnOk result (length journal.new.entries ≡ length journal.old.entries + 1) }
{
    let spare = journal.reserve(&entry.event)?;
    match entry.event.copy(alloc) {
        Ok(event) => {
            journal.append(entry.session, entry.principal, event, spare);
            Ok(())
        }
        Err(AllocError) => {
            drop(spare);
            Err(AllocError)
        }
    }
}
