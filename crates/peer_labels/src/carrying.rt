//! Labels that a peer says.
ghost use Rattle.std.specs.Prelude.{◌≡◌, ◌<◌, ◌++◌, ℕ, IfErr, IfOk, List, OnErr, length, map, take};
ghost use Rattle.nal_term.specs.Trees.{formula_tree};
ghost use Rattle.policy_history.specs.Events.{EntryTree};
ghost use Rattle.policy_history.specs.Values.{entry_trees, greatest_of};
ghost use Rattle.peer_labels.specs.Carrying.{AreSaidByPeer, Carries};
ghost use Rattle.peer_labels.specs.Inner.Saying.{IsSaidOrRefused};

use crate::bundles::Bundle;
use nal_term::{Formula, Term};
use policy_history::{Event, Journal};
use std::alloc::{AllocError, Global};

/// How many labels of a bundle the journal accepted, and how many it refused.
#[derive(Clone, Copy, Debug, PartialEq, Eq)]
pub struct Carried {
    pub done: u64,
    pub refused: u64,
}

/// Says the labels of a bundle in the name of a peer, in order, in a session that the journal has not yet: each one that is accepted
/// is its next entry. So every label that is new stands as `peer says F`, held by the peer, for an F of the bundle. An `Err` is want of
/// memory: the labels of a proper front of the bundle were handled then. `docs/LOGIC.md`, "Peers", says what a peer can vouch for.
pub fn carry(
    alloc: Global,
    bundle: &Bundle,
    journal: &mut Journal,
    session: u64,
    peer: u32,
) -> Result<Carried, AllocError>
    requires peer { peer < length journal.old.head.principals }
    requires session { greatest_of (entry_trees journal.old.entries) < session }
    ensures head { journal.new.head ≡ journal.old.head }
    ensures ok { IfOk result (λ carried. (added : List EntryTree) × (length added ≡ carried.done)
        × (entry_trees journal.new.entries ≡ entry_trees journal.old.entries ++ added)
        × Carries journal.old.head session peer (entry_trees journal.old.entries)
        (map formula_tree bundle.now) added carried.refused) }
    ensures err { IfErr result (λ _. (n : ℕ) × (n < length bundle.now) × (added : List EntryTree) × (refused : ℕ)
        × (entry_trees journal.new.entries ≡ entry_trees journal.old.entries ++ added)
        × Carries journal.old.head session peer (entry_trees journal.old.entries)
        (take n (map formula_tree bundle.now)) added refused) }
    ensures said { AreSaidByPeer journal.old.head peer (map formula_tree bundle.now)
        (entry_trees journal.old.entries) (entry_trees journal.new.entries) }
{
    let mut carried = Carried {
        done: 0,
        refused: 0,
    };
    for label in bundle.labels() {
        if say(alloc, label, journal, session, peer)? {
            carried.done += 1;
        } else {
            carried.refused += 1;
        }
    }
    Ok(carried)
}

/// Says a label in the name of a peer: whether it is accepted, and then it is the next entry. An `Err` is want of memory, and changes
/// nothing.
fn say(
    alloc: Global,
    label: &Formula,
    journal: &mut Journal,
    session: u64,
    peer: u32,
) -> Result<bool, AllocError>
    requires { peer < length journal.old.head.principals }
    ensures head { journal.new.head ≡ journal.old.head }
    ensures ok { IfOk result (IsSaidOrRefused journal.old.head session peer (formula_tree label.now)
        (entry_trees journal.old.entries) (entry_trees journal.new.entries)) }
    ensures err { OnErr result (journal.new.entries ≡ journal.old.entries) }
{
    let name = journal.head().principals.name(peer).copy(alloc)?;
    let event = Event::Say {
        principal: Some(Term::Name(name)),
        formula: Some(label.copy(alloc)?),
    };
    if journal.decide(session, peer, &event).is_err() {
        return Ok(false);
    }
    let spare = journal.reserve(&event)?;
    journal.append(session, peer, event, spare);
    Ok(true)
}
