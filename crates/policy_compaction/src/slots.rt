//! What an entry leaves, and whose earlier deeds it undoes, as the keys of a set.
ghost use Rattle.std.specs.Prelude.{◌≡◌, IfOk, Some, option_map};
ghost use Rattle.std.specs.Cmp.{partial_equiv_from_equiv};
ghost use Rattle.nal_term.specs.Trees.{term_tree};
ghost use Rattle.policy_history.specs.Events.{entry_tree};
ghost use Rattle.policy_compaction.specs.Slots.{left_by};
ghost use Rattle.policy_compaction.specs.Slots as tree;
ghost use Rattle.policy_compaction.specs.Inner.SlotKeys.{same_slots, same_slots-writes, slot_tree, slot_writes, slots_equiv};
ghost use Rattle.policy_compaction.specs.Inner.Undoing.{undone_by};

use nal_term::{Name, Term};
use policy_history::{Entry, Event};
use std::alloc::{AllocError, Global};
use std::hash::{Hash, Hasher};

/// Where an entry leaves something.
#[derive(Drop)]
pub enum Slot {
    Object {
        name: Name,
    },
    Goal {
        op: Name,
        object: Name,
    },
    Proof {
        principal: u32,
        op: Name,
        object: Name,
    },
    Port {
        principal: Term,
    },
    Label {
        number: u64,
    },
}

/// Where the entry with this number leaves something; None where it leaves nothing. An `Err` is want of memory.
pub fn left_by(alloc: Global, number: u64, entry: &Entry) -> Result<Option<Slot>, AllocError>
    ensures { IfOk result (λ slot. option_map slot_tree slot ≡ left_by number (entry_tree entry.now)) }
{
    match &entry.event {
        Event::NewObject { name } => Ok(Some(Slot::Object {
            name: name.copy(alloc)?,
        })),
        Event::SetGoal { op, object, .. } => goal_slot(alloc, op, object),
        Event::SetProof { op, object, .. } => proof_slot(alloc, entry.principal, op, object),
        Event::Bind { principal, .. } => port_slot(alloc, principal),
        Event::Say { .. } => Ok(Some(Slot::Label { number })),
        Event::Transfer { number, .. } => Ok(Some(Slot::Label { number: *number })),
        _ => Ok(None),
    }
}

/// What earlier entries left there, the entry undoes; None where it undoes nothing. An `Err` is want of memory.
pub fn undone_by(alloc: Global, entry: &Entry) -> Result<Option<Slot>, AllocError>
    ensures { IfOk result (λ slot. option_map slot_tree slot ≡ undone_by (entry_tree entry.now)) }
{
    match &entry.event {
        Event::SetGoal { op, object, .. } | Event::ClearGoal { op, object } => {
            goal_slot(alloc, op, object)
        }
        Event::SetProof { op, object, .. } | Event::ClearProof { op, object } => {
            proof_slot(alloc, entry.principal, op, object)
        }
        Event::Bind { principal, .. } | Event::Unbind { principal } => port_slot(alloc, principal),
        Event::Delete { number } => Ok(Some(Slot::Label { number: *number })),
        _ => Ok(None),
    }
}

fn goal_slot(alloc: Global, op: &Name, object: &Name) -> Result<Option<Slot>, AllocError>
    ensures { IfOk result (λ slot. option_map slot_tree slot ≡ Some (tree.goal_slot op.now object.now)) }
{
    Ok(Some(Slot::Goal {
        op: op.copy(alloc)?,
        object: object.copy(alloc)?,
    }))
}

fn proof_slot(
    alloc: Global,
    principal: u32,
    op: &Name,
    object: &Name,
) -> Result<Option<Slot>, AllocError>
    ensures { IfOk result (λ slot. option_map slot_tree slot ≡ Some (tree.proof_slot principal op.now object.now)) }
{
    Ok(Some(Slot::Proof {
        principal,
        op: op.copy(alloc)?,
        object: object.copy(alloc)?,
    }))
}

fn port_slot(alloc: Global, principal: &Option<Term>) -> Result<Option<Slot>, AllocError>
    ensures { IfOk result (λ slot. option_map slot_tree slot
        ≡ option_map tree.port_slot (option_map term_tree principal.now)) }
{
    match principal {
        None => Ok(None),
        Some(principal) => Ok(Some(Slot::Port {
            principal: principal.copy(alloc)?,
        })),
    }
}

impl PartialEq for Slot {
    ghost eq = { λ a b. same_slots (slot_tree a) (slot_tree b) };

    ghost laws = { partial_equiv_from_equiv slots_equiv };

    fn eq(&self, other: &Slot) -> bool {
        match (self, other) {
            (Slot::Object { name: x }, Slot::Object { name: y }) => x == y,
            (Slot::Goal { op: x, object: o }, Slot::Goal { op: y, object: p }) => x == y && o == p,
            (
                Slot::Proof {
                    principal: n,
                    op: x,
                    object: o,
                },
                Slot::Proof {
                    principal: m,
                    op: y,
                    object: p,
                },
            ) => n == m && (x == y && o == p),
            (Slot::Port { principal: t }, Slot::Port { principal: u }) => t == u,
            (Slot::Label { number: n }, Slot::Label { number: m }) => n == m,
            _ => false,
        }
    }
}

impl Eq for Slot {
    ghost laws = { slots_equiv };
}

impl Hash for Slot {
    ghost hash_input = { λ s. slot_writes (slot_tree s) };

    ghost respects_eq = { same_slots-writes };

    fn hash<H: Hasher>(&self, state: &mut H) {
        match self {
            Slot::Object { name } => {
                state.write_u8(0);
                name.hash(state);
            }
            Slot::Goal { op, object } => {
                state.write_u8(1);
                op.hash(state);
                object.hash(state);
            }
            Slot::Proof {
                principal,
                op,
                object,
            } => {
                state.write_u8(2);
                state.write_u32(*principal);
                op.hash(state);
                object.hash(state);
            }
            Slot::Port { principal } => {
                state.write_u8(3);
                principal.hash(state);
            }
            Slot::Label { number } => {
                state.write_u8(4);
                state.write_u64(*number);
            }
        }
    }
}
