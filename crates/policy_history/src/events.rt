//! What may change the policy, and what is answered to it.
ghost use Rattle.std.specs.Prelude.{◌≡◌, IfOk, option_map};
ghost use Rattle.nal_term.specs.Trees.{formula_tree, term_tree};
ghost use Rattle.proof_lines.specs.Lines.{line_trees};
ghost use Rattle.policy_history.specs.Events.{event_tree};

use nal_rules::Case;
use nal_term::{Formula, Name, Term};
use proof_lines::Proof;
use std::alloc::{AllocError, Global};

/// A change of the policy. A part that is an `Option` is None where its text spells nothing; an entry of a journal
/// never has one. `docs/FORMATS.md`, "Events and refusals", says what each does.
#[derive(Drop)]
pub enum Event {
    /// A principal, which is the caller or a part of it, says a formula.
    Say {
        principal: Option<Term>,
        formula: Option<Formula>,
    },
    /// The caller gives a label to the principal with this name.
    Transfer {
        number: u64,
        to: Name,
    },
    Delete {
        number: u64,
    },
    NewObject {
        name: Name,
    },
    SetGoal {
        op: Name,
        object: Name,
        goal: Option<Formula>,
    },
    ClearGoal {
        op: Name,
        object: Name,
    },
    SetProof {
        op: Name,
        object: Name,
        proof: Option<Proof>,
    },
    ClearProof {
        op: Name,
        object: Name,
    },
    /// The authority of this port answers for a principal, which is the caller or a part of it.
    Bind {
        principal: Option<Term>,
        port: u64,
    },
    Unbind {
        principal: Option<Term>,
    },
}

/// An accepted change: in which session it was made, by the principal with which number, and what it is.
#[derive(Drop)]
pub struct Entry {
    pub session: u64,
    pub principal: u32,
    pub event: Event,
}

/// Why a change is refused. Where several apply, the first in this order is told; the last is no answer of a journal.
/// `docs/FORMATS.md`, "Events and refusals", says exactly where each comes.
#[derive(Clone, Copy, Debug, PartialEq, Eq)]
pub enum Refusal {
    NoSuchPrincipal,
    NotYourPrincipal,
    NoSuchLabel,
    NotHolder,
    NoSuchObject,
    NameTaken,
    NotOwner,
    NoGoal,
    NoSuchProof,
    NoBinding,
    BadPort,
    BadFormula,
    BadProof,
    Quota,
    JournalFull,
    ObjectsFull,
    CasesFull,
    NotRecorded,
}

/// What an accepted change comes to: the number that is replied, and the bytes of its line in the policy text, with
/// the line feed.
#[derive(Clone, Copy, Debug, PartialEq, Eq)]
pub struct Due {
    pub number: u64,
    pub bytes: u64,
}

/// What the guard judges when an operation on an object is asked for.
#[derive(Drop)]
pub enum Found {
    /// No object has the name.
    NoObject,
    /// The case, its number, if it has one, and the number of the object.
    Case {
        case: Case,
        number: Option<u64>,
        object: u64,
    },
}

impl Event {
    /// A copy of the event. An `Err` says that there was no memory for it.
    pub fn copy(&self, alloc: Global) -> Result<Event, AllocError>
        ensures { IfOk result (λ copy. event_tree copy ≡ event_tree self.now) }
    {
        match self {
            Event::Say { principal, formula } => Ok(Event::Say {
                principal: copy_of_term(alloc, principal)?,
                formula: copy_of_formula(alloc, formula)?,
            }),
            Event::Transfer { number, to } => Ok(Event::Transfer {
                number: *number,
                to: to.copy(alloc)?,
            }),
            Event::Delete { number } => Ok(Event::Delete { number: *number }),
            Event::NewObject { name } => Ok(Event::NewObject {
                name: name.copy(alloc)?,
            }),
            Event::SetGoal { op, object, goal } => Ok(Event::SetGoal {
                op: op.copy(alloc)?,
                object: object.copy(alloc)?,
                goal: copy_of_formula(alloc, goal)?,
            }),
            Event::ClearGoal { op, object } => Ok(Event::ClearGoal {
                op: op.copy(alloc)?,
                object: object.copy(alloc)?,
            }),
            Event::SetProof { op, object, proof } => Ok(Event::SetProof {
                op: op.copy(alloc)?,
                object: object.copy(alloc)?,
                proof: copy_of_proof(alloc, proof)?,
            }),
            Event::ClearProof { op, object } => Ok(Event::ClearProof {
                op: op.copy(alloc)?,
                object: object.copy(alloc)?,
            }),
            Event::Bind { principal, port } => Ok(Event::Bind {
                principal: copy_of_term(alloc, principal)?,
                port: *port,
            }),
            Event::Unbind { principal } => Ok(Event::Unbind {
                principal: copy_of_term(alloc, principal)?,
            }),
        }
    }
}

fn copy_of_term(alloc: Global, term: &Option<Term>) -> Result<Option<Term>, AllocError>
    ensures { IfOk result (λ copy. option_map term_tree copy ≡ option_map term_tree term.now) }
{
    match term {
        None => Ok(None),
        Some(term) => Ok(Some(term.copy(alloc)?)),
    }
}

fn copy_of_formula(alloc: Global, formula: &Option<Formula>) -> Result<Option<Formula>, AllocError>
    ensures { IfOk result (λ copy. option_map formula_tree copy ≡ option_map formula_tree formula.now) }
{
    match formula {
        None => Ok(None),
        Some(formula) => Ok(Some(formula.copy(alloc)?)),
    }
}

fn copy_of_proof(alloc: Global, proof: &Option<Proof>) -> Result<Option<Proof>, AllocError>
    ensures { IfOk result (λ copy. option_map line_trees copy ≡ option_map line_trees proof.now) }
{
    match proof {
        None => Ok(None),
        Some(proof) => Ok(Some(proof.copy(alloc)?)),
    }
}
