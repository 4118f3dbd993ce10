// The machine at the start of a load.
ghost use Rattle.std.specs.Prelude.{◌≡◌, ◌<◌, ◌++◌, ◌∷◌, [], length, codes, IfOk, OnOk, Some};
ghost use Rattle.nal_term.specs.Trees.{formula_tree, term_tree};
ghost use Rattle.proof_lines.specs.Lines.{line_trees};
ghost use Rattle.policy_history.specs.Events.{event_tree, new_object, say, set_goal, set_proof};
ghost use Rattle.policy_history.specs.Values.{entry_trees};
ghost use Rattle.nexus_drill.specs.Loads.{alice, label, label_proof, ok, opening, opening_head};

use nal_term::{Args, Formula, Name, Secret, Term};
use policy_history::{Authorities, Event, Head, Journal, Principal, Principals};
use proof_lines::{Line, Proof, Refs, Rule};
use std::alloc::{AllocError, Global};

/// The journal at the start of a load. An `Err` is want of memory. `docs/FORMATS.md`, "Generated load", states it.
pub fn opening(alloc: Global) -> Result<Journal, AllocError>
    ensures head { IfOk result (λ journal. journal.head ≡ opening_head) }
    ensures entries { IfOk result (λ journal. entry_trees journal.entries ≡ opening) }
{
    let mut journal = Journal::new(alloc, head(alloc)?)?;
    match begin(alloc, &mut journal) {
        Ok(()) => Ok(journal),
        Err(AllocError) => {
            drop(journal);
            Err(AllocError)
        }
    }
}

// The four entries of the start.
fn begin(alloc: Global, journal: &mut Journal) -> Result<(), AllocError>
    requires head { journal.old.head ≡ opening_head }
    requires empty { journal.old.entries ≡ [] }
    ensures head { OnOk result (journal.new.head ≡ opening_head) }
    ensures entries { OnOk result (entry_trees journal.new.entries ≡ opening) }
{
    let object = object(alloc)?;
    add(journal, object)?;
    let goal = goal(alloc)?;
    add(journal, goal)?;
    let label = say(alloc)?;
    add(journal, label)?;
    let proof = registered(alloc)?;
    add(journal, proof)
}

fn object(alloc: Global) -> Result<Event, AllocError>
    ensures { IfOk result (λ event. event_tree event ≡ new_object (codes "f")) }
{
    Ok(Event::NewObject {
        name: name(alloc, "f")?,
    })
}

fn goal(alloc: Global) -> Result<Event, AllocError>
    ensures { IfOk result (λ event. event_tree event ≡ set_goal (codes "read") (codes "f") (Some label)) }
{
    Ok(Event::SetGoal {
        op: name(alloc, "read")?,
        object: name(alloc, "f")?,
        goal: Some(label(alloc)?),
    })
}

fn registered(alloc: Global) -> Result<Event, AllocError>
    ensures { IfOk result (λ event. event_tree event ≡ set_proof (codes "read") (codes "f") (Some label_proof)) }
{
    Ok(Event::SetProof {
        op: name(alloc, "read")?,
        object: name(alloc, "f")?,
        proof: Some(proof(alloc)?),
    })
}

// One more entry of alice in session 1. It has to be accepted, as those of the start are.
fn add(journal: &mut Journal, event: Event) -> Result<(), AllocError>
    requires principal { 0 < length journal.old.head.principals }
    ensures head { journal.new.head ≡ journal.old.head }
    ensures entries { OnOk result
        (entry_trees journal.new.entries ≡ entry_trees journal.old.entries
        ++ (record { session = 1; principal = 0; event = event_tree event }) ∷ []) }
{
    if journal.decide(1, 0, &event).is_err() {
        drop(event);
        return Err(AllocError);
    }
    let Ok(spare) = journal.reserve(&event) else {
        drop(event);
        return Err(AllocError);
    };
    let _due = journal.append(1, 0, event, spare);
    Ok(())
}

/// Alice says ok.
pub fn say(alloc: Global) -> Result<Event, AllocError>
    ensures { IfOk result (λ event. event_tree event ≡ say (Some alice) (Some ok)) }
{
    Ok(Event::Say {
        principal: Some(alice(alloc)?),
        formula: Some(ok(alloc)?),
    })
}

// The head, with alice alone.
fn head(alloc: Global) -> Result<Head, AllocError>
    ensures { IfOk result (λ head. head ≡ opening_head) }
{
    let mut principals = Principals::new(alloc);
    let alice = Principal {
        name: name(alloc, "alice")?,
        secret: secret(alloc)?,
    };
    match principals.push(alice) {
        Ok(()) => Ok(Head {
            principals,
            authorities: Authorities::new(alloc),
        }),
        Err(_) => Err(AllocError),
    }
}

fn secret(alloc: Global) -> Result<Secret, AllocError>
    ensures { IfOk result (λ secret. secret ≡ codes "pa") }
{
    match Secret::of(alloc, b"pa") {
        Ok(secret) => Ok(secret),
        Err(_) => Err(AllocError),
    }
}

/// The name of a text, which is one.
pub fn name(alloc: Global, text: &str) -> Result<Name, AllocError>
    ensures { IfOk result (λ name. name ≡ text.now) }
{
    match Name::of(alloc, text.as_bytes()) {
        Ok(name) => Ok(name),
        Err(_) => Err(AllocError),
    }
}

fn alice(alloc: Global) -> Result<Term, AllocError>
    ensures { IfOk result (λ term. term_tree term ≡ alice) }
{
    Ok(Term::Name(name(alloc, "alice")?))
}

fn ok(alloc: Global) -> Result<Formula, AllocError>
    ensures { IfOk result (λ formula. formula_tree formula ≡ ok) }
{
    Ok(Formula::Atom(name(alloc, "ok")?, Args::new(alloc)))
}

// The label `alice says ok`.
fn label(alloc: Global) -> Result<Formula, AllocError>
    ensures { IfOk result (λ formula. formula_tree formula ≡ label) }
{
    let alice = alice(alloc)?;
    Ok(Formula::Says(alice, Box::new(alloc, ok(alloc)?)?))
}

// The proof of one line that is the label.
fn proof(alloc: Global) -> Result<Proof, AllocError>
    ensures { IfOk result (λ proof. line_trees proof ≡ label_proof) }
{
    let Some(refs) = Refs::of(&[]) else {
        unreachable!();
    };
    let mut proof = Proof::new(alloc);
    let line = Line {
        rule: Rule::Label,
        refs,
        term: None,
        formula: label(alloc)?,
    };
    match proof.push(line) {
        Ok(()) => Ok(proof),
        Err(_) => Err(AllocError),
    }
}
