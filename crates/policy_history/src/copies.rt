//! The memory that an event wants before it is added.
ghost use Rattle.std.specs.Prelude.{◌≡◌, ℕ, List, IfOk, option_map};
ghost use Rattle.nal_term.specs.Trees.{formula_tree, says, term_tree};
ghost use Rattle.proof_lines.specs.Lines.{line_trees};
ghost use Rattle.policy_history.specs.Inner.Copies.{AreCopies};
ghost use Rattle.policy_history.specs.Events.{event_tree};
ghost use Rattle.policy_history.specs.Events as tree;

use crate::events::Event;
use nal_term::{Formula, Name, Term};
use proof_lines::Proof;
use std::alloc::{AllocError, Global};

/// What the row of an event holds, apart from numbers.
#[derive(Drop)]
pub enum Copies {
    Nothing,
    /// A label, whose statement is the event's.
    Label(Formula),
    Object(Name),
    Goal(Name, Formula),
    Proof(Name, Proof),
    Port(Term),
}

impl Copies {
    /// The copies that the event's row wants. An `Err` says that there was no memory for them.
    pub fn of(alloc: Global, event: &Event) -> Result<Copies, AllocError>
        ensures { IfOk result (λ copies. AreCopies copies (event_tree event.now)) }
    {
        match event {
            Event::Say { principal, formula } => Copies::of_say(alloc, principal, formula),
            Event::NewObject { name } => Ok(Copies::Object(name.copy(alloc)?)),
            Event::SetGoal {
                op,
                object: _,
                goal,
            } => Copies::of_goal(alloc, op, goal),
            Event::SetProof {
                op,
                object: _,
                proof,
            } => Copies::of_proof(alloc, op, proof),
            Event::Bind { principal, port: _ } => Copies::of_port(alloc, principal),
            Event::Transfer { .. } | Event::Delete { .. } | Event::ClearGoal { .. } => Ok(
                Copies::Nothing,
            ),
            Event::ClearProof { .. } | Event::Unbind { .. } => Ok(Copies::Nothing),
        }
    }

    fn of_say(
        alloc: Global,
        principal: &Option<Term>,
        formula: &Option<Formula>,
    ) -> Result<Copies, AllocError>
        ensures { IfOk result
            (λ copies. AreCopies copies
            (tree.say (option_map term_tree principal.now) (option_map formula_tree formula.now))) }
    {
        match (principal, formula) {
            (Some(principal), Some(formula)) => Ok(Copies::Label(label(
                alloc, principal, formula,
            )?)),
            (None, _) => Ok(Copies::Nothing),
            (_, None) => Ok(Copies::Nothing),
        }
    }

    fn of_goal(alloc: Global, op: &Name, goal: &Option<Formula>) -> Result<Copies, AllocError>
        ensures { IfOk result
            (λ copies. (object : List ℕ)
            → AreCopies copies (tree.set_goal op.now object (option_map formula_tree goal.now))) }
    {
        match goal {
            None => Ok(Copies::Nothing),
            Some(goal) => Ok(Copies::Goal(op.copy(alloc)?, goal.copy(alloc)?)),
        }
    }

    fn of_proof(alloc: Global, op: &Name, proof: &Option<Proof>) -> Result<Copies, AllocError>
        ensures { IfOk result
            (λ copies. (object : List ℕ)
            → AreCopies copies (tree.set_proof op.now object (option_map line_trees proof.now))) }
    {
        match proof {
            None => Ok(Copies::Nothing),
            Some(proof) => Ok(Copies::Proof(op.copy(alloc)?, proof.copy(alloc)?)),
        }
    }

    fn of_port(alloc: Global, principal: &Option<Term>) -> Result<Copies, AllocError>
        ensures { IfOk result
            (λ copies. (port : ℕ) → AreCopies copies (tree.bind (option_map term_tree principal.now) port)) }
    {
        match principal {
            None => Ok(Copies::Nothing),
            Some(principal) => Ok(Copies::Port(principal.copy(alloc)?)),
        }
    }
}

// The label that the principal says the formula.
fn label(alloc: Global, principal: &Term, formula: &Formula) -> Result<Formula, AllocError>
    ensures { IfOk result (λ label. formula_tree label ≡ says (term_tree principal.now) (formula_tree formula.now)) }
{
    let principal = principal.copy(alloc)?;
    Ok(Formula::Says(principal, Box::new(alloc, formula.copy(alloc)?)?))
}
