//! How long the line of an entry is in a policy text.
ghost use Rattle.std.specs.Prelude.{◌≡◌, ◌+◌, ◌-◌, ◌^◌, length, min, option_map};
ghost use Rattle.nal_term.specs.Trees.{formula_tree, term_tree};
ghost use Rattle.proof_lines.specs.Lines.{line_trees};
ghost use Rattle.policy_history.specs.Events.{event_tree};
ghost use Rattle.policy_history.specs.Events as tree;
ghost use Rattle.policy_history.specs.PolicyLines.{entry_line, event_text};

use crate::events::Event;
use nal_parse::{digit_count, term_length, text_length};
use nal_term::{Formula, Name, Term};
use proof_lines::Proof;
use proof_text::proof_length;

/// How many bytes the line of an entry has, with its line feed; `u64::MAX` where there are more. Nothing is printed.
pub fn line_length(session: u64, name: &Name, event: &Event) -> u64
    ensures { result ≡ min (length (entry_line session name.now (event_tree event.now))) (2 ^ 64 - 1) }
{
    digit_count(session)
        .saturating_add(3)
        .saturating_add(name_length(name))
        .saturating_add(event_length(event))
}

fn name_length(name: &Name) -> u64
    ensures { result ≡ length name.now }
{
    name.as_slice().len() as u64
}

fn event_length(event: &Event) -> u64
    ensures { result ≡ min (length (event_text (event_tree event.now))) (2 ^ 64 - 1) }
{
    match event {
        Event::Say { principal, formula } => say_length(principal, formula),
        Event::Transfer { number, to } => digit_count(*number)
            .saturating_add(10)
            .saturating_add(name_length(to)),
        Event::Delete { number } => digit_count(*number).saturating_add(7),
        Event::NewObject { name } => name_length(name).saturating_add(7),
        Event::SetGoal { op, object, goal } => goal_length(op, object, goal),
        Event::ClearGoal { op, object } => pair_length(op, object).saturating_add(7),
        Event::SetProof { op, object, proof } => set_proof_length(op, object, proof),
        Event::ClearProof { op, object } => pair_length(op, object).saturating_add(8),
        Event::Bind { principal, port } => bind_length(principal, *port),
        Event::Unbind { principal } => unbind_length(principal),
    }
}

// Two names and the space between them.
fn pair_length(op: &Name, object: &Name) -> u64
    ensures { result ≡ min (length op.now + 1 + length object.now) (2 ^ 64 - 1) }
{
    name_length(op)
        .saturating_add(1)
        .saturating_add(name_length(object))
}

fn say_length(principal: &Option<Term>, formula: &Option<Formula>) -> u64
    ensures { result
        ≡ min
        (length (event_text (tree.say (option_map term_tree principal.now) (option_map formula_tree formula.now))))
        (2 ^ 64 - 1) }
{
    match (principal, formula) {
        (Some(principal), Some(formula)) => term_length(principal)
            .saturating_add(7)
            .saturating_add(text_length(formula)),
        _ => 0,
    }
}

fn goal_length(op: &Name, object: &Name, goal: &Option<Formula>) -> u64
    ensures { result
        ≡ min (length (event_text (tree.set_goal op.now object.now (option_map formula_tree goal.now)))) (2 ^ 64 - 1) }
{
    match goal {
        None => 0,
        Some(goal) => pair_length(op, object)
            .saturating_add(8)
            .saturating_add(text_length(goal)),
    }
}

fn set_proof_length(op: &Name, object: &Name, proof: &Option<Proof>) -> u64
    ensures { result
        ≡ min (length (event_text (tree.set_proof op.now object.now (option_map line_trees proof.now)))) (2 ^ 64 - 1) }
{
    match proof {
        None => 0,
        Some(proof) => pair_length(op, object)
            .saturating_add(9)
            .saturating_add(proof_length(proof)),
    }
}

fn bind_length(principal: &Option<Term>, port: u64) -> u64
    ensures { result ≡ min (length (event_text (tree.bind (option_map term_tree principal.now) port))) (2 ^ 64 - 1) }
{
    match principal {
        None => 0,
        Some(principal) => term_length(principal)
            .saturating_add(6)
            .saturating_add(digit_count(port)),
    }
}

fn unbind_length(principal: &Option<Term>) -> u64
    ensures { result ≡ min (length (event_text (tree.unbind (option_map term_tree principal.now)))) (2 ^ 64 - 1) }
{
    match principal {
        None => 0,
        Some(principal) => term_length(principal).saturating_add(7),
    }
}
