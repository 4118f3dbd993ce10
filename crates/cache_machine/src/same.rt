// Whether two events are the same.
ghost use Rattle.std.specs.Prelude.{◌≡◌, ◌↔◌, IsTrue, option_map};
ghost use Rattle.nal_term.specs.Trees.{formula_tree, term_tree};
ghost use Rattle.proof_lines.specs.Lines.{line_tree, line_trees};
ghost use Rattle.policy_history.specs.Events.{event_tree};

use nal_term::{Formula, Term, equal, equal_terms};
use policy_history::Event;
use proof_lines::{Line, Proof};

/// Whether two events are the same.
pub fn same_events(a: &Event, b: &Event) -> bool
    ensures { IsTrue result ↔ (event_tree a.now ≡ event_tree b.now) }
{
    match (a, b) {
        (
            Event::Say {
                principal: s,
                formula: f,
            },
            Event::Say {
                principal: t,
                formula: g,
            },
        ) => same_terms(s, t) && same_formulas(f, g),
        (Event::Transfer { number: m, to: x }, Event::Transfer { number: n, to: y }) => *m == *n
            && *x == *y,
        (Event::Delete { number: m }, Event::Delete { number: n }) => *m == *n,
        (Event::NewObject { name: x }, Event::NewObject { name: y }) => *x == *y,
        (
            Event::SetGoal {
                op: p,
                object: x,
                goal: f,
            },
            Event::SetGoal {
                op: q,
                object: y,
                goal: g,
            },
        ) => *p == *q && *x == *y && same_formulas(f, g),
        (Event::ClearGoal { op: p, object: x }, Event::ClearGoal { op: q, object: y }) => {
            *p == *q && *x == *y
        }
        (
            Event::SetProof {
                op: p,
                object: x,
                proof: f,
            },
            Event::SetProof {
                op: q,
                object: y,
                proof: g,
            },
        ) => *p == *q && *x == *y && same_proofs(f, g),
        (Event::ClearProof { op: p, object: x }, Event::ClearProof { op: q, object: y }) => {
            *p == *q && *x == *y
        }
        (
            Event::Bind {
                principal: s,
                port: m,
            },
            Event::Bind {
                principal: t,
                port: n,
            },
        ) => same_terms(s, t) && *m == *n,
        (Event::Unbind { principal: s }, Event::Unbind { principal: t }) => same_terms(s, t),
        _ => false,
    }
}

fn same_terms(a: &Option<Term>, b: &Option<Term>) -> bool
    ensures { IsTrue result ↔ (option_map term_tree a.now ≡ option_map term_tree b.now) }
{
    match (a, b) {
        (None, None) => true,
        (Some(a), Some(b)) => equal_terms(a, b),
        (None, Some(_)) => false,
        (Some(_), None) => false,
    }
}

fn same_formulas(a: &Option<Formula>, b: &Option<Formula>) -> bool
    ensures { IsTrue result ↔ (option_map formula_tree a.now ≡ option_map formula_tree b.now) }
{
    match (a, b) {
        (None, None) => true,
        (Some(a), Some(b)) => equal(a, b),
        (None, Some(_)) => false,
        (Some(_), None) => false,
    }
}

fn same_proofs(a: &Option<Proof>, b: &Option<Proof>) -> bool
    ensures { IsTrue result ↔ (option_map line_trees a.now ≡ option_map line_trees b.now) }
{
    match (a, b) {
        (None, None) => true,
        (Some(a), Some(b)) => same_lines(a.as_slice(), b.as_slice()),
        (None, Some(_)) => false,
        (Some(_), None) => false,
    }
}

fn same_lines(a: &[Line], b: &[Line]) -> bool
    ensures { IsTrue result ↔ (line_trees a.now ≡ line_trees b.now) }
{
    if a.len() != b.len() {
        return false;
    }
    for place in 0..a.len() {
        if !same_line(&a[place], &b[place]) {
            return false;
        }
    }
    true
}

fn same_line(a: &Line, b: &Line) -> bool
    ensures { IsTrue result ↔ (line_tree a.now ≡ line_tree b.now) }
{
    a.rule == b.rule
        && a.refs.as_slice() == b.refs.as_slice()
        && same_terms(&a.term, &b.term)
        && equal(&a.formula, &b.formula)
}
