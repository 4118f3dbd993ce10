// Substitutions that were worked out by hand.
use crate::rows::{Call, play, refused};
use nal_parse::parse_formula;
use nal_subst::{Match, SubstError, instance, substitute};
use nal_term::{Formula, Name, Term, equal};
use std::alloc::{AllocError, Global};

// `(f) and ?x = t and (g)`: whether g is the instance of f with t for x, and whether the substitution makes g, or why it makes none.
const ROWS: &str =
    "(forall ?x : p(?x, ?y)) and ?y = alice and (forall ?x : p(?x, alice)) -> Yes true
(forall ?x : p(?x, ?y)) and ?y = alice and (forall ?x : p(?x, ?y)) -> No false
(forall ?x : p(?x, ?y)) and ?y = ?y and (forall ?x : p(?x, ?y)) -> Yes true
(forall ?x : p(?x, ?y)) and ?y = ?x and (forall ?x : p(?x, ?x)) -> Capture Capture
(forall ?x : p(?x, ?y)) and ?y = ?x and true -> Capture Capture
(forall ?x : p(?x, ?y)) and ?x = alice and (forall ?x : p(?x, ?y)) -> Yes true
(forall ?x : p(?x, ?x)) and ?x = alice and (forall ?x : p(?x, ?x)) -> Yes true
(forall ?x : p(?x, alice)) and ?y = ?x and (forall ?x : p(?x, alice)) -> Yes true
(forall ?x : p(?x, alice)) and ?y = ?x and (forall ?x : p(?x, ?y)) -> No false";

struct Substituted;

impl Call for Substituted {
    fn told(alloc: Global, input: &[u8]) -> Result<String, AllocError> {
        match parse_formula(alloc, input) {
            Ok(row) => told_of(alloc, &row),
            Err(error) => refused(alloc, error),
        }
    }
}

fn told_of(alloc: Global, row: &Formula) -> Result<String, AllocError> {
    if let Formula::And(left, g) = row
        && let Formula::And(f, test) = &**left
        && let Formula::Test(_, Term::Var(x), t) = &**test
    {
        return both_answers(alloc, f, x, t, g);
    }
    String::from_str(alloc, "no such row")
}

fn both_answers(
    alloc: Global,
    f: &Formula,
    x: &Name,
    t: &Term,
    g: &Formula,
) -> Result<String, AllocError> {
    let found = match instance(f, x, t, g) {
        Match::Yes => "Yes",
        Match::No => "No",
        Match::Capture => "Capture",
    };
    let made = match substitute(alloc, f, x, t) {
        Ok(made) => told_of_made(&made, g),
        Err(SubstError::Capture) => "Capture",
        Err(SubstError::Memory) => "Memory",
    };
    format!(in alloc; "{found} {made}")
}

fn told_of_made(made: &Formula, g: &Formula) -> &'static str {
    if equal(made, g) { "true" } else { "false" }
}

#[test]
fn substitutions(rt: HostRuntime) {
    play::<Substituted>(&rt, rt.alloc(), ROWS);
}
