// The steps of a check. The counter is not there when the program runs, so what it stands at is said by a
// contract, and the test runs the call.
ghost use Rattle.std.specs.Prelude.{◌≡◌, ◌+◌, ◌<◌, ◌≤◌, IfSome, IsTrue, length};
ghost use Rattle.nal_term.specs.Size.{node_count};
ghost use Rattle.nal_term.specs.Trees.{formula_tree};
ghost use Rattle.proof_check.specs.Sizes.{greatest_in};
ghost use Rattle.proof_lines.specs.Lines.{line_trees};

use nal_term::{Args, Formula, Name, Steps, Term};
use proof_check::check_counted;
use proof_lines::{Line, Proof, Refs, Rule};
use std::alloc::Global;
use std::marker::Brand;
use std::process::Abort;
use std::sync::ledger::{Blank, Ledger};

// `alice says ok`
fn statement(alloc: Global) -> Option<Formula>
    ensures { IfSome result (λ f. node_count (formula_tree f) ≡ 3) }
{
    let alice = Name::of(alloc, b"alice").ok()?;
    let ok = Name::of(alloc, b"ok").ok()?;
    let ok = Box::new(alloc, Formula::Atom(ok, Args::new(alloc))).ok()?;
    Some(Formula::Says(Term::Name(alice), ok))
}

// The proof whose one line is a label of it.
fn labelled(alloc: Global) -> Option<Proof>
    ensures one { IfSome result (λ proof. length proof ≡ 1) }
    ensures three { IfSome result (λ proof. greatest_in (line_trees proof) ≡ 3) }
{
    let refs = Refs::of(&[])?;
    let formula = statement(alloc)?;
    let line = Line {
        rule: Rule::Label,
        refs,
        term: None,
        formula,
    };
    let mut proof = Proof::new(alloc);
    match proof.push(line) {
        Ok(()) => Some(proof),
        Err(_) => None,
    }
}

// Where the check accepts, there are between 3 and 36 steps.
fn accepts<L: Ledger>(alloc: Global, proof: &Proof, goal: &Formula, steps: &mut Steps<L>) -> bool
    requires one { length proof.now ≡ 1 }
    requires three { greatest_in (line_trees proof.now) ≡ 3 }
    requires goal { node_count (formula_tree goal.now) ≡ 3 }
    ensures least { IsTrue result → steps.old + 3 ≤ steps.new }
    ensures most { steps.new ≤ steps.old + 36 }
{
    check_counted(alloc, proof, goal, steps).is_ok()
}

fn is_accepted<L: Ledger>(alloc: Global, goal: &Formula, steps: &mut Steps<L>) -> bool
    requires goal { node_count (formula_tree goal.now) ≡ 3 }
{
    match labelled(alloc) {
        Some(proof) => accepts(alloc, &proof, goal, steps),
        None => false,
    }
}

fn count_steps<L: Ledger>(rt: &impl Abort, alloc: Global, blank: Blank)
    requires name { blank.name ≡ L.name }
    requires parts { blank.parts ≡ L.parts }
    requires some { 0 < blank.parts }
{
    let mut steps = Steps::<L>::start(blank);
    let accepted = match statement(alloc) {
        Some(goal) => is_accepted(alloc, &goal, &mut steps),
        None => false,
    };
    assert!(rt; accepted);
}

#[test]
fn steps(rt: HostRuntime) {
    count_steps::<Brand>(&rt, rt.alloc(), Blank::new(1));
}
