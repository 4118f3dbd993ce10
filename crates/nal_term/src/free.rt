ghost use Rattle.std.specs.Prelude.{◌≡◌, ◌↔◌, ◌+◌, ◌<◌, ◌≤◌, IsTrue};
ghost use Rattle.nal_term.specs.Closed.{bound_names, is_among, covers, covers_term, covers_terms};
ghost use Rattle.nal_term.specs.Free.{IsClosed, IsClosedBut, IsClosedTerm, is_free_in, occurs_in, occurs_in_some};
ghost use Rattle.nal_term.specs.Size.{node_count, term_list_node_count, term_node_count};
ghost use Rattle.nal_term.specs.Trees.{formula_tree, term_tree, term_trees};

use crate::formulas::Formula;
use crate::names::Name;
use crate::steps::Steps;
use crate::terms::Term;
use std::marker::Brand;
use std::sync::ledger::{Blank, Ledger};

/// The variables that the quantifiers around a place bind, the innermost one first.
#[derive(Clone, Copy)]
enum Bound<'a> {
    Nothing,
    More(&'a Name, &'a Bound<'a>),
}

impl Bound<'_> {
    fn holds(&self, name: &Name) -> bool
        ensures { result ≡ is_among (bound_names self.now) name.now }
    {
        match self {
            Bound::Nothing => false,
            Bound::More(first, rest) => name.as_slice() == first.as_slice() || rest.holds(name),
        }
    }
}

/// Whether no variable is free in the formula: each stands below a quantifier over it. It takes no
/// memory.
pub fn is_closed(f: &Formula) -> bool
    ensures { IsTrue result ↔ IsClosed (formula_tree f.now) }
{
    covers_uncounted::<Brand>(f, &Bound::Nothing, Blank::new(1))
}

/// Whether no variable but `x` is free in the formula; `x` itself may be free or not. It takes no
/// memory.
pub fn is_closed_but(f: &Formula, x: &Name) -> bool
    ensures { IsTrue result ↔ IsClosedBut x.now (formula_tree f.now) }
{
    covers_uncounted::<Brand>(f, &Bound::More(x, &Bound::Nothing), Blank::new(1))
}

/// Whether no variable occurs in the term. It takes no memory.
pub fn is_closed_term(t: &Term) -> bool
    ensures { IsTrue result ↔ IsClosedTerm (term_tree t.now) }
{
    covers_term_uncounted::<Brand>(t, &Bound::Nothing, Blank::new(1))
}

/// Whether the variable is free in the formula: it occurs outside the quantifiers over it. It takes
/// no memory.
pub fn free_in(f: &Formula, x: &Name) -> bool
    ensures { result ≡ is_free_in x.now (formula_tree f.now) }
{
    free_in_uncounted::<Brand>(f, x, Blank::new(1))
}

/// As `is_closed`, with a step for each node that it looks at, up to the first variable that is free.
pub fn is_closed_counted<L: Ledger>(f: &Formula, steps: &mut Steps<L>) -> bool
    ensures closed { IsTrue result ↔ IsClosed (formula_tree f.now) }
    ensures least { steps.old + 1 ≤ steps.new }
    ensures most { steps.new ≤ steps.old + node_count (formula_tree f.now) }
    ensures all { IsTrue result → steps.new ≡ steps.old + node_count (formula_tree f.now) }
{
    covers(f, &Bound::Nothing, steps)
}

/// As `free_in`, with a step for each node that it looks at, up to the first place where the variable
/// is free; below a quantifier over the variable it looks at none.
pub fn free_in_counted<L: Ledger>(f: &Formula, x: &Name, steps: &mut Steps<L>) -> bool
    ensures value { result ≡ is_free_in x.now (formula_tree f.now) }
    ensures least { steps.old + 1 ≤ steps.new }
    ensures most { steps.new ≤ steps.old + node_count (formula_tree f.now) }
{
    steps.tick();
    match f {
        Formula::True | Formula::False => false,
        Formula::Atom(_, ts) => occurs_in_some(ts.as_slice(), x, steps),
        Formula::Test(_, t, u) => occurs_in(t, x, steps) || occurs_in(u, x, steps),
        Formula::And(g, h) | Formula::Or(g, h) | Formula::Implies(g, h) => {
            free_in_counted(g, x, steps) || free_in_counted(h, x, steps)
        }
        Formula::Forall(y, g) | Formula::Exists(y, g) => {
            x.as_slice() != y.as_slice() && free_in_counted(g, x, steps)
        }
        Formula::Says(t, g) => occurs_in(t, x, steps) || free_in_counted(g, x, steps),
        Formula::SpeaksFor(t, u) | Formula::SpeaksForOn(t, u, _) => {
            occurs_in(t, x, steps) || occurs_in(u, x, steps)
        }
    }
}

// The counted call, with a counter that nothing reads.
fn free_in_uncounted<L: Ledger>(f: &Formula, x: &Name, blank: Blank) -> bool
    requires name { blank.name ≡ L.name }
    requires parts { blank.parts ≡ L.parts }
    requires some { 0 < blank.parts }
    ensures { result ≡ is_free_in x.now (formula_tree f.now) }
{
    let mut steps = Steps::<L>::start(blank);
    free_in_counted(f, x, &mut steps)
}

// Whether the variable occurs in the term.
fn occurs_in<L: Ledger>(t: &Term, x: &Name, steps: &mut Steps<L>) -> bool
    ensures value { result ≡ occurs_in x.now (term_tree t.now) }
    ensures least { steps.old + 1 ≤ steps.new }
    ensures most { steps.new ≤ steps.old + term_node_count (term_tree t.now) }
{
    steps.tick();
    match t {
        Term::Number(_) | Term::Name(_) | Term::Text(_) => false,
        Term::Var(y) => x.as_slice() == y.as_slice(),
        Term::Sub(u, _) => occurs_in(u, x, steps),
    }
}

// Whether the variable occurs in one of the terms.
fn occurs_in_some<L: Ledger>(ts: &[Term], x: &Name, steps: &mut Steps<L>) -> bool
    ensures value { result ≡ occurs_in_some x.now (term_trees ts.now) }
    ensures least { steps.old ≤ steps.new }
    ensures most { steps.new ≤ steps.old + term_list_node_count (term_trees ts.now) }
{
    match ts.split_first() {
        None => false,
        Some((first, rest)) => occurs_in(first, x, steps) || occurs_in_some(rest, x, steps),
    }
}

// The counted call, with a counter that nothing reads.
fn covers_uncounted<'a, L: Ledger>(f: &'a Formula, bound: &'a Bound<'a>, blank: Blank) -> bool
    requires name { blank.name ≡ L.name }
    requires parts { blank.parts ≡ L.parts }
    requires some { 0 < blank.parts }
    ensures { result ≡ covers (bound_names bound.now) (formula_tree f.now) }
{
    let mut steps = Steps::<L>::start(blank);
    covers(f, bound, &mut steps)
}

// Whether each free variable of the formula is bound around it.
fn covers<'a, L: Ledger>(f: &'a Formula, bound: &'a Bound<'a>, steps: &mut Steps<L>) -> bool
    ensures value { result ≡ covers (bound_names bound.now) (formula_tree f.now) }
    ensures least { steps.old + 1 ≤ steps.new }
    ensures most { steps.new ≤ steps.old + node_count (formula_tree f.now) }
    ensures all { IsTrue result → steps.new ≡ steps.old + node_count (formula_tree f.now) }
{
    steps.tick();
    match f {
        Formula::True | Formula::False => true,
        Formula::Atom(_, ts) => covers_terms(ts.as_slice(), bound, steps),
        Formula::And(g, h) | Formula::Or(g, h) | Formula::Implies(g, h) => {
            covers(g, bound, steps) && covers(h, bound, steps)
        }
        Formula::Forall(x, g) | Formula::Exists(x, g) => covers(g, &Bound::More(x, bound), steps),
        Formula::Says(t, g) => covers_term(t, bound, steps) && covers(g, bound, steps),
        Formula::Test(_, t, u) | Formula::SpeaksFor(t, u) | Formula::SpeaksForOn(t, u, _) => {
            covers_term(t, bound, steps) && covers_term(u, bound, steps)
        }
    }
}

// The counted call, with a counter that nothing reads.
fn covers_term_uncounted<L: Ledger>(t: &Term, bound: &Bound<'_>, blank: Blank) -> bool
    requires name { blank.name ≡ L.name }
    requires parts { blank.parts ≡ L.parts }
    requires some { 0 < blank.parts }
    ensures { result ≡ covers_term (bound_names bound.now) (term_tree t.now) }
{
    let mut steps = Steps::<L>::start(blank);
    covers_term(t, bound, &mut steps)
}

// Whether each variable of the term is bound around it.
fn covers_term<L: Ledger>(t: &Term, bound: &Bound<'_>, steps: &mut Steps<L>) -> bool
    ensures value { result ≡ covers_term (bound_names bound.now) (term_tree t.now) }
    ensures least { steps.old + 1 ≤ steps.new }
    ensures most { steps.new ≤ steps.old + term_node_count (term_tree t.now) }
    ensures all { IsTrue result → steps.new ≡ steps.old + term_node_count (term_tree t.now) }
{
    steps.tick();
    match t {
        Term::Number(_) | Term::Name(_) | Term::Text(_) => true,
        Term::Var(x) => bound.holds(x),
        Term::Sub(u, _) => covers_term(u, bound, steps),
    }
}

// Whether each variable of the terms is bound around them.
fn covers_terms<L: Ledger>(ts: &[Term], bound: &Bound<'_>, steps: &mut Steps<L>) -> bool
    ensures value { result ≡ covers_terms (bound_names bound.now) (term_trees ts.now) }
    ensures least { steps.old ≤ steps.new }
    ensures most { steps.new ≤ steps.old + term_list_node_count (term_trees ts.now) }
    ensures all { IsTrue result → steps.new ≡ steps.old + term_list_node_count (term_trees ts.now) }
{
    match ts.split_first() {
        None => true,
        Some((first, rest)) => {
            covers_term(first, bound, steps) && covers_terms(rest, bound, steps)
        }
    }
}
