ghost use Rattle.std.specs.Prelude.{◌≡◌, ◌↔◌, ◌+◌, ◌<◌, ◌≤◌, IfOk, IsTrue};
ghost use Rattle.nal_term.specs.Size.{node_count};
ghost use Rattle.nal_term.specs.Trees.{formula_tree, term_tree, term_trees};
ghost use Rattle.nal_term.specs.Trees as tree;

use crate::names::Name;
use crate::scopes::{Scope, equal_scopes};
use crate::steps::Steps;
use crate::terms::{Args, Term, equal_term_lists_counted, equal_terms_counted};
use std::alloc::{AllocError, Global};
use std::marker::Brand;
use std::sync::ledger::{Blank, Ledger};

/// How a comparison compares its two sides.
#[derive(Clone, Copy, Debug, PartialEq, Eq)]
pub enum Compare {
    /// The sides are the same, `=`.
    Equal,
    /// The left side is less, `<`.
    Less,
    /// The left side is less or the same, `<=`.
    AtMost,
}

/// A formula. `docs/LOGIC.md`, "Formulas", says what each means.
pub enum Formula {
    True,
    False,
    /// A predicate and its arguments.
    Atom(Name, Args),
    /// A comparison of the left term with the right one.
    Test(Compare, Term, Term),
    And(Box<Formula>, Box<Formula>),
    Or(Box<Formula>, Box<Formula>),
    /// The premise and the conclusion.
    Implies(Box<Formula>, Box<Formula>),
    /// The bound variable, and what holds of each value of it.
    Forall(Name, Box<Formula>),
    /// The bound variable, and what holds of some value of it.
    Exists(Name, Box<Formula>),
    /// The principal, and what it says.
    Says(Term, Box<Formula>),
    /// The principal that speaks, and the one that it speaks for.
    SpeaksFor(Term, Term),
    /// The same, on the names of the scope alone.
    SpeaksForOn(Term, Term, Scope),
}

impl Drop for Formula {
    // Written out, so that a caller that lets a formula go makes one call. What has two terms is let go apart, so that a level of a
    // chain takes little stack and time.
    #[cycle(drop)]
    fn drop(self) {
        match self {
            Formula::True | Formula::False => {}
            Formula::Atom(_, args) => let_args_go(args),
            Formula::And(_, _) | Formula::Or(_, _) | Formula::Implies(_, _) => {}
            Formula::Forall(_, _) | Formula::Exists(_, _) => {}
            Formula::Says(speaker, _) => let_term_go(speaker),
            other => other.let_terms_go(),
        }
    }
}

#[inline(never)]
fn let_args_go(_args: Args) {}

#[inline(never)]
fn let_term_go(_term: Term) {}

impl Formula {
    // Lets a comparison or a delegation go.
    #[inline(never)]
    #[cycle(drop)]
    fn let_terms_go(self) {
        match self {
            Formula::Test(_, _, _) | Formula::SpeaksFor(_, _) => {}
            Formula::SpeaksForOn(_, _, _) => {}
            Formula::True | Formula::False | Formula::Atom(_, _) => {}
            Formula::And(_, _) | Formula::Or(_, _) | Formula::Implies(_, _) => {}
            Formula::Forall(_, _) | Formula::Exists(_, _) | Formula::Says(_, _) => {}
        }
    }

    /// A copy of the formula. An `Err` says that there was no memory for it.
    #[cycle(copy)]
    pub fn copy(&self, alloc: Global) -> Result<Formula, AllocError>
        ensures { IfOk result (λ copy. formula_tree copy ≡ formula_tree self.now) }
    {
        match self {
            Formula::True => Ok(Formula::True),
            Formula::False => Ok(Formula::False),
            Formula::Atom(p, ts) => copied_atom(alloc, p, ts),
            Formula::Test(c, t, u) => copied_test(alloc, *c, t, u),
            Formula::And(f, g) => {
                let f = f.copy_boxed(alloc)?;
                Ok(Formula::And(f, g.copy_boxed(alloc)?))
            }
            Formula::Or(f, g) => {
                let f = f.copy_boxed(alloc)?;
                Ok(Formula::Or(f, g.copy_boxed(alloc)?))
            }
            Formula::Implies(f, g) => {
                let f = f.copy_boxed(alloc)?;
                Ok(Formula::Implies(f, g.copy_boxed(alloc)?))
            }
            Formula::Forall(x, f) => {
                let f = f.copy_boxed(alloc)?;
                Ok(Formula::Forall(x.copy(alloc)?, f))
            }
            Formula::Exists(x, f) => {
                let f = f.copy_boxed(alloc)?;
                Ok(Formula::Exists(x.copy(alloc)?, f))
            }
            Formula::Says(t, f) => {
                let f = f.copy_boxed(alloc)?;
                Ok(Formula::Says(t.copy(alloc)?, f))
            }
            Formula::SpeaksFor(t, u) => copied_delegation(alloc, t, u),
            Formula::SpeaksForOn(t, u, s) => copied_delegation_on(alloc, t, u, s),
        }
    }

    // A call of its own, so that a level of a copy takes little stack.
    #[cycle(copy)]
    #[inline(never)]
    fn copy_boxed(&self, alloc: Global) -> Result<Box<Formula>, AllocError>
        ensures { IfOk result (λ copy. formula_tree copy.value ≡ formula_tree self.now) }
    {
        let copy = self.copy(alloc)?;
        Ok(Box::new(alloc, copy)?)
    }
}

// The copies of what has no formula below it, each a call of its own, so that they take no stack of the levels above.

#[inline(never)]
fn copied_atom(alloc: Global, p: &Name, ts: &Args) -> Result<Formula, AllocError>
    ensures { IfOk result (λ copy. formula_tree copy ≡ tree.atom p.now (term_trees ts.now)) }
{
    Ok(Formula::Atom(p.copy(alloc)?, ts.copy(alloc)?))
}

#[inline(never)]
fn copied_test(alloc: Global, c: Compare, t: &Term, u: &Term) -> Result<Formula, AllocError>
    ensures { IfOk result (λ copy. formula_tree copy ≡ tree.test c (term_tree t.now) (term_tree u.now)) }
{
    let t = t.copy(alloc)?;
    Ok(Formula::Test(c, t, u.copy(alloc)?))
}

#[inline(never)]
fn copied_delegation(alloc: Global, t: &Term, u: &Term) -> Result<Formula, AllocError>
    ensures { IfOk result (λ copy. formula_tree copy ≡ tree.speaks_for (term_tree t.now) (term_tree u.now)) }
{
    let t = t.copy(alloc)?;
    Ok(Formula::SpeaksFor(t, u.copy(alloc)?))
}

#[inline(never)]
fn copied_delegation_on(alloc: Global, t: &Term, u: &Term, s: &Scope) -> Result<Formula, AllocError>
    ensures { IfOk result (λ copy. formula_tree copy ≡ tree.speaks_for_on (term_tree t.now) (term_tree u.now) s.now) }
{
    let t = t.copy(alloc)?;
    Ok(Formula::SpeaksForOn(t, u.copy(alloc)?, s.copy(alloc)?))
}

/// Whether two formulas are the same tree; bound variables are not renamed. It takes no memory.
pub fn equal(a: &Formula, b: &Formula) -> bool
    ensures { IsTrue result ↔ (formula_tree a.now ≡ formula_tree b.now) }
{
    equal_uncounted::<Brand>(a, b, Blank::new(1))
}

/// As `equal`, with a step for each pair of nodes that it looks at: first the pair itself, then what is
/// below it from left to right, up to the first difference.
pub fn equal_counted<L: Ledger>(a: &Formula, b: &Formula, steps: &mut Steps<L>) -> bool
    ensures same { IsTrue result ↔ (formula_tree a.now ≡ formula_tree b.now) }
    ensures least { steps.old + 1 ≤ steps.new }
    ensures most { steps.new ≤ steps.old + node_count (formula_tree a.now) }
    ensures all { IsTrue result → steps.new ≡ steps.old + node_count (formula_tree a.now) }
{
    steps.tick();
    match (a, b) {
        (Formula::True, Formula::True) | (Formula::False, Formula::False) => true,
        (Formula::Atom(p, ts), Formula::Atom(q, us)) => {
            p.as_slice() == q.as_slice()
                && equal_term_lists_counted(ts.as_slice(), us.as_slice(), steps)
        }
        (Formula::Test(c, t, u), Formula::Test(d, v, w)) => {
            c == d && equal_terms_counted(t, v, steps) && equal_terms_counted(u, w, steps)
        }
        (Formula::And(f, g), Formula::And(h, i))
        | (Formula::Or(f, g), Formula::Or(h, i))
        | (Formula::Implies(f, g), Formula::Implies(h, i)) => {
            equal_counted(f, h, steps) && equal_counted(g, i, steps)
        }
        (Formula::Forall(x, f), Formula::Forall(y, g))
        | (Formula::Exists(x, f), Formula::Exists(y, g)) => {
            x.as_slice() == y.as_slice() && equal_counted(f, g, steps)
        }
        (Formula::Says(t, f), Formula::Says(u, g)) => {
            equal_terms_counted(t, u, steps) && equal_counted(f, g, steps)
        }
        (Formula::SpeaksFor(t, u), Formula::SpeaksFor(v, w)) => {
            equal_terms_counted(t, v, steps) && equal_terms_counted(u, w, steps)
        }
        (Formula::SpeaksForOn(t, u, s), Formula::SpeaksForOn(v, w, r)) => {
            equal_terms_counted(t, v, steps)
                && equal_terms_counted(u, w, steps)
                && equal_scopes(s, r)
        }
        _ => false,
    }
}

// The counted call, with a counter that nothing reads.
fn equal_uncounted<L: Ledger>(a: &Formula, b: &Formula, blank: Blank) -> bool
    requires name { blank.name ≡ L.name }
    requires parts { blank.parts ≡ L.parts }
    requires some { 0 < blank.parts }
    ensures { IsTrue result ↔ (formula_tree a.now ≡ formula_tree b.now) }
{
    let mut steps = Steps::<L>::start(blank);
    equal_counted(a, b, &mut steps)
}
