ghost use Rattle.std.specs.Prelude.{◌≡◌, ◌≢◌, ◌↔◌, ℕ, List, None, Some, IfOk, map};
ghost use Rattle.nal_subst.specs.Inner.Below.{part_with};
ghost use Rattle.nal_subst.specs.Substitution.{formula_with, term_with};
ghost use Rattle.nal_term.specs.Trees.{FormulaTree, formula_tree, name, term_tree, term_trees};
ghost use Rattle.nal_term.specs.Trees as tree;

use crate::captures::is_captured;
use nal_term::{Args, Compare, Formula, Name, Scope, Term};
use std::alloc::{AllocError, Global};

/// Why `substitute` made no formula.
#[derive(Clone, Copy, Debug, PartialEq, Eq)]
pub enum SubstError {
    /// A variable of the term would be captured.
    Capture,
    /// There was no memory for the formula.
    Memory,
}

/// A new formula: `f` with `t` in place of each free `x`; bound variables are not renamed. `Capture`
/// exactly where a free `x` stands below a quantifier over another variable that occurs in `t`, which is
/// found before anything is copied; `Memory` where there was no memory for the formula.
/// `docs/LOGIC.md`, "Substitution", states the rule.
pub fn substitute(alloc: Global, f: &Formula, x: &Name, t: &Term) -> Result<Formula, SubstError>
    ensures ok { IfOk result (λ g. formula_with x.now (term_tree t.now) (formula_tree f.now) ≡ Some (formula_tree g)) }
    ensures capture { (result ≡ Err SubstError.Capture) ↔
        (formula_with x.now (term_tree t.now) (formula_tree f.now) ≡ None) }
{
    if is_captured(f, x, t) {
        return Err(SubstError::Capture);
    }
    match replaced(alloc, f, x, t) {
        Ok(g) => Ok(g),
        Err(_) => Err(SubstError::Memory),
    }
}

/// The law that a name can stand for a variable in each formula: it holds no variable, so that none is
/// captured. The call does nothing.
#[tactic(auto, using(crate::proofs::Names::name_defined))]
pub fn names_are_never_captured()
    ensures { (x y : List ℕ) (f : FormulaTree) → formula_with x (name y) f ≢ None }
{}

// The formula with `t` in place of each free `x`, where nothing is captured.
#[cycle(replaced)]
fn replaced(alloc: Global, f: &Formula, x: &Name, t: &Term) -> Result<Formula, AllocError>
    requires { formula_with x.now (term_tree t.now) (formula_tree f.now) ≢ None }
    ensures { IfOk result (λ g. formula_with x.now (term_tree t.now) (formula_tree f.now) ≡ Some (formula_tree g)) }
{
    match f {
        Formula::True => Ok(Formula::True),
        Formula::False => Ok(Formula::False),
        Formula::Atom(p, ts) => atom_replaced(alloc, p, ts, x, t),
        Formula::Test(c, u, v) => test_replaced(alloc, *c, u, v, x, t),
        Formula::And(a, b) => {
            let a = boxed_replaced(alloc, a, x, t)?;
            Ok(Formula::And(a, boxed_replaced(alloc, b, x, t)?))
        }
        Formula::Or(a, b) => {
            let a = boxed_replaced(alloc, a, x, t)?;
            Ok(Formula::Or(a, boxed_replaced(alloc, b, x, t)?))
        }
        Formula::Implies(a, b) => {
            let a = boxed_replaced(alloc, a, x, t)?;
            Ok(Formula::Implies(a, boxed_replaced(alloc, b, x, t)?))
        }
        Formula::Forall(y, a) => {
            let a = part_replaced(alloc, y, a, x, t)?;
            Ok(Formula::Forall(y.copy(alloc)?, a))
        }
        Formula::Exists(y, a) => {
            let a = part_replaced(alloc, y, a, x, t)?;
            Ok(Formula::Exists(y.copy(alloc)?, a))
        }
        Formula::Says(u, a) => {
            let a = boxed_replaced(alloc, a, x, t)?;
            Ok(Formula::Says(term_replaced(alloc, u, x, t)?, a))
        }
        Formula::SpeaksFor(u, v) => delegation_replaced(alloc, u, v, x, t),
        Formula::SpeaksForOn(u, v, s) => delegation_on_replaced(alloc, u, v, s, x, t),
    }
}

// A call of its own, so that a level of a substitution takes little stack.
#[cycle(replaced)]
#[inline(never)]
fn boxed_replaced(
    alloc: Global,
    f: &Formula,
    x: &Name,
    t: &Term,
) -> Result<Box<Formula>, AllocError>
    requires { formula_with x.now (term_tree t.now) (formula_tree f.now) ≢ None }
    ensures { IfOk result
        (λ g. formula_with x.now (term_tree t.now) (formula_tree f.now) ≡ Some (formula_tree g.value)) }
{
    let replaced = replaced(alloc, f, x, t)?;
    Ok(Box::new(alloc, replaced)?)
}

// The part below a quantifier over `y` after the substitution in the whole, where nothing is captured.
#[tactic(auto, using(crate::proofs::Unchanged::under_defined))]
#[cycle(replaced)]
fn part_replaced(
    alloc: Global,
    y: &Name,
    a: &Formula,
    x: &Name,
    t: &Term,
) -> Result<Box<Formula>, AllocError>
    requires { part_with x.now (term_tree t.now) y.now (formula_tree a.now) ≢ None }
    ensures { IfOk result
        (λ b. part_with x.now (term_tree t.now) y.now (formula_tree a.now) ≡ Some (formula_tree b.value)) }
{
    if x.as_slice() == y.as_slice() {
        let copy = a.copy(alloc)?;
        Ok(Box::new(alloc, copy)?)
    } else {
        boxed_replaced(alloc, a, x, t)
    }
}

// What has no formula below it, each a call of its own, so that it takes no stack of the levels above.

#[inline(never)]
fn atom_replaced(
    alloc: Global,
    p: &Name,
    ts: &Args,
    x: &Name,
    t: &Term,
) -> Result<Formula, AllocError>
    ensures { IfOk result
        (λ g. formula_with x.now (term_tree t.now) (tree.atom p.now (term_trees ts.now)) ≡ Some (formula_tree g)) }
{
    Ok(Formula::Atom(p.copy(alloc)?, args_replaced(alloc, ts, x, t)?))
}

#[inline(never)]
fn test_replaced(
    alloc: Global,
    c: Compare,
    u: &Term,
    v: &Term,
    x: &Name,
    t: &Term,
) -> Result<Formula, AllocError>
    ensures { IfOk result
        (λ g. formula_with x.now (term_tree t.now) (tree.test c (term_tree u.now) (term_tree v.now))
        ≡ Some (formula_tree g)) }
{
    let u = term_replaced(alloc, u, x, t)?;
    Ok(Formula::Test(c, u, term_replaced(alloc, v, x, t)?))
}

#[inline(never)]
fn delegation_replaced(
    alloc: Global,
    u: &Term,
    v: &Term,
    x: &Name,
    t: &Term,
) -> Result<Formula, AllocError>
    ensures { IfOk result
        (λ g. formula_with x.now (term_tree t.now) (tree.speaks_for (term_tree u.now) (term_tree v.now))
        ≡ Some (formula_tree g)) }
{
    let u = term_replaced(alloc, u, x, t)?;
    Ok(Formula::SpeaksFor(u, term_replaced(alloc, v, x, t)?))
}

#[inline(never)]
fn delegation_on_replaced(
    alloc: Global,
    u: &Term,
    v: &Term,
    s: &Scope,
    x: &Name,
    t: &Term,
) -> Result<Formula, AllocError>
    ensures { IfOk result
        (λ g. formula_with x.now (term_tree t.now) (tree.speaks_for_on (term_tree u.now) (term_tree v.now) s.now)
        ≡ Some (formula_tree g)) }
{
    let u = term_replaced(alloc, u, x, t)?;
    Ok(Formula::SpeaksForOn(u, term_replaced(alloc, v, x, t)?, s.copy(alloc)?))
}

// The term with `t` in place of each `x`.
fn term_replaced(alloc: Global, u: &Term, x: &Name, t: &Term) -> Result<Term, AllocError>
    ensures { IfOk result (λ v. term_with x.now (term_tree t.now) (term_tree u.now) ≡ term_tree v) }
{
    match u {
        Term::Var(y) if x.as_slice() == y.as_slice() => t.copy(alloc),
        Term::Sub(v, y) => {
            let v = term_replaced(alloc, v, x, t)?;
            Ok(Term::Sub(Box::new(alloc, v)?, y.copy(alloc)?))
        }
        _ => u.copy(alloc),
    }
}

// The arguments with `t` in place of each `x`.
fn args_replaced(alloc: Global, us: &Args, x: &Name, t: &Term) -> Result<Args, AllocError>
    ensures { IfOk result (λ vs. map (λ u. term_with x.now (term_tree t.now) u) (term_trees us.now) ≡ term_trees vs) }
{
    let mut replaced = Args::new(alloc);
    for u in us.as_slice() {
        // There are as many as before, so that they have room.
        if replaced.push(term_replaced(alloc, u, x, t)?).is_err() {
            return Err(AllocError);
        }
    }
    Ok(replaced)
}
