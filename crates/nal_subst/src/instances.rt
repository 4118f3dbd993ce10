ghost use Rattle.std.specs.Prelude.{◌≡◌, ◌≢◌, ◌↔◌, ◌+◌, ◌*◌, ◌<◌, ◌≤◌, None, Some, IsTrue, map, if◌then◌else◌, ◌⊎◌};
ghost use Rattle.nal_subst.specs.Inner.Below.{part_with};
ghost use Rattle.nal_subst.specs.Substitution.{formula_with, term_with};
ghost use Rattle.nal_term.specs.Size.{node_count, term_list_node_count, term_node_count};
ghost use Rattle.nal_term.specs.Trees.{formula_tree, term_tree, term_trees};

use crate::captures::{is_captured_counted, occurs};
use nal_term::{
    Args, Formula, Name, Steps, Term, equal_counted, equal_scopes, equal_terms_counted,
    free_in_counted,
};
use std::marker::Brand;
use std::sync::ledger::{Blank, Ledger};

/// The answer of `instance`.
#[derive(Clone, Copy, Debug, PartialEq, Eq)]
pub enum Match {
    /// The substitution makes that very formula.
    Yes,
    /// The substitution makes another formula.
    No,
    /// The substitution is undefined, since a variable of the term would be captured.
    Capture,
}

/// Whether `g` is `f` with `t` in place of each free `x`. `Capture` exactly where a free `x` of `f`
/// stands below a quantifier over another variable that occurs in `t`, also where `f` and `g` differ
/// elsewhere; bound variables are not renamed. `docs/LOGIC.md`, "Substitution", states the rule. It
/// builds no formula and takes no memory.
pub fn instance(f: &Formula, x: &Name, t: &Term, g: &Formula) -> Match
    ensures capture { (result ≡ Match.Capture) ↔ (formula_with x.now (term_tree t.now) (formula_tree f.now) ≡ None) }
    ensures yes { (result ≡ Match.Yes) ↔
        (formula_with x.now (term_tree t.now) (formula_tree f.now) ≡ Some (formula_tree g.now)) }
{
    instance_uncounted::<Brand>(f, x, t, g, Blank::new(1))
}

// The counted call, with a counter that nothing reads.
fn instance_uncounted<L: Ledger>(
    f: &Formula,
    x: &Name,
    t: &Term,
    g: &Formula,
    blank: Blank,
) -> Match
    requires name { blank.name ≡ L.name }
    requires parts { blank.parts ≡ L.parts }
    requires some { 0 < blank.parts }
    ensures capture { (result ≡ Match.Capture) ↔ (formula_with x.now (term_tree t.now) (formula_tree f.now) ≡ None) }
    ensures yes { (result ≡ Match.Yes) ↔
        (formula_with x.now (term_tree t.now) (formula_tree f.now) ≡ Some (formula_tree g.now)) }
{
    let mut steps = Steps::<L>::start(blank);
    instance_counted(f, x, t, g, &mut steps)
}

/// As `instance`, with a step for each look at the kind of a node of `f` or of `t`, at most one for each
/// node of `f` and as many again as `t` has nodes. Where the answer is `Yes` there are at least as many
/// steps as `g` has nodes.
#[tactic(auto, using(crate::proofs::Unchanged::forall_yes, crate::proofs::Unchanged::exists_yes, crate::proofs::Counts::room))]
#[cycle(instances)]
pub fn instance_counted<L: Ledger>(
    f: &Formula,
    x: &Name,
    t: &Term,
    g: &Formula,
    steps: &mut Steps<L>,
) -> Match
    ensures capture { (result ≡ Match.Capture) ↔ (formula_with x.now (term_tree t.now) (formula_tree f.now) ≡ None) }
    ensures yes { (result ≡ Match.Yes) ↔
        (formula_with x.now (term_tree t.now) (formula_tree f.now) ≡ Some (formula_tree g.now)) }
    ensures least { steps.old + 1 ≤ steps.new }
    ensures most { steps.new ≤ steps.old + node_count (formula_tree f.now) * (1 + term_node_count (term_tree t.now)) }
    ensures all { (result ≡ Match.Yes) → steps.old + node_count (formula_tree g.now) ≤ steps.new }
{
    steps.tick();
    match (f, g) {
        (Formula::True, Formula::True) | (Formula::False, Formula::False) => Match::Yes,
        (Formula::Atom(p, ts), Formula::Atom(q, us)) => {
            let same = answer(same_name(p, q));
            joint(same, answer(args_match(ts, x, t, us, steps)))
        }
        (Formula::Test(c, u, v), Formula::Test(d, w, z)) => {
            answer(c == d && pair_matches(u, v, x, t, w, z, steps))
        }
        (Formula::And(a, b), Formula::And(c, d))
        | (Formula::Or(a, b), Formula::Or(c, d))
        | (Formula::Implies(a, b), Formula::Implies(c, d)) => {
            let left = instance_counted(a, x, t, c, steps);
            joint(left, instance_counted(b, x, t, d, steps))
        }
        (Formula::Forall(y, a), Formula::Forall(z, b))
        | (Formula::Exists(y, a), Formula::Exists(z, b)) => {
            let bound = answer(y.as_slice() == z.as_slice());
            joint(bound, part_matches(y, a, x, t, b, steps))
        }
        (Formula::Says(u, a), Formula::Says(v, b)) => {
            let says = answer(term_matches(u, x, t, v, steps));
            joint(says, instance_counted(a, x, t, b, steps))
        }
        (Formula::SpeaksFor(u, v), Formula::SpeaksFor(w, z)) => {
            answer(pair_matches(u, v, x, t, w, z, steps))
        }
        (Formula::SpeaksForOn(u, v, s), Formula::SpeaksForOn(w, z, r)) => {
            answer(equal_scopes(s, r) && pair_matches(u, v, x, t, w, z, steps))
        }
        _ => unlike(f, x, t, steps),
    }
}

// Whether the part `b` is the part `a` below a quantifier over `y` after the substitution in the whole.
#[tactic(auto, using(crate::proofs::Unchanged::under_other, crate::proofs::Counts::room))]
#[cycle(instances)]
fn part_matches<L: Ledger>(
    y: &Name,
    a: &Formula,
    x: &Name,
    t: &Term,
    b: &Formula,
    steps: &mut Steps<L>,
) -> Match
    ensures capture { (result ≡ Match.Capture) ↔ (part_with x.now (term_tree t.now) y.now (formula_tree a.now) ≡ None) }
    ensures yes { (result ≡ Match.Yes) ↔
        (part_with x.now (term_tree t.now) y.now (formula_tree a.now) ≡ Some (formula_tree b.now)) }
    ensures least { steps.old ≤ steps.new }
    ensures most { steps.new + 1
        ≤ steps.old + (1 + node_count (formula_tree a.now)) * (1 + term_node_count (term_tree t.now)) }
    ensures all { (result ≡ Match.Yes) → steps.old + node_count (formula_tree b.now) ≤ steps.new }
{
    if x.as_slice() == y.as_slice() {
        return answer(equal_counted(a, b, steps));
    }
    if !occurs(t, y, steps) {
        return instance_counted(a, x, t, b, steps);
    }
    if free_in_counted(a, x, steps) {
        return Match::Capture;
    }
    answer(equal_counted(a, b, steps))
}

// The answer where the two formulas are of different kinds.
fn unlike<L: Ledger>(f: &Formula, x: &Name, t: &Term, steps: &mut Steps<L>) -> Match
    ensures capture { (result ≡ Match.Capture) ↔ (formula_with x.now (term_tree t.now) (formula_tree f.now) ≡ None) }
    ensures no { result ≢ Match.Yes }
    ensures least { steps.old + 1 ≤ steps.new }
    ensures most { steps.new + 1
        ≤ steps.old + node_count (formula_tree f.now) * (1 + term_node_count (term_tree t.now)) }
{
    if is_captured_counted(f, x, t, steps) {
        Match::Capture
    } else {
        Match::No
    }
}

// The answer for a part in which nothing is captured.
fn answer(is_same: bool) -> Match
    ensures { result ≡ (if is_same then Match.Yes else Match.No) }
{
    if is_same { Match::Yes } else { Match::No }
}

// The answer for a whole of two parts.
fn joint(a: Match, b: Match) -> Match
    ensures capture { (result ≡ Match.Capture) ↔ ((a ≡ Match.Capture) ⊎ (b ≡ Match.Capture)) }
    ensures yes { (result ≡ Match.Yes) ↔ ((a ≡ Match.Yes) × (b ≡ Match.Yes)) }
{
    match (a, b) {
        (Match::Capture, _) | (_, Match::Capture) => Match::Capture,
        (Match::Yes, Match::Yes) => Match::Yes,
        _ => Match::No,
    }
}

// Whether two names are the same.
fn same_name(a: &Name, b: &Name) -> bool
    ensures { IsTrue result ↔ (a.now ≡ b.now) }
{
    a.as_slice() == b.as_slice()
}

// Whether `w` and `z` are `u` and `v` with `t` in place of each `x`.
fn pair_matches<L: Ledger>(
    u: &Term,
    v: &Term,
    x: &Name,
    t: &Term,
    w: &Term,
    z: &Term,
    steps: &mut Steps<L>,
) -> bool
    ensures value { IsTrue result ↔
        ((term_with x.now (term_tree t.now) (term_tree u.now) ≡ term_tree w.now)
        × (term_with x.now (term_tree t.now) (term_tree v.now) ≡ term_tree z.now)) }
    ensures least { steps.old + 1 ≤ steps.new }
    ensures most { steps.new
        ≤ steps.old + (term_node_count (term_tree u.now) + term_node_count (term_tree v.now)) *
        (1 + term_node_count (term_tree t.now)) }
    ensures all { IsTrue result
        → steps.old + term_node_count (term_tree w.now) + term_node_count (term_tree z.now) ≤ steps.new }
{
    term_matches(u, x, t, w, steps) && term_matches(v, x, t, z, steps)
}

// Whether `v` is `u` with `t` in place of each `x`.
fn term_matches<L: Ledger>(u: &Term, x: &Name, t: &Term, v: &Term, steps: &mut Steps<L>) -> bool
    ensures value { IsTrue result ↔ (term_with x.now (term_tree t.now) (term_tree u.now) ≡ term_tree v.now) }
    ensures least { steps.old + 1 ≤ steps.new }
    ensures most { steps.new ≤ steps.old + term_node_count (term_tree u.now) * (1 + term_node_count (term_tree t.now)) }
    ensures all { IsTrue result → steps.old + term_node_count (term_tree v.now) ≤ steps.new }
{
    steps.tick();
    match (u, v) {
        (Term::Var(y), _) if x.as_slice() == y.as_slice() => equal_terms_counted(t, v, steps),
        (Term::Number(n), Term::Number(m)) => n == m,
        (Term::Name(y), Term::Name(z)) => y.as_slice() == z.as_slice(),
        (Term::Text(y), Term::Text(z)) => y.as_slice() == z.as_slice(),
        (Term::Var(y), Term::Var(z)) => y.as_slice() == z.as_slice(),
        (Term::Sub(w, y), Term::Sub(z, n)) => {
            y.as_slice() == n.as_slice() && term_matches(w, x, t, z, steps)
        }
        _ => false,
    }
}

// Whether the arguments of one atom are those of another with `t` in place of each `x`.
fn args_match<L: Ledger>(us: &Args, x: &Name, t: &Term, vs: &Args, steps: &mut Steps<L>) -> bool
    ensures value { IsTrue result ↔
        (map (λ u. term_with x.now (term_tree t.now) u) (term_trees us.now) ≡ term_trees vs.now) }
    ensures least { steps.old ≤ steps.new }
    ensures most { steps.new
        ≤ steps.old + term_list_node_count (term_trees us.now) * (1 + term_node_count (term_tree t.now)) }
    ensures all { IsTrue result → steps.old + term_list_node_count (term_trees vs.now) ≤ steps.new }
{
    terms_match(us.as_slice(), x, t, vs.as_slice(), steps)
}

// Whether the terms of one list are those of another with `t` in place of each `x`.
fn terms_match<L: Ledger>(
    us: &[Term],
    x: &Name,
    t: &Term,
    vs: &[Term],
    steps: &mut Steps<L>,
) -> bool
    ensures value { IsTrue result ↔
        (map (λ u. term_with x.now (term_tree t.now) u) (term_trees us.now) ≡ term_trees vs.now) }
    ensures least { steps.old ≤ steps.new }
    ensures most { steps.new
        ≤ steps.old + term_list_node_count (term_trees us.now) * (1 + term_node_count (term_tree t.now)) }
    ensures all { IsTrue result → steps.old + term_list_node_count (term_trees vs.now) ≤ steps.new }
{
    match (us.split_first(), vs.split_first()) {
        (None, None) => true,
        (Some((u, rest)), Some((v, others))) => {
            term_matches(u, x, t, v, steps) && terms_match(rest, x, t, others, steps)
        }
        _ => false,
    }
}
