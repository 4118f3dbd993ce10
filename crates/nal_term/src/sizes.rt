ghost use Rattle.std.specs.Prelude.{◌≡◌, ◌-◌, ◌^◌, min};
ghost use Rattle.nal_term.specs.Size.{node_count, term_list_node_count, term_node_count};
ghost use Rattle.nal_term.specs.Trees.{formula_tree, term_tree, term_trees};

use crate::formulas::Formula;
use crate::terms::Term;

/// How many nodes the formula has, each formula and each term in it counted once; `u64::MAX` where
/// there are more. Names that a quantifier binds and names of a scope are no nodes.
pub fn size(f: &Formula) -> u64
    ensures { result ≡ min (node_count (formula_tree f.now)) (2 ^ 64 - 1) }
{
    match f {
        Formula::True | Formula::False => 1,
        Formula::Atom(_, ts) => 1u64.saturating_add(term_list_size(ts.as_slice())),
        Formula::And(g, h) | Formula::Or(g, h) | Formula::Implies(g, h) => {
            1u64.saturating_add(size(g)).saturating_add(size(h))
        }
        Formula::Forall(_, g) | Formula::Exists(_, g) => 1u64.saturating_add(size(g)),
        Formula::Says(t, g) => 1u64.saturating_add(term_size(t)).saturating_add(size(g)),
        Formula::Test(_, t, u) | Formula::SpeaksFor(t, u) | Formula::SpeaksForOn(t, u, _) => {
            1u64.saturating_add(term_size(t))
                .saturating_add(term_size(u))
        }
    }
}

/// How many nodes the term has: 1, or 1 and those of the term whose subprincipal it is; `u64::MAX`
/// where there are more.
pub fn term_size(t: &Term) -> u64
    ensures { result ≡ min (term_node_count (term_tree t.now)) (2 ^ 64 - 1) }
{
    match t {
        Term::Number(_) | Term::Name(_) | Term::Text(_) | Term::Var(_) => 1,
        Term::Sub(u, _) => 1u64.saturating_add(term_size(u)),
    }
}

fn term_list_size(ts: &[Term]) -> u64
    ensures { result ≡ min (term_list_node_count (term_trees ts.now)) (2 ^ 64 - 1) }
{
    match ts.split_first() {
        None => 0,
        Some((first, rest)) => term_size(first).saturating_add(term_list_size(rest)),
    }
}
