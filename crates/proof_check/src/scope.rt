ghost use Rattle.std.specs.Prelude.{◌↔◌, ◌+◌, ◌≤◌, ◌∷◌, [], IsFalse, IsTrue};
ghost use Rattle.nal_term.specs.Size.{node_count, term_node_count};
ghost use Rattle.nal_term.specs.Trees.{formula_tree, term_tree};
ghost use Rattle.nal_rules.specs.Faults.{IsOutOfScope};
ghost use Rattle.nal_rules.specs.Scope.{IsInScope, IsNameOf};
ghost use Rattle.proof_check.specs.Inner.Sound.{IsWithinScope};
ghost use Rattle.proof_lines.specs.declared.rules.Rule.TheVariants.{SfOnE};

use nal_term::{Formula, Scope, Steps, Term, equal_terms_counted};
use std::sync::ledger::Ledger;

/// Whether the term is a name of the scope.
fn is_name_of<L: Ledger>(scope: &Scope, term: &Term, steps: &mut Steps<L>) -> bool
    ensures name { IsTrue result ↔ IsNameOf scope.now (term_tree term.now) }
    ensures least { steps.old ≤ steps.new }
    ensures most { steps.new ≤ steps.old + term_node_count (term_tree term.now) }
{
    steps.tick();
    match term {
        Term::Name(name) => scope.holds(name),
        _ => false,
    }
}

/// Whether the formula is in the scope: each atom in it by its predicate, each comparison by a side, and
/// nothing else but conjunctions, disjunctions and implications of these.
pub fn is_in_scope<L: Ledger>(scope: &Scope, f: &Formula, steps: &mut Steps<L>) -> bool
    ensures scope { IsTrue result ↔ IsInScope scope.now (formula_tree f.now) }
    ensures least { steps.old ≤ steps.new }
    ensures most { steps.new ≤ steps.old + node_count (formula_tree f.now) }
{
    steps.tick();
    match f {
        Formula::Atom(predicate, _) => scope.holds(predicate),
        Formula::Test(_, t, u) => is_name_of(scope, t, steps) || is_name_of(scope, u, steps),
        Formula::And(g, h) | Formula::Or(g, h) | Formula::Implies(g, h) => {
            is_in_scope(scope, g, steps) && is_in_scope(scope, h, steps)
        }
        _ => false,
    }
}

/// Whether what the second premise says is in the scope of the first, where that is a delegation from the
/// one who says it.
pub fn is_within_scope<L: Ledger>(first: &Formula, second: &Formula, steps: &mut Steps<L>) -> bool
    ensures met { IsTrue result → IsWithinScope SfOnE (formula_tree first.now ∷ formula_tree second.now ∷ []) }
    ensures unmet { IsFalse result → IsOutOfScope SfOnE (formula_tree first.now ∷ formula_tree second.now ∷ []) }
    ensures least { steps.old ≤ steps.new }
    ensures most { steps.new ≤ steps.old + node_count (formula_tree second.now) }
{
    match (first, second) {
        (Formula::SpeaksForOn(p, _, scope), Formula::Says(q, f)) => {
            !equal_terms_counted(q, p, steps) || is_in_scope(scope, f, steps)
        }
        _ => true,
    }
}
