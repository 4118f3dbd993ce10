ghost use Rattle.std.specs.Prelude.{◌≡◌, ◌↔◌, ◌+◌, ◌≤◌, ◌∷◌, [], None, IsTrue};
ghost use Rattle.nal_term.specs.Size.{node_count, term_node_count};
ghost use Rattle.nal_term.specs.Trees.{formula_tree, term_tree};
ghost use Rattle.nal_rules.specs.Faults.{HasForm};
ghost use Rattle.proof_lines.specs.declared.rules.Rule.TheVariants.{Deduce, Handoff, HandoffOn, SaysI, SaysJoin, SfE, SfOnE, SfRefl, SfSub, SfTrans, SfWeak};

use crate::same::{are_same_said, are_same_three, are_same_two};
use nal_term::{Formula, Steps, Term, equal_counted, equal_terms_counted};
use std::sync::ledger::Ledger;

/// Whether the conclusion is that somebody says the premise.
pub fn has_says_i_form<L: Ledger>(
    first: &Formula,
    conclusion: &Formula,
    steps: &mut Steps<L>,
) -> bool
    ensures form { IsTrue result ↔ HasForm SaysI (formula_tree first.now ∷ []) None (formula_tree conclusion.now) }
    ensures least { steps.old ≤ steps.new }
    ensures most { steps.new ≤ steps.old + node_count (formula_tree conclusion.now) }
{
    match conclusion {
        Formula::Says(_, f) => equal_counted(f, first, steps),
        _ => false,
    }
}

/// Whether the conclusion is what the premise has somebody say that they say.
pub fn has_says_join_form<L: Ledger>(
    first: &Formula,
    conclusion: &Formula,
    steps: &mut Steps<L>,
) -> bool
    ensures form { IsTrue result ↔ HasForm SaysJoin (formula_tree first.now ∷ []) None (formula_tree conclusion.now) }
    ensures least { steps.old ≤ steps.new }
    ensures most { steps.new ≤ steps.old + node_count (formula_tree first.now) }
{
    match (first, conclusion) {
        (Formula::Says(p, body), Formula::Says(q, _)) => equal_terms_counted(p, q, steps)
            && equal_counted(body, conclusion, steps),
        _ => false,
    }
}

/// Whether the conclusion is that somebody speaks for themselves.
pub fn has_sf_refl_form<L: Ledger>(conclusion: &Formula, steps: &mut Steps<L>) -> bool
    ensures form { IsTrue result ↔ HasForm SfRefl [] None (formula_tree conclusion.now) }
    ensures least { steps.old ≤ steps.new }
    ensures most { steps.new ≤ steps.old + node_count (formula_tree conclusion.now) }
{
    match conclusion {
        Formula::SpeaksFor(p, q) => equal_terms_counted(p, q, steps),
        _ => false,
    }
}

/// Whether the conclusion is that somebody speaks for a subprincipal of theirs.
pub fn has_sf_sub_form<L: Ledger>(conclusion: &Formula, steps: &mut Steps<L>) -> bool
    ensures form { IsTrue result ↔ HasForm SfSub [] None (formula_tree conclusion.now) }
    ensures least { steps.old ≤ steps.new }
    ensures most { steps.new ≤ steps.old + node_count (formula_tree conclusion.now) }
{
    match conclusion {
        Formula::SpeaksFor(p, part) => match part {
            Term::Sub(q, _) => equal_terms_counted(p, q, steps),
            _ => false,
        }
        _ => false,
    }
}

/// Whether the conclusion joins two delegations.
pub fn has_sf_trans_form<L: Ledger>(
    first: &Formula,
    second: &Formula,
    conclusion: &Formula,
    steps: &mut Steps<L>,
) -> bool
    ensures form { IsTrue result ↔ HasForm SfTrans (formula_tree first.now ∷ formula_tree second.now ∷ []) None
        (formula_tree conclusion.now) }
    ensures least { steps.old ≤ steps.new }
    ensures most { steps.new ≤ steps.old + node_count (formula_tree first.now) + node_count (formula_tree second.now) }
{
    match (first, second, conclusion) {
        (Formula::SpeaksFor(a, b), Formula::SpeaksFor(d, e), Formula::SpeaksFor(f, g)) => {
            are_same_three(b, d, a, f, e, g, steps)
        }
        _ => false,
    }
}

/// Whether the conclusion has a principal say what one who speaks for it says.
pub fn has_sf_e_form<L: Ledger>(
    first: &Formula,
    second: &Formula,
    conclusion: &Formula,
    steps: &mut Steps<L>,
) -> bool
    ensures form { IsTrue result ↔ HasForm SfE (formula_tree first.now ∷ formula_tree second.now ∷ []) None
        (formula_tree conclusion.now) }
    ensures least { steps.old ≤ steps.new }
    ensures most { steps.new ≤ steps.old + node_count (formula_tree first.now) + node_count (formula_tree second.now) }
{
    match (first, second, conclusion) {
        (Formula::SpeaksFor(p, q), Formula::Says(r, f), Formula::Says(s, g)) => {
            are_same_said(p, r, q, s, f, g, steps)
        }
        _ => false,
    }
}

/// The same for one who speaks for it on the names of a scope.
pub fn has_sf_on_e_form<L: Ledger>(
    first: &Formula,
    second: &Formula,
    conclusion: &Formula,
    steps: &mut Steps<L>,
) -> bool
    ensures form { IsTrue result ↔ HasForm SfOnE (formula_tree first.now ∷ formula_tree second.now ∷ []) None
        (formula_tree conclusion.now) }
    ensures least { steps.old ≤ steps.new }
    ensures most { steps.new ≤ steps.old + node_count (formula_tree first.now) + node_count (formula_tree second.now) }
{
    match (first, second, conclusion) {
        (Formula::SpeaksForOn(p, q, _), Formula::Says(r, f), Formula::Says(s, g)) => {
            are_same_said(p, r, q, s, f, g, steps)
        }
        _ => false,
    }
}

/// Whether the conclusion restricts the premise's delegation to a scope.
pub fn has_sf_weak_form<L: Ledger>(
    first: &Formula,
    conclusion: &Formula,
    steps: &mut Steps<L>,
) -> bool
    ensures form { IsTrue result ↔ HasForm SfWeak (formula_tree first.now ∷ []) None (formula_tree conclusion.now) }
    ensures least { steps.old ≤ steps.new }
    ensures most { steps.new ≤ steps.old + node_count (formula_tree first.now) }
{
    match (first, conclusion) {
        (Formula::SpeaksFor(p, q), Formula::SpeaksForOn(r, s, _)) => {
            are_same_two(p, r, q, s, steps)
        }
        _ => false,
    }
}

/// Whether the conclusion is a delegation that the premise has the delegating principal say.
pub fn has_handoff_form<L: Ledger>(
    first: &Formula,
    conclusion: &Formula,
    steps: &mut Steps<L>,
) -> bool
    ensures form { IsTrue result ↔ HasForm Handoff (formula_tree first.now ∷ []) None (formula_tree conclusion.now) }
    ensures least { steps.old ≤ steps.new }
    ensures most { steps.new ≤ steps.old + node_count (formula_tree first.now) }
{
    match (first, conclusion) {
        (Formula::Says(q, body), Formula::SpeaksFor(_, r)) => {
            equal_terms_counted(q, r, steps) && equal_counted(body, conclusion, steps)
        }
        _ => false,
    }
}

/// The same for a delegation on the names of a scope.
pub fn has_handoff_on_form<L: Ledger>(
    first: &Formula,
    conclusion: &Formula,
    steps: &mut Steps<L>,
) -> bool
    ensures form { IsTrue result ↔ HasForm HandoffOn (formula_tree first.now ∷ []) None (formula_tree conclusion.now) }
    ensures least { steps.old ≤ steps.new }
    ensures most { steps.new ≤ steps.old + node_count (formula_tree first.now) }
{
    match (first, conclusion) {
        (Formula::Says(q, body), Formula::SpeaksForOn(_, r, _)) => {
            equal_terms_counted(q, r, steps) && equal_counted(body, conclusion, steps)
        }
        _ => false,
    }
}

/// Whether a deduce line has its form: of `p says (a implies b)` and `p says a` it concludes `p says b`.
pub fn has_deduce_form<L: Ledger>(
    first: &Formula,
    second: &Formula,
    conclusion: &Formula,
    steps: &mut Steps<L>,
) -> bool
    ensures form { IsTrue result
        ↔ HasForm Deduce (formula_tree first.now ∷ formula_tree second.now ∷ []) None (formula_tree conclusion.now) }
    ensures least { steps.old ≤ steps.new }
    ensures most { steps.new
        ≤ steps.old + node_count (formula_tree first.now) + node_count (formula_tree conclusion.now) }
{
    match (first, second, conclusion) {
        (Formula::Says(p, body), Formula::Says(q, f), Formula::Says(r, g)) => match &**body {
            Formula::Implies(a, b) => are_same_terms(p, q, r, steps)
                && are_same_formulas(a, f, b, g, steps),
            _ => false,
        },
        _ => false,
    }
}

/// Whether the second term and the third are the first.
fn are_same_terms<L: Ledger>(p: &Term, q: &Term, r: &Term, steps: &mut Steps<L>) -> bool
    ensures same { IsTrue result
        ↔ ((term_tree p.now ≡ term_tree q.now) × (term_tree p.now ≡ term_tree r.now)) }
    ensures least { steps.old ≤ steps.new }
    ensures most { steps.new ≤ steps.old + term_node_count (term_tree p.now) + term_node_count (term_tree r.now) }
{
    equal_terms_counted(p, q, steps) && equal_terms_counted(r, p, steps)
}

/// Whether the first two formulas are the same, and the last two.
fn are_same_formulas<L: Ledger>(
    a: &Formula,
    f: &Formula,
    b: &Formula,
    g: &Formula,
    steps: &mut Steps<L>,
) -> bool
    ensures same { IsTrue result
        ↔ ((formula_tree a.now ≡ formula_tree f.now) × (formula_tree b.now ≡ formula_tree g.now)) }
    ensures least { steps.old ≤ steps.new }
    ensures most { steps.new ≤ steps.old + node_count (formula_tree a.now) + node_count (formula_tree b.now) }
{
    equal_counted(a, f, steps) && equal_counted(b, g, steps)
}
