ghost use Rattle.std.specs.Prelude.{◌≡◌, ◌↔◌, ◌⊎◌, ◌+◌, ◌≤◌, ◌∷◌, [], None, IsTrue};
ghost use Rattle.nal_term.specs.Size.{node_count};
ghost use Rattle.nal_term.specs.Trees.{formula_tree};
ghost use Rattle.nal_rules.specs.Faults.{HasForm};
ghost use Rattle.proof_lines.specs.declared.rules.Rule.TheVariants.{EqRefl, EqSym, EqTrans, LtTrans};
ghost use Rattle.nal_term.specs.declared.formulas.Compare.TheVariants.{AtMost, Equal, Less};

use crate::same::{are_same_three, are_same_two};
use nal_term::{Compare, Formula, Steps, equal_terms_counted};
use std::sync::ledger::Ledger;

/// Whether the conclusion is that a term equals itself.
pub fn has_eq_refl_form<L: Ledger>(conclusion: &Formula, steps: &mut Steps<L>) -> bool
    ensures form { IsTrue result ↔ HasForm EqRefl [] None (formula_tree conclusion.now) }
    ensures least { steps.old ≤ steps.new }
    ensures most { steps.new ≤ steps.old + node_count (formula_tree conclusion.now) }
{
    match conclusion {
        Formula::Test(compare, t, u) => is_equation(*compare) && equal_terms_counted(t, u, steps),
        _ => false,
    }
}

/// Whether the conclusion is the premise's equation from right to left.
pub fn has_eq_sym_form<L: Ledger>(
    first: &Formula,
    conclusion: &Formula,
    steps: &mut Steps<L>,
) -> bool
    ensures form { IsTrue result ↔ HasForm EqSym (formula_tree first.now ∷ []) None (formula_tree conclusion.now) }
    ensures least { steps.old ≤ steps.new }
    ensures most { steps.new ≤ steps.old + node_count (formula_tree first.now) }
{
    match (first, conclusion) {
        (Formula::Test(c, t, u), Formula::Test(d, v, w)) => {
            are_two_equations(*c, *d) && are_same_two(t, w, u, v, steps)
        }
        _ => false,
    }
}

/// Whether the conclusion joins two equations.
pub fn has_eq_trans_form<L: Ledger>(
    first: &Formula,
    second: &Formula,
    conclusion: &Formula,
    steps: &mut Steps<L>,
) -> bool
    ensures form { IsTrue result ↔ HasForm EqTrans (formula_tree first.now ∷ formula_tree second.now ∷ []) None
        (formula_tree conclusion.now) }
    ensures least { steps.old ≤ steps.new }
    ensures most { steps.new ≤ steps.old + node_count (formula_tree first.now) + node_count (formula_tree second.now) }
{
    match (first, second, conclusion) {
        (Formula::Test(c, t, u), Formula::Test(d, v, w), Formula::Test(e, x, y)) => {
            are_three_equations(*c, *d, *e) && are_same_three(u, v, t, x, w, y, steps)
        }
        _ => false,
    }
}

/// Whether the conclusion joins two comparisons, of which the first is strict.
pub fn has_lt_trans_form<L: Ledger>(
    first: &Formula,
    second: &Formula,
    conclusion: &Formula,
    steps: &mut Steps<L>,
) -> bool
    ensures form { IsTrue result ↔ HasForm LtTrans (formula_tree first.now ∷ formula_tree second.now ∷ []) None
        (formula_tree conclusion.now) }
    ensures least { steps.old ≤ steps.new }
    ensures most { steps.new ≤ steps.old + node_count (formula_tree first.now) + node_count (formula_tree second.now) }
{
    match (first, second, conclusion) {
        (Formula::Test(c, t, u), Formula::Test(d, v, w), Formula::Test(e, x, y)) => {
            are_strict(*c, *d, *e) && are_same_three(u, v, t, x, w, y, steps)
        }
        _ => false,
    }
}

fn is_equation(compare: Compare) -> bool
    ensures { IsTrue result ↔ (compare ≡ Equal) }
{
    matches!(compare, Compare::Equal)
}

fn are_two_equations(first: Compare, second: Compare) -> bool
    ensures { IsTrue result ↔ ((first ≡ Equal) × (second ≡ Equal)) }
{
    is_equation(first) && is_equation(second)
}

fn are_three_equations(first: Compare, second: Compare, third: Compare) -> bool
    ensures { IsTrue result ↔ (((first ≡ Equal) × (second ≡ Equal)) × (third ≡ Equal)) }
{
    are_two_equations(first, second) && is_equation(third)
}

// Whether the first and the third are strict, and the second is strict or not, but no equation.
fn are_strict(first: Compare, second: Compare, third: Compare) -> bool
    ensures { IsTrue result
        ↔ ((first ≡ Less) × ((second ≡ Less) ⊎ (second ≡ AtMost)) × (third ≡ Less)) }
{
    match (first, second, third) {
        (Compare::Less, Compare::Less | Compare::AtMost, Compare::Less) => true,
        _ => false,
    }
}
