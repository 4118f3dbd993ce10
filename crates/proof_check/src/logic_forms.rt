ghost use Rattle.std.specs.Prelude.{◌≡◌, ◌↔◌, ◌+◌, ◌≤◌, ◌∷◌, [], None, IsTrue};
ghost use Rattle.nal_term.specs.Size.{node_count};
ghost use Rattle.nal_term.specs.Trees.{formula_tree};
ghost use Rattle.nal_rules.specs.Faults.{HasForm};
ghost use Rattle.proof_lines.specs.declared.rules.Rule.TheVariants.{AndI, AndL, AndR, ExistsE, FalseE, ForallI, ImpE, ImpI, OrE, OrL, OrR, TrueI};

use nal_term::{Formula, Steps, equal_counted};
use std::sync::ledger::Ledger;

/// Whether the conclusion is the true formula.
pub fn has_true_i_form(conclusion: &Formula) -> bool
    ensures { IsTrue result ↔ HasForm TrueI [] None (formula_tree conclusion.now) }
{
    matches!(conclusion, Formula::True)
}

/// Whether the conclusion is the conjunction of the premises.
pub fn has_and_i_form<L: Ledger>(
    first: &Formula,
    second: &Formula,
    conclusion: &Formula,
    steps: &mut Steps<L>,
) -> bool
    ensures form { IsTrue result ↔ HasForm AndI (formula_tree first.now ∷ formula_tree second.now ∷ []) None
        (formula_tree conclusion.now) }
    ensures least { steps.old ≤ steps.new }
    ensures most { steps.new ≤ steps.old + node_count (formula_tree conclusion.now) }
{
    match conclusion {
        Formula::And(a, b) => equal_counted(a, first, steps) && equal_counted(b, second, steps),
        _ => false,
    }
}

/// Whether the conclusion is the left part of a conjunction.
pub fn has_and_l_form<L: Ledger>(
    first: &Formula,
    conclusion: &Formula,
    steps: &mut Steps<L>,
) -> bool
    ensures form { IsTrue result ↔ HasForm AndL (formula_tree first.now ∷ []) None (formula_tree conclusion.now) }
    ensures least { steps.old ≤ steps.new }
    ensures most { steps.new ≤ steps.old + node_count (formula_tree first.now) }
{
    match first {
        Formula::And(a, _) => equal_counted(a, conclusion, steps),
        _ => false,
    }
}

/// Whether the conclusion is the right part of a conjunction.
pub fn has_and_r_form<L: Ledger>(
    first: &Formula,
    conclusion: &Formula,
    steps: &mut Steps<L>,
) -> bool
    ensures form { IsTrue result ↔ HasForm AndR (formula_tree first.now ∷ []) None (formula_tree conclusion.now) }
    ensures least { steps.old ≤ steps.new }
    ensures most { steps.new ≤ steps.old + node_count (formula_tree first.now) }
{
    match first {
        Formula::And(_, b) => equal_counted(b, conclusion, steps),
        _ => false,
    }
}

/// Whether the conclusion is a disjunction whose left part is the premise.
pub fn has_or_l_form<L: Ledger>(first: &Formula, conclusion: &Formula, steps: &mut Steps<L>) -> bool
    ensures form { IsTrue result ↔ HasForm OrL (formula_tree first.now ∷ []) None (formula_tree conclusion.now) }
    ensures least { steps.old ≤ steps.new }
    ensures most { steps.new ≤ steps.old + node_count (formula_tree conclusion.now) }
{
    match conclusion {
        Formula::Or(a, _) => equal_counted(a, first, steps),
        _ => false,
    }
}

/// Whether the conclusion is a disjunction whose right part is the premise.
pub fn has_or_r_form<L: Ledger>(first: &Formula, conclusion: &Formula, steps: &mut Steps<L>) -> bool
    ensures form { IsTrue result ↔ HasForm OrR (formula_tree first.now ∷ []) None (formula_tree conclusion.now) }
    ensures least { steps.old ≤ steps.new }
    ensures most { steps.new ≤ steps.old + node_count (formula_tree conclusion.now) }
{
    match conclusion {
        Formula::Or(_, b) => equal_counted(b, first, steps),
        _ => false,
    }
}

/// Whether the conclusion is an implication of the second formula by the first.
pub fn has_imp_i_form<L: Ledger>(
    first: &Formula,
    second: &Formula,
    conclusion: &Formula,
    steps: &mut Steps<L>,
) -> bool
    ensures form { IsTrue result ↔ HasForm ImpI (formula_tree first.now ∷ formula_tree second.now ∷ []) None
        (formula_tree conclusion.now) }
    ensures least { steps.old ≤ steps.new }
    ensures most { steps.new ≤ steps.old + node_count (formula_tree conclusion.now) }
{
    match conclusion {
        Formula::Implies(a, b) => equal_counted(a, first, steps) && equal_counted(b, second, steps),
        _ => false,
    }
}

/// Whether the first premise is an implication of the conclusion by the second.
pub fn has_imp_e_form<L: Ledger>(
    first: &Formula,
    second: &Formula,
    conclusion: &Formula,
    steps: &mut Steps<L>,
) -> bool
    ensures form { IsTrue result ↔ HasForm ImpE (formula_tree first.now ∷ formula_tree second.now ∷ []) None
        (formula_tree conclusion.now) }
    ensures least { steps.old ≤ steps.new }
    ensures most { steps.new ≤ steps.old + node_count (formula_tree first.now) }
{
    match first {
        Formula::Implies(a, b) => equal_counted(a, second, steps)
            && equal_counted(b, conclusion, steps),
        _ => false,
    }
}

/// Whether the conclusion is that the premise holds of all values of a variable.
pub fn has_forall_i_form<L: Ledger>(
    first: &Formula,
    conclusion: &Formula,
    steps: &mut Steps<L>,
) -> bool
    ensures form { IsTrue result ↔ HasForm ForallI (formula_tree first.now ∷ []) None (formula_tree conclusion.now) }
    ensures least { steps.old ≤ steps.new }
    ensures most { steps.new ≤ steps.old + node_count (formula_tree conclusion.now) }
{
    match conclusion {
        Formula::Forall(_, a) => equal_counted(a, first, steps),
        _ => false,
    }
}

/// Whether the conclusion follows from each part of a disjunction.
pub fn has_or_e_form<L: Ledger>(
    either: &Formula,
    left: &Formula,
    first: &Formula,
    right: &Formula,
    second: &Formula,
    conclusion: &Formula,
    steps: &mut Steps<L>,
) -> bool
    ensures form { IsTrue result ↔ HasForm OrE
        (formula_tree either.now ∷ formula_tree left.now ∷ formula_tree first.now ∷ formula_tree right.now
        ∷ formula_tree second.now ∷ []) None (formula_tree conclusion.now) }
    ensures least { steps.old ≤ steps.new }
    ensures most { steps.new
        ≤ steps.old + node_count (formula_tree either.now) + node_count (formula_tree first.now) + node_count
        (formula_tree second.now) }
{
    match either {
        Formula::Or(a, b) => {
            equal_counted(a, left, steps)
                && equal_counted(b, right, steps)
                && equal_counted(first, conclusion, steps)
                && equal_counted(second, conclusion, steps)
        }
        _ => false,
    }
}

/// Whether the conclusion follows from what holds of some value.
pub fn has_exists_e_form<L: Ledger>(
    some: &Formula,
    assumed: &Formula,
    concluded: &Formula,
    conclusion: &Formula,
    steps: &mut Steps<L>,
) -> bool
    ensures form { IsTrue result ↔ HasForm ExistsE
        (formula_tree some.now ∷ formula_tree assumed.now ∷ formula_tree concluded.now ∷ []) None
        (formula_tree conclusion.now) }
    ensures least { steps.old ≤ steps.new }
    ensures most { steps.new
        ≤ steps.old + node_count (formula_tree some.now) + node_count (formula_tree concluded.now) }
{
    match some {
        Formula::Exists(_, a) => are_two_same(a, assumed, concluded, conclusion, steps),
        _ => false,
    }
}

/// Whether the premise is the false formula.
pub fn has_false_e_form(first: &Formula, conclusion: &Formula) -> bool
    ensures { IsTrue result ↔ HasForm FalseE (formula_tree first.now ∷ []) None (formula_tree conclusion.now) }
{
    matches!(first, Formula::False)
}

fn are_two_same<L: Ledger>(
    a: &Formula,
    b: &Formula,
    c: &Formula,
    d: &Formula,
    steps: &mut Steps<L>,
) -> bool
    ensures same { IsTrue result
        ↔ ((formula_tree a.now ≡ formula_tree b.now) × (formula_tree c.now ≡ formula_tree d.now)) }
    ensures least { steps.old ≤ steps.new }
    ensures most { steps.new ≤ steps.old + node_count (formula_tree a.now) + node_count (formula_tree c.now) }
{
    equal_counted(a, b, steps) && equal_counted(c, d, steps)
}
