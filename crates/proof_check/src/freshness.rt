ghost use Rattle.std.specs.Prelude.{◌≡◌, ◌↔◌, ◌+◌, ◌*◌, ◌≤◌, Some, None, true, length, IsTrue};
ghost use Rattle.nal_term.specs.Size.{node_count};
ghost use Rattle.nal_term.specs.Free.{is_free_in};
ghost use Rattle.nal_term.specs.Trees.{FormulaTree, formula_tree};
ghost use Rattle.proof_check.specs.Inner.LineSets.{AreHypothesisSets};
ghost use Rattle.proof_check.specs.Inner.Rests.{is_kept};
ghost use Rattle.proof_check.specs.Sizes.{greatest_in};
ghost use Rattle.proof_lines.specs.Lines.{HasRuleForm, line_tree, line_trees};
ghost use Rattle.nal_rules.specs.Faults.{IsFreeBelow, IsNotFresh, formula_at};
ghost use Rattle.proof_lines.specs.declared.rules.Rule.TheVariants.{ExistsE, ForallI};

use crate::hypothesis_sets::rests_on;
use crate::line_sets::LineSet;
use crate::premises::formula_at;
use nal_term::{Formula, Name, Steps, free_in_counted};
use proof_lines::{Line, Proof, Rule};
use std::sync::ledger::Ledger;

/// Whether the rule asks for a fresh variable, and the quantifier's is not.
pub fn is_not_fresh<L: Ledger>(
    proof: &Proof,
    sets: &[LineSet],
    line: &Line,
    steps: &mut Steps<L>,
) -> bool
    requires form { HasRuleForm (line_tree line.now) }
    requires sets { AreHypothesisSets (line_trees proof.now) sets.now }
    ensures fresh { IsTrue result
        ↔ IsNotFresh (line_trees proof.now) line.now.rule line.now.refs (formula_tree line.now.formula) }
    ensures least { steps.old ≤ steps.new }
    ensures most { steps.new
        ≤ steps.old + node_count (formula_tree line.now.formula) + (length proof.now + 1) * greatest_in
        (line_trees proof.now) }
{
    let refs = line.refs.as_slice();
    match line.rule {
        Rule::ForallI => is_not_fresh_for_all(proof, sets, refs, &line.formula, steps),
        Rule::ExistsE => is_not_fresh_for_some(proof, sets, refs, &line.formula, steps),
        _ => false,
    }
}

fn is_not_fresh_for_all<L: Ledger>(
    proof: &Proof,
    sets: &[LineSet],
    refs: &[u64],
    conclusion: &Formula,
    steps: &mut Steps<L>,
) -> bool
    requires one { length refs.now ≡ 1 }
    requires sets { AreHypothesisSets (line_trees proof.now) sets.now }
    ensures fresh { IsTrue result
        ↔ IsNotFresh (line_trees proof.now) ForallI refs.now (formula_tree conclusion.now) }
    ensures least { steps.old ≤ steps.new }
    ensures most { steps.new ≤ steps.old + (length proof.now + 1) * greatest_in (line_trees proof.now) }
{
    let [premise] = refs else {
        return false;
    };
    match conclusion {
        Formula::Forall(x, _) => is_free_below(proof, sets, *premise, None, x, steps),
        _ => false,
    }
}

fn is_not_fresh_for_some<L: Ledger>(
    proof: &Proof,
    sets: &[LineSet],
    refs: &[u64],
    conclusion: &Formula,
    steps: &mut Steps<L>,
) -> bool
    requires three { length refs.now ≡ 3 }
    requires sets { AreHypothesisSets (line_trees proof.now) sets.now }
    ensures fresh { IsTrue result
        ↔ IsNotFresh (line_trees proof.now) ExistsE refs.now (formula_tree conclusion.now) }
    ensures least { steps.old ≤ steps.new }
    ensures most { steps.new
        ≤ steps.old + node_count (formula_tree conclusion.now) + (length proof.now + 1) * greatest_in
        (line_trees proof.now) }
{
    let [some, assumed, concluded] = refs else {
        return false;
    };
    match formula_at(proof, *some) {
        Some(Formula::Exists(x, _)) => {
            free_in_counted(conclusion, x, steps)
                || is_free_below(proof, sets, *concluded, Some(*assumed), x, steps)
        }
        _ => false,
    }
}

/// Whether the variable is free in the formula of a hypothesis on which the line with this number rests,
/// the discharged one set aside.
fn is_free_below<L: Ledger>(
    proof: &Proof,
    sets: &[LineSet],
    number: u64,
    discharged: Option<u64>,
    x: &Name,
    steps: &mut Steps<L>,
) -> bool
    requires sets { AreHypothesisSets (line_trees proof.now) sets.now }
    ensures free { IsTrue result ↔ IsFreeBelow (line_trees proof.now) number discharged x.now }
    ensures least { steps.old ≤ steps.new }
    ensures most { steps.new ≤ steps.old + (length proof.now + 1) * greatest_in (line_trees proof.now) }
{
    for hypothesis in 0..proof.count() + 1 {
        if is_kept(hypothesis, discharged)
            && rests_on(proof, sets, number, hypothesis)
            && is_free_at(proof, hypothesis, x, steps)
        {
            return true;
        }
    }
    false
}

fn is_kept(hypothesis: u64, discharged: Option<u64>) -> bool
    ensures { result ≡ is_kept hypothesis discharged }
{
    match discharged {
        None => true,
        Some(other) => other != hypothesis,
    }
}

/// Whether the variable is free in the formula of the line with this number.
fn is_free_at<L: Ledger>(proof: &Proof, number: u64, x: &Name, steps: &mut Steps<L>) -> bool
    ensures free { IsTrue result
        ↔ ((f : FormulaTree) × (formula_at (line_trees proof.now) number ≡ Some f) × (is_free_in x.now f ≡ true)) }
    ensures least { steps.old ≤ steps.new }
    ensures most { steps.new ≤ steps.old + greatest_in (line_trees proof.now) }
{
    match formula_at(proof, number) {
        Some(f) => free_in_counted(f, x, steps),
        None => false,
    }
}
