ghost use Rattle.std.specs.Prelude.{◌≡◌, ◌≢◌, ◌↔◌, ◌+◌, ◌*◌, ◌≤◌, ◌∷◌, [], ℕ, Some, None, true, option_map};
ghost use Rattle.nal_term.specs.Size.{node_count, term_node_count};
ghost use Rattle.nal_term.specs.Trees.{formula_tree, term_tree};
ghost use Rattle.proof_check.specs.Inner.Premises.{HasFormAt};
ghost use Rattle.proof_check.specs.Sizes.{greatest_in, line_size};
ghost use Rattle.proof_check.specs.Inner.Sound.{IsCapturedAt};
ghost use Rattle.proof_lines.specs.Lines.{HasRuleForm, line_tree, line_trees, reference_count, takes_term};
ghost use Rattle.nal_rules.specs.Faults.{HasForm, IsCaptured};
ghost use Rattle.proof_lines.specs.declared.rules.Rule.TheVariants.{ExistsI, ForallE};

use crate::premises::premise_at;
use nal_subst::{Match, instance_counted};
use nal_term::{Formula, Steps, Term};
use proof_lines::{Line, Proof, Rule};
use std::sync::ledger::Ledger;

/// How the line stands to the substitution that its rule asks for: `Capture` exactly where that is
/// undefined; for a line of a rule that asks for one, `No` exactly where it has not the form of the rule.
pub fn line_match<L: Ledger>(proof: &Proof, line: &Line, steps: &mut Steps<L>) -> Match
    requires form { HasRuleForm (line_tree line.now) }
    requires size { line_size (line_tree line.now) ≤ greatest_in (line_trees proof.now) }
    ensures captured { (result ≡ Match.Capture) ↔ IsCapturedAt (line_trees proof.now) (line_tree line.now) }
    ensures formed { takes_term line.now.rule ≡ true
        → (result ≢ Match.No) ↔ HasFormAt (line_trees proof.now) (line_tree line.now) }
    ensures least { steps.old ≤ steps.new }
    ensures most { steps.new ≤ steps.old + greatest_in (line_trees proof.now) * greatest_in (line_trees proof.now) }
{
    match line.rule {
        Rule::ForallE | Rule::ExistsI => match_at(proof, line, steps),
        _ => Match::Yes,
    }
}

// The same for a line of a rule that asks for a substitution.
fn match_at<L: Ledger>(proof: &Proof, line: &Line, steps: &mut Steps<L>) -> Match
    requires form { HasRuleForm (line_tree line.now) }
    requires one { reference_count line.now.rule ≡ 1 }
    requires term { takes_term line.now.rule ≡ true }
    requires size { line_size (line_tree line.now) ≤ greatest_in (line_trees proof.now) }
    ensures captured { (result ≡ Match.Capture) ↔ IsCapturedAt (line_trees proof.now) (line_tree line.now) }
    ensures formed { (result ≢ Match.No) ↔ HasFormAt (line_trees proof.now) (line_tree line.now) }
    ensures least { steps.old ≤ steps.new }
    ensures most { steps.new ≤ steps.old + greatest_in (line_trees proof.now) * greatest_in (line_trees proof.now) }
{
    match premise_at(proof, line, 0) {
        Some(first) => match_from(line, first, steps),
        None => Match::No,
    }
}

// The same where the line refers to this formula.
fn match_from<L: Ledger>(line: &Line, first: &Formula, steps: &mut Steps<L>) -> Match
    requires term { takes_term line.now.rule ≡ true }
    ensures captured { (result ≡ Match.Capture)
        ↔ IsCaptured line.now.rule (formula_tree first.now ∷ []) (option_map term_tree line.now.term)
        (formula_tree line.now.formula) }
    ensures formed { (result ≢ Match.No)
        ↔ HasForm line.now.rule (formula_tree first.now ∷ []) (option_map term_tree line.now.term)
        (formula_tree line.now.formula) }
    ensures least { steps.old ≤ steps.new }
    ensures most { (z : ℕ) → node_count (formula_tree first.now) ≤ z → line_size (line_tree line.now) ≤ z
        → steps.new ≤ steps.old + z * z }
{
    match &line.term {
        Some(term) => match_with(line.rule, first, term, &line.formula, steps),
        None => Match::No,
    }
}

// The same where the line has this term.
fn match_with<L: Ledger>(
    rule: Rule,
    first: &Formula,
    term: &Term,
    conclusion: &Formula,
    steps: &mut Steps<L>,
) -> Match
    requires term { takes_term rule ≡ true }
    ensures captured { (result ≡ Match.Capture)
        ↔ IsCaptured rule (formula_tree first.now ∷ []) (Some (term_tree term.now)) (formula_tree conclusion.now) }
    ensures formed { (result ≢ Match.No)
        ↔ HasForm rule (formula_tree first.now ∷ []) (Some (term_tree term.now)) (formula_tree conclusion.now) }
    ensures least { steps.old ≤ steps.new }
    ensures most { (z : ℕ) → node_count (formula_tree first.now) ≤ z → node_count (formula_tree conclusion.now) ≤ z
        → term_node_count (term_tree term.now) ≤ z
        → steps.new ≤ steps.old + z * z }
{
    match rule {
        Rule::ForallE => match_of_all(first, term, conclusion, steps),
        Rule::ExistsI => match_of_some(first, term, conclusion, steps),
        _ => Match::No,
    }
}

// The same for the rule by which what holds of all values holds of the term.
fn match_of_all<L: Ledger>(
    first: &Formula,
    term: &Term,
    conclusion: &Formula,
    steps: &mut Steps<L>,
) -> Match
    ensures captured { (result ≡ Match.Capture)
        ↔ IsCaptured ForallE (formula_tree first.now ∷ []) (Some (term_tree term.now)) (formula_tree conclusion.now) }
    ensures formed { (result ≢ Match.No)
        ↔ HasForm ForallE (formula_tree first.now ∷ []) (Some (term_tree term.now)) (formula_tree conclusion.now) }
    ensures least { steps.old ≤ steps.new }
    ensures most { (z : ℕ) → node_count (formula_tree first.now) ≤ z → term_node_count (term_tree term.now) ≤ z
        → steps.new ≤ steps.old + z * z }
{
    match first {
        Formula::Forall(x, a) => instance_counted(a, x, term, conclusion, steps),
        _ => Match::No,
    }
}

// The same for the rule by which what holds of the term holds of some value.
fn match_of_some<L: Ledger>(
    first: &Formula,
    term: &Term,
    conclusion: &Formula,
    steps: &mut Steps<L>,
) -> Match
    ensures captured { (result ≡ Match.Capture)
        ↔ IsCaptured ExistsI (formula_tree first.now ∷ []) (Some (term_tree term.now)) (formula_tree conclusion.now) }
    ensures formed { (result ≢ Match.No)
        ↔ HasForm ExistsI (formula_tree first.now ∷ []) (Some (term_tree term.now)) (formula_tree conclusion.now) }
    ensures least { steps.old ≤ steps.new }
    ensures most { (z : ℕ) → node_count (formula_tree conclusion.now) ≤ z → term_node_count (term_tree term.now) ≤ z
        → steps.new ≤ steps.old + z * z }
{
    match conclusion {
        Formula::Exists(x, a) => instance_counted(a, x, term, first, steps),
        _ => Match::No,
    }
}
