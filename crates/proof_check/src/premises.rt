ghost use Rattle.std.specs.Prelude.{◌≡◌, ◌≢◌, ◌↔◌, ◌+◌, ◌*◌, ◌≤◌, false, true, IsTrue, option_map, IfSome};
ghost use Rattle.nal_term.specs.Size.{node_count};
ghost use Rattle.nal_term.specs.Trees.{formula_tree};
ghost use Rattle.proof_lines.specs.Lines.{HasRuleForm, line_tree, line_trees, reference_count, takes_term};
ghost use Rattle.nal_rules.specs.Faults.{formula_at, line_at};
ghost use Rattle.proof_check.specs.Inner.Premises.{HasFormAt, premise_at};
ghost use Rattle.proof_check.specs.Sizes.{greatest_in, line_size};

use crate::forms::{
    has_form_of_five, has_form_of_none, has_form_of_one, has_form_of_three, has_form_of_two,
};
use nal_subst::Match;
use nal_term::{Formula, Steps};
use proof_lines::{Line, Proof, Rule};
use std::sync::ledger::Ledger;

/// The line with this number, counted from 1. None exactly where there is none.
pub fn line_at(proof: &Proof, number: u64) -> Option<&Line>
    ensures line { option_map (λ l. line_tree l.now) result ≡ line_at (line_trees proof.now) number }
    ensures form { IfSome result (λ l. HasRuleForm (line_tree l.now)) }
    ensures size { IfSome result (λ l. line_size (line_tree l.now) ≤ greatest_in (line_trees proof.now)) }
{
    let lines = proof.as_slice();
    if number == 0 || number > lines.len() as u64 {
        return None;
    }
    Some(&lines[number as usize - 1])
}

/// The formula of the line with this number, counted from 1. None exactly where there is none.
pub fn formula_at(proof: &Proof, number: u64) -> Option<&Formula>
    ensures formula { option_map (λ f. formula_tree f.now) result ≡ formula_at (line_trees proof.now) number }
    ensures size { IfSome result (λ f. node_count (formula_tree f.now) ≤ greatest_in (line_trees proof.now)) }
{
    match line_at(proof, number) {
        Some(line) => Some(&line.formula),
        None => None,
    }
}

/// The formula of the line to which the reference at this place refers, counted from 0. None exactly
/// where there is no such reference or no such line.
pub fn premise_at<'a>(proof: &'a Proof, line: &Line, place: u64) -> Option<&'a Formula>
    ensures formula { option_map (λ f. formula_tree f.now) result
        ≡ premise_at (line_trees proof.now) line.now.refs place }
    ensures size { IfSome result (λ f. node_count (formula_tree f.now) ≤ greatest_in (line_trees proof.now)) }
{
    match line.refs.get(place) {
        Some(number) => formula_at(proof, *number),
        None => None,
    }
}

/// Whether the line's references name lines, and the line has the form of its rule. `found` is how the
/// line stands to the substitution of its rule, where that has one.
pub fn has_form<L: Ledger>(proof: &Proof, line: &Line, found: Match, steps: &mut Steps<L>) -> bool
    requires form { HasRuleForm (line_tree line.now) }
    requires size { line_size (line_tree line.now) ≤ greatest_in (line_trees proof.now) }
    requires found { takes_term line.now.rule ≡ true
        → (found ≢ Match.No) ↔ HasFormAt (line_trees proof.now) (line_tree line.now) }
    ensures form { IsTrue result ↔ HasFormAt (line_trees proof.now) (line_tree line.now) }
    ensures least { steps.old ≤ steps.new }
    ensures most { steps.new ≤ steps.old + 3 * greatest_in (line_trees proof.now) }
{
    match line.rule {
        Rule::ForallE | Rule::ExistsI => !matches!(found, Match::No),
        _ => has_plain_form(proof, line, steps),
    }
}

/// The same for a line of a rule that makes no substitution.
fn has_plain_form<L: Ledger>(proof: &Proof, line: &Line, steps: &mut Steps<L>) -> bool
    requires form { HasRuleForm (line_tree line.now) }
    requires plain { takes_term line.now.rule ≡ false }
    requires size { line_size (line_tree line.now) ≤ greatest_in (line_trees proof.now) }
    ensures form { IsTrue result ↔ HasFormAt (line_trees proof.now) (line_tree line.now) }
    ensures least { steps.old ≤ steps.new }
    ensures most { steps.new ≤ steps.old + 3 * greatest_in (line_trees proof.now) }
{
    match line.rule.reference_count() {
        0 => has_form_of_none(line, steps),
        1 => has_form_at_one(proof, line, steps),
        2 => has_form_at_two(proof, line, steps),
        3 => has_form_at_three(proof, line, steps),
        5 => has_form_at_five(proof, line, steps),
        _ => false,
    }
}

/// The same for a line of a rule that has one reference.
fn has_form_at_one<L: Ledger>(proof: &Proof, line: &Line, steps: &mut Steps<L>) -> bool
    requires form { HasRuleForm (line_tree line.now) }
    requires one { reference_count line.now.rule ≡ 1 }
    requires plain { takes_term line.now.rule ≡ false }
    ensures form { IsTrue result ↔ HasFormAt (line_trees proof.now) (line_tree line.now) }
    ensures least { steps.old ≤ steps.new }
    ensures most { steps.new
        ≤ steps.old + greatest_in (line_trees proof.now) + node_count (formula_tree line.now.formula) }
{
    match premise_at(proof, line, 0) {
        Some(first) => has_form_of_one(line, first, steps),
        None => false,
    }
}

/// The same for a line of a rule that has two references.
fn has_form_at_two<L: Ledger>(proof: &Proof, line: &Line, steps: &mut Steps<L>) -> bool
    requires form { HasRuleForm (line_tree line.now) }
    requires two { reference_count line.now.rule ≡ 2 }
    ensures form { IsTrue result ↔ HasFormAt (line_trees proof.now) (line_tree line.now) }
    ensures least { steps.old ≤ steps.new }
    ensures most { steps.new
        ≤ steps.old + 2 * greatest_in (line_trees proof.now) + node_count (formula_tree line.now.formula) }
{
    let Some(first) = premise_at(proof, line, 0) else {
        return false;
    };
    let Some(second) = premise_at(proof, line, 1) else {
        return false;
    };
    has_form_of_two(line, first, second, steps)
}

/// The same for a line of a rule that has three references.
fn has_form_at_three<L: Ledger>(proof: &Proof, line: &Line, steps: &mut Steps<L>) -> bool
    requires form { HasRuleForm (line_tree line.now) }
    requires three { reference_count line.now.rule ≡ 3 }
    ensures form { IsTrue result ↔ HasFormAt (line_trees proof.now) (line_tree line.now) }
    ensures least { steps.old ≤ steps.new }
    ensures most { steps.new ≤ steps.old + 2 * greatest_in (line_trees proof.now) }
{
    let Some(first) = premise_at(proof, line, 0) else {
        return false;
    };
    let Some(second) = premise_at(proof, line, 1) else {
        return false;
    };
    let Some(third) = premise_at(proof, line, 2) else {
        return false;
    };
    has_form_of_three(line, first, second, third, steps)
}

/// The same for a line of a rule that has five references.
fn has_form_at_five<L: Ledger>(proof: &Proof, line: &Line, steps: &mut Steps<L>) -> bool
    requires form { HasRuleForm (line_tree line.now) }
    requires five { reference_count line.now.rule ≡ 5 }
    ensures form { IsTrue result ↔ HasFormAt (line_trees proof.now) (line_tree line.now) }
    ensures least { steps.old ≤ steps.new }
    ensures most { steps.new ≤ steps.old + 3 * greatest_in (line_trees proof.now) }
{
    let Some(first) = premise_at(proof, line, 0) else {
        return false;
    };
    let Some(second) = premise_at(proof, line, 1) else {
        return false;
    };
    let Some(third) = premise_at(proof, line, 2) else {
        return false;
    };
    let Some(fourth) = premise_at(proof, line, 3) else {
        return false;
    };
    let Some(fifth) = premise_at(proof, line, 4) else {
        return false;
    };
    has_form_of_five(line, first, second, third, fourth, fifth, steps)
}
