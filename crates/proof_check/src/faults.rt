ghost use Rattle.std.specs.Prelude.{◌≡◌, ◌≢◌, ◌↔◌, ◌+◌, ◌*◌, ◌≤◌, ◌<◌, true, IsFalse, IsNone, IsTrue, MatchOption, ℕ, length, take};
ghost use Rattle.std.specs.List.{filter};
ghost use Rattle.nal_term.specs.Size.{node_count};
ghost use Rattle.nal_term.specs.Trees.{formula_tree};
ghost use Rattle.proof_lines.specs.Lines.{HasRuleForm, line_tree, line_trees, takes_term};
ghost use Rattle.nal_rules.specs.Faults.{Applies, HasFault, IsSays, IsTrueComparison, RestsOn, is_ask};
ghost use Rattle.proof_check.specs.Inner.Costs.{fault_steps};
ghost use Rattle.proof_check.specs.Inner.Premises.{HasFormAt};
ghost use Rattle.proof_check.specs.Inner.LineSets.{AreHypothesisSets};
ghost use Rattle.proof_check.specs.Sizes.{greatest_in, line_size, line_steps};
ghost use Rattle.proof_check.specs.Inner.Numbered.{fault_at};
ghost use Rattle.proof_check.specs.Inner.Sound.{AreEarlier, IsCapturedAt, IsClosedWhereDue, IsMet, IsScopeMet, IsScopeUnmet, IsSoundAt};
ghost use Rattle.proof_lines.specs.declared.rules.Rule.TheVariants.{Arith, Ask, SfOnE};

use crate::comparisons::is_true_comparison;
use crate::freshness::is_not_fresh;
use crate::hypotheses::are_hypotheses;
use crate::hypothesis_sets::is_open;
use crate::line_sets::LineSet;
use crate::premises::{has_form, line_at, premise_at};
use crate::scope::is_within_scope;
use crate::substitutions::line_match;
use nal_rules::Fault;
use nal_subst::Match;
use nal_term::{Formula, Steps, equal_counted, is_closed_counted};
use proof_lines::{Line, Proof, Rule};
use std::sync::ledger::Ledger;

/// The first fault of the line with this number, counted from 1. None exactly where the line has no
/// fault, or where there is no such line. `docs/LOGIC.md`, "Faults", says when each applies.
pub fn line_fault<L: Ledger>(
    proof: &Proof,
    goal: &Formula,
    sets: &[LineSet],
    number: u64,
    steps: &mut Steps<L>,
) -> Option<Fault>
    requires sets { AreHypothesisSets (line_trees proof.now) sets.now }
    ensures fault { MatchOption result
        (IsSoundAt (line_trees proof.now) (formula_tree goal.now) number)
        (λ fault. HasFault (line_trees proof.now) (formula_tree goal.now) number fault) }
    ensures least { steps.old ≤ steps.new }
    ensures most { steps.new ≤ steps.old + line_steps (length proof.now) (greatest_in (line_trees proof.now)) }
    ensures goal { IsNone result → 0 < number → number ≡ length proof.now
        → steps.old + node_count (formula_tree goal.now) ≤ steps.new }
{
    let line = line_at(proof, number)?;
    let found = line_match(proof, line, steps);
    for place in 0..12 {
        let fault = fault_at(place);
        if !is_met(proof, goal, sets, number, line, found, fault, steps) {
            return Some(fault);
        }
    }
    None
}

/// The fault at this place in their order, counted from 0.
const fn fault_at(place: u64) -> Fault
    requires { place < 12 }
    ensures { result ≡ fault_at place }
{
    match place {
        0 => Fault::NoSuchRef,
        1 => Fault::NotHyp,
        2 => Fault::WrongShape,
        3 => Fault::Capture,
        4 => Fault::NotFresh,
        5 => Fault::OutOfScope,
        6 => Fault::NotTrue,
        7 => Fault::TooManyAsks,
        8 => Fault::NotAsk,
        9 => Fault::NotClosed,
        10 => Fault::StillOpen,
        _ => Fault::NotGoal,
    }
}

/// Whether the line with this number is as it has to be for the fault not to apply. `found` is how the
/// line stands to the substitution of its rule.
fn is_met<L: Ledger>(
    proof: &Proof,
    goal: &Formula,
    sets: &[LineSet],
    number: u64,
    line: &Line,
    found: Match,
    fault: Fault,
    steps: &mut Steps<L>,
) -> bool
    requires sets { AreHypothesisSets (line_trees proof.now) sets.now }
    requires form { HasRuleForm (line_tree line.now) }
    requires size { line_size (line_tree line.now) ≤ greatest_in (line_trees proof.now) }
    requires within { number ≤ length proof.now }
    requires captured { (found ≡ Match.Capture) ↔ IsCapturedAt (line_trees proof.now) (line_tree line.now) }
    requires formed { takes_term line.now.rule ≡ true
        → (found ≢ Match.No) ↔ HasFormAt (line_trees proof.now) (line_tree line.now) }
    ensures met { IsTrue result
        → IsMet (line_trees proof.now) (formula_tree goal.now) number (line_tree line.now) fault }
    ensures unmet { IsFalse result
        → Applies (line_trees proof.now) (formula_tree goal.now) number (line_tree line.now) fault }
    ensures least { steps.old ≤ steps.new }
    ensures most { steps.new ≤ steps.old + fault_steps (length proof.now) (greatest_in (line_trees proof.now)) fault }
    ensures goal { IsTrue result → fault ≡ Fault.NotGoal → number ≡ length proof.now
        → steps.old + node_count (formula_tree goal.now) ≤ steps.new }
{
    match fault {
        Fault::NoSuchRef => are_earlier(line.refs.as_slice(), number),
        Fault::WrongShape => has_form(proof, line, found, steps),
        Fault::OutOfScope => is_within_scope_where_due(proof, line, steps),
        Fault::NotTrue => is_true_where_due(line),
        Fault::TooManyAsks => are_few_where_asked(proof, number, line),
        Fault::NotAsk => is_statement_where_asked(line),
        Fault::NotClosed => is_closed_where_due(line, steps),
        Fault::NotGoal => is_goal_where_last(proof, goal, number, line, steps),
        Fault::StillOpen => is_closed_where_last(proof, sets, number),
        Fault::NotHyp => are_hypotheses(proof, line),
        Fault::NotFresh => !is_not_fresh(proof, sets, line, steps),
        Fault::Capture => !matches!(found, Match::Capture),
    }
}

/// Whether each reference is the number of an earlier line.
fn are_earlier(refs: &[u64], number: u64) -> bool
    ensures { IsTrue result ↔ AreEarlier number refs.now }
{
    refs.iter()
        .all(|reference| 0 < *reference && *reference < number)
}

/// Whether the line hands on what is in the scope of the delegation, where it has one.
fn is_within_scope_where_due<L: Ledger>(proof: &Proof, line: &Line, steps: &mut Steps<L>) -> bool
    requires form { HasRuleForm (line_tree line.now) }
    ensures met { IsTrue result → IsScopeMet (line_trees proof.now) (line_tree line.now) }
    ensures unmet { IsFalse result → IsScopeUnmet (line_trees proof.now) (line_tree line.now) }
    ensures least { steps.old ≤ steps.new }
    ensures most { steps.new ≤ steps.old + greatest_in (line_trees proof.now) }
{
    match line.rule {
        Rule::SfOnE => is_within_scope_at(proof, line, steps),
        _ => true,
    }
}

/// The same for a line of the rule that asks for it.
fn is_within_scope_at<L: Ledger>(proof: &Proof, line: &Line, steps: &mut Steps<L>) -> bool
    requires form { HasRuleForm (line_tree line.now) }
    requires rule { line.now.rule ≡ SfOnE }
    ensures met { IsTrue result → IsScopeMet (line_trees proof.now) (line_tree line.now) }
    ensures unmet { IsFalse result → IsScopeUnmet (line_trees proof.now) (line_tree line.now) }
    ensures least { steps.old ≤ steps.new }
    ensures most { steps.new ≤ steps.old + greatest_in (line_trees proof.now) }
{
    let Some(first) = premise_at(proof, line, 0) else {
        return true;
    };
    let Some(second) = premise_at(proof, line, 1) else {
        return true;
    };
    is_within_scope(first, second, steps)
}

/// Whether the line is a true comparison of two numbers, where the rule asks for that.
fn is_true_where_due(line: &Line) -> bool
    ensures { IsTrue result ↔ (line.now.rule ≡ Arith → IsTrueComparison (formula_tree line.now.formula)) }
{
    !matches!(line.rule, Rule::Arith) || is_true_comparison(&line.formula)
}

/// Whether there are at most 16 ask lines up to the line, where it is one.
fn are_few_where_asked(proof: &Proof, number: u64, line: &Line) -> bool
    requires within { number ≤ length proof.now }
    ensures { IsTrue result
        ↔ (line.now.rule ≡ Ask → length (filter is_ask (take number (line_trees proof.now))) ≤ 16) }
{
    !matches!(line.rule, Rule::Ask) || asks_until(proof, number) <= 16
}

/// How many ask lines there are up to the line with this number.
fn asks_until(proof: &Proof, number: u64) -> u64
    requires within { number ≤ length proof.now }
    ensures { result ≡ length (filter is_ask (take number (line_trees proof.now))) }
{
    let mut count: u64 = 0;
    for line in &proof.as_slice()[..number as usize] {
        if matches!(line.rule, Rule::Ask) {
            count += 1;
        }
    }
    count
}

/// Whether the line is a statement of somebody, where it is an ask line.
fn is_statement_where_asked(line: &Line) -> bool
    ensures { IsTrue result ↔ (line.now.rule ≡ Ask → IsSays (formula_tree line.now.formula)) }
{
    !matches!(line.rule, Rule::Ask) || is_statement(&line.formula)
}

fn is_statement(f: &Formula) -> bool
    ensures { IsTrue result ↔ IsSays (formula_tree f.now) }
{
    matches!(f, Formula::Says(_, _))
}

/// Whether the line's formula is closed, where the rule asks for that.
fn is_closed_where_due<L: Ledger>(line: &Line, steps: &mut Steps<L>) -> bool
    ensures closed { IsTrue result ↔ IsClosedWhereDue (line_tree line.now) }
    ensures least { steps.old ≤ steps.new }
    ensures most { steps.new ≤ steps.old + node_count (formula_tree line.now.formula) }
{
    !matches!(line.rule, Rule::Label | Rule::Ask) || is_closed_counted(&line.formula, steps)
}

/// Whether the line is the goal, where it is the last.
fn is_goal_where_last<L: Ledger>(
    proof: &Proof,
    goal: &Formula,
    number: u64,
    line: &Line,
    steps: &mut Steps<L>,
) -> bool
    ensures goal { IsTrue result
        ↔ (number ≡ length proof.now → formula_tree line.now.formula ≡ formula_tree goal.now) }
    ensures least { steps.old ≤ steps.new }
    ensures most { steps.new ≤ steps.old + node_count (formula_tree line.now.formula) }
    ensures all { IsTrue result → number ≡ length proof.now
        → steps.new ≡ steps.old + node_count (formula_tree goal.now) }
{
    number != proof.count() || equal_counted(&line.formula, goal, steps)
}

/// Whether the line rests on no hypothesis, where it is the last.
fn is_closed_where_last(proof: &Proof, sets: &[LineSet], number: u64) -> bool
    requires sets { AreHypothesisSets (line_trees proof.now) sets.now }
    ensures { IsFalse result
        ↔ ((number ≡ length proof.now) × ((h : ℕ) × RestsOn (line_trees proof.now) number h)) }
{
    number != proof.count() || !is_open(proof, sets, number)
}
