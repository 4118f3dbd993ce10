ghost use Rattle.std.specs.Prelude.{◌≡◌, ◌↔◌, ◌+◌, ◌≤◌, ◌∷◌, [], false, IsTrue, option_map};
ghost use Rattle.nal_term.specs.Size.{node_count};
ghost use Rattle.nal_term.specs.Trees.{formula_tree, term_tree};
ghost use Rattle.proof_lines.specs.Lines.{HasRuleForm, line_tree, takes_term};
ghost use Rattle.nal_rules.specs.Faults.{HasForm};

use crate::comparison_forms::{
    has_eq_refl_form, has_eq_sym_form, has_eq_trans_form, has_lt_trans_form,
};
use crate::logic_forms::{
    has_and_i_form, has_and_l_form, has_and_r_form, has_exists_e_form, has_false_e_form,
    has_forall_i_form, has_imp_e_form, has_imp_i_form, has_or_e_form, has_or_l_form, has_or_r_form,
    has_true_i_form,
};
use crate::statement_forms::{
    has_deduce_form, has_handoff_form, has_handoff_on_form, has_says_i_form, has_says_join_form,
    has_sf_e_form, has_sf_on_e_form, has_sf_refl_form, has_sf_sub_form, has_sf_trans_form,
    has_sf_weak_form,
};
use nal_term::{Formula, Steps};
use proof_lines::{Line, Rule};
use std::sync::ledger::Ledger;

/// Whether a line without references has the form of its rule.
pub fn has_form_of_none<L: Ledger>(line: &Line, steps: &mut Steps<L>) -> bool
    requires form { HasRuleForm (line_tree line.now) }
    ensures form { IsTrue result
        ↔ HasForm line.now.rule [] (option_map term_tree line.now.term) (formula_tree line.now.formula) }
    ensures least { steps.old ≤ steps.new }
    ensures most { steps.new ≤ steps.old + node_count (formula_tree line.now.formula) }
{
    match line.rule {
        Rule::Label | Rule::Ask | Rule::Hyp | Rule::Arith => true,
        Rule::TrueI => has_true_i_form(&line.formula),
        Rule::EqRefl => has_eq_refl_form(&line.formula, steps),
        Rule::SfRefl => has_sf_refl_form(&line.formula, steps),
        Rule::SfSub => has_sf_sub_form(&line.formula, steps),
        _ => false,
    }
}

/// Whether a line with one reference, to a line with this formula, has the form of its rule.
pub fn has_form_of_one<L: Ledger>(line: &Line, first: &Formula, steps: &mut Steps<L>) -> bool
    requires form { HasRuleForm (line_tree line.now) }
    requires plain { takes_term line.now.rule ≡ false }
    ensures form { IsTrue result
        ↔ HasForm line.now.rule (formula_tree first.now ∷ []) (option_map term_tree line.now.term)
        (formula_tree line.now.formula) }
    ensures least { steps.old ≤ steps.new }
    ensures most { steps.new
        ≤ steps.old + node_count (formula_tree first.now) + node_count (formula_tree line.now.formula) }
{
    match line.rule {
        Rule::AndL => has_and_l_form(first, &line.formula, steps),
        Rule::AndR => has_and_r_form(first, &line.formula, steps),
        Rule::OrL => has_or_l_form(first, &line.formula, steps),
        Rule::OrR => has_or_r_form(first, &line.formula, steps),
        Rule::ForallI => has_forall_i_form(first, &line.formula, steps),
        Rule::FalseE => has_false_e_form(first, &line.formula),
        Rule::EqSym => has_eq_sym_form(first, &line.formula, steps),
        Rule::SaysI => has_says_i_form(first, &line.formula, steps),
        Rule::SaysJoin => has_says_join_form(first, &line.formula, steps),
        Rule::SfWeak => has_sf_weak_form(first, &line.formula, steps),
        Rule::Handoff => has_handoff_form(first, &line.formula, steps),
        Rule::HandoffOn => has_handoff_on_form(first, &line.formula, steps),
        _ => false,
    }
}

/// Whether a line with two references, to lines with these formulas, has the form of its rule.
pub fn has_form_of_two<L: Ledger>(
    line: &Line,
    first: &Formula,
    second: &Formula,
    steps: &mut Steps<L>,
) -> bool
    requires form { HasRuleForm (line_tree line.now) }
    ensures form { IsTrue result
        ↔ HasForm line.now.rule (formula_tree first.now ∷ formula_tree second.now ∷ [])
        (option_map term_tree line.now.term) (formula_tree line.now.formula) }
    ensures least { steps.old ≤ steps.new }
    ensures most { steps.new
        ≤ steps.old + node_count (formula_tree first.now) + node_count (formula_tree second.now) + node_count
        (formula_tree line.now.formula) }
{
    match line.rule {
        Rule::AndI => has_and_i_form(first, second, &line.formula, steps),
        Rule::ImpI => has_imp_i_form(first, second, &line.formula, steps),
        Rule::ImpE => has_imp_e_form(first, second, &line.formula, steps),
        Rule::EqTrans => has_eq_trans_form(first, second, &line.formula, steps),
        Rule::LtTrans => has_lt_trans_form(first, second, &line.formula, steps),
        Rule::Deduce => has_deduce_form(first, second, &line.formula, steps),
        Rule::SfTrans => has_sf_trans_form(first, second, &line.formula, steps),
        Rule::SfE => has_sf_e_form(first, second, &line.formula, steps),
        Rule::SfOnE => has_sf_on_e_form(first, second, &line.formula, steps),
        _ => false,
    }
}

/// Whether a line with three references, to lines with these formulas, has the form of its rule.
pub fn has_form_of_three<L: Ledger>(
    line: &Line,
    first: &Formula,
    second: &Formula,
    third: &Formula,
    steps: &mut Steps<L>,
) -> bool
    requires form { HasRuleForm (line_tree line.now) }
    ensures form { IsTrue result
        ↔ HasForm line.now.rule (formula_tree first.now ∷ formula_tree second.now ∷ formula_tree third.now ∷ [])
        (option_map term_tree line.now.term) (formula_tree line.now.formula) }
    ensures least { steps.old ≤ steps.new }
    ensures most { steps.new ≤ steps.old + node_count (formula_tree first.now) + node_count (formula_tree third.now) }
{
    match line.rule {
        Rule::ExistsE => has_exists_e_form(first, second, third, &line.formula, steps),
        _ => false,
    }
}

/// Whether a line with five references, to lines with these formulas, has the form of its rule.
pub fn has_form_of_five<L: Ledger>(
    line: &Line,
    first: &Formula,
    second: &Formula,
    third: &Formula,
    fourth: &Formula,
    fifth: &Formula,
    steps: &mut Steps<L>,
) -> bool
    requires form { HasRuleForm (line_tree line.now) }
    ensures form { IsTrue result
        ↔ HasForm line.now.rule
        (formula_tree first.now ∷ formula_tree second.now ∷ formula_tree third.now ∷ formula_tree fourth.now
        ∷ formula_tree fifth.now ∷ []) (option_map term_tree line.now.term) (formula_tree line.now.formula) }
    ensures least { steps.old ≤ steps.new }
    ensures most { steps.new
        ≤ steps.old + node_count (formula_tree first.now) + node_count (formula_tree third.now) + node_count
        (formula_tree fifth.now) }
{
    match line.rule {
        Rule::OrE => has_or_e_form(first, second, third, fourth, fifth, &line.formula, steps),
        _ => false,
    }
}
