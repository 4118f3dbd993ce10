//! What the lines of a proof rest on: labels that are held, and bindings of the principals that are asked. `docs/LOGIC.md`,
//! "Verdicts", says which line is told.
ghost use Rattle.std.specs.Prelude.{◌≡◌, ◌↔◌, ℕ, IfNone, IfSome, IsTrue, Contains, MatchOption, map};
ghost use Rattle.nal_term.specs.Trees.{FormulaTree, TermTree, formula_tree, term_tree};
ghost use Rattle.proof_lines.specs.Lines.{line_trees};
ghost use Rattle.nal_rules.specs.Asking.{binding_tree, port_in};
ghost use Rattle.nal_rules.specs.Verdicts.{IsAskOf, IsLowest, IsMissingLabel, IsUnbound};

use nal_rules::Binding;
use nal_term::{Formula, Term, equal, equal_terms};
use proof_lines::{Proof, Rule};

/// Whether the formula is one of the list's.
fn contains(formulas: &[Formula], formula: &Formula) -> bool
    ensures { IsTrue result ↔ Contains (map formula_tree formulas.now) (formula_tree formula.now) }
{
    for other in formulas {
        if equal(other, formula) {
            return true;
        }
    }
    false
}

/// The port to which a principal is bound. None exactly where it is bound to none.
pub fn port_of(bound: &[Binding], principal: &Term) -> Option<u64>
    ensures { result ≡ port_in (map binding_tree bound.now) (term_tree principal.now) }
{
    for binding in bound {
        if equal_terms(principal, &binding.principal) {
            return Some(binding.port);
        }
    }
    None
}

/// Whether the line with this number is a label line whose formula is not among the labels.
fn is_missing_label(proof: &Proof, labels: &[Formula], number: u64) -> bool
    ensures { IsTrue result ↔ IsMissingLabel (line_trees proof.now) (map formula_tree labels.now) number }
{
    let Some(line) = proof.line(number) else {
        return false;
    };
    match line.rule {
        Rule::Label => !contains(labels, &line.formula),
        _ => false,
    }
}

/// The lowest label line whose formula is not among the labels.
pub fn missing_label(proof: &Proof, labels: &[Formula]) -> Option<u64>
    ensures { MatchOption result
        ((k : ℕ) → ¬ IsMissingLabel (line_trees proof.now) (map formula_tree labels.now) k)
        (λ k. IsLowest (IsMissingLabel (line_trees proof.now) (map formula_tree labels.now)) k) }
{
    for number in 1..proof.count() + 1 {
        if is_missing_label(proof, labels, number) {
            return Some(number);
        }
    }
    None
}

/// The principal of an ask line, and what it is asked. None exactly where the line is no ask line of a principal's
/// statement.
pub fn question(proof: &Proof, number: u64) -> Option<(&Term, &Formula)>
    ensures asked { IfSome result
        (λ q. IsAskOf (line_trees proof.now) number (term_tree q.0.now) (formula_tree q.1.now)) }
    ensures none { IfNone result ((p : TermTree) (s : FormulaTree) → ¬ IsAskOf (line_trees proof.now) number p s) }
{
    let line = proof.line(number)?;
    match line.rule {
        Rule::Ask => match &line.formula {
            Formula::Says(principal, statement) => Some((principal, &**statement)),
            _ => None,
        },
        _ => None,
    }
}

/// Whether the line with this number is an ask line whose principal is bound to no port.
fn is_unbound(proof: &Proof, bound: &[Binding], number: u64) -> bool
    ensures { IsTrue result ↔ IsUnbound (line_trees proof.now) (map binding_tree bound.now) number }
{
    match question(proof, number) {
        Some((principal, _)) => port_of(bound, principal).is_none(),
        None => false,
    }
}

/// The lowest ask line whose principal is bound to no port.
pub fn unbound_line(proof: &Proof, bound: &[Binding]) -> Option<u64>
    ensures { MatchOption result
        ((k : ℕ) → ¬ IsUnbound (line_trees proof.now) (map binding_tree bound.now) k)
        (λ k. IsLowest (IsUnbound (line_trees proof.now) (map binding_tree bound.now)) k) }
{
    for number in 1..proof.count() + 1 {
        if is_unbound(proof, bound, number) {
            return Some(number);
        }
    }
    None
}
