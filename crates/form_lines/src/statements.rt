//! The formulas that stand in the lines of an input.
ghost use Rattle.std.specs.Prelude.{◌≡◌, ◌≢◌, ◌↔◌, ◌∷◌, ◌++◌, [], IfErr, IfOk, IfSome, IsTrue, Some, codes, map};
ghost use Rattle.nal_term.specs.Trees.{TermTree, FormulaTree, formula_tree, says};
ghost use Rattle.nal_term.specs.Trees as tree;
ghost use Rattle.nal_parse.specs.Grammar.{IsFormulaText};
ghost use Rattle.nal_subst.specs.Substitution.{formula_with};
ghost use Rattle.form_lines.specs.Statements.{IsGoal, IsStatement};

use nal_parse::{ParseError, parse_formula};
use nal_subst::{SubstError, substitute};
use nal_term::{Formula, Name, Term, is_closed, is_closed_but};
use std::alloc::{AllocError, Global};

/// Why a line was not read.
#[derive(Clone, Copy, Debug, PartialEq, Eq)]
pub enum LineError {
    /// No such line may stand there.
    Wrong,
    /// There was no memory for what it holds.
    Memory,
}

/// The list with the formula of this text, a closed `P says S`, at its end. `Wrong` exactly where the text is
/// none.
pub fn with_statement(
    alloc: Global,
    mut formulas: Vec<Formula>,
    text: &[u8],
) -> Result<Vec<Formula>, LineError>
    ensures ok { IfOk result (λ longer. (f : FormulaTree) × IsStatement text.now f
        × (map formula_tree longer.items ≡ map formula_tree formulas.items ++ f ∷ [])) }
    ensures only { IfOk result (λ longer. (f : FormulaTree) → IsStatement text.now f
        → map formula_tree longer.items ≡ map formula_tree formulas.items ++ f ∷ []) }
    ensures wrong { IfErr result (λ e. e ≢ LineError.Memory → (f : FormulaTree) → ¬ IsStatement text.now f) }
{
    match statement(alloc, text) {
        Ok(formula) => match formulas.push(formula) {
            Ok(()) => Ok(formulas),
            Err(_) => Err(LineError::Memory),
        },
        Err(error) => Err(error),
    }
}

/// The formula of this text, a closed `P says S`. `Wrong` exactly where the text is none. `docs/FORMATS.md`, "The check form",
/// states where it may stand.
pub fn statement(alloc: Global, text: &[u8]) -> Result<Formula, LineError>
    ensures ok { IfOk result (λ f. IsStatement text.now (formula_tree f)) }
    ensures only { IfOk result (λ f. (g : FormulaTree) → IsStatement text.now g → g ≡ formula_tree f) }
    ensures wrong { IfErr result (λ e. e ≢ LineError.Memory → (f : FormulaTree) → ¬ IsStatement text.now f) }
{
    let formula = match formula(alloc, text) {
        Ok(formula) => formula,
        Err(error) => return Err(error),
    };
    if !is_said(&formula) {
        return Err(LineError::Wrong);
    }
    if !is_closed(&formula) {
        return Err(LineError::Wrong);
    }
    Ok(formula)
}

/// The formula of this text, whose only free variable is `?subject`. `Wrong` exactly where the text is none.
pub fn goal(alloc: Global, text: &[u8]) -> Result<Formula, LineError>
    ensures ok { IfOk result (λ g. IsGoal text.now (formula_tree g)) }
    ensures only { IfOk result (λ g. (f : FormulaTree) → IsGoal text.now f → f ≡ formula_tree g) }
    ensures wrong { IfErr result (λ e. e ≢ LineError.Memory → (g : FormulaTree) → ¬ IsGoal text.now g) }
{
    let formula = match formula(alloc, text) {
        Ok(formula) => formula,
        Err(error) => return Err(error),
    };
    let Some(subject) = subject_variable(alloc) else {
        return Err(LineError::Memory);
    };
    if !is_closed_but(&formula, &subject) {
        return Err(LineError::Wrong);
    }
    Ok(formula)
}

/// The name of the variable that stands for the caller. None where there is no memory for it.
fn subject_variable(alloc: Global) -> Option<Name>
    ensures { IfSome result (λ name. name ≡ codes "subject") }
{
    match Name::of(alloc, "subject".as_bytes()) {
        Ok(name) => Some(name),
        Err(_) => None,
    }
}

/// The goal with the subject's name in place of `?subject`. An `Err` is want of memory.
pub fn goal_for_subject(
    alloc: Global,
    goal: &Formula,
    subject: &Name,
) -> Result<Formula, AllocError>
    ensures { IfOk result
        (λ g. formula_with (codes "subject") (tree.name subject.now) (formula_tree goal.now) ≡ Some (formula_tree g)) }
{
    let Some(variable) = subject_variable(alloc) else {
        return Err(AllocError);
    };
    let name = Term::Name(subject.copy(alloc)?);
    match substitute(alloc, goal, &variable, &name) {
        Ok(goal) => Ok(goal),
        // A name holds no variable that could be captured.
        Err(SubstError::Capture) => unreachable!(),
        Err(SubstError::Memory) => Err(AllocError),
    }
}

/// The formula of this text. `Wrong` exactly where the text is none.
pub fn formula(alloc: Global, text: &[u8]) -> Result<Formula, LineError>
    ensures ok { IfOk result (λ f. IsFormulaText text.now (formula_tree f)) }
    ensures only { IfOk result (λ f. (g : FormulaTree) → IsFormulaText text.now g → g ≡ formula_tree f) }
    ensures wrong { IfErr result (λ e. e ≢ LineError.Memory → (g : FormulaTree) → ¬ IsFormulaText text.now g) }
{
    match parse_formula(alloc, text) {
        Ok(formula) => Ok(formula),
        Err(error) => match error {
            ParseError::Memory => Err(LineError::Memory),
            _ => Err(LineError::Wrong),
        },
    }
}

/// Whether the formula is what somebody says.
fn is_said(formula: &Formula) -> bool
    ensures { IsTrue result ↔ ((p : TermTree) × (s : FormulaTree) × (formula_tree formula.now ≡ says p s)) }
{
    matches!(formula, Formula::Says(_, _))
}
