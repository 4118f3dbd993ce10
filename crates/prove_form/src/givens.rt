//! What stands in an input of `prove`.
ghost use Rattle.std.specs.Prelude.{◌≡◌, ◌≢◌, ◌<◌, ◌↔◌, IfErr, IfOk, IsTrue, length};
ghost use Rattle.nal_term.specs.Names.{IsName};
ghost use Rattle.nal_term.specs.Trees.{FormulaTree, TermTree, formula_tree, says};
ghost use Rattle.form_lines.specs.Statements.{IsStatement};
ghost use Rattle.prove_form.specs.Inner.Reading.{givens_tree};
ghost use Rattle.prove_form.specs.ProveForm.{IsSaidGoal, subject_alone, with_label};

use form_lines::{LineError, with_statement};
use nal_term::{Formula, Name, NameError};
use std::alloc::Global;

/// What stands before the goal.
#[derive(Drop)]
pub struct Givens {
    /// Who is to reach the goal.
    pub subject: Name,
    /// The labels: closed formulas `P says S`, at most 256.
    pub labels: Vec<Formula>,
}

/// What an input of `prove` holds.
#[derive(Drop)]
pub struct ProveForm {
    pub givens: Givens,
    /// The goal: a formula `B says F`, whose only free variable is `?subject`.
    pub goal: Formula,
}

/// How many labels an input may have.
const MOST_LABELS: usize = 256;

impl Givens {
    /// The givens of the subject with this name, and nothing else. `Wrong` exactly where the text is no name.
    pub fn of_subject(alloc: Global, text: &[u8]) -> Result<Givens, LineError>
        ensures ok { IfOk result (λ givens. givens_tree givens ≡ subject_alone text.now) }
        ensures name { IfOk result (λ _. IsName text.now) }
        ensures wrong { IfErr result (λ e. e ≢ LineError.Memory → ¬ IsName text.now) }
    {
        match Name::of(alloc, text) {
            Ok(subject) => Ok(Givens {
                subject,
                labels: Vec::new(alloc),
            }),
            Err(NameError::Bad) => Err(LineError::Wrong),
            Err(NameError::Memory) => Err(LineError::Memory),
        }
    }

    /// Whether one label more may stand.
    pub fn has_room(&self) -> bool
        ensures { IsTrue result ↔ (length (givens_tree self.now).labels < 256) }
    {
        self.labels.len() < MOST_LABELS
    }

    /// The same with the label of this text. `Wrong` exactly where the text is of none.
    pub fn with_label(self, alloc: Global, text: &[u8]) -> Result<Givens, LineError>
        ensures ok { IfOk result
            (λ next. (f : FormulaTree) × IsStatement text.now f
            × (givens_tree next ≡ with_label (givens_tree self) f)) }
        ensures only { IfOk result
            (λ next. (f : FormulaTree) → IsStatement text.now f → givens_tree next ≡ with_label (givens_tree self) f) }
        ensures wrong { IfErr result (λ e. e ≢ LineError.Memory → (f : FormulaTree) → ¬ IsStatement text.now f) }
    {
        let Givens { subject, labels } = self;
        let labels = with_statement(alloc, labels, text)?;
        Ok(Givens { subject, labels })
    }
}

/// The goal of this text, a formula `B says F` whose only free variable is `?subject`. `Wrong` exactly where the text is none.
pub fn said_goal(alloc: Global, text: &[u8]) -> Result<Formula, LineError>
    ensures ok { IfOk result (λ g. IsSaidGoal text.now (formula_tree g)) }
    ensures only { IfOk result (λ g. (f : FormulaTree) → IsSaidGoal text.now f → f ≡ formula_tree g) }
    ensures wrong { IfErr result (λ e. e ≢ LineError.Memory → (f : FormulaTree) → ¬ IsSaidGoal text.now f) }
{
    let goal = match form_lines::goal(alloc, text) {
        Ok(goal) => goal,
        Err(error) => return Err(error),
    };
    if !is_said(&goal) {
        return Err(LineError::Wrong);
    }
    Ok(goal)
}

/// Whether the formula is what somebody says.
fn is_said(formula: &Formula) -> bool
    ensures { IsTrue result ↔ ((p : TermTree) × (s : FormulaTree) × (formula_tree formula.now ≡ says p s)) }
{
    matches!(formula, Formula::Says(_, _))
}
