ghost use Rattle.std.specs.Prelude.{◌≡◌, ◌≢◌, ◌↔◌, ◌∷◌, ◌++◌, [], IfErr, IfOk, IsTrue, codes};
ghost use Rattle.nal_term.specs.Trees.{FormulaTree};
ghost use Rattle.form_lines.specs.Statements.{IsStatement};
ghost use Rattle.answer_commands.specs.Inner.Forms.{formula_trees};

use crate::keys::FormulaKey;
use form_lines::{LineError, goal, statement};
use nal_term::{Formula, Name, NameError};
use std::alloc::Global;
use text_lines::after_word;

/// How much of an input was read before its proof. `docs/FORMATS.md`, "The check form", says which line may
/// stand where.
#[derive(Drop)]
pub enum Progress {
    HeaderDue,
    SubjectDue,
    /// The subject, and the labels so far.
    LabelsDue(Name, Vec<FormulaKey>),
    /// The subject, the labels, and the yes formulas so far.
    YesDue(Name, Vec<FormulaKey>, Vec<FormulaKey>),
    /// The subject, the labels, the yes formulas and the goal.
    ProofDue(Name, Vec<FormulaKey>, Vec<FormulaKey>, Formula),
}

/// How many labels, and how many yes formulas, an input may have.
const MOST_FORMULAS: usize = 4096;

impl Progress {
    ghost use Rattle.std.specs.Prelude.{◌≡◌, ◌≢◌, IfOk, IfErr};
    ghost use Rattle.answer_commands.specs.CheckForm.{Stage, Follows};
    ghost use Rattle.answer_commands.specs.Inner.Forms.{stage_of};

    /// The progress after one line more. `Wrong` exactly where the line may not stand there.
    pub fn after(self, alloc: Global, line: &[u8]) -> Result<Progress, LineError>
        ensures ok { IfOk result (λ next. Follows (stage_of self) line.now (stage_of next)) }
        ensures only { IfOk result
            (λ next. (other : Stage) → Follows (stage_of self) line.now other → other ≡ stage_of next) }
        ensures wrong { IfErr result
            (λ e. e ≢ LineError.Memory → (next : Stage) → ¬ Follows (stage_of self) line.now next) }
    {
        match self {
            Progress::HeaderDue => {
                if !is_header(line) {
                    return Err(LineError::Wrong);
                }
                Ok(Progress::SubjectDue)
            }
            Progress::SubjectDue => Progress::after_subject(alloc, line),
            Progress::LabelsDue(subject, labels) => {
                Progress::after_labels(alloc, subject, labels, line)
            }
            Progress::YesDue(subject, labels, yes) => {
                Progress::after_yes(alloc, subject, labels, yes, line)
            }
            Progress::ProofDue(_, _, _, _) => Err(LineError::Wrong),
        }
    }
}

impl Progress {
    ghost use Rattle.std.specs.Prelude.{◌≡◌, ◌≢◌, IfOk, IfErr};
    ghost use Rattle.answer_commands.specs.CheckForm.{Stage, Follows, labels_due, yes_due, subject_due};
    ghost use Rattle.answer_commands.specs.Inner.Forms.{stage_of, formula_trees};

    fn after_subject(alloc: Global, line: &[u8]) -> Result<Progress, LineError>
        ensures ok { IfOk result (λ next. Follows subject_due line.now (stage_of next)) }
        ensures only { IfOk result
            (λ next. (other : Stage) → Follows subject_due line.now other → other ≡ stage_of next) }
        ensures wrong { IfErr result
            (λ e. e ≢ LineError.Memory → (next : Stage) → ¬ Follows subject_due line.now next) }
    {
        let Some(name) = after_word(line, "subject ") else {
            return Err(LineError::Wrong);
        };
        match Name::of(alloc, name) {
            Ok(subject) => Ok(Progress::LabelsDue(subject, Vec::new(alloc))),
            Err(NameError::Bad) => Err(LineError::Wrong),
            Err(NameError::Memory) => Err(LineError::Memory),
        }
    }

    fn after_labels(
        alloc: Global,
        subject: Name,
        labels: Vec<FormulaKey>,
        line: &[u8],
    ) -> Result<Progress, LineError>
        ensures ok { IfOk result
            (λ next. Follows (labels_due subject (formula_trees labels.items)) line.now (stage_of next)) }
        ensures only { IfOk result (λ next. (other : Stage)
            → Follows (labels_due subject (formula_trees labels.items)) line.now other → other ≡ stage_of next) }
        ensures wrong { IfErr result (λ e. e ≢ LineError.Memory →
            (next : Stage) → ¬ Follows (labels_due subject (formula_trees labels.items)) line.now next) }
    {
        if let Some(text) = after_word(line, "label ") {
            if labels.len() >= MOST_FORMULAS {
                return Err(LineError::Wrong);
            }
            return match with_key(alloc, labels, text) {
                Ok(labels) => Ok(Progress::LabelsDue(subject, labels)),
                Err(error) => Err(error),
            };
        }
        if let Some(text) = after_word(line, "yes ") {
            return match with_key(alloc, Vec::new(alloc), text) {
                Ok(yes) => Ok(Progress::YesDue(subject, labels, yes)),
                Err(error) => Err(error),
            };
        }
        let Some(text) = after_word(line, "goal ") else {
            return Err(LineError::Wrong);
        };
        match goal(alloc, text) {
            Ok(goal) => Ok(Progress::ProofDue(subject, labels, Vec::new(alloc), goal)),
            Err(error) => Err(error),
        }
    }

    fn after_yes(
        alloc: Global,
        subject: Name,
        labels: Vec<FormulaKey>,
        yes: Vec<FormulaKey>,
        line: &[u8],
    ) -> Result<Progress, LineError>
        ensures ok { IfOk result (λ next.
            Follows (yes_due subject (formula_trees labels.items) (formula_trees yes.items)) line.now (stage_of next)) }
        ensures only { IfOk result (λ next. (other : Stage)
            → Follows (yes_due subject (formula_trees labels.items) (formula_trees yes.items)) line.now other
            → other ≡ stage_of next) }
        ensures wrong { IfErr result (λ e. e ≢ LineError.Memory →
            (next : Stage)
            → ¬ Follows (yes_due subject (formula_trees labels.items) (formula_trees yes.items)) line.now next) }
    {
        if let Some(text) = after_word(line, "yes ") {
            if yes.len() >= MOST_FORMULAS {
                return Err(LineError::Wrong);
            }
            return match with_key(alloc, yes, text) {
                Ok(yes) => Ok(Progress::YesDue(subject, labels, yes)),
                Err(error) => Err(error),
            };
        }
        let Some(text) = after_word(line, "goal ") else {
            return Err(LineError::Wrong);
        };
        match goal(alloc, text) {
            Ok(goal) => Ok(Progress::ProofDue(subject, labels, yes, goal)),
            Err(error) => Err(error),
        }
    }
}

/// The list with the key of this text's formula, a closed `P says S`, at its end. `Wrong` exactly where the text is none.
fn with_key(
    alloc: Global,
    mut keys: Vec<FormulaKey>,
    text: &[u8],
) -> Result<Vec<FormulaKey>, LineError>
    ensures ok { IfOk result (λ longer. (f : FormulaTree) × IsStatement text.now f
        × (formula_trees longer.items ≡ formula_trees keys.items ++ f ∷ [])) }
    ensures only { IfOk result (λ longer. (f : FormulaTree) → IsStatement text.now f
        → formula_trees longer.items ≡ formula_trees keys.items ++ f ∷ []) }
    ensures wrong { IfErr result (λ e. e ≢ LineError.Memory → (f : FormulaTree) → ¬ IsStatement text.now f) }
{
    let formula = match statement(alloc, text) {
        Ok(formula) => formula,
        Err(error) => return Err(error),
    };
    let Ok(key) = FormulaKey::of(alloc, &formula) else {
        return Err(LineError::Memory);
    };
    match keys.push(key) {
        Ok(()) => Ok(keys),
        Err(_) => Err(LineError::Memory),
    }
}

/// Whether the line is the first of an input of `check`.
fn is_header(line: &[u8]) -> bool
    ensures { IsTrue result ↔ (line.now ≡ codes "nexus check 1") }
{
    line == "nexus check 1".as_bytes()
}
