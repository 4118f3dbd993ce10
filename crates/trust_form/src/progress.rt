//! Which line may follow which in an input of `trust`.
ghost use Rattle.std.specs.Prelude.{◌≡◌, ◌≢◌, ◌↔◌, IfErr, IfOk, IsTrue};
ghost use Rattle.trust_form.specs.Inner.Reading.{IsAfter, form_tree, givens_tree, stage_of};
ghost use Rattle.trust_form.specs.TrustForm.{Follows, Stage, end_due, goal_due, header_due, subject_due};

use crate::givens::{Givens, TrustForm};
use crate::words::{Word, word_of};
use form_lines::{LineError, Progress, goal};
use std::alloc::Global;
use text_lines::after_word;

/// How much of an input was read. `docs/FORMATS.md`, "The input of `trust`", says which line may stand where.
#[derive(Drop)]
pub enum TrustProgress {
    HeaderDue,
    SubjectDue,
    /// The goal, or more of what stands before it.
    GoalDue(Givens),
    EndDue(TrustForm),
    Ended(TrustForm),
}

impl Progress for TrustProgress {
    ghost use Rattle.trust_form.specs.Inner.Reading.{stage_of};
    ghost use Rattle.trust_form.specs.TrustForm.{Follows, IsEnded, Stage};

    ghost Stage = { Stage };

    ghost stage = { stage_of };

    ghost follows = { Follows };

    ghost is_end = { IsEnded };

    fn after(self, alloc: Global, line: &[u8]) -> Result<TrustProgress, LineError> {
        match self {
            TrustProgress::HeaderDue => after_start(line),
            TrustProgress::SubjectDue => after_subject(alloc, line),
            TrustProgress::GoalDue(givens) => after_givens(alloc, givens, line),
            TrustProgress::EndDue(form) => after_goal(form, line),
            TrustProgress::Ended(_) => Err(LineError::Wrong),
        }
    }

    fn is_ended(&self) -> bool {
        matches!(self, TrustProgress::Ended(_))
    }
}

fn after_start(line: &[u8]) -> Result<TrustProgress, LineError>
    ensures ok { IfOk result (λ next. Follows header_due line.now (stage_of next)) }
    ensures only { IfOk result (λ next. (other : Stage) → Follows header_due line.now other → other ≡ stage_of next) }
    ensures wrong { IfErr result (λ e. e ≢ LineError.Memory → (next : Stage) → ¬ Follows header_due line.now next) }
{
    if is_line(line, "nexus trust 1") {
        Ok(TrustProgress::SubjectDue)
    } else {
        Err(LineError::Wrong)
    }
}

fn after_goal(form: TrustForm, line: &[u8]) -> Result<TrustProgress, LineError>
    ensures ok { IfOk result (λ next. Follows (end_due (form_tree form)) line.now (stage_of next)) }
    ensures only { IfOk result
        (λ next. (other : Stage) → Follows (end_due (form_tree form)) line.now other → other ≡ stage_of next) }
    ensures wrong { IfErr result
        (λ e. e ≢ LineError.Memory → (next : Stage) → ¬ Follows (end_due (form_tree form)) line.now next) }
{
    if is_line(line, "end") {
        Ok(TrustProgress::Ended(form))
    } else {
        Err(LineError::Wrong)
    }
}

/// Whether the line is this text.
fn is_line(line: &[u8], text: &str) -> bool
    ensures { IsTrue result ↔ (line.now ≡ text.now) }
{
    line == text.as_bytes()
}

fn after_subject(alloc: Global, line: &[u8]) -> Result<TrustProgress, LineError>
    ensures ok { IfOk result (λ next. Follows subject_due line.now (stage_of next)) }
    ensures only { IfOk result (λ next. (other : Stage) → Follows subject_due line.now other → other ≡ stage_of next) }
    ensures wrong { IfErr result (λ e. e ≢ LineError.Memory → (next : Stage) → ¬ Follows subject_due line.now next) }
{
    let Some(name) = after_word(line, "subject ") else {
        return Err(LineError::Wrong);
    };
    match Givens::of_subject(alloc, name) {
        Ok(givens) => Ok(TrustProgress::GoalDue(givens)),
        Err(error) => Err(error),
    }
}

fn after_givens(alloc: Global, givens: Givens, line: &[u8]) -> Result<TrustProgress, LineError>
    ensures ok { IfOk result (λ next. Follows (goal_due (givens_tree givens)) line.now (stage_of next)) }
    ensures only { IfOk result (λ next. (other : Stage)
        → Follows (goal_due (givens_tree givens)) line.now other → other ≡ stage_of next) }
    ensures wrong { IfErr result (λ e. e ≢ LineError.Memory →
        (next : Stage) → ¬ Follows (goal_due (givens_tree givens)) line.now next) }
{
    let Some((word, text)) = word_of(line) else {
        return Err(LineError::Wrong);
    };
    if !givens.may_stand(word) {
        return Err(LineError::Wrong);
    }
    match after_text(alloc, givens, word, text) {
        Ok(next) => Ok(next),
        Err(error) => Err(error),
    }
}

/// The progress after the text behind a word. `Wrong` exactly where the text is not as the word asks.
fn after_text(
    alloc: Global,
    givens: Givens,
    word: Word,
    text: &[u8],
) -> Result<TrustProgress, LineError>
    ensures ok { IfOk result (λ next. IsAfter word (givens_tree givens) text.now (stage_of next)) }
    ensures only { IfOk result
        (λ next. (other : Stage) → IsAfter word (givens_tree givens) text.now other → other ≡ stage_of next) }
    ensures wrong { IfErr result
        (λ e. e ≢ LineError.Memory → (next : Stage) → ¬ IsAfter word (givens_tree givens) text.now next) }
{
    match word {
        Word::Goal => match goal(alloc, text) {
            Ok(goal) => Ok(TrustProgress::EndDue(TrustForm { givens, goal })),
            Err(error) => Err(error),
        },
        _ => match givens.with(alloc, word, text) {
            Ok(givens) => Ok(TrustProgress::GoalDue(givens)),
            Err(error) => Err(error),
        },
    }
}
