//! Which line may follow which in an input of `prove`.
ghost use Rattle.std.specs.Prelude.{◌≡◌, ◌≢◌, ◌↔◌, IfErr, IfOk, IsTrue};
ghost use Rattle.prove_form.specs.Inner.Reading.{IsAfterGoal, IsAfterLabel, form_tree, givens_tree, stage_of};
ghost use Rattle.prove_form.specs.ProveForm.{Follows, Stage, end_due, goal_due, header_due, subject_due};

use crate::givens::{Givens, ProveForm, said_goal};
use form_lines::{LineError, Progress};
use std::alloc::Global;
use text_lines::after_word;

/// How much of an input was read. `docs/FORMATS.md`, "The input of `prove`", says which line may stand where.
#[derive(Drop)]
pub enum ProveProgress {
    HeaderDue,
    SubjectDue,
    /// The goal, or more of what stands before it.
    GoalDue(Givens),
    EndDue(ProveForm),
    Ended(ProveForm),
}

impl Progress for ProveProgress {
    ghost use Rattle.prove_form.specs.Inner.Reading.{stage_of};
    ghost use Rattle.prove_form.specs.ProveForm.{Follows, IsEnded, Stage};

    ghost Stage = { Stage };

    ghost stage = { stage_of };

    ghost follows = { Follows };

    ghost is_end = { IsEnded };

    fn after(self, alloc: Global, line: &[u8]) -> Result<ProveProgress, LineError> {
        match self {
            ProveProgress::HeaderDue => after_start(line),
            ProveProgress::SubjectDue => after_subject(alloc, line),
            ProveProgress::GoalDue(givens) => after_givens(alloc, givens, line),
            ProveProgress::EndDue(form) => after_form(form, line),
            ProveProgress::Ended(_) => Err(LineError::Wrong),
        }
    }

    fn is_ended(&self) -> bool {
        matches!(self, ProveProgress::Ended(_))
    }
}

fn after_start(line: &[u8]) -> Result<ProveProgress, LineError>
    ensures ok { IfOk result (λ next. Follows header_due line.now (stage_of next)) }
    ensures only { IfOk result (λ next. (other : Stage) → Follows header_due line.now other → other ≡ stage_of next) }
    ensures wrong { IfErr result (λ e. e ≢ LineError.Memory → (next : Stage) → ¬ Follows header_due line.now next) }
{
    if is_line(line, "nexus prove 1") {
        Ok(ProveProgress::SubjectDue)
    } else {
        Err(LineError::Wrong)
    }
}

fn after_form(form: ProveForm, line: &[u8]) -> Result<ProveProgress, LineError>
    ensures ok { IfOk result (λ next. Follows (end_due (form_tree form)) line.now (stage_of next)) }
    ensures only { IfOk result
        (λ next. (other : Stage) → Follows (end_due (form_tree form)) line.now other → other ≡ stage_of next) }
    ensures wrong { IfErr result
        (λ e. e ≢ LineError.Memory → (next : Stage) → ¬ Follows (end_due (form_tree form)) line.now next) }
{
    if is_line(line, "end") {
        Ok(ProveProgress::Ended(form))
    } else {
        Err(LineError::Wrong)
    }
}

/// Whether the line is this text.
fn is_line(line: &[u8], text: &str) -> bool
    ensures { IsTrue result ↔ (line.now ≡ text.now) }
{
    line == text.as_bytes()
}

fn after_subject(alloc: Global, line: &[u8]) -> Result<ProveProgress, LineError>
    ensures ok { IfOk result (λ next. Follows subject_due line.now (stage_of next)) }
    ensures only { IfOk result (λ next. (other : Stage) → Follows subject_due line.now other → other ≡ stage_of next) }
    ensures wrong { IfErr result (λ e. e ≢ LineError.Memory → (next : Stage) → ¬ Follows subject_due line.now next) }
{
    let Some(name) = after_word(line, "subject ") else {
        return Err(LineError::Wrong);
    };
    match Givens::of_subject(alloc, name) {
        Ok(givens) => Ok(ProveProgress::GoalDue(givens)),
        Err(error) => Err(error),
    }
}

fn after_givens(alloc: Global, givens: Givens, line: &[u8]) -> Result<ProveProgress, LineError>
    ensures ok { IfOk result (λ next. Follows (goal_due (givens_tree givens)) line.now (stage_of next)) }
    ensures only { IfOk result (λ next. (other : Stage)
        → Follows (goal_due (givens_tree givens)) line.now other → other ≡ stage_of next) }
    ensures wrong { IfErr result (λ e. e ≢ LineError.Memory →
        (next : Stage) → ¬ Follows (goal_due (givens_tree givens)) line.now next) }
{
    if let Some(text) = after_word(line, "label ") {
        match after_label(alloc, givens, text) {
            Ok(next) => Ok(next),
            Err(error) => Err(error),
        }
    } else if let Some(text) = after_word(line, "goal ") {
        match after_goal(alloc, givens, text) {
            Ok(next) => Ok(next),
            Err(error) => Err(error),
        }
    } else {
        Err(LineError::Wrong)
    }
}

/// The progress after the text of one label more. `Wrong` exactly where it may not stand.
fn after_label(alloc: Global, givens: Givens, text: &[u8]) -> Result<ProveProgress, LineError>
    ensures ok { IfOk result (λ next. IsAfterLabel (givens_tree givens) text.now (stage_of next)) }
    ensures only { IfOk result
        (λ next. (other : Stage) → IsAfterLabel (givens_tree givens) text.now other → other ≡ stage_of next) }
    ensures wrong { IfErr result
        (λ e. e ≢ LineError.Memory → (next : Stage) → ¬ IsAfterLabel (givens_tree givens) text.now next) }
{
    if !givens.has_room() {
        return Err(LineError::Wrong);
    }
    match givens.with_label(alloc, text) {
        Ok(givens) => Ok(ProveProgress::GoalDue(givens)),
        Err(error) => Err(error),
    }
}

/// The progress after the text of the goal. `Wrong` exactly where it is none.
fn after_goal(alloc: Global, givens: Givens, text: &[u8]) -> Result<ProveProgress, LineError>
    ensures ok { IfOk result (λ next. IsAfterGoal (givens_tree givens) text.now (stage_of next)) }
    ensures only { IfOk result
        (λ next. (other : Stage) → IsAfterGoal (givens_tree givens) text.now other → other ≡ stage_of next) }
    ensures wrong { IfErr result
        (λ e. e ≢ LineError.Memory → (next : Stage) → ¬ IsAfterGoal (givens_tree givens) text.now next) }
{
    match said_goal(alloc, text) {
        Ok(goal) => Ok(ProveProgress::EndDue(ProveForm { givens, goal })),
        Err(error) => Err(error),
    }
}
