//! What is told of an input of `explain`.
ghost use Rattle.std.specs.Prelude.{◌≢◌, ◌≤◌, ◌<◌, ◌↔◌, IfErr, IfOk, IsTrue, length, take};
ghost use Rattle.policy_history.specs.Values.{entry_trees};
ghost use Rattle.journal_text.specs.PolicyText.{most_bytes};
ghost use Rattle.explain_form.specs.Answers.{IsAllowed, IsAnswerAt, IsToldOf};
ghost use Rattle.explain_form.specs.ExplainForm as form;
ghost use Rattle.explain_form.specs.ExplainForm.{IsExplainForm};
ghost use Rattle.explain_form.specs.Inner.Reading.{IsWrongInput};

use crate::printer::print_explained;
use crate::question_lines::Question;
use crate::read::{ExplainError, ExplainForm, read_explain};
use audit_check::beginning_of;
use case_reasons::{Explained, explain};
use nal_rules::Verdict;
use nx_io::Bytes;
use policy_history::Journal;
use std::alloc::{AllocError, Global};

/// What is told of an input: whether the call is allowed, and the lines that say why it has its verdict.
#[derive(Drop)]
pub struct ExplanationText {
    pub allowed: bool,
    pub text: Bytes,
}

/// What is told of an input of `explain`. `Wrong` exactly where the text has not its form, with the lowest line that is wrong.
pub fn explanation_of(alloc: Global, text: &[u8]) -> Result<ExplanationText, ExplainError>
    requires { length text.now ≤ most_bytes }
    ensures ok { IfOk result (IsToldOf text.now) }
    ensures wrong { IfErr result (IsWrongInput text.now) }
    ensures refused { IfErr result (λ e. e ≢ ExplainError.Memory
        → (other : form.ExplainTree) → ¬ IsExplainForm text.now other) }
{
    let ExplainForm { journal, question } = match read_explain(alloc, text) {
        Ok(form) => form,
        Err(error) => return Err(error),
    };
    let told = answer_to(alloc, &journal, &question);
    drop(journal);
    match told {
        Ok(told) => Ok(told),
        Err(AllocError) => Err(ExplainError::Memory),
    }
}

/// What is told of the question, at its point of the journal. An `Err` is want of memory.
fn answer_to(
    alloc: Global,
    journal: &Journal,
    question: &Question,
) -> Result<ExplanationText, AllocError>
    requires point { question.now.at ≤ length journal.now.entries }
    requires principal { question.now.principal < length journal.now.head.principals }
    ensures { IfOk result
        (IsAnswerAt journal.now.head (take question.now.at (entry_trees journal.now.entries)) question.now) }
{
    let part = beginning_of(alloc, journal, question.at)?;
    let told = tell(alloc, &part, question);
    drop(part);
    told
}

/// What is told of the question at the end of the journal, which is at its point. An `Err` is want of memory.
fn tell(
    alloc: Global,
    journal: &Journal,
    question: &Question,
) -> Result<ExplanationText, AllocError>
    requires { question.now.principal < length journal.now.head.principals }
    ensures { IfOk result (IsAnswerAt journal.now.head (entry_trees journal.now.entries) question.now) }
{
    let explained = explain(
        alloc,
        journal,
        question.principal,
        &question.op,
        &question.object,
        question.answers.as_slice(),
    )?;
    let text = print_explained(alloc, journal.head(), question.at, &explained)?;
    let allowed = is_allowed(&explained);
    Ok(ExplanationText { allowed, text })
}

fn is_allowed(explained: &Explained) -> bool
    ensures { IsTrue result ↔ IsAllowed explained.now }
{
    match explained {
        Explained::Known(explanation) => matches!(explanation.verdict, Verdict::Allowed),
        Explained::NoObject => false,
    }
}
