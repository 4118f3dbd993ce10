//! Reading an input of `explain`.
ghost use Rattle.std.specs.Prelude.{◌≢◌, ◌≤◌, ◌<◌, ◌^◌, IfErr, IfOk, length};
ghost use Rattle.policy_history.specs.Values.{entry_trees};
ghost use Rattle.journal_text.specs.PolicyText.{most_bytes};
ghost use Rattle.explain_form.specs.ExplainForm as form;
ghost use Rattle.explain_form.specs.ExplainForm.{IsAsked, IsExplainForm};
ghost use Rattle.explain_form.specs.Inner.Reading.{IsWrongAfter, IsWrongInput, form_tree};
ghost use Rattle.explain_form.specs.declared.question_lines.Question as question;

use crate::question_lines::{Question, read_question};
use audit_form::{AuditError, is_text, read_policy};
use form_lines::LineError;
use journal_text::PolicyFront;
use policy_history::Journal;
use std::alloc::Global;
use text_lines::first_line;

/// What an input of `explain` holds: a policy, and a question.
#[derive(Drop)]
pub struct ExplainForm {
    pub journal: Journal,
    pub question: Question,
}

/// Why an input was not read.
#[derive(Clone, Copy, Debug, PartialEq, Eq)]
pub enum ExplainError {
    /// The lowest line that is wrong, or the number after the last where the input ends too early.
    Wrong { line: u64 },
    /// There was no memory for what it holds.
    Memory,
}

/// Reads an input of `explain`, which has at most 67,108,864 bytes. `Wrong` exactly where the text has not its form, with the
/// lowest line that is wrong. `docs/FORMATS.md`, "The input of `explain`", states the form.
pub fn read_explain(alloc: Global, text: &[u8]) -> Result<ExplainForm, ExplainError>
    requires { length text.now ≤ most_bytes }
    ensures ok { IfOk result (λ read. IsExplainForm text.now (form_tree read)) }
    ensures within { IfOk result (λ read. (read.question.at ≤ length read.journal.entries)
        × (read.question.principal < length read.journal.head.principals)) }
    ensures wrong { IfErr result (IsWrongInput text.now) }
    ensures refused { IfErr result (λ e. e ≢ ExplainError.Memory
        → (other : form.ExplainTree) → ¬ IsExplainForm text.now other) }
{
    let (first, after) = first_line(text);
    if !is_text(first, "nexus explain 1") {
        return Err(ExplainError::Wrong { line: 1 });
    }
    let (journal, rest, lines) = match read_policy(alloc, after) {
        Ok(
            PolicyFront {
                journal,
                rest,
                lines,
            },
        ) => (journal, rest, lines),
        Err(AuditError::Wrong { line }) => return Err(ExplainError::Wrong { line }),
        Err(AuditError::Memory) => return Err(ExplainError::Memory),
    };
    match read_asked(alloc, &journal, rest, lines + 1) {
        Ok(question) => Ok(ExplainForm { journal, question }),
        Err(error) => {
            drop(journal);
            Err(error)
        }
    }
}

/// Reads the lines behind the policy, up to the end of the text: that of the question, and `end`. So many lines stand before them.
fn read_asked(
    alloc: Global,
    journal: &Journal,
    text: &[u8],
    before: u64,
) -> Result<Question, ExplainError>
    requires { before < 2 ^ 63 }
    ensures ok { IfOk result (λ q. IsAsked journal.now.head (entry_trees journal.now.entries) text.now q) }
    ensures wrong { IfErr result (IsWrongAfter journal.now.head (entry_trees journal.now.entries) before text.now) }
    ensures refused { IfErr result (λ e. e ≢ ExplainError.Memory → (other : question.Question)
        → ¬ IsAsked journal.now.head (entry_trees journal.now.entries) text.now other) }
{
    let (line, behind) = first_line(text);
    let question = match read_question(alloc, journal, line) {
        Ok(question) => question,
        Err(LineError::Wrong) => return Err(ExplainError::Wrong { line: before + 1 }),
        Err(LineError::Memory) => return Err(ExplainError::Memory),
    };
    let (last, after) = first_line(behind);
    if !is_text(last, "end") {
        return Err(ExplainError::Wrong { line: before + 2 });
    }
    if !after.is_empty() {
        return Err(ExplainError::Wrong { line: before + 3 });
    }
    Ok(question)
}
