//! The line of a question.
ghost use Rattle.std.specs.Prelude.{◌≢◌, IfErr, IfOk};
ghost use Rattle.policy_history.specs.Values.{entry_trees};
ghost use Rattle.explain_form.specs.declared.question_lines.Question as question;
ghost use Rattle.explain_form.specs.QuestionLines.{IsQuestionLine};

use audit_check::{Answers, Given};
use audit_form::{read_answers, read_call};
use form_lines::LineError;
use nal_term::Name;
use policy_history::Journal;
use std::alloc::Global;

/// Which call is to be explained: who asks for what, at which length of the journal, and what authorities answer.
#[derive(Drop)]
pub struct Question {
    /// How many entries the journal had.
    pub at: u64,
    /// The number of the principal that asks.
    pub principal: u32,
    pub op: Name,
    pub object: Name,
    /// What the authorities answer, in the order in which they are asked.
    pub answers: Given,
}

/// Reads the line of a question behind this policy. `Wrong` exactly where the line is that of none: also where its point is past
/// the journal's end, or its principal is none of the head's. `docs/FORMATS.md`, "The input of `explain`", states the form.
pub fn read_question(alloc: Global, journal: &Journal, line: &[u8]) -> Result<Question, LineError>
    ensures ok { IfOk result (λ q. IsQuestionLine journal.now.head (entry_trees journal.now.entries) line.now q) }
    ensures wrong { IfErr result (λ e. e ≢ LineError.Memory → (other : question.Question)
        → ¬ IsQuestionLine journal.now.head (entry_trees journal.now.entries) line.now other) }
{
    let (call, letters) = match read_call(alloc, journal, line) {
        Ok(read) => read,
        Err(error) => return Err(error),
    };
    match read_answers(letters) {
        Some(Answers::Known(answers)) => Ok(Question {
            at: call.at,
            principal: call.principal,
            op: call.op,
            object: call.object,
            answers,
        }),
        Some(Answers::Unknown) => Err(LineError::Wrong),
        None => Err(LineError::Wrong),
    }
}
