//! What is told of an input of `trust`.
ghost use Rattle.std.specs.Prelude.{◌≡◌, ◌≢◌, ◌<◌, ◌++◌, ◌∷◌, ◌^◌, [], IfErr, IfOk, length};
ghost use Rattle.std.specs.String.{string_bytes};
ghost use Rattle.trust_form.specs.Answers.{IsAnswered, IsTold, trust_text};
ghost use Rattle.trust_form.specs.Inner.Reading.{IsWrongInput, form_tree};
ghost use Rattle.trust_form.specs.TrustForm as form;
ghost use Rattle.trust_form.specs.TrustForm.{IsTrustForm};

use crate::givens::TrustForm;
use crate::read::read_trust;
use form_lines::goal_for_subject;
use std::alloc::{AllocError, Global};
use trust_check::{Trust, trust};

/// Why an input has no answer.
#[derive(Clone, Copy, Debug, PartialEq, Eq)]
pub enum TrustError {
    /// The lowest line that is wrong, or the number after the last where the input ends too early.
    Wrong { line: u64 },
    /// There was no memory for what it holds.
    Memory,
}

/// The answer to an input of `trust`. `Wrong` exactly where the text has not its form, with the lowest line that is wrong.
pub fn trust_of(alloc: Global, text: &[u8]) -> Result<Trust, TrustError>
    requires { length text.now < 2 ^ 31 }
    ensures ok { IfOk result (IsTold text.now) }
    ensures wrong { IfErr result (IsWrongInput text.now) }
    ensures refused { IfErr result
        (λ e. e ≢ TrustError.Memory → (other : form.TrustForm) → ¬ IsTrustForm text.now other) }
{
    let read = read_trust(alloc, text)?;
    match answer(alloc, &read) {
        Ok(answer) => Ok(answer),
        Err(_) => Err(TrustError::Memory),
    }
}

/// The answer to what was read.
fn answer(alloc: Global, read: &TrustForm) -> Result<Trust, AllocError>
    ensures { IfOk result (IsAnswered (form_tree read.now)) }
{
    let givens = &read.givens;
    let goal = goal_for_subject(alloc, &read.goal, &givens.subject)?;
    Ok(trust(
        &givens.labels,
        &givens.untrusted,
        &givens.loose,
        &givens.facts,
        &goal,
    ))
}

/// The line that is written of an answer, with its line feed. An `Err` is want of memory.
pub fn trust_line(alloc: Global, answer: Trust) -> Result<String, AllocError>
    ensures { IfOk result (λ line. string_bytes line ≡ trust_text answer ++ 10 ∷ []) }
{
    match answer {
        Trust::Safe => String::from_str(alloc, "safe\n"),
        Trust::Label { label } => format!(in alloc; "label {label}\n"),
        Trust::Goal => String::from_str(alloc, "goal\n"),
    }
}
