//! What is told of an input of `audit`.
ghost use Rattle.std.specs.Prelude.{◌≡◌, ◌≢◌, ◌≤◌, ◌++◌, ◌∷◌, [], IfErr, IfOk, length};
ghost use Rattle.std.specs.String.{string_bytes};
ghost use Rattle.journal_text.specs.PolicyText.{most_bytes};
ghost use Rattle.audit_form.specs.Answers.{IsToldOf, told_text};
ghost use Rattle.audit_form.specs.AuditForm as form;
ghost use Rattle.audit_form.specs.AuditForm.{IsAuditForm};
ghost use Rattle.audit_form.specs.Inner.Reading.{IsWrongInput};

use crate::read::{AuditError, AuditForm, read_audit};
use audit_check::{Audited, audit};
use std::alloc::{AllocError, Global};

/// What is told of an input: how many records it has, and whether each is right.
#[derive(Clone, Copy, Debug, PartialEq, Eq)]
pub struct Told {
    pub count: u64,
    pub audited: Audited,
}

/// What is told of an input of `audit`. `Wrong` exactly where the text has not its form, with the lowest line that is wrong.
pub fn audit_of(alloc: Global, text: &[u8]) -> Result<Told, AuditError>
    requires { length text.now ≤ most_bytes }
    ensures ok { IfOk result (IsToldOf text.now) }
    ensures wrong { IfErr result (IsWrongInput text.now) }
    ensures refused { IfErr result
        (λ e. e ≢ AuditError.Memory → (other : form.AuditTree) → ¬ IsAuditForm text.now other) }
{
    let AuditForm { journal, records } = match read_audit(alloc, text) {
        Ok(form) => form,
        Err(error) => return Err(error),
    };
    let audited = audit(alloc, &journal, &records);
    drop(journal);
    let count = records.len() as u64;
    match audited {
        Ok(audited) => Ok(Told { count, audited }),
        Err(AllocError) => Err(AuditError::Memory),
    }
}

/// The line that is written of an input, with its line feed. An `Err` is want of memory.
pub fn told_line(alloc: Global, told: Told) -> Result<String, AllocError>
    ensures { IfOk result (λ line. string_bytes line ≡ told_text told ++ 10 ∷ []) }
{
    let Told { count, audited } = told;
    match audited {
        Audited::Right => format!(in alloc; "audited {count}\n"),
        Audited::Wrong { number } => format!(in alloc; "wrong record {number}\n"),
    }
}
