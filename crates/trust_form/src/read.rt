//! Reading an input of `trust`.
ghost use Rattle.std.specs.Prelude.{◌≡◌, ◌≢◌, ◌<◌, ◌^◌, IfErr, IfOk, length};
ghost use Rattle.trust_form.specs.Inner.Reading.{IsWrongInput, form_tree};
ghost use Rattle.trust_form.specs.TrustForm as form;
ghost use Rattle.trust_form.specs.TrustForm.{IsTrustForm};

use crate::answers::TrustError;
use crate::givens::TrustForm;
use crate::progress::TrustProgress;
use form_lines::{FormError, read_lines};
use std::alloc::Global;

/// Reads an input of `trust`. `Wrong` exactly where the text has not its form, with the lowest line that is wrong.
/// `docs/FORMATS.md`, "The input of `trust`", states the form.
pub fn read_trust(alloc: Global, text: &[u8]) -> Result<TrustForm, TrustError>
    requires { length text.now < 2 ^ 31 }
    ensures ok { IfOk result (λ read. IsTrustForm text.now (form_tree read)) }
    ensures only { IfOk result
        (λ read. (other : form.TrustForm) → IsTrustForm text.now other → other ≡ form_tree read) }
    ensures wrong { IfErr result (IsWrongInput text.now) }
    ensures refused { IfErr result
        (λ e. e ≢ TrustError.Memory → (other : form.TrustForm) → ¬ IsTrustForm text.now other) }
{
    match read_lines(alloc, TrustProgress::HeaderDue, text) {
        Ok(TrustProgress::Ended(form)) => Ok(form),
        Ok(_) => unreachable!(),
        Err(FormError::Wrong { line }) => Err(TrustError::Wrong { line }),
        Err(FormError::Memory) => Err(TrustError::Memory),
    }
}
