//! Reading an input of `prove`.
ghost use Rattle.std.specs.Prelude.{◌≡◌, ◌≢◌, ◌<◌, ◌^◌, IfErr, IfOk, length};
ghost use Rattle.prove_form.specs.Inner.Reading.{IsWrongInput, form_tree};
ghost use Rattle.prove_form.specs.ProveForm as form;
ghost use Rattle.prove_form.specs.ProveForm.{IsProveForm};

use crate::answers::ProveError;
use crate::givens::ProveForm;
use crate::progress::ProveProgress;
use form_lines::{FormError, read_lines};
use std::alloc::Global;

/// Reads an input of `prove`. `Wrong` exactly where the text has not its form, with the lowest line that is wrong.
/// `docs/FORMATS.md`, "The input of `prove`", states the form.
pub fn read_prove(alloc: Global, text: &[u8]) -> Result<ProveForm, ProveError>
    requires { length text.now < 2 ^ 31 }
    ensures ok { IfOk result (λ read. IsProveForm text.now (form_tree read)) }
    ensures only { IfOk result
        (λ read. (other : form.ProveForm) → IsProveForm text.now other → other ≡ form_tree read) }
    ensures wrong { IfErr result (IsWrongInput text.now) }
    ensures refused { IfErr result
        (λ e. e ≢ ProveError.Memory → (other : form.ProveForm) → ¬ IsProveForm text.now other) }
{
    match read_lines(alloc, ProveProgress::HeaderDue, text) {
        Ok(ProveProgress::Ended(form)) => Ok(form),
        Ok(_) => unreachable!(),
        Err(FormError::Wrong { line }) => Err(ProveError::Wrong { line }),
        Err(FormError::Memory) => Err(ProveError::Memory),
    }
}
