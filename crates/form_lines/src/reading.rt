//! Reading the lines of an input one by one.
ghost use Rattle.std.specs.Prelude.{◌≡◌, ◌≢◌, ◌<◌, ◌^◌, IfErr, IfOk, length};
ghost use Rattle.form_lines.specs.Reading.{LeadsThrough};
ghost use Rattle.form_lines.specs.Inner.Errors.{IsFormError};

use crate::statements::LineError;
use std::alloc::Global;
use text_lines::first_line;

/// Why an input was not read.
#[derive(Clone, Copy, Debug, PartialEq, Eq)]
pub enum FormError {
    /// The lowest line that is wrong, or the number after the last where the input ends too early.
    Wrong { line: u64 },
    /// There was no memory for what it holds.
    Memory,
}

/// How much of the lines of an input was read.
pub trait Progress: Sized {
    ghost use Rattle.std.specs.Prelude.{◌≡◌, ◌≢◌, ◌↔◌, List, ℕ, IfErr, IfOk, IsTrue};
    ghost use Rattle.form_lines.specs.declared.statements.LineError.TheVariants as error;

    /// What the next line may be, and what was read.
    ghost Stage: { Type 0 };

    ghost stage: { Self → Stage };

    /// Which line may stand at a stage, and to which it leads.
    ghost follows: { Stage → List ℕ → Stage → Type 0 };

    /// At which stages the input may end.
    ghost is_end: { Stage → Type 0 };

    /// The progress after one line more. `Wrong` exactly where the line may not stand there.
    fn after(self, alloc: Global, line: &[u8]) -> Result<Self, LineError>
        ensures ok { IfOk result (λ next. follows (stage self) line.now (stage next)) }
        ensures only { IfOk result (λ next.
            (other : Stage) → follows (stage self) line.now other → other ≡ stage next) }
        ensures wrong { IfErr result (λ e. e ≢ error.Memory → (next : Stage) → ¬ follows (stage self) line.now next) };

    /// Whether the input may end here.
    fn is_ended(&self) -> bool
        ensures { IsTrue result ↔ is_end (stage self.now) };
}

/// Reads all lines of a text, from the first progress on. `Wrong` exactly where a line may not stand, or the text may not end where
/// it does, with the lowest line that is wrong. `docs/FORMATS.md` states the form of each input.
pub fn read_lines<P: Progress + Drop>(alloc: Global, first: P, text: &[u8]) -> Result<P, FormError>
    requires { length text.now < 2 ^ 63 }
    ensures ok { IfOk result (λ last. LeadsThrough P.follows (P.stage first) text.now (P.stage last)) }
    ensures ended { IfOk result (λ last. P.is_end (P.stage last)) }
    ensures only { IfOk result (λ last.
        (other : P.Stage) → LeadsThrough P.follows (P.stage first) text.now other → other ≡ P.stage last) }
    ensures wrong { IfErr result (IsFormError P.follows P.is_end (P.stage first) text.now) }
    ensures refused { IfErr result (λ e. e ≢ FormError.Memory →
        (other : P.Stage) → P.is_end other → ¬ LeadsThrough P.follows (P.stage first) text.now other) }
{
    let mut progress = first;
    let mut rest = text;
    let mut lines = 0u64;
    while !rest.is_empty() {
        let (line, after) = first_line(rest);
        lines += 1;
        progress = match progress.after(alloc, line) {
            Ok(next) => next,
            Err(LineError::Wrong) => return Err(FormError::Wrong { line: lines }),
            Err(LineError::Memory) => return Err(FormError::Memory),
        };
        rest = after;
    }
    if progress.is_ended() {
        Ok(progress)
    } else {
        Err(FormError::Wrong { line: lines + 1 })
    }
}
