//! Why an input is refused, and what is told of it.
ghost use Rattle.std.specs.Prelude.{◌≡◌, IfOk};
ghost use Rattle.std.specs.String.{string_bytes};
ghost use Rattle.run_streams.specs.Refusals.{refusal_text};

use crate::flaws::Flaw;
use std::alloc::{AllocError, Global};

/// Why an input is refused. `docs/FORMATS.md`, "The check form", says what is written of each, and "What is wrong with an input" what is
/// told beside it.
#[derive(Clone, Copy, Debug, PartialEq, Eq)]
pub enum InputRefusal {
    /// The lowest line that is wrong, or the number after the last where the input ends too early, and what is wrong with it.
    WrongLine { line: u64, flaw: Flaw },
    /// The input has more than 67,108,864 bytes.
    TooLarge,
}

impl InputRefusal {
    /// The line that is written of the refusal, with its line feed. An `Err` is want of memory.
    pub fn output(&self, alloc: Global) -> Result<String, AllocError>
        ensures { IfOk result (λ text. string_bytes text ≡ refusal_text self.now) }
    {
        match self {
            InputRefusal::WrongLine { line, .. } => format!(in alloc; "refused line {line}\n"),
            InputRefusal::TooLarge => String::from_str(alloc, "refused size\n"),
        }
    }
}
