//! What is wrong with an input whose first line stands before a policy.
ghost use Rattle.std.specs.Prelude.{◌≤◌, IfOk, length};
ghost use Rattle.run_streams.specs.Flaws.{flaw_tree};
ghost use Rattle.run_streams.specs.Runs.{most_bytes};
ghost use Rattle.answer_commands.specs.Headed.{IsHeadedFlaw};

use input_flaws::{flaw_at, front_flaw};
use run_streams::Flaw;
use std::alloc::{AllocError, Global};
use text_lines::first_line;

/// The flaw of a line of an input of `audit` or `explain`, counted from 1. An `Err` is want of memory. `docs/FORMATS.md`, "What is wrong with
/// an input", states it.
pub fn headed_flaw(alloc: Global, text: &[u8], line: u64) -> Result<Flaw, AllocError>
    requires { length text.now ≤ most_bytes }
    ensures { IfOk result (λ flaw. IsHeadedFlaw text.now line (flaw_tree flaw)) }
{
    if line == 1 {
        flaw_at(alloc, &[], &[], text, line)
    } else {
        front_flaw(alloc, u64::MAX, first_line(text).1, text, line)
    }
}
