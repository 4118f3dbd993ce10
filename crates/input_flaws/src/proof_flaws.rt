//! What is wrong with the line of a proof's text that is refused.
ghost use Rattle.std.specs.Prelude.{◌≡◌, ◌<◌, ◌+◌, ◌^◌, IfOk, length};
ghost use Rattle.run_streams.specs.Flaws.{flaw_named, flaw_tree};
ghost use Rattle.input_flaws.specs.ProofFlaws.{IsFormulaFlaw, IsProofFlaw, segment_flaw};

use crate::flaws::formula_flaw;
use nal_parse::{ParseError, parse_formula};
use proof_text::{ProofError, end_segment, formula_at, segment_column};
use run_streams::Flaw;
use std::alloc::{AllocError, Global};

/// What is wrong with the line by which a proof's text is refused with this error. An `Err` is want of memory. `docs/FORMATS.md`, "What is
/// wrong with an input", states it.
pub fn proof_flaw(alloc: Global, text: &[u8], error: ProofError) -> Result<Flaw, AllocError>
    requires { length text.now < 2 ^ 32 }
    ensures { IfOk result (λ flaw. IsProofFlaw text.now error (flaw_tree flaw)) }
{
    match error {
        ProofError::Formula { line, error: _ } => formula_flaw_at(alloc, text, line),
        ProofError::BadHeader => Ok(segment_flaw(text, 0, "BadHeader")),
        ProofError::BadLine { line } => Ok(segment_flaw(text, line, "BadLine")),
        ProofError::BadNumber { line } => Ok(segment_flaw(text, line, "BadNumber")),
        ProofError::TooManyLines => Ok(segment_flaw(text, 257, "TooManyLines")),
        ProofError::TooLong => Ok(first_byte("TooLong")),
        ProofError::NoEnd => Ok(first_byte("NoEnd")),
        ProofError::After => Ok(segment_flaw(text, end_segment(text) + 1, "After")),
        ProofError::Memory => Err(AllocError),
    }
}

/// The flaw of the formula in a segment.
fn formula_flaw_at(alloc: Global, text: &[u8], segment: u64) -> Result<Flaw, AllocError>
    requires { length text.now < 2 ^ 32 }
    ensures { IfOk result (λ flaw. IsFormulaFlaw text.now segment (flaw_tree flaw)) }
{
    let Some((before, formula)) = formula_at(alloc, text, segment)? else {
        return Ok(segment_flaw(text, segment, "Formula"));
    };
    let Err(error) = parse_formula(alloc, formula) else {
        return Ok(segment_flaw(text, segment, "Formula"));
    };
    if matches!(error, ParseError::Memory) {
        return Err(AllocError);
    }
    Ok(formula_flaw(before, error))
}

/// The flaw of this name, at the first byte of a segment.
fn segment_flaw(text: &[u8], segment: u64, name: &'static str) -> Flaw
    requires { length text.now < 2 ^ 32 }
    ensures { flaw_tree result ≡ segment_flaw text.now segment name.now }
{
    Flaw {
        byte: segment_column(text, segment) + 1,
        name,
    }
}

/// The flaw of this name, at the first byte of a line.
fn first_byte(name: &'static str) -> Flaw
    ensures { flaw_tree result ≡ flaw_named 1 name.now }
{
    Flaw { byte: 1, name }
}
