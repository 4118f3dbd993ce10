ghost use Rattle.std.specs.Prelude.{◌≢◌, ◌≤◌, IfOk, IfErr};
ghost use Rattle.proof_lines.specs.Lines.{line_tree};
ghost use Rattle.proof_text.specs.Bodies.{NoInnerMemory};
ghost use Rattle.proof_text.specs.Inner.Lines.{ReadsLine, IsWrongLine};

use crate::heads::head;
use crate::read::ProofError;
use nal_parse::{ParseError, parse_formula};
use proof_lines::Line;
use std::alloc::Global;

/// How many lines a proof may have.
const MOST_LINES: u64 = 256;

/// The line that a segment writes, which has to have the number `due`. `Memory` where there is none, and
/// else the error that tells what is wrong with the segment.
pub fn line(alloc: Global, segment: &[u8], due: u64) -> Result<Line, ProofError>
    requires { due ≤ 257 }
    ensures ok { IfOk result (λ l. ReadsLine due segment.now (line_tree l)) }
    ensures err { IfErr result (λ e. e ≢ ProofError.Memory → IsWrongLine due segment.now e) }
    ensures inner { IfErr result NoInnerMemory }
{
    match head(alloc, segment) {
        Err(_) => Err(ProofError::Memory),
        Ok(None) => Err(ProofError::BadLine { line: due }),
        Ok(Some((head, text))) => {
            if head.number != due {
                return Err(ProofError::BadNumber { line: due });
            }
            if due > MOST_LINES {
                return Err(ProofError::TooManyLines);
            }
            match parse_formula(alloc, text) {
                Ok(formula) => Ok(Line {
                    rule: head.rule,
                    refs: head.refs,
                    term: head.term,
                    formula,
                }),
                Err(error) => match error {
                    ParseError::Memory => Err(ProofError::Memory),
                    _ => Err(ProofError::Formula { line: due, error }),
                },
            }
        }
    }
}
