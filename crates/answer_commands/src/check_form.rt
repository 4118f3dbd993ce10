ghost use Rattle.std.specs.Prelude.{[]};
ghost use Rattle.input_flaws.specs.LineFlaws.{IsFlawAt};
ghost use Rattle.answer_commands.specs.CheckForm.{formula_words};
ghost use Rattle.answer_commands.specs.Inner.Wrongs.{IsWrongBy};

use crate::answering::AnswerError;
use crate::keys::FormulaKey;
use crate::places::line_of_error;
use crate::stages::Progress;
use form_lines::LineError;
use input_flaws::{flaw_at, proof_flaw};
use nal_term::{Formula, Name};
use proof_lines::Proof;
use proof_text::{ProofError, read_proof};
use std::alloc::Global;
use text_lines::first_line;

/// What an input of `check` holds.
#[derive(Drop)]
pub struct Input {
    pub subject: Name,
    pub labels: Vec<FormulaKey>,
    pub yes: Vec<FormulaKey>,
    pub goal: Formula,
    pub proof: Proof,
}

impl Input {
    ghost use Rattle.std.specs.Prelude.{◌≡◌, ◌≢◌, ◌<◌, ◌+◌, ◌^◌, List, length, IfOk, IfErr};
    ghost use Rattle.nal_term.specs.Trees.{formula_tree};
    ghost use Rattle.proof_lines.specs.Lines.{LineTree, line_trees};
    ghost use Rattle.proof_text.specs.ProofText.{IsProofText};
    ghost use Rattle.answer_commands.specs.CheckForm.{CheckForm, IsCheckForm};
    ghost use Rattle.answer_commands.specs.Inner.Forms.{form_of, formula_trees, IsWrongLine, IsWrongProof, HoldsProof};

    /// Reads an input of `check`. `Wrong` exactly where the text has not its form.
    /// `docs/FORMATS.md`, "The check form", states the form.
    pub fn read(alloc: Global, text: &[u8]) -> Result<Input, AnswerError>
        requires { length text.now < 2 ^ 31 }
        ensures ok { IfOk result (λ input. IsCheckForm text.now (form_of input)) }
        ensures only { IfOk result (λ input. (form : CheckForm) → IsCheckForm text.now form → form ≡ form_of input) }
        ensures wrong { IfErr result (IsWrongLine text.now) }
        ensures refused { IfErr result
            (λ e. e ≢ AnswerError.Memory → (form : CheckForm) → ¬ IsCheckForm text.now form) }
    {
        let mut progress = Progress::HeaderDue;
        let mut rest = text;
        let mut lines = 0u64;
        loop {
            progress = match progress {
                Progress::ProofDue(subject, labels, yes, goal) => {
                    return Input::with_proof(alloc, subject, labels, yes, goal, rest, lines);
                }
                other => {
                    if rest.is_empty() {
                        return Err(wrong_line(alloc, text, lines + 1));
                    }
                    match other.after(alloc, first_line(rest).0) {
                        Ok(next) => next,
                        Err(LineError::Wrong) => return Err(wrong_line(alloc, text, lines + 1)),
                        Err(LineError::Memory) => return Err(AnswerError::Memory),
                    }
                }
            };
            rest = first_line(rest).1;
            lines += 1;
        }
    }

    fn with_proof(
        alloc: Global,
        subject: Name,
        labels: Vec<FormulaKey>,
        yes: Vec<FormulaKey>,
        goal: Formula,
        rest: &[u8],
        lines: u64,
    ) -> Result<Input, AnswerError>
        requires room { lines < 2 ^ 31 }
        requires short { length rest.now < 2 ^ 31 }
        ensures ok { IfOk result
            (HoldsProof subject (formula_trees labels.items) (formula_trees yes.items) (formula_tree goal) rest.now) }
        ensures only { IfOk result
            (λ input. (ls : List LineTree) → IsProofText rest.now ls → ls ≡ line_trees input.proof) }
        ensures wrong { IfErr result (IsWrongProof rest.now lines) }
        ensures refused { IfErr result
            (λ e. e ≢ AnswerError.Memory → (ls : List LineTree) → ¬ IsProofText rest.now ls) }
    {
        match read_proof(alloc, rest) {
            Ok(proof) => Ok(Input {
                subject,
                labels,
                yes,
                goal,
                proof,
            }),
            Err(error) => match error {
                ProofError::Memory => Err(AnswerError::Memory),
                _ => {
                    let line = lines + line_of_error(rest, error);
                    Err(AnswerError::by(line, proof_flaw(alloc, rest, error)))
                }
            },
        }
    }
}

/// Why a text has no answer whose line with this number may not stand there, before its proof.
fn wrong_line(alloc: Global, text: &[u8], line: u64) -> AnswerError
    ensures { IsWrongBy (IsFlawAt formula_words [] text.now line) line result }
{
    AnswerError::by(
        line,
        flaw_at(alloc, &["label ", "yes ", "goal "], &[], text, line),
    )
}
