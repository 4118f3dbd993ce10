//! The answer of `check`.
ghost use Rattle.std.specs.Prelude.{◌≡◌, ◌++◌, ◌∷◌, [], IfOk, codes};
ghost use Rattle.std.specs.Fmt.{decimal};
ghost use Rattle.std.specs.String.{string_bytes};
ghost use Rattle.nal_rules.specs.declared.verdicts.Verdict.TheVariants.{Denied};
ghost use Rattle.answer_commands.specs.Checks.{check_output};

use crate::answering::{Answer, AnswerError};
use crate::check_form::Input;
use crate::judge::judge;
use audit_form::fault_name;
use nal_rules::{Cause, Verdict};
use nx_io::Bytes;
use std::alloc::{AllocError, Global};

impl Answer for Verdict {
    type About = ();

    ghost use Rattle.answer_commands.specs.CheckForm.{IsWrongAt};
    ghost use Rattle.answer_commands.specs.Checks.{HasCheckForm, IsChecked, check_output, check_status};

    ghost formed = { HasCheckForm };

    ghost told = { λ about. IsChecked };

    ghost wrong = { IsWrongAt };

    ghost written = { check_output };

    ghost ends = { check_status };

    fn of(alloc: Global, _about: &(), text: &[u8]) -> Result<Verdict, AnswerError> {
        match Input::read(alloc, text) {
            Ok(input) => match judge(alloc, &input) {
                Ok(verdict) => Ok(verdict),
                Err(AllocError) => Err(AnswerError::Memory),
            },
            Err(error) => Err(error),
        }
    }

    fn output(&self, alloc: Global) -> Result<Bytes, AllocError> {
        let line = verdict_line(alloc, self)?;
        Bytes::of(alloc, line.as_bytes())
    }

    fn status(&self) -> u8 {
        match self {
            Verdict::Allowed => 0,
            Verdict::Denied(_) => 1,
        }
    }
}

/// The line of a verdict, with its line feed.
fn verdict_line(alloc: Global, verdict: &Verdict) -> Result<String, AllocError>
    ensures { IfOk result (λ text. string_bytes text ≡ check_output verdict.now) }
{
    match verdict {
        Verdict::Allowed => String::from_str(alloc, "allowed\n"),
        Verdict::Denied(cause) => denial(alloc, cause),
    }
}

fn denial(alloc: Global, cause: &Cause) -> Result<String, AllocError>
    ensures { IfOk result (λ text. string_bytes text ≡ check_output (Denied cause.now)) }
{
    match cause {
        Cause::GoalUnset => String::from_str(alloc, "denied GoalUnset\n"),
        Cause::NoProof => String::from_str(alloc, "denied NoProof\n"),
        Cause::Line { line, fault } => faulty_line(alloc, *line, fault_name(*fault)),
        Cause::LabelMissing { line } => format!(in alloc; "denied LabelMissing {line}\n"),
        Cause::NotBound { line } => format!(in alloc; "denied NotBound {line}\n"),
        Cause::AuthorityNo { line } => format!(in alloc; "denied AuthorityNo {line}\n"),
    }
}

fn faulty_line(alloc: Global, line: u64, name: &str) -> Result<String, AllocError>
    ensures { IfOk result
        (λ text. string_bytes text ≡ codes "denied Line " ++ decimal line ++ 32 ∷ name.now ++ 10 ∷ []) }
{
    let mut text = format!(in alloc; "denied Line {line} ")?;
    text.push_str(name)?;
    text.push('\n')?;
    Ok(text)
}
