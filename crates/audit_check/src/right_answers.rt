//! The answers with which what was recorded of a case is right.
ghost use Rattle.std.specs.Prelude.{◌≡◌, ◌≤◌, ◌+◌, ◌++◌, ◌∷◌, [], List, Bool, true, false, cond, length, replicate};
ghost use Rattle.proof_lines.specs.Lines.{line_trees};
ghost use Rattle.nal_rules.specs.Asking.{case_tree};
ghost use Rattle.audit_check.specs.Inner.RightAnswers.{answers_for};
ghost use Rattle.audit_check.specs.Records.{IsRightOf};
ghost use Rattle.audit_check.specs.declared.records.Answers.TheVariants.{Known};

use crate::judging::{ask_count, asks_before};
use crate::records::{Given, Recorded};
use nal_rules::{Case, Cause, Verdict};
use proof_lines::Proof;

/// The answers with which what was recorded is right of this case: there are no others. It takes no memory, and checks no proof anew.
/// `docs/LOGIC.md`, "Right records", says when a record is right.
pub fn answers_of(case: &Case, recorded: Recorded) -> Given
    requires right { (given : List Bool) × IsRightOf (case_tree case.now) (Known given) recorded }
    ensures { (given : List Bool) → IsRightOf (case_tree case.now) (Known given) recorded → result ≡ given }
{
    match &case.proof {
        Some(proof) => answers_in(proof, recorded),
        None => Given::new(),
    }
}

/// The answers with which it is right of a case with this proof.
fn answers_in(proof: &Proof, recorded: Recorded) -> Given
    requires { length (answers_for (line_trees proof.now) recorded) ≤ 16 }
    ensures { result ≡ answers_for (line_trees proof.now) recorded }
{
    match recorded {
        Recorded::Told(Verdict::Allowed) => yes_then(ask_count(proof.as_slice()), false),
        Recorded::Told(Verdict::Denied(Cause::AuthorityNo { line })) => {
            yes_then(asks_before(proof, line), true)
        }
        Recorded::Down { line } => yes_then(asks_before(proof, line), false),
        Recorded::Told(Verdict::Denied(_)) => Given::new(),
        Recorded::NoObject => Given::new(),
    }
}

/// So many Yes, and a No behind them where one was refused.
fn yes_then(count: u64, refused: bool) -> Given
    requires { count + cond refused 1 0 ≤ 16 }
    ensures { result ≡ replicate count true ++ cond refused (false ∷ []) [] }
{
    let mut given = Given::new();
    for _ in 0..count {
        given.push(true).unwrap();
    }
    if refused {
        given.push(false).unwrap();
    }
    given
}
