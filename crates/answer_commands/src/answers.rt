//! The answers of `trust`, `prove`, `audit`, `explain`, `recover`, `export` and `compact`.
ghost use Rattle.std.specs.Prelude.{◌≡◌, ◌≢◌, ◌≤◌, IfErr, IfOk, length};
ghost use Rattle.policy_history.specs.Events.{numbered};
ghost use Rattle.policy_history.specs.Values.{entry_trees, state_after};
ghost use Rattle.journal_text.specs.PolicyText.{ReadsAs};
ghost use Rattle.run_streams.specs.Refusals.{form_of};
ghost use Rattle.run_streams.specs.Runs.{most_bytes};
ghost use Rattle.answer_commands.specs.Answers.{IsAnswerError};
ghost use Rattle.answer_commands.specs.Exports.{HasPolicyForm, IsWrongPolicyLine, bundle_of};
ghost use Rattle.answer_commands.specs.Inner.Wrongs.{IsWrongPolicyBy};

use crate::answering::{Answer, AnswerError};
use crate::headed::headed_flaw;
use audit_check::Audited;
use audit_form::{AuditError, Told, audit_of, told_line};
use explain_form::{ExplainError, ExplanationText, explanation_of};
use input_flaws::{flaw_at, policy_flaw};
use journal_text::{PolicyError, print_policy, read_cut, read_policy};
use nal_term::Name;
use nx_io::Bytes;
use peer_labels::print_bundle;
use policy_compaction::{Compacted, compact};
use policy_history::Journal;
use proof_lines::Proof;
use prove_form::{ProveError, found_line, prove_of};
use std::alloc::{AllocError, Global};
use trust_check::Trust;
use trust_form::{TrustError, trust_line, trust_of};

impl Answer for Trust {
    type About = ();

    ghost use Rattle.trust_form.specs.Answers.{IsTold};
    ghost use Rattle.answer_commands.specs.Trusts.{HasTrustForm, IsWrongTrust, trust_output, trust_status};

    ghost formed = { HasTrustForm };

    ghost told = { λ about. IsTold };

    ghost wrong = { IsWrongTrust };

    ghost written = { trust_output };

    ghost ends = { trust_status };

    fn of(alloc: Global, _about: &(), text: &[u8]) -> Result<Trust, AnswerError> {
        match trust_of(alloc, text) {
            Ok(answer) => Ok(answer),
            Err(TrustError::Wrong { line }) => Err(AnswerError::by(
                line,
                flaw_at(
                    alloc,
                    &["label ", "fact ", "goal "],
                    &["untrusted "],
                    text,
                    line,
                ),
            )),
            Err(TrustError::Memory) => Err(AnswerError::Memory),
        }
    }

    fn output(&self, alloc: Global) -> Result<Bytes, AllocError> {
        let line = trust_line(alloc, *self)?;
        Bytes::of(alloc, line.as_bytes())
    }

    fn status(&self) -> u8 {
        match self {
            Trust::Safe => 0,
            Trust::Label { .. } | Trust::Goal => 1,
        }
    }
}

/// What was found for an input of `prove`: a proof of a shortest chain, if there is one.
#[derive(Drop)]
pub struct Found {
    pub proof: Option<Proof>,
}

impl Answer for Found {
    type About = ();

    ghost use Rattle.std.specs.Prelude.{option_map};
    ghost use Rattle.proof_lines.specs.Lines.{line_trees};
    ghost use Rattle.prove_form.specs.Answers.{IsTold};
    ghost use Rattle.answer_commands.specs.Proves.{HasProveForm, IsWrongProve, prove_output, prove_status};

    ghost formed = { HasProveForm };

    ghost told = { λ about text found. IsTold text (option_map line_trees found.proof) };

    ghost wrong = { IsWrongProve };

    ghost written = { λ found. prove_output (option_map line_trees found.proof) };

    ghost ends = { λ found. prove_status (option_map line_trees found.proof) };

    fn of(alloc: Global, _about: &(), text: &[u8]) -> Result<Found, AnswerError> {
        match prove_of(alloc, text) {
            Ok(proof) => Ok(Found { proof }),
            Err(ProveError::Wrong { line }) => Err(AnswerError::by(
                line,
                flaw_at(alloc, &["label ", "goal "], &[], text, line),
            )),
            Err(ProveError::Memory) => Err(AnswerError::Memory),
        }
    }

    fn output(&self, alloc: Global) -> Result<Bytes, AllocError> {
        found_line(alloc, &self.proof)
    }

    fn status(&self) -> u8 {
        match &self.proof {
            Some(_) => 0,
            None => 1,
        }
    }
}

impl Answer for Told {
    type About = ();

    ghost use Rattle.audit_form.specs.Answers.{IsToldOf};
    ghost use Rattle.answer_commands.specs.Audits.{HasAuditForm, IsWrongAudit, audit_output, audit_status};

    ghost formed = { HasAuditForm };

    ghost told = { λ about. IsToldOf };

    ghost wrong = { IsWrongAudit };

    ghost written = { audit_output };

    ghost ends = { audit_status };

    fn of(alloc: Global, _about: &(), text: &[u8]) -> Result<Told, AnswerError> {
        match audit_of(alloc, text) {
            Ok(told) => Ok(told),
            Err(AuditError::Wrong { line }) => {
                Err(AnswerError::by(line, headed_flaw(alloc, text, line)))
            }
            Err(AuditError::Memory) => Err(AnswerError::Memory),
        }
    }

    fn output(&self, alloc: Global) -> Result<Bytes, AllocError> {
        let line = told_line(alloc, *self)?;
        Bytes::of(alloc, line.as_bytes())
    }

    fn status(&self) -> u8 {
        match self.audited {
            Audited::Right => 0,
            Audited::Wrong { .. } => 1,
        }
    }
}

impl Answer for ExplanationText {
    type About = ();

    ghost use Rattle.explain_form.specs.Answers.{IsToldOf};
    ghost use Rattle.answer_commands.specs.Explains.{HasExplainForm, IsWrongExplain, explain_output, explain_status};

    ghost formed = { HasExplainForm };

    ghost told = { λ about. IsToldOf };

    ghost wrong = { IsWrongExplain };

    ghost written = { explain_output };

    ghost ends = { explain_status };

    fn of(alloc: Global, _about: &(), text: &[u8]) -> Result<ExplanationText, AnswerError> {
        match explanation_of(alloc, text) {
            Ok(told) => Ok(told),
            Err(ExplainError::Wrong { line }) => {
                Err(AnswerError::by(line, headed_flaw(alloc, text, line)))
            }
            Err(ExplainError::Memory) => Err(AnswerError::Memory),
        }
    }

    fn output(&self, alloc: Global) -> Result<Bytes, AllocError> {
        Bytes::of(alloc, self.text.as_slice())
    }

    fn status(&self) -> u8 {
        if self.allowed { 0 } else { 1 }
    }
}

/// The policy that was recovered from a text that was cut.
#[derive(Drop)]
pub struct Recovered {
    pub journal: Journal,
}

impl Answer for Recovered {
    type About = ();

    ghost use Rattle.policy_history.specs.PolicyTexts.{policy_text};
    ghost use Rattle.policy_history.specs.Values.{entry_trees};
    ghost use Rattle.journal_text.specs.CutPolicies.{ReadsCut};
    ghost use Rattle.answer_commands.specs.Recovers.{HasCutForm, IsWrongCutLine};

    ghost formed = { HasCutForm };

    ghost told = { λ about text recovered. ReadsCut text recovered.journal.head (entry_trees recovered.journal.entries) };

    ghost wrong = { IsWrongCutLine };

    ghost written = { λ recovered. policy_text recovered.journal.head (entry_trees recovered.journal.entries) };

    ghost ends = { λ recovered. 0 };

    fn of(alloc: Global, _about: &(), text: &[u8]) -> Result<Recovered, AnswerError> {
        match read_cut(alloc, text) {
            Ok(journal) => Ok(Recovered { journal }),
            Err(error) => Err(wrong_policy(alloc, text, error)),
        }
    }

    fn output(&self, alloc: Global) -> Result<Bytes, AllocError> {
        print_policy(alloc, &self.journal)
    }

    fn status(&self) -> u8 {
        0
    }
}

/// The bundle of the labels that a principal of a policy holds; none where it is no principal.
#[derive(Drop)]
pub struct Exported {
    pub bundle: Option<Bytes>,
}

impl Answer for Exported {
    type About = Name;

    ghost use Rattle.answer_commands.specs.Exports.{HasPolicyForm, IsExportOf, IsWrongPolicyLine, export_output, export_status};

    ghost formed = { HasPolicyForm };

    ghost told = { IsExportOf };

    ghost wrong = { IsWrongPolicyLine };

    ghost written = { export_output };

    ghost ends = { export_status };

    fn of(alloc: Global, about: &Name, text: &[u8]) -> Result<Exported, AnswerError> {
        let journal = policy_of(alloc, text)?;
        let bundle = bundle_of(alloc, &journal, about);
        drop(journal);
        match bundle {
            Ok(bundle) => Ok(Exported { bundle }),
            Err(AllocError) => Err(AnswerError::Memory),
        }
    }

    fn output(&self, alloc: Global) -> Result<Bytes, AllocError> {
        match &self.bundle {
            Some(bundle) => Bytes::of(alloc, bundle.as_slice()),
            None => Bytes::of(alloc, b"no principal\n"),
        }
    }

    fn status(&self) -> u8 {
        match self.bundle {
            Some(_) => 0,
            None => 1,
        }
    }
}

impl Answer for Compacted {
    type About = ();

    ghost use Rattle.answer_commands.specs.Compacts.{IsCompactOf, compact_output, compact_status};
    ghost use Rattle.answer_commands.specs.Exports.{HasPolicyForm, IsWrongPolicyLine};

    ghost formed = { HasPolicyForm };

    ghost told = { λ about. IsCompactOf };

    ghost wrong = { IsWrongPolicyLine };

    ghost written = { compact_output };

    ghost ends = { compact_status };

    fn of(alloc: Global, _about: &(), text: &[u8]) -> Result<Compacted, AnswerError> {
        let journal = policy_of(alloc, text)?;
        let compacted = compact(alloc, &journal);
        drop(journal);
        match compacted {
            Ok(compacted) => Ok(compacted),
            Err(AllocError) => Err(AnswerError::Memory),
        }
    }

    fn output(&self, alloc: Global) -> Result<Bytes, AllocError> {
        Bytes::of(alloc, self.text.as_slice())
    }

    fn status(&self) -> u8 {
        0
    }
}

/// The policy of a text. `Wrong` exactly where it is that of none.
fn policy_of(alloc: Global, text: &[u8]) -> Result<Journal, AnswerError>
    requires { length text.now ≤ most_bytes }
    ensures policy { IfOk result (λ journal. ReadsAs text.now journal.head (entry_trees journal.entries)) }
    ensures wrong { IfErr result (IsAnswerError (form_of HasPolicyForm IsWrongPolicyLine) text.now) }
{
    match read_policy(alloc, text) {
        Ok(journal) => Ok(journal),
        Err(error) => Err(wrong_policy(alloc, text, error)),
    }
}

/// Why a text that is not too long has no answer, by the error of its policy.
fn wrong_policy(alloc: Global, text: &[u8], error: PolicyError) -> AnswerError
    requires { error ≢ PolicyError.TooLong }
    ensures { IsWrongPolicyBy text.now error result }
{
    match error {
        PolicyError::Bad { line } => AnswerError::by(line, policy_flaw(alloc, text, error)),
        PolicyError::Refused { line, .. } => {
            AnswerError::by(line, policy_flaw(alloc, text, error))
        }
        PolicyError::TooLong => unreachable!(),
        PolicyError::Memory => AnswerError::Memory,
    }
}

/// The bundle of the labels that the principal of this name holds; None where nobody has the name.
fn bundle_of(alloc: Global, journal: &Journal, name: &Name) -> Result<Option<Bytes>, AllocError>
    ensures { IfOk result (λ bundle. bundle
        ≡ bundle_of (state_after journal.now).labels (numbered journal.now.head.principals name.now)) }
{
    match journal.head().principals.number_of(name) {
        None => Ok(None),
        Some(holder) => Ok(Some(print_bundle(alloc, journal, holder)?)),
    }
}
