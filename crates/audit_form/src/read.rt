//! Reading an input of `audit`.
ghost use Rattle.std.specs.Prelude.{◌≡◌, ◌≢◌, ◌≤◌, ◌+◌, ◌<◌, ◌^◌, [], IfErr, IfOk, List, ℕ, length, codes, All};
ghost use Rattle.policy_history.specs.Values.{entry_trees};
ghost use Rattle.form_lines.specs.Reading.{LeadsThrough};
ghost use Rattle.policy_history.specs.declared.heads.Head.{Head};
ghost use Rattle.policy_history.specs.Events.{EntryTree};
ghost use Rattle.journal_text.specs.PolicyFronts.{IsFront};
ghost use Rattle.journal_text.specs.PolicyText.{most_bytes};
ghost use Rattle.audit_check.specs.Audits.{IsWithin};
ghost use Rattle.audit_check.specs.declared.records.Record as call;
ghost use Rattle.audit_form.specs.AuditForm as form;
ghost use Rattle.audit_form.specs.AuditForm.{Follows, IsAuditForm, ended, most_session, record_due};
ghost use Rattle.audit_form.specs.Inner.Reading.{Behind, FollowsBehind, IsWrongAfter, IsWrongBehind, IsWrongInput, behind, form_tree, stage_of};

use crate::record_lines::read_record;
use crate::texts::is_text;
use audit_check::Record;
use form_lines::{FormError, LineError, Progress, read_lines};
use journal_text::{PolicyError, PolicyFront, read_front};
use policy_history::Journal;
use std::alloc::Global;
use text_lines::first_line;

/// How many records there may be.
const MOST_RECORDS: usize = 65_536;

/// What an input of `audit` holds: a policy, and records in their order.
#[derive(Drop)]
pub struct AuditForm {
    pub journal: Journal,
    pub records: Vec<Record>,
}

/// Why an input was not read.
#[derive(Clone, Copy, Debug, PartialEq, Eq)]
pub enum AuditError {
    /// The lowest line that is wrong, or the number after the last where the input ends too early.
    Wrong { line: u64 },
    /// There was no memory for what it holds.
    Memory,
}

/// A policy, and how much of the lines behind it was read.
#[derive(Drop)]
pub enum AuditProgress<'a> {
    /// A record, or the last line, behind these records.
    RecordDue(&'a Journal, Vec<Record>),
    Ended(&'a Journal, Vec<Record>),
}

/// Reads an input of `audit`, which has at most 67,108,864 bytes. `Wrong` exactly where the text has not its form, with the
/// lowest line that is wrong. `docs/FORMATS.md`, "The input of `audit`", states the form.
pub fn read_audit(alloc: Global, text: &[u8]) -> Result<AuditForm, AuditError>
    requires { length text.now ≤ most_bytes }
    ensures ok { IfOk result (λ read. IsAuditForm text.now (form_tree read)) }
    ensures within { IfOk result
        (λ read. All (IsWithin read.journal.head (entry_trees read.journal.entries)) read.records.items) }
    ensures wrong { IfErr result (IsWrongInput text.now) }
    ensures refused { IfErr result
        (λ e. e ≢ AuditError.Memory → (other : form.AuditTree) → ¬ IsAuditForm text.now other) }
{
    let (first, after) = first_line(text);
    if text.is_empty() || !is_text(first, "nexus audit 1") {
        return Err(AuditError::Wrong { line: 1 });
    }
    let (journal, rest, lines) = match read_policy(alloc, after) {
        Ok(
            PolicyFront {
                journal,
                rest,
                lines,
            },
        ) => (journal, rest, lines),
        Err(error) => return Err(error),
    };
    match read_records(alloc, &journal, rest, lines + 1) {
        Ok(records) => Ok(AuditForm { journal, records }),
        Err(error) => {
            drop(journal);
            Err(error)
        }
    }
}

/// Reads the policy behind the first line of an input, which has at most 67,108,864 bytes. `Wrong` exactly where no policy stands
/// there, with the lowest line of the input that is wrong.
pub fn read_policy(alloc: Global, text: &[u8]) -> Result<PolicyFront, AuditError>
    requires { length text.now ≤ most_bytes }
    ensures ok { IfOk result
        (λ front. IsFront most_session text.now front.journal.head (entry_trees front.journal.entries) front.lines
        front.rest.now) }
    ensures only { IfOk result
        (λ front. (h : Head) (es : List EntryTree) (n : ℕ) (rest : List ℕ) → IsFront most_session text.now h es n rest
        → (h ≡ front.journal.head) × (es ≡ entry_trees front.journal.entries) × (n ≡ front.lines)
        × (rest ≡ front.rest.now)) }
    ensures fewer { IfOk result (λ front. front.lines + length front.rest.now ≤ length text.now) }
    ensures wrong { IfErr result (IsWrongBehind text.now) }
    ensures refused { IfErr result
        (λ e. e ≢ AuditError.Memory → (h : Head) (es : List EntryTree) (n : ℕ) (rest : List ℕ)
        → ¬ IsFront most_session text.now h es n rest) }
{
    match read_front(alloc, text, u64::MAX) {
        Ok(front) => Ok(front),
        Err(PolicyError::Bad { line }) => Err(AuditError::Wrong { line: line + 1 }),
        Err(PolicyError::Refused { line, .. }) => Err(AuditError::Wrong { line: line + 1 }),
        Err(PolicyError::TooLong) => unreachable!(),
        Err(PolicyError::Memory) => Err(AuditError::Memory),
    }
}

/// Reads the lines of records up to the end of the text. So many lines stand before them.
fn read_records(
    alloc: Global,
    journal: &Journal,
    text: &[u8],
    before: u64,
) -> Result<Vec<Record>, AuditError>
    requires { before + length text.now < 2 ^ 63 }
    ensures ok { IfOk result
        (λ records. LeadsThrough (Follows journal.now.head (entry_trees journal.now.entries)) (record_due []) text.now
        (ended records.items)) }
    ensures wrong { IfErr result (IsWrongAfter journal.now.head (entry_trees journal.now.entries) before text.now) }
    ensures refused { IfErr result (λ e. e ≢ AuditError.Memory → (others : List call.Record)
        → ¬ LeadsThrough (Follows journal.now.head (entry_trees journal.now.entries)) (record_due []) text.now
        (ended others)) }
{
    let first = AuditProgress::RecordDue(journal, Vec::new(alloc));
    match read_lines(alloc, first, text) {
        Ok(AuditProgress::Ended(_, records)) => Ok(records),
        Ok(_) => unreachable!(),
        Err(FormError::Wrong { line }) => Err(AuditError::Wrong {
            line: before + line,
        }),
        Err(FormError::Memory) => Err(AuditError::Memory),
    }
}

impl<'a> Progress for AuditProgress<'a> {
    ghost use Rattle.audit_form.specs.Inner.Reading.{Behind, FollowsBehind, IsEndedBehind, stage_of};

    ghost Stage = { Behind };

    ghost stage = { stage_of };

    ghost follows = { FollowsBehind };

    ghost is_end = { IsEndedBehind };

    fn after(self, alloc: Global, line: &[u8]) -> Result<AuditProgress<'a>, LineError> {
        match self {
            AuditProgress::RecordDue(journal, records) => {
                if is_text(line, "end") {
                    Ok(AuditProgress::Ended(journal, records))
                } else {
                    after_record(alloc, journal, records, line)
                }
            }
            AuditProgress::Ended(_, _) => Err(LineError::Wrong),
        }
    }

    fn is_ended(&self) -> bool {
        matches!(self, AuditProgress::Ended(_, _))
    }
}

/// The progress after a line that is not the last.
fn after_record<'a>(
    alloc: Global,
    journal: &'a Journal,
    records: Vec<Record>,
    line: &[u8],
) -> Result<AuditProgress<'a>, LineError>
    requires { line.now ≢ codes "end" }
    ensures ok { IfOk result (λ next. FollowsBehind
        (behind journal.now.head (entry_trees journal.now.entries) (record_due records.items))
        line.now (stage_of next)) }
    ensures only { IfOk result (λ next. (other : Behind) → FollowsBehind
        (behind journal.now.head (entry_trees journal.now.entries) (record_due records.items))
        line.now other → other ≡ stage_of next) }
    ensures wrong { IfErr result (λ e. e ≢ LineError.Memory → (next : Behind) → ¬ FollowsBehind
        (behind journal.now.head (entry_trees journal.now.entries) (record_due records.items))
        line.now next) }
{
    if records.len() >= MOST_RECORDS {
        return Err(LineError::Wrong);
    }
    let mut records = records;
    let recorded = match read_record(alloc, journal, line) {
        Ok(recorded) => recorded,
        Err(error) => return Err(error),
    };
    match records.push(recorded) {
        Ok(()) => Ok(AuditProgress::RecordDue(journal, records)),
        Err(_) => Err(LineError::Memory),
    }
}
