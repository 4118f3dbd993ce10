//! Reading the text of a policy.
ghost use Rattle.std.specs.Prelude.{◌≡◌, ◌≢◌, ◌<◌, ◌≤◌, ◌+◌, ◌^◌, [], ℕ, List, IfErr, IfOk, IsTrue, ◌↔◌, codes, length};
ghost use Rattle.policy_history.specs.Events.{EntryTree};
ghost use Rattle.policy_history.specs.Laws.{refusal_number};
ghost use Rattle.policy_history.specs.Values.{entry_trees};
ghost use Rattle.policy_history.specs.declared.heads.Head.{Head};
ghost use Rattle.text_lines.specs.Lines.{first_line};
ghost use Rattle.journal_text.specs.PolicyFronts.{IsFront, IsFrontError};
ghost use Rattle.journal_text.specs.PolicyText.{IsErrorOf, ReadsAs, most_bytes, open_with};
ghost use Rattle.journal_text.specs.Inner.PolicyReading.{IsErrorFrom, IsHeadLine, IsLineError, IsRead, ReadsOn};

use crate::policy_entries::{LineFault, add_entry};
use crate::policy_heads::read_head;
use policy_history::{Head, Journal, Refusal};
use std::alloc::{AllocError, Global};
use text_lines::first_line;

/// How many bytes the text of a policy may have.
pub const MOST_BYTES: usize = 67_108_864;

/// Why the text of a policy was not read: where it is wrong in several lines, the lowest is told.
/// `docs/FORMATS.md`, "Policy text", says which comes.
#[derive(Clone, Copy, Debug, PartialEq, Eq)]
pub enum PolicyError {
    /// This line has no form that may stand there; or the text ends too early, and this is the number after its last.
    Bad { line: u64 },
    /// This line is that of an entry, whose event the journal refuses with the refusal of this number.
    Refused { line: u64, number: u64 },
    /// The text has more than 67,108,864 bytes.
    TooLong,
    /// There was no memory for the journal.
    Memory,
}

/// The text of a policy that stands at the front of a longer text.
#[derive(Drop)]
pub struct PolicyFront<'a> {
    /// The policy.
    pub journal: Journal,
    /// What follows its line `end`.
    pub rest: &'a [u8],
    /// How many lines it has.
    pub lines: u64,
}

/// The lines of a policy that were read: up to its line `end`, or to the end of a text that has none.
#[derive(Drop)]
pub struct PolicyLines<'a> {
    /// The policy as far as it was read.
    pub journal: Journal,
    /// What follows these lines; nothing where the policy was not ended.
    pub rest: &'a [u8],
    /// How many lines were read.
    pub lines: u64,
    /// Whether the last of them is the line `end`.
    pub ended: bool,
}

/// Reads the text of a policy. Ok exactly where the text is that of a journal; none is that of two. `TooLong` exactly where
/// it has more than 67,108,864 bytes, and before all others; else the error of its lowest wrong line.
/// `docs/FORMATS.md`, "Policy text", states the form.
pub fn read_policy(alloc: Global, text: &[u8]) -> Result<Journal, PolicyError>
    ensures ok { IfOk result (λ journal. ReadsAs text.now journal.head (entry_trees journal.entries)) }
    ensures only { IfOk result
        (λ journal. (h : Head) (es : List EntryTree) → ReadsAs text.now h es
        → (h ≡ journal.head) × (es ≡ entry_trees journal.entries)) }
    ensures err { IfErr result (IsErrorOf text.now) }
    ensures refused { IfErr result
        (λ e. e ≢ PolicyError.Memory → (h : Head) (es : List EntryTree) → ¬ ReadsAs text.now h es) }
    ensures long { most_bytes < length text.now → result ≡ Err PolicyError.TooLong }
{
    if text.len() > MOST_BYTES {
        return Err(PolicyError::TooLong);
    }
    read_lines(alloc, text)
}

/// Reads the text of a policy that is not too long.
fn read_lines(alloc: Global, text: &[u8]) -> Result<Journal, PolicyError>
    requires { length text.now ≤ most_bytes }
    ensures ok { IfOk result (λ journal. ReadsAs text.now journal.head (entry_trees journal.entries)) }
    ensures err { IfErr result (IsErrorOf text.now) }
{
    match read_front(alloc, text, u64::MAX) {
        Ok(
            PolicyFront {
                journal,
                rest,
                lines,
            },
        ) => {
            if rest.is_empty() {
                Ok(journal)
            } else {
                drop(journal);
                Err(PolicyError::Bad { line: lines + 1 })
            }
        }
        Err(error) => Err(error),
    }
}

/// Reads the text of a policy at the front of a text of at most 67,108,864 bytes: up to and with its line `end`. No session of
/// its entries is above the bound. `Bad` and `Refused` tell the lowest line that is wrong; that of an accepted entry whose session is above
/// the bound is Bad. `TooLong` never comes. `docs/FORMATS.md`, "Policy text", states the form.
pub fn read_front(alloc: Global, text: &[u8], most_session: u64) -> Result<PolicyFront, PolicyError>
    requires { length text.now ≤ most_bytes }
    ensures ok { IfOk result
        (λ front. IsFront most_session text.now front.journal.head (entry_trees front.journal.entries) front.lines
        front.rest.now) }
    ensures only { IfOk result
        (λ front. (h : Head) (es : List EntryTree) (n : ℕ) (rest : List ℕ) → IsFront most_session text.now h es n rest
        → (h ≡ front.journal.head) × (es ≡ entry_trees front.journal.entries) × (n ≡ front.lines)
        × (rest ≡ front.rest.now)) }
    ensures fewer { IfOk result (λ front. front.lines + length front.rest.now ≤ length text.now) }
    ensures err { IfErr result (IsFrontError most_session text.now) }
    ensures refused { IfErr result
        (λ e. e ≢ PolicyError.Memory → (h : Head) (es : List EntryTree) (n : ℕ) (rest : List ℕ)
        → ¬ IsFront most_session text.now h es n rest) }
{
    read_to_end(alloc, text, most_session)
}

/// Reads the head, and the lines up to the end of the policy.
fn read_to_end(alloc: Global, text: &[u8], most_session: u64) -> Result<PolicyFront, PolicyError>
    requires { length text.now ≤ most_bytes }
    ensures ok { IfOk result
        (λ front. IsFront most_session text.now front.journal.head (entry_trees front.journal.entries) front.lines
        front.rest.now) }
    ensures fewer { IfOk result (λ front. front.lines + length front.rest.now ≤ length text.now) }
    ensures err { IfErr result (IsFrontError most_session text.now) }
{
    match read_through(alloc, text, most_session) {
        Ok(
            PolicyLines {
                journal,
                rest,
                lines,
                ended,
            },
        ) => {
            if ended {
                Ok(PolicyFront {
                    journal,
                    rest,
                    lines,
                })
            } else {
                drop(journal);
                Err(PolicyError::Bad { line: lines + 1 })
            }
        }
        Err(error) => Err(error),
    }
}

/// Reads the head, and the lines up to the end of the policy, or of a text that ends before it does.
pub fn read_through(
    alloc: Global,
    text: &[u8],
    most_session: u64,
) -> Result<PolicyLines, PolicyError>
    requires { length text.now ≤ most_bytes }
    ensures ok { IfOk result
        (λ read. IsRead most_session text.now read.journal.head (entry_trees read.journal.entries) read.lines
        read.rest.now read.ended) }
    ensures fewer { IfOk result (λ read. read.lines + length read.rest.now ≤ length text.now) }
    ensures err { IfErr result (IsLineError most_session text.now) }
{
    let (head, rest, lines) = match read_head(alloc, text) {
        Ok(read) => read,
        Err(error) => return Err(error),
    };
    read_journal(alloc, head, rest, lines, most_session)
}

/// Reads the lines after this head, up to the end of the policy or of the text, into a journal. So many lines were read before.
fn read_journal(
    alloc: Global,
    head: Head,
    text: &[u8],
    before: u64,
    most_session: u64,
) -> Result<PolicyLines, PolicyError>
    requires room { before + length text.now ≤ 2 ^ 32 }
    requires past { ¬ IsHeadLine (first_line text.now) }
    ensures ok { IfOk result
        (λ read. ReadsOn most_session before (open_with head []) text.now read.journal.head
        (entry_trees read.journal.entries) read.lines read.rest.now read.ended) }
    ensures fewer { IfOk result (λ read. read.lines + length read.rest.now ≤ before + length text.now) }
    ensures err { IfErr result (IsErrorFrom most_session before (open_with head []) text.now) }
{
    let mut journal = match Journal::new(alloc, head) {
        Ok(journal) => journal,
        Err(AllocError) => return Err(PolicyError::Memory),
    };
    match read_entries(alloc, &mut journal, text, before, most_session) {
        Ok((rest, lines, ended)) => Ok(PolicyLines {
            journal,
            rest,
            lines,
            ended,
        }),
        Err(error) => {
            drop(journal);
            Err(error)
        }
    }
}

/// Reads the lines after the head, up to the end of the policy or of the text, into the journal, which has no entries. So many
/// lines were read before. What follows the end, how many lines were read up to it, and whether the policy was ended.
fn read_entries<'a>(
    alloc: Global,
    journal: &mut Journal,
    text: &'a [u8],
    before: u64,
    most_session: u64,
) -> Result<(&'a [u8], u64, bool), PolicyError>
    requires room { before + length text.now ≤ 2 ^ 32 }
    requires empty { journal.old.entries ≡ [] }
    requires past { ¬ IsHeadLine (first_line text.now) }
    ensures ok { IfOk result
        (λ read. ReadsOn most_session before (open_with journal.old.head []) text.now journal.new.head
        (entry_trees journal.new.entries) read.1 read.0.now read.2) }
    ensures fewer { IfOk result (λ read. read.1 + length read.0.now ≤ before + length text.now) }
    ensures err { IfErr result (IsErrorFrom most_session before (open_with journal.old.head []) text.now) }
{
    let mut rest = text;
    let mut line = before;
    while !rest.is_empty() {
        line += 1;
        let (entry, after) = first_line(rest);
        if is_end(entry) {
            return Ok((after, line, true));
        }
        match add_entry(alloc, journal, entry) {
            Ok(()) => {}
            Err(LineFault::Bad) => return Err(PolicyError::Bad { line }),
            Err(LineFault::Refused(refusal)) => {
                return Err(PolicyError::Refused {
                    line,
                    number: refusal_number(refusal),
                });
            }
            Err(LineFault::Memory) => return Err(PolicyError::Memory),
        }
        if journal.greatest_session() > most_session {
            return Err(PolicyError::Bad { line });
        }
        rest = after;
    }
    Ok((rest, line, false))
}

/// Whether the line is the last of a policy's text.
pub fn is_end(line: &[u8]) -> bool
    ensures { IsTrue result ↔ (line.now ≡ codes "end") }
{
    line == "end".as_bytes()
}

/// The number of a refusal, from 4 to 20 or 22, by which it is told. `docs/FORMATS.md`, "Events and refusals", lists them.
pub fn refusal_number(refusal: Refusal) -> u64
    ensures { result ≡ refusal_number refusal }
{
    match refusal {
        Refusal::NoSuchPrincipal => 4,
        Refusal::NotYourPrincipal => 5,
        Refusal::NoSuchLabel => 6,
        Refusal::NotHolder => 7,
        Refusal::NoSuchObject => 8,
        Refusal::NameTaken => 9,
        Refusal::NotOwner => 10,
        Refusal::NoGoal => 11,
        Refusal::NoSuchProof => 12,
        Refusal::NoBinding => 13,
        Refusal::BadPort => 14,
        Refusal::BadFormula => 15,
        Refusal::BadProof => 16,
        Refusal::Quota => 17,
        Refusal::ObjectsFull => 18,
        Refusal::CasesFull => 19,
        Refusal::NotRecorded => 20,
        Refusal::JournalFull => 22,
    }
}
