//! Reading the text of a policy that may be cut anywhere.
ghost use Rattle.std.specs.Prelude.{◌≡◌, ◌≢◌, ◌<◌, ◌≤◌, List, IfErr, IfOk, drop, length, take};
ghost use Rattle.std.specs.List.{All};
ghost use Rattle.policy_history.specs.Events.{EntryTree};
ghost use Rattle.policy_history.specs.Values.{entry_trees};
ghost use Rattle.policy_history.specs.declared.heads.Head.{Head};
ghost use Rattle.journal_text.specs.CutPolicies.{IsCutErrorOf, IsCutInto, IsKept, ReadsCut, ReadsOpen};
ghost use Rattle.journal_text.specs.PolicyLaws.{IsInSession};
ghost use Rattle.journal_text.specs.PolicyText.{most_bytes};
ghost use Rattle.journal_text.specs.Inner.PolicyReading.{IsOpenError};

use crate::policy_reader::{MOST_BYTES, PolicyError, PolicyLines, is_end, read_through};
use policy_history::Journal;
use std::alloc::Global;

/// Reads the text of a policy that may be cut anywhere. A last line without its line feed is left out, unless it is `end`; what
/// is kept is the text of a policy, whose line `end` may be missing. Ok exactly where it is one; it is that of no other.
/// `TooLong` exactly where the text has more than 67,108,864 bytes, and before all others; else the error of the lowest wrong
/// line of what is kept. Where nothing is kept, that is line 1. Each entry has a session, whose number has no bound but its
/// 64 bits, so that the text of the journal is read again as an equal one.
/// `docs/FORMATS.md`, "Policy text", states the form.
pub fn read_cut(alloc: Global, text: &[u8]) -> Result<Journal, PolicyError>
    ensures ok { IfOk result (λ journal. ReadsCut text.now journal.head (entry_trees journal.entries)) }
    ensures only { IfOk result
        (λ journal. (h : Head) (es : List EntryTree) → ReadsCut text.now h es
        → (h ≡ journal.head) × (es ≡ entry_trees journal.entries)) }
    ensures sessions { IfOk result (λ journal. All IsInSession (entry_trees journal.entries)) }
    ensures err { IfErr result (IsCutErrorOf text.now) }
    ensures refused { IfErr result
        (λ e. e ≢ PolicyError.Memory → (h : Head) (es : List EntryTree) → ¬ ReadsCut text.now h es) }
    ensures long { most_bytes < length text.now → result ≡ Err PolicyError.TooLong }
{
    if text.len() > MOST_BYTES {
        return Err(PolicyError::TooLong);
    }
    read_short(alloc, text)
}

/// Reads the text of a policy that may be cut and is not too long.
fn read_short(alloc: Global, text: &[u8]) -> Result<Journal, PolicyError>
    requires { length text.now ≤ most_bytes }
    ensures ok { IfOk result (λ journal. ReadsCut text.now journal.head (entry_trees journal.entries)) }
    ensures err { IfErr result (IsCutErrorOf text.now) }
{
    read_kept(alloc, kept_of(text))
}

/// Reads what is kept of a text.
fn read_kept(alloc: Global, kept: &[u8]) -> Result<Journal, PolicyError>
    requires { length kept.now ≤ most_bytes }
    ensures ok { IfOk result (λ journal. ReadsOpen kept.now journal.head (entry_trees journal.entries)) }
    ensures err { IfErr result (IsOpenError kept.now) }
{
    match read_through(alloc, kept, u64::MAX) {
        Ok(
            PolicyLines {
                journal,
                rest,
                lines,
                ..
            },
        ) => {
            if rest.is_empty() {
                Ok(journal)
            } else {
                drop(journal);
                Err(PolicyError::Bad { line: lines + 1 })
            }
        }
        Err(error) => Err(error),
    }
}

/// What is kept of a text: all of it where its last line is `end` without the line feed, else its whole lines.
fn kept_of(text: &[u8]) -> &[u8]
    ensures kept { IsKept text.now result.now }
    ensures shorter { length result.now ≤ length text.now }
{
    let whole = whole_length(text);
    if is_end(&text[whole..]) {
        text
    } else {
        &text[..whole]
    }
}

/// How many bytes the lines have that have their line feed.
fn whole_length(text: &[u8]) -> usize
    ensures cut { IsCutInto text.now (take result text.now) (drop result text.now) }
    ensures bound { result ≤ length text.now }
{
    let mut whole = text.len();
    while whole > 0 && text[whole - 1] != b'\n' {
        whole -= 1;
    }
    whole
}
