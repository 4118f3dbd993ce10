ghost use Rattle.std.specs.Prelude.{◌≡◌, ◌≢◌, ◌↔◌, ◌++◌, ℕ, IsTrue, List, MatchOption, Some, None};
ghost use Rattle.session_wire.specs.Frames.{IsNumber64, IsShort, number_bytes, text_bytes};
ghost use Rattle.session_wire.specs.Inner.Judging.{MayHold};
ghost use Rattle.session_wire.specs.Fields.{BeginsField, BeginsNoField, HasFault, IsGoodPayload, sorts_of_kind};

use byteorder::{BigEndian, ByteOrder};
use nal_term::{is_name, is_secret};

/// Why the bytes of a frame are no request. The first of these that applies is told. `docs/FORMATS.md`, "Frames", states
/// the frames.
#[derive(Clone, Copy, Debug, PartialEq, Eq)]
pub enum FrameFault {
    /// The length is over 33,792.
    TooLong,
    /// There is no byte of kind, or no such kind.
    BadKind,
    /// A field runs past the payload, or its bytes are no name or no secret where one is due.
    BadField,
    /// Something follows the last field.
    Trailing,
}

/// What a field of a frame holds.
#[derive(Clone, Copy, Debug, PartialEq, Eq)]
pub(crate) enum Sort {
    Name,
    Secret,
    Text,
    Number,
}

/// The first fault of a payload and its place, counted from the payload's first byte. None exactly where the payload is
/// that of a request. It takes no memory.
pub(crate) fn judge(payload: &[u8]) -> Option<(FrameFault, usize)>
    ensures { MatchOption result (IsGoodPayload payload.now) (λ found. HasFault found.0 payload.now found.1) }
{
    let Some((kind, body)) = payload.split_first() else {
        return Some((FrameFault::BadKind, 0));
    };
    let Some(sorts) = sorts_of_kind(*kind) else {
        return Some((FrameFault::BadKind, 0));
    };
    let mut rest = body;
    for sort in sorts {
        match after_field(*sort, rest) {
            Some(more) => rest = more,
            None => return Some((FrameFault::BadField, payload.len() - rest.len())),
        }
    }
    if rest.is_empty() {
        None
    } else {
        Some((FrameFault::Trailing, payload.len() - rest.len()))
    }
}

/// The sorts of the fields of a kind.
#[tactic(auto, unfolding(crate::specs::Fields::sorts_of_kind))]
fn sorts_of_kind(kind: u8) -> Option<&'static [Sort]>
    ensures { MatchOption result (sorts_of_kind kind ≡ None) (λ sorts. sorts_of_kind kind ≡ Some sorts.now) }
{
    match kind {
        1 => Some(&[Sort::Name, Sort::Secret]),
        2 => Some(&[Sort::Text, Sort::Text]),
        3 => Some(&[Sort::Number, Sort::Name]),
        4 | 13 => Some(&[Sort::Number]),
        5 => Some(&[Sort::Name]),
        6 | 8 => Some(&[Sort::Name, Sort::Name, Sort::Text]),
        7 | 9 => Some(&[Sort::Name, Sort::Name]),
        10 => Some(&[Sort::Text, Sort::Number]),
        11 => Some(&[Sort::Text]),
        12 => Some(&[Sort::Name, Sort::Name, Sort::Number]),
        _ => None,
    }
}

/// What follows the field of this sort that the bytes begin with. None exactly where they begin with none.
fn after_field(sort: Sort, bytes: &[u8]) -> Option<&[u8]>
    ensures { MatchOption result (BeginsNoField sort bytes.now) (λ rest. BeginsField sort bytes.now rest.now) }
{
    match sort {
        Sort::Number => {
            let (_, rest) = cut_number(bytes)?;
            Some(rest)
        }
        _ => {
            let (text, rest) = cut_text(bytes)?;
            if may_hold(sort, text) {
                Some(rest)
            } else {
                None
            }
        }
    }
}

/// Whether a field of this sort, which is not that of numbers, may hold these bytes.
fn may_hold(sort: Sort, bytes: &[u8]) -> bool
    ensures { IsTrue result ↔ MayHold sort bytes.now }
{
    match sort {
        Sort::Name => is_name(bytes),
        Sort::Secret => is_secret(bytes),
        Sort::Text | Sort::Number => true,
    }
}

/// The text that the bytes begin with, and what follows it.
pub(crate) fn cut_text(bytes: &[u8]) -> Option<(&[u8], &[u8])>
    ensures { MatchOption result ((text rest : List ℕ) → IsShort text → bytes.now ≢ text_bytes text ++ rest)
        (λ cut. IsShort cut.0.now × (bytes.now ≡ text_bytes cut.0.now ++ cut.1.now)) }
{
    if bytes.len() < 2 {
        return None;
    }
    let count = usize::from(BigEndian::read_u16(bytes));
    let rest = &bytes[2..];
    if rest.len() < count {
        return None;
    }
    Some((&rest[..count], &rest[count..]))
}

/// The number that the bytes begin with, and what follows it.
pub(crate) fn cut_number(bytes: &[u8]) -> Option<(u64, &[u8])>
    ensures { MatchOption result
        ((number : ℕ) (rest : List ℕ) → IsNumber64 number → bytes.now ≢ number_bytes number ++ rest)
        (λ cut. IsNumber64 cut.0 × (bytes.now ≡ number_bytes cut.0 ++ cut.1.now)) }
{
    if bytes.len() < 8 {
        return None;
    }
    Some((BigEndian::read_u64(bytes), &bytes[8..]))
}
