ghost use Rattle.std.specs.Prelude.{◌≡◌, ◌<◌, ◌≤◌, ◌+◌, ◌^◌, ◌∷◌, ◌++◌, IfOk, IfSome, List, MatchOption, length, ℕ};
ghost use Rattle.proof_text.specs.ProofText.{segments};
ghost use Rattle.proof_text.specs.Places.{IsFormulaAt, column_of};

use crate::heads::head;
use crate::segments::next_segment;
use nal_parse::blank_length;
use std::alloc::{AllocError, Global};

/// How many bytes of its line stand before a segment, the header being segment 0; blanks before the segment count. Where the text
/// has fewer segments it is 0: the segment that is missing would stand on the line after the last.
#[tactic(auto, using(crate::proofs::Places::column_here, crate::proofs::Places::column_more, crate::proofs::Places::column_end, crate::proofs::Places::column_beyond))]
pub fn segment_column(text: &[u8], segment: u64) -> u64
    ensures column { result ≡ column_of segment text.now }
    ensures bound { result ≤ length text.now }
{
    let mut cuts_left = segment;
    let mut column = 0u64;
    for (place, byte) in text.iter().enumerate() {
        if cuts_left == 0 {
            return column + blank_length(&text[place..]) as u64;
        }
        if *byte == b'\n' {
            cuts_left -= 1;
            column = 0;
        } else {
            column += 1;
            if *byte == b';' {
                cuts_left -= 1;
            }
        }
    }
    if cuts_left == 0 { column } else { 0 }
}

/// The text of the formula in a segment, the header being segment 0, and how many bytes of its line stand before it. None exactly where the
/// text has no such segment, or it lacks the form of a line up to its `:`. An `Err` is want of memory.
pub fn formula_at(
    alloc: Global,
    text: &[u8],
    segment: u64,
) -> Result<Option<(u64, &[u8])>, AllocError>
    ensures found { IfOk result (λ found. MatchOption found
        ((column : ℕ) (formula : List ℕ) → ¬ IsFormulaAt text.entry.now segment column formula)
        (λ f. IsFormulaAt text.entry.now segment f.0 f.1.now)) }
    ensures bound { IfOk result (λ found. IfSome found (λ f. f.0 + length f.1.now + 1 < 2 ^ 64)) }
{
    let Some(bytes) = segment_at(text, segment) else {
        return Ok(None);
    };
    let found = head(alloc, bytes)?;
    let Some((_, formula)) = found else {
        return Ok(None);
    };
    let before = (bytes.len() - formula.len()) as u64;
    Ok(Some((segment_column(text, segment) + before, formula)))
}

/// The segment with this number. None where the text has fewer.
fn segment_at(text: &[u8], segment: u64) -> Option<&[u8]>
    ensures { MatchOption result
        (length (segments text.entry.now) ≤ segment)
        (λ bytes. (before : List (List ℕ)) × (behind : List (List ℕ))
        × (segments text.entry.now ≡ before ++ bytes.now ∷ behind) × (length before ≡ segment)) }
{
    let mut left = segment;
    let mut rest = Some(text);
    while let Some(bytes) = rest {
        let (found, after) = next_segment(bytes);
        if left == 0 {
            return Some(found);
        }
        left -= 1;
        rest = after;
    }
    None
}
