ghost use Rattle.std.specs.Prelude.{◌≡◌, ◌≢◌, ◌<◌, ◌≤◌, ◌^◌, ◌+◌, length, count_by};
ghost use Rattle.proof_text.specs.ProofText.{segments, is_cut};
ghost use Rattle.answer_commands.specs.CheckForm.{IsLineOfError, IsLineOfSegment};

use proof_text::{ProofError, end_segment, segment_line};
use text_lines::line_count;

/// The line of a proof's text, counted from 1, by which its error is named.
/// `docs/FORMATS.md`, "The check form", says which line that is.
#[tactic(auto, using(crate::proofs::Segments::line_count_bounded, crate::proofs::Segments::end_segment_bounded))]
pub fn line_of_error(text: &[u8], error: ProofError) -> u64
    requires short { length text.now < 2 ^ 32 }
    requires told { error ≢ ProofError.Memory }
    ensures line { IsLineOfError text.now error result }
    ensures bound { result ≤ length text.now + 2 }
{
    match error {
        ProofError::BadHeader | ProofError::TooLong => 1,
        ProofError::BadLine { line } | ProofError::BadNumber { line } => line_of_segment(
            text, line,
        ),
        ProofError::Formula { line, error: _ } => line_of_segment(text, line),
        ProofError::TooManyLines => line_of_segment(text, 257),
        ProofError::NoEnd => line_count(text) + 1,
        ProofError::After => line_of_segment(text, end_segment(text) + 1),
        ProofError::Memory => 0,
    }
}

#[tactic(auto, using(crate::proofs::Segments::line_feeds_bounded, crate::proofs::Segments::line_count_bounded))]
fn line_of_segment(text: &[u8], segment: u64) -> u64
    requires { length text.now < 2 ^ 32 }
    ensures line { IsLineOfSegment text.now segment result }
    ensures bound { result ≤ length text.now + 2 }
{
    if segment < segment_count(text) {
        segment_line(text, segment) + 1
    } else {
        line_count(text) + 1
    }
}

/// How many segments a text has.
#[tactic(auto, using(crate::proofs::Segments::length_segments))]
fn segment_count(text: &[u8]) -> u64
    requires { length text.now < 2 ^ 32 }
    ensures { result ≡ length (segments text.now) }
{
    cut_count(text) as u64 + 1
}

fn cut_count(text: &[u8]) -> usize
    ensures count { result ≡ count_by is_cut text.now }
    ensures bound { result ≤ length text.now }
{
    text.iter()
        .filter(|byte| **byte == b'\n' || **byte == b';')
        .count()
}
