ghost use Rattle.std.specs.Prelude.{◌≡◌, ◌≤◌, ◌∷◌, length, not};
ghost use Rattle.std.specs.List.{prefix_len, suffix_len};
ghost use Rattle.std.specs.Option.{option_copied};
ghost use Rattle.nal_parse.specs.Tokens.{is_blank, after_blanks};
ghost use Rattle.proof_text.specs.ProofText.{trimmed, is_cut, segments};
ghost use Rattle.proof_text.specs.Places.{line_feeds_before, end_segment_of};
ghost use Rattle.proof_text.specs.Inner.Reading.{segments_after, left};

use nal_parse::blank_length;

/// The number of the line of the input, counted from 0, on which a segment begins: how many line feeds
/// stand before the segment with this number, the header being segment 0. Where the text has fewer
/// segments, all its line feeds. `docs/FORMATS.md`, "Proof text", says what cuts segments.
#[tactic(auto, using(crate::proofs::Places::line_feeds_more, crate::proofs::Places::line_feeds_all, crate::proofs::Places::line_feeds_none))]
pub fn segment_line(text: &[u8], segment: u64) -> u64
    ensures { result ≡ line_feeds_before segment text.now }
{
    let mut cuts_left = segment;
    let mut line_feeds = 0u64;
    for byte in text {
        if cuts_left == 0 {
            return line_feeds;
        }
        if *byte == b'\n' {
            cuts_left -= 1;
            line_feeds += 1;
        } else if *byte == b';' {
            cuts_left -= 1;
        }
    }
    line_feeds
}

/// The number of the first segment that is `end`, of those from segment 2 on, the header being segment 0.
/// Where there is none, the number of segments. `docs/FORMATS.md`, "Proof text", says where `end` stands.
pub fn end_segment(text: &[u8]) -> u64
    ensures { result ≡ end_segment_of text.now }
{
    let mut number = 0u64;
    let mut rest = Some(text);
    while let Some(bytes) = rest {
        let (segment, after) = next_segment(bytes);
        if number >= 2 && segment == "end".as_bytes() {
            return number;
        }
        number += 1;
        rest = after;
    }
    number
}

/// The first segment of a text, and the text after its cut. None after the last segment.
pub fn next_segment(text: &[u8]) -> (&[u8], Option<&[u8]>)
    ensures segments { segments text.now ≡ result.0.now ∷ segments_after (option_copied result.1) }
    ensures shorter { left (option_copied result.1) ≤ length text.now }
{
    let length = piece_length(text);
    if length < text.len() {
        (trim(&text[..length]), Some(&text[length + 1..]))
    } else {
        (trim(text), None)
    }
}

/// The text without the blanks at its two ends.
pub fn trim(text: &[u8]) -> &[u8]
    ensures { result.now ≡ trimmed text.now }
{
    let rest = after_blanks(text);
    let blanks = trailing_blanks(rest);
    &rest[..rest.len() - blanks]
}

/// The text from its first byte that is no blank.
pub fn after_blanks(text: &[u8]) -> &[u8]
    ensures { result.now ≡ after_blanks text.now }
{
    &text[blank_length(text)..]
}

fn piece_length(text: &[u8]) -> usize
    ensures length { result ≡ prefix_len (λ b. not (is_cut b)) text.now }
    ensures bound { result ≤ length text.now }
{
    text.iter()
        .take_while(|byte| !(**byte == b'\n' || **byte == b';'))
        .count()
}

fn trailing_blanks(text: &[u8]) -> usize
    ensures length { result ≡ suffix_len is_blank text.now }
    ensures bound { result ≤ length text.now }
{
    text.iter()
        .rev()
        .take_while(|byte| is_blank(**byte))
        .count()
}

fn is_blank(byte: u8) -> bool
    ensures { result ≡ is_blank byte }
{
    byte == b' ' || byte == b'\t'
}
