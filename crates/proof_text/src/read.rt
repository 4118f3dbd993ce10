ghost use Rattle.std.specs.Prelude.{◌≡◌, ◌≢◌, ◌<◌, ◌↔◌, ◌++◌, ◌∷◌, [], length, IfOk, IfErr, OnOk, IsTrue, List, codes};
ghost use Rattle.std.specs.Option.{option_copied};
ghost use Rattle.proof_lines.specs.Lines.{LineTree, HasRuleForm, line_tree, line_trees};
ghost use Rattle.proof_text.specs.ProofText.{IsHeader, IsTail, IsWrong, IsMisspelled, IsProofText, IsRefused, SpellsProof};
ghost use Rattle.proof_text.specs.Bodies.{NoInnerMemory};
ghost use Rattle.proof_text.specs.Inner.Lines.{IsBody};
ghost use Rattle.proof_text.specs.Inner.Reading.{segments_after};

use crate::lengths::proof_length;
use crate::lines::line;
use crate::segments::next_segment;
use nal_parse::ParseError;
use proof_lines::{Line, Proof, PushError};
use std::alloc::Global;

/// How many bytes a proof's text may have.
const MOST_BYTES: u64 = 32_768;

/// Why a proof's text was not read. A segment's number is that of its line, counted from 1.
/// `docs/FORMATS.md`, "Proof text", says which comes.
#[derive(Clone, Copy, Debug, PartialEq, Eq)]
pub enum ProofError {
    /// The first segment is neither `proof 1` nor `proof 2`.
    BadHeader,
    /// The segment of this line lacks the form of a line up to its `:`.
    BadLine { line: u64 },
    /// The segment of this line has another number.
    BadNumber { line: u64 },
    /// There is a 257th line.
    TooManyLines,
    /// The text, or the proof's canonical text, has more than 32,768 bytes.
    TooLong,
    /// The formula of this line is refused; places count from its first byte.
    Formula { line: u64, error: ParseError },
    /// The text ends before `end`.
    NoEnd,
    /// Something follows `end`.
    After,
    /// There was no memory for the proof.
    Memory,
}

/// Reads a proof's text: a header, the lines numbered from 1, and `end`. `TooLong` where it has more than
/// 32,768 bytes, else the error of its lowest wrong segment, else `TooLong` where its canonical text has more
/// than 32,768 bytes; `Memory` where there is none for the proof.
/// `docs/FORMATS.md`, "Proof text", states the form and says which error comes.
pub fn read_proof(alloc: Global, text: &[u8]) -> Result<Proof, ProofError>
    ensures ok { IfOk result (λ p. IsProofText text.now (line_trees p)) }
    ensures only { IfOk result (λ p. (ls : List LineTree) → IsProofText text.now ls → ls ≡ line_trees p) }
    ensures err { IfErr result (λ e. e ≢ ProofError.Memory → IsRefused text.now e) }
    ensures refused { IfErr result
        (λ e. e ≢ ProofError.Memory → (ls : List LineTree) → ¬ IsProofText text.now ls) }
    ensures inner { IfErr result NoInnerMemory }
{
    let proof = match read_spelled(alloc, text) {
        Ok(proof) => proof,
        Err(error) => return Err(error),
    };
    if proof_length(&proof) > MOST_BYTES {
        return Err(ProofError::TooLong);
    }
    Ok(proof)
}

/// Reads the proof that a text of at most 32,768 bytes spells, whatever the length of its canonical text.
fn read_spelled(alloc: Global, text: &[u8]) -> Result<Proof, ProofError>
    ensures ok { IfOk result (λ p. SpellsProof text.now (line_trees p)) }
    ensures only { IfOk result (λ p. (ls : List LineTree) → SpellsProof text.now ls → ls ≡ line_trees p) }
    ensures err { IfErr result (λ e. e ≢ ProofError.Memory → IsMisspelled text.now e) }
    ensures refused { IfErr result
        (λ e. e ≢ ProofError.Memory → (ls : List LineTree) → ¬ SpellsProof text.now ls) }
    ensures inner { IfErr result NoInnerMemory }
{
    if text.len() as u64 > MOST_BYTES {
        return Err(ProofError::TooLong);
    }
    let (header, rest) = next_segment(text);
    if !is_header(header) {
        return Err(ProofError::BadHeader);
    }
    read_lines(alloc, rest)
}

fn is_header(segment: &[u8]) -> bool
    ensures { IsTrue result ↔ IsHeader segment.now }
{
    segment == "proof 1".as_bytes() || segment == "proof 2".as_bytes()
}

/// Reads the segments after the header, up to the end of the text.
fn read_lines(alloc: Global, first: Option<&[u8]>) -> Result<Proof, ProofError>
    ensures ok { IfOk result (λ p. IsBody (segments_after (option_copied first.entry)) (line_trees p)) }
    ensures only { IfOk result
        (λ p. (ls : List LineTree) → IsBody (segments_after (option_copied first.entry)) ls → ls ≡ line_trees p) }
    ensures err { IfErr result
        (λ e. e ≢ ProofError.Memory → IsWrong 1 (segments_after (option_copied first.entry)) e) }
    ensures inner { IfErr result NoInnerMemory }
{
    let mut proof = Proof::new(alloc);
    let mut rest = first;
    loop {
        let due = proof.count() + 1;
        let Some(bytes) = rest else {
            return Err(missing_end(due));
        };
        let (segment, after) = next_segment(bytes);
        if is_end(due, segment) {
            if is_tail(after) {
                return Ok(proof);
            }
            return Err(ProofError::After);
        }
        if is_cut_off(due, segment, after) {
            return Err(ProofError::NoEnd);
        }
        let line = line(alloc, segment, due)?;
        add(&mut proof, line)?;
        rest = after;
    }
}

/// The error where no segment is left for line `due` or for `end`.
fn missing_end(due: u64) -> ProofError
    requires { 0 < due }
    ensures wrong { IsWrong due [] result }
    ensures inner { NoInnerMemory result }
{
    if due == 1 {
        ProofError::BadLine { line: 1 }
    } else {
        ProofError::NoEnd
    }
}

/// Whether a segment that may be line `due` is `end`, which stands after at least one line.
fn is_end(due: u64, segment: &[u8]) -> bool
    ensures { IsTrue result ↔ ((1 < due) × (segment.now ≡ codes "end")) }
{
    due > 1 && segment == "end".as_bytes()
}

/// Whether the text is cut off before `end`: after at least one line, an empty segment is the last.
fn is_cut_off(due: u64, segment: &[u8], after: Option<&[u8]>) -> bool
    ensures { IsTrue result
        ↔ ((1 < due) × (segment.now ∷ segments_after (option_copied after.entry) ≡ [] ∷ [])) }
{
    due > 1 && is_blank_end(segment, after)
}

/// Whether at most one empty segment follows `end`.
fn is_tail(after: Option<&[u8]>) -> bool
    ensures { IsTrue result ↔ IsTail (segments_after (option_copied after.entry)) }
{
    match after {
        None => true,
        Some(bytes) => {
            let (segment, rest) = next_segment(bytes);
            is_blank_end(segment, rest)
        }
    }
}

/// Whether a segment is empty and the last one.
fn is_blank_end(segment: &[u8], after: Option<&[u8]>) -> bool
    ensures { IsTrue result ↔ (segment.now ∷ segments_after (option_copied after.entry) ≡ [] ∷ []) }
{
    match after {
        None => segment.is_empty(),
        Some(_) => false,
    }
}

/// Adds a line that a proof has room for.
fn add(proof: &mut Proof, line: Line) -> Result<(), ProofError>
    requires form { HasRuleForm (line_tree line) }
    requires room { length proof.old < 256 }
    ensures ok { OnOk result (proof.new ≡ proof.old ++ line ∷ []) }
    ensures err { IfErr result (λ e. e ≡ ProofError.Memory) }
{
    match proof.push(line) {
        Ok(()) => Ok(()),
        Err(error) => {
            let is_memory = matches!(error, PushError::Memory);
            prove!(is_memory);
            Err(ProofError::Memory)
        }
    }
}
