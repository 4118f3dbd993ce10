ghost use Rattle.std.specs.Prelude.{◌≡◌, ◌≤◌, ◌<◌, ◌+◌, ◌-◌, ◌^◌, ◌↔◌, min, length, option_map, All, IsTrue};
ghost use Rattle.nal_term.specs.Trees.{term_tree};
ghost use Rattle.proof_lines.specs.Lines.{line_tree, line_trees};
ghost use Rattle.proof_text.specs.CanonicalProof.{LineFits, OptionalTermFits, ProofFits, bracket_text, line_text, lines_text, proof_text, references_text};

use crate::names::rule_name;
use nal_parse::{digit_count, fits, term_fits, term_length, text_length};
use nal_term::Term;
use proof_lines::{Line, Proof};

/// How many bytes the proof's canonical text has; `u64::MAX` where there are more. It takes no memory.
/// `docs/FORMATS.md`, "Proof text", states the text.
pub fn proof_length(proof: &Proof) -> u64
    ensures { result ≡ min (length (proof_text (line_trees proof.now))) (2 ^ 64 - 1) }
{
    lines_length(1, proof.as_slice()).saturating_add(13)
}

fn lines_length(number: u64, lines: &[Line]) -> u64
    requires { number + length lines.now ≤ 257 }
    ensures { result ≡ min (length (lines_text number (line_trees lines.now))) (2 ^ 64 - 1) }
{
    match lines.split_first() {
        None => 0,
        Some((first, rest)) => line_length(number, first)
            .saturating_add(3)
            .saturating_add(lines_length(number + 1, rest)),
    }
}

fn line_length(number: u64, line: &Line) -> u64
    ensures { result ≡ min (length (line_text number (line_tree line.now))) (2 ^ 64 - 1) }
{
    digit_count(number)
        .saturating_add(4)
        .saturating_add(rule_name(line.rule).len() as u64)
        .saturating_add(references_length(line.refs.as_slice()))
        .saturating_add(bracket_length(&line.term))
        .saturating_add(text_length(&line.formula))
}

fn references_length(refs: &[u64]) -> u64
    ensures { result ≡ min (length (references_text refs.now)) (2 ^ 64 - 1) }
{
    match refs.split_first() {
        None => 0,
        Some((first, rest)) => digit_count(*first)
            .saturating_add(1)
            .saturating_add(references_length(rest)),
    }
}

fn bracket_length(term: &Option<Term>) -> u64
    ensures { result ≡ min (length (bracket_text (option_map term_tree term.now))) (2 ^ 64 - 1) }
{
    match term {
        None => 0,
        Some(term) => term_length(term).saturating_add(3),
    }
}

/// Whether the proof can be read: it has a line, its canonical text has at most 32,768 bytes, and each formula
/// and term in it fits. It takes no memory. `docs/FORMATS.md`, "Proof text", states the limits.
pub fn proof_fits(proof: &Proof) -> bool
    ensures { IsTrue result ↔ ProofFits (line_trees proof.now) }
{
    proof.count() > 0 && proof_length(proof) <= 32_768 && lines_fit(proof.as_slice())
}

fn lines_fit(lines: &[Line]) -> bool
    ensures { IsTrue result ↔ All LineFits (line_trees lines.now) }
{
    match lines.split_first() {
        None => true,
        Some((first, rest)) => line_fits(first) && lines_fit(rest),
    }
}

fn line_fits(line: &Line) -> bool
    ensures { IsTrue result ↔ LineFits (line_tree line.now) }
{
    fits(&line.formula) && optional_term_fits(&line.term)
}

fn optional_term_fits(term: &Option<Term>) -> bool
    ensures { IsTrue result ↔ OptionalTermFits (option_map term_tree term.now) }
{
    match term {
        None => true,
        Some(term) => term_fits(term),
    }
}
