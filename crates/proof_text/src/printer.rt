ghost use Rattle.std.specs.Prelude.{◌≡◌, ◌<◌, ◌≤◌, ◌+◌, ◌^◌, ◌++◌, All, length, IfOk, OnOk, option_map};
ghost use Rattle.std.specs.Fmt.{decimal};
ghost use Rattle.nal_term.specs.Trees.{term_tree};
ghost use Rattle.proof_lines.specs.Lines.{line_tree, line_trees};
ghost use Rattle.proof_text.specs.CanonicalProof.{IsSpellableLine, IsSpellableOptional, IsSpellableProof, ProofFits, bracket_text, line_text, lines_text, proof_text, references_text};
ghost use Rattle.proof_text.specs.ProofText.{IsProofText};

use crate::names::rule_name;
use nal_parse::{print_formula, print_term};
use nal_term::Term;
use nx_io::Bytes;
use proof_lines::{Line, Proof};
use std::alloc::{AllocError, Global};

/// The proof's canonical text. An `Err` is want of memory.
/// `docs/FORMATS.md`, "Proof text", states the text.
pub fn print_proof(alloc: Global, proof: &Proof) -> Result<Bytes, AllocError>
    ensures text { IfOk result (λ b. b ≡ proof_text (line_trees proof.now)) }
    ensures read_again { IfOk result (λ b. ProofFits (line_trees proof.now) → IsProofText b (line_trees proof.now)) }
    ensures spellable { OnOk result (IsSpellableProof (line_trees proof.now)) }
{
    let mut text = Bytes::of(alloc, b"proof 2")?;
    append_lines(alloc, &mut text, 1, proof.as_slice())?;
    text.extend(b" ; end")?;
    Ok(text)
}

/// Appends the texts of the lines from this number on.
fn append_lines(
    alloc: Global,
    text: &mut Bytes,
    number: u64,
    lines: &[Line],
) -> Result<(), AllocError>
    requires { number + length lines.now ≤ 257 }
    ensures text { OnOk result (text.new ≡ text.old ++ lines_text number (line_trees lines.now)) }
    ensures spellable { OnOk result (All IsSpellableLine (line_trees lines.now)) }
{
    match lines.split_first() {
        None => Ok(()),
        Some((first, rest)) => {
            text.extend(b" ; ")?;
            append_line(alloc, text, number, first)?;
            append_lines(alloc, text, number + 1, rest)
        }
    }
}

fn append_line(alloc: Global, text: &mut Bytes, number: u64, line: &Line) -> Result<(), AllocError>
    ensures text { OnOk result (text.new ≡ text.old ++ line_text number (line_tree line.now)) }
    ensures spellable { OnOk result (IsSpellableLine (line_tree line.now)) }
{
    append_number(alloc, text, number)?;
    text.extend(b" ")?;
    text.extend(rule_name(line.rule).as_bytes())?;
    append_references(alloc, text, line.refs.as_slice())?;
    append_term(alloc, text, &line.term)?;
    text.extend(b" : ")?;
    let formula = print_formula(alloc, &line.formula)?;
    text.extend(formula.as_slice())
}

fn append_number(alloc: Global, text: &mut Bytes, number: u64) -> Result<(), AllocError>
    ensures { OnOk result (text.new ≡ text.old ++ decimal number) }
{
    let digits = format!(in alloc; "{number}")?;
    text.extend(digits.as_bytes())
}

/// Appends the references, each after a space.
fn append_references(alloc: Global, text: &mut Bytes, refs: &[u64]) -> Result<(), AllocError>
    ensures text { OnOk result (text.new ≡ text.old ++ references_text refs.now) }
    ensures spellable { OnOk result (All (λ r. r < 2 ^ 64) refs.now) }
{
    match refs.split_first() {
        None => Ok(()),
        Some((first, rest)) => {
            text.extend(b" ")?;
            append_number(alloc, text, *first)?;
            append_references(alloc, text, rest)
        }
    }
}

/// Appends the term in brackets, where there is one.
fn append_term(alloc: Global, text: &mut Bytes, term: &Option<Term>) -> Result<(), AllocError>
    ensures text { OnOk result (text.new ≡ text.old ++ bracket_text (option_map term_tree term.now)) }
    ensures spellable { OnOk result (IsSpellableOptional (option_map term_tree term.now)) }
{
    match term {
        None => Ok(()),
        Some(term) => {
            text.extend(b" [")?;
            let term = print_term(alloc, term)?;
            text.extend(term.as_slice())?;
            text.extend(b"]")
        }
    }
}
