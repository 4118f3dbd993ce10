// Canonical texts of proofs, each read again, with their lengths and limits.
use crate::proof_texts::Lines;
use crate::rows::{Call, play};
use proof_lines::Proof;
use proof_text::{print_proof, proof_fits, proof_length, read_proof};
use std::alloc::{AllocError, Global};

// Proofs with their canonical texts.
const PROOFS: &str =
    "proof 1|1 label:alice   says ok|end| -> proof 2 ; 1 label : alice says ok ; end
proof 2;1 hyp:p;2 exists_i 1[ a . b ]:exists ?x:p;end -> proof 2 ; 1 hyp : p ; 2 exists_i 1 [a.b] : exists ?x : p ; end
proof 1;1 or_e 0 0 0 7 18446744073709551615 : not p;end; -> proof 2 ; 1 or_e 0 0 0 7 18446744073709551615 : p => false ; end";

struct Printed;

impl Call for Printed {
    fn told(alloc: Global, input: &[u8]) -> Result<String, AllocError> {
        match read_proof(alloc, input) {
            Ok(proof) => canonical(alloc, &proof),
            Err(error) => format!(in alloc; "{error:?}"),
        }
    }
}

// The proof's text, with a mark where its length is another, it does not fit, or the proof that is read of it has another.
fn canonical(alloc: Global, proof: &Proof) -> Result<String, AllocError> {
    let printed = print_proof(alloc, proof)?;
    let bytes = printed.as_slice();
    let is_own = proof_length(proof) == bytes.len() as u64
        && proof_fits(proof)
        && is_printed_again(alloc, bytes);
    let text = str::from_utf8(bytes).unwrap_or("no text");
    let mark = if is_own { "" } else { " (not its own)" };
    format!(in alloc; "{text}{mark}")
}

fn is_printed_again(alloc: Global, text: &[u8]) -> bool {
    match read_proof(alloc, text) {
        Ok(again) => is_printed_as(alloc, &again, text),
        Err(_) => false,
    }
}

fn is_printed_as(alloc: Global, proof: &Proof, text: &[u8]) -> bool {
    match print_proof(alloc, proof) {
        Ok(printed) => printed.as_slice() == text,
        Err(_) => false,
    }
}

#[test]
fn proofs_are_printed_canonically(rt: HostRuntime) {
    play::<Printed>(&rt, rt.alloc(), PROOFS);
}

#[test]
fn a_proof_without_lines_does_not_fit(rt: HostRuntime) {
    let proof = Proof::new(rt.alloc());
    assert!(rt; is_printed_as(rt.alloc(), &proof, b"proof 2 ; end"));
    assert!(rt; proof_length(&proof) == 13);
    assert!(rt; !proof_fits(&proof));
}

// The bytes of a text, and how many lines its proof has. 256 lines of at most 128 bytes, in which each negation grows by seven
// bytes where it is printed.
const LIMITS: &str = "proof 1|{256# label:not p and p|}end -> 5535 bytes: 256
proof 1|{256# label:not p and not p and not p and not p and not p and not p and not p and not p and not p and not p and p|}end -> 28575 bytes: TooLong";

struct SizedLines;

impl Call for SizedLines {
    fn told(alloc: Global, input: &[u8]) -> Result<String, AllocError> {
        let lines = Lines::told(alloc, input)?;
        format!(in alloc; "{} bytes: {}", input.len(), lines.as_str())
    }
}

#[test]
fn a_canonical_text_keeps_the_limit(rt: HostRuntime) {
    play::<SizedLines>(&rt, rt.alloc(), LIMITS);
}
