// Canonical texts, each read again, with their lengths and limits.
use crate::formula_texts::Read;
use crate::rows::{Call, play, refused};
use nal_parse::{
    fits, fits_said, parse_formula, parse_term, print_formula, print_term, term_fits, term_length,
    text_length,
};
use nal_term::{Formula, Term, equal};
use std::alloc::{AllocError, Global};

// Formulas with their canonical texts.
const FORMULAS: &str = "not(a and b)or c=>d -> (a and b => false) or c => d
a speaksfor b on (x) -> a speaksfor b on x
a speaksfor b on(x,y) -> a speaksfor b on (x, y)
(a and b) and c -> a and b and c
a and (b and c) -> a and (b and c)
(a or b) or (c) -> a or b or c
a or (b or c) -> a or (b or c)
(a or b) and c -> (a or b) and c
a or (b and c) -> a or b and c
(a => b) => c -> (a => b) => c
a => (b => c) -> a => b => c
a and (b => c) -> a and (b => c)
(forall ?x : p) => q -> (forall ?x : p) => q
p => (forall ?x:q) -> p => forall ?x : q
(exists ?x : p(?x)) or q -> (exists ?x : p(?x)) or q
exists ?x:(forall ?y:(p and q)) -> exists ?x : forall ?y : p and q
a says (b says (p and q)) -> a says b says (p and q)
a says (forall ?x : p) -> a says (forall ?x : p)
(a says p) and true -> a says p and true
not p and q -> (p => false) and q
not not p -> (p => false) => false
x.y=\"t u\" -> x.y = \"t u\"
1<2 -> 1 < 2
?x<=18446744073709551615 -> ?x <= 18446744073709551615
p( ?x,2 ) -> p(?x, 2)
\ta . b   speaksfor c -> a.b speaksfor c
false -> false";

struct Printed;

impl Call for Printed {
    fn told(alloc: Global, input: &[u8]) -> Result<String, AllocError> {
        match parse_formula(alloc, input) {
            Ok(formula) => canonical(alloc, &formula),
            Err(error) => refused(alloc, error),
        }
    }
}

// The formula's text, with a mark where its length is another, it does not fit, or another formula is read of it.
fn canonical(alloc: Global, formula: &Formula) -> Result<String, AllocError> {
    let printed = print_formula(alloc, formula)?;
    let bytes = printed.as_slice();
    let is_own = text_length(formula) == bytes.len() as u64
        && fits(formula)
        && is_read_as(alloc, bytes, formula);
    told_text(alloc, bytes, is_own)
}

fn is_read_as(alloc: Global, text: &[u8], formula: &Formula) -> bool {
    match parse_formula(alloc, text) {
        Ok(again) => equal(&again, formula),
        Err(_) => false,
    }
}

fn told_text(alloc: Global, text: &[u8], is_own: bool) -> Result<String, AllocError> {
    let text = str::from_utf8(text).unwrap_or("no text");
    let mark = if is_own { "" } else { " (not its own)" };
    format!(in alloc; "{text}{mark}")
}

#[test]
fn formulas_are_printed_canonically(rt: HostRuntime) {
    play::<Printed>(&rt, rt.alloc(), FORMULAS);
}

// Terms with their canonical texts.
const TERMS: &str = " fs . disk . part -> fs.disk.part
?x.a -> ?x.a
\"\" . a -> \"\".a
0 -> 0
10  -> 10";

struct PrintedTerm;

impl Call for PrintedTerm {
    fn told(alloc: Global, input: &[u8]) -> Result<String, AllocError> {
        match parse_term(alloc, input) {
            Ok(term) => canonical_term(alloc, &term),
            Err(error) => refused(alloc, error),
        }
    }
}

fn canonical_term(alloc: Global, term: &Term) -> Result<String, AllocError> {
    let printed = print_term(alloc, term)?;
    let bytes = printed.as_slice();
    let is_own = term_length(term) == bytes.len() as u64 && term_fits(term);
    told_text(alloc, bytes, is_own)
}

#[test]
fn terms_are_printed_canonically(rt: HostRuntime) {
    play::<PrintedTerm>(&rt, rt.alloc(), TERMS);
}

// Texts that are short enough, of formulas whose canonical texts are not.
const LIMITS: &str = "{60*not a and }a -> read
{102*not a and }a -> TooLong
a says {62*not }a -> read
a says {63*not }a -> TooDeep { place: 260 }";

#[test]
fn canonical_texts_keep_the_limits(rt: HostRuntime) {
    play::<Read>(&rt, rt.alloc(), LIMITS);
}

// Whether a formula fits, and whether it does where `a` says it.
const SAID: &str = "{63*b says }p -> true true
{64*b says }p -> true false";

struct Said;

impl Call for Said {
    fn told(alloc: Global, input: &[u8]) -> Result<String, AllocError> {
        match parse_formula(alloc, input) {
            Ok(formula) => said_by(alloc, "a", &formula),
            Err(error) => refused(alloc, error),
        }
    }
}

fn said_by(alloc: Global, speaker: &str, formula: &Formula) -> Result<String, AllocError> {
    match parse_term(alloc, speaker.as_bytes()) {
        Ok(speaker) => format!(in alloc; "{} {}", fits(formula), fits_said(&speaker, formula)),
        Err(error) => refused(alloc, error),
    }
}

#[test]
fn said_formulas_fit_with_their_speaker(rt: HostRuntime) {
    play::<Said>(&rt, rt.alloc(), SAID);
}
