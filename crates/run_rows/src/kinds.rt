// Each kind of formula and of term is copied and substituted as what it is.
use nal_parse::{parse_formula, parse_term, print_formula};
use nal_subst::substitute;
use nal_term::{Formula, Name, Term, equal};
use nx_io::Bytes;
use proof_lines::Proof;
use proof_text::{print_proof, read_proof};
use std::alloc::{AllocError, Global};
use std::process::Abort;

// A formula of each kind, and its text with `a.b` in place of `?x`.
const FORMULAS: &str = "true -> true
false -> false
p -> p
p(1, n, \"t\", ?x, ?x.m) -> p(1, n, \"t\", a.b, a.b.m)
?x = 1 -> a.b = 1
1 < ?x -> 1 < a.b
?x <= \"t\" -> a.b <= \"t\"
p and q(?x) -> p and q(a.b)
p(?x) or q -> p(a.b) or q
p(?x) => q(?y) -> p(a.b) => q(?y)
forall ?y : p(?x, ?y) -> forall ?y : p(a.b, ?y)
exists ?x : p(?x) -> exists ?x : p(?x)
exists ?y : p(?y, ?x) -> exists ?y : p(?y, a.b)
?x says p(?x) -> a.b says p(a.b)
?x speaksfor n -> a.b speaksfor n
n speaksfor ?x.m on (p, q) -> n speaksfor a.b.m on (p, q)";

// A proof whose line holds a term of each kind.
const TERMS: &str = "proof 2 ; 1 forall_e 1 [1] : true ; end
proof 2 ; 1 forall_e 1 [n] : true ; end
proof 2 ; 1 forall_e 1 [\"t\"] : true ; end
proof 2 ; 1 forall_e 1 [?x] : true ; end
proof 2 ; 1 forall_e 1 [n.m] : true ; end";

// The text of a copy.
fn copied(alloc: Global, formula: &Formula) -> Result<Bytes, AllocError> {
    let copy = formula.copy(alloc)?;
    if equal(&copy, formula) {
        print_formula(alloc, &copy)
    } else {
        Bytes::of(alloc, b"another formula")
    }
}

// The text with a term in place of a variable.
fn replaced(
    alloc: Global,
    formula: &Formula,
    variable: &Name,
    put: &Term,
) -> Result<Bytes, AllocError> {
    match substitute(alloc, formula, variable, put) {
        Ok(made) => print_formula(alloc, &made),
        Err(_) => Err(AllocError),
    }
}

// The row of a formula.
fn row_of(
    alloc: Global,
    formula: &Formula,
    variable: &Name,
    put: &Term,
) -> Result<Vec<u8>, AllocError> {
    let copy = copied(alloc, formula)?;
    let made = replaced(alloc, formula, variable, put)?;
    let mut row = Vec::from_slice(alloc, copy.as_slice())?;
    row.extend_from_slice(b" -> ")?;
    row.extend_from_slice(made.as_slice())?;
    Ok(row)
}

// The row of the formula with this text.
fn row_of_text(
    alloc: Global,
    text: &str,
    variable: &Name,
    put: &Term,
) -> Result<Vec<u8>, AllocError> {
    match parse_formula(alloc, text.as_bytes()) {
        Ok(formula) => row_of(alloc, &formula, variable, put),
        Err(_) => Err(AllocError),
    }
}

fn play(rt: &impl Abort, alloc: Global, variable: &Name, put: &Term) -> Result<(), AllocError> {
    for row in FORMULAS.lines() {
        let (text, _) = row.split_once(" -> ").unwrap_or(("", ""));
        let told = row_of_text(alloc, text, variable, put)?;
        assert!(rt; told.as_slice() == row.as_bytes(), "{row}");
    }
    Ok(())
}

// The same with `a.b` in place of the variable.
fn play_with(rt: &impl Abort, alloc: Global, variable: &Name) -> Result<(), AllocError> {
    match parse_term(alloc, b"a.b") {
        Ok(put) => play(rt, alloc, variable, &put),
        Err(_) => Err(AllocError),
    }
}

#[test]
fn formulas(rt: HostRuntime) -> Result<(), AllocError> {
    match Name::of(rt.alloc(), b"x") {
        Ok(variable) => play_with(&rt, rt.alloc(), &variable),
        Err(_) => Err(AllocError),
    }
}

// The text of a copy of a proof.
fn proof_text_of(alloc: Global, proof: &Proof) -> Result<Bytes, AllocError> {
    let copy = proof.copy(alloc)?;
    print_proof(alloc, &copy)
}

// The text of a copy of the proof that a text spells.
fn proof_copied(alloc: Global, text: &[u8]) -> Result<Bytes, AllocError> {
    match read_proof(alloc, text) {
        Ok(proof) => proof_text_of(alloc, &proof),
        Err(_) => Err(AllocError),
    }
}

// A copy of the proof that a text spells has this text again.
fn is_copied(rt: &impl Abort, alloc: Global, text: &str) -> Result<(), AllocError> {
    let copy = proof_copied(alloc, text.as_bytes())?;
    assert!(rt; copy.as_slice() == text.as_bytes(), "{text}");
    Ok(())
}

// The same of a proof whose line holds the formula of a row.
fn is_held(rt: &impl Abort, alloc: Global, row: &str) -> Result<(), AllocError> {
    let (formula, _) = row.split_once(" -> ").unwrap_or(("", ""));
    let text = format!(in alloc; "proof 2 ; 1 hyp : {formula} ; end")?;
    is_copied(rt, alloc, text.as_str())
}

#[test]
fn proofs(rt: HostRuntime) -> Result<(), AllocError> {
    let alloc = rt.alloc();
    for row in FORMULAS.lines() {
        is_held(&rt, alloc, row)?;
    }
    for text in TERMS.lines() {
        is_copied(&rt, alloc, text)?;
    }
    Ok(())
}
