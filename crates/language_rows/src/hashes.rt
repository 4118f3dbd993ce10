// What a hash is fed of a term or a formula: those that differ in one place are fed differently.
use nal_parse::{parse_formula, parse_term};
use std::alloc::Global;
use std::hash::{DefaultHasher, Hash, Hasher};

const TERMS: &str = "0
1
72057594037927936
a
b
ab
\"\"
\"a\"
\"ab\"
?a
?b
a.b
b.a
ab.c
a.bc
?a.b
a.b.c";

// The last two have the same names and texts in a row.
const FORMULAS: &str = "true
false
a
b
a(0)
a(0, 1)
a(1, 0)
a(a)
a(\"a\")
0 = 1
1 = 0
0 < 1
0 <= 1
a speaksfor b
b speaksfor a
a speaksfor b on a
a speaksfor b on b
a speaksfor b on (a, b)
a speaksfor b on (b, a)
a speaksfor b on (ab, c)
a speaksfor b on (a, bc)
a speaksfor b on abc
true and false
false and true
true or false
false or true
true => false
false => true
forall ?a : true
forall ?b : true
forall ?a : false
exists ?a : true
exists ?b : true
exists ?a : false
a says true
b says true
a says false
?a says true
p(\"a\") and a
p and a(\"a\")";

fn hash_of<T: Hash>(value: &T) -> u64 {
    let mut state = DefaultHasher::new();
    value.hash(&mut state);
    state.finish()
}

fn term_hash(alloc: Global, text: &str) -> Option<u64> {
    match parse_term(alloc, text.as_bytes()) {
        Ok(term) => Some(hash_of(&term)),
        Err(_) => None,
    }
}

fn formula_hash(alloc: Global, text: &str) -> Option<u64> {
    match parse_formula(alloc, text.as_bytes()) {
        Ok(formula) => Some(hash_of(&formula)),
        Err(_) => None,
    }
}

// Adds a hash, if it is none of these. Where two values are fed alike, they have the same hash.
fn add(hashes: &mut Vec<u64>, hash: Option<u64>) -> bool {
    match hash {
        Some(hash) => !hashes.contains(&hash) && hashes.push(hash).is_ok(),
        None => false,
    }
}

// How many of the terms, one a line, are fed apart from those before them.
fn terms_apart(alloc: Global) -> usize {
    let mut hashes = Vec::new(alloc);
    for text in TERMS.lines() {
        let _added = add(&mut hashes, term_hash(alloc, text));
    }
    hashes.len()
}

fn formulas_apart(alloc: Global) -> usize {
    let mut hashes = Vec::new(alloc);
    for text in FORMULAS.lines() {
        let _added = add(&mut hashes, formula_hash(alloc, text));
    }
    hashes.len()
}

#[test]
fn terms_are_fed_apart(rt: HostRuntime) {
    assert!(rt; terms_apart(rt.alloc()) == 17);
}

#[test]
fn formulas_are_fed_apart(rt: HostRuntime) {
    assert!(rt; formulas_apart(rt.alloc()) == 40);
}
