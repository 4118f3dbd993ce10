// Each public function once, at values worked out by hand.
ghost use Rattle.std.specs.Prelude.{◌≡◌, ◌<◌};

use crate::rows::{Call, play, refused};
use nal_parse::parse_formula;
use nal_term::{
    Args, ArgsError, Formula, Name, Scope, Secret, Steps, Term, Text, equal, equal_counted,
    equal_scopes, equal_term_lists, equal_term_lists_counted, equal_terms, equal_terms_counted,
    free_in, free_in_counted, is_closed, is_closed_but, is_closed_counted, is_closed_term,
    is_letter, is_name, is_reserved, is_text, is_word_byte, size, term_size,
};
use std::alloc::{AllocError, Global};
use std::marker::Brand;
use std::process::Abort;
use std::sync::ledger::{Blank, Ledger};

// Whether bytes are a name and one made of them is copied, are a text and one is copied, and whether a secret is.
const KINDS: &str = "a_1 -> true true true true true
Says -> true true true true true
says -> false false true true true
_a -> false false true true true
a b -> false false true true false
a;b -> false false false false true
 -> false false true true false
{64*a} -> true true true true true
{65*a} -> false false true true false
{256*a} -> false false true true false
{257*a} -> false false false false false";

struct Kinds;

impl Call for Kinds {
    fn told(alloc: Global, input: &[u8]) -> Result<String, AllocError> {
        let (is_name, is_text) = (is_name(input), is_text(input));
        let (name, text) = (name_is_copied(alloc, input), text_is_copied(alloc, input));
        let secret = secret_is_copied(alloc, input);
        format!(in alloc; "{is_name} {name} {is_text} {text} {secret}")
    }
}

fn name_is_copied(alloc: Global, bytes: &[u8]) -> bool {
    match Name::of(alloc, bytes) {
        Ok(name) => is_name_copy(&name.copy(alloc), bytes),
        Err(_) => false,
    }
}

fn is_name_copy(copy: &Result<Name, AllocError>, bytes: &[u8]) -> bool {
    match copy {
        Ok(copy) => copy.as_slice() == bytes,
        Err(AllocError) => false,
    }
}

fn text_is_copied(alloc: Global, bytes: &[u8]) -> bool {
    match Text::of(alloc, bytes) {
        Ok(text) => is_text_copy(&text.copy(alloc), bytes),
        Err(_) => false,
    }
}

fn is_text_copy(copy: &Result<Text, AllocError>, bytes: &[u8]) -> bool {
    match copy {
        Ok(copy) => copy.as_slice() == bytes,
        Err(AllocError) => false,
    }
}

fn secret_is_copied(alloc: Global, bytes: &[u8]) -> bool {
    match Secret::of(alloc, bytes) {
        Ok(secret) => is_secret_copy(&secret.copy(alloc), bytes),
        Err(_) => false,
    }
}

fn is_secret_copy(copy: &Result<Secret, AllocError>, bytes: &[u8]) -> bool {
    match copy {
        Ok(copy) => copy.as_slice() == bytes,
        Err(AllocError) => false,
    }
}

#[test]
fn names_texts_and_secrets(rt: HostRuntime) {
    play::<Kinds>(&rt, rt.alloc(), KINDS);
}

const COPIES: &str = "alice -> true true true true true
10 o'clock -> false false true true false
hunter2! -> false false true true true";

#[test]
fn copies(rt: HostRuntime) {
    play::<Kinds>(&rt, rt.alloc(), COPIES);
}

#[test]
fn word_bytes(rt: HostRuntime) {
    for (byte, letter, word_byte) in [
        (b'Z', true, true),
        (b'0', false, true),
        (b'_', false, true),
        (b'-', false, false),
    ] {
        assert!(rt; is_letter(byte) == letter && is_word_byte(byte) == word_byte);
    }
    assert!(rt; is_reserved(b"speaksfor") && !is_reserved(b"speaks"));
}

fn are_filled(args: &mut Args) -> bool {
    for number in 0..8 {
        if args.push(Term::Number(number)).is_err() {
            return false;
        }
    }
    matches!(args.push(Term::Number(8)), Err(ArgsError::Full))
        && args.count() == 8
        && args.get(7).is_some()
        && args.get(8).is_none()
}

fn arguments_are_copied(alloc: Global, args: &Args) -> bool {
    match args.copy(alloc) {
        Ok(copy) => {
            equal_term_lists(args.as_slice(), copy.as_slice())
                && !equal_term_lists(args.as_slice(), but_last(copy.as_slice()))
        }
        Err(AllocError) => false,
    }
}

fn but_last(terms: &[Term]) -> &[Term] {
    terms.get(..7).unwrap_or(terms)
}

#[test]
fn arguments(rt: HostRuntime) {
    let mut args = Args::new(rt.alloc());
    assert!(rt; are_filled(&mut args));
    assert!(rt; arguments_are_copied(rt.alloc(), &args));
}

// What comes of adding a copy of the name to the scope.
fn add(alloc: Global, scope: &mut Scope, name: &Name) -> Result<(), ArgsError> {
    match name.copy(alloc) {
        Ok(name) => scope.push(name),
        Err(AllocError) => Err(ArgsError::Memory),
    }
}

// Whether a copy of the scope has the same names.
fn scope_is_copied(alloc: Global, scope: &Scope) -> bool {
    match scope.copy(alloc) {
        Ok(copy) => equal_scopes(scope, &copy),
        Err(AllocError) => false,
    }
}

// Seven times `write` beside the scope's own name, and `list`, for which there is no room.
fn is_filled(alloc: Global, scope: &mut Scope, write: &Name, list: &Name) -> bool {
    for _ in 0..7 {
        if add(alloc, scope, write).is_err() {
            return false;
        }
    }
    matches!(add(alloc, scope, list), Err(ArgsError::Full))
        && scope.count() == 8
        && scope.as_slice().len() == 8
        && scope.get(7).is_some()
        && scope.get(8).is_none()
        && scope.holds(write)
        && !scope.holds(list)
        && scope_is_copied(alloc, scope)
}

// A copy that was made before the scope is filled is not filled.
fn is_filled_alone(alloc: Global, scope: &mut Scope, write: &Name, list: &Name) -> bool {
    match scope.copy(alloc) {
        Ok(first) => is_filled(alloc, scope, write, list) && !equal_scopes(scope, &first),
        Err(AllocError) => false,
    }
}

// A scope of the first of the names, which is filled with the second and the third.
fn scope_of(alloc: Global, first: &Name, write: &Name, list: &Name) -> bool {
    match first.copy(alloc) {
        Ok(first) => scope_from(alloc, first, write, list),
        Err(AllocError) => false,
    }
}

fn scope_from(alloc: Global, first: Name, write: &Name, list: &Name) -> bool {
    match Scope::of(alloc, first) {
        Ok(mut scope) => is_filled_alone(alloc, &mut scope, write, list),
        Err(AllocError) => false,
    }
}

fn names_of(alloc: Global, delegation: &Formula) -> bool {
    match delegation {
        Formula::SpeaksForOn(_, _, names) => match names.as_slice() {
            [read, write, list] => scope_of(alloc, read, write, list),
            _ => false,
        },
        _ => false,
    }
}

#[test]
fn scopes(rt: HostRuntime) {
    let delegation = parse_formula(rt.alloc(), b"a speaksfor b on (read, write, list)");
    assert!(rt; matches!(&delegation, Ok(names) if names_of(rt.alloc(), names)));
}

// `(f) and ?x = ?y and (g)`: whether f is closed, is so but for x, and but for y; whether x is free in it, and y; its nodes;
// whether it equals its copy, and g.
const FREE: &str = "p(?x) and ?x = ?y and p(?y) -> false true false true false 2 true false
(forall ?x : p(?x)) and ?x = ?y and (forall ?y : p(?x)) -> true true true false false 3 true false
(p(?x) and (forall ?x : p(?x))) and ?x = ?y and p(?x) -> false true false true false 6 true false
(forall ?y : p(?x)) and ?x = ?y and (forall ?y : p(?x)) -> false true false true false 3 true true";

struct Free;

impl Call for Free {
    fn told(alloc: Global, input: &[u8]) -> Result<String, AllocError> {
        match parse_formula(alloc, input) {
            Ok(row) => free_of_row(alloc, &row),
            Err(error) => refused(alloc, error),
        }
    }
}

fn free_of_row(alloc: Global, row: &Formula) -> Result<String, AllocError> {
    if let Formula::And(left, g) = row
        && let Formula::And(f, test) = &**left
        && let Formula::Test(_, Term::Var(x), Term::Var(y)) = &**test
    {
        return free_of(alloc, f, x, y, g);
    }
    String::from_str(alloc, "no such row")
}

fn free_of(
    alloc: Global,
    f: &Formula,
    x: &Name,
    y: &Name,
    g: &Formula,
) -> Result<String, AllocError> {
    let (but_x, but_y) = (is_closed_but(f, x), is_closed_but(f, y));
    let (has_x, has_y) = (free_in(f, x), free_in(f, y));
    let (closed, nodes) = (is_closed(f), size(f));
    let (copied, same) = (equals_its_copy(alloc, f), equal(f, g));
    format!(in alloc; "{closed} {but_x} {but_y} {has_x} {has_y} {nodes} {copied} {same}")
}

fn equals_its_copy(alloc: Global, f: &Formula) -> bool {
    match f.copy(alloc) {
        Ok(copy) => equal(f, &copy),
        Err(AllocError) => false,
    }
}

#[test]
fn free_and_bound(rt: HostRuntime) {
    play::<Free>(&rt, rt.alloc(), FREE);
}

// `t = u`: the sizes of both terms, whether each is closed, whether t equals its copy, and whether it equals u.
const TERMS: &str = "alice.disk = ?disk -> 2 1 true false true false";

struct TwoTerms;

impl Call for TwoTerms {
    fn told(alloc: Global, input: &[u8]) -> Result<String, AllocError> {
        match parse_formula(alloc, input) {
            Ok(row) => terms_of_row(alloc, &row),
            Err(error) => refused(alloc, error),
        }
    }
}

fn terms_of_row(alloc: Global, row: &Formula) -> Result<String, AllocError> {
    match row {
        Formula::Test(_, t, u) => told_of_terms(alloc, t, u),
        _ => String::from_str(alloc, "no such row"),
    }
}

fn told_of_terms(alloc: Global, t: &Term, u: &Term) -> Result<String, AllocError> {
    let (t_size, u_size) = (term_size(t), term_size(u));
    let (t_closed, u_closed) = (is_closed_term(t), is_closed_term(u));
    let (copied, same) = (term_equals_its_copy(alloc, t), equal_terms(t, u));
    format!(in alloc; "{t_size} {u_size} {t_closed} {u_closed} {copied} {same}")
}

fn term_equals_its_copy(alloc: Global, t: &Term) -> bool {
    match t.copy(alloc) {
        Ok(copy) => equal_terms(t, &copy),
        Err(AllocError) => false,
    }
}

#[test]
fn terms(rt: HostRuntime) {
    play::<TwoTerms>(&rt, rt.alloc(), TERMS);
}

#[test]
fn steps(rt: HostRuntime) {
    count_steps::<Brand>(&rt, rt.alloc(), Blank::new(1));
}

// The counter is not there when the program runs, so only the answers can be seen.
fn count_steps<L: Ledger>(rt: &impl Abort, alloc: Global, blank: Blank)
    requires name { blank.name ≡ L.name }
    requires parts { blank.parts ≡ L.parts }
    requires some { 0 < blank.parts }
{
    let mut steps = Steps::<L>::start(blank);
    steps.tick();
    let formulas = parse_formula(
        alloc,
        b"(p(?x) and (forall ?x : p(?x))) and (p(1, 2) and p(1, 2))",
    );
    let holds = match &formulas {
        Ok(Formula::And(f, g)) => answers_counted(f, &mut steps) && lists_counted(g, &mut steps),
        _ => false,
    };
    assert!(rt; holds);
}

// `p(?x)`, and the same bound.
fn answers_counted<L: Ledger>(both: &Formula, steps: &mut Steps<L>) -> bool {
    if let Formula::And(open, bound) = both
        && let Formula::Atom(_, args) = &**open
        && let Some(Term::Var(x)) = args.get(0)
    {
        return free_in_counted(open, x, steps)
            && is_closed_counted(bound, steps)
            && !equal_counted(open, bound, steps);
    }
    false
}

// Two atoms with the same arguments.
fn lists_counted<L: Ledger>(both: &Formula, steps: &mut Steps<L>) -> bool {
    if let Formula::And(f, g) = both
        && let Formula::Atom(_, args) = &**f
        && let Formula::Atom(_, others) = &**g
    {
        let (args, others) = (args.as_slice(), others.as_slice());
        return heads_counted(args, others, steps) && equal_term_lists_counted(args, others, steps);
    }
    false
}

fn heads_counted<L: Ledger>(args: &[Term], others: &[Term], steps: &mut Steps<L>) -> bool {
    match (args, others) {
        ([t, ..], [u, ..]) => equal_terms_counted(t, u, steps),
        _ => false,
    }
}
