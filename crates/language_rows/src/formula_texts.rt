// Small texts of each kind with their trees, the limits, and the places of errors.
use crate::rows::{Call, play, push_number, refused};
use nal_parse::{parse_formula, parse_term};
use nal_term::{Compare, Formula, Term};
use std::alloc::{AllocError, Global};

// Formulas with their trees.
const TREES: &str = "a and b or c -> (or (and (a) (b)) (c))
a or b and c -> (or (a) (and (b) (c)))
a and b and c -> (and (and (a) (b)) (c))
a or b or c -> (or (or (a) (b)) (c))
a=>b=>c -> (=> (a) (=> (b) (c)))
not(a and b)or c=>d -> (=> (or (=> (and (a) (b)) false) (c)) (d))
not not true -> (=> (=> true false) false)
alice says p and q -> (and (says alice (p)) (q))
a says 1.b says not p -> (says a (says 1.b (=> (p) false)))
forall ?x : p => exists ?y:?x=?y -> (all x (=> (p) (some y (= ?x ?y))))
p => forall ?x : p(?x) or q -> (=> (p) (all x (or (p ?x) (q))))
fs . disk.a speaksfor b and p -> (and (for fs.disk.a b) (p))
a speaksfor b on c or p -> (or (on a b c) (p))
a speaksfor b on (read,write) -> (on a b read write)
0<=18446744073709551615 -> (<= 0 18446744073709551615)
\"a b\" < Says -> (< \"a b\" Says)
p(1, 2, 3, 4, 5, 6, 7, 8) -> (p 1 2 3 4 5 6 7 8)
\t( p )  -> (p)";

struct Tree;

impl Call for Tree {
    fn told(alloc: Global, input: &[u8]) -> Result<String, AllocError> {
        match parse_formula(alloc, input) {
            Ok(formula) => shown(alloc, &formula),
            Err(error) => refused(alloc, error),
        }
    }
}

#[test]
fn formulas_are_read_as_their_trees(rt: HostRuntime) {
    play::<Tree>(&rt, rt.alloc(), TREES);
}

// Texts that are no formulas, each with its error.
const REFUSED: &str = " -> Unexpected { place: 0 }
alice says -> Unexpected { place: 10 }
alice.disk  -> Unexpected { place: 11 }
p  q -> Unexpected { place: 3 }
(p)) -> Unexpected { place: 3 }
p() -> Unexpected { place: 2 }
on says p -> Unexpected { place: 0 }
1 < = 2 -> Unexpected { place: 4 }
forall x : p -> Unexpected { place: 7 }
p and # 01 -> Unexpected { place: 6 }
p(1, 2, 3, 4, 5, 6, 7, 8, 9) -> Unexpected { place: 24 }
a speaksfor b on (c, c, c, c, c, c, c, c, c) -> Unexpected { place: 40 }
p(18446744073709551616) -> BadNumber { place: 2 }
p and 01 = 1 -> BadNumber { place: 6 }
p 1a -> BadNumber { place: 2 }
00 -> BadNumber { place: 0 }
1_ -> BadNumber { place: 0 }
a = 99999999999999999999 -> BadNumber { place: 4 }
((7x -> BadNumber { place: 2 }
a speaksfor b on () -> Unexpected { place: 18 }
p(?true) -> BadName { place: 2 }
? -> BadName { place: 0 }
p ?1 -> BadName { place: 2 }
forall ? x : p -> BadName { place: 7 }
a says ?_x = 1 -> BadName { place: 7 }
) ?says -> Unexpected { place: 0 }
(p ??x -> BadName { place: 3 }
p(\"a;b\") -> BadText { place: 2 }
\" -> BadText { place: 0 }
\"a\\b\" = 1 -> BadText { place: 0 }
a = \"b\tc\" -> BadText { place: 4 }
p \"q -> BadText { place: 2 }
a.\"b -> BadText { place: 2 }
p and \u{e9} -> Unexpected { place: 6 }
not forall ?x : p -> Unexpected { place: 4 }
a speaksfor b on c.d -> Unexpected { place: 18 }";

// Whether a formula is read.
pub struct Read;

impl Call for Read {
    fn told(alloc: Global, input: &[u8]) -> Result<String, AllocError> {
        match parse_formula(alloc, input) {
            Ok(_) => String::from_str(alloc, "read"),
            Err(error) => refused(alloc, error),
        }
    }
}

#[test]
fn formulas_are_refused_at_their_places(rt: HostRuntime) {
    play::<Read>(&rt, rt.alloc(), REFUSED);
}

// Terms with their trees, and texts that are no terms.
const TERMS: &str = " fs . disk -> fs.disk
?x.a.b -> ?x.a.b
\"\" -> \"\"
0 -> 0
fs. -> Unexpected { place: 3 }
fs.1 -> Unexpected { place: 3 }
(fs) -> Unexpected { place: 0 }
fs disk -> Unexpected { place: 3 }
? x -> BadName { place: 0 }
fs.\"x -> BadText { place: 3 }";

struct TermTree;

impl Call for TermTree {
    fn told(alloc: Global, input: &[u8]) -> Result<String, AllocError> {
        match parse_term(alloc, input) {
            Ok(term) => shown_term(alloc, &term),
            Err(error) => refused(alloc, error),
        }
    }
}

#[test]
fn terms_are_read(rt: HostRuntime) {
    play::<TermTree>(&rt, rt.alloc(), TERMS);
}

const TERM_LIMITS: &str = "{64*a} -> read
{65*a} -> BadName { place: 0 }
\"{256*t}\" -> read
\"{257*t}\" -> BadText { place: 0 }
{1023* }p -> read
{1023* }p# -> TooLong";

const LIMITS: &str = "{1023* }p -> read
{1023* }p# -> TooLong
{64*not }p -> read
{64*not }p(1) -> TooDeep { place: 257 }
{65*not }p -> TooDeep { place: 256 }
{64*forall ?x:}p -> read
{65*forall ?x:}p -> TooDeep { place: 640 }
{64*exists ?x:}p -> read
{65*exists ?x:}p -> TooDeep { place: 640 }
{64*a says }p -> read
{65*a says }p -> TooDeep { place: 450 }
{65*(}p -> TooDeep { place: 64 }
{65*(p) and }p -> read
{64*p => }p -> read
{65*p => }p -> TooDeep { place: 322 }
{64*a says }a speaksfor b on (c) -> TooDeep { place: 465 }";

struct ReadTerm;

impl Call for ReadTerm {
    fn told(alloc: Global, input: &[u8]) -> Result<String, AllocError> {
        match parse_term(alloc, input) {
            Ok(_) => String::from_str(alloc, "read"),
            Err(error) => refused(alloc, error),
        }
    }
}

#[test]
fn limits(rt: HostRuntime) {
    play::<ReadTerm>(&rt, rt.alloc(), TERM_LIMITS);
    play::<Read>(&rt, rt.alloc(), LIMITS);
}

fn shown(alloc: Global, formula: &Formula) -> Result<String, AllocError> {
    let mut tree = Vec::new(alloc);
    show(alloc, formula, &mut tree)?;
    format!(in alloc; "{}", str::from_utf8(tree.as_slice()).unwrap_or("no text"))
}

fn shown_term(alloc: Global, term: &Term) -> Result<String, AllocError> {
    let mut tree = Vec::new(alloc);
    show_term(alloc, term, &mut tree)?;
    format!(in alloc; "{}", str::from_utf8(tree.as_slice()).unwrap_or("no text"))
}

// Appends the tree of a formula, each part in brackets.
fn show(alloc: Global, formula: &Formula, out: &mut Vec<u8>) -> Result<(), AllocError> {
    out.extend_from_slice(head_of(formula).as_bytes())?;
    match formula {
        Formula::True | Formula::False => return Ok(()),
        Formula::Atom(p, args) => {
            out.extend_from_slice(p.as_slice())?;
            for term in args.as_slice() {
                out.push(b' ')?;
                show_term(alloc, term, out)?;
            }
        }
        Formula::Test(_, t, u) | Formula::SpeaksFor(t, u) => {
            show_term(alloc, t, out)?;
            out.push(b' ')?;
            show_term(alloc, u, out)?;
        }
        Formula::And(f, g) | Formula::Or(f, g) | Formula::Implies(f, g) => {
            show(alloc, f, out)?;
            out.push(b' ')?;
            show(alloc, g, out)?;
        }
        Formula::Forall(x, f) | Formula::Exists(x, f) => {
            out.extend_from_slice(x.as_slice())?;
            out.push(b' ')?;
            show(alloc, f, out)?;
        }
        Formula::Says(t, f) => {
            show_term(alloc, t, out)?;
            out.push(b' ')?;
            show(alloc, f, out)?;
        }
        Formula::SpeaksForOn(t, u, scope) => {
            show_term(alloc, t, out)?;
            out.push(b' ')?;
            show_term(alloc, u, out)?;
            for name in scope.as_slice() {
                out.push(b' ')?;
                out.extend_from_slice(name.as_slice())?;
            }
        }
    }
    out.push(b')')?;
    Ok(())
}

// What a tree begins with.
fn head_of(formula: &Formula) -> &'static str {
    match formula {
        Formula::True => "true",
        Formula::False => "false",
        Formula::Atom(_, _) => "(",
        Formula::Test(compare, _, _) => test_head(*compare),
        Formula::And(_, _) => "(and ",
        Formula::Or(_, _) => "(or ",
        Formula::Implies(_, _) => "(=> ",
        Formula::Forall(_, _) => "(all ",
        Formula::Exists(_, _) => "(some ",
        Formula::Says(_, _) => "(says ",
        Formula::SpeaksFor(_, _) => "(for ",
        Formula::SpeaksForOn(_, _, _) => "(on ",
    }
}

fn test_head(compare: Compare) -> &'static str {
    match compare {
        Compare::Equal => "(= ",
        Compare::Less => "(< ",
        Compare::AtMost => "(<= ",
    }
}

// Appends a term as it is written without blanks.
fn show_term(alloc: Global, term: &Term, out: &mut Vec<u8>) -> Result<(), AllocError> {
    match term {
        Term::Number(number) => push_number(alloc, out, *number)?,
        Term::Name(x) => out.extend_from_slice(x.as_slice())?,
        Term::Text(x) => {
            out.push(b'"')?;
            out.extend_from_slice(x.as_slice())?;
            out.push(b'"')?;
        }
        Term::Var(x) => {
            out.push(b'?')?;
            out.extend_from_slice(x.as_slice())?;
        }
        Term::Sub(t, x) => {
            show_term(alloc, t, out)?;
            out.push(b'.')?;
            out.extend_from_slice(x.as_slice())?;
        }
    }
    Ok(())
}
