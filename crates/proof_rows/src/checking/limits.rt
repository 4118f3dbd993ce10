// No line, as many lines as there may be, references to no earlier line, and one ask line too many.
use crate::checking::proofs::Lines;
use crate::rows::play;
use nal_parse::parse_formula;
use nal_term::Formula;
use proof_check::{CheckError, check};
use proof_lines::Proof;
use std::alloc::Global;

const REFERENCES: &str = "1 label : p and q ; 2 and_l 0 : p -> 2 NoSuchRef
1 label : p and q ; 2 and_l 2 : p -> 2 NoSuchRef
1 label : p and q ; 2 and_l 3 : p -> 2 NoSuchRef";

#[test]
fn references(rt: HostRuntime) {
    play::<Lines>(&rt, rt.alloc(), REFERENCES);
}

// Sixteen ask lines have no fault. The last of seventeen is no statement either.
const ASKS: &str =
    "1 label : p{2-17 ask : a says p} @ a says p -> accepted, with labels 1 from 1 and asks 16 from 2
1 label : p{2-17 ask : a says p} @ a says q -> 17 NotGoal
1 label : p{2-17 ask : a says p} ; 18 ask : p @ a says p -> 18 TooManyAsks";

// Whether a proof without lines is refused as such.
fn is_empty(alloc: Global, goal: &Formula) -> bool {
    let told = check(alloc, &Proof::new(alloc), goal);
    matches!(told, Err(CheckError::Empty))
}

#[test]
fn asks(rt: HostRuntime) {
    let goal = parse_formula(rt.alloc(), b"a says p");
    assert!(rt; matches!(&goal, Ok(goal) if is_empty(rt.alloc(), goal)));
    play::<Lines>(&rt, rt.alloc(), ASKS);
}

// The equation is turned 255 times.
const TURNED: &str = "1 label : 1 = 2{2-256 eq_sym} @ 2 = 1 -> accepted";

#[test]
fn lines_on_lines(rt: HostRuntime) {
    play::<Lines>(&rt, rt.alloc(), TURNED);
}

// As many hypotheses as there may be before the last line.
const HYPOTHESES: &str = "1 hyp : p{2-255 hyp : p} @ p -> 255 StillOpen
1 hyp : p{2-255 hyp : p} ; 256 label : p @ p -> accepted";

#[test]
fn hypotheses(rt: HostRuntime) {
    play::<Lines>(&rt, rt.alloc(), HYPOTHESES);
}
