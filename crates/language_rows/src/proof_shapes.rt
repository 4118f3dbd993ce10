// Each public function once, at values worked out by hand.
use nal_term::{Formula, Term};
use proof_lines::{Line, Proof, PushError, Refs, Rule};
use std::alloc::{AllocError, Global};

const REFERENCES: [u64; 5] = [1, 2, 3, 4, 5];

// The line of the rule with the first so many references, and with a number as its term, that concludes `true`.
fn line(rule: Rule, count: usize, number: Option<u64>) -> Option<Line> {
    let refs = Refs::of(REFERENCES.get(..count)?)?;
    let term = match number {
        Some(number) => Some(Term::Number(number)),
        None => None,
    };
    Some(Line {
        rule,
        refs,
        term,
        formula: Formula::True,
    })
}

// Whether the line is of its rule's form, and only then, as is due.
fn is_pushed(proof: &mut Proof, line: Option<Line>, due: bool) -> bool {
    let Some(line) = line else {
        return false;
    };
    is_of_its_form(&line) == due && has_form(&line) == due && is_answered(proof, line, due)
}

fn has_form(line: &Line) -> bool {
    line.has_rule_form()
}

fn is_of_its_form(line: &Line) -> bool {
    line.refs.count() == line.rule.reference_count()
        && line.term.is_some() == line.rule.takes_term()
}

fn is_answered(proof: &mut Proof, line: Line, due: bool) -> bool {
    match proof.push(line) {
        Ok(()) => due,
        Err(PushError::Shape) => !due,
        Err(_) => false,
    }
}

fn rows(proof: &mut Proof) -> bool {
    is_pushed(proof, line(Rule::Label, 0, None), true)
        && is_pushed(proof, line(Rule::Label, 1, None), false)
        && is_pushed(proof, line(Rule::AndL, 1, None), true)
        && is_pushed(proof, line(Rule::AndI, 1, None), false)
        && is_pushed(proof, line(Rule::ForallE, 1, None), false)
        && is_pushed(proof, line(Rule::ForallE, 1, Some(7)), true)
        && is_pushed(proof, line(Rule::AndI, 2, Some(7)), false)
        && is_pushed(proof, line(Rule::ExistsE, 3, None), true)
        && is_pushed(proof, line(Rule::OrE, 5, None), true)
}

// The lines that were added, from the first to the last.
fn stand(proof: &Proof) -> bool {
    proof.as_slice().len() == 5
        && proof.line(0).is_none()
        && matches!(
            proof.line(1),
            Some(Line {
                rule: Rule::Label,
                ..
            })
        )
        && matches!(
            proof.line(5),
            Some(Line {
                rule: Rule::OrE,
                ..
            })
        )
        && proof.line(6).is_none()
}

fn copy_stands(alloc: Global, proof: &Proof) -> bool {
    match proof.copy(alloc) {
        Ok(copy) => stand(&copy),
        Err(AllocError) => false,
    }
}

#[test]
fn rules_and_lines_of_their_form(rt: HostRuntime) {
    let mut proof = Proof::new(rt.alloc());
    assert!(rt; rows(&mut proof));
    assert!(rt; proof.count() == 5);
    assert!(rt; copy_stands(rt.alloc(), &proof));
}

// Whether a 257th line is refused, and first for its form.
fn is_filled(proof: &mut Proof) -> bool {
    for _ in 0..256 {
        if !is_pushed(proof, line(Rule::TrueI, 0, None), true) {
            return false;
        }
    }
    is_full(proof, line(Rule::TrueI, 0, None))
        && is_pushed(proof, line(Rule::AndL, 0, None), false)
        && proof.count() == 256
}

fn is_full(proof: &mut Proof, line: Option<Line>) -> bool {
    match line {
        Some(line) => matches!(proof.push(line), Err(PushError::Full)),
        None => false,
    }
}

#[test]
fn a_proof_has_at_most_256_lines(rt: HostRuntime) {
    let mut proof = Proof::new(rt.alloc());
    assert!(rt; is_filled(&mut proof));
}

// What is asked of the references 9, 8, 7, 7 and 7.
fn are_in_order(refs: &Refs) -> bool {
    refs.count() == 5
        && refs.as_slice() == [9, 8, 7, 7, 7].as_slice()
        && refs.get(1) == Some(&8)
        && refs.get(5).is_none()
}

fn copy_is_in_order(refs: &Refs) -> bool {
    match refs.copy() {
        Ok(copy) => are_in_order(&copy),
        Err(AllocError) => false,
    }
}

fn both_are_in_order(refs: Option<Refs>) -> bool {
    match refs {
        Some(refs) => are_in_order(&refs) && copy_is_in_order(&refs),
        None => false,
    }
}

#[test]
fn references_in_their_order(rt: HostRuntime) {
    assert!(rt; Refs::of(&[1, 2, 3, 4, 5, 6]).is_none());
    assert!(rt; both_are_in_order(Refs::of(&[9, 8, 7, 7, 7])));
}
