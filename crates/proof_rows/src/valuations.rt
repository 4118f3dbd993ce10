// Worked policies, and each kind of formula under the valuation. The expected values are worked out by hand from
// `docs/LOGIC.md`, "What the untrusted can reach".
use crate::rows::{Call, play};
use nal_parse::{parse_formula, parse_term};
use nal_term::{Formula, Name, Term};
use std::alloc::{AllocError, Global};
use trust_check::{Trust, trust};

// What is told of a goal under some givens.
#[derive(Drop)]
struct Policy {
    labels: Vec<Formula>,
    untrusted: Vec<Term>,
    loose: Vec<Name>,
    facts: Vec<Formula>,
    goal: Formula,
}

fn add_formula(alloc: Global, formulas: &mut Vec<Formula>, text: &str) -> bool {
    match parse_formula(alloc, text.as_bytes()) {
        Ok(formula) => formulas.push(formula).is_ok(),
        Err(_) => false,
    }
}

fn add_term(alloc: Global, terms: &mut Vec<Term>, text: &str) -> bool {
    match parse_term(alloc, text.as_bytes()) {
        Ok(term) => terms.push(term).is_ok(),
        Err(_) => false,
    }
}

fn add_name(alloc: Global, names: &mut Vec<Name>, text: &str) -> bool {
    match Name::of(alloc, text.as_bytes()) {
        Ok(name) => names.push(name).is_ok(),
        Err(_) => false,
    }
}

fn set_goal(alloc: Global, goal: &mut Formula, text: &str) -> bool {
    match parse_formula(alloc, text.as_bytes()) {
        Ok(formula) => {
            *goal = formula;
            true
        }
        Err(_) => false,
    }
}

fn add(alloc: Global, policy: &mut Policy, part: &str) -> bool {
    let (word, text) = part.split_once(" ").unwrap_or((part, ""));
    match word {
        "label" => add_formula(alloc, &mut policy.labels, text),
        "untrusted" => add_term(alloc, &mut policy.untrusted, text),
        "loose" => add_name(alloc, &mut policy.loose, text),
        "fact" => add_formula(alloc, &mut policy.facts, text),
        "goal" => set_goal(alloc, &mut policy.goal, text),
        _ => false,
    }
}

fn add_all(alloc: Global, policy: &mut Policy, parts: &str) -> bool {
    for part in parts.split(" ; ") {
        if !add(alloc, policy, part) {
            return false;
        }
    }
    true
}

// What is told of the goal under the givens that stand before it and these.
fn told_with(alloc: Global, givens: &str, input: &str) -> Result<String, AllocError> {
    let mut policy = Policy {
        labels: Vec::new(alloc),
        untrusted: Vec::new(alloc),
        loose: Vec::new(alloc),
        facts: Vec::new(alloc),
        goal: Formula::False,
    };
    if add_all(alloc, &mut policy, givens) && add_all(alloc, &mut policy, input) {
        told_of(alloc, &policy)
    } else {
        String::from_str(alloc, "no policy")
    }
}

fn told_of(alloc: Global, policy: &Policy) -> Result<String, AllocError> {
    let Policy {
        labels,
        untrusted,
        loose,
        facts,
        goal,
    } = policy;
    match trust(labels, untrusted, loose, facts, goal) {
        Trust::Safe => String::from_str(alloc, "safe"),
        Trust::Label { label } => format!(in alloc; "label {label}"),
        Trust::Goal => String::from_str(alloc, "goal"),
    }
}

struct Kind;

impl Call for Kind {
    fn told(alloc: Global, input: &str) -> Result<String, AllocError> {
        let givens =
            "untrusted eve ; untrusted mallory.dev ; untrusted 7 ; loose Loose ; loose Slack ; fact may(bob) ; fact may(bob, 1)";
        told_with(alloc, givens, input)
    }
}

// Whether formulas hold where eve, mallory.dev and 7 are not trusted, Loose and Slack are loose, and may(bob) and may(bob, 1) are
// facts.
const KINDS: &str = "goal true -> goal
goal false -> safe
goal Loose -> goal
goal Slack(eve) -> goal
goal may(bob) -> goal
goal may(bob, 1) -> goal
goal may(bob, 2) -> safe
goal may -> safe
goal 1 = 2 -> goal
goal 2 < 1 -> goal
goal bob <= eve -> goal
goal may(bob) and Loose -> goal
goal may(bob) and other -> safe
goal other and may(bob) -> safe
goal may(bob) or other -> goal
goal other or may(bob) -> goal
goal other or another -> safe
goal may(bob) => Loose -> goal
goal may(bob) => other -> safe
goal other => may(bob) -> goal
goal other => another -> goal
goal not other -> goal
goal not Loose -> safe
goal forall ?x : false -> goal
goal exists ?x : false -> goal
goal eve says false -> goal
goal eve.disk.a says false -> goal
goal mallory.dev says other -> goal
goal mallory.dev.a says other -> goal
goal mallory says other -> safe
goal mallory.eve says other -> safe
goal 7 says other -> goal
goal \"eve\" says other -> safe
goal bob says other -> safe
goal bob says may(bob) -> goal
goal bob says eve says other -> goal
goal eve speaksfor bob -> safe
goal eve speaksfor mallory -> safe
goal eve speaksfor eve.disk -> goal
goal eve.disk speaksfor 7 -> goal
goal bob speaksfor eve -> goal
goal bob speaksfor carol -> goal
goal eve speaksfor bob on Loose -> goal
goal eve speaksfor bob on (Loose, Slack) -> goal
goal eve speaksfor bob on (Loose, may) -> safe
goal eve speaksfor bob on (may, Loose) -> safe
goal eve speaksfor 7 on may -> goal
goal bob speaksfor carol on may -> goal";

#[test]
fn each_kind_of_formula(rt: HostRuntime) {
    play::<Kind>(&rt, rt.alloc(), KINDS);
}

struct Worked;

impl Call for Worked {
    fn told(alloc: Global, input: &str) -> Result<String, AllocError> {
        told_with(
            alloc,
            "untrusted ntp ; loose TimeNow ; fact may(bob)",
            input,
        )
    }
}

const POLICIES: &str =
    "label fs says may(bob) ; label fs says ntp speaksfor fs on TimeNow ; goal fs says may(eve) -> safe
label fs says may(bob) ; label fs says ntp speaksfor fs on TimeNow ; label fs says ntp speaksfor fs ; goal fs says may(eve) -> label 3
label fs says may(bob) ; label fs says ntp speaksfor fs on TimeNow ; goal fs says TimeNow < 5 -> goal
label fs says ntp speaksfor fs ; label fs says may(eve) ; label fs says ntp speaksfor fs ; goal true -> label 1
label fs says ntp.a speaksfor fs ; label fs says ntp speaksfor fs on TimeNow ; goal true -> label 1
label ntp says ntp speaksfor fs ; goal fs says may(eve) -> safe
goal false -> safe";

#[test]
fn worked_policies(rt: HostRuntime) {
    play::<Worked>(&rt, rt.alloc(), POLICIES);
}
