// What the guard finds of a case, call by call, over a panel whose answers are given beforehand.
use crate::tables::hold;
use authority_ask::{Ask, MemPanel};
use guard_core::judge;
use nal_parse::{parse_formula, parse_term};
use nal_rules::{Binding, Bindings, Case, Labels};
use proof_lines::Proof;
use proof_text::read_proof;
use std::alloc::{AllocError, Global};
use std::net::{Net, TcpListener, TcpStream};
use std::rt::Clock;

// A delegation on a predicate, and an authority that is asked for it.
const DELEGATED: &str =
    "proof 1 ; 1 label : fs says ntp speaksfor fs on TimeNow ; 2 handoff_on 1 : ntp speaksfor fs on TimeNow ; 3 ask : ntp says TimeNow < 20110319 ; 4 sf_on_e 2 3 : fs says TimeNow < 20110319 ; end";

// The same for what the delegation does not cover.
const OUT_OF_SCOPE: &str =
    "proof 1 ; 1 label : fs says ntp speaksfor fs on TimeNow ; 2 handoff_on 1 : ntp speaksfor fs on TimeNow ; 3 ask : ntp says Load < 5 ; 4 sf_on_e 2 3 : fs says Load < 5 ; end";

// Two asks of one principal.
const TWICE: &str =
    "proof 1 ; 1 ask : ntp says a ; 2 ask : ntp says b ; 3 and_i 1 2 : ntp says a and ntp says b ; end";

// Nothing to ask.
const LABEL: &str = "proof 1 ; 1 label : fs says ntp speaksfor fs on TimeNow ; end";

// Cases by their parts, with the answers of the panel, and what so many calls find, each with how often was asked in all. After the
// last answer that is given comes No. The first No ends the asks, and so does want of memory for one. An earlier cause is told,
// whatever else applies, and nobody is asked.
const TRIALS: &str =
    "calls 3|goal fs says TimeNow < 20110319|proof DELEGATED|label fs says ntp speaksfor fs on TimeNow|bound ntp|answer Yes|answer No -> Ok(Allowed { asks: 1 }) 1,Ok(Denied(AuthorityNo { line: 3 })) 2,Ok(Denied(AuthorityNo { line: 3 })) 3,
calls 2|goal ntp says a and ntp says b|proof TWICE|bound ntp|bound ntp|answer Yes|answer Down|answer Yes|answer Yes -> Err(Down { line: 2 }) 2,Ok(Allowed { asks: 2 }) 4,
calls 2|goal ntp says a and ntp says b|proof TWICE|bound ntp|bound ntp|answer No|answer Yes|answer NoMemory -> Ok(Denied(AuthorityNo { line: 1 })) 1,Err(Memory) 3,
calls 1|goal ntp says a and ntp says b|proof TWICE|answer Yes|answer Down|answer Yes|answer Yes -> Ok(Denied(NotBound { line: 1 })) 0,
calls 1|goal fs says TimeNow < 20110319|proof DELEGATED|label fs says ntp speaksfor fs on TimeNow|bound fs|answer Yes|answer No -> Ok(Denied(NotBound { line: 3 })) 0,
calls 1|goal fs says TimeNow < 20110319|proof DELEGATED|answer Yes|answer No -> Ok(Denied(LabelMissing { line: 1 })) 0,
calls 1|goal fs says Load < 5|proof DELEGATED|bound ntp|answer Yes|answer No -> Ok(Denied(Line { line: 4, fault: NotGoal })) 0,
calls 1|goal fs says Load < 5|proof OUT_OF_SCOPE|label fs says ntp speaksfor fs on TimeNow|bound ntp|answer Yes|answer No -> Ok(Denied(Line { line: 4, fault: OutOfScope })) 0,
calls 1|goal fs says TimeNow < 20110319|label fs says ntp speaksfor fs on TimeNow|bound ntp|answer Yes|answer No -> Ok(Denied(NoProof)) 0,
calls 1|label fs says ntp speaksfor fs on TimeNow|bound ntp|answer Yes|answer No -> Ok(Denied(GoalUnset)) 0,
calls 1|goal fs says ntp speaksfor fs on TimeNow|proof LABEL|label fs says ntp speaksfor fs on TimeNow|bound ntp|answer Yes|answer No -> Ok(Allowed { asks: 0 }) 0,";

#[derive(Drop)]
struct Trial {
    calls: u64,
    case: Case,
    answers: Vec<Ask>,
}

fn answer(trial: &mut Trial, word: &str) -> bool {
    let answer = match word {
        "Yes" => Ask::Yes,
        "No" => Ask::No,
        "Down" => Ask::Down,
        _ => Ask::NoMemory,
    };
    trial.answers.push(answer).is_ok()
}

fn set_goal(alloc: Global, case: &mut Case, text: &str) -> bool {
    case.goal = parse_formula(alloc, text.as_bytes()).ok();
    case.goal.is_some()
}

fn set_proof(alloc: Global, case: &mut Case, name: &str) -> bool {
    case.proof = match name {
        "DELEGATED" => proof_of(alloc, DELEGATED),
        "OUT_OF_SCOPE" => proof_of(alloc, OUT_OF_SCOPE),
        "TWICE" => proof_of(alloc, TWICE),
        "LABEL" => proof_of(alloc, LABEL),
        _ => Some(Proof::new(alloc)),
    };
    case.proof.is_some()
}

fn proof_of(alloc: Global, text: &str) -> Option<Proof> {
    read_proof(alloc, text.as_bytes()).ok()
}

fn add_label(alloc: Global, labels: &mut Labels, text: &str) -> bool {
    match parse_formula(alloc, text.as_bytes()) {
        Ok(label) => labels.push(label).is_ok(),
        Err(_) => false,
    }
}

fn add_bound(alloc: Global, bound: &mut Bindings, text: &str) -> bool {
    match parse_term(alloc, text.as_bytes()) {
        Ok(principal) => bound.push(Binding { principal, port: 1 }).is_ok(),
        Err(_) => false,
    }
}

fn add(alloc: Global, trial: &mut Trial, part: &str) -> bool {
    let (word, text) = part.split_once(" ").unwrap_or((part, ""));
    match word {
        "goal" => set_goal(alloc, &mut trial.case, text),
        "proof" => set_proof(alloc, &mut trial.case, text),
        "label" => add_label(alloc, &mut trial.case.labels, text),
        "bound" => add_bound(alloc, &mut trial.case.bound, text),
        "answer" => answer(trial, text),
        _ => {
            trial.calls = text.parse::<u64>().unwrap_or(0);
            true
        }
    }
}

fn add_all(alloc: Global, trial: &mut Trial, row: &str) -> bool {
    for part in row.split("|") {
        if !add(alloc, trial, part) {
            return false;
        }
    }
    true
}

/// What so many calls find of a case, each with how often was asked in all.
pub fn told<R: Net<Listener = TcpListener, Stream = TcpStream> + Clock>(
    rt: &R,
    alloc: Global,
    row: &str,
) -> Result<String, AllocError> {
    let mut trial = Trial {
        calls: 0,
        case: Case {
            goal: None,
            proof: None,
            labels: Labels::new(alloc),
            bound: Bindings::new(alloc),
        },
        answers: Vec::new(alloc),
    };
    let told = if add_all(alloc, &mut trial, row) {
        found(rt, alloc, &trial)
    } else {
        String::from_str(alloc, "no case")
    };
    drop(trial);
    told
}

fn found<R: Net<Listener = TcpListener, Stream = TcpStream> + Clock>(
    rt: &R,
    alloc: Global,
    trial: &Trial,
) -> Result<String, AllocError> {
    match MemPanel::new(alloc, trial.answers.as_slice(), &[], &[]) {
        Ok(mut panel) => {
            let found = found_by(rt, alloc, trial, &mut panel);
            drop(panel);
            found
        }
        Err(AllocError) => Err(AllocError),
    }
}

fn found_by<R: Net<Listener = TcpListener, Stream = TcpStream> + Clock>(
    rt: &R,
    alloc: Global,
    trial: &Trial,
    panel: &mut MemPanel,
) -> Result<String, AllocError> {
    let mut told = String::new(alloc);
    for _ in 0..trial.calls {
        let found = judge(rt, alloc, &trial.case, panel);
        let call = format!(in alloc; "{found:?} {},", panel.asks())?;
        told.push_str(call.as_str())?;
    }
    Ok(told)
}

#[test]
fn the_guard_asks_no_more_than_it_needs(rt: HostRuntime) -> Result<(), AllocError> {
    hold(&rt, rt.alloc(), "guard", TRIALS)
}

// No text spells a proof without lines.
const NO_LINES: &str = "calls 1|goal true|proof EMPTY -> Ok(Denied(NoProof)) 0,";

#[test]
fn a_proof_without_lines_is_none(rt: HostRuntime) -> Result<(), AllocError> {
    hold(&rt, rt.alloc(), "guard", NO_LINES)
}
