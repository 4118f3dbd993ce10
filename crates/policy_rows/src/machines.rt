//! Lists of steps on one journal, with what is told and how many do nothing, worked out by hand. The journal is owned by
//! one function alone, since each way out of a function that owns one is proved.
ghost use Rattle.std.specs.Prelude.{◌≡◌, ◌<◌, ◌≤◌, length, IfOk};
ghost use Rattle.std.specs.List.{All};

use crate::policies::{event, name};
use crate::tables::{holds, number};
use cache_machine::{Act, Answers, Outcome, Step, drive};
use journal_text::read_policy;
use policy_history::Journal;
use std::alloc::{AllocError, Global};

// Alice owns the object `f`, whose reading asks for a label that she then holds.
const POLICY: &str = "nexus 2
principal alice pa
1 alice object f
1 alice goal read f : alice says ok
1 alice say alice : ok
1 alice proof read f : proof 1 ; 1 label : alice says ok ; end
end
";

// The act on a case, which is given by the names of its operation and its object.
fn case_act(alloc: Global, word: &str, case: &str) -> Result<Act, AllocError> {
    let (op, object) = case.split_once(" ").unwrap_or(("", ""));
    let op = name(alloc, op)?;
    let object = name(alloc, object)?;
    Ok(if word == "look" {
        Act::Look { op, object }
    } else {
        Act::Snap { op, object }
    })
}

fn act(alloc: Global, text: &str) -> Result<Act, AllocError> {
    let (word, rest) = text.split_once(" ").unwrap_or((text, ""));
    match word {
        "write" => Ok(Act::Write {
            event: event(alloc, rest)?,
        }),
        "raise" => Ok(Act::Raise {
            event: event(alloc, rest)?,
        }),
        "look" | "snap" => case_act(alloc, word, rest),
        "count" => Ok(Act::Count),
        "answer" => Ok(Act::Answer {
            answers: Answers::new(alloc),
        }),
        "fill" => Ok(Act::Fill),
        "run" => Ok(Act::Run),
        "object" => Ok(Act::Object),
        "store" => Ok(Act::Store),
        _ => Err(AllocError),
    }
}

// Adds the steps that stand on these lines, each behind the number of its actor.
fn push_all(alloc: Global, list: &mut Vec<Step>, lines: &str) -> Result<(), AllocError> {
    for line in lines.lines() {
        let (actor, text) = line.split_once(" ").unwrap_or(("", ""));
        let step = Step {
            actor: number(actor),
            act: act(alloc, text)?,
        };
        list.push(step)?;
    }
    Ok(())
}

// Three times the first principal of a journal that has one.
fn three(alloc: Global, journal: &Journal) -> Result<Vec<u32>, AllocError>
    requires { 1 ≤ length journal.now.head.principals }
    ensures principals { IfOk result (λ v. All (λ p. p < length journal.now.head.principals) v.items) }
    ensures count { IfOk result (λ v. length v.items ≡ 3) }
{
    Vec::from_slice(alloc, &[0, 0, 0])
}

// What three actors, all the journal's first principal, come to by these steps.
fn driven(alloc: Global, journal: Journal, list: &Vec<Step>) -> Result<Outcome, AllocError> {
    if journal.head().principals.count() < 1 || journal.greatest_session() > 1 {
        drop(journal);
        return Err(AllocError);
    }
    match three(alloc, &journal) {
        Ok(actors) => drive(alloc, journal, &actors, list),
        Err(AllocError) => {
            drop(journal);
            Err(AllocError)
        }
    }
}

// What three actors, all alice, come to by these steps.
fn outcome(alloc: Global, list: &Vec<Step>) -> Result<Outcome, AllocError> {
    match read_policy(alloc, POLICY.as_bytes()) {
        Ok(journal) => driven(alloc, journal, list),
        Err(_) => Err(AllocError),
    }
}

fn outcome_told(alloc: Global, outcome: &Outcome) -> Result<(String, u64), AllocError> {
    let told = outcome.told.as_slice();
    let length = outcome.journal.count();
    let text = format!(in alloc; "{told:?} {length}")?;
    Ok((text, outcome.idle))
}

fn list_told(alloc: Global, list: &Vec<Step>) -> Result<(String, u64), AllocError> {
    match outcome(alloc, list) {
        Ok(outcome) => {
            let told = outcome_told(alloc, &outcome);
            drop(outcome);
            told
        }
        Err(AllocError) => Err(AllocError),
    }
}

// What is told by these steps with the length of the journal, and how many of them do nothing.
fn ran(alloc: Global, lines: &str) -> Result<(String, u64), AllocError> {
    let mut list = Vec::new(alloc);
    match push_all(alloc, &mut list, lines) {
        Ok(()) => list_told(alloc, &list),
        Err(AllocError) => Err(AllocError),
    }
}

/// What is told by these steps, the length of the journal, and how many of them do nothing.
pub fn told(alloc: Global, lines: &str) -> Result<String, AllocError> {
    let (told, idle) = ran(alloc, lines)?;
    format!(in alloc; "{told} {idle}")
}

// How many of these steps do nothing, and one of actor 0 behind them.
fn idle_with(alloc: Global, lines: &str, act: &str) -> Result<u64, AllocError> {
    let lines = format!(in alloc; "{lines}0 {act}")?;
    let (_, idle) = ran(alloc, lines.as_str())?;
    Ok(idle)
}

// The place of an act that is not idle, with how many steps are where others are.
fn place_told(alloc: Global, place: u64, idle: u64) -> Result<String, AllocError> {
    match idle {
        0 => format!(in alloc; " {place}"),
        1 => Ok(String::new(alloc)),
        _ => format!(in alloc; " {place}: {idle}"),
    }
}

/// The numbers of the acts of actor 0 that are not idle after these steps, of which none is idle.
pub fn acts_told(alloc: Global, lines: &str) -> Result<String, AllocError> {
    let mut told = String::from_str(alloc, "acts")?;
    let mut place = 0u64;
    for act in ACTS.lines() {
        let idle = idle_with(alloc, lines, act)?;
        let shown = place_told(alloc, place, idle)?;
        told.push_str(shown.as_str())?;
        place = place.wrapping_add(1);
    }
    Ok(told)
}

// The acts that are tried in each stage.
const ACTS: &str = "write say alice : other
look read f
count
object
store
snap read f
answer
fill
run
raise delete 3
write delete 3";

// Steps come to what is told, the length of the journal at the end, and how many of the steps do nothing.
//
// A row of the stages has the steps that bring actor 0 into each stage, and comes to the numbers of the acts that are then not
// idle, from 0: resting; looked, counted, half; missed; holding; allowed by the guard, with what may be kept, and without; resting
// after a denial that may be kept; raised; resting, while another holds the lock.
const TABLE: &str = "machine: a change that touches the case makes it miss
0 snap read f|0 answer|0 fill|1 look read f|1 count|2 raise delete 3|1 object|1 store|2 write delete 3|\
    1 snap read f|1 answer -> [Told { actor: 0, at: 4, hit: false, verdict: Allowed }, \
    Told { actor: 1, at: 5, hit: false, verdict: Denied(LabelMissing { line: 1 }) }] 5 0

machine: a change that touches no region leaves the hit
0 snap read f|0 answer|0 fill|1 look read f|1 count|2 write say alice : other|1 object|1 store -> \
    [Told { actor: 0, at: 4, hit: false, verdict: Allowed }, Told { actor: 1, at: 4, hit: true, verdict: Allowed }] 5 0

stage: each act is idle but in its stages
 -> acts 0 1 5 9
0 look read f| -> acts 2
0 look read f|0 count| -> acts 3
0 look read f|0 count|0 object| -> acts 4
0 look read f|0 count|0 object|0 store| -> acts 5
0 snap read f| -> acts 6
0 snap read f|0 answer| -> acts 7 8
0 snap read f|0 answer|0 fill| -> acts 8
0 raise nogoal read f|0 write nogoal read f|0 snap read f|0 answer| -> acts 0 1 5 7 9
0 raise delete 3| -> acts 10
1 raise delete 3| -> acts 1

machine: what has no number and who is no actor is idle
0 look read g|0 snap read g|3 snap read f|0 write object g|0 look read g|0 snap read g|0 answer|0 fill -> \
    [Told { actor: 0, at: 5, hit: false, verdict: Denied(GoalUnset) }] 5 5

machine: one snap and no more
2 snap read f -> [] 4 0
 -> [] 4 0";

#[test]
fn steps_are_told_their_verdicts_or_idle(rt: HostRuntime) -> Result<(), AllocError> {
    holds(&rt, rt.alloc(), TABLE)
}
