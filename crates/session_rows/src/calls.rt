//! Calls that are answered from the board, and calls that are judged.
use crate::tables::holds;
use std::alloc::{AllocError, Global};

// The row of a hello, of requests for the objects o0 to o256, and of requests for three of them.
fn objects(alloc: Global) -> Result<String, AllocError> {
    let mut asked = String::from_str(alloc, "alice 40000|hello")?;
    let mut told = String::from_str(alloc, "welcome 1 0")?;
    for number in 0..=256u64 {
        let name = format!(in alloc; "o{number}")?;
        let (count, at) = (name.len().min(4), number + 1);
        let frame = format!(in alloc; " #0 #0 #0 #{} #5 #0 #{count} '{name}", count + 3)?;
        asked.push_str(frame.as_str())?;
        told.push_str(format!(in alloc; " done {at} {number}")?.as_str())?;
    }
    format!(in alloc; "{OBJECTS_TITLE}\n{asked} {OBJECTS_ASKED} = {told} {OBJECTS_TOLD}")
}

// Objects 0 and 256 share a region, object 255 has another.
const OBJECTS_TITLE: &str = "play: a goal in the same region makes a miss";

const OBJECTS_ASKED: &str = "goal_0 proof_0 call_0 goal_255 call_0 goal_256 call_0 call_0";

const OBJECTS_TOLD: &str =
    "done 258 0 done 259 0 allowed 259 0 0 done 260 0 allowed 260 1 0 done 261 0 allowed 261 0 0 \
    allowed 261 1 0 -> true Closed Closed Closed, asks 0, asking 0 missed 1 answered 266 entries 261.";

#[test]
fn a_goal_in_the_same_region_makes_a_miss(rt: HostRuntime) -> Result<(), AllocError> {
    let row = objects(rt.alloc())?;
    holds(&rt, rt.alloc(), row.as_str())
}

// A second call is answered from the board: an object, its goal, a label, a proof by it, and two calls, of which the second is
// a hit.
//
// Another label leaves what is kept: a second session knows no case at first, so its first call is judged.
//
// A denial is kept too: a proof that is not of the goal: line 1 is not the goal, which is fault 12. Once the goal is cleared
// and set to what the proof proves, the verdict is another.
const TABLE: &str = "play: a second call is answered from the board
alice 40000|hello object goal label proof call call = welcome 1 0 done 1 0 done 2 0 done 3 3 done 4 0 allowed 4 0 0 allowed 4 1 0 -> true Closed Closed Closed, asks 0, asking 0 missed 0 answered 7 entries 4.
alice 40000|1 40000000: hello object goal label proof call call = welcome 1 0 done 1 0 done 2 0 done 3 3 done 4 0 allowed 4 0 0 allowed 4 1 0 -> true Closed Closed Closed, asks 0, asking 0 missed 0 answered 7 entries 4.

play: a label that is gone is missed
alice 40000|hello object goal label proof call call delete call delete = welcome 1 0 done 1 0 done 2 0 done 3 3 done 4 0 allowed 4 0 0 allowed 4 1 0 \
    done 5 0 denied 5 4 1 0 refused 5 6 -> true Closed Closed Closed, asks 0, asking 0 missed 1 answered 10 entries 5.

play: another label leaves what is kept
alice 40000|hello object goal label proof call call other_label call = welcome 1 0 done 1 0 done 2 0 done 3 3 done 4 0 allowed 4 0 0 allowed 4 1 0 \
    done 5 5 allowed 5 1 0|hello call call = welcome 2 5 allowed 5 0 0 allowed 5 1 0 -> true Closed Closed Closed, asks 0, asking 0 missed 0 answered 12 entries 5.

play: what is written is read
alice 40000|hello object true_goal write_goal true_proof write_proof write_7 call = \
    welcome 1 0 done 1 0 done 2 0 done 3 0 done 4 0 done 5 1 allowed 5 0 0 allowed 5 0 7 -> true Closed Closed Closed, asks 0, asking 0 missed 0 answered 8 entries 5.

play: a denial is kept too
alice 40000|hello object goal true_proof call call = \
    welcome 1 0 done 1 0 done 2 0 done 3 0 denied 3 3 1 12 denied 3 3 1 12 -> true Closed Closed Closed, asks 0, asking 0 missed 0 answered 6 entries 3.
alice 40000|hello object goal true_proof call call no_goal call true_goal call call = \
    welcome 1 0 done 1 0 done 2 0 done 3 0 denied 3 3 1 12 denied 3 3 1 12 done 4 0 denied 4 1 0 0 done 5 0 \
    allowed 5 0 0 allowed 5 1 0 -> true Closed Closed Closed, asks 0, asking 0 missed 2 answered 11 entries 5.";

#[test]
fn calls_are_answered_from_the_board_or_judged(rt: HostRuntime) -> Result<(), AllocError> {
    holds(&rt, rt.alloc(), TABLE)
}
