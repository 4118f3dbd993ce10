//! Calls that are recorded, and calls whose record could not be sent.
use crate::tables::holds;
use std::alloc::{AllocError, Global};

// Each call is recorded, what it is answered and what authorities said to it: a call of an object that is not there, denials, calls that
// are allowed anew and by what is kept, and one for which an authority was down. What is no call is not recorded, nor is a call before a
// hello.
//
// A call whose record breaks off is refused, and so is each later one, in later sessions too; it steps on no register, nothing is kept of
// it, and nobody is asked for the later ones. Changes go on. A call before a hello is refused as ever.
const TABLE: &str = "play: each call is recorded
alice 40000/1000|call hello call object call goal label proof call call delete call = \
    refused 0 1 welcome 1 0 refused 0 8 done 1 0 denied 1 1 0 0 done 2 0 done 3 3 done 4 0 allowed 4 0 0 allowed 4 1 0 done 5 0 \
    denied 5 4 1 0 -> true Closed Closed Closed, asks 0, asking 0 missed 1 answered 12 entries 5. Records \
    0 alice read f - : refused NoSuchObject;1 alice read f - : denied GoalUnset;4 alice read f - : allowed;4 alice read f - : allowed;\
    5 alice read f - : denied LabelMissing 1;.
alice 40000/1000|hello object goal true_proof call call = \
    welcome 1 0 done 1 0 done 2 0 done 3 0 denied 3 3 1 12 denied 3 3 1 12 -> true Closed Closed Closed, asks 0, asking 0 missed 0 answered 6 \
    entries 3. Records 3 alice read f - : denied Line 1 NotGoal;3 alice read f - : denied Line 1 NotGoal;.
fs_bob_and_ntp 40000/1000 yes no|\
    hello_fs object time_goal time_label give = welcome 1 0 done 1 0 done 2 0 done 3 3 done 4 0|\
    hello_ntp bind = welcome 2 4 done 5 0|\
    hello_bob time_proof call call = welcome 3 5 done 6 0 allowed 6 0 0 denied 6 6 3 0 -> \
    true Closed Closed Closed, asks 2, asking 2 missed 1 answered 11 entries 6. Records \
    6 bob read f y : allowed;6 bob read f n : denied AuthorityNo 3;.
ntp 40000/1000 yes down yes yes|hello_ntp object both_goal bind both_proof call call = \
    welcome 1 0 done 1 0 done 2 0 done 3 0 done 4 0 down 4 2 allowed 4 0 0 -> true Closed Closed Closed, asks 4, asking 2 missed 1 answered 7 \
    entries 4. Records 4 ntp read f y : down 2;4 ntp read f yy : allowed;.

play: a call whose record breaks off is refused
ntp 40000/10 yes yes|hello_ntp object both_goal bind both_proof call call other_object = \
    welcome 1 0 done 1 0 done 2 0 done 3 0 done 4 0 refused 4 20 refused 4 20 done 5 1|\
    call hello_ntp call = refused 5 1 welcome 2 5 refused 5 20 -> \
    true Closed Closed Closed, asks 2, asking 1 missed 0 answered 11 entries 5. Records 4 ntp read.
alice 40000/30|hello object true_goal write_goal true_proof write_proof write_7 call = \
    welcome 1 0 done 1 0 done 2 0 done 3 0 done 4 0 done 5 1 allowed 5 0 0 refused 5 20 -> \
    true Closed Closed Closed, asks 0, asking 0 missed 0 answered 8 entries 5. Records 5 alice write f - : allowed;5 .";

#[test]
fn calls_are_recorded_before_they_are_answered(rt: HostRuntime) -> Result<(), AllocError> {
    holds(&rt, rt.alloc(), TABLE)
}

// The line of a record, with its end.
const LINE: &str = "4 alice read f - : allowed;";

// The row of two calls, of which the second is a hit, where the sink of records holds so many bytes.
fn row_of(alloc: Global, room: usize) -> Result<String, AllocError> {
    let first = if room >= LINE.len() {
        "allowed 4 0 0"
    } else {
        "refused 4 20"
    };
    let second = if room >= 2 * LINE.len() {
        "allowed 4 1 0"
    } else {
        "refused 4 20"
    };
    let both = format!(in alloc; "{LINE}{LINE}")?;
    let sent = both.as_str().get(..room).unwrap_or("?");
    format!(in alloc;
        "alice 40000/{room}|hello object goal label proof call call = welcome 1 0 done 1 0 done 2 0 done 3 3 done 4 0 {first} {second} -> \
        true Closed Closed Closed, asks 0, asking 0 missed 0 answered 7 entries 4. Records {sent}.\n"
    )
}

#[test]
fn a_sink_of_records_may_be_full_at_each_byte(rt: HostRuntime) -> Result<(), AllocError> {
    let alloc = rt.alloc();
    let mut table = String::from_str(alloc, "play: a sink of records may be full at each byte\n")?;
    for room in 1..=2 * LINE.len() {
        table.push_str(row_of(alloc, room)?.as_str())?;
    }
    holds(&rt, alloc, table.as_str())
}
