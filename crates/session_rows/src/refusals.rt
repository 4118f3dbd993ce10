//! Requests that are refused.
use crate::tables::holds;
use std::alloc::AllocError;

// What cannot be done is refused: a case without a proof has no number, so it is not known and never looked for. The second
// session asks before its hello, with a wrong secret, and twice.
//
// A session that asks for a length is told at once whether it has come to it: what it was told once, it is told again.
//
// A change that cannot be written is not recorded: the first change fills 44 of the 49 bytes that the sink holds, and the line
// of the second breaks off. So it is where the line is written and cannot be synced; then no change of another session is recorded
// either, and each session sees what was there before.
const TABLE: &str = "play: what cannot be done is refused
alice 40000|\
    hello call object call true_goal call no_goal no_goal no_proof unbind bind_3 bobs_label give_1 = \
    welcome 1 0 refused 0 8 done 1 0 denied 1 1 0 0 done 2 0 denied 2 2 0 0 done 3 0 refused 3 11 refused 3 12 refused 3 13 \
    refused 3 14 refused 3 5 refused 3 4|\
    other_object hello_wrong hello hello = refused 3 1 refused 3 3 welcome 2 3 refused 3 2 -> \
    true Closed Closed Closed, asks 0, asking 0 missed 0 answered 17 entries 3.

play: a session is told whether it has come to a length
alice 40000|\
    see 0 hello see 1 object see 1 see 2 = refused 0 1 welcome 1 0 refused 0 23 done 1 0 seen 1 refused 1 23|\
    hello see 1 see 2 other_object see 2 = welcome 2 1 seen 1 refused 1 23 done 2 1 seen 2 -> \
    true Closed Closed Closed, asks 0, asking 0 missed 0 answered 11 entries 2.

play: a change that cannot be written is not recorded
alice 49|hello object true_goal other_object object call = \
    welcome 1 0 done 1 0 refused 1 20 refused 1 20 refused 1 9 denied 1 1 0 0 -> true Closed Closed Closed, asks 0, asking 0 missed 0 answered 6 entries 1.

play: a change whose line cannot be synced is not recorded
alice 40000,2|hello object true_goal other_object object call = \
    welcome 1 0 done 1 0 refused 1 20 refused 1 20 refused 1 9 denied 1 1 0 0|\
    hello true_goal call = welcome 2 1 refused 1 20 denied 1 1 0 0 -> true Closed Closed Closed, asks 0, asking 0 missed 0 answered 9 entries 1.
alice 40000,1|hello object object call = \
    welcome 1 0 refused 0 20 refused 0 20 refused 0 8 -> true Closed Closed Closed, asks 0, asking 0 missed 0 answered 4 entries 0.";

#[test]
fn what_cannot_be_done_is_refused(rt: HostRuntime) -> Result<(), AllocError> {
    holds(&rt, rt.alloc(), TABLE)
}
