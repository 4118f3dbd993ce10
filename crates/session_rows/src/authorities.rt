//! Calls that ask an authority.
use crate::tables::holds;
use std::alloc::AllocError;

// An authority is asked at each call: the authority says Yes, then No. A verdict that asked is not kept: the second call asks
// anew.
//
// A silent authority makes a call down: the authority says Yes and is then silent; at the next call it says Yes twice. The case
// is known from the first call on, and nothing was kept of it.
const TABLE: &str = "play: an authority is asked at each call
fs_bob_and_ntp 40000 yes no|\
    hello_fs object time_goal time_label give = welcome 1 0 done 1 0 done 2 0 done 3 3 done 4 0|\
    hello_ntp bind = welcome 2 4 done 5 0|\
    hello_bob time_proof call call = welcome 3 5 done 6 0 allowed 6 0 0 denied 6 6 3 0 -> \
    true Closed Closed Closed, asks 2, asking 2 missed 1 answered 11 entries 6.

play: a silent authority makes a call down
ntp 40000 yes down yes yes|hello_ntp object both_goal bind both_proof call call = \
    welcome 1 0 done 1 0 done 2 0 done 3 0 done 4 0 down 4 2 allowed 4 0 0 -> true Closed Closed Closed, asks 4, asking 2 missed 1 answered 7 entries 4.

play: an authority that is not bound is not asked
ntp 40000|hello_ntp object both_goal both_proof call = \
    welcome 1 0 done 1 0 done 2 0 done 3 0 denied 3 5 1 0 -> true Closed Closed Closed, asks 0,";

#[test]
fn authorities_are_asked_at_calls(rt: HostRuntime) -> Result<(), AllocError> {
    holds(&rt, rt.alloc(), TABLE)
}
