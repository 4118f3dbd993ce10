//! Ends of sessions, and links that fail.
use crate::tables::holds;
use std::alloc::AllocError;

// More requests than a session may have, each of which is refused since nobody has said hello.
const SPENT: &str = "play: a session is spent by its last request
alice 40000|1048577 * object = 1048576 * refused 0 1 -> true Spent Closed Closed, asks 0, asking 0 missed 0 answered 1048576 entries 0.";

#[test]
fn a_session_is_spent_by_its_last_request(rt: HostRuntime) -> Result<(), AllocError> {
    holds(&rt, rt.alloc(), SPENT)
}

// A link may fail at each take: each frame takes two calls, and the last call is that which finds the end. The requests that
// were taken whole are answered, and the changes among them stand in the journal, which the session behind it finds.
//
// A link may fail at each send: a change stands in the journal though its reply was not sent.
//
// A session ends at what is no frame: a length that no payload has, and a kind that no request has. The place of the second
// fault is that of the kind, behind a request of eight bytes.
const TABLE: &str = "play: a link may fail at each take
alice 40000|1000 40000000 1: hello object goal label proof call call = |hello = welcome 2 0 -> true ReadFault Closed Closed, asks 0, asking 0 missed 0 answered 1 entries 0.
alice 40000|1000 40000000 2: hello object goal label proof call call = |hello = welcome 2 0 -> true ReadFault Closed Closed, asks 0, asking 0 missed 0 answered 1 entries 0.
alice 40000|1000 40000000 3: hello object goal label proof call call = welcome 1 0|hello = welcome 2 0 -> true ReadFault Closed Closed, asks 0, asking 0 missed 0 answered 2 entries 0.
alice 40000|1000 40000000 4: hello object goal label proof call call = welcome 1 0|hello = welcome 2 0 -> true ReadFault Closed Closed, asks 0, asking 0 missed 0 answered 2 entries 0.
alice 40000|1000 40000000 5: hello object goal label proof call call = welcome 1 0 done 1 0|hello = welcome 2 1 -> true ReadFault Closed Closed, asks 0, asking 0 missed 0 answered 3 entries 1.
alice 40000|1000 40000000 6: hello object goal label proof call call = welcome 1 0 done 1 0|hello = welcome 2 1 -> true ReadFault Closed Closed, asks 0, asking 0 missed 0 answered 3 entries 1.
alice 40000|1000 40000000 7: hello object goal label proof call call = welcome 1 0 done 1 0 done 2 0|hello = welcome 2 2 -> true ReadFault Closed Closed, asks 0, asking 0 missed 0 answered 4 entries 2.
alice 40000|1000 40000000 8: hello object goal label proof call call = welcome 1 0 done 1 0 done 2 0|hello = welcome 2 2 -> true ReadFault Closed Closed, asks 0, asking 0 missed 0 answered 4 entries 2.
alice 40000|1000 40000000 9: hello object goal label proof call call = welcome 1 0 done 1 0 done 2 0 done 3 3|hello = welcome 2 3 -> true ReadFault Closed Closed, asks 0, asking 0 missed 0 answered 5 entries 3.
alice 40000|1000 40000000 10: hello object goal label proof call call = welcome 1 0 done 1 0 done 2 0 done 3 3|hello = welcome 2 3 -> true ReadFault Closed Closed, asks 0, asking 0 missed 0 answered 5 entries 3.
alice 40000|1000 40000000 11: hello object goal label proof call call = welcome 1 0 done 1 0 done 2 0 done 3 3 done 4 0|hello = welcome 2 4 -> true ReadFault Closed Closed, asks 0, asking 0 missed 0 answered 6 entries 4.
alice 40000|1000 40000000 12: hello object goal label proof call call = welcome 1 0 done 1 0 done 2 0 done 3 3 done 4 0|hello = welcome 2 4 -> true ReadFault Closed Closed, asks 0, asking 0 missed 0 answered 6 entries 4.
alice 40000|1000 40000000 13: hello object goal label proof call call = welcome 1 0 done 1 0 done 2 0 done 3 3 done 4 0 allowed 4 0 0|hello = welcome 2 4 -> true ReadFault Closed Closed, asks 0, asking 0 missed 0 answered 7 entries 4.
alice 40000|1000 40000000 14: hello object goal label proof call call = welcome 1 0 done 1 0 done 2 0 done 3 3 done 4 0 allowed 4 0 0|hello = welcome 2 4 -> true ReadFault Closed Closed, asks 0, asking 0 missed 0 answered 7 entries 4.
alice 40000|1000 40000000 15: hello object goal label proof call call = welcome 1 0 done 1 0 done 2 0 done 3 3 done 4 0 allowed 4 0 0 allowed 4 1 0|hello = welcome 2 4 -> true ReadFault Closed Closed, asks 0, asking 0 missed 0 answered 8 entries 4.

play: a link may fail at each send
alice 40000|1000 40000000 0 1: hello object goal label proof call call = |hello = welcome 2 0 -> true WriteFault Closed Closed, asks 0, asking 0 missed 0 answered 1 entries 0.
alice 40000|1000 40000000 0 2: hello object goal label proof call call = welcome 1 0|hello = welcome 2 1 -> true WriteFault Closed Closed, asks 0, asking 0 missed 0 answered 2 entries 1.
alice 40000|1000 40000000 0 3: hello object goal label proof call call = welcome 1 0 done 1 0|hello = welcome 2 2 -> true WriteFault Closed Closed, asks 0, asking 0 missed 0 answered 3 entries 2.
alice 40000|1000 40000000 0 4: hello object goal label proof call call = welcome 1 0 done 1 0 done 2 0|hello = welcome 2 3 -> true WriteFault Closed Closed, asks 0, asking 0 missed 0 answered 4 entries 3.
alice 40000|1000 40000000 0 5: hello object goal label proof call call = welcome 1 0 done 1 0 done 2 0 done 3 3|hello = welcome 2 4 -> true WriteFault Closed Closed, asks 0, asking 0 missed 0 answered 5 entries 4.
alice 40000|1000 40000000 0 6: hello object goal label proof call call = welcome 1 0 done 1 0 done 2 0 done 3 3 done 4 0|hello = welcome 2 4 -> true WriteFault Closed Closed, asks 0, asking 0 missed 0 answered 6 entries 4.
alice 40000|1000 40000000 0 7: hello object goal label proof call call = welcome 1 0 done 1 0 done 2 0 done 3 3 done 4 0 allowed 4 0 0|hello = welcome 2 4 -> true WriteFault Closed Closed, asks 0, asking 0 missed 0 answered 7 entries 4.

play: a session ends within a frame
alice 40000|#0 #0 #0 =  -> true Torn Closed Closed, asks 0, asking 0 missed 0 answered 0 entries 0.
alice 40000|hello #0 #0 #0 = welcome 1 0 -> true Torn Closed Closed, asks 0, asking 0 missed 0 answered 1 entries 0.

play: a session ends at what is no frame
alice 40000|#0 #0 #132 #1 object = bad 0 -> true BadFrame { place: 0 } Closed Closed,
alice 40000|object #0 #0 #0 #1 #255 = refused 0 1 bad 12 -> true BadFrame { place: 12 } Closed Closed,";

#[test]
fn sessions_end_as_their_links_do(rt: HostRuntime) -> Result<(), AllocError> {
    holds(&rt, rt.alloc(), TABLE)
}
