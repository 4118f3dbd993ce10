//! Sessions over links in memory and a journal.
use crate::frames::bytes_of;
use crate::tables::{holds, number};
use crate::talks::{Talk, link_of, talk_of};
use authority_ask::MemPanel;
use journal_text::read_policy;
use nx_io::MemLink;
use policy_history::Journal;
use session_core::{SessionEnd, serve_on};
use std::alloc::{AllocError, Global};
use std::net::{Net, TcpListener, TcpStream};
use std::rt::Clock;

// What comes of a session: its end, how many bytes it sent, whether they begin the replies, and whether the link is closed.
fn end_told(
    alloc: Global,
    end: SessionEnd,
    link: &MemLink,
    talk: &Talk,
) -> Result<String, AllocError> {
    let sent = link.sent().len();
    let same = talk.told.as_slice().starts_with(link.sent());
    let closed = link.is_closed();
    format!(in alloc; "{end:?} {sent} {same} {closed}.")
}

// Serves the next session of the journal over a link that gives the first of the bytes that are asked, at most so many.
fn served<R: Net<Listener = TcpListener, Stream = TcpStream> + Clock>(
    rt: &R,
    alloc: Global,
    journal: &mut Journal,
    panel: &mut MemPanel,
    talk: &Talk,
    most: usize,
) -> Result<String, AllocError> {
    let session = journal.greatest_session();
    if session == u64::MAX {
        return Err(AllocError);
    }
    let asked = talk.asked.as_slice();
    match link_of(alloc, talk, asked.get(..most).unwrap_or(asked)) {
        Ok(mut link) => {
            let end = serve_on(rt, alloc, journal, session + 1, &mut link, panel);
            let told = end_told(alloc, end, &link, talk);
            drop(link);
            told
        }
        Err(AllocError) => Err(AllocError),
    }
}

// Serves the talks of these lines, one after another over the journal.
fn all_served<R: Net<Listener = TcpListener, Stream = TcpStream> + Clock>(
    rt: &R,
    alloc: Global,
    journal: &mut Journal,
    panel: &mut MemPanel,
    lines: &str,
    most: usize,
) -> Result<String, AllocError> {
    let mut all = String::new(alloc);
    for line in lines.lines() {
        let talk = talk_of(alloc, line)?;
        let told = served(rt, alloc, journal, panel, &talk, most);
        drop(talk);
        all.push_str(told?.as_str())?;
    }
    Ok(all)
}

// As `all_served`, over a new journal of this policy.
fn served_anew<R: Net<Listener = TcpListener, Stream = TcpStream> + Clock>(
    rt: &R,
    alloc: Global,
    panel: &mut MemPanel,
    policy: &str,
    lines: &str,
    most: usize,
) -> Result<String, AllocError> {
    let policy = bytes_of(alloc, policy)?;
    match read_policy(alloc, policy.as_slice()) {
        Ok(mut journal) => {
            let told = all_served(rt, alloc, &mut journal, panel, lines, most);
            drop(journal);
            told
        }
        Err(_) => Err(AllocError),
    }
}

fn told_of_most<R: Net<Listener = TcpListener, Stream = TcpStream> + Clock>(
    rt: &R,
    alloc: Global,
    policy: &str,
    lines: &str,
    most: usize,
) -> Result<String, AllocError> {
    let mut panel = MemPanel::new(alloc, &[], &[], &[])?;
    let told = served_anew(rt, alloc, &mut panel, policy, lines, most);
    drop(panel);
    told
}

/// What comes of sessions over a new journal. The first line names its policy, and each other is a talk.
pub fn told<R: Net<Listener = TcpListener, Stream = TcpStream> + Clock>(
    rt: &R,
    alloc: Global,
    text: &str,
) -> Result<String, AllocError> {
    let (policy, lines) = text.split_once("\n").unwrap_or(("", ""));
    told_of_most(rt, alloc, policy, lines, usize::MAX)
}

// A session that is asked for an object, a goal, a label, a proof by it, and twice for a call.
const WHOLE: &str = "1000 1000: hello object goal label proof call call = \
    welcome 1 0 done 1 0 done 2 0 done 3 3 done 4 0 allowed 4 0 0 allowed 4 0 0";

/// What comes of a session whose link is cut behind so many bytes of the requests, from the first number up to and with the
/// second, if it is the same of each.
pub fn cut<R: Net<Listener = TcpListener, Stream = TcpStream> + Clock>(
    rt: &R,
    alloc: Global,
    text: &str,
) -> Result<String, AllocError> {
    let (first, last) = text.split_once(" ").unwrap_or((text, text));
    let mut told = String::new(alloc);
    for place in number(first)..=number(last) {
        let next = told_of_most(rt, alloc, "alice", WHOLE, place as usize)?;
        if told.is_empty() {
            told = next;
        } else if told != next {
            return format!(in alloc; "behind {place} {next}");
        }
    }
    Ok(told)
}

// Each of the requests is refused, since nobody has said hello.
const SPENT: &str = "serve: a session is spent by its last request
alice|1000 22020117: 1048577 * object = welcome 1 0 done 1 0 done 2 0 done 3 3 done 4 0 allowed 4 0 0 allowed 4 0 0 -> Spent 22020096 false true.";

#[test]
fn a_session_is_spent_by_its_last_request(rt: HostRuntime) -> Result<(), AllocError> {
    holds(&rt, rt.alloc(), SPENT)
}

// Sessions end as their links do: a length that no payload has comes at once and behind a request. Each frame takes two calls,
// its length and its payload, so the fifth take is at the third frame.
//
// A link may fail at each of its calls: each frame takes two calls, and the last call is that which finds the end.
//
// What cannot be done is refused: an object, a goal that is set and cleared, and names that nobody has; then a second session
// over the same journal: a request before its hello, a wrong secret, its hello, and another.
//
// A session that asks for a length is told how long the journal is, where it is as long.
//
// A label serves whoever holds it: an object, a goal that speaks of the caller, and a label that is given away. It serves its
// new holder, and its giver no more: the goal speaks of whoever calls.
const TABLE: &str = "serve: sessions end as their links do
alice|1000 1000: hello object goal label proof call call = welcome 1 0 done 1 0 done 2 0 done 3 3 done 4 0 allowed 4 0 0 allowed 4 0 0 -> Closed 163 true true.
alice|1 1000: hello object goal label proof call call = welcome 1 0 done 1 0 done 2 0 done 3 3 done 4 0 allowed 4 0 0 allowed 4 0 0 -> Closed 163 true true.
alice|1000 1000: #0 #0 #0 = welcome 1 0 done 1 0 done 2 0 done 3 3 done 4 0 allowed 4 0 0 allowed 4 0 0 -> Torn 0 true true.
alice|1000 1000: #0 #0 #132 #1 = bad 0 -> BadFrame { place: 0 } 13 true true.
alice|1000 1000: object #0 #0 #0 #1 #255 = refused 0 1 bad 12 -> BadFrame { place: 12 } 34 true true.
alice|1000 1000 5: hello object goal label proof call call = welcome 1 0 done 1 0 done 2 0 done 3 3 done 4 0 allowed 4 0 0 allowed 4 0 0 -> ReadFault 42 true true.
alice|1000 1000 0 3: hello object goal label proof call call = welcome 1 0 done 1 0 done 2 0 done 3 3 done 4 0 allowed 4 0 0 allowed 4 0 0 -> WriteFault 42 true true.
alice|1 1000 0 50: hello object goal label proof call call = welcome 1 0 done 1 0 done 2 0 done 3 3 done 4 0 allowed 4 0 0 allowed 4 0 0 -> WriteFault 49 true true.
alice|1000 1000 0 1: #0 #0 #132 #1 = welcome 1 0 done 1 0 done 2 0 done 3 3 done 4 0 allowed 4 0 0 allowed 4 0 0 -> WriteFault 0 true true.

cut: a cut link is answered its whole frames
0 -> Closed 0 true true.
1 15 -> Torn 0 true true.
16 -> Closed 21 true true.
17 23 -> Torn 21 true true.
24 -> Closed 42 true true.
25 52 -> Torn 42 true true.
53 -> Closed 63 true true.
54 68 -> Torn 63 true true.
69 -> Closed 84 true true.
70 123 -> Torn 84 true true.
124 -> Closed 105 true true.
125 145 -> Torn 105 true true.
146 -> Closed 134 true true.
147 167 -> Torn 134 true true.
168 -> Closed 163 true true.

serve: a link may fail at each of its calls
alice|1000 1000 1: hello object goal label proof call call = welcome 1 0 done 1 0 done 2 0 done 3 3 done 4 0 allowed 4 0 0 allowed 4 0 0 -> ReadFault 0 true true.
alice|1000 1000 2: hello object goal label proof call call = welcome 1 0 done 1 0 done 2 0 done 3 3 done 4 0 allowed 4 0 0 allowed 4 0 0 -> ReadFault 0 true true.
alice|1000 1000 3: hello object goal label proof call call = welcome 1 0 done 1 0 done 2 0 done 3 3 done 4 0 allowed 4 0 0 allowed 4 0 0 -> ReadFault 21 true true.
alice|1000 1000 4: hello object goal label proof call call = welcome 1 0 done 1 0 done 2 0 done 3 3 done 4 0 allowed 4 0 0 allowed 4 0 0 -> ReadFault 21 true true.
alice|1000 1000 5: hello object goal label proof call call = welcome 1 0 done 1 0 done 2 0 done 3 3 done 4 0 allowed 4 0 0 allowed 4 0 0 -> ReadFault 42 true true.
alice|1000 1000 6: hello object goal label proof call call = welcome 1 0 done 1 0 done 2 0 done 3 3 done 4 0 allowed 4 0 0 allowed 4 0 0 -> ReadFault 42 true true.
alice|1000 1000 7: hello object goal label proof call call = welcome 1 0 done 1 0 done 2 0 done 3 3 done 4 0 allowed 4 0 0 allowed 4 0 0 -> ReadFault 63 true true.
alice|1000 1000 8: hello object goal label proof call call = welcome 1 0 done 1 0 done 2 0 done 3 3 done 4 0 allowed 4 0 0 allowed 4 0 0 -> ReadFault 63 true true.
alice|1000 1000 9: hello object goal label proof call call = welcome 1 0 done 1 0 done 2 0 done 3 3 done 4 0 allowed 4 0 0 allowed 4 0 0 -> ReadFault 84 true true.
alice|1000 1000 10: hello object goal label proof call call = welcome 1 0 done 1 0 done 2 0 done 3 3 done 4 0 allowed 4 0 0 allowed 4 0 0 -> ReadFault 84 true true.
alice|1000 1000 11: hello object goal label proof call call = welcome 1 0 done 1 0 done 2 0 done 3 3 done 4 0 allowed 4 0 0 allowed 4 0 0 -> ReadFault 105 true true.
alice|1000 1000 12: hello object goal label proof call call = welcome 1 0 done 1 0 done 2 0 done 3 3 done 4 0 allowed 4 0 0 allowed 4 0 0 -> ReadFault 105 true true.
alice|1000 1000 13: hello object goal label proof call call = welcome 1 0 done 1 0 done 2 0 done 3 3 done 4 0 allowed 4 0 0 allowed 4 0 0 -> ReadFault 134 true true.
alice|1000 1000 14: hello object goal label proof call call = welcome 1 0 done 1 0 done 2 0 done 3 3 done 4 0 allowed 4 0 0 allowed 4 0 0 -> ReadFault 134 true true.
alice|1000 1000 15: hello object goal label proof call call = welcome 1 0 done 1 0 done 2 0 done 3 3 done 4 0 allowed 4 0 0 allowed 4 0 0 -> ReadFault 163 true true.
alice|1000 1000 0 1: hello object goal label proof call call = welcome 1 0 done 1 0 done 2 0 done 3 3 done 4 0 allowed 4 0 0 allowed 4 0 0 -> WriteFault 0 true true.
alice|1000 1000 0 2: hello object goal label proof call call = welcome 1 0 done 1 0 done 2 0 done 3 3 done 4 0 allowed 4 0 0 allowed 4 0 0 -> WriteFault 21 true true.
alice|1000 1000 0 3: hello object goal label proof call call = welcome 1 0 done 1 0 done 2 0 done 3 3 done 4 0 allowed 4 0 0 allowed 4 0 0 -> WriteFault 42 true true.
alice|1000 1000 0 4: hello object goal label proof call call = welcome 1 0 done 1 0 done 2 0 done 3 3 done 4 0 allowed 4 0 0 allowed 4 0 0 -> WriteFault 63 true true.
alice|1000 1000 0 5: hello object goal label proof call call = welcome 1 0 done 1 0 done 2 0 done 3 3 done 4 0 allowed 4 0 0 allowed 4 0 0 -> WriteFault 84 true true.
alice|1000 1000 0 6: hello object goal label proof call call = welcome 1 0 done 1 0 done 2 0 done 3 3 done 4 0 allowed 4 0 0 allowed 4 0 0 -> WriteFault 105 true true.
alice|1000 1000 0 7: hello object goal label proof call call = welcome 1 0 done 1 0 done 2 0 done 3 3 done 4 0 allowed 4 0 0 allowed 4 0 0 -> WriteFault 134 true true.

serve: what cannot be done is refused
alice|\
    1000 1000: hello call object call true_goal call no_goal no_goal no_proof unbind bind_3 bobs_label give_1 = \
    welcome 1 0 refused 0 8 done 1 0 denied 1 1 0 0 done 2 0 denied 2 2 0 0 done 3 0 refused 3 11 refused 3 12 refused 3 13 \
    refused 3 14 refused 3 5 refused 3 4|\
    1000 1000: other_object hello_wrong hello hello = refused 3 1 refused 3 3 welcome 2 3 refused 3 2 -> \
    Closed 305 true true.Closed 84 true true.

serve: a session is told whether it has come to a length
alice|1000 1000: see 0 hello see 0 see 1 object see 1 see 2 see 18446744073709551615 = \
    refused 0 1 welcome 1 0 seen 0 refused 0 23 done 1 0 seen 1 refused 1 23 refused 1 23|\
    1000 1000: hello see 1 see 2 = welcome 2 1 seen 1 refused 1 23 -> Closed 152 true true.Closed 55 true true.

serve: a label serves whoever holds it
fs_and_bob|\
    1000 1000: hello_fs object may_goal may_label give = welcome 1 0 done 1 0 done 2 0 done 3 3 done 4 0|\
    1000 1000: hello_bob may_proof call = welcome 2 4 done 5 0 allowed 5 0 0|\
    1000 1000: hello_fs may_proof call = welcome 3 5 done 6 1 denied 6 3 1 12 -> \
    Closed 105 true true.Closed 71 true true.Closed 79 true true.";

#[test]
fn sessions_over_a_journal_are_told_and_end_so(rt: HostRuntime) -> Result<(), AllocError> {
    holds(&rt, rt.alloc(), TABLE)
}
