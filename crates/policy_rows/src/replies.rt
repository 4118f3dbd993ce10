//! Each line of a reply, with the causes, faults and refusals by their names.
use crate::tables::{holds, number, text_of};
use journal_text::{cause_text, reply_line};
use session_wire::Reply;
use std::alloc::{AllocError, Global};

// The numbers of a text, of which there are four at most; one that is missing is 0.
fn numbers(text: &str) -> [u64; 4] {
    let mut numbers = [0; 4];
    for (slot, word) in numbers.iter_mut().zip(text.split_whitespace()) {
        *slot = number(word);
    }
    numbers
}

fn reply(kind: &str, numbers: [u64; 4]) -> Reply {
    let [first, second, third, fourth] = numbers;
    match kind {
        "Welcome" => Reply::Welcome {
            session: first,
            at: second,
        },
        "Done" => Reply::Done {
            at: first,
            number: second,
        },
        "Allowed" => Reply::Allowed {
            at: first,
            hit: second,
            value: third,
        },
        "Denied" => Reply::Denied {
            at: first,
            cause: second,
            line: third,
            fault: fourth,
        },
        "Refused" => Reply::Refused {
            at: first,
            number: second,
        },
        "Down" => Reply::Down {
            at: first,
            line: second,
        },
        "Bad" => Reply::Bad { place: first },
        "Seen" => Reply::Seen { at: first },
        _ => Reply::NoMemory,
    }
}

/// The line of a reply, given by its kind and its numbers.
pub fn reply_told(alloc: Global, text: &str) -> Result<String, AllocError> {
    let (kind, rest) = text.split_once(" ").unwrap_or((text, ""));
    text_of(
        alloc,
        reply_line(alloc, &reply(kind, numbers(rest)))?.as_slice(),
    )
}

/// The words of a cause, given by the numbers of the cause, of its line and of its fault.
pub fn cause_told(alloc: Global, text: &str) -> Result<String, AllocError> {
    let [cause, line, fault, _] = numbers(text);
    cause_text(alloc, cause, line, fault)
}

const TABLE: &str = "reply: each reply has its line
Welcome 8 1 -> welcome 8 1
Done 2 1 -> done 2 1
Allowed 5 1 7 -> allowed 5 1 7
Denied 6 6 3 0 -> denied 6 AuthorityNo 3
Refused 1 9 -> refused 1 NameTaken
Down 4 2 -> down 4 2
NoMemory -> nomemory
Bad 0 -> bad 0
Seen 815 -> seen 815

cause: causes are written by name
1 0 0 -> GoalUnset
2 0 0 -> NoProof
3 1 12 -> Line 1 NotGoal
4 1 0 -> LabelMissing 1
5 2 0 -> NotBound 2
6 3 0 -> AuthorityNo 3
7 3 13 -> 7 3 13
0 0 0 -> 0

cause: faults are written by name
3 2 1 -> Line 2 NoSuchRef
3 2 2 -> Line 2 NotHyp
3 2 3 -> Line 2 WrongShape
3 2 4 -> Line 2 Capture
3 2 5 -> Line 2 NotFresh
3 2 6 -> Line 2 OutOfScope
3 2 7 -> Line 2 NotTrue
3 2 8 -> Line 2 TooManyAsks
3 2 9 -> Line 2 NotAsk
3 2 10 -> Line 2 NotClosed
3 2 11 -> Line 2 StillOpen
3 2 12 -> Line 2 NotGoal
3 2 13 -> Line 2 13

reply: refusals are written by name
Refused 1 0 -> refused 1 0
Refused 1 1 -> refused 1 NotOpen
Refused 1 2 -> refused 1 AlreadyOpen
Refused 1 3 -> refused 1 BadSecret
Refused 1 4 -> refused 1 NoSuchPrincipal
Refused 1 5 -> refused 1 NotYourPrincipal
Refused 1 6 -> refused 1 NoSuchLabel
Refused 1 7 -> refused 1 NotHolder
Refused 1 8 -> refused 1 NoSuchObject
Refused 1 9 -> refused 1 NameTaken
Refused 1 10 -> refused 1 NotOwner
Refused 1 11 -> refused 1 NoGoal
Refused 1 12 -> refused 1 NoSuchProof
Refused 1 13 -> refused 1 NoBinding
Refused 1 14 -> refused 1 BadPort
Refused 1 15 -> refused 1 BadFormula
Refused 1 16 -> refused 1 BadProof
Refused 1 17 -> refused 1 Quota
Refused 1 18 -> refused 1 ObjectsFull
Refused 1 19 -> refused 1 CasesFull
Refused 1 20 -> refused 1 NotRecorded
Refused 1 21 -> refused 1 ReadOnly
Refused 1 22 -> refused 1 JournalFull
Refused 1 23 -> refused 1 NotYet
Refused 1 24 -> refused 1 24";

#[test]
fn replies_and_causes_have_their_lines(rt: HostRuntime) -> Result<(), AllocError> {
    holds(&rt, rt.alloc(), TABLE)
}
