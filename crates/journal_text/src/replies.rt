ghost use Rattle.std.specs.Prelude.{◌≡◌, IfOk, MatchOption, Some};
ghost use Rattle.std.specs.Fmt.{decimal};
ghost use Rattle.std.specs.String.{string_bytes};
ghost use Rattle.journal_text.specs.ReplyLines.{cause_names, cause_text, fault_names, named, refusal_names, reply_text};

use nx_io::Bytes;
use session_wire::Reply;
use std::alloc::{AllocError, Global};

/// The line of a reply, without a line feed. An `Err` is want of memory. `docs/FORMATS.md`, "Reply lines", states the lines.
pub fn reply_line(alloc: Global, reply: &Reply) -> Result<Bytes, AllocError>
    ensures { IfOk result (λ line. line ≡ reply_text reply.now) }
{
    let text = reply_text(alloc, reply)?;
    Ok(Bytes::from_vec(text.into_bytes()))
}

fn reply_text(alloc: Global, reply: &Reply) -> Result<String, AllocError>
    ensures { IfOk result (λ text. string_bytes text ≡ reply_text reply.now) }
{
    match reply {
        Reply::Welcome { session, at } => format!(in alloc; "welcome {session} {at}"),
        Reply::Done { at, number } => format!(in alloc; "done {at} {number}"),
        Reply::Allowed { at, hit, value } => format!(in alloc; "allowed {at} {hit} {value}"),
        Reply::Denied {
            at,
            cause,
            line,
            fault,
        } => {
            let cause = cause_text(alloc, *cause, *line, *fault)?;
            format!(in alloc; "denied {at} {cause}")
        }
        Reply::Refused { at, number } => {
            let refusal = named(alloc, refusal_name(*number), *number)?;
            format!(in alloc; "refused {at} {refusal}")
        }
        Reply::Down { at, line } => format!(in alloc; "down {at} {line}"),
        Reply::NoMemory => String::from_str(alloc, "nomemory"),
        Reply::Bad { place } => format!(in alloc; "bad {place}"),
        Reply::Seen { at } => format!(in alloc; "seen {at}"),
    }
}

/// The words of a cause that is told by its number, that of its line and that of its fault, as `cause_numbers` gives them:
/// the cause's name, then the line and the fault's name unless they are 0. An `Err` is want of memory.
/// `docs/FORMATS.md`, "Reply lines", states the names.
pub fn cause_text(alloc: Global, cause: u64, line: u64, fault: u64) -> Result<String, AllocError>
    ensures { IfOk result (λ text. string_bytes text ≡ cause_text cause line fault) }
{
    let cause = named(alloc, cause_name(cause), cause)?;
    if fault == 0 {
        return if line == 0 {
            Ok(cause)
        } else {
            format!(in alloc; "{cause} {line}")
        };
    }
    let fault = named(alloc, fault_name(fault), fault)?;
    if line == 0 {
        format!(in alloc; "{cause} {fault}")
    } else {
        format!(in alloc; "{cause} {line} {fault}")
    }
}

/// The name, or the number where there is none.
fn named(alloc: Global, name: Option<&str>, number: u64) -> Result<String, AllocError>
    ensures { IfOk result
        (λ text. MatchOption name.entry (string_bytes text ≡ decimal number) (λ n. string_bytes text ≡ n.now)) }
{
    match name {
        Some(name) => String::from_str(alloc, name),
        None => number.to_string(alloc),
    }
}

/// The name of the cause with this number, from 1. None where there is none.
pub fn cause_name(cause: u64) -> Option<&'static str>
    ensures { MatchOption result (named cause_names cause ≡ decimal cause)
        (λ name. named cause_names cause ≡ name.now) }
{
    match cause {
        1 => Some("GoalUnset"),
        2 => Some("NoProof"),
        3 => Some("Line"),
        4 => Some("LabelMissing"),
        5 => Some("NotBound"),
        6 => Some("AuthorityNo"),
        _ => None,
    }
}

/// The name of the fault with this number, from 1. None where there is none.
pub fn fault_name(fault: u64) -> Option<&'static str>
    ensures { MatchOption result (named fault_names fault ≡ decimal fault)
        (λ name. named fault_names fault ≡ name.now) }
{
    match fault {
        1 => Some("NoSuchRef"),
        2 => Some("NotHyp"),
        3 => Some("WrongShape"),
        4 => Some("Capture"),
        5 => Some("NotFresh"),
        6 => Some("OutOfScope"),
        7 => Some("NotTrue"),
        8 => Some("TooManyAsks"),
        9 => Some("NotAsk"),
        10 => Some("NotClosed"),
        11 => Some("StillOpen"),
        12 => Some("NotGoal"),
        _ => None,
    }
}

/// The name of the refusal with this number. None where no refusal has it. `docs/FORMATS.md`, "Events and refusals", lists them.
pub fn refusal_name(refusal: u64) -> Option<&'static str>
    ensures { MatchOption result (named refusal_names refusal ≡ decimal refusal)
        (λ name. named refusal_names refusal ≡ name.now) }
{
    match refusal {
        1 => Some("NotOpen"),
        2 => Some("AlreadyOpen"),
        3 => Some("BadSecret"),
        4 => Some("NoSuchPrincipal"),
        5 => Some("NotYourPrincipal"),
        6 => Some("NoSuchLabel"),
        7 => Some("NotHolder"),
        8 => Some("NoSuchObject"),
        9 => Some("NameTaken"),
        10 => Some("NotOwner"),
        11 => Some("NoGoal"),
        12 => Some("NoSuchProof"),
        13 => Some("NoBinding"),
        14 => Some("BadPort"),
        15 => Some("BadFormula"),
        16 => Some("BadProof"),
        17 => Some("Quota"),
        18 => Some("ObjectsFull"),
        19 => Some("CasesFull"),
        20 => Some("NotRecorded"),
        21 => Some("ReadOnly"),
        22 => Some("JournalFull"),
        23 => Some("NotYet"),
        _ => None,
    }
}
