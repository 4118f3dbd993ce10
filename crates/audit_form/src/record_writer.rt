//! Writing the lines of records.
ghost use Rattle.std.specs.Prelude.{◌≡◌, ◌≤◌, ◌<◌, ◌+◌, ◌++◌, [], ℕ, codes, length, map};
ghost use Rattle.std.specs.Fmt.{decimal};
ghost use Rattle.journal_text.specs.ReplyLines.{cause_names, fault_names, named};
ghost use Rattle.nal_term.specs.Names.{IsName};
ghost use Rattle.policy_history.specs.PolicyLines.{spaced};
ghost use Rattle.policy_history.specs.PolicyTexts.{ended};
ghost use Rattle.audit_check.specs.declared.records.Answers.TheVariants.{Known};
ghost use Rattle.audit_check.specs.declared.records.Recorded.{Recorded};
ghost use Rattle.audit_form.specs.RecordLines.{answer_letter, given_text, record_text};
ghost use Rattle.audit_form.specs.ReplyRecords.{Records, record_of};
ghost use Rattle.audit_form.specs.Inner.Writing.{cause_words, place_text, point_of, told_words};

use arrayvec::ArrayVec;
use itoa::Buffer;
use journal_text::{cause_name, fault_name};
use nal_term::Name;
use session_wire::Reply;

/// How much room there is for a record's line with its line feed, which has at most 305 bytes.
pub const LONGEST_RECORD: usize = 320;

/// The number of the last cause that names no line.
const NO_PROOF: u64 = 2;

/// The number of the cause that names a line and its fault.
const LINE: u64 = 3;

/// A line that is being written.
type Line = ArrayVec<u8, LONGEST_RECORD>;

/// The line of a record, with its line feed: of a call that the principal with this name made, whom authorities gave these
/// answers, and which got this reply. It takes no memory. `docs/FORMATS.md`, "The input of `audit`", states the form.
pub fn record_line(
    name: &Name,
    op: &Name,
    object: &Name,
    answers: &[bool],
    reply: &Reply,
) -> ArrayVec<u8, LONGEST_RECORD>
    requires few { length answers.now ≤ 16 }
    requires due { (at : ℕ) × (v : Recorded) × Records reply.now at v }
    ensures written { (p at : ℕ) (v : Recorded) → Records reply.now at v
        → result.items ≡ ended (record_text name.now (record_of p op.now object.now at (Known answers.now) v)) }
    ensures named { IsName name.now × IsName op.now × IsName object.now }
{
    let mut line = ArrayVec::new();
    append_number(&mut line, point_of(reply));
    append_space(&mut line);
    append_name(&mut line, name);
    append_name(&mut line, op);
    append_name(&mut line, object);
    append_answers(&mut line, answers);
    append(&mut line, b" : ");
    append_told(&mut line, reply);
    append(&mut line, b"\n");
    line
}

/// The point of a reply that records something.
fn point_of(reply: &Reply) -> u64
    requires { (at : ℕ) × (v : Recorded) × Records reply.now at v }
    ensures { result ≡ point_of reply.now }
{
    match reply {
        Reply::Allowed { at, .. } => *at,
        Reply::Denied { at, .. } => *at,
        Reply::Refused { at, .. } => *at,
        Reply::Down { at, .. } => *at,
        _ => unreachable!(),
    }
}

/// Appends the words of what a reply records.
fn append_told(line: &mut Line, reply: &Reply)
    requires due { (at : ℕ) × (v : Recorded) × Records reply.now at v }
    requires room { length line.old.items + 69 ≤ 320 }
    ensures text { line.new.items ≡ line.old.items ++ told_words reply.now }
    ensures short { length line.new.items ≤ length line.old.items + 69 }
{
    match reply {
        Reply::Allowed { .. } => append(line, b"allowed"),
        Reply::Denied {
            cause,
            line: number,
            fault,
            ..
        } => append_denial(line, *cause, *number, *fault),
        Reply::Refused { .. } => append(line, b"refused NoSuchObject"),
        Reply::Down { line: number, .. } => append_down(line, *number),
        _ => unreachable!(),
    }
}

/// Appends that the authority of the ask line with this number was down.
fn append_down(line: &mut Line, number: u64)
    requires room { length line.old.items + 25 ≤ 320 }
    ensures text { line.new.items ≡ line.old.items ++ spaced (codes "down") (decimal number) }
    ensures short { length line.new.items ≤ length line.old.items + 25 }
{
    append(line, b"down ");
    append_number(line, number);
}

/// Appends that the call was denied for a cause that is told by its number, that of its line and that of its fault.
fn append_denial(line: &mut Line, cause: u64, number: u64, fault: u64)
    requires room { length line.old.items + 69 ≤ 320 }
    ensures text { line.new.items ≡ line.old.items ++ spaced (codes "denied") (cause_words cause number fault) }
    ensures short { length line.new.items ≤ length line.old.items + 69 }
{
    append(line, b"denied ");
    append_cause(line, cause);
    if cause > NO_PROOF {
        append_space(line);
        append_place(line, cause, number, fault);
    }
}

/// Appends the number of the line that a cause names, and the fault where the cause names one.
fn append_place(line: &mut Line, cause: u64, number: u64, fault: u64)
    requires room { length line.old.items + 41 ≤ 320 }
    ensures text { line.new.items ≡ line.old.items ++ place_text cause number fault }
    ensures short { length line.new.items ≤ length line.old.items + 41 }
{
    append_number(line, number);
    if cause == LINE {
        append_space(line);
        append_fault(line, fault);
    }
}

/// Appends the name of the cause with this number, or the number where there is none.
#[tactic(auto, using(crate::proofs::RecordWriting::short_cause))]
fn append_cause(line: &mut Line, cause: u64)
    requires room { length line.old.items + 20 ≤ 320 }
    ensures text { line.new.items ≡ line.old.items ++ named cause_names cause }
    ensures short { length line.new.items ≤ length line.old.items + 20 }
{
    match cause_name(cause) {
        Some(name) => append(line, name.as_bytes()),
        None => append_number(line, cause),
    }
}

/// Appends the name of the fault with this number, or the number where there is none.
#[tactic(auto, using(crate::proofs::RecordWriting::short_fault))]
fn append_fault(line: &mut Line, fault: u64)
    requires room { length line.old.items + 20 ≤ 320 }
    ensures text { line.new.items ≡ line.old.items ++ named fault_names fault }
    ensures short { length line.new.items ≤ length line.old.items + 20 }
{
    match fault_name(fault) {
        Some(name) => append(line, name.as_bytes()),
        None => append_number(line, fault),
    }
}

/// Appends a letter for each answer, or `-` where there is none.
fn append_answers(line: &mut Line, answers: &[bool])
    requires few { length answers.now ≤ 16 }
    requires room { length line.old.items + 16 ≤ 320 }
    ensures text { line.new.items ≡ line.old.items ++ given_text answers.now }
    ensures short { length line.new.items ≤ length line.old.items + 16 }
{
    if answers.is_empty() {
        append(line, b"-");
    } else {
        append_letters(line, answers);
    }
}

/// Appends a letter for each answer, for which there is room.
fn append_letters(line: &mut Line, answers: &[bool])
    requires room { length line.old.items + length answers.now ≤ 320 }
    ensures text { line.new.items ≡ line.old.items ++ map answer_letter answers.now }
{
    for answer in answers {
        line.push(letter_of(*answer));
    }
}

/// The letter of an answer.
fn letter_of(answer: bool) -> u8
    ensures { result ≡ answer_letter answer }
{
    if answer { b'y' } else { b'n' }
}

/// Appends a name and a space.
fn append_name(line: &mut Line, name: &Name)
    requires room { length line.old.items + 65 ≤ 320 }
    ensures text { line.new.items ≡ line.old.items ++ spaced name.now [] }
    ensures short { length line.new.items ≤ length line.old.items + 65 }
    ensures named { IsName name.now }
{
    append(line, name.as_slice());
    append_space(line);
}

/// Appends a number in decimal digits.
fn append_number(line: &mut Line, number: u64)
    requires room { length line.old.items + 20 ≤ 320 }
    ensures text { line.new.items ≡ line.old.items ++ decimal number }
    ensures short { length line.new.items ≤ length line.old.items + 20 }
{
    append(line, Buffer::new().format(number).as_bytes());
}

/// Appends a space.
fn append_space(line: &mut Line)
    requires room { length line.old.items < 320 }
    ensures text { line.new.items ≡ line.old.items ++ codes " " }
    ensures short { length line.new.items ≡ length line.old.items + 1 }
{
    line.push(b' ');
}

/// Appends bytes for which there is room.
fn append(line: &mut Line, bytes: &[u8])
    requires room { length line.old.items + length bytes.now ≤ 320 }
    ensures text { line.new.items ≡ line.old.items ++ bytes.now }
    ensures long { length line.new.items ≡ length line.old.items + length bytes.now }
{
    match line.try_extend_from_slice(bytes) {
        Ok(()) => {}
        Err(_) => unreachable!(),
    }
}
