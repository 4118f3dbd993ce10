//! Each form of a request's line with neighbours that have none, and the texts in requests.
use crate::tables::{holds, number, text_of};
use journal_text::{LineError, event_of, read_request};
use nal_parse::{print_formula, print_term};
use nal_term::{Formula, Term};
use nx_io::Bytes;
use policy_history::Event;
use proof_lines::Proof;
use proof_text::print_proof;
use session_wire::Request;
use std::alloc::{AllocError, Global};

fn form_of(request: &Request) -> &'static str {
    match request {
        Request::Hello { .. } => "Hello",
        Request::Say { .. } => "Say",
        Request::Transfer { .. } => "Transfer",
        Request::Delete { .. } => "Delete",
        Request::NewObject { .. } => "NewObject",
        Request::SetGoal { .. } => "SetGoal",
        Request::ClearGoal { .. } => "ClearGoal",
        Request::SetProof { .. } => "SetProof",
        Request::ClearProof { .. } => "ClearProof",
        Request::Bind { .. } => "Bind",
        Request::Unbind { .. } => "Unbind",
        Request::Call { .. } => "Call",
        Request::See { .. } => "See",
    }
}

/// The form of the request that a line is read as, or why it is not read.
pub fn form_read(alloc: Global, line: &[u8]) -> &'static str {
    match read_request(alloc, line) {
        Ok(request) => {
            let form = form_of(&request);
            drop(request);
            form
        }
        Err(LineError::Bad) => "Bad",
        Err(LineError::Memory) => "Memory",
    }
}

/// The bytes of the line that says so many letters, and the form as which it is read.
pub fn long_form(alloc: Global, letters: &str) -> Result<String, AllocError> {
    let mut line = String::from_str(alloc, "say a : ")?;
    for _ in 0..number(letters) {
        line.push('x')?;
    }
    format!(in alloc; "{} {}", line.len(), form_read(alloc, line.as_bytes()))
}

fn formula_shown(alloc: Global, formula: &Option<Formula>) -> Result<Bytes, AllocError> {
    match formula {
        Some(formula) => print_formula(alloc, formula),
        None => Bytes::of(alloc, b"-"),
    }
}

fn term_shown(alloc: Global, term: &Option<Term>) -> Result<Bytes, AllocError> {
    match term {
        Some(term) => print_term(alloc, term),
        None => Bytes::of(alloc, b"-"),
    }
}

fn proof_shown(alloc: Global, proof: &Option<Proof>) -> Result<Bytes, AllocError> {
    match proof {
        Some(proof) => print_proof(alloc, proof),
        None => Bytes::of(alloc, b"-"),
    }
}

// What the last text of an event spells: its canonical text, and a dash where it spells nothing.
fn event_shown(alloc: Global, event: &Event) -> Result<Bytes, AllocError> {
    match event {
        Event::Say { formula, .. } => formula_shown(alloc, formula),
        Event::SetGoal { goal, .. } => formula_shown(alloc, goal),
        Event::SetProof { proof, .. } => proof_shown(alloc, proof),
        Event::Bind { principal, .. } | Event::Unbind { principal } => term_shown(alloc, principal),
        _ => Bytes::of(alloc, b"-"),
    }
}

fn request_shown(alloc: Global, request: &Request) -> Result<Bytes, AllocError> {
    match event_of(alloc, request) {
        Ok(Some(event)) => {
            let shown = event_shown(alloc, &event);
            drop(event);
            shown
        }
        Ok(None) => Bytes::of(alloc, b"no event"),
        Err(AllocError) => Err(AllocError),
    }
}

/// What the last text of a line spells.
pub fn spelled(alloc: Global, line: &str) -> Result<String, AllocError> {
    match read_request(alloc, line.as_bytes()) {
        Ok(request) => {
            let shown = request_shown(alloc, &request);
            drop(request);
            text_of(alloc, shown?.as_slice())
        }
        Err(_) => String::from_str(alloc, "Bad"),
    }
}

// Each line is read as a form, so many letters are said in a line of so many bytes, and the last text of a line spells a text.
const TABLE: &str = "form: each form is read and its neighbours are bad
hello bob pw -> Hello
hello bob ~!: -> Hello
hello bob  pw -> Bad
hello bob -> Bad
hello says pw -> Bad
say alice : ok -> Say
say alice.x :  a => b  -> Say
say a\t.b :  -> Say
say ( : c : d -> Say
say alice : -> Bad
say alice: ok -> Bad
say a b : F -> Bad
say  : F -> Bad
say -> Bad
transfer 0 bob -> Transfer
transfer 01 bob -> Bad
transfer 18446744073709551616 bob -> Bad
transfer bob 0 -> Bad
delete 18446744073709551615 -> Delete
delete -1 -> Bad
delete  -> Bad
object f -> NewObject
object f  -> Bad
object not -> Bad
goal read f : fs says ok -> SetGoal
goal read f : ( -> SetGoal
goal read f :   -> SetGoal
goal read f fs says ok -> Bad
goal read : f -> Bad
nogoal read f -> ClearGoal
nogoal read f : ok -> Bad
proof read f : proof 1 -> SetProof
proof read 1 : proof 1 -> Bad
noproof read f -> ClearProof
noproof read -> Bad
bind ntp.a 1 -> Bind
bind ntp 99 -> Bind
bind ntp -> Bad
bind ntp  1 -> Bad
unbind ntp -> Unbind
unbind ntp 1 -> Bad
unbind  -> Bad
call read f 7 -> Call
call read f -> Bad
call read f 0  -> Bad
call write f 7x -> Bad
Call read f 0 -> Bad
see 0 -> See
see 18446744073709551615 -> See
see 18446744073709551616 -> Bad
see 01 -> Bad
see  -> Bad
see 1 2 -> Bad
calls read f 0 -> Bad
 call read f 0 -> Bad
 -> Bad

long form: a line has at most 33700 bytes
33692 -> 33700 Say
33693 -> 33701 Bad

spelled: texts are replaced by what they spell
hello bob pw -> no event
call read f 0 -> no event
see 7 -> no event
say alice : not(a and b)or c=>d -> (a and b => false) or c => d
goal read f :  not(a and b)or c=>d -> (a and b => false) or c => d
say alice : p(18446744073709551615) -> p(18446744073709551615)
say alice : p(18446744073709551616) -> -
goal read f : p(18446744073709551616) -> -
say alice : alice says -> -
goal read f : alice says -> -
say alice : p(1, 2, 3, 4, 5, 6, 7, 8, 9) -> -
goal read f : p(1, 2, 3, 4, 5, 6, 7, 8, 9) -> -
say alice : ((((((((((((((((((((((((((((((((((((((((((((((((((((((((((((((((( -> -
say alice :  -> -
proof read f : proof 1;1 label:alice says ok;end -> proof 2 ; 1 label : alice says ok ; end
proof read f : proof 1 ; end -> -
bind ntp.\ta 99 -> ntp.a
bind ntp. 1 -> -
unbind ntp.a -> ntp.a
unbind (ntp) -> -";

#[test]
fn lines_are_read_as_their_forms_and_texts(rt: HostRuntime) -> Result<(), AllocError> {
    holds(&rt, rt.alloc(), TABLE)
}
