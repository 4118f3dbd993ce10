//! The answer to one request, at the end of a journal and without a cache.
ghost use Rattle.std.specs.Prelude.{◌≡◌, ◌≢◌, ◌⊎◌, ◌≤◌, ◌<◌, length, IfSome, Some};
ghost use Rattle.nx_io.specs.Streams.{Grows};
ghost use Rattle.authority_ask.specs.PanelCalls.{HasOnlyAsked, asked_since};
ghost use Rattle.nal_rules.specs.Asking.{case_tree};
ghost use Rattle.policy_history.specs.Events.{admitted, event_tree};
ghost use Rattle.policy_history.specs.Values.{entry_trees};
ghost use Rattle.journal_text.specs.RequestEvents.{IsChange};
ghost use Rattle.session_core.specs.Answers.{HasOutcome, IsFrugal, found_reply, greeted, outcome_of, replied};
ghost use Rattle.session_core.specs.Inner.Steps.{IsCallReply, IsChanged, IsDecided, IsHello, IsJudgedReply};

use authority_ask::Panel;
use guard_core::{Finding, GuardError, judge};
use journal_text::{event_of, refusal_number};
use nal_rules::{Case, cause_numbers};
use nal_term::{Name, Secret};
use policy_history::{Event, Found, Journal};
use session_wire::{Reply, Request};
use std::alloc::Global;
use std::net::{Net, TcpListener, TcpStream};
use std::rt::Clock;

/// The number of the refusal of a request before a hello. `docs/FORMATS.md`, "Events and refusals", lists them.
const NOT_OPEN: u64 = 1;
/// That of a hello after one that was accepted.
const ALREADY_OPEN: u64 = 2;
/// That of a hello whose name and secret are nobody's.
const BAD_SECRET: u64 = 3;
/// That of a call of an object that is not there.
const NO_SUCH_OBJECT: u64 = 8;
/// That of a session that asks for a point to which it has not come.
const NOT_YET: u64 = 23;

/// A session over a journal: its number, and the number of the principal that is admitted in it, if one is.
#[derive(Clone, Copy, Debug, PartialEq, Eq)]
pub struct Session {
    pub number: u64,
    pub principal: Option<u32>,
}

impl Session {
    /// Answers one request at the end of the journal, without a cache: a hit and a value are always 0. An accepted change is
    /// added to the journal, a call is judged with the answers that authorities give to it, and nothing else changes.
    /// `docs/LOGIC.md`, "Sessions", states each answer.
    ///
    /// `NoMemory` comes only where somebody is admitted, and the request is neither a hello nor asks for a point. `Down` comes
    /// exactly where the panel failed in this call.
    pub fn answer<P: Panel, R: Net<Listener = TcpListener, Stream = TcpStream> + Clock>(
        &mut self,
        rt: &R,
        alloc: Global,
        journal: &mut Journal,
        request: &Request,
        panel: &mut P,
    ) -> Reply
        requires number { 1 ≤ self.old.number }
        requires principal { IfSome self.old.principal (λ p. p < length journal.old.head.principals) }
        ensures outcome { HasOutcome journal.old.head (entry_trees journal.old.entries) self.old.number
            self.old.principal request.now
            (outcome_of result self.new.principal (asked_since (P.history panel.old) (P.history panel.new))
            (entry_trees journal.old.entries) (entry_trees journal.new.entries)) }
        ensures memory { IsFrugal self.old.principal request.now → result ≢ Reply.NoMemory }
        ensures number { self.new.number ≡ self.old.number }
        ensures principal { IfSome self.new.principal (λ p. p < length journal.new.head.principals) }
        ensures head { journal.new.head ≡ journal.old.head }
        ensures grows { Grows (entry_trees journal.old.entries) (entry_trees journal.new.entries) }
        ensures asked { HasOnlyAsked (P.history panel.old) (P.history panel.new) }
    {
        match request {
            Request::Hello { name, secret } => self.open(journal, name, secret),
            _ => match self.principal {
                None => Reply::Refused {
                    at: journal.count(),
                    number: NOT_OPEN,
                },
                Some(principal) => {
                    serve(rt, alloc, journal, self.number, principal, request, panel)
                }
            },
        }
    }

    /// Answers a hello.
    fn open(&mut self, journal: &Journal, name: &Name, secret: &Secret) -> Reply
        requires { IfSome self.old.principal (λ p. p < length journal.now.head.principals) }
        ensures outcome { replied self.new.principal result
            ≡ greeted (length journal.now.entries) self.old.number self.old.principal
            (admitted journal.now.head.principals name.now secret.now) }
        ensures number { self.new.number ≡ self.old.number }
        ensures principal { IfSome self.new.principal (λ p. p < length journal.now.head.principals) }
    {
        let at = journal.count();
        if self.principal.is_some() {
            return Reply::Refused {
                at,
                number: ALREADY_OPEN,
            };
        }
        self.principal = journal.principal_of(name, secret);
        match self.principal {
            Some(_) => Reply::Welcome {
                session: self.number,
                at,
            },
            None => Reply::Refused {
                at,
                number: BAD_SECRET,
            },
        }
    }
}

/// Answers a request of an admitted principal that is no hello.
fn serve<P: Panel, R: Net<Listener = TcpListener, Stream = TcpStream> + Clock>(
    rt: &R,
    alloc: Global,
    journal: &mut Journal,
    session: u64,
    principal: u32,
    request: &Request,
    panel: &mut P,
) -> Reply
    requires principal { principal < length journal.old.head.principals }
    requires no_hello { ¬ IsHello request.now }
    ensures outcome { HasOutcome journal.old.head (entry_trees journal.old.entries) session (Some principal) request.now
        (outcome_of result (Some principal) (asked_since (P.history panel.old) (P.history panel.new))
        (entry_trees journal.old.entries) (entry_trees journal.new.entries)) }
    ensures head { journal.new.head ≡ journal.old.head }
    ensures grows { Grows (entry_trees journal.old.entries) (entry_trees journal.new.entries) }
    ensures asked { HasOnlyAsked (P.history panel.old) (P.history panel.new) }
{
    match request {
        Request::Call { op, object, .. } => call(rt, alloc, journal, principal, op, object, panel),
        Request::See { number } => seen_reply(journal.count(), *number),
        _ => change(alloc, journal, session, principal, request),
    }
}

/// The reply at a length of the journal to a session that asks whether it has come to another one.
pub(crate) fn seen_reply(at: u64, number: u64) -> Reply
    ensures { ((number ≤ at) × (result ≡ Reply.Seen at)) ⊎ ((at < number) × (result ≡ Reply.Refused at 23)) }
{
    if number <= at {
        Reply::Seen { at }
    } else {
        Reply::Refused {
            at,
            number: NOT_YET,
        }
    }
}

/// Answers a request for a change of the policy.
fn change(
    alloc: Global,
    journal: &mut Journal,
    session: u64,
    principal: u32,
    request: &Request,
) -> Reply
    requires principal { principal < length journal.old.head.principals }
    requires change { IsChange request.now }
    ensures outcome { IsChanged journal.old.head (entry_trees journal.old.entries) (entry_trees journal.new.entries)
        session principal request.now result }
    ensures head { journal.new.head ≡ journal.old.head }
{
    let Ok(found) = event_of(alloc, request) else {
        return Reply::NoMemory;
    };
    let Some(event) = found else {
        // A change has an event.
        unreachable!()
    };
    decide(journal, session, principal, event)
}

/// Adds the event to the journal, if it is accepted.
fn decide(journal: &mut Journal, session: u64, principal: u32, event: Event) -> Reply
    requires { principal < length journal.old.head.principals }
    ensures outcome { IsDecided journal.old.head (entry_trees journal.old.entries) (entry_trees journal.new.entries)
        session principal (event_tree event) result }
    ensures head { journal.new.head ≡ journal.old.head }
{
    let at = journal.count();
    match journal.decide(session, principal, &event) {
        Err(refusal) => {
            drop(event);
            Reply::Refused {
                at,
                number: refusal_number(refusal),
            }
        }
        Ok(_) => {
            let Ok(spare) = journal.reserve(&event) else {
                drop(event);
                return Reply::NoMemory;
            };
            let due = journal.append(session, principal, event, spare);
            Reply::Done {
                at: at + 1,
                number: due.number,
            }
        }
    }
}

/// Answers a call.
fn call<P: Panel, R: Net<Listener = TcpListener, Stream = TcpStream> + Clock>(
    rt: &R,
    alloc: Global,
    journal: &Journal,
    principal: u32,
    op: &Name,
    object: &Name,
    panel: &mut P,
) -> Reply
    requires { principal < length journal.now.head.principals }
    ensures outcome { IsCallReply journal.now.head (entry_trees journal.now.entries) principal op.now object.now
        (asked_since (P.history panel.old) (P.history panel.new)) result }
    ensures asked { HasOnlyAsked (P.history panel.old) (P.history panel.new) }
{
    let at = journal.count();
    match journal.case_of(alloc, principal, op, object) {
        Ok(Found::Case { case, .. }) => judged(rt, alloc, at, &case, panel),
        Ok(Found::NoObject) => Reply::Refused {
            at,
            number: NO_SUCH_OBJECT,
        },
        Err(_) => Reply::NoMemory,
    }
}

/// Answers a call by its case.
fn judged<P: Panel, R: Net<Listener = TcpListener, Stream = TcpStream> + Clock>(
    rt: &R,
    alloc: Global,
    at: u64,
    case: &Case,
    panel: &mut P,
) -> Reply
    ensures outcome { IsJudgedReply at (case_tree case.now)
        (asked_since (P.history panel.old) (P.history panel.new)) result }
    ensures asked { HasOnlyAsked (P.history panel.old) (P.history panel.new) }
{
    match judge(rt, alloc, case, panel) {
        Ok(finding) => found_reply(at, &finding),
        Err(GuardError::Down { line }) => Reply::Down { at, line },
        Err(GuardError::Memory) => Reply::NoMemory,
    }
}

/// The reply that a finding of the guard is, without the value of a step.
pub(crate) fn found_reply(at: u64, finding: &Finding) -> Reply
    ensures { result ≡ found_reply at finding.now }
{
    match finding {
        Finding::Allowed { .. } => Reply::Allowed {
            at,
            hit: 0,
            value: 0,
        },
        Finding::Denied(cause) => {
            let (cause, line, fault) = cause_numbers(cause);
            Reply::Denied {
                at,
                cause,
                line,
                fault,
            }
        }
    }
}
