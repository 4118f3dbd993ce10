//! A session over the shared board: what each request is answered, with verdicts that are kept.
ghost use Rattle.std.specs.Prelude.{◌≡◌, ◌∷◌, [], List, Some, None, true};
ghost use Rattle.authority_ask.specs.PanelCalls.{HasOnlyAsked, asked_since};
ghost use Rattle.authority_ask.specs.Panels.{Told};
ghost use Rattle.session_wire.specs.Answers.{WantsMemory};
ghost use Rattle.session_wire.specs.declared.requests.Request.TheVariants.{Hello, Call, See};
ghost use Rattle.session_core.specs.Records.{IsCall, IsNoted, IsNotRecorded, Kept};
ghost use Rattle.session_core.specs.Served.{AreCounted};
ghost use Rattle.session_core.specs.Inner.Boarding.{IsReady, IsTurn, head_of, reply_of, who_of};
ghost use Rattle.session_core.specs.Inner.Steps.{IsHello};

use crate::answers::seen_reply;
use crate::known::Known;
use crate::records::RecordKeeper;
use authority_ask::Panel;
use journal_text::{event_of, policy_line, refusal_number};
use nal_term::{Name, Secret};
use nx_io::{Gate, Sink};
use policy_book::{BookAccess, NalMatter, Written};
use session_wire::{Reply, Request};
use std::alloc::Global;
use std::net::{Net, TcpListener, TcpStream};
use std::rt::Clock;
use verdict_words::{Board, Pass};

/// The number of the refusal of a request before a hello. `docs/FORMATS.md`, "Events and refusals", lists them.
pub const NOT_OPEN: u64 = 1;
/// That of a hello after one that was accepted.
const ALREADY_OPEN: u64 = 2;
/// That of a hello whose name and secret are nobody's.
const BAD_SECRET: u64 = 3;

/// Who is admitted in a session: the number of the principal, and its name.
#[derive(Drop)]
pub struct Admitted {
    pub number: u32,
    pub name: Name,
}

/// What sessions that run beside each other share.
#[derive(Drop)]
pub struct Beside<'a, G: Gate> {
    pub board: &'a Board<NalMatter>,
    /// Where a session stops to let others go on, in tests.
    pub gate: &'a G,
}

/// A session over the shared board: its pass, who is admitted in it, and the cases that it knows.
#[derive(Drop)]
pub struct BoardSession {
    pub pass: Pass<NalMatter>,
    pub admitted: Option<Admitted>,
    pub known: Known,
}

impl BoardSession {
    /// The number of the principal that is admitted, if one is.
    pub fn principal(&self) -> Option<u32>
        ensures { result ≡ who_of self.now }
    {
        match &self.admitted {
            Some(who) => Some(who.number),
            None => None,
        }
    }

    /// Answers one request.
    pub fn answer<
        B: BookAccess,
        G: Gate,
        P: Panel,
        C: Sink,
        R: Net<Listener = TcpListener, Stream = TcpStream> + Clock,
    >(
        self,
        rt: &R,
        alloc: Global,
        beside: &Beside<G>,
        book: &mut B,
        request: &Request,
        panel: &mut P,
        records: &mut RecordKeeper<C>,
    ) -> (BoardSession, Reply)
        requires named { B.board book.old ≡ beside.now.board.now }
        requires ready { IsReady beside.now.board.now self }
        ensures ready { IsReady beside.now.board.now result.0 }
        ensures turn { IsTurn self result.0 (asked_since (P.history panel.old) (P.history panel.new))
            request.now result.1 }
        ensures asked { HasOnlyAsked (P.history panel.old) (P.history panel.new) }
        ensures noted { IsNoted (head_of self) (who_of self) request.now result.1
            (asked_since (P.history panel.old) (P.history panel.new)) records.old records.new }
        ensures idle { IsCall request.now → records.old.broken ≡ true
            → (result.0 ≡ self) × (asked_since (P.history panel.old) (P.history panel.new) ≡ []) }
        ensures book { B.board book.new ≡ B.board book.old }
        ensures counted { AreCounted (B.unrecorded book.old) (B.unrecorded book.new)
            (request.now ∷ []) (result.1 ∷ []) }
    {
        match request {
            Request::Hello { name, secret } => self.open(alloc, book, name, secret),
            Request::Call { op, object, arg } => {
                let arg = *arg;
                self.call(rt, alloc, beside, book, op, object, arg, panel, records)
            }
            Request::See { number } => self.see(book, *number),
            _ => self.change(alloc, book, request),
        }
    }

    /// Answers a hello.
    pub fn open<B: BookAccess>(
        self,
        alloc: Global,
        book: &mut B,
        name: &Name,
        secret: &Secret,
    ) -> (BoardSession, Reply)
        requires ready { IsReady (B.board book.old) self }
        ensures ready { IsReady (B.board book.old) result.0 }
        ensures turn { IsTurn self result.0 [] (Hello name.now secret.now) result.1 }
        ensures recorded { ¬ IsNotRecorded result.1 }
        ensures noted { (asks : List Told) (kept : Kept) → IsNoted (head_of self) (who_of self)
            (Hello name.now secret.now) result.1 asks kept kept }
        ensures book { (B.board book.new ≡ B.board book.old) × (B.unrecorded book.new ≡ B.unrecorded book.old) }
    {
        let at = self.pass.at();
        if let Some(_) = self.principal() {
            let number = ALREADY_OPEN;
            return (self, Reply::Refused { at, number });
        }
        let found = book.admit(name, secret);
        let Some(number) = found else {
            let number = BAD_SECRET;
            return (self, Reply::Refused { at, number });
        };
        let Ok(name) = name.copy(alloc) else {
            return (self, Reply::NoMemory);
        };
        let session = self.pass.session();
        let BoardSession { pass, known, .. } = self;
        let admitted = Some(Admitted { number, name });
        let opened = BoardSession {
            pass,
            admitted,
            known,
        };
        (opened, Reply::Welcome { session, at })
    }

    /// Answers whether the session has come to a point, behind a meeting with the end of the journal. It takes no memory.
    pub fn see<B: BookAccess>(self, book: &mut B, number: u64) -> (BoardSession, Reply)
        requires ready { IsReady (B.board book.old) self }
        ensures ready { IsReady (B.board book.old) result.0 }
        ensures turn { IsTurn self result.0 [] (See number) result.1 }
        ensures recorded { ¬ IsNotRecorded result.1 }
        ensures noted { (asks : List Told) (kept : Kept) → IsNoted (head_of self) (who_of self) (See number) result.1
            asks kept kept }
        ensures book { (B.board book.new ≡ B.board book.old) × (B.unrecorded book.new ≡ B.unrecorded book.old) }
    {
        let Some(_) = &self.admitted else {
            let at = self.pass.at();
            let number = NOT_OPEN;
            return (self, Reply::Refused { at, number });
        };
        let BoardSession {
            pass,
            admitted,
            known,
        } = self;
        let pass = book.meet(pass);
        let reply = seen_reply(pass.at(), number);
        let session = BoardSession {
            pass,
            admitted,
            known,
        };
        (session, reply)
    }

    /// Answers a request for a change. It is parsed, and its line printed, before the book is reached.
    pub fn change<B: BookAccess>(
        self,
        alloc: Global,
        book: &mut B,
        request: &Request,
    ) -> (BoardSession, Reply)
        requires ready { IsReady (B.board book.old) self }
        requires no_hello { ¬ IsHello request.now }
        requires no_call { ¬ IsCall request.now }
        requires wants { WantsMemory request.now }
        ensures ready { IsReady (B.board book.old) result.0 }
        ensures turn { IsTurn self result.0 [] request.now result.1 }
        ensures noted { (asks : List Told) (kept : Kept) → IsNoted (head_of self) (who_of self) request.now result.1
            asks kept kept }
        ensures book { B.board book.new ≡ B.board book.old }
        ensures counted { AreCounted (B.unrecorded book.old) (B.unrecorded book.new)
            (request.now ∷ []) (result.1 ∷ []) }
    {
        let Some(who) = &self.admitted else {
            let at = self.pass.at();
            let number = NOT_OPEN;
            return (self, Reply::Refused { at, number });
        };
        let number = who.number;
        let Ok(Some(event)) = event_of(alloc, request) else {
            return (self, Reply::NoMemory);
        };
        let session = self.pass.session();
        let Ok(line) = policy_line(alloc, session, &who.name, &event) else {
            drop(event);
            return (self, Reply::NoMemory);
        };
        let BoardSession {
            pass,
            admitted,
            known,
        } = self;
        let (pass, written) = book.write(pass, number, event, line.as_slice());
        let session = BoardSession {
            pass,
            admitted,
            known,
        };
        (session, written_reply(written))
    }
}

/// The reply that tells what became of a change.
fn written_reply(written: Written) -> Reply
    ensures { result ≡ reply_of written }
{
    match written {
        Written::Done { at, number } => Reply::Done { at, number },
        Written::Refused { at, refusal } => Reply::Refused {
            at,
            number: refusal_number(refusal),
        },
        Written::NoMemory => Reply::NoMemory,
    }
}
