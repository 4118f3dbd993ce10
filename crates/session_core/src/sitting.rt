//! A session over a link: frames are taken and answered one after another, whoever answers them.
ghost use Rattle.std.specs.Prelude.{◌≡◌, ◌≤◌, [], false, true};
ghost use Rattle.nx_io.specs.Links.{KeepsComing, KeepsGoing};
ghost use Rattle.nx_io.specs.Views.{HasTaken, IsSameLink};
ghost use Rattle.session_core.specs.Ends.{faults_after_end, is_over};
ghost use Rattle.session_core.specs.Inner.Serving.{IsSent, faults_after_sending};
ghost use Rattle.session_core.specs.Inner.Sittings.{HasSat, IsTurnOf, TellsMore};
ghost use Rattle.session_wire.specs.declared.replies.Reply.TheVariants.{NoMemory};

use crate::ends::SessionEnd;
use nx_io::{Link, Reach, send_whole};
use session_wire::{FrameReader, Framed, Reply, Request, write_reply};
use std::alloc::Global;

/// How many requests a session answers at most.
const MOST_REQUESTS: u64 = 1_048_576;

/// Who answers the requests of one session, over a runtime `R`, and over a book `B` and a panel `P` that are lent.
pub trait Sitting<R, B, P>: Sized {
    ghost use Rattle.std.specs.Prelude.{Bool, List};
    ghost use Rattle.session_wire.specs.declared.requests.Request.{Request};
    ghost use Rattle.session_wire.specs.declared.replies.Reply.{Reply};
    ghost use Rattle.session_wire.specs.Answers.{WantsMemory};

    /// It can answer.
    ghost ready: { Self → B → P → Type 0 };

    /// From the first of these states to the second, these requests were told these replies.
    ghost told: { Self → B → P → Self → B → P → List Request → List Reply → Type 0 };

    /// Whether it has admitted its peer.
    ghost admitted: { Self → Bool };

    /// Answers a request. Whoever is admitted stays so.
    fn answer(
        self,
        rt: &R,
        alloc: Global,
        request: &Request,
        book: &mut B,
        panel: &mut P,
    ) -> (Self, Reply)
        requires ready { ready self book.old panel.old }
        ensures ready { ready result.0 book.new panel.new }
        ensures told { (first : Self) (book_first : B) (panel_first : P)
            → TellsMore (told first book_first panel_first self book.old panel.old) (told first book_first
            panel_first result.0 book.new panel.new) request.now result.1 }
        ensures stays { admitted self ≡ true → admitted result.0 ≡ true };

    /// Gives a request up for which there was no memory to read it.
    fn give_up(self) -> Self
        ensures ready { (book : B) (panel : P) → ready self book panel → ready result book panel }
        ensures told { (first : Self) (book_first book : B) (panel_first panel : P) (request : Request)
            → WantsMemory request → TellsMore (told first book_first panel_first self book panel)
            (told first book_first panel_first result book panel) request NoMemory }
        ensures admitted { admitted result ≡ admitted self };

    /// Whether it has admitted its peer.
    fn is_admitted(&self) -> bool
        ensures { result ≡ admitted self.now };

    /// The reply to a request was sent.
    fn replied(&self, rt: &R);
}

/// Takes and answers the frames of a session, in which nothing was told yet. The link is open, and stays so. It is told that its peer
/// is admitted as soon as the sitting has admitted it, before the reply that says so is sent.
pub fn serve_sitting<R, B, P, S: Sitting<R, B, P> + Drop, L: Link>(
    rt: &R,
    alloc: Global,
    sitting: S,
    reader: &mut FrameReader,
    link: &mut L,
    book: &mut B,
    panel: &mut P,
) -> (S, SessionEnd)
    requires reader { reader.old ≡ 0 }
    requires taken { L.taken link.old ≡ [] }
    requires sent { L.sent link.old ≡ [] }
    requires over { L.over link.old ≡ false }
    requires is_open { L.closed link.old ≡ false }
    requires admitted { L.admitted link.old ≡ S.admitted sitting }
    requires ready { S.ready sitting book.old panel.old }
    requires told { S.told sitting book.old panel.old sitting book.old panel.old [] [] }
    ensures ready { S.ready result.0 book.new panel.new }
    ensures served { HasSat (S.told sitting book.old panel.old result.0 book.new panel.new) result.1 (L.taken
        link.new) (L.sent link.new) }
    ensures bytes { HasTaken L.Link link.old link.new }
    ensures over { L.over link.new ≡ is_over result.1 }
    ensures is_open { L.closed link.new ≡ false }
    ensures origin { IsSameLink L.Link link.old link.new }
    ensures admitted { L.admitted link.new ≡ S.admitted result.0 }
    ensures link_later { L.faults link.old ≤ L.faults link.new }
    ensures link_count { L.faults link.new ≡ faults_after_end result.1 (L.faults link.old) }
{
    let mut sitting = sitting;
    for _ in 0..MOST_REQUESTS {
        let framed = reader.next(link);
        let (next, end) = serve_framed(rt, alloc, sitting, &framed, link, book, panel);
        drop(framed);
        sitting = next;
        match end {
            None => {}
            Some(end) => return (sitting, end),
        }
    }
    (sitting, SessionEnd::Spent)
}

/// Answers what the reader gave. None where a request was answered, so that the session goes on.
fn serve_framed<R, B, P, S: Sitting<R, B, P>, L: Link>(
    rt: &R,
    alloc: Global,
    sitting: S,
    framed: &Framed,
    link: &mut L,
    book: &mut B,
    panel: &mut P,
) -> (S, Option<SessionEnd>)
    requires ready { S.ready sitting book.old panel.old }
    requires is_open { L.closed link.old ≡ false }
    requires admitted { L.admitted link.old ≡ S.admitted sitting }
    ensures ready { S.ready result.0 book.new panel.new }
    ensures is_open { L.closed link.new ≡ false }
    ensures admitted { L.admitted link.new ≡ S.admitted result.0 }
    ensures turn { (first : S) (book_first : B) (panel_first : P)
        → IsTurnOf framed.now (S.told first book_first panel_first sitting book.old panel.old) (S.told first
        book_first panel_first result.0 book.new panel.new) (L.sent link.old) (L.sent link.new) result.1 }
    ensures coming { KeepsComing (L.left link.old) (L.left link.new) (L.taken link.old) (L.taken link.new) (L.over
        link.old) (L.over link.new) }
    ensures origin { IsSameLink L.Link link.old link.new }
    ensures link_later { L.faults link.old ≤ L.faults link.new }
    ensures link_count { L.faults link.new ≡ faults_after_sending result.1 (L.faults link.old) }
{
    match framed {
        Framed::Request(request) => {
            let (sitting, reply) = sitting.answer(rt, alloc, request, book, panel);
            admit::<R, B, P, S, L>(&sitting, link);
            let end = send_reply(link, &reply);
            tell::<R, B, P, S>(rt, &sitting, &end);
            (sitting, end)
        }
        Framed::Memory => {
            let sitting = sitting.give_up();
            let end = send_reply(link, &Reply::NoMemory);
            tell::<R, B, P, S>(rt, &sitting, &end);
            (sitting, end)
        }
        Framed::Bad { place, .. } => {
            let end = match send_reply(link, &Reply::Bad { place: *place }) {
                None => Some(SessionEnd::BadFrame { place: *place }),
                fault => fault,
            };
            (sitting, end)
        }
        Framed::End => (sitting, Some(SessionEnd::Closed)),
        Framed::Torn => (sitting, Some(SessionEnd::Torn)),
        Framed::ReadFault => (sitting, Some(SessionEnd::ReadFault)),
    }
}

/// Tells the link that its peer is admitted, where the sitting has admitted it.
fn admit<R, B, P, S: Sitting<R, B, P>, L: Link>(sitting: &S, link: &mut L)
    requires stays { L.admitted link.old ≡ true → S.admitted sitting.now ≡ true }
    ensures admitted { L.admitted link.new ≡ S.admitted sitting.now }
    ensures coming { KeepsComing (L.left link.old) (L.left link.new) (L.taken link.old) (L.taken link.new) (L.over
        link.old) (L.over link.new) }
    ensures going { KeepsGoing (L.sent link.old) (L.sent link.new) (L.closed link.old) (L.closed link.new) }
    ensures origin { IsSameLink L.Link link.old link.new }
    ensures count { L.faults link.new ≡ L.faults link.old }
{
    if sitting.is_admitted() {
        link.admit();
    }
}

/// Tells the sitting that its reply was sent, unless that failed.
fn tell<R, B, P, S: Sitting<R, B, P>>(rt: &R, sitting: &S, end: &Option<SessionEnd>) {
    if end.is_none() {
        sitting.replied(rt);
    }
}

/// Sends a reply. What comes of it is the end of the session, where the link fails.
fn send_reply<L: Link>(link: &mut L, reply: &Reply) -> Option<SessionEnd>
    requires is_open { L.closed link.old ≡ false }
    ensures bytes { IsSent reply.now result (L.sent link.old) (L.sent link.new) }
    ensures is_open { L.closed link.new ≡ false }
    ensures coming { KeepsComing (L.left link.old) (L.left link.new) (L.taken link.old) (L.taken link.new) (L.over
        link.old) (L.over link.new) }
    ensures origin { IsSameLink L.Link link.old link.new }
    ensures admitted { L.admitted link.new ≡ L.admitted link.old }
    ensures later { L.faults link.old ≤ L.faults link.new }
    ensures count { L.faults link.new ≡ faults_after_sending result (L.faults link.old) }
{
    let mut frame = [0; 64];
    let count = write_reply(reply, &mut frame);
    match send_whole(link, &frame[..count]) {
        Reach::Ready => None,
        Reach::Failed => Some(SessionEnd::WriteFault),
    }
}
