//! A session over a link and the shared board.
ghost use Rattle.std.specs.Prelude.{◌≡◌, ◌≢◌, ◌≤◌, [], false, true, length, All};
ghost use Rattle.std.specs.Option.{is_some};
ghost use Rattle.nx_io.specs.Views.{HasTaken, IsSameLink};
ghost use Rattle.nx_io.specs.Streams.{MayRise};
ghost use Rattle.authority_ask.specs.PanelCalls.{HasOnlyAsked, asked_since};
ghost use Rattle.policy_history.specs.Values.{entry_trees};
ghost use Rattle.verdict_words.specs.Histories.{IsPrefix};
ghost use Rattle.session_core.specs.Ends.{faults_after_end, is_over};
ghost use Rattle.session_core.specs.Served.{IsServedOver};
ghost use Rattle.session_core.specs.Inner.Boarding.{HasGone, IsReady, who_of};
ghost use Rattle.session_core.specs.Inner.Sittings.{HasSat};

use crate::board_session::{Beside, BoardSession};
use crate::ends::SessionEnd;
use crate::known::Known;
use crate::records::RecordKeeper;
use crate::sitting::{Sitting, serve_sitting};
use authority_ask::Panel;
use nx_io::{Gate, Link, Place, Sink};
use policy_book::{BookAccess, NalMatter};
use session_wire::{FrameReader, Reply, Request};
use std::alloc::{AllocError, Global};
use std::mem;
use std::net::{Net, TcpListener, TcpStream};
use std::rt::Clock;
use verdict_words::Pass;

/// What is reported of a session over the shared board.
#[derive(Drop)]
pub struct Report<L> {
    pub session: u64,
    /// Who was admitted in it, if anybody was.
    pub principal: Option<u32>,
    pub link: L,
    pub pass: Pass<NalMatter>,
    pub end: SessionEnd,
}

/// A session, with what it shares with others, and with the records of its worker.
#[derive(Drop)]
pub struct Sharing<'a, G: Gate, C: Sink> {
    pub session: BoardSession,
    pub beside: &'a Beside<'a, G>,
    pub records: RecordKeeper<C>,
}

impl<
    'a,
    B: BookAccess,
    C: Sink + Drop,
    G: Gate,
    P: Panel,
    R: Net<Listener = TcpListener, Stream = TcpStream> + Clock,
> Sitting<R, B, P> for Sharing<'a, G, C> {
    ghost use Rattle.session_core.specs.Inner.Boarding.{IsReady, HasGone, who_of};
    ghost use Rattle.std.specs.Prelude.{◌≡◌};
    ghost use Rattle.std.specs.Option.{is_some};

    ghost ready = { λ s book panel. (B.board book ≡ s.beside.now.board.now) × IsReady s.beside.now.board.now s.session };

    ghost told = { λ first book_first panel_first s book panel requests replies.
        HasGone first.session s.session (P.history panel_first) (P.history panel) (B.unrecorded book_first) (B.unrecorded book)
        first.records s.records requests replies };

    ghost admitted = { λ s. is_some (who_of s.session) };

    fn answer(
        self,
        rt: &R,
        alloc: Global,
        request: &Request,
        book: &mut B,
        panel: &mut P,
    ) -> (Self, Reply) {
        let Sharing {
            session,
            beside,
            records,
        } = self;
        let mut records = records;
        let (session, reply) = session.answer(
            rt,
            alloc,
            beside,
            book,
            request,
            panel,
            &mut records,
        );
        let sharing = Sharing {
            session,
            beside,
            records,
        };
        (sharing, reply)
    }

    fn give_up(self) -> Self {
        self
    }

    fn is_admitted(&self) -> bool {
        self.session.principal().is_some()
    }

    fn replied(&self, rt: &R) {
        let session = self.session.pass.session();
        let principal = self.session.principal();
        let place = Place::Answered { session, principal };
        self.beside.gate.at(rt, place);
    }
}

/// Serves one session over a link and the shared board, and closes the link. Frames are taken and answered one after another,
/// and each reply is sent before a byte of the next frame is taken. A call on a case that the session knows looks for its
/// verdict on the board alone; the book is reached for a snapshot or a change. `docs/LOGIC.md`, "Sessions over a board", states each
/// answer.
///
/// The ends are those of `serve_on`. The report has the number and the principal of the session, how it ended, and its link
/// and pass. The link is told that its peer is admitted exactly where a hello is welcomed.
///
/// The record of each call is sent before its reply, where records are wanted. Where one can't be sent whole, its call is refused, and so
/// is each later one that these records are lent to.
pub fn serve_link<
    L: Link,
    P: Panel,
    B: BookAccess,
    C: Sink + Drop,
    G: Gate,
    R: Net<Listener = TcpListener, Stream = TcpStream> + Clock,
>(
    rt: &R,
    alloc: Global,
    beside: &Beside<G>,
    book: &mut B,
    pass: Pass<NalMatter>,
    link: L,
    panel: &mut P,
    records: &mut RecordKeeper<C>,
) -> Report<L>
    requires named { B.board book.old ≡ beside.now.board.now }
    requires board { pass.board ≡ beside.now.board.now }
    requires trail { pass.trail ≡ [] }
    requires unused { All (λ entry. entry.session ≢ pass.session) pass.seen }
    requires taken { L.taken link ≡ [] }
    requires sent { L.sent link ≡ [] }
    requires over { L.over link ≡ false }
    requires closed { L.closed link ≡ false }
    requires admitted { L.admitted link ≡ false }
    ensures told { IsServedOver beside.now.board.now.origin.setting
        (length beside.now.board.now.origin.opening) (record {
          session = result.session;
          end = result.end;
          who = result.principal;
          taken = L.taken result.link;
          sent = L.sent result.link;
          seen = entry_trees result.pass.seen;
          trail = result.pass.trail;
        }) (asked_since (P.history panel.old) (P.history panel.new)) (B.unrecorded book.old) (B.unrecorded book.new)
        records.old records.new }
    ensures session { (result.session ≡ pass.session) × (result.pass.session ≡ pass.session) }
    ensures board { result.pass.board ≡ beside.now.board.now }
    ensures seen { IsPrefix pass.seen result.pass.seen }
    ensures known { IsPrefix pass.known result.pass.known }
    ensures bytes { HasTaken L.Link link result.link }
    ensures over { L.over result.link ≡ is_over result.end }
    ensures closed { L.closed result.link ≡ true }
    ensures origin { IsSameLink L.Link link result.link }
    ensures admitted { L.admitted result.link ≡ is_some result.principal }
    ensures link_later { L.faults link ≤ L.faults result.link }
    ensures link_count { MayRise (faults_after_end result.end (L.faults link)) (L.faults result.link) }
    ensures asked { HasOnlyAsked (P.history panel.old) (P.history panel.new) }
    ensures book { B.board book.new ≡ B.board book.old }
{
    let mut link = link;
    let pass = book.meet(pass);
    let _at = pass.at();
    let number = pass.session();
    let session = BoardSession {
        pass,
        admitted: None,
        known: Known::new(alloc),
    };
    let (session, end) = sit(rt, alloc, beside, book, session, &mut link, panel, records);
    link.close();
    let principal = session.principal();
    Report {
        session: number,
        principal,
        link,
        pass: session.pass,
        end,
    }
}

/// Takes and answers the frames of a session, in which nothing was told yet.
fn sit<
    L: Link,
    P: Panel,
    B: BookAccess,
    C: Sink + Drop,
    G: Gate,
    R: Net<Listener = TcpListener, Stream = TcpStream> + Clock,
>(
    rt: &R,
    alloc: Global,
    beside: &Beside<G>,
    book: &mut B,
    session: BoardSession,
    link: &mut L,
    panel: &mut P,
    records: &mut RecordKeeper<C>,
) -> (BoardSession, SessionEnd)
    requires named { B.board book.old ≡ beside.now.board.now }
    requires ready { IsReady beside.now.board.now session }
    requires taken { L.taken link.old ≡ [] }
    requires sent { L.sent link.old ≡ [] }
    requires over { L.over link.old ≡ false }
    requires is_open { L.closed link.old ≡ false }
    requires admitted { L.admitted link.old ≡ is_some (who_of session) }
    ensures ready { IsReady beside.now.board.now result.0 }
    ensures sat { HasSat (HasGone session result.0 (P.history panel.old) (P.history panel.new)
        (B.unrecorded book.old) (B.unrecorded book.new) records.old records.new)
        result.1 (L.taken link.new) (L.sent link.new) }
    ensures book { B.board book.new ≡ beside.now.board.now }
    ensures bytes { HasTaken L.Link link.old link.new }
    ensures over { L.over link.new ≡ is_over result.1 }
    ensures is_open { L.closed link.new ≡ false }
    ensures origin { IsSameLink L.Link link.old link.new }
    ensures admitted { L.admitted link.new ≡ is_some (who_of result.0) }
    ensures link_later { L.faults link.old ≤ L.faults link.new }
    ensures link_count { L.faults link.new ≡ faults_after_end result.1 (L.faults link.old) }
{
    match FrameReader::new(alloc) {
        Ok(mut reader) => {
            let sharing = Sharing {
                session,
                beside,
                records: mem::replace(records, RecordKeeper::nobody()),
            };
            let (sharing, end) = serve_sitting(rt, alloc, sharing, &mut reader, link, book, panel);
            let Sharing {
                session,
                records: kept,
                ..
            } = sharing;
            *records = kept;
            (session, end)
        }
        Err(AllocError) => (session, SessionEnd::Memory),
    }
}
