//! A worker: it serves the links of its door, one after another.
ghost use Rattle.std.specs.Prelude.{◌≡◌, ◌<◌, ◌+◌, ◌++◌, ◌∷◌, [], length, All, Some, true, false};
ghost use Rattle.nx_io.specs.Views.{door_view, link_view};
ghost use Rattle.std.specs.Vec.{vec_capacity, vec_len};
ghost use Rattle.nexus_serve.specs.Means.{means_history};
ghost use Rattle.nexus_serve.specs.declared.means.Means.{Means};
ghost use Rattle.nexus_serve.specs.Inner.Working.{IsDone, IsHired, IsStopped, IsUnused, IsWorking, WorkerValue, WorksOn};

use crate::means::Means;
use crate::reporting::ServedSession;
use authority_ask::Panel;
use nx_io::{Door, Gate, Next, Sink};
use policy_book::{BookAccess, BookNaming, LockedBook, NalMatter, SharedBook};
use session_core::{Beside, Report, serve_link};
use std::alloc::Global;
use std::marker::Model;
use std::net::{Net, TcpListener, TcpStream};
use std::rt::Clock;
use std::sync::Wait;
use std::sync::ledger::{Ledger, Share};
use verdict_words::{Board, Pass, Roll};

/// A worker: the number of its first session, its door and its means, the roll of the passes that it has not used, what is reported
/// of its sessions, with their passes, whether its door has failed, whether there was no memory for one more report, and its share of
/// the ledger that counts the changes that were not recorded.
#[derive(Drop)]
pub struct Worker<D: Door, P: Panel, C: Sink, T: Ledger> {
    pub first: u64,
    pub door: D,
    pub means: Means<P, C>,
    pub roll: Roll<NalMatter>,
    pub sessions: Vec<ServedSession<D::Link>>,
    pub used: Vec<Pass<NalMatter>>,
    pub has_failed: bool,
    pub lacks_room: bool,
    pub mark: Share<T>,
}

impl<D: Door, P: Panel, C: Sink, T: Ledger> Model for Worker<D, P, C, T> {
    ghost use Rattle.std.specs.Prelude.{◌≡◌, length, map};
    ghost use Rattle.std.specs.Coded.{codes};
    ghost use Rattle.nal_term.specs.contracts.terms.Term as t;
    ghost use Rattle.nal_term.specs.contracts.formulas.Formula as f;
    ghost use Rattle.nx_io.specs.Views.{door_view, link_view};
    ghost use Rattle.nexus_serve.specs.Views.{joined, session_view};
    ghost use Rattle.nexus_serve.specs.Inner.Working.{WorkerValue};
    ghost use Rattle.nexus_serve.specs.declared.means.Means.{Means};

    ghost Value = { WorkerValue (Means P C) };

    ghost coded = { Prim.hlevel (codes, t.the_row.coded, f.the_row.coded) };

    ghost view = { λ w. record {
      first = w.first;
      door = door_view D.Door D.Link.Link w.door;
      means = w.means;
      passes = w.roll;
      reports = joined (map (session_view (link_view D.Link.Link)) w.sessions.items) w.used.items;
      has_failed = w.has_failed;
      lacks_room = w.lacks_room;
      parts = w.mark.parts;
      unrecorded = w.mark.amount;
    } };

    ghost invariant = { λ w. length w.sessions.items ≡ length w.used.items };
}

impl<D: Door, P: Panel, C: Sink + Drop, T: Ledger> Worker<D, P, C, T>
where
    D::Link: Drop,
{
    /// Works over a book behind its locks. The worker's share counts the changes that its sessions were told not to be recorded.
    pub fn work_behind_locks<
        K: Sink,
        N: BookNaming,
        W: Ledger,
        G: Gate,
        R: Net<Listener = TcpListener, Stream = TcpStream> + Clock + Wait,
    >(
        &mut self,
        rt: &R,
        alloc: Global,
        board: &Board<NalMatter>,
        shared: &SharedBook<K, N, T, W>,
        gate: &G,
    )
        requires named { N.board ≡ Some board.now }
        requires hired { IsHired board.now self.old.first (length self.old.passes) self.old }
        ensures done { IsDone (means_history P.history) board.now self.new.unrecorded self.old self.new }
    {
        let mut book = LockedBook::new(rt, board, shared, self.mark.split_off(1, 0));
        self.work(rt, alloc, board, &mut book, gate);
        self.mark.merge(book.into_mark());
    }

    /// Serves the links that the door gives, with one pass each, until all passes are used, the door gives no more, or there is no
    /// memory for one more report.
    fn work<B: BookAccess, G: Gate, R: Net<Listener = TcpListener, Stream = TcpStream> + Clock>(
        &mut self,
        rt: &R,
        alloc: Global,
        board: &Board<NalMatter>,
        book: &mut B,
        gate: &G,
    )
        requires named { B.board book.old ≡ board.now }
        requires working { IsWorking (means_history P.history) board.now (B.unrecorded book.old) self.old self.old }
        ensures stopped { IsStopped (means_history P.history) board.now (B.unrecorded book.new) self.old self.new }
    {
        while !self.is_spent() {
            if !self.serve_next(rt, alloc, board, book, gate) {
                return;
            }
        }
    }

    /// Whether all passes are used.
    fn is_spent(&self) -> bool
        ensures spent { result ≡ true → self.now.passes ≡ [] }
        ensures left { result ≡ false → 0 < length self.now.passes }
    {
        self.roll.is_empty()
    }

    /// Serves the next link that the door gives with the next pass. The memory for the report is taken before the door is asked. Whether
    /// there was memory and the door gave a link.
    fn serve_next<
        B: BookAccess,
        G: Gate,
        R: Net<Listener = TcpListener, Stream = TcpStream> + Clock,
    >(&mut self, rt: &R, alloc: Global, board: &Board<NalMatter>, book: &mut B, gate: &G) -> bool
        requires named { B.board book.old ≡ board.now }
        requires some { 0 < length self.old.passes }
        requires unused { All (IsUnused board.now) self.old.passes }
        ensures went { (start : WorkerValue (Means P C))
            → IsWorking (means_history P.history) board.now (B.unrecorded book.old) start self.old
            → WorksOn (means_history P.history) board.now (B.unrecorded book.new) result start self.new }
        ensures fewer { result ≡ true → length self.new.passes + 1 ≡ length self.old.passes }
        ensures book { B.board book.new ≡ B.board book.old }
    {
        if !has_taken_room(&mut self.sessions, &mut self.used) {
            self.lacks_room = true;
            return false;
        }
        match self.door.next(rt) {
            Next::Link(link) => {
                let Some(pass) = self.roll.next() else {
                    unreachable!()
                };
                let beside = Beside { board, gate };
                let report = serve_link(
                    rt,
                    alloc,
                    &beside,
                    book,
                    pass,
                    link,
                    &mut self.means.panel,
                    &mut self.means.records,
                );
                add(report, &mut self.sessions, &mut self.used);
                true
            }
            Next::NoMore => false,
            Next::Failed => {
                self.has_failed = true;
                false
            }
        }
    }
}

/// Takes the memory for one more report. Whether there was any.
fn has_taken_room<L: Drop>(
    sessions: &mut Vec<ServedSession<L>>,
    used: &mut Vec<Pass<NalMatter>>,
) -> bool
    ensures items { (sessions.new.items ≡ sessions.old.items) × (used.new.items ≡ used.old.items) }
    ensures room { result ≡ true → (vec_len sessions.new < vec_capacity sessions.new)
        × (vec_len used.new < vec_capacity used.new) }
{
    sessions.reserve(1).is_ok() && used.reserve(1).is_ok()
}

/// Adds a report to the others, its pass to the passes. There is room for both.
fn add<L: Drop>(
    report: Report<L>,
    sessions: &mut Vec<ServedSession<L>>,
    used: &mut Vec<Pass<NalMatter>>,
)
    requires room { (vec_len sessions.old < vec_capacity sessions.old) × (vec_len used.old < vec_capacity used.old) }
    ensures sessions { sessions.new.items ≡ sessions.old.items ++ record {
      session = report.session;
      principal =
          report.principal;
      link = report.link;
      end = report.end;
    } ∷ [] }
    ensures used { used.new.items ≡ used.old.items ++ report.pass ∷ [] }
{
    let Report {
        session,
        principal,
        link,
        pass,
        end,
    } = report;
    sessions.push_reserved(ServedSession {
        session,
        principal,
        link,
        end,
    });
    used.push_reserved(pass);
}
