//! What a service hands back: the last line of its text is written, and what the workers left is put together.
ghost use Rattle.std.specs.Prelude.{◌≡◌, ◌<◌, ◌+◌, ◌*◌, ℕ, List, [], length, map, All, Some, true, false};
ghost use Rattle.nx_io.specs.Streams.{Rose};
ghost use Rattle.policy_history.specs.Values.{entry_trees, greatest_of};
ghost use Rattle.policy_book.specs.Books.{AreLasting, IsLegalBook, IsNumbered, head_of, trees_of};
ghost use Rattle.verdict_words.specs.Settling.{all_of, flat};
ghost use Rattle.nx_io.specs.Views.{door_view, link_view, sink_view};
ghost use Rattle.nexus_serve.specs.Means.{means_history};
ghost use Rattle.nexus_serve.specs.declared.means.Means.{Means};
ghost use Rattle.nexus_serve.specs.Services.{IsJournal, IsTextSent, Serves};
ghost use Rattle.nexus_serve.specs.Inner.Gathering.{IsRoomFor};
ghost use Rattle.nexus_serve.specs.Inner.Reporting.{IsClosed, IsEnded, IsHandedBack, IsReported};
ghost use Rattle.nexus_serve.specs.Inner.Serving.{AreDone, AreOfBoard, doors_of, means_of};
ghost use Rattle.nexus_serve.specs.Inner.Working.{WorkerValue, end_of};

use crate::gathered::{Gathered, with_passes};
use crate::means::Means;
use crate::reporting::Reports;
use crate::worker::Worker;
use authority_ask::Panel;
use nx_io::{Door, Reach, Sink, send_all};
use policy_book::{Book, NalMatter};
use policy_history::Journal;
use session_core::what_was_told_stays_told;
use std::alloc::Global;
use std::marker::Model;
use std::sync::ledger::{Ledger, Total};
use verdict_words::Board;

/// How a service ended.
#[derive(Clone, Copy, Debug, PartialEq, Eq)]
pub enum ServeEnd {
    Done,
    /// A door has failed, which ended its worker alone.
    DoorFault,
    /// A worker had no memory for one more session, which ended it alone. No door has failed.
    NoRoom,
    /// There was no memory to begin with: nobody was served, nothing was written, and all is handed back as it was handed in.
    Memory,
}

/// What a service leaves.
#[derive(Drop)]
pub struct Served<D: Door, P: Panel, C: Sink, K: Sink> {
    pub journal: Option<Journal>,
    pub sink: Option<K>,
    /// The reports of all sessions, a list for each worker.
    pub reports: Vec<Reports<D::Link>>,
    pub doors: Vec<D>,
    pub means: Vec<Means<P, C>>,
    /// Whether the whole policy text was written, so that it lasts.
    pub written: bool,
    pub end: ServeEnd,
}

impl<D: Door, P: Panel, C: Sink, K: Sink> Model for Served<D, P, C, K> {
    ghost use Rattle.std.specs.Prelude.{map, option_map};
    ghost use Rattle.std.specs.Coded.{codes};
    ghost use Rattle.nal_term.specs.contracts.terms.Term as t;
    ghost use Rattle.nal_term.specs.contracts.formulas.Formula as f;
    ghost use Rattle.nx_io.specs.Views.{door_view, link_view, sink_view};
    ghost use Rattle.verdict_words.specs.Settling.{flat};
    ghost use Rattle.nexus_serve.specs.Services.{ServedView};
    ghost use Rattle.nexus_serve.specs.declared.means.Means.{Means};

    ghost Value = { ServedView (Means P C) };

    ghost coded = { Prim.hlevel (codes, t.the_row.coded, f.the_row.coded) };

    ghost view = { λ s. record {
      journal = s.journal;
      sink = option_map (sink_view K.Sink) s.sink;
      reports = flat s.reports.items;
      doors = map (door_view D.Door D.Link.Link) s.doors.items;
      means = s.means.items;
      written = s.written;
      end = s.end;
    } };
}

/// Writes the last line of the policy text and syncs it, unless a write or a sync of it has failed. Whether the whole text was written,
/// so that it lasts.
fn write_end<K: Sink + Drop>(book: Book<K>) -> (Journal, K, bool)
    requires opened { book.is_open ≡ true }
    ensures journal { (result.0.head ≡ head_of book) × (result.0.entries ≡ book.entries) }
    ensures text { IsTextSent (head_of book) (trees_of book) result.2 book.start book.start_faults
        (sink_view K.Sink result.1) }
    ensures failed { book.is_broken ≡ true → Rose book.start_faults (K.faults result.1) }
    ensures lasts { AreLasting (head_of book) book.board.origin.opening book.entries book.start (K.synced result.1) }
    ensures legal { IsLegalBook book }
    ensures numbered { IsNumbered book }
{
    let is_broken = book.broken();
    let (journal, sink) = book.into_parts();
    let (sink, written) = end_unless(is_broken, sink);
    (journal, sink, written)
}

/// Sends and syncs the last line of a policy text, unless the text is broken off. Whether both were done.
fn end_unless<K: Sink + Drop>(is_broken: bool, sink: K) -> (K, bool)
    ensures broken { is_broken ≡ true → (result.0 ≡ sink) × (result.1 ≡ false) }
    ensures sent { is_broken ≡ false → IsEnded result.1 (sink_view K.Sink sink) (sink_view K.Sink result.0) }
{
    if is_broken {
        return (sink, false);
    }
    let mut sink = sink;
    let written = matches!(send_all(&mut sink, b"end\n"), Reach::Ready)
        && matches!(sink.sync(), Reach::Ready);
    (sink, written)
}

/// Hands back what was gathered, with the journal of the book, in which all passes were met.
fn close<D: Door + Drop, P: Panel + Drop, C: Sink + Drop, K: Sink + Drop>(
    book: Book<K>,
    doors: Vec<D>,
    means: Vec<Means<P, C>>,
    reports: Vec<Reports<D::Link>>,
    end: ServeEnd,
) -> Served<D, P, C, K>
where
    D::Link: Drop,
    requires opened { book.is_open ≡ true }
    ensures closed { IsClosed book (map (door_view D.Door D.Link.Link)
        doors.items) means.items (flat reports.items) end result }
{
    let (journal, sink, written) = write_end(book);
    Served {
        journal: Some(journal),
        sink: Some(sink),
        reports,
        doors,
        means,
        written,
        end,
    }
}

/// How a service ends whose doors have failed or not, and whose workers had memory for each session or not.
fn end_of(has_failed: bool, lacks_room: bool) -> ServeEnd
    ensures { result ≡ end_of has_failed lacks_room }
{
    if has_failed {
        ServeEnd::DoorFault
    } else if lacks_room {
        ServeEnd::NoRoom
    } else {
        ServeEnd::Done
    }
}

/// Lets all passes be met once more, and hands back what was gathered.
fn report<D: Door + Drop, P: Panel + Drop, C: Sink + Drop, K: Sink + Drop>(
    board: &Board<NalMatter>,
    book: Book<K>,
    gathered: Gathered<D, P, C>,
) -> Served<D, P, C, K>
where
    D::Link: Drop,
    requires opened { book.is_open ≡ true }
    requires board { book.board ≡ board.now }
    requires passes { All (λ pass. pass.board ≡ board.now) (all_of gathered.used gathered.unused) }
    ensures reported { IsReported book gathered result }
{
    let Gathered {
        doors,
        means,
        sessions,
        used,
        unused,
        reports,
        has_failed,
        lacks_room,
    } = gathered;
    let mut book = book;
    let passes = book.settle(board, used, unused);
    let reports = with_passes(sessions, passes, reports);
    close(book, doors, means, reports, end_of(has_failed, lacks_room))
}

/// Gathers what the workers left, and hands it back. Where changes were not recorded, the book is broken.
pub fn finish<D: Door + Drop, P: Panel + Drop, C: Sink + Drop, K: Sink + Drop, T: Ledger>(
    board: &Board<NalMatter>,
    book: Book<K>,
    total: &Total<T>,
    workers: Vec<Worker<D, P, C, T>>,
    room: Gathered<D, P, C>,
) -> Served<D, P, C, K>
where
    D::Link: Drop,
    requires failed { 0 < total.now.amount → book.is_broken ≡ true }
    requires opened { book.is_open ≡ true }
    requires board { book.board ≡ board.now }
    requires first { board.now.origin.first ≡ greatest_of (entry_trees board.now.origin.opening) + 1 }
    requires room { IsRoomFor workers.items room }
    requires used { All (λ worker. AreOfBoard board.now worker) workers.items }
    ensures served { (most synced : ℕ) (hired : List (WorkerValue (Means P C)))
        → AreDone (means_history P.history) board.now board.now.origin.first most hired workers.items
        → book.next ≡ board.now.origin.first + length workers.items * most
        → Serves (means_history P.history) most board.now.origin.setting board.now.origin.opening (record {
          sent = book.start;
          synced = synced;
          faults = book.start_faults;
        }) (doors_of hired) (means_of hired) result }
{
    what_was_told_stays_told();
    report(board, book, room.gather(workers, total))
}

/// Hands everything back where the front of the policy text could not be sent.
pub fn unopened<D: Door + Drop, P: Panel + Drop, C: Sink + Drop, K: Sink + Drop>(
    alloc: Global,
    book: Book<K>,
    doors: Vec<D>,
    means: Vec<Means<P, C>>,
) -> Served<D, P, C, K>
where
    D::Link: Drop,
    ensures journal { IsJournal result.journal (head_of book) book.entries }
    ensures sink { result.sink ≡ Some (sink_view K.Sink book.sink) }
    ensures back { IsHandedBack (map (door_view D.Door D.Link.Link)
        doors.items) means.items result }
    ensures end { result.end ≡ ServeEnd.Done }
{
    let (journal, sink) = book.into_parts();
    Served {
        journal: Some(journal),
        sink: Some(sink),
        reports: Vec::new(alloc),
        doors,
        means,
        written: false,
        end: ServeEnd::Done,
    }
}

/// Hands everything back where there was no memory to begin with.
pub fn unserved<D: Door + Drop, P: Panel + Drop, C: Sink + Drop, K: Sink + Drop>(
    alloc: Global,
    journal: Journal,
    sink: K,
    doors: Vec<D>,
    means: Vec<Means<P, C>>,
) -> Served<D, P, C, K>
where
    D::Link: Drop,
    ensures journal { IsJournal result.journal journal.head journal.entries }
    ensures sink { result.sink ≡ Some (sink_view K.Sink sink) }
    ensures back { IsHandedBack (map (door_view D.Door D.Link.Link)
        doors.items) means.items result }
    ensures end { result.end ≡ ServeEnd.Memory }
{
    Served {
        journal: Some(journal),
        sink: Some(sink),
        reports: Vec::new(alloc),
        doors,
        means,
        written: false,
        end: ServeEnd::Memory,
    }
}
