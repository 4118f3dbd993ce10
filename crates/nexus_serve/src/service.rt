//! The service as a whole.
ghost use Rattle.std.specs.Prelude.{◌≡◌, ◌≤◌, ◌+◌, ◌*◌, ◌-◌, ◌^◌, List, [], All, Some, length, take, map, IfOk, OnOk};
ghost use Rattle.std.specs.Vec.{vec_capacity};
ghost use Rattle.nx_io.specs.Streams.{gained};
ghost use Rattle.journal_text.specs.CutLaws.{IsWritten};
ghost use Rattle.told_records.specs.Audited.{AreAudited, IsFresh};
ghost use Rattle.policy_history.specs.PolicyTexts.{policy_text};
ghost use Rattle.policy_history.specs.Values.{entry_trees, greatest_of};
ghost use Rattle.policy_history.specs.declared.events.Entry.{Entry};
ghost use Rattle.policy_book.specs.Books.{new_book};
ghost use Rattle.nx_io.specs.Views.{SinkView, door_view, sink_view};
ghost use Rattle.nexus_serve.specs.Means.{means_history};
ghost use Rattle.nexus_serve.specs.Hosting.{kept_of};
ghost use Rattle.nexus_serve.specs.Services.{IsJournal, Serves};
ghost use Rattle.nexus_serve.specs.TrueReports.{AreTrue, asked_between};
ghost use Rattle.nexus_serve.specs.Inner.Desks.{AreLaid};
ghost use Rattle.nexus_serve.specs.Inner.Gathering.{nothing};

use crate::closing::{Served, unopened, unserved};
use crate::gathered::Gathered;
use crate::hiring::{Desk, lay_desks, seat};
use crate::means::Means;
use crate::threads::serve_hired;
use crate::worker::Worker;
use authority_ask::Panel;
use journal_text::print_policy;
use nx_io::{Bytes, Door, Gate, Link, Reach, Sink};
use policy_book::{Book, NalMatter};
use policy_history::Journal;
use std::alloc::{AllocError, Global};
use std::marker::Brand;
use std::net::{Net, TcpListener, TcpStream};
use std::rt::Clock;
use std::sync::ledger::{Blank, Ledger};
use std::sync::{Wait, ledger};
use std::thread::Threads;
use verdict_words::Board;

/// How many sessions a worker serves at most, and a blank ledger in which the changes are counted that were not recorded.
#[derive(Drop)]
struct Shift {
    sessions: u64,
    blank: Blank,
}

/// What a service wants of memory, taken before it begins: the policy text, a desk for each worker, a list with room for all
/// workers, and a place for what each of them leaves. The ledger counts nothing yet, and each desk has a share of it.
#[derive(Drop)]
struct Prepared<D: Door, P: Panel, C: Sink, T: Ledger> {
    text: Bytes,
    desks: Vec<Desk<T>>,
    workers: Vec<Worker<D, P, C, T>>,
    room: Gathered<D, P, C>,
    tickets: ledger::Book<T>,
}

/// A policy text without its last line.
fn front_of(text: &[u8]) -> &[u8]
    ensures { result.now ≡ take (length text.now - 4) text.now }
{
    &text[..text.len().saturating_sub(4)]
}

/// Opens the book and serves. It takes no memory but what sessions want.
fn serve_book<D, P, C, K, G, T, R>(
    rt: &R,
    alloc: Global,
    board: &Board<NalMatter>,
    book: Book<K>,
    doors: Vec<D>,
    means: Vec<Means<P, C>>,
    gate: &G,
    sessions: u64,
    prepared: Prepared<D, P, C, T>,
) -> Served<D, P, C, K>
where
    D: Door + Send + Drop,
    D::Link: Link + Send + Drop,
    P: Panel + Send + Drop,
    C: Sink + Send + Drop,
    K: Sink + Send + Drop,
    G: Gate + Sync,
    T: Ledger + Send + Sync,
    R: Net<Listener = TcpListener, Stream = TcpStream> + Clock + Wait + Threads + Sync,
    requires made { book ≡ record (new_book K.sent K.faults board.now book.sink)
        { next = board.now.origin.first + length doors.items * sessions } }
    requires first { board.now.origin.first ≡ greatest_of (entry_trees board.now.origin.opening) + 1 }
    requires pairs { length means.items ≡ length doors.items }
    requires text { prepared.text ≡ policy_text board.now.origin.setting (entry_trees board.now.origin.opening) }
    requires desks { AreLaid board.now board.now.origin.first sessions prepared.desks.items
        × (length prepared.desks.items ≡ length doors.items) }
    requires workers { (prepared.workers.items ≡ []) × (length doors.items ≤ vec_capacity prepared.workers) }
    requires room { prepared.room ≡ nothing (length doors.items) }
    requires tickets { prepared.tickets.total ≡ 0 }
    ensures served { Serves (means_history P.history) sessions board.now.origin.setting
        board.now.origin.opening (sink_view K.Sink book.sink)
        (map (door_view D.Door D.Link.Link) doors.items) means.items result }
{
    let Prepared {
        text,
        desks,
        workers,
        room,
        tickets,
    } = prepared;
    let mut book = book;
    match book.open(front_of(text.as_slice())) {
        Reach::Ready => {
            let workers = seat(alloc, desks, doors, means, workers);
            serve_hired(rt, alloc, board, book, tickets, workers, gate, room)
        }
        Reach::Failed => {
            drop(desks);
            drop(workers);
            drop(room);
            drop(tickets);
            unopened(alloc, book, doors, means)
        }
    }
}

/// Serves the links of the doors, each door by a worker of its own with the means of its place, so many sessions a worker at
/// most, and writes the policy text to the sink as the journal grows.
///
/// The sessions are numbered behind the greatest number of the journal: the first worker has the first so many numbers, and so
/// on. A worker stops early where its door has no more links or fails, or where there is no memory for the report of one more
/// session, which is taken before the door is asked for its link; this ends no other worker. When all have stopped, the journal, the
/// sink, the doors, the means, and the reports of all sessions are handed back. `docs/LOGIC.md`, "A service", says what was then
/// promised to each session; `docs/ARCHITECTURE.md`, "Workers", how it is done. A change is told not to be recorded only where a
/// write or a sync of the policy text has failed. What was recorded of its calls is lines that `audit` finds right behind the policy that
/// is recovered from the text, where the policy that it began with is one that the program writes (`docs/LOGIC.md`, "Records of a
/// service"). The end is `DoorFault` where a door has failed, else `NoRoom` where a worker had no
/// memory for one more session.
///
/// All memory but what sessions want is taken before the first byte is sent, and does not grow with the number of sessions. At want of
/// it the end is `Memory`: nobody was served, nothing was written, and the journal, the sink, the doors and the means are handed back
/// as they were handed in.
pub fn serve<D, P, C, K, G, R>(
    rt: &R,
    alloc: Global,
    journal: Journal,
    sink: K,
    doors: Vec<D>,
    means: Vec<Means<P, C>>,
    gate: &G,
    sessions: u64,
) -> Served<D, P, C, K>
where
    D: Door + Send + Drop,
    D::Link: Link + Send + Drop,
    P: Panel + Send + Drop,
    C: Sink + Send + Drop,
    K: Sink + Send + Drop,
    G: Gate + Sync,
    R: Net<Listener = TcpListener, Stream = TcpStream> + Clock + Wait + Threads + Sync,
    requires pairs { length means.items ≡ length doors.items }
    requires workers { (1 ≤ length doors.items) × (length doors.items ≤ 1024) }
    requires sessions { (1 ≤ sessions) × (sessions ≤ 65536) }
    requires numbers { greatest_of (entry_trees journal.entries) + length doors.items * sessions ≤ 2 ^ 64 - 2 }
    ensures served { Serves (means_history P.history) sessions journal.head journal.entries (sink_view K.Sink sink)
        (map (door_view D.Door D.Link.Link) doors.items) means.items result }
    ensures earned { (es : List Entry) → IsJournal result.journal journal.head es
        → AreTrue journal.head (entry_trees es) (length journal.entries)
        (asked_between (map (means_history P.history) means.items) (map (means_history P.history) result.means))
        result.reports }
    ensures audited { IsWritten journal.head (entry_trees journal.entries) → All IsFresh (kept_of means.items)
        → (sink_now : SinkView) → result.sink ≡ Some sink_now
        → AreAudited (K.faults sink) sink_now.faults (gained (K.sent sink) sink_now.sent) (kept_of result.means) }
{
    let blank = Blank::new(doors.len() as u64);
    let shift = Shift { sessions, blank };
    serve_counted::<D, P, C, K, G, Brand, R>(rt, alloc, journal, sink, doors, means, gate, shift)
}

/// As `serve`, with a ledger that counts the changes that were not recorded.
fn serve_counted<D, P, C, K, G, T, R>(
    rt: &R,
    alloc: Global,
    journal: Journal,
    sink: K,
    doors: Vec<D>,
    means: Vec<Means<P, C>>,
    gate: &G,
    shift: Shift,
) -> Served<D, P, C, K>
where
    D: Door + Send + Drop,
    D::Link: Link + Send + Drop,
    P: Panel + Send + Drop,
    C: Sink + Send + Drop,
    K: Sink + Send + Drop,
    G: Gate + Sync,
    T: Ledger + Send + Sync,
    R: Net<Listener = TcpListener, Stream = TcpStream> + Clock + Wait + Threads + Sync,
    requires pairs { length means.items ≡ length doors.items }
    requires workers { (1 ≤ length doors.items) × (length doors.items ≤ 1024) }
    requires sessions { (1 ≤ shift.sessions) × (shift.sessions ≤ 65536) }
    requires numbers { greatest_of (entry_trees journal.entries) + length doors.items * shift.sessions ≤ 2 ^ 64 - 2 }
    requires blank { (shift.blank.name ≡ T.name) × (shift.blank.parts ≡ T.parts)
        × (length doors.items ≤ shift.blank.parts) }
    ensures served { Serves (means_history P.history) shift.sessions journal.head journal.entries
        (sink_view K.Sink sink)
        (map (door_view D.Door D.Link.Link) doors.items) means.items result }
    ensures earned { (es : List Entry) → IsJournal result.journal journal.head es
        → AreTrue journal.head (entry_trees es) (length journal.entries)
        (asked_between (map (means_history P.history) means.items) (map (means_history P.history) result.means))
        result.reports }
    ensures audited { IsWritten journal.head (entry_trees journal.entries) → All IsFresh (kept_of means.items)
        → (sink_now : SinkView) → result.sink ≡ Some sink_now
        → AreAudited (K.faults sink) sink_now.faults (gained (K.sent sink) sink_now.sent) (kept_of result.means) }
{
    let Shift { sessions, blank } = shift;
    let first = journal.greatest_session() + 1;
    let Ok(text) = print_policy(alloc, &journal) else {
        return unserved(alloc, journal, sink, doors, means);
    };
    match Book::make(alloc, journal, sink) {
        Ok((board, book)) => {
            let mut book = book;
            let workers = doors.len();
            match prepare::<D, P, C, K, T>(
                alloc, &board, &mut book, text, workers, first, sessions, blank,
            ) {
                Ok(prepared) => serve_book(
                    rt, alloc, &board, book, doors, means, gate, sessions, prepared,
                ),
                Err(AllocError) => {
                    let (journal, sink) = book.into_parts();
                    unserved(alloc, journal, sink, doors, means)
                }
            }
        }
        Err((journal, sink, AllocError)) => {
            drop(text);
            unserved(alloc, journal, sink, doors, means)
        }
    }
}

/// Takes the memory that a service wants, beside that for the policy text, before the book is open: desks for so many workers,
/// which have the rolls of the book's next passes, a list for the workers, and a place for what each of them leaves. The blank ledger
/// is opened.
fn prepare<D: Door + Drop, P: Panel + Drop, C: Sink + Drop, K: Sink, T: Ledger>(
    alloc: Global,
    board: &Board<NalMatter>,
    book: &mut Book<K>,
    text: Bytes,
    workers: usize,
    first: u64,
    sessions: u64,
    blank: Blank,
) -> Result<Prepared<D, P, C, T>, AllocError>
where
    D::Link: Drop,
    requires blank { (blank.name ≡ T.name) × (blank.parts ≡ T.parts) × (workers ≤ blank.parts) }
    requires first { book.old.next ≡ first }
    requires board { book.old.board ≡ board.now }
    requires numbers { first + workers * sessions ≤ 2 ^ 64 - 1 }
    requires few { (workers ≤ 1024) × (sessions ≤ 65536) }
    ensures text { IfOk result (λ r. r.text ≡ text) }
    ensures desks { IfOk result (λ r. AreLaid board.now first sessions r.desks.items
        × (length r.desks.items ≡ workers)) }
    ensures workers { IfOk result (λ r. (r.workers.items ≡ []) × (workers ≤ vec_capacity r.workers)) }
    ensures room { IfOk result (λ r. r.room ≡ nothing workers) }
    ensures tickets { IfOk result (λ r. r.tickets.total ≡ 0) }
    ensures book { OnOk result (book.new ≡ record book.old { next = book.old.next + workers * sessions }) }
    ensures kept { book.new ≡ record book.old { next = book.new.next } }
{
    let (tickets, mark) = blank.open::<T>();
    Ok(Prepared {
        text,
        desks: lay_desks(alloc, board, book, workers, first, sessions, mark)?,
        workers: Vec::with_capacity(alloc, workers)?,
        room: Gathered::with_room(alloc, workers)?,
        tickets,
    })
}
