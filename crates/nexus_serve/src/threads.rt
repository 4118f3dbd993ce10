//! The threads of a service, one for each worker.
ghost use Rattle.std.specs.Prelude.{◌≡◌, ◌<◌, ◌+◌, ◌*◌, ℕ, length, All, Some, true, slice_index_or};
ghost use Rattle.policy_history.specs.Values.{entry_trees, greatest_of};
ghost use Rattle.policy_book.specs.Books.{IsNamed};
ghost use Rattle.nexus_serve.specs.Means.{means_history};
ghost use Rattle.nexus_serve.specs.declared.means.Means.{Means};
ghost use Rattle.nexus_serve.specs.Services.{Serves};
ghost use Rattle.nexus_serve.specs.Inner.Gathering.{IsRoomFor};
ghost use Rattle.nexus_serve.specs.Inner.Serving.{AreHired, doors_of, means_of};
ghost use Rattle.nexus_serve.specs.Inner.Working.{IsDone, IsHired, WorkerValue};

use crate::closing::{Served, finish};
use crate::gathered::Gathered;
use crate::worker::Worker;
use authority_ask::Panel;
use nx_io::{Door, Gate, Link, Sink};
use policy_book::{Book, BookNaming, NalMatter, SharedBook};
use std::alloc::Global;
use std::marker::Brand;
use std::net::{Net, TcpListener, TcpStream};
use std::rt::Clock;
use std::sync::ledger::{Blank, Ledger, Total};
use std::sync::{Wait, ledger};
use std::thread;
use std::thread::Threads;
use verdict_words::Board;

/// Lets the workers work, each in a thread, over a book that is lent to all of them. The book is handed back when all have
/// stopped, with how many changes were not recorded in all. The blank ledger is that of the writers. It takes no memory.
fn let_work<D, P, C, K, G, N, T, W, R>(
    rt: &R,
    alloc: Global,
    board: &Board<NalMatter>,
    book: Book<K>,
    tickets: ledger::Book<T>,
    turns: Blank,
    workers: &mut [Worker<D, P, C, T>],
    gate: &G,
) -> (Book<K>, Total<T>)
where
    D: Door + Send + Drop,
    D::Link: Link + Send + Drop,
    P: Panel + Send + Drop,
    C: Sink + Send + Drop,
    K: Sink + Send + Drop,
    G: Gate + Sync,
    N: BookNaming + Send + Sync,
    T: Ledger + Send + Sync,
    W: Ledger + Send + Sync,
    R: Net<Listener = TcpListener, Stream = TcpStream> + Clock + Wait + Threads + Sync,
    requires named { N.board ≡ Some board.now }
    requires book { (book.is_open ≡ true) × IsNamed N.board N.next N.start N.start_faults book }
    requires tickets { tickets.total ≡ 0 }
    requires turns { (turns.name ≡ W.name) × (turns.parts ≡ W.parts) × (0 < W.parts) }
    requires hired { All (λ worker. IsHired board.now worker.first (length worker.passes) worker) workers.old }
    ensures book { (result.0.is_open ≡ true) × IsNamed N.board N.next N.start N.start_faults result.0 }
    ensures failed { 0 < result.1.amount → result.0.is_broken ≡ true }
    ensures count { length workers.new ≡ length workers.old }
    ensures done { (i : ℕ) (d : WorkerValue (Means P C)) → i < length workers.old
        → IsDone (means_history P.history) board.now (slice_index_or workers.new i d).unrecorded
        (slice_index_or workers.old i d) (slice_index_or workers.new i d) }
{
    let shared: SharedBook<K, N, T, W> = SharedBook::new(book, tickets, turns);
    thread::for_each_mut(
        rt,
        workers,
        1024,
        &|_: usize, worker: &mut Worker<D, P, C, T>|
            requires { (N.board ≡ Some board.now) × IsHired board.now worker.old.first (length worker.old.passes)
                worker.old }
            ensures { IsDone (means_history P.history) board.entry.now worker.new.unrecorded worker.old worker.new }
        { worker.work_behind_locks(rt, alloc, board, &shared, gate) },
    );
    let (book, tickets) = shared.into_parts();
    (book, tickets.close())
}

/// Lets hired workers work, and hands back what they leave.
pub fn serve_hired<D, P, C, K, G, T, R>(
    rt: &R,
    alloc: Global,
    board: &Board<NalMatter>,
    book: Book<K>,
    tickets: ledger::Book<T>,
    workers: Vec<Worker<D, P, C, T>>,
    gate: &G,
    room: Gathered<D, P, C>,
) -> Served<D, P, C, K>
where
    D: Door + Send + Drop,
    D::Link: Link + Send + Drop,
    P: Panel + Send + Drop,
    C: Sink + Send + Drop,
    K: Sink + Send + Drop,
    G: Gate + Sync,
    T: Ledger + Send + Sync,
    R: Net<Listener = TcpListener, Stream = TcpStream> + Clock + Wait + Threads + Sync,
    requires opened { book.is_open ≡ true }
    requires board { book.board ≡ board.now }
    requires first { board.now.origin.first ≡ greatest_of (entry_trees board.now.origin.opening) + 1 }
    requires tickets { tickets.total ≡ 0 }
    requires hired { All (λ worker. IsHired board.now worker.first (length worker.passes) worker) workers.items }
    requires room { IsRoomFor workers.items room }
    ensures served { (most synced : ℕ) → AreHired board.now board.now.origin.first most workers.items
        → book.next ≡ board.now.origin.first + length workers.items * most
        → Serves (means_history P.history) most board.now.origin.setting board.now.origin.opening (record {
          sent = book.start;
          synced = synced;
          faults = book.start_faults;
        }) (doors_of workers.items) (means_of workers.items) result }
{
    let mut workers = workers;
    let (book, total) = let_work::<D, P, C, K, G, Brand, T, Brand, R>(
        rt,
        alloc,
        board,
        book,
        tickets,
        Blank::new(1),
        workers.as_mut_slice(),
        gate,
    );
    finish(board, book, &total, workers, room)
}
