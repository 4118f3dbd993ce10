//! How workers are hired: desks with the rolls of their sessions are laid, which may want memory, before doors and means are put to
//! them, which wants none.
ghost use Rattle.std.specs.Prelude.{◌≡◌, ◌<◌, ◌≤◌, ◌+◌, ◌*◌, ◌-◌, ◌^◌, [], length, map, IfOk, OnOk};
ghost use Rattle.std.specs.Vec.{vec_capacity};
ghost use Rattle.nx_io.specs.Views.{door_view};
ghost use Rattle.nexus_serve.specs.Inner.Desks.{AreLaid, IsLaid, seated, seated_at};

use crate::means::Means;
use crate::worker::Worker;
use authority_ask::Panel;
use nx_io::{Door, Sink};
use policy_book::{Book, NalMatter};
use std::alloc::{AllocError, Global};
use std::collections::VecDeque;
use std::marker::Model;
use std::sync::ledger::{Ledger, Share};
use verdict_words::{Board, Roll};

/// What a worker gets before it has a door: the number of its first session, the roll of the passes of its sessions, and a share of
/// the ledger that counts the changes that were not recorded, of which there are none yet.
#[derive(Drop)]
pub struct Desk<T: Ledger> {
    first: u64,
    roll: Roll<NalMatter>,
    mark: Share<T>,
}

impl<T: Ledger> Model for Desk<T> {
    ghost use Rattle.std.specs.Prelude.{◌≡◌};
    ghost use Rattle.std.specs.Coded.{codes};
    ghost use Rattle.nal_term.specs.contracts.terms.Term as t;
    ghost use Rattle.nal_term.specs.contracts.formulas.Formula as f;
    ghost use Rattle.nexus_serve.specs.Inner.Desks.{DeskValue};

    ghost Value = { DeskValue };

    ghost coded = { Prim.hlevel (codes, t.the_row.coded, f.the_row.coded) };

    ghost view = { λ d. record { first = d.first; passes = d.roll } };

    ghost invariant = { λ d. (d.mark.parts ≡ 1) × (d.mark.amount ≡ 0) };
}

/// Lays one desk.
fn lay_desk<K: Sink, T: Ledger>(
    alloc: Global,
    board: &Board<NalMatter>,
    book: &mut Book<K>,
    first: u64,
    sessions: u64,
    mark: Share<T>,
) -> Result<Desk<T>, AllocError>
    requires first { book.old.next ≡ first }
    requires board { book.old.board ≡ board.now }
    requires room { book.old.next + sessions ≤ 2 ^ 64 - 1 }
    requires few { sessions ≤ 65536 }
    requires mark { (mark.parts ≡ 1) × (mark.amount ≡ 0) }
    ensures laid { IfOk result (λ desk. IsLaid board.now first sessions desk) }
    ensures book { OnOk result (book.new ≡ record book.old { next = book.old.next + sessions }) }
    ensures kept { book.new ≡ record book.old { next = book.new.next } }
{
    let roll = book.enroll(alloc, board, sessions)?;
    Ok(Desk { first, roll, mark })
}

/// Lays so many desks. Their sessions are the next ones of the book, which need not be open. Each has one part of the share.
pub fn lay_desks<K: Sink, T: Ledger>(
    alloc: Global,
    board: &Board<NalMatter>,
    book: &mut Book<K>,
    workers: usize,
    first: u64,
    sessions: u64,
    mark: Share<T>,
) -> Result<Vec<Desk<T>>, AllocError>
    requires first { book.old.next ≡ first }
    requires board { book.old.board ≡ board.now }
    requires room { book.old.next + workers * sessions ≤ 2 ^ 64 - 1 }
    requires few { sessions ≤ 65536 }
    requires mark { (workers ≤ mark.parts) × (mark.amount ≡ 0) }
    ensures laid { IfOk result (λ desks. AreLaid board.now first sessions desks.items) }
    ensures count { IfOk result (λ desks. length desks.items ≡ workers) }
    ensures book { OnOk result (book.new ≡ record book.old { next = book.old.next + workers * sessions }) }
    ensures kept { book.new ≡ record book.old { next = book.new.next } }
{
    let mut desks = Vec::with_capacity(alloc, workers)?;
    let mut first = first;
    let mut mark = mark;
    for _ in 0..workers {
        let own = mark.split_off(1, 0);
        desks.push(lay_desk(alloc, board, book, first, sessions, own)?)?;
        first += sessions;
    }
    Ok(desks)
}

/// A worker at this desk. It takes no memory.
fn seat_one<D: Door, P: Panel, C: Sink, T: Ledger>(
    alloc: Global,
    desk: Desk<T>,
    door: D,
    means: Means<P, C>,
) -> Worker<D, P, C, T>
    ensures { result ≡ seated_at desk (door_view D.Door D.Link.Link door) means }
{
    let Desk { first, roll, mark } = desk;
    Worker {
        first,
        door,
        means,
        roll,
        sessions: Vec::new(alloc),
        used: Vec::new(alloc),
        has_failed: false,
        lacks_room: false,
        mark,
    }
}

/// A worker for each desk, with the door and the means of its place, in a list that has room for all. It takes no memory.
pub fn seat<D: Door + Drop, P: Panel + Drop, C: Sink + Drop, T: Ledger>(
    alloc: Global,
    desks: Vec<Desk<T>>,
    doors: Vec<D>,
    means: Vec<Means<P, C>>,
    workers: Vec<Worker<D, P, C, T>>,
) -> Vec<Worker<D, P, C, T>>
where
    D::Link: Drop,
    requires doors { length doors.items ≡ length desks.items }
    requires means { length means.items ≡ length desks.items }
    requires none { workers.items ≡ [] }
    requires room { length desks.items ≤ vec_capacity workers }
    ensures { result.items ≡ seated desks.items (map (door_view D.Door D.Link.Link)
        doors.items) means.items }
{
    let mut workers = workers;
    let mut desks = VecDeque::from(desks);
    let mut doors = VecDeque::from(doors);
    let mut means = VecDeque::from(means);
    while let Some(desk) = desks.pop_front() {
        let Some(door) = doors.pop_front() else {
            unreachable!()
        };
        let Some(own) = means.pop_front() else {
            unreachable!()
        };
        workers.push_reserved(seat_one(alloc, desk, door, own));
    }
    workers
}
