//! Steps of two sessions over one book, one after another, and what comes of them.
ghost use Rattle.std.specs.Prelude.{◌≡◌, ◌<◌, ◌≤◌, ◌-◌, IfSome, false, length, take, true};
ghost use Rattle.policy_history.specs.PolicyTexts.{front};
ghost use Rattle.policy_history.specs.Values.{entry_trees, greatest_of};
ghost use Rattle.policy_book.specs.Books.{IsNamed, head_of, trees_of};

use crate::calls::call;
use crate::changes::change;
use crate::told::Told;
use journal_text::{print_policy, read_policy};
use nx_io::{MemSink, Reach};
use policy_book::{Book, BookAccess, BookNaming, LockedBook, NalMatter, SharedBook};
use policy_history::{Head, Journal};
use std::alloc::{AllocError, Global};
use std::marker::Brand;
use std::net::{Net, TcpListener, TcpStream};
use std::rt::Clock;
use std::sync::Wait;
use std::sync::ledger::{Blank, Ledger};
use verdict_words::{Board, Pass};

/// Steps over a book of this policy, whose sink takes a byte a call, holds so many, and fails at this write and at this sync, from 1.
/// Each step stands on a line: the name of the first principal or another, a request's line, an arrow, and what the session is told.
#[derive(Clone, Copy)]
pub struct Play<'a> {
    pub policy: &'a [u8],
    pub room: usize,
    pub fails: u64,
    pub sync_fails: u64,
    pub steps: &'a str,
}

// What comes of steps: the place of the first that is told something else, and what; and how many entries each pass has seen
// once both are met at the end.
#[derive(Clone, Copy)]
struct Taken {
    wrong: Option<(u64, Told)>,
    seen: [u64; 2],
}

/// Plays the steps: the first step that is told something else, how many entries each pass has seen and how many the journal has,
/// whether a write or a sync has failed, how often the sink has, and how many bytes it has synced; and on the next lines what the sink was sent, with `end` behind it. An
/// `Err` is want of memory, or a policy that is none, has fewer than two principals, or great session numbers.
pub fn told<R: Net<Listener = TcpListener, Stream = TcpStream> + Clock + Wait>(
    rt: &R,
    alloc: Global,
    play: &Play,
) -> Result<String, AllocError> {
    let sink = MemSink::new(alloc, play.room, 1, &[play.fails], &[play.sync_fails])?;
    match read_policy(alloc, play.policy) {
        Ok(journal) => told_over(rt, alloc, journal, sink, play.steps),
        Err(_) => Err(AllocError),
    }
}

fn told_over<R: Net<Listener = TcpListener, Stream = TcpStream> + Clock + Wait>(
    rt: &R,
    alloc: Global,
    journal: Journal,
    sink: MemSink,
    steps: &str,
) -> Result<String, AllocError> {
    match front_of(alloc, &journal) {
        Some(text) => told_with(rt, alloc, journal, sink, text.as_slice(), steps),
        None => {
            drop(journal);
            Err(AllocError)
        }
    }
}

fn told_with<R: Net<Listener = TcpListener, Stream = TcpStream> + Clock + Wait>(
    rt: &R,
    alloc: Global,
    journal: Journal,
    sink: MemSink,
    text: &[u8],
    steps: &str,
) -> Result<String, AllocError>
    requires sessions { greatest_of (entry_trees journal.entries) ≤ 1000 }
    requires principals { 2 ≤ length journal.head.principals }
    requires text { text.now ≡ front journal.head (entry_trees journal.entries) }
{
    match journal.head().copy(alloc) {
        Ok(head) => told_in(rt, alloc, journal, sink, &head, text, steps),
        Err(AllocError) => {
            drop(journal);
            Err(AllocError)
        }
    }
}

/// The text of a journal without its last line, where it has two principals and its sessions have small numbers.
pub fn front_of(alloc: Global, journal: &Journal) -> Option<Vec<u8>>
    ensures text { IfSome result (λ text. text.items ≡ front journal.now.head (entry_trees journal.now.entries)) }
    ensures sessions { IfSome result (λ _. greatest_of (entry_trees journal.now.entries) ≤ 1000) }
    ensures principals { IfSome result (λ _. 2 ≤ length journal.now.head.principals) }
{
    if journal.greatest_session() > 1000 || journal.head().principals.count() < 2 {
        return None;
    }
    match print_policy(alloc, journal) {
        Ok(text) => without_end(alloc, text.as_slice()),
        Err(_) => None,
    }
}

// A text without its last four bytes.
fn without_end(alloc: Global, text: &[u8]) -> Option<Vec<u8>>
    ensures { IfSome result (λ front. front.items ≡ take (length text.now - 4) text.now) }
{
    let count = text.len().saturating_sub(4);
    Vec::from_slice(alloc, &text[..count]).ok()
}

fn told_in<R: Net<Listener = TcpListener, Stream = TcpStream> + Clock + Wait>(
    rt: &R,
    alloc: Global,
    journal: Journal,
    sink: MemSink,
    head: &Head,
    text: &[u8],
    steps: &str,
) -> Result<String, AllocError>
    requires sessions { greatest_of (entry_trees journal.entries) ≤ 1000 }
    requires principals { 2 ≤ length journal.head.principals }
    requires head { head.now ≡ journal.head }
    requires text { text.now ≡ front journal.head (entry_trees journal.entries) }
{
    match Book::make(alloc, journal, sink) {
        Ok(made) => opened(rt, alloc, made, head, text, steps),
        Err((journal, _, AllocError)) => {
            drop(journal);
            Err(AllocError)
        }
    }
}

// No step was taken.
const NOTHING: Taken = Taken {
    wrong: None,
    seen: [0; 2],
};

// Opens a book, and plays the steps where the front of its text was written.
fn opened<R: Net<Listener = TcpListener, Stream = TcpStream> + Clock + Wait>(
    rt: &R,
    alloc: Global,
    made: (Board<NalMatter>, Book<MemSink>),
    head: &Head,
    text: &[u8],
    steps: &str,
) -> Result<String, AllocError>
    requires closed { made.1.is_open ≡ false }
    requires unbroken { made.1.is_broken ≡ false }
    requires board { made.1.board ≡ made.0 }
    requires principals { 2 ≤ length (head_of made.1).principals }
    requires head { head.now ≡ head_of made.1 }
    requires text { text.now ≡ front (head_of made.1) (trees_of made.1) }
    requires room { made.1.next ≤ 1001 }
{
    let (board, mut book) = made;
    let (book, taken) = match book.open(text) {
        Reach::Ready => served(rt, alloc, &board, book, head, steps),
        Reach::Failed => (book, NOTHING),
    };
    drop(board);
    ended(alloc, book, &taken)
}

// Plays the steps over an open book.
fn served<R: Net<Listener = TcpListener, Stream = TcpStream> + Clock + Wait>(
    rt: &R,
    alloc: Global,
    board: &Board<NalMatter>,
    book: Book<MemSink>,
    head: &Head,
    steps: &str,
) -> (Book<MemSink>, Taken)
    requires opened { book.is_open ≡ true }
    requires board { book.board ≡ board.now }
    requires principals { 2 ≤ length (head_of book).principals }
    requires head { head.now ≡ head_of book }
    requires room { book.next ≤ 1001 }
{
    let mut book = book;
    let first = book.enter(board);
    let second = book.enter(board);
    let passes = (first, second);
    let tickets = Blank::new(1);
    let turns = Blank::new(1);
    play_shared::<Brand, Brand, Brand, R>(
        rt,
        alloc,
        board,
        book,
        tickets,
        turns,
        head,
        passes,
        steps.as_bytes(),
    )
}

// Plays the steps over a book behind its locks. They come as bytes, since a call that picks what its types name has no text.
fn play_shared<
    N: BookNaming,
    T: Ledger,
    W: Ledger,
    R: Net<Listener = TcpListener, Stream = TcpStream> + Clock + Wait,
>(
    rt: &R,
    alloc: Global,
    board: &Board<NalMatter>,
    book: Book<MemSink>,
    tickets: Blank,
    turns: Blank,
    head: &Head,
    passes: (Pass<NalMatter>, Pass<NalMatter>),
    steps: &[u8],
) -> (Book<MemSink>, Taken)
    requires opened { book.is_open ≡ true }
    requires named { IsNamed N.board N.next N.start N.start_faults book }
    requires board { book.board ≡ board.now }
    requires tickets { (tickets.name ≡ T.name) × (tickets.parts ≡ T.parts) × (T.parts ≡ 1) }
    requires turns { (turns.name ≡ W.name) × (turns.parts ≡ W.parts) × (W.parts ≡ 1) }
    requires head { head.now ≡ board.now.origin.setting }
    requires principals { 2 ≤ length board.now.origin.setting.principals }
    requires passes { (passes.0.board ≡ board.now) × (passes.1.board ≡ board.now) }
{
    let (tickets, mark) = tickets.open::<T>();
    let shared: SharedBook<MemSink, N, T, W> = SharedBook::new(book, tickets, turns);
    let mut locked = LockedBook::new(rt, board, &shared, mark);
    let steps = str::from_utf8(steps).unwrap_or("");
    let taken = step_all(rt, alloc, &mut locked, board, head, passes, steps);
    drop(locked);
    let (book, tickets) = shared.into_parts();
    drop(tickets);
    (book, taken)
}

// What is left of a book.
fn ended(alloc: Global, book: Book<MemSink>, taken: &Taken) -> Result<String, AllocError> {
    let is_broken = book.broken();
    let (journal, sink) = book.into_parts();
    let entries = journal.count();
    drop(journal);
    let left = ended_told(alloc, entries, is_broken, &sink, taken);
    drop(sink);
    left
}

fn ended_told(
    alloc: Global,
    entries: u64,
    is_broken: bool,
    sink: &MemSink,
    taken: &Taken,
) -> Result<String, AllocError> {
    let Taken {
        wrong,
        seen: [first, second],
    } = taken;
    let sent = str::from_utf8(sink.sent()).unwrap_or("no text");
    let (faults, synced) = (sink.faults(), sink.synced());
    format!(in alloc;
        "{wrong:?}, seen {first} {second}, entries {entries}, broken {is_broken}, faults {faults}, synced {synced}\n{sent}end"
    )
}

// Lets two sessions take the steps, and meets both passes.
fn step_all<B: BookAccess, R: Net<Listener = TcpListener, Stream = TcpStream> + Clock>(
    rt: &R,
    alloc: Global,
    book: &mut B,
    board: &Board<NalMatter>,
    head: &Head,
    passes: (Pass<NalMatter>, Pass<NalMatter>),
    steps: &str,
) -> Taken
    requires board { B.board book.old ≡ board.now }
    requires head { head.now ≡ board.now.origin.setting }
    requires principals { 2 ≤ length board.now.origin.setting.principals }
    requires passes { (passes.0.board ≡ board.now) × (passes.1.board ≡ board.now) }
{
    let (mut passes, mut place, mut wrong) = (passes, 0u64, None);
    for line in steps.lines() {
        let (asked, wanted) = line.split_once(" -> ").unwrap_or(("", ""));
        let (next, told) = turn(rt, alloc, book, board, head, passes, asked);
        passes = next;
        if !is_told(alloc, &told, wanted) {
            wrong = wrong.or(Some((place, told)));
        }
        place = place.wrapping_add(1);
    }
    let (first, second) = passes;
    let (first, second) = (book.meet(first), book.meet(second));
    Taken {
        wrong,
        seen: [first.at(), second.at()],
    }
}

// Lets a session take a step, which begins with the name of the first principal or with another.
fn turn<B: BookAccess, R: Net<Listener = TcpListener, Stream = TcpStream> + Clock>(
    rt: &R,
    alloc: Global,
    book: &mut B,
    board: &Board<NalMatter>,
    head: &Head,
    passes: (Pass<NalMatter>, Pass<NalMatter>),
    asked: &str,
) -> ((Pass<NalMatter>, Pass<NalMatter>), Told)
    requires board { B.board book.old ≡ board.now }
    requires head { head.now ≡ board.now.origin.setting }
    requires principals { 2 ≤ length board.now.origin.setting.principals }
    requires passes { (passes.0.board ≡ board.now) × (passes.1.board ≡ board.now) }
    ensures first { result.0.0.board ≡ board.now }
    ensures second { result.0.1.board ≡ board.now }
    ensures book { B.board book.new ≡ B.board book.old }
{
    let (first, second) = passes;
    let (who, line) = asked.split_once(" ").unwrap_or(("", ""));
    if who == "alice" {
        let (first, told) = step(rt, alloc, book, board, head, first, 0, line);
        ((first, second), told)
    } else {
        let (second, told) = step(rt, alloc, book, board, head, second, 1, line);
        ((first, second), told)
    }
}

// Whether this is the text of what is told.
fn is_told(alloc: Global, told: &Told, wanted: &str) -> bool {
    match format!(in alloc; "{told:?}") {
        Ok(text) => text.as_str() == wanted,
        Err(AllocError) => false,
    }
}

// Takes one step: a request's line asks for a change, or for a call.
fn step<B: BookAccess, R: Net<Listener = TcpListener, Stream = TcpStream> + Clock>(
    rt: &R,
    alloc: Global,
    book: &mut B,
    board: &Board<NalMatter>,
    head: &Head,
    pass: Pass<NalMatter>,
    principal: u32,
    line: &str,
) -> (Pass<NalMatter>, Told)
    requires board { B.board book.old ≡ board.now }
    requires head { head.now ≡ board.now.origin.setting }
    requires principal { principal < length board.now.origin.setting.principals }
    requires pass { pass.board ≡ board.now }
    ensures pass { result.0.board ≡ board.now }
    ensures book { B.board book.new ≡ B.board book.old }
{
    match line.strip_prefix("call ") {
        Some(names) => call(rt, alloc, book, board, pass, principal, names),
        None => change(alloc, book, board, head, pass, principal, line),
    }
}
