//! Sessions over one board, one after another, and what comes of them.
ghost use Rattle.std.specs.Prelude.{◌≡◌, ◌<◌, Some, true};
ghost use Rattle.policy_book.specs.Books.{IsNamed};
ghost use Rattle.session_rows.specs.Fresh.{IsNew};

use crate::boards::board_of;
use crate::frames::bytes_of;
use crate::tables::number;
use crate::talks::{Talk, link_of, talk_of};
use authority_ask::{Ask, MemPanel};
use nx_io::{Gate, MemSink, Place};
use policy_book::{Book, BookAccess, BookNaming, LockedBook, NalMatter, SharedBook};
use session_core::{Beside, RecordKeeper, SessionEnd, serve_link};
use std::alloc::{AllocError, Global};
use std::cell::Cell;
use std::marker::Brand;
use std::net::{Net, TcpListener, TcpStream};
use std::rt::Clock;
use std::str;
use std::sync::Wait;
use std::sync::ledger::{Blank, Ledger};
use verdict_words::{Board, Pass};

/// What comes of a play: whether each session is told what it should be and closes its link, how each ends, how often the gate is
/// told each of its places, how often an authority is asked, and how many entries the journal has.
#[derive(Clone, Copy)]
struct Outcome {
    told: bool,
    ends: [SessionEnd; 3],
    missed: u64,
    asking: u64,
    answered: u64,
    asks: u64,
    entries: u64,
}

/// How often a gate is told each of its places.
#[derive(Drop)]
struct Counter {
    missed: Cell<u64>,
    asking: Cell<u64>,
    answered: Cell<u64>,
}

impl Counter {
    fn new() -> Counter {
        Counter {
            missed: Cell::new(0),
            asking: Cell::new(0),
            answered: Cell::new(0),
        }
    }
}

impl Gate for Counter {
    fn at<R: Net<Listener = TcpListener, Stream = TcpStream> + Clock>(
        &self,
        _rt: &R,
        place: Place,
    ) {
        let count = match place {
            Place::Missed { .. } => &self.missed,
            Place::Asking { .. } => &self.asking,
            Place::Answered { .. } => &self.answered,
        };
        count.set(count.get().saturating_add(1));
    }
}

// The answers that the words name.
fn answers_of(alloc: Global, words: &str) -> Result<Vec<Ask>, AllocError> {
    let mut answers = Vec::new(alloc);
    for word in words.split_whitespace() {
        answers.push(match word {
            "yes" => Ask::Yes,
            "no" => Ask::No,
            "down" => Ask::Down,
            _ => return Err(AllocError),
        })?;
    }
    Ok(answers)
}

// A panel that gives the answers that the words name.
fn panel_of(alloc: Global, words: &str) -> Result<MemPanel, AllocError> {
    let answers = answers_of(alloc, words)?;
    MemPanel::new(alloc, answers.as_slice(), &[], &[])
}

// The talks of three lines, of which one that is missing asks nothing.
fn talks_of(alloc: Global, text: &str) -> Result<Vec<Talk>, AllocError> {
    let (mut talks, mut lines) = (Vec::new(alloc), text.lines());
    for _ in 0..3 {
        talks.push(talk_of(alloc, lines.next().unwrap_or(""))?)?;
    }
    Ok(talks)
}

/// Plays three sessions, one after another. The first line names a policy, tells how much the sink of its book holds and, behind a
/// comma, which of its syncs fails, if one does, and behind a slash how much the sink of its records holds, if records are wanted, and
/// what the authorities answer; each of the next three is a talk, or no line for a session that is asked nothing. The records stand
/// last, with a semicolon for each line feed.
pub fn told<R: Net<Listener = TcpListener, Stream = TcpStream> + Clock + Wait>(
    rt: &R,
    alloc: Global,
    text: &str,
) -> Result<String, AllocError> {
    let (head, talks) = text.split_once("\n").unwrap_or((text, ""));
    let (policy, rest) = head.split_once(" ").unwrap_or(("", ""));
    let (room, answers) = rest.split_once(" ").unwrap_or((rest, ""));
    let talks = talks_of(alloc, talks)?;
    let mut panel = panel_of(alloc, answers)?;
    let (room, records) = room.split_once('/').unwrap_or((room, ""));
    let mut records = keeper_of(alloc, records)?;
    let outcome = outcome_of(
        rt,
        alloc,
        policy,
        room,
        &mut panel,
        &mut records,
        talks.as_slice(),
    );
    drop(panel);
    drop(talks);
    let recorded = records_told(alloc, records);
    let (told, recorded) = (outcome_told(alloc, &outcome?)?, recorded?);
    format!(in alloc; "{told}{recorded}")
}

// Who keeps records, in a sink that holds so many bytes; nobody where none are named.
fn keeper_of(alloc: Global, room: &str) -> Result<RecordKeeper<MemSink>, AllocError> {
    if room.is_empty() {
        return Ok(RecordKeeper::nobody());
    }
    let sink = MemSink::new(alloc, number(room) as usize, 1000, &[], &[])?;
    Ok(RecordKeeper::over(sink))
}

// The records that were sent.
fn records_told(alloc: Global, records: RecordKeeper<MemSink>) -> Result<String, AllocError> {
    match records.into_sink() {
        Some(sink) => {
            let told = lines_told(alloc, sink.sent());
            drop(sink);
            told
        }
        None => Ok(String::new(alloc)),
    }
}

fn lines_told(alloc: Global, bytes: &[u8]) -> Result<String, AllocError> {
    let lines = str::from_utf8(bytes)
        .unwrap_or("?")
        .replace(alloc, '\n', ";")?;
    format!(in alloc; " Records {lines}.")
}

fn outcome_told(alloc: Global, outcome: &Outcome) -> Result<String, AllocError> {
    let Outcome {
        told,
        ends: [first, second, third],
        missed,
        asking,
        answered,
        asks,
        entries,
    } = outcome;
    format!(in alloc;
        "{told} {first:?} {second:?} {third:?}, asks {asks}, asking {asking} missed {missed} answered {answered} entries {entries}."
    )
}

// Plays the sessions. An `Err` is want of memory, or a policy that is none.
fn outcome_of<R: Net<Listener = TcpListener, Stream = TcpStream> + Clock + Wait>(
    rt: &R,
    alloc: Global,
    policy: &str,
    room: &str,
    panel: &mut MemPanel,
    records: &mut RecordKeeper<MemSink>,
    talks: &[Talk],
) -> Result<Outcome, AllocError> {
    let policy = bytes_of(alloc, policy)?;
    let (room, sync) = room.split_once(',').unwrap_or((room, "0"));
    let sink = MemSink::new(alloc, number(room) as usize, 1000, &[], &[number(sync)])?;
    match board_of(alloc, policy.as_slice(), sink) {
        Some(made) => Ok(serve_all(rt, alloc, made, panel, records, talks)),
        None => Err(AllocError),
    }
}

// Serves the three sessions over a new board.
fn serve_all<R: Net<Listener = TcpListener, Stream = TcpStream> + Clock + Wait>(
    rt: &R,
    alloc: Global,
    made: (Board<NalMatter>, Book<MemSink>),
    panel: &mut MemPanel,
    records: &mut RecordKeeper<MemSink>,
    talks: &[Talk],
) -> Outcome
    requires opened { made.1.is_open ≡ true }
    requires board { made.1.board ≡ made.0 }
    requires next { made.1.next < 2000 }
{
    let (board, mut book) = made;
    let first = book.enter(&board);
    let second = book.enter(&board);
    let third = book.enter(&board);
    let passes = (first, second, third);
    let ledgers = (Blank::new(1), Blank::new(1));
    let outcome = serve_passes::<Brand, Brand, Brand, R>(
        rt, alloc, &board, book, ledgers, passes, panel, records, talks,
    );
    drop(board);
    outcome
}

fn serve_passes<
    N: BookNaming,
    T: Ledger,
    W: Ledger,
    R: Net<Listener = TcpListener, Stream = TcpStream> + Clock + Wait,
>(
    rt: &R,
    alloc: Global,
    board: &Board<NalMatter>,
    book: Book<MemSink>,
    ledgers: (Blank, Blank),
    passes: (Pass<NalMatter>, Pass<NalMatter>, Pass<NalMatter>),
    panel: &mut MemPanel,
    records: &mut RecordKeeper<MemSink>,
    talks: &[Talk],
) -> Outcome
    requires opened { book.is_open ≡ true }
    requires named { IsNamed N.board N.next N.start N.start_faults book }
    requires board { book.board ≡ board.now }
    requires ledger { ledgers.0.name ≡ T.name }
    requires parts { (ledgers.0.parts ≡ T.parts) × (T.parts ≡ 1) }
    requires turns { (ledgers.1.name ≡ W.name) × (ledgers.1.parts ≡ W.parts) × (W.parts ≡ 1) }
    requires first { IsNew board.now passes.0 }
    requires second { IsNew board.now passes.1 }
    requires third { IsNew board.now passes.2 }
{
    let gate = Counter::new();
    let beside = Beside { board, gate: &gate };
    let (blank, turns) = ledgers;
    let (tickets, mark) = blank.open::<T>();
    let shared: SharedBook<MemSink, N, T, W> = SharedBook::new(book, tickets, turns);
    let mut locked = LockedBook::new(rt, board, &shared, mark);
    let (first, second, third) = (talks.get(0), talks.get(1), talks.get(2));
    let first = served(
        rt,
        alloc,
        &beside,
        &mut locked,
        passes.0,
        panel,
        records,
        first,
    );
    let second = served(
        rt,
        alloc,
        &beside,
        &mut locked,
        passes.1,
        panel,
        records,
        second,
    );
    let third = served(
        rt,
        alloc,
        &beside,
        &mut locked,
        passes.2,
        panel,
        records,
        third,
    );
    drop(locked);
    let (book, tickets) = shared.into_parts();
    drop(tickets);
    Outcome {
        told: first.0 & second.0 & third.0,
        ends: [first.1, second.1, third.1],
        missed: gate.missed.get(),
        asking: gate.asking.get(),
        answered: gate.answered.get(),
        asks: panel.asks(),
        entries: entries_of(book),
    }
}

// How many entries the journal of a book has.
fn entries_of(book: Book<MemSink>) -> u64 {
    let (journal, sink) = book.into_parts();
    let entries = journal.count();
    drop(journal);
    drop(sink);
    entries
}

// Serves a session over the link of a talk: whether it is told what it should be and closes its link, which was told that its peer is
// admitted where somebody is, and how it ends.
fn served<B: BookAccess, R: Net<Listener = TcpListener, Stream = TcpStream> + Clock>(
    rt: &R,
    alloc: Global,
    beside: &Beside<Counter>,
    book: &mut B,
    pass: Pass<NalMatter>,
    panel: &mut MemPanel,
    records: &mut RecordKeeper<MemSink>,
    talk: Option<&Talk>,
) -> (bool, SessionEnd)
    requires named { B.board book.old ≡ beside.now.board.now }
    requires pass { IsNew beside.now.board.now pass }
    ensures named { B.board book.new ≡ B.board book.old }
{
    match talk {
        Some(talk) => served_to(rt, alloc, beside, book, pass, panel, records, talk),
        None => {
            drop(pass);
            (false, SessionEnd::Memory)
        }
    }
}

fn served_to<B: BookAccess, R: Net<Listener = TcpListener, Stream = TcpStream> + Clock>(
    rt: &R,
    alloc: Global,
    beside: &Beside<Counter>,
    book: &mut B,
    pass: Pass<NalMatter>,
    panel: &mut MemPanel,
    records: &mut RecordKeeper<MemSink>,
    talk: &Talk,
) -> (bool, SessionEnd)
    requires named { B.board book.old ≡ beside.now.board.now }
    requires pass { IsNew beside.now.board.now pass }
    ensures named { B.board book.new ≡ B.board book.old }
{
    match link_of(alloc, talk, talk.asked.as_slice()) {
        Ok(link) => {
            let report = serve_link(rt, alloc, beside, book, pass, link, panel, records);
            let closed = report.link.is_closed();
            let admitted = report.link.is_admitted() == report.principal.is_some();
            let told = report.link.sent() == talk.told.as_slice();
            let end = report.end;
            drop(report);
            (closed & admitted & told, end)
        }
        Err(AllocError) => {
            drop(pass);
            (false, SessionEnd::Memory)
        }
    }
}
