// Plays whole days of a service over a door and a panel in memory, and compares what each session is told, line by line, how it ends, and what is
// written.
ghost use Rattle.std.specs.Prelude.{◌≤◌, IfOk};
ghost use Rattle.std.specs.List.{All};
ghost use Rattle.nx_io.specs.MemoryDoors.{IsFreshPlan, IsFreshWire};

use crate::recorder::MemRecorder;
use crate::runs::{asks_of, show, spelled, words_of};
use authority_ask::MemPanel;
use journal_text::reply_line;
use line_log::{LineLog, MemWire};
use nexus_client::request_of_line;
use nexus_run::{HandedBack, Sinks, run};
use nexus_serve::{Means, Reports, ServedSession};
use nx_io::{Bytes, DoorPlan, Gate, MemDoor, MemLink, MemSink, MemSource, OpenGate, Sink};
use session_core::SessionEnd;
use session_wire::{ReplyRead, read_reply};
use std::alloc::{AllocError, AllocGlobal, Global};
use std::fs::Files;
use std::mem;
use std::net::{Net, TcpListener, TcpStream};
use std::process::Abort;
use std::rt::Clock;
use std::sync::Wait;
use std::thread::Threads;

// A service and what comes of it, as lines `name=value`, in which `|` stands for a line feed; what its own lines do not say is said by another text.
//
// `words`, and the input, `policy`; `answers` of authorities; `room` and `piece` of the streams; `write`, `sync`, `reach`, `share`, `listen`, `next` and `send`,
// the number of the call that fails, 0 or nothing where none does. `talks`, the sessions of the first worker, and `others`, those of the second: `&`
// stands between sessions, and `|` between the lines of one, which are request lines, `objects N`, which asks for so many objects, and `raw` with bytes.
//
// `holds`: how many bytes each share of the sink for records holds, and `lend`, the number of the share that fails. `keeps`: how many lines the
// keeper of a log keeps.
//
// Then `status`; `told`, what the sessions are told, one after another, and how each ends; `written`; `noted`, what is told beside a refusal;
// `logged`, what was sent to a keeper; and
// `recorded`, what was recorded, a worker after the other, with `&` behind each. Where these begin with `..` they are the end.
#[derive(Clone, Copy)]
pub struct Day<'a> {
    pub own: &'a str,
    pub other: &'a str,
}

// The value that a text has under a name.
fn value<'a>(text: &'a str, name: &str) -> Option<&'a str> {
    for line in text.lines() {
        let (before, value) = line.split_once('=').unwrap_or(("", ""));
        if before == name {
            return Some(value);
        }
    }
    None
}

impl<'a> Day<'a> {
    fn at(self, name: &str) -> &'a str {
        match value(self.own, name) {
            Some(value) => value,
            None => value(self.other, name).unwrap_or(""),
        }
    }

    fn number(self, name: &str) -> u64 {
        self.at(name).parse::<u64>().unwrap_or(0)
    }

    fn size(self, name: &str) -> usize {
        self.at(name).parse::<usize>().unwrap_or(0)
    }
}

// The frame of a line.
fn frame_of(alloc: Global, line: &str) -> Result<Bytes, AllocError> {
    match request_of_line(alloc, line.as_bytes()) {
        Ok(frame) => Ok(frame),
        Err(_) => Err(AllocError),
    }
}

// Appends the frame of a line.
fn push_frame(alloc: Global, line: &str, frames: &mut Vec<u8>) -> Result<(), AllocError> {
    let frame = frame_of(alloc, line)?;
    frames.extend_from_slice(frame.as_slice())
}

// Appends the frames that ask for so many objects.
fn push_objects(alloc: Global, objects: u64, frames: &mut Vec<u8>) -> Result<(), AllocError> {
    for number in 0..objects {
        let line = format!(in alloc; "object o{number}")?;
        push_frame(alloc, line.as_str(), frames)?;
    }
    Ok(())
}

fn digit(byte: u8) -> u8
    ensures { result ≤ 15 }
{
    match byte {
        b'0'..=b'9' => byte - b'0',
        b'a'..=b'f' => byte - b'a' + 10,
        _ => 0,
    }
}

// Appends the bytes that a text spells, two digits each.
fn push_raw(text: &str, frames: &mut Vec<u8>) -> Result<(), AllocError> {
    let mut high = None;
    for byte in text.as_bytes() {
        high = match high {
            None => Some(digit(*byte)),
            Some(high) => {
                frames.push(high.wrapping_mul(16) | digit(*byte))?;
                None
            }
        };
    }
    Ok(())
}

// Appends what comes of a line of a session.
fn push_line(alloc: Global, line: &str, frames: &mut Vec<u8>) -> Result<(), AllocError> {
    match line.split_once(' ') {
        Some(("objects", count)) => {
            push_objects(alloc, count.parse::<u64>().unwrap_or(0), frames)
        }
        Some(("raw", text)) => push_raw(text, frames),
        _ => push_frame(alloc, line, frames),
    }
}

// What comes over the link of a session.
fn frames_of(alloc: Global, session: &str) -> Result<Vec<u8>, AllocError> {
    let mut frames = Vec::new(alloc);
    for line in session.split('|') {
        push_line(alloc, line, &mut frames)?;
    }
    Ok(frames)
}

// The link of a session.
fn link_of(alloc: Global, session: &str, day: Day) -> Result<MemLink, AllocError>
    ensures { IfOk result IsFreshWire }
{
    let frames = frames_of(alloc, session)?;
    let piece = day.size("piece").max(1);
    let fails = [day.number("send")];
    MemLink::new(alloc, frames.as_slice(), 40_000, piece, &[], &fails)
}

// One link more.
fn with_link(links: Vec<MemLink>, link: MemLink) -> Result<Vec<MemLink>, AllocError>
    requires links { All IsFreshWire links.items }
    requires link { IsFreshWire link }
    ensures { IfOk result (λ more. All IsFreshWire more.items) }
{
    let mut links = links;
    links.push(link)?;
    Ok(links)
}

// The links of the sessions.
fn links_of(alloc: Global, sessions: &str, day: Day) -> Result<Vec<MemLink>, AllocError>
    ensures { IfOk result (λ links. All IsFreshWire links.items) }
{
    let mut links = Vec::new(alloc);
    for session in sessions.split('&') {
        if !session.is_empty() {
            let link = link_of(alloc, session, day)?;
            links = with_link(links, link)?;
        }
    }
    Ok(links)
}

// What the share of a worker will have.
fn plan_of(alloc: Global, sessions: &str, day: Day) -> Result<DoorPlan, AllocError>
    ensures { IfOk result IsFreshPlan }
{
    let fails = [day.number("next")];
    Ok(DoorPlan {
        links: links_of(alloc, sessions, day)?,
        fails: Vec::from_slice(alloc, &fails)?,
    })
}

// The door of two workers.
fn door_of(alloc: Global, day: Day) -> Result<MemDoor, AllocError> {
    let first = plan_of(alloc, day.at("talks"), day)?;
    match plan_of(alloc, day.at("others"), day) {
        Ok(second) => door_with(alloc, day, first, second),
        Err(AllocError) => {
            drop(first);
            Err(AllocError)
        }
    }
}

// The door of these two plans.
fn door_with(
    alloc: Global,
    day: Day,
    first: DoorPlan,
    second: DoorPlan,
) -> Result<MemDoor, AllocError>
    requires first { IsFreshPlan first }
    requires second { IsFreshPlan second }
{
    let plans = Vec::from_array(alloc, [first, second])?;
    MemDoor::new(alloc, plans, None, &[day.number("listen")])
}

// No session here has more replies.
const MOST_REPLIES: u64 = 1000;

// Appends the lines of the replies in these bytes, each with a `|`.
fn show_replies(alloc: Global, sent: &[u8], lines: &mut Vec<u8>) -> Result<(), AllocError> {
    let mut link = MemLink::new(alloc, sent, 0, 1000, &[], &[])?;
    for _ in 0..MOST_REPLIES {
        let ReplyRead::Reply(reply) = read_reply(&mut link) else {
            return Ok(());
        };
        let line = reply_line(alloc, &reply)?;
        lines.extend_from_slice(line.as_slice())?;
        lines.push(b'|')?;
    }
    Ok(())
}

// How a session ended.
fn end_line(end: SessionEnd) -> &'static [u8] {
    match end {
        SessionEnd::Closed => b"closed|",
        SessionEnd::Torn => b"torn|",
        SessionEnd::BadFrame { .. } => b"bad frame|",
        SessionEnd::ReadFault => b"read fault|",
        SessionEnd::WriteFault => b"write fault|",
        SessionEnd::Spent => b"spent|",
        SessionEnd::Memory => b"memory|",
    }
}

// Appends what the sessions of a worker were told, and how each ended.
fn show_sessions(
    alloc: Global,
    sessions: &[ServedSession<MemLink>],
    lines: &mut Vec<u8>,
) -> Result<(), AllocError> {
    for session in sessions {
        show_replies(alloc, session.link.sent(), lines)?;
        lines.extend_from_slice(end_line(session.end))?;
    }
    Ok(())
}

// What the sessions were told, and how each ended, worker by worker.
fn told_in(alloc: Global, workers: &[Reports<MemLink>]) -> Result<Vec<u8>, AllocError> {
    let mut lines = Vec::new(alloc);
    for worker in workers {
        show_sessions(alloc, worker.sessions.as_slice(), &mut lines)?;
    }
    Ok(lines)
}

// A sink that shows what it was sent.
pub trait Shown: Sink {
    // The bytes that it was sent.
    fn shown(&self) -> &[u8];
}

impl Shown for MemSink {
    fn shown(&self) -> &[u8] {
        self.sent()
    }
}

// What was written.
fn written_in<K: Shown>(alloc: Global, sink: &K) -> Result<Vec<u8>, AllocError> {
    let mut lines = Vec::new(alloc);
    show(sink.shown(), &mut lines)?;
    Ok(lines)
}

// Whether the bytes are what is due, or end in it.
fn is_due(bytes: &[u8], due: &str) -> bool {
    match due.strip_prefix("..") {
        Some(end) => bytes.ends_with(end.as_bytes()),
        None => bytes == due.as_bytes(),
    }
}

// What a service runs over, beside its gate and the sink for its output.
struct Devices<'a> {
    words: Vec<&'a str>,
    source: MemSource,
    records: MemRecorder,
    log: LineLog<MemWire>,
    panel: MemPanel,
    door: MemDoor,
}

// The devices of a day. What is there is let go by one call where there is no memory for the next.
fn devices_of<'a>(alloc: Global, day: Day<'a>) -> Result<Devices<'a>, AllocError> {
    let words = words_of(alloc, day.at("words"))?;
    match source_of(alloc, day) {
        Ok(source) => devices_over(alloc, day, words, source),
        Err(AllocError) => {
            drop(words);
            Err(AllocError)
        }
    }
}

// The input of a day.
fn source_of(alloc: Global, day: Day) -> Result<MemSource, AllocError> {
    let policy = spelled(alloc, day.at("policy"))?;
    MemSource::new(alloc, policy.as_slice(), 100, &[])
}

fn devices_over<'a>(
    alloc: Global,
    day: Day<'a>,
    words: Vec<&'a str>,
    source: MemSource,
) -> Result<Devices<'a>, AllocError> {
    match panel_of(alloc, day) {
        Ok(panel) => devices_with(alloc, day, words, source, panel),
        Err(AllocError) => {
            drop(words);
            drop(source);
            Err(AllocError)
        }
    }
}

// The panel of a day.
fn panel_of(alloc: Global, day: Day) -> Result<MemPanel, AllocError> {
    let answers = asks_of(alloc, day.at("answers"))?;
    let (reach, share) = ([day.number("reach")], [day.number("share")]);
    MemPanel::new(alloc, answers.as_slice(), &reach, &share)
}

fn devices_with<'a>(
    alloc: Global,
    day: Day<'a>,
    words: Vec<&'a str>,
    source: MemSource,
    panel: MemPanel,
) -> Result<Devices<'a>, AllocError> {
    match door_of(alloc, day) {
        Ok(door) => devices_and_records(alloc, day, words, source, panel, door),
        Err(AllocError) => {
            drop(words);
            drop(source);
            drop(panel);
            Err(AllocError)
        }
    }
}

fn devices_and_records<'a>(
    alloc: Global,
    day: Day<'a>,
    words: Vec<&'a str>,
    source: MemSource,
    panel: MemPanel,
    door: MemDoor,
) -> Result<Devices<'a>, AllocError> {
    match MemRecorder::new(alloc, day.size("holds"), day.number("lend")) {
        Ok(records) => Ok(Devices {
            words,
            source,
            records,
            log: LineLog::new(alloc, MemWire::new(alloc, day.number("keeps"))),
            panel,
            door,
        }),
        Err(AllocError) => {
            drop(words);
            drop(source);
            drop(panel);
            drop(door);
            Err(AllocError)
        }
    }
}

// What comes back from a day.
type DayEnd<K> = HandedBack<MemDoor, MemPanel, MemRecorder, K, LineLog<MemWire>>;

// A service that is run over these devices and this sink.
fn ended_by<R, G: Gate + Sync, K: Sink + Send + Drop>(
    rt: &R,
    devices: Devices,
    sink: K,
    gate: &G,
) -> DayEnd<K>
where
    R: Net<Listener = TcpListener, Stream = TcpStream>
        + Files
        + AllocGlobal
        + Clock
        + Wait
        + Threads
        + Sync,
{
    let Devices {
        words,
        source,
        records,
        log,
        panel,
        door,
    } = devices;
    let mut source = source;
    let sinks = Sinks {
        output: sink,
        records,
        log,
    };
    run(rt, words.as_slice(), &mut source, sinks, door, panel, gate)
}

// What a service came to is what is due.
fn compare<K: Shown>(
    rt: &impl Abort,
    alloc: Global,
    day: Day,
    end: &DayEnd<K>,
) -> Result<(), AllocError> {
    let ended = &end.ended;
    assert_eq!(rt; u64::from(ended.status), day.number("status"));
    let told = told_in(alloc, ended.reports.as_slice())?;
    assert!(rt;
        is_due(told.as_slice(), day.at("told")),
        "{}",
        day.at("told")
    );
    let Some(sink) = &ended.output else {
        return Err(AllocError);
    };
    let written = written_in(alloc, sink)?;
    assert!(rt;
        is_due(written.as_slice(), day.at("written")),
        "{}",
        day.at("written")
    );
    let Some(records) = &ended.records else {
        return Err(AllocError);
    };
    let mut noted = Vec::new(alloc);
    show(records.sent(), &mut noted)?;
    assert!(rt;
        noted.as_slice() == day.at("noted").as_bytes(),
        "{}",
        day.at("noted")
    );
    let Some(log) = &end.log else {
        return Err(AllocError);
    };
    let mut logged = Vec::new(alloc);
    show(log.wire().requests(), &mut logged)?;
    assert!(rt;
        is_due(logged.as_slice(), day.at("logged")),
        "{}",
        day.at("logged")
    );
    Ok(())
}

// The sink of a day, which takes at most eleven bytes in a write.
pub fn sink_of(alloc: Global, day: Day) -> Result<MemSink, AllocError> {
    let (write, sync) = ([day.number("write")], [day.number("sync")]);
    MemSink::new(alloc, day.size("room"), 11, &write, &sync)
}

// A service that is run by this gate, over this sink, comes to what it should. What it hands back is kept, since it takes long to prove that it may be
// dropped.
pub fn try_day_over<R, G: Gate + Sync, K: Shown + Send + Drop>(
    rt: &R,
    alloc: Global,
    day: Day,
    gate: &G,
    sink: K,
) -> Result<(), AllocError>
where
    R: Net<Listener = TcpListener, Stream = TcpStream>
        + Files
        + AllocGlobal
        + Clock
        + Wait
        + Threads
        + Sync
        + Abort,
{
    let devices = devices_of(alloc, day)?;
    let mut end = ended_by(rt, devices, sink, gate);
    let compared = compare(rt, alloc, day, &end);
    let means = mem::replace(&mut end.ended.means, Vec::new(alloc));
    mem::forget(end);
    let recorded = recorded_by(alloc, means)?;
    assert!(rt;
        recorded.as_slice() == day.at("recorded").as_bytes(),
        "{}",
        day.at("recorded")
    );
    compared
}

// What was recorded, a worker after the other.
fn recorded_by(
    alloc: Global,
    means: Vec<Means<MemPanel, MemRecorder>>,
) -> Result<Vec<u8>, AllocError> {
    let mut lines = Vec::new(alloc);
    for own in means {
        let Means { panel, records } = own;
        drop(panel);
        if let Some(sink) = records.into_sink() {
            let shown = show(sink.sent(), &mut lines);
            drop(sink);
            shown?;
            lines.push(b'&')?;
        }
    }
    Ok(lines)
}

// The same over a sink in memory.
pub fn try_day<R, G: Gate + Sync>(
    rt: &R,
    alloc: Global,
    day: Day,
    gate: &G,
) -> Result<(), AllocError>
where
    R: Net<Listener = TcpListener, Stream = TcpStream>
        + Files
        + AllocGlobal
        + Clock
        + Wait
        + Threads
        + Sync
        + Abort,
{
    let sink = sink_of(alloc, day)?;
    try_day_over(rt, alloc, day, gate, sink)
}

// Each of the days, which empty lines part, comes to what it should.
pub fn try_days<R>(rt: &R, alloc: Global, days: &str, other: &str) -> Result<(), AllocError>
where
    R: Net<Listener = TcpListener, Stream = TcpStream>
        + Files
        + AllocGlobal
        + Clock
        + Wait
        + Threads
        + Sync
        + Abort,
{
    for own in days.split("\n\n") {
        try_day(rt, alloc, Day { own, other }, &OpenGate)?;
    }
    Ok(())
}
