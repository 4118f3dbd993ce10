ghost use Rattle.std.specs.Prelude.{◌≡◌, ◌≢◌, ◌⊎◌, ℕ, List, [], None, Some, map, option_map};
ghost use Rattle.nx_io.specs.Streams.{Grows, gained};
ghost use Rattle.nx_io.specs.Views.{HasGiven, door_view, link_view};
ghost use Rattle.run_streams.specs.Ends.{HandsOn};
ghost use Rattle.run_streams.specs.Runs.{sink_run, source_run};
ghost use Rattle.policy_history.specs.declared.heads.Head.{Head};
ghost use Rattle.policy_history.specs.declared.events.Entry.{Entry};
ghost use Rattle.policy_history.specs.Values.{entry_trees};
ghost use Rattle.told_records.specs.Audited.{AreAudited};
ghost use Rattle.nexus_serve.specs.Hosting.{kept_of};
ghost use Rattle.nexus_serve.specs.Services.{IsJournal};
ghost use Rattle.nexus_serve.specs.TrueReports.{AreTrue, asked_by};
ghost use Rattle.verdict_words.specs.Settling.{flat};
ghost use Rattle.service_commands.specs.Clients.{EndsClient, requests_form};
ghost use Rattle.service_commands.specs.Services.{HandsBack};
ghost use Rattle.nexus_run.specs.Commands.{IsCommand, IsUnlogged};
ghost use Rattle.nexus_run.specs.Notes.{HandsOnProgram, HandsOnRefusal, RunsNoted};
ghost use Rattle.nexus_run.specs.Runs.{Runs, RunsProgram, told_by};

use crate::commands::{Call, call_of, logged_of};
use crate::plain::run_plain;
use authority_ask::Panel;
use line_log::Log;
use nexus_serve::Outside;
use nx_io::{Door, Gate, Link, Recorder, Sink, Source};
use script_command::PlainEnd;
use service_commands::{ClientEnd, Ended, TalkCall, client, run_logged_service, run_service};
use std::alloc::{AllocGlobal, Global};
use std::fs::Files;
use std::net::{Net, TcpListener, TcpStream};
use std::rt::Clock;
use std::sync::Wait;
use std::thread::Threads;

/// The sinks of a run: for what it writes, for what stands beside that, and a log that keeps the text of a service.
#[derive(Drop)]
pub struct Sinks<C, K, J> {
    pub output: K,
    pub records: C,
    pub log: J,
}

/// What a run hands back: how it ended, and its log.
#[derive(Drop)]
pub struct HandedBack<D: Door, P: Panel, C: Recorder, K: Sink, J> {
    pub ended: Ended<D, P, C, K>,
    pub log: Option<J>,
}

/// Runs the program: `check` reads one input from the source and writes its outcome to the sink; `script` reads a
/// policy and the requests of sessions, answers each, and writes the replies and then the policy as they left it;
/// `trust` reads what an owner assumes and a goal, and writes whether the untrusted can reach it; `prove` reads labels
/// and a goal, and writes a proof by a chain of delegations; `audit` reads a policy text and recorded verdicts, and
/// writes whether each is right; `explain` reads a policy text and a call, and writes its verdict and what that comes
/// from; `recover` reads a policy text that may be cut, and writes it whole; `export` reads a policy text, and writes
/// the bundle of the labels that a principal holds; `compact` reads a policy text, writes that of the entries that still matter,
/// and then to the records a line with the old and the new number of each label; `core` and `drill` read nothing, and write the
/// line of a generated load, which `drill` runs on threads; `client` reads request lines, sends each over a link to an address, and writes
/// the line of its reply before the next is sent, and so does `import` for a bundle that a peer says; `serve` reads a policy, listens at an address,
/// serves the sessions of its workers, and writes the policy text as the journal grows; with the word `records` it also writes the record of
/// each call to the records, before the call has an effect; and with `log` and an address the text goes to the log, which is reached there.
///
/// The status is 0 where all was done (of `check` at `allowed`, of `trust` at `safe`, of `explain` at `allowed`, of
/// `prove` at a proof, of `audit` where each record is right), 1 at `denied`, where a goal is not safe, where there is
/// no chain, where a record is wrong and where there is no principal to export, 2 where the words are not those of a
/// command, which then reads and writes nothing, 3 where the input is refused, 4 where the source failed, 5 where the
/// sink failed, or the records of `compact` or of a service whose calls are recorded, 6 where memory ran out, 7 where the door or a share
/// of it failed, or the link of a talk, 8 where an authority could not be reached or the panel not be shared, and 9 where the link of a talk
/// ended before a whole reply or gave what is no reply. `docs/FORMATS.md`, "Statuses", states this. With 3 the records are told in one line
/// what is wrong with the input; what comes of that changes nothing else.
///
/// The input is what the source gives in this call. It is read to its first end, unless it is too large, the source fails or memory runs
/// out. Sinks, door and panel are handed back; only `serve` with a log uses the log; only `serve`, `client` and `import` use the door, only `script` and `serve` the
/// panel, and only `compact`, `serve` with the word `records`, and an input that is refused, the records. The workers of a service have shares of door, panel and
/// records; what was sent of their records is told by their means.
pub fn run<R, S: Source, C, K, J, D, P, G>(
    rt: &R,
    words: &[&str],
    input: &mut S,
    sinks: Sinks<C, K, J>,
    door: D,
    panel: P,
    gate: &G,
) -> HandedBack<D, P, C, K, J>
where
    C: Recorder + Send + Drop,
    K: Sink + Send + Drop,
    J: Log + Send + Drop,
    D: Door + Send + Drop,
    D::Link: Link + Send + Drop,
    P: Panel + Send + Drop,
    G: Gate + Sync,
    R: Net<Listener = TcpListener, Stream = TcpStream>
        + AllocGlobal
        + Clock
        + Files
        + Wait
        + Threads
        + Sync,
    ensures other_words { ¬ IsCommand (map (λ w. w.now) words.now)
        → (result.ended.status ≡ 2) × (input.new ≡ input.old) × HandsBack result.ended.output (λ k. k ≡ sinks.output) }
    ensures runs { RunsNoted (told_by S.Source K.Sink C.Sink C.Recorder.own D.Door D.Link.Link P.history)
        J.Sink J.Log.own (map (λ w. w.now) words.now)
        (record { input = input.old; output = sinks.output; records = sinks.records; door = door; panel = panel })
        sinks.log input.new result.ended result.log }
    ensures earned { (h : Head) (es : List Entry) → IsJournal result.ended.journal h es
        → (low : ℕ) × AreTrue h (entry_trees es) low (asked_by P.history result.ended.means)
        (flat result.ended.reports) }
{
    let alloc = rt.alloc();
    let HandedBack { ended, log } = run_command(rt, words, input, sinks, door, panel, gate);
    HandedBack {
        ended: ended.with_note(),
        log,
    }
}

/// As `run`, before anything is told beside a refusal.
fn run_command<R, S: Source, C, K, J, D, P, G>(
    rt: &R,
    words: &[&str],
    input: &mut S,
    sinks: Sinks<C, K, J>,
    door: D,
    panel: P,
    gate: &G,
) -> HandedBack<D, P, C, K, J>
where
    C: Recorder + Send + Drop,
    K: Sink + Send + Drop,
    J: Log + Send + Drop,
    D: Door + Send + Drop,
    D::Link: Link + Send + Drop,
    P: Panel + Send + Drop,
    G: Gate + Sync,
    R: Net<Listener = TcpListener, Stream = TcpStream>
        + AllocGlobal
        + Clock
        + Files
        + Wait
        + Threads
        + Sync,
    ensures other_words { ¬ IsCommand (map (λ w. w.now) words.now)
        → (result.ended.status ≡ 2) × (input.new ≡ input.old) × HandsBack result.ended.output (λ k. k ≡ sinks.output) }
    ensures runs { RunsProgram (told_by S.Source K.Sink C.Sink C.Recorder.own D.Door D.Link.Link P.history)
        J.Sink J.Log.own (map (λ w. w.now) words.now)
        (record { input = input.old; output = sinks.output; records = sinks.records; door = door; panel = panel })
        sinks.log input.new result.ended result.log }
    ensures earned { (h : Head) (es : List Entry) → IsJournal result.ended.journal h es
        → (low : ℕ) × AreTrue h (entry_trees es) low (asked_by P.history result.ended.means)
        (flat result.ended.reports) }
    ensures handed { HandsOnProgram (told_by S.Source K.Sink C.Sink C.Recorder.own D.Door D.Link.Link P.history)
        (map (λ w. w.now) words.now)
        (record { input = input.old; output = sinks.output; records = sinks.records; door = door; panel = panel })
        input.new result.ended }
{
    let Some(call) = logged_of(words) else {
        return run_unlogged(rt, words, input, sinks, door, panel, gate);
    };
    let Sinks {
        output,
        records,
        log,
    } = sinks;
    let mut output = output;
    let (recorder, aside) = call.service.recorder(records);
    let outside = Outside {
        door,
        panel,
        recorder,
    };
    let alloc = rt.alloc();
    let ended = run_logged_service(rt, alloc, call, input, &mut output, log, outside, gate);
    beside_output(ended.with_records(aside), output)
}

/// A run of a command that needs no log, or of no command. It stands apart, so that it has no room on the stack for a service with one.
#[inline(never)]
fn run_unlogged<R, S: Source, C, K, J, D, P, G>(
    rt: &R,
    words: &[&str],
    input: &mut S,
    sinks: Sinks<C, K, J>,
    door: D,
    panel: P,
    gate: &G,
) -> HandedBack<D, P, C, K, J>
where
    C: Recorder + Send + Drop,
    K: Sink + Send + Drop,
    J: Drop,
    D: Door + Send + Drop,
    D::Link: Link + Send + Drop,
    P: Panel + Send + Drop,
    G: Gate + Sync,
    R: Net<Listener = TcpListener, Stream = TcpStream>
        + AllocGlobal
        + Clock
        + Files
        + Wait
        + Threads
        + Sync,
    ensures other_words { ¬ IsUnlogged (map (λ w. w.now) words.now)
        → (result.ended.status ≡ 2) × (input.new ≡ input.old) × HandsBack result.ended.output (λ k. k ≡ sinks.output) }
    ensures runs { Runs (told_by S.Source K.Sink C.Sink C.Recorder.own D.Door D.Link.Link P.history)
        (map (λ w. w.now) words.now)
        (record { input = input.old; output = sinks.output; records = sinks.records; door = door; panel = panel })
        input.new result.ended }
    ensures log { result.log ≡ Some sinks.log }
    ensures handed { HandsOnRefusal (told_by S.Source K.Sink C.Sink C.Recorder.own D.Door D.Link.Link P.history)
        (map (λ w. w.now) words.now)
        (record { input = input.old; output = sinks.output; records = sinks.records; door = door; panel = panel })
        input.new result.ended }
    ensures only { result.ended.status ≢ 3 → result.ended.refusal ≡ None }
    ensures earned { (h : Head) (es : List Entry) → IsJournal result.ended.journal h es
        → (low : ℕ) × AreTrue h (entry_trees es) low (asked_by P.history result.ended.means)
        (flat result.ended.reports) }
    ensures audited { HandsBack result.ended.output (λ k. AreAudited (K.faults sinks.output) (K.faults k)
        (gained (K.sent sinks.output) (K.sent k)) (kept_of result.ended.means)) }
{
    let alloc = rt.alloc();
    let Some(call) = call_of(words) else {
        return idle_back(alloc, 2, sinks, door, panel);
    };
    match call {
        Call::Serve(service) => {
            let Sinks {
                output,
                records,
                log,
            } = sinks;
            let (recorder, aside) = service.recorder(records);
            let outside = Outside {
                door,
                panel,
                recorder,
            };
            let ended = run_service(rt, alloc, service, input, output, outside, gate);
            HandedBack {
                ended: ended.with_records(aside),
                log: Some(log),
            }
        }
        Call::Talk(talk) => run_talk(rt, alloc, talk, input, sinks, door, panel),
        Call::Plain(command) => {
            let mut sinks = sinks;
            let end = run_plain(
                rt,
                alloc,
                command,
                input,
                &mut sinks.records,
                &mut sinks.output,
                panel,
            );
            handed_back(alloc, end, sinks, door)
        }
    }
}

/// The end of a run that did nothing.
pub(crate) fn idle_back<
    D: Door + Drop,
    P: Panel + Drop,
    C: Recorder + Drop,
    K: Sink + Drop,
    J: Drop,
>(alloc: Global, status: u8, sinks: Sinks<C, K, J>, door: D, panel: P) -> HandedBack<D, P, C, K, J>
where
    D::Link: Drop,
    ensures ended { result.ended ≡ record {
      status = status;
      refusal = None;
      output = Some sinks.output;
      records = Some sinks.records;
      journal = None;
      reports = [];
      dialed = None;
      door = door;
      doors = [];
      panel = panel;
      means = [];
    } }
    ensures log { result.log ≡ Some sinks.log }
{
    let end = PlainEnd {
        status,
        refusal: None,
        journal: None,
        panel,
    };
    handed_back(alloc, end, sinks, door)
}

/// The end of a run that dialed nobody and served nobody.
fn handed_back<D: Door + Drop, P: Panel + Drop, C: Recorder + Drop, K: Sink + Drop, J: Drop>(
    alloc: Global,
    end: PlainEnd<P>,
    sinks: Sinks<C, K, J>,
    door: D,
) -> HandedBack<D, P, C, K, J>
where
    D::Link: Drop,
    ensures ended { result.ended ≡ record {
      status = end.status;
      refusal = end.refusal;
      output = Some sinks.output;
      records = Some sinks.records;
      journal = end.journal;
      reports = [];
      dialed = None;
      door = door;
      doors = [];
      panel = end.panel;
      means = [];
    } }
    ensures log { result.log ≡ Some sinks.log }
{
    let Sinks {
        output,
        records,
        log,
    } = sinks;
    let PlainEnd {
        status,
        refusal,
        journal,
        panel,
    } = end;
    let ended = Ended {
        status,
        refusal,
        output: Some(output),
        records: Some(records),
        journal,
        reports: Vec::new(alloc),
        dialed: None,
        door,
        doors: Vec::new(alloc),
        panel,
        means: Vec::new(alloc),
    };
    HandedBack {
        ended,
        log: Some(log),
    }
}

/// What is handed back behind a service whose text was kept by a log: the log stands where the output does else, and this was the output.
fn beside_output<
    D: Door + Drop,
    P: Panel + Drop,
    C: Recorder + Drop,
    K: Sink + Drop,
    J: Sink + Drop,
>(ended: Ended<D, P, C, J>, output: K) -> HandedBack<D, P, C, K, J>
where
    D::Link: Drop,
    ensures ended { result.ended ≡ record {
      status = ended.status;
      refusal = ended.refusal;
      output = Some output;
      records = ended.records;
      journal = ended.journal;
      reports = ended.reports;
      dialed = ended.dialed;
      door = ended.door;
      doors = ended.doors;
      panel = ended.panel;
      means = ended.means;
    } }
    ensures log { result.log ≡ ended.output }
{
    let Ended {
        status,
        refusal,
        output: log,
        records,
        journal,
        reports,
        dialed,
        door,
        doors,
        panel,
        means,
    } = ended;
    let ended = Ended {
        status,
        refusal,
        output: Some(output),
        records,
        journal,
        reports,
        dialed,
        door,
        doors,
        panel,
        means,
    };
    HandedBack { ended, log }
}

/// Runs a talk, which needs the source, the sink and the door. It stands apart, so that the other commands have no room on the stack
/// for a talk.
#[inline(never)]
fn run_talk<R, S: Source, C, K, J, D, P>(
    rt: &R,
    alloc: Global,
    call: TalkCall<'_>,
    input: &mut S,
    sinks: Sinks<C, K, J>,
    door: D,
    panel: P,
) -> HandedBack<D, P, C, K, J>
where
    C: Recorder + Drop,
    K: Sink + Drop,
    J: Drop,
    D: Door + Drop,
    D::Link: Drop,
    P: Panel + Drop,
    R: Net<Listener = TcpListener, Stream = TcpStream> + Clock,
    ensures gave { HasGiven S.Source input.old input.new }
    ensures sent { HandsBack result.ended.output (λ k. Grows (K.sent sinks.output) (K.sent k)) }
    ensures untouched { result.ended.dialed ≡ None → (result.ended.status ≡ 4) ⊎ (result.ended.status ≡ 6)
        → HandsBack result.ended.output (λ k. k ≡ sinks.output) }
    ensures undialed { result.ended.dialed ≡ None → result.ended.status ≢ 7 → result.ended.door ≡ door }
    ensures talk { HandsBack result.ended.output (λ k. EndsClient call.entry.input call.entry.address.now
        (source_run S.Source input.old input.new)
        (sink_run K.Sink sinks.output k)
        (door_view D.Door D.Link.Link door)
        (door_view D.Door D.Link.Link result.ended.door)
        (option_map (link_view D.Link.Link) result.ended.dialed)
        result.ended.status) }
    ensures unused { (result.ended.journal ≡ None) × (result.ended.reports ≡ []) × (result.ended.doors ≡ [])
        × (result.ended.panel ≡ panel) × (result.ended.means ≡ []) × (result.ended.records ≡ Some sinks.records) }
    ensures log { result.log ≡ Some sinks.log }
    ensures handed { HandsBack result.ended.output (λ k. HandsOn (requests_form call.entry.input)
        (source_run S.Source input.old input.new)
        (sink_run K.Sink sinks.output k)
        result.ended.status result.ended.refusal) }
    ensures only { result.ended.status ≢ 3 → result.ended.refusal ≡ None }
{
    let Sinks {
        output,
        records,
        log,
    } = sinks;
    let mut output = output;
    let mut door = door;
    let ClientEnd {
        status,
        refusal,
        dialed,
    } = client(rt, alloc, call, input, &mut output, &mut door);
    let ended = Ended {
        status,
        refusal,
        output: Some(output),
        records: Some(records),
        journal: None,
        reports: Vec::new(alloc),
        dialed,
        door,
        doors: Vec::new(alloc),
        panel,
        means: Vec::new(alloc),
    };
    HandedBack {
        ended,
        log: Some(log),
    }
}
