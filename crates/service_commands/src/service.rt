//! A run of `serve`.
ghost use Rattle.std.specs.Prelude.{◌≡◌, ◌≢◌, not, ◌≤◌, ◌+◌, ◌*◌, ◌-◌, List, [], IfErr, IfOk, None, Some, length, option_map};
ghost use Rattle.policy_history.specs.Values.{entry_trees};
ghost use Rattle.policy_history.specs.Events.{EntryTree};
ghost use Rattle.policy_history.specs.declared.heads.Head.{Head};
ghost use Rattle.journal_text.specs.PolicyFronts.{AreBelow};
ghost use Rattle.input_flaws.specs.PolicyFlaws.{IsFrontFlaw};
ghost use Rattle.run_streams.specs.Ends.{HandsOn};
ghost use Rattle.run_streams.specs.Flaws.{flaw_tree};
ghost use Rattle.run_streams.specs.Runs.{most_bytes, source_run};
ghost use Rattle.nx_io.specs.Views.{HasGiven, door_view, recorder_view, sink_view};
ghost use Rattle.service_commands.specs.Services.{EndsService, IsPolicy, IsPolicyOf, IsService, IsUnbegun, ended_view, hosted_of, most_session, only_where, patience_in, policy_form, sink_behind};
ghost use Rattle.run_streams.specs.Inner.Unread.{faults_after_input, IsUnread};
ghost use Rattle.service_commands.specs.Inner.ServiceEnds.{IsWrongText};

use crate::ends::Ended;
use authority_ask::Panel;
use input_flaws::front_flaw;
use journal_text::{PolicyError, PolicyFront, read_front};
use nexus_serve::{Hosted, Outside, Served, host};
use nx_io::{Door, Gate, Link, Recorder, Sink, Source};
use policy_history::Journal;
use run_streams::{Flaw, InputEnd, InputRefusal, ReadError, Unread, read_whole, tell_refusal};
use std::alloc::{AllocError, Global};
use std::fs::Files;
use std::net::{Net, TcpListener, TcpStream};
use std::rt::Clock;
use std::sync::Wait;
use std::thread::Threads;

/// How many seconds a service waits for a peer that is admitted, where nothing is said.
const PATIENCE: u64 = 300;

/// A service that the program can be asked to run: where it listens, how many workers it has, how many sessions each serves at most,
/// for how many seconds it waits for a peer that is admitted, where that is said, and whether its calls are recorded.
#[derive(Clone, Copy)]
pub struct Service<'a> {
    pub address: &'a [u8],
    pub workers: u64,
    pub sessions: u64,
    pub patience: Option<u64>,
    pub records: bool,
}

impl<'a> Service<'a> {
    /// For how many seconds it waits for a peer that is admitted.
    pub(crate) fn seconds(&self) -> u64
        ensures { result ≡ patience_in self.now.patience }
    {
        match self.patience {
            Some(seconds) => seconds,
            None => PATIENCE,
        }
    }

    /// The sink for records: first as the recorder of the service, where its calls are recorded, and else second, to be kept aside.
    pub fn recorder<C: Recorder>(&self, records: C) -> (Option<C>, Option<C>)
        ensures recorder { result.0 ≡ only_where self.now.records (Some records) }
        ensures aside { result.1 ≡ only_where (not self.now.records) (Some records) }
    {
        if self.records {
            (Some(records), None)
        } else {
            (None, Some(records))
        }
    }
}

/// Reads a policy, and serves the sessions of its workers, who have shares of the door and the panel. Where there is a recorder, each of
/// them has a share of it too, and the record of each call is sent there before the call has an effect; what was sent of them is told by
/// the means that are handed back, and the recorder itself is sent nothing.
///
/// The status is 3 where the input is refused, 4 where the source failed, and 6 where there was no memory for the input; nothing is asked
/// of door, panel and recorder then, nor with 5 where the refusal could not be written. Else it is that of `host` of `nexus_serve`: 5 also
/// where the recorder could not be shared, so that nobody was served; or where the record of a call was cut off, the text being whole.
/// Where the input is refused, and the line of that was written, the refusal is handed on.
// It stands apart, so that the other commands have no room on the stack for a service.
#[inline(never)]
pub fn run_service<R, S: Source, K, D, P, C, G>(
    rt: &R,
    alloc: Global,
    service: Service,
    input: &mut S,
    output: K,
    outside: Outside<D, P, C>,
    gate: &G,
) -> Ended<D, P, C, K>
where
    K: Sink + Send + Drop,
    D: Door + Send + Drop,
    D::Link: Link + Send + Drop,
    P: Panel + Send + Drop,
    C: Recorder + Send + Drop,
    G: Gate + Sync,
    R: Net<Listener = TcpListener, Stream = TcpStream> + Clock + Files + Wait + Threads + Sync,
    requires within { IsService service.address.now service.workers service.sessions service.patience }
    ensures gave { HasGiven S.Source input.old input.new }
    ensures ends { EndsService P.history (record {
      address = service.entry.address.now;
      workers = service.entry.workers;
      sessions = service.entry.sessions;
      patience = patience_in service.entry.patience;
    })
        (source_run S.Source input.old input.new)
        (sink_view K.Sink output) (door_view D.Door D.Link.Link outside.door) outside.panel
        (option_map (recorder_view C.Sink C.Recorder.own) outside.recorder)
        (ended_view K.Sink C.Sink C.Recorder.own D.Door D.Link.Link result) }
    ensures dialed { result.dialed ≡ None }
    ensures handed { HandsOn (policy_form (most_session (record {
      address = service.entry.address.now;
      workers = service.entry.workers;
      sessions = service.entry.sessions;
      patience = patience_in service.entry.patience;
    })))
        (source_run S.Source input.old input.new)
        (sink_behind K.Sink output result.output)
        result.status result.refusal }
{
    let most = u64::MAX - 1 - service.workers * service.sessions;
    match read_policy_input(alloc, input, most) {
        Ok(journal) => ended_by(host(
            rt,
            alloc,
            journal,
            output,
            outside,
            gate,
            service.address,
            service.workers,
            service.sessions,
            service.seconds(),
        )),
        Err(Unread::Refused(refusal)) => {
            let mut output = output;
            let end = tell_refusal(alloc, &mut output, refusal);
            unserved(alloc, end, output, outside)
        }
        Err(Unread::Failed) => unserved(alloc, InputEnd::of(4), output, outside),
        Err(Unread::Memory) => unserved(alloc, InputEnd::of(6), output, outside),
    }
}

/// Reads the input of a service, in which no session's number is above the bound.
pub(crate) fn read_policy_input<S: Source>(
    alloc: Global,
    input: &mut S,
    most: u64,
) -> Result<Journal, Unread>
    ensures gave { HasGiven S.Source input.old input.new }
    ensures ok { IfOk result (λ journal. IsPolicyOf
        (source_run S.Source input.old input.new) most journal.head (entry_trees journal.entries)) }
    ensures below { IfOk result (λ journal. AreBelow most (entry_trees journal.entries)) }
    ensures err { IfErr result (IsUnread (policy_form most)
        (source_run S.Source input.old input.new)) }
    ensures count { S.faults input.new ≡ faults_after_input result (S.faults input.old) }
{
    match read_whole(alloc, input) {
        Ok(text) => match read_policy_text(alloc, text.as_slice(), most) {
            Ok(journal) => Ok(journal),
            Err(PolicyTextError::Wrong { line }) => {
                let flaw = text_flaw(alloc, text.as_slice(), most, line);
                Err(Unread::wrong(line, flaw))
            }
            Err(PolicyTextError::Memory) => Err(Unread::Memory),
        },
        Err(ReadError::TooLarge) => Err(Unread::Refused(InputRefusal::TooLarge)),
        Err(ReadError::Failed) => Err(Unread::Failed),
        Err(ReadError::Memory) => Err(Unread::Memory),
    }
}

/// What is wrong with a line of a policy's text, in which no session's number is above the bound. An `Err` is want of memory.
fn text_flaw(alloc: Global, text: &[u8], most: u64, line: u64) -> Result<Flaw, AllocError>
    requires { length text.now ≤ most_bytes }
    ensures { IfOk result (λ flaw. IsFrontFlaw most text.now text.now line (flaw_tree flaw)) }
{
    front_flaw(alloc, most, text, text, line)
}

/// Why the text of a policy was not read.
#[derive(Clone, Copy, Debug, PartialEq, Eq)]
pub enum PolicyTextError {
    /// The lowest line that is wrong, or the first behind the policy, or the number after the last where the policy is not ended.
    Wrong { line: u64 },
    /// There was no memory for what it holds.
    Memory,
}

/// Reads a text that is that of a policy, in which no session's number is above the bound.
fn read_policy_text(alloc: Global, text: &[u8], most: u64) -> Result<Journal, PolicyTextError>
    requires { length text.now ≤ most_bytes }
    ensures ok { IfOk result (λ journal. IsPolicy most text.now journal.head (entry_trees journal.entries)) }
    ensures below { IfOk result (λ journal. AreBelow most (entry_trees journal.entries)) }
    ensures wrong { IfErr result (IsWrongText most text.now) }
    ensures refused { IfErr result
        (λ e. e ≢ PolicyTextError.Memory → (h : Head) (es : List EntryTree) → ¬ IsPolicy most text.now h es) }
{
    match read_front(alloc, text, most) {
        Ok(
            PolicyFront {
                journal,
                rest,
                lines,
            },
        ) => {
            if rest.is_empty() {
                Ok(journal)
            } else {
                drop(journal);
                Err(PolicyTextError::Wrong { line: lines + 1 })
            }
        }
        Err(PolicyError::Bad { line }) => Err(PolicyTextError::Wrong { line }),
        Err(PolicyError::Refused { line, .. }) => Err(PolicyTextError::Wrong { line }),
        Err(PolicyError::TooLong) => unreachable!(),
        Err(PolicyError::Memory) => Err(PolicyTextError::Memory),
    }
}

/// The end of a service that was hosted.
pub(crate) fn ended_by<D: Door + Drop, P: Panel + Drop, C: Recorder + Drop, K: Sink + Drop>(
    hosted: Hosted<D, P, C, K>,
) -> Ended<D, P, C, K>
where
    D::Link: Drop,
    ensures hosted { hosted_of (ended_view K.Sink C.Sink C.Recorder.own D.Door D.Link.Link result) hosted.served.written
        hosted.served.end ≡ hosted }
    ensures dialed { result.dialed ≡ None }
    ensures unrefused { result.refusal ≡ None }
{
    let Hosted {
        status,
        door,
        panel,
        recorder,
        served,
    } = hosted;
    let Served {
        journal,
        sink,
        reports,
        doors,
        means,
        ..
    } = served;
    Ended {
        status,
        refusal: None,
        output: sink,
        records: recorder,
        journal,
        reports,
        dialed: None,
        door,
        doors,
        panel,
        means,
    }
}

/// The end of a service that was not begun.
pub(crate) fn unserved<D: Door + Drop, P: Panel + Drop, C: Recorder + Drop, K: Sink + Drop>(
    alloc: Global,
    end: InputEnd,
    output: K,
    outside: Outside<D, P, C>,
) -> Ended<D, P, C, K>
where
    D::Link: Drop,
    ensures status { result.status ≡ end.status }
    ensures refusal { result.refusal ≡ end.refusal }
    ensures output { result.output ≡ Some output }
    ensures unbegun { IsUnbegun (door_view D.Door D.Link.Link outside.door)
        outside.panel (option_map (recorder_view C.Sink C.Recorder.own) outside.recorder)
        (ended_view K.Sink C.Sink C.Recorder.own D.Door D.Link.Link result) }
    ensures dialed { result.dialed ≡ None }
{
    let Outside {
        door,
        panel,
        recorder,
    } = outside;
    Ended {
        status: end.status,
        refusal: end.refusal,
        output: Some(output),
        records: recorder,
        journal: None,
        reports: Vec::new(alloc),
        dialed: None,
        door,
        doors: Vec::new(alloc),
        panel,
        means: Vec::new(alloc),
    }
}
