//! A run of `serve` whose text is kept by a log.
ghost use Rattle.std.specs.Prelude.{◌≡◌, None, Some, option_map};
ghost use Rattle.run_streams.specs.Ends.{HandsOn};
ghost use Rattle.run_streams.specs.Runs.{sink_run, source_run};
ghost use Rattle.nx_io.specs.Views.{HasGiven, door_view, recorder_view, sink_view};
ghost use Rattle.service_commands.specs.Logged.{EndsLogged};
ghost use Rattle.service_commands.specs.Services.{IsService, IsUnbegun, ended_view, most_session, patience_in, policy_form};

use crate::ends::Ended;
use crate::service::{Service, ended_by, read_policy_input, unserved};
use authority_ask::Panel;
use line_log::Log;
use nexus_serve::{Outside, host};
use nx_io::{Door, Gate, Link, Reach, Recorder, Sink, Source};
use policy_history::Journal;
use run_streams::{InputEnd, Unread, tell_refusal};
use std::alloc::Global;
use std::fs::Files;
use std::net::{Net, TcpListener, TcpStream};
use std::rt::Clock;
use std::sync::Wait;
use std::thread::Threads;

/// As `run_service`, but that the text of the policy is sent to a log, which is reached at this address once the input was read; the output
/// is sent the line of a refusal alone. The log stands in what is handed back where the output does behind `run_service`.
///
/// Where the log can't be reached nobody is served, nothing is asked of the outside, and the status is 5. `docs/FORMATS.md`, "Logs", states what
/// goes to a log.
// It stands apart, so that the other commands have no room on the stack for a service.
#[inline(never)]
pub fn run_logged_service<R, S: Source, K: Sink, J, D, P, C, G>(
    rt: &R,
    alloc: Global,
    service: LoggedService,
    input: &mut S,
    output: &mut K,
    log: J,
    outside: Outside<D, P, C>,
    gate: &G,
) -> Ended<D, P, C, J>
where
    J: Log + Send + Drop,
    D: Door + Send + Drop,
    D::Link: Link + Send + Drop,
    P: Panel + Send + Drop,
    C: Recorder + Send + Drop,
    G: Gate + Sync,
    R: Net<Listener = TcpListener, Stream = TcpStream> + Clock + Files + Wait + Threads + Sync,
    requires within { IsService service.service.address.now service.service.workers service.service.sessions
        service.service.patience }
    ensures gave { HasGiven S.Source input.old input.new }
    ensures ends { EndsLogged P.history (record {
      address = service.entry.service.address.now;
      workers = service.entry.service.workers;
      sessions = service.entry.service.sessions;
      patience = patience_in service.entry.service.patience;
    })
        (source_run S.Source input.old input.new)
        (sink_view K.Sink output.old) (sink_view K.Sink output.new)
        (record { sink = J.Sink; teller = J.Log.own; log = log; address = service.entry.log.now })
        (door_view D.Door D.Link.Link outside.door) outside.panel
        (option_map (recorder_view C.Sink C.Recorder.own) outside.recorder)
        (ended_view J.Sink C.Sink C.Recorder.own D.Door D.Link.Link result) }
    ensures dialed { result.dialed ≡ None }
    ensures handed { HandsOn (policy_form (most_session (record {
      address = service.entry.service.address.now;
      workers = service.entry.service.workers;
      sessions = service.entry.service.sessions;
      patience = patience_in service.entry.service.patience;
    })))
        (source_run S.Source input.old input.new)
        (sink_run K.Sink output.old output.new)
        result.status result.refusal }
{
    let LoggedService {
        service,
        log: address,
    } = service;
    let most = u64::MAX - 1 - service.workers * service.sessions;
    match read_policy_input(alloc, input, most) {
        Ok(journal) => {
            let mut log = log;
            match log.reach(rt, address) {
                Reach::Ready => ended_by(host(
                    rt,
                    alloc,
                    journal,
                    log,
                    outside,
                    gate,
                    service.address,
                    service.workers,
                    service.sessions,
                    service.seconds(),
                )),
                Reach::Failed => unreached(alloc, journal, log, outside),
            }
        }
        Err(Unread::Refused(refusal)) => {
            let end = tell_refusal(alloc, output, refusal);
            unserved(alloc, end, log, outside)
        }
        Err(Unread::Failed) => unserved(alloc, InputEnd::of(4), log, outside),
        Err(Unread::Memory) => unserved(alloc, InputEnd::of(6), log, outside),
    }
}

/// The end of a service whose log could not be reached: the policy that was read is dropped.
fn unreached<D: Door + Drop, P: Panel + Drop, C: Recorder + Drop, J: Sink + Drop>(
    alloc: Global,
    journal: Journal,
    log: J,
    outside: Outside<D, P, C>,
) -> Ended<D, P, C, J>
where
    D::Link: Drop,
    ensures status { result.status ≡ 5 }
    ensures unrefused { result.refusal ≡ None }
    ensures output { result.output ≡ Some log }
    ensures unbegun { IsUnbegun (door_view D.Door D.Link.Link outside.door)
        outside.panel (option_map (recorder_view C.Sink C.Recorder.own) outside.recorder)
        (ended_view J.Sink C.Sink C.Recorder.own D.Door D.Link.Link result) }
    ensures dialed { result.dialed ≡ None }
{
    drop(journal);
    unserved(alloc, InputEnd::of(5), log, outside)
}

/// A service whose text is kept by a log, and where this is reached.
#[derive(Clone, Copy)]
pub struct LoggedService<'a> {
    pub service: Service<'a>,
    pub log: &'a [u8],
}
