//! `nexus`: an authorization service by logical attestation.
#![tactic(auto)]

mod standard_error;

use authority_ask::{HostClock, HostPanel};
use line_log::{LineLog, SocketWire};
use nexus_run::{Sinks, SystemArguments, start};
use nx_io::{FileSink, OpenGate, SocketDoor, StdSource};
use standard_error::StandardError;
use std::mem;
use std::process::ExitCode;

/// The name of standard output among the open files of the process.
const STANDARD_OUTPUT: &str = "/proc/self/fd/1";

/// Starts the program on the arguments of its call, on standard input, with the records on standard error, on standard output, and with a
/// log over a socket, and ends with its status. Standard error is looked at before anything is opened.
fn main(rt: HostRuntime) -> ExitCode {
    let records = StandardError::new(&rt, rt.stderr());
    let Ok(panel) = HostPanel::new(rt.alloc(), HostClock::new()) else {
        return ExitCode::from(6);
    };
    let mut arguments = SystemArguments::new(&rt);
    let mut input = StdSource::new(rt.stdin());
    let sinks = Sinks {
        output: FileSink::new(&rt, rt.stdout(), STANDARD_OUTPUT),
        records,
        log: LineLog::new(rt.alloc(), SocketWire::new()),
    };
    let finished = start(
        &rt,
        &mut arguments,
        &mut input,
        sinks,
        SocketDoor::new(rt.alloc(), rt),
        panel,
        &OpenGate,
    );
    let code = finished.code;
    // The system takes all back at once when the program has ended.
    mem::forget(finished);
    code
}
