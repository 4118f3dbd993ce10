//! A run of the generated load.
ghost use Rattle.std.specs.Prelude.{◌≡◌, ◌≤◌, IfOk};
ghost use Rattle.nexus_drill.specs.Drills.{drill_line, totals};
ghost use Rattle.service_drill.specs.Runs.{IsRun, ServesLoad};

use crate::counting::count;
use crate::stage::{doors, journal, means};
use authority_ask::MemPanel;
use nexus_drill::{DrillTotals, drill_line, drill_totals};
use nexus_serve::{Served, serve};
use nx_io::{Bytes, Discard, MemDoor, OpenGate};
use std::alloc::{AllocError, Global};
use std::net::{Net, TcpListener, TcpStream};
use std::rt::Clock;
use std::sync::Wait;
use std::thread::Threads;

/// Runs the generated load of a number, and tells what came of it: the line of the load. There are 1 to 64 workers, each in a thread
/// with one session, over one book; each has at most 4,000 drawn requests. `docs/FORMATS.md`, "Generated load", states the load and
/// the line.
///
/// The line is that of what was counted: of the calls that were allowed and denied, by the replies that the links were sent, and of
/// the entries of the journal that the service left. It is compared with what the draws alone give, so a line that is told is the same
/// under every schedule. An `Err` says that there was no memory, or that the two differ; that they do not is tested, and
/// not proved.
pub fn drill_text<R>(
    rt: &R,
    alloc: Global,
    number: u64,
    workers: u64,
    calls: u64,
) -> Result<Bytes, AllocError>
where
    R: Net<Listener = TcpListener, Stream = TcpStream> + Clock + Wait + Threads + Sync,
    requires workers { (1 ≤ workers) × (workers ≤ 64) }
    requires calls { calls ≤ 4000 }
    ensures line { IfOk result (λ line. line ≡ drill_line number workers calls) }
    ensures run { IfOk result (λ _. IsRun number workers calls (totals number workers calls)) }
{
    let counted = counted(rt, alloc, number, workers, calls)?;
    if counted != drill_totals(number, workers, calls) {
        return Err(AllocError);
    }
    drill_line(alloc, workers, calls, &counted)
}

// What is counted of a run.
fn counted<R>(
    rt: &R,
    alloc: Global,
    number: u64,
    workers: u64,
    calls: u64,
) -> Result<DrillTotals, AllocError>
where
    R: Net<Listener = TcpListener, Stream = TcpStream> + Clock + Wait + Threads + Sync,
    requires workers { (1 ≤ workers) × (workers ≤ 64) }
    requires calls { calls ≤ 4000 }
    ensures { IfOk result (IsRun number workers calls) }
{
    let served = served(rt, alloc, number, workers, calls)?;
    count(alloc, served)
}

// What a service leaves that served the workers' links.
fn served<R>(
    rt: &R,
    alloc: Global,
    number: u64,
    workers: u64,
    calls: u64,
) -> Result<Served<MemDoor, MemPanel, Discard, Discard>, AllocError>
where
    R: Net<Listener = TcpListener, Stream = TcpStream> + Clock + Wait + Threads + Sync,
    requires workers { (1 ≤ workers) × (workers ≤ 64) }
    requires calls { calls ≤ 4000 }
    ensures { IfOk result (ServesLoad number workers calls) }
{
    // The journal is made last, so that it is not let go on the way.
    let means = means(alloc, workers)?;
    let doors = doors(alloc, number, workers, calls)?;
    let journal = journal(alloc, workers)?;
    let gate = OpenGate;
    let served = serve(rt, alloc, journal, Discard::new(), doors, means, &gate, 1);
    Ok(served)
}
