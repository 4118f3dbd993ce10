//! Runs of `core` and `drill`.
ghost use Rattle.std.specs.Prelude.{◌≡◌, ◌≤◌, ◌⊎◌};
ghost use Rattle.nx_io.specs.Streams.{Grows};
ghost use Rattle.nexus_drill.specs.Loads.{IsCoreLine};
ghost use Rattle.run_streams.specs.Runs.{sink_run};
ghost use Rattle.nexus_run.specs.LoadRuns.{EndsLoad, IsDrillLine};

use nexus_drill::core_text;
use nx_io::{Reach, Sink, send_all};
use service_drill::drill_text;
use std::alloc::Global;
use std::net::{Net, TcpListener, TcpStream};
use std::rt::Clock;
use std::sync::Wait;
use std::thread::Threads;

/// Writes the line of a generated load of so many steps, drawn from a number.
pub fn load<K: Sink>(alloc: Global, number: u64, steps: u64, output: &mut K) -> u8
    ensures sent { Grows (K.sent output.old) (K.sent output.new) }
    ensures untouched { (result ≡ 4) ⊎ (result ≡ 6) → output.new ≡ output.old }
    ensures ends { EndsLoad (IsCoreLine number steps) (sink_run K.Sink output.old output.new) result }
{
    let Ok(text) = core_text(alloc, number, steps) else {
        return 6;
    };
    match send_all(output, text.as_slice()) {
        Reach::Ready => 0,
        Reach::Failed => 5,
    }
}

/// Runs a generated load of so many workers, each with so many drawn requests, and writes its line.
// Apart, so that the other commands take no stack for it.
#[inline(never)]
pub fn drill<R, K: Sink>(
    rt: &R,
    alloc: Global,
    number: u64,
    workers: u64,
    calls: u64,
    output: &mut K,
) -> u8
where
    R: Net<Listener = TcpListener, Stream = TcpStream> + Clock + Wait + Threads + Sync,
    requires workers { (1 ≤ workers) × (workers ≤ 64) }
    requires calls { calls ≤ 4000 }
    ensures sent { Grows (K.sent output.old) (K.sent output.new) }
    ensures untouched { (result ≡ 4) ⊎ (result ≡ 6) → output.new ≡ output.old }
    ensures ends { EndsLoad (IsDrillLine number workers calls) (sink_run K.Sink output.old output.new) result }
{
    let Ok(text) = drill_text(rt, alloc, number, workers, calls) else {
        return 6;
    };
    match send_all(output, text.as_slice()) {
        Reach::Ready => 0,
        Reach::Failed => 5,
    }
}
