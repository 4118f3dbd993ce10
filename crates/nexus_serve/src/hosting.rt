//! A service at an address.
ghost use Rattle.std.specs.Prelude.{◌≡◌, ◌≤◌, ◌+◌, ◌*◌, ◌-◌, ◌^◌, None, Some, map, option_map};
ghost use Rattle.policy_history.specs.Values.{entry_trees, greatest_of};
ghost use Rattle.nexus_serve.specs.Hosting.{Hosts, some_cut_off, status_of};
ghost use Rattle.nexus_serve.specs.Inner.Reporting.{IsHandedBack};
ghost use Rattle.nexus_serve.specs.Inner.Sharing.{unready_status};
ghost use Rattle.nx_io.specs.Views.{door_view, link_view, recorder_view, sink_view};

use crate::closing::{ServeEnd, Served};
use crate::means::Means;
use crate::outside::Outside;
use crate::service::serve;
use crate::shares::{Unready, make_ready};
use authority_ask::Panel;
use nx_io::{Door, Gate, Link, Recorder, Sink};
use policy_history::Journal;
use std::alloc::Global;
use std::fs::Files;
use std::marker::Model;
use std::net::{Net, TcpListener, TcpStream};
use std::rt::Clock;
use std::sync::Wait;
use std::thread::Threads;

/// What a service at an address leaves.
#[derive(Drop)]
pub struct Hosted<D: Door, P: Panel, C: Recorder, K: Sink> {
    /// The status with which the program ends. `docs/FORMATS.md`, "Statuses", says what each means.
    pub status: u8,
    /// The door that was handed in, of which the workers had shares.
    pub door: D,
    /// The panel that was handed in, of which the workers had shares.
    pub panel: P,
    /// The recorder that was handed in, of which the workers had shares.
    pub recorder: Option<C>,
    /// What the service left. Where it was not begun: no journal, the sink, no reports, and the shares that were made, of which nothing
    /// was asked.
    pub served: Served<D, P, C, K>,
}

impl<D: Door, P: Panel, C: Recorder, K: Sink> Model for Hosted<D, P, C, K> {
    ghost use Rattle.std.specs.Prelude.{option_map};
    ghost use Rattle.std.specs.Coded.{codes};
    ghost use Rattle.nal_term.specs.contracts.terms.Term as t;
    ghost use Rattle.nal_term.specs.contracts.formulas.Formula as f;
    ghost use Rattle.nx_io.specs.Views.{door_view, link_view, recorder_view};
    ghost use Rattle.nexus_serve.specs.Hosting.{HostedView};

    ghost Value = { HostedView P C };

    ghost coded = { Prim.hlevel (codes, t.the_row.coded, f.the_row.coded) };

    ghost view = { λ h. record {
      status = h.status;
      door = door_view D.Door D.Link.Link h.door;
      panel = h.panel;
      recorder = option_map (recorder_view C.Sink C.Recorder) h.recorder;
      served = h.served;
    } };
}

/// Hosts a service over a journal: it reaches the authorities of its head, listens at the address, and lets so many workers
/// serve so many sessions each, with shares of the door and of the panel, and of the recorder where there is one, to which the
/// records of their calls go then. A link waits so many seconds for a peer that is admitted. The policy text goes to the sink as the
/// journal grows.
///
/// The status is 0 where all was done; 5 where the text was not written whole and synced, which comes only where the sink failed;
/// else 7 where a share of the door has failed; else 6 where a worker had no memory for one more session, the text being whole; else 5
/// where the record of a call was cut off, the text being whole. Where the service was not begun it is 7 where the door could not
/// listen or not be shared, 8 where an authority could not be reached or the panel not be shared, 5 where the recorder could not be
/// shared, and 6 where there was no memory; and 6 where there was none to begin to serve. `docs/FORMATS.md`, "Statuses", states this.
pub fn host<D, P, C, K, G, R>(
    rt: &R,
    alloc: Global,
    journal: Journal,
    sink: K,
    outside: Outside<D, P, C>,
    gate: &G,
    address: &[u8],
    workers: u64,
    sessions: u64,
    patience: u64,
) -> Hosted<D, P, C, K>
where
    D: Door + Send + Drop,
    D::Link: Link + Send + Drop,
    P: Panel + Send + Drop,
    C: Recorder + Send + Drop,
    K: Sink + Send + Drop,
    G: Gate + Sync,
    R: Net<Listener = TcpListener, Stream = TcpStream> + Clock + Files + Wait + Threads + Sync,
    requires workers { (1 ≤ workers) × (workers ≤ 1024) }
    requires sessions { (1 ≤ sessions) × (sessions ≤ 65536) }
    requires numbers { greatest_of (entry_trees journal.entries) + workers * sessions ≤ 2 ^ 64 - 2 }
    ensures hosted { Hosts P.history (record {
      address = address.now;
      patience = patience;
      workers = workers;
      sessions = sessions;
    }) journal.head journal.entries (sink_view K.Sink sink) (door_view D.Door D.Link.Link outside.door)
        outside.panel (option_map (recorder_view C.Sink C.Recorder.own) outside.recorder) result }
{
    let mut outside = outside;
    let mut doors = Vec::new(alloc);
    let mut means = Vec::new(alloc);
    let ready = make_ready(
        rt,
        journal.head(),
        address,
        patience,
        workers,
        &mut outside,
        &mut doors,
        &mut means,
    );
    let Outside {
        door,
        panel,
        recorder,
    } = outside;
    match ready {
        Ok(()) => {
            let served = serve(rt, alloc, journal, sink, doors, means, gate, sessions);
            let cut_off = is_cut_off(served.means.as_slice());
            let status = status_of(served.written, served.end, cut_off);
            Hosted {
                status,
                door,
                panel,
                recorder,
                served,
            }
        }
        Err(unready) => {
            drop(journal);
            Hosted {
                status: unready_status(unready),
                door,
                panel,
                recorder,
                served: idle(alloc, sink, doors, means),
            }
        }
    }
}

/// Whether one of the keepers of records has one that was cut off.
fn is_cut_off<P: Panel, C: Sink>(means: &[Means<P, C>]) -> bool
    ensures { result ≡ some_cut_off means.now }
{
    means.iter().any(|own| own.records.is_broken())
}

/// The status with which a service ends that was begun.
fn status_of(written: bool, end: ServeEnd, cut_off: bool) -> u8
    ensures { result ≡ status_of written end cut_off }
{
    match end {
        ServeEnd::Memory => 6,
        ServeEnd::DoorFault if written => 7,
        ServeEnd::NoRoom if written => 6,
        ServeEnd::Done if written && !cut_off => 0,
        ServeEnd::DoorFault | ServeEnd::NoRoom | ServeEnd::Done => 5,
    }
}

/// The status with which a service ends that was not begun.
fn unready_status(unready: Unready) -> u8
    ensures { result ≡ unready_status unready }
{
    match unready {
        Unready::Records => 5,
        Unready::Memory => 6,
        Unready::Door => 7,
        Unready::Panel => 8,
    }
}

/// What a service leaves that was not begun: the shares that were made.
fn idle<D: Door + Drop, P: Panel + Drop, C: Sink + Drop, K: Sink + Drop>(
    alloc: Global,
    sink: K,
    doors: Vec<D>,
    means: Vec<Means<P, C>>,
) -> Served<D, P, C, K>
where
    D::Link: Drop,
    ensures journal { result.journal ≡ None }
    ensures sink { result.sink ≡ Some (sink_view K.Sink sink) }
    ensures back { IsHandedBack
        (map (door_view D.Door D.Link.Link) doors.items)
        means.items result }
{
    Served {
        journal: None,
        sink: Some(sink),
        reports: Vec::new(alloc),
        doors,
        means,
        written: false,
        end: ServeEnd::Done,
    }
}
