//! What is made ready for workers: the authorities are reached, an address is listened at, and doors, panels and recorders are
//! shared.
ghost use Rattle.std.specs.Prelude.{◌≡◌, ◌≤◌, ◌+◌, ◌++◌, List, ℕ, [], length, map, option_map, replicate, All, IfErr, IfOk, Some};
ghost use Rattle.std.specs.Vec.{vec_capacity, vec_len};
ghost use Rattle.nx_io.specs.DoorCalls.{DoorCall};
ghost use Rattle.authority_ask.specs.PanelCalls.{PanelCall};
ghost use Rattle.session_core.specs.Records.{unwanted};
ghost use Rattle.nexus_serve.specs.Inner.Sharing.{IsMade, IsShareOf, ReadiesDoor, SharesDoor, SharesPanel, SharesRecorder};
ghost use Rattle.nexus_serve.specs.Hosting.{HasCalledPanel, HaveShares, IsPanelShare, kept_of};
ghost use Rattle.nx_io.specs.Views.{door_view, recorder_view};

use crate::means::Means;
use crate::outside::Outside;
use authority_ask::Panel;
use nx_io::{Door, Reach, Recorder, Shared, Sink};
use policy_history::Head;
use session_core::{RecordKeeper, reach_all};
use std::fs::Files;
use std::net::{Net, TcpListener, TcpStream};
use std::rt::Clock;

/// Why a service is not ready.
#[derive(Clone, Copy, Debug, PartialEq, Eq)]
pub enum Unready {
    /// An authority could not be reached, or the panel not be shared.
    Panel,
    /// The recorder could not be shared.
    Records,
    /// The door could not listen, or not be shared.
    Door,
    /// There was no memory.
    Memory,
}

/// Makes room for the shares of a door, and for the means of workers.
fn make_room<D: Drop, M: Drop>(
    doors: &mut Vec<D>,
    means: &mut Vec<M>,
    count: u64,
) -> Result<(), Unready>
    requires few { count ≤ 1024 }
    ensures items { (doors.new.items ≡ doors.old.items) × (means.new.items ≡ means.old.items) }
    ensures room { IfOk result (λ _. (vec_len doors.new + count ≤ vec_capacity doors.new)
        × (vec_len means.new + count ≤ vec_capacity means.new)) }
    ensures memory { IfErr result (λ e. e ≡ Unready.Memory) }
{
    match doors.try_reserve(count as usize) {
        Ok(()) => match means.try_reserve(count as usize) {
            Ok(()) => Ok(()),
            Err(_) => Err(Unready::Memory),
        },
        Err(_) => Err(Unready::Memory),
    }
}

/// Makes so many shares of a door, for which the list has room.
fn share_door<D: Door + Drop>(door: &mut D, count: u64, shares: &mut Vec<D>) -> Result<(), Unready>
where
    D::Link: Drop,
    requires none { shares.old.items ≡ [] }
    requires room { count ≤ vec_capacity shares.old }
    ensures shared { All (IsShareOf D.origin D.calls door.old) shares.new.items }
    ensures calls { (more : List DoorCall) × (D.calls door.new ≡ D.calls door.old ++ more)
        × SharesDoor result count (length shares.new.items) more }
    ensures links { D.links door.new ≡ D.links door.old }
    ensures origin { D.origin door.new ≡ D.origin door.old }
{
    for _ in 0..count {
        match door.share() {
            Shared::Made(share) => shares.push_reserved(share),
            Shared::Failed => return Err(Unready::Door),
            Shared::NoMemory => return Err(Unready::Memory),
        }
    }
    Ok(())
}

/// Makes so many shares of a panel, each in the means of a worker, for which the list has room. Nobody keeps records there.
fn share_panel<P: Panel + Drop, C: Sink + Drop>(
    panel: &mut P,
    count: u64,
    means: &mut Vec<Means<P, C>>,
) -> Result<(), Unready>
    requires none { means.old.items ≡ [] }
    requires room { count ≤ vec_capacity means.old }
    ensures shared { All (λ own. IsPanelShare (P.history panel.new) (P.history own.panel)) means.new.items }
    ensures calls { (more : List PanelCall) × HasCalledPanel more (P.history panel.old) (P.history panel.new)
        × SharesPanel result count (length means.new.items) more }
    ensures keepers { kept_of means.new.items ≡ replicate (length means.new.items) unwanted }
{
    for _ in 0..count {
        match panel.share() {
            Shared::Made(share) => means.push_reserved(Means {
                panel: share,
                records: RecordKeeper::nobody(),
            }),
            Shared::Failed => return Err(Unready::Panel),
            Shared::NoMemory => return Err(Unready::Memory),
        }
    }
    Ok(())
}

/// Makes a share of a recorder for each of these means, in their order, where there is one: it keeps the records there.
fn share_recorder<P: Panel + Drop, C: Recorder + Drop>(
    recorder: &mut Option<C>,
    means: &mut Vec<Means<P, C>>,
) -> Result<(), Unready>
    requires nobody { kept_of means.old.items ≡ replicate (length means.old.items) unwanted }
    ensures panels { map (λ own. own.panel) means.new.items ≡ map (λ own. own.panel) means.old.items }
    ensures lent { (lent : ℕ)
        × HaveShares lent (option_map (recorder_view C.Sink C.Recorder.own) recorder.old)
        (kept_of means.new.items)
        × SharesRecorder result (length means.old.items) lent
        (option_map (recorder_view C.Sink C.Recorder.own) recorder.old)
        (option_map (recorder_view C.Sink C.Recorder.own) recorder.new) }
{
    match recorder {
        Some(recorder) => lend_shares(recorder, means),
        None => Ok(()),
    }
}

/// The same of a recorder that is there.
fn lend_shares<P: Panel + Drop, C: Recorder + Drop>(
    recorder: &mut C,
    means: &mut Vec<Means<P, C>>,
) -> Result<(), Unready>
    requires nobody { kept_of means.old.items ≡ replicate (length means.old.items) unwanted }
    ensures panels { map (λ own. own.panel) means.new.items ≡ map (λ own. own.panel) means.old.items }
    ensures lent { (lent : ℕ)
        × HaveShares lent (Some (recorder_view C.Sink C.Recorder.own recorder.old))
        (kept_of means.new.items)
        × SharesRecorder result (length means.old.items) lent
        (Some (recorder_view C.Sink C.Recorder.own recorder.old))
        (Some (recorder_view C.Sink C.Recorder.own recorder.new)) }
{
    for place in 0..means.len() {
        match recorder.share() {
            Shared::Made(share) => means[place].records = RecordKeeper::over(share),
            Shared::Failed => return Err(Unready::Records),
            Shared::NoMemory => return Err(Unready::Memory),
        }
    }
    Ok(())
}

/// Listens at an address with this patience, and shares the door. The list has room for the shares.
fn listen_and_share<
    D: Door + Drop,
    R: Net<Listener = TcpListener, Stream = TcpStream> + Clock + Files,
>(
    rt: &R,
    address: &[u8],
    count: u64,
    door: &mut D,
    shares: &mut Vec<D>,
    patience: u64,
) -> Result<(), Unready>
where
    D::Link: Drop,
    requires none { shares.old.items ≡ [] }
    requires room { count ≤ vec_capacity shares.old }
    ensures shared { All (IsShareOf D.origin D.calls door.new) shares.new.items }
    ensures calls { (more : List DoorCall) × (D.calls door.new ≡ D.calls door.old ++ more)
        × ReadiesDoor result (record { address = address.now; patience = patience }) count (length
        shares.new.items) more }
    ensures links { D.links door.new ≡ D.links door.old }
    ensures origin { D.origin door.new ≡ D.origin door.old }
{
    match door.listen(rt, address, patience) {
        Reach::Ready => share_door(door, count, shares),
        Reach::Failed => Err(Unready::Door),
    }
}

/// Reaches the authorities of a head, shares the panel, and the recorder where there is one, listens at an address with this
/// patience, and shares the door, in this order. The shares that were made are in the lists, whatever comes.
pub fn make_ready<
    D: Door + Drop,
    P: Panel + Drop,
    C: Recorder + Drop,
    R: Net<Listener = TcpListener, Stream = TcpStream> + Clock + Files,
>(
    rt: &R,
    head: &Head,
    address: &[u8],
    patience: u64,
    workers: u64,
    outside: &mut Outside<D, P, C>,
    doors: &mut Vec<D>,
    means: &mut Vec<Means<P, C>>,
) -> Result<(), Unready>
where
    D::Link: Drop,
    requires none { (doors.old.items ≡ []) × (means.old.items ≡ []) }
    requires few { workers ≤ 1024 }
    ensures made { (sessions : ℕ) → IsMade P.history (record {
      address = address.now;
      patience = patience;
      workers
          = workers;
      sessions = sessions;
    }) head.now (door_view D.Door D.Link.Link outside.old.door)
        (door_view D.Door D.Link.Link outside.new.door)
        (P.history outside.old.panel) (P.history outside.new.panel)
        (option_map (recorder_view C.Sink C.Recorder.own) outside.old.recorder)
        (option_map (recorder_view C.Sink C.Recorder.own) outside.new.recorder)
        (map (door_view D.Door D.Link.Link) doors.new.items) means.new.items result }
    ensures doors_shared { All (IsShareOf D.origin D.calls outside.new.door) doors.new.items }
    ensures panels_shared { All (λ own. IsPanelShare (P.history outside.new.panel) (P.history own.panel))
        means.new.items }
{
    match reach_all(rt, head, &mut outside.panel) {
        Reach::Ready => {
            make_room(doors, means, workers)?;
            share_panel(&mut outside.panel, workers, means)?;
            share_recorder(&mut outside.recorder, means)?;
            listen_and_share(rt, address, workers, &mut outside.door, doors, patience)
        }
        Reach::Failed => Err(Unready::Panel),
    }
}
