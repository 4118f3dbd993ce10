// What a run of the load begins with: the journal without entries, and for each worker a door and its means.
ghost use Rattle.std.specs.Prelude.{◌≡◌, ◌<◌, ◌≤◌, [], IfOk, length, map};
ghost use Rattle.nx_io.specs.DoorCalls.{new_origin, share_of};
ghost use Rattle.nx_io.specs.MemoryDoors.{IsFreshPlan, plan_of, share_by};
ghost use Rattle.nexus_drill.specs.Drills.{drill_principal};
ghost use Rattle.service_drill.specs.Runs.{door_of, each, head_of, silent};
ghost use Rattle.service_drill.specs.Inner.{view_of};

use authority_ask::MemPanel;
use nexus_drill::{drill_frames, drill_principal};
use nexus_serve::Means;
use nx_io::{Discard, Door, DoorPlan, MemDoor, MemLink, Shared};
use policy_history::{Authorities, Head, Journal, Principals};
use session_core::RecordKeeper;
use std::alloc::{AllocError, Global};

/// The journal of the workers' principals, without entries. An `Err` is want of memory, or more principals than a journal takes.
pub fn journal(alloc: Global, workers: u64) -> Result<Journal, AllocError>
    ensures head { IfOk result (λ journal. journal.head ≡ head_of workers) }
    ensures entries { IfOk result (λ journal. journal.entries ≡ []) }
{
    let head = Head {
        principals: principals(alloc, workers)?,
        authorities: Authorities::new(alloc),
    };
    Journal::new(alloc, head)
}

fn principals(alloc: Global, workers: u64) -> Result<Principals, AllocError>
    ensures { IfOk result (λ principals. principals ≡ each workers drill_principal) }
{
    let mut principals = Principals::new(alloc);
    for worker in 0..workers {
        let one = drill_principal(alloc, worker)?;
        let Ok(()) = principals.push(one) else {
            return Err(AllocError);
        };
    }
    Ok(principals)
}

/// A door for each worker. An `Err` is want of memory.
pub fn doors(
    alloc: Global,
    number: u64,
    workers: u64,
    calls: u64,
) -> Result<Vec<MemDoor>, AllocError>
    requires workers { workers ≤ 64 }
    requires calls { calls ≤ 4000 }
    ensures doors { IfOk result (λ doors. map view_of doors.items ≡ each workers (door_of number calls)) }
    ensures count { IfOk result (λ doors. length doors.items ≡ workers) }
{
    let mut doors = Vec::new(alloc);
    for worker in 0..workers {
        let door = door_of(alloc, number, worker, calls)?;
        doors.push(door)?;
    }
    Ok(doors)
}

// The door of one worker: its one link gives the frames of the worker's requests, and has room for a reply of the greatest
// length to each.
fn door_of(alloc: Global, number: u64, worker: u64, calls: u64) -> Result<MemDoor, AllocError>
    requires worker { worker < 64 }
    requires calls { calls ≤ 4000 }
    ensures { IfOk result (λ door. view_of door ≡ door_of number calls worker) }
{
    let frames = drill_frames(alloc, number, worker, calls)?;
    let room = 37 * (7 + calls) as usize;
    let link = MemLink::new(alloc, frames.as_slice(), room, 4096, &[], &[])?;
    let mut links = Vec::new(alloc);
    links.push(link)?;
    let fails = Vec::new(alloc);
    door_by(alloc, DoorPlan { links, fails })
}

// A door of this plan.
fn door_by(alloc: Global, plan: DoorPlan) -> Result<MemDoor, AllocError>
    requires { IsFreshPlan plan }
    ensures { IfOk result (λ door. door ≡ share_by (plan_of plan) (share_of new_origin [])) }
{
    let mut plans = Vec::new(alloc);
    plans.push(plan)?;
    let mut door = MemDoor::new(alloc, plans, None, &[])?;
    let shared = door.share();
    drop(door);
    match shared {
        Shared::Made(share) => Ok(share),
        Shared::Failed => Err(AllocError),
        Shared::NoMemory => Err(AllocError),
    }
}

/// A panel for each worker, of which nothing is asked, and nobody who keeps records. An `Err` is want of memory.
pub fn means(alloc: Global, workers: u64) -> Result<Vec<Means<MemPanel, Discard>>, AllocError>
    ensures means { IfOk result (λ means. means.items ≡ each workers silent) }
    ensures count { IfOk result (λ means. length means.items ≡ workers) }
{
    let mut means = Vec::new(alloc);
    for _worker in 0..workers {
        let panel = MemPanel::new(alloc, &[], &[], &[])?;
        let records = RecordKeeper::nobody();
        means.push(Means { panel, records })?;
    }
    Ok(means)
}
