//! The frames of a worker's requests.
ghost use Rattle.std.specs.Prelude.{◌≡◌, ◌<◌, ◌≤◌, ◌++◌, IfOk, OnOk, length};
ghost use Rattle.session_wire.specs.Frames.{most_payload, request_frame, request_frames, request_payload};
ghost use Rattle.nexus_drill.specs.Drills.{first_requests, frames_of};

use crate::draws::{draw_of, next};
use crate::worker_requests::{first_request, request_of, set_after};
use nx_io::Bytes;
use session_wire::{Request, write_request};
use std::alloc::{AllocError, Global};

/// The frames of the requests of one worker below 64 in the load of a number, of which at most 4,000 are drawn. They hang on
/// these numbers alone. An `Err` is want of memory. `docs/FORMATS.md`, "Generated load", states the requests, and "Frames" the
/// frames.
pub fn drill_frames(
    alloc: Global,
    number: u64,
    worker: u64,
    calls: u64,
) -> Result<Bytes, AllocError>
    requires worker { worker < 64 }
    requires calls { calls ≤ 4000 }
    ensures { IfOk result (λ frames. frames ≡ frames_of number worker calls) }
{
    let mut frames = first_frames(alloc, worker)?;
    let mut x = number.wrapping_add(worker);
    let mut is_set = true;
    for _place in 0..calls {
        x = next(x);
        let draw = draw_of(x);
        let request = request_of(alloc, worker, draw, is_set)?;
        append(alloc, &mut frames, request)?;
        is_set = set_after(draw, is_set);
    }
    Ok(frames)
}

// The frames of the requests that are not drawn.
fn first_frames(alloc: Global, worker: u64) -> Result<Bytes, AllocError>
    requires worker { worker < 64 }
    ensures { IfOk result (λ frames. frames ≡ request_frames (first_requests worker)) }
{
    let mut frames = Bytes::new(alloc);
    for place in 0..7 {
        let request = first_request(alloc, worker, place)?;
        append(alloc, &mut frames, request)?;
    }
    Ok(frames)
}

// One frame more.
fn append(alloc: Global, frames: &mut Bytes, request: Request) -> Result<(), AllocError>
    requires { length (request_payload request) ≤ most_payload }
    ensures { OnOk result (frames.new ≡ frames.old ++ request_frame request) }
{
    let frame = write_request(alloc, &request);
    drop(request);
    frames.extend(frame?.as_slice())
}
