//! What comes of the load of the service, worked out from the draws, and its line.
ghost use Rattle.std.specs.Prelude.{◌≡◌, ◌≤◌, ◌+◌, ◌*◌, IfOk};
ghost use Rattle.nexus_drill.specs.Drills.{line_of_totals, outcome_of, plus, totals, totals_of};

use crate::draws::{draw_of, next};
use crate::worker_requests::set_after;
use nx_io::Bytes;
use std::alloc::{AllocError, Global};

/// What comes of requests: how many calls were allowed, how many were denied, and how many entries were made.
#[derive(Clone, Copy, Debug, PartialEq, Eq)]
pub struct DrillTotals {
    pub allowed: u64,
    pub denied: u64,
    pub entries: u64,
}

/// What comes of the load of a number, for at most 64 workers with at most 4,000 drawn requests each, by the draws alone. Each
/// request but the workers' greetings is counted once. `docs/FORMATS.md`, "Generated load", states the load.
pub fn drill_totals(number: u64, workers: u64, calls: u64) -> DrillTotals
    requires workers { workers ≤ 64 }
    requires calls { calls ≤ 4000 }
    ensures totals { result ≡ totals number workers calls }
    ensures counted { result.allowed + result.denied + result.entries ≡ workers * (6 + calls) }
{
    let mut sum = DrillTotals {
        allowed: 0,
        denied: 0,
        entries: 0,
    };
    for worker in 0..workers {
        sum = plus(sum, worker_totals(number, worker, calls));
    }
    sum
}

// What comes of one worker's requests.
fn worker_totals(number: u64, worker: u64, calls: u64) -> DrillTotals
    requires calls { calls ≤ 4000 }
    ensures totals { result ≡ totals_of number worker calls }
    ensures counted { result.allowed + result.denied + result.entries ≡ 6 + calls }
{
    let mut x = number.wrapping_add(worker);
    let mut is_set = true;
    let mut sum = DrillTotals {
        allowed: 0,
        denied: 0,
        entries: 6,
    };
    for _place in 0..calls {
        x = next(x);
        let draw = draw_of(x);
        sum = plus(sum, outcome_of(draw, is_set));
        is_set = set_after(draw, is_set);
    }
    sum
}

// What comes of the request of a draw, where the goal of `read` is set or is not.
fn outcome_of(draw: u64, is_set: bool) -> DrillTotals
    ensures outcome { result ≡ outcome_of draw is_set }
    ensures counted { result.allowed + result.denied + result.entries ≡ 1 }
{
    let (allowed, denied, entries) = match draw % 8 {
        0 | 1 => (0, 0, 1),
        2 | 3 | 4 => (1, 0, 0),
        _ => { if is_set { (1, 0, 0) } else { (0, 1, 0) } }
    };
    DrillTotals {
        allowed,
        denied,
        entries,
    }
}

// The sum of both.
fn plus(a: DrillTotals, b: DrillTotals) -> DrillTotals
    requires a { a.allowed + a.denied + a.entries ≤ 1000000 }
    requires b { b.allowed + b.denied + b.entries ≤ 1000000 }
    ensures { result ≡ plus a b }
{
    DrillTotals {
        allowed: a.allowed + b.allowed,
        denied: a.denied + b.denied,
        entries: a.entries + b.entries,
    }
}

/// The line of a load of at most 64 workers with at most 4,000 drawn requests each, where this came of it. An `Err` is want of
/// memory. `docs/FORMATS.md`, "Generated load", states it.
pub fn drill_line(
    alloc: Global,
    workers: u64,
    calls: u64,
    totals: &DrillTotals,
) -> Result<Bytes, AllocError>
    requires workers { workers ≤ 64 }
    requires calls { calls ≤ 4000 }
    ensures { IfOk result (λ line. line ≡ line_of_totals workers calls totals.now) }
{
    let requests = workers * (7 + calls);
    let DrillTotals {
        allowed,
        denied,
        entries,
    } = *totals;
    let text = format!(in alloc;
        "workers {workers} requests {requests} allowed {allowed} denied {denied} length {entries}\n"
    )?;
    Ok(Bytes::from_vec(text.into_bytes()))
}
