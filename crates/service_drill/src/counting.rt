// What is counted of what a service left: the calls that were allowed and denied, by the replies that its links were sent, and the
// entries of its journal.
ghost use Rattle.std.specs.Prelude.{◌≡◌, ◌<◌, ◌+◌, ◌^◌, IfOk, cond};
ghost use Rattle.verdict_words.specs.Settling.{flat};
ghost use Rattle.service_drill.specs.Runs.{Counts, allows, denies};
ghost use Rattle.service_drill.specs.Inner.{CountsLinks, CountsReplies, sent_in, sent_over};

use authority_ask::MemPanel;
use nexus_drill::DrillTotals;
use nexus_serve::{Reports, Served, ServedSession};
use nx_io::{Discard, MemDoor, MemLink};
use session_wire::{Reply, ReplyRead, read_reply};
use std::alloc::{AllocError, Global};

/// What is counted of what a service left. An `Err` says that there was no memory, that it left no journal, or that some link was sent
/// other bytes than replies.
pub fn count(
    alloc: Global,
    served: Served<MemDoor, MemPanel, Discard, Discard>,
) -> Result<DrillTotals, AllocError>
    ensures { IfOk result (Counts served) }
{
    let counted = count_in(alloc, &served);
    drop(served);
    counted
}

// As `count`, of what is lent.
fn count_in(
    alloc: Global,
    served: &Served<MemDoor, MemPanel, Discard, Discard>,
) -> Result<DrillTotals, AllocError>
    ensures { IfOk result (Counts served.now) }
{
    let Some(journal) = &served.journal else {
        return Err(AllocError);
    };
    let entries = journal.count();
    let (allowed, denied) = count_workers(alloc, served.reports.as_slice())?;
    Ok(DrillTotals {
        allowed,
        denied,
        entries,
    })
}

// The calls that were allowed and those that were denied, over the links of all workers.
fn count_workers(alloc: Global, workers: &[Reports<MemLink>]) -> Result<(u64, u64), AllocError>
    ensures { IfOk result (CountsLinks (sent_over (flat workers.now))) }
{
    let mut allowed = 0u64;
    let mut denied = 0u64;
    for reports in workers {
        let (its_allowed, its_denied) = count_reports(alloc, reports)?;
        allowed = sum(allowed, its_allowed)?;
        denied = sum(denied, its_denied)?;
    }
    Ok((allowed, denied))
}

// As `count_workers`, over the links of one worker.
fn count_reports(alloc: Global, reports: &Reports<MemLink>) -> Result<(u64, u64), AllocError>
    ensures { IfOk result (CountsLinks (sent_over reports.now)) }
{
    count_sessions(alloc, reports.sessions.as_slice())
}

// As `count_workers`, over the links of some sessions.
fn count_sessions(
    alloc: Global,
    sessions: &[ServedSession<MemLink>],
) -> Result<(u64, u64), AllocError>
    ensures { IfOk result (CountsLinks (sent_in sessions.now)) }
{
    let mut allowed = 0u64;
    let mut denied = 0u64;
    for session in sessions {
        let (more_allowed, more_denied) = count_replies(alloc, session.link.sent())?;
        allowed = sum(allowed, more_allowed)?;
        denied = sum(denied, more_denied)?;
    }
    Ok((allowed, denied))
}

// An `Err` says that a number of 64 bits can't hold the sum.
fn sum(a: u64, b: u64) -> Result<u64, AllocError>
    ensures { IfOk result (λ both. both ≡ a + b) }
{
    match a.checked_add(b) {
        Some(both) => Ok(both),
        None => Err(AllocError),
    }
}

// The calls that were allowed and those that were denied, by the bytes that a link was sent. They are read as a peer reads them.
fn count_replies(alloc: Global, sent: &[u8]) -> Result<(u64, u64), AllocError>
    ensures { IfOk result (CountsReplies sent.now) }
{
    let mut link = MemLink::new(alloc, sent, 0, 4096, &[], &[])?;
    let mut allowed = 0u64;
    let mut denied = 0u64;
    // Each turn but the last takes a byte at least.
    for _turn in 0..sent.len().saturating_add(1) {
        match read_reply(&mut link) {
            ReplyRead::Reply(reply) => {
                allowed = more(allowed, allows(&reply));
                denied = more(denied, denies(&reply));
            }
            ReplyRead::End => return Ok((allowed, denied)),
            ReplyRead::Torn => return Err(AllocError),
            ReplyRead::Bad => return Err(AllocError),
            ReplyRead::ReadFault => return Err(AllocError),
        }
    }
    Err(AllocError)
}

// One more, where it is one.
fn more(count: u64, is_one: bool) -> u64
    ensures { count + 1 < 2 ^ 64 → result ≡ count + cond is_one 1 0 }
{
    if is_one {
        count.saturating_add(1)
    } else {
        count
    }
}

fn allows(reply: &Reply) -> bool
    ensures { result ≡ allows reply.now }
{
    matches!(*reply, Reply::Allowed { .. })
}

fn denies(reply: &Reply) -> bool
    ensures { result ≡ denies reply.now }
{
    matches!(*reply, Reply::Denied { .. })
}
