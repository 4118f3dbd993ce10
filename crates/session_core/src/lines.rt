//! Requests of several sessions over one journal, one after another.
ghost use Rattle.std.specs.Prelude.{◌≡◌, ◌≤◌, ◌<◌, ◌+◌, ◌^◌, IfOk, OnErr};
ghost use Rattle.std.specs.List.{All};
ghost use Rattle.authority_ask.specs.PanelCalls.{HasOnlyAsked, asked_since};
ghost use Rattle.policy_history.specs.Values.{entry_trees, greatest_of};
ghost use Rattle.session_core.specs.Sessions.{Point, Told1, at_start};

use crate::answers::Session;
use authority_ask::Panel;
use policy_history::Journal;
use session_wire::{Reply, Request};
use std::alloc::{AllocError, Global};
use std::net::{Net, TcpListener, TcpStream};
use std::rt::Clock;

/// How many sessions there are.
const SESSIONS: usize = 64;

/// A request, and the place of its session among the sessions, from 0.
#[derive(Drop)]
pub struct Asking {
    pub place: u64,
    pub request: Request,
}

/// Answers requests of 64 sessions over one journal in their order, without a cache. The sessions are numbered from `first`
/// on, which is above the greatest session of the journal, and in none a principal is admitted yet. The replies are in the order of the
/// requests. An `Err` says that there was no memory for the list of them: no request was answered, and nothing was asked.
/// `docs/LOGIC.md`, "Sessions", states each answer.
pub fn answer_all<P: Panel, R: Net<Listener = TcpListener, Stream = TcpStream> + Clock>(
    rt: &R,
    alloc: Global,
    journal: &mut Journal,
    first: u64,
    askings: &[Asking],
    panel: &mut P,
) -> Result<Vec<Reply>, AllocError>
    requires new { greatest_of (entry_trees journal.old.entries) < first }
    requires numbers { first + 64 ≤ 2 ^ 64 }
    requires places { All (λ a. a.place < 64) askings.now }
    ensures told { IfOk result
        (λ replies. (last : Point)
        × Told1 journal.old.head first (at_start (entry_trees journal.old.entries)) askings.now replies.items
        (asked_since (P.history panel.old) (P.history panel.new)) last
        × (last.entries ≡ entry_trees journal.new.entries)) }
    ensures kept { OnErr result ((journal.new ≡ journal.old) × (panel.new ≡ panel.old)) }
    ensures head { journal.new.head ≡ journal.old.head }
    ensures asked { HasOnlyAsked (P.history panel.old) (P.history panel.new) }
{
    let mut admitted = [None; SESSIONS];
    let mut replies = Vec::with_capacity(alloc, askings.len())?;
    for asking in askings {
        let place = asking.place as usize;
        let mut session = Session {
            number: first + asking.place,
            principal: admitted[place],
        };
        let reply = session.answer(rt, alloc, journal, &asking.request, panel);
        admitted[place] = session.principal;
        replies.push_reserved(reply);
    }
    Ok(replies)
}
