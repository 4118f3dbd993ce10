//! A session over a link that is alone over a journal.
ghost use Rattle.std.specs.Prelude.{◌≡◌, ◌≤◌, ◌<◌, [], false, true};
ghost use Rattle.nx_io.specs.Views.{HasTaken, IsSameLink};
ghost use Rattle.nx_io.specs.Streams.{MayRise};
ghost use Rattle.authority_ask.specs.PanelCalls.{HasOnlyAsked, asked_since};
ghost use Rattle.policy_history.specs.Values.{entry_trees, greatest_of};
ghost use Rattle.session_core.specs.Ends.{IsServed, faults_after_end, is_over};

use crate::answers::Session;
use crate::ends::SessionEnd;
use crate::sitting::{Sitting, serve_sitting};
use authority_ask::Panel;
use nx_io::Link;
use policy_history::Journal;
use session_wire::{FrameReader, Reply, Request};
use std::alloc::{AllocError, Global};
use std::net::{Net, TcpListener, TcpStream};
use std::rt::Clock;

impl<P: Panel, R: Net<Listener = TcpListener, Stream = TcpStream> + Clock> Sitting<R, Journal, P>
    for Session {
    ghost use Rattle.policy_history.specs.Values.{entry_trees};
    ghost use Rattle.session_core.specs.Inner.Serving.{IsAlone, IsOpen};
    ghost use Rattle.std.specs.Option.{is_some};

    ghost ready = { λ s journal panel. IsOpen journal.head s.number s.principal };

    ghost told = { λ first journal_first panel_first s journal panel requests replies. IsAlone (record {
      number = first.number;
      who = first.principal;
      head = journal_first.head;
      es = entry_trees journal_first.entries;
      asked = P.history panel_first;
    }) (record {
      number = s.number;
      who = s.principal;
      head = journal.head;
      es = entry_trees journal.entries;
      asked = P.history panel;
    }) requests replies };

    ghost admitted = { λ s. is_some s.principal };

    fn answer(
        self,
        rt: &R,
        alloc: Global,
        request: &Request,
        journal: &mut Journal,
        panel: &mut P,
    ) -> (Self, Reply) {
        let mut session = self;
        let reply = Session::answer(&mut session, rt, alloc, journal, request, panel);
        (session, reply)
    }

    fn give_up(self) -> Self {
        self
    }

    fn is_admitted(&self) -> bool {
        self.principal.is_some()
    }

    fn replied(&self, _rt: &R) {}
}

/// Serves one session over a link and the journal, without a cache, and closes the link. Frames are taken and answered one
/// after another, whatever the pieces in which they come, and each reply is sent before a byte of the next frame is taken.
/// `docs/LOGIC.md`, "Sessions", states each answer.
///
/// `Closed` and `Torn` come exactly where the link has ended, at a frame's edge or within a frame. `BadFrame` comes exactly
/// where what came is no request's frame, and was answered `Bad`. `ReadFault` and `WriteFault` come only where the link has
/// failed, which ended the session. `Spent` comes exactly after 1,048,576 requests whose replies were all sent. `Memory` comes
/// only where nothing was taken; a request for which there is no memory is answered `NoMemory`. The link is told that its peer is
/// admitted exactly where a hello is welcomed, before that reply is sent.
pub fn serve_on<L: Link, P: Panel, R: Net<Listener = TcpListener, Stream = TcpStream> + Clock>(
    rt: &R,
    alloc: Global,
    journal: &mut Journal,
    session: u64,
    link: &mut L,
    panel: &mut P,
) -> SessionEnd
    requires number { greatest_of (entry_trees journal.old.entries) < session }
    requires taken { L.taken link.old ≡ [] }
    requires sent { L.sent link.old ≡ [] }
    requires over { L.over link.old ≡ false }
    requires closed { L.closed link.old ≡ false }
    requires admitted { L.admitted link.old ≡ false }
    ensures served { IsServed result journal.old.head session (entry_trees journal.old.entries)
        (entry_trees journal.new.entries) (L.taken link.new) (L.sent link.new)
        (asked_since (P.history panel.old) (P.history panel.new)) (L.admitted link.new) }
    ensures bytes { HasTaken L.Link link.old link.new }
    ensures over { L.over link.new ≡ is_over result }
    ensures closed { L.closed link.new ≡ true }
    ensures origin { IsSameLink L.Link link.old link.new }
    ensures link_later { L.faults link.old ≤ L.faults link.new }
    ensures link_count { MayRise (faults_after_end result (L.faults link.old)) (L.faults link.new) }
    ensures head { journal.new.head ≡ journal.old.head }
    ensures asked { HasOnlyAsked (P.history panel.old) (P.history panel.new) }
{
    let alone = Session {
        number: session,
        principal: None,
    };
    let end = match FrameReader::new(alloc) {
        Ok(mut reader) => serve_sitting(rt, alloc, alone, &mut reader, link, journal, panel).1,
        Err(AllocError) => SessionEnd::Memory,
    };
    link.close();
    end
}
