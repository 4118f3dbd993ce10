// A door in memory, whose links are given beforehand, and which fails at the calls that it is told.
ghost use Rattle.std.specs.Prelude.{◌≡◌, ◌≢◌, ◌↔◌, ◌++◌, ◌∷◌, ◌⊎◌, [], IfOk, IfSome, IsTrue, None, Some, drop, map};
ghost use Rattle.std.specs.Option.{option_map, option_to_list};
ghost use Rattle.std.specs.List.{All, Contains};
ghost use Rattle.nx_io.specs.DoorCalls.{dial_call, faults_in, gave_in, listen_call, next_call, share_call, share_of};
ghost use Rattle.nx_io.specs.Doors.{Gives, IfDialed, IfGiven, IfMade};
ghost use Rattle.nx_io.specs.MemoryDoors.{Dials, IsFreshPlan, IsFreshWire, new_doorway, next_plan, plan_of, share_by};
ghost use Rattle.nx_io.specs.Streams.{one_more};

use crate::door_history::{DoorHistory, LoggedCall};
use crate::doors::{Dial, Door, Next};
use crate::history::History;
use crate::memory_links::MemLink;
use crate::scripts::Script;
use crate::streams::{Reach, Shared};
use std::alloc::{AllocError, Global};
use std::collections::VecDeque;
use std::fs::Files;
use std::marker::Model;
use std::net::{Net, TcpListener, TcpStream};
use std::rt::Clock;

/// What a share of a [`MemDoor`] will have: its links, and the numbers of its calls that fail, the first being 1.
#[derive(Drop)]
pub struct DoorPlan {
    pub links: Vec<MemLink>,
    pub fails: Vec<u64>,
}

/// A door in memory, whose shares give the links that were planned for them.
#[derive(Drop)]
pub struct MemDoor {
    alloc: Global,
    links: VecDeque<MemLink>,
    plans: VecDeque<DoorPlan>,
    dialed: Option<MemLink>,
    script: Script,
    history: DoorHistory,
}

impl Model for MemDoor {
    ghost use Rattle.std.specs.Prelude.{map, IfSome};
    ghost use Rattle.std.specs.List.{All};
    ghost use Rattle.nx_io.specs.DoorCalls.{gave_in};
    ghost use Rattle.nx_io.specs.MemoryDoors.{Doorway, IsFreshPlan, IsFreshWire, numbered, plan_of};

    ghost Value = { Doorway };

    ghost view = { λ d. record {
      links = numbered (gave_in d.history.calls) d.links.items;
      plans = map plan_of d.plans.items;
      dialed = d.dialed;
      fails = d.script.fails.items;
      number = d.script.calls;
      origin = d.history.origin;
      calls = d.history.calls;
    } };

    ghost invariant = { λ d. All IsFreshWire d.links.items × All IsFreshPlan d.plans.items × IfSome d.dialed IsFreshWire };
}

impl MemDoor {
    /// A door whose k-th share has the k-th of these plans, and no link of its own. It gives `dialed` at one dial. The calls
    /// whose numbers `fails` lists fail, the first being 1. Nothing was asked of the links yet. An `Err` is want of memory.
    pub fn new(
        alloc: Global,
        plans: Vec<DoorPlan>,
        dialed: Option<MemLink>,
        fails: &[u64],
    ) -> Result<MemDoor, AllocError>
        requires plans { All IsFreshPlan plans.items }
        requires dialed { IfSome dialed IsFreshWire }
        ensures { IfOk result (λ door. door ≡ new_doorway (map plan_of plans.items) dialed fails.now) }
    {
        Ok(MemDoor {
            alloc,
            links: VecDeque::new(alloc),
            plans: VecDeque::from(plans),
            dialed,
            script: Script::new(alloc, fails)?,
            history: DoorHistory::new(),
        })
    }

    // A share by a plan, of which nothing was asked yet.
    fn by_plan(alloc: Global, plan: Option<DoorPlan>, history: DoorHistory) -> MemDoor
        requires plan { IfSome plan IsFreshPlan }
        requires fresh { history.calls ≡ [] }
        ensures { result ≡ share_by (next_plan (option_to_list (option_map plan_of plan))) history.origin }
    {
        let DoorPlan { links, fails } = match plan {
            Some(plan) => plan,
            None => DoorPlan {
                links: Vec::new(alloc),
                fails: Vec::new(alloc),
            },
        };
        MemDoor {
            alloc,
            links: VecDeque::from(links),
            plans: VecDeque::new(alloc),
            dialed: None,
            script: Script::of(fails),
            history,
        }
    }

    /// How many links the door gave by `next`.
    pub fn gave(&self) -> u64
        ensures { result ≡ gave_in self.now.calls }
    {
        self.history.gave()
    }

    /// How often the door has failed.
    pub fn faults(&self) -> u64
        ensures { result ≡ faults_in self.now.calls }
    {
        self.history.faults()
    }

    // Counts a call, and says whether it is one of those that fail.
    fn call_fails(&mut self) -> bool
        ensures told { IsTrue result ↔ Contains self.old.fails self.new.number }
        ensures others { self.new ≡ record self.old { number = one_more self.old.number } }
    {
        self.script.call_fails()
    }
}

impl Door for MemDoor {
    type Link = MemLink;

    ghost links = { λ d. Some d.links };

    ghost origin = { λ d. d.origin };

    ghost calls = { λ d. d.calls };

    /// As of any door. It fails where its call's number is listed, and nowhere else.
    fn listen<R: Net<Listener = TcpListener, Stream = TcpStream> + Clock + Files>(
        &mut self,
        _rt: &R,
        address: &[u8],
        patience: u64,
    ) -> Reach
        ensures calls { self.new.calls ≡ self.old.calls ++ listen_call address.now patience result ∷ [] }
        ensures links { Some self.new.links ≡ Some self.old.links }
        ensures origin { self.new.origin ≡ self.old.origin }
        ensures failed { (result ≡ Reach.Failed) ↔ Contains self.old.fails self.new.number }
        ensures others { self.new ≡ record self.old { number = one_more self.old.number; calls = self.new.calls } }
    {
        let told = History::of(address);
        if self.call_fails() {
            self.history.add(LoggedCall::NotListened {
                address: told,
                patience,
            });
            return Reach::Failed;
        }
        self.history.add(LoggedCall::Listened {
            address: told,
            patience,
        });
        Reach::Ready
    }

    /// As of any door. The share has the next of the plans, and no links where none is left. It fails where its call's number is
    /// listed, and nowhere else.
    fn share(&mut self) -> Shared<MemDoor>
        ensures fresh { IfMade result (λ share. share.calls ≡ []) }
        ensures shared { IfMade result (λ share. share.origin ≡ share_of self.old.origin self.old.calls) }
        ensures calls { self.new.calls ≡ self.old.calls ++ share_call result ∷ [] }
        ensures links { Some self.new.links ≡ Some self.old.links }
        ensures origin { self.new.origin ≡ self.old.origin }
        ensures made { IfMade result
            (λ share. share ≡ share_by (next_plan self.old.plans) (share_of self.old.origin self.old.calls)) }
        ensures used { IfMade result (λ _. self.new.plans ≡ drop 1 self.old.plans) }
        ensures failed { (result ≡ Shared.Failed) ↔ Contains self.old.fails self.new.number }
        ensures unused { result ≡ Shared.Failed → self.new.plans ≡ self.old.plans }
        ensures others { self.new
            ≡ record self.old { plans = self.new.plans; number = one_more self.old.number; calls = self.new.calls } }
        ensures sound { result ≢ Shared.NoMemory }
    {
        if self.call_fails() {
            self.history.add(LoggedCall::NotShared);
            return Shared::Failed;
        }
        let plan = self.plans.pop_front();
        let history = self.history.of_share();
        self.history.add(LoggedCall::Shared);
        Shared::Made(MemDoor::by_plan(self.alloc, plan, history))
    }

    /// As of any door. It fails where its call's number is listed, and nowhere else.
    fn next<R: Net<Listener = TcpListener, Stream = TcpStream> + Clock>(
        &mut self,
        _rt: &R,
    ) -> Next<MemLink>
        ensures fresh { IfGiven result IsFreshWire }
        ensures place { IfGiven result (λ link. link.place ≡ gave_in self.new.calls) }
        ensures toward { IfGiven result (λ link. link.toward ≡ None) }
        ensures links { Gives result (Some self.old.links) (Some self.new.links) }
        ensures calls { self.new.calls ≡ self.old.calls ++ next_call result ∷ [] }
        ensures origin { self.new.origin ≡ self.old.origin }
        ensures failed { (result ≡ Next.Failed) ↔ Contains self.old.fails self.new.number }
        ensures others { self.new
            ≡ record self.old { links = self.new.links; number = one_more self.old.number; calls = self.new.calls } }
    {
        if self.call_fails() {
            self.history.add(LoggedCall::NotGiven);
            return Next::Failed;
        }
        match self.links.pop_front() {
            Some(link) => {
                self.history.add(LoggedCall::Gave);
                Next::Link(link.given_as(self.history.gave()))
            }
            None => {
                self.history.add(LoggedCall::GaveNoMore);
                Next::NoMore
            }
        }
    }

    /// As of any door. It fails where its call's number is listed and where it has no link to dial, and nowhere else.
    fn dial<R: Net<Listener = TcpListener, Stream = TcpStream> + Clock>(
        &mut self,
        _rt: &R,
        address: &[u8],
    ) -> Dial<MemLink>
        ensures fresh { IfDialed result IsFreshWire }
        ensures place { IfDialed result (λ link. link.place ≡ 0) }
        ensures toward { IfDialed result (λ link. link.toward ≡ Some address.now) }
        ensures calls { self.new.calls ≡ self.old.calls ++ dial_call address.now result ∷ [] }
        ensures links { Some self.new.links ≡ Some self.old.links }
        ensures origin { self.new.origin ≡ self.old.origin }
        ensures dialed { Dials result address.now self.old.dialed self.new.dialed }
        ensures failed { (result ≡ Dial.Failed) ↔ (Contains self.old.fails self.new.number ⊎ (self.old.dialed ≡ None)) }
        ensures others { self.new
            ≡ record self.old { dialed = self.new.dialed; number = one_more self.old.number; calls = self.new.calls } }
    {
        let told = History::of(address);
        if self.call_fails() {
            self.history.add(LoggedCall::NotDialed { address: told });
            return Dial::Failed;
        }
        match self.dialed.take() {
            Some(link) => {
                self.history.add(LoggedCall::Dialed { address: told });
                Dial::Link(link.dialed_at(address))
            }
            None => {
                self.history.add(LoggedCall::NotDialed { address: told });
                Dial::Failed
            }
        }
    }
}
