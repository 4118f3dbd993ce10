// Authorities that are asked over wires, and a clock that answers by itself.
ghost use Rattle.std.specs.Prelude.{◌≡◌, ◌≢◌, ◌<◌, ◌≤◌, [], length, map, replicate, IfNone, IfOk, IfSome, IsSome, None, Some, codes};
ghost use Rattle.std.specs.Option.{option_copied};
ghost use Rattle.nal_term.specs.Trees.{formula_tree};
ghost use Rattle.nx_io.specs.Streams.{Rose, one_more};
ghost use Rattle.authority_ask.specs.Exchanges.{IsAnswerTo, IsAskedOver};
ghost use Rattle.authority_ask.specs.Hosts.{IsAskedAt, IsReachedOver, NeedsClock};
ghost use Rattle.authority_ask.specs.Inner.Addresses.{address_bytes, kept_after, kept_at};
ghost use Rattle.authority_ask.specs.PanelCalls.{address_at, asked, new_history, reach_call, reached_in, share_call, share_of, with_call};
ghost use Rattle.authority_ask.specs.PanelLogs.{call_of};
ghost use Rattle.authority_ask.specs.Panels.{IfMade};
ghost use Rattle.authority_ask.specs.TimeTests.{clock_answer, time_test};

use crate::call_history::{CallHistory, LoggedCall};
use crate::clocks::Clock;
use crate::conversations::{ROOM, Reply, question_line, reply_in};
use crate::panels::{Ask, Panel};
use crate::tcp_wires::TcpWires;
use crate::time_tests::TimeTest;
use crate::wires::Wires;
use arrayvec::ArrayVec;
use nal_term::Formula;
use nx_io::{History, Reach, Shared};
use std::alloc::{AllocError, Global};
use std::marker::Model;
use std::net::{Net, TcpListener, TcpStream};
use std::rt::Clock as SystemClock;
use std::snapshot::Snapshot;

/// How many ports a panel has.
const PORTS: u64 = 16;

/// The address at which the panel's own clock answers.
const CLOCK: &[u8] = b"clock";

/// An address, of at most 64 bytes.
type Address = ArrayVec<u8, 64>;

/// Authorities over wires. At the address `clock` the panel's own clock answers; any other authority is asked over the wires.
/// Contracts see the history, the clock and the wires. `docs/FORMATS.md`, "Authorities", states the lines that go over them.
#[derive(Drop)]
pub struct AuthorityPanel<C: Clock + Drop, W: Wires + Drop> {
    alloc: Global,
    clock: C,
    wires: W,
    addresses: Vec<Option<Address>>,
    history: CallHistory,
}

impl<C: Clock + Drop, W: Wires + Drop> Model for AuthorityPanel<C, W> {
    ghost use Rattle.std.specs.Prelude.{◌≡◌, length, map};
    ghost use Rattle.std.specs.Coded.{codes};
    ghost use Rattle.authority_ask.specs.Inner.TreeCodes.{coded_tree};
    ghost use Rattle.authority_ask.specs.Hosts.{Hosting};
    ghost use Rattle.authority_ask.specs.Inner.Addresses.{IsKept, address_bytes};

    ghost Value = { Hosting C W };

    ghost coded = { Prim.hlevel (codes, coded_tree (Prim.hlevel codes)) };

    ghost view = { λ p. record { history = p.history; clock = p.clock; wires = p.wires } };

    ghost invariant = { λ p. (length p.addresses.items ≡ 16) × IsKept p.history (map address_bytes p.addresses.items) };
}

/// The panel of a host: its authorities are asked over TCP.
pub type HostPanel<C> = AuthorityPanel<C, TcpWires>;

impl<C: Clock + Drop> AuthorityPanel<C, TcpWires> {
    /// A panel with this clock, whose authorities are asked over TCP, and which has reached nobody. All that it will need to know
    /// addresses is taken here. An `Err` is want of memory.
    pub fn new(alloc: Global, clock: C) -> Result<HostPanel<C>, AllocError>
        ensures { IfOk result (λ panel. panel ≡ record { history = new_history; clock = clock; wires = [] }) }
    {
        AuthorityPanel::over(alloc, clock, TcpWires::new(alloc)?)
    }
}

impl<C: Clock + Drop, W: Wires + Drop> AuthorityPanel<C, W> {
    /// A panel with this clock over these wires, which has reached nobody. An `Err` is want of memory.
    pub fn over(alloc: Global, clock: C, wires: W) -> Result<AuthorityPanel<C, W>, AllocError>
        ensures { IfOk result (λ panel. panel ≡ record { history = new_history; clock = clock; wires = wires }) }
    {
        let addresses = no_addresses(alloc)?;
        Ok(AuthorityPanel {
            alloc,
            clock,
            wires,
            addresses,
            history: CallHistory::new(),
        })
    }

    // A panel with a share of the clock and of the wires, and with these addresses.
    fn shared(&self) -> Result<AuthorityPanel<C, W>, AllocError>
        ensures history { IfOk result (λ share. share.history ≡ share_of self.now.history) }
        ensures clock { IfOk result
            (λ share. (C.given share.clock ≡ None) × (C.calls share.clock ≡ 0) × (C.faults share.clock ≡ 0)) }
        ensures wires { IfOk result (λ share. W.calls share.wires ≡ []) }
    {
        let addresses = copies(self.alloc, self.addresses.as_slice())?;
        let wires = self.wires.share(self.alloc)?;
        Ok(AuthorityPanel {
            alloc: self.alloc,
            clock: self.clock.share(),
            wires,
            addresses,
            history: self.history.of_share(),
        })
    }

    // What the authority at a port answers.
    fn answer<R: Net<Listener = TcpListener, Stream = TcpStream> + SystemClock>(
        &mut self,
        rt: &R,
        port: u64,
        statement: &Formula,
    ) -> Ask
        ensures others { self.new ≡ record self.old { clock = self.new.clock; wires = self.new.wires } }
        ensures over_wires { IsAskedAt (reached_in self.old.history) port (formula_tree statement.now)
            (W.calls self.old.wires) (W.calls self.new.wires) result }
        ensures unreached { address_at (reached_in self.old.history) port ≡ None → result ≡ Ask.Down }
        ensures by_clock { address_at (reached_in self.old.history) port ≡ Some (codes "clock")
            → result ≡ clock_answer (C.given self.new.clock) (formula_tree statement.now) }
        ensures clock_down { address_at (reached_in self.old.history) port ≡ Some (codes "clock") → result ≡ Ask.Down
            → Rose (C.faults self.old.clock) (C.faults self.new.clock) }
        ensures clock_called { NeedsClock (reached_in self.old.history) port (formula_tree statement.now)
            → C.calls self.new.clock ≡ one_more (C.calls self.old.clock) }
        ensures clock_rests { ¬ NeedsClock (reached_in self.old.history) port (formula_tree statement.now)
            → self.new.clock ≡ self.old.clock }
    {
        let Some(address) = address_in(self.addresses.as_slice(), port) else {
            return Ask::Down;
        };
        if address == CLOCK {
            return ask_clock(rt, &mut self.clock, statement);
        }
        ask_over(rt, self.alloc, &mut self.wires, port, address, statement)
    }
}

impl<C: Clock + Drop, W: Wires + Drop> Panel for AuthorityPanel<C, W> {
    ghost history = { λ p. p.history };

    /// As of any panel. The wires connect to this address, in one call; they let the connection of the port go at the address
    /// `clock`, where there is nothing to connect to. It fails where they could not connect in this call; and at a port over 15
    /// and at an address over 64 bytes, without a call of them.
    fn reach<R: Net<Listener = TcpListener, Stream = TcpStream> + SystemClock>(
        &mut self,
        rt: &R,
        port: u64,
        address: &[u8],
    ) -> Reach
        ensures history { self.new.history ≡ with_call self.old.history (reach_call port address.now result) }
        ensures clock_rests { self.new.clock ≡ self.old.clock }
        ensures wires_called { IsReachedOver port address.now (W.calls self.old.wires) (W.calls self.new.wires) result }
        ensures outside { 16 ≤ port → result ≡ Reach.Failed }
        ensures long { 64 < length address.now → result ≡ Reach.Failed }
        ensures by_clock { port < 16 → address.now ≡ codes "clock" → result ≡ Reach.Ready }
    {
        let reach = connect(rt, &mut self.wires, &mut self.addresses, port, address);
        self.history.add(reached(reach, port, address));
        reach
    }

    /// As of any panel. At a port of the address `clock` the clock answers, and is called where the statement has one of
    /// the six forms alone; it is Down there only where the clock failed in this call. At any other address the one call of the wires is
    /// an exchange of the line that asks this statement there, and the answer is that of the bytes that came back for it. At a port
    /// that was not reached it is Down, and the wires are not called.
    fn ask<R: Net<Listener = TcpListener, Stream = TcpStream> + SystemClock>(
        &mut self,
        rt: &R,
        port: u64,
        statement: &Formula,
    ) -> Ask
        ensures history { self.new.history
            ≡ with_call self.old.history
            (asked (record { port = port; statement = formula_tree statement.now; answer = result })) }
        ensures over_wires { IsAskedAt (reached_in self.old.history) port (formula_tree statement.now)
            (W.calls self.old.wires) (W.calls self.new.wires) result }
        ensures unreached { address_at (reached_in self.old.history) port ≡ None → result ≡ Ask.Down }
        ensures by_clock { address_at (reached_in self.old.history) port ≡ Some (codes "clock")
            → result ≡ clock_answer (C.given self.new.clock) (formula_tree statement.now) }
        ensures clock_down { address_at (reached_in self.old.history) port ≡ Some (codes "clock") → result ≡ Ask.Down
            → Rose (C.faults self.old.clock) (C.faults self.new.clock) }
        ensures clock_called { NeedsClock (reached_in self.old.history) port (formula_tree statement.now)
            → C.calls self.new.clock ≡ one_more (C.calls self.old.clock) }
        ensures clock_rests { ¬ NeedsClock (reached_in self.old.history) port (formula_tree statement.now)
            → self.new.clock ≡ self.old.clock }
    {
        let answer = self.answer(rt, port, statement);
        let statement = Snapshot::of(statement);
        self.history.add(LoggedCall::Asked {
            port,
            statement,
            answer,
        });
        answer
    }

    /// As of any panel, with a share of the clock. It connects for itself at its first ask at each port. It never fails.
    fn share(&mut self) -> Shared<AuthorityPanel<C, W>>
        ensures fresh { IfMade result (λ share. share.history ≡ share_of self.old.history) }
        ensures history { self.new.history ≡ with_call self.old.history (share_call result) }
        ensures clock { IfMade result
            (λ share. (C.given share.clock ≡ None) × (C.calls share.clock ≡ 0) × (C.faults share.clock ≡ 0)) }
        ensures clock_rests { self.new.clock ≡ self.old.clock }
        ensures wires { IfMade result (λ share. W.calls share.wires ≡ []) }
        ensures wires_rest { self.new.wires ≡ self.old.wires }
        ensures sound { result ≢ Shared.Failed }
    {
        match self.shared() {
            Ok(share) => {
                self.history.add(LoggedCall::Shared);
                Shared::Made(share)
            }
            Err(AllocError) => {
                self.history.add(LoggedCall::NoRoomToShare);
                Shared::NoMemory
            }
        }
    }
}

/// The call by which an address was to be reached.
fn reached(reach: Reach, port: u64, address: &[u8]) -> LoggedCall
    ensures { call_of result ≡ reach_call port address.now reach }
{
    let address = History::of(address);
    match reach {
        Reach::Ready => LoggedCall::Reached { port, address },
        Reach::Failed => LoggedCall::NotReached { port, address },
    }
}

/// Connects to an address and keeps it for the port. A failure leaves all as it was.
fn connect<W: Wires, R: Net<Listener = TcpListener, Stream = TcpStream> + SystemClock>(
    rt: &R,
    wires: &mut W,
    addresses: &mut Vec<Option<Address>>,
    port: u64,
    address: &[u8],
) -> Reach
    requires { length addresses.old.items ≡ 16 }
    ensures kept { map address_bytes addresses.new.items
        ≡ kept_after result port address.now (map address_bytes addresses.old.items) }
    ensures count { length addresses.new.items ≡ 16 }
    ensures wires_called { IsReachedOver port address.now (W.calls wires.old) (W.calls wires.new) result }
    ensures outside { 16 ≤ port → result ≡ Reach.Failed }
    ensures long { 64 < length address.now → result ≡ Reach.Failed }
    ensures clock { port < 16 → address.now ≡ codes "clock" → result ≡ Reach.Ready }
{
    let Some(place) = copied(address) else {
        return Reach::Failed;
    };
    if port >= PORTS {
        return Reach::Failed;
    }
    match wired(rt, wires, port, address) {
        Reach::Ready => {}
        Reach::Failed => return Reach::Failed,
    }
    addresses[port as usize] = Some(place);
    Reach::Ready
}

/// Has wires reach an address: at `clock` there is nothing to connect to.
fn wired<W: Wires, R: Net<Listener = TcpListener, Stream = TcpStream> + SystemClock>(
    rt: &R,
    wires: &mut W,
    port: u64,
    address: &[u8],
) -> Reach
    requires port { port < 16 }
    requires fits { length address.now ≤ 64 }
    ensures wires_called { IsReachedOver port address.now (W.calls wires.old) (W.calls wires.new) result }
    ensures clock { address.now ≡ codes "clock" → result ≡ Reach.Ready }
{
    if address == CLOCK {
        wires.disconnect(port);
        Reach::Ready
    } else {
        wires.connect(rt, port, address)
    }
}

/// What the authority at an address answers over wires.
fn ask_over<W: Wires, R: Net<Listener = TcpListener, Stream = TcpStream> + SystemClock>(
    rt: &R,
    alloc: Global,
    wires: &mut W,
    port: u64,
    address: &[u8],
    statement: &Formula,
) -> Ask
    requires { port < 16 }
    ensures { IsAskedOver port address.now (formula_tree statement.now) (W.calls wires.old) (W.calls wires.new) result }
{
    let Ok(question) = question_line(alloc, statement) else {
        return Ask::NoMemory;
    };
    let mut answer = [0; ROOM];
    let count = wires.exchange(rt, port, address, question.as_slice(), &mut answer);
    answer_in(&answer[..count])
}

/// The answer of the bytes that came back.
fn answer_in(bytes: &[u8]) -> Ask
    ensures { IsAnswerTo bytes.now result }
{
    match reply_in(bytes) {
        Reply::Line { yes: true } | Reply::LineAndMore { yes: true } => Ask::Yes,
        Reply::Line { yes: false } | Reply::LineAndMore { yes: false } => Ask::No,
        Reply::Broken => Ask::Down,
    }
}

/// What a clock answers to a statement. It is called only where the statement has one of the six forms.
fn ask_clock<C: Clock, R: Net<Listener = TcpListener, Stream = TcpStream> + SystemClock>(
    rt: &R,
    clock: &mut C,
    statement: &Formula,
) -> Ask
    ensures answer { result ≡ clock_answer (C.given clock.new) (formula_tree statement.now) }
    ensures down { result ≡ Ask.Down → Rose (C.faults clock.old) (C.faults clock.new) }
    ensures called { time_test (formula_tree statement.now) ≢ None → C.calls clock.new ≡ one_more (C.calls clock.old) }
    ensures rests { time_test (formula_tree statement.now) ≡ None → clock.new ≡ clock.old }
{
    let Some(test) = TimeTest::of(statement) else {
        return Ask::No;
    };
    match clock.now(rt) {
        None => Ask::Down,
        Some(now) => {
            if test.is_true_at(now) {
                Ask::Yes
            } else {
                Ask::No
            }
        }
    }
}

/// A copy of an address. None exactly where it has over 64 bytes.
fn copied(bytes: &[u8]) -> Option<Address>
    ensures made { IfSome result (λ address. address.items ≡ bytes.now) }
    ensures long { IfNone result (64 < length bytes.now) }
    ensures fits { IfSome result (λ _. length bytes.now ≤ 64) }
{
    let mut address = ArrayVec::new();
    match address.try_extend_from_slice(bytes) {
        Ok(()) => Some(address),
        Err(_) => None,
    }
}

/// The address of a port. None exactly where there is none.
fn address_in(addresses: &[Option<Address>], port: u64) -> Option<&[u8]>
    ensures address { option_copied result ≡ kept_at (map address_bytes addresses.now) port }
    ensures within { IsSome result → port < length addresses.now }
{
    match addresses.get(port as usize) {
        Some(Some(address)) => Some(address.as_slice()),
        Some(None) | None => None,
    }
}

/// No address for each port.
fn no_addresses(alloc: Global) -> Result<Vec<Option<Address>>, AllocError>
    ensures { IfOk result (λ addresses. addresses.items ≡ replicate 16 None) }
{
    let mut addresses = Vec::with_capacity(alloc, 16)?;
    for _port in 0..PORTS {
        addresses.push(None)?;
    }
    Ok(addresses)
}

/// A copy of the address of a port.
fn copy_of(address: &Option<Address>) -> Option<Address>
    ensures { address_bytes result ≡ address_bytes address.now }
{
    match address {
        Some(address) => copied(address.as_slice()),
        None => None,
    }
}

/// Copies of the addresses of all ports.
fn copies(alloc: Global, addresses: &[Option<Address>]) -> Result<Vec<Option<Address>>, AllocError>
    ensures { IfOk result (λ copies. map address_bytes copies.items ≡ map address_bytes addresses.now) }
{
    let mut copies = Vec::with_capacity(alloc, addresses.len())?;
    for address in addresses {
        copies.push(copy_of(address))?;
    }
    Ok(copies)
}
