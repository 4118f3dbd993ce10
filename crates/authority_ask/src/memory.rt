// Authorities in memory, whose answers are given beforehand.
ghost use Rattle.std.specs.Prelude.{◌≡◌, ◌↔◌, IfOk, IsTrue};
ghost use Rattle.std.specs.List.{Contains};
ghost use Rattle.nal_term.specs.Trees.{formula_tree};
ghost use Rattle.nx_io.specs.Streams.{one_more};
ghost use Rattle.authority_ask.specs.Memory.{answer_at, rehearsal, rehearsed};
ghost use Rattle.authority_ask.specs.PanelCalls.{asked, asks_in, faults_in, reach_call, share_call, share_of, with_call};
ghost use Rattle.authority_ask.specs.Panels.{IfMade};

use crate::call_history::{CallHistory, LoggedCall};
use crate::panels::{Ask, Panel};
use nal_term::Formula;
use nx_io::{History, Reach, Shared};
use std::alloc::{AllocError, Global};
use std::marker::Model;
use std::net::{Net, TcpListener, TcpStream};
use std::rt::Clock as SystemClock;
use std::snapshot::Snapshot;

/// Calls that are counted, and the numbers of those that fail.
#[derive(Drop)]
struct Calls {
    fails: Vec<u64>,
    count: u64,
}

impl Calls {
    fn new(alloc: Global, fails: &[u64]) -> Result<Calls, AllocError>
        ensures fails { IfOk result (λ calls. calls.fails.items ≡ fails.now) }
        ensures count { IfOk result (λ calls. calls.count ≡ 0) }
    {
        Ok(Calls {
            fails: Vec::from_slice(alloc, fails)?,
            count: 0,
        })
    }

    /// Counts a call, and says whether it is one of those that fail.
    fn next_fails(&mut self) -> bool
        ensures fails { self.new.fails ≡ self.old.fails }
        ensures count { self.new.count ≡ one_more self.old.count }
        ensures told { IsTrue result ↔ Contains self.old.fails.items self.new.count }
    {
        self.count = self.count.saturating_add(1);
        self.fails.contains(&self.count)
    }
}

/// A panel whose answers are given beforehand.
#[derive(Drop)]
pub struct MemPanel {
    alloc: Global,
    answers: Vec<Ask>,
    reaches: Calls,
    shares: Calls,
    history: CallHistory,
}

impl Model for MemPanel {
    ghost use Rattle.std.specs.Coded.{codes};
    ghost use Rattle.authority_ask.specs.Inner.TreeCodes.{coded_tree};
    ghost use Rattle.authority_ask.specs.Memory.{Rehearsed};

    ghost Value = { Rehearsed };

    ghost coded = { Prim.hlevel (codes, coded_tree (Prim.hlevel codes)) };

    ghost view = { λ p. record {
      answers = p.answers.items;
      reach_fails = p.reaches.fails.items;
      share_fails = p.shares.fails.items;
      reaches = p.reaches.count;
      shares = p.shares.count;
      history = p.history;
    } };
}

impl MemPanel {
    /// A panel that answers its asks with these answers in order, and No after the last. The reaches and the shares whose
    /// numbers are listed fail, the first of each being 1. An `Err` is want of memory.
    pub fn new(
        alloc: Global,
        answers: &[Ask],
        reach_fails: &[u64],
        share_fails: &[u64],
    ) -> Result<MemPanel, AllocError>
        ensures { IfOk result (λ panel. panel ≡ rehearsal answers.now reach_fails.now share_fails.now) }
    {
        MemPanel::with_history(alloc, answers, reach_fails, share_fails, CallHistory::new())
    }

    // The same with this history.
    fn with_history(
        alloc: Global,
        answers: &[Ask],
        reach_fails: &[u64],
        share_fails: &[u64],
        history: CallHistory,
    ) -> Result<MemPanel, AllocError>
        ensures { IfOk result (λ panel. panel ≡ rehearsed answers.now reach_fails.now share_fails.now history) }
    {
        Ok(MemPanel {
            alloc,
            answers: Vec::from_slice(alloc, answers)?,
            reaches: Calls::new(alloc, reach_fails)?,
            shares: Calls::new(alloc, share_fails)?,
            history,
        })
    }

    /// How often the panel has failed.
    pub fn faults(&self) -> u64
        ensures { result ≡ faults_in self.now.history.calls }
    {
        self.history.faults()
    }

    /// How often was asked.
    pub fn asks(&self) -> u64
        ensures { result ≡ asks_in self.now.history.calls }
    {
        self.history.asks()
    }

    /// The answer to the next ask.
    fn next_answer(&self) -> Ask
        ensures { result ≡ answer_at self.now.answers (asks_in self.now.history.calls) }
    {
        let asks = self.history.asks();
        if asks < self.answers.len() as u64 {
            self.answers[asks as usize]
        } else {
            Ask::No
        }
    }
}

impl Panel for MemPanel {
    ghost history = { λ p. p.history };

    /// As of any panel. A reach fails where its number is listed, and nowhere else.
    fn reach<R: Net<Listener = TcpListener, Stream = TcpStream> + SystemClock>(
        &mut self,
        _rt: &R,
        port: u64,
        address: &[u8],
    ) -> Reach
        ensures history { self.new.history ≡ with_call self.old.history (reach_call port address.now result) }
        ensures failed { (result ≡ Reach.Failed) ↔ Contains self.old.reach_fails self.new.reaches }
        ensures others { self.new
            ≡ record self.old { reaches = one_more self.old.reaches; history = self.new.history } }
    {
        let told = History::of(address);
        if self.reaches.next_fails() {
            self.history.add(LoggedCall::NotReached {
                port,
                address: told,
            });
            Reach::Failed
        } else {
            self.history.add(LoggedCall::Reached {
                port,
                address: told,
            });
            Reach::Ready
        }
    }

    /// As of any panel. The answer is the next of those that were given.
    fn ask<R: Net<Listener = TcpListener, Stream = TcpStream> + SystemClock>(
        &mut self,
        _rt: &R,
        port: u64,
        statement: &Formula,
    ) -> Ask
        ensures history { self.new.history
            ≡ with_call self.old.history
            (asked (record { port = port; statement = formula_tree statement.now; answer = result })) }
        ensures answer { result ≡ answer_at self.old.answers (asks_in self.old.history.calls) }
        ensures others { self.new ≡ record self.old { history = self.new.history } }
    {
        let answer = self.next_answer();
        let statement = Snapshot::of(statement);
        self.history.add(LoggedCall::Asked {
            port,
            statement,
            answer,
        });
        answer
    }

    /// As of any panel. The share has the same answers from the first on, and the same numbers of calls that fail. A share
    /// fails where its number is listed, and nowhere else.
    fn share(&mut self) -> Shared<MemPanel>
        ensures fresh { IfMade result (λ share. share.history ≡ share_of self.old.history) }
        ensures history { self.new.history ≡ with_call self.old.history (share_call result) }
        ensures same { IfMade result
            (λ share. share
            ≡ rehearsed self.old.answers self.old.reach_fails self.old.share_fails (share_of self.old.history)) }
        ensures failed { (result ≡ Shared.Failed) ↔ Contains self.old.share_fails self.new.shares }
        ensures others { self.new ≡ record self.old { shares = one_more self.old.shares; history = self.new.history } }
    {
        if self.shares.next_fails() {
            self.history.add(LoggedCall::NotShared);
            return Shared::Failed;
        }
        let history = self.history.of_share();
        let answers = self.answers.as_slice();
        let reaches = self.reaches.fails.as_slice();
        let shares = self.shares.fails.as_slice();
        match MemPanel::with_history(self.alloc, answers, reaches, shares, history) {
            Ok(share) => {
                self.history.add(LoggedCall::Shared);
                Shared::Made(share)
            }
            Err(AllocError) => {
                self.history.add(LoggedCall::NoRoomToShare);
                Shared::NoMemory
            }
        }
    }
}
