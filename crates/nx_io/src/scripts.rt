// Which calls of an object in memory fail.
ghost use Rattle.std.specs.Prelude.{◌≡◌, ◌↔◌, ◌≤◌, IfOk, IsTrue};
ghost use Rattle.std.specs.List.{Contains};
ghost use Rattle.nx_io.specs.Streams.{one_more};

use std::alloc::{AllocError, Global};

// Which calls of an object fail, and how many did.
#[derive(Drop)]
pub(crate) struct Script {
    pub(crate) fails: Vec<u64>,
    pub(crate) calls: u64,
    pub(crate) faults: u64,
}

impl Script {
    pub(crate) fn new(alloc: Global, fails: &[u64]) -> Result<Script, AllocError>
        ensures fails { IfOk result (λ script. script.fails.items ≡ fails.now) }
        ensures calls { IfOk result (λ script. script.calls ≡ 0) }
        ensures faults { IfOk result (λ script. script.faults ≡ 0) }
    {
        Ok(Script::of(Vec::from_slice(alloc, fails)?))
    }

    pub(crate) fn of(fails: Vec<u64>) -> Script
        ensures { result ≡ record { fails = fails; calls = 0; faults = 0 } }
    {
        Script {
            fails,
            calls: 0,
            faults: 0,
        }
    }

    // Counts a fault.
    pub(crate) fn fault(&mut self)
        ensures fails { self.new.fails ≡ self.old.fails }
        ensures calls { self.new.calls ≡ self.old.calls }
        ensures faults { self.new.faults ≡ one_more self.old.faults }
        ensures later { self.old.faults ≤ self.new.faults }
    {
        self.faults = self.faults.saturating_add(1);
    }

    // Counts a call, and says whether it is one of those that fail.
    pub(crate) fn call_fails(&mut self) -> bool
        ensures fails { self.new.fails ≡ self.old.fails }
        ensures calls { self.new.calls ≡ one_more self.old.calls }
        ensures faults { self.new.faults ≡ self.old.faults }
        ensures told { IsTrue result ↔ Contains self.old.fails.items self.new.calls }
    {
        self.calls = self.calls.saturating_add(1);
        self.fails.contains(&self.calls)
    }
}
