// A source and a sink in memory, which fail at the calls that they are told.
ghost use Rattle.std.specs.Prelude.{◌<◌, ◌≡◌, ◌↔◌, ◌≤◌, [], false, length, IfOk, Some};
ghost use Rattle.std.specs.List.{Contains};
ghost use Rattle.nx_io.specs.Streams.{Reads, ReadsWithin, Writes, WritesWithin, faults_after_reach, faults_after_read, faults_after_write, given_after, one_more, over_after, synced_after};
ghost use Rattle.nx_io.specs.Memory.{Stores, Supplies, new_store};

use crate::scripts::Script;
use crate::streams::{Got, Put, Reach, Sink, Source};
use std::alloc::{AllocError, Global};
use std::marker::Model;

/// A source over bytes in memory.
#[derive(Drop)]
pub struct MemSource {
    bytes: Vec<u8>,
    taken: usize,
    over: bool,
    piece: usize,
    script: Script,
}

impl Model for MemSource {
    ghost use Rattle.std.specs.Prelude.{◌≤◌, drop, length, take};
    ghost use Rattle.nx_io.specs.Memory.{Supply};

    ghost Value = { Supply };

    ghost view = { λ s. record {
      left = drop s.taken s.bytes.items;
      given = take s.taken s.bytes.items;
      over = s.over;
      piece = s.piece;
      fails = s.script.fails.items;
      calls = s.script.calls;
      faults = s.script.faults;
    } };

    ghost invariant = { λ s. (s.taken ≤ length s.bytes.items) × (1 ≤ s.piece) };
}

impl MemSource {
    /// A source that will give these bytes, at most `piece` in a call. The calls whose numbers `fails` lists fail,
    /// the first being 1. An `Err` is want of memory.
    pub fn new(
        alloc: Global,
        left: &[u8],
        piece: usize,
        fails: &[u64],
    ) -> Result<MemSource, AllocError>
        requires { 1 ≤ piece }
        ensures { IfOk result
            (λ source. source
            ≡ record {
              left = left.now;
              given = [];
              over = false;
              piece = piece;
              fails = fails.now;
              calls = 0;
              faults = 0;
            }) }
    {
        Ok(MemSource {
            bytes: Vec::from_slice(alloc, left)?,
            taken: 0,
            over: false,
            piece,
            script: Script::new(alloc, fails)?,
        })
    }

    /// The bytes still to come.
    pub fn left(&self) -> &[u8]
        ensures { result.now ≡ self.now.left }
    {
        &self.bytes[self.taken..]
    }

    /// How often the source has failed.
    pub fn faults(&self) -> u64
        ensures { result ≡ self.now.faults }
    {
        self.script.faults
    }
}

impl Source for MemSource {
    ghost left = { λ s. Some s.left };

    ghost given = { λ s. s.given };

    ghost over = { λ s. s.over };

    ghost faults = { λ s. s.faults };

    /// As of any source. A call fails where its number is listed, and nowhere else.
    fn read(&mut self, into: &mut [u8]) -> Got
        requires { 0 < length into.old }
        ensures within { ReadsWithin result into.new }
        ensures bytes { Reads result (Some self.old.left) (Some self.new.left) into.new }
        ensures given { self.new.given ≡ given_after result self.old.given into.new }
        ensures over { self.new.over ≡ over_after result self.old.over }
        ensures later { self.old.faults ≤ self.new.faults }
        ensures count { self.new.faults ≡ faults_after_read result self.old.faults }
        ensures exact { Supplies result self.old self.new into.new }
    {
        if self.script.call_fails() {
            self.script.fault();
            return Got::Failed;
        }
        let left = &self.bytes[self.taken..];
        if left.is_empty() {
            self.over = true;
            return Got::End;
        }
        let count = left.len().min(self.piece).min(into.len());
        into[..count].copy_from_slice(&left[..count]);
        self.taken += count;
        self.over = false;
        Got::Bytes(count)
    }
}

/// A sink that keeps in memory what it is sent.
#[derive(Drop)]
pub struct MemSink {
    sent: Vec<u8>,
    room: usize,
    piece: usize,
    script: Script,
    synced: usize,
    syncs: Script,
}

impl Model for MemSink {
    ghost use Rattle.std.specs.Prelude.{◌≤◌, length};
    ghost use Rattle.std.specs.Vec.{vec_capacity};
    ghost use Rattle.nx_io.specs.Memory.{Store};

    ghost Value = { Store };

    ghost view = { λ s. record {
      sent = s.sent.items;
      room = s.room;
      piece = s.piece;
      fails = s.script.fails.items;
      calls = s.script.calls;
      synced = s.synced;
      sync_fails = s.syncs.fails.items;
      syncs = s.syncs.calls;
      faults = s.script.faults;
    } };

    ghost invariant = { λ s. (length s.sent.items ≤ s.room) × (s.room ≤ vec_capacity s.sent) × (1 ≤ s.piece) };
}

impl MemSink {
    /// A sink that holds at most `room` bytes and takes at most `piece` in a write. The writes whose numbers `fails`
    /// lists fail, the first being 1, and so does a write where no room is left; the syncs whose numbers `sync_fails` lists fail.
    /// An `Err` is want of memory: all that the sink will need is taken here.
    pub fn new(
        alloc: Global,
        room: usize,
        piece: usize,
        fails: &[u64],
        sync_fails: &[u64],
    ) -> Result<MemSink, AllocError>
        requires { 1 ≤ piece }
        ensures { IfOk result (λ sink. sink ≡ new_store room piece fails.now sync_fails.now) }
    {
        Ok(MemSink {
            sent: Vec::with_capacity(alloc, room)?,
            room,
            piece,
            script: Script::new(alloc, fails)?,
            synced: 0,
            syncs: Script::new(alloc, sync_fails)?,
        })
    }

    /// The bytes that were sent.
    pub fn sent(&self) -> &[u8]
        ensures { result.now ≡ self.now.sent }
    {
        self.sent.as_slice()
    }

    /// How many of them the last sync that did not fail has covered.
    pub fn synced(&self) -> usize
        ensures { result ≡ self.now.synced }
    {
        self.synced
    }

    /// How often the sink has failed.
    pub fn faults(&self) -> u64
        ensures { result ≡ self.now.faults }
    {
        self.script.faults
    }
}

impl Sink for MemSink {
    ghost sent = { λ s. s.sent };

    ghost synced = { λ s. s.synced };

    ghost faults = { λ s. s.faults };

    /// As of any sink. A call fails where its number is listed or no room is left, and nowhere else.
    fn write(&mut self, piece: &[u8]) -> Put
        requires { 0 < length piece.now }
        ensures within { WritesWithin result piece.now }
        ensures bytes { Writes result self.old.sent self.new.sent piece.now }
        ensures synced { self.new.synced ≡ self.old.synced }
        ensures later { self.old.faults ≤ self.new.faults }
        ensures count { self.new.faults ≡ faults_after_write result self.old.faults }
        ensures exact { Stores result self.old self.new piece.now }
    {
        let room_left = self.room - self.sent.len();
        if self.script.call_fails() || room_left == 0 {
            self.script.fault();
            return Put::Failed;
        }
        let count = piece.len().min(self.piece).min(room_left);
        match self.sent.extend_from_slice(&piece[..count]) {
            Ok(()) => Put::Bytes(count),
            // Never: the memory was taken when the sink was made.
            Err(_) => {
                self.script.fault();
                Put::Failed
            }
        }
    }

    /// As of any sink. A call fails where its number is listed, and nowhere else.
    fn sync(&mut self) -> Reach
        ensures sent { self.new.sent ≡ self.old.sent }
        ensures synced { self.new.synced ≡ synced_after result self.old.sent self.old.synced }
        ensures later { self.old.faults ≤ self.new.faults }
        ensures count { self.new.faults ≡ faults_after_reach result self.old.faults }
        ensures failed { (result ≡ Reach.Failed) ↔ Contains self.old.sync_fails self.new.syncs }
        ensures others { self.new
            ≡ record self.old { synced = self.new.synced; syncs = one_more self.old.syncs; faults = self.new.faults } }
    {
        if self.syncs.call_fails() {
            self.script.fault();
            return Reach::Failed;
        }
        self.synced = self.sent.len();
        Reach::Ready
    }
}
