//! What the workers leave: their doors and means, what is reported of their sessions, and the passes that they have not used.
ghost use Rattle.std.specs.Prelude.{◌≡◌, ◌≤◌, [], length, map, All, IfOk};
ghost use Rattle.std.specs.Vec.{vec_capacity};
ghost use Rattle.verdict_words.specs.Settling.{items_of};
ghost use Rattle.nx_io.specs.Views.{door_view, link_view};
ghost use Rattle.nexus_serve.specs.Views.{session_view};
ghost use Rattle.nexus_serve.specs.Inner.Gathering.{gathered_all, gathered_from, joined_each, nothing};

use crate::means::Means;
use crate::reporting::{Reports, ServedSession};
use crate::worker::Worker;
use authority_ask::Panel;
use nx_io::{Door, Link, Sink};
use policy_book::NalMatter;
use std::alloc::{AllocError, Global};
use std::collections::VecDeque;
use std::marker::Model;
use std::sync::ledger::{Ledger, Total};
use verdict_words::{Pass, Roll};

/// What the workers leave, a place for each in every list. The memory for these places is taken before the workers begin, so no want
/// of memory can lose what they leave.
#[derive(Drop)]
pub struct Gathered<D: Door, P: Panel, C: Sink> {
    pub doors: Vec<D>,
    pub means: Vec<Means<P, C>>,
    pub sessions: Vec<Vec<ServedSession<D::Link>>>,
    pub used: Vec<Vec<Pass<NalMatter>>>,
    pub unused: Vec<Roll<NalMatter>>,
    pub reports: Vec<Reports<D::Link>>,
    pub has_failed: bool,
    pub lacks_room: bool,
}

impl<D: Door, P: Panel, C: Sink> Model for Gathered<D, P, C> {
    ghost use Rattle.std.specs.Prelude.{◌≡◌, ◌≤◌, ◌-◌, [], length, map};
    ghost use Rattle.std.specs.Vec.{vec_capacity, vec_len};
    ghost use Rattle.std.specs.Coded.{codes};
    ghost use Rattle.nal_term.specs.contracts.terms.Term as t;
    ghost use Rattle.nal_term.specs.contracts.formulas.Formula as f;
    ghost use Rattle.nx_io.specs.Views.{door_view, link_view};
    ghost use Rattle.verdict_words.specs.Settling.{items_of};
    ghost use Rattle.nexus_serve.specs.Views.{session_view};
    ghost use Rattle.nexus_serve.specs.Inner.Gathering.{GatheredValue};
    ghost use Rattle.nexus_serve.specs.declared.means.Means.{Means};

    ghost Value = { GatheredValue (Means P C) };

    ghost coded = { Prim.hlevel (codes, t.the_row.coded, f.the_row.coded) };

    ghost view = { λ g. record {
      doors = map (door_view D.Door D.Link.Link) g.doors.items;
      means = g.means.items;
      sessions = map (λ mine. map (session_view (link_view D.Link.Link)) mine.items) g.sessions.items;
      used = items_of g.used.items;
      unused = g.unused.items;
      has_failed = g.has_failed;
      lacks_room = g.lacks_room;
      places = vec_capacity g.doors - vec_len g.doors;
    } };

    ghost invariant = { λ g. (g.reports.items ≡ [])
        × (vec_len g.means ≡ vec_len g.doors) × (vec_capacity g.doors ≤ vec_capacity g.means)
        × (vec_len g.sessions ≡ vec_len g.doors) × (vec_capacity g.doors ≤ vec_capacity g.sessions)
        × (vec_len g.used ≡ vec_len g.doors) × (vec_capacity g.doors ≤ vec_capacity g.used)
        × (vec_len g.unused ≡ vec_len g.doors) × (vec_capacity g.doors ≤ vec_capacity g.unused)
        × (vec_capacity g.doors ≤ vec_capacity g.reports)
        × (map (λ mine. length mine.items) g.sessions.items ≡ map (λ mine. length mine.items) g.used.items) };
}

impl<D: Door + Drop, P: Panel + Drop, C: Sink + Drop> Gathered<D, P, C>
where
    D::Link: Drop,
{
    /// Nothing yet, with room for so many workers.
    pub fn with_room(alloc: Global, workers: usize) -> Result<Gathered<D, P, C>, AllocError>
        ensures { IfOk result (λ g. g ≡ nothing workers) }
    {
        Ok(Gathered {
            doors: Vec::with_capacity(alloc, workers)?,
            means: Vec::with_capacity(alloc, workers)?,
            sessions: Vec::with_capacity(alloc, workers)?,
            used: Vec::with_capacity(alloc, workers)?,
            unused: Vec::with_capacity(alloc, workers)?,
            reports: Vec::with_capacity(alloc, workers)?,
            has_failed: false,
            lacks_room: false,
        })
    }

    /// What all these workers leave, in their order. None has more changes that were not recorded than the ledger in all. It takes
    /// no memory.
    pub fn gather<T: Ledger>(
        self,
        workers: Vec<Worker<D, P, C, T>>,
        total: &Total<T>,
    ) -> Gathered<D, P, C>
        requires places { length workers.items ≤ self.places }
        ensures gathered { result ≡ gathered_all self workers.items }
        ensures counted { All (λ worker. worker.unrecorded ≤ total.now.amount) workers.items }
    {
        let mut gathered = self;
        let mut left = VecDeque::from(workers);
        while let Some(worker) = left.pop_front() {
            gathered.take_in(worker, total);
        }
        gathered
    }

    /// Takes in what a worker leaves.
    fn take_in<T: Ledger>(&mut self, worker: Worker<D, P, C, T>, total: &Total<T>)
        requires place { 1 ≤ self.old.places }
        ensures gathered { self.new ≡ gathered_from self.old worker }
        ensures counted { worker.unrecorded ≤ total.now.amount }
    {
        let Worker {
            door,
            means,
            roll,
            sessions,
            used,
            has_failed,
            lacks_room,
            mark,
            ..
        } = worker;
        let mut mark = mark;
        total.audit(&mut mark);
        self.doors.push_reserved(door);
        self.means.push_reserved(means);
        self.sessions.push_reserved(sessions);
        self.used.push_reserved(used);
        self.unused.push_reserved(roll);
        self.has_failed |= has_failed;
        self.lacks_room |= lacks_room;
    }
}

/// The reports of each worker, by what is reported of its sessions and their passes. There is room for them.
pub fn with_passes<L: Link + Drop>(
    sessions: Vec<Vec<ServedSession<L>>>,
    passes: Vec<Vec<Pass<NalMatter>>>,
    reports: Vec<Reports<L>>,
) -> Vec<Reports<L>>
    requires none { reports.items ≡ [] }
    requires room { length sessions.items ≤ vec_capacity reports }
    requires pairs { map (λ mine. length mine.items) sessions.items ≡ map (λ mine. length mine.items) passes.items }
    ensures { result.items ≡ joined_each (map (λ mine. map (session_view (link_view L.Link)) mine.items) sessions.items)
        (items_of passes.items) }
{
    let mut reports = reports;
    let mut sessions = VecDeque::from(sessions);
    let mut passes = VecDeque::from(passes);
    while let Some(mine) = sessions.pop_front() {
        let Some(used) = passes.pop_front() else {
            unreachable!()
        };
        reports.push_reserved(Reports {
            sessions: mine,
            passes: used,
        });
    }
    reports
}
