//! The journal: every accepted change, and the state that these lead to.
ghost use Rattle.std.specs.Prelude.{◌≡◌, ◌<◌, ◌≤◌, ◌+◌, ◌-◌, ◌++◌, ◌∷◌, [], length, IfOk, IfSome, IsOk, OnOk, Some, None, map, option_map, slice_get};
ghost use Rattle.std.specs.Option.{option_copied};
ghost use Rattle.nal_term.specs.Trees.{formula_tree};
ghost use Rattle.object_table.specs.Objects.{number_of};
ghost use Rattle.label_store.specs.LabelRows.{labels_of};
ghost use Rattle.policy_history.specs.Events.{admitted, event_tree};
ghost use Rattle.policy_history.specs.Found.{IsFound};
ghost use Rattle.policy_history.specs.Judged.{region_in};
ghost use Rattle.policy_history.specs.Machine.{IsLegal};
ghost use Rattle.policy_history.specs.Values.{decision, entry_trees, greatest_of, state_after};

use crate::copies::Copies;
use crate::events::{Due, Entry, Event, Found, Refusal};
use crate::heads::Head;
use crate::tables::Policy;
use label_store::LabelsOf;
use nal_term::{Formula, Name, Secret};
use std::alloc::{AllocError, Global};
use std::marker::Model;
use std::snapshot::Snapshot;

/// The accepted changes of a policy in their order, and what they lead to. Contracts see the head, the entries, and how
/// many more entries there is memory for; the state is always the replay of the entries.
/// `docs/ARCHITECTURE.md`, "The journal", says how it is kept.
#[derive(Drop)]
pub struct Journal {
    alloc: Global,
    head: Head,
    entries: Vec<Entry>,
    policy: Policy,
    greatest_session: u64,
}

impl Model for Journal {
    ghost use Rattle.std.specs.Prelude.{◌-◌, min};
    ghost use Rattle.std.specs.Coded.{codes};
    ghost use Rattle.std.specs.Vec.{vec_capacity, vec_len};
    ghost use Rattle.nal_term.specs.contracts.terms.Term as t;
    ghost use Rattle.nal_term.specs.contracts.formulas.Formula as f;
    ghost use Rattle.policy_history.specs.Values.{History};

    ghost Value = { History };

    ghost coded = { Prim.hlevel (codes, t.the_row.coded, f.the_row.coded) };

    ghost use Rattle.policy_history.specs.Tables.{spare_of};
    ghost use Rattle.policy_history.specs.Inner.Kept.{IsKept};

    ghost view = { λ j. record { head = j.head; entries = j.entries.items; room = min (vec_capacity j.entries - vec_len j.entries) (spare_of j.policy) } };

    ghost invariant = { λ j. IsKept j.head j.entries.items j.policy j.greatest_session };
}

/// The memory for one event, taken before it is added. Contracts see the event that it was made for.
#[derive(Drop)]
pub struct Spare {
    event: Snapshot<Event>,
    copies: Copies,
}

impl Model for Spare {
    ghost use Rattle.std.specs.Coded.{codes};
    ghost use Rattle.nal_term.specs.contracts.terms.Term as t;
    ghost use Rattle.nal_term.specs.contracts.formulas.Formula as f;
    ghost use Rattle.policy_history.specs.declared.events.Event.{Event};

    ghost Value = { Event };

    ghost coded = { Prim.hlevel (codes, t.the_row.coded, f.the_row.coded) };

    ghost use Rattle.policy_history.specs.Inner.Copies.{AreCopies};
    ghost use Rattle.policy_history.specs.Events.{event_tree};

    ghost view = { λ s. s.event.value };

    ghost invariant = { λ s. AreCopies s.copies (event_tree s.event.value) };
}

impl Journal {
    /// A journal without entries. An `Err` says that there was no memory for it; the head is then given up.
    pub fn new(alloc: Global, head: Head) -> Result<Journal, AllocError>
        ensures head { IfOk result (λ journal. journal.head ≡ head) }
        ensures entries { IfOk result (λ journal. journal.entries ≡ []) }
    {
        let policy = Policy::new(alloc, &head)?;
        Ok(Journal {
            alloc,
            head,
            entries: Vec::new(alloc),
            policy,
            greatest_session: 0,
        })
    }

    /// The head.
    pub fn head(&self) -> &Head
        ensures { result.now ≡ self.now.head }
    {
        &self.head
    }

    /// How many entries there are: at most 262,144. Each was accepted in its place.
    pub fn count(&self) -> u64
        ensures count { result ≡ length self.now.entries }
        ensures bound { result ≤ 262144 }
        ensures legal { IsLegal self.now.head (entry_trees self.now.entries) }
        ensures accepted { (state_after self.now).entries ≡ result }
    {
        self.entries.len() as u64
    }

    /// The entry with this number, from 1. None exactly where the number is 0 or over the count.
    pub fn entry(&self, number: u64) -> Option<&Entry>
        ensures zero { number ≡ 0 → option_copied result ≡ None }
        ensures value { 0 < number → option_copied result ≡ slice_get self.now.entries (number - 1) }
    {
        if number == 0 || number > self.entries.len() as u64 {
            None
        } else {
            Some(&self.entries[number as usize - 1])
        }
    }

    /// All entries in their order.
    pub fn entries(&self) -> &Vec<Entry>
        ensures { result.now.items ≡ self.now.entries }
    {
        &self.entries
    }

    /// The greatest session number of the entries, or 0 where there is none.
    pub fn greatest_session(&self) -> u64
        ensures { result ≡ greatest_of (entry_trees self.now.entries) }
    {
        self.greatest_session
    }

    /// The number of the principal with this name and this secret. None exactly where nobody has both.
    pub fn principal_of(&self, name: &Name, secret: &Secret) -> Option<u32>
        ensures number { result ≡ admitted self.now.head.principals name.now secret.now }
        ensures within { IfSome result (λ p. p < length self.now.head.principals) }
    {
        self.head.principals.admit(name, secret)
    }

    /// What an event of this principal in this session comes to: the first refusal that applies, or the number that is
    /// replied and the length of its line. It takes no memory. `docs/FORMATS.md`, "Events and refusals", states both.
    pub fn decide(&self, session: u64, principal: u32, event: &Event) -> Result<Due, Refusal>
        requires { principal < length self.now.head.principals }
        ensures decision { result
            ≡ decision self.now.head (state_after self.now) session principal (event_tree event.now) }
        ensures fewer { OnOk result (length self.now.entries < 262144) }
    {
        self.policy.decide(&self.head, session, principal, event)
    }

    /// Takes the memory for one entry of this event, with the copies that it wants. Entries and state stay; an `Err`
    /// says that there was no memory.
    pub fn reserve(&mut self, event: &Event) -> Result<Spare, AllocError>
        ensures head { self.new.head ≡ self.old.head }
        ensures entries { self.new.entries ≡ self.old.entries }
        ensures room { OnOk result (1 ≤ self.new.room) }
        ensures kept { self.old.room ≤ self.new.room }
        ensures spare { IfOk result (λ spare. spare ≡ event.now) }
    {
        self.entries.reserve(1)?;
        self.policy.reserve()?;
        let copies = Copies::of(self.alloc, event)?;
        Ok(Spare {
            event: Snapshot::of(event),
            copies,
        })
    }

    /// Adds an event that is accepted as the last entry, and answers what `decide` answers. It takes no memory.
    pub fn append(&mut self, session: u64, principal: u32, event: Event, spare: Spare) -> Due
        requires principal { principal < length self.old.head.principals }
        requires accepted { IsOk (decision self.old.head (state_after self.old) session principal (event_tree event)) }
        requires room { 1 ≤ self.old.room }
        requires spare { event_tree spare ≡ event_tree event }
        ensures head { self.new.head ≡ self.old.head }
        ensures entries { self.new.entries ≡ self.old.entries
            ++ (record { session = session; principal = principal; event = event }) ∷ [] }
        ensures decision { Ok result
            ≡ decision self.old.head (state_after self.old) session principal (event_tree event) }
        ensures room { self.old.room ≤ self.new.room + 1 }
    {
        let due = self
            .policy
            .apply(&self.head, session, principal, &event, spare.copies);
        self.greatest_session = self.greatest_session.max(session);
        self.entries
            .push(Entry {
                session,
                principal,
                event,
            })
            .unwrap();
        due
    }

    /// What is judged when a principal asks for an operation on the object with this name, after all entries.
    /// `NoObject` exactly where no object has the name, and that takes no memory; else an `Err` says that there was none.
    pub fn case_of(
        &self,
        alloc: Global,
        principal: u32,
        op: &Name,
        object: &Name,
    ) -> Result<Found, AllocError>
        requires { principal < length self.now.head.principals }
        ensures found { IfOk result (IsFound self.now.head (state_after self.now) principal op.now object.now) }
        ensures no_object { number_of (state_after self.now).objects object.now ≡ None → result ≡ Ok Found.NoObject }
    {
        self.policy.found(alloc, &self.head, principal, op, object)
    }

    /// The region that an accepted event of this principal touches, from 0 to 511; None where it touches none. It takes
    /// no memory. `docs/LOGIC.md`, "What a change touches", states the regions.
    pub fn region_of(&self, principal: u32, event: &Event) -> Option<u64>
        requires { principal < length self.now.head.principals }
        ensures region { result ≡ region_in (state_after self.now) principal (event_tree event.now) }
        ensures within { IfSome result (λ region. region < 512) }
    {
        self.policy.region(principal, event)
    }

    /// The k-th label of this principal, from 1, in the order in which they were said. None exactly where k is 0 or it has
    /// fewer. It takes no memory.
    pub fn label(&self, holder: u32, k: u64) -> Option<&Formula>
        ensures zero { k ≡ 0 → option_copied result ≡ None }
        ensures value { 0 < k
            → option_map formula_tree (option_copied result)
            ≡ slice_get (labels_of (state_after self.now).labels holder) (k - 1) }
    {
        self.policy.labels.label(holder, k)
    }

    /// The labels of this principal, one after another, in the order in which they were said. It takes no memory.
    pub fn labels(&self, holder: u32) -> LabelsOf<'_>
        ensures { map formula_tree result ≡ labels_of (state_after self.now).labels holder }
    {
        self.policy.labels.labels(holder)
    }
}
