//! Which events are refused, and why.
ghost use Rattle.std.specs.Prelude.{◌≡◌, ◌<◌, ◌+◌, ◌^◌, ◌∷◌, [], ℕ, is_some, length, option_map, IfSome, OnOk};
ghost use Rattle.std.specs.List.{find};
ghost use Rattle.nal_term.specs.Trees.{formula_tree, term_tree};
ghost use Rattle.proof_lines.specs.Lines.{line_trees};
ghost use Rattle.policy_history.specs.Inner.Early.{early_refusal, late_refusal};
ghost use Rattle.policy_history.specs.Events.{event_tree};
ghost use Rattle.policy_history.specs.Events as tree;
ghost use Rattle.object_table.specs.Objects.{number_of};
ghost use Rattle.policy_history.specs.Judged.{object_region, region_in};
ghost use Rattle.policy_history.specs.Inner.Sound.{IsSound};
ghost use Rattle.policy_history.specs.Values.{decision};
ghost use Rattle.policy_history.specs.Machine.{applies, is_another, is_full, is_portless, is_spent, refusal_of, reply_number};
ghost use Rattle.policy_history.specs.States.{case_named, goal_named, owner_named, proof_named, tally_of};
ghost use Rattle.policy_history.specs.Tables.{state_of};
ghost use Rattle.policy_history.specs.declared.events.Refusal.TheVariants.{CasesFull, ObjectsFull};

use crate::events::{Due, Event, Refusal};
use crate::heads::Head;
use crate::lines::line_length;
use crate::spelled::{is_foreign, is_goal_formula, is_proof, is_stated, is_statement, label_fits};
use crate::tables::Policy;
use crate::tallies::Tally;
use nal_term::{Formula, Name, Term};
use object_table::MOST_OBJECTS;
use proof_lines::Proof;
use proof_store::MOST_CASES;

// Whether there is someone, and it is another.
fn is_another(found: Option<u32>, principal: u32) -> bool
    ensures { result ≡ is_another found principal }
{
    match found {
        None => false,
        Some(other) => !(other == principal),
    }
}

// Whether one more line of this length is more than a principal may add.
fn is_spent(tally: &Tally, bytes: u64) -> bool
    ensures { result ≡ is_spent tally.now bytes }
{
    tally.entries >= 4096 || tally.bytes.saturating_add(bytes) > 524_288
}

/// How many entries a journal may have.
pub const MOST_ENTRIES: u64 = 262_144;

/// How many bytes the lines of a journal's entries may have together, line feeds counted.
pub const MOST_ENTRY_BYTES: u64 = 33_554_432;

impl Policy {
    // The owner of the object with this name.
    fn owner_named(&self, object: &Name) -> Option<u32>
        ensures { result ≡ owner_named (state_of self.now) object.now }
    {
        match self.objects.number(object) {
            None => None,
            Some(number) => self.objects.owner(number),
        }
    }

    // Whether an operation on the object with this name has a goal.
    fn has_goal(&self, op: &Name, object: &Name) -> bool
        ensures { result ≡ is_some (goal_named (state_of self.now) op.now object.now) }
    {
        match self.objects.number(object) {
            None => false,
            Some(number) => self.goals.goal(op, number).is_some(),
        }
    }

    // The case number of a subject, an operation and the object with this name.
    fn case_named(&self, subject: u32, op: &Name, object: &Name) -> Option<u64>
        ensures { result ≡ case_named (state_of self.now) subject op.now object.now }
    {
        match self.objects.number(object) {
            None => None,
            Some(number) => self.cases.number_of(subject, op, number),
        }
    }

    // Whether a proof is registered for a subject, an operation and the object with this name.
    fn has_proof(&self, subject: u32, op: &Name, object: &Name) -> bool
        ensures { result ≡ is_some (proof_named (state_of self.now) subject op.now object.now) }
    {
        match self.case_named(subject, op, object) {
            None => false,
            Some(case) => self.cases.proof(case).is_some(),
        }
    }

    // Whether the principal is spelled and closed, and has no port.
    fn is_portless(&self, principal: &Option<Term>) -> bool
        ensures { result ≡ is_portless (state_of self.now) (option_map term_tree principal.now) }
    {
        match principal {
            None => false,
            Some(term) => is_stated(principal) && self.goals.port(term).is_none(),
        }
    }

    fn say_refusal(
        &self,
        head: &Head,
        caller: u32,
        principal: &Option<Term>,
        formula: &Option<Formula>,
    ) -> Option<Refusal>
        requires { caller < length head.now.principals }
        ensures { (n : ℕ)
            → result
            ≡ early_refusal head.now (state_of self.now) n caller
            (tree.say (option_map term_tree principal.now) (option_map formula_tree formula.now)) }
    {
        if is_foreign(head.principals.name(caller), principal) {
            Some(Refusal::NotYourPrincipal)
        } else if !(is_stated(principal)
            && (is_statement(formula) && label_fits(principal, formula)))
        {
            Some(Refusal::BadFormula)
        } else {
            None
        }
    }

    fn transfer_refusal(&self, head: &Head, caller: u32, number: u64, to: &Name) -> Option<Refusal>
        ensures { (n : ℕ) → result ≡ early_refusal head.now (state_of self.now) n caller (tree.transfer number to.now) }
    {
        if head.principals.number_of(to).is_none() {
            Some(Refusal::NoSuchPrincipal)
        } else if self.labels.find(number).is_none() {
            Some(Refusal::NoSuchLabel)
        } else if is_another(self.labels.find(number), caller) {
            Some(Refusal::NotHolder)
        } else {
            None
        }
    }

    fn delete_refusal(&self, head: &Head, caller: u32, number: u64) -> Option<Refusal>
        ensures { (n : ℕ) → result ≡ early_refusal head.now (state_of self.now) n caller (tree.delete number) }
    {
        if self.labels.find(number).is_none() {
            Some(Refusal::NoSuchLabel)
        } else if is_another(self.labels.find(number), caller) {
            Some(Refusal::NotHolder)
        } else {
            None
        }
    }

    fn new_object_refusal(&self, head: &Head, caller: u32, name: &Name) -> Option<Refusal>
        ensures { (n : ℕ) → result ≡ early_refusal head.now (state_of self.now) n caller (tree.new_object name.now) }
    {
        if self.objects.number(name).is_some() {
            Some(Refusal::NameTaken)
        } else {
            None
        }
    }

    fn set_goal_refusal(
        &self,
        head: &Head,
        caller: u32,
        op: &Name,
        object: &Name,
        goal: &Option<Formula>,
    ) -> Option<Refusal>
        ensures { (n : ℕ)
            → result
            ≡ early_refusal head.now (state_of self.now) n caller
            (tree.set_goal op.now object.now (option_map formula_tree goal.now)) }
    {
        if self.objects.number(object).is_none() {
            Some(Refusal::NoSuchObject)
        } else if is_another(self.owner_named(object), caller) {
            Some(Refusal::NotOwner)
        } else if !is_goal_formula(goal, &self.subject) {
            Some(Refusal::BadFormula)
        } else {
            None
        }
    }

    fn clear_goal_refusal(
        &self,
        head: &Head,
        caller: u32,
        op: &Name,
        object: &Name,
    ) -> Option<Refusal>
        ensures { (n : ℕ)
            → result ≡ early_refusal head.now (state_of self.now) n caller (tree.clear_goal op.now object.now) }
    {
        if self.objects.number(object).is_none() {
            Some(Refusal::NoSuchObject)
        } else if is_another(self.owner_named(object), caller) {
            Some(Refusal::NotOwner)
        } else if !self.has_goal(op, object) {
            Some(Refusal::NoGoal)
        } else {
            None
        }
    }

    fn set_proof_refusal(
        &self,
        head: &Head,
        caller: u32,
        op: &Name,
        object: &Name,
        proof: &Option<Proof>,
    ) -> Option<Refusal>
        ensures { (n : ℕ)
            → result
            ≡ early_refusal head.now (state_of self.now) n caller
            (tree.set_proof op.now object.now (option_map line_trees proof.now)) }
    {
        if self.objects.number(object).is_none() {
            Some(Refusal::NoSuchObject)
        } else if !is_proof(proof) {
            Some(Refusal::BadProof)
        } else {
            None
        }
    }

    fn clear_proof_refusal(
        &self,
        head: &Head,
        caller: u32,
        op: &Name,
        object: &Name,
    ) -> Option<Refusal>
        ensures { (n : ℕ)
            → result ≡ early_refusal head.now (state_of self.now) n caller (tree.clear_proof op.now object.now) }
    {
        if self.objects.number(object).is_none() {
            Some(Refusal::NoSuchObject)
        } else if !self.has_proof(caller, op, object) {
            Some(Refusal::NoSuchProof)
        } else {
            None
        }
    }

    fn bind_refusal(
        &self,
        head: &Head,
        caller: u32,
        principal: &Option<Term>,
        port: u64,
    ) -> Option<Refusal>
        requires { caller < length head.now.principals }
        ensures { (n : ℕ)
            → result
            ≡ early_refusal head.now (state_of self.now) n caller
            (tree.bind (option_map term_tree principal.now) port) }
    {
        if is_foreign(head.principals.name(caller), principal) {
            Some(Refusal::NotYourPrincipal)
        } else if !head.authorities.has_port(port) {
            Some(Refusal::BadPort)
        } else if !is_stated(principal) {
            Some(Refusal::BadFormula)
        } else {
            None
        }
    }

    fn unbind_refusal(&self, head: &Head, caller: u32, principal: &Option<Term>) -> Option<Refusal>
        requires { caller < length head.now.principals }
        ensures { (n : ℕ)
            → result
            ≡ early_refusal head.now (state_of self.now) n caller (tree.unbind (option_map term_tree principal.now)) }
    {
        if is_foreign(head.principals.name(caller), principal) {
            Some(Refusal::NotYourPrincipal)
        } else if self.is_portless(principal) {
            Some(Refusal::NoBinding)
        } else if !is_stated(principal) {
            Some(Refusal::BadFormula)
        } else {
            None
        }
    }

    // The refusal of an event, what was added before aside.
    fn early_refusal(&self, head: &Head, caller: u32, event: &Event) -> Option<Refusal>
        requires { caller < length head.now.principals }
        ensures { (n : ℕ) → result ≡ early_refusal head.now (state_of self.now) n caller (event_tree event.now) }
    {
        match event {
            Event::Say { principal, formula } => self.say_refusal(head, caller, principal, formula),
            Event::Transfer { number, to } => self.transfer_refusal(head, caller, *number, to),
            Event::Delete { number } => self.delete_refusal(head, caller, *number),
            Event::NewObject { name } => self.new_object_refusal(head, caller, name),
            Event::SetGoal { op, object, goal } => self.set_goal_refusal(
                head, caller, op, object, goal,
            ),
            Event::ClearGoal { op, object } => self.clear_goal_refusal(head, caller, op, object),
            Event::SetProof { op, object, proof } => self.set_proof_refusal(
                head, caller, op, object, proof,
            ),
            Event::ClearProof { op, object } => self.clear_proof_refusal(head, caller, op, object),
            Event::Bind { principal, port } => self.bind_refusal(head, caller, principal, *port),
            Event::Unbind { principal } => self.unbind_refusal(head, caller, principal),
        }
    }

    // Whether one more line of this length is more than the journal may have.
    fn is_full(&self, bytes: u64) -> bool
        ensures { result ≡ is_full (state_of self.now) bytes }
    {
        self.entries >= MOST_ENTRIES || self.bytes.saturating_add(bytes) > MOST_ENTRY_BYTES
    }

    // The refusal of an event for which there is no room in a table.
    fn full_refusal(&self, head: &Head, caller: u32, event: &Event) -> Option<Refusal>
        ensures { (n : ℕ)
            → result
            ≡ find (applies head.now (state_of self.now) n caller (event_tree event.now))
            (ObjectsFull ∷ CasesFull ∷ []) }
    {
        match event {
            Event::NewObject { name: _ } => {
                if self.objects.count() >= MOST_OBJECTS as u64 {
                    Some(Refusal::ObjectsFull)
                } else {
                    None
                }
            }
            Event::SetProof {
                op,
                object,
                proof: _,
            } => {
                if self.case_named(caller, op, object).is_none()
                    && self.cases.count() >= MOST_CASES as u64
                {
                    Some(Refusal::CasesFull)
                } else {
                    None
                }
            }
            Event::Say { .. } | Event::Transfer { .. } | Event::Delete { .. } => None,
            Event::SetGoal { .. } | Event::ClearGoal { .. } | Event::ClearProof { .. } => None,
            Event::Bind { .. } | Event::Unbind { .. } => None,
        }
    }

    /// What the principal has added.
    pub fn tally(&self, caller: u32) -> Tally
        ensures { result ≡ tally_of (state_of self.now) caller }
    {
        match self.tallies.get(caller as usize) {
            Some(tally) => *tally,
            None => Tally {
                entries: 0,
                bytes: 0,
            },
        }
    }

    // The refusal of an event for what was added before.
    fn late_refusal(&self, head: &Head, session: u64, caller: u32, event: &Event) -> Option<Refusal>
        requires { caller < length head.now.principals }
        ensures { result ≡ late_refusal head.now (state_of self.now) session caller (event_tree event.now) }
    {
        let length = line_length(session, head.principals.name(caller), event);
        if is_spent(&self.tally(caller), length) {
            return Some(Refusal::Quota);
        }
        if self.is_full(length) {
            return Some(Refusal::JournalFull);
        }
        self.full_refusal(head, caller, event)
    }

    /// The first refusal that applies to an event of this principal in this session. It takes no memory.
    pub fn refusal(&self, head: &Head, session: u64, caller: u32, event: &Event) -> Option<Refusal>
        requires { caller < length head.now.principals }
        ensures { result ≡ refusal_of head.now (state_of self.now) session caller (event_tree event.now) }
    {
        match self.early_refusal(head, caller, event) {
            Some(refusal) => Some(refusal),
            None => self.late_refusal(head, session, caller, event),
        }
    }

    /// The number that is replied to an event, if it is accepted.
    pub fn reply_number(&self, caller: u32, event: &Event) -> u64
        requires { self.now.entries + 1 < 2 ^ 64 }
        ensures { result ≡ reply_number (state_of self.now) caller (event_tree event.now) }
    {
        match event {
            Event::Say { .. } => self.entries + 1,
            Event::NewObject { .. } => self.objects.count(),
            Event::SetProof {
                op,
                object,
                proof: _,
            } => match self.case_named(caller, op, object) {
                Some(number) => number,
                None => self.cases.count(),
            },
            Event::Transfer { .. } | Event::Delete { .. } | Event::SetGoal { .. } => 0,
            Event::ClearGoal { .. } | Event::ClearProof { .. } => 0,
            Event::Bind { .. } | Event::Unbind { .. } => 0,
        }
    }

    /// What an event comes to: its refusal, or the number that is replied and the length of its line.
    pub fn decide(
        &self,
        head: &Head,
        session: u64,
        caller: u32,
        event: &Event,
    ) -> Result<Due, Refusal>
        requires caller { caller < length head.now.principals }
        requires sound { IsSound head.now (state_of self.now) }
        ensures decision { result ≡ decision head.now (state_of self.now) session caller (event_tree event.now) }
        ensures fewer { OnOk result (self.now.entries < 262144) }
    {
        if let Some(refusal) = self.refusal(head, session, caller, event) {
            return Err(refusal);
        }
        Ok(Due {
            number: self.reply_number(caller, event),
            bytes: line_length(session, head.principals.name(caller), event),
        })
    }

    /// The region that an event touches.
    pub fn region(&self, caller: u32, event: &Event) -> Option<u64>
        ensures region { result ≡ region_in (state_of self.now) caller (event_tree event.now) }
        ensures within { IfSome result (λ region. region < 512) }
    {
        match event {
            Event::Transfer { .. } | Event::Delete { .. } => Some(256 + caller as u64 % 256),
            Event::SetGoal { object, .. } => self.object_region(object),
            Event::ClearGoal { object, .. } => self.object_region(object),
            Event::SetProof { object, .. } => self.object_region(object),
            Event::ClearProof { object, .. } => self.object_region(object),
            Event::Say { .. } | Event::NewObject { .. } => None,
            Event::Bind { .. } | Event::Unbind { .. } => None,
        }
    }

    // The region of the object with this name.
    fn object_region(&self, object: &Name) -> Option<u64>
        ensures region { result ≡ option_map object_region (number_of (state_of self.now).objects object.now) }
        ensures within { IfSome result (λ region. region < 256) }
    {
        match self.objects.number(object) {
            Some(number) => Some(number % 256),
            None => None,
        }
    }
}
