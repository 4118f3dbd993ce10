//! What accepted events do to the tables.
ghost use Rattle.std.specs.Prelude.{◌≡◌, ◌<◌, ◌≤◌, ◌+◌, ◌^◌, length, option_map, All};
ghost use Rattle.nal_term.specs.Trees.{formula_tree, term_tree};
ghost use Rattle.proof_lines.specs.Lines.{line_trees};
ghost use Rattle.label_store.specs.LabelRows.{LabelRow};
ghost use Rattle.policy_history.specs.Inner.Copies.{AreCopies, IsUnopposed};
ghost use Rattle.policy_history.specs.Events.{event_tree, name_of};
ghost use Rattle.policy_history.specs.Events as tree;
ghost use Rattle.policy_history.specs.Machine.{accepted, changed, counted, reply_number};
ghost use Rattle.policy_history.specs.PolicyLines.{entry_line};
ghost use Rattle.policy_history.specs.Inner.Sound.{IsSound};
ghost use Rattle.policy_history.specs.States.{object_or_0, tally_of};
ghost use Rattle.policy_history.specs.Tables.{spare_of, state_of};

use crate::copies::Copies;
use crate::events::{Due, Event};
use crate::heads::Head;
use crate::lines::line_length;
use crate::tables::Policy;
use crate::tallies::Tally;
use nal_term::{Formula, Name, Term};
use proof_lines::Proof;

impl Policy {
    // The number of the object with this name, or 0.
    fn object_or_0(&self, object: &Name) -> u64
        ensures { result ≡ object_or_0 (state_of self.now) object.now }
    {
        match self.objects.number(object) {
            Some(number) => number,
            None => 0,
        }
    }

    fn say(
        &mut self,
        head: &Head,
        caller: u32,
        principal: &Option<Term>,
        formula: &Option<Formula>,
        copies: Copies,
    )
        requires copies { AreCopies copies
            (tree.say (option_map term_tree principal.now) (option_map formula_tree formula.now)) }
        requires room { 1 ≤ spare_of self.old }
        requires entries { self.old.entries + 1 < 2 ^ 64 }
        requires numbers { All (λ (row : LabelRow). row.0 < self.old.entries + 1) (state_of self.old).labels }
        ensures state { state_of self.new
            ≡ changed head.now (state_of self.old) caller
            (tree.say (option_map term_tree principal.now) (option_map formula_tree formula.now)) }
        ensures spare { spare_of self.old ≤ spare_of self.new + 1 }
    {
        if let Copies::Label(label) = copies {
            self.labels.say(self.entries + 1, caller, label);
        }
    }

    fn transfer(&mut self, head: &Head, session: u64, caller: u32, number: u64, to: &Name)
        requires { IsUnopposed head.now (state_of self.old) session caller (tree.transfer number to.now) }
        ensures state { state_of self.new ≡ changed head.now (state_of self.old) caller (tree.transfer number to.now) }
        ensures spare { spare_of self.old ≤ spare_of self.new + 1 }
    {
        let Some(receiver) = head.principals.number_of(to) else {
            return;
        };
        let _moved = self.labels.transfer(number, caller, receiver);
    }

    fn delete(&mut self, head: &Head, session: u64, caller: u32, number: u64)
        requires { IsUnopposed head.now (state_of self.old) session caller (tree.delete number) }
        ensures state { state_of self.new ≡ changed head.now (state_of self.old) caller (tree.delete number) }
        ensures spare { spare_of self.old ≤ spare_of self.new + 1 }
    {
        let _gone = self.labels.delete(number, caller);
    }

    fn new_object(&mut self, head: &Head, session: u64, caller: u32, name: &Name, copies: Copies)
        requires copies { AreCopies copies (tree.new_object name.now) }
        requires room { 1 ≤ spare_of self.old }
        requires accepted { IsUnopposed head.now (state_of self.old) session caller (tree.new_object name.now) }
        ensures state { state_of self.new ≡ changed head.now (state_of self.old) caller (tree.new_object name.now) }
        ensures spare { spare_of self.old ≤ spare_of self.new + 1 }
    {
        if let Copies::Object(name) = copies {
            self.objects.add(name, caller);
        }
    }

    fn set_goal(
        &mut self,
        head: &Head,
        caller: u32,
        op: &Name,
        object: &Name,
        goal: &Option<Formula>,
        copies: Copies,
    )
        requires copies { AreCopies copies (tree.set_goal op.now object.now (option_map formula_tree goal.now)) }
        requires room { 1 ≤ spare_of self.old }
        ensures state { state_of self.new
            ≡ changed head.now (state_of self.old) caller
            (tree.set_goal op.now object.now (option_map formula_tree goal.now)) }
        ensures spare { spare_of self.old ≤ spare_of self.new + 1 }
    {
        let number = self.object_or_0(object);
        if let Copies::Goal(op, goal) = copies {
            self.goals.set(op, number, goal);
        }
    }

    fn clear_goal(&mut self, head: &Head, session: u64, caller: u32, op: &Name, object: &Name)
        requires { IsUnopposed head.now (state_of self.old) session caller (tree.clear_goal op.now object.now) }
        ensures state { state_of self.new
            ≡ changed head.now (state_of self.old) caller (tree.clear_goal op.now object.now) }
        ensures spare { spare_of self.old ≤ spare_of self.new + 1 }
    {
        let number = self.object_or_0(object);
        let _had = self.goals.clear(op, number);
    }

    fn set_proof(
        &mut self,
        head: &Head,
        session: u64,
        caller: u32,
        op: &Name,
        object: &Name,
        proof: &Option<Proof>,
        copies: Copies,
    )
        requires copies { AreCopies copies (tree.set_proof op.now object.now (option_map line_trees proof.now)) }
        requires room { 1 ≤ spare_of self.old }
        requires accepted { IsUnopposed head.now (state_of self.old) session caller
            (tree.set_proof op.now object.now (option_map line_trees proof.now)) }
        ensures state { state_of self.new
            ≡ changed head.now (state_of self.old) caller
            (tree.set_proof op.now object.now (option_map line_trees proof.now)) }
        ensures spare { spare_of self.old ≤ spare_of self.new + 1 }
    {
        let number = self.object_or_0(object);
        if let Copies::Proof(op, proof) = copies {
            self.cases.set(caller, op, number, proof);
        }
    }

    fn clear_proof(&mut self, head: &Head, session: u64, caller: u32, op: &Name, object: &Name)
        requires { IsUnopposed head.now (state_of self.old) session caller (tree.clear_proof op.now object.now) }
        ensures state { state_of self.new
            ≡ changed head.now (state_of self.old) caller (tree.clear_proof op.now object.now) }
        ensures spare { spare_of self.old ≤ spare_of self.new + 1 }
    {
        let number = self.object_or_0(object);
        let _had = self.cases.clear(caller, op, number);
    }

    fn bind(
        &mut self,
        head: &Head,
        caller: u32,
        principal: &Option<Term>,
        port: u64,
        copies: Copies,
    )
        requires copies { AreCopies copies (tree.bind (option_map term_tree principal.now) port) }
        requires room { 1 ≤ spare_of self.old }
        ensures state { state_of self.new
            ≡ changed head.now (state_of self.old) caller (tree.bind (option_map term_tree principal.now) port) }
        ensures spare { spare_of self.old ≤ spare_of self.new + 1 }
    {
        if let Copies::Port(principal) = copies {
            self.goals.bind(principal, port);
        }
    }

    fn unbind(&mut self, head: &Head, session: u64, caller: u32, principal: &Option<Term>)
        requires { IsUnopposed head.now (state_of self.old) session caller
            (tree.unbind (option_map term_tree principal.now)) }
        ensures state { state_of self.new
            ≡ changed head.now (state_of self.old) caller (tree.unbind (option_map term_tree principal.now)) }
        ensures spare { spare_of self.old ≤ spare_of self.new + 1 }
    {
        let Some(principal) = principal else {
            return;
        };
        let _had = self.goals.unbind(principal);
    }

    // What an accepted event does to the rows.
    fn change(&mut self, head: &Head, session: u64, caller: u32, event: &Event, copies: Copies)
        requires copies { AreCopies copies (event_tree event.now) }
        requires room { 1 ≤ spare_of self.old }
        requires accepted { IsUnopposed head.now (state_of self.old) session caller (event_tree event.now) }
        requires entries { self.old.entries + 1 < 2 ^ 64 }
        requires numbers { All (λ (row : LabelRow). row.0 < self.old.entries + 1) (state_of self.old).labels }
        ensures state { state_of self.new ≡ changed head.now (state_of self.old) caller (event_tree event.now) }
        ensures spare { spare_of self.old ≤ spare_of self.new + 1 }
    {
        match event {
            Event::Say { principal, formula } => self.say(head, caller, principal, formula, copies),
            Event::Transfer { number, to } => self.transfer(head, session, caller, *number, to),
            Event::Delete { number } => self.delete(head, session, caller, *number),
            Event::NewObject { name } => self.new_object(head, session, caller, name, copies),
            Event::SetGoal { op, object, goal } => self.set_goal(
                head, caller, op, object, goal, copies,
            ),
            Event::ClearGoal { op, object } => self.clear_goal(head, session, caller, op, object),
            Event::SetProof { op, object, proof } => self.set_proof(
                head, session, caller, op, object, proof, copies,
            ),
            Event::ClearProof { op, object } => self.clear_proof(head, session, caller, op, object),
            Event::Bind { principal, port } => self.bind(head, caller, principal, *port, copies),
            Event::Unbind { principal } => self.unbind(head, session, caller, principal),
        }
    }

    // Counts one more entry of this principal, whose line has so many bytes.
    fn count(&mut self, caller: u32, bytes: u64)
        requires whole { self.old.bytes + bytes ≤ 33554432 }
        requires entries { self.old.entries + 1 < 2 ^ 64 }
        requires caller { caller < length self.old.tallies.items }
        requires within { (tally_of (state_of self.old) caller).entries < 4096 }
        requires bytes { (tally_of (state_of self.old) caller).bytes + bytes ≤ 524288 }
        ensures state { state_of self.new ≡ counted (state_of self.old) caller bytes }
        ensures spare { spare_of self.new ≡ spare_of self.old }
    {
        let tally = self.tally(caller);
        self.entries += 1;
        self.bytes += bytes;
        self.tallies[caller as usize] = Tally {
            entries: tally.entries + 1,
            bytes: tally.bytes + bytes,
        };
    }

    /// Adds an accepted event of this principal in this session. It takes no memory.
    pub fn apply(
        &mut self,
        head: &Head,
        session: u64,
        caller: u32,
        event: &Event,
        copies: Copies,
    ) -> Due
        requires caller { caller < length head.now.principals }
        requires copies { AreCopies copies (event_tree event.now) }
        requires room { 1 ≤ spare_of self.old }
        requires accepted { IsUnopposed head.now (state_of self.old) session caller (event_tree event.now) }
        requires sound { IsSound head.now (state_of self.old) }
        requires entries { self.old.entries + 1 < 2 ^ 64 }
        ensures state { state_of self.new
            ≡ accepted head.now (state_of self.old) session caller (event_tree event.now) }
        ensures spare { spare_of self.old ≤ spare_of self.new + 1 }
        ensures number { result.number ≡ reply_number (state_of self.old) caller (event_tree event.now) }
        ensures bytes { result.bytes
            ≡ length (entry_line session (name_of head.now.principals caller) (event_tree event.now)) }
    {
        let number = self.reply_number(caller, event);
        let bytes = line_length(session, head.principals.name(caller), event);
        self.change(head, session, caller, event, copies);
        self.count(caller, bytes);
        Due { number, bytes }
    }
}
