//! What is judged when a subject asks for an operation on an object.
ghost use Rattle.std.specs.Prelude.{◌≡◌, ◌<◌, ◌++◌, ◌∷◌, [], length, map, option_map, IfOk, OnOk, None};
ghost use Rattle.std.specs.Option.{option_copied};
ghost use Rattle.nal_term.specs.Trees.{formula_tree};
ghost use Rattle.proof_lines.specs.Lines.{line_tree, line_trees};
ghost use Rattle.goal_store.specs.GoalRows.{ports};
ghost use Rattle.label_store.specs.LabelRows.{rows as label_rows};
ghost use Rattle.object_table.specs.Objects.{number_of};
ghost use Rattle.nal_rules.specs.Asking.{binding_tree, case_tree};
ghost use Rattle.nal_rules.specs.Faults.{is_ask, is_label};
ghost use Rattle.policy_history.specs.Found.{IsFound};
ghost use Rattle.policy_history.specs.Judged.{binding_for, bindings_for, case_at, goal_for, labels_for, proof_for};
ghost use Rattle.policy_history.specs.Inner.OneLine.{bindings_of_line, label_of_line};
ghost use Rattle.policy_history.specs.Tables.{state_of};

use crate::events::Found;
use crate::heads::Head;
use crate::tables::Policy;
use goal_store::GoalStore;
use label_store::LabelStore;
use nal_rules::{Binding, Bindings, Case, ItemList, Labels};
use nal_subst::{SubstError, substitute};
use nal_term::{Formula, Name, Term};
use proof_lines::{Line, Proof, Rule};
use std::alloc::{AllocError, Global};

impl Policy {
    /// The case of a subject and an operation on the object with this name. `NoObject` exactly where no object has the
    /// name, and that takes no memory.
    pub fn found(
        &self,
        alloc: Global,
        head: &Head,
        subject: u32,
        op: &Name,
        object: &Name,
    ) -> Result<Found, AllocError>
        requires { subject < length head.now.principals }
        ensures found { IfOk result (IsFound head.now (state_of self.now) subject op.now object.now) }
        ensures no_object { number_of (state_of self.now).objects object.now ≡ None → result ≡ Ok Found.NoObject }
    {
        let Some(number) = self.objects.number(object) else {
            return Ok(Found::NoObject);
        };
        Ok(Found::Case {
            case: self.case(alloc, head, subject, op, number)?,
            number: self.cases.number_of(subject, op, number),
            object: number,
        })
    }

    // The case of a subject, an operation and the object with this number.
    fn case(
        &self,
        alloc: Global,
        head: &Head,
        subject: u32,
        op: &Name,
        object: u64,
    ) -> Result<Case, AllocError>
        requires { subject < length head.now.principals }
        ensures { IfOk result (λ case. case_tree case ≡ case_at head.now (state_of self.now) subject op.now object) }
    {
        let goal = self.goal_for(alloc, head, subject, op, object)?;
        let Some(proof) = self.proof_for(subject, op, object) else {
            return Ok(Case {
                goal,
                proof: None,
                labels: Labels::new(alloc),
                bound: Bindings::new(alloc),
            });
        };
        Ok(Case {
            goal,
            proof: Some(proof.copy(alloc)?),
            labels: held_labels(alloc, &self.labels, subject, proof.as_slice())?,
            bound: bindings(alloc, &self.goals, proof.as_slice())?,
        })
    }

    // The goal of an operation on an object, for this subject.
    fn goal_for(
        &self,
        alloc: Global,
        head: &Head,
        subject: u32,
        op: &Name,
        object: u64,
    ) -> Result<Option<Formula>, AllocError>
        requires { subject < length head.now.principals }
        ensures { IfOk result
            (λ goal. option_map formula_tree goal ≡ goal_for head.now (state_of self.now) subject op.now object) }
    {
        let Some(goal) = self.goals.goal(op, object) else {
            return Ok(None);
        };
        let name = head.principals.name(subject).copy(alloc)?;
        match substitute(alloc, goal, &self.subject, &Term::Name(name)) {
            Ok(goal) => Ok(Some(goal)),
            Err(SubstError::Capture) => Ok(None),
            Err(SubstError::Memory) => Err(AllocError),
        }
    }

    // The proof that is registered for a subject, an operation and an object.
    fn proof_for(&self, subject: u32, op: &Name, object: u64) -> Option<&Proof>
        ensures { option_map line_trees (option_copied result) ≡ proof_for (state_of self.now) subject op.now object }
    {
        match self.cases.number_of(subject, op, object) {
            None => None,
            Some(number) => self.cases.proof(number),
        }
    }
}

// The formulas of the label lines that a holder has, in the order of the lines.
fn held_labels(
    alloc: Global,
    store: &LabelStore,
    holder: u32,
    lines: &[Line],
) -> Result<Labels, AllocError>
    ensures { IfOk result
        (λ labels. map formula_tree labels ≡ labels_for (label_rows store.now) holder (line_trees lines.now)) }
{
    let mut labels = Labels::new(alloc);
    for line in lines {
        push_label(alloc, &mut labels, store, holder, line)?;
    }
    Ok(labels)
}

fn push_label(
    alloc: Global,
    labels: &mut Labels,
    store: &LabelStore,
    holder: u32,
    line: &Line,
) -> Result<(), AllocError>
    ensures { OnOk result
        (map formula_tree labels.new ≡ map formula_tree labels.old
        ++ label_of_line (label_rows store.now) holder (line_tree line.now)) }
{
    if is_label(line) && store.holds(holder, &line.formula) {
        push(labels, line.formula.copy(alloc)?)?;
    }
    Ok(())
}

// The bindings of the principals of the ask lines, in the order of the lines.
fn bindings(alloc: Global, store: &GoalStore, lines: &[Line]) -> Result<Bindings, AllocError>
    ensures { IfOk result (λ bound. map binding_tree bound ≡ bindings_for (ports store.now) (line_trees lines.now)) }
{
    let mut bound = Bindings::new(alloc);
    for line in lines {
        push_binding(alloc, &mut bound, store, line)?;
    }
    Ok(bound)
}

fn push_binding(
    alloc: Global,
    bound: &mut Bindings,
    store: &GoalStore,
    line: &Line,
) -> Result<(), AllocError>
    ensures { OnOk result
        (map binding_tree bound.new ≡ map binding_tree bound.old
        ++ bindings_of_line (ports store.now) (line_tree line.now)) }
{
    if is_ask(line) {
        push_binding_of(alloc, bound, store, &line.formula)
    } else {
        Ok(())
    }
}

fn push_binding_of(
    alloc: Global,
    bound: &mut Bindings,
    store: &GoalStore,
    formula: &Formula,
) -> Result<(), AllocError>
    ensures { OnOk result
        (map binding_tree bound.new ≡ map binding_tree bound.old
        ++ binding_for (ports store.now) (formula_tree formula.now)) }
{
    let Formula::Says(principal, _) = formula else {
        return Ok(());
    };
    let Some(port) = store.port(principal) else {
        return Ok(());
    };
    let principal = principal.copy(alloc)?;
    push(bound, Binding { principal, port })
}

fn is_label(line: &Line) -> bool
    ensures { result ≡ is_label (line_tree line.now) }
{
    matches!(line.rule, Rule::Label)
}

fn is_ask(line: &Line) -> bool
    ensures { result ≡ is_ask (line_tree line.now) }
{
    matches!(line.rule, Rule::Ask)
}

fn push<T: Drop>(list: &mut ItemList<T>, item: T) -> Result<(), AllocError>
    ensures { OnOk result (list.new ≡ list.old ++ item ∷ []) }
{
    match list.push(item) {
        Ok(()) => Ok(()),
        Err(_) => Err(AllocError),
    }
}
