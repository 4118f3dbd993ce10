use crate::lists::ItemList;
use nal_term::{Formula, Term};
use proof_lines::Proof;

/// A principal and the port of the authority that answers for it.
#[derive(Drop)]
pub struct Binding {
    pub principal: Term,
    pub port: u64,
}

/// Labels that a principal holds. Contracts see the list of them.
pub type Labels = ItemList<Formula>;

/// Bindings of principals to ports. Contracts see the list of them.
pub type Bindings = ItemList<Binding>;

/// What is judged when a subject asks for an operation on an object. `docs/LOGIC.md`, "Cases", says what each part is.
#[derive(Drop)]
pub struct Case {
    /// The goal in force, the subject's name standing in place of `?subject`. None where none is set.
    pub goal: Option<Formula>,
    /// The proof that is registered for the subject. None where none is.
    pub proof: Option<Proof>,
    /// The formulas of the proof's label lines that the subject holds, in the order of the lines.
    pub labels: Labels,
    /// The bindings of the principals of the proof's ask lines, in the order of the lines.
    pub bound: Bindings,
}
