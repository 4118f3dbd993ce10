use nal_term::{Scope, Term};

/// How a principal leads on to the goal's principal.
#[derive(Clone, Copy)]
pub enum Lead<'a> {
    /// It is the goal's principal.
    Goal,
    /// The principal of the node at `next` lets it speak, on the names of the scope alone if there is one.
    Grant {
        scope: Option<&'a Scope>,
        next: usize,
    },
    /// The principal of the node at `next` is a subprincipal of it.
    Part {
        next: usize,
    },
}

/// A principal from which a statement can go on to the goal's principal.
#[derive(Clone, Copy)]
pub struct Node<'a> {
    pub principal: &'a Term,
    /// The size of the principal.
    pub size: u64,
    /// Its number among the principals that labels name. None where no label names it.
    pub number: Option<usize>,
    /// How many lines the steps from here have in a proof.
    pub lines: u64,
    pub lead: Lead<'a>,
}

/// A way from the principal of the first node to the goal's principal.
#[derive(Drop)]
pub struct Path<'a> {
    /// The nodes that it goes through, and others.
    pub nodes: Vec<Node<'a>>,
    /// The place of the first node.
    pub first: usize,
}
