ghost use Rattle.std.specs.Prelude.{◌≡◌};
ghost use Rattle.proof_lines.specs.Lines.{line_tree, line_trees};
ghost use Rattle.nal_rules.specs.Faults.{numbers_from};
ghost use Rattle.proof_check.specs.Inner.Kinds.{is_of_kind};

use crate::lists::LineList;
use proof_lines::{Line, Proof, Rule};
use std::alloc::Global;

/// Which lines are meant.
#[derive(Clone, Copy, Debug, PartialEq, Eq)]
pub enum Kind {
    Label,
    Ask,
}

fn is_of_kind(kind: Kind, line: &Line) -> bool
    ensures { result ≡ is_of_kind kind (line_tree line.now) }
{
    match kind {
        Kind::Label => matches!(line.rule, Rule::Label),
        Kind::Ask => matches!(line.rule, Rule::Ask),
    }
}

/// The numbers of the proof's lines of this kind, counted from 1. It takes no memory.
pub fn numbers_of(alloc: Global, proof: &Proof, kind: Kind) -> LineList
    ensures { result ≡ numbers_from (is_of_kind kind) 1 (line_trees proof.now) }
{
    let lines = proof.as_slice();
    let mut list = LineList::new(alloc);
    for (index, line) in lines.iter().enumerate() {
        if is_of_kind(kind, line) {
            match list.push(index as u64 + 1) {
                Ok(()) => {}
                Err(_) => unreachable!(),
            }
        }
    }
    list
}
