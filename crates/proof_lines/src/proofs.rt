ghost use Rattle.std.specs.Prelude.{◌≡◌, ◌≤◌, ◌↔◌, ◌++◌, ◌∷◌, [], ◌-◌, length, IfOk, OnOk, OnErr, slice_get, All, ◌<◌};
ghost use Rattle.std.specs.Option.{option_copied};
ghost use Rattle.proof_lines.specs.Lines.{HasRuleForm, line_tree, line_trees};

use crate::lines::Line;
use std::alloc::{AllocError, Global};
use std::marker::Model;

/// How many lines a proof may have.
pub const MOST_LINES: usize = 256;

/// A proof: at most 256 lines, numbered from 1, each with the references and the term that its rule has.
/// Contracts see the list of its lines.
#[derive(Drop)]
pub struct Proof {
    lines: Vec<Line>,
}

impl Model for Proof {
    ghost use Rattle.std.specs.Prelude.{List, ◌≤◌, length};
    ghost use Rattle.std.specs.List.{All};
    ghost use Rattle.proof_lines.specs.declared.lines.Line.{Line};
    ghost use Rattle.proof_lines.specs.contracts.lines.Line as l;
    ghost use Rattle.std.specs.Coded.{codes};

    ghost Value = { List Line };

    ghost coded = { Prim.hlevel (codes, l.the_row.coded) };

    ghost use Rattle.proof_lines.specs.Lines.{HasRuleForm, line_tree};

    ghost view = { λ p. p.lines.items };

    ghost invariant = { λ p. (length p.lines.items ≤ 256) × All (λ l. HasRuleForm (line_tree l)) p.lines.items };
}

/// Why a line was not added.
#[derive(Clone, Copy, Debug, PartialEq, Eq)]
pub enum PushError {
    /// The line lacks the references or the term of its rule.
    Shape,
    /// The proof has 256 lines.
    Full,
    /// There was no memory for the line.
    Memory,
}

impl Proof {
    /// A proof without lines. It takes no memory.
    pub fn new(alloc: Global) -> Proof
        ensures { result ≡ [] }
    {
        Proof {
            lines: Vec::new(alloc),
        }
    }

    /// A copy of the proof. An `Err` says that there was no memory for it.
    pub fn copy(&self, alloc: Global) -> Result<Proof, AllocError>
        ensures { IfOk result (λ copy. line_trees copy ≡ line_trees self.now) }
    {
        let mut lines = Vec::new(alloc);
        for line in &self.lines {
            lines.push(line.copy(alloc)?)?;
        }
        Ok(Proof { lines })
    }

    /// Adds a line at the end. `Shape` exactly where the line lacks the form of its rule, else `Full`
    /// exactly where there are 256 lines. An `Err` changes nothing.
    pub fn push(&mut self, line: Line) -> Result<(), PushError>
        ensures ok { OnOk result (self.new ≡ self.old ++ line ∷ []) }
        ensures form { OnOk result (HasRuleForm (line_tree line)) }
        ensures shape { (result ≡ Err PushError.Shape) ↔ ¬ HasRuleForm (line_tree line) }
        ensures full { result ≡ Err PushError.Full → length self.old ≡ 256 }
        ensures full_always { length self.old ≡ 256 → HasRuleForm (line_tree line) → result ≡ Err PushError.Full }
        ensures err { OnErr result (self.new ≡ self.old) }
    {
        if !line.has_rule_form() {
            return Err(PushError::Shape);
        }
        if self.lines.len() == MOST_LINES {
            return Err(PushError::Full);
        }
        match self.lines.push(line) {
            Ok(()) => Ok(()),
            Err(_) => Err(PushError::Memory),
        }
    }

    /// How many lines there are: at most 256.
    pub fn count(&self) -> u64
        ensures count { result ≡ length self.now }
        ensures bound { result ≤ 256 }
    {
        self.lines.len() as u64
    }

    /// The line with this number, counted from 1. None exactly where the number is 0 or over the count.
    pub fn line(&self, number: u64) -> Option<&Line>
        ensures zero { number ≡ 0 → option_copied result ≡ None }
        ensures value { 0 < number → option_copied result ≡ slice_get self.now (number - 1) }
    {
        if number == 0 || number > self.count() {
            None
        } else {
            Some(&self.lines[number as usize - 1])
        }
    }

    /// The lines as a slice, each with the form of its rule.
    pub fn as_slice(&self) -> &[Line]
        ensures items { result.now ≡ self.now }
        ensures bound { length result.now ≤ 256 }
        ensures form { All (λ l. HasRuleForm (line_tree l)) result.now }
    {
        self.lines.as_slice()
    }
}
