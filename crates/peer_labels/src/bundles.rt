//! What a bundle holds.
ghost use Rattle.std.specs.Prelude.{◌≡◌, ◌≤◌, length, map};
ghost use Rattle.std.specs.List.{All};
ghost use Rattle.nal_term.specs.Trees.{formula_tree};
ghost use Rattle.peer_labels.specs.Bundles.{IsLabel, most_labels};

use nal_term::Formula;
use std::marker::Model;

/// Labels in their order: closed formulas `P says S`, at most 262,144. Contracts see the list of the formulas.
#[derive(Drop)]
pub struct Bundle {
    labels: Vec<Formula>,
}

impl Model for Bundle {
    ghost use Rattle.std.specs.Prelude.{List, ◌≤◌, length, map};
    ghost use Rattle.std.specs.Coded.{codes};
    ghost use Rattle.std.specs.List.{All};
    ghost use Rattle.nal_term.specs.contracts.terms.Term as t;
    ghost use Rattle.nal_term.specs.contracts.formulas.Formula as f;
    ghost use Rattle.nal_term.specs.declared.formulas.Formula.{Formula};
    ghost use Rattle.nal_term.specs.Trees.{formula_tree};
    ghost use Rattle.peer_labels.specs.Bundles.{IsLabel, most_labels};

    ghost Value = { List Formula };

    ghost coded = { Prim.hlevel (codes, t.the_row.coded, f.the_row.coded) };

    ghost view = { λ b. b.labels.items };

    ghost invariant = { λ b. All IsLabel (map formula_tree b.labels.items) × (length b.labels.items ≤ most_labels) };
}

impl Bundle {
    /// The labels in their order.
    pub fn labels(&self) -> &Vec<Formula>
        ensures labels { result.now.items ≡ self.now }
        ensures each { All IsLabel (map formula_tree self.now) }
        ensures few { length self.now ≤ most_labels }
    {
        &self.labels
    }
}

/// The bundle of these labels.
pub fn bundle_of(labels: Vec<Formula>) -> Bundle
    requires each { All IsLabel (map formula_tree labels.items) }
    requires few { length labels.items ≤ most_labels }
    ensures { result ≡ labels.items }
{
    Bundle { labels }
}
