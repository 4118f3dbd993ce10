//! The search for a chain, from the goal's principal back.
//!
//! The nodes with the fewest lines are expanded first, so the first one whose principal states it by a label has the
//! fewest lines of all. Of the principals that labels name each is expanded once: its first node has the fewest lines.
ghost use Rattle.std.specs.Prelude.{◌≡◌, ◌<◌, ◌+◌, ◌-◌, ◌^◌, ◌↔◌, Contains, IfOk, IsTrue, MatchOption, OnOk, length, min, slice_get, true, ℕ, List, Some};
ghost use Rattle.nal_term.specs.Size.{term_node_count};
ghost use Rattle.nal_term.specs.Trees.{FormulaTree, TermTree, says, subprincipal, term_tree};
ghost use Rattle.chain_prover.specs.declared.facts.Delegation.{Delegation};
ghost use Rattle.chain_prover.specs.Chains.{next};
ghost use Rattle.chain_prover.specs.Inner.Numbers.{IsNumber, size_of};
ghost use Rattle.chain_prover.specs.Inner.Knowing.{AreFacts, labels_of, statement_of, terms_of};
ghost use Rattle.chain_prover.specs.Inner.Paths.{AreBelow, AreDone, AreExpandedBelow, AreKnown, AreLinked, Extends, IsExpanded, IsFound, IsKnown, IsReached, IsReachedWithin, IsShortestPath, NeedsMore};

use crate::facts::Facts;
use crate::paths::{Lead, Node, Path};
use nal_term::{Term, term_size};
use std::alloc::{AllocError, Global};

/// How many lines the steps of a chain may have, beside the one of its first principal.
const MOST_STEP_LINES: u64 = 255;

/// The principals that were found so far.
#[derive(Drop)]
struct Search<'a> {
    nodes: Vec<Node<'a>>,
    /// For each principal that labels name whether a node of it was expanded.
    expanded: Vec<bool>,
}

/// A shortest way to the principal from one that states the statement by a label. None exactly where each proof has more
/// than 256 lines. An `Err` is want of memory.
pub fn shortest_path<'a>(
    alloc: Global,
    facts: &Facts<'a>,
    principal: &'a Term,
) -> Result<Option<Path<'a>>, AllocError>
    requires { AreFacts facts.now }
    ensures { IfOk result (λ found. MatchOption found
        (NeedsMore (labels_of facts.now) (statement_of facts.now) (term_tree principal.now) 256)
        (λ path. (n : ℕ)
        × IsShortestPath (labels_of facts.now) (statement_of facts.now) (term_tree principal.now) path.nodes.items
        path.first n)) }
{
    let mut search = Search::new(alloc, facts, principal)?;
    let mut from = 0;
    for lines in 0..MOST_STEP_LINES + 1 {
        from = search.skip(from, lines);
        if let Some(first) = search.expand_all(facts, from, lines)? {
            return Ok(Some(Path {
                nodes: search.nodes,
                first,
            }));
        }
    }
    Ok(None)
}

impl<'a> Search<'a> {
    /// The goal's principal alone.
    fn new(alloc: Global, facts: &Facts<'a>, principal: &'a Term) -> Result<Search<'a>, AllocError>
        requires { AreFacts facts.now }
        ensures linked { IfOk result
            (λ search. (ls : List FormulaTree) (f : FormulaTree)
            → AreLinked ls f (term_tree principal.now) search.nodes.items) }
        ensures known { IfOk result (λ search. AreKnown (terms_of facts.now) search.nodes.items) }
        ensures goal { IfOk result (λ search. IsReached search.nodes.items (term_tree principal.now) 0) }
        ensures done { IfOk result
            (λ search. AreDone (terms_of facts.now) (labels_of facts.now) (statement_of facts.now) search.nodes.items
            search.expanded.items 0) }
    {
        let size = term_size(principal);
        let mut nodes = Vec::new(alloc);
        nodes.push(Node {
            principal,
            size,
            number: facts.principals.find(principal, size),
            lines: 0,
            lead: Lead::Goal,
        })?;
        let expanded = vec![in alloc; false; facts.principals.count()]?;
        Ok(Search { nodes, expanded })
    }

    /// The first place, from the one given on, at which a node has at least so many lines, or the end.
    fn skip(&self, from: usize, lines: u64) -> usize
        requires { AreBelow self.now.nodes.items from lines }
        ensures { AreBelow self.now.nodes.items result lines }
    {
        for place in from..self.nodes.len() {
            if self.nodes[place].lines >= lines {
                return place;
            }
        }
        self.nodes.len()
    }

    /// Expands each node with so many lines, up to one whose principal states it by a label: its place. The nodes before the
    /// place given have fewer.
    fn expand_all(
        &mut self,
        facts: &Facts<'a>,
        from: usize,
        lines: u64,
    ) -> Result<Option<usize>, AllocError>
        requires facts { AreFacts facts.now }
        requires bound { lines < 256 }
        requires passed { AreBelow self.old.nodes.items from lines }
        requires known { AreKnown (terms_of facts.now) self.old.nodes.items }
        requires done { AreDone (terms_of facts.now) (labels_of facts.now) (statement_of facts.now) self.old.nodes.items
            self.old.expanded.items lines }
        requires expanded { AreExpandedBelow (labels_of facts.now) (statement_of facts.now) self.old.nodes.items lines }
        ensures extends { OnOk result
            (Extends (terms_of facts.now) (labels_of facts.now) (statement_of facts.now) self.old.nodes.items
            self.new.nodes.items lines) }
        ensures done { OnOk result
            (AreDone (terms_of facts.now) (labels_of facts.now) (statement_of facts.now) self.new.nodes.items
            self.new.expanded.items lines) }
        ensures expanded { OnOk result
            (AreExpandedBelow (labels_of facts.now) (statement_of facts.now) self.new.nodes.items lines) }
        ensures found { IfOk result (λ found. MatchOption found
            (AreExpandedBelow (labels_of facts.now) (statement_of facts.now) self.new.nodes.items (lines + 1))
            (λ place. IsFound (labels_of facts.now) (statement_of facts.now) self.new.nodes.items place lines)) }
    {
        for place in from..self.nodes.len() {
            let node = self.nodes[place];
            if node.lines == lines && !self.is_expanded(node) {
                if states(facts, node) {
                    return Ok(Some(place));
                }
                self.expand(facts, node, place)?;
            }
        }
        Ok(None)
    }

    /// Whether labels name the principal of the node, and a node of it was expanded.
    fn is_expanded(&self, node: Node<'a>) -> bool
        requires { (i : ℕ) → node.number ≡ Some i → i < length self.now.expanded.items }
        ensures { IsTrue result
            → (i : ℕ) × (node.entry.number ≡ Some i) × (slice_get self.now.expanded.items i ≡ Some true) }
    {
        match node.number {
            Some(number) => self.expanded[number],
            None => false,
        }
    }

    /// Adds a node for each principal from which a step leads to that of the node, which stands at this place.
    fn expand(&mut self, facts: &Facts<'a>, node: Node<'a>, place: usize) -> Result<(), AllocError>
        requires facts { AreFacts facts.now }
        requires known { IsKnown (terms_of facts.now) node }
        requires bound { node.lines < 256 }
        requires stands { slice_get self.old.nodes.items place ≡ Some node }
        requires unsaid { ¬ Contains (labels_of facts.now)
            (says (term_tree node.principal.now) (statement_of facts.now)) }
        requires done { AreDone (terms_of facts.now) (labels_of facts.now) (statement_of facts.now) self.old.nodes.items
            self.old.expanded.items node.lines }
        ensures extends { OnOk result
            (Extends (terms_of facts.now) (labels_of facts.now) (statement_of facts.now) self.old.nodes.items
            self.new.nodes.items node.entry.lines) }
        ensures done { OnOk result
            (AreDone (terms_of facts.now) (labels_of facts.now) (statement_of facts.now) self.new.nodes.items
            self.new.expanded.items node.entry.lines) }
        ensures expanded { OnOk result
            (IsExpanded (labels_of facts.now) (statement_of facts.now) self.new.nodes.items
            (term_tree node.entry.principal.now) node.entry.lines) }
    {
        self.add_whole(facts, node, place)?;
        let Some(number) = node.number else {
            return Ok(());
        };
        self.add_speakers(facts, number, node, place)?;
        self.expanded[number] = true;
        Ok(())
    }

    /// Adds a node for the principal of which that of the node at this place is a subprincipal, if it is one.
    fn add_whole(
        &mut self,
        facts: &Facts<'a>,
        node: Node<'a>,
        place: usize,
    ) -> Result<(), AllocError>
        requires facts { AreFacts facts.now }
        requires size { node.size ≡ size_of (term_tree node.principal.now) }
        requires bound { node.lines < 256 }
        requires stands { slice_get self.old.nodes.items place ≡ Some node }
        ensures extends { OnOk result
            (Extends (terms_of facts.now) (labels_of facts.now) (statement_of facts.now) self.old.nodes.items
            self.new.nodes.items node.entry.lines) }
        ensures expanded { self.new.expanded ≡ self.old.expanded }
        ensures reached { OnOk result
            ((x : TermTree) (n : List ℕ) → term_tree node.entry.principal.now ≡ subprincipal x n
            → IsReachedWithin self.new.nodes.items x (node.entry.lines + 2)) }
    {
        if let Term::Sub(whole, _) = node.principal {
            let size = size_above(node.size, whole);
            self.nodes.push(Node {
                principal: whole,
                size,
                number: facts.principals.find(whole, size),
                lines: node.lines + 2,
                lead: Lead::Part { next: place },
            })?;
        }
        Ok(())
    }

    /// Adds a node for each principal that the one of the node, whose number is given, lets speak for it.
    fn add_speakers(
        &mut self,
        facts: &Facts<'a>,
        number: usize,
        node: Node<'a>,
        place: usize,
    ) -> Result<(), AllocError>
        requires facts { AreFacts facts.now }
        requires number { IsNumber (terms_of facts.now) number (term_tree node.principal.now) }
        requires bound { node.lines < 256 }
        requires stands { slice_get self.old.nodes.items place ≡ Some node }
        ensures extends { OnOk result
            (Extends (terms_of facts.now) (labels_of facts.now) (statement_of facts.now) self.old.nodes.items
            self.new.nodes.items node.entry.lines) }
        ensures expanded { self.new.expanded ≡ self.old.expanded }
        ensures reached { OnOk result
            ((j : ℕ) (d : Delegation) → slice_get facts.now.delegations.items j ≡ Some d → d.owner ≡ number
            → (x : TermTree) → IsNumber (terms_of facts.now) d.speaker x
            → IsReachedWithin self.new.nodes.items x (node.entry.lines + 3)) }
    {
        if !facts.granting[number] {
            return Ok(());
        }
        for delegation in 0..facts.delegations.len() {
            self.add_speaker(facts, delegation, number, node, place)?;
        }
        Ok(())
    }

    /// Adds a node for the principal that this delegation lets speak for that of the node, if it does.
    fn add_speaker(
        &mut self,
        facts: &Facts<'a>,
        delegation: usize,
        number: usize,
        node: Node<'a>,
        place: usize,
    ) -> Result<(), AllocError>
        requires facts { AreFacts facts.now }
        requires delegation { delegation < length facts.now.delegations.items }
        requires number { IsNumber (terms_of facts.now) number (term_tree node.principal.now) }
        requires bound { node.lines < 256 }
        requires stands { slice_get self.old.nodes.items place ≡ Some node }
        ensures extends { OnOk result
            (Extends (terms_of facts.now) (labels_of facts.now) (statement_of facts.now) self.old.nodes.items
            self.new.nodes.items node.entry.lines) }
        ensures expanded { self.new.expanded ≡ self.old.expanded }
        ensures reached { OnOk result
            ((d : Delegation) → slice_get facts.now.delegations.items delegation ≡ Some d → d.owner ≡ number
            → (x : TermTree) → IsNumber (terms_of facts.now) d.speaker x
            → IsReachedWithin self.new.nodes.items x (node.entry.lines + 3)) }
    {
        let made = facts.delegations[delegation];
        if made.owner != number {
            return Ok(());
        }
        let speaker = facts.principals.terms[made.speaker];
        self.nodes.push(Node {
            principal: speaker,
            size: term_size(speaker),
            number: Some(made.speaker),
            lines: node.lines + 3,
            lead: Lead::Grant {
                scope: made.scope,
                next: place,
            },
        })?;
        Ok(())
    }
}

/// Whether the principal of the node states the statement by a label.
fn states(facts: &Facts<'_>, node: Node<'_>) -> bool
    requires facts { AreFacts facts.now }
    requires known { IsKnown (terms_of facts.now) node }
    ensures { IsTrue result ↔ Contains (labels_of facts.now)
        (says (term_tree node.entry.principal.now) (statement_of facts.now)) }
{
    match node.number {
        Some(number) => facts.stating[number],
        None => false,
    }
}

/// The size of the term of which one of the given size is a subprincipal.
fn size_above(size: u64, whole: &Term) -> u64
    requires { size ≡ min (1 + term_node_count (term_tree whole.now)) (2 ^ 64 - 1) }
    ensures { result ≡ size_of (term_tree whole.now) }
{
    if size == u64::MAX {
        term_size(whole)
    } else {
        size - 1
    }
}
