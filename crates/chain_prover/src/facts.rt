//! What labels tell of principals, worked out once before a search.
ghost use Rattle.std.specs.Prelude.{◌≡◌, ◌<◌, Contains, IfOk, OnOk, Some, map, true};
ghost use Rattle.nal_term.specs.Trees.{TermTree, formula_tree, term_tree, says};
ghost use Rattle.chain_prover.specs.Chains.{IsStep, Step, next};
ghost use Rattle.chain_prover.specs.Inner.Numbers.{IsNumber};
ghost use Rattle.chain_prover.specs.Inner.Knowing.{AreFacts, AreRight, Covers, IsDelegated, IsStating, Keeps, labels_of, statement_of, terms_of};
ghost use Rattle.chain_prover.specs.Inner.Paths.{Grants, grant_step};

use crate::grants::{Grant, granted};
use crate::principals::Principals;
use nal_term::{Formula, Scope, Term, equal};
use std::alloc::{AllocError, Global};

/// By a label the principal of one number lets that of another one state the statement.
#[derive(Clone, Copy)]
pub struct Delegation<'a> {
    /// Who lets it, by number.
    pub owner: usize,
    /// Who speaks, by number.
    pub speaker: usize,
    /// The names on which alone it speaks, if not on all.
    pub scope: Option<&'a Scope>,
}

/// What labels tell of the principals that they name.
#[derive(Drop)]
pub struct Facts<'a> {
    pub labels: &'a [Formula],
    pub statement: &'a Formula,
    pub principals: Principals<'a>,
    /// For each principal whether it states the statement by a label.
    pub stating: Vec<bool>,
    /// For each principal whether it lets another one state it.
    pub granting: Vec<bool>,
    /// Who lets whom state it.
    pub delegations: Vec<Delegation<'a>>,
}

impl<'a> Facts<'a> {
    /// What the labels tell of the statement. An `Err` is want of memory.
    pub fn of(
        alloc: Global,
        labels: &'a [Formula],
        statement: &'a Formula,
    ) -> Result<Facts<'a>, AllocError>
        ensures facts { IfOk result AreFacts }
        ensures labels { IfOk result (λ facts. labels_of facts ≡ map formula_tree labels.now) }
        ensures statement { IfOk result (λ facts. statement_of facts ≡ formula_tree statement.now) }
    {
        let mut facts = Facts::none(alloc, labels, statement)?;
        for place in 0..labels.len() {
            facts.add(&labels[place])?;
        }
        Ok(facts)
    }

    /// Nothing yet. An `Err` is want of memory.
    fn none(
        alloc: Global,
        labels: &'a [Formula],
        statement: &'a Formula,
    ) -> Result<Facts<'a>, AllocError>
        ensures right { IfOk result AreRight }
        ensures labels { IfOk result (λ facts. labels_of facts ≡ map formula_tree labels.now) }
        ensures statement { IfOk result (λ facts. statement_of facts ≡ formula_tree statement.now) }
    {
        Ok(Facts {
            labels,
            statement,
            principals: Principals::none(alloc)?,
            stating: Vec::new(alloc),
            granting: Vec::new(alloc),
            delegations: Vec::new(alloc),
        })
    }

    /// Adds what the label tells. An `Err` is want of memory.
    fn add(&mut self, label: &'a Formula) -> Result<(), AllocError>
        requires right { AreRight self.old }
        requires among { Contains (labels_of self.old) (formula_tree label.now) }
        ensures right { OnOk result (AreRight self.new) }
        ensures keeps { OnOk result (Keeps self.old self.new) }
        ensures covers { OnOk result (Covers self.new (formula_tree label.now)) }
    {
        let Formula::Says(owner, said) = label else {
            return Ok(());
        };
        self.add_stating(owner, said)?;
        self.add_granting(owner, said)
    }

    /// Adds that the principal states the statement, if that is what it says by a label. An `Err` is want of memory.
    fn add_stating(&mut self, owner: &'a Term, said: &'a Formula) -> Result<(), AllocError>
        requires right { AreRight self.old }
        requires among { Contains (labels_of self.old) (says (term_tree owner.now) (formula_tree said.now)) }
        ensures right { OnOk result (AreRight self.new) }
        ensures keeps { OnOk result (Keeps self.old self.new) }
        ensures states { OnOk result
            (formula_tree said.now ≡ statement_of self.new → IsStating self.new (term_tree owner.now)) }
    {
        if !equal(said, self.statement) {
            return Ok(());
        }
        let number = self.number(owner)?;
        self.stating[number] = true;
        Ok(())
    }

    /// Adds whom the principal lets state the statement, if it says so by a label. An `Err` is want of memory.
    fn add_granting(&mut self, owner: &'a Term, said: &'a Formula) -> Result<(), AllocError>
        requires right { AreRight self.old }
        requires among { Contains (labels_of self.old) (says (term_tree owner.now) (formula_tree said.now)) }
        ensures right { OnOk result (AreRight self.new) }
        ensures keeps { OnOk result (Keeps self.old self.new) }
        ensures grants { OnOk result
            ((x : TermTree) (s : Step)
            → Grants (statement_of self.new) (says (term_tree owner.now) (formula_tree said.now)) x s
            → IsDelegated self.new (next x s) x) }
    {
        let Some(grant) = granted(said, owner, self.statement) else {
            return Ok(());
        };
        self.add_delegation(owner, grant)
    }

    /// Adds that the owner lets another principal state the statement. An `Err` is want of memory.
    fn add_delegation(&mut self, owner: &'a Term, grant: Grant<'a>) -> Result<(), AllocError>
        requires right { AreRight self.old }
        requires step { IsStep (labels_of self.old) (statement_of self.old) (term_tree grant.speaker.now)
            (grant_step (term_tree owner.now) grant.scope) }
        ensures right { OnOk result (AreRight self.new) }
        ensures keeps { OnOk result (Keeps self.old self.new) }
        ensures delegates { OnOk result
            (IsDelegated self.new (term_tree owner.now) (term_tree grant.entry.speaker.now)) }
    {
        let owner = self.number(owner)?;
        let speaker = self.number(grant.speaker)?;
        self.granting[owner] = true;
        self.delegations.push(Delegation {
            owner,
            speaker,
            scope: grant.scope,
        })?;
        Ok(())
    }

    /// The number of the principal, which has one from now on. An `Err` is want of memory.
    fn number(&mut self, term: &'a Term) -> Result<usize, AllocError>
        requires right { AreRight self.old }
        ensures right { OnOk result (AreRight self.new) }
        ensures keeps { OnOk result (Keeps self.old self.new) }
        ensures number { IfOk result (λ i. IsNumber (terms_of self.new) i (term_tree term.now)) }
    {
        let number = self.principals.number(term)?;
        if self.stating.len() < self.principals.count() {
            self.stating.push(false)?;
            self.granting.push(false)?;
        }
        Ok(number)
    }
}
