//! Writing the text of a policy.
ghost use Rattle.std.specs.Prelude.{◌≡◌, ◌<◌, ◌^◌, ◌↔◌, ◌++◌, [], IfOk, IsTrue, OnOk, option_map};
ghost use Rattle.std.specs.Fmt.{decimal};
ghost use Rattle.std.specs.List.{All, flat_map};
ghost use Rattle.nal_term.specs.Trees.{formula_tree, term_tree};
ghost use Rattle.nal_parse.specs.Canonical.{FormulaFits, IsSpellable, IsSpellableTerm, TermFits, formula_text, term_text};
ghost use Rattle.proof_lines.specs.Lines.{line_trees};
ghost use Rattle.proof_text.specs.CanonicalProof.{IsSpellableProof, ProofFits, proof_text};
ghost use Rattle.policy_history.specs.Events.{event_tree};
ghost use Rattle.policy_history.specs.Events as tree;
ghost use Rattle.policy_history.specs.PolicyLines.{entry_line, event_text, spaced};
ghost use Rattle.policy_history.specs.Values.{entry_trees};
ghost use Rattle.policy_history.specs.PolicyTexts.{authority_text, ended, head_text, IsGiven, IsSpelledWhole, line_of, policy_text, principal_text};
ghost use Rattle.journal_text.specs.PolicyText.{ReadsAs};
ghost use Rattle.journal_text.specs.PolicyLaws.{IsInSession, IsKeptEntry, IsKeptEvent, IsKeptHead, IsKeptPrincipal};

use nal_parse::{fits, print_formula, print_term, term_fits};
use nal_term::{Formula, Name, Term};
use nx_io::Bytes;
use policy_history::{Authorities, Authority, Event, Head, Journal, Principal, Principals};
use proof_lines::Proof;
use proof_text::{print_proof, proof_fits};
use std::alloc::{AllocError, Global};

/// The line of an entry in the text of a policy, with its line feed, where its event is spelled whole: each part of it that
/// is written as a text is given and keeps the limits of its text. Else no bytes. `name` is that of the principal that
/// made the entry. An `Err` is want of memory. `docs/FORMATS.md`, "Policy text", states the form.
pub fn policy_line(
    alloc: Global,
    session: u64,
    name: &Name,
    event: &Event,
) -> Result<Bytes, AllocError>
    ensures spelled { IfOk result
        (λ line. IsSpelledWhole (event_tree event.now) → line ≡ entry_line session name.now (event_tree event.now)) }
    ensures else_none { IfOk result (λ line. ¬ IsSpelledWhole (event_tree event.now) → line ≡ []) }
{
    let mut printer = PolicyPrinter::new(alloc);
    if is_spelled(event) {
        printer.entry(session, name, event)?;
    }
    Ok(printer.text)
}

/// The text of a policy: the head and the entries of the journal. Where each entry has a session, it is read again as an
/// equal journal. An `Err` is want of memory.
/// `docs/FORMATS.md`, "Policy text", states the form.
pub fn print_policy(alloc: Global, journal: &Journal) -> Result<Bytes, AllocError>
    ensures text { IfOk result (λ text. text ≡ policy_text journal.now.head (entry_trees journal.now.entries)) }
    ensures read_again { IfOk result
        (λ text. All IsInSession (entry_trees journal.now.entries)
        → ReadsAs text journal.now.head (entry_trees journal.now.entries)) }
{
    let mut printer = PolicyPrinter::new(alloc);
    let _count = journal.count();
    printer.head(journal.head())?;
    printer.entries(journal)?;
    printer.piece(b"end\n")?;
    Ok(printer.text)
}

/// Whether each part of the event that is written as a text is given and keeps the limits of its text.
fn is_spelled(event: &Event) -> bool
    ensures { IsTrue result ↔ IsSpelledWhole (event_tree event.now) }
{
    match event {
        Event::Say { principal, formula } => is_term(principal) && is_formula(formula),
        Event::SetGoal { goal, .. } => is_formula(goal),
        Event::SetProof { proof, .. } => is_proof(proof),
        Event::Bind { principal, .. } | Event::Unbind { principal } => is_term(principal),
        _ => true,
    }
}

fn is_term(term: &Option<Term>) -> bool
    ensures { IsTrue result ↔ IsGiven TermFits (option_map term_tree term.now) }
{
    match term {
        None => false,
        Some(term) => term_fits(term),
    }
}

fn is_formula(formula: &Option<Formula>) -> bool
    ensures { IsTrue result ↔ IsGiven FormulaFits (option_map formula_tree formula.now) }
{
    match formula {
        None => false,
        Some(formula) => fits(formula),
    }
}

fn is_proof(proof: &Option<Proof>) -> bool
    ensures { IsTrue result ↔ IsGiven ProofFits (option_map line_trees proof.now) }
{
    match proof {
        None => false,
        Some(proof) => proof_fits(proof),
    }
}

/// The text of a policy, which grows at its end. Each call appends; an `Err` is want of memory, and the text is then of no use.
#[derive(Drop)]
pub struct PolicyPrinter {
    alloc: Global,
    pub text: Bytes,
}

impl PolicyPrinter {
    /// An empty text, which takes no memory.
    pub fn new(alloc: Global) -> PolicyPrinter
        ensures { result.text ≡ [] }
    {
        PolicyPrinter {
            alloc,
            text: Bytes::new(alloc),
        }
    }

    /// Appends these bytes.
    pub fn piece(&mut self, piece: &[u8]) -> Result<(), AllocError>
        ensures { OnOk result (self.new.text ≡ self.old.text ++ piece.now) }
    {
        self.text.extend(piece)
    }

    fn number(&mut self, number: u64) -> Result<(), AllocError>
        ensures { OnOk result (self.new.text ≡ self.old.text ++ decimal number) }
    {
        let digits = format!(in self.alloc; "{number}")?;
        self.text.extend(digits.as_bytes())
    }

    fn term(&mut self, term: &Term) -> Result<(), AllocError>
        ensures text { OnOk result (self.new.text ≡ self.old.text ++ term_text (term_tree term.now)) }
        ensures kept { OnOk result (IsSpellableTerm (term_tree term.now)) }
    {
        let term = print_term(self.alloc, term)?;
        self.text.extend(term.as_slice())
    }

    fn formula(&mut self, formula: &Formula) -> Result<(), AllocError>
        ensures text { OnOk result (self.new.text ≡ self.old.text ++ formula_text (formula_tree formula.now)) }
        ensures kept { OnOk result (IsSpellable (formula_tree formula.now)) }
    {
        let formula = print_formula(self.alloc, formula)?;
        self.text.extend(formula.as_slice())
    }

    fn proof(&mut self, proof: &Proof) -> Result<(), AllocError>
        ensures text { OnOk result (self.new.text ≡ self.old.text ++ proof_text (line_trees proof.now)) }
        ensures kept { OnOk result (IsSpellableProof (line_trees proof.now)) }
    {
        let proof = print_proof(self.alloc, proof)?;
        self.text.extend(proof.as_slice())
    }

    /// Appends two words with a space between them.
    fn pair(&mut self, first: &[u8], second: &[u8]) -> Result<(), AllocError>
        ensures { OnOk result (self.new.text ≡ self.old.text ++ spaced first.now second.now) }
    {
        self.piece(first)?;
        self.piece(b" ")?;
        self.piece(second)
    }

    /// Appends the lines of a head.
    pub fn head(&mut self, head: &Head) -> Result<(), AllocError>
        ensures text { OnOk result (self.new.text ≡ self.old.text ++ head_text head.now) }
        ensures kept { OnOk result (IsKeptHead head.now) }
    {
        let _principals = head.principals.count();
        let _authorities = head.authorities.count();
        self.piece(b"nexus 2\n")?;
        self.principals(&head.principals)?;
        self.authorities(&head.authorities)
    }

    fn principals(&mut self, principals: &Principals) -> Result<(), AllocError>
        ensures text { OnOk result
            (self.new.text ≡ self.old.text ++ flat_map (λ p. ended (principal_text p)) principals.now) }
        ensures kept { OnOk result (All IsKeptPrincipal principals.now) }
    {
        for principal in principals.as_slice() {
            self.principal(principal)?;
        }
        Ok(())
    }

    fn principal(&mut self, principal: &Principal) -> Result<(), AllocError>
        ensures text { OnOk result (self.new.text ≡ self.old.text ++ ended (principal_text principal.now)) }
        ensures kept { OnOk result (IsKeptPrincipal principal.now) }
    {
        self.piece(b"principal ")?;
        self.pair(principal.name.as_slice(), principal.secret.as_slice())?;
        self.piece(b"\n")
    }

    fn authorities(&mut self, authorities: &Authorities) -> Result<(), AllocError>
        ensures { OnOk result
            (self.new.text ≡ self.old.text ++ flat_map (λ a. ended (authority_text a)) authorities.now) }
    {
        for place in 0..authorities.count() {
            let Some(authority) = authorities.get(place) else {
                return Ok(());
            };
            self.authority(authority)?;
        }
        Ok(())
    }

    fn authority(&mut self, authority: &Authority) -> Result<(), AllocError>
        ensures { OnOk result (self.new.text ≡ self.old.text ++ ended (authority_text authority.now)) }
    {
        self.piece(b"authority ")?;
        self.number(authority.port)?;
        self.piece(b" ")?;
        self.piece(authority.address.as_slice())?;
        self.piece(b"\n")
    }

    /// Appends the lines of the entries.
    fn entries(&mut self, journal: &Journal) -> Result<(), AllocError>
        ensures text { OnOk result
            (self.new.text ≡ self.old.text ++ flat_map (line_of journal.now.head) (entry_trees journal.now.entries)) }
        ensures kept { OnOk result (All IsKeptEntry (entry_trees journal.now.entries)) }
    {
        let _count = journal.count();
        let principals = &journal.head().principals;
        for entry in journal.entries() {
            self.entry(
                entry.session,
                principals.name(entry.principal),
                &entry.event,
            )?;
        }
        Ok(())
    }

    /// Appends the line of an entry, that of the principal with this name.
    pub fn entry(&mut self, session: u64, name: &Name, event: &Event) -> Result<(), AllocError>
        ensures text { OnOk result
            (self.new.text ≡ self.old.text ++ entry_line session name.now (event_tree event.now)) }
        ensures kept { OnOk result ((session < 2 ^ 64) × IsKeptEvent (event_tree event.now)) }
    {
        self.number(session)?;
        self.piece(b" ")?;
        self.piece(name.as_slice())?;
        self.piece(b" ")?;
        self.event(event)?;
        self.piece(b"\n")
    }

    /// Appends the text of an event; of one of which a part is missing, nothing.
    fn event(&mut self, event: &Event) -> Result<(), AllocError>
        ensures text { OnOk result (self.new.text ≡ self.old.text ++ event_text (event_tree event.now)) }
        ensures kept { OnOk result (IsKeptEvent (event_tree event.now)) }
    {
        match event {
            Event::Say { principal, formula } => self.say(principal, formula),
            Event::Transfer { number, to } => {
                self.piece(b"transfer ")?;
                self.number(*number)?;
                self.piece(b" ")?;
                self.piece(to.as_slice())
            }
            Event::Delete { number } => {
                self.piece(b"delete ")?;
                self.number(*number)
            }
            Event::NewObject { name } => self.pair(b"object", name.as_slice()),
            Event::SetGoal { op, object, goal } => self.set_goal(op, object, goal),
            Event::ClearGoal { op, object } => {
                self.piece(b"nogoal ")?;
                self.pair(op.as_slice(), object.as_slice())
            }
            Event::SetProof { op, object, proof } => self.set_proof(op, object, proof),
            Event::ClearProof { op, object } => {
                self.piece(b"noproof ")?;
                self.pair(op.as_slice(), object.as_slice())
            }
            Event::Bind { principal, port } => self.bind(principal, *port),
            Event::Unbind { principal } => self.unbind(principal),
        }
    }

    fn say(&mut self, principal: &Option<Term>, formula: &Option<Formula>) -> Result<(), AllocError>
        ensures text { OnOk result
            (self.new.text ≡ self.old.text
            ++ event_text (tree.say (option_map term_tree principal.now) (option_map formula_tree formula.now))) }
        ensures kept { OnOk result
            (IsKeptEvent (tree.say (option_map term_tree principal.now) (option_map formula_tree formula.now))) }
    {
        let (Some(principal), Some(formula)) = (principal, formula) else {
            return Ok(());
        };
        self.piece(b"say ")?;
        self.term(principal)?;
        self.piece(b" : ")?;
        self.formula(formula)
    }

    fn set_goal(
        &mut self,
        op: &Name,
        object: &Name,
        goal: &Option<Formula>,
    ) -> Result<(), AllocError>
        ensures text { OnOk result
            (self.new.text ≡ self.old.text
            ++ event_text (tree.set_goal op.now object.now (option_map formula_tree goal.now))) }
        ensures kept { OnOk result (IsKeptEvent (tree.set_goal op.now object.now (option_map formula_tree goal.now))) }
    {
        let Some(goal) = goal else { return Ok(()) };
        self.piece(b"goal ")?;
        self.pair(op.as_slice(), object.as_slice())?;
        self.piece(b" : ")?;
        self.formula(goal)
    }

    fn set_proof(
        &mut self,
        op: &Name,
        object: &Name,
        proof: &Option<Proof>,
    ) -> Result<(), AllocError>
        ensures text { OnOk result
            (self.new.text ≡ self.old.text
            ++ event_text (tree.set_proof op.now object.now (option_map line_trees proof.now))) }
        ensures kept { OnOk result (IsKeptEvent (tree.set_proof op.now object.now (option_map line_trees proof.now))) }
    {
        let Some(proof) = proof else { return Ok(()) };
        self.piece(b"proof ")?;
        self.pair(op.as_slice(), object.as_slice())?;
        self.piece(b" : ")?;
        self.proof(proof)
    }

    fn bind(&mut self, principal: &Option<Term>, port: u64) -> Result<(), AllocError>
        ensures text { OnOk result
            (self.new.text ≡ self.old.text ++ event_text (tree.bind (option_map term_tree principal.now) port)) }
        ensures kept { OnOk result (IsKeptEvent (tree.bind (option_map term_tree principal.now) port)) }
    {
        let Some(principal) = principal else {
            return Ok(());
        };
        self.piece(b"bind ")?;
        self.term(principal)?;
        self.piece(b" ")?;
        self.number(port)
    }

    fn unbind(&mut self, principal: &Option<Term>) -> Result<(), AllocError>
        ensures text { OnOk result
            (self.new.text ≡ self.old.text ++ event_text (tree.unbind (option_map term_tree principal.now))) }
        ensures kept { OnOk result (IsKeptEvent (tree.unbind (option_map term_tree principal.now))) }
    {
        let Some(principal) = principal else {
            return Ok(());
        };
        self.piece(b"unbind ")?;
        self.term(principal)
    }
}
