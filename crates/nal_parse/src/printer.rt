ghost use Rattle.std.specs.Prelude.{◌≡◌, ◌<◌, ◌≤◌, ◌+◌, ◌++◌, [], ℕ, All, IfOk, OnOk, codes, length, map};
ghost use Rattle.std.specs.Fmt.{decimal};
ghost use Rattle.nal_term.specs.Names.{IsName};
ghost use Rattle.nal_term.specs.Trees.{formula_tree, term_tree, term_trees};
ghost use Rattle.nal_term.specs.Trees as tree;
ghost use Rattle.nal_parse.specs.Grammar.{IsFormulaText, IsTermText, SpellsFormula, SpellsTerm};
ghost use Rattle.nal_parse.specs.Canonical.{FormulaFits, IsSpellable, IsSpellableTerm, TermFits, comparison_sign, formula_levels, formula_text, joined, part_text, scope_text, strength, term_text};

use nal_term::{Args, Compare, Formula, Name, Scope, Term};
use nx_io::Bytes;
use std::alloc::{AllocError, Global};

/// How strongly the parts of a formula hold together: 0 for a quantifier, then `=>`, `or`, `and`, and 4 for
/// what needs no brackets anywhere.
pub fn strength(f: &Formula) -> u8
    ensures { result ≡ strength (formula_tree f.now) }
{
    match f {
        Formula::Forall(_, _) | Formula::Exists(_, _) => 0,
        Formula::Implies(_, _) => 1,
        Formula::Or(_, _) => 2,
        Formula::And(_, _) => 3,
        Formula::True | Formula::False => 4,
        Formula::Atom(_, _) | Formula::Test(_, _, _) => 4,
        Formula::Says(_, _) | Formula::SpeaksFor(_, _) | Formula::SpeaksForOn(_, _, _) => 4,
    }
}

/// A text that grows at its end.
#[derive(Drop)]
pub struct Printer {
    alloc: Global,
    text: Bytes,
}

impl Printer {
    /// An empty text, which takes no memory.
    pub fn new(alloc: Global) -> Printer
        ensures { result.text ≡ [] }
    {
        Printer {
            alloc,
            text: Bytes::new(alloc),
        }
    }

    /// The text.
    pub fn finish(self) -> Bytes
        ensures { result ≡ self.text }
    {
        self.text
    }

    fn piece(&mut self, piece: &[u8]) -> Result<(), AllocError>
        ensures { OnOk result (self.new.text ≡ self.old.text ++ piece.now) }
    {
        self.text.extend(piece)
    }

    fn number(&mut self, number: u64) -> Result<(), AllocError>
        ensures { OnOk result (self.new.text ≡ self.old.text ++ decimal number) }
    {
        let digits = format!(in self.alloc; "{number}")?;
        self.text.extend(digits.as_bytes())
    }

    /// Appends a term's text.
    pub fn term(&mut self, term: &Term) -> Result<(), AllocError>
        ensures text { OnOk result (self.new.text ≡ self.old.text ++ term_text (term_tree term.now)) }
        ensures spellable { OnOk result (IsSpellableTerm (term_tree term.now)) }
    {
        match term {
            Term::Number(number) => self.number(*number),
            Term::Name(name) => self.piece(name.as_slice()),
            Term::Text(text) => {
                self.piece(b"\"")?;
                self.piece(text.as_slice())?;
                self.piece(b"\"")
            }
            Term::Var(name) => {
                self.piece(b"?")?;
                self.piece(name.as_slice())
            }
            Term::Sub(term, name) => {
                self.term(term)?;
                self.piece(b".")?;
                self.piece(name.as_slice())
            }
        }
    }

    /// Appends the terms' texts, with a comma and a space between them.
    fn terms(&mut self, terms: &[Term]) -> Result<(), AllocError>
        ensures text { OnOk result (self.new.text ≡ self.old.text ++ joined (map term_text (term_trees terms.now))) }
        ensures spellable { OnOk result (All IsSpellableTerm (term_trees terms.now)) }
    {
        match terms.split_first() {
            None => Ok(()),
            Some((first, rest)) => {
                self.term(first)?;
                if rest.is_empty() {
                    return Ok(());
                }
                self.piece(b", ")?;
                self.terms(rest)
            }
        }
    }

    /// Appends the names, with a comma and a space between them.
    fn names(&mut self, names: &[Name]) -> Result<(), AllocError>
        ensures text { OnOk result (self.new.text ≡ self.old.text ++ joined names.now) }
        ensures spellable { OnOk result (All IsName names.now) }
    {
        match names.split_first() {
            None => Ok(()),
            Some((first, rest)) => {
                self.piece(first.as_slice())?;
                if rest.is_empty() {
                    return Ok(());
                }
                self.piece(b", ")?;
                self.names(rest)
            }
        }
    }

    fn atom(&mut self, predicate: &Name, args: &Args) -> Result<(), AllocError>
        ensures text { OnOk result
            (self.new.text ≡ self.old.text ++ formula_text (tree.atom predicate.now (term_trees args.now))) }
        ensures spellable { OnOk result (IsSpellable (tree.atom predicate.now (term_trees args.now))) }
    {
        self.piece(predicate.as_slice())?;
        if args.count() == 0 {
            return Ok(());
        }
        self.piece(b"(")?;
        self.terms(args.as_slice())?;
        self.piece(b")")
    }

    fn comparison(&mut self, compare: Compare) -> Result<(), AllocError>
        ensures { OnOk result (self.new.text ≡ self.old.text ++ comparison_sign compare) }
    {
        match compare {
            Compare::Equal => self.piece(b" = "),
            Compare::Less => self.piece(b" < "),
            Compare::AtMost => self.piece(b" <= "),
        }
    }

    fn scope(&mut self, scope: &Scope) -> Result<(), AllocError>
        ensures text { OnOk result (self.new.text ≡ self.old.text ++ scope_text scope.now) }
        ensures spellable { OnOk result (All IsName scope.now × (0 < length scope.now) × (length scope.now ≤ 8)) }
    {
        if scope.count() == 1 {
            return self.names(scope.as_slice());
        }
        self.piece(b"(")?;
        self.names(scope.as_slice())?;
        self.piece(b")")
    }

    /// Appends a formula's text.
    #[cycle(printing)]
    pub fn formula(&mut self, formula: &Formula) -> Result<(), AllocError>
        ensures text { OnOk result (self.new.text ≡ self.old.text ++ formula_text (formula_tree formula.now)) }
        ensures spellable { OnOk result (IsSpellable (formula_tree formula.now)) }
    {
        match formula {
            Formula::True => self.piece(b"true"),
            Formula::False => self.piece(b"false"),
            Formula::Atom(predicate, args) => self.atom(predicate, args),
            Formula::Test(compare, left, right) => {
                self.term(left)?;
                self.comparison(*compare)?;
                self.term(right)
            }
            Formula::And(left, right) => {
                self.part(3, left)?;
                self.piece(b" and ")?;
                self.part(4, right)
            }
            Formula::Or(left, right) => {
                self.part(2, left)?;
                self.piece(b" or ")?;
                self.part(3, right)
            }
            Formula::Implies(left, right) => {
                self.part(2, left)?;
                self.piece(b" => ")?;
                self.formula(right)
            }
            Formula::Forall(variable, body) => self.quantified(b"forall ?", variable, body),
            Formula::Exists(variable, body) => self.quantified(b"exists ?", variable, body),
            Formula::Says(speaker, said) => {
                self.term(speaker)?;
                self.piece(b" says ")?;
                self.part(4, said)
            }
            Formula::SpeaksFor(speaker, principal) => self.delegation(speaker, principal),
            Formula::SpeaksForOn(speaker, principal, scope) => {
                self.delegation(speaker, principal)?;
                self.piece(b" on ")?;
                self.scope(scope)
            }
        }
    }

    /// Appends a part's text, in brackets where its strength is below the one asked for.
    #[cycle(printing)]
    fn part(&mut self, asked: u8, part: &Formula) -> Result<(), AllocError>
        ensures text { OnOk result
            (self.new.text ≡ self.old.text
            ++ part_text asked (formula_tree part.now) (formula_text (formula_tree part.now))) }
        ensures spellable { OnOk result (IsSpellable (formula_tree part.now)) }
    {
        if strength(part) < asked {
            self.piece(b"(")?;
            self.formula(part)?;
            self.piece(b")")
        } else {
            self.formula(part)
        }
    }

    #[cycle(printing)]
    fn quantified(
        &mut self,
        quantifier: &[u8],
        variable: &Name,
        body: &Formula,
    ) -> Result<(), AllocError>
        ensures text { OnOk result
            (self.new.text ≡ self.old.text ++ quantifier.now ++ variable.now ++ codes " : "
            ++ formula_text (formula_tree body.now)) }
        ensures spellable { OnOk result (IsName variable.now × IsSpellable (formula_tree body.now)) }
    {
        self.piece(quantifier)?;
        self.piece(variable.as_slice())?;
        self.piece(b" : ")?;
        self.formula(body)
    }

    fn delegation(&mut self, speaker: &Term, principal: &Term) -> Result<(), AllocError>
        ensures text { OnOk result
            (self.new.text ≡ self.old.text
            ++ formula_text (tree.speaks_for (term_tree speaker.now) (term_tree principal.now))) }
        ensures spellable { OnOk result
            (IsSpellableTerm (term_tree speaker.now) × IsSpellableTerm (term_tree principal.now)) }
    {
        self.term(speaker)?;
        self.piece(b" speaksfor ")?;
        self.term(principal)
    }
}

/// The formula's canonical text. An `Err` is want of memory.
/// `docs/FORMATS.md`, "Canonical text", states the text.
pub fn print_formula(alloc: Global, f: &Formula) -> Result<Bytes, AllocError>
    ensures text { IfOk result (λ b. b ≡ formula_text (formula_tree f.now)) }
    ensures spelled { IfOk result
        (λ b. (n : ℕ) → formula_levels (formula_tree f.now) ≤ n → SpellsFormula n b (formula_tree f.now)) }
    ensures spellable { OnOk result (IsSpellable (formula_tree f.now)) }
    ensures read_again { IfOk result (λ b. FormulaFits (formula_tree f.now) → IsFormulaText b (formula_tree f.now)) }
{
    let mut printer = Printer::new(alloc);
    printer.formula(f)?;
    Ok(printer.finish())
}

/// The term's canonical text. An `Err` is want of memory.
/// `docs/FORMATS.md`, "Canonical text", states the text.
pub fn print_term(alloc: Global, t: &Term) -> Result<Bytes, AllocError>
    ensures text { IfOk result (λ b. b ≡ term_text (term_tree t.now)) }
    ensures spelled { IfOk result (λ b. SpellsTerm b (term_tree t.now)) }
    ensures spellable { OnOk result (IsSpellableTerm (term_tree t.now)) }
    ensures read_again { IfOk result (λ b. TermFits (term_tree t.now) → IsTermText b (term_tree t.now)) }
{
    let mut printer = Printer::new(alloc);
    printer.term(t)?;
    Ok(printer.finish())
}
