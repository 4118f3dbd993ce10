//! Writing why a call has its verdict.
ghost use Rattle.std.specs.Prelude.{◌≡◌, ◌≤◌, ◌+◌, ◌++◌, ◌≢◌, ◌∷◌, [], All, IfOk, List, codes, MatchOption, OnOk, length, ℕ};
ghost use Rattle.std.specs.Fmt.{decimal};
ghost use Rattle.proof_lines.specs.Lines.{HasRuleForm, line_tree, line_trees};
ghost use Rattle.proof_text.specs.CanonicalProof.{line_text};
ghost use Rattle.policy_history.specs.PolicyLines.{spaced};
ghost use Rattle.policy_history.specs.PolicyTexts.{ended};
ghost use Rattle.audit_form.specs.VerdictTexts.{cause_text};
ghost use Rattle.explain_form.specs.ExplainedTexts.{answer_word, behind_line, explained_text, explanation_text, goal_line, lines_text, object_line, proof_lines, verdict_line};

use audit_form::fault_name;
use case_reasons::{Explained, Explanation, GoalReason, LineReason, ObjectReason, ProofReason};
use label_holdings::Holding;
use nal_parse::print_formula;
use nal_rules::{Cause, Verdict};
use nx_io::Bytes;
use policy_history::{Head, Principals};
use proof_lines::{Line, Proof, PushError};
use proof_text::print_proof;
use std::alloc::{AllocError, Global};
use text_lines::after_word;

/// The lines that say why a call has its verdict, when the journal with this head had so many entries. An `Err` is want of memory.
/// `docs/FORMATS.md`, "The answer of `explain`", states the lines.
pub fn print_explained(
    alloc: Global,
    head: &Head,
    at: u64,
    explained: &Explained,
) -> Result<Bytes, AllocError>
    ensures { IfOk result (λ text. text ≡ explained_text head.now at explained.now) }
{
    let mut printer = Printer::new(alloc);
    match explained {
        Explained::NoObject => {
            printer.piece(b"refused ")?;
            printer.number(at)?;
            printer.piece(b" NoSuchObject\n")?;
        }
        Explained::Known(explanation) => printer.explanation(head, at, explanation)?,
    }
    Ok(printer.text)
}

/// A text that grows at its end.
#[derive(Drop)]
struct Printer {
    alloc: Global,
    text: Bytes,
}

impl Printer {
    /// An empty text, which takes no memory.
    fn new(alloc: Global) -> Printer
        ensures { result.text ≡ [] }
    {
        Printer {
            alloc,
            text: Bytes::new(alloc),
        }
    }

    fn piece(&mut self, piece: &[u8]) -> Result<(), AllocError>
        ensures { OnOk result (self.new.text ≡ self.old.text ++ piece.now) }
    {
        self.text.extend(piece)
    }

    fn number(&mut self, number: u64) -> Result<(), AllocError>
        ensures { OnOk result (self.new.text ≡ self.old.text ++ decimal number) }
    {
        let digits = format!(in self.alloc; "{number}")?;
        self.piece(digits.as_bytes())
    }

    /// Appends the lines of an explanation.
    fn explanation(
        &mut self,
        head: &Head,
        at: u64,
        explanation: &Explanation,
    ) -> Result<(), AllocError>
        ensures { OnOk result (self.new.text ≡ self.old.text ++ explanation_text head.now at explanation.now) }
    {
        self.verdict(at, explanation.verdict)?;
        self.object(&head.principals, &explanation.object)?;
        self.goal(&explanation.goal)?;
        self.proof(&explanation.proof)
    }

    /// Appends the line of the verdict.
    fn verdict(&mut self, at: u64, verdict: Verdict) -> Result<(), AllocError>
        ensures { OnOk result (self.new.text ≡ self.old.text ++ ended (verdict_line at verdict)) }
    {
        match verdict {
            Verdict::Allowed => {
                self.piece(b"allowed ")?;
                self.number(at)?;
            }
            Verdict::Denied(cause) => {
                self.piece(b"denied ")?;
                self.number(at)?;
                self.piece(b" ")?;
                self.cause(cause)?;
            }
        }
        self.piece(b"\n")
    }

    /// Appends the words of a cause.
    fn cause(&mut self, cause: Cause) -> Result<(), AllocError>
        ensures { OnOk result (self.new.text ≡ self.old.text ++ cause_text cause) }
    {
        match cause {
            Cause::GoalUnset => self.piece(b"GoalUnset"),
            Cause::NoProof => self.piece(b"NoProof"),
            Cause::Line { line, fault } => {
                self.piece(b"Line ")?;
                self.number(line)?;
                self.piece(b" ")?;
                self.piece(fault_name(fault).as_bytes())
            }
            Cause::LabelMissing { line } => self.cause_at(b"LabelMissing", line),
            Cause::NotBound { line } => self.cause_at(b"NotBound", line),
            Cause::AuthorityNo { line } => self.cause_at(b"AuthorityNo", line),
        }
    }

    /// Appends the name of a cause, and its line.
    fn cause_at(&mut self, name: &[u8], line: u64) -> Result<(), AllocError>
        ensures { OnOk result (self.new.text ≡ self.old.text ++ spaced name.now (decimal line)) }
    {
        self.piece(name)?;
        self.piece(b" ")?;
        self.number(line)
    }

    /// Appends the line of the object.
    fn object(&mut self, principals: &Principals, object: &ObjectReason) -> Result<(), AllocError>
        ensures { OnOk result (self.new.text ≡ self.old.text ++ ended (object_line principals.now object.now)) }
    {
        self.piece(b"object ")?;
        self.number(object.entry)?;
        self.piece(b" ")?;
        if let Some(owner) = principals.get(object.owner as u64) {
            self.piece(owner.name.as_slice())?;
        }
        self.piece(b"\n")
    }

    /// Appends the line of the goal.
    fn goal(&mut self, goal: &Option<GoalReason>) -> Result<(), AllocError>
        ensures { OnOk result (self.new.text ≡ self.old.text ++ ended (goal_line goal.now)) }
    {
        let Some(GoalReason { entry, goal }) = goal else {
            return self.piece(b"goal -\n");
        };
        self.piece(b"goal ")?;
        self.number(*entry)?;
        self.piece(b" : ")?;
        let formula = print_formula(self.alloc, goal)?;
        self.piece(formula.as_slice())?;
        self.piece(b"\n")
    }

    /// Appends the line of the proof, and a line for each of its lines.
    fn proof(&mut self, proof: &Option<ProofReason>) -> Result<(), AllocError>
        ensures { OnOk result (self.new.text ≡ self.old.text ++ proof_lines proof.now) }
    {
        let Some(
            ProofReason {
                entry,
                proof,
                lines,
            },
        ) = proof
        else {
            return self.piece(b"proof -\n");
        };
        self.piece(b"proof ")?;
        self.number(*entry)?;
        self.piece(b"\n")?;
        self.lines(1, proof.as_slice(), lines.as_slice())
    }

    /// Appends the lines from this number on, each with what it rests on.
    fn lines(
        &mut self,
        number: u64,
        lines: &[Line],
        reasons: &[LineReason],
    ) -> Result<(), AllocError>
        requires few { number + length lines.now ≤ 257 }
        requires formed { All (λ l. HasRuleForm (line_tree l)) lines.now }
        ensures { OnOk result (self.new.text ≡ self.old.text ++ lines_text number (line_trees lines.now) reasons.now) }
    {
        let Some((line, lines)) = lines.split_first() else {
            return Ok(());
        };
        let Some((reason, reasons)) = reasons.split_first() else {
            return Ok(());
        };
        self.proof_line(number, line)?;
        self.reason(*reason)?;
        self.piece(b"\n")?;
        self.lines(number + 1, lines, reasons)
    }

    /// Appends the text of the line with this number. It is cut from the text of a proof of the line alone, where its number is 1.
    fn proof_line(&mut self, number: u64, line: &Line) -> Result<(), AllocError>
        requires { HasRuleForm (line_tree line.now) }
        ensures { OnOk result (self.new.text ≡ self.old.text ++ line_text number (line_tree line.now)) }
    {
        let proof = alone(self.alloc, line)?;
        let printed = print_proof(self.alloc, &proof)?;
        let Some(behind_number) = after_word(printed.as_slice(), "proof 2 ; 1") else {
            unreachable!()
        };
        let Some(unnumbered) = before_end(behind_number, " ; end") else {
            unreachable!()
        };
        self.number(number)?;
        self.piece(unnumbered)
    }

    /// Appends what stands behind the text of a line that rests on this.
    fn reason(&mut self, reason: LineReason) -> Result<(), AllocError>
        ensures { OnOk result (self.new.text ≡ self.old.text ++ behind_line reason) }
    {
        match reason {
            LineReason::Faulty(fault) => {
                self.piece(b" ; ")?;
                self.piece(fault_name(fault).as_bytes())
            }
            LineReason::Held(Holding { said, received }) => self.held(said, received),
            LineReason::Missing => self.piece(b" ; missing"),
            LineReason::Answered { port, yes } => {
                self.piece(b" ; ")?;
                self.number(port)?;
                self.piece(b" ")?;
                self.piece(answer_word(yes).as_bytes())
            }
            LineReason::NotAsked { port } => {
                self.piece(b" ; ")?;
                self.number(port)?;
                self.piece(b" not asked")
            }
            LineReason::NotBound => self.piece(b" ; not bound"),
            LineReason::Derived => Ok(()),
        }
    }

    /// Appends by which entries a label is held.
    fn held(&mut self, said: u64, received: u64) -> Result<(), AllocError>
        ensures { OnOk result
            (self.new.text ≡ self.old.text ++ codes " ; held " ++ spaced (decimal said) (decimal received)) }
    {
        self.piece(b" ; held ")?;
        self.number(said)?;
        self.piece(b" ")?;
        self.number(received)
    }
}

fn answer_word(yes: bool) -> &'static str
    ensures { result.now ≡ answer_word yes }
{
    if yes { "yes" } else { "no" }
}

/// What stands before this end of a text. None exactly where the text does not end with it.
fn before_end<'a>(text: &'a [u8], end: &str) -> Option<&'a [u8]>
    ensures { MatchOption result
        ((front : List ℕ) → text.entry.now ≢ front ++ end.now)
        (λ front. text.entry.now ≡ front.now ++ end.now) }
{
    text.strip_suffix(end.as_bytes())
}

/// A proof of the line alone. An `Err` is want of memory.
fn alone(alloc: Global, line: &Line) -> Result<Proof, AllocError>
    requires { HasRuleForm (line_tree line.now) }
    ensures { IfOk result (λ proof. line_trees proof ≡ line_tree line.now ∷ []) }
{
    let mut proof = Proof::new(alloc);
    match proof.push(line.copy(alloc)?) {
        Ok(()) => Ok(proof),
        Err(PushError::Memory) => Err(AllocError),
        Err(PushError::Shape | PushError::Full) => unreachable!(),
    }
}
