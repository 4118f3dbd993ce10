//! What was recorded of a call: who asked for what, at which point of the journal, and what was answered.
ghost use Rattle.std.specs.Prelude.{◌≡◌, ◌≢◌, ◌≤◌, ◌↔◌, ◌++◌, ◌∷◌, [], length, All, IsTrue, OnErr, OnOk, replicate, true, false};
ghost use Rattle.audit_check.specs.Records.{MayBe};

use arrayvec::ArrayVec;
use nal_rules::Verdict;
use nal_term::{ListError, Name};
use std::alloc::Global;
use std::marker::Model;

/// How many answers may be given: as many as a proof without a fault has ask lines.
const MOST_ANSWERS: usize = 16;

/// The answers of authorities in their order: whether each was Yes. There are at most 16, which contracts see as a list.
/// It holds them in place.
#[derive(Drop)]
pub struct Given {
    items: ArrayVec<bool, MOST_ANSWERS>,
}

impl Model for Given {
    ghost use Rattle.std.specs.Prelude.{◌≤◌, Bool, List, length};

    ghost Value = { List Bool };

    ghost view = { λ g. g.items.items };

    ghost invariant = { λ g. length g.items.items ≤ 16 };
}

/// What is known of the answers that authorities gave to a check.
#[derive(Drop)]
pub enum Answers {
    /// These were given, and no others.
    Known(Given),
    /// Some were given, or none; which is not known.
    Unknown,
}

/// What was answered to a call.
#[derive(Clone, Copy, Debug, PartialEq, Eq)]
pub enum Recorded {
    /// No object has the name.
    NoObject,
    Told(Verdict),
    /// The authority of the ask line with this number, from 1, did not answer.
    Down { line: u64 },
}

/// A call and its answer, at a length of the journal. `docs/LOGIC.md`, "Right records", says when it is right.
#[derive(Drop)]
pub struct Record {
    /// How many entries the journal had.
    pub at: u64,
    /// The number of the principal that asked.
    pub principal: u32,
    pub op: Name,
    pub object: Name,
    pub answers: Answers,
    pub verdict: Recorded,
}

impl Given {
    /// No answers. It takes no memory.
    pub fn new() -> Given
        ensures { result ≡ [] }
    {
        Given {
            items: ArrayVec::new(),
        }
    }

    /// Adds an answer at the end. `Bound` exactly where there are 16 already. An `Err` changes nothing. It takes no memory.
    pub fn push(&mut self, answer: bool) -> Result<(), ListError>
        ensures ok { OnOk result (self.new ≡ self.old ++ answer ∷ []) }
        ensures bound { (result ≡ Err ListError.Bound) ↔ (16 ≤ length self.old) }
        ensures err { OnErr result (self.new ≡ self.old) }
        ensures memory { result ≢ Err ListError.Memory }
    {
        if self.items.len() >= MOST_ANSWERS {
            return Err(ListError::Bound);
        }
        self.items.push(answer);
        Ok(())
    }

    /// The answers as a slice.
    pub fn as_slice(&self) -> &[bool]
        ensures answers { result.now ≡ self.now }
        ensures bound { length result.now ≤ 16 }
    {
        self.items.as_slice()
    }
}

impl Answers {
    /// Whether they may be so many Yes.
    pub(crate) fn may_be_yes(&self, count: u64) -> bool
        ensures { IsTrue result ↔ MayBe self.now (replicate count true) }
    {
        match self {
            Answers::Known(given) => are_yes(given.as_slice(), count),
            Answers::Unknown => true,
        }
    }

    /// Whether they may be so many Yes, and then a No.
    pub(crate) fn may_be_refused(&self, count: u64) -> bool
        ensures { IsTrue result ↔ MayBe self.now (replicate count true ++ false ∷ []) }
    {
        match self {
            Answers::Known(given) => match given.as_slice().split_last() {
                Some((last, before)) => !*last && are_yes(before, count),
                None => false,
            },
            Answers::Unknown => true,
        }
    }
}

/// Whether the answers are so many Yes.
#[tactic(auto, using(crate::proofs::Counts::all_true, crate::proofs::Counts::replicate_true))]
fn are_yes(answers: &[bool], count: u64) -> bool
    ensures { IsTrue result ↔ (answers.now ≡ replicate count true) }
{
    answers.len() as u64 == count && are_all_yes(answers)
}

fn are_all_yes(answers: &[bool]) -> bool
    ensures { IsTrue result ↔ All (λ b. b ≡ true) answers.now }
{
    answers.iter().all(|answer| *answer)
}
