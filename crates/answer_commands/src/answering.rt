//! A run that reads its whole input and writes one answer.
ghost use Rattle.std.specs.Prelude.{◌≡◌, ◌≢◌, ◌⊎◌, IfErr, IfOk};
ghost use Rattle.nx_io.specs.Streams.{Grows};
ghost use Rattle.nx_io.specs.Views.{HasGiven};
ghost use Rattle.run_streams.specs.Runs.{sink_run, source_run};
ghost use Rattle.run_streams.specs.Ends.{HandsOn, IsAnswerOf, RunsAnswer, answering};
ghost use Rattle.run_streams.specs.Refusals.{form_of};
ghost use Rattle.run_streams.specs.Telling.{Tells};
ghost use Rattle.run_streams.specs.Inner.Unread.{IsUnread, faults_after_input};

use nx_io::{Bytes, Sink, Source};
use run_streams::{
    Flaw, InputEnd, InputRefusal, ReadError, Unread, read_whole, tell_refusal, tell_text,
};
use std::alloc::{AllocError, Global};

/// Why a text has no answer.
#[derive(Clone, Copy, Debug, PartialEq, Eq)]
pub enum AnswerError {
    /// The lowest line that is wrong, or the number after the last where the text ends too early, and what is wrong with it.
    Wrong { line: u64, flaw: Flaw },
    /// There was no memory for what it holds, or for what is wrong with it.
    Memory,
}

impl AnswerError {
    ghost use Rattle.answer_commands.specs.Inner.Wrongs.{wrong_by};

    /// The error of a text in which this line is wrong, where there was memory to say what is wrong with it.
    pub(crate) fn by(line: u64, flaw: Result<Flaw, AllocError>) -> AnswerError
        ensures { result ≡ wrong_by line flaw }
    {
        match flaw {
            Ok(flaw) => AnswerError::Wrong { line, flaw },
            Err(AllocError) => AnswerError::Memory,
        }
    }
}

/// The answer of a command to the text of its input.
pub trait Answer: Sized {
    ghost use Rattle.std.specs.Prelude.{◌≡◌, ◌⊎◌, ◌≤◌, ℕ, List, IfErr, IfOk, length};
    ghost use Rattle.run_streams.specs.Flaws.{FlawTree};
    ghost use Rattle.run_streams.specs.Runs.{most_bytes};
    ghost use Rattle.run_streams.specs.Refusals.{form_of};
    ghost use Rattle.answer_commands.specs.Answers.{IsAnswerError};

    /// What a call asks beside its input: nothing, for most commands.
    type About;

    /// Which texts have the form.
    ghost formed: { List ℕ → Type 0 };

    /// Which answer a text has.
    ghost told: { Self.About → List ℕ → Self → Type 0 };

    /// Which line of a text is the lowest that is wrong, and what is wrong with it.
    ghost wrong: { List ℕ → ℕ → FlawTree → Type 0 };

    /// What is written of an answer.
    ghost written: { Self → List ℕ };

    /// The status that an answer has: 0 or 1.
    ghost ends: { Self → ℕ };

    /// The answer to a text. `Wrong` exactly where it has not the form.
    fn of(alloc: Global, about: &Self::About, text: &[u8]) -> Result<Self, AnswerError>
        requires { length text.now ≤ most_bytes }
        ensures formed { IfOk result (λ answer. formed text.now) }
        ensures told { IfOk result (λ answer. told about.now text.now answer) }
        ensures wrong { IfErr result (IsAnswerError (form_of formed wrong) text.now) };

    /// What is written of the answer. An `Err` is want of memory.
    fn output(&self, alloc: Global) -> Result<Bytes, AllocError>
        ensures { IfOk result (λ output. output ≡ written self.now) };

    /// The status with which the program ends once the answer is written.
    fn status(&self) -> u8
        ensures value { result ≡ ends self.now }
        ensures few { (ends self.now ≡ 0) ⊎ (ends self.now ≡ 1) };
}

/// Reads the whole input, and writes the answer to it. Where the input is refused, and the line of that was written, the refusal is handed
/// on.
pub fn answer_input<A: Answer + Drop, S: Source, K: Sink>(
    alloc: Global,
    about: &A::About,
    input: &mut S,
    output: &mut K,
) -> InputEnd
    ensures gave { HasGiven S.Source input.old input.new }
    ensures sent { Grows (K.sent output.old) (K.sent output.new) }
    ensures untouched { (result.status ≡ 4) ⊎ (result.status ≡ 6) → output.new ≡ output.old }
    ensures runs { RunsAnswer (answering (form_of A.formed A.wrong) (A.told about.now) A.written A.ends)
        (source_run S.Source input.old input.new)
        (sink_run K.Sink output.old output.new)
        result.status }
    ensures handed { HandsOn (form_of A.formed A.wrong)
        (source_run S.Source input.old input.new)
        (sink_run K.Sink output.old output.new)
        result.status result.refusal }
{
    match read_answer::<A, S>(alloc, about, input) {
        Ok(answer) => InputEnd::of(tell_answer(alloc, output, &answer)),
        Err(Unread::Refused(refusal)) => tell_refusal(alloc, output, refusal),
        Err(Unread::Failed) => InputEnd::of(4),
        Err(Unread::Memory) => InputEnd::of(6),
    }
}

/// Reads the input, and answers it.
pub fn read_answer<A: Answer + Drop, S: Source>(
    alloc: Global,
    about: &A::About,
    input: &mut S,
) -> Result<A, Unread>
    ensures gave { HasGiven S.Source input.old input.new }
    ensures ok { IfOk result (IsAnswerOf (answering (form_of A.formed A.wrong) (A.told about.now) A.written A.ends)
        (source_run S.Source input.old input.new)) }
    ensures err { IfErr result (IsUnread (form_of A.formed A.wrong)
        (source_run S.Source input.old input.new)) }
    ensures count { S.faults input.new ≡ faults_after_input result (S.faults input.old) }
{
    match read_whole(alloc, input) {
        Ok(text) => match A::of(alloc, about, text.as_slice()) {
            Ok(answer) => Ok(answer),
            Err(AnswerError::Wrong { line, flaw }) => {
                Err(Unread::Refused(InputRefusal::WrongLine { line, flaw }))
            }
            Err(AnswerError::Memory) => Err(Unread::Memory),
        },
        Err(ReadError::TooLarge) => Err(Unread::Refused(InputRefusal::TooLarge)),
        Err(ReadError::Failed) => Err(Unread::Failed),
        Err(ReadError::Memory) => Err(Unread::Memory),
    }
}

/// Writes the answer.
#[tactic(auto, using(crate::proofs::Statuses::small_status, crate::proofs::Statuses::not_three))]
pub fn tell_answer<A: Answer, K: Sink>(alloc: Global, output: &mut K, answer: &A) -> u8
    ensures untouched { (result ≡ 4) ⊎ (result ≡ 6) → output.new ≡ output.old }
    ensures few { result ≢ 3 }
    ensures told { Tells (A.written answer.now) (A.ends answer.now) (K.sent output.old) (K.sent output.new)
        (K.faults output.old) (K.faults output.new) result }
{
    let status = answer.status();
    match answer.output(alloc) {
        Ok(text) => tell_text(output, text.as_slice(), status),
        Err(_) => 6,
    }
}
