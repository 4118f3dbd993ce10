// The arguments of the program's call.
ghost use Rattle.std.specs.Prelude.{◌≡◌, ◌++◌, ◌∷◌, [], Bool, IfOk, IsTrue, List, MatchOption, OnErr, map, ℕ};
ghost use Rattle.std.specs.List.{All};
ghost use Rattle.std.specs.Str.{IsUtf8};
ghost use Rattle.nx_io.specs.Streams.{Grows, gained};
ghost use Rattle.nexus_run.specs.Arguments.{words_of_call};

use std::alloc::{AllocError, Global};
use std::env::FillError;
use std::marker::Model;
use std::rt::Env;
use std::snapshot::Snapshot;

/// Where the arguments of a call come from, the program's name first.
pub trait Arguments {
    /// The arguments that were told, in order.
    ghost told: { Self → List (List ℕ) };

    /// Whether it was answered that no more are there.
    ghost over: { Self → Bool };

    /// The next argument, or None where no more is there. An `Err` is want of memory.
    fn next(&mut self, alloc: Global) -> Result<Option<Vec<u8>>, AllocError>
        ensures told { IfOk result (λ next. MatchOption next
            ((told self.new ≡ told self.old) × IsTrue (over self.new))
            (λ argument. told self.new ≡ told self.old ++ argument.items ∷ [])) }
        ensures err { OnErr result (told self.new ≡ told self.old) };
}

/// A list of arguments that only contracts read. It takes no memory.
#[derive(Drop)]
pub enum ArgumentHistory {
    /// No argument.
    Start,
    /// One argument more.
    Then {
        before: Snapshot<ArgumentHistory>,
        argument: Snapshot<Vec<u8>>,
    },
}

/// The arguments that the system gave the program.
#[derive(Drop)]
pub struct SystemArguments<'a, R: Env> {
    rt: &'a R,
    number: usize,
    told: ArgumentHistory,
    over: bool,
}

impl<'a, R: Env> SystemArguments<'a, R> {
    /// All arguments, of which none was told yet.
    pub fn new(rt: &'a R) -> SystemArguments<'a, R> {
        SystemArguments {
            rt,
            number: 0,
            told: ArgumentHistory::Start,
            over: false,
        }
    }
}

impl<'a, R: Env> Arguments for SystemArguments<'a, R> {
    ghost use Rattle.nexus_run.specs.Arguments.{arguments_of};

    ghost told = { λ a. arguments_of a.told };

    ghost over = { λ a. a.over };

    fn next(&mut self, alloc: Global) -> Result<Option<Vec<u8>>, AllocError> {
        match system_argument(self.rt, alloc, self.number)? {
            Some(argument) => {
                self.number = self.number.saturating_add(1);
                self.told = ArgumentHistory::Then {
                    before: Snapshot::of(&self.told),
                    argument: Snapshot::of(&argument),
                };
                Ok(Some(argument))
            }
            None => {
                self.over = true;
                Ok(None)
            }
        }
    }
}

/// The argument with this number, by a buffer that doubles until it is large enough. None where there is none.
fn system_argument<R: Env>(
    rt: &R,
    alloc: Global,
    number: usize,
) -> Result<Option<Vec<u8>>, AllocError> {
    let mut buffer = Vec::new(alloc);
    for bits in 8..usize::BITS {
        buffer.resize(1usize << bits, 0u8)?;
        match rt.arg(number, buffer.as_mut_slice()) {
            Ok(length) => {
                buffer.truncate(length);
                return Ok(Some(buffer));
            }
            Err(FillError::TooLong) => {}
            Err(FillError::NotPresent) => return Ok(None),
        }
    }
    Err(AllocError)
}

/// All words of the call: the arguments after the program's name, whatever bytes that name has.
pub fn words_of_call<A: Arguments>(
    alloc: Global,
    arguments: &mut A,
) -> Result<Vec<Vec<u8>>, AllocError>
    ensures grows { Grows (A.told arguments.old) (A.told arguments.new) }
    ensures words { IfOk result (λ words. map (λ w. w.items) words.items
        ≡ words_of_call (gained (A.told arguments.old) (A.told arguments.new))) }
    ensures all { IfOk result (λ words. IsTrue (A.over arguments.new)) }
{
    match arguments.next(alloc)? {
        Some(_name) => further_arguments(alloc, arguments),
        None => Ok(Vec::new(alloc)),
    }
}

/// All arguments that were not told yet.
fn further_arguments<A: Arguments>(
    alloc: Global,
    arguments: &mut A,
) -> Result<Vec<Vec<u8>>, AllocError>
    ensures grows { Grows (A.told arguments.old) (A.told arguments.new) }
    ensures words { IfOk result (λ words. map (λ w. w.items) words.items
        ≡ gained (A.told arguments.old) (A.told arguments.new)) }
    ensures all { IfOk result (λ words. IsTrue (A.over arguments.new)) }
{
    let mut words = Vec::new(alloc);
    for _ in 0..u64::MAX {
        match arguments.next(alloc)? {
            Some(word) => words.push(word)?,
            None => return Ok(words),
        }
    }
    Err(AllocError)
}

/// The words as texts. None exactly where one of them is not UTF-8.
pub fn texts<'a>(alloc: Global, words: &'a [Vec<u8>]) -> Result<Option<Vec<&'a str>>, AllocError>
    ensures { IfOk result (λ texts. MatchOption texts
        (¬ All IsUtf8 (map (λ w. w.items) words.entry.now))
        (λ texts. map (λ t. t.now) texts.items ≡ map (λ w. w.items) words.entry.now)) }
{
    let mut texts = Vec::new(alloc);
    for word in words {
        match str::from_utf8(word.as_slice()) {
            Ok(text) => texts.push(text)?,
            Err(_) => return Ok(None),
        }
    }
    Ok(Some(texts))
}
