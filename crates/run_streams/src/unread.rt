ghost use Rattle.std.specs.Prelude.{◌≡◌};
ghost use Rattle.run_streams.specs.Inner.Unread.{wrong_by};

use crate::flaws::Flaw;
use crate::refusals::InputRefusal;
use std::alloc::AllocError;

/// Why there is no input to work on.
#[derive(Clone, Copy, Debug, PartialEq, Eq)]
pub enum Unread {
    /// The input is refused, and this is told of it.
    Refused(InputRefusal),
    /// The source failed.
    Failed,
    /// There was no memory for the input.
    Memory,
}

impl Unread {
    /// An input in which this line is the lowest that is wrong, and this is wrong with it, where there was memory to say what.
    pub fn wrong(line: u64, flaw: Result<Flaw, AllocError>) -> Unread
        ensures { result ≡ wrong_by line flaw }
    {
        match flaw {
            Ok(flaw) => Unread::Refused(InputRefusal::WrongLine { line, flaw }),
            Err(AllocError) => Unread::Memory,
        }
    }
}
