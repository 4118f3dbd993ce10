//! Reading the input of `script`.
ghost use Rattle.std.specs.Prelude.{◌≡◌, ◌≢◌, ◌<◌, ◌≤◌, ◌+◌, ◌^◌, List, IfErr, IfOk, length};
ghost use Rattle.journal_text.specs.PolicyText.{most_bytes};
ghost use Rattle.session_core.specs.declared.lines.Asking.{Asking};
ghost use Rattle.policy_script.specs.ScriptForm.{AreAskings, IsAskingLine, IsScript, ScriptTree};
ghost use Rattle.policy_script.specs.Inner.Reading.{IsWrongAfter, IsWrongInput, script_tree};

use form_lines as line;
use form_lines::{FormError, Progress, read_lines};
use journal_text::{LineError, PolicyError, PolicyFront, read_front, read_request, split_word};
use policy_history::Journal;
use session_core::Asking;
use std::alloc::Global;
use text_lines::read_number;

/// The greatest number that a session of the policy's entries may have, so that the number after those of 64 more is below the
/// greatest.
const MOST_SESSION: u64 = u64::MAX - 65;

/// How many sessions there are.
const SESSIONS: u64 = 64;

/// What an input of `script` holds: a policy, and requests in their order.
#[derive(Drop)]
pub struct Script {
    pub journal: Journal,
    pub askings: Vec<Asking>,
}

/// The requests of the lines that were read, in their order.
#[derive(Drop)]
pub struct Askings {
    pub list: Vec<Asking>,
}

/// Why an input was not read.
#[derive(Clone, Copy, Debug, PartialEq, Eq)]
pub enum ScriptError {
    /// The lowest line that is wrong, or the number after the last where the policy is not ended.
    Wrong { line: u64 },
    /// There was no memory for what it holds.
    Memory,
}

/// Reads an input of `script`, which has at most 67,108,864 bytes. `Wrong` exactly where the text has not its form.
/// `docs/FORMATS.md`, "The input of `script`", states the form.
pub fn read_script(alloc: Global, text: &[u8]) -> Result<Script, ScriptError>
    requires { length text.now ≤ most_bytes }
    ensures ok { IfOk result (λ script. IsScript text.now (script_tree script)) }
    ensures only { IfOk result (λ script. (other : ScriptTree) → IsScript text.now other → other ≡ script_tree script) }
    ensures wrong { IfErr result (IsWrongInput text.now) }
    ensures refused { IfErr result (λ e. e ≢ ScriptError.Memory → (other : ScriptTree) → ¬ IsScript text.now other) }
{
    let (journal, rest, lines) = match read_front(alloc, text, MOST_SESSION) {
        Ok(
            PolicyFront {
                journal,
                rest,
                lines,
            },
        ) => (journal, rest, lines),
        Err(PolicyError::Bad { line }) => return Err(ScriptError::Wrong { line }),
        Err(PolicyError::Refused { line, .. }) => return Err(ScriptError::Wrong { line }),
        Err(PolicyError::TooLong) => unreachable!(),
        Err(PolicyError::Memory) => return Err(ScriptError::Memory),
    };
    match read_askings(alloc, rest, lines) {
        Ok(askings) => Ok(Script { journal, askings }),
        Err(error) => {
            drop(journal);
            Err(error)
        }
    }
}

/// Reads the lines of requests to the end of the text. So many lines stand before them.
fn read_askings(alloc: Global, text: &[u8], before: u64) -> Result<Vec<Asking>, ScriptError>
    requires { before + length text.now < 2 ^ 63 }
    ensures ok { IfOk result (λ askings. AreAskings text.now askings.items) }
    ensures only { IfOk result
        (λ askings. (others : List Asking) → AreAskings text.now others → others ≡ askings.items) }
    ensures wrong { IfErr result (IsWrongAfter before text.now) }
    ensures refused { IfErr result
        (λ e. e ≢ ScriptError.Memory → (others : List Asking) → ¬ AreAskings text.now others) }
{
    let first = Askings {
        list: Vec::new(alloc),
    };
    match read_lines(alloc, first, text) {
        Ok(last) => Ok(last.list),
        Err(FormError::Wrong { line }) => Err(ScriptError::Wrong {
            line: before + line,
        }),
        Err(FormError::Memory) => Err(ScriptError::Memory),
    }
}

impl Progress for Askings {
    ghost use Rattle.std.specs.Prelude.{List};
    ghost use Rattle.session_core.specs.declared.lines.Asking.{Asking};
    ghost use Rattle.policy_script.specs.Inner.Reading.{Follows, MayEnd};

    ghost Stage = { List Asking };

    ghost stage = { λ askings. askings.list.items };

    ghost follows = { Follows };

    ghost is_end = { MayEnd };

    fn after(self, alloc: Global, line: &[u8]) -> Result<Askings, line::LineError> {
        let mut list = self.list;
        let asking = match read_asking(alloc, line) {
            Ok(asking) => asking,
            Err(LineError::Bad) => return Err(line::LineError::Wrong),
            Err(LineError::Memory) => return Err(line::LineError::Memory),
        };
        match list.push(asking) {
            Ok(()) => Ok(Askings { list }),
            Err(_) => Err(line::LineError::Memory),
        }
    }

    fn is_ended(&self) -> bool {
        true
    }
}

/// Reads the line of a request. `Bad` exactly where it is none.
fn read_asking(alloc: Global, line: &[u8]) -> Result<Asking, LineError>
    ensures ok { IfOk result (IsAskingLine line.now) }
    ensures only { IfOk result (λ asking. (other : Asking) → IsAskingLine line.now other → other ≡ asking) }
    ensures bad { IfErr result (λ e. e ≢ LineError.Memory → (other : Asking) → ¬ IsAskingLine line.now other) }
{
    let Some((word, text)) = split_word(line) else {
        return Err(LineError::Bad);
    };
    let Some(number) = read_number(word) else {
        return Err(LineError::Bad);
    };
    if number == 0 || number > SESSIONS {
        return Err(LineError::Bad);
    }
    match read_request(alloc, text) {
        Ok(request) => Ok(Asking {
            place: number - 1,
            request,
        }),
        Err(LineError::Bad) => Err(LineError::Bad),
        Err(LineError::Memory) => Err(LineError::Memory),
    }
}
