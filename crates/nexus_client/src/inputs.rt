//! The inputs of a talk.
ghost use Rattle.std.specs.Prelude.{◌≢◌, ◌≤◌, IfErr, IfOk, List, length, ℕ};
ghost use Rattle.run_streams.specs.Runs.{most_bytes};
ghost use Rattle.nexus_client.specs.TalkInputs.{AreFramesOf};
ghost use Rattle.nexus_client.specs.Inner.Reading.{IsWrongInputOf};

use crate::imports::read_import;
use crate::requests::{Requests, RequestsError, read_requests};
use std::alloc::Global;

/// What an input of a talk is.
#[derive(Clone, Copy, Debug, PartialEq, Eq)]
pub enum TalkInput {
    /// Lines of requests.
    RequestLines,
    /// A peer, and a bundle of the labels that it says.
    PeerBundle,
}

/// Reads an input of a talk, which has at most 67,108,864 bytes. Ok exactly where it has its form, with the frames of the requests that it
/// asks for; `Wrong` exactly where it has not, with the lowest line that is wrong. `docs/FORMATS.md`, "Request lines" and "The input of
/// `import`", states the forms.
pub fn read_input(alloc: Global, input: TalkInput, text: &[u8]) -> Result<Requests, RequestsError>
    requires { length text.now ≤ most_bytes }
    ensures ok { IfOk result (AreFramesOf input text.now) }
    ensures wrong { IfErr result (IsWrongInputOf input text.now) }
    ensures refused { IfErr result (λ e. e ≢ RequestsError.Memory →
        (frames : List (List ℕ)) → ¬ AreFramesOf input text.now frames) }
{
    match input {
        TalkInput::RequestLines => read_requests(alloc, text),
        TalkInput::PeerBundle => read_import(alloc, text),
    }
}
