//! The requests that an input asks for, line by line.
ghost use Rattle.std.specs.Prelude.{◌≡◌, ◌≢◌, ◌<◌, ◌^◌, ◌++◌, ◌∷◌, [], IfErr, IfOk, List, OnErr, OnOk, length, ℕ};
ghost use Rattle.nexus_client.specs.LineFrames.{AreFramesOfLines};
ghost use Rattle.nexus_client.specs.Inner.Reading.{IsWrongInput};

use crate::line_frames::request_of_line;
use form_lines as line;
use form_lines::{FormError, Progress, read_lines};
use journal_text::LineError;
use nx_io::Bytes;
use std::alloc::{AllocError, Global};
use std::marker::Model;

/// Requests in their order, each as its frame. Contracts see the list of the frames.
#[derive(Drop)]
pub struct Requests {
    frames: Vec<Bytes>,
}

impl Model for Requests {
    ghost use Rattle.std.specs.Prelude.{List, ℕ};

    ghost Value = { List (List ℕ) };

    ghost view = { λ r. r.frames.items };
}

impl Requests {
    /// No request. It takes no memory.
    pub fn new(alloc: Global) -> Requests
        ensures { result ≡ [] }
    {
        Requests {
            frames: Vec::new(alloc),
        }
    }

    /// Adds the frame of a request at the end. An `Err` is want of memory, and changes nothing.
    pub fn push(&mut self, frame: Bytes) -> Result<(), AllocError>
        ensures ok { OnOk result (self.new ≡ self.old ++ frame ∷ []) }
        ensures err { OnErr result (self.new ≡ self.old) }
    {
        match self.frames.push(frame) {
            Ok(()) => Ok(()),
            Err(_) => Err(AllocError),
        }
    }

    /// The frames as a slice.
    pub fn as_slice(&self) -> &[Bytes]
        ensures { result.now ≡ self.now }
    {
        self.frames.as_slice()
    }
}

/// Why an input was not read.
#[derive(Clone, Copy, Debug, PartialEq, Eq)]
pub enum RequestsError {
    /// The lowest line that is that of no request, counted from 1.
    Wrong { line: u64 },
    /// There was no memory for the requests.
    Memory,
}

impl Progress for Requests {
    ghost use Rattle.std.specs.Prelude.{List, ℕ};
    ghost use Rattle.nexus_client.specs.LineFrames.{Follows, MayEnd};

    ghost Stage = { List (List ℕ) };

    ghost stage = { λ requests. requests };

    ghost follows = { Follows };

    ghost is_end = { MayEnd };

    fn after(self, alloc: Global, line: &[u8]) -> Result<Requests, line::LineError> {
        let mut requests = self;
        let frame = match request_of_line(alloc, line) {
            Ok(frame) => frame,
            Err(LineError::Bad) => return Err(line::LineError::Wrong),
            Err(LineError::Memory) => return Err(line::LineError::Memory),
        };
        match requests.push(frame) {
            Ok(()) => Ok(requests),
            Err(_) => Err(line::LineError::Memory),
        }
    }

    fn is_ended(&self) -> bool {
        true
    }
}

/// Reads the lines of requests to the end of the text; the last one may lack its line feed, and a text without lines asks for
/// nothing. Ok exactly where each line is that of a request, with their frames in order; `Wrong` exactly where one is not.
/// `docs/FORMATS.md`, "Request lines", states the lines.
pub fn read_requests(alloc: Global, text: &[u8]) -> Result<Requests, RequestsError>
    requires { length text.now < 2 ^ 63 }
    ensures ok { IfOk result (AreFramesOfLines text.now) }
    ensures only { IfOk result
        (λ requests. (others : List (List ℕ)) → AreFramesOfLines text.now others → others ≡ requests) }
    ensures wrong { IfErr result (IsWrongInput text.now) }
    ensures refused { IfErr result
        (λ e. e ≢ RequestsError.Memory → (others : List (List ℕ)) → ¬ AreFramesOfLines text.now others) }
{
    match read_lines(alloc, Requests::new(alloc), text) {
        Ok(requests) => Ok(requests),
        Err(FormError::Wrong { line }) => Err(RequestsError::Wrong { line }),
        Err(FormError::Memory) => Err(RequestsError::Memory),
    }
}
