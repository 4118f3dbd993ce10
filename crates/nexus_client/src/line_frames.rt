//! The frame of a request's line.
ghost use Rattle.std.specs.Prelude.{◌≡◌, IfOk};
ghost use Rattle.session_wire.specs.declared.requests.Request.{Request};
ghost use Rattle.session_wire.specs.Frames.{request_frame};
ghost use Rattle.journal_text.specs.RequestLines.{IsRequestLine};
ghost use Rattle.nexus_client.specs.LineFrames.{IsFrameOfLine};

use journal_text::{LineError, read_request};
use nx_io::Bytes;
use session_wire::write_request;
use std::alloc::Global;

/// The frame of the request that a line without its line feed asks for. Ok exactly where the line is that of a request;
/// `Bad` exactly where it is that of none. `docs/FORMATS.md`, "Request lines" and "Frames", states both.
pub fn request_of_line(alloc: Global, line: &[u8]) -> Result<Bytes, LineError>
    ensures ok { IfOk result (IsFrameOfLine line.now) }
    ensures only { IfOk result
        (λ frame. (request : Request) → IsRequestLine line.now request → frame ≡ request_frame request) }
    ensures bad { result ≡ Err LineError.Bad → (request : Request) → ¬ IsRequestLine line.now request }
{
    let request = match read_request(alloc, line) {
        Ok(request) => request,
        Err(error) => return Err(error),
    };
    match write_request(alloc, &request) {
        Ok(frame) => Ok(frame),
        Err(_) => Err(LineError::Memory),
    }
}
