//! Writing what a run comes to.
ghost use Rattle.std.specs.Prelude.{◌≡◌, ◌≢◌, ◌⊎◌, None, Some};
ghost use Rattle.run_streams.specs.Refusals.{refusal_text};
ghost use Rattle.run_streams.specs.Telling.{Tells};

use crate::refusals::InputRefusal;
use nx_io::{Reach, Sink, send_all};
use std::alloc::Global;

/// How a run ended that reads its input.
#[derive(Clone, Copy, Debug, PartialEq, Eq)]
pub struct InputEnd {
    pub status: u8,
    /// Why the input was refused, with status 3.
    pub refusal: Option<InputRefusal>,
}

impl InputEnd {
    /// An end at which no refusal was written.
    pub fn of(status: u8) -> InputEnd
        ensures { result ≡ record { status = status; refusal = None } }
    {
        InputEnd {
            status,
            refusal: None,
        }
    }
}

/// Writes the line of a refusal. The status is 3, and the refusal is handed on; or it is 5 where the sink failed, or 6 where there was no
/// memory for the line.
pub fn tell_refusal<K: Sink>(alloc: Global, output: &mut K, refusal: InputRefusal) -> InputEnd
    ensures untouched { (result.status ≡ 4) ⊎ (result.status ≡ 6) → output.new ≡ output.old }
    ensures told { Tells (refusal_text refusal) 3 (K.sent output.old) (K.sent output.new) (K.faults output.old)
        (K.faults output.new) result.status }
    ensures handed { result.status ≡ 3 → result.refusal ≡ Some refusal }
    ensures kept { result.status ≢ 3 → result.refusal ≡ None }
{
    let Ok(text) = refusal.output(alloc) else {
        return InputEnd::of(6);
    };
    match tell_text(output, text.as_bytes(), 3) {
        3 => InputEnd {
            status: 3,
            refusal: Some(refusal),
        },
        status => InputEnd::of(status),
    }
}

/// Writes a text that ends a run with this status, which is then the result. It is 5 where the sink failed.
pub fn tell_text<K: Sink>(output: &mut K, text: &[u8], status: u8) -> u8
    requires other { (status ≢ 4) × (status ≢ 6) }
    ensures untouched { (result ≢ 4) × (result ≢ 6) }
    ensures told { Tells text.now status (K.sent output.old) (K.sent output.new) (K.faults output.old)
        (K.faults output.new) result }
{
    match send_all(output, text) {
        Reach::Ready => status,
        Reach::Failed => 5,
    }
}
