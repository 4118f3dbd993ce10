//! What is told beside a refusal.
ghost use Rattle.std.specs.Prelude.{◌≡◌, ◌≤◌, ◌+◌, ◌++◌, length};
ghost use Rattle.nx_io.specs.Streams.{SendsAll, faults_after_reach};
ghost use Rattle.run_streams.specs.Flaws.{flaw_place, flaw_text, flaw_tree};
ghost use Rattle.run_streams.specs.Refusals.{note_text};

use crate::flaws::Flaw;
use crate::refusals::InputRefusal;
use arrayvec::ArrayVec;
use itoa::Buffer;
use nx_io::{Reach, Sink, send_all};

// The greatest line and the greatest byte have 20 digits each.
const LONGEST_PLACE: usize = 54;

/// Tells a sink in one line what is wrong with an input that was refused. `Failed` exactly where the sink failed in this call. It takes no
/// memory. `docs/FORMATS.md`, "What is wrong with an input", states the line.
pub fn tell_note<K: Sink>(sink: &mut K, refusal: InputRefusal) -> Reach
    ensures bytes { SendsAll result (K.sent sink.old) (K.sent sink.new) (note_text refusal) }
    ensures synced { K.synced sink.new ≡ K.synced sink.old }
    ensures count { K.faults sink.new ≡ faults_after_reach result (K.faults sink.old) }
{
    match refusal {
        InputRefusal::WrongLine { line, flaw } => tell_flaw(sink, line, flaw),
        InputRefusal::TooLarge => send_all(sink, b"byte 67108865: TooLarge\n"),
    }
}

/// Tells a sink the flaw of the line with this number.
fn tell_flaw<K: Sink>(sink: &mut K, number: u64, flaw: Flaw) -> Reach
    ensures bytes { SendsAll result (K.sent sink.old) (K.sent sink.new) (flaw_text number (flaw_tree flaw)) }
    ensures synced { K.synced sink.new ≡ K.synced sink.old }
    ensures count { K.faults sink.new ≡ faults_after_reach result (K.faults sink.old) }
{
    let place = place(number, flaw.byte);
    match send_both(sink, place.as_slice(), flaw.name.as_bytes()) {
        Reach::Ready => send_all(sink, b"\n"),
        Reach::Failed => Reach::Failed,
    }
}

/// Sends two pieces, one behind the other.
fn send_both<K: Sink>(sink: &mut K, first: &[u8], second: &[u8]) -> Reach
    ensures bytes { SendsAll result (K.sent sink.old) (K.sent sink.new) (first.now ++ second.now) }
    ensures synced { K.synced sink.new ≡ K.synced sink.old }
    ensures count { K.faults sink.new ≡ faults_after_reach result (K.faults sink.old) }
{
    match send_all(sink, first) {
        Reach::Ready => send_all(sink, second),
        Reach::Failed => Reach::Failed,
    }
}

/// Where a flaw stands: the front of its line.
fn place(number: u64, byte: u64) -> ArrayVec<u8, LONGEST_PLACE>
    ensures { result.items ≡ flaw_place number byte }
{
    let mut digits = Buffer::new();
    let mut place = ArrayVec::new();
    append(&mut place, b"line ");
    append(&mut place, digits.format(number).as_bytes());
    append(&mut place, b", byte ");
    append(&mut place, digits.format(byte).as_bytes());
    append(&mut place, b": ");
    place
}

/// Appends bytes for which there is room.
fn append(place: &mut ArrayVec<u8, LONGEST_PLACE>, bytes: &[u8])
    requires room { length place.old.items + length bytes.now ≤ 54 }
    ensures text { place.new.items ≡ place.old.items ++ bytes.now }
    ensures long { length place.new.items ≡ length place.old.items + length bytes.now }
{
    match place.try_extend_from_slice(bytes) {
        Ok(()) => {}
        Err(_) => unreachable!(),
    }
}
