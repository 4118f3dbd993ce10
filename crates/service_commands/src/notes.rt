//! What is told beside a refusal.
ghost use Rattle.service_commands.specs.Notes.{IsNoted};

use nx_io::Sink;
use run_streams::{InputRefusal, tell_note};

/// The sink for records, where it was told what is wrong with an input that was refused.
pub(crate) fn noted<C: Sink + Drop>(refusal: Option<InputRefusal>, records: Option<C>) -> Option<C>
    ensures { IsNoted C.Sink refusal records result }
{
    let Some(refusal) = refusal else {
        return records;
    };
    let Some(records) = records else {
        return None;
    };
    let mut records = records;
    tell_note(&mut records, refusal);
    Some(records)
}
