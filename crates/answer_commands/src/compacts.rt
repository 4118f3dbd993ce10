//! A run of `compact`.
ghost use Rattle.std.specs.Prelude.{◌≡◌, ◌≢◌, ◌⊎◌, IfErr, IfOk};
ghost use Rattle.nx_io.specs.Streams.{Grows};
ghost use Rattle.nx_io.specs.Views.{HasGiven};
ghost use Rattle.run_streams.specs.Runs.{sink_run, source_run};
ghost use Rattle.run_streams.specs.Ends.{HandsOn, IsAnswerOf, RunsAnswer};
ghost use Rattle.answer_commands.specs.Compacts.{RunsCompact, compact_command};

use crate::answering::{read_answer, tell_answer};
use nx_io::{Reach, Sink, Source, send_all};
use policy_compaction::Compacted;
use run_streams::{InputEnd, Unread, tell_refusal};
use std::alloc::Global;

/// Reads a policy, writes the policy of its entries that still matter to the output, and then the old and the new numbers of its labels
/// to the records.
pub fn compact<S: Source, K: Sink, C: Sink>(
    alloc: Global,
    input: &mut S,
    output: &mut K,
    records: &mut C,
) -> InputEnd
    ensures gave { HasGiven S.Source input.old input.new }
    ensures sent { Grows (K.sent output.old) (K.sent output.new) }
    ensures recorded { Grows (C.sent records.old) (C.sent records.new) }
    ensures untouched { (result.status ≡ 4) ⊎ (result.status ≡ 6)
        → (output.new ≡ output.old) × (records.new ≡ records.old) }
    ensures runs { RunsCompact
        (source_run S.Source input.old input.new)
        (sink_run K.Sink output.old output.new)
        (sink_run C.Sink records.old records.new)
        result.status }
    ensures handed { HandsOn compact_command.form
        (source_run S.Source input.old input.new)
        (sink_run K.Sink output.old output.new)
        result.status result.refusal }
{
    match compact_text(alloc, input, output) {
        Ok(compacted) => match send_all(records, compacted.numbers.as_slice()) {
            Reach::Ready => InputEnd::of(0),
            Reach::Failed => InputEnd::of(5),
        },
        Err(end) => end,
    }
}

/// Reads a policy and writes the text of what is left of it. An `Err` has the end of the run where that came to nothing.
fn compact_text<S: Source, K: Sink>(
    alloc: Global,
    input: &mut S,
    output: &mut K,
) -> Result<Compacted, InputEnd>
    ensures gave { HasGiven S.Source input.old input.new }
    ensures sent { Grows (K.sent output.old) (K.sent output.new) }
    ensures untouched { IfErr result (λ end. (end.status ≡ 4) ⊎ (end.status ≡ 6) → output.new ≡ output.old) }
    ensures answer { IfOk result (IsAnswerOf compact_command
        (source_run S.Source input.old input.new)) }
    ensures ok { IfOk result (λ compacted. RunsAnswer compact_command
        (source_run S.Source input.old input.new)
        (sink_run K.Sink output.old output.new)
        0) }
    ensures err { IfErr result (λ end. (end.status ≢ 0) × RunsAnswer compact_command
        (source_run S.Source input.old input.new)
        (sink_run K.Sink output.old output.new)
        end.status) }
    ensures handed { IfErr result (λ end. HandsOn compact_command.form
        (source_run S.Source input.old input.new)
        (sink_run K.Sink output.old output.new)
        end.status end.refusal) }
{
    match read_answer::<Compacted, S>(alloc, &(), input) {
        Ok(compacted) => {
            let status = tell_answer(alloc, output, &compacted);
            if status == 0 {
                Ok(compacted)
            } else {
                Err(InputEnd::of(status))
            }
        }
        Err(Unread::Refused(refusal)) => Err(tell_refusal(alloc, output, refusal)),
        Err(Unread::Failed) => Err(InputEnd::of(4)),
        Err(Unread::Memory) => Err(InputEnd::of(6)),
    }
}
