//! A run of `export`.
ghost use Rattle.std.specs.Prelude.{◌≡◌, ◌⊎◌};
ghost use Rattle.nal_term.specs.Names.{IsName};
ghost use Rattle.nx_io.specs.Streams.{Grows};
ghost use Rattle.nx_io.specs.Views.{HasGiven};
ghost use Rattle.run_streams.specs.Runs.{sink_run, source_run};
ghost use Rattle.run_streams.specs.Ends.{HandsOn};
ghost use Rattle.answer_commands.specs.Exports.{RunsExport, export_command};

use crate::answering::answer_input;
use crate::answers::Exported;
use nal_term::Name;
use nx_io::{Sink, Source};
use run_streams::InputEnd;
use std::alloc::Global;

/// Reads a policy, and writes the bundle of the labels that the principal of this name holds, or that there is no such principal.
pub fn export<S: Source, K: Sink>(
    alloc: Global,
    name: &[u8],
    input: &mut S,
    output: &mut K,
) -> InputEnd
    requires { IsName name.now }
    ensures gave { HasGiven S.Source input.old input.new }
    ensures sent { Grows (K.sent output.old) (K.sent output.new) }
    ensures untouched { (result.status ≡ 4) ⊎ (result.status ≡ 6) → output.new ≡ output.old }
    ensures runs { RunsExport name.now
        (source_run S.Source input.old input.new)
        (sink_run K.Sink output.old output.new)
        result.status }
    ensures handed { HandsOn (export_command name.now).form
        (source_run S.Source input.old input.new)
        (sink_run K.Sink output.old output.new)
        result.status result.refusal }
{
    match Name::of(alloc, name) {
        Ok(name) => answer_input::<Exported, S, K>(alloc, &name, input, output),
        Err(_) => InputEnd::of(6),
    }
}
