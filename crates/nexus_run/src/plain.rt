//! The commands that are neither a service nor a talk.
ghost use Rattle.std.specs.Prelude.{◌≡◌, ◌≢◌, ◌⊎◌, ℕ, None, length};
ghost use Rattle.nx_io.specs.Streams.{Grows};
ghost use Rattle.nx_io.specs.Views.{HasGiven};
ghost use Rattle.run_streams.specs.Runs.{sink_run, source_run};
ghost use Rattle.nexus_run.specs.Commanded.{RunsCommand};
ghost use Rattle.nexus_run.specs.Lasting.{EndsLasting};
ghost use Rattle.nexus_run.specs.Commands.{IsWithin};
ghost use Rattle.nexus_run.specs.Notes.{HandsOnOf};
ghost use Rattle.script_command.specs.Scripts.{HasMore, panel_run};

use crate::commands::Command;
use crate::load::{drill, load};
use answer_commands::{Found, Recovered, answer_input, compact, export};
use audit_form::Told;
use authority_ask::Panel;
use explain_form::ExplanationText;
use nal_rules::Verdict;
use nx_io::{Reach, Sink, Source};
use run_streams::InputEnd;
use script_command::{PlainEnd, script};
use std::alloc::Global;
use std::net::{Net, TcpListener, TcpStream};
use std::rt::Clock;
use std::sync::Wait;
use std::thread::Threads;
use trust_check::Trust;

/// Runs a command that is neither a service nor a talk: `check` reads one input from the source and writes its
/// outcome to the sink; `script` reads a policy and the requests of sessions, answers each, and writes the replies and
/// then the policy as they left it; `trust` reads what an owner assumes and a goal, and writes whether the untrusted
/// can reach it; `prove` reads labels and a goal, and writes a proof by a chain of delegations; `audit` reads a policy
/// text and recorded verdicts, and writes whether each is right; `explain` reads a policy text and a call, and writes
/// its verdict and what that comes from; `recover` reads a policy text that may be cut, and writes it whole; `export`
/// reads a policy text, and writes the bundle of the labels that a principal holds; `compact` reads a policy text, writes that
/// of the entries that still matter, and then to the records a line with the old and the new number of each label; `core` reads
/// nothing, and writes the line of a generated load; and so does `drill`, whose load runs on threads.
///
/// The status is 0 where all was done (of `check` at `allowed`, of `trust` at `safe`, of `explain` at `allowed`, of
/// `prove` at a proof, of `audit` where each record is right), 1 at `denied`, where a goal is not safe, where there is
/// no chain, where a record is wrong and where there is no principal to export, 3 where the input is refused, 4 where the
/// source failed, 5 where the sink failed, or of `compact` the records, 6 where memory ran out, and 8 where an authority
/// could not be reached. At 4, 6 and 8 nothing was written, and at 5 a proper part of what was to be. `docs/FORMATS.md`,
/// "Statuses", states this. What `script`, `recover` and `compact` have written whole is synced before they end with 0;
/// where that fails, the status is 5 and all was written.
///
/// The input is what the source gives in this call. It is read to its first end, unless it is too large. The panel is
/// handed back; only `script` uses it, and only `compact` the records. Where the input is refused, and the line of that was written, the
/// refusal is handed on.
pub fn run_plain<R, S: Source, C: Sink, K: Sink, P: Panel>(
    rt: &R,
    alloc: Global,
    command: Command<'_>,
    input: &mut S,
    records: &mut C,
    output: &mut K,
    panel: P,
) -> PlainEnd<P>
where
    R: Net<Listener = TcpListener, Stream = TcpStream> + Clock + Wait + Threads + Sync,
    requires { IsWithin command }
    ensures gave { HasGiven S.Source input.old input.new }
    ensures sent { Grows (K.sent output.old) (K.sent output.new) }
    ensures recorded { Grows (C.sent records.old) (C.sent records.new) }
    ensures unrecorded { command.entry ≢ Command.Compact → records.new ≡ records.old }
    ensures asked { HasMore (P.history panel) (P.history result.panel) }
    ensures untouched { (result.status ≡ 4) ⊎ (result.status ≡ 6) → output.new ≡ output.old }
    ensures command { RunsCommand command.entry
        (source_run S.Source input.old input.new)
        (sink_run K.Sink output.old output.new)
        (sink_run C.Sink records.old records.new)
        (K.synced output.new ≡ length (K.sent output.new))
        (panel_run (P.history panel) (P.history result.panel))
        result.journal result.status }
    ensures core_reads_nothing { (number steps : ℕ) → command.entry ≡ Command.Core number steps
        → input.new ≡ input.old }
    ensures drill_reads_nothing { (number workers calls : ℕ) → command.entry ≡ Command.Drill number workers calls
        → input.new ≡ input.old }
    ensures other_panel { command.entry ≢ Command.Script → (result.panel ≡ panel) × (result.journal ≡ None) }
    ensures handed { HandsOnOf command.entry
        (source_run S.Source input.old input.new)
        (sink_run K.Sink output.old output.new)
        result.status result.refusal }
{
    match command {
        Command::Check => ended(
            answer_input::<Verdict, S, K>(alloc, &(), input, output),
            panel,
        ),
        Command::Script => {
            let PlainEnd {
                status,
                refusal,
                journal,
                panel,
            } = script(rt, alloc, input, output, panel);
            PlainEnd {
                status: lasting(status, output),
                refusal,
                journal,
                panel,
            }
        }
        Command::Trust => ended(
            answer_input::<Trust, S, K>(alloc, &(), input, output),
            panel,
        ),
        Command::Prove => ended(
            answer_input::<Found, S, K>(alloc, &(), input, output),
            panel,
        ),
        Command::Audit => ended(answer_input::<Told, S, K>(alloc, &(), input, output), panel),
        Command::Explain => ended(
            answer_input::<ExplanationText, S, K>(alloc, &(), input, output),
            panel,
        ),
        Command::Recover => {
            let end = answer_input::<Recovered, S, K>(alloc, &(), input, output);
            let status = lasting(end.status, output);
            ended(InputEnd { status, ..end }, panel)
        }
        Command::Compact => {
            let end = compact(alloc, input, output, records);
            let status = lasting(end.status, output);
            ended(InputEnd { status, ..end }, panel)
        }
        Command::Export { name } => ended(export(alloc, name, input, output), panel),
        Command::Core { number, steps } => ended(
            InputEnd::of(load(alloc, number, steps, output)),
            panel,
        ),
        Command::Drill {
            number,
            workers,
            calls,
        } => ended(
            InputEnd::of(drill(rt, alloc, number, workers, calls, output)),
            panel,
        ),
    }
}

/// The end of a command that hands no journal back.
fn ended<P>(end: InputEnd, panel: P) -> PlainEnd<P>
    ensures status { result.status ≡ end.status }
    ensures refusal { result.refusal ≡ end.refusal }
    ensures journal { result.journal ≡ None }
    ensures panel { result.panel ≡ panel }
{
    PlainEnd {
        status: end.status,
        refusal: end.refusal,
        journal: None,
        panel,
    }
}

/// Brings the text that a command has written to where it lasts, where all of it was written. The status is then 5 where that failed.
fn lasting<K: Sink>(status: u8, output: &mut K) -> u8
    ensures sent { K.sent output.new ≡ K.sent output.old }
    ensures untouched { (result ≡ 4) ⊎ (result ≡ 6) → output.new ≡ output.old }
    ensures ends { EndsLasting (K.synced output.new ≡ length (K.sent output.new)) status result (K.faults
        output.old) (K.faults output.new) }
{
    if status != 0 {
        return status;
    }
    match output.sync() {
        Reach::Ready => 0,
        Reach::Failed => 5,
    }
}
