ghost use Rattle.std.specs.Prelude.{◌≡◌, ◌≢◌, ◌⊎◌, ℕ, List, IsTrue};
ghost use Rattle.std.specs.Process.{exit_status};
ghost use Rattle.nx_io.specs.Streams.{Grows, gained};
ghost use Rattle.policy_history.specs.declared.heads.Head.{Head};
ghost use Rattle.policy_history.specs.declared.events.Entry.{Entry};
ghost use Rattle.policy_history.specs.Values.{entry_trees};
ghost use Rattle.told_records.specs.Audited.{AreAudited};
ghost use Rattle.nexus_serve.specs.Hosting.{kept_of};
ghost use Rattle.nexus_serve.specs.Services.{IsJournal};
ghost use Rattle.nexus_serve.specs.TrueReports.{AreTrue, asked_by};
ghost use Rattle.verdict_words.specs.Settling.{flat};
ghost use Rattle.service_commands.specs.Services.{HandsBack};
ghost use Rattle.nexus_run.specs.Arguments.{words_of_call};
ghost use Rattle.nexus_run.specs.Commands.{IsCommand};
ghost use Rattle.nexus_run.specs.Notes.{RunsNoted};
ghost use Rattle.nexus_run.specs.Runs.{told_by};

use crate::arguments::{Arguments, texts, words_of_call};
use crate::program::{HandedBack, Sinks, idle_back, run};
use authority_ask::Panel;
use line_log::Log;
use nx_io::{Door, Gate, Link, Recorder, Sink, Source};
use service_commands::Ended;
use std::alloc::AllocGlobal;
use std::fs::Files;
use std::net::{Net, TcpListener, TcpStream};
use std::process::ExitCode;
use std::rt::Clock;
use std::sync::Wait;
use std::thread::Threads;

/// What the program leaves: the code with which it ends, how its run ended, and its log.
#[derive(Drop)]
pub struct Finished<D: Door, P: Panel, C: Recorder, K: Sink, J> {
    pub code: ExitCode,
    pub ended: Ended<D, P, C, K>,
    pub log: Option<J>,
}

/// The whole program over its surroundings: `run` on all words after the program's name, ended by its status. A word
/// that is not UTF-8 is no word of a command.
///
/// The records are the sink for what is written beside the output: the numbers of `compact`, with the word `records` the record of each
/// call of a service, before the call has an effect, and of an input that is refused what is wrong with it. The log keeps the text of a service that is called with one. All sinks are handed back.
pub fn start<R, A: Arguments, S: Source, C, K, J, D, P, G>(
    rt: &R,
    arguments: &mut A,
    input: &mut S,
    sinks: Sinks<C, K, J>,
    door: D,
    panel: P,
    gate: &G,
) -> Finished<D, P, C, K, J>
where
    C: Recorder + Send + Drop,
    K: Sink + Send + Drop,
    J: Log + Send + Drop,
    D: Door + Send + Drop,
    D::Link: Link + Send + Drop,
    P: Panel + Send + Drop,
    G: Gate + Sync,
    R: Net<Listener = TcpListener, Stream = TcpStream>
        + AllocGlobal
        + Clock
        + Files
        + Wait
        + Threads
        + Sync,
    ensures words { Grows (A.told arguments.old) (A.told arguments.new) }
    ensures all_words { exit_status result.code ≢ 6 → IsTrue (A.over arguments.new) }
    ensures other_words { ¬ IsCommand (words_of_call (gained (A.told arguments.old) (A.told arguments.new)))
        → ((exit_status result.code ≡ 2) ⊎ (exit_status result.code ≡ 6)) × (input.new ≡ input.old)
        × HandsBack result.ended.output (λ k. k ≡ sinks.output) }
    ensures code { exit_status result.code ≡ result.ended.status }
    ensures runs { RunsNoted (told_by S.Source K.Sink C.Sink C.Recorder.own D.Door D.Link.Link P.history)
        J.Sink J.Log.own (words_of_call (gained (A.told arguments.old) (A.told arguments.new)))
        (record { input = input.old; output = sinks.output; records = sinks.records; door = door; panel = panel })
        sinks.log input.new result.ended result.log }
    ensures earned { (h : Head) (es : List Entry) → IsJournal result.ended.journal h es
        → (low : ℕ) × AreTrue h (entry_trees es) low (asked_by P.history result.ended.means)
        (flat result.ended.reports) }
{
    let alloc = rt.alloc();
    let Ok(words) = words_of_call(alloc, arguments) else {
        let end = idle_back(alloc, 6, sinks, door, panel);
        return with_code(end);
    };
    match texts(alloc, words.as_slice()) {
        Ok(Some(texts)) => {
            let end = run(rt, texts.as_slice(), input, sinks, door, panel, gate);
            with_code(end)
        }
        Ok(None) => {
            let end = idle_back(alloc, 2, sinks, door, panel);
            with_code(end)
        }
        Err(_) => {
            let end = idle_back(alloc, 6, sinks, door, panel);
            with_code(end)
        }
    }
}

/// What is left behind this end, with the code of its status.
fn with_code<D: Door, P: Panel, C: Recorder, K: Sink, J>(
    end: HandedBack<D, P, C, K, J>,
) -> Finished<D, P, C, K, J>
    ensures code { exit_status result.code ≡ end.ended.status }
    ensures ended { result.ended ≡ end.ended }
    ensures log { result.log ≡ end.log }
{
    let HandedBack { ended, log } = end;
    let code = ExitCode::from(ended.status);
    Finished { code, ended, log }
}
