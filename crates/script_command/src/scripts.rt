//! A run of `script`.
ghost use Rattle.std.specs.Prelude.{◌≡◌, ◌⊎◌, ◌<◌, ◌≤◌, IfErr, IfOk, None, Some, length};
ghost use Rattle.std.specs.List.{All};
ghost use Rattle.nx_io.specs.Streams.{Grows};
ghost use Rattle.nx_io.specs.Views.{HasGiven};
ghost use Rattle.policy_history.specs.Values.{entry_trees};
ghost use Rattle.journal_text.specs.PolicyFronts.{AreBelow};
ghost use Rattle.policy_script.specs.ScriptForm.{most_session};
ghost use Rattle.policy_script.specs.Inner.Reading.{script_tree};
ghost use Rattle.run_streams.specs.Ends.{HandsOn};
ghost use Rattle.run_streams.specs.Flaws.{flaw_tree};
ghost use Rattle.run_streams.specs.Runs.{most_bytes, sink_run, source_run};
ghost use Rattle.input_flaws.specs.PolicyFlaws.{IsFrontFlaw};
ghost use Rattle.script_command.specs.Inner.ScriptEnds.{EndsAnswers, EndsReached, EndsReplies, script_of};
ghost use Rattle.run_streams.specs.Inner.Unread.{faults_after_input, IsUnread};
ghost use Rattle.script_command.specs.Scripts.{EndsScript, IsScriptOf, panel_run, script_form};

use authority_ask::Panel;
use input_flaws::front_flaw;
use nx_io::{Reach, Sink, Source, send_all};
use policy_history::Journal;
use policy_script::{Script, ScriptError, read_script, script_text};
use run_streams::{Flaw, InputEnd, InputRefusal, ReadError, Unread, read_whole, tell_refusal};
use session_core::{Asking, answer_all, reach_all};
use std::alloc::{AllocError, Global};
use std::net::{Net, TcpListener, TcpStream};
use std::rt::Clock;

/// The greatest number that a session of the policy's entries may have.
const MOST_SESSION: u64 = u64::MAX - 65;

/// How a command ended that is neither a service nor a client.
#[derive(Drop)]
pub struct PlainEnd<P> {
    /// The status that the operating system is given. `docs/FORMATS.md`, "Statuses", says what each means.
    pub status: u8,
    /// Why the input was refused, with status 3.
    pub refusal: Option<InputRefusal>,
    /// The journal at the end, where a policy was read and its text was to be written.
    pub journal: Option<Journal>,
    /// The panel that was handed in.
    pub panel: P,
}

/// Reads a policy and requests, answers them, and writes the replies and then the policy. Where the input is refused, and the line of that
/// was written, the refusal is handed on.
pub fn script<R, S: Source, K: Sink, P: Panel>(
    rt: &R,
    alloc: Global,
    input: &mut S,
    output: &mut K,
    panel: P,
) -> PlainEnd<P>
where
    R: Net<Listener = TcpListener, Stream = TcpStream> + Clock,
    ensures gave { HasGiven S.Source input.old input.new }
    ensures sent { Grows (K.sent output.old) (K.sent output.new) }
    ensures untouched { (result.status ≡ 4) ⊎ (result.status ≡ 6) → output.new ≡ output.old }
    ensures ends { EndsScript
        (source_run S.Source input.old input.new)
        (sink_run K.Sink output.old output.new)
        (panel_run (P.history panel) (P.history result.panel))
        result.journal result.status }
    ensures handed { HandsOn script_form
        (source_run S.Source input.old input.new)
        (sink_run K.Sink output.old output.new)
        result.status result.refusal }
{
    match read_input(alloc, input) {
        Ok(script) => {
            let Script { journal, askings } = script;
            answers(rt, alloc, journal, askings.as_slice(), output, panel)
        }
        Err(Unread::Refused(refusal)) => {
            let end = tell_refusal(alloc, output, refusal);
            unanswered(end, panel)
        }
        Err(Unread::Failed) => unanswered(InputEnd::of(4), panel),
        Err(Unread::Memory) => unanswered(InputEnd::of(6), panel),
    }
}

/// Reads the input of a script.
fn read_input<S: Source>(alloc: Global, input: &mut S) -> Result<Script, Unread>
    ensures gave { HasGiven S.Source input.old input.new }
    ensures ok { IfOk result (λ script. IsScriptOf
        (source_run S.Source input.old input.new) (script_tree script)) }
    ensures below { IfOk result (λ script. AreBelow most_session (entry_trees script.journal.entries)) }
    ensures places { IfOk result (λ script. All (λ a. a.place < 64) script.askings.items) }
    ensures err { IfErr result (IsUnread script_form
        (source_run S.Source input.old input.new)) }
    ensures count { S.faults input.new ≡ faults_after_input result (S.faults input.old) }
{
    match read_whole(alloc, input) {
        Ok(text) => match read_script(alloc, text.as_slice()) {
            Ok(script) => Ok(script),
            Err(ScriptError::Wrong { line }) => {
                let flaw = script_flaw(alloc, text.as_slice(), line);
                Err(Unread::wrong(line, flaw))
            }
            Err(ScriptError::Memory) => Err(Unread::Memory),
        },
        Err(ReadError::TooLarge) => Err(Unread::Refused(InputRefusal::TooLarge)),
        Err(ReadError::Failed) => Err(Unread::Failed),
        Err(ReadError::Memory) => Err(Unread::Memory),
    }
}

/// What is wrong with a line of an input. An `Err` is want of memory.
fn script_flaw(alloc: Global, text: &[u8], line: u64) -> Result<Flaw, AllocError>
    requires { length text.now ≤ most_bytes }
    ensures { IfOk result (λ flaw. IsFrontFlaw most_session text.now text.now line (flaw_tree flaw)) }
{
    front_flaw(alloc, MOST_SESSION, text, text, line)
}

/// The end of a run that answered nothing.
fn unanswered<P>(end: InputEnd, panel: P) -> PlainEnd<P>
    ensures status { result.status ≡ end.status }
    ensures refusal { result.refusal ≡ end.refusal }
    ensures journal { result.journal ≡ None }
    ensures panel { result.panel ≡ panel }
{
    PlainEnd {
        status: end.status,
        refusal: end.refusal,
        journal: None,
        panel,
    }
}

/// Answers the requests over a journal and a panel of its own, which are handed back.
fn answers<R, K: Sink, P: Panel>(
    rt: &R,
    alloc: Global,
    journal: Journal,
    askings: &[Asking],
    output: &mut K,
    panel: P,
) -> PlainEnd<P>
where
    R: Net<Listener = TcpListener, Stream = TcpStream> + Clock,
    requires below { AreBelow most_session (entry_trees journal.entries) }
    requires places { All (λ a. a.place < 64) askings.now }
    ensures sent { Grows (K.sent output.old) (K.sent output.new) }
    ensures untouched { (result.status ≡ 4) ⊎ (result.status ≡ 6) → output.new ≡ output.old }
    ensures ends { EndsAnswers (script_of journal askings.now)
        (sink_run K.Sink output.old output.new)
        (panel_run (P.history panel) (P.history result.panel))
        result.journal result.status }
    ensures unrefused { result.refusal ≡ None }
{
    let mut journal = journal;
    let mut panel = panel;
    let status = reach_and_reply(rt, alloc, &mut journal, askings, output, &mut panel);
    let journal = handed(status, journal);
    PlainEnd {
        status,
        refusal: None,
        journal,
        panel,
    }
}

/// The journal, where the replies were to be written.
fn handed(status: u8, journal: Journal) -> Option<Journal>
    ensures written { (status ≡ 0) ⊎ (status ≡ 5) → result ≡ Some journal }
    ensures unreached { status ≡ 8 → result ≡ None }
    ensures memory { status ≡ 6 → result ≡ None }
{
    if status == 0 || status == 5 {
        Some(journal)
    } else {
        drop(journal);
        None
    }
}

/// Reaches the authorities, and replies.
fn reach_and_reply<R, K: Sink, P: Panel>(
    rt: &R,
    alloc: Global,
    journal: &mut Journal,
    askings: &[Asking],
    output: &mut K,
    panel: &mut P,
) -> u8
where
    R: Net<Listener = TcpListener, Stream = TcpStream> + Clock,
    requires below { AreBelow most_session (entry_trees journal.old.entries) }
    requires places { All (λ a. a.place < 64) askings.now }
    ensures sent { Grows (K.sent output.old) (K.sent output.new) }
    ensures untouched { (result ≡ 4) ⊎ (result ≡ 6) → output.new ≡ output.old }
    ensures ends { EndsReplies (script_of journal.old askings.now) journal.new
        (sink_run K.Sink output.old output.new)
        (panel_run (P.history panel.old) (P.history panel.new))
        result }
{
    match reach_all(rt, journal.head(), panel) {
        Reach::Ready => reply(rt, alloc, journal, askings, output, panel),
        Reach::Failed => 8,
    }
}

/// Answers the requests, and writes the replies and then the policy.
fn reply<R, K: Sink, P: Panel>(
    rt: &R,
    alloc: Global,
    journal: &mut Journal,
    askings: &[Asking],
    output: &mut K,
    panel: &mut P,
) -> u8
where
    R: Net<Listener = TcpListener, Stream = TcpStream> + Clock,
    requires below { AreBelow most_session (entry_trees journal.old.entries) }
    requires places { All (λ a. a.place < 64) askings.now }
    ensures sent { Grows (K.sent output.old) (K.sent output.new) }
    ensures untouched { (result ≡ 4) ⊎ (result ≡ 6) → output.new ≡ output.old }
    ensures ends { EndsReached (script_of journal.old askings.now) journal.new
        (sink_run K.Sink output.old output.new)
        (panel_run (P.history panel.old) (P.history panel.new))
        result }
{
    let first = journal.greatest_session() + 1;
    let Ok(replies) = answer_all(rt, alloc, journal, first, askings, panel) else {
        return 6;
    };
    let Ok(text) = script_text(alloc, replies.as_slice(), journal) else {
        return 6;
    };
    match send_all(output, text.as_slice()) {
        Reach::Ready => 0,
        Reach::Failed => 5,
    }
}
