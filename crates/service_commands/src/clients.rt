//! A run of `client` or `import`.
ghost use Rattle.std.specs.Prelude.{◌≡◌, ◌≢◌, ◌⊎◌, [], IfErr, IfOk, None, option_map};
ghost use Rattle.input_flaws.specs.LineFlaws.{IsFlawAt};
ghost use Rattle.run_streams.specs.Ends.{HandsOn};
ghost use Rattle.run_streams.specs.Flaws.{flaw_tree};
ghost use Rattle.nx_io.specs.Streams.{Grows};
ghost use Rattle.run_streams.specs.Runs.{sink_run, source_run};
ghost use Rattle.nx_io.specs.Views.{HasGiven, door_view, link_view};
ghost use Rattle.service_commands.specs.Clients.{AreRequestsOf, EndsClient, client_status, formula_words, requests_form};
ghost use Rattle.run_streams.specs.Inner.Unread.{IsUnread, faults_after_input};

use input_flaws::flaw_at;
use nexus_client::{Requests, RequestsError, Talk, TalkEnd, TalkInput, read_input, talk};
use nx_io::{Door, Sink, Source};
use run_streams::{Flaw, InputEnd, InputRefusal, ReadError, Unread, read_whole, tell_refusal};
use std::alloc::{AllocError, Global};
use std::net::{Net, TcpListener, TcpStream};
use std::rt::Clock;

/// A call of `client` or `import`, by its words.
#[derive(Clone, Copy)]
pub struct TalkCall<'a> {
    /// What the input is.
    pub input: TalkInput,
    /// Where the service is.
    pub address: &'a [u8],
}

/// What a run of `client` or `import` leaves.
#[derive(Drop)]
pub struct ClientEnd<L> {
    /// The status that the operating system is given. `docs/FORMATS.md`, "Statuses", says what each means.
    pub status: u8,
    /// Why the input was refused, with status 3.
    pub refusal: Option<InputRefusal>,
    /// The link that was dialed, if any.
    pub dialed: Option<L>,
}

/// Reads the input, and sends each request that it asks for over a link to the address, after the line of the reply to the one before was
/// written. Where the input is refused, and the line of that was written, the refusal is handed on.
pub fn client<R, S: Source, K: Sink, D: Door>(
    rt: &R,
    alloc: Global,
    call: TalkCall<'_>,
    input: &mut S,
    output: &mut K,
    door: &mut D,
) -> ClientEnd<D::Link>
where
    R: Net<Listener = TcpListener, Stream = TcpStream> + Clock,
    D::Link: Drop,
    ensures gave { HasGiven S.Source input.old input.new }
    ensures sent { Grows (K.sent output.old) (K.sent output.new) }
    ensures untouched { result.dialed ≡ None → (result.status ≡ 4) ⊎ (result.status ≡ 6) → output.new ≡ output.old }
    ensures undialed { result.dialed ≡ None → result.status ≢ 7 → door.new ≡ door.old }
    ensures ends { EndsClient call.entry.input call.entry.address.now
        (source_run S.Source input.old input.new)
        (sink_run K.Sink output.old output.new)
        (door_view D.Door D.Link.Link door.old)
        (door_view D.Door D.Link.Link door.new)
        (option_map (link_view D.Link.Link) result.dialed) result.status }
    ensures handed { HandsOn (requests_form call.entry.input)
        (source_run S.Source input.old input.new)
        (sink_run K.Sink output.old output.new)
        result.status result.refusal }
{
    match read_requests(alloc, call.input, input) {
        Ok(requests) => {
            let Talk { dialed, end } = talk(rt, alloc, call.address, &requests, door, output);
            ClientEnd {
                status: status_of(end),
                refusal: None,
                dialed,
            }
        }
        Err(Unread::Refused(refusal)) => {
            let end = tell_refusal(alloc, output, refusal);
            undialed(end)
        }
        Err(Unread::Failed) => undialed(InputEnd::of(4)),
        Err(Unread::Memory) => undialed(InputEnd::of(6)),
    }
}

/// The end of a talk for which nobody was dialed.
fn undialed<L>(end: InputEnd) -> ClientEnd<L>
    ensures { result ≡ record { status = end.status; refusal = end.refusal; dialed = None } }
{
    ClientEnd {
        status: end.status,
        refusal: end.refusal,
        dialed: None,
    }
}

/// Reads the input, which asks for requests.
fn read_requests<S: Source>(
    alloc: Global,
    form: TalkInput,
    input: &mut S,
) -> Result<Requests, Unread>
    ensures gave { HasGiven S.Source input.old input.new }
    ensures ok { IfOk result (AreRequestsOf form
        (source_run S.Source input.old input.new)) }
    ensures err { IfErr result (IsUnread (requests_form form)
        (source_run S.Source input.old input.new)) }
    ensures count { S.faults input.new ≡ faults_after_input result (S.faults input.old) }
{
    match read_whole(alloc, input) {
        Ok(text) => match read_input(alloc, form, text.as_slice()) {
            Ok(requests) => Ok(requests),
            Err(RequestsError::Wrong { line }) => {
                let flaw = requests_flaw(alloc, form, text.as_slice(), line);
                Err(Unread::wrong(line, flaw))
            }
            Err(RequestsError::Memory) => Err(Unread::Memory),
        },
        Err(ReadError::TooLarge) => Err(Unread::Refused(InputRefusal::TooLarge)),
        Err(ReadError::Failed) => Err(Unread::Failed),
        Err(ReadError::Memory) => Err(Unread::Memory),
    }
}

/// What is wrong with a line of an input. An `Err` is want of memory.
fn requests_flaw(alloc: Global, form: TalkInput, text: &[u8], line: u64) -> Result<Flaw, AllocError>
    ensures { IfOk result (λ flaw. IsFlawAt (formula_words form) [] text.now line (flaw_tree flaw)) }
{
    match form {
        TalkInput::RequestLines => flaw_at(alloc, &[], &[], text, line),
        TalkInput::PeerBundle => flaw_at(alloc, &["label "], &[], text, line),
    }
}

/// The status of a talk that ended so.
fn status_of(end: TalkEnd) -> u8
    ensures { result ≡ client_status end }
{
    match end {
        TalkEnd::Done => 0,
        TalkEnd::Unwritten => 5,
        TalkEnd::Memory => 6,
        TalkEnd::Unreached | TalkEnd::Broken => 7,
        TalkEnd::Ended => 9,
    }
}
