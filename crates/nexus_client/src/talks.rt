//! One talk with a service: requests are sent one by one, each after the reply to the one before was written.
ghost use Rattle.std.specs.Prelude.{◌≡◌, ◌≢◌, ◌↔◌, ◌≤◌, ◌∷◌, ◌++◌, [], IfOk, IfSome, None, Some, false, true};
ghost use Rattle.std.specs.Io.KnownBytes.{IsAtEnd};
ghost use Rattle.nx_io.specs.DoorCalls.{faults_in};
ghost use Rattle.nx_io.specs.Views.{IsSameLink};
ghost use Rattle.nx_io.specs.Streams.{Grows, MayRise, Rose, gained};
ghost use Rattle.nexus_client.specs.TalkLaws.{IsInOrder};
ghost use Rattle.nexus_client.specs.Talks.{IsUnbroken, Talks, link_faults_after, sink_faults_after, talk_call, written_line};
ghost use Rattle.nexus_client.specs.Inner.Talking.{Exchanges, IsWritten, TalksMore, link_faults_so_far, sink_faults_so_far};

use crate::ends::{Talk, TalkEnd};
use crate::laws::talks_keep_their_order;
use crate::requests::Requests;
use journal_text::reply_line;
use nx_io::{Bytes, Dial, Door, Link, Reach, Sink, send_all, send_whole};
use session_wire::{Reply, ReplyRead, read_reply};
use std::alloc::{AllocError, Global};
use std::net::{Net, TcpListener, TcpStream};
use std::rt::Clock;

/// Dials the address, and sends the requests over the link one by one: each is sent whole, the bytes of one reply are taken,
/// and the reply's line is written, before a byte of the next is sent. At every end a link that was dialed is closed and
/// handed back.
///
/// `Unreached` comes exactly where the door failed, and then nothing is written. The door is asked for the link and for
/// nothing else. `Broken` comes only where the link failed, and `Unwritten` only where the sink did: each count rises by
/// one, and otherwise stands still, but for that of a link which can't put out what is left when it is closed. `Ended` comes
/// exactly where the link ended before a whole reply, or where what came is no reply; of such bytes no more are taken than
/// show that. `Memory` says that there was none for the line of the last reply.
/// `docs/FORMATS.md`, "Frames" and "Reply lines", states both.
#[inline(never)]
pub fn talk<R, D: Door, K: Sink>(
    rt: &R,
    alloc: Global,
    address: &[u8],
    requests: &Requests,
    door: &mut D,
    output: &mut K,
) -> Talk<D::Link>
where
    R: Net<Listener = TcpListener, Stream = TcpStream> + Clock,
    ensures unreached { (result.dialed ≡ None) ↔ (result.end ≡ TalkEnd.Unreached) }
    ensures unheard { result.dialed ≡ None → K.sent output.new ≡ K.sent output.old }
    ensures talks { IfSome result.dialed
        (λ link. Talks requests.now (D.Link.sent link) (D.Link.taken link)
        (gained (K.sent output.old) (K.sent output.new)) (D.Link.over link) result.end) }
    ensures in_order { IfSome result.dialed
        (λ link. IsInOrder requests.now (D.Link.sent link) (D.Link.taken link)
        (gained (K.sent output.old) (K.sent output.new)) (D.Link.over link) result.end) }
    ensures ended { IfSome result.dialed (λ link. D.Link.over link ≡ true → IsAtEnd (D.Link.left link)) }
    ensures closed { IfSome result.dialed (λ link. D.Link.closed link ≡ true) }
    ensures toward { IfSome result.dialed (λ link. D.Link.toward link ≡ Some address.now) }
    ensures place { IfSome result.dialed (λ link. D.Link.place link ≡ 0) }
    ensures admitted { IfSome result.dialed (λ link. D.Link.admitted link ≡ false) }
    ensures link_count { IfSome result.dialed (λ link. MayRise (link_faults_after result.end 0) (D.Link.faults link)) }
    ensures complete { ¬ Rose (faults_in (D.calls door.old)) (faults_in (D.calls door.new))
        → ¬ Rose (K.faults output.old) (K.faults output.new)
        → IfSome result.dialed (λ link. ¬ Rose 0 (D.Link.faults link)) → IsUnbroken result.end }
    ensures grows { Grows (K.sent output.old) (K.sent output.new) }
    ensures output_later { K.faults output.old ≤ K.faults output.new }
    ensures output_count { K.faults output.new ≡ sink_faults_after result.end (K.faults output.old) }
    ensures links { D.links door.new ≡ D.links door.old }
    ensures origin { D.origin door.new ≡ D.origin door.old }
    ensures calls { D.calls door.new ≡ D.calls door.old ++ talk_call address.now result.dialed ∷ [] }
{
    match door.dial(rt, address) {
        Dial::Link(link) => {
            let mut link = link;
            let end = exchange_all(alloc, requests.as_slice(), &mut link, output);
            link.close();
            // For the contract alone: what every talk keeps, this one does.
            talks_keep_their_order();
            Talk {
                dialed: Some(link),
                end,
            }
        }
        Dial::Failed => Talk {
            dialed: None,
            end: TalkEnd::Unreached,
        },
    }
}

/// Sends the requests over a link, one by one, each after the line of the reply to the one before was written.
fn exchange_all<L: Link, K: Sink>(
    alloc: Global,
    requests: &[Bytes],
    link: &mut L,
    output: &mut K,
) -> TalkEnd
    requires over { L.over link.old ≡ false }
    requires is_open { L.closed link.old ≡ false }
    ensures reached { result ≢ TalkEnd.Unreached }
    ensures talks { TalksMore result requests.now (L.sent link.old) (L.sent link.new) (L.taken link.old)
        (L.taken link.new) (K.sent output.old) (K.sent output.new) (L.over link.new) }
    ensures ended { L.over link.new ≡ true → IsAtEnd (L.left link.new) }
    ensures origin { IsSameLink L.Link link.old link.new }
    ensures admitted { L.admitted link.new ≡ L.admitted link.old }
    ensures link_later { L.faults link.old ≤ L.faults link.new }
    ensures link_count { L.faults link.new ≡ link_faults_after result (L.faults link.old) }
    ensures output_later { K.faults output.old ≤ K.faults output.new }
    ensures output_count { K.faults output.new ≡ sink_faults_after result (K.faults output.old) }
{
    for request in requests {
        match exchange(alloc, request.as_slice(), link, output) {
            None => {}
            Some(end) => return end,
        }
    }
    TalkEnd::Done
}

/// Sends a request, takes its reply and writes the reply's line. None where all was done, else how the talk ends with it.
fn exchange<L: Link, K: Sink>(
    alloc: Global,
    request: &[u8],
    link: &mut L,
    output: &mut K,
) -> Option<TalkEnd>
    requires over { L.over link.old ≡ false }
    requires is_open { L.closed link.old ≡ false }
    ensures is_open { L.closed link.new ≡ false }
    ensures reached { result ≢ Some TalkEnd.Unreached }
    ensures passes { Exchanges result request.now (L.sent link.old) (L.sent link.new) (L.taken link.old)
        (L.taken link.new) (K.sent output.old) (K.sent output.new) (L.over link.new) }
    ensures ended { L.over link.new ≡ true → IsAtEnd (L.left link.new) }
    ensures origin { IsSameLink L.Link link.old link.new }
    ensures admitted { L.admitted link.new ≡ L.admitted link.old }
    ensures link_later { L.faults link.old ≤ L.faults link.new }
    ensures link_count { L.faults link.new ≡ link_faults_so_far result (L.faults link.old) }
    ensures output_later { K.faults output.old ≤ K.faults output.new }
    ensures output_count { K.faults output.new ≡ sink_faults_so_far result (K.faults output.old) }
{
    match send_whole(link, request) {
        Reach::Ready => {}
        Reach::Failed => return Some(TalkEnd::Broken),
    }
    match read_reply(link) {
        ReplyRead::Reply(reply) => write_line(alloc, &reply, output),
        ReplyRead::End => Some(TalkEnd::Ended),
        ReplyRead::Torn => Some(TalkEnd::Ended),
        ReplyRead::Bad => Some(TalkEnd::Ended),
        ReplyRead::ReadFault => Some(TalkEnd::Broken),
    }
}

/// Writes the line of a reply. None where it was written whole, else how the talk ends with it.
fn write_line<K: Sink>(alloc: Global, reply: &Reply, output: &mut K) -> Option<TalkEnd>
    ensures bytes { IsWritten result reply.now (K.sent output.old) (K.sent output.new) }
    ensures later { K.faults output.old ≤ K.faults output.new }
    ensures count { K.faults output.new ≡ sink_faults_so_far result (K.faults output.old) }
{
    let Ok(line) = written_line(alloc, reply) else {
        return Some(TalkEnd::Memory);
    };
    match send_all(output, line.as_slice()) {
        Reach::Ready => None,
        Reach::Failed => Some(TalkEnd::Unwritten),
    }
}

/// The line of a reply, with its line feed. An `Err` is want of memory.
fn written_line(alloc: Global, reply: &Reply) -> Result<Bytes, AllocError>
    ensures { IfOk result (λ line. line ≡ written_line reply.now) }
{
    let mut line = reply_line(alloc, reply)?;
    line.extend(b"\n")?;
    Ok(line)
}
