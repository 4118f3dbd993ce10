//! Talks over links, doors and sinks in memory, and the lines that are read for them. The bytes of each frame are written by
//! hand, after docs/FORMATS.md, "Frames".
ghost use Rattle.std.specs.Prelude.{◌≤◌};
ghost use Rattle.nx_io.specs.MemoryDoors.{IsFreshWire};

use journal_text::LineError;
use nexus_client::{RequestsError, TalkEnd, TalkInput, read_input, request_of_line, talk};
use nx_io::{MemDoor, MemLink, MemSink};
use std::alloc::{AllocError, Global};
use std::net::{Net, TcpListener, TcpStream};
use std::rt::Clock;
use std::test::Fail;

// How many bytes an input has at most.
const MOST_BYTES: usize = 67_108_864;

// An input and its kind, the frames of its requests, the replies to them, and the lines of the replies.
#[derive(Clone, Copy)]
struct Play {
    kind: TalkInput,
    input: &'static [u8],
    frames: &'static [u8],
    replies: &'static [u8],
    lines: &'static [u8],
}

const GREETING: Play = Play {
    kind: TalkInput::RequestLines,
    input: b"hello bob pw",
    frames: b"\0\0\0\x0a\x01\0\x03bob\0\x02pw",
    replies: b"\0\0\0\x11\x41\0\0\0\0\0\0\0\x01\0\0\0\0\0\0\0\0",
    lines: b"welcome 1 0\n",
};

// A greeting, a change and a call, and a byte more that nobody asked for.
const SESSION: Play = Play {
    kind: TalkInput::RequestLines,
    input: b"hello bob pw\nobject f\ncall read f 7\n",
    frames: b"\0\0\0\x0a\x01\0\x03bob\0\x02pw\0\0\0\x04\x05\0\x01f\0\0\0\x12\x0c\0\x04read\0\x01f\0\0\0\0\0\0\0\x07",
    replies: b"\0\0\0\x11\x41\0\0\0\0\0\0\0\x01\0\0\0\0\0\0\0\0\0\0\0\x11\x42\0\0\0\0\0\0\0\x01\0\0\0\0\0\0\0\0\
        \0\0\0\x21\x44\0\0\0\0\0\0\0\x01\0\0\0\0\0\0\0\x03\0\0\0\0\0\0\0\x11\0\0\0\0\0\0\0\x08\0",
    lines: b"welcome 1 0\ndone 1 0\ndenied 1 Line 17 TooManyAsks\n",
};

const NOTHING: Play = Play {
    kind: TalkInput::RequestLines,
    input: b"",
    frames: b"",
    replies: b"",
    lines: b"",
};

// A peer says the one label of a bundle.
const IMPORT: Play = Play {
    kind: TalkInput::PeerBundle,
    input: b"peer siteA pw\nnexus bundle 1\nlabel alice says  ok\nend\n",
    frames: b"\0\0\0\x0c\x01\0\x05siteA\0\x02pw\0\0\0\x17\x02\0\x05siteA\0\x0dalice says ok",
    replies: b"\0\0\0\x11\x41\0\0\0\0\0\0\0\x01\0\0\0\0\0\0\0\0\0\0\0\x11\x42\0\0\0\0\0\0\0\x01\0\0\0\0\0\0\0\x01",
    lines: b"welcome 1 0\ndone 1 1\n",
};

// The second reply has the kind of a request, and a length that the first reply has.
const NO_REPLY: Play = Play {
    replies: b"\0\0\0\x11\x41\0\0\0\0\0\0\0\x01\0\0\0\0\0\0\0\0\0\0\0\x11\x05\0\0\0\0\0\0\0\x01\0\0\0\0\0\0\0\0",
    ..SESSION
};

// The first reply has a length that no reply has.
const NO_LENGTH: Play = Play {
    replies: b"\0\0\0\x12\x41\0\0\0\0\0\0\0\x01\0\0\0\0\0\0\0\0",
    ..SESSION
};

// Where devices fail: the numbers of the dials, of the takes and of the sends that do; how many bytes of the replies come; how many
// the sink has room for, past which a write fails; and how many each call moves.
#[derive(Clone, Copy)]
struct Devices<'a> {
    dial_fails: &'a [u64],
    take_fails: &'a [u64],
    send_fails: &'a [u64],
    cut: usize,
    written_room: usize,
    piece: usize,
}

fn sound() -> Devices<'static> {
    Devices {
        dial_fails: &[],
        take_fails: &[],
        send_fails: &[],
        cut: 1000,
        written_room: 1000,
        piece: 1000,
    }
}

// How many bytes these are, where the others begin with them.
fn front(bytes: &[u8], all: &[u8]) -> usize {
    if all.starts_with(bytes) {
        bytes.len()
    } else {
        9999
    }
}

// What came of a talk: how it ended, how many bytes of the frames were sent and of the lines written, how many bytes the link has
// left, how often it failed, and whether it is closed.
#[derive(Clone, Copy, Debug, PartialEq, Eq)]
struct Told {
    end: TalkEnd,
    sent: usize,
    written: usize,
    left: usize,
    faults: u64,
    is_closed: bool,
}

fn ends(end: TalkEnd, sent: usize, written: usize, left: usize) -> Option<Told> {
    Some(Told {
        end,
        sent,
        written,
        left,
        faults: 0,
        is_closed: true,
    })
}

fn breaks(sent: usize, written: usize, left: usize) -> Option<Told> {
    Some(Told {
        end: TalkEnd::Broken,
        sent,
        written,
        left,
        faults: 1,
        is_closed: true,
    })
}

fn dialing(alloc: Global, link: MemLink, fails: &[u64]) -> Result<MemDoor, AllocError>
    requires { IsFreshWire link }
{
    MemDoor::new(alloc, Vec::new(alloc), Some(link), fails)
}

// None where there is no link.
fn play_over<R>(
    rt: &R,
    alloc: Global,
    play: &Play,
    devices: &Devices,
) -> Result<Option<Told>, AllocError>
where
    R: Net<Listener = TcpListener, Stream = TcpStream> + Clock,
{
    if play.input.len() > MOST_BYTES {
        return Err(AllocError);
    }
    let Ok(requests) = read_input(alloc, play.kind, play.input) else {
        return Err(AllocError);
    };
    let come = &play.replies[..devices.cut.min(play.replies.len())];
    let piece = devices.piece.max(1);
    let (takes, sends) = (devices.take_fails, devices.send_fails);
    let link = MemLink::new(alloc, come, 1000, piece, takes, sends)?;
    let mut output = MemSink::new(alloc, devices.written_room, piece, &[], &[])?;
    let mut door = dialing(alloc, link, devices.dial_fails)?;
    let talk = talk(rt, alloc, b"here", &requests, &mut door, &mut output);
    let end = talk.end;
    let written = front(output.sent(), play.lines);
    Ok(
        talk.dialed.map(|link| Told {
            end,
            sent: front(link.sent(), play.frames),
            written,
            left: link.left().len(),
            faults: link.faults(),
            is_closed: link.is_closed(),
        }),
    )
}

#[test]
fn talks_end_where_their_requests_and_replies_do(rt: HostRuntime) -> Result<(), Fail> {
    let cases = [
        (GREETING, ends(TalkEnd::Done, 14, 12, 0)),
        (SESSION, ends(TalkEnd::Done, 44, 50, 1)),
        (NOTHING, ends(TalkEnd::Done, 0, 0, 0)),
        (IMPORT, ends(TalkEnd::Done, 43, 21, 0)),
        (NO_REPLY, ends(TalkEnd::Ended, 22, 12, 16)),
        (NO_LENGTH, ends(TalkEnd::Ended, 14, 0, 17)),
    ];
    for (play, wanted) in cases {
        for piece in [1, 3, 1000] {
            let devices = Devices { piece, ..sound() };
            assert_eq!(rt; play_over(&rt, rt.alloc(), &play, &devices)?, wanted);
        }
    }
    // The link ends within the first reply; the door fails.
    let devices = Devices { cut: 3, ..sound() };
    let wanted = ends(TalkEnd::Ended, 14, 0, 0);
    assert_eq!(rt; play_over(&rt, rt.alloc(), &GREETING, &devices)?, wanted);
    let devices = Devices {
        dial_fails: &[1],
        ..sound()
    };
    assert_eq!(rt; play_over(&rt, rt.alloc(), &GREETING, &devices)?, None);
    Ok(())
}

// The exchange of the session within which this byte of the replies, of the frames or of the lines is, and where they end.
fn exchange_at(byte: usize, first: usize, second: usize) -> usize
    ensures { result ≤ 2 }
{
    if byte < first {
        0
    } else if byte < second {
        1
    } else {
        2
    }
}

const SENT: [usize; 3] = [14, 22, 44];

const WRITTEN_BEFORE: [usize; 3] = [0, 12, 21];

const LEFT_BEFORE: [usize; 3] = [80, 59, 38];

const LEFT_AFTER: [usize; 3] = [59, 38, 1];

#[test]
fn a_link_that_ends_or_fails_within_a_reply_ends_the_talk(rt: HostRuntime) -> Result<(), Fail> {
    let alloc = rt.alloc();
    for cut in 0..79usize {
        let exchange = exchange_at(cut, 21, 42);
        let (sent, written) = (SENT[exchange], WRITTEN_BEFORE[exchange]);
        let devices = Devices { cut, ..sound() };
        let wanted = ends(TalkEnd::Ended, sent, written, 0);
        assert_eq!(rt; play_over(&rt, alloc, &SESSION, &devices)?, wanted, "{cut}");
        let take_fails = [cut as u64 + 1];
        let devices = Devices {
            take_fails: &take_fails,
            piece: 1,
            ..sound()
        };
        let wanted = breaks(sent, written, 80 - cut);
        assert_eq!(rt; play_over(&rt, alloc, &SESSION, &devices)?, wanted, "{cut}");
    }
    Ok(())
}

#[test]
fn a_send_or_a_write_that_fails_ends_the_talk(rt: HostRuntime) -> Result<(), Fail> {
    let alloc = rt.alloc();
    for place in 0..44usize {
        let exchange = exchange_at(place, 14, 22);
        let send_fails = [place as u64 + 1];
        let devices = Devices {
            send_fails: &send_fails,
            piece: 1,
            ..sound()
        };
        let wanted = breaks(place, WRITTEN_BEFORE[exchange], LEFT_BEFORE[exchange]);
        assert_eq!(rt;
            play_over(&rt, alloc, &SESSION, &devices)?,
            wanted,
            "{place}"
        );
    }
    for place in 0..50usize {
        let exchange = exchange_at(place, 12, 21);
        let devices = Devices {
            written_room: place,
            ..sound()
        };
        let wanted = ends(
            TalkEnd::Unwritten,
            SENT[exchange],
            place,
            LEFT_AFTER[exchange],
        );
        assert_eq!(rt;
            play_over(&rt, alloc, &SESSION, &devices)?,
            wanted,
            "{place}"
        );
    }
    Ok(())
}

// Inputs of request lines, and how many requests are read of each, or the line that is wrong.
const LINES: [(&[u8], Result<usize, u64>); 9] = [
    (b"", Ok(0)),
    (b"\n", Err(1)),
    (b"object f", Ok(1)),
    (b"object f\n", Ok(1)),
    (b"object f\n\n", Err(2)),
    (b"object f\nobject g\nobject h", Ok(3)),
    (b"object f\nobject  g\nobject", Err(2)),
    (b"object f\r\n", Err(1)),
    (b"object f\nobject g\n1 object h", Err(3)),
];

// The same of a peer and a bundle.
const IMPORTS: [(&[u8], Result<usize, u64>); 8] = [
    (
        b"peer siteA pw\nnexus bundle 1\nlabel a says p\nlabel a says q\nend",
        Ok(3),
    ),
    (b"peer siteA pw\nnexus bundle 1\nend\n", Ok(1)),
    (b"", Err(1)),
    (b"peer siteA\nnexus bundle 1\nend\n", Err(1)),
    (b"peer not pw\nnexus bundle 1\nend\n", Err(1)),
    (b"peer siteA pw", Err(2)),
    (b"peer siteA pw\nnexus bundle 1\nlabel ok\nend\n", Err(3)),
    (b"peer siteA pw\nnexus bundle 1\nlabel a says p\n", Err(4)),
];

fn requests_in(alloc: Global, kind: TalkInput, input: &[u8]) -> Result<usize, u64> {
    if input.len() > MOST_BYTES {
        return Err(0);
    }
    match read_input(alloc, kind, input) {
        Ok(requests) => Ok(requests.as_slice().len()),
        Err(RequestsError::Wrong { line }) => Err(line),
        Err(RequestsError::Memory) => Err(0),
    }
}

#[test]
fn each_input_is_read_or_its_wrong_line_told(rt: HostRuntime) {
    for (input, wanted) in LINES {
        assert_eq!(rt;
            requests_in(rt.alloc(), TalkInput::RequestLines, input),
            wanted
        );
    }
    for (input, wanted) in IMPORTS {
        assert_eq!(rt;
            requests_in(rt.alloc(), TalkInput::PeerBundle, input),
            wanted
        );
    }
}

// Lines, and the frame of each. No frame is that of a wrong line.
const FRAMES: [(&[u8], &[u8]); 14] = [
    (b"hello bob pw", b"\0\0\0\x0a\x01\0\x03bob\0\x02pw"),
    (b"say a : b: c", b"\0\0\0\x0a\x02\0\x01a\0\x04b: c"),
    (
        b"transfer 258 b",
        b"\0\0\0\x0c\x03\0\0\0\0\0\0\x01\x02\0\x01b",
    ),
    (b"delete 7", b"\0\0\0\x09\x04\0\0\0\0\0\0\0\x07"),
    (b"object f", b"\0\0\0\x04\x05\0\x01f"),
    (b"goal read f : ", b"\0\0\0\x0c\x06\0\x04read\0\x01f\0\0"),
    (b"nogoal r f", b"\0\0\0\x07\x07\0\x01r\0\x01f"),
    (
        b"proof r f : proof 1",
        b"\0\0\0\x10\x08\0\x01r\0\x01f\0\x07proof 1",
    ),
    (b"noproof r f", b"\0\0\0\x07\x09\0\x01r\0\x01f"),
    (b"bind n.a 1", b"\0\0\0\x0e\x0a\0\x03n.a\0\0\0\0\0\0\0\x01"),
    (b"unbind n", b"\0\0\0\x04\x0b\0\x01n"),
    (
        b"call r f 0",
        b"\0\0\0\x0f\x0c\0\x01r\0\x01f\0\0\0\0\0\0\0\0",
    ),
    (b"call r f", b""),
    (b"hello bob pw ", b""),
];

#[test]
fn each_request_line_has_its_frame(rt: HostRuntime) {
    for (line, wanted) in FRAMES {
        let is_right = match request_of_line(rt.alloc(), line) {
            Ok(frame) => frame.as_slice() == wanted,
            Err(LineError::Bad) => wanted.is_empty(),
            Err(LineError::Memory) => false,
        };
        assert!(rt; is_right);
    }
}
