ghost use Rattle.std.specs.Prelude.{◌≡◌, IsTrue};
ghost use Rattle.authority_ask.specs.PanelCalls.{shared, with_call};

use super::answers;
use authority_ask::{HostPanel, MemClock, Panel};
use nx_io::{Reach, Shared};
use std::alloc::{AllocError, Global};
use std::io::{Read, Write};
use std::net::{Net, TcpListener, TcpStream};
use std::process::Abort;
use std::rt::Clock as SystemClock;
use std::test::Fail;
use std::thread::join;

// What the authority sends after each line that it reads, by commas, connection by connection. After the last it closes.
const CONNECTIONS: &str =
    "yes\n,no\n;yes\nno\n;no\n,yesyesyesyesyesyesyesyes\n;maybe\n;yes;yes\n;no\n";

// What is asked in turn, and what comes of the connections above. Beside a Down the one below it connects again: the first
// connection was closed; bytes stand behind the line, so they are no answer to the next ask; the line is too long; it is none that
// answers; it has no end.
const ANSWERS: &str = "YNDYNDDDY";

// Reads a line of the authority's peer. False where there is none.
fn read_question(stream: &mut TcpStream) -> bool {
    let mut byte = [0];
    for expected in b"ask ntp says ok\n" {
        match stream.read(&mut byte) {
            Ok(1) if byte[0] == *expected => {}
            _ => return false,
        }
    }
    true
}

fn serve_one(stream: &mut TcpStream, answers: &str) {
    for answer in answers.split(",") {
        if read_question(stream) {
            let _sent = stream.write_all(answer.as_bytes());
        }
    }
}

// The authority: it serves the connections, and then one on which it hangs.
fn serve(listener: &TcpListener) {
    for answers in CONNECTIONS.split(";") {
        let Ok((mut stream, _)) = listener.accept() else {
            return;
        };
        serve_one(&mut stream, answers);
    }
    if let Ok((mut stream, _)) = listener.accept() {
        let _asked = read_question(&mut stream);
        let _closed = read_question(&mut stream);
    }
}

const OK: (u64, &[u8]) = (1, b"ntp says ok");

// A share connects for itself. In the history of its maker nothing shows of it, but that it was made.
fn share_is_denied<R>(rt: &R, alloc: Global, panel: &mut HostPanel<MemClock>) -> bool
where
    R: Net<Listener = TcpListener, Stream = TcpStream> + SystemClock + Abort,
    ensures { IsTrue result → panel.new.history ≡ with_call panel.old.history shared }
{
    match panel.share() {
        Shared::Made(mut share) => {
            let is_denied = answers(rt, alloc, &mut share, OK, "N");
            drop(share);
            is_denied
        }
        Shared::Failed | Shared::NoMemory => false,
    }
}

// Asserted within the thread: the authority would wait for the asks that are left. In the end one that hangs is given up: it has
// closed the connection of this panel, and then it takes a new one.
fn asks_in_turn<R>(rt: &R, alloc: Global, panel: &mut HostPanel<MemClock>, address: &[u8])
where
    R: Net<Listener = TcpListener, Stream = TcpStream> + SystemClock + Abort,
{
    assert!(rt; panel.reach(rt, 1, address) == Reach::Ready);
    assert!(rt; answers(rt, alloc, panel, OK, ANSWERS));
    assert!(rt; share_is_denied(rt, alloc, panel));
    assert!(rt; answers(rt, alloc, panel, OK, "DD"));
}

fn ask_all<R>(rt: &R, alloc: Global, address: &[u8]) -> bool
where
    R: Net<Listener = TcpListener, Stream = TcpStream> + SystemClock + Abort,
{
    match HostPanel::new(alloc, MemClock::new(Some(5))) {
        Ok(mut panel) => {
            asks_in_turn(rt, alloc, &mut panel, address);
            drop(panel);
            true
        }
        Err(AllocError) => false,
    }
}

fn is_lost<R>(rt: &R, alloc: Global, panel: &mut HostPanel<MemClock>, address: &[u8]) -> bool
where
    R: Net<Listener = TcpListener, Stream = TcpStream> + SystemClock + Abort,
{
    panel.reach(rt, 1, address) == Reach::Failed
        && panel.reach(rt, 1, b"no address") == Reach::Failed
        && answers(rt, alloc, panel, OK, "D")
}

fn finds_nobody<R>(rt: &R, alloc: Global, address: &[u8]) -> bool
where
    R: Net<Listener = TcpListener, Stream = TcpStream> + SystemClock + Abort,
{
    match HostPanel::new(alloc, MemClock::new(Some(5))) {
        Ok(mut panel) => {
            let is_lost = is_lost(rt, alloc, &mut panel, address);
            drop(panel);
            is_lost
        }
        Err(AllocError) => false,
    }
}

#[test]
fn an_authority_is_asked_over_tcp(rt: HostRuntime) -> Result<(), Fail> {
    let alloc = rt.alloc();
    let listener = TcpListener::bind(&rt, "127.0.0.1:0")?;
    let address = format!(in alloc; "{}", listener.local_addr()?)?;
    let (_, asked) = join(
        &rt,
        || serve(&listener),
        || ask_all(&rt, alloc, address.as_bytes()),
    );
    assert!(&rt; asked);

    // Nobody listens there any more.
    drop(listener);
    assert!(&rt; finds_nobody(&rt, alloc, address.as_bytes()));
    Ok(())
}
