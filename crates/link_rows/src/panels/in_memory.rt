ghost use Rattle.std.specs.Prelude.{◌≡◌, IsTrue};
ghost use Rattle.authority_ask.specs.PanelCalls.{shared, with_call};

use super::answers;
use authority_ask::{Ask, MemPanel, Panel};
use nx_io::{Reach, Shared};
use std::alloc::{AllocError, Global};
use std::net::{Net, TcpListener, TcpStream};
use std::process::Abort;
use std::rt::Clock;

const OK: (u64, &[u8]) = (0, b"ok");

// Whether the second reach fails alone.
fn reaches<R>(rt: &R, panel: &mut MemPanel) -> bool
where
    R: Net<Listener = TcpListener, Stream = TcpStream> + Clock + Abort,
{
    panel.reach(rt, 0, b"mem") == Reach::Ready
        && panel.reach(rt, 1, b"mem") == Reach::Failed
        && panel.reach(rt, 1, b"mem") == Reach::Ready
        && panel.faults() == 1
}

// Whether the first share fails, and the second answers from the first on.
fn shares<R>(rt: &R, alloc: Global, panel: &mut MemPanel) -> bool
where
    R: Net<Listener = TcpListener, Stream = TcpStream> + Clock + Abort,
{
    let share = panel.share();
    let fails = matches!(&share, Shared::Failed);
    drop(share);
    fails && panel.faults() == 3 && share_answers(rt, alloc, panel)
}

// A share is made, asked and dropped. In the history of its maker nothing shows of it, but that it was made.
fn share_answers<R>(rt: &R, alloc: Global, panel: &mut MemPanel) -> bool
where
    R: Net<Listener = TcpListener, Stream = TcpStream> + Clock + Abort,
    ensures { IsTrue result → panel.new.history ≡ with_call panel.old.history shared }
{
    match panel.share() {
        Shared::Made(mut share) => {
            let is_so = answers(rt, alloc, &mut share, OK, "YDMY") && counts(&share, 4, 1);
            drop(share);
            is_so
        }
        Shared::Failed | Shared::NoMemory => false,
    }
}

fn counts(panel: &MemPanel, asks: u64, faults: u64) -> bool {
    panel.asks() == asks && panel.faults() == faults
}

// Whether the calls of a share are its own: those of its maker count none of them.
fn shares_count_apart<R>(rt: &R, alloc: Global, panel: &mut MemPanel) -> bool
where
    R: Net<Listener = TcpListener, Stream = TcpStream> + Clock + Abort,
{
    let (asks, faults) = (panel.asks(), panel.faults());
    share_answers(rt, alloc, panel) && counts(panel, asks, faults)
}

// The answers come in order, whatever is asked, and then No.
fn try_out<R>(rt: &R, alloc: Global, panel: &mut MemPanel)
where
    R: Net<Listener = TcpListener, Stream = TcpStream> + Clock + Abort,
{
    assert!(rt; reaches(rt, panel));
    assert!(rt; answers(rt, alloc, panel, OK, "YDMYNN") && counts(panel, 6, 2));
    assert!(rt; shares(rt, alloc, panel));
    assert!(rt; shares_count_apart(rt, alloc, panel));
}

fn try_new<R>(rt: &R, alloc: Global) -> Result<(), AllocError>
where
    R: Net<Listener = TcpListener, Stream = TcpStream> + Clock + Abort,
{
    let given = [Ask::Yes, Ask::Down, Ask::NoMemory, Ask::Yes];
    let mut panel = MemPanel::new(alloc, &given, &[2], &[1])?;
    try_out(rt, alloc, &mut panel);
    drop(panel);
    Ok(())
}

#[test]
fn a_panel_in_memory_answers_as_it_was_told(rt: HostRuntime) -> Result<(), AllocError> {
    try_new(&rt, rt.alloc())
}
