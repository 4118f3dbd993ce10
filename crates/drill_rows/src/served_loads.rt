//! Runs of loads. The lines of many calls were worked out by a program written apart from this one.
use service_drill::drill_text;
use std::alloc::{AllocError, Global};
use std::net::{Net, TcpListener, TcpStream};
use std::rt::Clock;
use std::sync::Wait;
use std::thread::Threads;

// Whether the line of a run is this one.
fn is_line<R>(
    rt: &R,
    alloc: Global,
    number: u64,
    workers: u64,
    calls: u64,
    line: &[u8],
) -> Result<bool, AllocError>
where
    R: Net<Listener = TcpListener, Stream = TcpStream> + Clock + Wait + Threads + Sync,
{
    if workers < 1 || workers > 64 || calls > 4000 {
        return Ok(false);
    }
    let text = drill_text(rt, alloc, number, workers, calls)?;
    Ok(text.as_slice() == line)
}

#[test]
fn one_worker_with_one_call(rt: HostRuntime) -> Result<(), AllocError> {
    let line = b"workers 1 requests 8 allowed 1 denied 0 length 6\n";
    assert!(rt; is_line(&rt, rt.alloc(), 0, 1, 1, line)?);
    Ok(())
}

#[test]
fn two_workers_tell_the_same_twice(rt: HostRuntime) -> Result<(), AllocError> {
    let line = b"workers 2 requests 94 allowed 41 denied 17 length 34\n";
    assert!(rt; is_line(&rt, rt.alloc(), 7, 2, 40, line)?);
    assert!(rt; is_line(&rt, rt.alloc(), 7, 2, 40, line)?);
    Ok(())
}

#[test]
fn workers_without_calls(rt: HostRuntime) -> Result<(), AllocError> {
    let line = b"workers 3 requests 21 allowed 0 denied 0 length 18\n";
    assert!(rt; is_line(&rt, rt.alloc(), 5, 3, 0, line)?);
    Ok(())
}

#[test]
fn as_many_workers_as_there_may_be(rt: HostRuntime) -> Result<(), AllocError> {
    let line = b"workers 64 requests 6848 allowed 3606 denied 1171 length 2007\n";
    assert!(rt; is_line(&rt, rt.alloc(), 18_446_744_073_709_551_600, 64, 100, line)?);
    Ok(())
}
