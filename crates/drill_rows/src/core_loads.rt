//! Lines of loads. That of a thousand steps was worked out by a program written apart from this one.
use nexus_drill::core_text;
use std::alloc::{AllocError, Global};

// Whether the line of a load is this one.
fn is_line(alloc: Global, number: u64, steps: u64, line: &[u8]) -> Result<bool, AllocError> {
    let text = core_text(alloc, number, steps)?;
    Ok(text.as_slice() == line)
}

#[test]
fn one_step_is_a_snap(rt: HostRuntime) -> Result<(), AllocError> {
    let line = b"steps 1 idle 0 writes 0 allowed 0 denied 0 length 4\n";
    assert!(rt; is_line(rt.alloc(), 0, 1, line)?);
    Ok(())
}

#[test]
fn no_step_leaves_the_journal(rt: HostRuntime) -> Result<(), AllocError> {
    let line = b"steps 0 idle 0 writes 0 allowed 0 denied 0 length 4\n";
    assert!(rt; is_line(rt.alloc(), 7, 0, line)?);
    Ok(())
}

#[test]
fn a_thousand_steps_with_a_hit(rt: HostRuntime) -> Result<(), AllocError> {
    let line = b"steps 1000 idle 869 writes 12 allowed 10 denied 11 length 16\n";
    assert!(rt; is_line(rt.alloc(), 7, 1000, line)?);
    Ok(())
}
