// Tables of rows, each an input, ` -> ` and what is told of it. In an input `|` stands for a new line, and once `{3*ab}` for ababab
// or `{3#ab}` for 1ab2ab3ab.
use nal_parse::ParseError;
use std::alloc::{AllocError, Global};
use std::process::Abort;

pub trait Call {
    // What the call answers to the bytes that an input spells.
    fn told(alloc: Global, input: &[u8]) -> Result<String, AllocError>;
}

pub fn play<C: Call>(rt: &impl Abort, alloc: Global, rows: &str) {
    for row in rows.lines() {
        assert!(rt; is_told::<C>(rt, alloc, row).is_ok());
    }
}

fn is_told<C: Call>(rt: &impl Abort, alloc: Global, row: &str) -> Result<(), AllocError> {
    let (input, wanted) = row.split_once(" -> ").unwrap_or(("", "two columns"));
    let input = spelled(alloc, input)?;
    let told = C::told(alloc, input.as_slice())?;
    assert!(rt; told.as_str() == wanted, "{row}, and not {told}");
    Ok(())
}

// The bytes that an input spells.
fn spelled(alloc: Global, input: &str) -> Result<Vec<u8>, AllocError> {
    let mut bytes = Vec::new(alloc);
    let (front, rest) = input.split_once("{").unwrap_or((input, ""));
    let (repeat, back) = rest.split_once("}").unwrap_or(("", ""));
    push_plain(&mut bytes, front)?;
    push_repeat(alloc, &mut bytes, repeat)?;
    push_plain(&mut bytes, back)?;
    Ok(bytes)
}

fn push_plain(bytes: &mut Vec<u8>, plain: &str) -> Result<(), AllocError> {
    for byte in plain.as_bytes() {
        bytes.push(if *byte == b'|' { b'\n' } else { *byte })?;
    }
    Ok(())
}

fn push_repeat(alloc: Global, bytes: &mut Vec<u8>, repeat: &str) -> Result<(), AllocError> {
    if let Some((times, repeated)) = repeat.split_once("*") {
        for _ in 0..times.parse::<u64>().unwrap_or(0) {
            push_plain(bytes, repeated)?;
        }
    }
    if let Some((times, repeated)) = repeat.split_once("#") {
        for number in 0..times.parse::<u64>().unwrap_or(0) {
            push_numbered(alloc, bytes, number.saturating_add(1), repeated)?;
        }
    }
    Ok(())
}

fn push_numbered(
    alloc: Global,
    bytes: &mut Vec<u8>,
    number: u64,
    repeated: &str,
) -> Result<(), AllocError> {
    push_number(alloc, bytes, number)?;
    push_plain(bytes, repeated)
}

pub fn push_number(alloc: Global, bytes: &mut Vec<u8>, number: u64) -> Result<(), AllocError> {
    let digits = format!(in alloc; "{number}")?;
    push_plain(bytes, digits.as_str())
}

// What is told of a text that is not read.
pub fn refused(alloc: Global, error: ParseError) -> Result<String, AllocError> {
    format!(in alloc; "{error:?}")
}
