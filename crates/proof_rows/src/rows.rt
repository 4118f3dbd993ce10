// Tables of rows, each an input, ` -> ` and what is told of it. In both `|` stands for a new line. In an input stand once, if at all,
// `{3*ab}` for ababab, `{2-3 ask : p}` for ` ; 2 ask : p ; 3 ask : p`, and `{2-3 eq_sym}` for lines that turn `1 = 2` in turn.
use std::alloc::{AllocError, Global};
use std::process::Abort;

pub trait Call {
    // What the call answers to the text that an input spells.
    fn told(alloc: Global, input: &str) -> Result<String, AllocError>;
}

pub fn play<C: Call>(rt: &impl Abort, alloc: Global, rows: &str) {
    for row in rows.lines() {
        assert!(rt; is_told::<C>(rt, alloc, row).is_ok());
    }
}

fn is_told<C: Call>(rt: &impl Abort, alloc: Global, row: &str) -> Result<(), AllocError> {
    let (input, wanted) = row.split_once(" -> ").unwrap_or(("", "two columns"));
    let input = spelled(alloc, input)?;
    let told = C::told(alloc, text_of(input.as_slice()))?;
    let wanted = spelled(alloc, wanted)?;
    assert!(rt;
        told.as_str().as_bytes() == wanted.as_slice(),
        "{row}, and not {told}"
    );
    Ok(())
}

pub fn text_of(bytes: &[u8]) -> &str {
    str::from_utf8(bytes).unwrap_or("no text")
}

fn spelled(alloc: Global, input: &str) -> Result<Vec<u8>, AllocError> {
    let mut bytes = Vec::new(alloc);
    let (front, rest) = input.split_once("{").unwrap_or((input, ""));
    let (repeat, back) = rest.split_once("}").unwrap_or(("", ""));
    push_plain(&mut bytes, front)?;
    push_repeat(alloc, &mut bytes, repeat)?;
    push_plain(&mut bytes, back)?;
    Ok(bytes)
}

fn push_plain(bytes: &mut Vec<u8>, plain: &str) -> Result<(), AllocError> {
    for byte in plain.as_bytes() {
        bytes.push(if *byte == b'|' { b'\n' } else { *byte })?;
    }
    Ok(())
}

fn push_repeat(alloc: Global, bytes: &mut Vec<u8>, repeat: &str) -> Result<(), AllocError> {
    if let Some((times, repeated)) = repeat.split_once("*") {
        for _ in 0..number(times) {
            push_plain(bytes, repeated)?;
        }
    } else if let Some((numbers, line)) = repeat.split_once(" ") {
        let (first, last) = numbers.split_once("-").unwrap_or(("", ""));
        for line_number in number(first)..number(last).saturating_add(1) {
            push_line(alloc, bytes, line_number, line)?;
        }
    }
    Ok(())
}

fn number(digits: &str) -> u64 {
    digits.parse::<u64>().unwrap_or(0)
}

fn push_line(
    alloc: Global,
    bytes: &mut Vec<u8>,
    number: u64,
    line: &str,
) -> Result<(), AllocError> {
    let turned = if number % 2 == 0 { "2 = 1" } else { "1 = 2" };
    let line = if line == "eq_sym" {
        format!(in alloc;
            " ; {number} eq_sym {} : {turned}",
            number.saturating_sub(1)
        )?
    } else {
        format!(in alloc; " ; {number} {line}")?
    };
    push_plain(bytes, line.as_str())
}
