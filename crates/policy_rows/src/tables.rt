//! The loop over a table of texts.
use crate::{cut_texts, journals, machines, peers, policies, replies, request_lines};
use std::alloc::{AllocError, Global};
use std::process::Abort;
use text_lines::read_number;

// What a row comes to, by the call that it tries.
fn told(alloc: Global, call: &str, input: &str) -> Result<String, AllocError> {
    match call {
        "read" => policies::read(alloc, input.as_bytes()),
        "read entries" => policies::read_entries(alloc, input),
        "read letters" => policies::read(alloc, &letters(alloc, input)?),
        "read head" => policies::read_head(alloc, input),
        "recover" => cut_texts::recovered_twice(alloc, input.as_bytes()),
        "recover letters" => cut_texts::recovered(alloc, &letters(alloc, input)?),
        "bundle" => peers::read(alloc, input.as_bytes()),
        "bundle letters" => peers::read(alloc, &letters(alloc, input)?),
        "carry" => peers::carried(alloc, input),
        "policy line" => policies::line_of(alloc, input),
        "form" => String::from_str(alloc, request_lines::form_read(alloc, input.as_bytes())),
        "long form" => request_lines::long_form(alloc, input),
        "spelled" => request_lines::spelled(alloc, input),
        "reply" => replies::reply_told(alloc, input),
        "cause" => replies::cause_told(alloc, input),
        "machine" => machines::told(alloc, input),
        "stage" => machines::acts_told(alloc, input),
        _ => Err(AllocError),
    }
}

// The first of the rows of a call that comes to something else, with what it comes to. Nothing where there is none.
fn first_other_of(alloc: Global, call: &str, rows: &str) -> Result<String, AllocError> {
    for row in rows.lines() {
        let row = row.replace(alloc, '|', "\n")?;
        let (input, wanted) = row
            .as_str()
            .split_once(" -> ")
            .unwrap_or((row.as_str(), "?"));
        let told = told(alloc, call, input)?;
        if told.as_str() != wanted {
            return format!(in alloc; "{input} -> {told}");
        }
    }
    Ok(String::new(alloc))
}

// As `first_other_of`, of a table, with the title above the row.
fn first_other(alloc: Global, table: &str) -> Result<String, AllocError> {
    for part in table.split("\n\n") {
        let (title, rows) = part.split_once("\n").unwrap_or((part, ""));
        let (call, _) = title.split_once(": ").unwrap_or(("", ""));
        let other = if call == "journal" {
            journals::first_other(alloc, rows)?
        } else {
            first_other_of(alloc, call, rows)?
        };
        if !other.is_empty() {
            return format!(in alloc; "{title}: {other}");
        }
    }
    Ok(String::new(alloc))
}

/// Asserts that each row of a table comes to what stands behind its arrow.
pub fn holds<R: Abort>(rt: &R, alloc: Global, table: &str) -> Result<(), AllocError> {
    let other = first_other(alloc, table)?;
    assert_eq!(rt; other.as_str(), "");
    Ok(())
}

/// The number that a text writes, or 0.
pub fn number(text: &str) -> u64 {
    read_number(text.as_bytes()).unwrap_or(0)
}

/// The bytes as a text.
pub fn text_of(alloc: Global, bytes: &[u8]) -> Result<String, AllocError> {
    match str::from_utf8(bytes) {
        Ok(text) => String::from_str(alloc, text),
        Err(_) => Err(AllocError),
    }
}

// So many letters as the text says.
fn letters(alloc: Global, text: &str) -> Result<Vec<u8>, AllocError> {
    vec![in alloc; b'x'; number(text) as usize]
}
