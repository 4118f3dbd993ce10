// What is told of a row, as text.
use std::alloc::{AllocError, Global};

pub fn is_told(told: Result<String, AllocError>, wanted: &str) -> bool {
    match told {
        Ok(text) => text.as_str() == wanted,
        Err(AllocError) => false,
    }
}

// The numbers of a list such as `1,2`; none of `-`.
pub fn numbers(alloc: Global, list: &str) -> Result<Vec<u64>, AllocError> {
    let mut numbers = Vec::new(alloc);
    for number in list.split(',') {
        if let Ok(number) = number.parse::<u64>() {
            numbers.push(number)?;
        }
    }
    Ok(numbers)
}

// A number, or 0.
pub fn number(word: &str) -> usize {
    word.parse::<usize>().unwrap_or(0)
}

// Bytes that are letters; none of `-`.
pub fn letters(word: &str) -> &[u8] {
    if word == "-" { b"" } else { word.as_bytes() }
}

pub fn text_of(bytes: &[u8]) -> &str {
    str::from_utf8(bytes).unwrap_or("no text")
}
