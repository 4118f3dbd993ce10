//! What a caller asks about, and what it is told.
use std::marker::Copy;

/// A case by its number, with the numbers of its object and of its subject, whose labels it rests on.
#[derive(Clone, Copy, Debug, Drop, PartialEq, Eq)]
pub struct CasePlace {
    pub case: u64,
    pub object: u64,
    pub store: u64,
}

/// A verdict that may be kept: code 1 stands for allowed, 2 for no goal, 3 for no proof, and 4 for a wrong line, with
/// the numbers of the line and of its fault. Both are 0 with the other codes.
#[derive(Clone, Copy, Debug, Drop, PartialEq, Eq)]
pub struct Held {
    pub code: u64,
    pub line: u64,
    pub fault: u64,
}

/// What a look at a case gives: the verdict that holds at the point `at`, or nothing.
#[derive(Clone, Copy, Debug, Drop, PartialEq, Eq)]
pub enum Look {
    Hit { at: u64, held: Held },
    Miss,
}
