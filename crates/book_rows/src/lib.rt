//! Calls on a book, a board and two passes, row by row: what each is answered, and what is written. It has tests alone.
#![tactic(auto)]

#[cfg(test)]
mod calls;
#[cfg(test)]
mod changes;
#[cfg(test)]
mod held;
#[cfg(test)]
mod plays;
#[cfg(test)]
mod recordings;
#[cfg(test)]
mod rolls;
#[cfg(test)]
mod rows;
#[cfg(test)]
mod told;
