//! A board, its book and its passes, call by call: what each call answers, and what the words then are. It has tests alone.
#![tactic(auto)]

#[cfg(test)]
mod flags;
#[cfg(test)]
mod limits;
#[cfg(test)]
mod rolls;
#[cfg(test)]
mod rows;
#[cfg(test)]
mod slots;
#[cfg(test)]
mod two_threads;
