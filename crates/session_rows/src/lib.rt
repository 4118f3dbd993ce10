//! Sessions over a shared board, row by row: the frames that each is asked, and what it must be told. It has tests alone.
#![tactic(auto)]

#[cfg(test)]
mod authorities;
#[cfg(test)]
mod boards;
#[cfg(test)]
mod calls;
#[cfg(test)]
mod ends;
#[cfg(test)]
mod frames;
#[cfg(test)]
mod plays;
#[cfg(test)]
mod records;
#[cfg(test)]
mod refusals;
#[cfg(test)]
mod sessions;
#[cfg(test)]
mod tables;
#[cfg(test)]
mod talks;
